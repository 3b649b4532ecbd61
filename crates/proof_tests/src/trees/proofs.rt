//! The proofs from each tree of up to 20 leaves to a later one are the worked ones, and no others lead there.

use super::paths::{all_sides, digests_of};
use super::*;
use crate::growing::are_made;
use ledger_bytes::TreeHash;
use merkle_tree::fold_proof;
use std::alloc::Global;

// The proofs of the trees of 2 leaves and more, a tree a line: for each number of first leaves a word, for each digest
// the letter that it has among the sides of paths.
const PROOFS: &str = "A -
AC C -
AE E CFD -
AEG EG CFDG G -
AEI EI CFDI I GJH -
AEK EK CFDK K GJLH ILH -
AEM EM CFDM M GJNH INH LOIH -
AEMP EMP CFDMP MP GJNHP INHP LOIHP P -
AEMR EMR CFDMR MR GJNHR INHR LOIHR R PSQ -
AEMT EMT CFDMT MT GJNHT INHT LOIHT T PSUQ RUQ -
AEMV EMV CFDMV MV GJNHV INHV LOIHV V PSWQ RWQ UXRQ -
AEMY EMY CFDMY MY GJNHY INHY LOIHY Y PSWZQ RWZQ UXRZQ VZQ -
AEMa EMa CFDMa Ma GJNHa INHa LOIHa a PSWbQ RWbQ UXRbQ VbQ ZcVQ -
AEMd EMd CFDMd Md GJNHd INHd LOIHd d PSWeQ RWeQ UXReQ VeQ ZcfVQ bfVQ -
AEMg EMg CFDMg Mg GJNHg INHg LOIHg g PSWhQ RWhQ UXRhQ VhQ ZciVQ biVQ fjbVQ -
AEMgk EMgk CFDMgk Mgk GJNHgk INHgk LOIHgk gk PSWhQk RWhQk UXRhQk VhQk ZciVQk biVQk fjbVQk k -
AEMgm EMgm CFDMgm Mgm GJNHgm INHgm LOIHgm gm PSWhQm RWhQm UXRhQm VhQm ZciVQm biVQm fjbVQm m knl -
AEMgo EMgo CFDMgo Mgo GJNHgo INHgo LOIHgo go PSWhQo RWhQo UXRhQo VhQo ZciVQo biVQo fjbVQo o knpl mpl -
AEMgq EMgq CFDMgq Mgq GJNHgq INHgq LOIHgq gq PSWhQq RWhQq UXRhQq VhQq ZciVQq biVQq fjbVQq q knrl mrl psml -";

// Is this root led to from an old root along no more than the digests of a proof? Not from another one, nor with the
// sizes exchanged, a digest fewer or one more.
fn leads_alone<H: TreeHash>(
    (m, old): (u64, &Digest),
    (size, root): (u64, &Digest),
    flat: &[u8],
    more: &[u8],
) -> bool {
    let fewer = match flat.split_last_chunk::<32>() {
        Some((fewer, _)) => fold_proof::<H>(m, old, size, fewer),
        None => None,
    };
    fold_proof::<H>(m, old, size, flat) == Some(*root)
        && fold_proof::<H>(m, &Digest([0; 32]), size, flat) != Some(*root)
        && (m == size || fold_proof::<H>(size, old, m, flat) != Some(*root))
        && fold_proof::<H>(m, old, size, more) != Some(*root)
        && fewer != Some(*root)
}

// Are these words the proofs of the first leaves, and do they alone lead to this root?
fn are_proofs(
    alloc: Global,
    sides: &[Digest],
    tree: &Tree<Sha>,
    root: &Digest,
    words: &str,
) -> Result<bool, Fail> {
    for (word, (m, (_, old))) in words.split(' ').zip((1..=20).zip(&TREES)) {
        let old = digest(old)?;
        let (digests, flat) = digests_of(alloc, sides, word)?;
        let mut more = flat.to_vec(alloc)?;
        more.extend_from_slice(&old.0)?;
        let size = tree.size();
        if !are_made(tree.proof(m, size), &digests)
            || !leads_alone::<Sha>((m, &old), (size, root), &flat, &more)
        {
            return Ok(false);
        }
    }
    Ok(true)
}

#[test]
fn proofs_by_sha(rt: HostRuntime) -> Result<(), Fail> {
    let sides = all_sides(rt.alloc())?;
    let mut tree: Tree<Sha> = Tree::new(rt.alloc());
    add(&mut tree, &[digest(TREES[0].0)?])?;
    for (words, (leaf, root)) in PROOFS.lines().zip(&TREES[1..]) {
        add(&mut tree, &[digest(leaf)?])?;
        let root = digest(root)?;
        assert!(rt;
            are_proofs(rt.alloc(), &sides, &tree, &root, words)?,
            "at {words}"
        );
    }
    Ok(())
}
