//! The paths of all leaves in trees of up to 20 leaves are the worked ones.

use super::*;
use crate::growing::are_made;
use merkle_tree::fold_path;
use std::alloc::{AllocError, Global};

// Digests that stand beside leaves of the trees by SHA-256, one a line. The first has the letter A, the 27th a.
pub(super) const SIDES: &str = "b413f47d13ee2fe6c845b2ee141af81de858df4ec549a58b7970bb96645bc8d2
96a296d224f285c67bee93c30f8a309157f0daa35dc5b87e410b78630a09cfc7
fcf0a6c700dd13e274b6fba8deea8dd9b26e4eedde3495717cac8408c9c5177f
a20bf9a7cc2dc8a08f5f415a71b19f6ac427bab54d24eec868b5d3103449953a
52c56b473e5246933e7852989cd9feba3b38f078742b93afff1e65ed46797825
583c7dfb7b3055d99465544032a571e10a134b1b6f769422bbb71fd7fa167a5d
4f35212d12f9ad2036492c95f1fe79baf4ec7bd9bef3dffa7579f2293ff546a4
9bcd51240af4005168f033121ba85be5a6ed4f0e6a5fac262066729b8fbfdecb
4b8c129ed14cce2c08cfc6766db7f8cdb133b5f698b8de3d5890ea7ff7f0a8d1
9f1afa4dc124cba73134e82ff50f17c8f7164257c79fed9a13f5943a6acb8e3d
89c929834ed1459b07f65b5e1a2143a8cf5d8efdf30f49ffffa328bb1d9133bb
40d88127d4d31a3891f41598eeed41174e5bc89b1eb9bbd66a8cbfc09956a3fd
c1fe42b33ebb8e8a7e4a90abc481c7434e2be02cff2f6a18d7ffab4f1e25891b
bbb0feb32f648c73fe170518bcec1f675af1b780dc23d6fbf30b745c1ca5fa11
2ecd8a6b7d2845546659ad4cf443533cf921b19dc81fa83934e83821b4dfdcb7
b4c43b50bf245bd727623e3c775a8fcfb8d823d00b57dd65f7f79dd33f126315
ef7f49b620f6c7ea9b963a214da34b5021c6ded8ed57734380a311ab726aa907
f7e08e9a9e87822bd79a0bf24d14c7a431be807336bd3c50ccb2d249b2a91404
c87479cd656e7e3ad6bd8db402e8027df454b2b0c42ff29e093458beb98a23d4
e4b894272eb88bed1830cbef82d1c7aee37612a9e7131a5bdd0ae1a6e8f3ff50
67ebbd370daa02ba9aadd05d8e091e862d0d8bcadafdf2a22360240a42fe922e
4e2757c82865d7d2cc00fed50a28e94713285335d78cd6f31d3fe84f11ae0e66
a71b65d4c039f9d0339d35dee6af65ebaf3d17c130ec25d0a11d67c82d4bc93d
f09a7a12954169ae595d12d870e69a4c0092003157d72523d626d2a3990241e2
cc7376d91fe7b67209b305915b21ab4a0f0070b40582c74ec402e8074912a51d
fe251e4dd034dcf589c84794120c85d6015d65ca7d9a2c2ec73c9ecb5e33d83b
bf8d06505ddfc8038844b541d508c47281a83b54695fef1700d079dbf0f4ee43
3a69e8d9fb230ddc4249a145eed53830e11196854bd4e5880763f24e55eec93d
a1f386a0ecb061b3c46a038616212779858ba7258b2eccb818a64986c97282da
7149c708339b017d85b9e6ff657f4f2b47911f45fcf877d56b6e5cf1f68d0992
c66f002ecd5a166b0f4b22c3cc3420810c22c5c2bc590ea7c01b078aa708e786
9f4917386c45e2c0da0d9b475f1a19cf2db1e929195c6a9f4966ca0d2105b196
8daa0f1062f528c534c9787dac0b68e6096cc3ffd7f7d8e11285057dbaeb97a8
9ed75999ec97590bc918c2a3fc0ca7b3f44fe52b15159cee84a81b68d0278ee7
e80cc247985bb408a9484b6fd53b538c321cab413033bb288ba55747dfadb6ba
3b2b7c6ee25e2f28a6235e273eaf13f504bd445024147ebacb878262aae90509
0298d122906dcfc10892cb53a73992fc5b9f493ea4c9badb27b791b4127a7fe7
93f2bd0cd60b2e597cf53fb12ae63ed157e0c10efbfe097d23caf8a5f59c6e27
8d3dabcd931b79f983f6ea50b6756ea7adbbc8a95ed5450bfb97a1341de833d7
2ed348343ad2d93bbbfc7316cde45c693a36a3d4fde8b39b1449067b1603b90d
191744f21deb560ed5c10ef40a6a142fa072298e858b951cbe5e1252c1eba7b6
c493f6f146685f76b44f0c77ca88120cb8bc89f534fe69b6828827b974e68849
84c20665c30e9ebaf723d9b98ac4b96a824aef4b93c6406f59410f9ebf0a31c9
8c71f478aabd97d40820235caef34cc28ba19492e0d923280cffec5515f7b36e
d877a5674d893efd846208dbd80db16fca065c907405986f233d76c3fdb936a2";

// The paths of the trees of 2 leaves and more, a tree a line: for each leaf a word, for each digest its letter.
const PATHS: &str = "A B
AC BC D
AE BE FD CD
AEG BEG FDG CDG H
AEI BEI FDI CDI JH GH
AEK BEK FDK CDK JLH GLH IH
AEM BEM FDM CDM JNH GNH OIH LIH
AEMP BEMP FDMP CDMP JNHP GNHP OIHP LIHP Q
AEMR BEMR FDMR CDMR JNHR GNHR OIHR LIHR SQ PQ
AEMT BEMT FDMT CDMT JNHT GNHT OIHT LIHT SUQ PUQ RQ
AEMV BEMV FDMV CDMV JNHV GNHV OIHV LIHV SWQ PWQ XRQ URQ
AEMY BEMY FDMY CDMY JNHY GNHY OIHY LIHY SWZQ PWZQ XRZQ URZQ VQ
AEMa BEMa FDMa CDMa JNHa GNHa OIHa LIHa SWbQ PWbQ XRbQ URbQ cVQ ZVQ
AEMd BEMd FDMd CDMd JNHd GNHd OIHd LIHd SWeQ PWeQ XReQ UReQ cfVQ ZfVQ bVQ
AEMg BEMg FDMg CDMg JNHg GNHg OIHg LIHg SWhQ PWhQ XRhQ URhQ ciVQ ZiVQ jbVQ fbVQ
AEMgk BEMgk FDMgk CDMgk JNHgk GNHgk OIHgk LIHgk SWhQk PWhQk XRhQk URhQk ciVQk ZiVQk jbVQk fbVQk l
AEMgm BEMgm FDMgm CDMgm JNHgm GNHgm OIHgm LIHgm SWhQm PWhQm XRhQm URhQm ciVQm ZiVQm jbVQm fbVQm nl kl
AEMgo BEMgo FDMgo CDMgo JNHgo GNHgo OIHgo LIHgo SWhQo PWhQo XRhQo URhQo ciVQo ZiVQo jbVQo fbVQo npl kpl ml
AEMgq BEMgq FDMgq CDMgq JNHgq GNHgq OIHgq LIHgq SWhQq PWhQq XRhQq URhQq ciVQq ZiVQq jbVQq fbVQq nrl krl sml pml";

// The digest of a letter.
fn side_of(sides: &[Digest], letter: u8) -> Option<Digest> {
    let place = match letter {
        b'A'..=b'Z' => letter - b'A',
        b'a'..=b'z' => letter - b'a' + 26,
        _ => return None,
    };
    sides.get(place as usize).copied()
}

// The digests of a word, and the same one after the other.
pub(super) fn digests_of(
    alloc: Global,
    sides: &[Digest],
    word: &str,
) -> Result<(Vec<Digest>, Vec<u8>), AllocError> {
    let mut digests = Vec::new(alloc);
    let mut flat = Vec::new(alloc);
    for letter in word.bytes() {
        if let Some(side) = side_of(sides, letter) {
            digests.push(side)?;
            flat.extend_from_slice(&side.0)?;
        }
    }
    Ok((digests, flat))
}

// The digests that stand beside leaves, in the order of their letters.
pub(super) fn all_sides(alloc: Global) -> Result<Vec<Digest>, Fail> {
    let mut sides = Vec::new(alloc);
    for line in SIDES.lines() {
        sides.push(digest(line)?)?;
    }
    Ok(sides)
}

// Are these words the paths of the leaves, and do they lead to this root?
fn are_paths(
    alloc: Global,
    sides: &[Digest],
    tree: &Tree<Sha>,
    root: &Digest,
    words: &str,
) -> Result<bool, Fail> {
    let size = tree.size();
    for (n, word) in words.split(' ').enumerate() {
        let n = n as u64;
        let (digests, flat) = digests_of(alloc, sides, word)?;
        let leaf = tree.leaf(n)?;
        if !are_made(tree.path(n, size), &digests)
            || fold_path::<Sha>(&leaf, n, size, &flat) != Some(*root)
        {
            return Ok(false);
        }
    }
    Ok(true)
}

#[test]
fn paths_by_sha(rt: HostRuntime) -> Result<(), Fail> {
    let sides = all_sides(rt.alloc())?;
    let mut tree: Tree<Sha> = Tree::new(rt.alloc());
    add(&mut tree, &[digest(TREES[0].0)?])?;
    for (words, (leaf, root)) in PATHS.lines().zip(&TREES[1..]) {
        add(&mut tree, &[digest(leaf)?])?;
        let root = digest(root)?;
        assert!(rt;
            are_paths(rt.alloc(), &sides, &tree, &root, words)?,
            "at {words}"
        );
    }
    Ok(())
}
