//! Clues keep their counts when journals are dropped, and an index goes on from the states at a point.

use clue_index::{ClueIndex, ClueState};
use ledger_bytes::{Digest, NoMemory};
use std::process::Abort;
use std::test::Fail;

const RED: Digest = Digest([1; 32]);

const BLUE: Digest = Digest([2; 32]);

const NONE: Digest = Digest([0; 32]);

/// Whether so many journals have had this clue, of which these are kept.
fn has(index: &ClueIndex, clue: &Digest, count: u32, kept: &[u64]) -> Result<bool, NoMemory> {
    let (found, numbers) = index.of(clue)?;
    Ok(found == count && numbers.as_slice() == kept)
}

/// Adds journals to clues.
fn add_all(index: &mut ClueIndex, journals: &[(Digest, u64)]) -> Result<(), NoMemory> {
    for (clue, jsn) in journals {
        index.add(clue, *jsn)?;
    }
    Ok(())
}

#[test]
fn clues_over_a_drop(rt: HostRuntime) -> Result<(), Fail> {
    let mut index = ClueIndex::new(rt.alloc());
    go_on_behind_a_drop(&rt, &mut index)
}

fn go_on_behind_a_drop(rt: &impl Abort, index: &mut ClueIndex) -> Result<(), Fail> {
    assert_eq!(rt; index.next_of(&RED), (1, 0));
    add_all(index, &[(BLUE, 2), (RED, 3), (BLUE, 5), (BLUE, 9)])?;
    assert_eq!(rt; (index.next_of(&BLUE), index.clues()), ((4, 9), 2));
    index.drop_below(5);
    index.drop_below(4);
    for (clue, count, kept) in [(BLUE, 3, [5, 9].as_slice()), (RED, 1, &[]), (NONE, 0, &[])] {
        assert!(rt; has(index, &clue, count, kept)?);
    }
    index.add(&RED, 11)?;
    assert_eq!(rt;
        (index.next_of(&RED), index.next_of(&BLUE)),
        ((3, 11), (4, 9))
    );
    assert_eq!(rt; index.clues(), 2);
    Ok(())
}

const GREEN: Digest = Digest([3; 32]);

fn state(clue: Digest, count: u32, last: u64) -> ClueState {
    ClueState { clue, count, last }
}

/// The clues of a base at point 21.
fn at_21() -> [ClueState; 2] {
    [state(RED, 7, 20), state(GREEN, 1, 4)]
}

/// .. and those of the same ledger at point 24.
fn at_24() -> [ClueState; 3] {
    [state(RED, 8, 22), state(BLUE, 2, 23), state(GREEN, 1, 4)]
}

/// Whether these are the clues at this point.
fn are_at(index: &ClueIndex, point: u64, states: &[ClueState]) -> Result<bool, NoMemory> {
    Ok(index.state_at(point)?.as_slice() == states)
}

#[test]
fn states_at_a_point(rt: HostRuntime) -> Result<(), Fail> {
    let mut index = ClueIndex::from_states(rt.alloc(), &at_21())?;
    go_on_from_a_base(&rt, &mut index)
}

fn go_on_from_a_base(rt: &impl Abort, index: &mut ClueIndex) -> Result<(), Fail> {
    assert!(rt; are_at(index, 21, &at_21())?);
    add_all(index, &[(BLUE, 21), (RED, 22), (BLUE, 23), (BLUE, 24)])?;
    index.drop_below(22);
    assert_eq!(rt; (index.clues(), index.next_of(&RED)), (3, (9, 22)));
    assert!(rt; are_at(index, 24, &at_24())?);
    Ok(())
}

#[test]
fn states_are_taken_again(rt: HostRuntime) -> Result<(), Fail> {
    let index = ClueIndex::from_states(rt.alloc(), &at_24())?;
    assert!(rt; are_at(&index, 24, &at_24())?);
    assert_eq!(rt; index.next_of(&BLUE), (3, 23));
    Ok(())
}
