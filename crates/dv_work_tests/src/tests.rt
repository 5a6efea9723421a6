//! Scenarios worked by hand: what a shelf holds after each of their steps.
mod failing;

use dv_work::Shelf;
use std::alloc::{AllocError, Global};
use std::process::Abort;
use std::test::Fail;

// How many entries are put where memory is ample.
const MANY: u64 = 100;

// One step of a scenario.
enum Step {
    // A key gets a value, and the state before is kept.
    Put(u64, u64),
    // A key gets a value in the state that is there.
    AmendPut(u64, u64),
    // A key that is there is taken, and the state before is kept.
    Take(u64),
    // A key that isn't there is taken: nothing changes.
    TakeMissing(u64),
    // A key that is there is taken from the state that is there.
    AmendTake(u64),
    // The same of a key that isn't there: nothing changes.
    AmendTakeMissing(u64),
    // All is as it was at a mark.
    UndoTo(usize),
    // The earlier states are dropped.
    Forget,
    // So many earlier states are kept.
    Keeps(usize),
    // The shelf holds these entries, in order.
    Holds(&'static [(u64, u64)]),
    // The keys touched since a mark, with what each had.
    Touched(usize, &'static [(u64, Option<u64>)]),
}

use Step::{
    AmendPut, AmendTake, AmendTakeMissing, Forget, Holds, Keeps, Put, Take, TakeMissing, Touched,
    UndoTo,
};

const A_PUT_OVER_A_TAKEN_KEY: [Step; 11] = [
    Put(1, 10),
    Put(2, 20),
    Take(1),
    Keeps(3),
    Put(1, 11),
    Holds(&[(1, 11), (2, 20)]),
    UndoTo(3),
    Holds(&[(2, 20)]),
    Put(1, 12),
    Forget,
    Holds(&[(1, 12), (2, 20)]),
];

const A_TAKE_OF_A_MISSING_KEY: [Step; 7] = [
    Put(2, 20),
    TakeMissing(1),
    Keeps(1),
    Take(2),
    TakeMissing(2),
    Keeps(2),
    Holds(&[]),
];

const MARKS_IN_MARKS: [Step; 15] = [
    Put(1, 10),
    Keeps(1),
    Put(2, 20),
    Keeps(2),
    Take(1),
    Put(2, 21),
    UndoTo(2),
    Holds(&[(1, 10), (2, 20)]),
    Put(3, 30),
    UndoTo(2),
    Holds(&[(1, 10), (2, 20)]),
    UndoTo(1),
    Holds(&[(1, 10)]),
    UndoTo(0),
    Holds(&[]),
];

const A_ROW_AND_ITS_INDEX_ENTRIES: [Step; 11] = [
    Put(1, 10),
    AmendPut(110, 0),
    Keeps(1),
    Put(1, 11),
    AmendTake(110),
    AmendTakeMissing(110),
    AmendPut(111, 0),
    Keeps(2),
    Holds(&[(1, 11), (111, 0)]),
    UndoTo(1),
    Holds(&[(1, 10), (110, 0)]),
];

const TOUCHED_KEYS: [Step; 9] = [
    Put(1, 10),
    Put(2, 20),
    Keeps(2),
    Put(3, 30),
    Put(2, 21),
    Put(2, 22),
    Take(3),
    Touched(2, &[(2, Some(20)), (3, None)]),
    Touched(6, &[]),
];

// Whether a shelf has exactly these entries, in order.
fn holds(shelf: &Shelf<u64, u64>, entries: &[(u64, u64)]) -> bool {
    let mut after = None;
    for (key, value) in entries {
        if shelf.next_after(after) != Some((key, value)) {
            return false;
        }
        after = Some(key);
    }
    shelf.next_after(after).is_none()
}

// Whether exactly these keys were touched since a mark, each once, with what it had.
fn touched(
    shelf: &Shelf<u64, u64>,
    mark: usize,
    wanted: &[(u64, Option<u64>)],
) -> Result<bool, AllocError> {
    if mark > shelf.mark() {
        return Ok(false);
    }
    let touched = shelf.touched_since(mark)?;
    for (key, before) in wanted {
        let Some(had) = touched.get(key) else {
            return Ok(false);
        };
        if had.copied() != *before {
            return Ok(false);
        }
    }
    Ok(touched.len() == wanted.len())
}

// Takes a step, and tells whether it went as the scenario says.
fn goes(shelf: &mut Shelf<u64, u64>, step: &Step) -> Result<bool, AllocError> {
    Ok(match *step {
        Put(key, value) => shelf.put(key, value).is_ok(),
        AmendPut(key, value) => shelf.amend_put(key, value).is_ok(),
        Take(key) => shelf.take(&key)?,
        TakeMissing(key) => !shelf.take(&key)?,
        AmendTake(key) => shelf.amend_take(&key)?,
        AmendTakeMissing(key) => !shelf.amend_take(&key)?,
        UndoTo(mark) => {
            let is_kept = mark <= shelf.mark();
            if is_kept {
                shelf.undo_to(mark);
            }
            is_kept
        }
        Forget => {
            shelf.forget();
            true
        }
        Keeps(mark) => shelf.mark() == mark,
        Holds(entries) => holds(shelf, entries),
        Touched(mark, wanted) => touched(shelf, mark, wanted)?,
    })
}

fn assert_goes(rt: &impl Abort, alloc: Global, name: &str, steps: &[Step]) -> Result<(), Fail> {
    let mut shelf = Shelf::new(alloc);
    for (number, step) in steps.iter().enumerate() {
        let went = goes(&mut shelf, step)?;
        assert!(rt; went, "{name}: step {number}");
    }
    Ok(())
}

#[test]
fn scenarios_go_as_worked_by_hand(rt: HostRuntime) -> Result<(), Fail> {
    let alloc = rt.alloc();
    assert_goes(
        &rt,
        alloc,
        "a put over a taken key is undone",
        &A_PUT_OVER_A_TAKEN_KEY,
    )?;
    assert_goes(
        &rt,
        alloc,
        "a take of a missing key adds no state",
        &A_TAKE_OF_A_MISSING_KEY,
    )?;
    assert_goes(&rt, alloc, "marks stand in marks", &MARKS_IN_MARKS)?;
    assert_goes(
        &rt,
        alloc,
        "a row and its index entries are one state",
        &A_ROW_AND_ITS_INDEX_ENTRIES,
    )?;
    assert_goes(&rt, alloc, "each touched key is told once", &TOUCHED_KEYS)
}

#[test]
fn puts_and_takes_succeed_with_ample_memory(rt: HostRuntime) -> Result<(), Fail> {
    let mut shelf = Shelf::new(rt.alloc());
    for key in 0..MANY {
        let is_put = shelf.put(MANY - key, key).is_ok();
        assert!(rt; is_put);
    }
    assert_eq!(rt; shelf.get(&7), Some(&93));
    for key in 3..=MANY {
        let is_taken = shelf.take(&key)?;
        assert!(rt; is_taken);
    }
    assert_eq!(rt; shelf.mark(), 198);
    assert!(rt; holds(&shelf, &[(1, 99), (2, 98)]));
    shelf.forget();
    assert_eq!(rt; shelf.mark(), 0);
    assert!(rt; holds(&shelf, &[(1, 99), (2, 98)]));
    Ok(())
}
