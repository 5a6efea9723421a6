// A keeper in memory: what it answers after changes, and what a failing call leaves.
use dv_keeper::{Bytes, Cell, Change, Keeper, KeeperFault, MemKeeper};
use std::alloc::{AllocError, Global};
use std::test::Fail;

fn put(alloc: Global, sheet: u8, key: &[u8], value: &[u8]) -> Result<Change, AllocError> {
    Ok(Change::Put {
        sheet,
        key: Bytes::from_slice(alloc, key)?,
        value: Bytes::from_slice(alloc, value)?,
    })
}

fn take(alloc: Global, sheet: u8, key: &[u8]) -> Result<Change, AllocError> {
    Ok(Change::Take {
        sheet,
        key: Bytes::from_slice(alloc, key)?,
    })
}

// Whether an answer is a cell with this key and value, or none.
fn is_cell(answer: &Option<Cell>, expected: Option<(&[u8], &[u8])>) -> bool {
    match (answer, expected) {
        (Some(cell), Some((key, value))) => {
            cell.key.as_slice() == key && cell.value.as_slice() == value
        }
        (None, None) => true,
        _ => false,
    }
}

// What a keeper with these cells answers after a key of a sheet: [7] of sheet 1; [], [7, 0], [7, 1]
// and [8] of sheet 2; none of sheet 3.
const ANSWERS: &[(u8, Option<&[u8]>, Option<(&[u8], &[u8])>)] = &[
    (1, None, Some((&[7], &[70]))),
    (1, Some(&[6, 255]), Some((&[7], &[70]))),
    (1, Some(&[7]), None),
    (2, None, Some((&[], &[1, 2]))),
    (2, Some(&[]), Some((&[7, 0], &[3]))),
    (2, Some(&[7]), Some((&[7, 0], &[3]))),
    (2, Some(&[7, 0]), Some((&[7, 1], &[]))),
    (2, Some(&[7, 0, 0]), Some((&[7, 1], &[]))),
    (2, Some(&[7, 255]), Some((&[8], &[5]))),
    (2, Some(&[8]), None),
    (3, None, None),
];

fn changes(alloc: Global) -> Result<Vec<Change>, AllocError> {
    let mut changes = Vec::new(alloc);
    changes.push(put(alloc, 2, &[8], &[4])?)?;
    changes.push(put(alloc, 2, &[7, 1], &[])?)?;
    changes.push(put(alloc, 1, &[7], &[70])?)?;
    changes.push(put(alloc, 2, &[], &[1, 2])?)?;
    changes.push(put(alloc, 2, &[9], &[6])?)?;
    changes.push(put(alloc, 2, &[7, 0], &[3])?)?;
    changes.push(take(alloc, 2, &[9])?)?;
    changes.push(take(alloc, 3, &[1])?)?;
    changes.push(put(alloc, 2, &[8], &[5])?)?;
    Ok(changes)
}

#[test]
fn the_cells_of_a_sheet_come_in_the_order_of_their_keys(rt: HostRuntime) -> Result<(), Fail> {
    let mut keeper = MemKeeper::new(rt.alloc());
    keeper.open(rt.alloc(), Some("a.db"))?;
    keeper.apply(rt.alloc(), changes(rt.alloc())?.as_slice())?;
    for (sheet, after, expected) in ANSWERS {
        let answer = keeper.next_after(rt.alloc(), *sheet, *after)?;
        assert!(rt;
            is_cell(&answer, *expected),
            "sheet {sheet} after {after:?}"
        );
    }
    Ok(())
}

#[test]
fn the_planned_look_fails_and_the_next_one_answers(rt: HostRuntime) -> Result<(), Fail> {
    for failing in 1..4 {
        let mut keeper = MemKeeper::failing(rt.alloc(), failing, 0);
        keeper.open(rt.alloc(), None)?;
        keeper.apply(rt.alloc(), changes(rt.alloc())?.as_slice())?;
        for call in 1..4 {
            let answer = keeper.next_after(rt.alloc(), 1, None);
            let has_failed = matches!(answer, Err(KeeperFault::Failed));
            assert_eq!(rt; has_failed, call == failing, "call {call} of {failing}");
        }
    }
    Ok(())
}

#[test]
fn the_planned_apply_changes_nothing_and_the_next_one_does(rt: HostRuntime) -> Result<(), Fail> {
    let mut keeper = MemKeeper::failing(rt.alloc(), 0, 2);
    keeper.open(rt.alloc(), None)?;
    keeper.apply(rt.alloc(), changes(rt.alloc())?.as_slice())?;
    let mut more = Vec::new(rt.alloc());
    more.push(put(rt.alloc(), 1, &[7], &[71])?)?;
    more.push(put(rt.alloc(), 3, &[], &[9])?)?;
    assert_eq!(rt;
        keeper.apply(rt.alloc(), more.as_slice()),
        Err(KeeperFault::Failed)
    );
    for (sheet, after, expected) in ANSWERS {
        let answer = keeper.next_after(rt.alloc(), *sheet, *after)?;
        assert!(rt;
            is_cell(&answer, *expected),
            "sheet {sheet} after {after:?}"
        );
    }
    keeper.apply(rt.alloc(), more.as_slice())?;
    let answer = keeper.next_after(rt.alloc(), 1, None)?;
    assert!(rt; is_cell(&answer, Some((&[7], &[71]))));
    let answer = keeper.next_after(rt.alloc(), 3, None)?;
    assert!(rt; is_cell(&answer, Some((&[], &[9]))));
    Ok(())
}
