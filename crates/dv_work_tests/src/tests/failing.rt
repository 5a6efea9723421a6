// A run whose memory may run out at any allocation.
use dv_work::Shelf;

// The keys of the run are below this number.
const KEYS: usize = 20;

// What each key has, by which a shelf is compared without any allocation.
type Held = [Option<u64>; KEYS];

// A change: what a key is to have.
type Change = (u8, Option<u64>);

const BEFORE: [Change; 6] = [
    (0, Some(1)),
    (3, Some(2)),
    (5, Some(3)),
    (9, Some(4)),
    (12, Some(5)),
    (19, Some(6)),
];

const CHANGES: [Change; 30] = [
    (1, Some(10)),
    (3, None),
    (3, Some(11)),
    (5, Some(12)),
    (5, None),
    (2, Some(13)),
    (2, None),
    (4, Some(14)),
    (6, Some(15)),
    (7, Some(16)),
    (8, Some(17)),
    (9, None),
    (10, Some(18)),
    (11, Some(19)),
    (12, None),
    (13, Some(20)),
    (14, Some(21)),
    (15, Some(22)),
    (16, Some(23)),
    (17, Some(24)),
    (18, Some(25)),
    (19, None),
    (12, Some(26)),
    (9, Some(27)),
    (0, None),
    (1, None),
    (2, Some(28)),
    (3, None),
    (17, Some(29)),
    (19, Some(30)),
];

// Makes a change, and tells whether there was memory.
fn make(shelf: &mut Shelf<u64, u64>, (key, wanted): Change) -> bool {
    let key = u64::from(key);
    match wanted {
        Some(value) => shelf.put(key, value).is_ok(),
        None => shelf.take(&key).is_ok(),
    }
}

// Notes a change that was made.
fn note(held: &mut Held, (key, wanted): Change) {
    if let Some(place) = held.get_mut(usize::from(key)) {
        *place = wanted;
    }
}

// Whether a shelf holds exactly this.
fn holds(shelf: &Shelf<u64, u64>, held: &Held) -> bool {
    let mut key = 0_u64;
    for wanted in held {
        if shelf.get(&key).copied() != *wanted {
            return false;
        }
        key = key.wrapping_add(1);
    }
    true
}

#[test]
fn thirty_changes_end_with_the_former_state_or_the_new_one(rt: HostRuntime) {
    let mut shelf = Shelf::new(rt.alloc());
    let mut held: Held = [None; KEYS];
    for change in BEFORE {
        if !make(&mut shelf, change) {
            assert!(rt; holds(&shelf, &held));
            return;
        }
        note(&mut held, change);
    }
    let former = held;
    let start = shelf.mark();
    for change in CHANGES {
        if !make(&mut shelf, change) {
            assert!(rt;
                holds(&shelf, &held),
                "a refused change leaves all as it was"
            );
            assert!(rt; start <= shelf.mark());
            shelf.undo_to(start);
            assert!(rt;
                holds(&shelf, &former),
                "an undone run leaves the former state"
            );
            return;
        }
        note(&mut held, change);
    }
    assert!(rt; holds(&shelf, &held));
    assert_eq!(rt; shelf.mark(), 36);
}
