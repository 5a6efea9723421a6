//! The places of cells in memory, one for each address that was ever written. The place of a cell
//! that was taken is empty. So changes can be prepared without being seen, and once they are they
//! take no memory.
ghost use Rattle.std.specs.Prelude.{◌≡◌, ℕ, List, IsSome, IfOk, OnOk, OnErr};
ghost use Rattle.std.specs.Option.{option_copied, option_map};
ghost use Rattle.std.specs.BTreeMap.Range.{entries_between};
ghost use Rattle.std.specs.Cmp.Lexicographic.{slice_cmp};
ghost use Rattle.std.specs.Ordering.{nat_cmp};
ghost use Rattle.std.specs.List.Sorted.{IsStrictlySortedBy};
ghost use Rattle.std.specs.Map.{keys_of};
ghost use Rattle.std.specs.declared.ops.Bound.TheVariants.{Unbounded};
ghost use Rattle.dv_keeper.specs.Cells.{all_changed, IsNext};
ghost use Rattle.dv_keeper.specs.Memory.{first_full, held_in, place_at};
ghost use Rattle.dv_keeper.specs.Memory.{all_written, written, HavePlaces};

use crate::address::{Address, start_after};
use crate::cell::{Bytes, Cell, Change};
use crate::writing::{Write, writes_of};
use std::alloc::{AllocError, Global};
use std::collections::BTreeMap;
use std::ops::Bound;

/// Places by their addresses.
pub(crate) type Places = BTreeMap<Address, Option<Bytes>>;

/// Makes an empty place at an address that has none. It isn't seen among the cells.
fn make_place(alloc: Global, places: &mut Places, at: &Address) -> Result<(), AllocError>
    ensures held { held_in places.new.entries ≡ held_in places.old.entries }
    ensures there { OnOk result (IsSome (place_at at.now places.new.entries)) }
    ensures others { (q : List ℕ) → IsSome (place_at q places.old.entries)
        → IsSome (place_at q places.new.entries) }
{
    if places.contains_key(at) {
        return Ok(());
    }
    let at = at.copy(alloc)?;
    places.insert(at, None)?;
    Ok(())
}

/// Makes a place for each of these, where it has none. None of them is seen among the cells.
fn make_places(alloc: Global, places: &mut Places, writes: &[Write]) -> Result<(), AllocError>
    ensures held { held_in places.new.entries ≡ held_in places.old.entries }
    ensures there { OnOk result (HavePlaces places.new.entries writes.now) }
{
    for write in writes {
        make_place(alloc, places, &write.address)?;
    }
    Ok(())
}

/// Writes to a place that is there, which takes no memory.
fn write_place(places: &mut Places, write: Write)
    requires { IsSome (place_at write.address places.old.entries) }
    ensures held { held_in places.new.entries ≡ written write (held_in places.old.entries) }
    ensures others { (q : List ℕ) → IsSome (place_at q places.old.entries)
        → IsSome (place_at q places.new.entries) }
{
    let _ = places.insert(write.address, write.value);
}

/// Writes all of these in their order.
fn write_places(places: &mut Places, writes: Vec<Write>)
    requires { HavePlaces places.old.entries writes.items }
    ensures { held_in places.new.entries ≡ all_written writes.items (held_in places.old.entries) }
{
    for write in writes {
        write_place(places, write);
    }
}

/// Makes all changes, or none where memory runs out.
pub(crate) fn make_changes(
    alloc: Global,
    places: &mut Places,
    changes: &[Change],
) -> Result<(), AllocError>
    ensures ok { OnOk result (held_in places.new.entries
        ≡ all_changed changes.now (held_in places.old.entries)) }
    ensures err { OnErr result (held_in places.new.entries ≡ held_in places.old.entries) }
{
    let writes = writes_of(alloc, changes)?;
    make_places(alloc, places, writes.as_slice())?;
    write_places(places, writes);
    Ok(())
}

/// The first place from a start on that isn't empty.
fn first_full(places: &Places, start: Bound<Address>) -> Option<(&Address, &Bytes)>
    ensures entry { option_map (λ e. (e.0.now, e.1.now)) result
        ≡ first_full (entries_between (slice_cmp nat_cmp) start Unbounded places.now.entries) }
    ensures ordered { IsStrictlySortedBy (slice_cmp nat_cmp) (keys_of places.now.entries) }
{
    // `len` says that the addresses ascend.
    let _ordered = places.len();
    for (at, place) in places.range((start, Bound::Unbounded)) {
        if let Some(value) = place {
            return Some((at, value));
        }
    }
    None
}

/// The cell of a sheet whose key comes next after one, or first.
pub(crate) fn next_cell(
    alloc: Global,
    places: &Places,
    sheet: u8,
    key: Option<&[u8]>,
) -> Result<Option<Cell>, AllocError>
    ensures { IfOk result (λ cell.
        IsNext (held_in places.now.entries) sheet (option_copied key.entry) cell) }
{
    let Some((at, value)) = first_full(places, start_after(alloc, sheet, key)?) else {
        return Ok(None);
    };
    match at.key_in(sheet) {
        Some(key) => Ok(Some(Cell {
            key: Bytes::from_slice(alloc, key)?,
            value: Bytes::from_slice(alloc, value.as_slice())?,
        })),
        None => Ok(None),
    }
}
