//! Which keys were changed since a mark.
ghost use Rattle.std.specs.Prelude.{◌≡◌, List, Option, IsSome, OnOk, None, Some, false, slice_index_or};
ghost use Rattle.std.specs.Option.{option_copied, option_map};
ghost use Rattle.std.specs.Ordering.{is_eq};
ghost use Rattle.dv_work.specs.Entries.{value_at};
ghost use Rattle.dv_work.specs.Journal.{before_all, entries_of, kept_count, states_of, value_in};

use crate::journal::Change;
use crate::key::Key;
use std::alloc::AllocError;
use std::collections::BTreeMap;

/// The changes since a mark, found from the end of a journal that keeps `kept` states.
pub(crate) fn changes_since<K: Key, V>(
    journal: &[Change<K, V>],
    kept: usize,
    mark: usize,
) -> &[Change<K, V>]
    requires { kept ≡ kept_count journal.now }
    ensures { (places : List (K × Option V))
        → slice_index_or (states_of K.cmp journal.now places) mark (entries_of places)
        ≡ entries_of (before_all K.cmp result.now places) }
{
    let mut first = journal.len();
    let mut left = kept;
    while left > mark {
        first -= 1;
        left -= usize::from(journal[first].kept);
    }
    &journal[first..]
}

/// The value in a place that may be missing.
fn value_in<V>(place: &Option<Option<V>>) -> Option<&V>
    ensures { option_copied result ≡ value_in place.now }
{
    match place {
        Some(Some(value)) => Some(value),
        _ => None,
    }
}

/// Adds the key of a change with what it had before, unless an earlier change has told it.
pub(crate) fn touch<'a, K: Key, V>(
    touched: &mut BTreeMap<K, Option<&'a V>>,
    change: &'a Change<K, V>,
) -> Result<(), AllocError>
    ensures others { OnOk result ((key : K) → is_eq (K.cmp key change.now.key) ≡ false
        → value_at K.cmp key touched.new.entries ≡ value_at K.cmp key touched.old.entries) }
    ensures told { OnOk result (IsSome (value_at K.cmp change.now.key touched.old.entries)
        → value_at K.cmp change.now.key touched.new.entries
        ≡ value_at K.cmp change.now.key touched.old.entries) }
    ensures first { OnOk result (value_at K.cmp change.now.key touched.old.entries ≡ None
        → option_map option_copied (value_at K.cmp change.now.key touched.new.entries)
        ≡ Some (value_in change.now.found)) }
{
    if touched.contains_key(&change.key) {
        return Ok(());
    }
    touched.insert(change.key, value_in(&change.found))?;
    Ok(())
}
