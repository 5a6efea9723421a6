//! The places of a shelf: one for each key that is there or was taken since the earlier states were forgotten. The
//! place of a taken key is empty, so that undoing the removal needs no memory.
ghost use Rattle.std.specs.Prelude.{◌≡◌};
ghost use Rattle.std.specs.Option.{option_copied, option_map};
ghost use Rattle.dv_work.specs.Entries.{Ascends, first_from, value_at};
ghost use Rattle.dv_work.specs.Journal.{entries_of};

use std::collections::BTreeMap;
use std::ops::Bound;

/// The value in the place of a key.
pub(crate) fn value_at<'a, K: Ord + Copy, V>(
    places: &'a BTreeMap<K, Option<V>>,
    key: &K,
) -> Option<&'a V>
    ensures value { option_copied result ≡ value_at K.cmp key.now (entries_of places.now.entries) }
    ensures ordered { Ascends K.cmp places.now.entries }
{
    // `len` says that the keys ascend.
    let _ordered = places.len();
    match places.get(key) {
        Some(place) => place.as_ref(),
        None => None,
    }
}

/// The first entry whose key lies at a bound or beyond it. Empty places are passed over.
pub(crate) fn first_from<K: Ord + Copy, V>(
    places: &BTreeMap<K, Option<V>>,
    start: Bound<K>,
) -> Option<(&K, &V)>
    ensures entry { option_map (λ e. (e.0.now, e.1.now)) result
        ≡ first_from K.cmp start (entries_of places.now.entries) }
    ensures ordered { Ascends K.cmp places.now.entries }
{
    for (key, place) in places.range((start, Bound::Unbounded)) {
        if let Some(value) = place {
            return Some((key, value));
        }
    }
    None
}

/// Drops the place of a key where it is empty.
pub(crate) fn drop_empty<K: Ord + Copy, V: Drop>(places: &mut BTreeMap<K, Option<V>>, key: &K)
    ensures { entries_of places.new.entries ≡ entries_of places.old.entries }
{
    if let Some(None) = places.get(key) {
        places.remove(key);
    }
}
