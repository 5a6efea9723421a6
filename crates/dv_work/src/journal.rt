//! The changes to the places of a shelf: how one is made and noted, and how it is undone.
ghost use Rattle.std.specs.Prelude.{◌≡◌, ◌∷◌, [], ◌++◌, ◌<◌, ◌^◌, length, vec_len, vec_capacity, OnOk, OnErr, IfErr};
ghost use Rattle.dv_work.specs.Entries.{Ascends, value_at, with_value};
ghost use Rattle.dv_work.specs.Journal.{before, HasPlace};

use std::alloc::AllocFailed;
use std::collections::BTreeMap;

/// A change of the place of one key: what it found there, which is no place or one that may be empty, and whether the
/// state before it is kept.
#[derive(Drop)]
pub(crate) struct Change<K, V> {
    pub key: K,
    pub found: Option<Option<V>>,
    pub kept: bool,
}

/// Puts back what a change found. A place that it found is there still, so no memory is taken.
pub(crate) fn undo<K: Ord + Copy, V: Drop>(
    places: &mut BTreeMap<K, Option<V>>,
    change: Change<K, V>,
)
    requires { HasPlace K.cmp change places.old.entries }
    ensures { places.new.entries ≡ before K.cmp change places.old.entries }
{
    let Change { key, found, .. } = change;
    match found {
        None => {
            places.remove(&key);
        }
        Some(place) => {
            let _ = places.insert(key, place);
        }
    }
}

/// Adds a change, for which there is room.
fn note<K: Drop, V: Drop>(journal: &mut Vec<Change<K, V>>, change: Change<K, V>)
    requires { vec_len journal.old < vec_capacity journal.old }
    ensures { journal.new.items ≡ journal.old.items ++ change ∷ [] }
{
    let _ = journal.push(change);
}

/// Puts a place at a key, and adds what was there to the journal. The room for that is taken first, so that the places
/// change only where the change can be noted.
pub(crate) fn write<K: Ord + Copy, V: Drop>(
    places: &mut BTreeMap<K, Option<V>>,
    journal: &mut Vec<Change<K, V>>,
    key: K,
    place: Option<V>,
    kept: bool,
) -> Result<(), AllocFailed<(K, Option<V>)>>
    ensures places { OnOk result (places.new.entries
        ≡ with_value K.cmp key place places.old.entries) }
    ensures journal { OnOk result (journal.new.items ≡ journal.old.items ++ record {
      key = key;
      found = value_at K.cmp key places.old.entries;
      kept = kept;
    } ∷ []) }
    ensures fits { OnOk result (length journal.new.items < 2 ^ 63) }
    ensures same_places { OnErr result (places.new.entries ≡ places.old.entries) }
    ensures same_journal { OnErr result (journal.new.items ≡ journal.old.items) }
    ensures returned { IfErr result (λ e. e.value ≡ (key, place)) }
    ensures ordered { Ascends K.cmp places.old.entries }
{
    let Ok(()) = journal.reserve(1) else {
        // `len` says that the keys ascend.
        let _ordered = places.len();
        return Err(AllocFailed {
            value: (key, place),
        });
    };
    let found = places.insert(key, place)?;
    note(journal, Change { key, found, kept });
    Ok(())
}
