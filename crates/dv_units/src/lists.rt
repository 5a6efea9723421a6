//! One step on a list by ids or on a set of pairs of ids: an entry put, a pair added or taken out, the next one found.
ghost use Rattle.std.specs.Prelude.{◌≡◌, ◌+◌, ◌≤◌, ◌<◌, ◌&&◌, Some, true, false, OnOk, OnErr, IfOk, length, is_some, if◌then◌else◌, ◌==◌, nat_lt};
ghost use Rattle.std.specs.BTreeMap.{is_at};
ghost use Rattle.std.specs.Option.{option_map};
ghost use Rattle.dv_units.specs.Chart.{at, put, has, pair_cmp, with_pair, without_pair};
ghost use Rattle.dv_units.specs.Cursors.{past, is_past, next_entry, Ascends, next_pair, PairsAscend};
ghost use Rattle.dv_units.specs.Index.{AreTurned};
ghost use Rattle.dv_units.specs.Membership.{IsLeast, IsFirstPast};

use dv_value::Id;
use std::alloc::AllocError;
use std::collections::{BTreeMap, BTreeSet};
use std::ops::Bound;

/// Puts an entry at an id.
pub fn put<V: Drop>(list: &mut BTreeMap<Id, V>, id: Id, value: V) -> Result<(), AllocError>
    ensures ok { OnOk result (list.new.entries ≡ put list.old.entries id value) }
    ensures gets { OnOk result ((q : Id)
        → at list.new.entries q ≡ (if id.0 == q.0 then Some value else at list.old.entries q)) }
    ensures len { OnOk result (length list.new.entries
        ≡ length list.old.entries + (if is_some (at list.old.entries id) then 0 else 1)) }
    ensures err { OnErr result (list.new.entries ≡ list.old.entries) }
{
    list.insert(id, value)?;
    Ok(())
}

/// Adds a pair to two sets, to the second with its parts changed about.
pub fn add_pair(
    pairs: &mut BTreeSet<(Id, Id)>,
    turned: &mut BTreeSet<(Id, Id)>,
    first: Id,
    second: Id,
) -> Result<(), AllocError>
    requires { has pairs.old.keys (first, second) ≡ false }
    ensures ok { OnOk result (pairs.new.keys ≡ with_pair pairs.old.keys (first, second)) }
    ensures has { OnOk result ((q : Id × Id)
        → has pairs.new.keys q
        ≡ (if is_at (pair_cmp (first, second)) q then true else has pairs.old.keys q)) }
    ensures turned { OnOk result ((q : Id × Id)
        → has turned.new.keys q
        ≡ (if is_at (pair_cmp (second, first)) q then true else has turned.old.keys q)) }
    ensures turns { OnOk result (AreTurned pairs.old.keys turned.old.keys
        → AreTurned pairs.new.keys turned.new.keys) }
    ensures len { OnOk result (length pairs.new.keys ≡ length pairs.old.keys + 1) }
    ensures err { OnErr result (pairs.new.keys ≡ pairs.old.keys) }
    ensures err_turned { OnErr result (turned.new.keys ≡ turned.old.keys) }
{
    pairs.insert((first, second))?;
    match turned.insert((second, first)) {
        Ok(_) => Ok(()),
        Err(_) => {
            let _ = pairs.remove(&(first, second));
            Err(AllocError)
        }
    }
}

/// Takes a pair out of two sets, out of the second with its parts changed about.
pub fn take_pair(
    pairs: &mut BTreeSet<(Id, Id)>,
    turned: &mut BTreeSet<(Id, Id)>,
    first: Id,
    second: Id,
)
    ensures pairs { pairs.new.keys ≡ without_pair pairs.old.keys (first, second) }
    ensures has { (q : Id × Id)
        → has pairs.new.keys q
        ≡ (if is_at (pair_cmp (first, second)) q then false else has pairs.old.keys q) }
    ensures turned { (q : Id × Id)
        → has turned.new.keys q
        ≡ (if is_at (pair_cmp (second, first)) q then false else has turned.old.keys q) }
    ensures turns { AreTurned pairs.old.keys turned.old.keys
        → AreTurned pairs.new.keys turned.new.keys }
    ensures len { length pairs.new.keys ≤ length pairs.old.keys }
    ensures fewer { has pairs.old.keys (first, second) ≡ true
        → length pairs.new.keys < length pairs.old.keys }
{
    pairs.remove(&(first, second));
    turned.remove(&(second, first));
}

/// Where what is past a key begins, or the beginning of all.
fn past<K: Copy>(after: Option<K>) -> Bound<K>
    ensures { result ≡ past after }
{
    match after {
        Some(after) => Bound::Excluded(after),
        None => Bound::Unbounded,
    }
}

/// The first entry past an id.
pub fn next_entry<V>(list: &BTreeMap<Id, V>, after: Option<Id>) -> Option<(&Id, &V)>
    ensures entry { option_map (λ e. (e.0.now, e.1.now)) result
        ≡ next_entry after list.now.entries }
    ensures ascends { Ascends list.now.entries }
{
    list.range((past(after), Bound::Unbounded)).next()
}

/// The first pair past another.
pub fn next_pair(pairs: &BTreeSet<(Id, Id)>, after: Option<(Id, Id)>) -> Option<(Id, Id)>
    ensures pair { result ≡ next_pair after pairs.now.keys }
    ensures ascends { PairsAscend pairs.now.keys }
{
    pairs.range((past(after), Bound::Unbounded)).next().copied()
}

/// The least pair past another.
fn pair_past(pairs: &BTreeSet<(Id, Id)>, after: (Id, Id)) -> Option<(Id, Id)>
    ensures { IsFirstPast pairs.now.keys after result }
{
    pairs
        .range((Bound::Excluded(after), Bound::Unbounded))
        .next()
        .copied()
}

/// The least id past another that a first id is paired with.
pub(crate) fn second_past(pairs: &BTreeSet<(Id, Id)>, first: Id, from: Id) -> Option<Id>
    ensures { IsLeast (λ id. has pairs.now.keys (first, id) && nat_lt from.0 id.0) result }
{
    match pair_past(pairs, (first, from)) {
        Some((of, second)) => { if of.0 == first.0 { Some(second) } else { None } }
        None => None,
    }
}

/// The least id past another that a first id is paired with, or the least of all.
pub fn second_after(pairs: &BTreeSet<(Id, Id)>, first: Id, after: Option<Id>) -> Option<Id>
    ensures { IsLeast (λ id. has pairs.now.keys (first, id) && is_past after id) result }
{
    if let Some(from) = after {
        return second_past(pairs, first, from);
    }
    if pairs.contains(&(first, Id(0))) {
        return Some(Id(0));
    }
    second_past(pairs, first, Id(0))
}

/// A copy of a set of pairs.
pub fn copied_pairs(pairs: &BTreeSet<(Id, Id)>) -> Result<BTreeSet<(Id, Id)>, AllocError>
    ensures { IfOk result (λ copy. copy.keys ≡ pairs.now.keys) }
{
    Ok(pairs.clone()?)
}
