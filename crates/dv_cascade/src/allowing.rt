//! Whether a cascade reaches a child from its parent.
ghost use Rattle.std.specs.Prelude.{◌≡◌};
ghost use Rattle.std.specs.Option.{option_copied};
ghost use Rattle.dv_cascade.specs.Links.{allows, is_active, is_zero, owner_of, same_owner, state_place};

use dv_schema::Cascade;
use dv_store::{OWNER_PLACE, RowKey, Store, named_at};
use dv_value::{Id, Value};

/// Whether a value is the state 0.
fn is_zero(value: Option<&Value>) -> bool
    ensures { result ≡ is_zero (option_copied value.entry) }
{
    match value {
        Some(Value::Choice(state)) => *state == 0,
        _ => false,
    }
}

/// The place of the state among a row's values.
fn state_place(store: &Store, table: u16) -> usize
    ensures { result ≡ state_place store.now.present.shape table }
{
    if store.is_owned(table) {
        OWNER_PLACE + 1
    } else {
        OWNER_PLACE
    }
}

/// Whether a row is active.
fn is_active(store: &Store, key: RowKey) -> bool
    ensures { result ≡ is_active store.now.present key }
{
    match store.row(key.table, key.id) {
        Some(row) => is_zero(row.values.get(state_place(store, key.table))),
        None => false,
    }
}

/// The owner of a row, if it has one.
pub fn owner_of(store: &Store, key: RowKey) -> Option<Id>
    ensures { result ≡ owner_of store.now.present key }
{
    match store.row(key.table, key.id) {
        Some(row) => named_at(row, OWNER_PLACE),
        None => None,
    }
}

/// Whether two rows have one owner.
fn same_owner(store: &Store, a: RowKey, b: RowKey) -> bool
    ensures { result ≡ same_owner store.now.present a b }
{
    match (owner_of(store, a), owner_of(store, b)) {
        (Some(owner), Some(other)) => owner.0 == other.0,
        _ => false,
    }
}

/// Whether a cascade reaches a child from its parent.
#[tactic(auto, unfolding(crate::specs::Links::allows))]
pub(crate) fn allows(store: &Store, cascade: Cascade, parent: RowKey, child: RowKey) -> bool
    ensures { result ≡ allows store.now.present cascade parent child }
{
    match cascade {
        Cascade::Cascade => true,
        Cascade::Active => is_active(store, child),
        Cascade::UserOwned => same_owner(store, parent, child),
        Cascade::NoCascade | Cascade::RemoveLink | Cascade::Restrict => false,
    }
}
