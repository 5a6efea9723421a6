//! The rows of a set in an order in which they can inherit.
ghost use Rattle.std.specs.Prelude.{◌≡◌, ◌<◌, ◌&&◌, not, reverse, IfOk, IfSome};
ghost use Rattle.std.specs.BTreeSet.{btree_set_len};
ghost use Rattle.dv_cascade.specs.Chains.{is_among};
ghost use Rattle.dv_cascade.specs.Circles.{HasNoCircle, HasOneParent};
ghost use Rattle.dv_shares.specs.Heirs.{if_waiting, is_it, waits, AreClimbed, AreHeirs};

use dv_cascade::parent_of;
use dv_schema::Definition;
use dv_store::{RowKey, Store};
use std::alloc::{AllocError, Global};
use std::collections::BTreeSet;

/// A row that inherits, and its parent, if it has one.
#[derive(Clone, Copy)]
pub(crate) struct Heir {
    pub row: RowKey,
    pub parent: Option<RowKey>,
}

/// Takes a row out of those that wait, if it is one of them.
fn take(waiting: &mut BTreeSet<RowKey>, row: Option<RowKey>) -> Option<RowKey>
    ensures row { result ≡ if_waiting waiting.old row }
    ensures left { (other : RowKey) → waits waiting.new other
        ≡ (waits waiting.old other && not (is_it result other)) }
    ensures fewer { IfSome result (λ _.
        btree_set_len waiting.new < btree_set_len waiting.old) }
{
    let row = row?;
    if waiting.remove(&row) {
        Some(row)
    } else {
        None
    }
}

/// The waiting rows from a row up to its highest parent that waits. They don't wait any more.
fn climb(
    alloc: Global,
    store: &Store,
    definition: &Definition,
    waiting: &mut BTreeSet<RowKey>,
    row: RowKey,
) -> Result<Vec<Heir>, AllocError>
    requires one_parent { HasOneParent definition.now }
    requires no_circle { HasNoCircle store.now.present definition.now }
    ensures { IfOk result (λ path. AreClimbed store.now.present definition.now row
        waiting.old waiting.new (reverse path.items)) }
{
    let mut path = Vec::new(alloc);
    let mut above = Some(row);
    'parents: while let Some(row) = take(waiting, above) {
        let parent = parent_of(store, definition, row);
        path.push(Heir { row, parent })?;
        above = parent;
    }
    Ok(path)
}

/// The rows of a set, all of which wait.
fn waiting_of(alloc: Global, set: &[RowKey]) -> Result<BTreeSet<RowKey>, AllocError>
    ensures { IfOk result (λ waiting. (other : RowKey)
        → waits waiting other ≡ is_among set.now other) }
{
    set.iter().copied().collect(alloc)
}

/// The rows of a set, each once and behind its parent, if that is of the set.
pub(crate) fn heirs_of(
    alloc: Global,
    store: &Store,
    definition: &Definition,
    set: &[RowKey],
) -> Result<Vec<Heir>, AllocError>
    requires one_parent { HasOneParent definition.now }
    requires no_circle { HasNoCircle store.now.present definition.now }
    ensures { IfOk result (λ heirs.
        AreHeirs store.now.present definition.now set.now heirs.items) }
{
    let mut waiting = waiting_of(alloc, set)?;
    let mut heirs = Vec::new(alloc);
    for row in set {
        let mut path = climb(alloc, store, definition, &mut waiting, *row)?;
        path.reverse();
        heirs.append(&mut path)?;
    }
    Ok(heirs)
}
