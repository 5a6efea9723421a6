//! The rows that what is done to the row of a message reaches.
ghost use Rattle.std.specs.Prelude.{◌≡◌, IfOk};
ghost use Rattle.dv_store.specs.Shapes.{shape_of};
ghost use Rattle.dv_store.specs.Keys.{row_key};
ghost use Rattle.dv_message.specs.Scenes.{targeted_in};
ghost use Rattle.dv_grant.specs.Closures.{IsClosure};

use dv_cascade::{Cascading, closure};
use dv_message::Target;
use dv_store::{RowKey, Store};
use std::alloc::{AllocError, Global};

/// The place of the row.
pub(crate) fn key_of(target: &Target<'_>) -> RowKey
    ensures { result ≡ row_key target.now.number target.now.id }
{
    RowKey {
        table: target.number,
        id: target.id,
    }
}

/// The rows that what is done to the row reaches, itself included, by table and id.
pub(crate) fn reached(
    alloc: Global,
    store: &Store,
    target: &Target<'_>,
    cascading: Cascading,
) -> Result<Vec<RowKey>, AllocError>
    requires { store.now.present.shape ≡ shape_of target.now.scene.definition.now }
    ensures { IfOk result (λ rows.
        IsClosure (targeted_in store.now.present target.now) cascading rows.items) }
{
    let row = RowKey {
        table: target.number,
        id: target.id,
    };
    closure(alloc, store, target.scene.definition, cascading, row)
}
