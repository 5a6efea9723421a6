//! The row that a message names, and whether it is there.
ghost use Rattle.std.specs.Prelude.{◌≡◌, IfOk, Err, Some, None};
ghost use Rattle.dv_refusal.specs.declared.refusal.Refusal.{Refusal as Answer};
ghost use Rattle.dv_refusal.specs.declared.refusal.Refusal.TheVariants as Unknown;
ghost use Rattle.dv_store.specs.World.{World};
ghost use Rattle.dv_message.specs.declared.stop.Stop.TheVariants.{Refused};
ghost use Rattle.dv_message.specs.Checked.{Answers};
ghost use Rattle.dv_message.specs.Scenes.{aimed_at, setting_of, targeted_in, IsOfItsTable};
ghost use Rattle.dv_message.specs.Rows.{row_fault, share_fault, table_at_or};

use crate::scene::{Scene, table_at, unknown_table};
use crate::stop::Stop;
use dv_refusal::Refusal;
use dv_schema::Table;
use dv_store::{RowKey, Store};
use dv_value::{Id, Text};
use sqlite_items::at;
use std::alloc::Global;

/// The row that a message names: its table, with its number, and its id.
#[derive(Clone, Copy, Drop)]
pub struct Target<'a> {
    pub scene: Scene<'a>,
    pub number: u16,
    pub table: &'a Table,
    pub id: Id,
}

/// Another row, as if the message named it.
pub fn of_key<'a>(target: &Target<'a>, key: RowKey) -> Target<'a>
    ensures scene { result.scene ≡ target.now.scene }
    ensures number { result.number ≡ key.table }
    ensures table { result.table.now ≡ table_at_or target.now.scene.definition.now key.table
        target.now.table.now }
    ensures id { result.id ≡ key.id }
{
    let table = match at(target.scene.definition.tables(), usize::from(key.table)) {
        Some(table) => table,
        None => target.table,
    };
    Target {
        scene: target.scene,
        number: key.table,
        table,
        id: key.id,
    }
}

/// The row of an id in the table of a name.
///
/// # Errors
///
/// `UnknownTable`, where no table has the name. `OutOfMemory`.
#[tactic(auto, unfolding(crate::specs::Scenes::aimed_at))]
pub fn aim<'a>(alloc: Global, scene: &Scene<'a>, name: &Text, id: Id) -> Result<Target<'a>, Stop>
    ensures ok { IfOk result (λ target. (world : World)
        → aimed_at (setting_of scene.now) world name.now id ≡ Some (targeted_in world target)) }
    ensures refused { (refusal : Answer) (world : World) → result ≡ Err (Refused refusal)
        → aimed_at (setting_of scene.now) world name.now id ≡ None }
    ensures scene { IfOk result (λ target. target.scene ≡ scene.now) }
    ensures table { IfOk result IsOfItsTable }
    ensures told { (refusal : Answer) → result ≡ Err (Refused refusal)
        → refusal ≡ Unknown.UnknownTable name.now }
{
    let Some((number, table)) = table_at(scene.definition, name) else {
        return Err(unknown_table(alloc, name));
    };
    Ok(Target {
        scene: *scene,
        number,
        table,
        id,
    })
}

/// Checks that the row is there.
pub fn check_row(alloc: Global, store: &Store, target: &Target<'_>) -> Result<(), Stop>
    ensures { Answers (λ said. said ≡ row_fault (targeted_in store.now.present target.now)) result }
{
    if store.row(target.number, target.id).is_some() {
        return Ok(());
    }
    Err(Stop::Refused(Refusal::NotFound {
        id: target.id,
        table: target.table.name.copy(alloc)?,
    }))
}

/// Checks that rows of a table have owners, and so can be assigned and shared.
pub fn check_shareable(alloc: Global, table: &Table) -> Result<(), Stop>
    ensures { Answers (λ said. said ≡ share_fault table.now) result }
{
    if table.user_owned {
        return Ok(());
    }
    Err(Stop::Refused(Refusal::NotShareable {
        table: table.name.copy(alloc)?,
    }))
}
