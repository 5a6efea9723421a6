//! Who asks what, of which organisation and when; and the table that a message names.
ghost use Rattle.std.specs.Prelude.{◌≡◌, IfSome, Option, Some, slice_get};
ghost use Rattle.std.specs.Option.{option_map};
ghost use Rattle.dv_schema.specs.Definitions.{tables_of};
ghost use Rattle.dv_message.specs.Scenes.{table_at};
ghost use Rattle.dv_refusal.specs.declared.refusal.Refusal.{Refusal as Answer};
ghost use Rattle.dv_refusal.specs.declared.refusal.Refusal.TheVariants as Unknown;
ghost use Rattle.dv_message.specs.declared.stop.Stop.TheVariants.{Refused};

use crate::stop::Stop;
use dv_refusal::Refusal;
use dv_roles::Directory;
use dv_schema::{Definition, Table};
use dv_value::{Id, Text};
use std::alloc::Global;

/// Who asks, of which organisation, and at which moment, in seconds since 1970. Directory and definition are of one
/// organisation.
#[derive(Clone, Copy, Drop)]
pub struct Scene<'a> {
    pub directory: &'a Directory,
    pub definition: &'a Definition,
    pub user: Id,
    pub moment: i64,
}

/// The table of a name, with its number.
#[tactic(auto, unfolding(crate::specs::Scenes::table_at))]
pub fn table_at<'a>(definition: &'a Definition, name: &Text) -> Option<(u16, &'a Table)>
    ensures found { option_map (λ found. (found.0, found.1.now)) result
        ≡ table_at definition.now name.now }
    ensures number { IfSome result (λ found.
        slice_get (tables_of definition.now) found.0 ≡ Some found.1.now) }
{
    let number = definition.table(name.as_str())?;
    let table = definition.tables().get(usize::from(number))?;
    Some((number, table))
}

/// The refusal of a table that isn't there.
pub fn unknown_table(alloc: Global, name: &Text) -> Stop
    ensures { (refusal : Answer) → result ≡ Refused refusal
        → refusal ≡ Unknown.UnknownTable name.now }
{
    match name.copy(alloc) {
        Ok(table) => Stop::Refused(Refusal::UnknownTable { table }),
        Err(_) => Stop::OutOfMemory,
    }
}
