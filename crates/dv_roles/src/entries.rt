//! Which privileges of a role are refused.
ghost use Rattle.std.specs.Prelude.{◌≡◌, ◌==◌, ◌||◌, not, None, IfErr, OnOk};
ghost use Rattle.dv_units.specs.Outcome.{IsCauseOf};
ghost use Rattle.dv_roles.specs.Entries.{owned_at, is_of_owners, fault_on, entry_fault, entries_fault};

use crate::actions::is_for_owners;
use dv_refusal::Refusal;
use dv_schema::{Action, Definition, Entry};
use dv_units::DirFault;
use dv_value::Text;
use std::alloc::Global;

/// Whether users own the rows of the table of a name, where it is there.
fn owned_at(definition: &Definition, name: &Text) -> Option<bool>
    ensures { result ≡ owned_at definition.now name.now }
{
    let tables = definition.tables();
    match tables
        .iter()
        .find(|table| table.name.as_str() == name.as_str())
    {
        Some(table) => Some(table.user_owned),
        None => None,
    }
}

/// Whether an entry's action is one for rows that have an owner.
fn is_of_owners(action: Option<Action>) -> bool
    ensures { result ≡ is_of_owners action }
{
    match action {
        Some(action) => is_for_owners(action),
        None => false,
    }
}

/// Whether an entry can't stand on a table whose rows nobody owns.
fn is_bad(entry: &Entry) -> bool
    ensures { result ≡ (not (entry.now.depth == 3) || is_of_owners entry.now.action) }
{
    entry.depth != 3 || is_of_owners(entry.action)
}

/// Whether an entry may stand on a table, by whether users own its rows.
#[tactic(auto, unfolding(crate::specs::Entries::fault_on))]
fn check_on(alloc: Global, name: &Text, owned: Option<bool>, entry: &Entry) -> Result<(), DirFault>
    ensures ok { OnOk result (fault_on name.now owned entry.now ≡ None) }
    ensures err { IfErr result (IsCauseOf (fault_on name.now owned entry.now)) }
{
    match owned {
        Some(true) => Ok(()),
        Some(false) => {
            if is_bad(entry) {
                let why = Text::from_str(alloc, "entry")?;
                return Err(DirFault::Refused(Refusal::RoleRule { why }));
            }
            Ok(())
        }
        None => {
            let table = name.copy(alloc)?;
            Err(DirFault::Refused(Refusal::UnknownTable { table }))
        }
    }
}

/// Whether a role may have an entry.
#[tactic(auto, unfolding(crate::specs::Entries::entry_fault))]
fn check_entry(alloc: Global, definition: &Definition, entry: &Entry) -> Result<(), DirFault>
    ensures ok { OnOk result (entry_fault definition.now entry.now ≡ None) }
    ensures err { IfErr result (IsCauseOf (entry_fault definition.now entry.now)) }
{
    match &entry.table {
        Some(name) => check_on(alloc, name, owned_at(definition, name), entry),
        None => Ok(()),
    }
}

/// Whether a role may have these entries.
pub(crate) fn check_entries(
    alloc: Global,
    definition: &Definition,
    entries: &[Entry],
) -> Result<(), DirFault>
    ensures ok { OnOk result (entries_fault definition.now entries.now ≡ None) }
    ensures err { IfErr result (IsCauseOf (entries_fault definition.now entries.now)) }
{
    for entry in entries {
        if let Err(fault) = check_entry(alloc, definition, entry) {
            return Err(fault);
        }
    }
    Ok(())
}
