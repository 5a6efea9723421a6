//! The version that a row has, and the one that a request says it has.
ghost use Rattle.std.specs.Prelude.{◌≡◌};
ghost use Rattle.std.specs.Option.{option_copied};
ghost use Rattle.dv_message.specs.Checked.{Answers};
ghost use Rattle.dv_message.specs.Scenes.{targeted_in};
ghost use Rattle.dv_write.specs.Kept.{amount_of, version_fault, VersionSays};

use crate::editing::version_place;
use dv_message::{Stop, Target, refused_if};
use dv_refusal::Refusal;
use dv_store::Store;
use dv_value::Value;

/// The number that a value is.
fn amount_of(value: Option<&Value>) -> u64
    ensures { result ≡ amount_of (option_copied value.entry) }
{
    match value {
        Some(Value::Amount(number)) if *number >= 0 => *number as u64,
        _ => 0,
    }
}

/// Compares the version that a request says with the one that the row has.
fn check_kept(version: Option<u64>, kept: u64) -> Result<(), Stop>
    ensures { Answers (λ said. said ≡ version_fault version kept) result }
{
    match version {
        None => Ok(()),
        Some(version) => refused_if(version != kept, Refusal::VersionDiffers { kept }),
    }
}

/// Checks that the row is at the version that a request says, if it says one. Where the row isn't there, nothing is
/// checked.
#[tactic(auto, unfolding(crate::specs::Kept::VersionSays))]
pub(crate) fn check_version(
    store: &Store,
    target: &Target<'_>,
    version: Option<u64>,
) -> Result<(), Stop>
    ensures { Answers (VersionSays (targeted_in store.now.present target.now) version) result }
{
    match store.row(target.number, target.id) {
        None => Ok(()),
        Some(row) => check_kept(
            version,
            amount_of(row.values.get(version_place(store, target.number))),
        ),
    }
}
