//! Access rights as numbers, each a bit of its own.
ghost use Rattle.std.specs.Prelude.{◌≡◌};
ghost use Rattle.dv_access.specs.Rights.{bit_of, right_of, has_right};

use dv_schema::Action;

/// The place of an action's bit, as in the `AccessRights` of Dataverse.
fn bit_of(action: Action) -> u32
    ensures { result ≡ bit_of action }
{
    match action {
        Action::Read => 0,
        Action::Write => 1,
        Action::Append => 2,
        Action::AppendTo => 4,
        Action::Create => 5,
        Action::Delete => 16,
        Action::Share => 18,
        Action::Assign => 19,
    }
}

/// The right to do an action.
pub fn right_of(action: Action) -> u32
    ensures right { result ≡ right_of action }
{
    match action {
        Action::Read => 0x1,
        Action::Write => 0x2,
        Action::Append => 0x4,
        Action::AppendTo => 0x10,
        Action::Create => 0x20,
        Action::Delete => 0x1_0000,
        Action::Share => 0x4_0000,
        Action::Assign => 0x8_0000,
    }
}

/// Whether rights have the right to do an action.
pub(crate) fn has_right(rights: u32, action: Action) -> bool
    ensures { result ≡ has_right rights action }
{
    (rights >> bit_of(action)) % 2 == 1
}
