//! The actions that privileges speak of.
ghost use Rattle.std.specs.Prelude.{◌≡◌};
ghost use Rattle.dv_roles.specs.Actions.{number_of, same_action, is_for_owners, has_action};

use dv_schema::Action;

/// All actions, in their order.
pub(crate) const ACTIONS: [Action; 8] = [
    Action::Create,
    Action::Read,
    Action::Write,
    Action::Delete,
    Action::Append,
    Action::AppendTo,
    Action::Assign,
    Action::Share,
];

/// An action's place in the order.
fn number_of(action: Action) -> u8
    ensures { result ≡ number_of action }
{
    match action {
        Action::Create => 0,
        Action::Read => 1,
        Action::Write => 2,
        Action::Delete => 3,
        Action::Append => 4,
        Action::AppendTo => 5,
        Action::Assign => 6,
        Action::Share => 7,
    }
}

/// Whether two actions are one.
pub(crate) fn same_action(a: Action, b: Action) -> bool
    ensures { result ≡ same_action a b }
{
    number_of(a) == number_of(b)
}

/// Whether an action is for rows that have an owner.
pub(crate) fn is_for_owners(action: Action) -> bool
    ensures { result ≡ is_for_owners action }
{
    match action {
        Action::Assign => true,
        Action::Share => true,
        _ => false,
    }
}

/// Whether a table has an action, by whether users own its rows.
pub(crate) fn has_action(owned: bool, action: Action) -> bool
    ensures { result ≡ has_action owned action }
{
    owned || !is_for_owners(action)
}
