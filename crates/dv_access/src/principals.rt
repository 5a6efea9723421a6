//! A walk over all users and teams, without memory.
ghost use Rattle.std.specs.Prelude.{◌≡◌, IsTrue};
ghost use Rattle.dv_units.specs.Chart.{is_unit, is_user, is_team};
ghost use Rattle.dv_store.specs.Cursors.{IsNext};
ghost use Rattle.dv_access.specs.Principals.{is_principal, lesser};

use dv_units::Units;
use dv_value::Id;

/// The first user past an id.
fn user_after(units: &Units, after: Option<Id>) -> Option<Id>
    ensures { IsNext (λ id. IsTrue (is_user units.now id)) after result }
{
    match units.user_after(after) {
        Some((user, _, _)) => Some(user),
        None => None,
    }
}

/// The first further team past an id.
fn team_after(units: &Units, after: Option<Id>) -> Option<Id>
    ensures { IsNext (λ id. IsTrue (is_team units.now id)) after result }
{
    match units.listed_team_after(after) {
        Some((team, _, _)) => Some(team),
        None => None,
    }
}

/// The first unit past an id, which is its default team too.
fn unit_after(units: &Units, after: Option<Id>) -> Option<Id>
    ensures { IsNext (λ id. IsTrue (is_unit units.now id)) after result }
{
    match units.unit_after(after) {
        Some((unit, _)) => Some(unit),
        None => None,
    }
}

/// The lesser of two ids that may be missing.
fn lesser(a: Option<Id>, b: Option<Id>) -> Option<Id>
    ensures { result ≡ lesser a b }
{
    match (a, b) {
        (Some(a), Some(b)) => { if a.0 <= b.0 { Some(a) } else { Some(b) } }
        (Some(a), None) => Some(a),
        (None, b) => b,
    }
}

/// The first user or team past an id.
pub(crate) fn principal_after(units: &Units, after: Option<Id>) -> Option<Id>
    ensures { IsNext (λ id. IsTrue (is_principal units.now id)) after result }
{
    let team = lesser(team_after(units, after), unit_after(units, after));
    lesser(user_after(units, after), team)
}
