//! Which columns an operator suits, and which values it takes.

ghost use Rattle.std.specs.Prelude.{◌≡◌, ◌&&◌};
ghost use Rattle.dv_query_check.specs.Operators.{suited_by, operands_of, is_ordered, is_text, is_moment, is_kept_by_service, is_owner, is_user_name, has_user, is_person, suits, takes};

use dv_query::Operator;
use dv_schema::{Column, ColumnRole};
use dv_value::Kind;

/// The columns that an operator suits.
#[derive(Clone, Copy)]
pub(crate) enum Suited {
    /// All columns.
    All,
    /// Columns of whole numbers, choices, amounts, moments and texts.
    Ordered,
    /// Columns of texts.
    Texts,
    /// Columns of moments.
    Moments,
    /// The columns that the service keeps of who owns, created or last changed a row.
    People,
    /// The column that the service keeps of who owns a row.
    Owner,
}

/// The values that an operator takes.
#[derive(Clone, Copy)]
pub(crate) enum Operands {
    /// No value.
    Nothing,
    /// A value of the column's kind.
    One,
    /// Two values of the column's kind.
    Two,
    /// One value of the column's kind, or more.
    Several,
    /// A number of days.
    Days,
}

/// The most values that an operator takes.
const MOST_VALUES: usize = 500;

/// The columns that an operator suits.
#[tactic(auto, unfolding(crate::specs::Operators::suited_by))]
fn suited_by(operator: Operator) -> Suited
    ensures { result ≡ suited_by operator }
{
    match operator {
        Operator::Eq | Operator::Ne => Suited::All,
        Operator::In | Operator::NotIn => Suited::All,
        Operator::Null | Operator::NotNull => Suited::All,
        Operator::Gt | Operator::Ge | Operator::Lt | Operator::Le => Suited::Ordered,
        Operator::Between | Operator::NotBetween => Suited::Ordered,
        Operator::Like | Operator::NotLike => Suited::Texts,
        Operator::Begins | Operator::NotBegins => Suited::Texts,
        Operator::Ends | Operator::NotEnds => Suited::Texts,
        Operator::Contains | Operator::NotContains => Suited::Texts,
        Operator::On | Operator::OnOrBefore | Operator::OnOrAfter => Suited::Moments,
        Operator::Today | Operator::Yesterday | Operator::Tomorrow => Suited::Moments,
        Operator::LastDays | Operator::NextDays => Suited::Moments,
        Operator::Me | Operator::NotMe => Suited::People,
        Operator::MyTeams | Operator::MeOrMyTeams => Suited::Owner,
    }
}

/// The values that an operator takes.
#[tactic(auto, unfolding(crate::specs::Operators::operands_of))]
pub(crate) fn operands_of(operator: Operator) -> Operands
    ensures { result ≡ operands_of operator }
{
    match operator {
        Operator::Null | Operator::NotNull => Operands::Nothing,
        Operator::Today | Operator::Yesterday | Operator::Tomorrow => Operands::Nothing,
        Operator::Me | Operator::NotMe => Operands::Nothing,
        Operator::MyTeams | Operator::MeOrMyTeams => Operands::Nothing,
        Operator::Between | Operator::NotBetween => Operands::Two,
        Operator::In | Operator::NotIn => Operands::Several,
        Operator::LastDays | Operator::NextDays => Operands::Days,
        Operator::Eq | Operator::Ne => Operands::One,
        Operator::Gt | Operator::Ge | Operator::Lt | Operator::Le => Operands::One,
        Operator::Like | Operator::NotLike => Operands::One,
        Operator::Begins | Operator::NotBegins => Operands::One,
        Operator::Ends | Operator::NotEnds => Operands::One,
        Operator::Contains | Operator::NotContains => Operands::One,
        Operator::On | Operator::OnOrBefore | Operator::OnOrAfter => Operands::One,
    }
}

// Whether values of the kind have an order that conditions may speak of.
#[tactic(auto, unfolding(crate::specs::Operators::is_ordered))]
fn is_ordered(kind: &Kind) -> bool
    ensures { result ≡ is_ordered kind.now }
{
    match kind {
        Kind::Flag => false,
        Kind::Ref => false,
        Kind::Whole { .. } => true,
        Kind::Choice { .. } => true,
        Kind::Amount { .. } => true,
        Kind::Moment => true,
        Kind::Text { .. } => true,
    }
}

// Whether the kind is that of texts.
#[tactic(auto, unfolding(crate::specs::Operators::is_text))]
fn is_text(kind: &Kind) -> bool
    ensures { result ≡ is_text kind.now }
{
    match kind {
        Kind::Text { .. } => true,
        Kind::Flag => false,
        Kind::Whole { .. } => false,
        Kind::Choice { .. } => false,
        Kind::Amount { .. } => false,
        Kind::Moment => false,
        Kind::Ref => false,
    }
}

// Whether the kind is that of moments.
#[tactic(auto, unfolding(crate::specs::Operators::is_moment))]
fn is_moment(kind: &Kind) -> bool
    ensures { result ≡ is_moment kind.now }
{
    match kind {
        Kind::Moment => true,
        Kind::Flag => false,
        Kind::Whole { .. } => false,
        Kind::Choice { .. } => false,
        Kind::Amount { .. } => false,
        Kind::Text { .. } => false,
        Kind::Ref => false,
    }
}

// Whether every table has the column, and the service keeps it.
#[tactic(auto, unfolding(crate::specs::Operators::is_kept_by_service))]
fn is_kept_by_service(role: &ColumnRole) -> bool
    ensures { result ≡ is_kept_by_service role.now }
{
    match role {
        ColumnRole::System => true,
        ColumnRole::Plain => false,
        ColumnRole::Lookup(_) => false,
        ColumnRole::Rollup(_) => false,
        ColumnRole::Companion => false,
    }
}

// Whether the column says who owns a row.
#[tactic(auto, unfolding(crate::specs::Operators::is_owner))]
fn is_owner(column: &Column) -> bool
    ensures { result ≡ is_owner column.now }
{
    is_kept_by_service(&column.role) && column.name.as_str() == "ownerid"
}

// Whether the column says who owns, created or last changed a row.
#[tactic(auto, unfolding(crate::specs::Operators::is_person))]
fn is_person(column: &Column) -> bool
    ensures { result ≡ is_person column.now }
{
    is_owner(column) || has_user(column)
}

// Whether the column says who created or last changed a row.
#[tactic(auto, unfolding(crate::specs::Operators::has_user))]
fn has_user(column: &Column) -> bool
    ensures { result ≡ has_user column.now }
{
    is_kept_by_service(&column.role) && is_user_name(column.name.as_str())
}

// Whether the name is that of a column of a user.
#[tactic(auto, unfolding(crate::specs::Operators::is_user_name))]
fn is_user_name(name: &str) -> bool
    ensures { result ≡ is_user_name name.now }
{
    name == "createdby" || name == "modifiedby"
}

/// Whether an operator suits a column.
#[tactic(auto, unfolding(crate::specs::Operators::suits, crate::specs::Operators::is_among))]
pub(crate) fn suits(operator: Operator, column: &Column) -> bool
    ensures { result ≡ suits operator column.now }
{
    match suited_by(operator) {
        Suited::All => true,
        Suited::Ordered => is_ordered(&column.kind),
        Suited::Texts => is_text(&column.kind),
        Suited::Moments => is_moment(&column.kind),
        Suited::People => is_person(column),
        Suited::Owner => is_owner(column),
    }
}

/// Whether an operator takes so many values.
#[tactic(auto, unfolding(crate::specs::Operators::takes, crate::specs::Operators::is_count_of))]
pub(crate) fn takes(operator: Operator, count: usize) -> bool
    ensures { result ≡ takes operator count }
{
    match operands_of(operator) {
        Operands::Nothing => count == 0,
        Operands::One => count == 1,
        Operands::Two => count == 2,
        Operands::Several => 1 <= count && count <= MOST_VALUES,
        Operands::Days => count == 1,
    }
}
