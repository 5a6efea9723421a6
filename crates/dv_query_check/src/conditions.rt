//! What is wrong with a condition: the link and the column that it names, its operator and its values.

ghost use Rattle.std.specs.Prelude.{◌≡◌, ◌&&◌, not, map, find, IfOk, option_map};
ghost use Rattle.dv_query_check.specs.ConditionFaults.{is_told_as, table_aliased, table_meant, comparison_fault, condition_fault, condition_fault_in, condition_member, condition_kind, told_condition, filter_fault, first_condition_fault};
ghost use Rattle.dv_query_check.specs.Placed.{link_at, filter_at};

use crate::columns::column_named;
use crate::fault::{Fault, QueryKind};
use crate::filters::PlacedFilter;
use crate::links::has_alias;
use crate::operands::first_wrong;
use crate::operators::{suits, takes};
use crate::path::Path;
use crate::placed::PlacedLink;
use dv_query::Condition;
use dv_schema::{Column, Table};
use dv_value::Text;
use std::alloc::{AllocError, Global};

/// What is wrong with a condition.
#[derive(Clone, Copy)]
pub(crate) enum ConditionFault {
    /// The link can't be named here.
    UnknownLink,
    UnknownColumn,
    /// The operator doesn't suit the column.
    UnsuitedOperator,
    /// The operator takes another number of values.
    WrongCount,
    /// The value at this place isn't one that the operator takes.
    WrongValue(usize),
}

impl ConditionFault {
    // The place of it in the condition.
    #[tactic(auto, unfolding(crate::specs::ConditionFaults::condition_member))]
    fn member(self, alloc: Global, condition: &Path) -> Result<Path, AllocError>
        ensures { IfOk result (λ place. place ≡ condition_member condition.now self) }
    {
        match self {
            ConditionFault::UnknownLink => condition.member(alloc, "link"),
            ConditionFault::UnknownColumn => condition.member(alloc, "column"),
            ConditionFault::UnsuitedOperator => condition.member(alloc, "is"),
            ConditionFault::WrongCount => condition.member(alloc, "values"),
            ConditionFault::WrongValue(i) => condition.member(alloc, "values")?.item(alloc, i),
        }
    }

    // The kind of it.
    #[tactic(auto, unfolding(crate::specs::ConditionFaults::condition_kind))]
    fn kind(self) -> QueryKind
        ensures { result ≡ condition_kind self }
    {
        match self {
            ConditionFault::UnknownLink => QueryKind::Alias,
            ConditionFault::UnknownColumn => QueryKind::Column,
            ConditionFault::UnsuitedOperator => QueryKind::Operator,
            ConditionFault::WrongCount => QueryKind::Count,
            ConditionFault::WrongValue(_) => QueryKind::Value,
        }
    }

    // The fault of the condition of a number in a filter, as it is told.
    fn told(self, alloc: Global, filter: &Path, i: usize) -> Result<Fault, AllocError>
        ensures { IfOk result (λ fault. fault ≡ told_condition filter.now i self) }
    {
        let condition = filter.member(alloc, "conditions")?.item(alloc, i)?;
        Ok(Fault {
            place: self.member(alloc, &condition)?,
            kind: self.kind(),
        })
    }
}

// Whether the rows of a link are told, under this alias.
#[tactic(auto, unfolding(crate::specs::ConditionFaults::is_told_as, crate::specs::Placed::link_at))]
fn is_told_as(alias: &Text, link: &PlacedLink<'_>) -> bool
    ensures { result ≡ is_told_as alias.now (link_at link.now) }
{
    !link.is_hidden && has_alias(alias, link)
}

/// The first link whose rows are told under an alias.
pub(crate) fn link_told_as<'b, 'a>(
    links: &'b [PlacedLink<'a>],
    alias: &Text,
) -> Option<&'b PlacedLink<'a>>
    ensures { option_map (λ l. l.now) result
        ≡ find (λ l. is_told_as alias.now (link_at l)) links.now }
{
    links.iter().find(|link| is_told_as(alias, link))
}

// The table of the link whose rows are told under an alias.
fn table_aliased<'a>(links: &[PlacedLink<'a>], alias: &Text) -> Option<&'a Table>
    ensures { option_map (λ t. t.now) result ≡ table_aliased (map link_at links.now) alias.now }
{
    match link_told_as(links, alias) {
        Some(link) => link.table,
        None => None,
    }
}

/// The table whose column is named: that of the link, or without a link another one.
#[tactic(auto, unfolding(crate::specs::ConditionFaults::table_meant))]
pub(crate) fn table_meant<'a>(
    own: Option<&'a Table>,
    links: &[PlacedLink<'a>],
    link: &Option<Text>,
) -> Option<&'a Table>
    ensures { option_map (λ t. t.now) result
        ≡ table_meant (option_map (λ t. t.now) own.entry) (map link_at links.now) link.now }
{
    match link {
        Some(alias) => table_aliased(links, alias),
        None => own,
    }
}

// What is wrong with the comparison of a column.
#[tactic(auto, unfolding(crate::specs::ConditionFaults::comparison_fault))]
fn comparison_fault(column: &Column, condition: &Condition) -> Option<ConditionFault>
    ensures { result ≡ comparison_fault column.now condition.now }
{
    let values = condition.values.as_slice();
    if !suits(condition.operator, column) {
        return Some(ConditionFault::UnsuitedOperator);
    }
    if !takes(condition.operator, values.len()) {
        return Some(ConditionFault::WrongCount);
    }
    match first_wrong(condition.operator, &column.kind, values) {
        Some(i) => Some(ConditionFault::WrongValue(i)),
        None => None,
    }
}

// What is wrong with a condition on a column of a table.
#[tactic(auto, unfolding(crate::specs::ConditionFaults::condition_fault, crate::specs::ConditionFaults::column_fault))]
fn condition_fault(table: Option<&Table>, condition: &Condition) -> Option<ConditionFault>
    ensures { result ≡ condition_fault (option_map (λ t. t.now) table.entry) condition.now }
{
    let Some(table) = table else {
        return Some(ConditionFault::UnknownLink);
    };
    match column_named(table, &condition.column) {
        Some(column) => comparison_fault(column, condition),
        None => Some(ConditionFault::UnknownColumn),
    }
}

// What is wrong with a condition of a filter.
#[tactic(auto, unfolding(crate::specs::ConditionFaults::condition_fault_in, crate::specs::Placed::filter_at))]
fn condition_fault_in(
    links: &[PlacedLink<'_>],
    filter: &PlacedFilter<'_>,
    condition: &Condition,
) -> Option<ConditionFault>
    ensures { result
        ≡ condition_fault_in (map link_at links.now) (filter_at filter.now) condition.now }
{
    if filter.names_links {
        return condition_fault(table_meant(filter.table, links, &condition.link), condition);
    }
    condition_fault(table_meant(filter.table, &[], &condition.link), condition)
}

// The first fault of the conditions of a filter.
fn filter_fault(
    alloc: Global,
    links: &[PlacedLink<'_>],
    filter: &PlacedFilter<'_>,
) -> Result<Option<Fault>, AllocError>
    ensures { IfOk result (λ fault. fault
        ≡ filter_fault (map link_at links.now) (filter_at filter.now)) }
{
    for (i, condition) in filter.conditions.iter().enumerate() {
        if let Some(fault) = condition_fault_in(links, filter, condition) {
            return Ok(Some(fault.told(alloc, &filter.place, i)?));
        }
    }
    Ok(None)
}

/// The first fault of the conditions of filters.
pub(crate) fn first_condition_fault(
    alloc: Global,
    links: &[PlacedLink<'_>],
    filters: &[PlacedFilter<'_>],
) -> Result<Option<Fault>, AllocError>
    ensures { IfOk result (λ fault. fault
        ≡ first_condition_fault (map link_at links.now) (map filter_at filters.now)) }
{
    for filter in filters {
        if let Some(fault) = filter_fault(alloc, links, filter)? {
            return Ok(Some(fault));
        }
    }
    Ok(None)
}
