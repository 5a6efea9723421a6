//! Filters with numbers in place of names.

ghost use Rattle.std.specs.Prelude.{◌≡◌, IfOk, map, option_map};
ghost use Rattle.dv_query_check.specs.Each.{if_given};
ghost use Rattle.dv_query_check.specs.Placed.{link_at, source_at};
ghost use Rattle.dv_query_check.specs.Resolved.{comparison, condition_on, resolved_condition, resolved_conditions, resolved_filter, resolved_filters};

use crate::columns::{column_named, column_number};
use crate::comparands::operands_in;
use crate::placed::PlacedLink;
use crate::resolved::{ResolvedCondition, ResolvedFilter};
use crate::source::{Source, source_meant};
use dv_query::{Condition, Filter};
use dv_schema::Column;
use dv_value::items_with_capacity;
use sqlite_items::Items;
use std::alloc::{AllocError, Global};

/// The filter of a source, where one is given.
#[tactic(auto, unfolding(crate::specs::Each::if_given))]
pub(crate) fn resolve_given(
    alloc: Global,
    own: Source<'_>,
    links: &[PlacedLink<'_>],
    filter: &Option<Filter>,
) -> Result<Option<Option<ResolvedFilter>>, AllocError>
    ensures { IfOk result (λ resolved. resolved
        ≡ if_given (resolved_filter (source_at own.entry) (map link_at links.now)) filter.now) }
{
    match filter {
        Some(filter) => match resolve_filter(alloc, own, links, filter)? {
            Some(resolved) => Ok(Some(Some(resolved))),
            None => Ok(None),
        },
        None => Ok(Some(None)),
    }
}

// A filter, and those in it.
#[cycle(resolving)]
fn resolve_filter(
    alloc: Global,
    own: Source<'_>,
    links: &[PlacedLink<'_>],
    filter: &Filter,
) -> Result<Option<ResolvedFilter>, AllocError>
    ensures { IfOk result (λ resolved. resolved
        ≡ resolved_filter (source_at own.entry) (map link_at links.now) filter.now) }
{
    let conditions = filter.conditions.as_slice();
    let Some(conditions) = resolve_conditions(alloc, own, links, conditions)? else {
        return Ok(None);
    };
    let Some(filters) = resolve_filters(alloc, own, links, filter.filters.as_slice())? else {
        return Ok(None);
    };
    Ok(Some(ResolvedFilter {
        any: filter.any,
        conditions,
        filters,
    }))
}

// The filters of a list.
#[cycle(resolving)]
fn resolve_filters(
    alloc: Global,
    own: Source<'_>,
    links: &[PlacedLink<'_>],
    filters: &[Filter],
) -> Result<Option<Items<ResolvedFilter>>, AllocError>
    ensures { IfOk result (λ resolved. resolved
        ≡ resolved_filters (source_at own.entry) (map link_at links.now) filters.now) }
{
    let mut resolved = items_with_capacity(alloc, filters.len())?;
    for filter in filters {
        match resolve_filter(alloc, own, links, filter)? {
            Some(filter) => resolved.push(filter)?,
            None => return Ok(None),
        }
    }
    Ok(Some(resolved))
}

// The conditions of a list.
fn resolve_conditions(
    alloc: Global,
    own: Source<'_>,
    links: &[PlacedLink<'_>],
    conditions: &[Condition],
) -> Result<Option<Items<ResolvedCondition>>, AllocError>
    ensures { IfOk result (λ resolved. resolved
        ≡ resolved_conditions (source_at own.entry) (map link_at links.now) conditions.now) }
{
    let mut resolved = items_with_capacity(alloc, conditions.len())?;
    for condition in conditions {
        match resolve_condition(alloc, own, links, condition)? {
            Some(condition) => resolved.push(condition)?,
            None => return Ok(None),
        }
    }
    Ok(Some(resolved))
}

// A condition of a filter of a source, which may name some links.
#[tactic(auto, unfolding(crate::specs::Resolved::resolved_condition))]
fn resolve_condition(
    alloc: Global,
    own: Source<'_>,
    links: &[PlacedLink<'_>],
    condition: &Condition,
) -> Result<Option<ResolvedCondition>, AllocError>
    ensures { IfOk result (λ resolved. resolved
        ≡ resolved_condition (source_at own.entry) (map link_at links.now) condition.now) }
{
    match source_meant(own, links, &condition.link) {
        Some(source) => Ok(condition_on(alloc, condition, source)?),
        None => Ok(None),
    }
}

// A condition on a column of a source.
#[tactic(auto, unfolding(crate::specs::Resolved::condition_on, crate::specs::Placed::source_at))]
fn condition_on(
    alloc: Global,
    condition: &Condition,
    source: Source<'_>,
) -> Result<Option<ResolvedCondition>, AllocError>
    ensures { IfOk result (λ resolved. resolved
        ≡ condition_on condition.now (source_at source.entry)) }
{
    let Some(table) = source.table else {
        return Ok(None);
    };
    let Some(number) = column_number(Some(table), &condition.column) else {
        return Ok(None);
    };
    match column_named(table, &condition.column) {
        Some(column) => Ok(comparison(alloc, source.number, condition, number, column)?),
        None => Ok(None),
    }
}

// A condition on the column of a number.
#[tactic(auto, unfolding(crate::specs::Resolved::comparison))]
fn comparison(
    alloc: Global,
    source: usize,
    condition: &Condition,
    number: usize,
    column: &Column,
) -> Result<Option<ResolvedCondition>, AllocError>
    ensures { IfOk result (λ resolved. resolved
        ≡ comparison source condition.now number column.now) }
{
    let raws = condition.values.as_slice();
    match operands_in(alloc, condition.operator, &column.kind, raws)? {
        Some(values) => Ok(Some(ResolvedCondition {
            source,
            column: number,
            operator: condition.operator,
            values,
        })),
        None => Ok(None),
    }
}
