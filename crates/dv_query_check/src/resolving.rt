//! A query with its names resolved to numbers.

ghost use Rattle.std.specs.Prelude.{◌≡◌, true, None, IfOk, map, option_map};
ghost use Rattle.std.specs.Option.{is_some};
ghost use Rattle.dv_schema.specs.declared.definition.Definition.{Definition};
ghost use Rattle.dv_query.specs.declared.query.Query.{Query};
ghost use Rattle.dv_query_check.specs.Each.{if_given};
ghost use Rattle.dv_query_check.specs.Placed.{link_at, source_at};
ghost use Rattle.dv_query_check.specs.Queries.{first_fault};
ghost use Rattle.dv_query_check.specs.Resolved.{column_numbers, resolved_filter, resolved_link, resolved_links, resolved_order, resolved_orders, resolved};

use crate::columns::{column_number, column_numbers, table_named};
use crate::filtering::resolve_given;
use crate::placed::{PlacedLink, placed_links};
use crate::resolved::{ResolvedLink, ResolvedOrder, ResolvedQuery};
use crate::source::{Source, source_meant};
use dv_query::{Order, Query};
use dv_schema::{Definition, Table};
use dv_value::{Names, items_with_capacity};
use sqlite_items::Items;
use std::alloc::{AllocError, Global};

/// A query with numbers in place of names; None where a name isn't there, or a value isn't one of
/// its column. Each query that `check_query` accepts has this form.
pub fn resolve(
    alloc: Global,
    def: &Definition,
    query: &Query,
) -> Result<Option<ResolvedQuery>, AllocError>
    ensures { IfOk result (λ form. form ≡ resolved def.now query.now) }
{
    let base = Source {
        number: 0,
        table: table_named(def, &query.table),
    };
    let links = placed_links(alloc, def, query)?;
    let links = links.as_slice();
    let Some(table) = def.table(query.table.as_str()) else {
        return Ok(None);
    };
    let Some(columns) = given_numbers(alloc, base.table, &query.columns)? else {
        return Ok(None);
    };
    let Some(filter) = resolve_given(alloc, base, links, &query.filter)? else {
        return Ok(None);
    };
    let Some(joined) = resolve_links(alloc, def, links)? else {
        return Ok(None);
    };
    let Some(orders) = resolve_orders(alloc, base, links, query.orders.as_slice())? else {
        return Ok(None);
    };
    Ok(Some(ResolvedQuery {
        table,
        columns,
        filter,
        links: joined,
        orders,
    }))
}

/// An accepted query has a form with numbers in place of names. The call does nothing: what it
/// ensures is the law.
pub fn an_accepted_query_can_be_resolved()
    ensures { (d : Definition) (q : Query) → first_fault d q ≡ None
        → is_some (resolved d q) ≡ true }
{}

// The numbers of the columns that are asked for, where some are.
#[tactic(auto, unfolding(crate::specs::Each::if_given))]
fn given_numbers(
    alloc: Global,
    table: Option<&Table>,
    names: &Option<Names>,
) -> Result<Option<Option<Items<usize>>>, AllocError>
    ensures { IfOk result (λ numbers. numbers
        ≡ if_given (column_numbers (option_map (λ t. t.now) table.entry)) names.now) }
{
    match names {
        Some(names) => match column_numbers(alloc, table, names.as_slice())? {
            Some(numbers) => Ok(Some(Some(numbers))),
            None => Ok(None),
        },
        None => Ok(Some(None)),
    }
}

// A link with numbers in place of names.
#[tactic(auto, unfolding(crate::specs::Resolved::resolved_link, crate::specs::Resolved::link_made, crate::specs::Placed::link_at))]
fn resolve_link(
    alloc: Global,
    def: &Definition,
    placed: &PlacedLink<'_>,
) -> Result<Option<ResolvedLink>, AllocError>
    ensures { IfOk result (λ link. link ≡ resolved_link def.now (link_at placed.now)) }
{
    let link = placed.link;
    let Some(table) = def.table(link.table.as_str()) else {
        return Ok(None);
    };
    let Some(from) = column_number(placed.outer, &link.from) else {
        return Ok(None);
    };
    let Some(to) = column_number(placed.table, &link.to) else {
        return Ok(None);
    };
    let Some(columns) = column_numbers(alloc, placed.table, link.columns.as_slice())? else {
        return Ok(None);
    };
    let Some(filter) = resolve_given(alloc, Source::of(placed), &[], &link.filter)? else {
        return Ok(None);
    };
    Ok(Some(ResolvedLink {
        outer: placed.above,
        table,
        from,
        to,
        join: link.join,
        columns,
        filter,
    }))
}

// The links with numbers in place of names.
fn resolve_links(
    alloc: Global,
    def: &Definition,
    links: &[PlacedLink<'_>],
) -> Result<Option<Items<ResolvedLink>>, AllocError>
    ensures { IfOk result (λ resolved. resolved
        ≡ resolved_links def.now (map link_at links.now)) }
{
    let mut resolved = items_with_capacity(alloc, links.len())?;
    for link in links {
        match resolve_link(alloc, def, link)? {
            Some(link) => resolved.push(link)?,
            None => return Ok(None),
        }
    }
    Ok(Some(resolved))
}

// An order with numbers in place of names.
#[tactic(auto, unfolding(crate::specs::Resolved::resolved_order, crate::specs::Placed::source_at))]
fn resolve_order(own: Source<'_>, links: &[PlacedLink<'_>], order: &Order) -> Option<ResolvedOrder>
    ensures { result ≡ resolved_order (source_at own.entry) (map link_at links.now) order.now }
{
    let Some(source) = source_meant(own, links, &order.link) else {
        return None;
    };
    match column_number(source.table, &order.column) {
        Some(column) => Some(ResolvedOrder {
            source: source.number,
            column,
            descending: order.descending,
        }),
        None => None,
    }
}

// The orders with numbers in place of names.
fn resolve_orders(
    alloc: Global,
    own: Source<'_>,
    links: &[PlacedLink<'_>],
    orders: &[Order],
) -> Result<Option<Items<ResolvedOrder>>, AllocError>
    ensures { IfOk result (λ resolved. resolved
        ≡ resolved_orders (source_at own.entry) (map link_at links.now) orders.now) }
{
    let mut resolved = items_with_capacity(alloc, orders.len())?;
    for order in orders {
        match resolve_order(own, links, order) {
            Some(order) => resolved.push(order)?,
            None => return Ok(None),
        }
    }
    Ok(Some(resolved))
}
