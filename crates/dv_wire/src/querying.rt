//! The query of a request, with its filters, links and orders.
ghost use Rattle.std.specs.Prelude.{◌≡◌, map, option_map, IfOk, codes};
ghost use Rattle.serde_json.specs.Find.{get, get_member};
ghost use Rattle.serde_json.specs.View.{view, members_view};
ghost use Rattle.dv_value.specs.Json.{without};
ghost use Rattle.dv_wire.specs.Members.{items_in};
ghost use Rattle.dv_wire.specs.Queries as say;

use crate::member::{flag_at, integer_or, raws_of, says_word, take_items, take_list};
use dv_form::{members_of, take_at, take_given};
use dv_query::{Condition, Filter, Join, Link, Operator, Order, PageStart, Part, Query};
use dv_value::{Text, items_with_capacity, take_member};
use serde_json::{Map, Value as Json};
use sqlite_items::Items;
use std::alloc::{AllocError, Global};

// How many rows a page has, where the request doesn't say.
const PAGE_SIZE: i64 = 5000;

// The query that an object without a fault is.
#[tactic(auto, unfolding(crate::specs::Queries::query_of, crate::specs::Queries::filter_at, crate::specs::Members::list_if))]
pub(crate) fn query_of(alloc: Global, json: Json) -> Result<Query, AllocError>
    ensures { IfOk result (λ query. query ≡ say.query_of (view json)) }
{
    let mut members = members_of(alloc, json);
    Ok(Query {
        table: take_at(alloc, &mut members, "table")?,
        columns: take_given(alloc, &mut members, "columns")?,
        filter: filter_at(alloc, &mut members)?,
        links: links_of(alloc, take_items(alloc, &mut members, "links"))?,
        orders: orders_of(alloc, take_items(alloc, &mut members, "orders"))?,
        part: part_of(alloc, &mut members)?,
    })
}

// The part of the answer that is asked for.
#[tactic(auto, unfolding(crate::specs::Queries::part_said))]
fn part_of(alloc: Global, members: &mut Map<String, Json>) -> Result<Part, AllocError>
    ensures { IfOk result (λ part. part ≡ say.part_said
        (get_member (codes "top") (members_view members.old.entries))
        (get_member (codes "page") (members_view members.old.entries))) }
{
    let top: Option<i64> = take_given(alloc, members, "top")?;
    if let Some(n) = top {
        return Ok(Part::Top(n));
    }
    match take_member(members, "page") {
        Some(page) => Ok(page_of(alloc, page)?),
        None => Ok(Part::Page {
            size: PAGE_SIZE,
            from: PageStart::Number(1),
            total: false,
        }),
    }
}

// The page that an object is.
#[tactic(auto, unfolding(crate::specs::Queries::page_of))]
fn page_of(alloc: Global, json: Json) -> Result<Part, AllocError>
    ensures { IfOk result (λ part. part ≡ say.page_of (view json)) }
{
    Ok(Part::Page {
        size: integer_or(PAGE_SIZE, &json, "size"),
        total: flag_at(&json, "total"),
        from: start_of(alloc, json)?,
    })
}

// Where a page begins.
#[tactic(auto, unfolding(crate::specs::Queries::start_said))]
fn start_of(alloc: Global, json: Json) -> Result<PageStart, AllocError>
    ensures { IfOk result (λ start. start
        ≡ say.start_said (get (codes "cookie") (view json)) (get (codes "number") (view json))) }
{
    let number = integer_or(1, &json, "number");
    let mut members = members_of(alloc, json);
    let cookie: Option<Text> = take_given(alloc, &mut members, "cookie")?;
    match cookie {
        Some(cookie) => Ok(PageStart::Cookie(cookie)),
        None => Ok(PageStart::Number(number)),
    }
}

// The orders that items are.
fn orders_of(alloc: Global, items: Vec<Json>) -> Result<Items<Order>, AllocError>
    ensures { IfOk result (λ orders. orders ≡ map say.order_of (map view items.items)) }
{
    let mut orders = items_with_capacity(alloc, items.len())?;
    for item in items {
        orders.push(order_of(alloc, item)?)?;
    }
    Ok(orders)
}

// The order that an object is.
#[tactic(auto, unfolding(crate::specs::Queries::order_of))]
fn order_of(alloc: Global, json: Json) -> Result<Order, AllocError>
    ensures { IfOk result (λ order. order ≡ say.order_of (view json)) }
{
    let descending = flag_at(&json, "desc");
    let mut members = members_of(alloc, json);
    Ok(Order {
        column: take_at(alloc, &mut members, "column")?,
        link: take_given(alloc, &mut members, "link")?,
        descending,
    })
}

// The filter of an object that may have one, which is taken out of it.
fn filter_at(alloc: Global, members: &mut Map<String, Json>) -> Result<Option<Filter>, AllocError>
    ensures value { IfOk result (λ filter. filter ≡ option_map say.filter_of
        (get_member (codes "filter") (members_view members.old.entries))) }
    ensures rest { members_view members.new.entries
        ≡ without (codes "filter") (members_view members.old.entries) }
{
    match take_member(members, "filter") {
        Some(filter) => Ok(Some(filter_of(alloc, filter)?)),
        None => Ok(None),
    }
}

// The filter that an object is.
#[cycle(filters)]
fn filter_of(alloc: Global, json: Json) -> Result<Filter, AllocError>
    ensures { IfOk result (λ filter. filter ≡ say.filter_of (view json)) }
{
    let any = says_word(&json, "op", "or");
    let mut members = members_of(alloc, json);
    let filters = filters_in(alloc, &mut members)?;
    Ok(Filter {
        any,
        conditions: conditions_of(alloc, take_items(alloc, &mut members, "conditions"))?,
        filters,
    })
}

// The filters in a filter.
#[cycle(filters)]
fn filters_in(alloc: Global, members: &mut Map<String, Json>) -> Result<Items<Filter>, AllocError>
    ensures value { IfOk result (λ filters. filters
        ≡ map say.filter_of (items_in (codes "filters") (members_view members.old.entries))) }
    ensures rest { members_view members.new.entries
        ≡ without (codes "filters") (members_view members.old.entries) }
{
    match take_list(members, "filters") {
        Some(items) => Ok(filters_of(alloc, items)?),
        None => Ok(Items::new(alloc)),
    }
}

// The filters that items are.
#[cycle(filters)]
fn filters_of(alloc: Global, items: Vec<Json>) -> Result<Items<Filter>, AllocError>
    ensures { IfOk result (λ filters. filters ≡ map say.filter_of (map view items.items)) }
{
    let mut filters = items_with_capacity(alloc, items.len())?;
    for item in items {
        filters.push(filter_of(alloc, item)?)?;
    }
    Ok(filters)
}

// The conditions that items are.
fn conditions_of(alloc: Global, items: Vec<Json>) -> Result<Items<Condition>, AllocError>
    ensures { IfOk result (λ conditions. conditions ≡ map say.condition_of (map view items.items)) }
{
    let mut conditions = items_with_capacity(alloc, items.len())?;
    for item in items {
        conditions.push(condition_of(alloc, item)?)?;
    }
    Ok(conditions)
}

// The condition that an object is.
#[tactic(auto, unfolding(crate::specs::Queries::condition_of, crate::specs::Queries::operator_at, crate::specs::Members::list_if))]
fn condition_of(alloc: Global, json: Json) -> Result<Condition, AllocError>
    ensures { IfOk result (λ condition. condition ≡ say.condition_of (view json)) }
{
    let operator = operator_at(&json);
    let mut members = members_of(alloc, json);
    Ok(Condition {
        column: take_at(alloc, &mut members, "column")?,
        link: take_given(alloc, &mut members, "link")?,
        operator,
        values: raws_of(alloc, take_items(alloc, &mut members, "values"))?,
    })
}

// The operator of a condition.
#[tactic(auto, unfolding(crate::specs::Queries::operator_at))]
fn operator_at(json: &Json) -> Operator
    ensures { result ≡ say.operator_at (view json.now) }
{
    match json.get("is").and_then(Json::as_str) {
        Some(word) => Operator::parse(word).unwrap_or(Operator::Eq),
        None => Operator::Eq,
    }
}

// The way to join of a link.
#[tactic(auto, unfolding(crate::specs::Queries::join_at))]
fn join_at(json: &Json) -> Join
    ensures { result ≡ say.join_at (view json.now) }
{
    match json.get("join").and_then(Json::as_str) {
        Some(word) => Join::parse(word).unwrap_or(Join::Inner),
        None => Join::Inner,
    }
}

// The link that an object is.
#[cycle(links)]
fn link_of(alloc: Global, json: Json) -> Result<Link, AllocError>
    ensures { IfOk result (λ link. link ≡ say.link_of (view json)) }
{
    let join = join_at(&json);
    let mut members = members_of(alloc, json);
    let links = links_under(alloc, &mut members)?;
    Ok(Link {
        table: take_at(alloc, &mut members, "table")?,
        from: take_at(alloc, &mut members, "from")?,
        to: take_at(alloc, &mut members, "to")?,
        join,
        alias: take_given(alloc, &mut members, "alias")?,
        columns: take_at(alloc, &mut members, "columns")?,
        filter: filter_at(alloc, &mut members)?,
        links,
    })
}

// The links under a link.
#[cycle(links)]
fn links_under(alloc: Global, members: &mut Map<String, Json>) -> Result<Items<Link>, AllocError>
    ensures value { IfOk result (λ links. links
        ≡ map say.link_of (items_in (codes "links") (members_view members.old.entries))) }
    ensures rest { members_view members.new.entries
        ≡ without (codes "links") (members_view members.old.entries) }
{
    match take_list(members, "links") {
        Some(items) => Ok(links_of(alloc, items)?),
        None => Ok(Items::new(alloc)),
    }
}

// The links that items are.
#[cycle(links)]
fn links_of(alloc: Global, items: Vec<Json>) -> Result<Items<Link>, AllocError>
    ensures { IfOk result (λ links. links ≡ map say.link_of (map view items.items)) }
{
    let mut links = items_with_capacity(alloc, items.len())?;
    for item in items {
        links.push(link_of(alloc, item)?)?;
    }
    Ok(links)
}
