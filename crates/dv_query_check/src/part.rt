//! The part of the answer that is asked for, and how many links, conditions and orders a query has.

ghost use Rattle.std.specs.Prelude.{◌≡◌, ◌&&◌, not, map, length, nat_lt, IfOk, option_map};
ghost use Rattle.dv_query_check.specs.Parts.{is_from_1_to, start_fault, part_fault, page_fault, limit_fault, first_part_fault, part_place, part_kind, told_part};
ghost use Rattle.dv_query_check.specs.Placed.{link_at, filter_at};

use crate::fault::{Fault, QueryKind};
use crate::filters::{PlacedFilter, has_more_conditions};
use crate::path::Path;
use crate::placed::PlacedLink;
use dv_query::{PageStart, Part, Query};
use std::alloc::{AllocError, Global};

/// The most rows that are asked for at once.
const MOST_ROWS: i64 = 5_000;

/// The last page that is asked for by its number.
const LAST_PAGE: i64 = 1_000_000;

/// The most links of a query, those under links included.
const MOST_LINKS: usize = 10;

/// The most conditions of a query, those in filters of filters and of links included.
const MOST_CONDITIONS: usize = 200;

/// The most orders of a query.
const MOST_ORDERS: usize = 10;

/// What is wrong with a query as a whole.
#[derive(Clone, Copy)]
pub(crate) enum PartFault {
    /// The first rows asked for are none, or too many.
    BadTop,
    /// The rows of a page are none, or too many.
    BadSize,
    /// The page has no such number.
    BadNumber,
    /// A total is asked for over links.
    TotalOverLinks,
    TooManyLinks,
    TooManyConditions,
    TooManyOrders,
}

impl PartFault {
    // The place of it.
    #[tactic(auto, unfolding(crate::specs::Parts::part_place))]
    fn place(self) -> &'static str
        ensures { result.now ≡ part_place self }
    {
        match self {
            PartFault::BadTop => "top",
            PartFault::BadSize => "page.size",
            PartFault::BadNumber => "page.number",
            PartFault::TotalOverLinks => "page.total",
            PartFault::TooManyLinks => "links",
            PartFault::TooManyConditions => "filter",
            PartFault::TooManyOrders => "orders",
        }
    }

    // The kind of it.
    #[tactic(auto, unfolding(crate::specs::Parts::part_kind))]
    fn kind(self) -> QueryKind
        ensures { result ≡ part_kind self }
    {
        match self {
            PartFault::BadTop => QueryKind::Value,
            PartFault::BadSize => QueryKind::Value,
            PartFault::BadNumber => QueryKind::Value,
            PartFault::TotalOverLinks => QueryKind::Value,
            PartFault::TooManyLinks => QueryKind::Limit,
            PartFault::TooManyConditions => QueryKind::Limit,
            PartFault::TooManyOrders => QueryKind::Limit,
        }
    }

    // The fault as it is told.
    fn told(self, alloc: Global) -> Result<Fault, AllocError>
        ensures { IfOk result (λ fault. fault ≡ told_part self) }
    {
        Ok(Fault {
            place: Path::of(alloc, self.place())?,
            kind: self.kind(),
        })
    }
}

// Whether a number is from 1 to another.
#[tactic(auto, unfolding(crate::specs::Parts::is_from_1_to))]
fn is_from_1_to(most: i64, number: i64) -> bool
    ensures { result ≡ is_from_1_to most number }
{
    1 <= number && number <= most
}

// What is wrong with where a page begins.
#[tactic(auto, unfolding(crate::specs::Parts::start_fault))]
fn start_fault(from: &PageStart) -> Option<PartFault>
    ensures { result ≡ start_fault from.now }
{
    match from {
        PageStart::Number(number) => {
            if is_from_1_to(LAST_PAGE, *number) {
                None
            } else {
                Some(PartFault::BadNumber)
            }
        }
        PageStart::Cookie(_) => None,
    }
}

// What is wrong with the part of the answer that is asked for.
#[tactic(auto, unfolding(crate::specs::Parts::part_fault))]
fn part_fault(part: &Part, has_links: bool) -> Option<PartFault>
    ensures { result ≡ part_fault part.now has_links }
{
    match part {
        Part::Top(number) => {
            if is_from_1_to(MOST_ROWS, *number) {
                None
            } else {
                Some(PartFault::BadTop)
            }
        }
        Part::Page { size, from, total } => page_fault(*size, from, *total && has_links),
    }
}

// What is wrong with a page.
#[tactic(auto, unfolding(crate::specs::Parts::page_fault))]
fn page_fault(size: i64, from: &PageStart, is_total_over_links: bool) -> Option<PartFault>
    ensures { result ≡ page_fault size from.now is_total_over_links }
{
    if !is_from_1_to(MOST_ROWS, size) {
        return Some(PartFault::BadSize);
    }
    if let Some(fault) = start_fault(from) {
        return Some(fault);
    }
    if is_total_over_links {
        return Some(PartFault::TotalOverLinks);
    }
    None
}

// Whether a query has more of something than it may.
#[tactic(auto, unfolding(crate::specs::Parts::limit_fault))]
fn limit_fault(
    links: &[PlacedLink<'_>],
    filters: &[PlacedFilter<'_>],
    orders: usize,
) -> Option<PartFault>
    ensures { result ≡ limit_fault (map link_at links.now) (map filter_at filters.now) orders }
{
    if links.len() > MOST_LINKS {
        return Some(PartFault::TooManyLinks);
    }
    if has_more_conditions(filters, MOST_CONDITIONS) {
        return Some(PartFault::TooManyConditions);
    }
    if orders > MOST_ORDERS {
        return Some(PartFault::TooManyOrders);
    }
    None
}

/// The first fault of the part that is asked for and of the number of links, conditions and orders.
#[tactic(auto, unfolding(crate::specs::Parts::first_part_fault))]
pub(crate) fn first_part_fault(
    alloc: Global,
    query: &Query,
    links: &[PlacedLink<'_>],
    filters: &[PlacedFilter<'_>],
) -> Result<Option<Fault>, AllocError>
    ensures { IfOk result (λ fault. fault
        ≡ first_part_fault query.now (map link_at links.now) (map filter_at filters.now)) }
{
    if let Some(fault) = part_fault(&query.part, !links.is_empty()) {
        return Ok(Some(fault.told(alloc)?));
    }
    match limit_fault(links, filters, query.orders.as_slice().len()) {
        Some(fault) => Ok(Some(fault.told(alloc)?)),
        None => Ok(None),
    }
}
