//! The filters of a query and of its links, each before those in it.

ghost use Rattle.std.specs.Prelude.{◌≡◌, ◌++◌, ◌∷◌, [], ◌<◌, map, flat_map, option_map, length, nat_lt, codes, IfOk, OnOk};
ghost use Rattle.dv_query_check.specs.Columns.{table_named};
ghost use Rattle.dv_query_check.specs.Filters.{in_turn, filters_in, filters_given, filters_of, filters_of_link, has_more_conditions};
ghost use Rattle.dv_query_check.specs.Links.{links_of};
ghost use Rattle.dv_query_check.specs.Placed.{link_at, filter_at};

use crate::path::Path;
use crate::placed::PlacedLink;
use dv_query::{Condition, Filter, Query};
use dv_schema::Table;
use std::alloc::{AllocError, Global};

/// The conditions of a filter in its place.
#[derive(Drop)]
pub(crate) struct PlacedFilter<'a> {
    pub(crate) place: Path,
    /// The table whose columns conditions without a link name, if it is there.
    pub(crate) table: Option<&'a Table>,
    /// Whether conditions may name a link.
    pub(crate) names_links: bool,
    pub(crate) conditions: &'a [Condition],
}

/// What conditions may name.
#[derive(Clone, Copy)]
struct Scope<'a> {
    table: Option<&'a Table>,
    names_links: bool,
}

/// The filters of a query, and then those of its links.
pub(crate) fn placed_filters<'a>(
    alloc: Global,
    base: Option<&'a Table>,
    query: &'a Query,
    links: &[PlacedLink<'a>],
) -> Result<Vec<PlacedFilter<'a>>, AllocError>
    ensures { IfOk result (λ filters. map filter_at filters.items
        ≡ filters_of (option_map (λ t. t.now) base.entry) query.now.filter
        (map link_at links.now)) }
{
    let scope = Scope {
        table: base,
        names_links: true,
    };
    let mut placed = Vec::new(alloc);
    add_given(
        alloc,
        &query.filter,
        scope,
        Path::of(alloc, "filter")?,
        &mut placed,
    )?;
    add_of_links(alloc, links, &mut placed)?;
    Ok(placed)
}

// Adds the filters of links.
fn add_of_links<'a>(
    alloc: Global,
    links: &[PlacedLink<'a>],
    placed: &mut Vec<PlacedFilter<'a>>,
) -> Result<(), AllocError>
    ensures { OnOk result (map filter_at placed.new.items ≡ map filter_at placed.old.items
        ++ flat_map filters_of_link (map link_at links.now)) }
{
    for link in links {
        add_of_link(alloc, link, placed)?;
    }
    Ok(())
}

// Adds the filters of a link.
#[tactic(auto, unfolding(crate::specs::Filters::filters_of_link, crate::specs::Placed::link_at))]
fn add_of_link<'a>(
    alloc: Global,
    link: &PlacedLink<'a>,
    placed: &mut Vec<PlacedFilter<'a>>,
) -> Result<(), AllocError>
    ensures { OnOk result (map filter_at placed.new.items ≡ map filter_at placed.old.items
        ++ filters_of_link (link_at link.now)) }
{
    let scope = Scope {
        table: link.table,
        names_links: false,
    };
    let place = link.place.member(alloc, "filter")?;
    add_given(alloc, &link.link.filter, scope, place, placed)
}

// Adds a filter, where there is one, and those in it.
#[tactic(auto, unfolding(crate::specs::Filters::filters_given))]
fn add_given<'a>(
    alloc: Global,
    filter: &'a Option<Filter>,
    scope: Scope<'a>,
    place: Path,
    placed: &mut Vec<PlacedFilter<'a>>,
) -> Result<(), AllocError>
    ensures { OnOk result (map filter_at placed.new.items ≡ map filter_at placed.old.items
        ++ filters_given (option_map (λ t. t.now) scope.entry.table)
        scope.entry.names_links filter.now place) }
{
    match filter {
        Some(filter) => Ok(add_filter(alloc, filter, scope, place, placed)?),
        None => Ok(()),
    }
}

// Adds the filters of a list, each followed by those in it.
#[cycle(filters)]
fn add_filters<'a>(
    alloc: Global,
    filters: &'a [Filter],
    scope: Scope<'a>,
    place: &Path,
    placed: &mut Vec<PlacedFilter<'a>>,
) -> Result<(), AllocError>
    ensures { OnOk result (map filter_at placed.new.items ≡ map filter_at placed.old.items
        ++ in_turn place.now 0 (map (filters_in
        (option_map (λ t. t.now) scope.entry.table) scope.entry.names_links) filters.now)) }
{
    for (i, filter) in filters.iter().enumerate() {
        add_filter(alloc, filter, scope, place.item(alloc, i)?, placed)?;
    }
    Ok(())
}

// Adds a filter, and those in it.
#[cycle(filters)]
fn add_filter<'a>(
    alloc: Global,
    filter: &'a Filter,
    scope: Scope<'a>,
    place: Path,
    placed: &mut Vec<PlacedFilter<'a>>,
) -> Result<(), AllocError>
    ensures { OnOk result (map filter_at placed.new.items ≡ map filter_at placed.old.items
        ++ filters_in (option_map (λ t. t.now) scope.entry.table)
        scope.entry.names_links filter.now place) }
{
    let inside = place.member(alloc, "filters")?;
    keep(
        placed,
        PlacedFilter {
            place,
            table: scope.table,
            names_links: scope.names_links,
            conditions: filter.conditions.as_slice(),
        },
    )?;
    add_filters(alloc, filter.filters.as_slice(), scope, &inside, placed)
}

// Adds a filter at the end.
fn keep<'a>(placed: &mut Vec<PlacedFilter<'a>>, filter: PlacedFilter<'a>) -> Result<(), AllocError>
    ensures { OnOk result (map filter_at placed.new.items
        ≡ map filter_at placed.old.items ++ filter_at filter.entry ∷ []) }
{
    placed.push(filter)?;
    Ok(())
}

/// Whether filters have more conditions than so many.
#[tactic(auto, unfolding(crate::specs::Filters::has_more_conditions, crate::specs::Placed::filter_at))]
pub(crate) fn has_more_conditions(filters: &[PlacedFilter<'_>], most: usize) -> bool
    ensures { result ≡ has_more_conditions (map filter_at filters.now) most }
{
    let mut left = most;
    for filter in filters {
        if left < filter.conditions.len() {
            return true;
        }
        left -= filter.conditions.len();
    }
    false
}
