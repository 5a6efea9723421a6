//! The links of a query in preorder, each with its place, its table and the table that it stands under.

ghost use Rattle.std.specs.Prelude.{◌≡◌, ◌+◌, ◌++◌, ◌∷◌, [], ◌||◌, length, map, option_map, codes, IfOk, OnOk, ℕ, Some, slice_get};
ghost use Rattle.dv_schema.specs.declared.definition.Definition.{Definition};
ghost use Rattle.dv_query.specs.declared.link.Link.{Link};
ghost use Rattle.dv_query.specs.declared.query.Query.{Query};
ghost use Rattle.dv_query_check.specs.Columns.{table_named};
ghost use Rattle.dv_query_check.specs.Links.{LinkAt, IsUnder, is_exists, links_at, links_under, links_of, links_in_turn};
ghost use Rattle.dv_query_check.specs.Placed.{link_at};
ghost use Rattle.dv_query_check.specs.Places.{member};

use crate::columns::table_named;
use crate::path::Path;
use dv_query::{Join, Link, Query};
use dv_schema::{Definition, Table};
use std::alloc::{AllocError, Global};

/// A link of a query in its place.
#[derive(Drop)]
pub(crate) struct PlacedLink<'a> {
    pub(crate) place: Path,
    /// Its number among the sources: the query's own table is 0, and links count on in preorder.
    pub(crate) number: usize,
    /// The number of the source that it stands under.
    pub(crate) above: usize,
    /// The table that it stands under, if there is one of that name.
    pub(crate) outer: Option<&'a Table>,
    /// Its own table, if there is one of that name.
    pub(crate) table: Option<&'a Table>,
    /// Whether it, or a link that it stands under, only asks whether there is a partner.
    pub(crate) is_hidden: bool,
    pub(crate) link: &'a Link,
}

/// What links stand under.
#[derive(Clone, Copy)]
struct Above<'a> {
    number: usize,
    table: Option<&'a Table>,
    is_hidden: bool,
}

/// The links of a query in preorder.
#[tactic(auto, unfolding(crate::specs::Links::links_of))]
pub(crate) fn placed_links<'a>(
    alloc: Global,
    def: &'a Definition,
    query: &'a Query,
) -> Result<Vec<PlacedLink<'a>>, AllocError>
    ensures { IfOk result (λ links. map link_at links.items ≡ links_of def.now query.now) }
{
    let above = Above {
        number: 0,
        table: table_named(def, &query.table),
        is_hidden: false,
    };
    let mut placed = Vec::new(alloc);
    let place = Path::of(alloc, "links")?;
    add_links(
        alloc,
        def,
        query.links.as_slice(),
        above,
        &place,
        &mut placed,
    )?;
    Ok(placed)
}

/// Each link of a query stands under the query's own table or under a link before it in preorder.
/// The call does nothing: what it ensures is the law.
pub fn each_link_stands_under_an_earlier_source()
    ensures { (d : Definition) (q : Query) (k : ℕ) (l : LinkAt)
        → slice_get (links_of d q) k ≡ Some l
        → IsUnder (table_named d q.table) (links_of d q) k l }
{}

// Adds the links of a list, each followed by those under it.
#[cycle(links)]
fn add_links<'a>(
    alloc: Global,
    def: &'a Definition,
    links: &'a [Link],
    above: Above<'a>,
    place: &Path,
    placed: &mut Vec<PlacedLink<'a>>,
) -> Result<(), AllocError>
    ensures { OnOk result (map link_at placed.new.items ≡ map link_at placed.old.items
        ++ links_in_turn place.now 0 (length (map link_at placed.old.items) + 1)
        (map (links_under def.now (option_map (λ t. t.now) above.entry.table)
        above.entry.is_hidden above.entry.number) links.now)) }
{
    for (i, link) in links.iter().enumerate() {
        add_link(alloc, def, link, above, place.item(alloc, i)?, placed)?;
    }
    Ok(())
}

// Adds a link, and those under it.
#[cycle(links)]
fn add_link<'a>(
    alloc: Global,
    def: &'a Definition,
    link: &'a Link,
    above: Above<'a>,
    place: Path,
    placed: &mut Vec<PlacedLink<'a>>,
) -> Result<(), AllocError>
    ensures { OnOk result (map link_at placed.new.items ≡ map link_at placed.old.items
        ++ links_under def.now (option_map (λ t. t.now) above.entry.table)
        above.entry.is_hidden above.entry.number link.now
        (length (map link_at placed.old.items) + 1) place) }
{
    let number = placed.as_slice().len() + 1;
    let table = table_named(def, &link.table);
    let is_hidden = is_hidden_under(above, link.join);
    let inside = place.member(alloc, "links")?;
    keep(
        placed,
        PlacedLink {
            place,
            number,
            above: above.number,
            outer: above.table,
            table,
            is_hidden,
            link,
        },
    )?;
    let here = Above {
        number,
        table,
        is_hidden,
    };
    add_links(alloc, def, link.links.as_slice(), here, &inside, placed)
}

// Adds a link at the end.
fn keep<'a>(placed: &mut Vec<PlacedLink<'a>>, link: PlacedLink<'a>) -> Result<(), AllocError>
    ensures { OnOk result (map link_at placed.new.items
        ≡ map link_at placed.old.items ++ link_at link.entry ∷ []) }
{
    placed.push(link)?;
    Ok(())
}

// Whether a link only asks whether there is a partner, or the one above it does.
fn is_hidden_under(above: Above<'_>, join: Join) -> bool
    ensures { result ≡ (above.entry.is_hidden || is_exists join) }
{
    above.is_hidden || is_exists(join)
}

// Whether a join only asks whether there is a partner.
#[tactic(auto, unfolding(crate::specs::Links::is_exists))]
fn is_exists(join: Join) -> bool
    ensures { result ≡ is_exists join }
{
    match join {
        Join::Exists => true,
        Join::Inner => false,
        Join::Left => false,
    }
}
