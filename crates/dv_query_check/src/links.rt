//! What is wrong with a link: its table, the columns that it joins by, its alias and its columns.

ghost use Rattle.std.specs.Prelude.{◌≡◌, ◌&&◌, not, map, take, IfOk, option_map};
ghost use Rattle.std.specs.List.{list_any};
ghost use Rattle.dv_query_check.specs.LinkFaults.{has_alias, is_free, has_good_alias, has_columns, link_fault, link_member, link_kind, told_link, unknown_column, columns_fault, first_link_fault};
ghost use Rattle.dv_query_check.specs.Placed.{link_at};

use crate::columns::{has_reference, unknown_in};
use crate::fault::{Fault, QueryKind};
use crate::path::Path;
use crate::placed::PlacedLink;
use dv_form::is_name;
use dv_value::Text;
use std::alloc::{AllocError, Global};

/// What is wrong with a link.
#[derive(Clone, Copy)]
pub(crate) enum LinkFault {
    UnknownTable,
    /// The table above has no such column of ids.
    BadFrom,
    /// The link's table has no such column of ids.
    BadTo,
    /// The alias isn't a name, is used before, or is missing beside columns.
    BadAlias,
    /// Columns of a link of which no row is told.
    ColumnsGiven,
    /// The name at this place is no column of the table.
    UnknownColumn(usize),
}

impl LinkFault {
    // The place of it in the link.
    #[tactic(auto, unfolding(crate::specs::LinkFaults::link_member))]
    fn member(self, alloc: Global, link: &Path) -> Result<Path, AllocError>
        ensures { IfOk result (λ place. place ≡ link_member link.now self) }
    {
        match self {
            LinkFault::UnknownTable => link.member(alloc, "table"),
            LinkFault::BadFrom => link.member(alloc, "from"),
            LinkFault::BadTo => link.member(alloc, "to"),
            LinkFault::BadAlias => link.member(alloc, "alias"),
            LinkFault::ColumnsGiven => link.member(alloc, "columns"),
            LinkFault::UnknownColumn(i) => link.member(alloc, "columns")?.item(alloc, i),
        }
    }

    // The kind of it.
    #[tactic(auto, unfolding(crate::specs::LinkFaults::link_kind))]
    fn kind(self) -> QueryKind
        ensures { result ≡ link_kind self }
    {
        match self {
            LinkFault::UnknownTable => QueryKind::Table,
            LinkFault::BadFrom => QueryKind::Column,
            LinkFault::BadTo => QueryKind::Column,
            LinkFault::BadAlias => QueryKind::Alias,
            LinkFault::ColumnsGiven => QueryKind::Columns,
            LinkFault::UnknownColumn(_) => QueryKind::Column,
        }
    }

    // The fault as it is told.
    fn told(self, alloc: Global, link: &Path) -> Result<Fault, AllocError>
        ensures { IfOk result (λ fault. fault ≡ told_link link.now self) }
    {
        Ok(Fault {
            place: self.member(alloc, link)?,
            kind: self.kind(),
        })
    }
}

// Whether a link has this alias.
#[tactic(auto, unfolding(crate::specs::LinkFaults::has_alias, crate::specs::Placed::link_at))]
pub(crate) fn has_alias(alias: &Text, link: &PlacedLink<'_>) -> bool
    ensures { result ≡ has_alias alias.now (link_at link.now) }
{
    match &link.link.alias {
        Some(own) => own == alias,
        None => false,
    }
}

// Whether one of these links has the alias.
fn is_taken(alias: &Text, earlier: &[PlacedLink<'_>]) -> bool
    ensures { result ≡ list_any (λ l. has_alias alias.now (link_at l)) earlier.now }
{
    earlier.iter().any(|link| has_alias(alias, link))
}

// Whether none of these links has the alias.
fn is_free(alias: &Text, earlier: &[PlacedLink<'_>]) -> bool
    ensures { result ≡ is_free alias.now (map link_at earlier.now) }
{
    !is_taken(alias, earlier)
}

// Whether columns of the link are asked for.
#[tactic(auto, unfolding(crate::specs::LinkFaults::has_columns, crate::specs::Placed::link_at))]
fn has_columns(link: &PlacedLink<'_>) -> bool
    ensures { result ≡ has_columns (link_at link.now) }
{
    !link.link.columns.is_empty()
}

// Whether the alias is a name that no earlier link has, or is missing where no columns are asked for.
#[tactic(auto, unfolding(crate::specs::LinkFaults::has_good_alias, crate::specs::LinkFaults::is_good_alias, crate::specs::Placed::link_at))]
fn has_good_alias(link: &PlacedLink<'_>, earlier: &[PlacedLink<'_>]) -> bool
    ensures { result ≡ has_good_alias (map link_at earlier.now) (link_at link.now) }
{
    match &link.link.alias {
        Some(alias) => is_name(alias.as_str()) && is_free(alias, earlier),
        None => !has_columns(link),
    }
}

// The first of the link's columns that its table doesn't have.
#[tactic(auto, unfolding(crate::specs::LinkFaults::unknown_column, crate::specs::Placed::link_at))]
fn unknown_column(link: &PlacedLink<'_>) -> Option<LinkFault>
    ensures { result ≡ unknown_column (link_at link.now) }
{
    let Some(table) = link.table else {
        return None;
    };
    match unknown_in(table, link.link.columns.as_slice()) {
        Some(i) => Some(LinkFault::UnknownColumn(i)),
        None => None,
    }
}

// What is wrong with the columns that are asked of a link.
#[tactic(auto, unfolding(crate::specs::LinkFaults::columns_fault, crate::specs::Placed::link_at))]
fn columns_fault(link: &PlacedLink<'_>) -> Option<LinkFault>
    ensures { result ≡ columns_fault (link_at link.now) }
{
    if link.is_hidden && has_columns(link) {
        return Some(LinkFault::ColumnsGiven);
    }
    unknown_column(link)
}

// What is wrong with a link after those before it.
#[tactic(auto, unfolding(crate::specs::LinkFaults::link_fault, crate::specs::Placed::link_at))]
fn link_fault(link: &PlacedLink<'_>, earlier: &[PlacedLink<'_>]) -> Option<LinkFault>
    ensures { result ≡ link_fault (map link_at earlier.now) (link_at link.now) }
{
    if link.table.is_none() {
        return Some(LinkFault::UnknownTable);
    }
    if !has_reference(link.outer, &link.link.from) {
        return Some(LinkFault::BadFrom);
    }
    if !has_reference(link.table, &link.link.to) {
        return Some(LinkFault::BadTo);
    }
    if !has_good_alias(link, earlier) {
        return Some(LinkFault::BadAlias);
    }
    columns_fault(link)
}

/// The first fault of the links of a query, in preorder.
pub(crate) fn first_link_fault(
    alloc: Global,
    links: &[PlacedLink<'_>],
) -> Result<Option<Fault>, AllocError>
    ensures { IfOk result (λ fault. fault ≡ first_link_fault (map link_at links.now)) }
{
    for (i, link) in links.iter().enumerate() {
        if let Some(fault) = link_fault(link, &links[..i]) {
            return Ok(Some(fault.told(alloc, &link.place)?));
        }
    }
    Ok(None)
}
