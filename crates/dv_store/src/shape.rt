//! What a store keeps of its definition.
ghost use Rattle.std.specs.Prelude.{◌≡◌, ◌++◌, ◌≤◌, length, IfOk, OnOk};
ghost use Rattle.std.specs.Option.{option_copied};
ghost use Rattle.dv_schema.specs.Definitions.{tables_of, relationships_of};
ghost use Rattle.dv_store.specs.Shapes.{feed_by, place_of, feeds_of_role, feeds_of_columns, feeds_of_tables, links_of, owned_of, shape_of, tracked_of};

use dv_schema::{Column, ColumnRole, Definition, Relationship, Table};
use sqlite_items::{Items, at};
use std::alloc::{AllocError, Global};

/// A relationship: the table that has the lookup, and the lookup's place among a row's values.
#[derive(Clone, Copy, Debug)]
pub struct Link {
    pub child: u16,
    pub place: u16,
}

/// A rollup and what it is calculated from: the rows of a child table that name the rollup's row at a place.
#[derive(Clone, Copy, Debug)]
pub struct Feed {
    pub child: u16,
    pub place: u16,
    /// The rollup's table.
    pub parent: u16,
    /// The rollup's column.
    pub column: u16,
}

/// What a store keeps of its definition.
#[derive(Debug, Drop)]
pub struct Shape {
    /// For each table, whether users and teams own its rows.
    pub owned: Items<bool>,
    /// For each table, whether its removed rows leave removals.
    pub tracked: Items<bool>,
    /// The relationships, in the order of their numbers.
    pub links: Items<Link>,
    /// The rollups.
    pub feeds: Items<Feed>,
}

/// The place of a column's value among those of a row. The id has none, and no lookup is the id.
pub(crate) fn place_of(column: u16) -> u16
    ensures { result ≡ place_of column }
{
    if column > 2 { column - 1 } else { column }
}

/// The feed of a rollup by its relationship, if that is there.
fn add_feed_by(
    feeds: &mut Items<Feed>,
    parent: u16,
    column: u16,
    relationship: Option<&Relationship>,
) -> Result<(), AllocError>
    ensures { OnOk result (feeds.new
        ≡ feeds.old ++ feed_by parent column (option_copied relationship.entry)) }
{
    if let Some(relationship) = relationship {
        feeds.push(Feed {
            child: relationship.child,
            place: place_of(relationship.column),
            parent,
            column,
        })?;
    }
    Ok(())
}

/// The feed of a column, if it is a rollup of a relationship that is there.
fn add_feed(
    feeds: &mut Items<Feed>,
    relationships: &[Relationship],
    parent: u16,
    number: usize,
    role: &ColumnRole,
) -> Result<(), AllocError>
    ensures { OnOk result (feeds.new
        ≡ feeds.old ++ feeds_of_role relationships.now parent number role.now) }
{
    if let ColumnRole::Rollup(rollup) = role
        && number < 65_536
    {
        let over = at(relationships, usize::from(rollup.over));
        add_feed_by(feeds, parent, number as u16, over)?;
    }
    Ok(())
}

/// The feeds of a table's columns.
fn add_feeds(
    feeds: &mut Items<Feed>,
    relationships: &[Relationship],
    parent: u16,
    columns: &[Column],
) -> Result<(), AllocError>
    ensures { OnOk result (feeds.new
        ≡ feeds.old ++ feeds_of_columns relationships.now parent 0 columns.now) }
{
    for (number, column) in columns.iter().enumerate() {
        add_feed(feeds, relationships, parent, number, &column.role)?;
    }
    Ok(())
}

/// The feeds of all tables.
fn feeds_of(
    alloc: Global,
    relationships: &[Relationship],
    tables: &[Table],
) -> Result<Items<Feed>, AllocError>
    requires { length tables.now ≤ 100 }
    ensures { IfOk result (λ feeds. feeds ≡ feeds_of_tables relationships.now 0 tables.now) }
{
    let mut feeds = Items::new(alloc);
    let mut number: u16 = 0;
    for table in tables {
        add_feeds(&mut feeds, relationships, number, table.columns.as_slice())?;
        number += 1;
    }
    Ok(feeds)
}

/// The relationships as links.
fn links_of(alloc: Global, relationships: &[Relationship]) -> Result<Items<Link>, AllocError>
    ensures { IfOk result (λ links. links ≡ links_of relationships.now) }
{
    let mut links = Items::new(alloc);
    for relationship in relationships {
        links.push(Link {
            child: relationship.child,
            place: place_of(relationship.column),
        })?;
    }
    Ok(links)
}

/// Which tables are user-owned.
fn owned_of(alloc: Global, tables: &[Table]) -> Result<Items<bool>, AllocError>
    ensures { IfOk result (λ owned. owned ≡ owned_of tables.now) }
{
    let mut owned = Items::new(alloc);
    for table in tables {
        owned.push(table.user_owned)?;
    }
    Ok(owned)
}

/// Which tables are tracked.
fn tracked_of(alloc: Global, tables: &[Table]) -> Result<Items<bool>, AllocError>
    ensures { IfOk result (λ tracked. tracked ≡ tracked_of tables.now) }
{
    let mut tracked = Items::new(alloc);
    for table in tables {
        tracked.push(table.tracking)?;
    }
    Ok(tracked)
}

/// What is kept of a definition.
#[tactic(auto, unfolding(crate::specs::Shapes::shape_of))]
pub(crate) fn shape_of(alloc: Global, definition: &Definition) -> Result<Shape, AllocError>
    ensures { IfOk result (λ shape. shape ≡ shape_of definition.now) }
{
    let tables = definition.tables();
    let relationships = definition.relationships();
    let owned = owned_of(alloc, tables)?;
    let tracked = tracked_of(alloc, tables)?;
    let links = links_of(alloc, relationships)?;
    let feeds = feeds_of(alloc, relationships, tables)?;
    Ok(Shape {
        owned,
        tracked,
        links,
        feeds,
    })
}
