//! The parts of an accepted definition, with numbers for names.
ghost use Rattle.std.specs.Prelude.{◌≡◌, map, IfOk};
ghost use Rattle.dv_meta.specs.Accepted.{table_of, relationship_of, registration_of};
ghost use Rattle.dv_meta.specs.Index.{IsIndexOf};
ghost use Rattle.dv_schema.specs.Limits.{IsWithinLimits};

mod copies;
mod numbers;
mod table_columns;

use crate::building::numbers::{number_in_table, table_number};
use crate::index::Index;
use copies::{copy_given, copy_names};
use dv_schema::{Draft, DraftRegistration, DraftRelationship, Registration, Relationship, Table};
use sqlite_items::Items;
use std::alloc::{AllocError, Global};
use table_columns::table_of;

/// The tables, with their columns numbered.
pub(crate) fn tables_of(
    alloc: Global,
    draft: &Draft,
    index: &Index,
) -> Result<Items<Table>, AllocError>
    requires index { IsIndexOf draft.now index.now }
    requires limits { IsWithinLimits draft.now }
    ensures { IfOk result (λ tables. tables ≡ map (table_of draft.now) draft.now.tables) }
{
    let mut tables = Items::new(alloc);
    for table in draft.tables.as_slice() {
        tables.push(table_of(alloc, draft, index, table)?)?;
    }
    Ok(tables)
}

/// The relationships, with their tables and columns by number.
pub(crate) fn relationships_of(
    alloc: Global,
    draft: &Draft,
    index: &Index,
) -> Result<Items<Relationship>, AllocError>
    requires index { IsIndexOf draft.now index.now }
    requires limits { IsWithinLimits draft.now }
    ensures { IfOk result (λ list. list ≡ map (relationship_of draft.now) draft.now.relationships) }
{
    let mut relationships = Items::new(alloc);
    for r in draft.relationships.as_slice() {
        relationships.push(relationship_of(alloc, draft, index, r)?)?;
    }
    Ok(relationships)
}

#[tactic(auto, unfolding(crate::specs::Accepted::relationship_of))]
fn relationship_of(
    alloc: Global,
    draft: &Draft,
    index: &Index,
    r: &DraftRelationship,
) -> Result<Relationship, AllocError>
    requires index { IsIndexOf draft.now index.now }
    requires limits { IsWithinLimits draft.now }
    ensures { IfOk result (λ relationship. relationship ≡ relationship_of draft.now r.now) }
{
    Ok(Relationship {
        name: r.name.copy(alloc)?,
        parent: table_number(draft, index, &r.parent),
        child: table_number(draft, index, &r.child),
        column: number_in_table(draft, index, &r.child, &r.column).unwrap_or(0),
        assign: r.assign,
        share: r.share,
        unshare: r.unshare,
        reparent: r.reparent,
        delete: r.delete,
    })
}

/// The registrations, with their tables by number.
pub(crate) fn registrations_of(
    alloc: Global,
    draft: &Draft,
    index: &Index,
) -> Result<Items<Registration>, AllocError>
    requires index { IsIndexOf draft.now index.now }
    requires limits { IsWithinLimits draft.now }
    ensures { IfOk result (λ steps. steps ≡ map (registration_of draft.now) draft.now.steps) }
{
    let mut steps = Items::new(alloc);
    for g in draft.steps.as_slice() {
        steps.push(registration_of(alloc, draft, index, g)?)?;
    }
    Ok(steps)
}

#[tactic(auto, unfolding(crate::specs::Accepted::registration_of))]
fn registration_of(
    alloc: Global,
    draft: &Draft,
    index: &Index,
    g: &DraftRegistration,
) -> Result<Registration, AllocError>
    requires index { IsIndexOf draft.now index.now }
    requires limits { IsWithinLimits draft.now }
    ensures { IfOk result (λ registration. registration ≡ registration_of draft.now g.now) }
{
    Ok(Registration {
        step: g.step,
        message: g.message,
        table: table_number(draft, index, &g.table),
        stage: g.stage,
        rank: g.rank,
        columns: copy_given(alloc, &g.columns)?,
        user: g.user,
        pre: copy_names(alloc, &g.pre)?,
        post: copy_names(alloc, &g.post)?,
        config: g.config.copy(alloc)?,
    })
}
