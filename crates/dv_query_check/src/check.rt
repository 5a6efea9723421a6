//! The check of a whole query.

ghost use Rattle.std.specs.Prelude.{◌≡◌, None, IfOk, IfErr, OnOk};
ghost use Rattle.dv_schema.specs.declared.definition.Definition.{Definition};
ghost use Rattle.dv_query.specs.declared.query.Query.{Query};
ghost use Rattle.dv_query_check.specs.Accepted.{IsTyped};
ghost use Rattle.dv_query_check.specs.Faults.{IsTold};
ghost use Rattle.dv_query_check.specs.Queries.{first_fault};

use crate::base::first_base_fault;
use crate::columns::table_named;
use crate::conditions::first_condition_fault;
use crate::fault::{Fault, QueryFault};
use crate::filters::placed_filters;
use crate::links::first_link_fault;
use crate::orders::first_order_fault;
use crate::part::first_part_fault;
use crate::placed::placed_links;
use dv_query::Query;
use dv_schema::Definition;
use std::alloc::{AllocError, Global};

/// Accepts a query that can be asked of the tables of a definition, or tells its first fault. In order: the part that
/// is asked for and the number of links, conditions and orders; the query's own table and columns; the links in
/// preorder; the conditions of the query's filter and then of the links' filters, each filter before those in it; the
/// orders.
pub fn check_query(alloc: Global, def: &Definition, query: &Query) -> Result<(), QueryFault>
    ensures ok { OnOk result (first_fault def.now query.now ≡ None) }
    ensures refused { IfErr result (IsTold (first_fault def.now query.now)) }
{
    match first_fault(alloc, def, query)? {
        Some(fault) => Err(fault.into_told()),
        None => Ok(()),
    }
}

/// In an accepted query every table, column and alias that is named is there, every link that is
/// named is one whose rows are told, each link's alias is its own, and every value is one that its
/// operator takes on its column. The call does nothing: what it ensures is the law.
pub fn an_accepted_query_is_well_typed()
    ensures { (d : Definition) (q : Query) → first_fault d q ≡ None → IsTyped d q }
{}

// The first fault of a query.
#[tactic(auto, unfolding(crate::specs::Queries::first_fault))]
fn first_fault(alloc: Global, def: &Definition, query: &Query) -> Result<Option<Fault>, AllocError>
    ensures { IfOk result (λ fault. fault ≡ first_fault def.now query.now) }
{
    let base = table_named(def, &query.table);
    let links = placed_links(alloc, def, query)?;
    let links = links.as_slice();
    let filters = placed_filters(alloc, base, query, links)?;
    let filters = filters.as_slice();
    if let Some(fault) = first_part_fault(alloc, query, links, filters)? {
        return Ok(Some(fault));
    }
    if let Some(fault) = first_base_fault(alloc, base, &query.columns)? {
        return Ok(Some(fault));
    }
    if let Some(fault) = first_link_fault(alloc, links)? {
        return Ok(Some(fault));
    }
    if let Some(fault) = first_condition_fault(alloc, links, filters)? {
        return Ok(Some(fault));
    }
    Ok(first_order_fault(alloc, base, links, query.orders.as_slice())?)
}
