//! Whether a query can be asked of the tables of a definition: every part of it is looked at before a row is read.
//!
//! Callers may rely on this: a query is accepted exactly where it has no fault by the stated rules; otherwise its
//! first fault is told, in one stated order, with its place in the request and its kind. In an accepted query every
//! table, column and alias is there, and every value is one of its column's kind. It has a form with numbers in place
//! of names, so that nothing is looked up again when it is asked.
#![tactic(auto)]

mod base;
mod check;
mod columns;
mod comparands;
mod conditions;
mod fault;
mod filtering;
mod filters;
mod links;
mod operands;
mod operators;
mod orders;
mod part;
mod path;
mod placed;
mod resolved;
mod resolving;
mod source;

pub use check::{an_accepted_query_is_well_typed, check_query};
pub use fault::{QueryFault, QueryKind};
pub use placed::each_link_stands_under_an_earlier_source;
pub use resolved::{ResolvedCondition, ResolvedFilter, ResolvedLink, ResolvedOrder, ResolvedQuery};
pub use resolving::{an_accepted_query_can_be_resolved, resolve};
