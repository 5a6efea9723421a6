//! Queries as plain data: a table, the columns asked for, a filter, links to other tables, orders and a part.
//!
//! Callers may rely on this: a query is what a caller wrote, with names as texts and values as JSON has them; each
//! operator and each way to join has one word, by which it is read and written.
#![tactic(auto)]

mod filter;
mod link;
mod operator;
mod query;

pub use filter::{Condition, Filter};
pub use link::{Join, Link};
pub use operator::Operator;
pub use query::{Order, PageStart, Part, Query};
