//! Queries with numbers in place of names.

use dv_query::{Join, Operator};
use dv_value::Value;
use sqlite_items::Items;

/// A query that can be asked, without a name that would have to be looked up: a table has its number
/// in the definition, a column its number in its table. The query's own table is source 0, and the
/// links are the sources 1 and on. It takes no more memory than the query does: a number stands for
/// each name, and of the texts only those of conditions are kept.
#[derive(Debug, Drop)]
pub struct ResolvedQuery {
    pub table: u16,
    /// The columns of the table that are asked for; None for all.
    pub columns: Option<Items<usize>>,
    pub filter: Option<ResolvedFilter>,
    /// The links in preorder: each stands under an earlier source.
    pub links: Items<ResolvedLink>,
    pub orders: Items<ResolvedOrder>,
}

/// A link, under the source that it stands under.
#[derive(Debug, Drop)]
pub struct ResolvedLink {
    /// The source that it stands under.
    pub outer: usize,
    pub table: u16,
    /// The column of the outer source's table.
    pub from: usize,
    /// The column of the link's own table.
    pub to: usize,
    pub join: Join,
    /// The columns of its table that are asked for.
    pub columns: Items<usize>,
    /// The filter of its rows, whose conditions are on this source alone.
    pub filter: Option<ResolvedFilter>,
}

/// Conditions and further filters, of which all or any must hold.
#[derive(Debug, Drop)]
pub struct ResolvedFilter {
    pub any: bool,
    pub conditions: Items<ResolvedCondition>,
    pub filters: Items<ResolvedFilter>,
}

/// A source's column compared with values.
#[derive(Debug, Drop)]
pub struct ResolvedCondition {
    pub source: usize,
    pub column: usize,
    pub operator: Operator,
    /// Values of the column's kind; for a number of days a whole number.
    pub values: Items<Value>,
}

/// A source's column that the answer is sorted by.
#[derive(Debug, Drop)]
pub struct ResolvedOrder {
    pub source: usize,
    pub column: usize,
    pub descending: bool,
}
