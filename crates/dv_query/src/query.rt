//! Queries, the part of the answer that they ask for, and its order.
use crate::filter::Filter;
use crate::link::Link;
use dv_value::{Names, Text};
use sqlite_items::Items;

/// A question for rows of a table and of the tables that it links to.
#[derive(Debug, Drop)]
pub struct Query {
    pub table: Text,
    /// The columns of the table that are asked for; None for all.
    pub columns: Option<Names>,
    pub filter: Option<Filter>,
    pub links: Items<Link>,
    pub orders: Items<Order>,
    pub part: Part,
}

/// Which part of the answer is asked for.
#[derive(Debug, Drop)]
pub enum Part {
    /// The first rows, so many.
    Top(i64),
    /// A page of `size` rows, and with `total` how many rows there are.
    Page {
        size: i64,
        from: PageStart,
        total: bool,
    },
}

/// Where a page begins.
#[derive(Debug, Drop)]
pub enum PageStart {
    /// At its place among pages of its size, counted from 1.
    Number(i64),
    /// After the row that the page before ended with, whose cookie is given.
    Cookie(Text),
}

/// A column that the answer is sorted by.
#[derive(Debug, Drop)]
pub struct Order {
    pub column: Text,
    /// The alias of the link whose column it is; None for the query's own table.
    pub link: Option<Text>,
    pub descending: bool,
}
