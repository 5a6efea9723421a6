//! What is wrong with an order: the link and the column that it names.

ghost use Rattle.std.specs.Prelude.{◌≡◌, map, IfOk, option_map};
ghost use Rattle.dv_query_check.specs.OrderFaults.{order_fault, order_member, order_kind, told_order, first_order_fault};
ghost use Rattle.dv_query_check.specs.Placed.{link_at};

use crate::columns::column_named;
use crate::conditions::table_meant;
use crate::fault::{Fault, QueryKind};
use crate::path::Path;
use crate::placed::PlacedLink;
use dv_query::Order;
use dv_schema::Table;
use std::alloc::{AllocError, Global};

/// What is wrong with an order.
#[derive(Clone, Copy)]
pub(crate) enum OrderFault {
    /// The link can't be named.
    UnknownLink,
    UnknownColumn,
}

impl OrderFault {
    // The name of the member that is at fault.
    #[tactic(auto, unfolding(crate::specs::OrderFaults::order_member))]
    fn member(self) -> &'static str
        ensures { result.now ≡ order_member self }
    {
        match self {
            OrderFault::UnknownLink => "link",
            OrderFault::UnknownColumn => "column",
        }
    }

    // The kind of it.
    #[tactic(auto, unfolding(crate::specs::OrderFaults::order_kind))]
    fn kind(self) -> QueryKind
        ensures { result ≡ order_kind self }
    {
        match self {
            OrderFault::UnknownLink => QueryKind::Alias,
            OrderFault::UnknownColumn => QueryKind::Column,
        }
    }

    // The fault of the order of a number, as it is told.
    fn told(self, alloc: Global, i: usize) -> Result<Fault, AllocError>
        ensures { IfOk result (λ fault. fault ≡ told_order i self) }
    {
        let order = Path::of(alloc, "orders")?.item(alloc, i)?;
        Ok(Fault {
            place: order.member(alloc, self.member())?,
            kind: self.kind(),
        })
    }
}

// What is wrong with an order by a column of a table.
#[tactic(auto, unfolding(crate::specs::OrderFaults::order_fault))]
fn order_fault(table: Option<&Table>, order: &Order) -> Option<OrderFault>
    ensures { result ≡ order_fault (option_map (λ t. t.now) table.entry) order.now }
{
    let Some(table) = table else {
        return Some(OrderFault::UnknownLink);
    };
    match column_named(table, &order.column) {
        Some(_) => None,
        None => Some(OrderFault::UnknownColumn),
    }
}

/// The first fault of the orders.
pub(crate) fn first_order_fault(
    alloc: Global,
    base: Option<&Table>,
    links: &[PlacedLink<'_>],
    orders: &[Order],
) -> Result<Option<Fault>, AllocError>
    ensures { IfOk result (λ fault. fault ≡ first_order_fault
        (option_map (λ t. t.now) base.entry) (map link_at links.now) orders.now) }
{
    for (i, order) in orders.iter().enumerate() {
        if let Some(fault) = order_fault(table_meant(base, links, &order.link), order) {
            return Ok(Some(fault.told(alloc, i)?));
        }
    }
    Ok(None)
}
