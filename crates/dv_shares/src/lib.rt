//! Shares: what a grant, a revocation and a modification make of the grants on a target row and on
//! the rows that go with it, and what rows inherit once a row has another parent.
//!
//! Callers may rely on this: specs/Grants.antt and specs/Inheriting.antt say, for every row and
//! every user or team, which rights there are then. All else in the store stays. The rows that go
//! with a target are handed in. [`grant`], [`revoke`] and [`modify`] take them in any order and
//! with or without the target, and one that is named twice counts once; [`reparent`] takes the
//! closure of the moved row. A call that succeeds leaves every earlier mark good; a refused call
//! leaves the store as it was, with its earlier states.
//!
//! ```
//! let start = store.mark();
//! grant(&mut store, &share_closure, account, user, READ | WRITE)?;
//! modify(&mut store, &unshare_closure, &share_closure, account, user, READ)?;
//! store.undo_to(start);    // neither of the two was made
//!
//! store.put_row(contact.table, contact.id, under_another_account)?;
//! let set = closure(alloc, &store, &definition, Cascading::Reparent, contact)?;
//! reparent(alloc, &mut store, &definition, set.as_slice(), contact)?;
//! ```
#![tactic(auto)]

mod change;
mod changing;
mod handing;
mod heirs;
mod inheriting;
mod reparenting;
mod sharing;

pub use reparenting::reparent;
pub use sharing::{grant, modify, revoke};
