//! What is done to a row and to the rows under it: which rows an assignment, a share, the end of one, a new parent or a
//! removal reaches; what blocks a removal, and which lookups it empties; whether a new parent would put a row above
//! itself.
//!
//! Callers may rely on this: [`closure`] is exactly the set of rows that a chain of links leads to from the target,
//! each link allowed by the cascade of its relationship on the same world, and that is the least such set.
//! [`first_restrict`] names the first relationship by which a row outside a set holds a row of it. [`links_to_clear`]
//! lists exactly the lookups of rows outside a set that name a row of it by a relationship that empties lookups, each
//! once, by table, id and column. [`would_circle`] is true exactly where the row is the parent or above it.
//! specs/Links.antt, specs/Chains.antt, specs/Circles.antt and specs/Removal.antt say what is meant; they speak of no
//! order in which rows are visited.
#![tactic(auto)]

mod allowing;
mod blocking;
mod cascading;
mod circling;
mod clearing;
mod closing;
mod expanding;
mod found;
mod laws;
mod lookup;
mod lookups;

pub use allowing::owner_of;
pub use blocking::first_restrict;
pub use cascading::Cascading;
pub use circling::{is_parental, parent_of, parental_of, would_circle};
pub use clearing::links_to_clear;
pub use closing::closure;
pub use laws::{
    a_closure_is_the_least_closed_set, an_accepted_definition_has_one_parent,
    an_empty_world_has_sound_links, links_are_of_the_rows_alone,
    new_parents_that_are_not_under_a_row_make_no_circle,
    rows_that_a_new_parent_reaches_have_owners,
};
pub use lookup::LookupKey;
