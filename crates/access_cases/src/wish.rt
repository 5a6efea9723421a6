//! What a user wants to do.
use dv_schema::Action;
use dv_value::Id;

/// What is asked: may this user do this action in this table?
#[derive(Clone, Copy)]
pub struct Wish {
    pub user: Id,
    pub action: Action,
    pub table: u16,
}
