//! What the text of a definition says, with names where the definition has numbers.

use crate::opening::Opening;
use crate::registration::Message;
use crate::relationship::Cascade;
use crate::table::RollupKind;
use dv_value::{Id, Kind, Names, Text, Values};
use sqlite_items::Items;

/// What a well-formed text says, before its names are resolved.
#[derive(Debug, Drop)]
pub struct Draft {
    pub tables: Items<DraftTable>,
    pub relationships: Items<DraftRelationship>,
    pub steps: Items<DraftRegistration>,
    pub opening: Opening,
}

/// A table with the columns that the text gives it; system columns and companions aren't among them.
#[derive(Debug, Drop)]
pub struct DraftTable {
    pub name: Text,
    pub user_owned: bool,
    pub tracking: bool,
    pub columns: Items<DraftColumn>,
}

/// A column of the text.
#[derive(Debug, Drop)]
pub struct DraftColumn {
    pub name: Text,
    pub required: bool,
    pub form: DraftForm,
}

/// What a column's type says.
#[derive(Debug, Drop)]
pub enum DraftForm {
    /// A flag, a whole, a choice, an amount, a moment or a text; never a reference.
    Plain(Kind),
    /// A lookup.
    Lookup,
    /// A rollup.
    Rollup(DraftRollup),
}

/// How a rollup is calculated, by names.
#[derive(Debug, Drop)]
pub struct DraftRollup {
    pub kind: RollupKind,
    pub over: Text,
    pub of: Option<Text>,
    pub active: bool,
}

/// A relationship, by names.
#[derive(Debug, Drop)]
pub struct DraftRelationship {
    pub name: Text,
    pub parent: Text,
    pub child: Text,
    pub column: Text,
    pub assign: Cascade,
    pub share: Cascade,
    pub unshare: Cascade,
    pub reparent: Cascade,
    pub delete: Cascade,
}

/// A registration, by names.
#[derive(Debug, Drop)]
pub struct DraftRegistration {
    pub step: usize,
    pub message: Message,
    pub table: Text,
    pub stage: u8,
    pub rank: u32,
    pub columns: Option<Names>,
    pub user: Option<Id>,
    pub pre: Names,
    pub post: Names,
    pub config: Values,
}
