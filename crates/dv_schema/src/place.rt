//! The place of a fault: an item of a list of the definition.

ghost use Rattle.std.specs.Prelude.{◌≡◌, ◌++◌, chars, codes, string_bytes, IfOk};
ghost use Rattle.dv_schema.specs.Places.{item_path, path_of};

use dv_value::Text;
use std::alloc::{AllocError, Global};

/// The whole item of a definition that is at fault, by its place in its list.
#[derive(Clone, Copy, Debug, PartialEq, Eq)]
pub enum Place {
    Table(usize),
    Column(usize, usize),
    Relationship(usize),
    Registration(usize),
    BusinessUnit(usize),
    Role(usize),
    User(usize),
    Team(usize),
}

impl Place {
    /// The place as a path.
    pub fn path(self, alloc: Global) -> Result<Text, AllocError>
        ensures { IfOk result (λ text. text ≡ chars (path_of self)) }
    {
        Ok(Text::from_string(self.path_string(alloc)?))
    }

    #[tactic(auto, unfolding(crate::specs::Places::path_of))]
    fn path_string(self, alloc: Global) -> Result<String, AllocError>
        ensures { IfOk result (λ text. string_bytes text ≡ path_of self) }
    {
        match self {
            Place::Table(i) => item_path(alloc, "tables", i),
            Place::Column(i, j) => column_path(alloc, i, j),
            Place::Relationship(k) => item_path(alloc, "relationships", k),
            Place::Registration(k) => item_path(alloc, "steps", k),
            Place::BusinessUnit(k) => item_path(alloc, "units", k),
            Place::Role(k) => item_path(alloc, "roles", k),
            Place::User(k) => item_path(alloc, "users", k),
            Place::Team(k) => item_path(alloc, "teams", k),
        }
    }
}

fn item_path(alloc: Global, list: &str, i: usize) -> Result<String, AllocError>
    ensures { IfOk result (λ text. string_bytes text ≡ item_path list.now i) }
{
    format!(in alloc; "{list}[{i}]")
}

fn column_path(alloc: Global, i: usize, j: usize) -> Result<String, AllocError>
    ensures { IfOk result (λ text. string_bytes text
        ≡ item_path (codes "tables") i ++ item_path (codes ".columns") j) }
{
    let mut path = item_path(alloc, "tables", i)?;
    let column = item_path(alloc, ".columns", j)?;
    path.push_str(column.as_str())?;
    Ok(path)
}
