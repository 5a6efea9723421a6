//! An accepted definition.

ghost use Rattle.std.specs.Prelude.{◌≡◌, ◌≤◌, length};
ghost use Rattle.dv_schema.specs.Limits.{most_tables};

use crate::opening::Opening;
use crate::registration::Registration;
use crate::relationship::Relationship;
use crate::table::Table;
use sqlite_items::Items;

/// An accepted table definition.
#[derive(Debug, Drop)]
pub struct Definition {
    tables: Items<Table>,
    relationships: Items<Relationship>,
    steps: Items<Registration>,
    opening: Opening,
    ghost few: { length tables ≤ most_tables },
}

impl Definition {
    ghost use Rattle.dv_schema.specs.Definitions.{tables_of, relationships_of, steps_of, opening_of, table_of_bytes};

    /// A definition of these parts, at most 100 tables among them. That names and numbers agree is the caller's part.
    pub fn new(
        tables: Items<Table>,
        relationships: Items<Relationship>,
        steps: Items<Registration>,
        opening: Opening,
    ) -> Definition
        requires { length tables ≤ most_tables }
        ensures tables { tables_of result ≡ tables }
        ensures relationships { relationships_of result ≡ relationships }
        ensures steps { steps_of result ≡ steps }
        ensures opening { opening_of result ≡ opening }
    {
        Definition {
            tables,
            relationships,
            steps,
            opening,
        }
    }

    /// The number of the table of a name, if there is one.
    pub fn table(&self, name: &str) -> Option<u16>
        ensures { result ≡ table_of_bytes self.now name.now }
    {
        match self.place_of(name) {
            Some(place) => Some(place as u16),
            None => None,
        }
    }

    /// The tables, in the order of their numbers.
    pub fn tables(&self) -> &[Table]
        ensures { result.now ≡ tables_of self.now }
    {
        self.tables.as_slice()
    }

    /// The relationships, in the order of their numbers.
    pub fn relationships(&self) -> &[Relationship]
        ensures { result.now ≡ relationships_of self.now }
    {
        self.relationships.as_slice()
    }

    /// The registrations of steps, in the order of the definition.
    pub fn steps(&self) -> &[Registration]
        ensures { result.now ≡ steps_of self.now }
    {
        self.steps.as_slice()
    }

    /// The directory that a new organisation begins with.
    pub fn opening(&self) -> &Opening
        ensures { result.now ≡ opening_of self.now }
    {
        &self.opening
    }

    fn place_of(&self, name: &str) -> Option<usize>
        ensures { result ≡ table_of_bytes self.now name.now }
    {
        let tables = self.tables.as_slice();
        tables.iter().position(|table| table.name.as_str() == name)
    }
}
