//! Places in a request, as they are written.

ghost use Rattle.std.specs.Prelude.{◌≡◌, chars, IfOk};
ghost use Rattle.dv_query_check.specs.Places.{member, item};

use dv_value::Text;
use std::alloc::{AllocError, Global};
use std::marker::Model;

/// A place in a request: the names of members joined by dots, and the places of items, from 0, in brackets. Contracts
/// see its UTF-8 bytes.
#[derive(Drop)]
pub(crate) struct Path {
    inner: String,
}

impl Model for Path {
    ghost use Rattle.std.specs.Prelude.{ℕ, List, string_bytes};

    ghost Value = { List ℕ };

    ghost view = { λ p. string_bytes p.inner };
}

impl Path {
    /// The place of a member of the query itself.
    pub(crate) fn of(alloc: Global, name: &str) -> Result<Path, AllocError>
        ensures { IfOk result (λ path. path ≡ name.now) }
    {
        Ok(Path {
            inner: String::from_str(alloc, name)?,
        })
    }

    /// The same place.
    pub(crate) fn copy(&self, alloc: Global) -> Result<Path, AllocError>
        ensures { IfOk result (λ path. path ≡ self.now) }
    {
        Path::of(alloc, self.inner.as_str())
    }

    /// The place of a member of the object that is here.
    pub(crate) fn member(&self, alloc: Global, name: &str) -> Result<Path, AllocError>
        ensures { IfOk result (λ path. path ≡ member self.now name.now) }
    {
        let inner = self.inner.as_str();
        Ok(Path {
            inner: format!(in alloc; "{inner}.{name}")?,
        })
    }

    /// The place of an item of the list that is here.
    pub(crate) fn item(&self, alloc: Global, index: usize) -> Result<Path, AllocError>
        ensures { IfOk result (λ path. path ≡ item self.now index) }
    {
        let inner = self.inner.as_str();
        Ok(Path {
            inner: format!(in alloc; "{inner}[{index}]")?,
        })
    }

    /// The path as a text.
    pub(crate) fn into_text(self) -> Text
        ensures { result ≡ chars self }
    {
        let Path { inner } = self;
        Text::from_string(inner)
    }
}
