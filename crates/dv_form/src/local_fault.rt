//! A fault while its place is still being written: the path from the part that is being looked at.

ghost use Rattle.std.specs.Prelude.{◌≡◌, [], false, chars, IfOk, codes, ◌++◌, if◌then◌else◌};
ghost use Rattle.dv_form.specs.LocalFaults.{local_of, within_member, within_item};
ghost use Rattle.dv_form.specs.Walk as walk;
ghost use Rattle.std.specs.Fmt.{decimal};

use crate::fault::{Fault, FaultKind};
use dv_value::Text;
use std::alloc::{AllocError, Global};
use std::marker::Model;

/// A path as it is written, which contracts see as its UTF-8 bytes.
#[derive(Drop)]
pub(crate) struct Path {
    inner: String,
}

impl Model for Path {
    ghost use Rattle.std.specs.Prelude.{ℕ, List, string_bytes};

    ghost Value = { List ℕ };

    ghost view = { λ p. string_bytes p.inner };
}

/// A fault on its way out of the value that it was found in.
#[derive(Drop)]
pub(crate) struct LocalFault {
    kind: FaultKind,
    /// Whether the path begins with a member's name.
    is_named: bool,
    text: Path,
}

impl LocalFault {
    /// A fault of the value itself.
    #[tactic(auto, unfolding(crate::specs::Places::path_text, crate::specs::Places::is_named))]
    pub(crate) fn here(alloc: Global, kind: FaultKind) -> LocalFault
        ensures { result ≡ local_of (walk.here kind) }
    {
        let text = Path::empty(alloc);
        LocalFault {
            kind,
            is_named: false,
            text,
        }
    }

    /// The fault of a member's value, seen from the object.
    pub(crate) fn inside_member(self, alloc: Global, name: &str) -> Result<LocalFault, AllocError>
        ensures { IfOk result (λ out. out ≡ within_member name.now self) }
    {
        let LocalFault {
            kind,
            is_named,
            text,
        } = self;
        let text = text.after_name(alloc, name, is_named)?;
        Ok(LocalFault {
            kind,
            is_named: true,
            text,
        })
    }

    /// The fault of an item, seen from the list.
    pub(crate) fn inside_item(self, alloc: Global, at: usize) -> Result<LocalFault, AllocError>
        ensures { IfOk result (λ out. out ≡ within_item at self) }
    {
        let LocalFault {
            kind,
            is_named,
            text,
        } = self;
        let text = text.after_item(alloc, at, is_named)?;
        Ok(LocalFault {
            kind,
            is_named: false,
            text,
        })
    }

    /// The fault as it is told.
    pub(crate) fn into_fault(self) -> Fault
        ensures kind { result.kind ≡ self.kind }
        ensures place { result.place ≡ chars self.text }
    {
        let LocalFault { kind, text, .. } = self;
        let Path { inner } = text;
        Fault {
            kind,
            place: Text::from_string(inner),
        }
    }
}

impl Path {
    // The empty path.
    fn empty(alloc: Global) -> Path
        ensures { result ≡ [] }
    {
        Path {
            inner: String::new(alloc),
        }
    }

    // The path with a member's name in front.
    fn after_name(self, alloc: Global, name: &str, is_named: bool) -> Result<Path, AllocError>
        ensures { IfOk result (λ path. path
            ≡ name.now ++ (if is_named then codes "." else []) ++ self) }
    {
        let Path { inner } = self;
        let dot = if is_named { "." } else { "" };
        let inner = format!(in alloc; "{name}{dot}{inner}")?;
        Ok(Path { inner })
    }

    // The path with an item's number in front.
    fn after_item(self, alloc: Global, at: usize, is_named: bool) -> Result<Path, AllocError>
        ensures { IfOk result (λ path. path ≡ (codes "[" ++ decimal at ++ codes "]")
            ++ (if is_named then codes "." else []) ++ self) }
    {
        let Path { inner } = self;
        let dot = if is_named { "." } else { "" };
        let inner = format!(in alloc; "[{at}]{dot}{inner}")?;
        Ok(Path { inner })
    }
}
