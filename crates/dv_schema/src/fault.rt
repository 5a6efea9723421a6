//! Why a definition is rejected.

use dv_value::Text;
use std::alloc::AllocError;

/// What is wrong with a definition. The kinds stand in the order in which they are looked for.
#[derive(Clone, Copy, Debug, PartialEq, Eq)]
pub enum DefKind {
    /// The text is no JSON object, or is longer than a definition may be.
    NotJson,
    /// A member that the format doesn't list.
    UnknownField,
    /// A member is missing, of another JSON kind, outside its words or its range, or not allowed there.
    BadForm,
    /// A list is longer than it may be.
    Limit,
    /// Two things that need different names have one.
    NameTaken,
    /// A named table, column or relationship isn't there.
    UnknownName,
    /// A relationship would empty a required column when its parent goes.
    BadCascade,
    /// A relationship hands ownership or shares on, and one of its tables has no owners.
    OwnershipClash,
    /// A table is the child of a second parental relationship.
    SecondParent,
    /// A rollup can't be calculated.
    BadRollup,
    /// A registration names a step that isn't there.
    UnknownStep,
    /// The opening directory is rejected.
    BadDirectory,
}

/// Why a definition isn't accepted.
#[derive(Debug, Drop)]
pub enum DefFault {
    /// The first fault: its kind and its place, a path into the text.
    Bad { kind: DefKind, place: Text },
    OutOfMemory,
}

impl From<AllocError> for DefFault {
    ghost use Rattle.std.specs.Prelude.{◌≡◌};
    ghost use Rattle.dv_schema.specs.declared.fault.DefFault.TheVariants.{OutOfMemory};

    ghost from_gives = { λ _ fault. fault ≡ OutOfMemory };

    fn from(_error: AllocError) -> DefFault {
        DefFault::OutOfMemory
    }
}
