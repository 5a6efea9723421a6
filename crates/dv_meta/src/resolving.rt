//! From a well-formed text to its definition, or to its first fault.
ghost use Rattle.std.specs.Prelude.{◌≡◌, None, IfOk, IfErr, OnOk};
ghost use Rattle.dv_meta.specs.Accepted.{IsDefinitionOf};
ghost use Rattle.dv_meta.specs.Faults.{first_fault, IsTold};
ghost use Rattle.dv_meta.specs.Resolved.{IsResolved};
ghost use Rattle.dv_meta.specs.Index.{IsIndexOf};
ghost use Rattle.dv_schema.specs.Limits.{IsWithinLimits};
ghost use Rattle.dv_schema.specs.Sound.{IsSound};

use crate::building::{registrations_of, relationships_of, tables_of};
use crate::index::Index;
use crate::passes::first_fault;
use dv_schema::{DefFault, Definition, Draft};
use std::alloc::{AllocError, Global};

// The definition of a draft without a fault.
fn build(alloc: Global, draft: Draft, index: &Index) -> Result<Definition, AllocError>
    requires index { IsIndexOf draft index.now }
    requires limits { IsWithinLimits draft }
    ensures { IfOk result (IsDefinitionOf draft) }
{
    let tables = tables_of(alloc, &draft, index)?;
    let relationships = relationships_of(alloc, &draft, index)?;
    let steps = registrations_of(alloc, &draft, index)?;
    Ok(Definition::new(tables, relationships, steps, draft.opening))
}

/// The accepted definition of a well-formed text, or its first fault by the passes after the walk.
pub(crate) fn resolve(alloc: Global, draft: Draft, steps: usize) -> Result<Definition, DefFault>
    requires { IsWithinLimits draft }
    ensures accepted { IfOk result (IsDefinitionOf draft) }
    ensures faultless { OnOk result (first_fault draft steps ≡ None) }
    ensures sound { IfOk result IsSound }
    ensures resolved { OnOk result (IsResolved draft steps) }
    ensures refused { IfErr result (IsTold (first_fault draft steps)) }
{
    let index = Index::of(alloc, &draft)?;
    match first_fault(alloc, &draft, &index, steps)? {
        Some(fault) => Err(DefFault::Bad {
            kind: fault.kind,
            place: fault.place.path(alloc)?,
        }),
        None => Ok(build(alloc, draft, &index)?),
    }
}
