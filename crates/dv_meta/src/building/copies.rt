//! Copies of a text's kinds and names.
ghost use Rattle.std.specs.Prelude.{◌≡◌, IfOk};

use dv_value::{Kind, Names, Text};
use sqlite_items::Items;
use std::alloc::{AllocError, Global};

pub(crate) fn copy_kind(alloc: Global, kind: &Kind) -> Result<Kind, AllocError>
    ensures { IfOk result (λ copied. copied ≡ kind.now) }
{
    match kind {
        Kind::Flag => Ok(Kind::Flag),
        Kind::Whole { min, max } => Ok(Kind::Whole {
            min: *min,
            max: *max,
        }),
        Kind::Choice { options } => Ok(Kind::Choice {
            options: Items::from_slice(alloc, options.as_slice())?,
        }),
        Kind::Amount { scale } => Ok(Kind::Amount { scale: *scale }),
        Kind::Moment => Ok(Kind::Moment),
        Kind::Text { max } => Ok(Kind::Text { max: *max }),
        Kind::Ref => Ok(Kind::Ref),
    }
}

pub(crate) fn copy_names(alloc: Global, names: &Names) -> Result<Names, AllocError>
    ensures { IfOk result (λ copied. copied ≡ names.now) }
{
    let mut copied = Items::new(alloc);
    for name in names.as_slice() {
        copied.push(name.copy(alloc)?)?;
    }
    Ok(copied)
}

pub(crate) fn copy_given(alloc: Global, names: &Option<Names>) -> Result<Option<Names>, AllocError>
    ensures { IfOk result (λ copied. copied ≡ names.now) }
{
    match names {
        Some(names) => Ok(Some(copy_names(alloc, names)?)),
        None => Ok(None),
    }
}
