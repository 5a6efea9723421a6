//! The columns that every table has.
ghost use Rattle.std.specs.Prelude.{◌≡◌, ◌++◌, ◌∷◌, [], IfOk, OnOk, chars};
ghost use Rattle.dv_meta.specs.Columns.{system_column, system_columns, owner_columns};

use dv_schema::{Column, ColumnRole};
use dv_value::{Kind, Text};
use sqlite_items::Items;
use std::alloc::{AllocError, Global};

/// The columns that every table has, in byte order.
#[tactic(auto, unfolding(crate::specs::Columns::system_columns))]
pub(crate) fn system_columns(alloc: Global, user_owned: bool) -> Result<Items<Column>, AllocError>
    ensures { IfOk result (λ columns. columns ≡ system_columns user_owned) }
{
    let mut columns = Items::new(alloc);
    add(alloc, &mut columns, "createdby", Kind::Ref)?;
    add(alloc, &mut columns, "createdon", Kind::Moment)?;
    add(alloc, &mut columns, "id", Kind::Ref)?;
    add(alloc, &mut columns, "modifiedby", Kind::Ref)?;
    add(alloc, &mut columns, "modifiedon", Kind::Moment)?;
    add_owner(alloc, &mut columns, user_owned)?;
    let options = Items::from_slice(alloc, &[0, 1])?;
    add(alloc, &mut columns, "statecode", Kind::Choice { options })?;
    add(
        alloc,
        &mut columns,
        "versionnumber",
        Kind::Amount { scale: 0 },
    )?;
    Ok(columns)
}

// Adds the column that names a row's owner, where rows have one.
fn add_owner(alloc: Global, columns: &mut Items<Column>, user_owned: bool) -> Result<(), AllocError>
    ensures { OnOk result (columns.new ≡ columns.old ++ owner_columns user_owned) }
{
    if user_owned {
        add(alloc, columns, "ownerid", Kind::Ref)?;
    }
    Ok(())
}

// Adds a column at the end that the service keeps itself.
fn add(alloc: Global, columns: &mut Items<Column>, name: &str, kind: Kind) -> Result<(), AllocError>
    ensures { OnOk result (columns.new ≡ columns.old ++ system_column (chars name.now) kind ∷ []) }
{
    columns.push(Column {
        name: Text::from_str(alloc, name)?,
        kind,
        required: false,
        role: ColumnRole::System,
    })
}
