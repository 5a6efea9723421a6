//! The definition line, by which an organisation begins.
ghost use Rattle.std.specs.Prelude.{◌≡◌, ℕ, List, [], Some, Ok, IfOk, IfErr, IsErrOf};
ghost use Rattle.std.specs.Prelude.{chars, codes, option_map, false, true};
ghost use Rattle.dv_meta.specs.Reader.{IsAccepted};
ghost use Rattle.dv_roles.specs.Beginning.{beginning};
ghost use Rattle.dv_schema.specs.Sound.{IsSound};
ghost use Rattle.dv_store.specs.World.{empty};
ghost use Rattle.dv_service.specs.Lines.{within_limit};
ghost use Rattle.dv_service.specs.Opening.{kind_word, is_later, has_later_column, has_later};
ghost use Rattle.dv_service.specs.Opening.{Begins, Declines};

use crate::org::Org;
use dv_meta::read_definition;
use dv_roles::Directory;
use dv_schema::{ColumnRole, DefFault, DefKind, Definition, Table};
use dv_store::Store;
use dv_units::DirFault;
use dv_value::Text;
use std::alloc::{AllocError, Global};

/// Why no organisation begins.
#[derive(Drop)]
pub enum OpenFault {
    /// The definition isn't accepted: what is wrong with it, and where.
    Bad { kind: Text, place: Text },
    OutOfMemory,
}

impl From<AllocError> for OpenFault {
    ghost use Rattle.dv_service.specs.declared.opening.OpenFault.TheVariants.{OutOfMemory};

    ghost from_gives = { λ _ fault. fault ≡ OutOfMemory };

    fn from(_: AllocError) -> OpenFault {
        OpenFault::OutOfMemory
    }
}

/// The word for what is wrong with a definition.
#[tactic(auto, unfolding(crate::specs::Opening::kind_word))]
fn kind_word(kind: DefKind) -> &'static str
    ensures { result.now ≡ kind_word kind }
{
    match kind {
        DefKind::NotJson => "NotJson",
        DefKind::UnknownField => "UnknownField",
        DefKind::BadForm => "BadForm",
        DefKind::Limit => "Limit",
        DefKind::NameTaken => "NameTaken",
        DefKind::UnknownName => "UnknownName",
        DefKind::BadCascade => "BadCascade",
        DefKind::OwnershipClash => "OwnershipClash",
        DefKind::SecondParent => "SecondParent",
        DefKind::BadRollup => "BadRollup",
        DefKind::UnknownStep => "UnknownStep",
        DefKind::BadDirectory => "BadDirectory",
    }
}

// Whether a column is a rollup, which isn't built yet.
#[tactic(auto, unfolding(crate::specs::Opening::is_later))]
fn is_later(role: &ColumnRole) -> bool
    ensures { result ≡ is_later role.now }
{
    match role {
        ColumnRole::Rollup(_) => true,
        ColumnRole::Lookup(_) | ColumnRole::System | ColumnRole::Plain | ColumnRole::Companion =>
            false,
    }
}

fn has_later_column(table: &Table) -> bool
    ensures { result ≡ has_later_column table.now }
{
    let columns = table.columns.as_slice();
    columns.iter().any(|column| is_later(&column.role))
}

// Whether a definition has a rollup.
#[tactic(auto, unfolding(crate::specs::Opening::has_later))]
fn has_later(definition: &Definition) -> bool
    ensures { result ≡ has_later definition.now }
{
    let tables = definition.tables();
    tables.iter().any(|table| has_later_column(table))
}

// A fault of the whole line. The kind is a word of letters without accents.
fn whole_fault(alloc: Global, kind: &str) -> OpenFault
    requires { chars kind.now ≡ kind.now }
    ensures { (named : List ℕ) (place : List ℕ) → result ≡ OpenFault.Bad named place
        → (named ≡ kind.now) × (place ≡ []) }
{
    match Text::from_str(alloc, kind) {
        Ok(kind) => OpenFault::Bad {
            kind,
            place: Text::new(alloc),
        },
        Err(_) => OpenFault::OutOfMemory,
    }
}

// Reads the definition. A line above the limit is given as `None`.
fn read(alloc: Global, line: Option<&[u8]>) -> Result<Definition, OpenFault>
    ensures ok { (whole : List ℕ) → option_map (λ held. held.now) line.entry ≡ within_limit whole
        → IfOk result (λ definition. (bytes : List ℕ) × (within_limit whole ≡ Some bytes)
        × IsAccepted bytes 0 definition) }
    ensures accepted { IfOk result (λ definition. (bytes : List ℕ)
        × IsAccepted bytes 0 definition) }
    ensures sound { IfOk result IsSound }
    ensures bad { (whole : List ℕ) → option_map (λ held. held.now) line.entry ≡ within_limit whole
        → (kind : List ℕ) (place : List ℕ) → IsErrOf result (OpenFault.Bad kind place)
        → Declines whole kind place }
{
    let Some(bytes) = line else {
        return Err(whole_fault(alloc, "NotJson"));
    };
    match read_definition(alloc, bytes, 0) {
        Ok(definition) => Ok(definition),
        Err(DefFault::Bad { kind, place }) => {
            let kind = Text::from_str(alloc, kind_word(kind))?;
            Err(OpenFault::Bad { kind, place })
        }
        Err(DefFault::OutOfMemory) => Err(OpenFault::OutOfMemory),
    }
}

// The organisation of a definition and its directory, in which nothing was done.
fn begun(alloc: Global, definition: Definition, directory: Directory) -> Result<Org, OpenFault>
    requires { IsSound definition }
    ensures begun { IfOk result (λ org. (org.definition ≡ definition)
        × (org.directory ≡ directory) × (org.world ≡ empty definition)) }
    ensures memory { IfErr result (λ fault. fault ≡ OpenFault.OutOfMemory) }
{
    match Store::new(alloc, &definition) {
        Ok(store) => Ok(Org::new(definition, directory, store)),
        Err(_) => Err(OpenFault::OutOfMemory),
    }
}

// Begins the organisation of an accepted definition, whose directory is never refused.
fn begin_with(alloc: Global, definition: Definition) -> Result<Org, OpenFault>
    requires accepted { (bytes : List ℕ) × IsAccepted bytes 0 definition }
    requires sound { IsSound definition }
    ensures ok { IfOk result (λ org. (org.definition ≡ definition)
        × (has_later definition ≡ false) × (beginning definition ≡ Ok org.directory)
        × (org.world ≡ empty definition)) }
    ensures bad { (kind : List ℕ) (place : List ℕ) → IsErrOf result (OpenFault.Bad kind place)
        → (has_later definition ≡ true) × (kind ≡ codes "NotBuilt") × (place ≡ []) }
{
    if has_later(&definition) {
        return Err(whole_fault(alloc, "NotBuilt"));
    }
    match Directory::begin(alloc, &definition) {
        Ok(directory) => begun(alloc, definition, directory),
        Err(DirFault::Refused(_)) => unreachable!(),
        Err(DirFault::OutOfMemory) => Err(OpenFault::OutOfMemory),
    }
}

/// Begins the organisation of a definition line. A line above the limit is given as `None`.
pub fn begin(alloc: Global, line: Option<&[u8]>) -> Result<Org, OpenFault>
    ensures ok { (whole : List ℕ) → option_map (λ held. held.now) line.entry ≡ within_limit whole
        → IfOk result (λ org. Begins whole org) }
    ensures bad { (whole : List ℕ) → option_map (λ held. held.now) line.entry ≡ within_limit whole
        → (kind : List ℕ) (place : List ℕ) → IsErrOf result (OpenFault.Bad kind place)
        → Declines whole kind place }
{
    match read(alloc, line) {
        Ok(definition) => begin_with(alloc, definition),
        Err(fault) => Err(fault),
    }
}
