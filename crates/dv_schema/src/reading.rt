//! Reading JSON of the right form: each object as what it says.

ghost use Rattle.std.specs.Prelude.{◌≡◌, [], unwrap_or, IfOk};
ghost use Rattle.std.specs.Str.{bytes_eq};
ghost use Rattle.serde_json.specs.Data.{object};
ghost use Rattle.serde_json.specs.Find.{as_str};
ghost use Rattle.serde_json.specs.View.{view, members_view};
ghost use Rattle.dv_form.specs.Members.{at, natural_below};
ghost use Rattle.dv_schema.specs.Reading as say;

use crate::column_type::ColumnType;
use crate::draft::{
    Draft, DraftColumn, DraftForm, DraftRegistration, DraftRelationship, DraftRollup, DraftTable,
};
use crate::opening::{Action, Entry, Opening, OpeningTeam, OpeningUnit, OpeningUser, Role};
use crate::registration::Message;
use crate::relationship::Cascade;
use crate::table::RollupKind;
use dv_form::{FromJson, byte_of, members_of, says_at, take_at, take_given, text_at};
use dv_value::{Kind, Text};
use serde_json::{Map, Value as Json};
use std::alloc::{AllocError, Global};

/// What a text of a definition's form says.
#[tactic(auto, unfolding(crate::specs::Reading::draft_of, crate::specs::Reading::opening_of))]
pub fn read_draft(alloc: Global, json: Json) -> Result<Draft, AllocError>
    ensures { IfOk result (λ draft. draft ≡ say.draft_of (view json)) }
{
    let mut members = members_of(alloc, json);
    Ok(Draft {
        tables: take_at(alloc, &mut members, "tables")?,
        relationships: take_at(alloc, &mut members, "relationships")?,
        steps: take_at(alloc, &mut members, "steps")?,
        opening: read_opening(alloc, &mut members)?,
    })
}

// The opening directory of a definition.
#[tactic(auto, unfolding(crate::specs::Reading::opening_of))]
fn read_opening(alloc: Global, members: &mut Map<String, Json>) -> Result<Opening, AllocError>
    ensures { IfOk result (λ opening. opening
        ≡ say.opening_of (object (members_view members.old.entries))) }
{
    Ok(Opening {
        root: take_at(alloc, members, "root")?,
        admin: take_at(alloc, members, "admin")?,
        units: take_at(alloc, members, "units")?,
        roles: take_at(alloc, members, "roles")?,
        users: take_at(alloc, members, "users")?,
        teams: take_at(alloc, members, "teams")?,
    })
}

impl FromJson for DraftTable {
    ghost use Rattle.dv_schema.specs.Reading.{table_of};

    ghost of_json = { table_of };

    #[tactic(auto, unfolding(crate::specs::Reading::table_of))]
    fn from_json(alloc: Global, json: Json) -> Result<DraftTable, AllocError> {
        let mut members = members_of(alloc, json);
        Ok(DraftTable {
            name: take_at(alloc, &mut members, "name")?,
            user_owned: says_at(&members, "owned", "user"),
            tracking: take_at(alloc, &mut members, "tracking")?,
            columns: take_at(alloc, &mut members, "columns")?,
        })
    }
}

impl FromJson for DraftColumn {
    ghost use Rattle.dv_schema.specs.Reading.{column_of};

    ghost of_json = { column_of };

    #[tactic(auto, unfolding(crate::specs::Reading::column_of, crate::specs::Reading::form_for, crate::specs::Reading::whole_of, crate::specs::Reading::rollup_of))]
    fn from_json(alloc: Global, json: Json) -> Result<DraftColumn, AllocError> {
        let mut members = members_of(alloc, json);
        Ok(DraftColumn {
            name: take_at(alloc, &mut members, "name")?,
            required: take_at(alloc, &mut members, "required")?,
            form: read_form(alloc, &mut members)?,
        })
    }
}

impl FromJson for DraftRelationship {
    ghost use Rattle.dv_schema.specs.Reading.{relationship_of};

    ghost of_json = { relationship_of };

    #[tactic(auto, unfolding(crate::specs::Reading::relationship_of))]
    fn from_json(alloc: Global, json: Json) -> Result<DraftRelationship, AllocError> {
        let mut members = members_of(alloc, json);
        let delete: Option<Cascade> = take_given(alloc, &mut members, "delete")?;
        Ok(DraftRelationship {
            name: take_at(alloc, &mut members, "name")?,
            parent: take_at(alloc, &mut members, "parent")?,
            child: take_at(alloc, &mut members, "child")?,
            column: take_at(alloc, &mut members, "column")?,
            assign: take_at(alloc, &mut members, "assign")?,
            share: take_at(alloc, &mut members, "share")?,
            unshare: take_at(alloc, &mut members, "unshare")?,
            reparent: take_at(alloc, &mut members, "reparent")?,
            delete: delete.unwrap_or(Cascade::RemoveLink),
        })
    }
}

impl FromJson for DraftRegistration {
    ghost use Rattle.dv_schema.specs.Reading.{registration_of};

    ghost of_json = { registration_of };

    #[tactic(auto, unfolding(crate::specs::Reading::registration_of))]
    fn from_json(alloc: Global, json: Json) -> Result<DraftRegistration, AllocError> {
        let mut members = members_of(alloc, json);
        Ok(DraftRegistration {
            step: take_at(alloc, &mut members, "step")?,
            message: take_at(alloc, &mut members, "message")?,
            table: take_at(alloc, &mut members, "table")?,
            stage: take_at(alloc, &mut members, "stage")?,
            rank: take_at(alloc, &mut members, "rank")?,
            columns: take_given(alloc, &mut members, "columns")?,
            user: take_given(alloc, &mut members, "as")?,
            pre: take_at(alloc, &mut members, "pre")?,
            post: take_at(alloc, &mut members, "post")?,
            config: take_at(alloc, &mut members, "config")?,
        })
    }
}

impl FromJson for Role {
    ghost use Rattle.dv_schema.specs.Reading.{role_of};

    ghost of_json = { role_of };

    #[tactic(auto, unfolding(crate::specs::Reading::role_of))]
    fn from_json(alloc: Global, json: Json) -> Result<Role, AllocError> {
        let mut members = members_of(alloc, json);
        Ok(Role {
            id: take_at(alloc, &mut members, "id")?,
            direct: says_at(&members, "inheritance", "direct"),
            manage: take_at(alloc, &mut members, "manage")?,
            entries: take_at(alloc, &mut members, "privileges")?,
        })
    }
}

impl FromJson for OpeningUnit {
    ghost use Rattle.dv_schema.specs.Reading.{unit_of};

    ghost of_json = { unit_of };

    #[tactic(auto, unfolding(crate::specs::Reading::unit_of))]
    fn from_json(alloc: Global, json: Json) -> Result<OpeningUnit, AllocError> {
        let mut members = members_of(alloc, json);
        Ok(OpeningUnit {
            id: take_at(alloc, &mut members, "id")?,
            parent: take_at(alloc, &mut members, "parent")?,
        })
    }
}

impl FromJson for OpeningUser {
    ghost use Rattle.dv_schema.specs.Reading.{user_of};

    ghost of_json = { user_of };

    #[tactic(auto, unfolding(crate::specs::Reading::user_of))]
    fn from_json(alloc: Global, json: Json) -> Result<OpeningUser, AllocError> {
        let mut members = members_of(alloc, json);
        Ok(OpeningUser {
            id: take_at(alloc, &mut members, "id")?,
            unit: take_at(alloc, &mut members, "unit")?,
            roles: take_at(alloc, &mut members, "roles")?,
        })
    }
}

impl FromJson for OpeningTeam {
    ghost use Rattle.dv_schema.specs.Reading.{team_of};

    ghost of_json = { team_of };

    #[tactic(auto, unfolding(crate::specs::Reading::team_of))]
    fn from_json(alloc: Global, json: Json) -> Result<OpeningTeam, AllocError> {
        let mut members = members_of(alloc, json);
        Ok(OpeningTeam {
            id: take_at(alloc, &mut members, "id")?,
            unit: take_at(alloc, &mut members, "unit")?,
            access: says_at(&members, "kind", "access"),
            members: take_at(alloc, &mut members, "members")?,
            roles: take_at(alloc, &mut members, "roles")?,
        })
    }
}

impl FromJson for Message {
    ghost use Rattle.dv_schema.specs.Reading.{message_in};

    ghost of_json = { message_in };

    #[tactic(auto, unfolding(crate::specs::Reading::message_in))]
    fn from_json(_alloc: Global, json: Json) -> Result<Message, AllocError> {
        Ok(
            json.as_str()
                .and_then(Message::parse)
                .unwrap_or(Message::Revoke),
        )
    }
}

impl FromJson for Cascade {
    ghost use Rattle.dv_schema.specs.Reading.{cascade_in};

    ghost of_json = { cascade_in };

    #[tactic(auto, unfolding(crate::specs::Reading::cascade_in))]
    fn from_json(_alloc: Global, json: Json) -> Result<Cascade, AllocError> {
        Ok(
            json.as_str()
                .and_then(Cascade::parse)
                .unwrap_or(Cascade::NoCascade),
        )
    }
}

impl FromJson for RollupKind {
    ghost use Rattle.dv_schema.specs.Reading.{rollup_kind_in};

    ghost of_json = { rollup_kind_in };

    #[tactic(auto, unfolding(crate::specs::Reading::rollup_kind_in))]
    fn from_json(_alloc: Global, json: Json) -> Result<RollupKind, AllocError> {
        Ok(
            json.as_str()
                .and_then(RollupKind::parse)
                .unwrap_or(RollupKind::Max),
        )
    }
}

// The action that a value says. None for every action.
#[tactic(auto, unfolding(crate::specs::Reading::action_in))]
fn action_in(json: &Json) -> Option<Action>
    ensures { result ≡ say.action_in (view json.now) }
{
    json.as_str().and_then(Action::parse)
}

// The table of a privilege. None for every table.
#[tactic(auto, unfolding(crate::specs::Reading::entry_table_of, dv_form::specs::Members::text_of, dv_form::specs::Members::text_in))]
fn read_entry_table(alloc: Global, json: &Json) -> Result<Option<Text>, AllocError>
    ensures { IfOk result (λ table. table ≡ say.entry_table_of (view json.now)) }
{
    if says(json, "*") {
        return Ok(None);
    }
    match json.as_str() {
        Some(text) => Ok(Some(Text::from_str(alloc, text)?)),
        None => Ok(Some(Text::new(alloc))),
    }
}

// Whether a value is a word.
fn says(json: &Json, word: &str) -> bool
    ensures { result ≡ bytes_eq (unwrap_or (as_str (view json.now)) []) word.now }
{
    json.as_str().unwrap_or("") == word
}

impl FromJson for Entry {
    ghost use Rattle.dv_schema.specs.Reading.{entry_of};

    ghost of_json = { entry_of };

    #[tactic(auto, unfolding(crate::specs::Reading::entry_of))]
    fn from_json(alloc: Global, json: Json) -> Result<Entry, AllocError> {
        Ok(Entry {
            action: entry_action(&json),
            table: entry_table(alloc, &json)?,
            depth: entry_depth(&json),
        })
    }
}

// The action of a privilege.
fn entry_action(json: &Json) -> Option<Action>
    ensures { result ≡ say.action_in (say.item_at 0 (view json.now)) }
{
    match json.get(0) {
        Some(item) => action_in(item),
        None => action_in(&Json::Null),
    }
}

// The table of a privilege.
fn entry_table(alloc: Global, json: &Json) -> Result<Option<Text>, AllocError>
    ensures { IfOk result (λ table. table ≡ say.entry_table_of (say.item_at 1 (view json.now))) }
{
    match json.get(1) {
        Some(item) => Ok(read_entry_table(alloc, item)?),
        None => Ok(read_entry_table(alloc, &Json::Null)?),
    }
}

// The depth of a privilege.
fn entry_depth(json: &Json) -> u8
    ensures { result ≡ natural_below 256 (say.item_at 2 (view json.now)) }
{
    match json.get(2) {
        Some(item) => byte_of(item),
        None => byte_of(&Json::Null),
    }
}

// What a column's type says.
fn read_form(alloc: Global, members: &mut Map<String, Json>) -> Result<DraftForm, AllocError>
    ensures { IfOk result (λ form. form ≡ say.form_of (object (members_view members.old.entries))) }
{
    let column_type = type_at(members);
    form_for(alloc, column_type, members)
}

// The type of a column.
#[tactic(auto, unfolding(crate::specs::Reading::type_in))]
fn type_at(members: &Map<String, Json>) -> ColumnType
    ensures { result ≡ say.type_in (at "type" (object (members_view members.now.entries))) }
{
    text_at(members, "type")
        .and_then(ColumnType::parse)
        .unwrap_or(ColumnType::Rollup)
}

// What a column of a type says.
#[tactic(auto, unfolding(crate::specs::Reading::form_for))]
fn form_for(
    alloc: Global,
    column_type: ColumnType,
    members: &mut Map<String, Json>,
) -> Result<DraftForm, AllocError>
    ensures { IfOk result (λ form. form
        ≡ say.form_for column_type (object (members_view members.old.entries))) }
{
    match column_type {
        ColumnType::Flag => Ok(DraftForm::Plain(Kind::Flag)),
        ColumnType::Moment => Ok(DraftForm::Plain(Kind::Moment)),
        ColumnType::Lookup => Ok(DraftForm::Lookup),
        ColumnType::Whole => Ok(DraftForm::Plain(read_whole(alloc, members)?)),
        ColumnType::Choice => {
            let options = take_at(alloc, members, "options")?;
            Ok(DraftForm::Plain(Kind::Choice { options }))
        }
        ColumnType::Amount => {
            let scale = take_at(alloc, members, "scale")?;
            Ok(DraftForm::Plain(Kind::Amount { scale }))
        }
        ColumnType::Text => {
            let max = take_at(alloc, members, "max")?;
            Ok(DraftForm::Plain(Kind::Text { max }))
        }
        ColumnType::Rollup => Ok(DraftForm::Rollup(read_rollup(alloc, members)?)),
    }
}

// A whole with its ends.
#[tactic(auto, unfolding(crate::specs::Reading::whole_of))]
fn read_whole(alloc: Global, members: &mut Map<String, Json>) -> Result<Kind, AllocError>
    ensures { IfOk result (λ kind. kind
        ≡ say.whole_of (object (members_view members.old.entries))) }
{
    let min: Option<i32> = take_given(alloc, members, "min")?;
    let max: Option<i32> = take_given(alloc, members, "max")?;
    Ok(Kind::Whole {
        min: min.unwrap_or(i32::MIN),
        max: max.unwrap_or(i32::MAX),
    })
}

// A rollup: what it takes of the rows under its own.
#[tactic(auto, unfolding(crate::specs::Reading::rollup_of))]
fn read_rollup(alloc: Global, members: &mut Map<String, Json>) -> Result<DraftRollup, AllocError>
    ensures { IfOk result (λ rollup. rollup
        ≡ say.rollup_of (object (members_view members.old.entries))) }
{
    Ok(DraftRollup {
        kind: take_at(alloc, members, "kind")?,
        over: take_at(alloc, members, "over")?,
        of: take_given(alloc, members, "of")?,
        active: take_at(alloc, members, "active")?,
    })
}
