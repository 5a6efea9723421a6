//! The form of a definition: the schema of each of its objects.

ghost use Rattle.std.specs.Prelude.{◌≡◌, [], None, map};
ghost use Rattle.dv_form.specs.Schemas.{member_of, schema_of};
ghost use Rattle.dv_schema.specs.Grammar.{schemas};

use crate::limits::{
    DEEPEST, GREATEST_SHORT, LARGEST_SCALE, LAST_RANK, LAST_STEP, LEAST_SHORT, LONGEST_TEXT,
    MAX_COLUMNS, MAX_MEMBERS, MAX_RELATIONSHIPS, MAX_ROLES, MAX_STEPS, MAX_TABLES, MAX_TEAMS,
    MAX_UNITS, MAX_USERS,
};
use dv_form::{Case, Exclusion, Form, Grammar, Member, Schema, Spelling};

/// The objects of a definition.
#[derive(Clone, Copy)]
pub enum Rule {
    Definition,
    Table,
    Column,
    Relationship,
    Registration,
    Unit,
    Role,
    User,
    Team,
}

impl Grammar for Rule {
    ghost use Rattle.dv_schema.specs.Grammar.{schemas};

    ghost schemas = { schemas };

    fn schema(self) -> Schema<Rule> {
        schema_for(self)
    }
}

// The schema of an object.
#[tactic(auto, unfolding(crate::specs::Grammar::schemas, crate::specs::Words::message_word, crate::specs::Words::cascade_word, crate::specs::Words::rollup_word, crate::specs::Words::action_word, crate::specs::Words::type_word))]
fn schema_for(rule: Rule) -> Schema<Rule>
    ensures { schema_of result ≡ schemas rule }
{
    match rule {
        Rule::Definition => plain(DEFINITION),
        Rule::Table => plain(TABLE),
        Rule::Column => Schema {
            members: COLUMN,
            decided_by: Some("type"),
            cases: BY_TYPE,
        },
        Rule::Relationship => plain(RELATIONSHIP),
        Rule::Registration => plain(REGISTRATION),
        Rule::Unit => plain(UNIT),
        Rule::Role => plain(ROLE),
        Rule::User => plain(USER),
        Rule::Team => plain(TEAM),
    }
}

// An object that always has the same members.
const fn plain(members: &'static [Member<Rule>]) -> Schema<Rule>
    ensures { schema_of result ≡ record {
      members = map member_of members.now;
      decided_by = None;
      cases = [];
    } }
{
    Schema {
        members,
        decided_by: None,
        cases: &[],
    }
}

// A member that must be there, unless something excludes it.
macro_rules! needs {
    ($name:literal, $form:expr $(, unless $($exclusion:expr),+)?) => {
        Member {
            name: $name,
            needed: true,
            form: $form,
            excluded_by: &[$($($exclusion),+)?],
        }
    };
}

// A member that may be missing, and that must not be there where something excludes it.
macro_rules! may {
    ($name:literal, $form:expr $(, unless $($exclusion:expr),+)?) => {
        Member {
            name: $name,
            needed: false,
            form: $form,
            excluded_by: &[$($($exclusion),+)?],
        }
    };
}

// The whole definition.
const DEFINITION: &[Member<Rule>] = &[
    needs!("root", Form::Value(Spelling::RealId)),
    needs!("admin", Form::Value(Spelling::RealId), unless Exclusion::IsSameId("root")),
    needs!("tables", Form::Objects(Rule::Table, Some(MAX_TABLES))),
    may!(
        "relationships",
        Form::Objects(Rule::Relationship, Some(MAX_RELATIONSHIPS))
    ),
    may!("steps", Form::Objects(Rule::Registration, Some(MAX_STEPS))),
    may!("units", Form::Objects(Rule::Unit, Some(MAX_UNITS))),
    may!("roles", Form::Objects(Rule::Role, Some(MAX_ROLES))),
    may!("users", Form::Objects(Rule::User, Some(MAX_USERS))),
    may!("teams", Form::Objects(Rule::Team, Some(MAX_TEAMS))),
];

// A table.
const TABLE: &[Member<Rule>] = &[
    needs!("name", Form::Value(Spelling::Name)),
    needs!(
        "owned",
        Form::Value(Spelling::WordAmong(&["user", "organization"]))
    ),
    may!("tracking", Form::Value(Spelling::Flag)),
    needs!("columns", Form::Objects(Rule::Column, Some(MAX_COLUMNS))),
];

// A column, whatever its type.
const COLUMN: &[Member<Rule>] = &[
    needs!("name", Form::Value(Spelling::Name)),
    needs!(
        "type",
        Form::Value(Spelling::WordAmong(&[
            "flag", "moment", "lookup", "whole", "choice", "amount", "text", "rollup",
        ]))
    ),
    may!("required", Form::Value(Spelling::Flag)),
];

// A relationship.
const RELATIONSHIP: &[Member<Rule>] = &[
    needs!("name", Form::Value(Spelling::Name)),
    needs!("parent", Form::Value(Spelling::Name)),
    needs!("child", Form::Value(Spelling::Name)),
    needs!("column", Form::Value(Spelling::Name)),
    may!("assign", Form::Value(CASCADE)),
    may!("share", Form::Value(CASCADE)),
    may!("unshare", Form::Value(CASCADE)),
    may!("reparent", Form::Value(CASCADE)),
    may!(
        "delete",
        Form::Value(Spelling::WordAmong(&["cascade", "removelink", "restrict"]))
    ),
];

// A registration of a step.
const REGISTRATION: &[Member<Rule>] = &[
    needs!("step", Form::Value(Spelling::IntegerFrom(0, LAST_STEP))),
    needs!(
        "message",
        Form::Value(Spelling::WordAmong(&[
            "create", "update", "delete", "assign", "grant", "modify", "revoke",
        ]))
    ),
    needs!("table", Form::Value(Spelling::Name)),
    needs!("stage", Form::Value(Spelling::IntegerAmong(&[10, 20, 40]))),
    needs!("rank", Form::Value(Spelling::IntegerFrom(0, LAST_RANK))),
    may!("columns", Form::Values(Spelling::Name, None)),
    may!("as", Form::Value(Spelling::Id)),
    may!("pre", Form::Values(Spelling::Name, None), unless Exclusion::IsWord("message", "create")),
    may!(
        "post",
        Form::Values(Spelling::Name, None),
        unless Exclusion::IsNotInteger("stage", 40), Exclusion::IsWord("message", "delete")
    ),
    may!("config", Form::RawValues),
];

// A business unit.
const UNIT: &[Member<Rule>] = &[
    needs!("id", Form::Value(Spelling::Id)),
    needs!("parent", Form::Value(Spelling::Id)),
];

// A security role.
const ROLE: &[Member<Rule>] = &[
    needs!("id", Form::Value(Spelling::Id)),
    needs!(
        "inheritance",
        Form::Value(Spelling::WordAmong(&["team", "direct"]))
    ),
    may!("manage", Form::Value(Spelling::Flag)),
    needs!("privileges", Form::Tuples(PRIVILEGE, None)),
];

// A user.
const USER: &[Member<Rule>] = &[
    needs!("id", Form::Value(Spelling::Id)),
    needs!("unit", Form::Value(Spelling::Id)),
    may!("roles", Form::Values(Spelling::Id, None)),
];

// A team.
const TEAM: &[Member<Rule>] = &[
    needs!("id", Form::Value(Spelling::Id)),
    needs!("unit", Form::Value(Spelling::Id)),
    needs!(
        "kind",
        Form::Value(Spelling::WordAmong(&["owner", "access"]))
    ),
    may!("members", Form::Values(Spelling::Id, Some(MAX_MEMBERS))),
    may!("roles", Form::Values(Spelling::Id, None)),
];

// The words of what is handed on to children.
const CASCADE: Spelling = Spelling::WordAmong(&["nocascade", "cascade", "active", "userowned"]);

// An action, a table and a depth.
const PRIVILEGE: &[Spelling] = &[
    Spelling::WordAmong(&[
        "Create", "Read", "Write", "Delete", "Append", "AppendTo", "Assign", "Share", "*",
    ]),
    Spelling::NameOrStar,
    Spelling::IntegerFrom(0, DEEPEST),
];

// What a column has further, by its type.
const BY_TYPE: &[Case<Rule>] = &[
    Case {
        word: "flag",
        members: &[],
    },
    Case {
        word: "moment",
        members: &[],
    },
    Case {
        word: "lookup",
        members: &[],
    },
    Case {
        word: "whole",
        members: &[
            may!(
                "min",
                Form::Value(Spelling::IntegerFrom(LEAST_SHORT, GREATEST_SHORT))
            ),
            may!(
                "max",
                Form::Value(Spelling::IntegerFrom(LEAST_SHORT, GREATEST_SHORT))
            ),
        ],
    },
    Case {
        word: "choice",
        members: &[needs!("options", Form::DistinctIntegers)],
    },
    Case {
        word: "amount",
        members: &[needs!(
            "scale",
            Form::Value(Spelling::IntegerFrom(0, LARGEST_SCALE))
        )],
    },
    Case {
        word: "text",
        members: &[needs!("max", Form::Value(Spelling::IntegerFrom(1, LONGEST_TEXT)))],
    },
    Case {
        word: "rollup",
        members: &[
            needs!(
                "kind",
                Form::Value(Spelling::WordAmong(&["sum", "count", "min", "max"]))
            ),
            needs!("over", Form::Value(Spelling::Name)),
            may!("of", Form::Value(Spelling::Name)),
            may!("active", Form::Value(Spelling::Flag)),
        ],
    },
];
