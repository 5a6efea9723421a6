//! The tables of the grammar of requests.
ghost use Rattle.std.specs.Prelude.{◌≡◌, map};
ghost use Rattle.dv_form.specs.Schemas.{schema_of, member_of};
ghost use Rattle.dv_wire.specs.Grammar.{rules, plain_schema, schema_by_do, messages};
ghost use Rattle.dv_wire.specs.Grammar as say;

use crate::verb::Verb;
use dv_form::{Case, Exclusion, Form, Grammar, Member, Schema, Spelling};

/// The objects of a request.
#[derive(Clone, Copy)]
pub(crate) enum Rule {
    /// A request on a line of its own.
    Request,
    /// A request in a batch, which has no caller.
    Item,
    /// A request whose caller and message are known from elsewhere.
    Body(Verb),
    Page,
    Filter,
    Condition,
    Link,
    Order,
}

impl Grammar for Rule {
    ghost use Rattle.dv_wire.specs.Grammar.{rules};

    ghost schemas = { rules };

    #[tactic(auto, unfolding(crate::specs::Grammar::rules, crate::specs::Verbs::verb_word, dv_query::specs::Words::join_word, dv_query::specs::Words::operator_word))]
    fn schema(self) -> Schema<Rule>
        ensures { schema_of result ≡ rules self }
    {
        match self {
            Rule::Request => by_message(REQUEST),
            Rule::Item => by_message(ITEM),
            Rule::Body(verb) => plain(members_for(verb)),
            Rule::Page => plain(PAGE_MEMBERS),
            Rule::Filter => plain(FILTER_MEMBERS),
            Rule::Condition => plain(CONDITION_MEMBERS),
            Rule::Link => plain(LINK_MEMBERS),
            Rule::Order => plain(ORDER_MEMBERS),
        }
    }
}

// A schema whose members don't depend on a word.
fn plain(members: &'static [Member<Rule>]) -> Schema<Rule>
    ensures { schema_of result ≡ plain_schema (map member_of members.now) }
{
    Schema {
        members,
        decided_by: None,
        cases: &[],
    }
}

// A schema whose further members hang on the word of the message.
#[tactic(auto, unfolding(crate::specs::Grammar::messages, crate::specs::Grammar::members_for, crate::specs::Verbs::verb_word, dv_schema::specs::Words::action_word))]
fn by_message(members: &'static [Member<Rule>]) -> Schema<Rule>
    ensures { schema_of result ≡ schema_by_do (map member_of members.now) messages }
{
    Schema {
        members,
        decided_by: Some("do"),
        cases: MESSAGES,
    }
}

// The members of a message.
#[tactic(auto, unfolding(crate::specs::Grammar::members_for, dv_schema::specs::Words::action_word))]
fn members_for(verb: Verb) -> &'static [Member<Rule>]
    ensures { map member_of result.now ≡ say.members_for verb }
{
    MESSAGES[verb as usize].members
}

// A member that must be given.
macro_rules! needs {
    ($name:expr, $form:expr) => {
        Member {
            name: $name,
            needed: true,
            form: $form,
            excluded_by: &[],
        }
    };
}

// A member that may be given.
macro_rules! may {
    ($name:expr, $form:expr) => {
        Member {
            name: $name,
            needed: false,
            form: $form,
            excluded_by: &[],
        }
    };
}

// A member that may be given where another isn't.
macro_rules! unless {
    ($other:expr, $name:expr, $form:expr) => {
        Member {
            name: $name,
            needed: false,
            form: $form,
            excluded_by: &[Exclusion::Given($other)],
        }
    };
}

const TEXT: Form<Rule> = Form::Value(Spelling::Text);

const ID: Form<Rule> = Form::Value(Spelling::Id);

const FLAG: Form<Rule> = Form::Value(Spelling::Flag);

const INTEGER: Form<Rule> = Form::Value(Spelling::Integer);

const VERSION: Form<Rule> = Form::Value(Spelling::Version);

const TOKEN: Form<Rule> = Form::Value(Spelling::Token);

const VALUES: Form<Rule> = Form::RawValues;

const NAMES: Form<Rule> = Form::Values(Spelling::Text, None);

const RAWS: Form<Rule> = Form::Values(Spelling::Raw, None);

const FILTER: Form<Rule> = Form::Object(Rule::Filter);

const FILTERS: Form<Rule> = Form::Objects(Rule::Filter, None);

const CONDITIONS: Form<Rule> = Form::Objects(Rule::Condition, None);

const LINKS: Form<Rule> = Form::Objects(Rule::Link, None);

const ORDERS: Form<Rule> = Form::Objects(Rule::Order, None);

const PAGE: Form<Rule> = Form::Object(Rule::Page);

const REQUESTS: Form<Rule> = Form::Objects(Rule::Item, None);

// An owner team or an access team.
const TEAM_KIND: Form<Rule> = Form::Value(Spelling::WordAmong(&["owner", "access"]));

// Whether a role that is given to a team is for the team alone, or also for each of its members.
const INHERITANCE: Form<Rule> = Form::Value(Spelling::WordAmong(&["team", "direct"]));

// Whether all parts of a filter must hold or one is enough.
const ALL_OR_ANY: Form<Rule> = Form::Value(Spelling::WordAmong(&["and", "or"]));

// The ways to join.
const JOIN: Form<Rule> = Form::Value(Spelling::WordAmong(&["inner", "left", "exists"]));

// The operators.
const OPERATOR: Form<Rule> = Form::Value(Spelling::WordAmong(&[
    "eq",
    "ne",
    "gt",
    "ge",
    "lt",
    "le",
    "between",
    "not-between",
    "in",
    "not-in",
    "like",
    "not-like",
    "begins",
    "not-begins",
    "ends",
    "not-ends",
    "contains",
    "not-contains",
    "on",
    "on-or-before",
    "on-or-after",
    "today",
    "yesterday",
    "tomorrow",
    "last-days",
    "next-days",
    "me",
    "not-me",
    "my-teams",
    "me-or-my-teams",
    "null",
    "not-null",
]));

// The entries of a role: an action, a table and a depth each.
const PRIVILEGES: Form<Rule> = Form::Tuples(ENTRY, None);

const ENTRY: &[Spelling] = &[
    Spelling::WordAmong(&[
        "Create", "Read", "Write", "Delete", "Append", "AppendTo", "Assign", "Share", "*",
    ]),
    Spelling::Text,
    Spelling::IntegerFrom(0, 3),
];

// The members of a request besides those that its message has.
const REQUEST: &[Member<Rule>] = &[needs!("caller", ID), needs!("do", MESSAGE)];

// The members of a request in a batch besides those that its message has.
const ITEM: &[Member<Rule>] = &[needs!("do", MESSAGE)];

// The words of the messages.
const MESSAGE: Form<Rule> = Form::Value(Spelling::WordAmong(WORDS));

// The messages, in the order of `Verb`: what each asks, its word, and its members besides the word.
macro_rules! messages {
    ($column:ident) => {
        [
            $column!(Create, "create", &[
                needs!("table", TEXT),
                may!("id", ID),
                needs!("values", VALUES),
            ]),
            $column!(Retrieve, "retrieve", &[
                needs!("table", TEXT),
                needs!("id", ID),
                may!("columns", NAMES),
            ]),
            $column!(Update, "update", &[
                needs!("table", TEXT),
                needs!("id", ID),
                needs!("values", VALUES),
                may!("version", VERSION),
            ]),
            $column!(Delete, "delete", &[
                needs!("table", TEXT),
                needs!("id", ID),
                may!("version", VERSION),
            ]),
            $column!(Assign, "assign", &[
                needs!("table", TEXT),
                needs!("id", ID),
                needs!("owner", ID),
            ]),
            $column!(Grant, "grant", GIVING),
            $column!(Modify, "modify", GIVING),
            $column!(Revoke, "revoke", &[
                needs!("table", TEXT),
                needs!("id", ID),
                needs!("principal", ID),
            ]),
            $column!(Access, "access", &[
                needs!("table", TEXT),
                needs!("id", ID),
                may!("user", ID),
            ]),
            $column!(Shares, "shares", &[needs!("table", TEXT), needs!("id", ID)]),
            $column!(Query, "query", &[
                needs!("table", TEXT),
                may!("columns", NAMES),
                may!("filter", FILTER),
                may!("links", LINKS),
                may!("orders", ORDERS),
                unless!("page", "top", INTEGER),
                may!("page", PAGE),
            ]),
            $column!(Changes, "changes", &[
                needs!("table", TEXT),
                may!("token", TOKEN),
                may!("count", INTEGER),
            ]),
            $column!(Rollup, "rollup", &[
                needs!("table", TEXT),
                needs!("id", ID),
                needs!("column", TEXT),
            ]),
            $column!(WhoAmI, "whoami", &[]),
            $column!(RollupJob, "rollupjob", &[]),
            $column!(Trim, "trim", &[needs!("token", VERSION)]),
            $column!(Multiple, "multiple", &[needs!("requests", REQUESTS), may!("continue", FLAG)]),
            $column!(Transaction, "transaction", &[needs!("requests", REQUESTS)]),
            $column!(AddUnit, "addunit", &[needs!("id", ID), needs!("parent", ID)]),
            $column!(MoveUnit, "moveunit", &[needs!("unit", ID), needs!("parent", ID)]),
            $column!(AddUser, "adduser", &[needs!("id", ID), needs!("unit", ID)]),
            $column!(MoveUser, "moveuser", &[needs!("user", ID), needs!("unit", ID)]),
            $column!(SetEnabled, "setenabled", &[needs!("user", ID), needs!("enabled", FLAG)]),
            $column!(AddTeam, "addteam", &[
                needs!("id", ID),
                needs!("unit", ID),
                needs!("kind", TEAM_KIND),
            ]),
            $column!(AddMember, "addmember", &[needs!("team", ID), needs!("user", ID)]),
            $column!(RemoveMember, "removemember", &[needs!("team", ID), needs!("user", ID)]),
            $column!(AddRole, "addrole", &[
                needs!("id", ID),
                needs!("inheritance", INHERITANCE),
                may!("manage", FLAG),
                needs!("privileges", PRIVILEGES),
            ]),
            $column!(SetPrivileges, "setprivileges", &[
                needs!("role", ID),
                may!("manage", FLAG),
                needs!("privileges", PRIVILEGES),
            ]),
            $column!(GiveRole, "giverole", &[needs!("role", ID), needs!("to", ID)]),
            $column!(TakeRole, "takerole", &[needs!("role", ID), needs!("to", ID)]),
        ]
    };
}

macro_rules! verb {
    ($verb:ident, $word:expr, $members:expr) => {
        Verb::$verb
    };
}

macro_rules! word {
    ($verb:ident, $word:expr, $members:expr) => {
        $word
    };
}

macro_rules! case {
    ($verb:ident, $word:expr, $members:expr) => {
        Case {
            word: $word,
            members: $members,
        }
    };
}

/// What a request can ask, in the order of `Verb`.
pub(crate) const VERBS: [Verb; 30] = messages!(verb);

/// The word of each.
pub(crate) const WORDS: &[&str] = &messages!(word);

// The members of each.
const MESSAGES: &[Case<Rule>] = &messages!(case);

// What gives rights: a row, who gets them, and which.
const GIVING: &[Member<Rule>] = &[
    needs!("table", TEXT),
    needs!("id", ID),
    needs!("principal", ID),
    needs!("rights", INTEGER),
];

const PAGE_MEMBERS: &[Member<Rule>] = &[
    may!("size", INTEGER),
    may!("number", INTEGER),
    unless!("number", "cookie", TEXT),
    may!("total", FLAG),
];

const FILTER_MEMBERS: &[Member<Rule>] = &[
    may!("op", ALL_OR_ANY),
    may!("conditions", CONDITIONS),
    may!("filters", FILTERS),
];

const CONDITION_MEMBERS: &[Member<Rule>] = &[
    needs!("column", TEXT),
    may!("link", TEXT),
    needs!("is", OPERATOR),
    may!("values", RAWS),
];

const LINK_MEMBERS: &[Member<Rule>] = &[
    needs!("table", TEXT),
    needs!("from", TEXT),
    needs!("to", TEXT),
    may!("join", JOIN),
    may!("alias", TEXT),
    may!("columns", NAMES),
    may!("filter", FILTER),
    may!("links", LINKS),
];

const ORDER_MEMBERS: &[Member<Rule>] = &[
    needs!("column", TEXT),
    may!("link", TEXT),
    may!("desc", FLAG),
];
