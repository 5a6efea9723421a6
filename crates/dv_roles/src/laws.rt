//! Laws of the directory that no single call states: each is the contract of a function that does nothing.
ghost use Rattle.std.specs.Prelude.{◌≡◌, Ok, Bool, false, List, is_some};
ghost use Rattle.dv_value.specs.declared.id.Id as id;
ghost use Rattle.dv_schema.specs.declared.definition.Definition as def;
ghost use Rattle.dv_schema.specs.declared.opening.Entry as entry;
ghost use Rattle.dv_schema.specs.declared.opening.Role as role;
ghost use Rattle.dv_roles.specs.State.{State};
ghost use Rattle.dv_roles.specs.Messages.{adding_role, setting_privileges, giving_role, taking_role, moving, enabling};
ghost use Rattle.dv_roles.specs.Rules.{Keeps};
ghost use Rattle.dv_roles.specs.Beginning.{beginning};
ghost use Rattle.dv_opening.specs.Directory as opening;
ghost use Rattle.dv_units.specs.Rules.{IsChart};
ghost use Rattle.dv_units.specs.Messages.{adding_unit, adding_user, adding_team, adding_member};
ghost use Rattle.dv_roles.specs.Entries.{owned_at};
ghost use Rattle.dv_roles.specs.Seen.{is_refused, seat_of, is_full_for, IsSeen, OpensWell};

/// Each change of a directory keeps the rules on who has which roles, and leaves which tables users own.
pub fn rules_kept()
    ensures adds { (d e : State) (definition : def.Definition) (added : role.Role)
        → adding_role d definition added ≡ Ok e → Keeps d e }
    ensures sets { (d e : State) (definition : def.Definition) (id : id.Id) (manage : Bool)
        (entries : List entry.Entry)
        → setting_privileges d definition id manage entries ≡ Ok e → Keeps d e }
    ensures gives { (d e : State) (id to : id.Id) → giving_role d id to ≡ Ok e → Keeps d e }
    ensures takes { (d e : State) (id from : id.Id) → taking_role d id from ≡ Ok e → Keeps d e }
    ensures moves { (d e : State) (user unit : id.Id) → moving d user unit ≡ Ok e → Keeps d e }
    ensures enables { (d e : State) (user : id.Id) (enabled : Bool)
        → enabling d user enabled ≡ Ok e → Keeps d e }
{}

/// A message is refused exactly where the rules of an opening directory, told of the same ids and counts, refuse it.
pub fn refused_alike()
    ensures units { (d : State) (seen : opening.Directory) → IsSeen d seen → (id parent : id.Id)
        → is_refused (adding_unit d.chart id parent)
        ≡ is_some (opening.adding_unit seen id.0 parent.0) }
    ensures users { (d : State) (seen : opening.Directory) → IsSeen d seen → (id unit : id.Id)
        → is_refused (adding_user d.chart id unit)
        ≡ is_some (opening.adding_user seen id.0 unit.0) }
    ensures teams { (d : State) (seen : opening.Directory) → IsSeen d seen
        → (id unit : id.Id) (access : Bool)
        → is_refused (adding_team d.chart id unit access)
        ≡ is_some (opening.adding_team seen id.0 unit.0) }
    ensures members { (d : State) (seen : opening.Directory) → IsSeen d seen → IsChart d.chart
        → (team user : id.Id) → is_refused (adding_member d.chart team user)
        ≡ is_some (opening.adding_member seen (seat_of d.chart team) user.0
        (is_full_for d.chart team user)) }
    ensures roles { (d : State) (seen : opening.Directory) → IsSeen d seen
        → (definition : def.Definition) (added : role.Role)
        → is_refused (adding_role d definition added)
        ≡ is_some (opening.adding_role seen (owned_at definition) added.id.0 added.entries) }
    ensures gifts { (d : State) (seen : opening.Directory) → IsSeen d seen → (id to : id.Id)
        → is_refused (giving_role d id to)
        ≡ is_some (opening.giving_role seen id.0 (seat_of d.chart to)) }
{}

/// The messages that make an accepted opening directory are never refused.
pub fn beginning_never_refused()
    ensures { (definition : def.Definition) → OpensWell definition
        → is_refused (beginning definition) ≡ false }
{}
