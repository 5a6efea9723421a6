//! A walk over what a user holds, which takes no memory.
ghost use Rattle.std.specs.Prelude.{◌≡◌, IsTrue, IfNone};
ghost use Rattle.dv_roles.specs.Seated.{is_seated};

use crate::directory::Directory;
use dv_schema::Action;
use dv_value::Id;

/// The pairs of a depth and a seat, from which the depth is measured, at which a user holds an action on a table.
#[derive(Drop)]
pub struct Reach<'a> {
    directory: &'a Directory,
    user: Id,
    action: Action,
    table: u16,
    /// The team whose seat the walk is at; none where it is at the user's own.
    team: Option<Id>,
    /// The first depth of this seat that wasn't looked at.
    depth: u8,
    ghost seated: { IsTrue (is_seated directory.now user team) },
}

impl<'a> Reach<'a> {
    ghost use Rattle.std.specs.Prelude.{ℕ, Some, None, IfSome};
    ghost use Rattle.dv_value.specs.declared.id.Id as id;
    ghost use Rattle.dv_roles.specs.Held.{holds};
    ghost use Rattle.dv_roles.specs.Walk.{is_held};
    ghost use Rattle.dv_roles.specs.Reaches.{query_of, has_left, IsNextOf, IsNearer, IsSpent, Gives, GoesOn};

    /// A walk over all that a user holds.
    fn new(directory: &'a Directory, user: Id, action: Action, table: u16) -> Reach<'a>
        ensures { (depth : ℕ) (seat : id.Id)
            → has_left result depth seat ≡ holds directory.now user action table depth seat }
    {
        Reach {
            directory,
            user,
            action,
            table,
            team: None,
            depth: 0,
        }
    }

    /// Whether a depth is held at the present seat.
    fn is_held(&self, depth: u8) -> bool
        ensures { result ≡ is_held (query_of self.now) self.now.team depth }
    {
        match self.team {
            Some(team) => {
                self.directory
                    .team_holds(self.action, self.table, depth, team)
            }
            None => {
                self.directory
                    .user_holds(self.action, self.table, depth, self.user)
            }
        }
    }

    /// The next depth that is held at the present seat.
    fn next_depth(&self) -> Option<u8>
        ensures { IsNextOf self.now result }
    {
        for depth in self.depth..4 {
            if self.is_held(depth) {
                return Some(depth);
            }
        }
        None
    }

    /// Gives the next depth of the present seat.
    fn give(&mut self, depth: u8) -> (u8, Id)
        requires { IsNextOf self.old (Some depth) }
        ensures gives { Gives self.old self.new (Some result) }
        ensures nearer { IsNearer self.new self.old }
    {
        let seat = self.team.unwrap_or(self.user);
        self.depth = depth + 1;
        (depth, seat)
    }

    /// Goes on to the next team, where nothing is left at the present seat.
    fn go_on(&mut self) -> bool
        requires { IsNextOf self.old None }
        ensures goes_on { GoesOn self.old self.new result }
        ensures nearer { IsTrue result → IsNearer self.new self.old }
    {
        match self.directory.team_after(self.user, self.team) {
            Some(team) => {
                self.team = Some(team);
                self.depth = 0;
                true
            }
            None => false,
        }
    }

    /// The next pair, each once; none where all were given, and then none again.
    pub fn next(&mut self) -> Option<(u8, Id)>
        ensures gives { Gives self.old self.new result }
        ensures nearer { IfSome result (λ _. IsNearer self.new self.old) }
        ensures ends { IfNone result (IsSpent self.new) }
        ensures spent { IsSpent self.old → result ≡ None }
    {
        'seats: loop {
            if let Some(depth) = self.next_depth() {
                return Some(self.give(depth));
            }
            if !self.go_on() {
                return None;
            }
        }
    }
}

impl Directory {
    ghost use Rattle.std.specs.Prelude.{ℕ};
    ghost use Rattle.dv_value.specs.declared.id.Id as id;
    ghost use Rattle.dv_roles.specs.Held.{holds};
    ghost use Rattle.dv_roles.specs.Reaches.{has_left};

    /// What a user holds of an action on a table: pairs of a depth and of the seat from which it is measured, which is
    /// the user or one of its owner teams. No pair where no user has the id.
    pub fn holds(&self, user: Id, action: Action, table: u16) -> Reach<'_>
        ensures { (depth : ℕ) (seat : id.Id)
            → has_left result depth seat ≡ holds self.now user action table depth seat }
    {
        Reach::new(self, user, action, table)
    }
}
