//! Changes of teams and of their members.
ghost use Rattle.std.specs.Prelude.{◌≡◌, Ok, Err, OnOk, OnErr, IfErr, IfOk, IfSome, IfNone, None, true, false};
ghost use Rattle.dv_units.specs.Chart.{has, is_unit, is_team, is_user};
ghost use Rattle.dv_units.specs.Messages.{adding_team, adding_member, removing_member, membership_refused};
ghost use Rattle.dv_units.specs.Outcome.{IsFaultOf, IsCauseOf};

use crate::fault::DirFault;
use crate::lists;
use crate::seats::Team;
use crate::units::{MOST_MEMBERS, MOST_TEAMS, Units};
use dv_refusal::{Refusal, What};
use dv_value::{Id, Text};

impl Units {
    /// Adds a team to a unit, an access team or an owner team.
    #[tactic(auto, unfolding(crate::specs::Messages::adding_team))]
    pub fn add_team(&mut self, id: Id, unit: Id, access: bool) -> Result<(), DirFault>
        ensures ok { OnOk result (adding_team self.old id unit access ≡ Ok self.new) }
        ensures err { IfErr result (IsFaultOf (adding_team self.old id unit access)) }
        ensures kept { OnErr result (self.new ≡ self.old) }
    {
        if self.is_taken(id) {
            return Err(DirFault::Refused(Refusal::DirectoryIdTaken));
        }
        if !self.is_unit(unit) {
            return Err(DirFault::Refused(Refusal::UnknownUnit));
        }
        if self.teams.len() >= MOST_TEAMS {
            return Err(DirFault::Refused(Refusal::Limit { what: What::Team }));
        }
        lists::put(&mut self.teams, id, Team { unit, access })?;
        Ok(())
    }

    /// Whether the members of a team may be changed by a user; else why not.
    fn check_membership(&self, team: Id, user: Id) -> Result<(), DirFault>
        ensures ok { OnOk result (membership_refused self.now team user ≡ None) }
        ensures err { IfErr result (IsCauseOf (membership_refused self.now team user)) }
    {
        if !self.is_unit(team) && !self.is_team(team) {
            return Err(DirFault::Refused(Refusal::UnknownTeam));
        }
        if !self.is_user(user) {
            return Err(DirFault::Refused(Refusal::UnknownUser));
        }
        if self.is_unit(team) {
            let why = Text::from_str(self.alloc, "default")?;
            return Err(DirFault::Refused(Refusal::TeamRule { why }));
        }
        Ok(())
    }

    /// Makes a user a member of a team. One that is a member already changes nothing.
    #[tactic(auto, unfolding(crate::specs::Messages::adding_member))]
    pub fn add_member(&mut self, team: Id, user: Id) -> Result<(), DirFault>
        ensures ok { OnOk result (adding_member self.old team user ≡ Ok self.new) }
        ensures err { IfErr result (IsFaultOf (adding_member self.old team user)) }
        ensures kept { OnErr result (self.new ≡ self.old) }
    {
        self.check_membership(team, user)?;
        if self.members.contains(&(team, user)) {
            return Ok(());
        }
        if self.members.len() >= MOST_MEMBERS {
            return Err(DirFault::Refused(Refusal::Limit { what: What::Member }));
        }
        lists::add_pair(&mut self.members, &mut self.joined, team, user)?;
        Ok(())
    }

    /// Ends a user's membership of a team. One that is no member changes nothing.
    #[tactic(auto, unfolding(crate::specs::Messages::removing_member))]
    pub fn remove_member(&mut self, team: Id, user: Id) -> Result<(), DirFault>
        ensures ok { OnOk result (removing_member self.old team user ≡ Ok self.new) }
        ensures err { IfErr result (IsFaultOf (removing_member self.old team user)) }
        ensures kept { OnErr result (self.new ≡ self.old) }
    {
        self.check_membership(team, user)?;
        lists::take_pair(&mut self.members, &mut self.joined, team, user);
        Ok(())
    }
}
