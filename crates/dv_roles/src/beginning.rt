//! The directory that a definition begins with, made by the messages of the directory in the order of the text.
ghost use Rattle.std.specs.Prelude.{◌≡◌, Ok, OnOk, IfOk, IfErr};
ghost use Rattle.dv_units.specs.Outcome.{IsFaultOf};
ghost use Rattle.dv_roles.specs.State.{owned_of};
ghost use Rattle.dv_roles.specs.Beginning.{each, making_unit, making_member, giving_to, making_user, making_team, making_role, opened, beginning};
ghost use Rattle.dv_roles.specs.Rules.{HasRules};
ghost use Rattle.dv_roles.specs.Seen.{OpensWell};
ghost use Rattle.dv_units.specs.declared.fault.DirFault.TheVariants.{OutOfMemory};

use crate::directory::Directory;
use dv_refusal::Refusal;
use dv_schema::{Definition, OpeningTeam, OpeningUnit, OpeningUser, Role};
use dv_units::DirFault;
use dv_value::Id;
use std::alloc::Global;

impl Directory {
    /// Makes a unit.
    #[tactic(auto, unfolding(crate::specs::Beginning::making_unit))]
    fn make_unit(&mut self, unit: &OpeningUnit) -> Result<(), DirFault>
        ensures ok { OnOk result (making_unit self.old unit.now ≡ Ok self.new) }
        ensures err { IfErr result (IsFaultOf (making_unit self.old unit.now)) }
    {
        self.units.add_unit(unit.id, unit.parent)
    }

    /// Makes units in turn.
    fn make_units(&mut self, units: &[OpeningUnit]) -> Result<(), DirFault>
        ensures ok { OnOk result (each making_unit self.old units.now ≡ Ok self.new) }
        ensures err { IfErr result (IsFaultOf (each making_unit self.old units.now)) }
    {
        for unit in units {
            if let Err(fault) = self.make_unit(unit) {
                return Err(fault);
            }
        }
        Ok(())
    }

    /// Makes roles in turn.
    fn make_roles(&mut self, definition: &Definition, roles: &[Role]) -> Result<(), DirFault>
        ensures ok { OnOk result
            (each (making_role definition.now) self.old roles.now ≡ Ok self.new) }
        ensures err { IfErr result
            (IsFaultOf (each (making_role definition.now) self.old roles.now)) }
    {
        for role in roles {
            if let Err(fault) = self.add_role(definition, role) {
                return Err(fault);
            }
        }
        Ok(())
    }

    /// Gives roles in turn.
    fn give_roles(&mut self, principal: Id, roles: &[Id]) -> Result<(), DirFault>
        ensures ok { OnOk result (each (giving_to principal) self.old roles.now ≡ Ok self.new) }
        ensures err { IfErr result (IsFaultOf (each (giving_to principal) self.old roles.now)) }
    {
        for role in roles {
            if let Err(fault) = self.give_role(*role, principal) {
                return Err(fault);
            }
        }
        Ok(())
    }

    /// Makes a user with its roles.
    #[tactic(auto, unfolding(crate::specs::Beginning::making_user))]
    fn make_user(&mut self, user: &OpeningUser) -> Result<(), DirFault>
        ensures ok { OnOk result (making_user self.old user.now ≡ Ok self.new) }
        ensures err { IfErr result (IsFaultOf (making_user self.old user.now)) }
    {
        self.units.add_user(user.id, user.unit)?;
        self.give_roles(user.id, user.roles.as_slice())
    }

    /// Makes users in turn.
    fn make_users(&mut self, users: &[OpeningUser]) -> Result<(), DirFault>
        ensures ok { OnOk result (each making_user self.old users.now ≡ Ok self.new) }
        ensures err { IfErr result (IsFaultOf (each making_user self.old users.now)) }
    {
        for user in users {
            if let Err(fault) = self.make_user(user) {
                return Err(fault);
            }
        }
        Ok(())
    }

    /// Makes a user a member of a team.
    #[tactic(auto, unfolding(crate::specs::Beginning::making_member))]
    fn make_member(&mut self, team: Id, user: Id) -> Result<(), DirFault>
        ensures ok { OnOk result (making_member team self.old user ≡ Ok self.new) }
        ensures err { IfErr result (IsFaultOf (making_member team self.old user)) }
    {
        self.units.add_member(team, user)
    }

    /// Makes users members of a team in turn.
    fn make_members(&mut self, team: Id, users: &[Id]) -> Result<(), DirFault>
        ensures ok { OnOk result (each (making_member team) self.old users.now ≡ Ok self.new) }
        ensures err { IfErr result (IsFaultOf (each (making_member team) self.old users.now)) }
    {
        for user in users {
            if let Err(fault) = self.make_member(team, *user) {
                return Err(fault);
            }
        }
        Ok(())
    }

    /// Makes a team with its members and its roles.
    #[tactic(auto, unfolding(crate::specs::Beginning::making_team))]
    fn make_team(&mut self, team: &OpeningTeam) -> Result<(), DirFault>
        ensures ok { OnOk result (making_team self.old team.now ≡ Ok self.new) }
        ensures err { IfErr result (IsFaultOf (making_team self.old team.now)) }
    {
        self.units.add_team(team.id, team.unit, team.access)?;
        self.make_members(team.id, team.members.as_slice())?;
        self.give_roles(team.id, team.roles.as_slice())
    }

    /// Makes teams in turn.
    fn make_teams(&mut self, teams: &[OpeningTeam]) -> Result<(), DirFault>
        ensures ok { OnOk result (each making_team self.old teams.now ≡ Ok self.new) }
        ensures err { IfErr result (IsFaultOf (each making_team self.old teams.now)) }
    {
        for team in teams {
            if let Err(fault) = self.make_team(team) {
                return Err(fault);
            }
        }
        Ok(())
    }

    /// The root unit and the administrator.
    #[tactic(auto, unfolding(crate::specs::Beginning::opened))]
    fn open(alloc: Global, definition: &Definition) -> Result<Directory, DirFault>
        ensures ok { IfOk result (λ directory. opened definition.now ≡ Ok directory) }
        ensures err { IfErr result (IsFaultOf (opened definition.now)) }
    {
        let opening = definition.opening();
        if opening.root.0 == 0 {
            return Err(DirFault::Refused(Refusal::DirectoryIdTaken));
        }
        Directory::start(alloc, definition, opening.root, opening.admin)
    }

    /// Makes the whole directory.
    #[tactic(auto, unfolding(crate::specs::Beginning::beginning))]
    fn make_all(alloc: Global, definition: &Definition) -> Result<Directory, DirFault>
        ensures ok { IfOk result (λ directory. beginning definition.now ≡ Ok directory) }
        ensures err { IfErr result (IsFaultOf (beginning definition.now)) }
    {
        let opening = definition.opening();
        let mut directory = Directory::open(alloc, definition)?;
        directory.make_units(opening.units.as_slice())?;
        directory.make_roles(definition, opening.roles.as_slice())?;
        directory.make_users(opening.users.as_slice())?;
        directory.make_teams(opening.teams.as_slice())?;
        Ok(directory)
    }

    /// The directory that a definition begins with. Only an opening directory that isn't accepted is refused.
    pub fn begin(alloc: Global, definition: &Definition) -> Result<Directory, DirFault>
        ensures ok { IfOk result (λ directory. beginning definition.now ≡ Ok directory) }
        ensures err { IfErr result (IsFaultOf (beginning definition.now)) }
        ensures never { OpensWell definition.now → IfErr result (λ fault. fault ≡ OutOfMemory) }
        ensures rules { IfOk result HasRules }
        ensures owned { IfOk result (λ directory. directory.owned ≡ owned_of definition.now) }
    {
        match Directory::make_all(alloc, definition) {
            Ok(directory) => Ok(directory),
            Err(fault) => Err(fault),
        }
    }
}
