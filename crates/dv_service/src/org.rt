//! The organisation, and how it serves a request.
ghost use Rattle.std.specs.Prelude.{◌≡◌, [], IfOk, OnErr, Result, length};
ghost use Rattle.dv_pipeline.specs.Run.{Runs};
ghost use Rattle.dv_work.specs.History.{Extends};
ghost use Rattle.dv_schema.specs.Definitions.{tables_of};
ghost use Rattle.dv_cascade.specs.Sound.{IsSoundWorld};
ghost use Rattle.dv_refusal.specs.declared.refusal.Refusal.{Refusal as Answered};
ghost use Rattle.dv_request.specs.declared.reply.Reply.{Reply as Told};
ghost use Rattle.dv_service.specs.Answers.{answer_line};
ghost use Rattle.dv_service.specs.Managing.{managed};
ghost use Rattle.dv_service.specs.Serving.{Manages, Serves, reply_of};
ghost use Rattle.dv_service.specs.declared.answer.Answer.TheVariants.{Replied};

use crate::answer::{refusal_line, reply_line};
use crate::managing::{is_of_directory, managed};
use dv_pipeline::{Stop, execute};
use dv_request::{Reply, Request};
use dv_roles::Directory;
use dv_schema::Definition;
use dv_store::Store;
use dv_units::DirFault;
use dv_value::Id;
use std::alloc::{AllocError, Global};
use std::marker::Model;

/// An organisation: its definition, its directory and its rows. Between two requests no earlier
/// state of the rows is kept, and the links of the rows are sound: each lookup names a row that is
/// there, and no row is above itself.
#[derive(Drop)]
pub struct Org {
    definition: Definition,
    directory: Directory,
    store: Store,
}

impl Model for Org {
    ghost use Rattle.std.specs.Prelude.{◌≡◌, []};
    ghost use Rattle.dv_cascade.specs.Sound.{IsSoundWorld};
    ghost use Rattle.dv_service.specs.Organisations.{Organisation, organisation_code};

    ghost Value = { Organisation };

    ghost coded = { organisation_code };

    ghost view = { λ s. record {
      definition = s.definition;
      directory = s.directory;
      world = s.store.present;
    } };

    ghost invariant = { λ s. (s.store.earlier ≡ []) × IsSoundWorld s.definition s.store.present };
}

// Executes a request on rows, and prints its reply. On an `Err` a part of it may be done.
fn run_printed(
    alloc: Global,
    store: &mut Store,
    directory: &Directory,
    definition: &Definition,
    user: Id,
    now: i64,
    request: &Request,
) -> Result<Vec<u8>, AllocError>
    requires { IsSoundWorld definition.now store.old.present }
    ensures ok { IfOk result (λ line. (outcome : Result Told Answered)
        × Runs definition.now directory.now store.old.present user now request.now
        store.new.present outcome × (line.items ≡ answer_line (Replied (reply_of outcome)))) }
    ensures extends { Extends store.old store.new }
    ensures sound { IsSoundWorld definition.now store.new.present }
{
    match execute(alloc, store, directory, definition, user, now, request) {
        Ok(reply) => reply_line(alloc, &reply),
        Err(Stop::Refused(refusal)) => refusal_line(alloc, refusal),
        Err(Stop::OutOfMemory) => Err(AllocError),
    }
}

impl Org {
    /// An organisation of these parts, which are of one definition. The links of the store are sound,
    /// and it keeps no earlier state.
    pub fn new(definition: Definition, directory: Directory, store: Store) -> Org
        requires earlier { store.earlier ≡ [] }
        requires sound { IsSoundWorld definition store.present }
        ensures definition { result.definition ≡ definition }
        ensures directory { result.directory ≡ directory }
        ensures world { result.world ≡ store.present }
    {
        Org {
            definition,
            directory,
            store,
        }
    }

    /// How many tables the definition has.
    pub fn table_count(&self) -> u64
        ensures { result ≡ length (tables_of self.now.definition) }
    {
        self.definition.tables().len() as u64
    }

    // Serves a message of the directory. The changed directory takes the old one's place once the
    // reply is made.
    fn manage(&mut self, alloc: Global, user: Id, request: &Request) -> Result<Vec<u8>, AllocError>
        ensures ok { IfOk result (λ line. (reply : Told)
            × Manages (managed self.old.definition self.old.directory user request.now)
            self.old reply self.new × (line.items ≡ answer_line (Replied reply))) }
        ensures kept { OnErr result (self.new ≡ self.old) }
    {
        match managed(alloc, &self.directory, &self.definition, user, request) {
            Ok(directory) => {
                let line = reply_line(alloc, &Reply::Done)?;
                self.directory = directory;
                Ok(line)
            }
            Err(DirFault::Refused(refusal)) => refusal_line(alloc, refusal),
            Err(DirFault::OutOfMemory) => Err(AllocError),
        }
    }

    /// Serves a request of a user at a moment, whole or not at all, and gives the line of its reply.
    /// The error is out of memory, which leaves the organisation as it was.
    pub fn serve(
        &mut self,
        alloc: Global,
        user: Id,
        now: i64,
        request: &Request,
    ) -> Result<Vec<u8>, AllocError>
        ensures ok { IfOk result (λ line. (reply : Told)
            × Serves self.old now user request.now reply self.new
            × (line.items ≡ answer_line (Replied reply))) }
        ensures kept { OnErr result (self.new ≡ self.old) }
    {
        if is_of_directory(request) {
            return self.manage(alloc, user, request);
        }
        let start = self.store.mark();
        match run_printed(
            alloc,
            &mut self.store,
            &self.directory,
            &self.definition,
            user,
            now,
            request,
        ) {
            Ok(line) => {
                self.store.forget();
                Ok(line)
            }
            Err(fault) => {
                self.store.undo_to(start);
                Err(fault)
            }
        }
    }
}
