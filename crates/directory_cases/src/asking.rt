//! What comes of a case: an answer for each of its messages and questions.
use crate::asked::question;
use crate::messages::message;
use crate::scene::Scene;
use crate::words::Words;
use case_notation::{Answers, Case, Fault, behind_blank};
use dv_units::DirFault;
use std::alloc::Global;

/// The cases of directories.
pub struct Directories;

impl Answers for Directories {
    fn answer(&self, rt: &HostRuntime, case: &Case<'_>) -> Result<String, Fault> {
        let mut scene = Scene::new(rt)?;
        let mut told = String::new(rt.alloc());
        for line in case.input.iter() {
            let answer = answer_line(rt.alloc(), &mut scene, line)?;
            told.push_str(answer.as_str())?;
            told.push_str("\n")?;
        }
        Ok(told)
    }
}

// The answer to a line.
fn answer_line(alloc: Global, scene: &mut Scene, line: &str) -> Result<String, Fault> {
    let Some(asked) = line.strip_prefix('>') else {
        return Err(Fault::Wrong("an input without its mark"));
    };
    let mut words = Words::new(behind_blank(asked));
    let word = words.word();
    match message(alloc, scene, word, &mut words)? {
        Some(came) => outcome(alloc, came),
        None => question(alloc, scene, word, &mut words),
    }
}

// What came of a message.
fn outcome(alloc: Global, came: Result<(), DirFault>) -> Result<String, Fault> {
    match came {
        Ok(()) => Ok(String::from_str(alloc, "ok")?),
        Err(DirFault::Refused(refusal)) => Ok(refusal.to_json(alloc)?.to_string(alloc)?),
        Err(DirFault::OutOfMemory) => Err(Fault::OutOfMemory),
    }
}
