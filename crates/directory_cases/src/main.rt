//! Runs the cases of data/: messages and questions to a directory, and what must come of each.
#![tactic(auto)]

mod asked;
mod asking;
mod filling;
mod messages;
mod scene;
mod words;

use asking::Directories;
use case_notation::{Fault, Tally, run};

// The files of cases. Each begins with what it shows.
const FILES: [&str; 3] = ["refused", "limits", "held"];

fn main(rt: HostRuntime) -> Result<(), Fault> {
    let mut tally = Tally::new();
    for file in FILES {
        run(&rt, file, &Directories, &mut tally)?;
    }
    tally.tell(&rt)
}
