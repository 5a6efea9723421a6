//! Runs the cases of data/: texts of table definitions, and what must come of each.
#![tactic(auto)]

mod asked;
mod asking;
mod showing;

use asking::World;
use case_notation::{Fault, Tally, run};

// The files of cases. Each begins with what it shows.
const FILES: [&str; 6] = [
    "form",
    "limits",
    "names",
    "relations",
    "directory",
    "accepted",
];

fn main(rt: HostRuntime) -> Result<(), Fault> {
    let mut tally = Tally::new();
    for file in FILES {
        run(&rt, file, &World, &mut tally)?;
    }
    tally.tell(&rt)
}
