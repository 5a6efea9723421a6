//! Runs the cases of data/: cascades, and what rows inherit by another parent.
#![tactic(auto)]

mod asking;
mod rows;
mod scene;
mod stories;
mod words;

use case_notation::{Fault, Tally, run};
use stories::Stories;

// The files of cases. Each begins with what it shows.
const FILES: [&str; 8] = [
    "worked",
    "kinds",
    "removal",
    "circles",
    "reparent",
    "grants",
    "large",
    "generated",
];

fn main(rt: HostRuntime) -> Result<(), Fault> {
    let mut tally = Tally::new();
    for file in FILES {
        run(&rt, file, &Stories, &mut tally)?;
    }
    tally.tell(&rt)
}
