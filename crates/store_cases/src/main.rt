//! Runs the cases of data/: changes of a store, what its calls tell then, and the ways back to each earlier state.
#![tactic(auto)]

mod asking;
mod changing;
mod going_back;
mod listing;
mod rows;
mod scene;
mod sharing;
mod stories;
mod whole;

use case_notation::{Fault, Tally, run};
use stories::Stories;

// The files of cases. Each begins with what it shows.
const FILES: [&str; 7] = [
    "rows", "grants", "shares", "rollups", "removals", "marks", "limits",
];

fn main(rt: HostRuntime) -> Result<(), Fault> {
    let mut tally = Tally::new();
    for file in FILES {
        run(&rt, file, &Stories, &mut tally)?;
    }
    tally.tell(&rt)
}
