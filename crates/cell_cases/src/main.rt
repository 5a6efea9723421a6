//! Runs the cases of cells in data/, and tells how many there are and which of them differ.
#![tactic(auto)]

mod cells;
mod changing;

use case_notation::{Fault, Tally, run};
use cells::Cells;

// The files of cases. Each begins with what it shows.
const FILES: [&str; 2] = ["sheets", "faults"];

fn main(rt: HostRuntime) -> Result<(), Fault> {
    let mut tally = Tally::new();
    for file in FILES {
        run(&rt, file, &Cells, &mut tally)?;
    }
    tally.tell(&rt)
}
