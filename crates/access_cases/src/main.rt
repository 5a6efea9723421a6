//! Runs the cases of access in data/.
#![tactic(auto)]

mod asking;
mod changing;
mod scene;
mod wish;
mod words;

use asking::Access;
use case_notation::{Fault, Tally, run};

// The files of cases. Each begins with what it shows.
const FILES: [&str; 6] = ["worked", "depths", "tables", "shares", "users", "worlds"];

fn main(rt: HostRuntime) -> Result<(), Fault> {
    let mut tally = Tally::new();
    for file in FILES {
        run(&rt, file, &Access, &mut tally)?;
    }
    tally.tell(&rt)
}
