//! Runs the scenarios under `data/scenarios` through the service's public call, and tells those that differ.
#![tactic(auto)]

mod draft;
mod ends;
mod including;
mod reading;
mod report;
mod running;
mod scenario;

use case_notation::{Fault, Tally};
use including::Definitions;
use reading::Reader;
use running::first_difference;
use std::fs;

// The files of scenarios.
const FILES: [&str; 14] = [
    "scenarios/access.txt",
    "scenarios/assignments.txt",
    "scenarios/clock.txt",
    "scenarios/deletions.txt",
    "scenarios/directory.txt",
    "scenarios/faults.txt",
    "scenarios/generated.txt",
    "scenarios/lines.txt",
    "scenarios/lookups.txt",
    "scenarios/moves.txt",
    "scenarios/one_row.txt",
    "scenarios/opening.txt",
    "scenarios/rows.txt",
    "scenarios/sharing.txt",
];

// Takes a line, runs the scenario that ends with it, and tells where it differs.
fn take_line(
    rt: &HostRuntime,
    definitions: &Definitions,
    reader: &mut Reader,
    place: (&str, usize),
    line: &str,
    tally: &mut Tally,
) -> Result<(), Fault> {
    let Some(scenario) = reader.take(rt.alloc(), definitions, place.1, line)? else {
        return Ok(());
    };
    tally.cases = tally.cases.saturating_add(1);
    if let Some(outcome) = first_difference(rt.alloc(), &scenario)? {
        tally.differ = tally.differ.saturating_add(1);
        report::tell(rt, place.0, &scenario, &outcome)?;
    }
    Ok(())
}

// Runs the scenarios of a file, and tells each line that can't be read.
fn run_file(
    rt: &HostRuntime,
    definitions: &Definitions,
    file: &str,
    tally: &mut Tally,
) -> Result<(), Fault> {
    let text = fs::read_to_string(rt, file)?;
    let mut reader = Reader::new(rt.alloc())?;
    for (k, line) in text.as_str().lines().enumerate() {
        let place = (file, k.saturating_add(1));
        if let Err(fault) = take_line(rt, definitions, &mut reader, place, line, tally) {
            tally.differ = tally.differ.saturating_add(1);
            println!(rt; "{file}:{}: {}", place.1, fault.words())?;
        }
    }
    if reader.is_open() {
        tally.differ = tally.differ.saturating_add(1);
        println!(rt; "{file}: the last scenario has no status")?;
    }
    Ok(())
}

fn main(rt: HostRuntime) -> Result<(), Fault> {
    let definitions = Definitions::read(&rt)?;
    let mut tally = Tally::new();
    for file in FILES {
        run_file(&rt, &definitions, file, &mut tally)?;
    }
    tally.tell(&rt)
}
