//! Runs the cases of data/: queries on the tables of one definition, each accepted or with its first fault, and
//! queries with numbers in place of names.
#![tactic(auto)]

mod forms;
mod queries;

use case_notation::{Fault, Tally, run};
use forms::Forms;
use queries::Queries;

// The files of cases. Each begins with what it shows.
const FILES: [&str; 8] = [
    "parts",
    "limits",
    "columns",
    "links",
    "aliases",
    "conditions",
    "operators",
    "orders",
];

fn main(rt: HostRuntime) -> Result<(), Fault> {
    let queries = Queries::read(&rt, "base.json")?;
    let mut tally = Tally::new();
    for file in FILES {
        run(&rt, file, &queries, &mut tally)?;
    }
    let forms = Forms { queries: &queries };
    run(&rt, "forms", &forms, &mut tally)?;
    tally.tell(&rt)
}
