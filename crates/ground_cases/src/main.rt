//! Runs the cases of values and of HTTP messages in data/, and tells how many there are and which of them differ.
#![tactic(auto)]

mod http;
mod kind;
mod limits;
mod made_up;
mod notation;
mod numbers;
mod values;

use case_notation::{Fault, Tally, run};
use kind::Kind;

// The files of cases, and what each has.
const FILES: [(&str, Kind); 8] = [
    ("moments.txt", Kind::Value),
    ("amounts.txt", Kind::Value),
    ("spellings.txt", Kind::Value),
    ("order.txt", Kind::Value),
    ("typing.txt", Kind::Value),
    ("tokens.txt", Kind::Value),
    ("http.txt", Kind::Http),
    ("made_up.txt", Kind::MadeUp),
];

fn main(rt: HostRuntime) -> Result<(), Fault> {
    let mut tally = Tally::new();
    for (file, kind) in FILES {
        run(&rt, file, &kind, &mut tally)?;
    }
    tally.tell(&rt)
}
