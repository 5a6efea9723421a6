//! Runs the cases of requests and replies in data/, and tells how many there are and which of them differ.
#![tactic(auto)]

mod bodies;
mod fields;
mod kind;
mod refusing;
mod replying;
mod requests;
mod words;

use case_notation::{Fault, Tally, run};
use kind::Kind;

// The files of cases, and what each has.
const FILES: [(&str, Kind); 6] = [
    ("requests.txt", Kind::Request),
    ("faults.txt", Kind::Fault),
    ("bodies.txt", Kind::Body),
    ("words.txt", Kind::Word),
    ("replies.txt", Kind::Reply),
    ("refusals.txt", Kind::Reply),
];

fn main(rt: HostRuntime) -> Result<(), Fault> {
    let mut tally = Tally::new();
    for (file, kind) in FILES {
        run(&rt, file, &kind, &mut tally)?;
    }
    tally.tell(&rt)
}
