//! The record service of an organisation: lines of JSON on standard input, a line of JSON on standard output for each.
#![tactic(auto)]

use dv_base::{StdSink, StdSource, SystemClock};
use dv_service::{Status, top};
use std::process::ExitCode;
use std::{env, io};

// The words after the program's name.
fn words_of(rt: &HostRuntime) -> io::Result<Vec<String>> {
    let mut words = Vec::new(rt.alloc());
    for word in env::args(rt)?.skip(1) {
        words.push(word)?;
    }
    Ok(words)
}

fn main(rt: HostRuntime) -> ExitCode {
    let words = match words_of(&rt) {
        Ok(words) => words,
        Err(error) if error.kind() == io::ErrorKind::OutOfMemory => return ExitCode::from(9),
        // A word that isn't UTF-8 is in no command.
        Err(_) => return ExitCode::from(2),
    };
    let mut input = StdSource::new(rt.stdin());
    let mut output = StdSink::new(rt.stdout());
    let mut clock = SystemClock::new(&rt);
    let Status(code) = top(
        rt.alloc(),
        words.as_slice(),
        &mut input,
        &mut output,
        &mut clock,
    );
    ExitCode::from(code)
}
