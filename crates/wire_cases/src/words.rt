//! Words: `operator "WORD"`, `join "WORD"`, `message "WORD"`, and `operators` and `joins` for all words of those.
use case_notation::{Fault, bytes_of};
use dv_query::{Join, Operator};
use dv_wire::knows;
use std::alloc::{AllocError, Global};

/// What a word says, or all words.
pub fn word(alloc: Global, input: &str) -> Result<String, Fault> {
    if let Some(word) = quoted(input, "operator \"") {
        return Ok(operator(alloc, word)?);
    }
    if let Some(word) = quoted(input, "join \"") {
        return Ok(join(alloc, word)?);
    }
    if let Some(word) = quoted(input, "message \"") {
        return message(alloc, word);
    }
    match input {
        "operators" => Ok(operators(alloc)?),
        "joins" => Ok(joins(alloc)?),
        _ => Err(Fault::Wrong("no word is asked for")),
    }
}

fn quoted<'a>(input: &'a str, before: &str) -> Option<&'a str> {
    input.strip_prefix(before)?.strip_suffix('"')
}

// The name of the operator of a word, and its own word where that is another.
fn operator(alloc: Global, word: &str) -> Result<String, AllocError> {
    match Operator::parse(word) {
        Some(operator) if operator.word() == word => format!(in alloc; "{operator:?}"),
        Some(operator) => String::from_str(alloc, operator.word()),
        None => String::from_str(alloc, "none"),
    }
}

// The name of the way to join of a word, and its own word where that is another.
fn join(alloc: Global, word: &str) -> Result<String, AllocError> {
    match Join::parse(word) {
        Some(join) if join.word() == word => format!(in alloc; "{join:?}"),
        Some(join) => String::from_str(alloc, join.word()),
        None => String::from_str(alloc, "none"),
    }
}

// Whether a word is that of a message.
fn message(alloc: Global, word: &str) -> Result<String, Fault> {
    let is_known = knows(bytes_of(alloc, word)?.as_slice());
    Ok(String::from_str(alloc, if is_known { "yes" } else { "no" })?)
}

fn operators(alloc: Global) -> Result<String, AllocError> {
    let mut words = String::new(alloc);
    for operator in Operator::ALL {
        add_word(&mut words, operator.word())?;
    }
    Ok(words)
}

fn joins(alloc: Global) -> Result<String, AllocError> {
    let mut words = String::new(alloc);
    for join in Join::ALL {
        add_word(&mut words, join.word())?;
    }
    Ok(words)
}

fn add_word(words: &mut String, word: &str) -> Result<(), AllocError> {
    if !words.is_empty() {
        words.push(' ')?;
    }
    words.push_str(word)
}
