//! Tests of the service that no file of scenarios can say. There is nothing else in this crate.
#![tactic(auto)]

#[cfg(test)]
mod memory;
