//! The tests of dv_work, in a crate of their own so that the library is proved once: what no clause says, which is that
//! changes succeed with ample memory, and scenarios worked by hand.
#![tactic(auto)]

#[cfg(test)]
mod tests;
