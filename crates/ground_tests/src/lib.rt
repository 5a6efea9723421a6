//! Tests of the ground floor that no file of cases can say: the ends of streams and the clocks, short and failing. They stand
//! outside the libraries, so that no library is proved twice.
#![tactic(auto)]

#[cfg(test)]
mod clocks;
#[cfg(test)]
mod ends;
