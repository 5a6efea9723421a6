//! Why a request, a definition or a store is refused: each refusal with its number, its members and its HTTP status.
//!
//! Callers may rely on this: each refusal has one number and one printed form, and its members say what it is about.
#![tactic(auto)]

mod details;
mod refusal;
mod what;

pub use refusal::Refusal;
pub use what::What;
