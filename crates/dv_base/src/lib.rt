//! The outside of the service: what gives bytes, what takes them, what gives moments, and how often each of them failed.
//!
//! The layers above rest on the clauses of [`Source`], [`Sink`] and [`Clock`] alone. A call answers [`Failed`] only where
//! the object's own count of faults rose in that call, and a call that succeeds leaves the count as it was. So code that
//! is generic over the traits can't make up a fault, and can't hide that it met one. What a source has left, what a sink
//! has written and which moments a clock still gives is told by the objects in memory, [`MemSource`], [`MemSink`] and
//! [`ListClock`]; the real ones, [`StdSource`], [`StdSink`] and [`SystemClock`], are a few lines over std's readers,
//! writers and clocks, and tell nothing of it.
#![tactic(auto)]

mod clock;
mod ends;
mod faults;
mod list_clock;
mod mem_sink;
mod mem_source;
mod sending;
mod std_sink;
mod std_source;
mod system_clock;

pub use clock::Clock;
pub use ends::{Ends, Sink, Source};
pub use faults::Failed;
pub use list_clock::ListClock;
pub use mem_sink::MemSink;
pub use mem_source::MemSource;
pub use sending::send;
pub use std_sink::StdSink;
pub use std_source::StdSource;
pub use system_clock::SystemClock;
