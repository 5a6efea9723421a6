//! The next version, and what a fault of the store means to the caller.
ghost use Rattle.std.specs.Prelude.{◌≡◌, pos};
ghost use Rattle.dv_message.specs.Versions.{next_version, stop_of};

use crate::stop::Stop;
use dv_refusal::Refusal;
use dv_store::{Store, StoreFault};

/// The largest version: 2^63 - 1.
pub const LAST_VERSION: u64 = 9_223_372_036_854_775_807;

/// The next version; 0 where there is none.
pub fn next_version(store: &Store) -> i64
    ensures { result ≡ pos (next_version store.now.present) }
{
    let version = store.numbers().version;
    if version >= LAST_VERSION {
        0
    } else {
        version as i64 + 1
    }
}

/// What a fault of the store means to the caller.
#[tactic(auto, unfolding(crate::specs::Versions::stop_of))]
pub fn stop_of(fault: StoreFault) -> Stop
    ensures { result ≡ stop_of fault }
{
    match fault {
        StoreFault::Limit(what) => Stop::Refused(Refusal::Limit { what }),
        StoreFault::OutOfMemory => Stop::OutOfMemory,
    }
}
