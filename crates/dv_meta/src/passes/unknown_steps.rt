//! Fault UnknownStep: a registration of a step that the program doesn't have.
ghost use Rattle.std.specs.Prelude.{◌≡◌, position};
ghost use Rattle.dv_meta.specs.Steps.{step_unknown, unknown_step};

use dv_schema::{Draft, Place};

/// The first registration of a step that isn't there.
#[tactic(auto, unfolding(crate::specs::Steps::unknown_step))]
pub(crate) fn unknown_step(draft: &Draft, steps: usize) -> Option<Place>
    ensures { result ≡ unknown_step steps draft.now }
{
    match first_unknown_step(draft, steps) {
        Some(k) => Some(Place::Registration(k)),
        None => None,
    }
}

fn first_unknown_step(draft: &Draft, steps: usize) -> Option<usize>
    ensures { result ≡ position (step_unknown steps) draft.now.steps }
{
    let registrations = draft.steps.as_slice();
    registrations.iter().position(|g| !(g.step < steps))
}
