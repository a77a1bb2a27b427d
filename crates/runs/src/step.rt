ghost use Rattle.std.specs.Prelude.{◌≡◌, Err};
ghost use Rattle.rules.specs.declared.cause.Cause.TheVariants.{Closed};

use rules::call::{Answer, Call};
use rules::cause::Cause;

/// A call of a run, and its answer once it is made.
#[derive(Clone, Copy)]
pub struct Step {
    pub call: Call,
    /// What it was answered; before that anything, since the run writes over it.
    pub answer: Answer,
}

impl Step {
    /// A call that is not made yet.
    pub fn of(call: Call) -> Step
        ensures { result ≡ record { call = call; answer = Err Closed } }
    {
        Step {
            call,
            answer: Err(Cause::Closed),
        }
    }
}
