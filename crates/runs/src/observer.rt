ghost use Rattle.std.specs.Prelude.{List};
ghost use Rattle.rules.specs.Drive.{Drive};
ghost use Rattle.runs.specs.declared.step.Step.{Step};
ghost use Rattle.runs.specs.Steps.{IsShown};

use crate::step::Step;
use table::calls::Calls;

/// Whoever watches a run.
pub trait Observer {
    // What comes of an observer, by the drive and the steps that it was shown. A run says that it was shown just the run's own
    // points, from the drive that was laid out on. An observer that says nothing of itself is told nothing.
    ghost saw: { Self → Drive → List Step → Self → Type 0 } = { λ _ _ _ _. Unit {0} };

    /// Is shown the table when it is laid out and after each call, with the steps made so far, and can only look.
    fn see<C: Calls>(&mut self, table: &C, made: &[Step])
        requires { IsShown (C.model table.now) made.now }
        ensures { saw self.old (C.model table.now) made.now self.new };
}

/// Watches nothing.
#[derive(Drop)]
pub struct Nobody;

impl Observer for Nobody {
    fn see<C: Calls>(&mut self, _table: &C, _made: &[Step]) {}
}
