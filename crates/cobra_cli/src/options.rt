//! What may be asked of a command beside its input.

ghost use Rattle.std.specs.Prelude.{◌≡◌};

use cube_machine::Budget;
use deciding::{Means, StrategyName};
use desk::seat_no::Workers;

/// What may be asked of a command beside its input.
#[derive(Clone, Copy)]
pub struct Options {
    /// The plain formula was asked for, in place of the reduced one.
    pub plain: bool,
    /// How many workers read the log, prune and search.
    pub workers: Workers,
    /// How a search picks choices.
    pub strategy: StrategyName,
    /// How many cubes a search may close.
    pub budget: Budget,
}

impl Options {
    /// What a decision may use.
    pub(crate) fn means(&self) -> Means
        ensures budget { result.budget ≡ self.now.budget }
    {
        Means {
            workers: self.workers,
            strategy: self.strategy,
            budget: self.budget,
        }
    }
}
