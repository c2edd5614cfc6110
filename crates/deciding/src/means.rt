//! What a decision may use.

use cube_machine::{Budget, StrategyName};
use desk::seat_no::Workers;

/// What a decision may use.
#[derive(Clone, Copy)]
pub struct Means {
    /// How many workers prune and search.
    pub workers: Workers,
    /// How a search picks choices.
    pub strategy: StrategyName,
    /// How many cubes a search may close.
    pub budget: Budget,
}
