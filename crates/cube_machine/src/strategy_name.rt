//! The strategies by name, as a command line has them; `branching` says what they do.

/// How a search picks the choice that it decides next.
#[derive(Clone, Copy, Debug, PartialEq, Eq)]
pub enum StrategyName {
    /// The first that is open.
    First,
    /// The first open one of those with the most edges.
    Most,
    /// The first open one of those with the least edges.
    Least,
    /// The first open one of which a side is refuted; where there is none, as `Most`.
    Forced,
}
