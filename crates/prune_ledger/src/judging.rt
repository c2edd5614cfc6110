//! Which sides of a choice are refuted.

ghost use Rattle.std.specs.Prelude.{◌≡◌, MatchOption, IfSome, IfNone};
ghost use Rattle.std.specs.List.{Contains, AllByRecursion};
ghost use Rattle.reach_laws.specs.Reach.{Graph};
ghost use Rattle.pruning_laws.specs.Forced.{IsRefuted};
ghost use Rattle.reach_rows.specs.ReachRows.{AreRowsOf};
ghost use Rattle.prune_ledger.specs.Rounds.{Refutes};

use polygraph::Choice;
use reach_laws::Edge;
use reach_rows::Rows;

/// Of each side an edge that goes against a walk, where the side has one and so is refuted.
#[derive(Clone, Copy, Debug, PartialEq, Eq)]
pub struct RefutedSides {
    pub one: Option<Edge>,
    pub two: Option<Edge>,
}

/// Judges both sides of a choice by the rows of a graph. It takes no memory.
pub fn judge(rows: &Rows, choice: &Choice) -> RefutedSides
    ensures one { (graph : Graph) → AreRowsOf rows.now graph → MatchOption result.one
        (¬ IsRefuted graph.edges choice.now.one) (Refutes graph.edges choice.now.one) }
    ensures two { (graph : Graph) → AreRowsOf rows.now graph → MatchOption result.two
        (¬ IsRefuted graph.edges choice.now.two) (Refutes graph.edges choice.now.two) }
{
    RefutedSides {
        one: refuting_edge(rows, choice.one()),
        two: refuting_edge(rows, choice.two()),
    }
}

/// An edge of the side of which the target reaches the source.
fn refuting_edge(rows: &Rows, side: &[Edge]) -> Option<Edge>
    ensures { (graph : Graph) → AreRowsOf rows.now graph → MatchOption result
        (¬ IsRefuted graph.edges side.now) (Refutes graph.edges side.now) }
{
    for &edge in side {
        if rows.reaches(edge.target(), edge.source()) {
            return Some(edge);
        }
    }
    None
}
