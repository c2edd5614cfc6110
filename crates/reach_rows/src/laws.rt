//! A law of rows, the contract of a function that does nothing.

ghost use Rattle.std.specs.Prelude.{◌≡◌};
ghost use Rattle.reach_laws.specs.Reach.{Graph};
ghost use Rattle.reach_rows.specs.ReachRows.{AreRowsOf};

/// A graph has one value as its rows, whoever computes them.
pub fn rows_of_a_graph_are_one()
    ensures { (one other graph : Graph) → AreRowsOf one graph → AreRowsOf other graph
        → one ≡ other }
{}
