//! What pruning gives.

ghost use Rattle.std.specs.Prelude.{◌≡◌};
ghost use Rattle.prune_ledger.specs.Pruned.{IsReduced};
ghost use Rattle.reach_rows.specs.ReachRows.{AreRowsOf};

use crate::ledger::Ledger;
use polygraph::Polygraph;
use reach_rows::Rows;
use std::marker::Model;

/// What is left of a polygraph: its known edges with those of the forced sides, and the choices
/// that are open; which node reaches which by these edges; and the ledger of the forced sides. The
/// edges have no cycle, and they refute no side of a choice.
#[derive(Drop)]
pub struct Reduced {
    poly: Polygraph,
    rows: Rows,
    ledger: Ledger,
}

impl Model for Reduced {
    ghost use Rattle.prune_ledger.specs.Pruned.{Remainder, IsReduced};
    ghost use Rattle.reach_rows.specs.ReachRows.{AreRowsOf};

    ghost Value = { Remainder };

    ghost view = { λ r. record { poly = r.poly; rows = r.rows; ledger = r.ledger } };

    ghost invariant = { λ r. IsReduced r.poly
        × AreRowsOf r.rows (record { nodes = r.poly.nodes; edges = r.poly.known }) };
}

impl Reduced {
    pub(crate) fn new(poly: Polygraph, rows: Rows, ledger: Ledger) -> Reduced
        requires reduced { IsReduced poly }
        requires rows { AreRowsOf rows (record { nodes = poly.nodes; edges = poly.known }) }
        ensures { result ≡ record { poly = poly; rows = rows; ledger = ledger } }
    {
        Reduced { poly, rows, ledger }
    }

    /// The known and kept edges, and the open choices.
    pub fn poly(&self) -> &Polygraph
        ensures poly { result.now ≡ self.now.poly }
        ensures reduced { IsReduced self.now.poly }
    {
        &self.poly
    }

    /// Which node reaches which by these edges.
    pub fn rows(&self) -> &Rows
        ensures rows { result.now ≡ self.now.rows }
        ensures reach { AreRowsOf self.now.rows
            (record { nodes = self.now.poly.nodes; edges = self.now.poly.known }) }
    {
        &self.rows
    }

    /// The ledger of the forced sides.
    pub fn ledger(&self) -> &Ledger
        ensures { result.now ≡ self.now.ledger }
    {
        &self.ledger
    }

    /// The polygraph, the rows and the ledger, given back.
    pub fn into_parts(self) -> (Polygraph, Rows, Ledger)
        ensures poly { result.0 ≡ self.poly }
        ensures rows { result.1 ≡ self.rows }
        ensures ledger { result.2 ≡ self.ledger }
    {
        let Reduced { poly, rows, ledger } = self;
        (poly, rows, ledger)
    }
}

/// What pruning gives.
#[derive(Drop)]
pub enum Pruned {
    /// No order fits, by this ledger with a cycle.
    Dead(Ledger),
    /// What is left of the polygraph.
    Open(Reduced),
}
