//! Pairs of nodes of which it is not known that the first stands before the second, as bits.

ghost use Rattle.std.specs.Prelude.{◌≡◌, ◌≤◌, not, IfOk};
ghost use Rattle.std.specs.List.{Contains};
ghost use Rattle.serializability.specs.Polygraph.{Edge};
ghost use Rattle.order_cnf.specs.Cycles.{IsPairTable, AreOpenPairs};
ghost use Rattle.order_cnf.specs.Data.{is_listed};
ghost use Rattle.order_cnf.specs.Tables.{rows_known};
ghost use Rattle.serializability.specs.declared.node.TheConstants.{MAX_NODES};

use crate::relation::is_known;
use known_graph::BitTable;
use reach_rows::Rows;
use std::alloc::{AllocError, Global};

/// The pairs (u, v) of nodes 0 to n of which it is not known that u stands before v: a bit for each
/// of them in the row of u, and once more in the row of v.
#[derive(Drop)]
pub(crate) struct OpenPairs {
    pub by_first: BitTable,
    pub by_second: BitTable,
}

/// Sets the bits of the pairs of nodes 0 to n of which these rows do not say that the first stands
/// before the second.
fn set_open(nodes: usize, rows: &Option<Rows>, by_first: &mut BitTable, by_second: &mut BitTable)
    requires few { nodes ≤ MAX_NODES }
    requires nodes { (by_first.old.nodes ≡ nodes) × (by_second.old.nodes ≡ nodes) }
    requires none { (e : Edge) → (¬ Contains by_first.old.edges e)
        × (¬ Contains by_second.old.edges e) }
    ensures first { IsPairTable nodes (λ u v. not (is_listed (rows_known rows.now) u v))
        by_first.new }
    ensures second { IsPairTable nodes (λ v u. not (is_listed (rows_known rows.now) u v))
        by_second.new }
{
    for u in 0..nodes + 1 {
        for v in 0..nodes + 1 {
            if !is_known(rows, u, v) {
                by_first.set(u, v);
                by_second.set(v, u);
            }
        }
    }
}

impl OpenPairs {
    /// The pairs of nodes 0 to n of which these rows do not say that the first stands before the
    /// second.
    pub(crate) fn of(
        alloc: Global,
        nodes: usize,
        rows: &Option<Rows>,
    ) -> Result<OpenPairs, AllocError>
        requires few { nodes ≤ MAX_NODES }
        ensures pairs { IfOk result (AreOpenPairs
            (record { nodes = nodes; known = rows_known rows.now })) }
    {
        let mut by_first = BitTable::new(alloc, nodes)?;
        let mut by_second = BitTable::new(alloc, nodes)?;
        set_open(nodes, rows, &mut by_first, &mut by_second);
        Ok(OpenPairs {
            by_first,
            by_second,
        })
    }
}
