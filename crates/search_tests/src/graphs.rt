//! Graphs and polygraphs of few nodes.

ghost use Rattle.std.specs.Prelude.{◌≡◌};
ghost use Rattle.std.specs.List.{AllByRecursion};
ghost use Rattle.polygraph.specs.Polygraphs.{Joins, JoinsBoth};

use known_graph::Known;
use polygraph::{Choice, ChoiceIx, Edges, Polygraph};
use reach_laws::Edge;
use serializability::NodeIx;
use std::alloc::Global;
use std::process::Abort;

pub type Ends = (usize, usize);

pub fn node(rt: &impl Abort, number: usize) -> NodeIx
    ensures { result ≡ number }
{
    NodeIx::new(number).expect(rt, "a node")
}

fn edge(rt: &impl Abort, nodes: usize, ends: Ends) -> Edge
    ensures { Joins nodes result }
{
    assert!(rt; ends.0 <= nodes && ends.1 <= nodes && ends.0 != ends.1);
    Edge::new(node(rt, ends.0), node(rt, ends.1))
}

/// A side of one edge.
pub fn single(rt: &impl Abort, nodes: usize, ends: Ends) -> Edges
    ensures { AllByRecursion (Joins nodes) result }
{
    Edges::single(edge(rt, nodes, ends))
}

/// A side of two edges.
pub fn double(rt: &impl Abort, alloc: Global, nodes: usize, first: Ends, second: Ends) -> Edges
    ensures { AllByRecursion (Joins nodes) result }
{
    let edges = [edge(rt, nodes, first), edge(rt, nodes, second)];
    Edges::many(Vec::from_array(alloc, edges).expect(rt, "memory"))
}

fn join(rt: &impl Abort, known: &mut Known, ends: Ends) {
    let (u, v) = (node(rt, ends.0), node(rt, ends.1));
    assert!(rt; u.get() <= known.nodes() && v.get() <= known.nodes());
    known.add_edge(u, v);
}

pub fn known(rt: &impl Abort, alloc: Global, nodes: usize, edges: &[Ends]) -> Known
    ensures { result.nodes ≡ nodes }
{
    assert!(rt; nodes <= 1_000);
    let mut known = Known::new(alloc, nodes).expect(rt, "memory");
    for ends in edges {
        join(rt, &mut known, *ends);
    }
    assert_eq!(rt; known.nodes(), nodes);
    known
}

pub const PATHS: [Ends; 8] = [
    (1, 5),
    (3, 5),
    (1, 6),
    (4, 6),
    (2, 7),
    (3, 7),
    (2, 8),
    (4, 8),
];

/// A choice of two edges a side between eight nodes.
fn of_eight(rt: &impl Abort, alloc: Global, one: (Ends, Ends), two: (Ends, Ends)) -> Choice
    ensures { JoinsBoth 8 result }
{
    let first = double(rt, alloc, 8, one.0, one.1);
    Choice::new(first, double(rt, alloc, 8, two.0, two.1))
}

/// Eight transactions: 1 and 2 write x, 3 and 4 write y, and 5 to 8 read one of each. Each reader
/// that reads 1 stands before 2, or else each that reads 2 stands before 1; and so for 3 and 4. Each
/// way to decide both choices closes a cycle.
pub fn eight_nodes(rt: &impl Abort, alloc: Global) -> Polygraph {
    let first = of_eight(rt, alloc, ((5, 2), (6, 2)), ((7, 1), (8, 1)));
    let second = of_eight(rt, alloc, ((5, 4), (7, 4)), ((6, 3), (8, 3)));
    let choices = Vec::from_array(alloc, [first, second]).expect(rt, "memory");
    Polygraph::new(known(rt, alloc, 8, &PATHS), choices)
}

pub fn index(rt: &impl Abort, number: usize) -> ChoiceIx
    ensures { result ≡ number }
{
    ChoiceIx::new(number).expect(rt, "a choice")
}

/// A choice of either order of two nodes.
pub fn either(rt: &impl Abort, nodes: usize, ends: Ends) -> Choice
    ensures { JoinsBoth nodes result }
{
    let turned = single(rt, nodes, (ends.1, ends.0));
    Choice::new(single(rt, nodes, ends), turned)
}
