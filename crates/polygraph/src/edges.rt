//! The edges of a side.

ghost use Rattle.std.specs.Prelude.{◌≡◌, [], ◌∷◌};

use reach_laws::Edge;
use std::marker::Model;
use std::slice;

/// The edges of a side, in order. A single edge takes no memory of its own.
#[derive(Drop)]
pub struct Edges {
    kept: Kept,
}

#[derive(Drop)]
enum Kept {
    Single(Edge),
    Many(Vec<Edge>),
}

impl Model for Edges {
    ghost use Rattle.std.specs.Prelude.{List};
    ghost use Rattle.serializability.specs.Polygraph.{Edge};

    ghost Value = { List Edge };

    ghost use Rattle.polygraph.specs.Sides.{edges_in};

    ghost view = { λ e. edges_in e.kept };
}

impl Edges {
    /// This edge alone.
    pub fn single(edge: Edge) -> Edges
        ensures { result ≡ edge ∷ [] }
    {
        Edges {
            kept: Kept::Single(edge),
        }
    }

    /// The edges of a vector.
    pub fn many(edges: Vec<Edge>) -> Edges
        ensures { result ≡ edges.items }
    {
        Edges {
            kept: Kept::Many(edges),
        }
    }

    /// The edges.
    pub fn as_slice(&self) -> &[Edge]
        ensures { result.now ≡ self.now }
    {
        match &self.kept {
            Kept::Single(edge) => slice::from_ref(edge),
            Kept::Many(edges) => edges,
        }
    }
}
