//! Two strategies in turn.

ghost use Rattle.std.specs.Prelude.{◌≡◌, if◌then◌else◌};
ghost use Rattle.branching.specs.Picks.{is_even_depth};

use crate::strategy::Strategy;
use crate::view::CubeView;
use polygraph::ChoiceIx;
use pruning_laws::Side;
use std::marker::Model;

/// Goes by the one strategy at even depths, and by the other at odd ones.
#[derive(Drop)]
pub struct Alternate<A, B> {
    even: A,
    odd: B,
}

impl<A, B> Model for Alternate<A, B> {
    ghost Value = { A × B };

    ghost view = { λ s. (s.even, s.odd) };
}

impl<A, B> Alternate<A, B> {
    /// The strategy of these two.
    pub fn new(even: A, odd: B) -> Alternate<A, B>
        ensures strategies { result ≡ (even, odd) }
    {
        Alternate { even, odd }
    }
}

impl<A: Strategy, B: Strategy> Strategy for Alternate<A, B> {
    ghost use Rattle.branching.specs.Picked.{either_open, either_where_open};

    const NAME: &'static str = "alternate";

    const USES_MARKS: bool = A::USES_MARKS || B::USES_MARKS;

    ghost picks = { λ s v. if is_even_depth v then A.picks s.0 v else B.picks s.1 v };

    ghost first_of = { λ s v c. if is_even_depth v then A.first_of s.0 v c else B.first_of s.1 v
        c };

    fn pick(&self, view: &CubeView<'_>) -> Option<ChoiceIx> {
        if view.depth() % 2 == 0 {
            self.even.pick(view)
        } else {
            self.odd.pick(view)
        }
    }

    fn first_side(&self, view: &CubeView<'_>, choice: ChoiceIx) -> Side {
        if view.depth() % 2 == 0 {
            self.even.first_side(view, choice)
        } else {
            self.odd.first_side(view, choice)
        }
    }

    ghost picks_open = { λ s v c e. either_open (A.picks s.0) (B.picks s.1) (A.picks_open s.0)
        (B.picks_open s.1) v c e };

    ghost picks_some = { λ s v e c. either_where_open (A.picks s.0) (B.picks s.1) (A.picks_some s.0)
        (B.picks_some s.1) v e c };
}
