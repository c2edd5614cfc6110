//! The open choice with the most or the fewest edges.

ghost use Rattle.branching.specs.Picks.{most_edges, least_edges};

use crate::strategy::Strategy;
use crate::view::CubeView;
use polygraph::ChoiceIx;
use pruning_laws::Side;

/// Picks the open choice with the most edges on both sides together, of several the one of least
/// number, and searches side one first.
#[derive(Clone, Copy)]
pub struct MostEdges;

/// Picks the open choice with the fewest edges on both sides together, of several the one of least
/// number, and searches side one first.
#[derive(Clone, Copy)]
pub struct LeastEdges;

impl Strategy for MostEdges {
    ghost use Rattle.pruning_laws.specs.declared.side.Side.TheVariants.{One};
    ghost use Rattle.branching.specs.Picked.{most_is_open, most_where_open};

    const NAME: &'static str = "most";

    const USES_MARKS: bool = false;

    ghost picks = { λ _ v. most_edges v };

    ghost first_of = { λ _ _ _. One };

    fn pick(&self, view: &CubeView<'_>) -> Option<ChoiceIx> {
        let mut best = view.next_open(0)?;
        let mut from = best.get() + 1;
        while view.edge_count(best) < view.most_edges() {
            let Some(choice) = view.next_open(from) else {
                break;
            };
            if view.edge_count(best) < view.edge_count(choice) {
                best = choice;
            }
            from = choice.get() + 1;
        }
        Some(best)
    }

    fn first_side(&self, _view: &CubeView<'_>, _choice: ChoiceIx) -> Side {
        Side::One
    }

    ghost picks_open = { λ _ v c e. most_is_open v c e };

    ghost picks_some = { λ _ v e c. most_where_open v e c };
}

impl Strategy for LeastEdges {
    ghost use Rattle.pruning_laws.specs.declared.side.Side.TheVariants.{One};
    ghost use Rattle.branching.specs.Picked.{least_is_open, least_where_open};

    const NAME: &'static str = "least";

    const USES_MARKS: bool = false;

    ghost picks = { λ _ v. least_edges v };

    ghost first_of = { λ _ _ _. One };

    #[tactic(auto, using(crate::proofs::Counted::least_found))]
    fn pick(&self, view: &CubeView<'_>) -> Option<ChoiceIx> {
        let mut best = view.next_open(0)?;
        let mut from = best.get() + 1;
        while view.fewest_edges() < view.edge_count(best) {
            let Some(choice) = view.next_open(from) else {
                break;
            };
            if view.edge_count(choice) < view.edge_count(best) {
                best = choice;
            }
            from = choice.get() + 1;
        }
        Some(best)
    }

    fn first_side(&self, _view: &CubeView<'_>, _choice: ChoiceIx) -> Side {
        Side::One
    }

    ghost picks_open = { λ _ v c e. least_is_open v c e };

    ghost picks_some = { λ _ v e c. least_where_open v e c };
}
