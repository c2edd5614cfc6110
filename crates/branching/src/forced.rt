//! A choice that the edges decide, before any other.

ghost use Rattle.branching.specs.Refuted.{forced_or_most, side_left};

use crate::by_size::MostEdges;
use crate::strategy::Strategy;
use crate::view::CubeView;
use polygraph::ChoiceIx;
use pruning_laws::Side;

/// Picks the open choice of least number of which a side is refuted, that is, has an edge whose
/// target reaches its source by the known edges and those of the decided sides; where there is
/// none, the choice that `MostEdges` picks. It searches side two first where side one is refuted,
/// else side one.
#[derive(Clone, Copy)]
pub struct Forced;

impl Strategy for Forced {
    ghost use Rattle.branching.specs.Picked.{forced_is_open, forced_where_open};

    const NAME: &'static str = "forced";

    const USES_MARKS: bool = true;

    ghost picks = { λ _ v. forced_or_most v };

    ghost first_of = { λ _ v c. side_left v c };

    fn pick(&self, view: &CubeView<'_>) -> Option<ChoiceIx> {
        match view.first_forced() {
            Some(choice) => Some(choice),
            None => MostEdges.pick(view),
        }
    }

    fn first_side(&self, view: &CubeView<'_>, choice: ChoiceIx) -> Side {
        if view.is_refuted(choice, Side::One) {
            Side::Two
        } else {
            Side::One
        }
    }

    ghost picks_open = { λ _ v c e. forced_is_open v c e };

    ghost picks_some = { λ _ v e c. forced_where_open v e c };
}
