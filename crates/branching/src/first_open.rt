//! The open choice of least number.

ghost use Rattle.branching.specs.Picks.{first_open};

use crate::strategy::Strategy;
use crate::view::CubeView;
use polygraph::ChoiceIx;
use pruning_laws::Side;

/// Picks the open choice of least number, and searches side one first.
#[derive(Clone, Copy)]
pub struct FirstOpen;

impl Strategy for FirstOpen {
    ghost use Rattle.pruning_laws.specs.declared.side.Side.TheVariants.{One};
    ghost use Rattle.branching.specs.Picked.{first_is_open, first_where_open};

    const NAME: &'static str = "first";

    const USES_MARKS: bool = false;

    ghost picks = { λ _ v. first_open v };

    ghost first_of = { λ _ _ _. One };

    fn pick(&self, view: &CubeView<'_>) -> Option<ChoiceIx> {
        view.next_open(0)
    }

    fn first_side(&self, _view: &CubeView<'_>, _choice: ChoiceIx) -> Side {
        Side::One
    }

    ghost picks_open = { λ _ v c e. first_is_open v c e };

    ghost picks_some = { λ _ v e c. first_where_open v e c };
}
