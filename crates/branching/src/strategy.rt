//! What a strategy answers: by which choice a cube is split, and which side is searched first.

ghost use Rattle.std.specs.Prelude.{◌≡◌, ℕ, ◌<◌, Some, None, true, false, Option, length};
ghost use Rattle.pruning_laws.specs.declared.side.Side as side;
ghost use Rattle.branching.specs.View.{View, is_open_in};

use crate::view::CubeView;
use polygraph::ChoiceIx;
use pruning_laws::Side;

/// How a search goes on at a cube: by which choice it is split, and which side is searched first.
///
/// Both answers follow from the view alone: views that are equal for a contract give equal answers.
pub trait Strategy: Sync {
    /// The strategy's word.
    const NAME: &'static str;

    /// Whether the strategy looks for choices of which a side is refuted, so that a view is to keep
    /// marks of these. Its answers are the same without them, and take longer.
    const USES_MARKS: bool;

    /// The choice that is picked, by its number, where one is.
    ghost picks: { Self → View → Option ℕ };

    /// The side that is searched first.
    ghost first_of: { Self → View → ℕ → side.Side };

    /// The choice by which the cube is split: an open one, or none where none is open. It takes no
    /// memory.
    fn pick(&self, view: &CubeView<'_>) -> Option<ChoiceIx>
        ensures pick { result ≡ picks self.now view.now };

    /// The side of the choice that is searched first. It takes no memory.
    fn first_side(&self, view: &CubeView<'_>, choice: ChoiceIx) -> Side
        requires choice { choice < length view.now.sides }
        ensures side { result ≡ first_of self.now view.now choice };

    /// A choice that is picked is open.
    ghost picks_open: { (s : Self) (v : View) (c : ℕ) → picks s v ≡ Some c
        → is_open_in v c ≡ true };

    /// None is picked only where none is open.
    ghost picks_some: { (s : Self) (v : View) → picks s v ≡ None → (c : ℕ)
        → is_open_in v c ≡ false };
}
