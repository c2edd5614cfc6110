//! What the strategies pick.

ghost use Rattle.std.specs.Prelude.{◌≡◌, ◌↔◌, ℕ, Some};
ghost use Rattle.pruning_laws.specs.declared.side.Side.TheVariants.{One, Two};
ghost use Rattle.branching.specs.View.{View};
ghost use Rattle.branching.specs.Picks.{most_edges, least_edges};
ghost use Rattle.branching.specs.Meant.{HasMost, HasFewest};
ghost use Rattle.branching.specs.Refuted.{forced_or_most, side_left};
ghost use Rattle.branching.specs.Forced.{IsRefutedSide, HasForcedOrMost};
ghost use Rattle.branching.specs.Held.{IsView};

/// `MostEdges` picks an open choice such that no open one has more edges, and each open one of
/// lesser number has fewer.
pub fn most_edges_are_most()
    ensures { (v : View) (c : ℕ) → most_edges v ≡ Some c → HasMost v c }
{}

/// `LeastEdges` picks an open choice such that no open one has fewer edges, and each open one of
/// lesser number has more.
pub fn least_edges_are_fewest()
    ensures { (v : View) (c : ℕ) → least_edges v ≡ Some c → HasFewest v c }
{}

/// `Forced` picks an open choice of which a side is refuted, such that no open one of lesser number
/// has such a side; where no open choice has one, it picks as `MostEdges` does.
pub fn forced_choices_come_first()
    ensures { (v : View) (c : ℕ) → IsView v → forced_or_most v ≡ Some c → HasForcedOrMost v c }
{}

/// `Forced` searches side two of a choice first exactly where side one is refuted.
pub fn refuted_sides_come_last()
    ensures { (v : View) (c : ℕ) → IsView v → (side_left v c ≡ Two ↔ IsRefutedSide v c One) }
{}
