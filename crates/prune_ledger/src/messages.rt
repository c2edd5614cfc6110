//! What workers send to the machine, and what it answers.

use polygraph::ChoiceIx;
use pruning_laws::Side;
use reach_laws::Edge;
use serializability::NodeIx;
use std::marker::Model;

/// Which sides of a choice are refused, and whether it was handed out in this round.
#[derive(Clone, Copy, Debug, PartialEq, Eq)]
pub struct ChoiceState {
    pub one: bool,
    pub two: bool,
    pub handed: bool,
}

/// Why a side of a choice is refuted: an edge of it, and the nodes of a walk against the edge, from
/// its target to its source, both included.
#[derive(Drop)]
pub struct Refutation {
    pub choice: ChoiceIx,
    pub side: Side,
    pub edge: Edge,
    pub walk: Vec<NodeIx>,
}

impl Model for Refutation {
    ghost use Rattle.prune_ledger.specs.Posted.{Posted};

    ghost Value = { Posted };

    ghost view = { λ r. record {
      choice = r.choice;
      side = r.side;
      edge = r.edge;
      walk
          = r.walk.items;
    } };
}

/// What a worker sends.
#[derive(Drop)]
pub enum PruneEvent {
    /// Asks for a choice to judge.
    Take,
    /// Posts a refuted side.
    Post(Refutation),
    /// Says that neither side of the choice is refuted.
    Pass(ChoiceIx),
    /// Leaves.
    Release,
}

/// What the machine answers.
#[derive(Clone, Copy, Debug, PartialEq, Eq)]
pub enum PruneReply {
    /// The choice that is to be judged.
    Judge(ChoiceIx),
    /// Each choice was handed out in this round, or has a refused side.
    NoneLeft,
    /// The side is refused from now on, and the other side is kept.
    Entered,
    /// The side was refused before.
    AlreadyIn,
    /// There is no such choice, the edge is not in the side, or the walk does not lead against it.
    BadWalk,
    /// The passed choice was noted.
    Noted,
    /// The answer to `Release`.
    Released,
    /// Some choice has both sides refused, so no order fits.
    Dead,
}
