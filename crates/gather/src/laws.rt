//! What the definitions say of each other, each the contract of a function that does nothing.

ghost use Rattle.std.specs.Prelude.{ℕ, List};
ghost use Rattle.desk.specs.declared.history.Entry.{Entry};
ghost use Rattle.desk.specs.History.{IsLegal};
ghost use Rattle.gather.specs.declared.messages.GatherEvent.{GatherEvent as Sent};
ghost use Rattle.gather.specs.declared.messages.GatherReply.{GatherReply as Answer};
ghost use Rattle.gather.specs.Pieces.{Piece, IsPiece};
ghost use Rattle.gather.specs.Steps.{State, next_of, reply_of};
ghost use Rattle.gather.specs.Kept.{WasKept};

/// Over every list of steps, whoever makes them: what is kept for a block is a piece of it.
#[tactic(auto, using(crate::proofs::Legal::kept_pieces))]
pub fn kept_are_pieces()
    ensures { (start : State) (history : List (Entry Sent Answer))
        → IsLegal next_of reply_of start history
        → (k : ℕ) (p : Piece) → WasKept history k p → IsPiece start.log k p }
{}
