//! The law of a census, the contract of a function that does nothing.

ghost use Rattle.std.specs.Prelude.{◌<◌, List};
ghost use Rattle.session_log.specs.Text.{ClientSession};
ghost use Rattle.log_definitions.specs.Unknown.{resolved};
ghost use Rattle.log_laws.specs.Logs.{HasOrder, IsSoundLog};
ghost use Rattle.census.specs.Census.{IsCensus};
ghost use Rattle.census.specs.Text.{total_of};
ghost use Rattle.census.specs.declared.numbers.Census.{Census};

/// A sound log whose census, outcomes being known, counts a fault has no serial order.
pub fn no_order_where_counted()
    ensures none { (ss : List ClientSession) (c : Census) → IsSoundLog ss
        → IsCensus (resolved ss) c → 0 < total_of c → HasOrder ss → ⊥ }
{}
