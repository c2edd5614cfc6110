//! Laws of every list of steps of the machine, each the contract of a function that does nothing.

ghost use Rattle.std.specs.Prelude.{◌≡◌, List, [], true};
ghost use Rattle.serializability.specs.Polygraph.{Polygraph};
ghost use Rattle.reach_laws.specs.Reach.{Graph, IsCyclic};
ghost use Rattle.pruning_laws.specs.Forced.{Sides, IsClosed};
ghost use Rattle.pruning_laws.specs.Ledger.{Entry as Kept};
ghost use Rattle.desk.specs.declared.history.Entry.{Entry};
ghost use Rattle.desk.specs.History.{IsLegal, replay};
ghost use Rattle.prune_ledger.specs.State.{State};
ghost use Rattle.prune_ledger.specs.Steps.{next_of, reply_of};
ghost use Rattle.prune_ledger.specs.Opening.{opening_state, reopened_state};
ghost use Rattle.prune_ledger.specs.Ledger.{kept_after, AreShown};
ghost use Rattle.prune_ledger.specs.Runs.{IsWhole, IsOpening, EachKeepsForced, Grown, ledger_of};
ghost use Rattle.prune_ledger.specs.declared.messages.PruneEvent.{PruneEvent};
ghost use Rattle.prune_ledger.specs.declared.messages.PruneReply.{PruneReply};

pub use crate::round::{Task, work};
pub use crate::rowed::RowedGraph;

/// The machine's opening state is one of the polygraph.
pub fn opening_state_is_opening()
    ensures { (p : Polygraph) → IsOpening p (opening_state p.choices
        (record { nodes = p.nodes; edges = p.known })) }
{}

/// After every list of steps from an opening state, whoever sends what, each side that a post kept
/// is forced: it is in each set of sides that is closed.
pub fn each_kept_side_is_forced()
    ensures { (p : Polygraph) → IsWhole p → (sides : Sides) → IsClosed p sides →
        (start : State) → IsOpening p start →
        (history : List (Entry PruneEvent PruneReply)) → IsLegal next_of reply_of start history →
        EachKeepsForced sides history }
{}

/// After every list of steps from an opening state the edges of a dead machine have a cycle.
pub fn dead_edges_are_cyclic()
    ensures { (p : Polygraph) → IsWhole p → (start : State) → IsOpening p start →
        (history : List (Entry PruneEvent PruneReply)) → IsLegal next_of reply_of start history →
        (replay next_of start history).dead ≡ true
        → IsCyclic (replay next_of start history).graph.edges }
{}

/// The posts that a history from an opening state entered are a valid ledger.
pub fn entered_posts_are_a_valid_ledger()
    ensures { (p : Polygraph) → IsWhole p → (start : State) → IsOpening p start →
        (history : List (Entry PruneEvent PruneReply)) → IsLegal next_of reply_of start history →
        AreShown p [] (ledger_of history) }
{}

/// From a state in which some sides are kept, as the first of a later round: each post that is
/// entered is shown by what was kept before, keeps a forced side, and the last state is one in
/// which these sides are kept too.
pub fn grown_states_grow()
    ensures shown { (p : Polygraph) → IsWhole p → (kept : List Kept) (start : State)
        → Grown p kept start →
        (history : List (Entry PruneEvent PruneReply)) → IsLegal next_of reply_of start history →
        AreShown p kept (ledger_of history) }
    ensures forced { (p : Polygraph) → IsWhole p → (sides : Sides) → IsClosed p sides →
        (kept : List Kept) (start : State) → Grown p kept start →
        (history : List (Entry PruneEvent PruneReply)) → IsLegal next_of reply_of start history →
        EachKeepsForced sides history }
    ensures last { (p : Polygraph) → IsWhole p → (kept : List Kept) (start : State)
        → Grown p kept start →
        (history : List (Entry PruneEvent PruneReply)) → IsLegal next_of reply_of start history →
        Grown p (kept_after kept (ledger_of history)) (replay next_of start history) }
    ensures opening { (p : Polygraph) → IsWhole p → (start : State) → IsOpening p start
        → Grown p [] start }
    ensures reopened { (p : Polygraph) (kept : List Kept) (s : State) → Grown p kept s →
        Grown p kept (reopened_state s) }
{}
