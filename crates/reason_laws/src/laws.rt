//! What the reasons mean, each law the contract of a function that does nothing.

ghost use Rattle.std.specs.Prelude.{◌⊎◌, ℕ, ◌<◌, List};
ghost use Rattle.std.specs.List.{Contains};
ghost use Rattle.session_log.specs.Text.{ClientSession};
ghost use Rattle.serializability.specs.Replay.{Before};
ghost use Rattle.serializability.specs.Reads.{IsClean};
ghost use Rattle.serializability.specs.Polygraph.{arcs};
ghost use Rattle.chain_laws.specs.Chains.{inner_edges, initial_first};
ghost use Rattle.log_definitions.specs.Serial.{IsSerialOrder};
ghost use Rattle.log_definitions.specs.Numbers.{IsWellFormedList, log_of};
ghost use Rattle.reason_laws.specs.Crossed.{AreCrossed};
ghost use Rattle.reason_laws.specs.declared.crossing.Crossing.{Crossing};
ghost use Rattle.reason_laws.specs.Reasons.{AreOfSession, IsReadBy, IsOverwrittenBy};
ghost use Rattle.reason_laws.specs.Reasons.{IsOfInitialBefore, EndsBefore};

/// Each reason holds in every serial order: the one transaction stands before the other.
pub fn reasons_are_kept()
    ensures session { (ss : List ClientSession) (order : List ℕ) → IsWellFormedList ss
        → IsSerialOrder ss order →
        (a b : ℕ) → AreOfSession ss a b → Before order a b }
    ensures read { (ss : List ClientSession) (order : List ℕ) → IsWellFormedList ss
        → IsSerialOrder ss order →
        (a i b j : ℕ) → IsReadBy ss a i b j → Before order a b }
    ensures overwritten { (ss : List ClientSession) (order : List ℕ) → IsWellFormedList ss
        → IsSerialOrder ss order →
        (a i b j : ℕ) → IsOverwrittenBy ss a i b j → Before order a b }
    ensures initial { (ss : List ClientSession) (order : List ℕ) → IsWellFormedList ss
        → IsSerialOrder ss order →
        (a i b j : ℕ) → IsOfInitialBefore ss a i b j → Before order a b }
    ensures ended { (ss : List ClientSession) (order : List ℕ) → IsWellFormedList ss
        → IsSerialOrder ss order →
        (a b : ℕ) → EndsBefore ss a b → Before order a b }
{}

/// Each edge between transactions that is known of a clean log's chains has a reason.
#[tactic(auto, using(crate::proofs::Found::arc_reason, crate::proofs::Found::inner_reason, crate::proofs::Found::initial_reason))]
pub fn known_edges_have_reasons()
    ensures arc { (ss : List ClientSession) → IsWellFormedList ss → IsClean (log_of ss) → (a b : ℕ)
        → 0 < a → Contains (arcs (log_of ss)) (a, b) →
        (AreOfSession ss a b ⊎ (((i : ℕ) × ((j : ℕ) × IsReadBy ss a i b j)) ⊎ EndsBefore ss a b)) }
    ensures inner { (ss : List ClientSession) → IsWellFormedList ss → IsClean (log_of ss)
        → (a b : ℕ) → 0 < a → Contains (inner_edges (log_of ss)) (a, b) →
        ((i : ℕ) × ((j : ℕ) × IsOverwrittenBy ss a i b j)) }
    ensures initial { (ss : List ClientSession) → IsWellFormedList ss → IsClean (log_of ss)
        → (a b : ℕ) → 0 < a → Contains (initial_first (log_of ss)) (a, b) →
        ((i : ℕ) × ((j : ℕ) × IsOfInitialBefore ss a i b j)) }
{}

/// Where all four pairs of two versions of a key and two of another are read, there is no serial
/// order.
pub fn crossed_reads_rule_out_orders()
    ensures none { (ss : List ClientSession) (order : List ℕ) → IsWellFormedList ss
        → IsSerialOrder ss order → (c : Crossing) → AreCrossed ss c → ⊥ }
{}
