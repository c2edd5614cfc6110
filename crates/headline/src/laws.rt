//! Laws of logs and their formulas, each the contract of a function that does nothing.

ghost use Rattle.std.specs.Prelude.{◌≡◌, ℕ, List, Bool, None, Some};
ghost use Rattle.session_log.specs.Text.{ClientSession};
ghost use Rattle.serializability.specs.declared.anomaly.Anomaly.{Anomaly};
ghost use Rattle.serializability.specs.Reads.{IsClean};
ghost use Rattle.serializability.specs.Formula.{Satisfies};
ghost use Rattle.serializability.specs.Decoded.{before, IsDecoded};
ghost use Rattle.serializability.specs.Anomalies.{anomaly_of};
ghost use Rattle.log_definitions.specs.Serial.{IsSerialOrder, IsSomeOrder};
ghost use Rattle.log_definitions.specs.Numbers.{IsWellFormedList, log_of, plain_answer};

/// A well-formed log is clean where it has no anomaly; where it has one, no order of the committed
/// and some unknown transactions is serial.
pub fn anomalies_decide()
    ensures clean { (ss : List ClientSession) → IsWellFormedList ss
        → anomaly_of (log_of ss) ≡ None →
        IsClean (log_of ss) }
    ensures none { (ss : List ClientSession) → IsWellFormedList ss → (a : Anomaly) →
        anomaly_of (log_of ss) ≡ Some a → (order : List ℕ) → IsSomeOrder ss order → ⊥ }
{}

/// The plain formula of a well-formed log, or the contradiction where it has an anomaly, can be
/// satisfied exactly where some order of the committed and some unknown transactions is serial; and
/// what a satisfying assignment stands for is a serial order of the committed and the taken ones.
pub fn plain_answer_is_serializability()
    ensures some { (ss : List ClientSession) → IsWellFormedList ss → (order : List ℕ) →
        IsSomeOrder ss order → ((values : List Bool) × Satisfies values (plain_answer ss)) }
    ensures each { (ss : List ClientSession) → IsWellFormedList ss → (values : List Bool) →
        Satisfies values (plain_answer ss) → (order : List ℕ) →
        IsDecoded (plain_answer ss).nodes (before (plain_answer ss) values) order →
        IsSerialOrder ss order }
    ensures decodes { (ss : List ClientSession) → IsWellFormedList ss → (values : List Bool) →
        Satisfies values (plain_answer ss) →
        ((order : List ℕ) × IsDecoded (plain_answer ss).nodes
        (before (plain_answer ss) values) order) }
{}
