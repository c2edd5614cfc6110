//! Laws of anomalies, each the contract of a function that does nothing.

ghost use Rattle.std.specs.Prelude.{◌≡◌, ◌⊎◌, ◌↔◌, ℕ, ◌<◌, List, Some, None};
ghost use Rattle.serializability.specs.declared.anomaly.Anomaly.{Anomaly};
ghost use Rattle.serializability.specs.declared.anomaly.Anomaly.TheVariants.{Read, LostUpdate};
ghost use Rattle.serializability.specs.declared.anomaly.ReadAnomaly.{ReadAnomaly};
ghost use Rattle.serializability.specs.declared.anomaly.ReadAnomaly.TheVariants.{Unknown, Aborted};
ghost use Rattle.serializability.specs.declared.anomaly.ReadAnomaly.TheVariants.{Intermediate};
ghost use Rattle.serializability.specs.declared.anomaly.ReadAnomaly.TheVariants.{OwnWriteMissed};
ghost use Rattle.serializability.specs.declared.anomaly.ReadAnomaly.TheVariants.{Future, Split};
ghost use Rattle.serializability.specs.Log.{Log};
ghost use Rattle.serializability.specs.Replay.{IsSerial};
ghost use Rattle.serializability.specs.Reads.{IsNumbered, IsClean};
ghost use Rattle.serializability.specs.Anomalies.{anomaly_of};
ghost use Rattle.anomaly_laws.specs.Meaning.{ReadAt, IsUnknownRead, IsAbortedRead};
ghost use Rattle.anomaly_laws.specs.Meaning.{IsIntermediateRead, IsOwnWriteMissed, IsFutureRead};
ghost use Rattle.anomaly_laws.specs.Meaning.{IsSplitRead, IsNoAnomaly, IsUpdate};

/// A well-formed log has no anomaly exactly where it is clean.
pub fn clean_exactly_where_no_anomaly()
    ensures clean { (log : Log) → IsNumbered log →
        (anomaly_of log ≡ None ↔ IsClean log) }
{}

/// A well-formed log with an anomaly has no serial order.
pub fn no_serial_order_with_an_anomaly()
    ensures none { (log : Log) → IsNumbered log → (a : Anomaly) →
        anomaly_of log ≡ Some a → (order : List ℕ) → IsSerial log order → ⊥ }
{}

/// The anomaly that is reported is what its name says, and no read before it is one. Where a lost
/// update is reported no read is an anomaly.
pub fn reported_anomaly_holds()
    ensures unknown { (log : Log) (v k : ℕ) → anomaly_of log ≡ Some (Read Unknown v k) →
        ((r : ReadAt log v k) × IsUnknownRead r) }
    ensures aborted { (log : Log) (v k : ℕ) → anomaly_of log ≡ Some (Read Aborted v k) →
        ((r : ReadAt log v k) × IsAbortedRead r) }
    ensures intermediate { (log : Log) (v k : ℕ) → anomaly_of log ≡ Some (Read Intermediate v k) →
        ((r : ReadAt log v k) × IsIntermediateRead r) }
    ensures own_write_missed { (log : Log) (v k : ℕ) →
        anomaly_of log ≡ Some (Read OwnWriteMissed v k) →
        ((r : ReadAt log v k) × IsOwnWriteMissed r) }
    ensures future { (log : Log) (v k : ℕ) → anomaly_of log ≡ Some (Read Future v k) →
        ((r : ReadAt log v k) × IsFutureRead r) }
    ensures split { (log : Log) (v k : ℕ) → anomaly_of log ≡ Some (Read Split v k) →
        ((r : ReadAt log v k) × IsSplitRead r) }
    ensures first { (log : Log) (kind : ReadAnomaly) (v k : ℕ) →
        anomaly_of log ≡ Some (Read kind v k) → (u j : ℕ) → (u < v) ⊎ ((u ≡ v) × (j < k)) →
        (r : ReadAt log u j) → IsNoAnomaly r }
    ensures lost_update { (log : Log) (x u a b : ℕ) → anomaly_of log ≡ Some (LostUpdate x u a b) →
        ((a < b) × IsUpdate log x u a × IsUpdate log x u b) }
    ensures reads_first { (log : Log) (x u a b : ℕ) → anomaly_of log ≡ Some (LostUpdate x u a b) →
        (v k : ℕ) (r : ReadAt log v k) → IsNoAnomaly r }
{}
