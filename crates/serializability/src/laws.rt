//! Laws of the definitions, each the contract of a function that does nothing.

ghost use Rattle.std.specs.Prelude.{◌↔◌, ℕ, List, Bool};
ghost use Rattle.serializability.specs.Log.{Log};
ghost use Rattle.serializability.specs.Replay.{IsSerial};
ghost use Rattle.serializability.specs.Reads.{IsClean};
ghost use Rattle.serializability.specs.Polygraph.{Fits, bipath_polygraph};
ghost use Rattle.serializability.specs.Formula.{Satisfies};
ghost use Rattle.serializability.specs.Decoded.{before, IsOrder, IsDecoded};
ghost use Rattle.serializability.specs.Plain.{plain};

/// An order of a clean log is serial exactly when it fits the arcs and the bipaths.
pub fn serial_exactly_when_fitting()
    ensures { (log : Log) → IsClean log → (order : List ℕ) →
        (IsSerial log order ↔ Fits (bipath_polygraph log) order) }
{}

/// What a satisfying assignment of a plain formula puts before what is a strict total order of the
/// nodes.
pub fn satisfying_assignment_is_order()
    ensures { (log : Log) (values : List Bool) → Satisfies values (plain log) →
        IsOrder log.nodes (before (plain log) values) }
{}

/// The plain formula of a clean log can be satisfied exactly by what stands for a serial order.
pub fn plain_formula_is_serializability()
    ensures some { (log : Log) → IsClean log → (order : List ℕ) → IsSerial log order →
        ((values : List Bool) × Satisfies values (plain log)) }
    ensures each { (log : Log) → IsClean log → (values : List Bool) → Satisfies values (plain log) →
        (order : List ℕ) → IsDecoded log.nodes (before (plain log) values) order
        → IsSerial log order }
    ensures decodes { (log : Log) → IsClean log → (values : List Bool)
        → Satisfies values (plain log) →
        ((order : List ℕ) × IsDecoded log.nodes (before (plain log) values) order) }
{}
