//! Laws of the definitions, each the contract of a function that does nothing.

ghost use Rattle.std.specs.Prelude.{◌≡◌, ◌↔◌, ℕ, List, Bool, None};
ghost use Rattle.serializability.specs.Log.{Log};
ghost use Rattle.serializability.specs.Replay.{IsSerial};
ghost use Rattle.serializability.specs.Formula.{Cnf, Satisfies};
ghost use Rattle.serializability.specs.Decoded.{before, IsDecoded, IsFormula};
ghost use Rattle.decode_order.specs.Replaying.{replay_fault};

/// Nothing is wrong with an order exactly where it is serial.
pub fn no_fault_exactly_where_serial()
    ensures { (log : Log) (order : List ℕ) → (replay_fault log order ≡ None ↔ IsSerial log order) }
{}

/// A satisfying assignment stands for no two orders.
#[tactic(auto, using(crate::proofs::Placing::decoded_once))]
pub fn one_order_where_satisfied()
    ensures { (f : Cnf) → IsFormula f → (values : List Bool) → Satisfies values f → (a b : List ℕ) →
        IsDecoded f.nodes (before f values) a → IsDecoded f.nodes (before f values) b → a ≡ b }
{}
