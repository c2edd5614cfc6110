//! What the definitions say of each other, each law the contract of a function that does nothing.

ghost use Rattle.std.specs.Prelude.{◌≡◌, ℕ, ◌*◌, ◌<◌, ◌≤◌, ◌^◌, List, length, None, Some};
ghost use Rattle.session_log.specs.Text.{ClientSession};
ghost use Rattle.log_definitions.specs.WellFormed.{log_lines};
ghost use Rattle.log_definitions.specs.Numbers.{IsWellFormedList};
ghost use Rattle.session_history.specs.Tables.{node_named};
ghost use Rattle.order_text.specs.Text.{order_text, AreNodes};
ghost use Rattle.order_text.specs.Faults.{order_fault};

/// The text of nodes of a well-formed log has no fault where it is not too long, it has at most 26
/// bytes for each node, and no other list of nodes has it.
pub fn printed_is_read()
    ensures accepted { (ss : List ClientSession) → IsWellFormedList ss →
        length (log_lines ss) < 2 ^ 63 → (order : List ℕ) → AreNodes ss order →
        length (order_text ss order) ≤ 2 ^ 20 → order_fault ss (order_text ss order) ≡ None }
    ensures short { (ss : List ClientSession) → IsWellFormedList ss →
        length (log_lines ss) < 2 ^ 63 → (order : List ℕ) → AreNodes ss order →
        length (order_text ss order) ≤ 26 * length order }
    ensures unique { (ss : List ClientSession) → IsWellFormedList ss →
        length (log_lines ss) < 2 ^ 63 → (a b : List ℕ) → AreNodes ss a → AreNodes ss b →
        order_text ss a ≡ order_text ss b → a ≡ b }
{}

/// A text has no fault only where it is the text of nodes, and not too long.
#[tactic(auto, using(crate::proofs::Accepted::accepted_printed))]
pub fn accepted_is_printed()
    ensures short { (ss : List ClientSession) (text : List ℕ) → order_fault ss text ≡ None →
        length text ≤ 2 ^ 20 }
    ensures printed { (ss : List ClientSession) (text : List ℕ) → order_fault ss text ≡ None →
        ((order : List ℕ) × AreNodes ss order × (text ≡ order_text ss order)) }
{}

/// A committed transaction's session number and place are below 2^64, so that a greater number in a
/// line names none.
#[tactic(auto, using(crate::proofs::Names::named_small))]
pub fn large_numbers_name_none()
    ensures small { (ss : List ClientSession) → IsWellFormedList ss →
        length (log_lines ss) < 2 ^ 63 → (session place v : ℕ) →
        node_named ss session place ≡ Some v → (session < 2 ^ 64) × (place < 2 ^ 64) }
{}
