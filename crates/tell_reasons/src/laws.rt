//! What it means who wrote, the law the contract of a function that does nothing.

ghost use Rattle.std.specs.Prelude.{◌≡◌, Bool, false, List, MatchOption};
ghost use Rattle.std.specs.List.{AllByRecursion};
ghost use Rattle.session_log.specs.Text.{ClientSession};
ghost use Rattle.session_log.specs.declared.session.Op.{Op};
ghost use Rattle.log_definitions.specs.Unknown.{ops_in};
ghost use Rattle.log_lines.specs.Rows.{Table, Fits};
ghost use Rattle.tell_reasons.specs.Writes.{first_op, IsFirst};

/// An operation that is found as the first that passes stands in the log, passes, and is the first;
/// where none is found, none passes.
pub fn first_operation_is_first()
    ensures { (passes : Op → Bool) (ss : List ClientSession) (table : Table) → Fits ss table
        → MatchOption (first_op passes ss table)
        (AllByRecursion (λ op. passes op ≡ false) (ops_in ss)) (IsFirst passes ss table) }
{}
