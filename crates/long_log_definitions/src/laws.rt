//! Laws of the definitions, each the contract of a function that does nothing.

ghost use Rattle.std.specs.Prelude.{◌≡◌, ◌≢◌, ◌↔◌, ℕ, ◌≤◌, List, length, None};
ghost use Rattle.std.specs.List.{AllByRecursion};
ghost use Rattle.session_log.specs.Text.{ClientSession, IsLegal};
ghost use Rattle.session_log.specs.Blocks.{size_fault as small_size_fault};
ghost use Rattle.session_log.specs.declared.fault.LogFault.{LogFault};
ghost use Rattle.session_log.specs.declared.fault.LogFault.TheVariants.{Memory, OverLimit};
ghost use Rattle.session_log.specs.declared.fault.Limit.{Limit};
ghost use Rattle.log_definitions.specs.WellFormed.{IsWellFormed, IsLogFault, limit_fault};
ghost use Rattle.log_definitions.specs.WellFormed.{log_lines};
ghost use Rattle.log_laws.specs.Logs.{IsSoundLog};
ghost use Rattle.long_log_definitions.specs.LongLog.{IsLongLog, IsLongLogFault, HasOwnNumbers};
ghost use Rattle.long_log_definitions.specs.LongLog.{list_fault};
ghost use Rattle.long_log_definitions.specs.declared.limits.TheConstants.{MAX_LONG_LOG_BYTES};

/// A text that has a fault other than memory is that of no long log.
pub fn refused_where_no_list()
    ensures { (text : List ℕ) (f : LogFault) → IsLongLogFault text f → f ≢ Memory →
        (ss : List ClientSession) → IsLongLog text ss → ⊥ }
{}

/// A text that is that of no long log has a fault other than memory.
pub fn fault_where_no_list()
    ensures { (text : List ℕ) → ((ss : List ClientSession) → IsLongLog text ss → ⊥) →
        ((f : LogFault) × IsLongLogFault text f × (f ≢ Memory)) }
{}

/// No two lists of sessions make one text a long log.
pub fn one_list_where_long()
    ensures { (text : List ℕ) (a b : List ClientSession) →
        IsLongLog text a → IsLongLog text b → a ≡ b }
{}

/// Sessions have no fault, from whatever line, exactly where no two have one number and no two
/// writes one identity.
pub fn own_numbers_in_words()
    ensures { (n : ℕ) (ss : List ClientSession) → (list_fault n ss ≡ None ↔ HasOwnNumbers ss) }
{}

/// The sessions of a long log are legal and sound, which is all that the law of pieces asks.
pub fn sound_where_long()
    ensures { (text : List ℕ) (ss : List ClientSession) → IsLongLog text ss →
        (AllByRecursion IsLegal ss × IsSoundLog ss) }
{}

/// A well-formed log is a long log. A long log that keeps the limits of a log is well-formed. The
/// fault of a log is its fault as a long log too, but for these limits.
pub fn logs_within_the_limits()
    ensures long { (text : List ℕ) (ss : List ClientSession) → IsWellFormed text ss
        → IsLongLog text ss }
    ensures short { (text : List ℕ) (ss : List ClientSession) → IsLongLog text ss →
        small_size_fault text ≡ None → limit_fault ss ≡ None → IsWellFormed text ss }
    ensures fault { (text : List ℕ) (f : LogFault) → IsLogFault text f →
        ((which : Limit) → f ≢ OverLimit which) → IsLongLogFault text f }
{}

/// A long log has no more lines behind its header than it may have bytes.
pub fn lines_within_the_limit()
    ensures { (text : List ℕ) (ss : List ClientSession) → IsLongLog text ss →
        length (log_lines ss) ≤ MAX_LONG_LOG_BYTES }
{}
