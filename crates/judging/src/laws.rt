//! Laws of what is said, each the contract of a function that does nothing.

ghost use Rattle.std.specs.Prelude.{◌≡◌, ◌↔◌, ℕ, List, None};
ghost use Rattle.std.specs.List.{AllByRecursion};
ghost use Rattle.session_log.specs.Text.{ClientSession, IsLegal};
ghost use Rattle.session_log.specs.declared.fault.Limit.{Limit};
ghost use Rattle.log_definitions.specs.Unknown.{resolved};
ghost use Rattle.log_definitions.specs.WellFormed.{IsWellFormed};
ghost use Rattle.log_definitions.specs.Serial.{committed_in, IsSerialOrder};
ghost use Rattle.log_definitions.specs.Numbers.{log_of};
ghost use Rattle.log_laws.specs.Logs.{IsSoundLog, IsLog};
ghost use Rattle.judging.specs.Limits.{IsOver};
ghost use Rattle.judging.specs.Judges.{IsVerdict, IsInVain};
ghost use Rattle.judging.specs.declared.level.Level.TheVariants.{Serializable};
ghost use Rattle.judging.specs.declared.judged.Why.{Why};
ghost use Rattle.judging.specs.declared.judged.Tried.{Tried};
ghost use Rattle.judging.specs.declared.judged.Verdict.TheVariants.{Undecided};
ghost use Rattle.judging.specs.declared.means.JudgeMeans.{JudgeMeans};

/// A log that is well-formed, and so within the limits, has of nothing too much: it is never told to
/// be too large.
pub fn small_is_never_too_large()
    ensures { (text : List ℕ) (ss : List ClientSession) (which : Limit) → IsWellFormed text ss
        → IsOver ss which → ⊥ }
{}

/// Where no time is set, a log that is well-formed and judged for serializability is undecided only
/// where its own search spent its budget, or where its chains have too many choices: as it is where
/// it is decided by itself.
pub fn small_is_searched()
    ensures { (m : JudgeMeans) (text : List ℕ) (ss : List ClientSession) (why : Why) (tried : Tried)
        → IsWellFormed text ss → m.level ≡ Serializable → m.deadline ≡ None
        → IsVerdict m ss (Undecided why tried) → IsInVain m ss why }
{}

/// The sessions of a legal and sound log are a log by themselves once their outcomes are known: what
/// `judge` asks for.
pub fn resolved_is_log()
    ensures { (ss : List ClientSession) → AllByRecursion IsLegal ss → IsSoundLog ss
        → IsLog (resolved ss) }
{}

/// They have the same serial orders, the same nodes, and are the same log by their nodes.
pub fn resolved_is_the_same()
    ensures orders { (ss : List ClientSession) (order : List ℕ)
        → (IsSerialOrder ss order ↔ IsSerialOrder (resolved ss) order) }
    ensures nodes { (ss : List ClientSession) → committed_in (resolved ss) ≡ committed_in ss }
    ensures log { (ss : List ClientSession) → log_of (resolved ss) ≡ log_of ss }
{}
