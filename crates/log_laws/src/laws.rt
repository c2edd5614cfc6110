//! Laws of logs of any length, each the contract of a function that does nothing.

ghost use Rattle.std.specs.Prelude.{nat_eq, List, map};
ghost use Rattle.std.specs.List.{AllByRecursion, IsDistinct};
ghost use Rattle.session_log.specs.Text.{ClientSession, IsLegal};
ghost use Rattle.log_definitions.specs.Unknown.{ops_in};
ghost use Rattle.log_definitions.specs.WellFormed.{written};
ghost use Rattle.log_laws.specs.Logs.{IsSoundLog};

/// Legal sessions are sound where their numbers and the identities that they write are distinct.
pub fn sound_where_legal()
    ensures { (ss : List ClientSession) → AllByRecursion IsLegal ss
        → IsDistinct nat_eq (map (λ s. s.number) ss) →
        IsDistinct nat_eq (written (ops_in ss)) → IsSoundLog ss }
{}
