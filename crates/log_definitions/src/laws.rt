//! Laws of the definitions, each the contract of a function that does nothing.

ghost use Rattle.std.specs.Prelude.{◌≡◌, ◌≢◌, ◌↔◌, ℕ, ◌≤◌, Bool, IsTrue, nat_eq, List, None};
ghost use Rattle.std.specs.List.{AllByRecursion, IsDistinct};
ghost use Rattle.session_log.specs.Text.{ClientSession, IsLegal};
ghost use Rattle.session_log.specs.declared.session.Outcome.TheVariants.{Unknown};
ghost use Rattle.session_log.specs.declared.fault.LogFault.{LogFault};
ghost use Rattle.session_log.specs.declared.fault.LogFault.TheVariants.{Memory};
ghost use Rattle.serializability.specs.declared.node.TheConstants.{MAX_NODES};
ghost use Rattle.serializability.specs.Replay.{IsSerial};
ghost use Rattle.serializability.specs.Reads.{IsNumbered};
ghost use Rattle.log_definitions.specs.Unknown.{IsClosed, IsNeeded, IsWithin, settled, taken};
ghost use Rattle.log_definitions.specs.Unknown.{resolved, txns_in, ops_in};
ghost use Rattle.log_definitions.specs.WellFormed.{IsWellFormed, IsLogFault, KeepsRules};
ghost use Rattle.log_definitions.specs.WellFormed.{list_fault, written};
ghost use Rattle.log_definitions.specs.Serial.{IsSerialOrder, IsSomeOrder};
ghost use Rattle.log_definitions.specs.Numbers.{IsWellFormedList, log_of};

/// A log that has a fault other than memory has no sessions that make it well-formed.
pub fn refused_where_no_list()
    ensures { (text : List ℕ) (f : LogFault) → IsLogFault text f → f ≢ Memory →
        (ss : List ClientSession) → IsWellFormed text ss → ⊥ }
{}

/// A log that has no sessions that make it well-formed has a fault other than memory.
pub fn fault_where_no_list()
    ensures { (text : List ℕ) → ((ss : List ClientSession) → IsWellFormed text ss → ⊥) →
        ((f : LogFault) × IsLogFault text f × (f ≢ Memory)) }
{}

/// No two lists of sessions make one text well-formed.
pub fn one_list_where_well_formed()
    ensures { (text : List ℕ) (a b : List ClientSession) →
        IsWellFormed text a → IsWellFormed text b → a ≡ b }
{}

/// An order is serial on the sessions exactly when it is on their nodes, with keys as numbers.
pub fn serial_by_number()
    ensures { (ss : List ClientSession) (order : List ℕ) →
        (IsSerialOrder ss order ↔ IsSerial (log_of ss) order) }
{}

/// What holds of the numbers of every well-formed log.
pub fn numbered_where_well_formed()
    ensures { (ss : List ClientSession) → IsWellFormedList ss → IsNumbered (log_of ss) }
{}

/// Sessions have no fault exactly where they keep each of the rules.
pub fn distinct_in_words()
    ensures { (ss : List ClientSession) → (list_fault 1 ss ≡ None ↔ KeepsRules ss) }
{}

/// A well-formed log has no more nodes than the limit allows.
pub fn nodes_within_limit()
    ensures { (ss : List ClientSession) → IsWellFormedList ss → (log_of ss).nodes ≤ MAX_NODES }
{}

/// Sessions have a fault from one line on exactly where they have one from another.
pub fn fault_from_any_line()
    ensures { (n m : ℕ) (ss : List ClientSession)
        → (list_fault n ss ≡ None ↔ list_fault m ss ≡ None) }
{}

/// Sessions whose outcomes were all learnt stay as they are, and so do settled ones.
pub fn learnt_outcomes_stay()
    ensures learnt { (ss : List ClientSession)
        → AllByRecursion (λ t. t.outcome ≢ Unknown) (txns_in ss) → resolved ss ≡ ss }
    ensures settled { (chosen : ℕ → Bool) (ss : List ClientSession)
        → resolved (settled chosen ss) ≡ settled chosen ss }
{}

/// The taken transactions count as committed. They hold each one that is needed, and every set that
/// does so holds them.
pub fn taken_are_least()
    ensures resolved { (ss : List ClientSession) → resolved ss ≡ settled (taken ss) ss }
    ensures closed { (ss : List ClientSession) → IsClosed ss (taken ss) }
    ensures least { (ss : List ClientSession) (chosen : ℕ → Bool) → IsClosed ss chosen
        → IsWithin (taken ss) chosen }
{}

/// What is needed beside taken transactions is taken too.
pub fn needed_are_taken()
    ensures { (ss : List ClientSession) (chosen : ℕ → Bool) (n : ℕ) →
        IsWithin chosen (taken ss) → IsNeeded ss chosen n → IsTrue (taken ss n) }
{}

/// Taken transactions beside which nothing is needed are all of them.
pub fn closed_are_all_taken()
    ensures { (ss : List ClientSession) (chosen : ℕ → Bool) →
        IsWithin chosen (taken ss) → IsClosed ss chosen → settled chosen ss ≡ resolved ss }
{}

/// Where no identity is written twice, some order of the committed transactions and of some whose
/// outcome was not learnt is serial exactly where some order of the committed and the taken ones
/// is.
pub fn only_the_taken()
    ensures { (ss : List ClientSession) → AllByRecursion IsLegal ss
        → IsDistinct nat_eq (written (ops_in ss)) →
        (((order : List ℕ) × IsSomeOrder ss order) ↔ ((order : List ℕ) × IsSerialOrder ss order)) }
{}
