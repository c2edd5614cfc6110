//! Laws of what the commands say, each the contract of a function that does nothing.

ghost use Rattle.std.specs.Prelude.{◌≡◌, ℕ, List, Bool, true, false};
ghost use Rattle.session_log.specs.Text.{ClientSession};
ghost use Rattle.session_log.specs.declared.version.Version.{Version};
ghost use Rattle.serializability.specs.Formula.{Cnf};
ghost use Rattle.log_definitions.specs.WellFormed.{IsWellFormed};
ghost use Rattle.log_definitions.specs.Serial.{IsSerialOrder};
ghost use Rattle.branch_search.specs.declared.answer.Answer.TheVariants.{Unknown};
ghost use Rattle.deciding.specs.Decides.{HasNoOrder, IsSearched};
ghost use Rattle.cobra_answers.specs.Verdicts.{serial_text, spent_text};
ghost use Rattle.cobra_answers.specs.declared.fault.Fault.{Fault};
ghost use Rattle.cobra_answers.specs.declared.status.Status.{Status};
ghost use Rattle.cobra_answers.specs.declared.status.Status.TheVariants as status;
ghost use Rattle.cobra_formulas.specs.Formulas.{IsFormulaOf};
ghost use Rattle.call_options.specs.declared.format.Format.{Format};
ghost use Rattle.cobra_cli.specs.Checked.{IsVerdict};
ghost use Rattle.cobra_cli.specs.Commands.{IsEncoding, IsDecoding, IsCounting, IsVerified};
ghost use Rattle.cobra_cli.specs.Commands.{IsNotVerified, is_memory};
ghost use Rattle.cobra_cli.specs.Explained.{IsExplanation};

/// Sessions have one formula with `--plain` and one without it: the same variables, the same
/// clauses, and each assignment puts the same nodes before each other.
pub fn one_formula()
    ensures { (plain : Bool) (ss : List ClientSession) (f g : Cnf) →
        IsFormulaOf plain ss f → IsFormulaOf plain ss g → f ≡ g }
{}

/// What `encode` and `stats` write is fixed by the sessions and by whether `--plain` was asked for,
/// that of `stats` by the log's version too.
pub fn one_text()
    ensures encoding { (plain : Bool) (ss : List ClientSession) (s t : Status)
        (text other : List ℕ) →
        IsEncoding plain ss s text → IsEncoding plain ss t other → text ≡ other }
    ensures counting { (plain : Bool) (v : Version) (ss : List ClientSession) (s t : Status)
        (text other : List ℕ) →
        IsCounting plain v ss s text → IsCounting plain v ss t other → text ≡ other }
{}

/// What `decode` writes, and how it ends, is fixed by the sessions, by the answer, and by whether
/// `--plain` was asked for: an assignment stands for one order.
pub fn one_decoding()
    ensures { (plain : Bool) (given : List ℕ) (ss : List ClientSession) (s t : Status)
        (text other : List ℕ) →
        IsDecoding plain given ss s text → IsDecoding plain given ss t other
        → (s ≡ t) × (text ≡ other) }
{}

/// What `verify` says is fixed by the log and by the order file: it accepts all of them alike, or
/// refuses them with one fault, but for want of memory, which may come in place of either.
pub fn one_answer_of_verify()
    ensures accepted { (given : List ℕ) (ss : List ClientSession) (s t : Status)
        (text other : List ℕ) →
        IsVerified given ss s text → IsVerified given ss t other → (s ≡ t) × (text ≡ other) }
    ensures refused { (log given : List ℕ) (ss : List ClientSession) (f g : Fault)
        → IsWellFormed log ss →
        IsNotVerified given f ss → IsNotVerified given g ss → is_memory f ≡ false
        → is_memory g ≡ false → f ≡ g }
    ensures apart { (log given : List ℕ) (ss : List ClientSession) (s : Status) (text : List ℕ)
        (f : Fault) →
        IsWellFormed log ss → IsVerified given ss s text → IsNotVerified given f ss
        → is_memory f ≡ true }
{}

/// What the status of `check` says of the sessions: that a serial order was found, which is
/// written; that there is none; or that a search spent the budget.
pub fn statuses_of_check()
    ensures done { (budget : ℕ) (ss : List ClientSession) (text : List ℕ) →
        IsVerdict budget ss status.Done text →
        (order : List ℕ) × (IsSerialOrder ss order × (text ≡ serial_text ss order)) }
    ensures refused { (budget : ℕ) (ss : List ClientSession) (text : List ℕ) →
        IsVerdict budget ss status.NotSerializable text → HasNoOrder ss }
    ensures unknown { (budget : ℕ) (ss : List ClientSession) (text : List ℕ) →
        IsVerdict budget ss status.Unknown text →
        IsSearched budget ss (Unknown budget) × (text ≡ spent_text budget) }
{}

/// The same of the status of `explain`.
pub fn statuses_of_explain()
    ensures done { (budget : ℕ) (v : Version) (format : Format) (ss : List ClientSession)
        (text : List ℕ) →
        IsExplanation budget v format ss status.Done text
        → (order : List ℕ) × IsSerialOrder ss order }
    ensures refused { (budget : ℕ) (v : Version) (format : Format) (ss : List ClientSession)
        (text : List ℕ) →
        IsExplanation budget v format ss status.NotSerializable text → HasNoOrder ss }
    ensures unknown { (budget : ℕ) (v : Version) (format : Format) (ss : List ClientSession)
        (text : List ℕ) →
        IsExplanation budget v format ss status.Unknown text
        → IsSearched budget ss (Unknown budget) }
{}
