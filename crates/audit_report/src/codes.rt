//! The words for what stands against a part, and for verdicts.

ghost use Rattle.std.specs.Prelude.{◌≡◌};
ghost use Rattle.audit_report.specs.Words.{code_number, is_kept};
ghost use Rattle.audit_report.specs.Words.{anomaly_title, finding_title, word_text, word_of};
ghost use Rattle.audit_report.specs.Words.{kept_text, verdict_text, read_hint, hint_text};

use crate::told::{Answer, Word};
use cobra_answers::read_title;
use isolation::Isolation;
use judging::Finding;
use session_history::{Anomaly, ReadAnomaly};

/// The number of the code of a finding, 1 to 9; 0 where it has none.
pub fn code_number(finding: Finding) -> usize
    ensures number { result ≡ code_number finding }
{
    match finding {
        Finding::Anomaly(anomaly) => usize::from(anomaly.number()),
        Finding::Cycle => 8,
        Finding::Dead => 9,
        Finding::Refuted | Finding::Formula | Finding::Overlooked => 0,
    }
}

fn anomaly_title(anomaly: Anomaly) -> &'static str
    ensures title { result.now ≡ anomaly_title anomaly }
{
    match anomaly {
        Anomaly::Read { kind, .. } => read_title(kind),
        Anomaly::LostUpdate { .. } => "A7 lost update",
    }
}

/// The code of a finding and its name, or its name alone.
pub fn finding_title(finding: Finding) -> &'static str
    ensures title { result.now ≡ finding_title finding }
{
    match finding {
        Finding::Anomaly(anomaly) => anomaly_title(anomaly),
        Finding::Cycle => "A8 cycle of known edges",
        Finding::Dead => "A9 pruning ends in a cycle",
        Finding::Refuted => "every order of its versions closes a cycle",
        Finding::Formula => "the formula is refuted",
        Finding::Overlooked => "what they read rules it out",
    }
}

const WRITES_HINT: &str =
    "check first: does the log have each write of all clients, under its own key?\n";

const ABORT_HINT: &str = "check first: is the abort certain?\n";

const ORDER_HINT: &str = "check first: did the client record its operations in their order?\n";

/// What to check first of a read, as a line, where a client or its recorder is more often at fault
/// than a store.
fn read_hint(kind: ReadAnomaly) -> &'static str
    ensures hint { result.now ≡ read_hint kind }
{
    match kind {
        ReadAnomaly::Unknown => WRITES_HINT,
        ReadAnomaly::Aborted => ABORT_HINT,
        ReadAnomaly::OwnWriteMissed | ReadAnomaly::Future => ORDER_HINT,
        ReadAnomaly::Intermediate | ReadAnomaly::Split => "",
    }
}

/// The same of a finding.
#[tactic(auto, unfolding(crate::specs::Words::hint_text))]
pub fn hint_text(finding: Finding) -> &'static str
    ensures hint { result.now ≡ hint_text finding }
{
    match finding {
        Finding::Anomaly(Anomaly::Read { kind, .. }) => read_hint(kind),
        Finding::Anomaly(Anomaly::LostUpdate { .. })
        | Finding::Cycle
        | Finding::Dead
        | Finding::Refuted
        | Finding::Formula
        | Finding::Overlooked => "",
    }
}

/// The words of a verdict.
pub fn word_text(word: Word) -> &'static str
    ensures text { result.now ≡ word_text word }
{
    match word {
        Word::Serializable => "serializable",
        Word::NotSerializable => "not serializable",
        Word::Unknown => "unknown",
    }
}

/// The words of a verdict on a level that is named.
pub fn kept_text(word: Word) -> &'static str
    ensures text { result.now ≡ kept_text word }
{
    match word {
        Word::Serializable => "kept",
        Word::NotSerializable => "not kept",
        Word::Unknown => "unknown",
    }
}

/// The words of a verdict, on the level that is named or, where none is, on serializability.
pub fn verdict_text(level: Option<Isolation>, word: Word) -> &'static str
    ensures text { result.now ≡ verdict_text level word }
{
    match level {
        None => word_text(word),
        Some(_) => kept_text(word),
    }
}

/// The verdict of an answer.
pub fn word_of(answer: &Answer) -> Word
    ensures word { result ≡ word_of answer.now }
{
    match answer {
        Answer::Serializable => Word::Serializable,
        Answer::NotSerializable(_) => Word::NotSerializable,
        Answer::NoMoments | Answer::TooFew { .. } | Answer::Undecided { .. } => Word::Unknown,
    }
}

/// Whether it is told that a level was kept.
pub fn is_kept(word: Option<Word>) -> bool
    ensures kept { result ≡ is_kept word }
{
    matches!(word, Some(Word::Serializable))
}
