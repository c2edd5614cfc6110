//! What a solver claims.

ghost use Rattle.std.specs.Prelude.{◌≡◌};
ghost use Rattle.dimacs.specs.Words.{status_named};

/// The statuses of an answer.
#[derive(Clone, Copy, Debug, PartialEq, Eq)]
pub enum Status {
    Satisfiable,
    Unsatisfiable,
    Unknown,
}

/// The status that a word names.
#[tactic(auto, unfolding(crate::specs::Words::status_named))]
pub(crate) fn status_named(word: &[u8]) -> Option<Status>
    ensures { result ≡ status_named word.now }
{
    if word == b"SATISFIABLE".as_slice() {
        return Some(Status::Satisfiable);
    }
    if word == b"UNSATISFIABLE".as_slice() {
        return Some(Status::Unsatisfiable);
    }
    if word == b"UNKNOWN".as_slice() || word == b"INDETERMINATE".as_slice() {
        return Some(Status::Unknown);
    }
    None
}
