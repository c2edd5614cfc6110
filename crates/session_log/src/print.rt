//! The text of sessions.

ghost use Rattle.std.specs.Prelude.{◌≡◌, ◌++◌, ◌∷◌, [], ◌||◌, is_some, IfOk, OnOk, map, decimal};
ghost use Rattle.std.specs.Prelude.{codes};
ghost use Rattle.std.specs.List.{flat_map, list_any};
ghost use Rattle.session_log.specs.Text.{view, view_txn, op_line, end_line, full_line};
ghost use Rattle.session_log.specs.Text.{text_of_lines, txn_lines, session_text, log_text};
ghost use Rattle.session_log.specs.Moments.{moment_text};
ghost use Rattle.session_log.specs.Text.{is_unknown, least_version};
ghost use Rattle.session_log.specs.declared.line.Line.TheVariants as line;

use crate::key::Key;
use crate::session::{Op, Outcome, Session, Txn};
use crate::version::Version;
use std::alloc::{AllocError, Global};

fn put_number(alloc: Global, out: &mut Vec<u8>, n: u64) -> Result<(), AllocError>
    ensures { OnOk result (out.new.items ≡ out.old.items ++ decimal n) }
{
    let text = format!(in alloc; "{n}")?;
    out.extend_from_slice(text.as_bytes())?;
    Ok(())
}

fn put_keyed(
    alloc: Global,
    out: &mut Vec<u8>,
    word: &[u8],
    key: &Key,
    wid: u64,
) -> Result<(), AllocError>
    ensures { OnOk result (out.new.items
        ≡ out.old.items ++ (word.now ++ (key.now ++ 32 ∷ decimal wid) ++ 10 ∷ [])) }
{
    out.extend_from_slice(word)?;
    out.extend_from_slice(key.as_bytes())?;
    out.push(b' ')?;
    put_number(alloc, out, wid)?;
    out.push(b'\n')?;
    Ok(())
}

#[tactic(auto, unfolding(crate::specs::Text::line_text))]
fn put_op(alloc: Global, out: &mut Vec<u8>, op: &Op) -> Result<(), AllocError>
    ensures { OnOk result (out.new.items ≡ out.old.items ++ full_line (op_line op.now)) }
{
    match op {
        Op::Read { key, wid } => put_keyed(alloc, out, b"r ", key, *wid),
        Op::Write { key, wid } => put_keyed(alloc, out, b"w ", key, *wid),
    }
}

/// A word, and behind it the moment that it states, where it states one.
fn put_moment(
    alloc: Global,
    out: &mut Vec<u8>,
    word: &[u8],
    moment: Option<u64>,
) -> Result<(), AllocError>
    ensures { OnOk result (out.new.items
        ≡ out.old.items ++ ((word.now ++ moment_text moment) ++ 10 ∷ [])) }
{
    out.extend_from_slice(word)?;
    if let Some(moment) = moment {
        out.push(b' ')?;
        put_number(alloc, out, moment)?;
    }
    out.push(b'\n')?;
    Ok(())
}

#[tactic(auto, unfolding(crate::specs::Text::line_text))]
fn put_end(
    alloc: Global,
    out: &mut Vec<u8>,
    outcome: Outcome,
    ended: Option<u64>,
) -> Result<(), AllocError>
    ensures { OnOk result (out.new.items ≡ out.old.items ++ full_line (end_line outcome ended)) }
{
    match outcome {
        Outcome::Commit => put_moment(alloc, out, b"commit", ended)?,
        Outcome::Abort => out.extend_from_slice(b"abort\n")?,
        Outcome::Unknown => out.extend_from_slice(b"unknown\n")?,
    }
    Ok(())
}

#[tactic(auto, unfolding(crate::specs::Text::line_text))]
fn put_begin(alloc: Global, out: &mut Vec<u8>, begun: Option<u64>) -> Result<(), AllocError>
    ensures { OnOk result (out.new.items ≡ out.old.items ++ full_line (line.Begin begun)) }
{
    put_moment(alloc, out, b"begin", begun)
}

#[tactic(auto, unfolding(crate::specs::Text::line_text))]
fn put_number_line(alloc: Global, out: &mut Vec<u8>, number: u16) -> Result<(), AllocError>
    ensures { OnOk result (out.new.items ≡ out.old.items ++ full_line (line.Session number)) }
{
    out.extend_from_slice(b"session ")?;
    put_number(alloc, out, u64::from(number))?;
    out.push(b'\n')?;
    Ok(())
}

fn put_txn(alloc: Global, out: &mut Vec<u8>, txn: &Txn) -> Result<(), AllocError>
    ensures { OnOk result (out.new.items
        ≡ out.old.items ++ text_of_lines (txn_lines (view_txn txn.now))) }
{
    put_begin(alloc, out, txn.begun)?;
    for op in &txn.ops {
        put_op(alloc, out, op)?;
    }
    put_end(alloc, out, txn.outcome, txn.ended)
}

#[tactic(auto, unfolding(crate::specs::Text::session_text))]
fn put_session(alloc: Global, out: &mut Vec<u8>, session: &Session) -> Result<(), AllocError>
    ensures { OnOk result (out.new.items ≡ out.old.items ++ session_text (view session.now)) }
{
    put_number_line(alloc, out, session.number)?;
    for txn in &session.txns {
        put_txn(alloc, out, txn)?;
    }
    Ok(())
}

fn any_unknown(txns: &[Txn]) -> bool
    ensures { result ≡ list_any (λ t. is_unknown t.outcome) txns.now }
{
    txns.iter().any(|txn| txn.outcome.is_unknown())
}

fn any_with_unknown(sessions: &[Session]) -> bool
    ensures { result ≡ list_any (λ s. list_any (λ t. is_unknown t.outcome) s.txns.items)
        sessions.now }
{
    sessions.iter().any(|session| any_unknown(&session.txns))
}

fn any_moment(txns: &[Txn]) -> bool
    ensures { result ≡ list_any (λ t. is_some t.begun || is_some t.ended) txns.now }
{
    txns.iter()
        .any(|txn| txn.begun.is_some() || txn.ended.is_some())
}

fn any_with_moment(sessions: &[Session]) -> bool
    ensures { result ≡ list_any
        (λ s. list_any (λ t. is_some t.begun || is_some t.ended) s.txns.items) sessions.now }
{
    sessions.iter().any(|session| any_moment(&session.txns))
}

fn least_version(sessions: &[Session]) -> Version
    ensures { result ≡ least_version (map view sessions.now) }
{
    if any_with_moment(sessions) {
        Version::Three
    } else if any_with_unknown(sessions) {
        Version::Two
    } else {
        Version::One
    }
}

/// The text of these sessions, each by its lines, in the least version that holds them. It is a
/// log that is read as the same sessions where they are legal.
#[tactic(auto, unfolding(crate::specs::Text::log_text))]
pub fn print_log(alloc: Global, sessions: &[Session]) -> Result<Vec<u8>, AllocError>
    ensures text { let listed = map view sessions.now in
        IfOk result (λ text. text.items ≡ log_text (least_version listed) listed) }
{
    let mut out = Vec::new(alloc);
    out.extend_from_slice(least_version(sessions).header())?;
    for session in sessions {
        put_session(alloc, &mut out, session)?;
    }
    Ok(out)
}
