//! The lines of one session, read from the first on.

ghost use Rattle.std.specs.Prelude.{◌≡◌, ◌∷◌, ◌++◌, ◌<◌, ◌+◌, ◌^◌, false, Some, None, length};
ghost use Rattle.std.specs.Prelude.{[], if◌then◌else◌, IfOk, IfErr, OnOk};
ghost use Rattle.session_log.specs.Lines.{lines, form_of, bytes_of};
ghost use Rattle.session_log.specs.Faults.{Start, Over, after, step, first_fault, form_at};
ghost use Rattle.session_log.specs.Faults.{is_session_line};
ghost use Rattle.session_log.specs.Faults.{IsBlock, FailsAs, IsFault, IsGrammarFault};
ghost use Rattle.session_log.specs.Text.{view, session_text, IsLegal, IsHeldBy};
ghost use Rattle.session_log.specs.Reading.{place_of, Adds, Takes, IsBodyLine};

use crate::fault::LogFault;
use crate::line::{Line, form_of};
use crate::session::{Op, Outcome, Session, Txn, is_earlier};
use crate::version::Version;
use crate::words::next_line;
use std::alloc::{AllocError, Global};

/// A transaction that is open, with the line of its `begin`.
#[derive(Drop)]
struct OpenTxn {
    line: usize,
    begun: Option<u64>,
    ops: Vec<Op>,
}

/// How far a session has come.
#[derive(Drop)]
enum LineState {
    /// No transaction is open.
    Between,
    /// This one is.
    Inside(OpenTxn),
    /// None is open and none may begin: the outcome of the last is unknown.
    Over,
}

/// What has been read of a session after its first line.
#[derive(Drop)]
struct Reading {
    txns: Vec<Txn>,
    progress: LineState,
}

/// Adds an operation. A full list grows by an eighth, so that many short transactions hold little
/// room that they do not use.
fn add(ops: &mut Vec<Op>, op: Op) -> Result<(), AllocError>
    ensures { OnOk result (ops.new.items ≡ ops.old.items ++ op ∷ []) }
{
    if ops.len() == ops.capacity() {
        ops.reserve_exact(ops.len() / 8 + 1)?;
    }
    ops.push(op)?;
    Ok(())
}

/// Why this line, which is line `n`, may not stand where the session is over.
fn fault_when_over(n: usize, form: &Line) -> LogFault
    requires { IsBodyLine form.now }
    ensures fault { after n Over form.now ≡ Err result }
    ensures kind { IsGrammarFault result }
{
    match form {
        Line::Begin(_) => LogFault::UnknownNotLast { line: n },
        _ => LogFault::OutsideTransaction { line: n },
    }
}

/// Takes the next line, which is line `n`.
fn with_line(alloc: Global, reading: Reading, n: usize, form: Line) -> Result<Reading, LogFault>
    requires { IsBodyLine form }
    ensures taken { IfOk result (λ new. Adds n reading form new) }
    ensures fault { IfErr result (λ f. FailsAs f (after n (place_of reading) form)) }
    ensures kind { IfErr result (λ f. IsGrammarFault f) }
{
    let Reading { mut txns, progress } = reading;
    let progress = match progress {
        LineState::Between => match form {
            Line::Begin(begun) => LineState::Inside(OpenTxn {
                line: n,
                begun,
                ops: Vec::new(alloc),
            }),
            _ => return Err(LogFault::OutsideTransaction { line: n }),
        },
        LineState::Over => return Err(fault_when_over(n, &form)),
        LineState::Inside(
            OpenTxn {
                line,
                begun,
                mut ops,
            },
        ) => match form {
            Line::Session(_) | Line::Begin(_) => return Err(LogFault::OpenTransaction { line }),
            Line::Write(_, 0) => return Err(LogFault::WriteZero { line: n }),
            Line::Read(key, wid) => {
                add(&mut ops, Op::Read { key, wid })?;
                LineState::Inside(OpenTxn { line, begun, ops })
            }
            Line::Write(key, wid) => {
                add(&mut ops, Op::Write { key, wid })?;
                LineState::Inside(OpenTxn { line, begun, ops })
            }
            Line::Commit(ended) => {
                if is_earlier(ended, begun) {
                    return Err(LogFault::EndsBeforeBegin { line: n });
                }
                txns.push(Txn {
                    ops,
                    outcome: Outcome::Commit,
                    begun,
                    ended,
                })?;
                LineState::Between
            }
            Line::Abort => {
                txns.push(Txn {
                    ops,
                    outcome: Outcome::Abort,
                    begun,
                    ended: None,
                })?;
                LineState::Between
            }
            Line::Unknown => {
                txns.push(Txn {
                    ops,
                    outcome: Outcome::Unknown,
                    begun,
                    ended: None,
                })?;
                LineState::Over
            }
        },
    };
    Ok(Reading { txns, progress })
}

/// The number of the session that a block begins with.
#[tactic(auto, unfolding(crate::specs::Faults::step))]
fn session_number(
    alloc: Global,
    version: Version,
    body: &[u8],
    ended: bool,
    first_line: usize,
) -> Result<u16, LogFault>
    ensures number { IfOk result (λ k. form_at version (body.now, ended) ≡ Some (Line.Session k)) }
    ensures fault { IfErr result (λ f. FailsAs f
        (step version first_line Start (body.now, ended))) }
    ensures kind { IfErr result (λ f. IsGrammarFault f) }
{
    match read_form(alloc, version, body, ended)? {
        Some(form) => match form {
            Line::Session(number) => Ok(number),
            _ => Err(LogFault::OutsideTransaction { line: first_line }),
        },
        None => Err(LogFault::BadLine { line: first_line }),
    }
}

/// Takes the next line, as it stands.
fn with_next(
    alloc: Global,
    version: Version,
    reading: Reading,
    body: &[u8],
    ended: bool,
    n: usize,
) -> Result<Reading, LogFault>
    requires { is_session_line (body.now, ended) ≡ false }
    ensures taken { IfOk result (λ new. Takes version n reading (body.now, ended) new) }
    ensures fault { IfErr result (λ f. FailsAs f
        (step version n (place_of reading) (body.now, ended))) }
    ensures kind { IfErr result (λ f. IsGrammarFault f) }
{
    match read_form(alloc, version, body, ended)? {
        Some(form) => with_line(alloc, reading, n, form),
        None => Err(LogFault::BadLine { line: n }),
    }
}

/// Reads a block of a log of this version, by its bytes and the line of the log that is its first:
/// the session whose text it is, which the version holds. None of its lines but the first begins
/// with the bytes `session`.
///
/// Refused with its first fault, by its line in the log, and with `Memory`.
pub fn parse_lines(
    alloc: Global,
    version: Version,
    text: &[u8],
    first_line: usize,
) -> Result<Session, LogFault>
    requires block { IsBlock (lines text.now) }
    requires room { first_line + length text.now < 2 ^ 64 }
    ensures accepted { IfOk result (λ _. first_fault version first_line Start
        (lines text.now) ≡ None) }
    ensures legal { IfOk result (λ s. IsLegal (view s)) }
    ensures held { IfOk result (λ s. IsHeldBy version (view s)) }
    ensures text { IfOk result (λ s. text.now ≡ session_text (view s)) }
    ensures fault { IfErr result (λ f.
        IsFault f (first_fault version first_line Start (lines text.now))) }
    ensures kind { IfErr result (λ f. IsGrammarFault f) }
{
    let (first, ended, mut rest) = next_line(text);
    let number = session_number(alloc, version, first, ended, first_line)?;
    let mut reading = Reading {
        txns: Vec::new(alloc),
        progress: LineState::Between,
    };
    let mut n = first_line;
    while !rest.is_empty() {
        let (body, ended, after) = next_line(rest);
        n += 1;
        reading = with_next(alloc, version, reading, body, ended, n)?;
        rest = after;
    }
    let Reading { txns, progress } = reading;
    match progress {
        LineState::Inside(txn) => Err(LogFault::OpenTransaction { line: txn.line }),
        LineState::Between | LineState::Over => Ok(Session { number, txns }),
    }
}

/// The form of a line, where it has one and its LF.
fn read_form(
    alloc: Global,
    version: Version,
    body: &[u8],
    ended: bool,
) -> Result<Option<Line>, AllocError>
    ensures { IfOk result (λ o. o ≡ (if ended then form_of version body.now else None)) }
{
    if ended {
        form_of(alloc, version, body)
    } else {
        Ok(None)
    }
}
