//! What is written into files beside the report.

ghost use Rattle.std.specs.Prelude.{◌≡◌, ◌++◌, List, map, IfOk, OnOk};
ghost use Rattle.session_log.specs.Text.{ClientSession, view, log_text, least_version};
ghost use Rattle.log_definitions.specs.Unknown.{resolved};
ghost use Rattle.log_laws.specs.Logs.{IsLog};
ghost use Rattle.order_text.specs.Text.{name_line, order_text};
ghost use Rattle.audit_report.specs.Orders.{name_at, names_text};

use crate::lines::put_number;
use crate::told::ToldPart;
use node_names::names_of;
use session_log::{Op, Session, Txn, Version, print_log};
use std::alloc::{AllocError, Global};

/// A part as a log.
#[derive(Drop)]
pub struct PartFile {
    pub log: Vec<u8>,
    /// For each of its lines that of the whole log, a line each. No contract speaks of it.
    pub map: Vec<u8>,
}

fn put_map_line(out: &mut Vec<u8>, line: usize) -> Result<(), AllocError> {
    put_number(out, b"", line)?;
    out.push(b'\n')?;
    Ok(())
}

fn is_same(one: &Op, other: &Op) -> bool {
    match (one, other) {
        (Op::Read { key, wid }, Op::Read { key: k, wid: w })
        | (Op::Write { key, wid }, Op::Write { key: k, wid: w }) => key == k && wid == w,
        _ => false,
    }
}

/// Appends the lines of a transaction, of which these operations are kept.
fn put_txn_map(out: &mut Vec<u8>, txn: &Txn, kept: &[Op], begin: usize) -> Result<(), AllocError> {
    put_map_line(out, begin)?;
    let mut next: usize = 0;
    let mut line = begin;
    for op in &txn.ops {
        line = line.saturating_add(1);
        if kept.get(next).is_some_and(|kept| is_same(kept, op)) {
            put_map_line(out, line)?;
            next = next.saturating_add(1);
        }
    }
    put_map_line(out, line.saturating_add(1))
}

/// Appends the lines of a session, which begins at this line.
fn put_session_map(
    out: &mut Vec<u8>,
    part: &ToldPart,
    session: &Session,
    kept: &Session,
    line: usize,
) -> Result<(), AllocError> {
    put_map_line(out, line)?;
    let number = usize::from(session.number);
    let told = part.txns.iter().filter(|txn| txn.session == number);
    for (txn, told) in kept.txns.iter().zip(told) {
        if let Some(whole) = session.txns.get(told.place.saturating_sub(1)) {
            put_txn_map(out, whole, &txn.ops, told.first)?;
        }
    }
    Ok(())
}

/// Whether a transaction of these sessions states a moment, so that their text has a header.
fn has_header(sessions: &[Session]) -> bool {
    let states = |txn: &Txn| txn.begun.is_some() || txn.ended.is_some();
    sessions
        .iter()
        .any(|session| session.txns.iter().any(states))
}

/// For each line of the part's text that of the whole log, of these sessions and of this version.
fn map_of(
    alloc: Global,
    version: Version,
    sessions: &[Session],
    part: &ToldPart,
) -> Result<Vec<u8>, AllocError> {
    let kept = &part.refuted.part;
    let mut out = Vec::new(alloc);
    if has_header(kept) {
        put_map_line(&mut out, 1)?;
    }
    let mut line = version.first_line();
    let mut next: usize = 0;
    for session in sessions {
        if let Some(of_part) = kept.get(next)
            && of_part.number == session.number
        {
            put_session_map(&mut out, part, session, of_part, line)?;
            next = next.saturating_add(1);
        }
        line = line.saturating_add(session.line_count());
    }
    Ok(out)
}

/// A part as a log, with its map into the log of these sessions, which is of this version.
pub fn part_file(
    alloc: Global,
    version: Version,
    sessions: &[Session],
    part: &ToldPart,
) -> Result<PartFile, AllocError>
    ensures log { IfOk result (λ file. let ss = map view part.now.refuted.part.items in
        file.log.items ≡ log_text (least_version ss) ss) }
{
    Ok(PartFile {
        log: print_log(alloc, &part.refuted.part)?,
        map: map_of(alloc, version, sessions, part)?,
    })
}

/// The name of a node among these names.
fn name_at(names: &[(u16, usize)], number: usize) -> (usize, usize)
    ensures name { result ≡ name_at names.now number }
{
    if number == 0 || number > names.len() {
        return (0, 0);
    }
    let (session, place) = names[number - 1];
    (usize::from(session), place)
}

#[tactic(auto, unfolding(crate::specs::Report::field))]
fn put_name_line(out: &mut Vec<u8>, name: (usize, usize)) -> Result<(), AllocError>
    ensures put { OnOk result (out.new.items ≡ out.old.items ++ name_line name) }
{
    put_number(out, b"", name.0)?;
    put_number(out, b" ", name.1)?;
    out.push(b'\n')?;
    Ok(())
}

/// A line for each number of an order.
fn names_text(alloc: Global, names: &[(u16, usize)], order: &[usize]) -> Result<Vec<u8>, AllocError>
    ensures text { IfOk result (λ text. text.items ≡ names_text names.now order.now) }
{
    let mut out = Vec::new(alloc);
    for number in order {
        put_name_line(&mut out, name_at(names, *number))?;
    }
    Ok(out)
}

/// The text of an order of these sessions, whose outcomes are known.
pub fn order_file(
    alloc: Global,
    sessions: &[Session],
    order: &[usize],
) -> Result<Vec<u8>, AllocError>
    requires log { IsLog (map view sessions.now) }
    ensures text { IfOk result (λ text. (ss : List ClientSession)
        → map view sessions.now ≡ resolved ss → text.items ≡ order_text ss order.now) }
{
    let names = names_of(alloc, sessions)?;
    names_text(alloc, &names, order)
}
