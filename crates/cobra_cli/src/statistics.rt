//! How large a log and its formula are.

ghost use Rattle.std.specs.Prelude.{◌≡◌, ◌-◌, ◌≤◌, ◌++◌, ◌∷◌, [], codes, decimal, IfOk, IfErr};
ghost use Rattle.std.specs.Prelude.{OnOk};
ghost use Rattle.cobra_answers.specs.Answers.{IsTold, IsRefused};
ghost use Rattle.cobra_cli.specs.Commands.{HasNoFormula, IsCounting};
ghost use Rattle.cobra_answers.specs.Failures.{failures_after};
ghost use Rattle.cobra_cli.specs.Statistics.{count_line, basis_text, counts_text, unlearnt_text};
ghost use Rattle.cobra_cli.specs.Statistics.{OpensNoMore};
ghost use Rattle.session_log.specs.Version.{version_of};

use crate::options::Options;
use cobra_answers::{Fault, Reply, Status, tell};
use cobra_formulas::{Basis, formula_of, read_log};
use desk::gate::Gate;
use itoa::Buffer;
use output::Sink;
use session_history::{Counts, History};
use session_log::Version;
use std::alloc::{AllocError, Global};
use std::sync::Wait;
use std::thread::Threads;
use std::time::Clock;

/// Appends a word, a space and a number.
fn put_count(out: &mut Vec<u8>, word: &[u8], count: usize) -> Result<(), AllocError>
    ensures line { OnOk result (out.new.items ≡ out.old.items ++ count_line word.now count) }
{
    let mut digits = Buffer::new();
    out.extend_from_slice(word)?;
    out.push(b' ')?;
    out.extend_from_slice(digits.format(count).as_bytes())?;
    out.push(b'\n')?;
    Ok(())
}

/// Appends the line of the anomaly that is printed with this number.
fn put_anomaly(out: &mut Vec<u8>, number: u8) -> Result<(), AllocError>
    ensures line { OnOk result (out.new.items
        ≡ out.old.items ++ (codes "anomaly A" ++ decimal number ++ 10 ∷ [])) }
{
    let mut digits = Buffer::new();
    out.extend_from_slice(b"anomaly A")?;
    out.extend_from_slice(digits.format(number).as_bytes())?;
    out.push(b'\n')?;
    Ok(())
}

/// Appends the counts of outcomes that the client never learnt, where a log of this version may
/// have any.
fn put_unlearnt(out: &mut Vec<u8>, version: Version, counts: Counts) -> Result<(), AllocError>
    ensures text { OnOk result (out.new.items
        ≡ out.old.items ++ unlearnt_text version counts.unknown counts.taken) }
{
    if version.has_unknown_line() {
        put_count(out, b"unknown", counts.unknown)?;
        put_count(out, b"taken", counts.taken)?;
    }
    Ok(())
}

/// Appends the counts of a log of this version.
fn put_counts(out: &mut Vec<u8>, version: Version, history: &History) -> Result<(), AllocError>
    ensures text { OnOk result (out.new.items ≡ out.old.items ++ counts_text version history.now) }
{
    let counts = history.counts();
    put_count(out, b"sessions", counts.sessions)?;
    put_count(out, b"committed", counts.committed)?;
    put_count(out, b"aborted", counts.aborted)?;
    put_unlearnt(out, version, counts)?;
    put_count(out, b"keys", counts.keys)?;
    put_count(out, b"operations", counts.operations)?;
    Ok(())
}

/// Appends the lines of so many choices between chains, of which so many are left.
fn put_chains(out: &mut Vec<u8>, all: usize, left: usize) -> Result<(), AllocError>
    requires some { left ≤ all }
    ensures text { OnOk result (out.new.items ≡ out.old.items
        ++ (count_line (codes "choices") all ++ count_line (codes "forced") (all - left) ++ count_line (codes "open") left)) }
{
    put_count(out, b"choices", all)?;
    put_count(out, b"forced", all - left)?;
    put_count(out, b"open", left)
}

/// Appends the lines of what a formula is made from.
fn put_basis(out: &mut Vec<u8>, basis: Basis) -> Result<(), AllocError>
    requires some { OpensNoMore basis }
    ensures text { OnOk result (out.new.items ≡ out.old.items ++ basis_text basis) }
{
    match basis {
        Basis::Anomalous(number) => put_anomaly(out, number),
        Basis::Bipaths(count) => put_count(out, b"choices", count),
        Basis::Chains { all, left } => put_chains(out, all, left),
    }
}

/// What is to be said of the counts of a history, whose log is of this version, and of its formula.
#[tactic(auto, unfolding(crate::specs::Statistics::stats_text))]
fn count_history<R: Threads + Wait + Clock + Sync, G: Gate>(
    rt: &R,
    alloc: Global,
    version: Version,
    history: &History,
    options: &Options,
    gate: &G,
) -> Result<Reply, Fault>
    ensures counted { IfOk result (λ r.
        IsCounting options.now.plain version history.now r.status r.text.items) }
    ensures refused { IfErr result (λ f. HasNoFormula options.now.plain f history.now) }
{
    let belonging = formula_of(rt, alloc, history, options.plain, options.workers, gate)?;
    let mut text = Vec::new(alloc);
    put_counts(&mut text, version, history)?;
    put_basis(&mut text, belonging.basis)?;
    put_count(&mut text, b"variables", belonging.formula.vars())?;
    put_count(&mut text, b"clauses", belonging.formula.count())?;
    Ok(Reply {
        status: Status::Done,
        text,
    })
}

/// Writes how many sessions, committed and aborted transactions, in versions 2 and 3 how many
/// transactions of unknown outcome and of these taken ones, and how many keys and operations a log
/// has; then its anomaly, or the number of choices between chains, of those of them that pruning
/// settled, and of those that are open, or with `--plain` the number of bipaths; and the variables
/// and clauses of its formula: a line each, of a word, a space and a number.
///
/// # Errors
/// Those of `encode`.
pub fn stats<R: Threads + Wait + Clock + Sync, G: Gate, W: Sink>(
    rt: &R,
    alloc: Global,
    log: &[u8],
    options: &Options,
    gate: &G,
    sink: &mut W,
) -> Result<Status, Fault>
    ensures told { IfOk result (IsTold (IsCounting options.now.plain (version_of log.now))
        log.now (W.bytes sink.old) (W.bytes sink.new)) }
    ensures refused { IfErr result (IsRefused (IsCounting options.now.plain (version_of log.now))
        (HasNoFormula options.now.plain)
        log.now (W.bytes sink.old) (W.bytes sink.new)) }
    ensures count { W.failures sink.new ≡ failures_after (W.failures sink.old) result }
{
    let history = read_log(rt, alloc, log, options.workers, gate)?;
    let reply = count_history(rt, alloc, Version::of(log), &history, options, gate)?;
    tell(sink, &reply)
}
