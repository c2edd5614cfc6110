//! A refutation by points as text.

ghost use Rattle.std.specs.Prelude.{◌≡◌, ◌++◌, map, OnOk, IfOk};
ghost use Rattle.session_log.specs.Text.{view};
ghost use Rattle.log_lines.specs.Rows.{rows_of};
ghost use Rattle.tell_points.specs.Told as spec;

use crate::lines::{put_neither, put_steps, put_way};
use crate::names::ending_name;
use crate::short::put_short;
use log_lines::LogPlaces;
use point_refutations::{Ending, Refutation, Step};
use session_log::Session;
use std::alloc::{AllocError, Global};
use tell_evidence::{Log, tell};

/// Appends what steps lead to.
fn put_ending(out: &mut Vec<u8>, log: &Log<'_>, ending: &Ending) -> Result<(), AllocError>
    ensures put { OnOk result (out.new.items ≡ out.old.items ++ spec.ending_text
        (rows_of log.now.places.now) (map view log.now.sessions.now) ending.now) }
{
    match ending {
        Ending::Circle(edges) => put_way(out, log, b"", edges),
        Ending::Neither {
            both,
            not_one,
            not_other,
        } => put_neither(out, log, *both, not_one, not_other),
    }
}

/// Appends what stands before steps.
#[tactic(auto, unfolding(crate::specs::Told::steps_line))]
fn put_steps_line(out: &mut Vec<u8>, log: &Log<'_>) -> Result<(), AllocError>
    ensures put { OnOk result (out.new.items ≡ out.old.items ++ spec.steps_line) }
{
    tell!(out, log; Text(b"these orders of snapshots and commits are forced:\n"))
}

/// Appends the steps that it rests on.
fn put_all_steps(out: &mut Vec<u8>, log: &Log<'_>, steps: &[Step]) -> Result<(), AllocError>
    ensures put { OnOk result (out.new.items ≡ out.old.items ++ spec.all_steps_text
        (rows_of log.now.places.now) (map view log.now.sessions.now) steps.now) }
{
    if steps.is_empty() {
        return Ok(());
    }
    put_steps_line(out, log)?;
    put_steps(out, log, steps)
}

/// Why the snapshots and commits of these sessions have no order, in lines: what closes, in short
/// and edge by edge, with the lines of the log by these places; its name; and the steps that it rests
/// on. It is not asked whether the refutation is right.
pub fn refutation_text(
    alloc: Global,
    sessions: &[Session],
    places: &LogPlaces,
    refutation: &Refutation,
) -> Result<Vec<u8>, AllocError>
    ensures text { IfOk result (λ text. text.items ≡ spec.refutation_text (rows_of places.now)
        (map view sessions.now) refutation.now) }
{
    let log = Log { sessions, places };
    let mut out = Vec::new(alloc);
    put_short(&mut out, &log, &refutation.steps, &refutation.ending)?;
    put_ending(&mut out, &log, &refutation.ending)?;
    let name = ending_name(sessions, &refutation.steps, &refutation.ending);
    tell!(&mut out, &log; Text(b"known as: "), Text(name.as_bytes()), Text(b"\n"))?;
    put_all_steps(&mut out, &log, &refutation.steps)?;
    Ok(out)
}
