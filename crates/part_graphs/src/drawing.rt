//! Whole graphs.

ghost use Rattle.std.specs.Prelude.{◌≡◌, ◌++◌, map, OnOk, IfOk};
ghost use Rattle.std.specs.List.{flat_map};
ghost use Rattle.session_log.specs.Text.{view};
ghost use Rattle.log_lines.specs.Rows.{rows_of};
ghost use Rattle.part_graphs.specs.Graphs as spec;

use crate::boxes::{Look, put_boxes};
use crate::hops::{put_circle, put_initial};
use crate::points::put_refutation;
use level_refutations::{Edge, Evidence, Overlooked};
use log_lines::LogPlaces;
use point_refutations::Refutation;
use session_log::Session;
use std::alloc::{AllocError, Global};
use tell_evidence::{Log, evidence_text};

/// The begin of a graph in which two arrows between the same boxes stay two.
const BEGIN: &[u8] = b"digraph explanation {\nnode [shape=box];\n";

/// The begin of a graph with one box for lines of text.
const BEGIN_LINES: &[u8] =
    b"strict digraph explanation {\nnode [shape=box];\n\"anomaly\" [label=\"";

/// A graph without boxes.
pub fn empty_graph(alloc: Global) -> Result<Vec<u8>, AllocError>
    ensures graph { IfOk result (λ graph. graph.items ≡ spec.empty_graph) }
{
    Vec::from_slice(
        alloc,
        b"strict digraph explanation {\nnode [shape=box];\n}\n",
    )
}

/// The transactions of these sessions, which stand in the log at these places, as boxes without
/// arrows, behind these words as a comment, which end with a line feed.
pub fn search_graph(
    alloc: Global,
    sessions: &[Session],
    places: &LogPlaces,
    words: &[u8],
) -> Result<Vec<u8>, AllocError>
    ensures graph { IfOk result (λ graph. graph.items ≡ spec.search_graph (rows_of places.now)
        (map view sessions.now) words.now) }
{
    let mut out = Vec::new(alloc);
    out.extend_from_slice(b"// ")?;
    out.extend_from_slice(words)?;
    out.extend_from_slice(BEGIN)?;
    put_boxes(&mut out, &Log { sessions, places }, Look::Plain)?;
    out.extend_from_slice(b"}\n")?;
    Ok(out)
}

/// Why the snapshots and commits of these sessions, which stand in the log at these places, have no
/// order: each transaction as a box with two ends. It is not asked whether the refutation is right.
pub fn refutation_graph(
    alloc: Global,
    sessions: &[Session],
    places: &LogPlaces,
    refutation: &Refutation,
) -> Result<Vec<u8>, AllocError>
    ensures graph { IfOk result (λ graph. graph.items ≡ spec.refutation_graph (rows_of places.now)
        (map view sessions.now) refutation.now) }
{
    let log = Log { sessions, places };
    let mut out = Vec::new(alloc);
    out.extend_from_slice(BEGIN)?;
    put_boxes(&mut out, &log, Look::Points)?;
    put_refutation(&mut out, &log, refutation)?;
    out.extend_from_slice(b"}\n")?;
    Ok(out)
}

/// Appends lines as a label, in which a line break is a backslash and `n`.
fn put_label(out: &mut Vec<u8>, lines: &[u8]) -> Result<(), AllocError>
    ensures put { OnOk result (out.new.items ≡ out.old.items ++ flat_map spec.label_byte lines.now) }
{
    for byte in lines {
        if *byte == b'\n' {
            out.extend_from_slice(b"\\n")?;
        } else {
            out.push(*byte)?;
        }
    }
    Ok(())
}

/// A circle as a graph.
fn circle_graph(alloc: Global, log: &Log<'_>, edges: &[Edge]) -> Result<Vec<u8>, AllocError>
    ensures graph { IfOk result (λ graph. graph.items ≡ spec.circle_graph
        (rows_of log.now.places.now) (map view log.now.sessions.now) edges.now) }
{
    let mut out = Vec::new(alloc);
    out.extend_from_slice(BEGIN)?;
    put_boxes(&mut out, log, Look::Plain)?;
    put_circle(&mut out, log, edges)?;
    out.extend_from_slice(b"}\n")?;
    Ok(out)
}

/// A read of the initial value that overlooks a write as a graph.
fn initial_graph(alloc: Global, log: &Log<'_>, it: &Overlooked) -> Result<Vec<u8>, AllocError>
    ensures graph { IfOk result (λ graph. graph.items ≡ spec.initial_graph
        (rows_of log.now.places.now) (map view log.now.sessions.now) it.now) }
{
    let mut out = Vec::new(alloc);
    out.extend_from_slice(BEGIN)?;
    put_boxes(&mut out, log, Look::Plain)?;
    put_initial(&mut out, log, it)?;
    out.extend_from_slice(b"}\n")?;
    Ok(out)
}

/// Evidence against a level of these sessions, which stand in the log at these places: a read that no
/// level allows in its lines, anything else as boxes and arrows. It is not asked whether the evidence
/// is right.
pub fn evidence_graph(
    alloc: Global,
    sessions: &[Session],
    places: &LogPlaces,
    evidence: &Evidence,
) -> Result<Vec<u8>, AllocError>
    ensures graph { IfOk result (λ graph. graph.items ≡ spec.evidence_graph (rows_of places.now)
        (map view sessions.now) evidence.now) }
{
    let log = Log { sessions, places };
    match evidence {
        Evidence::Fault(_) => {
            let text = evidence_text(alloc, sessions, places, evidence)?;
            let mut out = Vec::new(alloc);
            out.extend_from_slice(BEGIN_LINES)?;
            put_label(&mut out, &text)?;
            out.extend_from_slice(b"\"];\n}\n")?;
            Ok(out)
        }
        Evidence::Circle(edges) => circle_graph(alloc, &log, edges),
        Evidence::Initial(overlooked) => initial_graph(alloc, &log, overlooked),
    }
}
