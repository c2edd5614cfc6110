//! The report as a graph: the verdict and the first part in comments, and the graph of that part.

ghost use Rattle.std.specs.Prelude.{◌≡◌, ◌++◌, OnOk, IfOk};
ghost use Rattle.std.specs.List.{flat_map};
ghost use Rattle.audit_report.specs.Graph as spec;

use crate::lines::{put, put_line};
use crate::report::{put_first_line, put_heading, put_listed};
use crate::told::{Answer, Told, ToldPart};
use part_graphs::empty_graph;
use std::alloc::{AllocError, Global};

/// What stands before a comment.
const COMMENT: &[u8] = b"// ";

/// Appends a graph without boxes.
fn put_empty(alloc: Global, out: &mut Vec<u8>) -> Result<(), AllocError>
    ensures put { OnOk result (out.new.items ≡ out.old.items ++ spec.empty_graph) }
{
    put(out, &empty_graph(alloc)?)
}

/// Appends how many transactions a part has and what was found of it, and which they are, as comments;
/// and its graph.
fn put_part(out: &mut Vec<u8>, part: &ToldPart) -> Result<(), AllocError>
    ensures put { OnOk result (out.new.items ≡ out.old.items ++ spec.part_graph part.now) }
{
    put(out, COMMENT)?;
    put_heading(out, part)?;
    put(out, COMMENT)?;
    put_listed(out, &part.txns)?;
    put(out, &part.graph)
}

/// Appends the first part.
fn put_first(alloc: Global, out: &mut Vec<u8>, parts: &[ToldPart]) -> Result<(), AllocError>
    ensures put { OnOk result (out.new.items ≡ out.old.items ++ spec.first_graph parts.now) }
{
    match parts {
        [] => put_empty(alloc, out),
        [first, ..] => put_part(out, first),
    }
}

/// Appends lines as comments.
fn put_comments(out: &mut Vec<u8>, lines: &[String]) -> Result<(), AllocError>
    ensures put { OnOk result (out.new.items ≡ out.old.items ++ flat_map spec.comment lines.now) }
{
    for line in lines {
        put(out, COMMENT)?;
        put_line(out, line)?;
    }
    Ok(())
}

/// Appends what stands behind the first line.
fn put_behind(alloc: Global, out: &mut Vec<u8>, answer: &Answer) -> Result<(), AllocError>
    ensures put { OnOk result (out.new.items ≡ out.old.items ++ spec.behind_text answer.now) }
{
    match answer {
        Answer::NotSerializable(parts) => put_first(alloc, out, parts),
        Answer::Undecided { advice, .. } => {
            put_comments(out, advice)?;
            put_empty(alloc, out)
        }
        Answer::Serializable | Answer::NoMoments | Answer::TooFew { .. } => put_empty(alloc, out),
    }
}

/// The report as a graph.
pub fn graph_text(alloc: Global, told: &Told) -> Result<Vec<u8>, AllocError>
    ensures graph { IfOk result (λ text. text.items ≡ spec.graph_text told.now) }
{
    let mut out = Vec::new(alloc);
    put(&mut out, COMMENT)?;
    put_first_line(&mut out, told.level, &told.answer)?;
    put_behind(alloc, &mut out, &told.answer)?;
    Ok(out)
}
