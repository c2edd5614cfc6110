//! Objects of logs that are refused, or cannot be read.

ghost use Rattle.std.specs.Prelude.{◌≡◌, ◌++◌, OnOk, IfOk};
ghost use Rattle.audit_report.specs.Objects.{number_or_null, code_of_fault, line_of_fault};
ghost use Rattle.audit_report.specs.Objects.{words_value, behind_refused, refusal_object};
ghost use Rattle.audit_report.specs.Objects.{why_failed, behind_failed, failure_object};

use crate::lines::{put, put_number};
use crate::object::{put_quoted, put_version};
use session_log::LogFault;
use std::alloc::{AllocError, Global};

fn put_number_or_null(out: &mut Vec<u8>, number: Option<usize>) -> Result<(), AllocError>
    ensures put { OnOk result (out.new.items ≡ out.old.items ++ number_or_null number) }
{
    match number {
        None => put(out, b"null"),
        Some(number) => put_number(out, b"", number),
    }
}

#[tactic(auto, unfolding(crate::specs::Objects::code_of_fault))]
fn put_code(out: &mut Vec<u8>, fault: LogFault) -> Result<(), AllocError>
    ensures put { OnOk result (out.new.items ≡ out.old.items ++ code_of_fault fault) }
{
    put(out, b",\"code\":\"")?;
    put(out, fault.code().as_bytes())?;
    put(out, b"\"")
}

#[tactic(auto, unfolding(crate::specs::Objects::line_of_fault))]
fn put_line(out: &mut Vec<u8>, fault: LogFault) -> Result<(), AllocError>
    ensures put { OnOk result (out.new.items ≡ out.old.items ++ line_of_fault fault) }
{
    put(out, b",\"line\":")?;
    put_number_or_null(out, fault.line())
}

#[tactic(auto, unfolding(crate::specs::Objects::words_value))]
fn put_words(out: &mut Vec<u8>, words: &[u8]) -> Result<(), AllocError>
    ensures put { OnOk result (out.new.items ≡ out.old.items ++ words_value words.now) }
{
    put(out, b",\"words\":")?;
    put_quoted(out, words)
}

/// Appends what stands behind the verdict.
fn put_behind(
    out: &mut Vec<u8>,
    quiet: bool,
    fault: LogFault,
    words: &[u8],
    version: &str,
) -> Result<(), AllocError>
    ensures put { OnOk result (out.new.items ≡ out.old.items
        ++ behind_refused quiet fault words.now version.now) }
{
    if quiet {
        return put(out, b"}\n");
    }
    put_code(out, fault)?;
    put_line(out, fault)?;
    put_words(out, words)?;
    put_version(out, version)
}

/// What is said of a refused log, for this fault in these words.
pub fn refusal_object(
    alloc: Global,
    quiet: bool,
    fault: LogFault,
    words: &[u8],
    version: &str,
) -> Result<Vec<u8>, AllocError>
    ensures object { IfOk result (λ text. text.items
        ≡ refusal_object quiet fault words.now version.now) }
{
    let mut out = Vec::from_slice(alloc, b"{\"verdict\":\"refused\"")?;
    put_behind(&mut out, quiet, fault, words, version)?;
    Ok(out)
}

/// What is said of a log that could not be read, for this reason.
pub fn failure_object(
    alloc: Global,
    quiet: bool,
    reason: &str,
    version: &str,
) -> Result<Vec<u8>, AllocError>
    ensures object { IfOk result (λ text. text.items
        ≡ failure_object quiet reason.now version.now) }
{
    let mut out = Vec::from_slice(alloc, b"{\"verdict\":\"failed\"")?;
    put_behind_failed(&mut out, quiet, reason, version)?;
    Ok(out)
}

#[tactic(auto, unfolding(crate::specs::Objects::why_failed))]
fn put_why_failed(out: &mut Vec<u8>, reason: &str) -> Result<(), AllocError>
    ensures put { OnOk result (out.new.items ≡ out.old.items ++ why_failed reason.now) }
{
    put(out, b",\"reason\":")?;
    put_quoted(out, reason.as_bytes())
}

fn put_behind_failed(
    out: &mut Vec<u8>,
    quiet: bool,
    reason: &str,
    version: &str,
) -> Result<(), AllocError>
    ensures put { OnOk result (out.new.items ≡ out.old.items
        ++ behind_failed quiet reason.now version.now) }
{
    if quiet {
        return put(out, b"}\n");
    }
    put_why_failed(out, reason)?;
    put_version(out, version)
}
