//! What a command has to write, and that it is written.

ghost use Rattle.std.specs.Prelude.{◌≡◌, IfOk, IfErr, OnOk};
ghost use Rattle.std.specs.Io.KnownBytes.{Appends};
ghost use Rattle.cobra_answers.specs.Answers.{IsCutAt};
ghost use Rattle.cobra_answers.specs.Failures.{failures_after};

use crate::fault::Fault;
use crate::status::Status;
use output::{Sink, write_all};
use std::alloc::{AllocError, Global};

/// How a command ends, and what it has to write.
#[derive(Drop)]
pub struct Reply {
    pub status: Status,
    pub text: Vec<u8>,
}

impl Reply {
    /// This end, with a text that is always the same.
    pub fn fixed(alloc: Global, status: Status, text: &[u8]) -> Result<Reply, AllocError>
        ensures status { IfOk result (λ r. r.status ≡ status) }
        ensures text { IfOk result (λ r. r.text.items ≡ text.now) }
    {
        Ok(Reply {
            status,
            text: Vec::from_slice(alloc, text)?,
        })
    }
}

/// Puts the text into a sink.
pub fn tell<W: Sink>(sink: &mut W, reply: &Reply) -> Result<Status, Fault>
    ensures status { IfOk result (λ status. status ≡ reply.now.status) }
    ensures told { OnOk result (Appends (W.bytes sink.old)
        (W.bytes sink.new) reply.now.text.items) }
    ensures cut { IfErr result (IsCutAt (W.bytes sink.old)
        (W.bytes sink.new) reply.now.text.items) }
    ensures count { W.failures sink.new ≡ failures_after (W.failures sink.old) result }
{
    write_all(sink, &reply.text)?;
    Ok(reply.status)
}
