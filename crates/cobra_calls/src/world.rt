//! What is outside of the program: where bytes are read, and where they are told.

ghost use Rattle.std.specs.Prelude.{◌≡◌, ℕ, ◌^◌, ◌<◌, if◌then◌else◌, Bool, true, is_ok};
ghost use Rattle.std.specs.Prelude.{List, [], ◌∷◌, Option, IfOk, OnOk, OnErr, IfSome};
ghost use Rattle.std.specs.Io.KnownBytes.{Keeps, Appends};
ghost use Rattle.output.specs.Sinks.{one_more};
ghost use Rattle.cobra_calls.specs.Worlds.{IsReadUpTo, TellsFront, read_failures};
ghost use Rattle.cobra_calls.specs.Files.{Disk, Adds, FailsAt};

use output::{Counted, Sink, SinkFailed};
use std::alloc::Global;
use std::fmt::Display;
use std::io::{self, Write};

/// Why nothing was read.
#[derive(Drop)]
pub enum Unread {
    /// Memory was refused.
    Memory,
    /// There is no such file, or it could not be read.
    Device(io::Error),
}

/// Standard input, and the files that are read.
pub trait Inputs {
    /// The bytes of standard input, where they are known.
    ghost given: { Self → Option (List ℕ) };

    /// The bytes of the file of each name, where they are known.
    ghost held: { Self → List ℕ → Option (List ℕ) };

    /// How many calls failed, up to 2^64 - 1.
    ghost failures: { Self → ℕ };

    /// How many calls there were, up to 2^64 - 1.
    ghost reads: { Self → ℕ };

    /// Reads standard input, up to one byte more than the limit.
    fn read_given(&mut self, alloc: Global, limit: usize) -> Result<Vec<u8>, Unread>
        requires { limit < 2 ^ 63 }
        ensures text { IfOk result (λ text. IsReadUpTo (given self.old) limit text.items) }
        ensures held { held self.new ≡ held self.old }
        ensures count { failures self.new ≡ read_failures (failures self.old) result }
        ensures once { reads self.new ≡ one_more (reads self.old) };

    /// Reads the file of this name, up to one byte more than the limit.
    fn read_held(&mut self, alloc: Global, name: &str, limit: usize) -> Result<Vec<u8>, Unread>
        requires { limit < 2 ^ 63 }
        ensures text { IfOk result (λ text. IsReadUpTo (held self.old name.now) limit text.items) }
        ensures given { given self.new ≡ given self.old }
        ensures held { held self.new ≡ held self.old }
        ensures count { failures self.new ≡ read_failures (failures self.old) result }
        ensures once { reads self.new ≡ one_more (reads self.old) };
}

/// The count of failures after one more, which stops at 2^64 - 1.
pub fn one_more(failures: u64) -> u64
    ensures more { result ≡ one_more failures }
{
    if failures < u64::MAX {
        failures + 1
    } else {
        failures
    }
}

/// How many reads failed after one that gave this.
pub fn failures_after(failures: u64, read: &Result<Vec<u8>, Unread>) -> u64
    ensures after { result ≡ read_failures failures read.now }
{
    match read {
        Err(Unread::Device(_)) => one_more(failures),
        _ => failures,
    }
}

/// A sink that hands on what it holds back: standard output.
pub trait Outlet: Sink {
    /// Whether nothing is held back.
    ghost is_through: { Self → Bool };

    /// Hands on what is held back.
    fn flush(&mut self) -> Result<(), SinkFailed>
        ensures keeps { Keeps (Self.bytes self.old) (Self.bytes self.new) }
        ensures through { OnOk result (is_through self.new ≡ true) }
        ensures count { Self.failures self.new ≡ (if is_ok result then Self.failures self.old
            else one_more (Self.failures self.old)) };
}

impl<W: Write> Outlet for Counted<W> {
    ghost is_through = { λ _. true };

    fn flush(&mut self) -> Result<(), SinkFailed> {
        match self.writer.flush() {
            Ok(()) => Ok(()),
            Err(_) => {
                self.failures = one_more(self.failures);
                Err(SinkFailed)
            }
        }
    }
}

/// Files that are written beside the output.
pub trait NewFiles {
    /// The files so far, where they are known, of each its name and its bytes; and how many calls
    /// failed, up to 2^64 - 1.
    ghost files: { Self → Disk };

    /// Writes a file of this name and these bytes. Where that fails there is no file, or one of its
    /// first bytes.
    fn put(&mut self, name: &str, bytes: &[u8]) -> io::Result<()>
        ensures put { OnOk result (Adds (files self.old) (files self.new)
            ((name.now, bytes.now) ∷ [])) }
        ensures failed { OnErr result (FailsAt (files self.old) (files self.new)
            (name.now, bytes.now)) };
}

/// A place where refusals are told: standard error.
pub trait Errors {
    /// The bytes so far, where they are known.
    ghost lines: { Self → Option (List ℕ) };

    /// Whether some text was not told whole.
    ghost is_broken: { Self → Bool };

    /// Tells a text: all of it, or, where the device fails, no more than its first bytes.
    fn tell<D: Display + Drop>(&mut self, text: D) -> Result<(), SinkFailed>
        ensures told { OnOk result (IfSome (D.output text)
            (Appends (lines self.old) (lines self.new))) }
        ensures failed { OnErr result (IfSome (D.output text)
            (TellsFront (lines self.old) (lines self.new))) }
        ensures whole { OnOk result (is_broken self.new ≡ is_broken self.old) }
        ensures broken { OnErr result (is_broken self.new ≡ true) };
}

/// What is outside of the program.
#[derive(Drop)]
pub struct World<I, O, E> {
    pub inputs: I,
    pub output: O,
    pub errors: E,
}
