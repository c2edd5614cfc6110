//! What is outside of the program, as the system has it: files, standard input and standard error.
//! Nothing here decides anything. What a call does is said by `cobra_program`, for each such world.

ghost use Rattle.std.specs.Prelude.{None};

use cobra_calls::{Errors, Inputs, NewFiles, Unread, failures_after, one_more, read_up_to};
use output::SinkFailed;
use std::alloc::Global;
use std::fmt::Display;
use std::fs;
use std::io::{self, Eprint, ErrorKind, Read, Write};
use std::rt::Files;

/// Standard input, until it is read, and the files of the system. No contract knows their bytes.
#[derive(Drop)]
pub struct SystemInputs<'a, R, I> {
    pub rt: &'a R,
    pub input: Option<I>,
    pub failures: u64,
    pub reads: u64,
}

impl<R: Files, I: Read + Drop> Inputs for SystemInputs<'_, R, I> {
    ghost given = { λ _. None };

    ghost held = { λ _ _. None };

    ghost failures = { λ i. i.failures };

    ghost reads = { λ i. i.reads };

    fn read_given(&mut self, alloc: Global, limit: usize) -> Result<Vec<u8>, Unread> {
        let read = match self.input.take() {
            Some(input) => read_up_to(alloc, input, limit),
            None => Err(Unread::Device(io::Error::from(ErrorKind::NotFound))),
        };
        self.failures = failures_after(self.failures, &read);
        self.reads = one_more(self.reads);
        read
    }

    fn read_held(&mut self, alloc: Global, name: &str, limit: usize) -> Result<Vec<u8>, Unread> {
        let read = match fs::open(self.rt, name) {
            Ok(file) => read_up_to(alloc, file, limit),
            Err(error) => Err(Unread::Device(error)),
        };
        self.failures = failures_after(self.failures, &read);
        self.reads = one_more(self.reads);
        read
    }
}

/// Standard error. No contract knows its bytes.
#[derive(Drop)]
pub struct SystemErrors<'a, R> {
    pub rt: &'a R,
    pub is_broken: bool,
}

impl<R: Eprint> Errors for SystemErrors<'_, R> {
    ghost lines = { λ _. None };

    ghost is_broken = { λ e. e.is_broken };

    fn tell<D: Display + Drop>(&mut self, text: D) -> Result<(), SinkFailed> {
        match self.rt.eprint(text) {
            Ok(()) => Ok(()),
            Err(_) => {
                self.is_broken = true;
                Err(SinkFailed)
            }
        }
    }
}

/// Files that are written. No contract knows them.
#[derive(Drop)]
pub struct SystemFiles<'a, R> {
    pub rt: &'a R,
    pub failures: u64,
}

impl<R: Files> NewFiles for SystemFiles<'_, R> {
    ghost files = { λ f. record { files = None; failures = f.failures } };

    fn put(&mut self, name: &str, bytes: &[u8]) -> io::Result<()> {
        match fs::create(self.rt, name).and_then(|mut file| file.write_all(bytes)) {
            Ok(()) => Ok(()),
            Err(error) => {
                self.failures = one_more(self.failures);
                Err(error)
            }
        }
    }
}
