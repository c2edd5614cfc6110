//! A writer in memory, which fails when it is told to.

use std::io;
use std::io::{ErrorKind, Write};

/// A writer that takes a byte a call, and none after `good` calls.
#[derive(Drop)]
pub struct Tape {
    pub taken: Vec<u8>,
    pub good: usize,
}

impl Write for Tape {
    fn write(&mut self, buf: &[u8]) -> io::Result<usize> {
        if self.good == 0 {
            return Err(io::Error::from(ErrorKind::Other));
        }
        self.good -= 1;
        let taken = buf.len().min(1);
        self.taken.extend_from_slice(&buf[..taken])?;
        Ok(taken)
    }

    fn flush(&mut self) -> io::Result<()> {
        Ok(())
    }
}
