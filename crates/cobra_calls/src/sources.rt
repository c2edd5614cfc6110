//! A reader, read to its end or to a limit.

ghost use Rattle.std.specs.Prelude.{◌^◌, ◌<◌, IfOk};
ghost use Rattle.cobra_calls.specs.Worlds.{IsReadUpTo};

use crate::world::Unread;
use cobra_answers::{ReadFault, Source, SourceFailed, read_all};
use std::alloc::Global;
use std::io::{self, ErrorKind, Read};

/// A reader as a source that keeps why it failed last.
#[derive(Drop)]
struct NamedRead<I> {
    reader: I,
    failures: u64,
    error: Option<io::Error>,
}

impl<I: Read> Source for NamedRead<I> {
    ghost rest = { λ s. I.remaining s.reader };

    ghost failures = { λ s. s.failures };

    fn get(&mut self, buffer: &mut [u8]) -> Result<usize, SourceFailed> {
        if self.failures == u64::MAX {
            return Err(SourceFailed);
        }
        match self.reader.read(buffer) {
            Ok(given) => Ok(given),
            Err(error) => {
                self.error = Some(error);
                self.failures += 1;
                Err(SourceFailed)
            }
        }
    }
}

/// Reads what a reader gives, up to one byte more than the limit.
#[tactic(auto, using(crate::proofs::Taken::read_up_to))]
pub fn read_up_to<I: Read + Drop>(alloc: Global, reader: I, limit: usize) -> Result<Vec<u8>, Unread>
    requires { limit < 2 ^ 63 }
    ensures text { IfOk result (λ text. IsReadUpTo (I.remaining reader) limit text.items) }
{
    let mut source = NamedRead {
        reader,
        failures: 0,
        error: None,
    };
    match read_all(alloc, &mut source, limit) {
        Ok(bytes) => Ok(bytes),
        Err(ReadFault::Memory) => Err(Unread::Memory),
        Err(ReadFault::Device) => Err(Unread::Device(match source.error {
            Some(error) => error,
            None => io::Error::from(ErrorKind::Other),
        })),
    }
}
