//! An operation of a transaction, on a numbered key.

ghost use Rattle.std.specs.Prelude.{◌≡◌};
ghost use Rattle.serializability.specs.Events.{event_key, event_wid};

/// A read or a write. Keys are numbered from 0, in the order of their first appearance in the log.
#[derive(Clone, Copy, PartialEq, Eq)]
pub enum Event {
    /// A read of the key that named the write with this identity, 0 for the initial value.
    Read { key: usize, wid: u64 },
    /// A write of the key, with its own identity.
    Write { key: usize, wid: u64 },
}

impl Event {
    /// The number of the key.
    pub fn key(self) -> usize
        ensures { result ≡ event_key self }
    {
        match self {
            Event::Read { key, .. } | Event::Write { key, .. } => key,
        }
    }

    /// The identity.
    pub fn wid(self) -> u64
        ensures { result ≡ event_wid self }
    {
        match self {
            Event::Read { wid, .. } | Event::Write { wid, .. } => wid,
        }
    }
}
