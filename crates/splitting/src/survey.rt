//! What the names of locks have to keep clear of.

ghost use Rattle.std.specs.Prelude.{◌≡◌, ◌∷◌, ◌+◌, ◌≤◌, [], IfOk, OnOk, map, max, length, nat_lt};
ghost use Rattle.std.specs.List.{flat_map};
ghost use Rattle.session_log.specs.Text.{view, view_txn};
ghost use Rattle.log_definitions.specs.Unknown.{ops_in};
ghost use Rattle.splitting.specs.Locks.{leading};
ghost use Rattle.splitting.specs.Room.{Finds};

use session_log::{Key, Op, Session, Txn};
use std::alloc::AllocError;

/// The most bytes of a key.
pub const MOST_BYTES: usize = 64;

/// What the operations of a log have.
#[derive(Clone, Copy)]
pub struct Survey {
    /// One more underscore than any key begins with.
    pub marks: usize,
    /// The bytes of the longest key.
    pub longest: usize,
    /// The greatest identity that is read or written.
    pub largest: u64,
    /// How many operations write.
    pub writes: usize,
}

/// How many underscores the key begins with.
fn leading(key: &Key) -> usize
    ensures value { result ≡ leading key.now }
    ensures few { result ≤ 64 }
{
    key.as_bytes()
        .iter()
        .take_while(|byte| **byte == b'_')
        .count()
}

impl Survey {
    /// Of no operations.
    fn empty() -> Survey
        ensures { result ≡ record { marks = 1; longest = 0; largest = 0; writes = 0 } }
    {
        Survey {
            marks: 1,
            longest: 0,
            largest: 0,
            writes: 0,
        }
    }

    /// Takes the key and the identity of an operation.
    fn add_name(&mut self, key: &Key, wid: u64)
        ensures marks { self.new.marks ≡ max self.old.marks (leading key.now + 1) }
        ensures longest { self.new.longest ≡ max self.old.longest (length key.now) }
        ensures largest { self.new.largest ≡ max self.old.largest wid }
        ensures writes { self.new.writes ≡ self.old.writes }
    {
        self.marks = self.marks.max(leading(key) + 1);
        self.longest = self.longest.max(key.as_bytes().len());
        self.largest = self.largest.max(wid);
    }

    fn add_op(&mut self, op: &Op) -> Result<(), AllocError>
        ensures { OnOk result (Finds self.old (op.now ∷ []) self.new) }
    {
        match op {
            Op::Read { key, wid } => self.add_name(key, *wid),
            Op::Write { key, wid } => {
                self.add_name(key, *wid);
                self.writes = self.writes.checked_add(1).ok_or(AllocError)?;
            }
        }
        Ok(())
    }

    fn add_ops(&mut self, ops: &[Op]) -> Result<(), AllocError>
        ensures { OnOk result (Finds self.old ops.now self.new) }
    {
        for op in ops {
            self.add_op(op)?;
        }
        Ok(())
    }

    fn add_txns(&mut self, txns: &[Txn]) -> Result<(), AllocError>
        ensures { OnOk result (Finds self.old (flat_map (λ t. t.ops) (map view_txn txns.now))
            self.new) }
    {
        for txn in txns {
            self.add_ops(&txn.ops)?;
        }
        Ok(())
    }

    /// Of the operations of these sessions.
    pub fn of(sessions: &[Session]) -> Result<Survey, AllocError>
        ensures { IfOk result (Finds (record { marks = 1; longest = 0; largest = 0; writes = 0 })
            (ops_in (map view sessions.now))) }
    {
        let mut survey = Survey::empty();
        for session in sessions {
            survey.add_txns(&session.txns)?;
        }
        Ok(survey)
    }

    /// Whether some key has no room behind the underscores.
    pub fn is_long(self) -> bool
        ensures { result ≡ nat_lt 64 (self.marks + self.longest) }
    {
        self.marks.saturating_add(self.longest) > MOST_BYTES
    }
}
