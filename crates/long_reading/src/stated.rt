//! The numbers of sessions and the identities of writes, each with its line.

ghost use Rattle.std.specs.Prelude.{◌≡◌, ◌+◌, ◌<◌, ◌^◌, ◌∷◌, [], length, map, IfOk, OnOk};
ghost use Rattle.session_log.specs.Text.{view, view_txn, op_line, txn_lines, session_lines};
ghost use Rattle.log_definitions.specs.WellFormed.{log_lines, sessions_from, writes_from};
ghost use Rattle.long_reading.specs.Statements.{by_line, Takes};

use crate::repeats::Stated;
use session_log::{Op, Session, Txn};
use std::alloc::{AllocError, Global};

/// What the sessions so far state, and the line behind them.
#[derive(Drop)]
pub struct Statements {
    pub line: usize,
    pub sessions: Vec<Stated>,
    pub writes: Vec<Stated>,
}

impl Statements {
    /// Nothing, before this line.
    fn new(alloc: Global, line: usize) -> Statements
        ensures line { result.line ≡ line }
        ensures sessions { result.sessions.items ≡ [] }
        ensures writes { result.writes.items ≡ [] }
    {
        Statements {
            line,
            sessions: Vec::new(alloc),
            writes: Vec::new(alloc),
        }
    }

    /// What these sessions state, of which the first stands in line `first`.
    pub fn of(alloc: Global, first: usize, sessions: &[Session]) -> Result<Statements, AllocError>
        requires room { first + length (log_lines (map view sessions.now)) < 2 ^ 64 }
        ensures sessions { IfOk result (λ all. by_line all.sessions.items
            ≡ sessions_from first (log_lines (map view sessions.now))) }
        ensures writes { IfOk result (λ all. by_line all.writes.items
            ≡ writes_from first (log_lines (map view sessions.now))) }
    {
        let mut all = Statements::new(alloc, first);
        for session in sessions {
            all.add_session(session)?;
        }
        Ok(all)
    }

    /// Takes the next session.
    fn add_session(&mut self, session: &Session) -> Result<(), AllocError>
        requires { self.old.line + length (session_lines (view session.now)) < 2 ^ 64 }
        ensures { OnOk result (Takes self.old self.new (session_lines (view session.now))) }
    {
        self.sessions.push(Stated {
            number: u64::from(session.number),
            line: self.line,
        })?;
        self.line += 1;
        for txn in &session.txns {
            self.add_txn(txn)?;
        }
        Ok(())
    }

    /// Takes the next transaction.
    fn add_txn(&mut self, txn: &Txn) -> Result<(), AllocError>
        requires { self.old.line + length (txn_lines (view_txn txn.now)) < 2 ^ 64 }
        ensures { OnOk result (Takes self.old self.new (txn_lines (view_txn txn.now))) }
    {
        self.line += 1;
        for op in &txn.ops {
            self.add_op(op)?;
        }
        self.line += 1;
        Ok(())
    }

    /// Takes the next operation.
    fn add_op(&mut self, op: &Op) -> Result<(), AllocError>
        requires { self.old.line + 1 < 2 ^ 64 }
        ensures { OnOk result (Takes self.old self.new (op_line op.now ∷ [])) }
    {
        if let Op::Write { key: _, wid } = op {
            self.writes.push(Stated {
                number: *wid,
                line: self.line,
            })?;
        }
        self.line += 1;
        Ok(())
    }
}
