//! Logs, where their transactions stand, and places in them.

use level_refutations::{Hop, OpAt, Step, TxnAt};
use log_lines::{LogPlaces, TxnPlace};
use session_log::{Session, cut, parse_block};
use std::alloc::Global;
use std::process::Abort;

/// The sessions of a log.
pub fn sessions_of(rt: &impl Abort, alloc: Global, log: &str) -> Vec<Session> {
    let (_, blocks) = cut(alloc, log.as_bytes()).expect(rt, "a log");
    let mut sessions = Vec::new(alloc);
    for block in &blocks {
        let session = parse_block(alloc, log.as_bytes(), block).expect(rt, "a session");
        sessions.push(session).expect(rt, "memory");
    }
    sessions
}

/// Where a transaction of so many operations stands that begins behind this line.
fn place_of(rt: &impl Abort, alloc: Global, place: usize, before: usize, count: usize) -> TxnPlace {
    let begin = before.saturating_add(1);
    let end = begin.saturating_add(count).saturating_add(1);
    let mut ops = Vec::new(alloc);
    for line in begin.saturating_add(1)..end {
        ops.push(line).expect(rt, "memory");
    }
    TxnPlace {
        place,
        begin,
        ops,
        end,
    }
}

/// Where the transactions of a log without a header stand.
pub fn places_of(rt: &impl Abort, alloc: Global, sessions: &[Session]) -> LogPlaces {
    let mut all = Vec::new(alloc);
    let mut line: usize = 0;
    for session in sessions {
        line = line.saturating_add(1);
        let mut rows = Vec::new(alloc);
        for txn in &session.txns {
            let place = rows.len().saturating_add(1);
            let row = place_of(rt, alloc, place, line, txn.ops.len());
            line = row.end;
            rows.push(row).expect(rt, "memory");
        }
        all.push(rows).expect(rt, "memory");
    }
    LogPlaces { sessions: all }
}

/// Transaction `txn` of session `session`, both from 0.
pub fn txn(session: usize, txn: usize) -> TxnAt {
    TxnAt { session, txn }
}

/// Its operation `op`, from 0.
pub fn op(session: usize, txn: usize, op: usize) -> OpAt {
    OpAt {
        txn: TxnAt { session, txn },
        op,
    }
}

/// A hop by a session.
pub fn earlier(from: TxnAt, to: TxnAt) -> Hop {
    Hop {
        from,
        to,
        step: Step::Session,
    }
}

/// A hop by a read: operation `read` of the second reads operation `write` of the first.
pub fn reads(from: TxnAt, write: usize, to: TxnAt, read: usize) -> Hop {
    Hop {
        from,
        to,
        step: Step::Read { write, read },
    }
}
