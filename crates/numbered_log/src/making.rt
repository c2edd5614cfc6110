//! How a log gets its numbers.

ghost use Rattle.std.specs.Prelude.{◌≡◌, ◌+◌, ◌<◌, ◌≤◌, ◌++◌, ◌∷◌, [], ℕ, List, Some, length, map};
ghost use Rattle.std.specs.Prelude.{slice_get, IfOk, OnOk};
ghost use Rattle.std.specs.List.{flat_map};
ghost use Rattle.session_log.specs.Text.{view, view_txn};
ghost use Rattle.session_log.specs.declared.session.Op.{Op as OpValue};
ghost use Rattle.std.specs.BTreeSet.{contains};
ghost use Rattle.std.specs.Ordering.{nat_cmp};
ghost use Rattle.log_definitions.specs.Unknown.{is_committed, settle, settled, taken};
ghost use Rattle.log_definitions.specs.Serial.{Committed, committed_in, committed_of};
ghost use Rattle.log_laws.specs.Logs.{IsLearntLog};
ghost use Rattle.numbered_log.specs.View.{begun_in, ended_in};
ghost use Rattle.numbered_log.specs.Numbering.{IsNumbering};
ghost use Rattle.numbered_log.specs.Making.{AddsMoments, FindsAll, IsMade, node_at, node_of, session_as};

use crate::fault::{NumberingFault, short};
use crate::keys::KeyNumbers;
use crate::log::{Moments, Node, NumberedLog};
use crate::numbers::Numbers;
use crate::op::PackedOp;
use crate::versions::VersionNumbers;
use session_log::{Op, Outcome, Session, Txn};
use std::alloc::{AllocError, Global};
use std::collections::BTreeSet;

/// The least and the most marks.
const LEAST_MARKS: usize = 1 << 12;

const MOST_MARKS: usize = 1 << 26;

/// How much the sessions have.
#[derive(Clone, Copy)]
struct Sizes {
    nodes: usize,
    ops: usize,
    /// The greatest identity.
    greatest: u64,
}

/// The identity that an operation names.
fn wid_of(op: &Op) -> u64 {
    match op {
        Op::Read { wid, .. } | Op::Write { wid, .. } => *wid,
    }
}

/// How many transactions and operations the sessions have, and their greatest identity.
fn sizes_of(sessions: &[Session]) -> Sizes {
    let mut sizes = Sizes {
        nodes: 0,
        ops: 0,
        greatest: 0,
    };
    for session in sessions {
        sizes.nodes = sizes.nodes.saturating_add(session.txns.len());
        for txn in &session.txns {
            sizes.ops = sizes.ops.saturating_add(txn.ops.len());
            for op in &txn.ops {
                sizes.greatest = sizes.greatest.max(wid_of(op));
            }
        }
    }
    sizes
}

/// How many identities are their own numbers: all, where they are about as many as operations, and
/// else the initial one.
fn direct_for(sizes: Sizes) -> u64
    ensures { 0 < result }
{
    if sizes.greatest < sizes.ops as u64 {
        sizes.greatest + 1
    } else {
        1
    }
}

/// How many marks serve so many items.
fn marks_for(items: usize) -> usize
    ensures { 0 < result }
{
    items.max(LEAST_MARKS).min(MOST_MARKS)
}

/// How many marks serve the other identities.
fn marks_beyond(direct: u64, sizes: Sizes) -> usize
    ensures { 0 < result }
{
    if direct > 1 {
        LEAST_MARKS
    } else {
        marks_for(sizes.ops)
    }
}

/// Whether a transaction is a node, where those of unknown outcome are taken, or not.
fn is_node(txn: &Txn, is_taken: bool) -> bool
    ensures { result ≡ is_committed (settle is_taken (view_txn txn.now)) }
{
    match txn.outcome {
        Outcome::Commit => true,
        Outcome::Abort => false,
        Outcome::Unknown => is_taken,
    }
}

/// What so far has numbers.
#[derive(Drop)]
pub struct Making<'a> {
    pub numbers: Numbers<'a>,
    pub nodes: Vec<Node>,
    pub ops: Vec<PackedOp>,
    pub moments: Vec<Moments>,
}

/// Room for the moments of a node at this place, where those before it state none.
fn widen(list: &mut Vec<Moments>, place: usize) -> Result<(), AllocError>
    requires { length list.old.items ≤ place }
    ensures room { OnOk result (length list.new.items ≡ place) }
    ensures begun { (v : ℕ) → begun_in list.new.items v ≡ begun_in list.old.items v }
    ensures ended { (v : ℕ) → ended_in list.new.items v ≡ ended_in list.old.items v }
{
    while list.len() < place {
        list.push(Moments {
            begun: None,
            ended: None,
        })?;
    }
    Ok(())
}

/// Notes the moments of the node at this place, where it states one.
fn add_moments(list: &mut Vec<Moments>, place: usize, moments: Moments) -> Result<(), AllocError>
    requires { length list.old.items ≤ place }
    ensures { OnOk result (AddsMoments list.old.items list.new.items place moments) }
{
    if moments.begun.is_none() && moments.ended.is_none() {
        return Ok(());
    }
    widen(list, place)?;
    list.push(moments)?;
    Ok(())
}

impl<'a> Making<'a> {
    /// Nothing, with room for so much.
    fn new(alloc: Global, sizes: Sizes) -> Result<Making<'a>, NumberingFault>
        ensures finds { IfOk result (λ making. FindsAll making.numbers) }
        ensures made { IfOk result (λ making. (numbers : List ℕ) → IsMade numbers [] [] making) }
    {
        let direct = direct_for(sizes);
        Ok(Making {
            numbers: Numbers {
                keys: KeyNumbers::new(alloc, marks_for(sizes.ops / 4))?,
                versions: VersionNumbers::new(alloc, direct, marks_beyond(direct, sizes))?,
            },
            nodes: Vec::with_capacity(alloc, sizes.nodes)?,
            ops: Vec::with_capacity(alloc, sizes.ops)?,
            moments: Vec::new(alloc),
        })
    }

    /// Adds a committed transaction at this place of a session.
    fn add_node(&mut self, txn: &'a Txn, session: u32, place: u32) -> Result<(), NumberingFault>
        requires finds { FindsAll self.old.numbers }
        ensures finds { OnOk result (FindsAll self.new.numbers) }
        ensures made { OnOk result ((numbers : List ℕ) (number : ℕ) (seen : List OpValue)
            (txns : List Committed) → IsMade numbers seen txns self.old →
            slice_get numbers session ≡ Some number →
            IsMade numbers (seen ++ (view_txn txn.now).ops)
            (txns ++ node_at number place (view_txn txn.now) ∷ []) self.new) }
    {
        let index = self.nodes.len();
        let first = short(self.ops.len())?;
        let number = short(index)? + 1;
        self.numbers.add_ops(&mut self.ops, &txn.ops, number)?;
        let behind = short(self.ops.len())?;
        let moments = Moments {
            begun: txn.begun,
            ended: txn.ended,
        };
        if self.moments.len() > index {
            return Err(NumberingFault::TooMany);
        }
        add_moments(&mut self.moments, index, moments)?;
        self.nodes.push(Node {
            session,
            place,
            first,
            behind,
        })?;
        Ok(())
    }

    /// Adds the transaction at this place of a session, whose unknown one is taken, or not.
    fn add_txn(
        &mut self,
        txn: &'a Txn,
        session: u32,
        place: u32,
        is_taken: bool,
    ) -> Result<(), NumberingFault>
        requires finds { FindsAll self.old.numbers }
        ensures finds { OnOk result (FindsAll self.new.numbers) }
        ensures made { OnOk result ((numbers : List ℕ) (number : ℕ) (seen : List OpValue)
            (txns : List Committed) → IsMade numbers seen txns self.old →
            slice_get numbers session ≡ Some number →
            IsMade numbers (seen ++ (view_txn txn.now).ops)
            (txns ++ node_of number place (settle is_taken (view_txn txn.now))) self.new) }
    {
        if is_node(txn, is_taken) {
            self.add_node(txn, session, place)
        } else {
            self.numbers.add_keys(&txn.ops)
        }
    }

    /// Adds the session at this index, whose unknown transaction is taken, or not.
    fn add_session(
        &mut self,
        session: &'a Session,
        index: u32,
        is_taken: bool,
    ) -> Result<(), NumberingFault>
        requires finds { FindsAll self.old.numbers }
        ensures finds { OnOk result (FindsAll self.new.numbers) }
        ensures made { OnOk result ((numbers : List ℕ) (seen : List OpValue)
            (txns : List Committed) → IsMade numbers seen txns self.old →
            slice_get numbers index ≡ Some session.now.number →
            IsMade numbers (seen ++ flat_map (λ t. t.ops) (view session.now).txns)
            (txns ++ committed_of (session_as is_taken (view session.now))) self.new) }
    {
        for (i, txn) in session.txns.iter().enumerate() {
            let place = short(i)? + 1;
            self.add_txn(txn, index, place, is_taken)?;
        }
        Ok(())
    }
}

impl<'a> NumberedLog<'a> {
    /// The sessions by numbers, where the outcomes are known.
    ///
    /// # Errors
    /// Where memory was refused, and where a number has more than 32 bits.
    pub fn of(alloc: Global, sessions: &'a [Session]) -> Result<NumberedLog<'a>, NumberingFault>
        ensures numbering { IfOk result (λ log. IsLearntLog (map view sessions.now) →
            IsNumbering (map view sessions.now) (committed_in (map view sessions.now)) log) }
    {
        NumberedLog::with_taken(alloc, sessions, &BTreeSet::new(alloc))
    }

    /// The sessions by numbers, where those of these numbers have an unknown transaction that is
    /// taken.
    ///
    /// # Errors
    /// Where memory was refused, and where a number has more than 32 bits.
    pub fn with_taken(
        alloc: Global,
        sessions: &'a [Session],
        chosen: &BTreeSet<usize>,
    ) -> Result<NumberedLog<'a>, NumberingFault>
        ensures numbering { IfOk result (IsNumbering (map view sessions.now)
            (flat_map committed_of (settled (contains nat_cmp chosen.now) (map view sessions.now)))) }
        ensures taken { ((n : ℕ) → contains nat_cmp chosen.now n ≡ taken (map view sessions.now) n) →
            IfOk result (IsNumbering (map view sessions.now)
            (committed_in (map view sessions.now))) }
    {
        let mut making = Making::new(alloc, sizes_of(sessions))?;
        for (i, session) in sessions.iter().enumerate() {
            let index = short(i)?;
            let is_taken = chosen.contains(&usize::from(session.number));
            making.add_session(session, index, is_taken)?;
        }
        let Making {
            numbers,
            nodes,
            ops,
            moments,
        } = making;
        let Numbers { keys, versions } = numbers;
        Ok(NumberedLog {
            keys: keys.texts,
            nodes,
            ops,
            moments,
            identities: versions.identities,
            writers: versions.writers,
        })
    }
}
