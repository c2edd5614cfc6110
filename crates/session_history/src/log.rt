//! The history of a log.

ghost use Rattle.std.specs.Prelude.{◌≡◌, ℕ, ◌+◌, ◌<◌, ◌≤◌, ◌^◌, None, Some, IfOk, IfErr};
ghost use Rattle.std.specs.Prelude.{MatchOption, length, map, count_by, slice_get};
ghost use Rattle.std.specs.List.{AllByRecursion};
ghost use Rattle.std.specs.BTreeSet.{contains};
ghost use Rattle.std.specs.Ordering.{nat_cmp};
ghost use Rattle.session_log.specs.Text.{view, IsLegal};
ghost use Rattle.session_log.specs.Faults.{IsFault};
ghost use Rattle.session_log.specs.Version.{first_line};
ghost use Rattle.serializability.specs.Polygraph.{source};
ghost use Rattle.log_definitions.specs.Unknown.{txns_in, ops_in, is_committed, is_unknown, taken};
ghost use Rattle.log_definitions.specs.Unknown.{resolved};
ghost use Rattle.log_definitions.specs.WellFormed.{log_lines, list_fault, keys_in, is_aborted};
ghost use Rattle.log_definitions.specs.Serial.{committed_in, begun_of, ended_of};
ghost use Rattle.log_definitions.specs.Numbers.{log_of, IsWellFormedList};
ghost use Rattle.session_history.specs.Taken.{IsAccepted};
ghost use Rattle.session_history.specs.Writes.{IsUnwritten, IsWrite};
ghost use Rattle.session_history.specs.Tables.{sources_of, writers_in, name_in, node_named};
ghost use Rattle.serializability.specs.declared.node.TheConstants.{MAX_NODES};
ghost use Rattle.session_log.specs.declared.limits.TheConstants.{MAX_KEYS};

use crate::count::{Counts, Tally, counts_of};
use crate::key_set::indexed;
use crate::names::{Name, names_of};
use crate::nodes::{Accepted, Node, Transactions};
use crate::reads::{ReadFrom, reads_of};
use crate::rows::{KeyRow, rows_of};
use crate::scan::session_twice;
use crate::taken::taken_among;
use crate::writes::{Writes, Written};
use indexmap::IndexSet;
use serializability::{Event, MAX_NODES, NodeIx};
use session_log::{Key, Limit, LogFault, MAX_KEYS, MAX_OPERATIONS, Session, Version};
use std::alloc::{AllocError, Global};
use std::collections::{BTreeMap, BTreeSet};
use std::marker::Model;

/// The sessions of a well-formed log, with what they say of its nodes and keys.
#[derive(Drop)]
pub struct History {
    sessions: Vec<Session>,
    /// The numbers of the sessions whose transaction of unknown outcome is taken.
    taken: BTreeSet<usize>,
    /// A key's number is its index.
    keys: IndexSet<Key>,
    nodes: Vec<Node>,
    names: BTreeMap<(usize, usize), NodeIx>,
    rows: Vec<KeyRow>,
    reads: Vec<Vec<ReadFrom>>,
    writes: Writes,
    counts: Counts,
}

impl Model for History {
    ghost use Rattle.std.specs.Prelude.{List};
    ghost use Rattle.session_log.specs.Text.{ClientSession};

    ghost Value = { List ClientSession };

    ghost use Rattle.session_history.specs.Held.{sessions_of, IsHistory};

    ghost view = { sessions_of };

    ghost invariant = { IsHistory };
}

impl History {
    ghost use Rattle.std.specs.Option.{option_map};
    ghost use Rattle.session_history.specs.Taken.{node_view};
    ghost use Rattle.session_history.specs.Held.{node_kept};

    /// The history of these sessions, or the first fault that makes them no well-formed log: a
    /// session number that stands twice, a limit, or an identity that is written twice. Lines count
    /// from the first of a log of this version.
    pub fn build(
        alloc: Global,
        version: Version,
        sessions: Vec<Session>,
    ) -> Result<History, LogFault>
        requires legal { AllByRecursion IsLegal (map view sessions.items) }
        requires room { length (log_lines (map view sessions.items)) < 2 ^ 63 }
        ensures history { IfOk result (λ h. h ≡ map view sessions.items) }
        ensures accepted { IfOk result (λ _.
            list_fault (first_line version) (map view sessions.items) ≡ None) }
        ensures fault { IfErr result (λ f.
            IsFault f (list_fault (first_line version) (map view sessions.items))) }
    {
        let accepted = checked(alloc, version, &sessions)?;
        Ok(History::of(alloc, sessions, accepted)?)
    }

    /// The history of sound sessions, of which this is all that they hold.
    fn of(alloc: Global, sessions: Vec<Session>, accepted: Accepted) -> Result<History, AllocError>
        requires sound { IsWellFormedList (map view sessions.items) }
        requires room { length (log_lines (map view sessions.items)) < 2 ^ 63 }
        requires accepted { IsAccepted (map view sessions.items) accepted }
        ensures { IfOk result (λ h. h ≡ map view sessions.items) }
    {
        let Accepted { all, taken } = accepted;
        let counts = counts_of(&sessions, &all);
        let Transactions {
            numbers,
            nodes,
            writes,
        } = all;
        let names = names_of(alloc, &nodes)?;
        let rows = rows_of(alloc, numbers.len(), &nodes)?;
        let reads = reads_of(alloc, nodes.len(), &rows, &writes)?;
        let keys = indexed(alloc, numbers.into_texts())?;
        Ok(History {
            sessions,
            taken,
            keys,
            nodes,
            names,
            rows,
            reads,
            writes,
            counts,
        })
    }

    /// The sessions of the log, as they were given.
    pub fn sessions(&self) -> &[Session]
        ensures sessions { map view result.now ≡ self.now }
    {
        &self.sessions
    }

    /// The number of nodes, which are the committed and the taken transactions, without node 0.
    pub fn committed(&self) -> usize
        ensures count { result ≡ (log_of self.now).nodes }
        ensures few { result ≤ MAX_NODES }
        ensures well_formed { IsWellFormedList self.now }
    {
        self.nodes.len()
    }

    /// The write that has an identity, where the log has one: its key, its node, which is node 0
    /// where its transaction counts as aborted, and whether it is the last write of the key there.
    pub fn written(&self, wid: u64) -> Option<Written>
        ensures write { MatchOption result (IsUnwritten (log_of self.now) wid)
            (λ w. IsWrite (log_of self.now) wid w.key w.node w.last) }
    {
        self.writes.entry(wid)
    }

    /// The number of keys.
    pub fn keys(&self) -> usize
        ensures count { result ≡ (log_of self.now).keys }
        ensures few { result ≤ MAX_KEYS }
    {
        self.keys.len()
    }

    /// The operations of a node; node 0 has none, nor has a number above the last node's.
    pub fn events_of(&self, node: NodeIx) -> &[Event]
        ensures events { result.now ≡ (log_of self.now).ops node }
    {
        match self.node(node) {
            Some(node) => &node.events,
            None => &[],
        }
    }

    /// The keys that a node reads externally, ascending, each with the node that it reads from;
    /// none where there is no such node.
    pub fn reads_of(&self, node: NodeIx) -> &[ReadFrom]
        ensures sources { map (λ r. (r.key, r.source)) result.now
            ≡ sources_of (log_of self.now) node }
    {
        match node.get().checked_sub(1) {
            Some(i) => match self.reads.get(i) {
                Some(reads) => reads,
                None => &[],
            },
            None => &[],
        }
    }

    /// The node from which a node reads the key externally.
    pub fn source_of(&self, node: NodeIx, key: usize) -> Option<NodeIx>
        requires key { key < (log_of self.now).keys }
        ensures source { result ≡ source (log_of self.now) node key }
    {
        let reads = self.reads_of(node);
        match reads.binary_search_by_key(&key, |read| read.key) {
            Ok(place) => Some(reads[place].source),
            Err(_) => None,
        }
    }

    /// The nodes that write the key, ascending.
    pub fn writers_of(&self, key: usize) -> &[NodeIx]
        requires { key < (log_of self.now).keys }
        ensures writers { result.now ≡ writers_in (log_of self.now) key }
    {
        &self.rows[key].writers
    }

    /// The text of the key.
    pub fn key_text(&self, key: usize) -> &Key
        requires { key < (log_of self.now).keys }
        ensures text { slice_get (keys_in self.now) key ≡ Some result.now }
    {
        &self.keys[key]
    }

    /// The name of a node.
    pub fn name_of(&self, node: NodeIx) -> Name
        requires { node ≤ (log_of self.now).nodes }
        ensures name { (result.session, result.place) ≡ name_in self.now node }
    {
        match self.node(node) {
            Some(node) => Name {
                session: node.session,
                place: node.place,
            },
            None => Name {
                session: 0,
                place: 0,
            },
        }
    }

    /// The number of the session of a node, and 0 where there is none.
    pub fn session_of(&self, node: NodeIx) -> u16
        ensures session { result ≡ (log_of self.now).session node }
    {
        match self.node(node) {
            Some(node) => node.session,
            None => 0,
        }
    }

    /// The moment at which a node began, where the log states it.
    pub fn begun_of(&self, node: NodeIx) -> Option<u64>
        ensures moment { result ≡ begun_of self.now node }
    {
        self.node(node)?.begun
    }

    /// The moment at which a node ended, where the log states it.
    pub fn ended_of(&self, node: NodeIx) -> Option<u64>
        ensures moment { result ≡ ended_of self.now node }
    {
        self.node(node)?.ended
    }

    /// The node of the transaction at this place of a session, where it is committed or taken.
    pub fn node_at(&self, session: usize, place: usize) -> Option<NodeIx>
        ensures node { result ≡ node_named self.now session place }
    {
        self.names.get(&(session, place)).copied()
    }

    /// Whether the session of this number ends in a transaction of unknown outcome that is taken: a
    /// committed or a taken transaction reads a write of it.
    pub fn taken(&self, session: usize) -> bool
        ensures taken { result ≡ taken self.now session }
    {
        self.taken.contains(&session)
    }

    /// How much it holds.
    pub fn counts(&self) -> Counts
        ensures sessions { result.sessions ≡ length self.now }
        ensures committed { result.committed ≡ count_by is_committed (txns_in self.now) }
        ensures aborted { result.aborted ≡ count_by is_aborted (txns_in self.now) }
        ensures unknown { result.unknown ≡ count_by is_unknown (txns_in self.now) }
        ensures taken { result.committed + result.taken ≡ length (committed_in self.now) }
        ensures keys { result.keys ≡ length (keys_in self.now) }
        ensures operations { result.operations ≡ length (ops_in self.now) }
    {
        self.counts
    }

    /// What is kept of a node, where there is one.
    fn node(&self, node: NodeIx) -> Option<&Node>
        ensures { option_map (λ n. node_view n.now) result ≡ node_kept self.now node }
    {
        match node.get().checked_sub(1) {
            Some(i) => self.nodes.get(i),
            None => None,
        }
    }
}

/// What the transactions hold, and the sessions whose transaction of unknown outcome is taken,
/// where the sessions have no fault, or their first fault.
fn checked(alloc: Global, version: Version, sessions: &[Session]) -> Result<Accepted, LogFault>
    requires room { length (log_lines (map view sessions.now)) < 2 ^ 63 }
    ensures holds { IfOk result (IsAccepted (map view sessions.now)) }
    ensures accepted { IfOk result (λ _.
        list_fault (first_line version) (map view sessions.now) ≡ None) }
    ensures fault { IfErr result (λ f.
        IsFault f (list_fault (first_line version) (map view sessions.now))) }
{
    let first = version.first_line();
    if let Some(line) = session_twice(alloc, first, sessions)? {
        return Err(LogFault::SessionTwice { line });
    }
    let tally = Tally::of(sessions);
    if tally.operations > MAX_OPERATIONS {
        return Err(LogFault::OverLimit {
            which: Limit::Operations,
        });
    }
    if tally.committed.saturating_add(tally.unknown) > MAX_NODES {
        return Err(LogFault::OverLimit {
            which: Limit::Committed,
        });
    }
    let taken = taken_among(alloc, sessions, tally.unknown)?;
    let all = Transactions::of(alloc, first, sessions, &taken)?;
    if all.numbers.len() > MAX_KEYS {
        return Err(LogFault::OverLimit { which: Limit::Keys });
    }
    if let Some(line) = all.writes.twice() {
        return Err(LogFault::WriteTwice { line });
    }
    Ok(Accepted { all, taken })
}
