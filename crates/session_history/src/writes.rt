//! The writes of a log, by their identities.

ghost use Rattle.std.specs.Prelude.{◌≡◌, ℕ, ◌+◌, ◌<◌, ◌^◌, List, [], ◌∷◌, ◌++◌, length, None, OnOk};
ghost use Rattle.std.specs.Prelude.{slice_index, unwrap_or, vec_len};
ghost use Rattle.serializability.specs.Reads.{last_write};
ghost use Rattle.serializability.specs.declared.event.Event.{Event};

use serializability::{Event, NodeIx};
use std::alloc::{AllocError, Global};
use std::collections::BTreeMap;

/// A write: its key, its node, which is 0 where its transaction counts as aborted, and whether it
/// is the last of the key there.
#[derive(Clone, Copy)]
pub struct Written {
    pub key: usize,
    pub node: NodeIx,
    pub last: bool,
}

/// The writes so far, and the line of the first that was written before.
#[derive(Drop)]
pub struct Writes {
    table: BTreeMap<u64, Written>,
    twice: Option<usize>,
    /// By key, the last identity that was written.
    lasts: Vec<u64>,
    /// The next line of the log.
    line: usize,
}

impl Writes {
    ghost use Rattle.session_history.specs.Written.{HasSeen, HasWrites, IsTaking, entry_of};
    ghost use Rattle.session_history.specs.Written.{writes_at};
    ghost use Rattle.session_history.specs.Sources.{final_node};

    /// No writes, before this line.
    pub fn new(alloc: Global, line: usize) -> Writes
        ensures line { result.line ≡ line }
        ensures seen { HasSeen [] result }
        ensures writes { HasWrites [] result }
    {
        Writes {
            table: BTreeMap::new(alloc),
            twice: None,
            lasts: Vec::new(alloc),
            line,
        }
    }

    /// Takes the line of a session.
    pub fn begin_session(&mut self)
        requires { self.old.line + 1 < 2 ^ 64 }
        ensures { self.new ≡ record self.old { line = self.old.line + 1 } }
    {
        self.line += 1;
    }

    /// The write that has an identity.
    pub fn entry(&self, wid: u64) -> Option<Written>
        ensures { result ≡ entry_of self.now wid }
    {
        self.table.get(&wid).copied()
    }

    /// The line of the first write whose identity was written before.
    pub fn twice(&self) -> Option<usize>
        ensures { result ≡ self.now.twice }
    {
        self.twice
    }

    /// The node whose last write of the key has this identity, or 0.
    pub fn final_writer(&self, key: usize, wid: u64) -> NodeIx
        ensures { result ≡ final_node (entry_of self.now wid) key }
    {
        match self.table.get(&wid) {
            Some(write) => {
                if write.key == key && write.last {
                    write.node
                } else {
                    NodeIx::INITIAL
                }
            }
            None => NodeIx::INITIAL,
        }
    }

    /// Keeps the last identity that each key is written with.
    fn keep_lasts(&mut self, events: &[Event]) -> Result<(), AllocError>
        ensures lasts { OnOk result ((x : ℕ) → slice_index self.new.lasts.items x
            ≡ unwrap_or (last_write x events.now) (slice_index self.old.lasts.items x)) }
        ensures others { self.new ≡ record self.old { lasts = self.new.lasts } }
    {
        let lasts = &mut self.lasts;
        for event in events {
            keep_last(lasts, *event)?;
        }
        Ok(())
    }

    /// The last identity that the key was written with, or 0.
    fn last_of(&self, key: usize) -> u64
        ensures { result ≡ slice_index self.now.lasts.items key }
    {
        if key < self.lasts.len() {
            self.lasts[key]
        } else {
            0
        }
    }

    /// Takes an operation of this node at the next line.
    fn enter(&mut self, event: Event, node: NodeIx) -> Result<(), AllocError>
        ensures line { OnOk result (self.new.line ≡ self.old.line) }
        ensures seen { OnOk result ((lines : List (ℕ × ℕ)) → HasSeen lines self.old →
            HasSeen (lines ++ writes_at self.old.line (event ∷ [])) self.new) }
        ensures taken { OnOk result ((txns : List (ℕ × List Event)) (all front back : List Event) →
            all ≡ front ++ event ∷ back → IsTaking txns node all front self.old →
            IsTaking txns node all (front ++ event ∷ []) self.new) }
    {
        let Event::Write { key, wid } = event else {
            return Ok(());
        };
        if self.twice.is_some() {
            return Ok(());
        }
        let last = self.last_of(key) == wid;
        let old = self.table.insert(wid, Written { key, node, last })?;
        if old.is_some() {
            self.twice = Some(self.line);
        }
        Ok(())
    }

    /// Takes the lines of a transaction of this node, or of one that counts as aborted.
    pub fn add(&mut self, events: &[Event], node: NodeIx) -> Result<(), AllocError>
        requires { self.old.line + length events.now + 2 < 2 ^ 64 }
        ensures line { OnOk result (self.new.line ≡ self.old.line + (length events.now + 2)) }
        ensures seen { OnOk result ((lines : List (ℕ × ℕ)) → HasSeen lines self.old →
            HasSeen (lines ++ writes_at (self.old.line + 1) events.now) self.new) }
        ensures writes { OnOk result ((txns : List (ℕ × List Event)) → HasWrites txns self.old →
            HasWrites (txns ++ (node, events.now) ∷ []) self.new) }
    {
        self.keep_lasts(events)?;
        self.line += 1;
        for event in events {
            self.enter(*event, node)?;
            self.line += 1;
        }
        self.line += 1;
        Ok(())
    }
}

/// Room for the key, with 0 where there was none.
fn widen(lasts: &mut Vec<u64>, key: usize) -> Result<(), AllocError>
    ensures room { OnOk result (key < vec_len lasts.new) }
    ensures same { (x : ℕ) → slice_index lasts.new.items x ≡ slice_index lasts.old.items x }
{
    while lasts.len() <= key {
        lasts.push(0)?;
    }
    Ok(())
}

/// Keeps the identity, where the operation is a write.
fn keep_last(lasts: &mut Vec<u64>, event: Event) -> Result<(), AllocError>
    ensures { OnOk result ((x : ℕ) → slice_index lasts.new.items x
        ≡ unwrap_or (last_write x (event ∷ [])) (slice_index lasts.old.items x)) }
{
    if let Event::Write { key, wid } = event {
        widen(lasts, key)?;
        lasts[key] = wid;
    }
    Ok(())
}
