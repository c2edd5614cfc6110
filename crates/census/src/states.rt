//! What the operations of a transaction, up to some place, did with each key.

ghost use Rattle.std.specs.Prelude.{◌≡◌, ◌==◌, false, ℕ, List, if◌then◌else◌, IfOk, OnOk};
ghost use Rattle.std.specs.Option.{option_map_or};
ghost use Rattle.std.specs.Str.{bytes_eq};
ghost use Rattle.session_log.specs.Text.{key_of};
ghost use Rattle.census.specs.States.{after, after_read, differs, state_of, untouched};
ghost use Rattle.census.specs.Tables.{AreBehind};

use session_log::{Key, Op};
use std::alloc::{AllocError, Global};
use std::collections::BTreeMap;

/// What was done with a key.
#[derive(Clone, Copy)]
pub struct KeyState {
    /// The identity of the last write.
    pub written: Option<u64>,
    /// What the first operation read, where it is a read.
    pub read: Option<u64>,
    /// Whether a read before all writes named another identity than the first one.
    pub mixed: bool,
}

/// Nothing.
const UNTOUCHED: KeyState = KeyState {
    written: None,
    read: None,
    mixed: false,
};

impl KeyState {
    /// Whether a read before all writes names another identity than this.
    pub fn differs(self, wid: u64) -> bool
        ensures { result ≡ differs self wid }
    {
        match self.read {
            None => false,
            Some(first) => first != wid || self.mixed,
        }
    }

    /// Whether the first operation read this identity.
    pub fn read_first(self, wid: u64) -> bool
        ensures { result ≡ option_map_or (λ r. r == wid) self.read false }
    {
        match self.read {
            None => false,
            Some(first) => first == wid,
        }
    }

    /// Whether the last write has this identity.
    pub fn wrote_last(self, wid: u64) -> bool
        ensures { result ≡ option_map_or (λ w. w == wid) self.written false }
    {
        match self.written {
            None => false,
            Some(last) => last == wid,
        }
    }

    fn after_read(self, wid: u64) -> KeyState
        ensures { result ≡ after_read self.written self.read self.mixed wid }
    {
        match (self.written, self.read) {
            (Some(_), _) => self,
            (None, None) => KeyState {
                written: None,
                read: Some(wid),
                mixed: false,
            },
            (None, Some(first)) => KeyState {
                written: None,
                read: Some(first),
                mixed: self.mixed || first != wid,
            },
        }
    }

    fn after(self, op: &Op) -> KeyState
        ensures { result ≡ after self op.now }
    {
        match op {
            Op::Read { wid, .. } => self.after_read(*wid),
            Op::Write { wid, .. } => KeyState {
                written: Some(*wid),
                read: self.read,
                mixed: self.mixed,
            },
        }
    }
}

/// What was done with each key.
#[derive(Drop)]
pub struct States<'a> {
    pub table: BTreeMap<&'a Key, KeyState>,
}

impl<'a> States<'a> {
    /// Nothing.
    pub fn new(alloc: Global) -> States<'a>
        ensures { (k : List ℕ) → state_of result k ≡ untouched }
    {
        States {
            table: BTreeMap::new(alloc),
        }
    }

    /// What was done with a key.
    pub fn of(&self, key: &'a Key) -> KeyState
        ensures { result ≡ state_of self.now key.now }
    {
        self.table.get(&key).copied().unwrap_or(UNTOUCHED)
    }

    /// Has an operation done.
    pub fn take(&mut self, op: &'a Op) -> Result<(), AllocError>
        ensures { OnOk result ((k : List ℕ) → state_of self.new k
            ≡ (if bytes_eq k (key_of op.now) then after (state_of self.old k) op.now
            else state_of self.old k)) }
    {
        let key = op.key();
        let state = self.of(key).after(op);
        self.table.insert(key, state)?;
        Ok(())
    }
}

/// What operations do with each key.
pub fn states_of<'a>(alloc: Global, ops: &'a [Op]) -> Result<States<'a>, AllocError>
    ensures { IfOk result (AreBehind ops.now) }
{
    let mut states = States::new(alloc);
    for op in ops {
        states.take(op)?;
    }
    Ok(states)
}
