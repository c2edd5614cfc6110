//! The chains of a history.

ghost use Rattle.std.specs.Prelude.{◌≡◌, ◌<◌, ◌≤◌, ℕ, map, IfOk};
ghost use Rattle.serializability.specs.Reads.{IsClean};
ghost use Rattle.chain_laws.specs.Chains as spec;
ghost use Rattle.log_definitions.specs.Numbers.{log_of};
ghost use Rattle.write_chains.specs.Lists.{AreLists};
ghost use Rattle.write_chains.specs.Readings.{readings_in};
ghost use Rattle.write_chains.specs.Views.{chain_view, chain_from, chains_in};

use crate::chain::{Chain, KeyChains, key_chains};
use crate::groups::readers_in;
use crate::inner::add_inner_edges;
use crate::links::links_of;
use crate::readings::Reading;
use reach_laws::Edge;
use serializability::NodeIx;
use session_history::History;
use std::alloc::{AllocError, Global};
use std::marker::Model;

/// The chains of the keys of a history, none of which closes on itself.
///
/// A contract sees the sessions of the history, whose chains they are.
#[derive(Drop)]
pub struct Chains<'a> {
    history: &'a History,
    keys: Vec<KeyChains>,
    inner: Vec<Edge>,
}

impl<'a> Model for Chains<'a> {
    ghost use Rattle.std.specs.Prelude.{List};
    ghost use Rattle.session_log.specs.Text.{ClientSession};

    ghost Value = { List ClientSession };

    ghost use Rattle.write_chains.specs.Held.{sessions_of, AreChains};

    ghost view = { sessions_of };

    ghost invariant = { AreChains };
}

impl<'a> Chains<'a> {
    /// The chains of a history, none of which closes on itself; these are the readings of its keys.
    pub(crate) fn of(
        alloc: Global,
        history: &'a History,
        readings: &[Vec<Reading>],
    ) -> Result<Chains<'a>, AllocError>
        requires clean { IsClean (log_of history.now) }
        requires none_closes { (x : ℕ) → spec.NoneCloses (log_of history.now) x }
        requires readings { AreLists (log_of history.now).keys (readings_in (log_of history.now))
            readings.now }
        ensures chains { IfOk result (λ c. c ≡ history.now) }
    {
        let mut keys = Vec::with_capacity(alloc, history.keys())?;
        let mut inner = Vec::new(alloc);
        for key in 0..history.keys() {
            let links = links_of(alloc, history, key, &readings[key])?;
            add_inner_edges(&mut inner, &links)?;
            keys.push(key_chains(alloc, history, key, &links)?)?;
        }
        Ok(Chains {
            history,
            keys,
            inner,
        })
    }

    /// The history whose chains these are.
    pub fn history(&self) -> &'a History
        ensures history { result.now ≡ self.now }
    {
        self.history
    }

    /// The chain of the key that begins with the initial transaction.
    pub fn initial_chain(&self, key: usize) -> &Chain
        requires key { key < (log_of self.now).keys }
        ensures chain { chain_view result.now ≡ chain_from (log_of self.now) key 0 }
    {
        &self.keys[key].initial
    }

    /// The other chains of the key, by their heads, ascending.
    pub fn chains_of(&self, key: usize) -> &[Chain]
        requires key { key < (log_of self.now).keys }
        ensures chains { map chain_view result.now ≡ chains_in (log_of self.now) key }
        ensures none_closes { spec.NoneCloses (log_of self.now) key }
    {
        &self.keys[key].others
    }

    /// The nodes that read the key externally from this node, ascending.
    pub fn readers(&self, key: usize, node: NodeIx) -> &[NodeIx]
        requires key { key < (log_of self.now).keys }
        requires node { node ≤ (log_of self.now).nodes }
        ensures readers { result.now ≡ spec.readers (log_of self.now) key node }
    {
        readers_in(&self.keys[key].readers, node)
    }

    /// The inner edges of all chains: from each reader of a writer to the writer behind it, by key,
    /// writer and reader.
    pub fn inner_edges(&self) -> &[Edge]
        ensures edges { result.now ≡ spec.inner_edges (log_of self.now) }
    {
        &self.inner
    }
}
