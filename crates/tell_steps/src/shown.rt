//! What the log shows of edges, for what seeks steps.

ghost use Rattle.serializability.specs.Reads.{IsClean};
ghost use Rattle.log_definitions.specs.Numbers.{log_of};

use crate::lines::is_between;
use reasons::reason_of;
use serializability::NodeIx;
use std::alloc::{AllocError, Global};
use std::collections::HashMap;
use std::marker::Model;
use write_chains::Chains;

/// The chains of a clean log, and which edges the log shows, each of which is looked up once.
/// Contracts see the sessions.
#[derive(Drop)]
pub struct Shown<'a> {
    pub alloc: Global,
    pub chains: &'a Chains<'a>,
    /// Of each edge that was asked for, whether the log shows it.
    answers: HashMap<(usize, usize), bool>,
}

impl<'a> Model for Shown<'a> {
    ghost use Rattle.std.specs.Prelude.{List};
    ghost use Rattle.session_log.specs.Text.{ClientSession};

    ghost Value = { List ClientSession };

    ghost view = { λ s. s.chains.now };

    ghost use Rattle.serializability.specs.Reads.{IsClean};
    ghost use Rattle.log_definitions.specs.Numbers.{log_of};

    ghost invariant = { λ s. IsClean (log_of s.chains.now) };
}

impl<'a> Shown<'a> {
    /// What the log of these chains shows, of which nothing was asked for.
    pub fn of(alloc: Global, chains: &'a Chains<'a>) -> Shown<'a>
        requires clean { IsClean (log_of chains.now) }
    {
        Shown {
            alloc,
            chains,
            answers: HashMap::new(alloc),
        }
    }

    /// Whether the log shows that `a` stands before `b`, where both are nodes other than node 0.
    pub fn shows(&mut self, a: NodeIx, b: NodeIx) -> Result<Option<bool>, AllocError> {
        if !is_between(self.chains, a) {
            return Ok(None);
        }
        if !is_between(self.chains, b) {
            return Ok(None);
        }
        let edge = (a.get(), b.get());
        if let Some(answer) = self.answers.get(&edge).copied() {
            return Ok(Some(answer));
        }
        let answer = reason_of(self.alloc, self.chains.history(), a, b)?.is_some();
        self.answers.insert(edge, answer)?;
        Ok(Some(answer))
    }
}
