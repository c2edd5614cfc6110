//! The committed transactions of a part, and what they read and write.

use level_refutations::{OpAt, TxnAt};
use session_log::{Op, Session, Txn};
use std::alloc::{AllocError, Global};

/// A committed transaction, its number among those of the part, and its place there.
#[derive(Clone, Copy)]
pub struct Node<'a> {
    pub number: usize,
    pub at: TxnAt,
    pub txn: &'a Txn,
}

impl Node<'_> {
    /// The number of its snapshot among the points of the part.
    pub fn snapshot(&self) -> usize {
        self.number.saturating_mul(2)
    }

    /// The number of its commit.
    pub fn commit(&self) -> usize {
        self.snapshot().saturating_add(1)
    }
}

/// An operation: its node, its index there, its key and its identity.
#[derive(Clone, Copy)]
pub struct Access<'a> {
    pub node: Node<'a>,
    pub op: usize,
    pub key: &'a [u8],
    pub wid: u64,
}

impl Access<'_> {
    /// Its place.
    pub fn at(&self) -> OpAt {
        OpAt {
            txn: self.node.at,
            op: self.op,
        }
    }

    /// Whether it is the node's, and of this key.
    fn is_of(&self, node: Node<'_>, key: &[u8]) -> bool {
        self.node.number == node.number && self.key == key
    }

    /// Whether another operation is of the same key and identity.
    pub fn is_same(&self, other: &Access<'_>) -> bool {
        self.wid == other.wid && self.key == other.key
    }
}

/// The first of these operations that is the node's, and of the key and identity of another one.
pub fn same_of<'a>(ops: &[Access<'a>], node: Node<'_>, other: &Access<'_>) -> Option<Access<'a>> {
    let mut ops = ops.iter();
    ops.find(|op| op.node.number == node.number && op.is_same(other))
        .copied()
}

/// The nodes of a part, the first read of each key from a node's snapshot, and all writes.
#[derive(Drop)]
pub struct Part<'a> {
    pub nodes: Vec<Node<'a>>,
    pub reads: Vec<Access<'a>>,
    pub writes: Vec<Access<'a>>,
}

impl<'a> Part<'a> {
    /// The nodes of sessions.
    pub fn of(alloc: Global, sessions: &'a [Session]) -> Result<Part<'a>, AllocError> {
        let mut part = Part {
            nodes: Vec::new(alloc),
            reads: Vec::new(alloc),
            writes: Vec::new(alloc),
        };
        for (session, own) in sessions.iter().enumerate() {
            for (txn, it) in own.txns.iter().enumerate() {
                if it.is_committed() {
                    part.add(TxnAt { session, txn }, it)?;
                }
            }
        }
        Ok(part)
    }

    fn add(&mut self, at: TxnAt, txn: &'a Txn) -> Result<(), AllocError> {
        let number = self.nodes.len();
        let node = Node { number, at, txn };
        for (index, op) in txn.ops.iter().enumerate() {
            self.add_op(node, index, op)?;
        }
        self.nodes.push(node)?;
        Ok(())
    }

    fn add_op(&mut self, node: Node<'a>, index: usize, op: &'a Op) -> Result<(), AllocError> {
        let (Op::Read { key, wid } | Op::Write { key, wid }) = op;
        let (key, wid) = (key.as_bytes(), *wid);
        let mut all = self.reads.iter().chain(&self.writes);
        let is_first = !all.any(|it| it.is_of(node, key));
        let access = Access {
            node,
            op: index,
            key,
            wid,
        };
        if op.is_write() {
            self.writes.push(access)?;
        } else if is_first {
            self.reads.push(access)?;
        }
        Ok(())
    }

    /// The write that a read finds, where a node of the part wrote it.
    pub fn found(&self, read: &Access<'_>) -> Option<Access<'a>> {
        let mut writes = self.writes.iter();
        writes.find(|write| write.is_same(read)).copied()
    }

    /// The first write of this key by a node.
    pub fn first_write(&self, node: Node<'_>, key: &[u8]) -> Option<Access<'a>> {
        let mut writes = self.writes.iter();
        writes.find(|it| it.is_of(node, key)).copied()
    }

    /// The last write of this key by a node.
    pub fn last_write(&self, node: Node<'_>, key: &[u8]) -> Option<Access<'a>> {
        let mut writes = self.writes.iter().rev();
        writes.find(|it| it.is_of(node, key)).copied()
    }

    /// The first key that one node writes, of those that another one writes too.
    pub fn both_write(&self, one: Node<'_>, other: Node<'_>) -> Option<&'a [u8]> {
        self.writes
            .iter()
            .filter(|write| write.node.number == one.number)
            .map(|write| write.key)
            .find(|key| self.first_write(other, key).is_some())
    }
}
