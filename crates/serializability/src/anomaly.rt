//! Anomalies: what no serial order explains.

ghost use Rattle.std.specs.Prelude.{◌≡◌};
ghost use Rattle.serializability.specs.Anomalies.{read_number, anomaly_number};

use crate::node::NodeIx;

/// What is wrong with a read. A read is external where its transaction wrote the key not before it.
#[derive(Clone, Copy, Debug, PartialEq, Eq)]
pub enum ReadAnomaly {
    /// An external read of an identity other than 0 that no write of its key in the log has.
    Unknown,
    /// An external read of a write of an aborted transaction.
    Aborted,
    /// An external read of a write that is not the final write of the key by its transaction.
    Intermediate,
    /// An internal read that does not name the latest own write before it.
    OwnWriteMissed,
    /// An external read of a later write of its own transaction.
    Future,
    /// An external read, where an earlier external read of the key in the transaction names another
    /// identity.
    Split,
}

impl ReadAnomaly {
    fn number(self) -> u8
        ensures number { result ≡ read_number self }
    {
        match self {
            ReadAnomaly::Unknown => 1,
            ReadAnomaly::Aborted => 2,
            ReadAnomaly::Intermediate => 3,
            ReadAnomaly::OwnWriteMissed => 4,
            ReadAnomaly::Future => 5,
            ReadAnomaly::Split => 6,
        }
    }
}

/// Why a log has no serial order, by one read or by one key.
#[derive(Clone, Copy, Debug, PartialEq, Eq)]
pub enum Anomaly {
    /// The read at an operation of a transaction, where operations count from 1.
    Read {
        kind: ReadAnomaly,
        node: NodeIx,
        op: usize,
    },
    /// Two transactions that read the key externally from the same node, and both write it.
    LostUpdate {
        key: usize,
        source: NodeIx,
        first: NodeIx,
        second: NodeIx,
    },
}

impl Anomaly {
    /// The number in its code, 1 to 7.
    pub fn number(self) -> u8
        ensures number { result ≡ anomaly_number self }
    {
        match self {
            Anomaly::Read { kind, .. } => kind.number(),
            Anomaly::LostUpdate { .. } => 7,
        }
    }
}
