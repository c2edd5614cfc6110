//! The levels, and what their names mean.

ghost use Rattle.std.specs.Prelude.{◌≡◌};
ghost use Rattle.isolation.specs.Levels.{is_strict, level_title, level_asks};

/// A level of isolation that a store may promise. Each keeps the order of sessions.
#[derive(Clone, Copy, Debug, PartialEq, Eq)]
pub enum Isolation {
    /// Serializability in the order of sessions and of the stated moments.
    StrictSerializable,
    /// Serializability in the order of sessions.
    Serializable,
    /// Snapshot isolation in the order of sessions and of the stated moments.
    StrictSnapshot,
    /// Snapshot isolation in the order of sessions.
    Snapshot,
    /// Prefix consistency: snapshot isolation where updates may be lost.
    Prefix,
    /// Causal consistency, with one order for all: a read sees what it follows.
    Causal,
    /// Read atomic: a read sees all of each transaction that its own one read from.
    ReadAtomic,
    /// Monotonic atomic view: the same from that read on.
    MonotonicAtomicView,
    /// Read committed: nobody reads what was not left by a commit.
    ReadCommitted,
}

impl Isolation {
    /// Whether it keeps the order of stated moments.
    pub fn is_strict(self) -> bool
        ensures strict { result ≡ is_strict self }
    {
        matches!(
            self,
            Isolation::StrictSerializable | Isolation::StrictSnapshot
        )
    }

    /// Its name.
    pub fn title(self) -> &'static str
        ensures title { result.now ≡ level_title self }
    {
        match self {
            Isolation::StrictSerializable => "strict serializability",
            Isolation::Serializable => "serializability",
            Isolation::StrictSnapshot => "strict snapshot isolation",
            Isolation::Snapshot => "snapshot isolation",
            Isolation::Prefix => "prefix consistency",
            Isolation::Causal => "causal consistency",
            Isolation::ReadAtomic => "read atomic",
            Isolation::MonotonicAtomicView => "monotonic atomic view",
            Isolation::ReadCommitted => "read committed",
        }
    }

    /// What it asks for, in a sentence.
    pub fn asks(self) -> &'static str
        ensures asks { result.now ≡ level_asks self }
    {
        match self {
            Isolation::StrictSerializable =>
                "strict serializability asks for an order in which each transaction reads what was written last before it; sessions and stated moments keep their order\n",
            Isolation::Serializable =>
                "serializability asks for an order in which each transaction reads what was written last before it; each session keeps its order\n",
            Isolation::StrictSnapshot =>
                "strict snapshot isolation asks that each transaction reads one state between commits, and that of two writers of a key one commits before the other's snapshot; sessions and stated moments keep their order\n",
            Isolation::Snapshot =>
                "snapshot isolation asks that each transaction reads one state between commits, and that of two writers of a key one commits before the other's snapshot; each session keeps its order\n",
            Isolation::Prefix =>
                "prefix consistency asks that each transaction reads one state between commits; each session keeps its order\n",
            Isolation::Causal =>
                "causal consistency asks that reads are of committed transactions, and that who sees one sees all that came before it by sessions and reads, or later versions; the order of reads in a transaction does not count\n",
            Isolation::ReadAtomic =>
                "read atomic asks that reads are of committed transactions, and that who sees one, or follows it in a session, sees all that it wrote or later versions; the order of reads in a transaction does not count\n",
            Isolation::MonotonicAtomicView =>
                "monotonic atomic view asks that reads are of committed transactions, and that from the read on by which a transaction sees one it sees all that this one wrote or later versions\n",
            Isolation::ReadCommitted =>
                "read committed asks that each read sees its own transaction's last write, or the last one of a committed transaction; none comes before itself by sessions and reads\n",
        }
    }
}
