//! Laws of levels of isolation, each the contract of a function that does nothing.

ghost use Rattle.point_laws.specs.Prefix.{PrefixBySplit, PointsOfPrefix, BareSplitIsLog};
ghost use Rattle.point_laws.specs.Split.{PrefixWhereSnapshot, PrefixOfTaken};
ghost use Rattle.point_laws.specs.OfPart.{PrefixOfPart, SomePrefixOfPart};
ghost use Rattle.point_laws.specs.Without.{PrefixWithoutMoments};
ghost use Rattle.point_laws.specs.Examples.{AllowsWriteSkew, RefusesLostUpdate};
ghost use Rattle.point_laws.specs.OfPart.{SnapshotOfPart, SomeSnapshotOfPart};
ghost use Rattle.point_laws.specs.Points.{PointsOfWriters};
ghost use Rattle.point_laws.specs.Split.{OrdersOfSplit, SnapshotBySplit, SnapshotOfResolved};
ghost use Rattle.point_laws.specs.Split.{SnapshotOfTaken, SomeAreFresh, SplitIsLog};
ghost use Rattle.point_laws.specs.Split.{ResolvedSplitIsLog, SnapshotByWriters, SnapshotWhereSerial};
ghost use Rattle.point_laws.specs.Without.{SnapshotWithoutMoments};

/// The snapshot orders of a log are, by the numbers of their points, the serial orders of the log
/// in which each transaction is split in two.
pub fn orders_of_split()
    ensures { OrdersOfSplit }
{}

/// A log has a snapshot order exactly where its split log has a serial order.
pub fn snapshot_by_split()
    ensures { SnapshotBySplit }
{}

/// Of the transactions of unknown outcome a snapshot order needs the taken ones, and no others.
pub fn snapshot_of_taken()
    ensures { SnapshotOfTaken }
{}

/// Where outcomes are unknown, the log is split once it is resolved.
pub fn snapshot_of_resolved()
    ensures { SnapshotOfResolved }
{}

/// It is enough to split the transactions that write.
pub fn snapshot_by_writers()
    ensures { SnapshotByWriters }
{}

/// And each serial order of that log is, by the points of its transactions, a snapshot order.
pub fn points_of_writers()
    ensures { PointsOfWriters }
{}

/// Locks can be named for every log.
pub fn some_are_fresh()
    ensures { SomeAreFresh }
{}

/// The split logs of a log are logs that can be judged by themselves.
pub fn split_is_log()
    ensures { SplitIsLog }
{}

/// And so are those of a log with unknown outcomes, once it is resolved.
pub fn resolved_split_is_log()
    ensures { ResolvedSplitIsLog }
{}

/// A log that has a serial order has a snapshot order.
pub fn snapshot_where_serial()
    ensures { SnapshotWhereSerial }
{}

/// Where the committed and some unknown transactions of a log have a snapshot order, those of a part
/// of it have one.
pub fn some_snapshot_of_part()
    ensures { SomeSnapshotOfPart }
{}

/// A part of a legal and sound log that has a snapshot order has one.
pub fn snapshot_of_part()
    ensures { SnapshotOfPart }
{}

/// Leaving out the moments loses no snapshot order.
pub fn snapshot_without_moments()
    ensures { SnapshotWithoutMoments }
{}

/// Snapshot isolation is weaker than serializability: it allows write skew.
pub fn allows_write_skew()
    ensures { AllowsWriteSkew }
{}

/// It refuses a lost update.
pub fn refuses_lost_update()
    ensures { RefusesLostUpdate }
{}

/// A snapshot order is a prefix order.
pub fn prefix_where_snapshot()
    ensures { PrefixWhereSnapshot }
{}

/// A prefix order needs no unknown transactions but the taken ones.
pub fn prefix_of_taken()
    ensures { PrefixOfTaken }
{}

/// Where the committed and some unknown transactions of a log have a prefix order, those of a part
/// of it have one.
pub fn some_prefix_of_part()
    ensures { SomePrefixOfPart }
{}

/// A part of a legal and sound log that has a prefix order has one.
pub fn prefix_of_part()
    ensures { PrefixOfPart }
{}

/// Leaving out the moments loses no prefix order.
pub fn prefix_without_moments()
    ensures { PrefixWithoutMoments }
{}

/// A log has a prefix order exactly where its split log without locks has a serial order.
pub fn prefix_by_split()
    ensures { PrefixBySplit }
{}

/// And each serial order of that log is, by the points of its transactions, a prefix order.
pub fn points_of_prefix()
    ensures { PointsOfPrefix }
{}

/// The split log without locks is a log that can be judged by itself.
pub fn bare_split_is_log()
    ensures { BareSplitIsLog }
{}
