//! Laws of the locks' names and of the split logs, each the contract of a function that does nothing.

ghost use Rattle.splitting.specs.Laws.{LocksAreFresh, SnapshotByResolvedSplit, SnapshotBySplitLog};
ghost use Rattle.splitting.specs.Laws.{PrefixBySplitLog};

/// Where there is room for them, the names of the locks are new, and a log can hold them.
pub fn locks_are_fresh()
    ensures { LocksAreFresh }
{}

/// A log has a snapshot order exactly where its split log has a serial order, and the split log is
/// a log that can be judged by itself.
pub fn snapshot_by_split_log()
    ensures { SnapshotBySplitLog }
{}

/// And where outcomes are unknown, the log is split once it is resolved.
pub fn snapshot_by_resolved_split()
    ensures { SnapshotByResolvedSplit }
{}

/// A log has a prefix order exactly where its split log without locks has a serial order, and that
/// is a log that can be judged by itself.
pub fn prefix_by_split_log()
    ensures { PrefixBySplitLog }
{}
