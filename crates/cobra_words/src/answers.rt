//! What each command answers, by exit status, as its help has it.

/// What `encode` answers, by exit status.
pub const ENCODE: &str = "\
Answers, by exit status:
  0  the formula; the contradiction, p cnf 1 2, where an anomaly stands
  2  refused: and the fault of the log, L1 to L7, L9 or L10, or of its formula, G1 to G3; or usage
  4  out of memory
  5  device failed: input or output";

/// What `decode` answers, by exit status.
pub const DECODE: &str = "\
Answers, by exit status:
  0  the order, a line SESSION PLACE for each transaction
  2  refused: and a fault as of encode, or of the answer, M1 to M8, or E1 and the first clause
     that the assignment makes false; or usage
  3  unsatisfiable claimed, not checked; or unknown
  4  out of memory
  5  device failed: input or output";

/// What `refute` answers, by exit status.
pub const REFUTE: &str = "\
Answers, by exit status:
  1  not serializable: the formula is refuted
  2  refused: and a fault as of encode, or of the proof: R1 and a line of no form, R2 and one whose
     clause does not follow, R3 where no empty clause was derived, R4 above 1 GiB; or usage
  4  out of memory
  5  device failed: input or output";

/// What `solve` answers, by exit status.
pub const SOLVE: &str = "\
Answers, by exit status:
  0  serializable, then the order, a line SESSION PLACE for each transaction
  1  not serializable: the formula is refuted; check names an anomaly, where one stands
  2  refused: and a fault as of encode; or usage
  3  unknown: N conflicts, where the budget is spent
  4  out of memory
  5  device failed: input or output";

/// What `check` answers, by exit status.
pub const CHECK: &str = "\
Answers, by exit status:
  0  serializable, then the order, a line SESSION PLACE for each transaction
  1  not serializable: and why, with a code A1 to A9 where it has one
  2  refused: and the fault of the log, L1 to L7, L9 or L10, or G1, more than 100000 choices; or usage
  3  not decided, and why: unknown where the budget is spent
  4  out of memory
  5  device failed: input or output";

/// What `verify` answers, by exit status.
pub const VERIFY: &str = "\
Answers, by exit status:
  0  accepted
  2  refused: and the fault of the log, L1 to L7, L9 or L10, or of the order, O1 to O3, P1 to P3 and P5; or usage
  4  out of memory
  5  device failed: input or output";

/// What `stats` answers, by exit status.
pub const STATS: &str = "\
Answers, by exit status:
  0  a line each of a word and a number: sessions, committed, aborted, in versions 2 and 3 unknown
     and taken, keys, operations; choices, those of the formula, or the anomaly; variables, clauses
  2  refused: and the fault of the log, L1 to L7, L9 or L10, or of its formula, G1 to G3; or usage
  4  out of memory
  5  device failed: input or output";

/// What `explain` answers, by exit status.
pub const EXPLAIN: &str = "\
Answers, by exit status:
  0  as check
  1  what check says, and why: the reason of each edge, in the log's own lines
  2  refused: as check; or usage
  3  as check, and what to try next
  4  out of memory
  5  device failed: input or output

With --level, the answers are those of audit --explain, for a log of any length; with --format dot
the graph of the part that shows why, behind comments.";

/// What `audit` answers, by exit status.
pub const AUDIT: &str = "\
Answers, by exit status:
  0  serializable, then a line each of a word and a number: what the log holds
  1  not serializable: then a part that no serial order explains, its code where it has one, and its
     transactions; where the log states moments, what holds without them; then the numbers
  2  refused: FILE:LINE: WORDS (CODE), the fault of the log, L1 to L7, L9 or L10; or usage
  3  unknown: and why, what was not decided or fewer lines commit than asked for; then the numbers
  4  out of memory
  5  device failed: a file and the reason, or output

With --level, the first line has the name of the level, a colon, and kept, not kept or unknown.";

/// What `census` answers, by exit status.
pub const CENSUS: &str = "\
Answers, by exit status:
  1  how many faults of A1 to A7 there are, then a line for each code; so no serial order explains
     the log
  2  refused: FILE:LINE: WORDS (CODE), the fault of the log, L1 to L7, L9 or L10; or usage
  3  there is none, and whether some serial order explains the log was not asked
  4  out of memory
  5  device failed: a file and the reason, or output";

/// What `split` answers, by exit status.
pub const SPLIT: &str = "\
Answers, by exit status:
  0  the split log
  2  refused: FILE:LINE: WORDS (CODE), the fault of the log, L1 to L7, L9 or L10; or FILE: no room
     for the locks, and why; or usage
  4  out of memory
  5  device failed: a file and the reason, or output";
