//! The limits of a log.

/// The most bytes of a log, 16 MiB.
pub const MAX_LOG_BYTES: usize = 16_777_216;

/// The most lines of a log that begin with the bytes `session`.
pub const MAX_SESSIONS: usize = 64;

/// The most operations of a log.
pub const MAX_OPERATIONS: usize = 200_000;

/// The most keys of a log.
pub const MAX_KEYS: usize = 10_000;
