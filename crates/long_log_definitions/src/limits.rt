//! The limit of a long log.

/// The most bytes of a long log, 1 GiB.
pub const MAX_LONG_LOG_BYTES: usize = 1_073_741_824;
