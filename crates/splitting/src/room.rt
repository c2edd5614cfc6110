//! Why the locks of a log cannot be named.

/// The names of the locks would be no keys, or no identities.
#[derive(Clone, Copy, Debug, PartialEq, Eq)]
pub enum NoRoom {
    /// The longest key of the log has so many bytes, and its lock would have so many more: in all
    /// more than the 64 that a key may have.
    Keys { longest: usize, marks: usize },
    /// The greatest identity that the log names, and how many writes it has: so many identities
    /// are not left above it.
    Identities { largest: u64, writes: usize },
}
