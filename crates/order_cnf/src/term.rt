//! What a formula says of an edge.

use serializability::Literal;

/// What a formula says of "u before v".
#[derive(Clone, Copy)]
pub enum Term {
    /// It is known to be so.
    True,
    /// It is known that v stands before u.
    False,
    /// A variable says it.
    Open(Literal),
}
