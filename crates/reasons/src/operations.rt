//! Operations of two nodes, and writes of one.

/// An operation of one node and one of another, which count from 0.
#[derive(Clone, Copy)]
pub struct Operations {
    pub first: usize,
    pub second: usize,
}

/// An operation of a node that writes a key.
#[derive(Clone, Copy)]
pub struct KeyWrite {
    pub key: usize,
    pub place: usize,
}
