//! In what form an explanation is written.

/// In what form an explanation is written.
#[derive(Clone, Copy, Debug, PartialEq, Eq)]
pub enum Format {
    /// Lines of text.
    Text,
    /// A graph in the language of Graphviz.
    Dot,
}
