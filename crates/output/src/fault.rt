//! What a sink answers where it takes nothing more.

/// The call put nothing into the sink.
#[derive(Clone, Copy, Debug, PartialEq, Eq)]
pub struct SinkFailed;

/// A sink failed before the whole text was in it.
#[derive(Clone, Copy, Debug, PartialEq, Eq)]
pub struct WriteFault {
    /// How many bytes, from the front of the text, went out.
    pub written: u64,
}
