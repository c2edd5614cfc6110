//! How a command ends.

ghost use Rattle.std.specs.Prelude.{◌≡◌};
ghost use Rattle.cobra_answers.specs.Failures.{code_of};

/// How a command that is not refused ends.
#[derive(Clone, Copy, Debug, PartialEq, Eq)]
pub enum Status {
    /// It did what was asked.
    Done,
    /// No serial order exists.
    NotSerializable,
    /// The answer leaves open whether a serial order exists.
    Unknown,
}

impl Status {
    /// The exit status of the program.
    pub fn code(self) -> u8
        ensures code { result ≡ code_of self }
    {
        match self {
            Status::Done => 0,
            Status::NotSerializable => 1,
            Status::Unknown => 3,
        }
    }
}
