//! Why the split log is not told.

ghost use Rattle.std.specs.Prelude.{◌≡◌};
ghost use Rattle.session_log.specs.declared.fault.LogFault.TheVariants.{Memory};
ghost use Rattle.split_command.specs.declared.fault.SplitFault.TheVariants.{Log, Locks, Output};

use output::WriteFault;
use session_log::LogFault;
use splitting::NoRoom;
use std::alloc::AllocError;

/// Why the split log of a log is not told.
#[derive(Clone, Copy)]
pub enum SplitFault {
    /// It is no long log, or memory was refused.
    Log(LogFault),
    /// There is no room for the names of its locks.
    Locks(NoRoom),
    /// The sink failed, behind so many bytes.
    Output { written: u64 },
}

impl From<LogFault> for SplitFault {
    ghost from_gives = { λ f e. e ≡ Log f };

    fn from(fault: LogFault) -> SplitFault {
        SplitFault::Log(fault)
    }
}

impl From<AllocError> for SplitFault {
    ghost from_gives = { λ _ e. e ≡ Log Memory };

    fn from(_refused: AllocError) -> SplitFault {
        SplitFault::Log(LogFault::Memory)
    }
}

impl From<NoRoom> for SplitFault {
    ghost from_gives = { λ why e. e ≡ Locks why };

    fn from(why: NoRoom) -> SplitFault {
        SplitFault::Locks(why)
    }
}

impl From<WriteFault> for SplitFault {
    ghost from_gives = { λ f e. e ≡ Output f.written };

    fn from(failed: WriteFault) -> SplitFault {
        SplitFault::Output {
            written: failed.written,
        }
    }
}
