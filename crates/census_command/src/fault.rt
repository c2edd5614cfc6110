//! Why the census of a log is not told.

ghost use Rattle.std.specs.Prelude.{◌≡◌};
ghost use Rattle.session_log.specs.declared.fault.LogFault.TheVariants.{Memory};
ghost use Rattle.census_command.specs.declared.fault.CensusFault.TheVariants.{Log, Output};

use output::WriteFault;
use session_log::LogFault;
use std::alloc::AllocError;

/// Why the census of a log is not told.
#[derive(Clone, Copy)]
pub enum CensusFault {
    /// It is no long log, or memory was refused.
    Log(LogFault),
    /// The sink failed, behind so many bytes.
    Output { written: u64 },
}

impl From<LogFault> for CensusFault {
    ghost from_gives = { λ f e. e ≡ Log f };

    fn from(fault: LogFault) -> CensusFault {
        CensusFault::Log(fault)
    }
}

impl From<AllocError> for CensusFault {
    ghost from_gives = { λ _ e. e ≡ Log Memory };

    fn from(_refused: AllocError) -> CensusFault {
        CensusFault::Log(LogFault::Memory)
    }
}

impl From<WriteFault> for CensusFault {
    ghost from_gives = { λ f e. e ≡ Output f.written };

    fn from(failed: WriteFault) -> CensusFault {
        CensusFault::Output {
            written: failed.written,
        }
    }
}
