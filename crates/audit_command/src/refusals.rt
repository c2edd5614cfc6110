//! What is said of a log that is refused.

ghost use Rattle.std.specs.Prelude.{IfOk};
ghost use Rattle.audit_command.specs.Audited.{IsRefusal};

use crate::options::AuditOptions;
use audit_report::refusal_object;
use call_options::ReportForm;
use fault_words::words_of;
use long_log_definitions::MAX_LONG_LOG_BYTES;
use session_log::LogFault;
use std::alloc::{AllocError, Global};

/// What is said of a refused log in place of a report: nothing, or an object.
pub fn refusal(
    alloc: Global,
    options: &AuditOptions<'_>,
    log: &[u8],
    fault: LogFault,
) -> Result<Vec<u8>, AllocError>
    ensures refusal { IfOk result (λ text. IsRefusal options.now.form options.now fault
        text.items) }
{
    match options.form {
        ReportForm::Text => Ok(Vec::new(alloc)),
        ReportForm::Json => {
            let words = words_of(alloc, log, fault, MAX_LONG_LOG_BYTES)?;
            refusal_object(
                alloc,
                options.quiet,
                fault,
                words.as_bytes(),
                options.version,
            )
        }
    }
}
