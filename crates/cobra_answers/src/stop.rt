//! Why a call of the program ends without an answer: the line that it prints of that, and its exit
//! status.

ghost use Rattle.std.specs.Prelude.{◌≡◌};
ghost use Rattle.std.specs.Fmt.{WritesOnOk};
ghost use Rattle.cobra_answers.specs.Refusals.{is_memory, log_refusal, formula_refusal};
ghost use Rattle.cobra_answers.specs.Refusals.{answer_refusal, order_refusal, refusal};
ghost use Rattle.cobra_answers.specs.Refusals.{refusal_status, stop_status};

use crate::fault::Fault;
use crate::source::ReadFault;
use dimacs::AnswerFault;
use order_cnf::CnfFault;
use order_text::OrderFault;
use session_log::LogFault;
use std::alloc::AllocError;
use std::fmt;

/// Why a call of the program ends without an answer. It is displayed as the line that the program
/// prints of it, without its line feed, which takes no memory.
#[derive(Clone, Copy, Debug, PartialEq, Eq)]
pub enum Stop {
    /// The command is refused.
    Refused(Fault),
    /// A word of the call is no text.
    Words,
    /// A file, or standard input, could not be read.
    Input,
    /// What the command wrote could not be handed on.
    Output,
}

/// The exit statuses of refusals: of the input, for want of memory, and of a device.
const REFUSED: u8 = 2;

const OUT_OF_MEMORY: u8 = 4;

const DEVICE_FAILED: u8 = 5;

impl Stop {
    /// The exit status of the program: 2 for refused words and input, 4 for want of memory, 5 for a
    /// failed device.
    pub fn code(self) -> u8
        ensures code { result ≡ stop_status self }
    {
        match self {
            Stop::Refused(fault) => refusal_status(fault),
            Stop::Words => REFUSED,
            Stop::Input | Stop::Output => DEVICE_FAILED,
        }
    }
}

impl From<Fault> for Stop {
    ghost use Rattle.cobra_answers.specs.declared.stop.Stop.TheVariants.{Refused};

    ghost from_gives = { λ f e. e ≡ Refused f };

    fn from(fault: Fault) -> Stop {
        Stop::Refused(fault)
    }
}

impl From<AllocError> for Stop {
    ghost use Rattle.cobra_answers.specs.declared.fault.Fault.TheVariants.{Memory};
    ghost use Rattle.cobra_answers.specs.declared.stop.Stop.TheVariants.{Refused};

    ghost from_gives = { λ _ e. e ≡ Refused Memory };

    fn from(_refused: AllocError) -> Stop {
        Stop::Refused(Fault::Memory)
    }
}

impl From<ReadFault> for Stop {
    ghost use Rattle.cobra_answers.specs.Failures.{read_stop};

    ghost from_gives = { λ f e. e ≡ read_stop f };

    fn from(fault: ReadFault) -> Stop {
        match fault {
            ReadFault::Device => Stop::Input,
            ReadFault::Memory => Stop::Refused(Fault::Memory),
        }
    }
}

/// The exit status of a refused command.
fn refusal_status(fault: Fault) -> u8
    ensures status { result ≡ refusal_status fault }
{
    match fault {
        Fault::Log(LogFault::Memory) => OUT_OF_MEMORY,
        Fault::Formula(CnfFault::Memory) => OUT_OF_MEMORY,
        Fault::Answer(AnswerFault::Memory) => OUT_OF_MEMORY,
        Fault::Order(OrderFault::Memory) => OUT_OF_MEMORY,
        Fault::Device { .. } => DEVICE_FAILED,
        Fault::Memory => OUT_OF_MEMORY,
        _ => REFUSED,
    }
}

/// Whether memory was refused.
fn is_memory(fault: LogFault) -> bool
    ensures memory { result ≡ is_memory fault }
{
    match fault {
        LogFault::Memory => true,
        _ => false,
    }
}

fn write_log_refusal<W: fmt::Write>(f: &mut fmt::Formatter<W>, fault: LogFault) -> fmt::Result
    ensures text { WritesOnOk W.write_str_gives f.old result (log_refusal fault) f.new }
{
    if is_memory(fault) {
        return write!(f, "out of memory");
    }
    let code = fault.code();
    match fault.line() {
        Some(line) => write!(f, "refused: {code} line {line}"),
        None => write!(f, "refused: {code}"),
    }
}

fn write_formula_refusal<W: fmt::Write>(f: &mut fmt::Formatter<W>, fault: CnfFault) -> fmt::Result
    ensures text { WritesOnOk W.write_str_gives f.old result (formula_refusal fault) f.new }
{
    match fault {
        CnfFault::TooManyChoices => write!(f, "refused: G1"),
        CnfFault::TooManyForPlain => write!(f, "refused: G2"),
        CnfFault::FormulaTooLarge => write!(f, "refused: G3"),
        CnfFault::Memory => write!(f, "out of memory"),
    }
}

fn write_answer_refusal<W: fmt::Write>(f: &mut fmt::Formatter<W>, fault: AnswerFault) -> fmt::Result
    ensures text { WritesOnOk W.write_str_gives f.old result (answer_refusal fault) f.new }
{
    match fault {
        AnswerFault::BadLine { line } => write!(f, "refused: M1 line {line}"),
        AnswerFault::TwoStatus { line } => write!(f, "refused: M2 line {line}"),
        AnswerFault::NoStatus => write!(f, "refused: M3"),
        AnswerFault::OutOfRange { line } => write!(f, "refused: M4 line {line}"),
        AnswerFault::BothSigns { line } => write!(f, "refused: M5 line {line}"),
        AnswerFault::Unclosed => write!(f, "refused: M6"),
        AnswerFault::Memory => write!(f, "out of memory"),
        AnswerFault::TooLong => write!(f, "refused: M8"),
    }
}

fn write_order_refusal<W: fmt::Write>(f: &mut fmt::Formatter<W>, fault: OrderFault) -> fmt::Result
    ensures text { WritesOnOk W.write_str_gives f.old result (order_refusal fault) f.new }
{
    match fault {
        OrderFault::BadLine { line } => write!(f, "refused: O1 line {line}"),
        OrderFault::NoSuchTransaction { line } => write!(f, "refused: O2 line {line}"),
        OrderFault::TooLong => write!(f, "refused: O3"),
        OrderFault::Memory => write!(f, "out of memory"),
    }
}

fn write_refusal<W: fmt::Write>(f: &mut fmt::Formatter<W>, fault: Fault) -> fmt::Result
    ensures text { WritesOnOk W.write_str_gives f.old result (refusal fault) f.new }
{
    match fault {
        Fault::Log(fault) => write_log_refusal(f, fault),
        Fault::Formula(fault) => write_formula_refusal(f, fault),
        Fault::Answer(fault) => write_answer_refusal(f, fault),
        Fault::NotAModel { clause } => write!(f, "refused: E1 clause {clause}"),
        Fault::Order(fault) => write_order_refusal(f, fault),
        Fault::NotAPermutation => write!(f, "refused: P1"),
        Fault::SessionOrder { session, place } => write!(f, "refused: P2 {session}.{place}"),
        Fault::MomentOrder { session, place } => write!(f, "refused: P5 {session}.{place}"),
        Fault::ReadMismatch { session, place, op } => {
            write!(f, "refused: P3 {session}.{place} op {op}")
        }
        Fault::Device { .. } => write!(f, "device failed: output"),
        Fault::Memory => write!(f, "out of memory"),
    }
}

impl fmt::Display for Stop {
    ghost use Rattle.std.specs.Prelude.{Some};
    ghost use Rattle.cobra_answers.specs.Refusals.{stop_line};

    ghost output = { λ stop. Some (stop_line stop) };

    fn fmt<W: fmt::Write>(&self, f: &mut fmt::Formatter<W>) -> fmt::Result {
        match self {
            Stop::Refused(fault) => write_refusal(f, *fault),
            Stop::Words => write!(
                f,
                "error: invalid UTF-8 was detected in one or more arguments"
            ),
            Stop::Input => write!(f, "device failed: input"),
            Stop::Output => write!(f, "device failed: output"),
        }
    }
}
