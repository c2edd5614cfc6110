//! Formulas as DIMACS text, and the answers of solvers.
//!
//! Called by the commands. It knows no history and no order.
#![tactic(auto)]

mod answer;
mod laws;
mod number;
mod numeral;
mod piece;
mod read;
mod reading;
mod status;
mod words;
mod write;

pub use answer::{AnswerFault, SolverAnswer};
pub use laws::{model_is_read_back, text_belongs_to_one_formula};
pub use read::{MAX_ANSWER_BYTES, read_answer};
pub use status::Status;
pub use write::write_formula;
