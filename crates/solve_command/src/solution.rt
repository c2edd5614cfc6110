//! How what is found of a history is told.

ghost use Rattle.std.specs.Prelude.{◌≡◌, IfOk};
ghost use Rattle.solve_command.specs.Solved.{status_of, solution_text, spent_text};
ghost use Rattle.solve_command.specs.Solved.{IsSerialWhereTold};

use cobra_answers::{Reply, Status, serial_text};
use session_history::History;
use solving::Solution;
use std::alloc::{AllocError, Global};

/// What is written where the formula is refuted.
const REFUTED: &[u8] = b"not serializable: the formula is refuted\n";

/// The text of a search that ended after so many conflicts.
fn spent_text(alloc: Global, conflicts: u32) -> Result<Vec<u8>, AllocError>
    ensures text { IfOk result (λ text. text.items ≡ spent_text conflicts) }
{
    Ok(format!(in alloc; "unknown: {conflicts} conflicts\n")?.into_bytes())
}

/// How a command ends that tells a solution.
fn status_of(solution: &Solution) -> Status
    ensures status { result ≡ status_of solution.now }
{
    match solution {
        Solution::Serial(_) => Status::Done,
        Solution::Refuted => Status::NotSerializable,
        Solution::Spent => Status::Unknown,
    }
}

/// How a solution is told that was found within so many conflicts.
fn solution_text(
    alloc: Global,
    history: &History,
    budget: u32,
    solution: &Solution,
) -> Result<Vec<u8>, AllocError>
    requires serial { IsSerialWhereTold history.now solution.now }
    ensures text { IfOk result (λ text. text.items ≡ solution_text budget history.now solution.now) }
{
    match solution {
        Solution::Serial(order) => serial_text(alloc, history, order),
        Solution::Refuted => Vec::from_slice(alloc, REFUTED),
        Solution::Spent => spent_text(alloc, budget),
    }
}

/// What is to be said of a solution.
pub(crate) fn reply_of(
    alloc: Global,
    history: &History,
    budget: u32,
    solution: &Solution,
) -> Result<Reply, AllocError>
    requires serial { IsSerialWhereTold history.now solution.now }
    ensures status { IfOk result (λ r. r.status ≡ status_of solution.now) }
    ensures text { IfOk result (λ r.
        r.text.items ≡ solution_text budget history.now solution.now) }
{
    Ok(Reply {
        status: status_of(solution),
        text: solution_text(alloc, history, budget, solution)?,
    })
}
