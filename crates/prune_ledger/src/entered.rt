//! The entries of a round.

ghost use Rattle.std.specs.Prelude.{◌≡◌, ◌++◌, IfOk};
ghost use Rattle.std.specs.Option.{option_to_list};
ghost use Rattle.prune_ledger.specs.Steps.{is_entered};
ghost use Rattle.prune_ledger.specs.Entered.{entered_by, entered_in};

use crate::ledger::LedgerEntry;
use crate::messages::{PruneEvent, PruneReply};
use desk::history::Entry;
use std::alloc::AllocError;

/// The entries, with the posts that a history entered behind them, each with the seat that sent it.
pub fn with_entered(
    entries: Vec<LedgerEntry>,
    history: Vec<Entry<PruneEvent, PruneReply>>,
) -> Result<Vec<LedgerEntry>, AllocError>
    ensures entries { IfOk result (λ v. v.items ≡ entries.items ++ entered_in history.items) }
{
    let mut all = entries;
    for step in history {
        if let Some(entry) = entered(step) {
            all.push(entry)?;
        }
    }
    Ok(all)
}

/// The entry of a step, where it is a post that was entered.
fn entered(step: Entry<PruneEvent, PruneReply>) -> Option<LedgerEntry>
    ensures { option_to_list result ≡ entered_by step.seat step.event step.reply }
{
    let Entry { seat, event, reply } = step;
    match event {
        PruneEvent::Post(post) => {
            if is_entered(reply) {
                Some(LedgerEntry { seat, post })
            } else {
                None
            }
        }
        PruneEvent::Take => None,
        PruneEvent::Pass(_) => None,
        PruneEvent::Release => None,
    }
}

/// Whether a post was entered.
pub(crate) fn is_entered(reply: PruneReply) -> bool
    ensures { result ≡ is_entered reply }
{
    match reply {
        PruneReply::Entered => true,
        PruneReply::Judge(_) => false,
        PruneReply::NoneLeft => false,
        PruneReply::AlreadyIn => false,
        PruneReply::BadWalk => false,
        PruneReply::Noted => false,
        PruneReply::Released => false,
        PruneReply::Dead => false,
    }
}
