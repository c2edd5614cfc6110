//! Laws of every machine, each the contract of a function that does nothing.
ghost use Rattle.std.specs.Prelude.{List};
ghost use Rattle.desk.specs.declared.history.Entry.{Entry};
ghost use Rattle.desk.specs.History.{replay};

use crate::machine::Machine;

/// What holds of a state holds after every list of steps from it, whoever makes them.
pub fn valid_after_every_history<M: Machine>()
    ensures { (start : M) → M.valid start
        → (history : List (Entry M.Event M.Reply)) → M.valid (replay M.next start history) }
{}
