//! Texts that are shown in place of a call: help, the version, and why words are no call.

ghost use Rattle.std.specs.Prelude.{◌≡◌};
ghost use Rattle.clap.specs.Values.{kind_of};
ghost use Rattle.cobra_program.specs.Texts.{is_asked_for, IsShown};

use clap::Error;
use clap::error::ErrorKind;
use cobra_calls::{Ending, Errors, Inputs, Outlet, USAGE, World, hand_on, tell_ending};
use std::alloc::Global;

/// Whether a text of this kind is asked for: help, or the version.
fn is_asked_for(kind: ErrorKind) -> bool
    ensures asked { result ≡ is_asked_for kind }
{
    match kind {
        ErrorKind::DisplayHelp => true,
        ErrorKind::DisplayVersion => true,
        _ => false,
    }
}

/// Shows a text, and gives the exit status. One that is asked for has to arrive; words that are no
/// call are refused in any case.
pub fn show<I: Inputs, O: Outlet, E: Errors>(
    alloc: Global,
    text: &Error,
    world: &mut World<I, O, E>,
) -> u8
    ensures shown { IsShown (kind_of text.now) (record {
      given = I.given world.old.inputs;
      held = I.held world.old.inputs;
      before = I.failures world.old.inputs;
      after = I.failures world.new.inputs;
      old = O.bytes world.old.output;
      new = O.bytes world.new.output;
      failures = O.failures world.old.output;
      later_failures = O.failures world.new.output;
      lines = E.lines world.old.errors;
      later = E.lines world.new.errors;
      is_through = O.is_through world.new.output;
      is_broken = E.is_broken world.new.errors;
    }) result }
    ensures unread { I.reads world.new.inputs ≡ I.reads world.old.inputs }
{
    let Ok(shown) = format!(in alloc; "{text}") else {
        return tell_ending(&mut world.errors, Ending::memory());
    };
    if is_asked_for(text.kind()) {
        match hand_on(shown.as_bytes(), &mut world.output) {
            Ok(()) => 0,
            Err(ending) => tell_ending(&mut world.errors, ending),
        }
    } else {
        let _ = world.errors.tell(shown);
        USAGE
    }
}
