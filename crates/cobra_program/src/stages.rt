//! How far an audit is, told once a second on standard error.

ghost use Rattle.std.specs.Prelude.{◌≡◌, Some};
ghost use Rattle.cobra_program.specs.Stages.{percent, stage_line, is_second_later};

use progress::{Progress, Stage};
use std::fmt;
use std::io::Eprint;
use std::time::{Clock, Instant};

/// How many hundredths so many of so many are.
fn percent(part: usize, whole: usize) -> usize
    ensures percent { result ≡ percent part whole }
{
    match whole {
        0 => 100,
        _ => part.saturating_mul(100) / whole,
    }
}

/// A stage. It is displayed as the line that tells it, without its line feed.
#[derive(Clone, Copy)]
struct Line {
    stage: Stage,
}

impl fmt::Display for Line {
    ghost output = { λ line. Some (stage_line line.stage) };

    fn fmt<W: fmt::Write>(&self, f: &mut fmt::Formatter<W>) -> fmt::Result {
        match self.stage {
            Stage::Read { transactions } => write!(f, "read {transactions} transactions"),
            Stage::Round(round) => write!(f, "round {round}"),
            Stage::Merging { placed, nodes } => {
                let percent = percent(placed, nodes);
                write!(f, "merging {percent}%")
            }
            Stage::Searching { transactions } => {
                write!(f, "searching {transactions} transactions")
            }
        }
    }
}

/// Whether a second went by between these.
fn is_second_later(last: Option<Instant>, now: Instant) -> bool
    ensures later { result ≡ is_second_later last now }
{
    match last {
        Some(last) => now.duration_since(last).as_secs() >= 1,
        None => true,
    }
}

/// Tells once a second on standard error how far judging is, where that is asked for.
#[derive(Drop)]
pub struct EachSecond {
    is_asked: bool,
    last: Option<Instant>,
}

impl EachSecond {
    /// What was told last counts as told then.
    pub fn new(is_asked: bool, start: Option<Instant>) -> EachSecond
        ensures asked { result.is_asked ≡ is_asked }
        ensures last { result.last ≡ start }
    {
        EachSecond {
            is_asked,
            last: start,
        }
    }

    /// Whether a second went by since this was asked and so answered last, or the clock cannot say.
    fn is_due<R: Clock>(&mut self, rt: &R) -> bool {
        let Ok(now) = Instant::now(rt) else {
            return true;
        };
        let is_due = is_second_later(self.last, now);
        if is_due {
            self.last = Some(now);
        }
        is_due
    }
}

impl Progress for EachSecond {
    fn tell<R: Eprint + Clock>(&mut self, rt: &R, stage: Stage) {
        if self.is_asked && self.is_due(rt) {
            let line = Line { stage };
            let _ = eprintln!(rt; "{line}");
        }
    }
}
