//! By what means something is proposed, until when, and who is told how far it is.

use desk::seat_no::Workers;
use progress::{Deadline, Progress, Stage, is_over};
use std::io::Eprint;
use std::time::Clock;

/// So many steps are made between two looks at the clock, or a few more: about a millisecond's.
const STEPS: usize = 1 << 20;

/// A clock that is looked at every so many steps, and how many steps may be made.
#[derive(Drop)]
pub struct Alarm<'a, R> {
    rt: &'a R,
    deadline: Option<Deadline>,
    steps: usize,
    left: usize,
    has_rung: bool,
}

impl<'a, R: Clock> Alarm<'a, R> {
    pub fn new(rt: &'a R, deadline: Option<Deadline>) -> Alarm<'a, R> {
        Alarm {
            rt,
            deadline,
            steps: 0,
            left: usize::MAX,
            has_rung: false,
        }
    }

    /// The same where no more steps than these may be made.
    pub fn with_steps(self, most: usize) -> Alarm<'a, R> {
        Alarm { left: most, ..self }
    }

    /// Whether the time was up when the clock was looked at last, or no step is left; so many steps are
    /// made now.
    pub fn rings(&mut self, steps: usize) -> bool {
        self.left = self.left.saturating_sub(steps);
        self.has_rung = self.has_rung || self.left == 0;
        self.steps = self.steps.saturating_add(steps);
        if self.steps >= STEPS {
            self.steps = 0;
            self.has_rung = self.has_rung || is_over(self.deadline, self.rt);
        }
        self.has_rung
    }
}

/// The runtime, the means, and who is told.
#[derive(Drop)]
pub struct Watch<'a, R, P> {
    pub rt: &'a R,
    pub workers: Workers,
    pub deadline: Option<Deadline>,
    pub progress: &'a mut P,
}

impl<'a, R: Clock + Eprint, P: Progress> Watch<'a, R, P> {
    /// An alarm for when the time is up.
    pub fn alarm(&self) -> Alarm<'a, R> {
        Alarm::new(self.rt, self.deadline)
    }

    /// Whether the time is up.
    pub fn is_over(&self) -> bool {
        is_over(self.deadline, self.rt)
    }

    /// Tells what is being done.
    pub fn tell(&mut self, stage: Stage) {
        self.progress.tell(self.rt, stage);
    }
}
