//! Until when something further is begun.

ghost use Rattle.std.specs.Prelude.{◌≢◌, None, IsTrue};

use std::time::{Clock, Instant};

/// When nothing further is to be begun: so many seconds after the start.
#[derive(Clone, Copy)]
pub struct Deadline {
    pub start: Instant,
    pub seconds: u32,
}

impl Deadline {
    /// Whether it is over, by this clock. It is not where the clock fails.
    fn is_over(&self, clock: &impl Clock) -> bool {
        match self.start.elapsed(clock) {
            Ok(elapsed) => elapsed.as_secs() >= u64::from(self.seconds),
            Err(_) => false,
        }
    }
}

/// Whether nothing further is to be begun: never where no deadline is set.
pub fn is_over(deadline: Option<Deadline>, clock: &impl Clock) -> bool
    ensures over { IsTrue result → deadline ≢ None }
{
    match deadline {
        Some(deadline) => deadline.is_over(clock),
        None => false,
    }
}
