//! When the search begins anew, by the sequence of Luby, Sinclair and Zuckerman (1993).

/// How many conflicts the shortest run has.
const SHORTEST_RUN: u64 = 64;

/// Runs of 1, 1, 2, 1, 1, 2, 4, 1, 1, 2, 1, 1, 2, 4, 8, .. times the shortest one.
#[derive(Clone, Copy)]
pub(crate) struct Restarts {
    // Knuth's two numbers: the second is the length of the run
    turn: u64,
    length: u64,
    conflicts: u64,
}

impl Restarts {
    pub(crate) fn new() -> Restarts {
        Restarts {
            turn: 1,
            length: 1,
            conflicts: 0,
        }
    }

    /// A conflict was met.
    pub(crate) fn count(&mut self) {
        self.conflicts = self.conflicts.saturating_add(1);
    }

    /// Whether the run is over. Then the next one begins.
    pub(crate) fn is_due(&mut self) -> bool {
        if self.conflicts < self.length.saturating_mul(SHORTEST_RUN) {
            return false;
        }
        self.conflicts = 0;
        if self.turn & self.turn.wrapping_neg() == self.length {
            self.turn = self.turn.saturating_add(1);
            self.length = 1;
        } else {
            self.length = self.length.saturating_mul(2);
        }
        true
    }
}
