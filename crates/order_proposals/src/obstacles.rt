//! What is in the way where no node can come next.

use crate::behind::Pair;
use crate::merging::Merging;
use crate::watch::Alarm;
use numbers::{NONE, at, number};
use std::alloc::{AllocError, Global};
use std::time::Clock;

/// To look at a point that was placed takes about as long as so many numbers of a clock.
const STEPS_PER_POINT: usize = 16;

/// A pair to be turned round, and where its second node was placed.
#[derive(Clone, Copy)]
pub struct Obstacle {
    pub place: u32,
    pub pair: Pair,
}

impl Merging<'_> {
    /// Adds an obstacle, where the one that is in the way need not come first.
    fn add_obstacle(
        &self,
        obstacles: &mut Vec<Obstacle>,
        first: u32,
        second: u32,
    ) -> Result<(), AllocError> {
        if second != NONE && !self.is_behind(first, second) {
            let place = self.placed.place(second);
            let pair = Pair { first, second };
            obstacles.push(Obstacle { place, pair })?;
        }
        Ok(())
    }

    /// Adds what is in the way of a node: who overwrote a version that it reads, and who wrote one
    /// that others still have to read and it overwrites.
    fn add_obstacles(&self, obstacles: &mut Vec<Obstacle>, node: u32) -> Result<(), AllocError> {
        for read in self.versions.reads.list(node) {
            if self.table.held(read.key) != read.version {
                let second = self.table.overwriter(read.version);
                self.add_obstacle(obstacles, node, second)?;
            }
        }
        for write in self.versions.writes.list(node) {
            if self.table.is_awaited(*write) {
                let second = self.versions.writer(self.table.held(write.key));
                self.add_obstacle(obstacles, node, second)?;
            }
        }
        Ok(())
    }

    /// What is in the way of all, that which was placed last at the end.
    fn obstacles(&self, alloc: Global) -> Result<Vec<Obstacle>, AllocError> {
        let mut obstacles = Vec::new(alloc);
        for node in self.ready.nodes() {
            self.add_obstacles(&mut obstacles, *node)?;
        }
        obstacles.sort_unstable_by_key(|entry: &Obstacle| {
            (entry.place, entry.pair.first, entry.pair.second)
        });
        Ok(obstacles)
    }

    /// Whether the second node of a pair comes before the first by what was placed between.
    fn is_forced(&mut self, obstacle: Obstacle) -> Result<bool, AllocError> {
        self.placed.clear_marks();
        self.placed.mark_point(obstacle.pair.second);
        for place in obstacle.place..number(self.placed.points.len()) {
            let point = at(&self.placed.points, place);
            if self.placed.is_marked(point) {
                self.behind.find_all(point, &mut self.targets)?;
                for target in &self.targets {
                    self.placed.mark_point(*target);
                }
            }
        }
        Ok(self.placed.is_marked(obstacle.pair.first))
    }

    /// The pair to be turned round: of those that can be that whose second was placed last.
    fn pick<R: Clock>(
        &mut self,
        alarm: &mut Alarm<'_, R>,
        obstacles: &[Obstacle],
    ) -> Result<Option<Pair>, AllocError> {
        for obstacle in obstacles.iter().rev() {
            let behind = number(self.placed.points.len()).saturating_sub(obstacle.place);
            if alarm.rings((behind as usize).saturating_mul(STEPS_PER_POINT)) {
                break;
            }
            if !self.behind.is_held(obstacle.pair) && !self.is_forced(*obstacle)? {
                return Ok(Some(obstacle.pair));
            }
        }
        Ok(None)
    }

    /// Whether as many points were taken back as may be.
    fn is_spent(&self) -> bool {
        let most = self.graph.points.len().saturating_mul(20);
        self.undone > most.saturating_add(100_000)
    }

    /// Goes back where nothing can come next; answers whether that helps.
    pub fn unblock<R: Clock>(
        &mut self,
        alarm: &mut Alarm<'_, R>,
        alloc: Global,
    ) -> Result<bool, AllocError> {
        if self.is_spent() {
            return Ok(false);
        }
        let obstacles = self.obstacles(alloc)?;
        match self.pick(alarm, &obstacles)? {
            Some(pair) => {
                self.turn_round(pair)?;
                Ok(true)
            }
            None => self.suppose_one(alarm, alloc, &obstacles),
        }
    }
}
