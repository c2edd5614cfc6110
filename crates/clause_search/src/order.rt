//! Which variable is decided next: the one that took part in conflicts most lately and most often.

use std::alloc::{AllocError, Global};

/// A place of the heap that is none.
const NOWHERE: u32 = u32::MAX;

/// What a variable gains at first for a conflict, and by which part of it this grows with each
/// conflict.
const FIRST_GAIN: u64 = 1 << 12;

const GROWTH: u64 = 20;

/// Above this gain all are made smaller, by so many bits.
const GREATEST_GAIN: u64 = 1 << 56;

const BITS_LESS: u32 = 44;

/// More steps than a heap has levels.
const MOST_LEVELS: usize = 40;

/// Variables in a heap by what they gained, the greatest first.
#[derive(Drop)]
pub(crate) struct Order {
    gained: Vec<u64>,
    heap: Vec<u32>,
    // where in the heap each variable stands
    places: Vec<u32>,
    gain: u64,
}

impl Order {
    /// Variables 1 to `variables`.
    pub(crate) fn new(alloc: Global, variables: u32) -> Result<Order, AllocError> {
        let count = (variables as usize).saturating_add(1);
        let mut order = Order {
            gained: vec![in alloc; 0; count]?,
            heap: Vec::with_capacity(alloc, count)?,
            places: vec![in alloc; NOWHERE; count]?,
            gain: FIRST_GAIN,
        };
        for variable in 1..=variables {
            order.insert(variable)?;
        }
        Ok(order)
    }

    fn gained_by(&self, variable: u32) -> u64 {
        self.gained.get(variable as usize).copied().unwrap_or(0)
    }

    /// The variable at a place of the heap.
    fn at(&self, place: usize) -> Option<u32> {
        self.heap.get(place).copied()
    }

    /// Puts a variable at a place of the heap.
    fn put(&mut self, place: usize, variable: u32) {
        if let Some(held) = self.heap.get_mut(place) {
            *held = variable;
        }
        if let Some(held) = self.places.get_mut(variable as usize) {
            *held = u32::try_from(place).unwrap_or(NOWHERE);
        }
    }

    /// Moves a variable towards the first place, as far as it has gained more than those before it.
    fn rise(&mut self, from: usize, variable: u32) {
        let mut place = from;
        for _ in 0..MOST_LEVELS {
            if place == 0 {
                break;
            }
            let above = place.wrapping_sub(1) / 2;
            let Some(other) = self.at(above) else {
                break;
            };
            if self.gained_by(other) >= self.gained_by(variable) {
                break;
            }
            self.put(place, other);
            place = above;
        }
        self.put(place, variable);
    }

    /// Which of the two places below one has the variable that has gained more.
    fn greater_below(&self, place: usize) -> Option<(usize, u32)> {
        let left = place.checked_mul(2)?.checked_add(1)?;
        let right = left.checked_add(1)?;
        let first = self.at(left)?;
        match self.at(right) {
            Some(second) if self.gained_by(second) > self.gained_by(first) => Some((right, second)),
            _ => Some((left, first)),
        }
    }

    /// Moves a variable away from the first place, as far as others have gained more.
    fn sink(&mut self, from: usize, variable: u32) {
        let mut place = from;
        for _ in 0..MOST_LEVELS {
            let Some((below, other)) = self.greater_below(place) else {
                break;
            };
            if self.gained_by(variable) >= self.gained_by(other) {
                break;
            }
            self.put(place, other);
            place = below;
        }
        self.put(place, variable);
    }

    /// Puts a variable into the heap that is not in it.
    pub(crate) fn insert(&mut self, variable: u32) -> Result<(), AllocError> {
        if self.places.get(variable as usize).copied() == Some(NOWHERE) {
            let place = self.heap.len();
            self.heap.push(variable)?;
            self.rise(place, variable);
        }
        Ok(())
    }

    /// Takes out the variable that has gained most.
    pub(crate) fn take(&mut self) -> Option<u32> {
        let first = self.at(0)?;
        let last = self.heap.pop()?;
        if let Some(place) = self.places.get_mut(first as usize) {
            *place = NOWHERE;
        }
        if last != first {
            self.sink(0, last);
        }
        Some(first)
    }

    /// A variable took part in a conflict.
    pub(crate) fn bump(&mut self, variable: u32) {
        let gain = self.gain;
        if let Some(gained) = self.gained.get_mut(variable as usize) {
            *gained = gained.saturating_add(gain);
        }
        let place = self.places.get(variable as usize).copied();
        if let Some(place) = place.filter(|place| *place != NOWHERE) {
            self.rise(place as usize, variable);
        }
    }

    /// What later conflicts give is more.
    pub(crate) fn age(&mut self) {
        self.gain = self.gain.saturating_add(self.gain / GROWTH);
        if self.gain > GREATEST_GAIN {
            self.gain >>= BITS_LESS;
            for gained in self.gained.iter_mut() {
                *gained >>= BITS_LESS;
            }
        }
    }
}
