//! Rings of calls, from which a call is taken out and put back again in no time.

use crate::facts::Facts;
use kfifo_model::Effect;
use std::alloc::{AllocError, Global};

/// Rings of numbers. What was taken out last is put back first: then each ring is again as it was.
#[derive(Drop)]
pub(crate) struct Rings {
    /// For each number the next one of its ring.
    next: Vec<usize>,
    /// For each number the one before it.
    prev: Vec<usize>,
}

/// The number at a place, or the greatest one where there is none.
fn at(numbers: &[usize], place: usize) -> usize {
    numbers.get(place).copied().unwrap_or(usize::MAX)
}

/// Writes a number at a place, if it is there.
fn set(numbers: &mut Vec<usize>, place: usize, number: usize) {
    if place < numbers.len() {
        numbers[place] = number;
    }
}

impl Rings {
    /// A ring for each of these numbers, which it is alone in.
    pub(crate) fn new(alloc: Global, count: usize) -> Result<Rings, AllocError> {
        let mut next = Vec::with_capacity(alloc, count)?;
        let mut prev = Vec::with_capacity(alloc, count)?;
        for n in 0..count {
            next.push(n)?;
            prev.push(n)?;
        }
        Ok(Rings { next, prev })
    }

    /// The next number of the ring.
    pub(crate) fn after(&self, n: usize) -> usize {
        at(&self.next, n)
    }

    /// Whether the number is in its ring, and was not taken out.
    pub(crate) fn has(&self, n: usize) -> bool {
        at(&self.next, at(&self.prev, n)) == n
    }

    /// Adds a number that is alone to the ring of another, just before it.
    pub(crate) fn add(&mut self, head: usize, n: usize) {
        let before = at(&self.prev, head);
        set(&mut self.prev, n, before);
        set(&mut self.next, n, head);
        self.put_back(n);
    }

    /// Takes the number out of its ring.
    pub(crate) fn take_out(&mut self, n: usize) {
        let (before, after) = (at(&self.prev, n), at(&self.next, n));
        set(&mut self.next, before, after);
        set(&mut self.prev, after, before);
    }

    /// Puts back the number that was taken out last.
    pub(crate) fn put_back(&mut self, n: usize) {
        let (before, after) = (at(&self.prev, n), at(&self.next, n));
        set(&mut self.next, before, n);
        set(&mut self.prev, after, n);
    }
}

/// The puts whose place in the order is open, in two ways.
#[derive(Drop)]
pub(crate) struct Loose {
    /// How many calls there are: the head of the ring by ends, and of the first item's ring.
    count: usize,
    /// By rising last step, those that have not ended last.
    by_end: Rings,
    /// For each item, in ascending order of first step.
    by_item: Rings,
}

impl Loose {
    /// All puts.
    pub(crate) fn of(alloc: Global, facts: &Facts) -> Result<Loose, AllocError> {
        let count = facts.count();
        let mut by_end = Rings::new(alloc, count.saturating_add(1))?;
        let mut by_item = Rings::new(alloc, count.saturating_add(facts.items))?;
        for n in &facts.due {
            if let Effect::Adds(_) = facts.at(*n).effect {
                by_end.add(count, *n);
            }
        }
        for n in 0..count {
            let fact = facts.at(n);
            if let Effect::Adds(_) = fact.effect {
                by_item.add(count.saturating_add(fact.item), n);
                if !fact.ended {
                    by_end.add(count, n);
                }
            }
        }
        Ok(Loose {
            count,
            by_end,
            by_item,
        })
    }

    /// The one that ends first, or none.
    pub(crate) fn first_to_end(&self) -> Option<usize> {
        self.that(self.by_end.after(self.count))
    }

    /// The next to end, or none.
    pub(crate) fn next_to_end(&self, put: usize) -> Option<usize> {
        self.that(self.by_end.after(put))
    }

    /// The first one of an item, or none.
    pub(crate) fn first_of(&self, item: usize) -> Option<usize> {
        self.that(self.by_item.after(self.count.saturating_add(item)))
    }

    /// The next one of the same item, or none.
    pub(crate) fn next_of(&self, put: usize) -> Option<usize> {
        self.that(self.by_item.after(put))
    }

    /// The put, where it is one and no head of a ring.
    fn that(&self, put: usize) -> Option<usize> {
        if put < self.count { Some(put) } else { None }
    }

    /// Whether the place of the put is open.
    pub(crate) fn has(&self, put: usize) -> bool {
        self.by_end.has(put)
    }

    /// The place of the put is settled.
    pub(crate) fn take_out(&mut self, put: usize) {
        self.by_end.take_out(put);
        self.by_item.take_out(put);
    }

    /// The put whose place was settled last is open again.
    pub(crate) fn put_back(&mut self, put: usize) {
        self.by_end.put_back(put);
        self.by_item.put_back(put);
    }
}
