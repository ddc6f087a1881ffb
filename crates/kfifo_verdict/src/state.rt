//! How far the search for an order is.

use crate::facts::{Fact, Facts};
use crate::rings::Loose;
use crate::seen::scattered;
use kfifo_model::Effect;
use std::alloc::{AllocError, Global};

/// A put in the order of the puts.
#[derive(Clone, Copy)]
struct Placed {
    /// The put.
    put: usize,
    /// How many of the other calls stand before it at least: those up to the last Empty that went before.
    behind: usize,
}

/// Another call in the order of the others.
#[derive(Clone, Copy)]
struct Other {
    /// The call.
    call: usize,
    /// The step at which it went.
    step: u64,
}

/// A move, so that it can be taken back.
#[derive(Clone, Copy)]
enum Move {
    /// The item of this put came to the front.
    Settled(usize),
    /// The item of this put, which was not at the front, was got.
    Picked(usize),
    /// The item of this put was got, which was at this place of the front.
    Took(usize, usize),
    /// This call, which puts nothing, went.
    Went(usize),
}

/// Where a state was, so that it can be gone back to.
#[derive(Clone, Copy)]
pub(crate) struct Mark {
    /// How many finished calls had been passed.
    pub at: usize,
    /// How many calls had begun.
    begun: usize,
    /// How many moves had been made.
    moves: usize,
    /// How many other calls stand before each put to come.
    behind: usize,
}

/// A beginning of an order, in which the places of most puts are still open.
#[derive(Drop)]
pub(crate) struct State {
    /// How many finished calls, in ascending order of last step, have been passed.
    pub at: usize,
    /// How many calls have begun.
    begun: usize,
    /// The gets and Empties that have begun and did not go: at most one of each thread.
    pub waiting: Vec<usize>,
    /// Which calls that put nothing went.
    gone: Vec<bool>,
    /// The items that are there whose puts have a place in the order, the oldest first.
    pub front: Vec<usize>,
    /// The puts that have no place in the order yet, and whose items were not got.
    pub loose: Loose,
    /// The puts that have one, in this order.
    puts: Vec<Placed>,
    /// The calls that went and put nothing, in turn.
    others: Vec<Other>,
    /// How many of these stand before each put to come: those up to the last Empty.
    behind: usize,
    /// The moves, in turn.
    moves: Vec<Move>,
    /// A number that tells apart states that differ in what can still be done.
    print: u64,
}

impl State {
    /// No call went yet.
    pub(crate) fn new(alloc: Global, facts: &Facts) -> Result<State, AllocError> {
        Ok(State {
            at: 0,
            begun: 0,
            waiting: Vec::new(alloc),
            gone: vec![in alloc; false; facts.count()]?,
            front: Vec::new(alloc),
            loose: Loose::of(alloc, facts)?,
            puts: Vec::with_capacity(alloc, facts.count())?,
            others: Vec::with_capacity(alloc, facts.count())?,
            behind: 0,
            moves: Vec::with_capacity(alloc, facts.count())?,
            print: 0,
        })
    }

    /// Whether the call went, which puts nothing.
    pub(crate) fn is_gone(&self, n: usize) -> bool {
        self.gone.get(n).copied().unwrap_or(true)
    }

    /// Whether the put has begun.
    pub(crate) fn has_begun(&self, n: usize) -> bool {
        n < self.begun
    }

    /// A number that tells this state apart from others.
    pub(crate) fn print(&self) -> u64 {
        self.print ^ scattered((self.at as u64).wrapping_mul(4))
    }

    /// Changes the number for a fact about a call: the same fact twice changes nothing.
    fn stamp(&mut self, n: usize, fact: u64) {
        self.print = self.print ^ scattered((n as u64).wrapping_mul(4).wrapping_add(fact));
    }

    /// Notes whether a call went.
    fn note(&mut self, n: usize, gone: bool) {
        if n < self.gone.len() {
            self.gone[n] = gone;
        }
        self.stamp(n, 1);
    }

    /// The put gets the next place in the order of the puts.
    fn place(&mut self, put: usize) -> Result<(), AllocError> {
        self.loose.take_out(put);
        self.puts.push(Placed {
            put,
            behind: self.behind,
        })?;
        Ok(())
    }

    /// A put that is loose gets the next place in the order, and its item comes to the front.
    pub(crate) fn settle(&mut self, put: usize) -> Result<(), AllocError> {
        self.place(put)?;
        self.front.push(put)?;
        self.stamp(put, 2);
        Ok(self.moves.push(Move::Settled(put))?)
    }

    /// A put that is loose gets the next place in the order, and its item is got at once.
    pub(crate) fn pick(&mut self, put: usize) -> Result<(), AllocError> {
        self.place(put)?;
        self.stamp(put, 3);
        Ok(self.moves.push(Move::Picked(put))?)
    }

    /// The item at this place of the front is got.
    pub(crate) fn take(&mut self, place: usize) -> Result<(), AllocError> {
        if place >= self.front.len() {
            return Ok(());
        }
        let put = self.front.remove(place);
        self.stamp(put, 2);
        self.stamp(put, 3);
        Ok(self.moves.push(Move::Took(put, place))?)
    }

    /// A call that puts nothing goes, at this step.
    pub(crate) fn go(&mut self, call: usize, step: u64) -> Result<(), AllocError> {
        self.waiting.retain(|n| *n != call);
        self.note(call, true);
        self.others.push(Other { call, step })?;
        Ok(self.moves.push(Move::Went(call))?)
    }

    /// The last move is taken back.
    fn take_back_last(&mut self, begun: usize) -> Result<(), AllocError> {
        match self.moves.pop() {
            Some(Move::Settled(put)) => {
                self.front.pop();
                self.puts.pop();
                self.loose.put_back(put);
                self.stamp(put, 2);
            }
            Some(Move::Picked(put)) => {
                self.puts.pop();
                self.loose.put_back(put);
                self.stamp(put, 3);
            }
            Some(Move::Took(put, place)) => {
                if place <= self.front.len() {
                    self.front.insert(place, put)?;
                }
                self.stamp(put, 2);
                self.stamp(put, 3);
            }
            Some(Move::Went(call)) => {
                self.others.pop();
                self.note(call, false);
                if call < begun {
                    self.waiting.push(call)?;
                }
            }
            None => {}
        }
        Ok(())
    }

    /// Where the state is.
    pub(crate) fn mark(&self) -> Mark {
        Mark {
            at: self.at,
            begun: self.begun,
            moves: self.moves.len(),
            behind: self.behind,
        }
    }

    /// All is as it was at the mark.
    pub(crate) fn go_back(&mut self, mark: Mark) -> Result<(), AllocError> {
        let begun = mark.begun;
        self.waiting.retain(|n| *n < begun);
        for _ in mark.moves..self.moves.len() {
            self.take_back_last(begun)?;
        }
        self.at = mark.at;
        self.begun = begun;
        self.behind = mark.behind;
        Ok(())
    }

    /// Whether the list can be empty at this step: no item is at the front, and no put that is loose has ended.
    pub(crate) fn is_free(&self, facts: &Facts, step: u64) -> bool {
        self.front.is_empty()
            && match self.loose.first_to_end() {
                Some(put) => facts.at(put).last >= step,
                None => true,
            }
    }

    /// The first waiting Empty.
    pub(crate) fn empty_that_waits(&self, facts: &Facts) -> Option<usize> {
        for n in &self.waiting {
            if let Effect::FindsNone = facts.at(*n).effect {
                return Some(*n);
            }
        }
        None
    }

    /// The waiting Empties go: all puts to come stand after them.
    pub(crate) fn find_none(&mut self, facts: &Facts, step: u64) -> Result<(), AllocError> {
        for _ in 0..self.waiting.len() {
            let Some(empty) = self.empty_that_waits(facts) else {
                return Ok(());
            };
            self.go(empty, step)?;
            self.behind = self.others.len();
        }
        Ok(())
    }

    /// A call begins. One that changes nothing goes at once, and an Empty where it may at no cost.
    fn begin_one(&mut self, facts: &Facts, n: usize, fact: Fact) -> Result<(), AllocError> {
        match fact.effect {
            Effect::Adds(_) => Ok(()),
            Effect::Takes(_) => Ok(self.waiting.push(n)?),
            Effect::FindsNone => {
                self.waiting.push(n)?;
                if self.is_free(facts, fact.first) {
                    self.find_none(facts, fact.first)?;
                }
                Ok(())
            }
            Effect::Refused | Effect::Wrong if fact.ended => self.go(n, fact.first),
            Effect::Refused | Effect::Wrong => Ok(()),
        }
    }

    /// The calls begin that do so up to this step.
    pub(crate) fn begin(&mut self, facts: &Facts, step: u64) -> Result<(), AllocError> {
        for n in self.begun..facts.count() {
            let fact = facts.at(n);
            if step < fact.first {
                return Ok(());
            }
            self.begun = n + 1;
            self.begin_one(facts, n, fact)?;
        }
        Ok(())
    }

    /// The waiting get of an item that ends first, other than this call. Where any of them may go it can be this one:
    /// in a legal order in which another goes first the two can change places.
    pub(crate) fn get_that_waits(&self, facts: &Facts, item: usize, but: usize) -> Option<usize> {
        let mut best: Option<usize> = None;
        let mut soonest = u64::MAX;
        for n in &self.waiting {
            let fact = facts.at(*n);
            if let Effect::Takes(_) = fact.effect {
                if fact.item == item && *n != but && fact.last < soonest {
                    best = Some(*n);
                    soonest = fact.last;
                }
            }
        }
        best
    }

    /// Finished puts that are left get the last places.
    fn place_rest(&mut self, facts: &Facts) -> Result<(), AllocError> {
        for _ in 0..facts.count() {
            match self.loose.first_to_end() {
                Some(put) if facts.at(put).ended => self.place(put)?,
                _ => return Ok(()),
            }
        }
        Ok(())
    }

    /// The order: each put stands as early as its first step, and those before it, let it.
    pub(crate) fn into_order(self, alloc: Global, facts: &Facts) -> Result<Vec<usize>, AllocError> {
        let mut state = self;
        state.place_rest(facts)?;
        let State { puts, others, .. } = state;
        merged(alloc, facts, &puts, &others)
    }
}

/// Adds the other calls from number `from` on that stand before the put, and returns the number of the first that does
/// not: it went at the put's moment or later, and no Empty that stands before the put comes after it.
fn push_before(
    order: &mut Vec<usize>,
    others: &[Other],
    from: usize,
    moment: u64,
    placed: Placed,
) -> Result<usize, AllocError> {
    for i in from..others.len() {
        if moment <= others[i].step && placed.behind <= i {
            return Ok(i);
        }
        order.push(others[i].call)?;
    }
    Ok(others.len())
}

/// The puts and the other calls in one order.
fn merged(
    alloc: Global,
    facts: &Facts,
    puts: &[Placed],
    others: &[Other],
) -> Result<Vec<usize>, AllocError> {
    let mut order = Vec::with_capacity(alloc, facts.count())?;
    let mut moment = 0;
    let mut passed = 0;
    for placed in puts {
        moment = facts.at(placed.put).first.max(moment);
        passed = push_before(&mut order, others, passed, moment, *placed)?;
        order.push(placed.put)?;
    }
    for i in passed..others.len() {
        order.push(others[i].call)?;
    }
    Ok(order)
}
