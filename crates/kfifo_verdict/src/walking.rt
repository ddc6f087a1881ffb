//! The search for a legal order.
//!
//! It walks through the finished calls in ascending order of last step, and lets each go when it is due, or when
//! another needs it to. Which of two overlapping puts comes first is left open until a get needs to know. Of all puts
//! of its item a due get takes one that has begun. Puts that precede that one have to stand before it: their items come
//! to the *front*, where fewer than k have room. Where there is no room, the item of a waiting get leaves the front. An
//! Empty needs an empty front, and that no put has ended whose item is there.
//!
//! So few choices are left: which put of an item that was put more than once, which item leaves the front, and when an
//! Empty goes. Where a due call cannot go, the walk changes the last of them. A state in which the walk has been before
//! is not gone through again, since from there on it would only fail once more.
ghost use Rattle.std.specs.Prelude.{◌≤◌, IfOk, IfSome, MatchResult};
ghost use Rattle.kfifo_model.specs.Histories.{IsLegal};
ghost use Rattle.kfifo_verdict.specs.Judging.{tries_made};

use crate::choices::{Choices, next_way};
use crate::facts::Facts;
use crate::seen::Seen;
use crate::state::{Mark, State};
use crate::verdicts::GivenUp;
use kfifo_model::{Call, Effect, History, Verdict, check_order};
use std::alloc::{AllocError, Global};

/// A choice that can still be changed.
#[derive(Clone, Copy)]
struct Choice {
    /// Where it was made.
    mark: Mark,
    /// The next of the ways to go on from there.
    next: usize,
}

/// What became of a way to go on.
#[derive(Clone, Copy)]
struct Outcome {
    /// Whether the due call went, or may stay.
    went: bool,
    /// The next way, if there is one.
    next: Option<usize>,
}

/// What became of a step of the walk.
#[derive(Clone, Copy)]
enum Step {
    /// All finished calls went.
    Finished,
    /// The walk came on.
    Went,
    /// A call is due that cannot go.
    GivenUp,
}

/// A waiting get, and the place of its item at the front.
#[derive(Clone, Copy)]
struct Exit {
    /// The get.
    get: usize,
    /// The last step of the get.
    last: u64,
    /// The place.
    place: usize,
}

/// The search for an order.
#[derive(Drop)]
struct Walk {
    /// Where memory comes from.
    alloc: Global,
    /// What is known of the calls.
    facts: Facts,
    /// How many of the oldest items may be got.
    k: usize,
    /// How far it is.
    state: State,
    /// The choices that can still be changed.
    choices: Vec<Choice>,
    /// The states of earlier choices.
    seen: Seen,
}

/// The exit whose get ends first, or last.
fn better(exit: Exit, best: Option<Exit>, latest: bool) -> Exit {
    match best {
        Some(best) if (exit.last < best.last) == latest => best,
        _ => exit,
    }
}

impl Walk {
    /// No call went yet.
    fn new(alloc: Global, calls: &[Call], k: usize) -> Result<Walk, AllocError> {
        let facts = Facts::of(alloc, calls)?;
        let state = State::new(alloc, &facts)?;
        Ok(Walk {
            alloc,
            facts,
            k,
            state,
            choices: Vec::new(alloc),
            seen: Seen::new(alloc, calls.len()),
        })
    }

    /// The order.
    fn into_order(self) -> Result<Vec<usize>, AllocError> {
        let Walk {
            alloc,
            facts,
            state,
            ..
        } = self;
        state.into_order(alloc, &facts)
    }

    /// The get of an item at the front that waits, other than this call: the one that ends first, or last; and whether
    /// there are others.
    fn exit(&self, but: usize, latest: bool) -> (Option<Exit>, bool) {
        let mut best: Option<Exit> = None;
        let mut others = false;
        for (place, put) in self.state.front.iter().enumerate() {
            let item = self.facts.at(*put).item;
            if let Some(get) = self.state.get_that_waits(&self.facts, item, but) {
                let last = self.facts.at(get).last;
                others = best.is_some();
                best = Some(better(Exit { get, last, place }, best, latest));
            }
        }
        (best, others)
    }

    /// An item leaves the front, if any can, so that get `but` has room. The one whose get ends first goes, since it
    /// has to go first anyhow; or, where that led nowhere, the one whose get ends last.
    fn make_room(
        &mut self,
        but: usize,
        step: u64,
        choices: &mut Choices,
    ) -> Result<bool, AllocError> {
        let (exit, others) = self.exit(but, choices.is_turned());
        if others {
            choices.pass();
        }
        let Some(exit) = exit else {
            return Ok(false);
        };
        self.state.take(exit.place)?;
        self.state.go(exit.get, step)?;
        Ok(true)
    }

    /// The puts that precede a put get their places before it; returns whether there was room for them.
    fn settle_before(
        &mut self,
        put: usize,
        get: usize,
        step: u64,
        choices: &mut Choices,
    ) -> Result<bool, AllocError> {
        let first = self.facts.at(put).first;
        for _ in 0..self.facts.count() {
            match self.state.loose.first_to_end() {
                Some(oldest) if self.facts.at(oldest).last < first => {
                    self.state.settle(oldest)?;
                    if self.state.front.len() >= self.k && !self.make_room(get, step, choices)? {
                        return Ok(false);
                    }
                }
                _ => return Ok(true),
            }
        }
        Ok(true)
    }

    /// The place at the front of an item.
    fn place_of(&self, item: usize) -> Option<usize> {
        for (place, put) in self.state.front.iter().enumerate() {
            if self.facts.at(*put).item == item {
                return Some(place);
            }
        }
        None
    }

    /// Of the puts of an item that have begun, those that come into question: each begins later than the one before it
    /// and ends sooner. Any other begins later and ends later than one of these, which is better: fewer puts precede
    /// it, and it is the one that precedes more. Returns the one at place `at`, and whether there is a next one.
    fn candidate(&self, item: usize, at: usize) -> (Option<usize>, bool) {
        let mut found: Option<usize> = None;
        let mut best = u64::MAX;
        let mut passed = 0;
        let mut next = self.state.loose.first_of(item);
        for _ in 0..self.facts.count() {
            let Some(put) = next else {
                return (found, false);
            };
            let fact = self.facts.at(put);
            if !self.state.has_begun(put) || best < fact.first {
                return (found, false);
            }
            if passed == 0 || fact.last < best {
                if passed > at {
                    return (found, true);
                }
                if passed == at {
                    found = Some(put);
                }
                best = fact.last;
                passed = passed.saturating_add(1);
            }
            next = self.state.loose.next_of(put);
        }
        (found, false)
    }

    /// A due get takes an item. One at the front is best: then there is more room. Else it takes a put's, in one of
    /// several ways.
    fn serve(&mut self, get: usize, step: u64, way: usize) -> Result<Outcome, AllocError> {
        let item = self.facts.at(get).item;
        if let Some(place) = self.place_of(item) {
            self.state.take(place)?;
            self.state.go(get, step)?;
            return Ok(Outcome {
                went: true,
                next: None,
            });
        }
        let mut choices = Choices::of(way);
        let (candidate, more) = self.candidate(item, choices.candidate);
        let Some(put) = candidate else {
            return Ok(Outcome {
                went: false,
                next: None,
            });
        };
        let went = self.settle_before(put, get, step, &mut choices)?;
        if went {
            self.state.pick(put)?;
            self.state.go(get, step)?;
        }
        Ok(Outcome {
            went,
            next: next_way(&choices, more),
        })
    }

    /// All items that are there for certain leave the list: the ones at the front, and the ones of puts that have
    /// ended. Returns whether waiting gets took them all.
    fn drain(&mut self, step: u64) -> Result<bool, AllocError> {
        for _ in 0..self.facts.count() {
            if self.state.is_free(&self.facts, step) {
                return Ok(true);
            }
            let at_front = self.state.front.first().copied();
            let Some(put) = at_front.or(self.state.loose.first_to_end()) else {
                return Ok(true);
            };
            let item = self.facts.at(put).item;
            let Some(get) = self.state.get_that_waits(&self.facts, item, usize::MAX) else {
                return Ok(false);
            };
            if at_front.is_some() {
                self.state.take(0)?;
            } else {
                self.state.pick(put)?;
            }
            self.state.go(get, step)?;
        }
        Ok(true)
    }

    /// The list gets empty, if it can, and the Empties go that wait.
    fn empty_out(&mut self, step: u64) -> Result<bool, AllocError> {
        let drained = self.drain(step)?;
        if drained {
            self.state.find_none(&self.facts, step)?;
        }
        Ok(drained)
    }

    /// A put ends. From here on its item is there for certain until it is got, so Empties that wait had better go
    /// before, if they can. They may also go later.
    fn end_put(&mut self, put: usize, step: u64, way: usize) -> Result<Outcome, AllocError> {
        let waits = self.state.empty_that_waits(&self.facts).is_some();
        if way > 0 || !waits || !self.state.loose.has(put) {
            return Ok(Outcome {
                went: true,
                next: None,
            });
        }
        let went = self.empty_out(step)?;
        Ok(Outcome {
            went,
            next: Some(1),
        })
    }

    /// A call is due. What it needs is done in this way.
    fn attempt(&mut self, n: usize, step: u64, way: usize) -> Result<Outcome, AllocError> {
        match self.facts.at(n).effect {
            Effect::Adds(_) => self.end_put(n, step, way),
            Effect::Takes(_) => {
                let outcome = self.serve(n, step, way)?;
                if outcome.went && self.state.is_free(&self.facts, step) {
                    self.state.find_none(&self.facts, step)?;
                }
                Ok(outcome)
            }
            Effect::FindsNone => {
                let went = self.empty_out(step)?;
                Ok(Outcome { went, next: None })
            }
            Effect::Refused | Effect::Wrong => Ok(Outcome {
                went: true,
                next: None,
            }),
        }
    }

    /// Keeps a choice; returns whether the walk has been in this state before.
    fn keep_choice(
        &mut self,
        mark: Mark,
        next: usize,
        state: Option<u64>,
    ) -> Result<bool, AllocError> {
        if let Some(print) = state {
            if self.seen.meet(self.alloc, print)? {
                return Ok(true);
            }
        }
        self.choices.push(Choice { mark, next })?;
        Ok(false)
    }

    /// The due call goes in the first way that works, from this one on.
    fn go_on(&mut self, n: usize, step: u64, from: usize) -> Result<Step, AllocError> {
        let mark = self.state.mark();
        let print = if from == 0 {
            Some(self.state.print())
        } else {
            None
        };
        let mut way = from;
        for _ in 0..u64::MAX {
            let outcome = self.attempt(n, step, way)?;
            let known = match outcome.next {
                Some(next) if outcome.went => self.keep_choice(mark, next, print)?,
                _ => false,
            };
            if outcome.went && !known {
                self.state.at = self.state.at.saturating_add(1);
                return Ok(Step::Went);
            }
            self.state.go_back(mark)?;
            match outcome.next {
                Some(next) if !known => way = next,
                _ => return Ok(Step::GivenUp),
            }
        }
        Ok(Step::GivenUp)
    }

    /// The next finished call is due. One that puts nothing may have gone before.
    fn step(&mut self, from: usize) -> Result<Step, AllocError> {
        let at = self.state.at;
        let Some(n) = self.facts.due.get(at).copied() else {
            return Ok(Step::Finished);
        };
        let step = self.facts.at(n).last;
        self.state.begin(&self.facts, step)?;
        if self.state.is_gone(n) {
            self.state.at = at.saturating_add(1);
            return Ok(Step::Went);
        }
        self.go_on(n, step, from)
    }

    /// All is again as it was at the last choice; returns the next way to go on from there.
    fn go_back(&mut self) -> Result<Option<usize>, AllocError> {
        let Some(choice) = self.choices.pop() else {
            return Ok(None);
        };
        self.state.go_back(choice.mark)?;
        Ok(Some(choice.next))
    }

    /// Walks until all finished calls went, or none can that is due. At most `tries` choices are undone; returns how
    /// many were.
    fn run(&mut self, tries: u64) -> Result<Result<u64, GivenUp>, AllocError>
        ensures { IfOk result (λ ran. MatchResult ran (λ undone. undone ≤ tries) (λ stuck. tries_made stuck ≤ tries)) }
    {
        let mut undone = 0;
        let mut way = 0;
        for _ in 0..u64::MAX {
            match self.step(way)? {
                Step::Finished => return Ok(Ok(undone)),
                Step::Went => way = 0,
                Step::GivenUp => {
                    if self.choices.is_empty() {
                        return Ok(Err(GivenUp::NothingLeft(undone)));
                    }
                    if undone == tries {
                        return Ok(Err(GivenUp::TriesRanOut(undone)));
                    }
                    let Some(next) = self.go_back()? else {
                        return Ok(Err(GivenUp::NothingLeft(undone)));
                    };
                    undone += 1;
                    way = next;
                }
            }
        }
        Ok(Err(GivenUp::TriesRanOut(undone)))
    }
}

/// An order of the finished calls and some unfinished enqueues, and how many choices were undone for it; or why none
/// was found.
fn found_order(
    alloc: Global,
    calls: &[Call],
    k: usize,
    tries: u64,
) -> Result<Result<(Vec<usize>, u64), GivenUp>, AllocError>
    ensures { IfOk result (λ found. MatchResult found (λ f. f.1 ≤ tries) (λ stuck. tries_made stuck ≤ tries)) }
{
    let mut walk = Walk::new(alloc, calls, k)?;
    match walk.run(tries)? {
        Ok(undone) => Ok(Ok((walk.into_order()?, undone))),
        Err(stuck) => Ok(Err(stuck)),
    }
}

/// A legal order of the history, or why none was found.
pub(crate) fn search(
    alloc: Global,
    history: &History,
    k: u32,
    tries: u64,
) -> Result<Result<Vec<usize>, GivenUp>, AllocError>
    requires { (1 ≤ k) × (k ≤ 64) }
    ensures { IfOk result (λ found. MatchResult found
        (λ order. IsLegal k history.now order.items) (λ stuck. tries_made stuck ≤ tries)) }
{
    let (order, undone) = match found_order(alloc, history.calls(), k as usize, tries)? {
        Ok(found) => found,
        Err(stuck) => return Ok(Err(stuck)),
    };
    match check_order(alloc, history, k, &order)? {
        Verdict::Legal => Ok(Ok(order)),
        _ => Ok(Err(GivenUp::NothingLeft(undone))),
    }
}

/// Returns a legal order of the history for a queue that may give any of its k oldest items, or none where it found
/// none: then there may be one all the same. Its search undoes at most `tries` choices; where it undoes none, its time
/// is near linear in the calls times k. An error means that an allocation failed.
pub fn witness(
    alloc: Global,
    history: &History,
    k: u32,
    tries: u64,
) -> Result<Option<Vec<usize>>, AllocError>
    requires { (1 ≤ k) × (k ≤ 64) }
    ensures { IfOk result (λ found. IfSome found (λ order. IsLegal k history.now order.items)) }
{
    match search(alloc, history, k, tries)? {
        Ok(order) => Ok(Some(order)),
        Err(_) => Ok(None),
    }
}
