//! What is kept of a schedule to name the order of its calls: lists of fixed sizes, made once.
ghost use Rattle.std.specs.Prelude.{◌≡◌, ◌+◌, ◌-◌, ◌*◌, ◌^◌, ◌<◌, None, true, length, replicate, IfOk};
ghost use Rattle.kfifo_machine.specs.Places.{IsEnds};
ghost use Rattle.kfifo_linear.specs.Notes.{Notes, HasRoom, own_call, slot, left_at, leaves, loads_ends, puts, undoes};
ghost use Rattle.kfifo_linear.specs.Notes.{settle_point, settles, took_point, gone_point, takes, marked, ended};
ghost use Rattle.kfifo_linear.specs.Notes.{stepped, called, later, no_notes, begins_call, noted_event, point_at};
ghost use Rattle.kfifo_linear.specs.Notes.{points_below};

use crate::action::Action;
use kfifo_machine::{Begin, Event, Outcome};
use kfifo_words::{Ends, Shape};
use std::alloc::{AllocError, Global};
use std::marker::Model;

/// What is noted of a slot: the call that last put an item there, whether the item is settled, and
/// then the point of its enqueue.
#[derive(Clone, Copy)]
pub struct Filling {
    pub owner: usize,
    pub settled: bool,
    pub point: u64,
}

/// What is noted of a thread: the call that it makes or made last, and the number of the head when
/// its round began.
#[derive(Clone, Copy)]
pub struct Caller {
    pub call: usize,
    pub head_seen: u64,
}

/// Where a call stands in the order.
#[derive(Clone, Copy)]
pub enum Whereabouts {
    /// Nowhere yet.
    Nowhere,
    /// Its item is in this slot, and the slot's notes have its point.
    InSlot(usize),
    /// At this step.
    At(u64),
}

/// The number of the visit at which head or tail is, and the steps at which it left the latest
/// visits, each at the remainder of its visit.
#[derive(Drop)]
struct Visits {
    number: u64,
    left: Vec<u64>,
}

impl Visits {
    /// In visit 0, with room for the latest 2n.
    fn new(alloc: Global, shape: &Shape) -> Result<Visits, AllocError>
        ensures { IfOk result (λ v. (v.number ≡ 0) × (v.left.items ≡ replicate (2 * shape.now.n) 0)) }
    {
        let left = vec![in alloc; 0; 2 * shape.n() as usize]?;
        Ok(Visits { number: 0, left })
    }

    /// The step at which this visit was left, one of the latest.
    fn left_at(&self, visit: u64) -> u64
        requires { 0 < length self.now.left.items }
        ensures { result ≡ left_at self.now.left.items visit }
    {
        self.left[(visit % self.left.len() as u64) as usize]
    }

    /// Leaves the visit at this step.
    fn leave(&mut self, step: u64)
        requires number { self.old.number < 2 ^ 64 - 1 }
        requires room { 0 < length self.old.left.items }
        ensures number { self.new.number ≡ self.old.number + 1 }
        ensures left { self.new.left.items ≡ leaves self.old.number step self.old.left.items }
    {
        let place = self.number % self.left.len() as u64;
        self.left[place as usize] = step;
        self.number += 1;
    }
}

/// What is kept of a schedule: the latest visits of head and tail, what stands in each slot, each thread's call, and
/// where each call stands.
#[derive(Drop)]
pub struct Notes {
    step: u64,
    head: Visits,
    tail: Visits,
    slots: Vec<Filling>,
    callers: Vec<Caller>,
    begun: usize,
    calls: Vec<Whereabouts>,
}

impl Model for Notes {
    ghost Value = { Notes };

    ghost view = { λ n. record {
      step = n.step;
      head = n.head.number;
      tail = n.tail.number;
      heads = n.head.left.items;
      tails = n.tail.left.items;
      slots = n.slots.items;
      callers = n.callers.items;
      begun = n.begun;
      calls = n.calls.items;
    } };

    ghost invariant = { λ n. (0 < length n.head.left.items) × (0 < length n.tail.left.items) };
}

impl Notes {
    /// Makes the notes of no event, with room for the latest 2n visits, and for these threads and calls.
    pub fn new(
        alloc: Global,
        shape: &Shape,
        threads: usize,
        calls: usize,
    ) -> Result<Notes, AllocError>
        ensures { IfOk result (λ n. n ≡ no_notes shape.now threads calls) }
    {
        let empty = Filling {
            owner: 0,
            settled: false,
            point: 0,
        };
        let idle = Caller {
            call: 0,
            head_seen: 0,
        };
        let slots = 1 + shape.n() as usize * shape.k() as usize;
        Ok(Notes {
            step: 0,
            head: Visits::new(alloc, shape)?,
            tail: Visits::new(alloc, shape)?,
            slots: vec![in alloc; empty; slots]?,
            callers: vec![in alloc; idle; threads]?,
            begun: 0,
            calls: vec![in alloc; Whereabouts::Nowhere; calls]?,
        })
    }

    /// How many events they are of.
    pub fn steps(&self) -> u64
        ensures { result ≡ self.now.step }
    {
        self.step
    }

    /// A round of the thread begins.
    fn load_ends(&mut self, thread: usize)
        requires { thread < length self.old.callers }
        ensures { self.new ≡ loads_ends thread self.old }
    {
        self.callers[thread].head_seen = self.head.number;
    }

    /// The thread's item is put into this slot.
    fn put(&mut self, thread: usize, index: usize)
        requires thread { thread < length self.old.callers }
        requires call { own_call self.old thread < length self.old.calls }
        requires index { index < length self.old.slots }
        ensures { self.new ≡ puts thread index self.old }
    {
        let owner = self.callers[thread].call;
        self.slots[index] = Filling {
            owner,
            settled: false,
            ..self.slots[index]
        };
        self.calls[owner] = Whereabouts::InSlot(index);
    }

    /// The thread's item is taken back out of this slot.
    fn undo(&mut self, thread: usize, index: usize)
        requires thread { thread < length self.old.callers }
        requires call { own_call self.old thread < length self.old.calls }
        requires index { index < length self.old.slots }
        ensures { self.new ≡ undoes thread index self.old }
    {
        self.slots[index].settled = false;
        self.calls[self.callers[thread].call] = Whereabouts::Nowhere;
    }

    /// The point of an enqueue whose item is settled in the visit so many after the head's.
    fn settle_point(&self, ahead: u64) -> u64
        ensures { result ≡ settle_point self.now (self.now.head + ahead) }
    {
        if ahead < self.tail.number.saturating_sub(self.head.number) {
            self.tail.left_at(self.head.number + ahead)
        } else {
            self.step
        }
    }

    /// The thread's item in this slot, where it still is there, is settled in the visit so many after
    /// the head's.
    fn settle(&mut self, thread: usize, index: usize, ahead: u64)
        requires thread { thread < length self.old.callers }
        requires call { own_call self.old thread < length self.old.calls }
        requires index { index < length self.old.slots }
        ensures { self.new ≡ settles thread index (self.old.head + ahead) self.old }
    {
        if let Whereabouts::InSlot(_) = self.calls[self.callers[thread].call] {
            let point = self.settle_point(ahead);
            self.slots[index] = Filling {
                settled: true,
                point,
                ..self.slots[index]
            };
        }
    }

    /// The point of the enqueue whose item is taken out of this slot in this visit.
    fn gone_point(&self, index: usize, visit: u64) -> u64
        requires index { index < length self.now.slots }
        ensures { result ≡ gone_point self.now index visit }
    {
        let left = self.tail.left_at(visit);
        let slot = self.slots[index];
        if slot.settled {
            slot.point.min(left)
        } else {
            left
        }
    }

    /// The point of the dequeue that takes an item in this visit.
    fn took_point(&self, visit: u64) -> u64
        ensures { result ≡ took_point self.now visit }
    {
        if visit < self.head.number {
            self.head.left_at(visit)
        } else {
            self.step
        }
    }

    /// The thread takes the item of this slot.
    fn take(&mut self, thread: usize, index: usize)
        requires thread { thread < length self.old.callers }
        requires call { own_call self.old thread < length self.old.calls }
        requires index { index < length self.old.slots }
        requires owner { (slot self.old index).owner < length self.old.calls }
        ensures { self.new ≡ takes thread index self.old }
    {
        let Caller { call, head_seen } = self.callers[thread];
        let gone = self.gone_point(index, head_seen);
        let took = self.took_point(head_seen);
        self.slots[index].settled = false;
        self.calls[self.slots[index].owner] = Whereabouts::At(gone);
        self.calls[call] = Whereabouts::At(took);
    }

    /// The thread, which found these ends, did this.
    fn mark(&mut self, shape: &Shape, thread: usize, ends: Ends, action: Action)
        requires numbers { (self.old.head < 2 ^ 64 - 1) × (self.old.tail < 2 ^ 64 - 1) }
        requires ends { IsEnds shape.now ends }
        requires thread { thread < length self.old.callers }
        requires call { own_call self.old thread < length self.old.calls }
        requires room { HasRoom shape.now self.old action }
        ensures { self.new ≡ marked shape.now thread ends action self.old }
    {
        match action {
            Action::Unnoted | Action::Recheck => {}
            Action::LoadEnds => self.load_ends(thread),
            Action::Put(index) => self.put(thread, index),
            Action::Undo(index) => self.undo(thread, index),
            Action::ReloadEnds { index, segment } => {
                let ahead = shape.dist(ends.head(), segment);
                self.settle(thread, index, ahead as u64);
            }
            Action::HoldHead(index) => self.settle(thread, index, 0),
            Action::Take(index) => self.take(thread, index),
            Action::MoveHead => self.head.leave(self.step),
            Action::MoveTail => self.tail.leave(self.step),
            Action::RecheckEmpty => self.calls[self.callers[thread].call] = Whereabouts::At(
                self.step,
            ),
        }
    }

    /// The thread's call ends, if the step ended it.
    fn end(&mut self, thread: usize, outcome: Outcome)
        requires thread { thread < length self.old.callers }
        requires call { own_call self.old thread < length self.old.calls }
        ensures { self.new ≡ ended thread outcome self.old }
    {
        let call = self.callers[thread].call;
        if let (Outcome::Ended(_), Whereabouts::Nowhere) = (outcome, self.calls[call]) {
            self.calls[call] = Whereabouts::At(self.step);
        }
    }

    /// A tick, or the end of a step.
    fn tick(&mut self)
        requires { self.old.step < 2 ^ 64 - 1 }
        ensures { self.new ≡ later self.old }
    {
        self.step += 1;
    }

    /// The thread begins a call.
    fn call(&mut self, thread: usize)
        requires thread { thread < length self.old.callers }
        requires room { self.old.begun < length self.old.calls }
        ensures { self.new ≡ called thread self.old }
    {
        self.callers[thread].call = self.begun;
        self.begun += 1;
    }

    /// The thread, which found these ends, did this, and its step came to this.
    fn step(&mut self, shape: &Shape, thread: usize, ends: Ends, action: Action, outcome: Outcome)
        requires step { self.old.step < 2 ^ 64 - 1 }
        requires numbers { (self.old.head < 2 ^ 64 - 1) × (self.old.tail < 2 ^ 64 - 1) }
        requires ends { IsEnds shape.now ends }
        requires thread { thread < length self.old.callers }
        requires call { own_call self.old thread < length self.old.calls }
        requires room { HasRoom shape.now self.old action }
        ensures { self.new ≡ stepped shape.now thread ends action outcome self.old }
    {
        self.mark(shape, thread, ends, action);
        self.end(thread, outcome);
        self.tick();
    }

    /// After an event, which found these ends, and came to this: it begins a call, or is a tick, or
    /// its thread does this action.
    pub fn note(
        &mut self,
        shape: &Shape,
        event: Event,
        ends: Ends,
        action: Action,
        outcome: Outcome,
    )
        requires step { self.old.step < 2 ^ 64 - 1 }
        requires numbers { (self.old.head < 2 ^ 64 - 1) × (self.old.tail < 2 ^ 64 - 1) }
        requires ends { IsEnds shape.now ends }
        requires thread { event.thread < length self.old.callers }
        requires call { event.begin ≡ None → own_call self.old event.thread < length self.old.calls }
        requires room { event.begin ≡ None → HasRoom shape.now self.old action }
        requires more { begins_call event.begin ≡ true → self.old.begun < length self.old.calls }
        ensures { self.new ≡ noted_event shape.now event.thread event.begin ends action outcome self.old }
    {
        let thread = event.thread as usize;
        match event.begin {
            None => self.step(shape, thread, ends, action, outcome),
            Some(Begin::Tick | Begin::Seal) => self.tick(),
            Some(Begin::Enqueue { .. } | Begin::Dequeue { .. }) => {
                self.call(thread);
                self.step(shape, thread, ends, Action::LoadEnds, outcome);
            }
        }
    }

    /// The point of a call that stands in the order.
    fn point(&self, call: usize) -> Option<u64>
        requires { call < length self.now.calls }
        ensures { result ≡ point_at self.now call }
    {
        match self.calls[call] {
            Whereabouts::Nowhere => None,
            Whereabouts::InSlot(index) => {
                let slot = self.slots.get(index)?;
                if slot.settled { Some(slot.point) } else { None }
            }
            Whereabouts::At(point) => Some(point),
        }
    }

    /// The calls that stand in the order, in ascending order of number, each after its point.
    pub fn points(&self, alloc: Global) -> Result<Vec<(u64, usize)>, AllocError>
        ensures { IfOk result (λ v. v.items ≡ points_below self.now (length self.now.calls)) }
    {
        let mut points = Vec::with_capacity(alloc, self.begun)?;
        for call in 0..self.calls.len() {
            if let Some(point) = self.point(call) {
                points.push((point, call))?;
            }
        }
        Ok(points)
    }
}
