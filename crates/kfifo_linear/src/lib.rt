//! The linearization order of every schedule of the machine: it is legal, and in it no item is
//! overtaken k times.
#![tactic(auto)]

mod action;
mod linearization;
mod linearizer;
mod notes;

ghost use Rattle.std.specs.Prelude.{ℕ, ◌≡◌, ◌<◌, ◌≤◌, List, true};
ghost use Rattle.kfifo_model.specs.declared.calls.TheConstants.{MAX_THREADS};
ghost use Rattle.kfifo_words.specs.declared.shape.Shape.{Shape};
ghost use Rattle.kfifo_model.specs.declared.calls.Call.{Call};
ghost use Rattle.kfifo_model.specs.Lists.{IsIn};
ghost use Rattle.kfifo_model.specs.declared.effects.Effect.TheVariants.{Adds};
ghost use Rattle.kfifo_model.specs.Histories.{does, IsFinished, IsLegal};
ghost use Rattle.kfifo_model.specs.Overtaking.{numbers_of, overtaken_in, certainly_overtaken, AddsAreDistinct};
ghost use Rattle.kfifo_linear.specs.Points.{Marks, PointsFit, StandsFit, by_point};
ghost use Rattle.kfifo_linear.specs.Rows.{IsTwoByTwo, RowsHold};
ghost use Rattle.kfifo_linear.specs.Headline.{HasLegalOrder, FewOvertake, FewCertainlyOvertake, PointsHold, LawsHold};
ghost use Rattle.kfifo_linear.specs.Headline.{PutsInVisit, NumbersAgree, OneOrder, TakesInTime};
ghost use Rattle.kfifo_linear.specs.Seals.{StaysEmpty};

pub use linearization::{LinearFault, linearization_points, linearize};
pub use linearizer::Linearizer;

/// Where the facts about points hold, the calls in ascending order of point and number are a legal order.
pub fn points_give_an_order()
    ensures { (k steps : ℕ) (h : List Call) (m : Marks) → PointsFit k (does h) m → StandsFit h m
        → ((c : ℕ) → m.stands c ≡ true → m.point c < steps) → IsLegal k h (by_point m.stands m.point steps h) }
{}

/// In that order each item is overtaken fewer than k times, where the items enqueued in it are distinct.
pub fn few_overtake_in_the_order()
    ensures { (k steps : ℕ) (h : List Call) (m : Marks) → PointsFit k (does h) m → StandsFit h m
        → ((c : ℕ) → m.stands c ≡ true → m.point c < steps)
        → AddsAreDistinct (does h) (by_point m.stands m.point steps h)
        → (c x : ℕ) → IsIn c (by_point m.stands m.point steps h) → does h c ≡ Adds x
        → overtaken_in h (by_point m.stands m.point steps h) c < k }
{}

/// Fewer than k overtakings of an item are certain by the history, where its items are distinct.
pub fn few_certainly_overtake()
    ensures { (k : ℕ) (h : List Call) (m : Marks) → PointsFit k (does h) m → StandsFit h m
        → AddsAreDistinct (does h) (numbers_of h)
        → (c x : ℕ) → IsFinished h c → does h c ≡ Adds x → certainly_overtaken h c < k }
{}

/// Laws of every schedule of every shape, with up to 64 threads.
///
/// The calls of a schedule in ascending order of the points of its ledger, and at one point of number, are a legal
/// order of its history: an order of all its finished calls and some unfinished enqueues that keeps every
/// return-before-call pair, and that is a run of the k-relaxed queue.
///
/// In that order each item is overtaken at most k - 1 times, where the items enqueued in it are distinct; and by the
/// history alone at most k - 1 overtakings of the item of an enqueue that returned Done are certain, where its items
/// are distinct.
pub fn every_schedule_has_a_legal_order()
    ensures points { (shape : Shape) (threads : ℕ) → threads ≤ MAX_THREADS → PointsHold shape threads }
    ensures legal { (shape : Shape) (threads : ℕ) → threads ≤ MAX_THREADS → HasLegalOrder shape threads }
    ensures overtaken { (shape : Shape) (threads : ℕ) → threads ≤ MAX_THREADS → FewOvertake shape threads }
    ensures certainly { (shape : Shape) (threads : ℕ) → threads ≤ MAX_THREADS → FewCertainlyOvertake shape threads }
    ensures laws { (shape : Shape) (threads : ℕ) → threads ≤ MAX_THREADS → LawsHold shape threads }
    ensures puts { (shape : Shape) (threads : ℕ) → threads ≤ MAX_THREADS → PutsInVisit shape threads }
    ensures numbers { (shape : Shape) (threads : ℕ) → NumbersAgree shape threads }
    ensures one { (shape : Shape) (threads : ℕ) → threads ≤ MAX_THREADS → OneOrder shape threads }
    ensures in_time { (shape : Shape) (threads : ℕ) → TakesInTime shape threads }
{}

/// A queue that was found empty and then sealed stays empty, whatever calls were in progress or begin later: what is in
/// a slot was put there by an enqueue in progress, so where all calls have ended, no slot holds an item. Found empty
/// means that a dequeue returned Empty; and the ends word did not change from the last load of that dequeue to the
/// seal.
pub fn a_queue_sealed_empty_stays_empty()
    ensures stays { (shape : Shape) (threads : ℕ) → threads ≤ MAX_THREADS → StaysEmpty shape threads }
{}

/// The orders of three worked schedules of two segments of two slots: an item put behind the head
/// and undone, an item put late that comes out first, and an item taken after the head has left its
/// visit, this one cut at three places.
pub fn worked_schedules_have_their_orders()
    ensures { (shape : Shape) → IsTwoByTwo shape → RowsHold shape }
{}
