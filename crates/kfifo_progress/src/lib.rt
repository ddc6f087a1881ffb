//! Progress: whatever the schedule, some call answers after a bounded number of steps.
#![tactic(auto)]

ghost use Rattle.std.specs.Prelude.{ℕ, ◌≡◌, ◌<◌, ◌≤◌, ◌^◌, ◌*◌, true};
ghost use Rattle.kfifo_words.specs.declared.shape.Shape.{Shape};
ghost use Rattle.kfifo_progress.specs.Progress.{BusyMeansProgress, SomeCallAnswers, SomeCallEnds, turns_for_progress};

/// Lock-freedom, of every schedule of a shape that holds again and has more segments than there are threads.
///
/// A stretch of a schedule is any part of it, wherever it begins, in which the threads make their steps in any order
/// and may stop anywhere. A stretch in which no call ends has at most `most_steps` steps of calls, whatever the turns
/// of the calls. Each seal in it begins it anew, so with seals it has as many steps again for each.
///
/// A call that runs out of turns ends with Busy, so with few turns calls may end with nothing but Busy for ever. Where
/// each call that begins in a stretch has at least `turns_for_progress` turns, and no call ends in it with another
/// answer than Busy, it has at most `steps_to_answer` steps of calls. So such a call ends with Busy only if another one
/// answered meanwhile, or the ends were sealed.
///
/// A call can have so many turns with up to 29 threads, and with up to 64 if there are more than twice as many
/// segments.
pub fn every_schedule_makes_progress()
    ensures ends { (shape : Shape) (threads : ℕ) → shape.holds_again ≡ true → threads < shape.n
        → SomeCallEnds shape threads }
    ensures answers { (shape : Shape) (threads : ℕ) → shape.holds_again ≡ true → threads < shape.n
        → SomeCallAnswers shape threads }
    ensures busy { (shape : Shape) (threads : ℕ) → shape.holds_again ≡ true → threads < shape.n
        → BusyMeansProgress shape threads }
    ensures few_threads { (shape : Shape) (threads : ℕ) → threads ≤ 29 → turns_for_progress shape threads < 2 ^ 16 }
    ensures turns { (shape : Shape) (threads : ℕ) → threads ≤ 64 → 2 * threads < shape.n
        → turns_for_progress shape threads < 2 ^ 16 }
{}
