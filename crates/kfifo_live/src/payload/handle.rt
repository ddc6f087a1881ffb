//! Calls of a queue of owned payloads with nothing to choose.
ghost use Rattle.std.specs.Prelude.{◌≡◌};
ghost use Rattle.kfifo_live.specs.Calls.{IsDisturbed};
ghost use Rattle.kfifo_live.specs.Pass.{IsPassOf, IsSamePass, IsSealedEmpty, PassKeepsPromise};
ghost use Rattle.kfifo_live.specs.Payloads.{Gives, TakesOut};
ghost use Rattle.kfifo_live.specs.Seals.{TakesOrSeals};
ghost use Rattle.kfifo_live.specs.Handles.{PayHandleView, cycle_at, first_of, further, pass_of};
ghost use Rattle.kfifo_live.specs.declared.handle.TheConstants.{MAX_TURNS};

use crate::handle::MAX_TURNS;
use crate::payload::sealing::TakenOrSealed;
use crate::payload::{Given, PayPass, PayQueue, Taken};
use crate::round_robin::RoundRobin;
use std::marker::Model;

/// A pass of a payload queue that chooses the starts and the rounds of its calls, as `Handle` does.
///
/// ```rust
/// if let Given::Done = handle.give(queue, parcel) {
///     wanted += 1;
/// }
/// if let Taken::Got(taken) = handle.take(queue) {
///     parcel = taken;
/// }
/// ```
///
/// Clauses see it as its pass, and the slots at which its next `give` and its next `take` begin.
#[derive(Drop)]
pub struct PayHandle<T: Drop> {
    pass: PayPass<T>,
    gives: RoundRobin,
    takes: RoundRobin,
}

impl<T: Drop> Model for PayHandle<T> {
    ghost Value = { PayHandleView T };

    ghost view = { λ h. record { pass = h.pass; give_start = h.gives.start; take_start = h.takes.start } };

    ghost invariant = { λ h. (h.gives ≡ cycle_at h.pass.pass h.gives.start)
        × (h.takes ≡ cycle_at h.pass.pass h.takes.start) };
}

/// The starts of the calls of a pass, as `Handle` has them.
fn starts_of<T: Drop>(queue: &PayQueue<T>, pass: &PayPass<T>) -> RoundRobin
    requires { IsPassOf queue.now pass.now.pass }
    ensures { result ≡ cycle_at pass.now.pass (first_of pass.now.pass) }
{
    RoundRobin::spread(pass.thread, queue.threads, queue.shape.k)
}

impl<T: Drop> PayHandle<T> {
    /// The handle of a pass. Its first `give` and its first `take` begin at slot `thread * k / threads`, rounded down.
    pub fn new(queue: &PayQueue<T>, pass: PayPass<T>) -> PayHandle<T>
        requires { IsPassOf queue.now pass.pass }
        ensures { result ≡ record { pass = pass; give_start = first_of pass.pass; take_start = first_of pass.pass } }
    {
        let gives = starts_of(queue, &pass);
        let takes = starts_of(queue, &pass);
        PayHandle { pass, gives, takes }
    }

    /// The pass.
    pub fn pass(&self) -> &PayPass<T>
        ensures { result.now ≡ self.now.pass }
    {
        &self.pass
    }

    /// Gives the pass back, for `meet` and `close`.
    pub fn into_pass(self) -> PayPass<T>
        ensures { result ≡ self.pass }
    {
        self.pass
    }

    /// Puts a payload into the queue, with a token of the pass, as `PayPass::give` does.
    ///
    /// Returns Done, or NoToken, Full, Worn or Busy with the payload. NoToken comes exactly where the pass has no
    /// token. Busy comes only where another thread won an exchange during the call. It never allocates, waits or locks.
    #[inline(always)]
    pub fn give(&mut self, queue: &PayQueue<T>, payload: T) -> Given<T>
        requires of { IsPassOf queue.now (pass_of self.old) }
        ensures same { IsSamePass (pass_of self.old) (pass_of self.new) }
        ensures gives { Gives self.old.give_start MAX_TURNS payload result self.old.pass self.new.pass }
        ensures busy { (back : T) → result ≡ Given.Busy back → IsDisturbed (pass_of self.old) (pass_of self.new) }
        ensures starts { (self.new.give_start ≡ further (pass_of self.old) self.old.give_start)
            × (self.new.take_start ≡ self.old.take_start) }
        ensures promise { PassKeepsPromise (pass_of self.new) }
    {
        let start = self.gives.next();
        self.pass.give(queue, payload, start, MAX_TURNS)
    }

    /// Takes one of the k oldest payloads out of the queue, and its token, as `PayPass::take` does.
    ///
    /// Returns Got with the payload, Empty, Worn or Busy. Busy comes only where another thread won an exchange during
    /// the call. It never allocates, waits or locks.
    #[inline(always)]
    pub fn take(&mut self, queue: &PayQueue<T>) -> Taken<T>
        requires of { IsPassOf queue.now (pass_of self.old) }
        ensures same { IsSamePass (pass_of self.old) (pass_of self.new) }
        ensures takes { TakesOut self.old.take_start MAX_TURNS result self.old.pass self.new.pass }
        ensures busy { result ≡ Taken.Busy → IsDisturbed (pass_of self.old) (pass_of self.new) }
        ensures starts { (self.new.take_start ≡ further (pass_of self.old) self.old.take_start)
            × (self.new.give_start ≡ self.old.give_start) }
        ensures promise { PassKeepsPromise (pass_of self.new) }
    {
        let start = self.takes.next();
        self.pass.take(queue, start, MAX_TURNS)
    }

    /// Takes one of the k oldest payloads, as `take` does, or seals the queue where it is empty, as
    /// `PayPass::take_or_seal` does.
    ///
    /// ```rust
    /// let taken = handle.take_or_seal(queue);
    /// ```
    ///
    /// Returns Got with the payload, Empty, Sealed, Worn or Busy. Busy comes only where another thread won an exchange
    /// during the call. It never allocates, waits or locks.
    pub fn take_or_seal(&mut self, queue: &PayQueue<T>) -> TakenOrSealed<T>
        requires of { IsPassOf queue.now (pass_of self.old) }
        ensures same { IsSamePass (pass_of self.old) (pass_of self.new) }
        ensures takes { TakesOrSeals self.old.take_start MAX_TURNS result self.old.pass self.new.pass }
        ensures sealed { result ≡ TakenOrSealed.Sealed → IsSealedEmpty (pass_of self.new) }
        ensures busy { result ≡ TakenOrSealed.Busy → IsDisturbed (pass_of self.old) (pass_of self.new) }
        ensures starts { (self.new.take_start ≡ further (pass_of self.old) self.old.take_start)
            × (self.new.give_start ≡ self.old.give_start) }
        ensures promise { PassKeepsPromise (pass_of self.new) }
    {
        let start = self.takes.next();
        self.pass.take_or_seal(queue, start, MAX_TURNS)
    }
}
