//! Calls of a queue of tokens with nothing to choose.
ghost use Rattle.std.specs.Prelude.{◌≡◌, ◌+◌, true, false};
ghost use Rattle.kfifo_live.specs.Calls.{IsDisturbed};
ghost use Rattle.kfifo_live.specs.Groups.{Meets};
ghost use Rattle.kfifo_live.specs.Handles.{cycle_at, first_of, further};
ghost use Rattle.kfifo_live.specs.declared.handle.TheConstants.{MAX_TURNS};
ghost use Rattle.kfifo_live.specs.Pass.{IsPassOf, IsSamePass, IsSealedEmpty, PassKeepsPromise};
ghost use Rattle.kfifo_live.specs.Payloads.{TokenView};
ghost use Rattle.kfifo_live.specs.Tokens.{GivesWith, Puts, ReceivesOrSeals, ReceivesWith, TakesToken};
ghost use Rattle.kfifo_live.specs.Tokens.{TakesTokenOrSeals, TokenHandleView};

use crate::handle::MAX_TURNS;
use crate::payload::Taken;
use crate::payload::sealing::TakenOrSealed;
use crate::payload::token::{Published, Received, Token};
use crate::round_robin::RoundRobin;
use crate::tokens::group::TokenGroup;
use crate::tokens::sealing::ReceivedOrSealed;
use crate::tokens::{Put, TokenPass, TokenQueue};
use std::marker::Model;

/// A pass of a queue of tokens that chooses the starts and the rounds of its calls, as `Handle` does.
///
/// ```rust
/// let mut handle = TokenHandle::new(&queue, pass);
/// let put = handle.put(&queue, token); // Done
/// let taken = handle.take(&queue); // Got, with the token of number 16
/// ```
///
/// Clauses see it as its pass, and the slots at which its next `put` and its next `take` begin.
#[derive(Drop)]
pub struct TokenHandle<T: Drop> {
    pass: TokenPass<T>,
    puts: RoundRobin,
    takes: RoundRobin,
}

impl<T: Drop> Model for TokenHandle<T> {
    ghost Value = { TokenHandleView T };

    ghost view = { λ h. record { pass = h.pass; put_start = h.puts.start; take_start = h.takes.start } };

    ghost invariant = { λ h. (h.puts ≡ cycle_at h.pass.pass h.puts.start)
        × (h.takes ≡ cycle_at h.pass.pass h.takes.start) };
}

/// The starts of the calls of a pass, as `Handle` has them.
fn starts_of<T: Drop>(queue: &TokenQueue<T>, pass: &TokenPass<T>) -> RoundRobin
    requires { IsPassOf queue.now pass.now.pass }
    ensures { result ≡ cycle_at pass.now.pass (first_of pass.now.pass) }
{
    RoundRobin::spread(pass.thread, queue.threads, queue.shape.k)
}

impl<T: Drop> TokenHandle<T> {
    /// The handle of a pass. Its first `put` and its first `take` begin at slot `thread * k / threads`, rounded down.
    pub fn new(queue: &TokenQueue<T>, pass: TokenPass<T>) -> TokenHandle<T>
        requires { IsPassOf queue.now pass.pass }
        ensures { result ≡ record { pass = pass; put_start = first_of pass.pass; take_start = first_of pass.pass } }
    {
        let puts = starts_of(queue, &pass);
        let takes = starts_of(queue, &pass);
        TokenHandle { pass, puts, takes }
    }

    /// The pass.
    pub fn pass(&self) -> &TokenPass<T>
        ensures { result.now ≡ self.now.pass }
    {
        &self.pass
    }

    /// Has a group see what the pass has seen, as `TokenQueue::meet` does. The handle stays as it is.
    pub fn meet(&mut self, queue: &TokenQueue<T>, group: &mut TokenGroup<T>)
        requires of { IsPassOf queue.now self.old.pass.pass }
        requires group { IsPassOf queue.now group.old.first.pass }
        ensures same { self.new ≡ self.old }
        ensures meets { Meets self.old.pass group.old group.new }
    {
        queue.meet(group, &mut self.pass);
    }

    /// Gives the pass back, for `TokenQueue::close`.
    pub fn into_pass(self) -> TokenPass<T>
        ensures { result ≡ self.pass }
    {
        self.pass
    }

    /// Puts a token into a bare queue, as `TokenPass::put` does.
    ///
    /// Returns Done; or Full, Worn or Busy with the token. Busy comes only where another thread won an exchange during
    /// the call. It never allocates, waits or locks.
    #[inline(always)]
    pub fn put(&mut self, queue: &TokenQueue<T>, token: Token<T>) -> Put<T>
        requires of { IsPassOf queue.now self.old.pass.pass }
        requires bare { queue.now.opened.bare ≡ true }
        requires token { token.queue ≡ queue.now }
        ensures same { IsSamePass self.old.pass.pass self.new.pass.pass }
        ensures puts { Puts token self.old.put_start MAX_TURNS result self.old.pass self.new.pass }
        ensures busy { (back : TokenView) → result ≡ Put.Busy back → IsDisturbed self.old.pass.pass self.new.pass.pass }
        ensures starts { (self.new.put_start ≡ further self.old.pass.pass self.old.put_start)
            × (self.new.take_start ≡ self.old.take_start) }
        ensures promise { PassKeepsPromise self.new.pass.pass }
    {
        let start = self.puts.next();
        self.pass.put(queue, token, start, MAX_TURNS)
    }

    /// Takes one of the k oldest tokens out of a bare queue, as `TokenPass::take` does.
    ///
    /// Returns Got with the token, Empty, Worn or Busy. Busy comes only where another thread won an exchange during the
    /// call. It never allocates, waits or locks.
    #[inline(always)]
    pub fn take(&mut self, queue: &TokenQueue<T>) -> Taken<Token<T>>
        requires of { IsPassOf queue.now self.old.pass.pass }
        requires bare { queue.now.opened.bare ≡ true }
        ensures same { IsSamePass self.old.pass.pass self.new.pass.pass }
        ensures takes { TakesToken self.old.take_start MAX_TURNS result self.old.pass self.new.pass }
        ensures busy { result ≡ Taken.Busy → IsDisturbed self.old.pass.pass self.new.pass.pass }
        ensures starts { (self.new.take_start ≡ further self.old.pass.pass self.old.take_start)
            × (self.new.put_start ≡ self.old.put_start) }
        ensures promise { PassKeepsPromise self.new.pass.pass }
    {
        let start = self.takes.next();
        self.pass.take(queue, start, MAX_TURNS)
    }

    /// Puts a token and a payload into a queue with payloads, as `TokenPass::give` does. It begins where a `put` would.
    ///
    /// Returns Done; or Full, Worn or Busy with the payload and the token. Busy comes only where another thread won an
    /// exchange during the call. It never allocates, waits or locks.
    #[inline(always)]
    pub fn give(&mut self, queue: &TokenQueue<T>, token: Token<T>, payload: T) -> Published<T>
        requires of { IsPassOf queue.now self.old.pass.pass }
        requires payloads { queue.now.opened.bare ≡ false }
        requires token { token.queue ≡ queue.now }
        ensures same { IsSamePass self.old.pass.pass self.new.pass.pass }
        ensures gives { GivesWith token payload self.old.put_start MAX_TURNS result self.old.pass
            self.new.pass }
        ensures busy { (unsent : T) (back : TokenView) → result ≡ Published.Busy unsent back
            → IsDisturbed self.old.pass.pass self.new.pass.pass }
        ensures starts { (self.new.put_start ≡ further self.old.pass.pass self.old.put_start)
            × (self.new.take_start ≡ self.old.take_start) }
        ensures promise { PassKeepsPromise self.new.pass.pass }
    {
        let start = self.puts.next();
        self.pass.give(queue, token, payload, start, MAX_TURNS)
    }

    /// Takes one of the k oldest payloads and its token out of a queue with payloads, as `TokenPass::receive` does. It
    /// begins where a `take` would.
    ///
    /// Returns Got with both, Empty, Worn or Busy. Busy comes only where another thread won an exchange during the
    /// call. It never allocates, waits or locks.
    #[inline(always)]
    pub fn receive(&mut self, queue: &TokenQueue<T>) -> Received<T>
        requires of { IsPassOf queue.now self.old.pass.pass }
        requires payloads { queue.now.opened.bare ≡ false }
        ensures same { IsSamePass self.old.pass.pass self.new.pass.pass }
        ensures receives { ReceivesWith self.old.take_start MAX_TURNS result self.old.pass self.new.pass }
        ensures busy { result ≡ Received.Busy → IsDisturbed self.old.pass.pass self.new.pass.pass }
        ensures starts { (self.new.take_start ≡ further self.old.pass.pass self.old.take_start)
            × (self.new.put_start ≡ self.old.put_start) }
        ensures promise { PassKeepsPromise self.new.pass.pass }
    {
        let start = self.takes.next();
        self.pass.receive(queue, start, MAX_TURNS)
    }

    /// Takes one of the k oldest tokens out of a bare queue, or seals it where it is empty, as
    /// `TokenPass::take_or_seal` does. It begins where a `take` would.
    ///
    /// Returns Got with the token, Empty, Sealed, Worn or Busy. Busy comes only where another thread won an exchange
    /// during the call. It never allocates, waits or locks.
    pub fn take_or_seal(&mut self, queue: &TokenQueue<T>) -> TakenOrSealed<Token<T>>
        requires of { IsPassOf queue.now self.old.pass.pass }
        requires bare { queue.now.opened.bare ≡ true }
        ensures same { IsSamePass self.old.pass.pass self.new.pass.pass }
        ensures takes { TakesTokenOrSeals self.old.take_start MAX_TURNS result self.old.pass self.new.pass }
        ensures sealed { result ≡ TakenOrSealed.Sealed → IsSealedEmpty self.new.pass.pass }
        ensures busy { result ≡ TakenOrSealed.Busy → IsDisturbed self.old.pass.pass self.new.pass.pass }
        ensures starts { (self.new.take_start ≡ further self.old.pass.pass self.old.take_start)
            × (self.new.put_start ≡ self.old.put_start) }
        ensures promise { PassKeepsPromise self.new.pass.pass }
    {
        let start = self.takes.next();
        self.pass.take_or_seal(queue, start, MAX_TURNS)
    }

    /// Takes one of the k oldest payloads and its token out of a queue with payloads, or seals it where it is empty, as
    /// `TokenPass::receive_or_seal` does. It begins where a `take` would.
    ///
    /// Returns Got with both, Empty, Sealed, Worn or Busy. Busy comes only where another thread won an exchange during
    /// the call. It never allocates, waits or locks.
    pub fn receive_or_seal(&mut self, queue: &TokenQueue<T>) -> ReceivedOrSealed<T>
        requires of { IsPassOf queue.now self.old.pass.pass }
        requires payloads { queue.now.opened.bare ≡ false }
        ensures same { IsSamePass self.old.pass.pass self.new.pass.pass }
        ensures receives { ReceivesOrSeals self.old.take_start MAX_TURNS result self.old.pass self.new.pass }
        ensures sealed { result ≡ ReceivedOrSealed.Sealed → IsSealedEmpty self.new.pass.pass }
        ensures busy { result ≡ ReceivedOrSealed.Busy → IsDisturbed self.old.pass.pass self.new.pass.pass }
        ensures starts { (self.new.take_start ≡ further self.old.pass.pass self.old.take_start)
            × (self.new.put_start ≡ self.old.put_start) }
        ensures promise { PassKeepsPromise self.new.pass.pass }
    {
        let start = self.takes.next();
        self.pass.receive_or_seal(queue, start, MAX_TURNS)
    }
}
