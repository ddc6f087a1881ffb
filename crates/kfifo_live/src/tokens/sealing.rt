//! Taking a token, or sealing the queue where none is left.
ghost use Rattle.std.specs.Prelude.{◌≡◌, ◌<◌, ◌≤◌, true, false};
ghost use Rattle.kfifo_words.specs.declared.ends.TheConstants.{ENDS_INDEX};
ghost use Rattle.kfifo_live.specs.Pass.{Finds, IsPassOf, IsSamePass, IsSealedEmpty, PassKeepsPromise};
ghost use Rattle.kfifo_live.specs.Seals.{FailsToSeal, KeepsTokens, SealsFrom, WasSeen};
ghost use Rattle.kfifo_live.specs.Tokens.{ReceivesOrSeals, TakesTokenOrSeals};

use crate::payload::Taken;
use crate::payload::sealing::TakenOrSealed;
use crate::payload::token::{Received, Token};
use crate::sealing::seal_ends;
use crate::seats::observe;
use crate::tokens::{TokenPass, TokenQueue};
use kfifo_words::{ENDS_INDEX, Ends};

/// What `receive_or_seal` returns.
#[derive(Drop)]
pub enum ReceivedOrSealed<T> {
    /// One of the k oldest payloads, and the token that it was given with.
    Got(T, Token<T>),
    /// The queue was empty, but is not sealed: head or tail moved meanwhile, or an enqueue held the head.
    Empty,
    /// The queue was empty, and stays so: no token comes out of it any more.
    Sealed,
    /// Each round was lost.
    Busy,
    /// A version would pass the greatest one.
    Worn,
}

impl<T: Drop> TokenPass<T> {
    /// The ends, as one load finds them. It is no event.
    fn look_at_ends(&mut self, queue: &TokenQueue<T>) -> Ends
        requires of { IsPassOf queue.now self.old.pass }
        ensures same { IsSamePass self.old.pass self.new.pass }
        ensures finds { Finds self.old.pass self.new.pass ENDS_INDEX result }
        ensures keeps { KeepsTokens self.old self.new }
    {
        Ends::of_bits(observe(&queue.table.shared, &mut self.seat, ENDS_INDEX))
    }

    /// Seals the ends where they still stand as they were when the pass loaded them. Returns whether they are sealed.
    fn seal_from(&mut self, queue: &TokenQueue<T>, ends: Ends) -> bool
        requires of { IsPassOf queue.now self.old.pass }
        requires seen { WasSeen self.old.pass.opened ends self.old.pass.seen }
        ensures same { IsSamePass self.old.pass self.new.pass }
        ensures sealed { result ≡ true
            → SealsFrom self.old.pass.opened self.old.pass.thread ends self.old.pass.seen self.new.pass.seen }
        ensures open { result ≡ false
            → FailsToSeal self.old.pass.opened self.old.pass.thread ends self.old.pass.seen self.new.pass.seen }
        ensures keeps { KeepsTokens self.old self.new }
        ensures promise { PassKeepsPromise self.new.pass }
    {
        seal_ends(&queue.table.shared, &mut self.seat, &queue.shape, ends)
    }

    /// Takes one of the k oldest tokens out of a bare queue, as `take` does, and seals the queue where it is empty, as
    /// `PayPass::take_or_seal` does.
    pub fn take_or_seal(
        &mut self,
        queue: &TokenQueue<T>,
        start: u32,
        turns: u16,
    ) -> TakenOrSealed<Token<T>>
        requires of { IsPassOf queue.now self.old.pass }
        requires bare { queue.now.opened.bare ≡ true }
        requires start { start < queue.now.opened.shape.k }
        requires turns { 1 ≤ turns }
        ensures same { IsSamePass self.old.pass self.new.pass }
        ensures takes { TakesTokenOrSeals start turns result self.old self.new }
        ensures sealed { result ≡ TakenOrSealed.Sealed → IsSealedEmpty self.new.pass }
        ensures promise { PassKeepsPromise self.new.pass }
    {
        let ends = self.look_at_ends(queue);
        match self.take(queue, start, turns) {
            Taken::Got(token) => TakenOrSealed::Got(token),
            Taken::Empty => {
                if self.seal_from(queue, ends) {
                    TakenOrSealed::Sealed
                } else {
                    TakenOrSealed::Empty
                }
            }
            Taken::Busy => TakenOrSealed::Busy,
            Taken::Worn => TakenOrSealed::Worn,
        }
    }

    /// Takes one of the k oldest payloads and its token out of a queue with payloads, as `receive` does, and seals the
    /// queue where it is empty, as `PayPass::take_or_seal` does.
    pub fn receive_or_seal(
        &mut self,
        queue: &TokenQueue<T>,
        start: u32,
        turns: u16,
    ) -> ReceivedOrSealed<T>
        requires of { IsPassOf queue.now self.old.pass }
        requires payloads { queue.now.opened.bare ≡ false }
        requires start { start < queue.now.opened.shape.k }
        requires turns { 1 ≤ turns }
        ensures same { IsSamePass self.old.pass self.new.pass }
        ensures receives { ReceivesOrSeals start turns result self.old self.new }
        ensures sealed { result ≡ ReceivedOrSealed.Sealed → IsSealedEmpty self.new.pass }
        ensures promise { PassKeepsPromise self.new.pass }
    {
        let ends = self.look_at_ends(queue);
        match self.receive(queue, start, turns) {
            Received::Got(payload, token) => ReceivedOrSealed::Got(payload, token),
            Received::Empty => {
                if self.seal_from(queue, ends) {
                    ReceivedOrSealed::Sealed
                } else {
                    ReceivedOrSealed::Empty
                }
            }
            Received::Busy => ReceivedOrSealed::Busy,
            Received::Worn => ReceivedOrSealed::Worn,
        }
    }
}
