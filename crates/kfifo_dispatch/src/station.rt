//! What a worker makes its calls by.
ghost use Rattle.std.specs.Prelude.{◌≡◌, ◌<◌, ◌≤◌, ℕ};
ghost use Rattle.kfifo_live.specs.Pass.{IsPassOf, IsSamePass, PassView};
ghost use Rattle.kfifo_live.specs.declared.payload.Given.{Given};
ghost use Rattle.kfifo_live.specs.declared.payload.Taken.{Taken};
ghost use Rattle.kfifo_dispatch.specs.Working.{PassGives, PassPasses, PassTakes};

use kfifo_live::{Gate, Given, PayPass, PayQueue, Taken};

/// What a worker makes its calls by: the pass of a payload queue.
///
/// Clauses see each call as a step from one state to another, and know nothing else of the states. So what a worker is
/// proved to have done by such steps it has done by calls.
pub(crate) trait Station<T: Drop, G> {
    // What is known of its pass.
    ghost known: { Self → PassView };

    // A call with this number was announced at the gate.
    ghost passes: { G → Self → ℕ → Self → Type 0 };

    // A call to take, with this start and so many rounds, was made and returned this.
    ghost takes: { Self → ℕ → ℕ → Taken T → Self → Type 0 };

    // A call to give this payload, with this start and so many rounds, was made and returned this.
    ghost gives: { Self → T → ℕ → ℕ → Given T → Self → Type 0 };

    /// The number of its worker.
    fn worker(&self) -> u32
        ensures { result ≡ (known self.now).thread };

    /// Passes the gate before the take of this number, from 1.
    fn pass_gate(&mut self, gate: &G, call: u32)
        ensures same { IsSamePass (known self.old) (known self.new) }
        ensures passes { passes gate.now self.old call self.new };

    /// As `PayPass::take`.
    fn take(&mut self, queue: &PayQueue<T>, start: u32, turns: u16) -> Taken<T>
        requires of { IsPassOf queue.now (known self.old) }
        requires start { start < queue.now.opened.shape.k }
        requires turns { 1 ≤ turns }
        ensures same { IsSamePass (known self.old) (known self.new) }
        ensures takes { takes self.old start turns result self.new };

    /// As `PayPass::give`.
    fn give(&mut self, queue: &PayQueue<T>, payload: T, start: u32, turns: u16) -> Given<T>
        requires of { IsPassOf queue.now (known self.old) }
        requires start { start < queue.now.opened.shape.k }
        requires turns { 1 ≤ turns }
        ensures same { IsSamePass (known self.old) (known self.new) }
        ensures gives { gives self.old payload start turns result self.new };
}

impl<T: Drop, G: Gate> Station<T, G> for PayPass<T> {
    ghost known = { λ s. s.pass };

    ghost passes = { λ gate s call t. PassPasses (G.passed gate) s call t };

    ghost takes = { λ s start turns answer t. PassTakes s start turns answer t };

    ghost gives = { λ s payload start turns answer t. PassGives s payload start turns answer t };

    fn worker(&self) -> u32 {
        self.thread()
    }

    fn pass_gate(&mut self, gate: &G, call: u32) {
        gate.pass(self.thread(), call);
    }

    #[inline(always)]
    fn take(&mut self, queue: &PayQueue<T>, start: u32, turns: u16) -> Taken<T>
        requires of { IsPassOf queue.now self.old.pass }
        requires start { start < queue.now.opened.shape.k }
        requires turns { 1 ≤ turns }
        ensures same { IsSamePass self.old.pass self.new.pass }
        ensures takes { PassTakes self.old start turns result self.new }
    {
        PayPass::take(self, queue, start, turns)
    }

    #[inline(always)]
    fn give(&mut self, queue: &PayQueue<T>, payload: T, start: u32, turns: u16) -> Given<T>
        requires of { IsPassOf queue.now self.old.pass }
        requires start { start < queue.now.opened.shape.k }
        requires turns { 1 ≤ turns }
        ensures same { IsSamePass self.old.pass self.new.pass }
        ensures gives { PassGives self.old payload start turns result self.new }
    {
        PayPass::give(self, queue, payload, start, turns)
    }
}
