//! The passes that have left a generation.
ghost use Rattle.std.specs.Prelude.{◌≡◌, IfSome, MatchOption, false, true};
ghost use mathlib.Core.List.{IsPrefix};
ghost use Rattle.kfifo_renewing.specs.Departed.{HaveDeparted};
ghost use Rattle.kfifo_renewing.specs.History.{IsGone};
ghost use Rattle.kfifo_renewing.specs.Joining.{IsPartIn, MayLeave, held_in};
ghost use Rattle.kfifo_renewing.specs.Renewing.{HasLeft};

use crate::generation::Core;
use crate::history::History;
use crate::joined::Joined;
use crate::leaving::Leaving;
use counted_slot::Fits;
use kfifo_exclusive::Exclusive;
use kfifo_live::TokenGroup;

/// The passes that have left a generation, how many these are, and what was seen of the history as the last of them
/// left.
#[derive(Drop)]
pub(crate) struct Departed<T: Drop> {
    pub(crate) passes: Exclusive<TokenGroup<T>>,
    pub(crate) count: u64,
    pub(crate) history: History,
}

impl<T: Drop> Fits for Departed<T> {
    type Tag = Core<T>;

    ghost fits = { λ core departed. HaveDeparted core departed.history.book departed.history.log departed.count
        departed.passes.inner };
}

impl<T: Drop> Core<T> {
    /// Tries to have the pass of this part leave the generation as the first. It has seen that sealed empty, and that
    /// has gone.
    pub(crate) fn begin(
        &self,
        part: Leaving<Joined<T>>,
        history: &mut History,
    ) -> (Option<Departed<T>>, Option<Leaving<Joined<T>>>)
        requires part { IsPartIn self.now part }
        requires may { MayLeave history.old.book history.old.log true part }
        requires gone { IsGone history.old.log part.number }
        ensures departed { IfSome result.0 (λ d. HaveDeparted self.now d.history.book d.history.log d.count
            d.passes.inner) }
        ensures later { (history.new.book ≡ history.old.book) × IsPrefix history.old.log history.new.log }
        ensures left { MatchOption result.1 (HasLeft history.new.log (held_in part)) (λ back. back ≡ part) }
    {
        let seen = history.again();
        history.learn(&seen);
        part.pass().has_ended();
        if !self.next.depart(0, &part, history) {
            return (None, Some(part));
        }
        let departed = Departed {
            passes: Exclusive::new(part.end().into_group()),
            count: 1,
            history: history.again(),
        };
        (Some(departed), None)
    }

    /// Tries to have the pass of this part leave the generation and join these.
    pub(crate) fn join(
        &self,
        departed: Departed<T>,
        mut part: Leaving<Joined<T>>,
        history: &mut History,
    ) -> (Departed<T>, Option<Leaving<Joined<T>>>)
        requires departed { HaveDeparted self.now departed.history.book departed.history.log departed.count
            departed.passes.inner }
        requires part { IsPartIn self.now part }
        requires may { MayLeave history.old.book history.old.log false part }
        ensures departed { HaveDeparted self.now result.0.history.book result.0.history.log result.0.count
            result.0.passes.inner }
        ensures later { (history.new.book ≡ history.old.book) × IsPrefix history.old.log history.new.log }
        ensures left { MatchOption result.1 (HasLeft history.new.log (held_in part)) (λ back. back ≡ part) }
    {
        let Departed {
            passes,
            count,
            history: seen,
        } = departed;
        history.learn(&seen);
        let mut group = passes.into_inner();
        // The entry says that one schedule has what all of them did, so the group sees first what the pass has seen.
        part.meet(&self.queue, &mut group);
        if !self.next.depart(count, &part, history) {
            let departed = Departed {
                passes: Exclusive::new(group),
                count,
                history: seen,
            };
            return (departed, Some(part));
        }
        self.queue.join(&mut group, part.end());
        let departed = Departed {
            passes: Exclusive::new(group),
            count: count + 1,
            history: history.again(),
        };
        (departed, None)
    }
}
