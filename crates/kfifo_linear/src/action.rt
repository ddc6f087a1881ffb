//! What the steps of a schedule did.
ghost use Rattle.std.specs.Prelude.{◌≡◌, ◌<◌};
ghost use Rattle.kfifo_machine.specs.Places.{IsPlace, IsFoundBy, IsEnqueuePhase, IsFound, IsEnds};
ghost use Rattle.kfifo_linear.specs.Ledger.{action, action_if, enqueue_action, dequeue_action};

use kfifo_machine::{DequeuePhase, EnqueuePhase, Found, Running};
use kfifo_words::{Ends, Shape, Word};

/// What a step did, where it matters to the order: the step's name, and what it came to. Slots are named
/// by the index of their words.
#[derive(Clone, Copy)]
pub enum Action {
    /// Any other step: a load that tells the order nothing, or an exchange that was lost.
    Unnoted,
    /// The first load of the ends in a round.
    LoadEnds,
    /// An enqueue's second load of the ends in a round.
    Recheck,
    /// A won put of an item into this slot.
    Put(usize),
    /// A won undo of the put that its own call made into this slot.
    Undo(usize),
    /// An enqueue's third load of the ends, which found the segment of its item between head and tail: the
    /// item is settled, and the enqueue is done.
    ReloadEnds { index: usize, segment: u32 },
    /// A won exchange of the ends for the same with a greater version, which holds the head at the segment
    /// of its item in this slot: the item is settled, and the enqueue is done.
    HoldHead(usize),
    /// A won take of the item in this slot.
    Take(usize),
    /// A won move of the head.
    MoveHead,
    /// A won move of the tail.
    MoveTail,
    /// A dequeue's second load of the ends, which found the queue empty.
    RecheckEmpty,
}

impl Action {
    /// This action where its exchange was won or its test held.
    fn won(self, won: bool) -> Action
        ensures { result ≡ action_if won self }
    {
        if won { self } else { Action::Unnoted }
    }

    /// What a step from this place did that found this word.
    pub fn of(shape: &Shape, running: Running, word: Word) -> Action
        requires place { IsPlace shape.now running }
        requires word { IsFoundBy shape.now running word }
        ensures { result ≡ action shape.now running word }
    {
        match running {
            Running::Enqueue { phase, .. } => of_enqueue(shape, phase, word),
            Running::Dequeue { phase, .. } => of_dequeue(phase, word),
        }
    }
}

/// What a step of an enqueue did.
fn of_enqueue(shape: &Shape, phase: EnqueuePhase, word: Word) -> Action
    requires phase { IsEnqueuePhase shape.now phase }
    requires word { IsFound shape.now phase word }
    ensures { result ≡ enqueue_action shape.now phase word }
{
    match phase {
        EnqueuePhase::LoadEnds => Action::LoadEnds,
        EnqueuePhase::Recheck { .. } => Action::Recheck,
        EnqueuePhase::Put { index, empty, .. } => Action::Put(index).won(word == empty),
        EnqueuePhase::ReloadEnds { ends, index, .. } => settles(
            shape,
            ends.tail(),
            index,
            word.into(),
        ),
        EnqueuePhase::HoldHead { index, held, .. } => Action::HoldHead(index).won(
            Ends::from(word) == held,
        ),
        EnqueuePhase::Undo { index, filled, .. } => Action::Undo(index).won(word == filled),
        EnqueuePhase::MoveHead { ends } => Action::MoveHead.won(Ends::from(word) == ends),
        EnqueuePhase::MoveTail { ends } => Action::MoveTail.won(Ends::from(word) == ends),
        EnqueuePhase::ScanTail { .. }
        | EnqueuePhase::ReloadSlot { .. }
        | EnqueuePhase::ScanHead { .. }
        | EnqueuePhase::ConfirmFull { .. } => Action::Unnoted,
    }
}

/// What an enqueue's reload of the ends did, its item being in a slot of this segment.
fn settles(shape: &Shape, segment: u32, index: usize, now: Ends) -> Action
    requires segment { segment < shape.now.n }
    requires now { IsEnds shape.now now }
    ensures { result ≡ Rattle.kfifo_linear.specs.Ledger.settles shape.now segment index now }
{
    let head = now.head();
    let inside = segment != head && shape.dist(head, segment) <= shape.dist(head, now.tail());
    Action::ReloadEnds { index, segment }.won(inside)
}

/// What a step of a dequeue did.
fn of_dequeue(phase: DequeuePhase, word: Word) -> Action
    ensures { result ≡ dequeue_action phase word }
{
    match phase {
        DequeuePhase::LoadEnds => Action::LoadEnds,
        DequeuePhase::Recheck { ends, found } => match found {
            Found::Slot { .. } => Action::Unnoted,
            Found::Nothing => {
                Action::RecheckEmpty.won(Ends::from(word) == ends && ends.tail() == ends.head())
            }
        },
        DequeuePhase::MoveTail { ends, .. } => Action::MoveTail.won(Ends::from(word) == ends),
        DequeuePhase::Take { index, filled, .. } => Action::Take(index).won(word == filled),
        DequeuePhase::MoveHead { ends } => Action::MoveHead.won(Ends::from(word) == ends),
        DequeuePhase::ScanHead { .. } => Action::Unnoted,
    }
}
