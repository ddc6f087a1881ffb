//! One atomic step: which one a thread makes next.

ghost use Rattle.std.specs.Prelude.{◌≡◌, ℕ, ◌+◌, ◌^◌, ◌<◌};
ghost use Rattle.kfifo_words.specs.Words.{version_of};
ghost use Rattle.kfifo_machine.specs.Program.{scan_index, access, enqueue_access, dequeue_access};
ghost use Rattle.kfifo_machine.specs.Places.{IsEnds, IsPlace, IsEnqueuePhase, IsDequeuePhase};

use crate::{Access, DequeuePhase, EnqueuePhase, Running};
use kfifo_words::{ENDS_INDEX, Ends, Shape, Word};

/// The index of the slot at which a scan of a segment stands.
#[tactic(auto, unfolding(crate::specs::Program::scan_index))]
pub(crate) fn scan(shape: &Shape, segment: u32, start: u32, offset: u32) -> usize
    requires segment { segment < shape.now.n }
    requires start { start < shape.now.k }
    requires offset { offset < shape.now.k }
    ensures { result ≡ scan_index shape.now segment start offset }
{
    shape.slot_index(segment, (start + offset) % shape.k())
}

fn head_moved(shape: &Shape, ends: Ends) -> Access
    requires ends { IsEnds shape.now ends }
    requires version { version_of ends < shape.now.last }
    ensures { result ≡ Access.Exchange 0 ends (Rattle.kfifo_machine.specs.Program.head_moved shape.now ends) }
{
    Access::Exchange {
        index: ENDS_INDEX,
        from: ends.into(),
        to: Ends::pack(shape.next(ends.head()), ends.tail(), ends.version() + 1).into(),
    }
}

fn tail_moved(shape: &Shape, ends: Ends) -> Access
    requires ends { IsEnds shape.now ends }
    requires version { version_of ends < shape.now.last }
    ensures { result ≡ Access.Exchange 0 ends (Rattle.kfifo_machine.specs.Program.tail_moved shape.now ends) }
{
    Access::Exchange {
        index: ENDS_INDEX,
        from: ends.into(),
        to: Ends::pack(ends.head(), shape.next(ends.tail()), ends.version() + 1).into(),
    }
}

/// The step that an enqueue makes next.
fn enqueue_step(shape: &Shape, item: u32, start: u32, phase: EnqueuePhase) -> Access
    requires item { item < 2 ^ 24 }
    requires start { start < shape.now.k }
    requires phase { IsEnqueuePhase shape.now phase }
    ensures { result ≡ enqueue_access shape.now item start phase }
{
    match phase {
        EnqueuePhase::LoadEnds => Access::Load { index: ENDS_INDEX },
        EnqueuePhase::ScanTail { ends, offset } => Access::Load {
            index: scan(shape, ends.tail(), start, offset),
        },
        EnqueuePhase::Recheck { .. } => Access::Load { index: ENDS_INDEX },
        EnqueuePhase::Put { index, empty, .. } => Access::Exchange {
            index,
            from: empty,
            to: Word::pack(item, empty.version() + 1),
        },
        EnqueuePhase::ReloadSlot { index, .. } => Access::Load { index },
        EnqueuePhase::ReloadEnds { .. } => Access::Load { index: ENDS_INDEX },
        EnqueuePhase::HoldHead { held, .. } => Access::Exchange {
            index: ENDS_INDEX,
            from: held.into(),
            to: Ends::pack(held.head(), held.tail(), held.version() + 1).into(),
        },
        EnqueuePhase::Undo { index, filled, .. } => Access::Exchange {
            index,
            from: filled,
            to: Word::pack(0, filled.version() + 1),
        },
        EnqueuePhase::ScanHead { ends, offset } => Access::Load {
            index: scan(shape, ends.head(), 0, offset),
        },
        EnqueuePhase::ConfirmFull { .. } => Access::Load { index: ENDS_INDEX },
        EnqueuePhase::MoveHead { ends } => head_moved(shape, ends),
        EnqueuePhase::MoveTail { ends } => tail_moved(shape, ends),
    }
}

/// The step that a dequeue makes next.
fn dequeue_step(shape: &Shape, start: u32, phase: DequeuePhase) -> Access
    requires start { start < shape.now.k }
    requires phase { IsDequeuePhase shape.now phase }
    ensures { result ≡ dequeue_access shape.now start phase }
{
    match phase {
        DequeuePhase::LoadEnds => Access::Load { index: ENDS_INDEX },
        DequeuePhase::ScanHead { ends, offset } => Access::Load {
            index: scan(shape, ends.head(), start, offset),
        },
        DequeuePhase::Recheck { .. } => Access::Load { index: ENDS_INDEX },
        DequeuePhase::MoveTail { ends, .. } => tail_moved(shape, ends),
        DequeuePhase::Take { index, filled, .. } => Access::Exchange {
            index,
            from: filled,
            to: Word::pack(0, filled.version() + 1),
        },
        DequeuePhase::MoveHead { ends } => head_moved(shape, ends),
    }
}

impl Running {
    /// The atomic step that a thread at this place makes next.
    pub fn access(&self, shape: &Shape) -> Access
        requires place { IsPlace shape.now self.now }
        ensures { result ≡ access shape.now self.now }
    {
        match *self {
            Running::Enqueue {
                item,
                start,
                phase,
                ..
            } => enqueue_step(shape, item, start, phase),
            Running::Dequeue { start, phase, .. } => dequeue_step(shape, start, phase),
        }
    }
}
