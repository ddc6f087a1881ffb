//! What a replay has come to.
ghost use Rattle.std.specs.Prelude.{◌≡◌, ℕ, ◌^◌, ◌<◌, ◌↔◌, length, map, All, IfOk, Err};
ghost use Rattle.kfifo_replay.specs.Scripts.{AreScripts};
ghost use Rattle.kfifo_replay.specs.Player.{IsFirstRefused};
ghost use Rattle.kfifo_replay.specs.Reports.{greatest, unfinished_in, IsReport};

use crate::fault::ReplayFault;
use crate::player::Replay;
use kfifo_machine::Begin;
use kfifo_model::Call;
use kfifo_words::Shape;
use std::alloc::Global;

/// What a replay has come to.
#[derive(Drop)]
pub struct Report {
    /// The number of events.
    pub steps: u64,
    /// The linearization order, as numbers of calls by their first events.
    pub order: Vec<usize>,
    /// The greatest rank of a dequeue that got an item in that order: the number of older items that it
    /// passed over. 0 where there is none.
    pub worst_rank: u32,
    /// The number of won undos.
    pub rollbacks: u64,
    /// The number of unfinished enqueues in the order: their items were taken.
    pub completed: u32,
}

/// The greatest of these numbers, 0 where there is none.
pub(crate) fn greatest_of(numbers: &[u32]) -> u32
    ensures { result ≡ greatest numbers.now }
{
    let mut most = 0;
    for number in numbers {
        most = most.max(*number);
    }
    most
}

/// The number of unfinished calls in this order.
pub(crate) fn count_unfinished(calls: &[Call], order: &[usize]) -> u32
    requires few { length order.now < 2 ^ 32 }
    requires calls { All (λ n. n < length calls.now) order.now }
    ensures { result ≡ unfinished_in calls.now order.now }
{
    order.iter().filter(|n| calls[**n].end.is_none()).count() as u32
}

/// The report of these picks of these scripts.
///
/// Refuses, in this order: BadScript as by `Replay::open`; Memory where an allocation failed; BadPick with the place of
/// the first pick that names no script or a thread whose script has ended.
pub fn replay(
    alloc: Global,
    shape: Shape,
    scripts: &[Vec<Begin>],
    picks: &[u32],
) -> Result<Report, ReplayFault>
    ensures report { IfOk result (λ report.
        IsReport shape (map (λ script. script.items) scripts.now) picks.now report) }
    ensures bad_script { (result ≡ Err ReplayFault.BadScript)
        ↔ (AreScripts shape (map (λ script. script.items) scripts.now) → ⊥) }
    ensures bad_pick { (place : ℕ) → result ≡ Err (ReplayFault.BadPick place)
        → IsFirstRefused shape (map (λ script. script.items) scripts.now) picks.now place }
{
    let mut replay = Replay::open(alloc, shape, scripts)?;
    replay.feed(picks)?;
    replay.report(alloc)
}
