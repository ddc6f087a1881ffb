//! The same calls with owned payloads.
ghost use Rattle.std.specs.Prelude.{◌≡◌, ◌≤◌, ◌*◌};
ghost use Rattle.kfifo_live.specs.Pass.{IsPassOf, IsSamePass};

use crate::{Starts, TURNS};
use kfifo_live::{Given, PayPass, PayQueue, Taken};

/// A payload of 16 bytes.
#[derive(Clone, Copy, Drop)]
pub(crate) struct Parcel {
    pub(crate) number: u64,
    pub(crate) weight: u64,
}

/// How many tokens the pass has: one for each payload in the queue, and as many to give with.
pub(crate) const TOKENS: u32 = 1_024;

/// How many payloads a filled queue has.
const FILLED: u32 = 512;

/// Gives so many payloads, one after the other.
// Inlined, as the loops are, so that all stands in the function that has the queue itself.
#[inline(always)]
pub(crate) fn fill(queue: &PayQueue<Parcel>, pass: &mut PayPass<Parcel>, starts: &mut Starts)
    requires of { IsPassOf queue.now pass.old.pass }
    requires k { starts.old.k ≡ queue.now.opened.shape.k }
    ensures same { IsSamePass pass.old.pass pass.new.pass }
    ensures k { starts.new.k ≡ starts.old.k }
{
    for number in 0..FILLED {
        let parcel = Parcel {
            number: u64::from(number),
            weight: 1,
        };
        pass.give(queue, parcel, starts.next(), TURNS);
    }
}

/// Gives and takes a payload in turn, and counts the calls that did so.
#[inline(always)]
pub(crate) fn give_and_take(
    queue: &PayQueue<Parcel>,
    pass: &mut PayPass<Parcel>,
    starts: &mut Starts,
    calls: u32,
) -> u64
    requires of { IsPassOf queue.now pass.old.pass }
    requires k { starts.old.k ≡ queue.now.opened.shape.k }
    ensures wanted { result ≤ 2 * calls }
    ensures same { IsSamePass pass.old.pass pass.new.pass }
{
    let mut wanted: u64 = 0;
    let mut parcel = Parcel {
        number: 0,
        weight: 1,
    };
    for call in 0..calls {
        if let Given::Done = pass.give(queue, parcel, starts.next(), TURNS) {
            wanted += 1;
        }
        if let Taken::Got(taken) = pass.take(queue, starts.next(), TURNS) {
            parcel = taken;
            wanted += 1;
        }
    }
    wanted
}
