//! The same calls by a handle, whose starts go a stride further at each call.
ghost use Rattle.std.specs.Prelude.{◌≤◌, ◌*◌};
ghost use Rattle.kfifo_live.specs.Pass.{IsPassOf, IsSamePass};

use crate::payloads::Parcel;
use kfifo_live::{Given, Handle, PayHandle, PayQueue, Queue, Taken};
use kfifo_model::Answer;

/// Puts and takes an item in turn, and counts the calls that did so.
#[inline(always)]
pub(crate) fn put_and_take(queue: &Queue, handle: &mut Handle, calls: u32) -> u64
    requires of { IsPassOf queue.now handle.old.pass }
    ensures wanted { result ≤ 2 * calls }
    ensures same { IsSamePass handle.old.pass handle.new.pass }
{
    let mut wanted: u64 = 0;
    for item in 0..calls {
        if let Answer::Done = handle.enqueue(queue, (item & 65_535) + 1) {
            wanted += 1;
        }
        if let Answer::Got(_) = handle.dequeue(queue) {
            wanted += 1;
        }
    }
    wanted
}

/// Takes from an empty queue, and counts the calls that found it empty.
#[inline(always)]
pub(crate) fn take_none(queue: &Queue, handle: &mut Handle, calls: u32) -> u64
    requires of { IsPassOf queue.now handle.old.pass }
    ensures wanted { result ≤ calls }
    ensures same { IsSamePass handle.old.pass handle.new.pass }
{
    let mut wanted: u64 = 0;
    for call in 0..calls {
        if let Answer::Empty = handle.dequeue(queue) {
            wanted += 1;
        }
    }
    wanted
}

/// Gives and takes a payload in turn, and counts the calls that did so.
#[inline(always)]
pub(crate) fn give_and_take(
    queue: &PayQueue<Parcel>,
    handle: &mut PayHandle<Parcel>,
    calls: u32,
) -> u64
    requires of { IsPassOf queue.now handle.old.pass.pass }
    ensures wanted { result ≤ 2 * calls }
    ensures same { IsSamePass handle.old.pass.pass handle.new.pass.pass }
{
    let mut wanted: u64 = 0;
    let mut parcel = Parcel {
        number: 0,
        weight: 1,
    };
    for call in 0..calls {
        if let Given::Done = handle.give(queue, parcel) {
            wanted += 1;
        }
        if let Taken::Got(taken) = handle.take(queue) {
            parcel = taken;
            wanted += 1;
        }
    }
    wanted
}
