//! Closing a queue.
ghost use Rattle.std.specs.Prelude.{◌≡◌, ◌<◌, ◌≤◌, ◌+◌, ◌*◌, ◌↔◌, ◌==◌, [], IfOk, length, slice_index, IsErrOf, IsTrue};
ghost use Rattle.std.specs.Prelude.{All};
ghost use Rattle.std.specs.List.{list_any};
ghost use Rattle.core.specs.Mem.Slots.{slots_items, slots_len, IsFull};
ghost use Rattle.kfifo_words.specs.Words.{head_of};
ghost use Rattle.kfifo_live.specs.Left.{items_left};
ghost use Rattle.kfifo_live.specs.Pass.{queue_of, IsPassOf, IsJoined, Closes, IsComplete};
ghost use Rattle.kfifo_live.specs.declared.fault.CloseFault.TheVariants.{MissingPass};

use crate::fault::CloseFault;
use crate::queue::{Pass, Queue};
use crate::rule::QueueRule;
use crate::seats::join_seats;
use crate::view::{Opening, ThreadSeat, View, Words};
use atomic_table::{Closed, Table};
use kfifo_words::{Ends, Shape, Word};
use std::alloc::{AllocError, Global};
use std::marker::Brand;

/// Whether one of the passes is of this thread.
fn has_pass(passes: &[Pass], thread: u32) -> bool
    ensures { result ≡ list_any (λ p. p.thread == thread) passes.now }
{
    passes.iter().any(|pass| pass.thread() == thread)
}

/// Whether each pass of the opening is there once.
fn is_complete(passes: &[Pass], threads: u32) -> bool
    ensures { IsTrue result ↔ IsComplete threads passes.now }
{
    if passes.len() != threads as usize {
        return false;
    }
    for thread in 0..threads {
        if !has_pass(passes, thread) {
            return false;
        }
    }
    true
}

/// The words of a table that is closed.
pub(crate) fn read_words<T>(
    alloc: Global,
    closed: &Closed<Option<T>, Global>,
    count: usize,
) -> Result<Vec<u64>, AllocError>
    requires { (slots_len closed.now.words ≡ count) × IsFull closed.now.words
        × (length (slots_items closed.now.words) ≡ count) }
    ensures { IfOk result (λ v. v.items ≡ slots_items closed.now.words) }
{
    let mut words = Vec::with_capacity(alloc, count)?;
    for index in 0..count {
        words.push_reserved(closed.word(index));
    }
    Ok(words)
}

/// The items in the slots of these words, segment by segment from the head's, within a segment by
/// slot number.
pub(crate) fn read_items(
    alloc: Global,
    shape: &Shape,
    words: &[u64],
) -> Result<Vec<u32>, AllocError>
    requires size { length words.now ≡ 2 + shape.now.n * shape.now.k }
    requires head { head_of (slice_index words.now 0) < shape.now.n }
    ensures { IfOk result (λ v. v.items ≡ items_left shape.now words.now) }
{
    let mut items = Vec::new(alloc);
    let mut segment = Ends::of_bits(words[0]).head();
    'segments: for count in 0..shape.n() {
        let first = shape.slot_index(segment, 0);
        'slots: for slot in 0..shape.k() {
            let item = Word::of_bits(words[first + slot as usize]).value();
            if item != 0 {
                items.push(item)?;
            }
        }
        segment = shape.next(segment);
    }
    Ok(items)
}

/// A seat with the parts of all passes.
fn join_all(shared: &Words<()>, mut seat: ThreadSeat<()>, mut passes: Vec<Pass>) -> ThreadSeat<()>
    requires table { (seat.table_id ≡ shared.now.table_id) × (0 < shared.now.table_id.words) }
    requires of { All (IsPassOf (queue_of seat.table_id seat.me.0.opened)) passes.items }
    ensures table { result.table_id ≡ seat.table_id }
    ensures all { IsJoined seat.me.0 passes.items result.me.0 }
{
    while let Some(pass) = passes.pop() {
        let Pass {
            thread: _,
            seat: other,
        } = pass;
        join_seats::<_, Brand>(shared, &mut seat, other);
    }
    seat
}

/// Gives the memory of a closed table back. Its slots hold nothing that has to be dropped.
fn free_slots(mut closed: Closed<Option<()>, Global>)
    requires { IsFull closed.slots }
{
    for index in 0..closed.slot_count() {
        closed.take(index);
    }
    closed.free();
}

/// Closes a table by all passes of its queue, and returns the items that are left in its words, as `close` does.
pub(crate) fn close_table(
    alloc: Global,
    table: Table<Option<()>, View<()>, Opening, QueueRule, Global>,
    shape: Shape,
    threads: u32,
    mut passes: Vec<Pass>,
) -> Result<Vec<u32>, CloseFault>
    requires key { (shape ≡ table.shared.key.shape) × (threads ≡ table.shared.key.threads) × (0 < threads) }
    requires words { table.shared.table_id.words ≡ 2 + shape.n * shape.k }
    requires of { All (IsPassOf (queue_of table.shared.table_id table.shared.key)) passes.items }
    ensures ok { IfOk result (λ items. Closes (queue_of table.shared.table_id table.shared.key) passes.items
        items.items) }
    ensures missing { IsErrOf result MissingPass ↔ ¬ IsComplete threads passes.items }
{
    if !is_complete(passes.as_slice(), threads) {
        return Err(CloseFault::MissingPass);
    }
    let Some(last) = passes.pop() else {
        unreachable!()
    };
    let Pass { thread: _, seat } = last;
    let seat = join_all(&table.shared, seat, passes);
    let closed = table.close_with(seat);
    let words = read_words(alloc, &closed, 2 + shape.n() as usize * shape.k() as usize);
    free_slots(closed);
    let items = read_items(alloc, &shape, words?.as_slice())?;
    Ok(items)
}

/// Closes a queue and returns the items that are left, if each pass of the opening is given back: segment by segment
/// from the head's round the ring, within a segment by slot number. Each item is among them as often as it was put,
/// less how often it was undone and taken. None is left where a pass saw the queue sealed empty. The one schedule of
/// all calls of the queue keeps its promise: a legal order of them, in which no item is overtaken k times where items
/// are distinct.
///
/// ```rust
/// let left = close(alloc, queue, vec![in alloc; pass]?)?; // the items that are left
/// ```
///
/// Refuses: MissingPass where not each pass of the opening is there once, which is tested first; Memory where an
/// allocation failed. The items are then lost to the caller.
pub fn close(alloc: Global, queue: Queue, passes: Vec<Pass>) -> Result<Vec<u32>, CloseFault>
    requires { All (IsPassOf queue) passes.items }
    ensures ok { IfOk result (λ items. Closes queue passes.items items.items) }
    ensures missing { IsErrOf result MissingPass ↔ ¬ IsComplete queue.opened.threads passes.items }
{
    let Queue {
        table,
        shape,
        threads,
        calls: _,
    } = queue;
    close_table(alloc, table, shape, threads, passes)
}
