//! Closing a queue.
ghost use Rattle.std.specs.Prelude.{◌≡◌, ◌⊎◌, ◌↔◌, ◌≤◌, ◌++◌, ◌==◌, None, Some, MatchOption, IfOk, IsErr, IsTrue, All};
ghost use Rattle.std.specs.Prelude.{length, drop};
ghost use Rattle.std.specs.List.{list_any};
ghost use Rattle.kfifo_live.specs.Pass.{OpenQueue};
ghost use Rattle.kfifo_c.specs.Handles.{IsClosed, WereClosed, all_fields, behind, items_behind};
ghost use Rattle.kfifo_c.specs.Exports.{AreOfOneQueue, AreTheirs, BeginsWith, HasEach, MayClose, ClosesInto};
ghost use Rattle.kfifo_c.specs.Exports.{numbers_in, passes_in};

use crate::handle::Handle;
use crate::seat::Seat;
use crate::status::{BAD_CALL, DONE, LOST, NO_MEMORY};
use kfifo_live::{Pass, Queue, close};
use std::alloc::{AllocError, Global};
use std::sync::Arc;

/// A part in the queue of the first handle, and the number of its passes; none where it is closed, or not there.
fn first_queue(handles: &mut [Handle]) -> Result<Option<(Arc<Queue, Global>, u32)>, AllocError>
    ensures same { behind handles.new ≡ behind handles.old }
    ensures fields { all_fields handles.new ≡ all_fields handles.old }
    ensures first { IfOk result (λ found.
        MatchOption found (¬ ((queue : OpenQueue) × BeginsWith queue (items_behind handles.old)))
        (λ found. BeginsWith found.0.value (items_behind handles.old) × (found.1 ≡ found.0.value.opened.threads))) }
{
    let Some(first) = handles.first_mut() else {
        return Ok(None);
    };
    if first.starts == 0 {
        return Ok(None);
    }
    let seat = first.held.seat_mut::<Seat>();
    let threads = seat.threads();
    let queue = seat.share()?;
    Ok(Some((queue, threads)))
}

/// The numbers of the passes behind the open ones of these handles.
fn numbers(alloc: Global, handles: &mut [Handle]) -> Result<Vec<u32>, AllocError>
    ensures same { behind handles.new ≡ behind handles.old }
    ensures fields { all_fields handles.new ≡ all_fields handles.old }
    ensures numbers { IfOk result (λ numbers. numbers.items ≡ numbers_in (items_behind handles.old)) }
{
    let mut numbers = Vec::with_capacity(alloc, handles.len())?;
    for handle in handles.iter_mut() {
        if handle.starts != 0 {
            numbers.push(handle.held.seat_mut::<Seat>().thread())?;
        }
    }
    Ok(numbers)
}

/// Whether this number is among these.
fn has(numbers: &[u32], thread: u32) -> bool
    ensures { result ≡ list_any (λ number. number == thread) numbers.now }
{
    numbers.iter().any(|number| *number == thread)
}

/// Whether these are as many numbers as a queue has passes, and each of them is there.
fn has_each(numbers: &[u32], threads: u32) -> bool
    ensures { IsTrue result ↔ HasEach threads numbers.now }
{
    if numbers.len() != threads as usize {
        return false;
    }
    for thread in 0..threads {
        if !has(numbers, thread) {
            return false;
        }
    }
    true
}

/// A part in the queue, if these handles may close it into so much room.
fn ready(
    alloc: Global,
    handles: &mut [Handle],
    room: usize,
) -> Result<Option<Arc<Queue, Global>>, AllocError>
    requires { AreOfOneQueue (items_behind handles.old) }
    ensures same { behind handles.new ≡ behind handles.old }
    ensures fields { all_fields handles.new ≡ all_fields handles.old }
    ensures may { IfOk result (λ found.
        MatchOption found (¬ ((queue : OpenQueue) × MayClose queue (items_behind handles.old) room))
        (λ queue. MayClose queue.value (items_behind handles.old) room)) }
{
    let Some((queue, threads)) = first_queue(handles)? else {
        return Ok(None);
    };
    let shape = queue.shape();
    if room < shape.n() as usize * shape.k() as usize {
        return Ok(None);
    }
    let numbers = numbers(alloc, handles)?;
    if numbers.len() != handles.len() {
        return Ok(None);
    }
    if !has_each(numbers.as_slice(), threads) {
        return Ok(None);
    }
    Ok(Some(queue))
}

/// The passes behind the open ones of these handles, which are then closed.
fn take_all(alloc: Global, handles: &mut [Handle]) -> Result<Vec<Pass>, AllocError>
    ensures refused { IsErr result → handles.new ≡ handles.old }
    ensures closed { IfOk result (λ _. WereClosed 1 handles.old handles.new) }
    ensures taken { IfOk result (λ passes. passes.items ≡ passes_in (items_behind handles.old)) }
    ensures of { IfOk result (λ _. AreTheirs (items_behind handles.old)) }
{
    let mut passes = Vec::with_capacity(alloc, handles.len())?;
    for handle in handles.iter_mut() {
        if let Some(seat) = handle.take::<Seat>(alloc) {
            let seat = Box::into_inner(seat);
            passes.push_reserved(seat.into_pass());
        }
    }
    Ok(passes)
}

/// Writes the items that are left, from the beginning on.
fn write_items(items: &mut [u32], left: &[u32])
    requires { length left.now ≤ length items.old }
    ensures { items.new ≡ left.now ++ drop (length left.now) items.old }
{
    items[..left.len()].copy_from_slice(left);
}

/// Closes a queue by the handles of all its passes, as `close`, and writes the items that are left, and how many. The
/// handles of one call are of one queue. Returns BAD_CALL, with nothing done, where there are none, one is closed or of
/// another kind, a pass of the queue is missing, or there is not room for an item of each slot; NO_MEMORY, with nothing
/// done, and LOST, with the queue closed and its items lost, where an allocation failed.
#[unsafe(no_mangle)]
pub extern "C" fn kfifo_c_close(
    alloc: Global,
    passes: &mut [Handle],
    items: &mut [u32],
    count: &mut usize,
) -> u32
    requires { AreOfOneQueue (items_behind passes.old) }
    ensures answers { (result ≡ 0) ⊎ (result ≡ 6) ⊎ (result ≡ 7) ⊎ (result ≡ 9) }
    ensures bad { result ≡ 6 → ¬ ((queue : OpenQueue) × MayClose queue (items_behind passes.old) (length items.old)) }
    ensures may { (result ≡ 0) ⊎ (result ≡ 9) → (queue : OpenQueue)
        × MayClose queue (items_behind passes.old) (length items.old) }
    ensures nothing { (result ≡ 6) ⊎ (result ≡ 7) → (behind passes.new ≡ behind passes.old)
        × (all_fields passes.new ≡ all_fields passes.old) }
    ensures closed { (result ≡ 0) ⊎ (result ≡ 9) → All IsClosed passes.new }
    ensures done { result ≡ 0 → ClosesInto (items_behind passes.old) items.old items.new count.new }
    ensures kept { (result ≡ 6) ⊎ (result ≡ 7) ⊎ (result ≡ 9) → (items.new ≡ items.old) × (count.new ≡ count.old) }
{
    let queue = match ready(alloc, passes, items.len()) {
        Ok(Some(queue)) => queue,
        Ok(None) => return BAD_CALL,
        Err(_) => return NO_MEMORY,
    };
    let Ok(taken) = take_all(alloc, passes) else {
        return NO_MEMORY;
    };
    // The last part in the queue, unless handles of two queues were mixed.
    let Some(queue) = Arc::into_inner(queue) else {
        return LOST;
    };
    let Ok(left) = close(alloc, queue, taken) else {
        return LOST;
    };
    write_items(items, left.as_slice());
    *count = left.len();
    DONE
}
