//! Closing a queue of values.
ghost use Rattle.std.specs.Prelude.{◌≡◌, ◌⊎◌, ◌++◌, ◌==◌, List, Option, Some, None, IfOk, IsErr, IsTrue, All};
ghost use Rattle.std.specs.Prelude.{length, drop, map};
ghost use Rattle.std.specs.List.{list_all};
ghost use Rattle.kfifo_c.specs.AllHandles.{AreSeatsOfOneQueue, seats_in};
ghost use Rattle.kfifo_c.specs.Behind.{Behind, values_in};
ghost use Rattle.kfifo_c.specs.Handles.{IsClosed, WereClosed, all_fields, behind, values_behind};
ghost use Rattle.kfifo_c.specs.Values.{ClosesValues, LastFollows, MayCloseValues, NeedsRoom};

use crate::handle::Handle;
use crate::kind::VALUES;
use crate::status::{BAD_CALL, DONE, LOST, NO_MEMORY};
use crate::value_queue::seat::ValueSeat;
use kfifo_renewing::{RenewingHandle, close};
use std::alloc::{AllocError, Global};

/// Whether each of these handles is open.
fn are_open(handles: &[Handle]) -> bool
    ensures { result ≡ list_all (λ handle. handle.kind == 2) handles.now }
{
    handles.iter().all(|handle| handle.kind == VALUES)
}

/// Room for what may be left in the queue of these handles, if they are all that it has. The last of them follows
/// others, for which memory may be missing.
fn room_of(handles: &mut [Handle]) -> Result<Option<usize>, AllocError>
    ensures follows { LastFollows (behind handles.old) (behind handles.new) }
    ensures fields { all_fields handles.new ≡ all_fields handles.old }
    ensures room { IfOk result (λ room. NeedsRoom room (values_behind handles.new)) }
{
    if !are_open(handles) {
        return Ok(None);
    }
    let count = handles.len();
    let Some(last) = handles.last_mut() else {
        return Ok(None);
    };
    let seat = last.held.seat_mut::<ValueSeat>();
    if count != seat.threads() as usize {
        return Ok(None);
    }
    let slots = seat.slots();
    let Some(generations) = seat.generations() else {
        return Err(AllocError);
    };
    Ok(generations.checked_mul(slots))
}

/// The open ones of these handles, which are then closed.
fn take_all(alloc: Global, handles: &mut [Handle]) -> Result<Vec<RenewingHandle<u64>>, AllocError>
    ensures refused { IsErr result → handles.new ≡ handles.old }
    ensures closed { IfOk result (λ _. WereClosed 2 handles.old handles.new) }
    ensures taken { IfOk result (λ taken. taken.items ≡ seats_in (values_behind handles.old)) }
{
    let mut taken = Vec::with_capacity(alloc, handles.len())?;
    for handle in handles.iter_mut() {
        if let Some(seat) = handle.take::<ValueSeat>(alloc) {
            taken.push_reserved(Box::into_inner(seat).into_handle());
        }
    }
    Ok(taken)
}

/// Writes the values that are left, from the beginning on. Returns false, and writes nothing, where there is not room
/// for all.
fn write_values(values: &mut [u64], left: &[u64]) -> bool
    ensures written { IsTrue result → values.new ≡ left.now ++ drop (length left.now) values.old }
    ensures kept { ¬ IsTrue result → values.new ≡ values.old }
{
    if values.len() < left.len() {
        return false;
    }
    values[..left.len()].copy_from_slice(left);
    true
}

/// How many values a close by these handles needs room for: one of each slot of each generation. Returns 0 where they
/// are not all that a queue has, or others opened new generations all the time. The last of them follows others.
#[unsafe(no_mangle)]
pub extern "C" fn kfifo_c_values_room(passes: &mut [Handle]) -> usize
    ensures follows { LastFollows (behind passes.old) (behind passes.new) }
    ensures fields { all_fields passes.new ≡ all_fields passes.old }
    ensures room { (result ≡ 0) ⊎ NeedsRoom (Some result) (values_behind passes.new) }
{
    match room_of(passes) {
        Ok(Some(room)) => room,
        Ok(None) | Err(_) => 0,
    }
}

/// Closes a queue by all its handles, as `kfifo_renewing::close`, and writes the values that are left, those of the
/// oldest generation first, and how many. The handles of one call are of one queue. The last one follows others.
/// Returns BAD_CALL, with nothing else done, where there are none, one is closed or of another kind, they are not as
/// many as the queue has, or there is not the room that `kfifo_c_values_room` returns; NO_MEMORY, with nothing else
/// done, and LOST, with the queue closed and its values lost, where an allocation failed.
#[unsafe(no_mangle)]
pub extern "C" fn kfifo_c_close_values(
    alloc: Global,
    passes: &mut [Handle],
    values: &mut [u64],
    count: &mut usize,
) -> u32
    requires { AreSeatsOfOneQueue (values_behind passes.old) }
    ensures answers { (result ≡ 0) ⊎ (result ≡ 6) ⊎ (result ≡ 7) ⊎ (result ≡ 9) }
    ensures bad { result ≡ 6 → ¬ MayCloseValues (values_behind passes.new) (length values.old) }
    ensures may { (result ≡ 0) ⊎ (result ≡ 9) → (seats : List (Option Behind))
        × LastFollows (behind passes.old) seats × MayCloseValues (map values_in seats) (length values.old) }
    ensures nothing { (result ≡ 6) ⊎ (result ≡ 7) → LastFollows (behind passes.old) (behind passes.new)
        × (all_fields passes.new ≡ all_fields passes.old) }
    ensures closed { (result ≡ 0) ⊎ (result ≡ 9) → All IsClosed passes.new }
    ensures done { result ≡ 0 → (seats : List (Option Behind)) × LastFollows (behind passes.old) seats
        × ClosesValues (map values_in seats) values.old values.new count.new }
    ensures kept { (result ≡ 6) ⊎ (result ≡ 7) ⊎ (result ≡ 9) → (values.new ≡ values.old) × (count.new ≡ count.old) }
{
    let room = match room_of(passes) {
        Ok(Some(room)) => room,
        Ok(None) => return BAD_CALL,
        Err(_) => return NO_MEMORY,
    };
    if values.len() < room {
        return BAD_CALL;
    }
    let Ok(taken) = take_all(alloc, passes) else {
        return NO_MEMORY;
    };
    let Ok(closed) = close(alloc, taken) else {
        return LOST;
    };
    // There is room: nobody opens a generation during a close.
    if !write_values(values, closed.left.as_slice()) {
        return LOST;
    }
    *count = closed.left.len();
    DONE
}
