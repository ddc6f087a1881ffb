//! Closing a queue of cells.
ghost use Rattle.std.specs.Prelude.{◌≡◌, ◌≢◌, ◌⊎◌, ◌↔◌, ◌==◌, None, IfOk, IsErr, IsTrue, All};
ghost use Rattle.std.specs.List.{list_all};
ghost use Rattle.kfifo_c.specs.Handles.{IsClosed, WereClosed, all_fields, behind, cells_behind};
ghost use Rattle.kfifo_c.specs.AllHandles.{AreAll, AreSeatsOfOneQueue, seats_in};
ghost use Rattle.kfifo_c.specs.Behind.{left_in};
ghost use Rattle.kfifo_c.specs.CellQueues.{ClosesCells};

use crate::cell_queue::left::LeftHandle;
use crate::cell_queue::left_seat::LeftSeat;
use crate::cell_queue::seat::CellSeat;
use crate::handle::Handle;
use crate::kind::CELLS;
use crate::status::{BAD_CALL, DONE, LOST, NO_MEMORY};
use kfifo_renewing::{Cells, RenewingHandle, close_cells};
use std::alloc::{AllocError, Global};

/// Whether each of these handles is open.
fn are_open(handles: &[Handle]) -> bool
    ensures { result ≡ list_all (λ handle. handle.kind == 3) handles.now }
{
    handles.iter().all(|handle| handle.kind == CELLS)
}

/// Whether a queue may be closed by these handles.
fn may_close(handles: &mut [Handle]) -> bool
    ensures same { behind handles.new ≡ behind handles.old }
    ensures fields { all_fields handles.new ≡ all_fields handles.old }
    ensures may { IsTrue result ↔ AreAll (cells_behind handles.old) }
{
    if !are_open(handles) {
        return false;
    }
    let count = handles.len();
    let Some(last) = handles.last_mut() else {
        return false;
    };
    let seat = last.held.seat_mut::<CellSeat>();
    if count != seat.threads() as usize {
        return false;
    }
    true
}

/// The open ones of these handles, which are then closed.
fn take_all(
    alloc: Global,
    handles: &mut [Handle],
) -> Result<Vec<RenewingHandle<(), Cells>>, AllocError>
    ensures refused { IsErr result → handles.new ≡ handles.old }
    ensures closed { IfOk result (λ _. WereClosed 3 handles.old handles.new) }
    ensures taken { IfOk result (λ taken. taken.items ≡ seats_in (cells_behind handles.old)) }
{
    let mut taken = Vec::with_capacity(alloc, handles.len())?;
    for handle in handles.iter_mut() {
        if let Some(seat) = handle.take::<CellSeat>(alloc) {
            taken.push_reserved(Box::into_inner(seat).into_handle());
        }
    }
    Ok(taken)
}

/// Closes a queue by all its handles, as `kfifo_renewing::close_cells`, and holds the cells that are left, with their
/// memory, in `left`. What was held there is lost. The handles of one call are of one queue. Returns BAD_CALL, with
/// nothing done, where there are none, one is closed or of another kind, or they are not as many as the queue has;
/// NO_MEMORY, with nothing done, and LOST, with the queue closed and the cells and their memory gone, where an
/// allocation failed.
#[unsafe(no_mangle)]
pub extern "C" fn kfifo_c_close_cells(
    alloc: Global,
    passes: &mut [Handle],
    left: &mut LeftHandle,
) -> u32
    requires { AreSeatsOfOneQueue (cells_behind passes.old) }
    ensures answers { (result ≡ 0) ⊎ (result ≡ 6) ⊎ (result ≡ 7) ⊎ (result ≡ 9) }
    ensures bad { (result ≡ 6) ↔ (¬ AreAll (cells_behind passes.old)) }
    ensures nothing { (result ≡ 6) ⊎ (result ≡ 7) → (behind passes.new ≡ behind passes.old)
        × (all_fields passes.new ≡ all_fields passes.old) }
    ensures closed { (result ≡ 0) ⊎ (result ≡ 9) → All IsClosed passes.new }
    ensures done { result ≡ 0 → ClosesCells (cells_behind passes.old) (left_in left.new.held.value) }
    ensures kept { result ≢ 0 → left.new ≡ left.old }
{
    if !may_close(passes) {
        return BAD_CALL;
    }
    // Made before the queue is closed, so that a failure here leaves it open.
    let Ok(mut seat) = Box::new(alloc, LeftSeat::new(Vec::new(alloc))) else {
        return NO_MEMORY;
    };
    let Ok(taken) = take_all(alloc, passes) else {
        return NO_MEMORY;
    };
    let Ok(closed) = close_cells(alloc, taken) else {
        return LOST;
    };
    *seat = LeftSeat::new(closed.left);
    *left = LeftHandle::of(seat);
    DONE
}
