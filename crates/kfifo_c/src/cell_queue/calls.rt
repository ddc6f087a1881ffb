//! The calls of C by one handle of a queue of cells.
ghost use Rattle.std.specs.Prelude.{◌≡◌, ◌⊎◌, ℕ, ⊤, MatchOption, None, Option};
ghost use Rattle.kfifo_live.specs.declared.payload.Given.{Given as HasGiven};
ghost use Rattle.kfifo_live.specs.declared.payload.Taken.{Taken as HasTaken};
ghost use Rattle.kfifo_renewing.specs.Cells.{CallsOnce, PublishesNext, ReceivesOldest};
ghost use Rattle.kfifo_renewing.specs.Renewing.{Counts};
ghost use Rattle.kfifo_renewing.specs.declared.cells.CellCall.TheVariants.{Cancel, Publish, Release};
ghost use Rattle.kfifo_renewing.specs.declared.memory.CellAt.{CellAt as HasCellAt};
ghost use Rattle.kfifo_c.specs.Behind.{Cells, cells_in};
ghost use Rattle.kfifo_c.specs.Exports.{Tries, count_of};
ghost use Rattle.kfifo_c.specs.Values.{taken_number};
ghost use Rattle.kfifo_c.specs.CellCalls.{ReservesAt, ReservesNextAt, call_number, cell_after, cell_after_reserve};
ghost use Rattle.kfifo_c.specs.CellCalls.{reservation_number};
ghost use Rattle.kfifo_c.specs.Handles.{WereClosed, fields_of};

use crate::cell_queue::seat::CellSeat;
use crate::cell_queue::status::call_status;
use crate::handle::Handle;
use crate::handles::abandon;
use crate::kind::CELLS;
use crate::status::{BAD_CALL, DONE, FULL, NO_MEMORY};
use crate::value_queue::status::{GOT, taken_status};
use kfifo_live::Taken;
use kfifo_renewing::CellAt;
use std::alloc::Global;

/// Reserves a cell, as `RenewingHandle::reserve`: it is the handle's alone until it is published or cancelled. Where
/// one is reserved already, it is that one. Writes where the cell lies, and returns DONE. Returns FULL, and writes
/// nothing, where no cell is free; BAD_CALL, with nothing done, where the handle is closed or of another kind.
#[unsafe(no_mangle)]
pub extern "C" fn kfifo_c_reserve(pass: &mut Handle, cell: &mut CellAt) -> u32
    ensures answer { (answer : Option (Option HasCellAt)) × (result ≡ reservation_number answer)
        × (cell.new ≡ cell_after_reserve cell.old answer)
        × Tries Cells (λ _. ⊤) ReservesAt answer pass.old.held.value pass.new.held.value }
    ensures fields { fields_of pass.new ≡ fields_of pass.old }
{
    if pass.kind != CELLS {
        return BAD_CALL;
    }
    let Some(reserved) = pass.held.seat_mut::<CellSeat>().reserve() else {
        return FULL;
    };
    *cell = reserved;
    DONE
}

/// Puts the cell that is reserved into the queue of its generation, as `RenewingHandle::publish`, and returns its
/// answer's number: DONE, FULL, BUSY or WORN. A refusal leaves the cell reserved. After WORN, reserve one of the next
/// generation with `kfifo_c_reserve_next`, or cancel it. Returns BAD_CALL, with nothing done, where none is reserved,
/// or the handle is closed or of another kind.
#[unsafe(no_mangle)]
pub extern "C" fn kfifo_c_publish(pass: &mut Handle) -> u32
    ensures answer { (answer : Option (HasGiven (Unit {0}))) × (result ≡ call_number answer)
        × Tries Cells (λ _. ⊤) (CallsOnce Publish) answer pass.old.held.value pass.new.held.value }
    ensures fields { fields_of pass.new ≡ fields_of pass.old }
{
    if pass.kind != CELLS {
        return BAD_CALL;
    }
    let given = pass.held.seat_mut::<CellSeat>().publish();
    call_status(&given)
}

/// Reserves a cell of the newest generation, as `RenewingHandle::reserve_next`, beside one that is reserved in an older
/// generation and stays so. Where a cell of the newest generation is reserved already, it is that one. Writes where the
/// cell lies, and returns DONE. Returns FULL, and writes nothing, where no cell is free; BAD_CALL, with nothing done,
/// where the handle is closed or of another kind.
#[unsafe(no_mangle)]
pub extern "C" fn kfifo_c_reserve_next(pass: &mut Handle, cell: &mut CellAt) -> u32
    ensures answer { (answer : Option (Option HasCellAt)) × (result ≡ reservation_number answer)
        × (cell.new ≡ cell_after_reserve cell.old answer)
        × Tries Cells (λ _. ⊤) ReservesNextAt answer pass.old.held.value pass.new.held.value }
    ensures fields { fields_of pass.new ≡ fields_of pass.old }
{
    if pass.kind != CELLS {
        return BAD_CALL;
    }
    match pass.held.seat_mut::<CellSeat>().reserve_next() {
        Some(next) => {
            *cell = next;
            DONE
        }
        None => FULL,
    }
}

/// Puts the cell that is reserved in the newest generation into the queue, as `RenewingHandle::publish_next`, and
/// returns its answer's number: DONE, and the cell that is reserved in an older generation is given back; or FULL, BUSY
/// or WORN, and that of the newest one is given back. Returns BAD_CALL, with nothing done, where none is reserved
/// there, or the handle is closed or of another kind.
#[unsafe(no_mangle)]
pub extern "C" fn kfifo_c_publish_next(pass: &mut Handle) -> u32
    ensures answer { (answer : Option (HasGiven (Unit {0}))) × (result ≡ call_number answer)
        × Tries Cells (λ _. ⊤) PublishesNext answer pass.old.held.value pass.new.held.value }
    ensures fields { fields_of pass.new ≡ fields_of pass.old }
{
    if pass.kind != CELLS {
        return BAD_CALL;
    }
    let given = pass.held.seat_mut::<CellSeat>().publish_next();
    call_status(&given)
}

/// Gives the cell that is reserved back, so that any handle may reserve it, and returns DONE. Returns BAD_CALL, with
/// nothing done, where none is reserved, or the handle is closed or of another kind.
#[unsafe(no_mangle)]
pub extern "C" fn kfifo_c_cancel(pass: &mut Handle) -> u32
    ensures answer { (answer : Option (HasGiven (Unit {0}))) × (result ≡ call_number answer)
        × Tries Cells (λ _. ⊤) (CallsOnce Cancel) answer pass.old.held.value pass.new.held.value }
    ensures fields { fields_of pass.new ≡ fields_of pass.old }
{
    if pass.kind != CELLS {
        return BAD_CALL;
    }
    let given = pass.held.seat_mut::<CellSeat>().cancel();
    call_status(&given)
}

/// Takes one of the k oldest cells of the oldest generation that has one out of the queue of the handle, as
/// `RenewingHandle::receive`, and returns its answer's number. It releases the cell that the handle received before. It
/// writes where the cell lies that it got, which is the handle's alone until its next `receive` or `release`. Returns
/// BAD_CALL, with nothing done, where the handle is closed or of another kind.
#[unsafe(no_mangle)]
pub extern "C" fn kfifo_c_receive(pass: &mut Handle, cell: &mut CellAt) -> u32
    ensures answer { (answer : Option (HasTaken HasCellAt)) × (result ≡ taken_number answer)
        × (cell.new ≡ cell_after cell.old answer)
        × Tries Cells (λ _. ⊤) ReceivesOldest answer pass.old.held.value pass.new.held.value }
    ensures fields { fields_of pass.new ≡ fields_of pass.old }
{
    if pass.kind != CELLS {
        return BAD_CALL;
    }
    let taken = pass.held.seat_mut::<CellSeat>().receive();
    if let Taken::Got(got) = taken {
        *cell = got;
        return GOT;
    }
    taken_status(&taken)
}

/// Releases the cell that was received, so that any handle may reserve it, and returns DONE. Returns BAD_CALL, with
/// nothing done, where none was received, it was released, or the handle is closed or of another kind.
#[unsafe(no_mangle)]
pub extern "C" fn kfifo_c_release(pass: &mut Handle) -> u32
    ensures answer { (answer : Option (HasGiven (Unit {0}))) × (result ≡ call_number answer)
        × Tries Cells (λ _. ⊤) (CallsOnce Release) answer pass.old.held.value pass.new.held.value }
    ensures fields { fields_of pass.new ≡ fields_of pass.old }
{
    if pass.kind != CELLS {
        return BAD_CALL;
    }
    let given = pass.held.seat_mut::<CellSeat>().release();
    call_status(&given)
}

/// Why the last reserve of the handle that found no cell was refused: returns NO_MEMORY where it would have opened a
/// generation, and memory was missing for that, as `RenewingHandle::lacks_memory`; else FULL. Returns BAD_CALL where
/// the handle is closed or of another kind.
#[unsafe(no_mangle)]
pub extern "C" fn kfifo_c_why_no_cell(pass: &mut Handle) -> u32
    ensures why { MatchOption (cells_in pass.old.held.value) (result ≡ 6) (λ _. (result ≡ 1) ⊎ (result ≡ 7)) }
    ensures same { pass.new.held.value ≡ pass.old.held.value }
    ensures fields { fields_of pass.new ≡ fields_of pass.old }
{
    if pass.kind != CELLS {
        return BAD_CALL;
    }
    if pass.held.seat_mut::<CellSeat>().lacks_memory() {
        return NO_MEMORY;
    }
    FULL
}

/// About how many cells are in the queue of the handle, as `RenewingHandle::len`. Returns 0 where the handle is closed
/// or of another kind.
#[unsafe(no_mangle)]
pub extern "C" fn kfifo_c_cells_len(pass: &mut Handle) -> usize
    ensures counted { (counted : Option ℕ) × (result ≡ count_of counted)
        × Tries Cells (λ _. ⊤) Counts counted pass.old.held.value pass.new.held.value }
    ensures fields { fields_of pass.new ≡ fields_of pass.old }
{
    if pass.kind != CELLS {
        return 0;
    }
    pass.held.seat_mut::<CellSeat>().len()
}

/// Closes these handles. With the last open handle of a queue the queue goes, with the memory of its cells, and what
/// is left in them is lost.
#[unsafe(no_mangle)]
pub extern "C" fn kfifo_c_abandon_cells(alloc: Global, passes: &mut [Handle])
    ensures { WereClosed 3 passes.old passes.new }
{
    abandon::<CellSeat>(alloc, passes);
}
