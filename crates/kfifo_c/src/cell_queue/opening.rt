//! Opening a queue of cells, by how many of them it is to hold.
ghost use Rattle.std.specs.Prelude.{◌≡◌, ◌≢◌, None, Some, IfSome, IfOk, All, length, map, reverse, false, true};
ghost use denote.RawPtr.{Ptr};
ghost use Rattle.kfifo_live.specs.Capacities.{sizes_fault};
ghost use Rattle.kfifo_renewing.specs.Renewing.{HaveOne, opening_with, sizes_again};
ghost use Rattle.kfifo_c.specs.Handles.{cells_behind, fields_of};
ghost use Rattle.kfifo_c.specs.CellQueues.{is_layout as layout_fits};
ghost use Rattle.kfifo_c.specs.Fields.{AreNew};
ghost use Rattle.kfifo_c.specs.Openings.{IsAnswer, OpensAll, RefusesBad, sizes_number};

use crate::address::no_address;
use crate::cell_queue::seat::CellSeat;
use crate::handle::Handle;
use crate::handles::put_all;
use crate::status::{BAD_LAYOUT, BAD_THREADS, DONE, renew_status, sizes_status};
use kfifo_live::{OpenFault, Sizes};
use kfifo_renewing::{CellLayout, Cells, RenewFault, Renewals, RenewingHandle, open_cells_with};
use std::alloc::{AllocError, Global};

/// The greatest alignment of a cell, in bytes. What divides it is a power of two.
const MAX_ALIGNMENT: u32 = 4_096;

/// Whether a cell may have this size and alignment.
fn is_layout(size: u32, alignment: u32) -> bool
    ensures { result ≡ layout_fits size alignment }
{
    alignment != 0 && MAX_ALIGNMENT % alignment == 0 && size != 0 && size % alignment == 0
}

/// A seat for each handle, the last handle first.
fn seat_all(
    alloc: Global,
    mut handles: Vec<RenewingHandle<(), Cells>>,
    threads: u32,
) -> Result<Vec<Box<CellSeat, Global>>, AllocError>
    requires { All (λ h. threads ≡ h.opened.threads) handles.items }
    ensures { IfOk result (λ seats. reverse (map (λ seat. seat.value) seats.items) ≡ handles.items) }
{
    let mut seats = Vec::with_capacity(alloc, handles.len())?;
    while let Some(handle) = handles.pop() {
        let seat = Box::new(alloc, CellSeat::new(handle, threads))?;
        seats.push(seat)?;
    }
    Ok(seats)
}

/// The seats of a new queue, the last thread's first.
fn open_seats(
    alloc: Global,
    sizes: Sizes,
    layout: CellLayout,
    renewals: Renewals,
) -> Result<Vec<Box<CellSeat, Global>>, RenewFault>
    ensures ok { IfOk result (λ seats. HaveOne (opening_with true (sizes_again sizes))
        (reverse (map (λ seat. seat.value) seats.items)) × (length seats.items ≡ sizes.threads)) }
    ensures refused { RefusesBad sizes renewals result }
{
    let handles = match open_cells_with(alloc, sizes, layout, renewals) {
        Ok(handles) => handles,
        Err(fault) => return Err(fault),
    };
    match seat_all(alloc, handles, sizes.threads) {
        Ok(seats) => Ok(seats),
        Err(_) => Err(RenewFault::Open(OpenFault::Memory)),
    }
}

/// Where the queue of these seats is.
fn address_of_all(seats: &[Box<CellSeat, Global>]) -> *mut u8 {
    match seats.first() {
        Some(seat) => seat.address(),
        None => no_address(),
    }
}

/// Opens a queue with room for so many cells, for as many threads as there are handles, as
/// `kfifo_renewing::open_cells_with`, and puts a handle of it behind each, in their order. Each cell has memory of this
/// size and alignment, in bytes, which stand in each handle until it is closed. With fewer versions left than the
/// reserve, a generation is followed by the next one; with a reserve of 0 only once none are left, in a queue that
/// grows. So is one with no free cell while there are fewer than `generations`. What was behind the handles is lost. A
/// refusal does nothing: BAD_THREADS where the handles are not 1 to 64; BAD_K; BAD_LAST; BAD_CAPACITY where the
/// capacity is 0, or greater than a queue of these handles can have; BAD_LAYOUT where the alignment is no power of two
/// from 1 to 4,096, or the size is 0 or no multiple of it; BAD_RESERVE where the reserve is not below the greatest
/// version; BAD_CALL where the generations are not 1 to 129 - 2 * threads; NO_MEMORY where an allocation failed.
#[unsafe(no_mangle)]
pub extern "C" fn kfifo_c_open_cells(
    alloc: Global,
    k: u32,
    capacity: u32,
    size: u32,
    alignment: u32,
    last: u64,
    reserve: u64,
    generations: u32,
    passes: &mut [Handle],
) -> u32
    ensures ok { result ≡ 0 → OpensAll true k capacity last (length passes.old) (cells_behind passes.new) }
    ensures fields { result ≡ 0 → (address : Ptr)
        × All (λ pass. AreNew address 3 size alignment (fields_of pass)) passes.new }
    ensures refused { result ≢ 0 → passes.new ≡ passes.old }
    ensures sizes { IfSome (sizes_fault k capacity (length passes.old) last) (λ fault. result ≡ sizes_number fault) }
    ensures layout { sizes_fault k capacity (length passes.old) last ≡ None → layout_fits size alignment ≡ false
        → result ≡ 20 }
    ensures answer { sizes_fault k capacity (length passes.old) last ≡ None → layout_fits size alignment ≡ true
        → IsAnswer last reserve (length passes.old) generations result }
{
    if passes.len() > 64 {
        return BAD_THREADS;
    }
    let sizes = match Sizes::for_capacity(k, capacity, passes.len() as u32, last) {
        Ok(sizes) => sizes,
        Err(fault) => return sizes_status(fault),
    };
    if !is_layout(size, alignment) {
        return BAD_LAYOUT;
    }
    let layout = CellLayout { size, alignment };
    let renewals = Renewals {
        reserve,
        generations,
    };
    match open_seats(alloc, sizes, layout, renewals) {
        Ok(seats) => {
            let address = address_of_all(seats.as_slice());
            put_all(passes, seats, address, size, alignment);
            DONE
        }
        Err(fault) => renew_status(fault),
    }
}
