//! Opening a queue of values, by how many of them it is to hold.
ghost use Rattle.std.specs.Prelude.{◌≡◌, ◌≢◌, None, Some, IfSome, IfOk, All, length, map, reverse, false};
ghost use denote.RawPtr.{Ptr};
ghost use Rattle.kfifo_live.specs.Capacities.{sizes_fault};
ghost use Rattle.kfifo_renewing.specs.Renewing.{HaveOne, opening_with, sizes_again};
ghost use Rattle.kfifo_c.specs.Fields.{AreNew};
ghost use Rattle.kfifo_c.specs.Openings.{IsAnswer, OpensAll, RefusesBad, sizes_number};
ghost use Rattle.kfifo_c.specs.Handles.{fields_of, values_behind};

use crate::address::no_address;
use crate::handle::Handle;
use crate::handles::put_all;
use crate::status::{BAD_THREADS, DONE, renew_status, sizes_status};
use crate::value_queue::seat::ValueSeat;
use kfifo_live::{OpenFault, Sizes};
use kfifo_renewing::{RenewFault, Renewals, RenewingHandle, open_with};
use kfifo_words::Shape;
use std::alloc::{AllocError, Global};

/// A seat for each handle, the last handle first.
fn seat_all(
    alloc: Global,
    mut handles: Vec<RenewingHandle<u64>>,
    shape: Shape,
    threads: u32,
) -> Result<Vec<Box<ValueSeat, Global>>, AllocError>
    requires { All (λ h. (shape ≡ h.opened.shape) × (threads ≡ h.opened.threads)) handles.items }
    ensures { IfOk result (λ seats. reverse (map (λ seat. seat.value) seats.items) ≡ handles.items) }
{
    let mut seats = Vec::with_capacity(alloc, handles.len())?;
    while let Some(handle) = handles.pop() {
        let seat = Box::new(alloc, ValueSeat::new(handle, shape, threads))?;
        seats.push(seat)?;
    }
    Ok(seats)
}

/// The seats of a new queue, the last thread's first.
fn open_seats(
    alloc: Global,
    sizes: Sizes,
    renewals: Renewals,
) -> Result<Vec<Box<ValueSeat, Global>>, RenewFault>
    ensures ok { IfOk result (λ seats. HaveOne (opening_with false (sizes_again sizes))
        (reverse (map (λ seat. seat.value) seats.items)) × (length seats.items ≡ sizes.threads)) }
    ensures refused { RefusesBad sizes renewals result }
{
    let handles = match open_with(alloc, sizes, renewals) {
        Ok(handles) => handles,
        Err(fault) => return Err(fault),
    };
    match seat_all(alloc, handles, sizes.shape.holding_again(), sizes.threads) {
        Ok(seats) => Ok(seats),
        Err(_) => Err(RenewFault::Open(OpenFault::Memory)),
    }
}

/// Where the queue of these seats is.
fn address_of_all(seats: &[Box<ValueSeat, Global>]) -> *mut u8 {
    match seats.first() {
        Some(seat) => seat.address(),
        None => no_address(),
    }
}

/// Opens a queue with room for so many values, for as many threads as there are handles, as
/// `kfifo_renewing::open_with`, and puts a handle of it behind each, in their order. With fewer versions left than the
/// reserve, a generation is followed by the next one; with a reserve of 0 only once none are left, in a queue that
/// grows. So is one with no room while there are fewer than `generations`. What was behind the handles is lost. A
/// refusal does nothing: BAD_THREADS where the handles are not 1 to 64; BAD_K; BAD_LAST; BAD_CAPACITY where the
/// capacity is 0, or greater than a queue of these handles can have; BAD_RESERVE where the reserve is not below the
/// greatest version; BAD_CALL where the generations are not 1 to 129 - 2 * threads; NO_MEMORY where an allocation
/// failed.
#[unsafe(no_mangle)]
pub extern "C" fn kfifo_c_open_values(
    alloc: Global,
    k: u32,
    capacity: u32,
    last: u64,
    reserve: u64,
    generations: u32,
    passes: &mut [Handle],
) -> u32
    ensures ok { result ≡ 0 → OpensAll false k capacity last (length passes.old) (values_behind passes.new) }
    ensures fields { result ≡ 0 → (address : Ptr) × All (λ pass. AreNew address 2 0 0 (fields_of pass)) passes.new }
    ensures refused { result ≢ 0 → passes.new ≡ passes.old }
    ensures sizes { IfSome (sizes_fault k capacity (length passes.old) last) (λ fault. result ≡ sizes_number fault) }
    ensures answer { sizes_fault k capacity (length passes.old) last ≡ None
        → IsAnswer last reserve (length passes.old) generations result }
{
    if passes.len() > 64 {
        return BAD_THREADS;
    }
    let sizes = match Sizes::for_capacity(k, capacity, passes.len() as u32, last) {
        Ok(sizes) => sizes,
        Err(fault) => return sizes_status(fault),
    };
    let renewals = Renewals {
        reserve,
        generations,
    };
    match open_seats(alloc, sizes, renewals) {
        Ok(seats) => {
            let address = address_of_all(seats.as_slice());
            put_all(passes, seats, address, 0, 0);
            DONE
        }
        Err(fault) => renew_status(fault),
    }
}
