//! Opening a queue.
ghost use Rattle.std.specs.Prelude.{◌≡◌, ◌≢◌, ◌<◌, ◌≤◌, ◌⊎◌, None, Some, IfSome, IfOk, IsErrOf, All, length, map};
ghost use Rattle.std.specs.Prelude.{reverse};
ghost use Rattle.kfifo_model.specs.declared.calls.TheConstants.{MAX_THREADS};
ghost use denote.RawPtr.{Ptr};
ghost use Rattle.kfifo_words.specs.Sizes.{fault_of};
ghost use Rattle.kfifo_live.specs.Refusals.{RefusesThreads};
ghost use Rattle.kfifo_live.specs.declared.fault.OpenFault.TheVariants.{TokensOutOfRange};
ghost use Rattle.kfifo_c.specs.Seats.{IsOpenPassOf};
ghost use Rattle.kfifo_c.specs.Fields.{AreNew};
ghost use Rattle.kfifo_c.specs.Handles.{fields_of, items_behind};
ghost use Rattle.kfifo_c.specs.Exports.{seats_of, Opens, OpensSizes, shape_number};

use crate::address::no_address;
use crate::handle::Handle;
use crate::handles::put_all;
use crate::seat::Seat;
use crate::shape::shape_of;
use crate::status::{BAD_THREADS, DONE, open_status, shape_status};
use kfifo_live::{OpenFault, Pass, Queue};
use kfifo_words::Shape;
use std::alloc::{AllocError, Global};
use std::sync::Arc;

/// A seat for each pass, the last pass first.
fn seat_all(
    alloc: Global,
    queue: Queue,
    mut passes: Vec<Pass>,
    threads: u32,
) -> Result<Vec<Box<Seat, Global>>, AllocError>
    requires of { All (IsOpenPassOf queue) passes.items }
    requires threads { threads ≡ queue.opened.threads }
    ensures { IfOk result (λ seats. reverse (map (λ seat. seat.value) seats.items) ≡ seats_of queue passes.items) }
{
    let shared = Arc::new(alloc, queue)?;
    let mut seats = Vec::with_capacity(alloc, passes.len())?;
    while let Some(pass) = passes.pop() {
        let queue = Arc::try_clone(&shared)?;
        let seat = Box::new(alloc, Seat::new(queue, pass, threads))?;
        seats.push(seat)?;
    }
    Ok(seats)
}

/// The seats of a new queue, the last thread's first.
fn open_seats(
    alloc: Global,
    shape: Shape,
    threads: u32,
) -> Result<Vec<Box<Seat, Global>>, OpenFault>
    ensures ok { IfOk result (λ seats. Opens shape threads (reverse (map (λ seat. seat.value) seats.items))) }
    ensures threads { RefusesThreads threads result }
    ensures tokens { ¬ IsErrOf result TokensOutOfRange }
{
    let (queue, passes) = Queue::open(alloc, shape, threads)?;
    let seats = seat_all(alloc, queue, passes, threads)?;
    Ok(seats)
}

/// Where the queue of these seats is.
fn address_of_all(seats: &[Box<Seat, Global>]) -> *mut u8 {
    match seats.first() {
        Some(seat) => seat.address(),
        None => no_address(),
    }
}

/// Opens a queue for as many threads as there are handles, as `Queue::open`, and puts a pass behind each, in their
/// order. What was behind them is lost. A refusal does nothing: BAD_K, BAD_SEGMENTS, BAD_LAST or BAD_PROBES where there
/// is no such shape, BAD_THREADS where the handles are not 1 to 64, NO_MEMORY where an allocation failed.
#[unsafe(no_mangle)]
pub extern "C" fn kfifo_c_open(
    alloc: Global,
    k: u32,
    segments: u32,
    probes: u32,
    last: u64,
    passes: &mut [Handle],
) -> u32
    ensures ok { result ≡ 0 → OpensSizes k segments last probes (length passes.old) (items_behind passes.new) }
    ensures fields { result ≡ 0 → (address : Ptr) × All (λ pass. AreNew address 1 0 0 (fields_of pass)) passes.new }
    ensures refused { result ≢ 0 → passes.new ≡ passes.old }
    ensures shape { IfSome (fault_of k segments last probes) (λ fault. result ≡ shape_number fault) }
    ensures threads { fault_of k segments last probes ≡ None → (length passes.old ≡ 0)
        ⊎ (MAX_THREADS < length passes.old)
        → result ≡ 8 }
    ensures memory { fault_of k segments last probes ≡ None → 1 ≤ length passes.old → length passes.old ≤ MAX_THREADS
        → (result ≡ 0) ⊎ (result ≡ 7) }
{
    let shape = match shape_of(k, segments, last, probes) {
        Ok(shape) => shape,
        Err(fault) => return shape_status(fault),
    };
    if passes.len() > 64 {
        return BAD_THREADS;
    }
    match open_seats(alloc, shape, passes.len() as u32) {
        Ok(seats) => {
            let address = address_of_all(seats.as_slice());
            put_all(passes, seats, address, 0, 0);
            DONE
        }
        Err(fault) => open_status(fault),
    }
}
