//! Opening a queue.
ghost use Rattle.std.specs.Prelude.{◌≡◌, ◌<◌, ◌≤◌, ◌+◌, [], IfOk, IsErrOf, length, All};
ghost use Rattle.kfifo_live.specs.declared.stamped.TheConstants.{MAX_STAMPED_CALLS};
ghost use Rattle.kfifo_linear.specs.Headline.{HasLegalOrder, FewOvertake, FewCertainlyOvertake};
ghost use Rattle.kfifo_live.specs.Schedule.{IsSmall, opening, stamped_opening, fresh, view_of};
ghost use Rattle.kfifo_live.specs.Pass.{IsZeroed, queue_of, new_passes, IsPassOf};
ghost use Rattle.kfifo_live.specs.Refusals.{RefusesThreads};
ghost use Rattle.kfifo_live.specs.declared.fault.OpenFault.TheVariants.{CallsOutOfRange, TokensOutOfRange};

use crate::fault::OpenFault;
use crate::queue::{Pass, Queue};
use crate::seats::give_rest;
use crate::view::{Opening, ThreadSeat, Words};
use atomic_table::Table;
use kfifo_machine::MAX_THREADS;
use kfifo_words::Shape;
use std::alloc::{AllocError, Global};

/// A pass for each thread, which has seen nothing.
fn deal(
    alloc: Global,
    shared: &Words<()>,
    mut seat: ThreadSeat<()>,
    threads: u32,
) -> Result<Vec<Pass>, AllocError>
    requires table { (seat.table_id ≡ shared.now.table_id) × (0 < shared.now.table_id.words) }
    requires few { IsSmall seat.me.0.opened }
    requires seat { (seat.me.1 ≡ []) × (seat.me.0 ≡ view_of seat.me.0.opened (fresh seat.me.0.opened.tokens 0 threads))
        × (seat.me.0.opened.threads ≡ threads) }
    ensures { IfOk result (λ ps. ps.items ≡ new_passes (queue_of seat.table_id seat.me.0.opened) 0 threads) }
{
    let mut passes = Vec::with_capacity(alloc, threads as usize)?;
    for thread in 0..threads {
        let rest = give_rest(shared, &mut seat);
        passes.push(Pass { thread, seat })?;
        seat = rest;
    }
    Ok(passes)
}

impl Queue {
    /// A queue for so many stamped calls of each pass, and its passes.
    pub(crate) fn open_for(
        alloc: Global,
        shape: Shape,
        threads: u32,
        calls: u32,
    ) -> Result<(Queue, Vec<Pass>), AllocError>
        requires threads { (0 < threads) × (threads ≤ MAX_THREADS) }
        requires calls { calls ≤ MAX_STAMPED_CALLS }
        ensures { IfOk result (λ r. (r.0.opened ≡ stamped_opening shape threads calls)
            × (r.1.items ≡ new_passes r.0 0 threads)) }
    {
        let words = vec![in alloc; 0; 2 + shape.n() as usize * shape.k() as usize]?;
        let about = Opening {
            shape,
            threads,
            calls,
            tokens: 0,
            bare: false,
        };
        let (table, seat) = Table::of_words(alloc, words.as_slice(), &about)?;
        let passes = deal(alloc, &table.shared, seat, threads)?;
        let queue = Queue {
            table,
            shape,
            threads,
            calls,
        };
        Ok((queue, passes))
    }

    /// Opens a queue, with one pass for each thread, numbered from 0. The passes have seen the empty schedule, after
    /// which all words are 0.
    ///
    /// ```rust
    /// let shape = Shape::new(4, 256, MAX_VERSION)?; // k, segments, greatest version
    /// let (queue, mut passes) = Queue::open(alloc, shape, 1)?; // one pass for each thread
    /// ```
    ///
    /// Refuses: ThreadsOutOfRange where the number of threads is not 1 to 64; Memory where an allocation failed.
    /// Nothing is kept after a refusal.
    ///
    /// Every schedule of such a queue, and so what any of its passes will have seen, has a legal
    /// order of its calls; in it, where the items are distinct, none is overtaken k times.
    pub fn open(alloc: Global, shape: Shape, threads: u32) -> Result<(Queue, Vec<Pass>), OpenFault>
        ensures ok { IfOk result (λ r. (r.0.opened ≡ opening shape threads) × (r.1.items ≡ new_passes r.0 0 threads)) }
        ensures of { IfOk result (λ r. All (IsPassOf r.0) r.1.items) }
        ensures threads { RefusesThreads threads result }
        ensures tokens { ¬ IsErrOf result TokensOutOfRange }
        ensures calls { ¬ IsErrOf result CallsOutOfRange }
        ensures zeroed { IfOk result (λ r. IsZeroed r.0.opened) }
        ensures legal { IfOk result (λ r. HasLegalOrder shape threads) }
        ensures few_overtake { IfOk result (λ r. FewOvertake shape threads) }
        ensures few_certainly_overtake { IfOk result (λ r. FewCertainlyOvertake shape threads) }
    {
        if threads == 0 || threads > MAX_THREADS {
            return Err(OpenFault::ThreadsOutOfRange);
        }
        let opened = Queue::open_for(alloc, shape, threads, 0)?;
        Ok(opened)
    }
}
