//! Opening a queue of owned payloads, or of cells, that does not wear out.
ghost use Rattle.std.specs.Prelude.{◌≡◌, ◌<◌, ◌≤◌, ◌*◌, ◌↔◌, All, IfOk, IsErrOf, ℕ};
ghost use Rattle.std.specs.Prelude.{false, length, map, true};
ghost use Rattle.kfifo_live.specs.Schedule.{count_up};
ghost use Rattle.kfifo_live.specs.declared.fault.OpenFault.TheVariants.{ThreadsOutOfRange, TokensOutOfRange};
ghost use Rattle.kfifo_live.specs.declared.payload.opening.TheConstants.{MOST_TOKENS};
ghost use Rattle.kfifo_words.specs.declared.word.TheConstants.{MAX_VERSION};
ghost use Rattle.kfifo_renewing.specs.History.{AreLabels, IsPlaced, opens_more, place_count};
ghost use Rattle.kfifo_renewing.specs.declared.fault.RenewFault.TheVariants.{GenerationsOutOfRange, Open};
ghost use Rattle.kfifo_renewing.specs.declared.fault.RenewFault.TheVariants.{ReserveOutOfRange};
ghost use Rattle.kfifo_renewing.specs.Renewing.{HasOne, HaveOne, OpensMore, may_open_more};
ghost use Rattle.kfifo_renewing.specs.Renewing.{HasBadGenerations, HasBadReserve, HasBadThreads};
ghost use Rattle.kfifo_renewing.specs.Renewing.{HasBadTokens, IsOfLineage, IsPlan, OpensOrRefuses};
ghost use Rattle.kfifo_renewing.specs.Renewing.{generations_for};
ghost use Rattle.kfifo_renewing.specs.Renewing.{opening_again, opening_with};
ghost use Rattle.kfifo_renewing.specs.Renewing.{sizes_again};
ghost use Rattle.kfifo_renewing.specs.declared.queue.TheConstants.{DEFAULT_RESERVE};

use crate::fault::{CapacityFault, RenewFault};
use crate::generation::Generation;
use crate::handle::RenewingHandle;
use crate::history::{First, History, Numbers};
use crate::joined::Joined;
use crate::kind::{Cells, Kind};
use crate::label::{Label, PLACES};
use crate::memory::CellLayout;
use crate::queue::{DEFAULT_RESERVE, Plan, Renewals, Shared, open_parts, share};
use kfifo_live::{MOST_TOKENS, OpenFault, Sizes};
use kfifo_model::MAX_THREADS;
use kfifo_pool::PooledQueue;
use kfifo_words::MAX_VERSION;
use std::alloc::{AllocError, Global};
use std::sync::Arc;

/// How many generations a queue for so many threads may have at the same time because it grows, at most. It has places
/// for so many, and for those that its threads may keep.
fn most_generations(threads: u32) -> u32
    requires { threads ≤ MAX_THREADS }
    ensures { result ≡ generations_for threads }
{
    PLACES - 1 - 2 * threads
}

/// The handle of this thread, which has joined the first generation.
fn join_first<T: Drop, K: Kind<T>>(
    alloc: Global,
    shared: &Arc<Shared<T>, Global>,
    generation: &Arc<Generation<T>, Global>,
    place: usize,
    seen: &History,
    thread: u32,
) -> Result<RenewingHandle<T, K>, AllocError>
    requires bare { shared.now.value.bare ≡ K.bare }
    requires of { IsOfLineage shared.now.value generation.now.value }
    requires first { generation.now.value.number ≡ 0 }
    requires there { (seen.now.book ≡ generation.now.value.book) × (place < place_count)
        × IsPlaced seen.now.log 0 place }
    ensures one { IfOk result (HasOne generation.now.value.queue generation.now.value.book) }
    ensures thread { IfOk result (λ h. h.thread ≡ thread) }
    ensures more { IfOk result (λ h. opens_more h.seen ≡ opens_more generation.now.value.seen) }
{
    let generation = Arc::try_clone(generation)?;
    let mut history = seen.again();
    history.learn(generation.history());
    let part = Arc::try_clone(&generation)?;
    let joined = Joined::join(part, place, thread).ok_or(AllocError)?;
    let shared = Arc::try_clone(shared)?;
    RenewingHandle::new(alloc, shared, history, generation, joined, thread)
}

/// A handle for each of the threads, which has joined the first generation.
fn join_all<T: Drop, K: Kind<T>>(
    alloc: Global,
    generation: Generation<T>,
    numbers: Numbers,
    labels: Vec<Label>,
    plan: Plan,
) -> Result<Vec<RenewingHandle<T, K>>, AllocError>
    requires plan { IsPlan plan.sizes plan.renewals }
    requires of { generation.queue.opened ≡ opening_with K.bare plan.sizes }
    requires numbers { (numbers ≡ generation.book) × AreLabels numbers labels.items }
    requires first { generation.number ≡ 0 }
    requires more { opens_more generation.seen ≡ may_open_more plan.renewals }
    ensures each { IfOk result (λ handles. All (HasOne generation.queue generation.book) handles.items) }
    ensures more { IfOk result (λ handles. OpensMore (may_open_more plan.renewals) handles.items) }
    ensures threads { IfOk result (λ handles. map (λ h. h.thread) handles.items ≡ count_up 0 plan.sizes.threads) }
    ensures count { IfOk result (λ handles. length handles.items ≡ plan.sizes.threads) }
{
    let generation = Arc::new(alloc, generation)?;
    let (shared, place, seen) = share(alloc, &generation, numbers, labels, K::is_bare(), plan)?;
    let threads = plan.sizes.threads;
    let mut handles = Vec::with_capacity(alloc, threads as usize)?;
    for thread in 0..threads {
        let handle = join_first(alloc, &shared, &generation, place, &seen, thread)?;
        handles.push(handle)?;
    }
    Ok(handles)
}

/// Opens the first generation, and joins it. All sizes were tested.
fn open_first<T: Drop, K: Kind<T>>(
    alloc: Global,
    plan: Plan,
) -> Result<Vec<RenewingHandle<T, K>>, AllocError>
    requires plan { IsPlan plan.sizes plan.renewals }
    ensures one { IfOk result (λ handles. HaveOne (opening_with K.bare plan.sizes) handles.items
        × (length handles.items ≡ plan.sizes.threads)) }
    ensures more { IfOk result (λ handles. OpensMore (may_open_more plan.renewals) handles.items) }
{
    let (queue, waiting, memory) = open_parts::<T, K>(alloc, &plan.sizes, plan.layout)?;
    let first = First {
        queue,
        opens_more: plan.renewals.opens_more(),
    };
    let (numbers, labels, next, history) = Numbers::open(alloc, &first)?;
    let First { queue, .. } = first;
    let generation = Generation::new(alloc, queue, waiting, next, history, memory)?;
    let handles = join_all(alloc, generation, numbers, labels, plan)?;
    Ok(handles)
}

/// These sizes, with enqueues that hold again.
fn hold_again(sizes: Sizes) -> Sizes
    ensures { result ≡ sizes_again sizes }
{
    Sizes {
        shape: sizes.shape.holding_again(),
        threads: sizes.threads,
        tokens: sizes.tokens,
    }
}

/// Tests what a queue is opened with. The first fault is returned.
fn test_sizes(sizes: &Sizes, renewals: &Renewals) -> Result<(), RenewFault>
    ensures ok { IfOk result (λ _. IsPlan sizes.now renewals.now × (renewals.now.reserve < sizes.now.shape.last)) }
    ensures reserve { IsErrOf result ReserveOutOfRange ↔ HasBadReserve sizes.now renewals.now }
    ensures threads { IsErrOf result (Open ThreadsOutOfRange) ↔ HasBadThreads sizes.now renewals.now }
    ensures tokens { IsErrOf result (Open TokensOutOfRange) ↔ HasBadTokens sizes.now renewals.now }
    ensures generations { (most : ℕ) → IsErrOf result (GenerationsOutOfRange most)
        ↔ HasBadGenerations most sizes.now renewals.now }
{
    if renewals.reserve >= sizes.shape.last() {
        return Err(RenewFault::ReserveOutOfRange);
    }
    if sizes.threads == 0 || sizes.threads > MAX_THREADS {
        return Err(RenewFault::Open(OpenFault::ThreadsOutOfRange));
    }
    let tokens = u64::from(sizes.threads) * u64::from(sizes.tokens);
    if sizes.tokens == 0 || tokens > u64::from(MOST_TOKENS) {
        return Err(RenewFault::Open(OpenFault::TokensOutOfRange));
    }
    let most = most_generations(sizes.threads);
    if renewals.generations == 0 || renewals.generations > most {
        return Err(RenewFault::GenerationsOutOfRange(most));
    }
    Ok(())
}

/// Tests the sizes, and opens a queue with them.
fn open_tested<T: Drop, K: Kind<T>>(
    alloc: Global,
    sizes: Sizes,
    layout: CellLayout,
    renewals: Renewals,
) -> Result<Vec<RenewingHandle<T, K>>, RenewFault>
    ensures ok { IfOk result (λ handles. HaveOne (opening_with K.bare (sizes_again sizes)) handles.items
        × (length handles.items ≡ sizes.threads)) }
    ensures more { IfOk result (λ handles. OpensMore (may_open_more renewals) handles.items) }
    ensures reserve { IsErrOf result ReserveOutOfRange ↔ HasBadReserve sizes renewals }
    ensures threads { IsErrOf result (Open ThreadsOutOfRange) ↔ HasBadThreads sizes renewals }
    ensures tokens { IsErrOf result (Open TokensOutOfRange) ↔ HasBadTokens sizes renewals }
    ensures generations { (most : ℕ) → IsErrOf result (GenerationsOutOfRange most)
        ↔ HasBadGenerations most sizes renewals }
{
    if let Err(fault) = test_sizes(&sizes, &renewals) {
        return Err(fault);
    }
    let plan = Plan {
        sizes: hold_again(sizes),
        layout,
        renewals,
    };
    match open_first(alloc, plan) {
        Ok(handles) => Ok(handles),
        Err(_) => Err(RenewFault::Open(OpenFault::Memory)),
    }
}

/// Opens a queue of owned payloads that does not wear out, with these sizes, and returns a handle for each thread.
/// `open` finds the sizes by a capacity.
///
/// Its first generation is a queue with a pool of tokens, as `PooledQueue::open_with_payloads` opens it. Its shape is
/// that of the sizes with enqueues that hold again, whatever it says of that: with more segments than threads the queue
/// is then lock-free. Each later one is opened like it, when `renewals` says. A handle keeps up to `SPARE_TOKENS`
/// tokens for itself, so a queue has room for what the threads have beyond these, as `Sizes::for_capacity` counts.
///
/// ```rust
/// let sizes = Sizes::for_capacity(16, 1_024, 4, MAX_VERSION)?; // k, capacity, threads, greatest version
/// let renewals = Renewals {
///     reserve: DEFAULT_RESERVE,
///     generations: 64, // it grows to 64 times the capacity
/// };
/// let handles = open_with::<u64>(alloc, sizes, renewals)?;
/// ```
///
/// ReserveOutOfRange where the reserve is not below the shape's greatest version; then Open with ThreadsOutOfRange
/// where the number of threads is not 1 to 64; then Open with TokensOutOfRange where each thread has no token, or all
/// together have more than 65,536; then GenerationsOutOfRange, with the greatest number, where the generations are not
/// 1 to 129 - 2 * threads; Open with Memory where an allocation failed. Nothing is kept after a refusal.
pub fn open_with<T: Drop>(
    alloc: Global,
    sizes: Sizes,
    renewals: Renewals,
) -> Result<Vec<RenewingHandle<T>>, RenewFault>
    ensures ok { IfOk result (λ handles. HaveOne (opening_again sizes) handles.items
        × (length handles.items ≡ sizes.threads)) }
    ensures more { IfOk result (λ handles. OpensMore (may_open_more renewals) handles.items) }
    ensures reserve { IsErrOf result ReserveOutOfRange ↔ HasBadReserve sizes renewals }
    ensures threads { IsErrOf result (Open ThreadsOutOfRange) ↔ HasBadThreads sizes renewals }
    ensures tokens { IsErrOf result (Open TokensOutOfRange) ↔ HasBadTokens sizes renewals }
    ensures generations { (most : ℕ) → IsErrOf result (GenerationsOutOfRange most)
        ↔ HasBadGenerations most sizes renewals }
{
    open_tested(alloc, sizes, CellLayout::none(), renewals)
}

/// Opens a queue of cells that does not wear out, with these sizes, as `open_with` opens one of payloads. Each cell has
/// memory of this layout, which is made with its generation and goes with it.
///
/// Refuses what `open_with` does. Memory where that of the cells is refused, too.
pub fn open_cells_with(
    alloc: Global,
    sizes: Sizes,
    layout: CellLayout,
    renewals: Renewals,
) -> Result<Vec<RenewingHandle<(), Cells>>, RenewFault>
    ensures ok { IfOk result (λ handles. HaveOne (opening_with true (sizes_again sizes)) handles.items
        × (length handles.items ≡ sizes.threads)) }
    ensures more { IfOk result (λ handles. OpensMore (may_open_more renewals) handles.items) }
    ensures reserve { IsErrOf result ReserveOutOfRange ↔ HasBadReserve sizes renewals }
    ensures threads { IsErrOf result (Open ThreadsOutOfRange) ↔ HasBadThreads sizes renewals }
    ensures tokens { IsErrOf result (Open TokensOutOfRange) ↔ HasBadTokens sizes renewals }
    ensures generations { (most : ℕ) → IsErrOf result (GenerationsOutOfRange most)
        ↔ HasBadGenerations most sizes renewals }
{
    open_tested(alloc, sizes, layout, renewals)
}

/// Opens a queue with room for so many values.
fn open_for<T: Drop, K: Kind<T>>(
    alloc: Global,
    k: u32,
    capacity: u32,
    threads: u32,
    layout: CellLayout,
) -> Result<Vec<RenewingHandle<T, K>>, CapacityFault>
    ensures opens { OpensOrRefuses K.bare k capacity threads result }
    ensures more { IfOk result (λ handles. OpensMore true handles.items) }
{
    let sizes = match Sizes::for_capacity(k, capacity, threads, MAX_VERSION) {
        Ok(sizes) => sizes,
        Err(fault) => return Err(CapacityFault::Sizes(fault)),
    };
    let plan = Plan {
        sizes: hold_again(sizes),
        layout,
        renewals: Renewals::none(),
    };
    match open_first(alloc, plan) {
        Ok(handles) => Ok(handles),
        Err(_) => Err(CapacityFault::Memory),
    }
}

/// Opens a queue of owned payloads that does not wear out, with room for so many payloads, and returns a handle for
/// each thread.
///
/// The sizes are those of `Sizes::for_capacity`, with the greatest version that there is and `DEFAULT_RESERVE`:
/// whatever the handles keep for themselves, the queue has room for `capacity` payloads.
///
/// ```rust
/// let mut handles = open::<u64>(alloc, 4, 32, 2)?; // k, capacity, threads
/// ```
///
/// Sizes with what `Sizes::for_capacity` refuses: ThreadsOutOfRange where the number of threads is not 1 to 64;
/// KOutOfRange where k is not 1 to 64; CapacityOutOfRange, with the greatest capacity, where the capacity is 0 or
/// greater than that. Memory where an allocation failed. Nothing is kept after a refusal.
pub fn open<T: Drop>(
    alloc: Global,
    k: u32,
    capacity: u32,
    threads: u32,
) -> Result<Vec<RenewingHandle<T>>, CapacityFault>
    ensures opens { OpensOrRefuses false k capacity threads result }
    ensures more { IfOk result (λ handles. OpensMore true handles.items) }
{
    open_for(alloc, k, capacity, threads, CellLayout::none())
}

/// Opens a queue of cells that does not wear out, with room for so many cells, and returns a handle for each thread.
///
/// The sizes are those of `open`: whatever the handles keep for themselves, and with a cell in each hand, `capacity`
/// cells can be in the queue. Each cell has memory of this layout, which is made with its generation and goes with it.
/// A value is written into a cell's memory between `reserve` and `publish`, and read between `receive` and `release`.
///
/// ```rust
/// let layout = CellLayout {
///     size: 64, // bytes
///     alignment: 64,
/// };
/// let mut handles = open_cells(alloc, 4, 32, 2, layout)?; // k, capacity, threads
/// let (Some(mut taker), Some(mut giver)) = (handles.pop(), handles.pop()) else {
///     unreachable!()
/// };
/// let reserved = giver.reserve(); // Some: where the cell lies. It is this handle's alone
/// let given = giver.publish(); // Done
/// let received = taker.receive(); // Got: where that cell lies
/// let released = taker.release(); // Done
/// let left = close_cells(alloc, vec![in alloc; giver, taker]?)?.left; // the cells that are left: none
/// ```
///
/// Refuses what `open` does. Memory where that of the cells is refused, too.
pub fn open_cells(
    alloc: Global,
    k: u32,
    capacity: u32,
    threads: u32,
    layout: CellLayout,
) -> Result<Vec<RenewingHandle<(), Cells>>, CapacityFault>
    ensures opens { OpensOrRefuses true k capacity threads result }
    ensures more { IfOk result (λ handles. OpensMore true handles.items) }
{
    open_for(alloc, k, capacity, threads, layout)
}
