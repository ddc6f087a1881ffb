//! Worker threads run tasks that they give to each other through one queue.
ghost use Rattle.std.specs.Prelude.{◌≡◌, ◌+◌, ◌<◌, ◌≤◌, ◌⊎◌, ◌↔◌, ◌++◌, All, IfOk, IsErrOf, IsOk, flat_map};
ghost use Rattle.std.specs.Prelude.{length, map};
ghost use Rattle.std.specs.List.{AllByRecursion};
ghost use Rattle.kfifo_live.specs.Pass.{IsPassOf, IsSamePass};
ghost use Rattle.kfifo_dispatch.specs.declared.fault.DispatchFault.TheVariants.{RepeatedId, TooManyTasks};
ghost use Rattle.kfifo_dispatch.specs.declared.fault.DispatchFault.TheVariants.{WorkersOutOfRange};
ghost use Rattle.kfifo_dispatch.specs.Tasks.{HasRepeatedId, IsFinishedList};
ghost use Rattle.kfifo_dispatch.specs.Running.{AreEach, GivesAll, Runs};
ghost use Rattle.kfifo_dispatch.specs.Working.{CallerTells, HasRun, IsOpened, PassRuns, TellsOf, places_of};

use crate::fault::DispatchFault;
use crate::finishing::finish;
use crate::job::{Done, Job, Tasks};
use crate::repeats::has_repeated_id;
use crate::starts::Starts;
use crate::station::Station;
use crate::task::{Finished, Task};
use crate::work_gate::WorkGate;
use crate::worker::{Back, Worker, keep, work_off_refused};
use kfifo_live::{OpenFault, PayPass, PayQueue};
use kfifo_words::Shape;
use std::alloc::{AllocError, Global};
use std::marker::Brand;
use std::thread::{Threads, map_vec};

/// The greatest number of tasks of a dispatch.
pub const MAX_TASKS: usize = 1_024;

/// The greatest number of workers of a dispatch.
pub const MAX_WORKERS: u32 = 63;

/// Runs the tasks on worker threads that share one queue of this shape, and returns the finished list: each task once,
/// in the order of their ids, with its sum and all its work added up. One thread would return the same list, whatever
/// the threads do.
///
/// ```rust
/// let shape = Shape::new(2, 16, MAX_VERSION)?; // k, segments, greatest version
/// let list = dispatch(&rt, alloc, tasks.as_slice(), 4, shape, 0, &OpenGate)?; // 4 workers, seed 0
/// ```
///
/// The caller gives the tasks to the queue in their order. Each worker takes one, does a unit of work on it, and gives
/// it back while work is left. Worker w, from 1, draws the starts of its calls from `Starts::new(seed, w, k)`, and
/// passes the gate before each call to take. It ends where the queue is empty, where a version is used up, or after
/// 65,536 calls to take. A worker finishes itself each task that the queue refuses to take back. The caller finishes
/// what is left when all have ended. The dispatch returns if the gate's calls return.
///
/// Refuses: TooManyTasks where there are over 1,024; then RepeatedId where two have one id; then WorkersOutOfRange
/// where the number of workers is not 1 to 63; Memory where an allocation failed. After a refusal nothing is kept, and
/// all workers that were started have ended.
pub fn dispatch<R: Threads + Sync, G: WorkGate + Sync>(
    threads: &R,
    alloc: Global,
    tasks: &[Task],
    workers: u32,
    shape: Shape,
    seed: u64,
    gate: &G,
) -> Result<Vec<Finished>, DispatchFault>
    ensures ok { IfOk result (λ list. IsFinishedList tasks.now list.items) }
    ensures run { IfOk result (λ _. HasRun (G.passed gate.now) (G.told gate.now) shape workers seed tasks.now) }
    ensures many { IsErrOf result TooManyTasks ↔ (1024 < length tasks.now) }
    ensures repeated { IsErrOf result RepeatedId ↔ ((length tasks.now ≤ 1024) × HasRepeatedId tasks.now) }
    ensures workers { IsErrOf result WorkersOutOfRange
        ↔ ((length tasks.now ≤ 1024) × (HasRepeatedId tasks.now → ⊥) × ((workers ≡ 0) ⊎ (63 < workers))) }
{
    if tasks.len() > MAX_TASKS {
        return Err(DispatchFault::TooManyTasks);
    }
    if has_repeated_id(tasks) {
        return Err(DispatchFault::RepeatedId);
    }
    if workers == 0 || workers > MAX_WORKERS {
        return Err(DispatchFault::WorkersOutOfRange);
    }
    let list = work_off::<Brand, R, G>(threads, alloc, tasks, workers, shape, seed, gate)?;
    Ok(list)
}

/// Runs tasks that a dispatch admits.
fn work_off<L: Tasks + Send + Sync, R: Threads + Sync, G: WorkGate + Sync>(
    threads: &R,
    alloc: Global,
    tasks: &[Task],
    workers: u32,
    shape: Shape,
    seed: u64,
    gate: &G,
) -> Result<Vec<Finished>, AllocError>
    requires tasks { L.tasks ≡ tasks.now }
    requires few { length tasks.now ≤ MAX_TASKS }
    requires workers { (1 ≤ workers) × (workers ≤ MAX_WORKERS) }
    ensures list { IfOk result (λ list. IsFinishedList tasks.now list.items) }
    ensures run { IfOk result (λ _. HasRun (G.passed gate.now) (G.told gate.now) shape workers seed tasks.now) }
{
    let (queue, mut own, passes) = open::<L>(alloc, shape, workers, tasks.len() as u32)?;
    let mut returned = give_all(alloc, &queue, &mut own, tasks, shape, gate)?;
    let backs = run_workers(threads, alloc, &queue, passes, shape, seed, gate)?;
    let others = collect_finished(alloc, backs, &mut returned)?;
    let Ok(left) = queue.close_with(alloc, own, others) else {
        return Err(AllocError);
    };
    finish_left(left, &mut returned, gate)?;
    finish(alloc, tasks, returned, gate)
}

/// Finishes the tasks that were left in the queue, and tells of each.
fn finish_left<L: Tasks, G: WorkGate>(
    left: Vec<Job<L>>,
    returned: &mut Vec<Done<L>>,
    gate: &G,
) -> Result<(), AllocError>
    ensures came { IfOk result (λ _. map (λ done. done.place) returned.new.items
        ≡ map (λ done. done.place) returned.old.items ++ map (λ job. job.place) left.items) }
    ensures told { IfOk result (λ _. CallerTells (G.told gate.now) L.tasks left.items) }
{
    for job in left {
        returned.push(job.work_off(0, gate))?;
    }
    Ok(())
}

/// The queue, the caller's pass, and one for each worker. Each pass has as many tokens as there are tasks, at least 1.
fn open<L: Tasks>(
    alloc: Global,
    shape: Shape,
    workers: u32,
    tasks: u32,
) -> Result<(PayQueue<Job<L>>, PayPass<Job<L>>, Vec<PayPass<Job<L>>>), AllocError>
    requires tasks { tasks ≤ MAX_TASKS }
    requires workers { (1 ≤ workers) × (workers ≤ MAX_WORKERS) }
    ensures { IfOk result (λ r. IsOpened shape workers tasks r.0 r.1 r.2.items) }
{
    match PayQueue::open(alloc, shape, workers + 1, tasks.max(1)) {
        Ok((queue, mut passes)) => {
            let own = passes.remove(0);
            Ok((queue, own, passes))
        }
        Err(OpenFault::Memory) => Err(AllocError),
        Err(
            OpenFault::ThreadsOutOfRange | OpenFault::TokensOutOfRange | OpenFault::CallsOutOfRange,
        ) => unreachable!(),
    }
}

/// Gives the tasks to the queue, in their order. The caller finishes each task that it refuses.
fn give_all<L: Tasks, G: WorkGate, P: Station<Job<L>, G>>(
    alloc: Global,
    queue: &PayQueue<Job<L>>,
    pass: &mut P,
    tasks: &[Task],
    shape: Shape,
    gate: &G,
) -> Result<Vec<Done<L>>, AllocError>
    requires tasks { L.tasks ≡ tasks.now }
    requires few { length tasks.now ≤ MAX_TASKS }
    requires of { IsPassOf queue.now (P.known pass.old) }
    requires shape { queue.now.opened.shape ≡ shape }
    ensures same { IsSamePass (P.known pass.old) (P.known pass.new) }
    ensures gives { IfOk result (λ returned. GivesAll (TellsOf (G.told gate.now) L.tasks 0) P.gives
        (shape.n + 2) 0 tasks.now pass.old pass.new (map (λ done. done.place) returned.items)) }
{
    let mut returned = Vec::new(alloc);
    for (place, task) in tasks.iter().enumerate() {
        let job = Job::new(place as u16, task.id, task.left, task.sum);
        let given = pass.give(queue, job, 0, turns(shape));
        keep(&mut returned, work_off_refused(given, 0, gate))?;
    }
    Ok(returned)
}

/// The rounds of each call: n + 2, so that a call is Busy only by another thread's doing.
fn turns(shape: Shape) -> u16
    ensures { result ≡ shape.n + 2 }
{
    (shape.n() + 2) as u16
}

/// Runs a worker with each pass, on threads that all have ended when it returns.
fn run_workers<L: Tasks + Send + Sync, R: Threads + Sync, G: WorkGate + Sync>(
    threads: &R,
    alloc: Global,
    queue: &PayQueue<Job<L>>,
    passes: Vec<PayPass<Job<L>>>,
    shape: Shape,
    seed: u64,
    gate: &G,
) -> Result<Vec<Back<L, PayPass<Job<L>>>>, AllocError>
    requires of { All (λ pass. IsPassOf queue.now pass.pass) passes.items }
    requires shape { queue.now.opened.shape ≡ shape }
    ensures of { IfOk result (λ backs. All (λ back. IsPassOf queue.now back.pass.pass) backs.items) }
    ensures run { IfOk result (λ backs. AreEach (λ pass back. IfOk back.kept (λ kept.
        PassRuns (G.passed gate.now) (G.told gate.now) L.tasks shape seed pass back.pass
        (map (λ done. done.place) kept.items))) passes.items backs.items) }
{
    let backs = map_vec(
        threads,
        passes,
        &|pass: PayPass<Job<L>>|
            requires of { IsPassOf queue.now pass.pass }
            requires shape { queue.now.opened.shape ≡ shape }
            ensures same { IsSamePass pass.pass result.pass.pass }
            ensures runs { IfOk result.kept (λ kept. PassRuns (G.passed gate.entry.now)
                (G.told gate.entry.now) L.tasks shape seed pass result.pass (map (λ done. done.place) kept.items)) }
        { run_one(alloc, queue, pass, shape, seed, gate) },
    )?;
    Ok(backs)
}

/// Runs the worker that has this pass.
fn run_one<L: Tasks, G: WorkGate>(
    alloc: Global,
    queue: &PayQueue<Job<L>>,
    pass: PayPass<Job<L>>,
    shape: Shape,
    seed: u64,
    gate: &G,
) -> Back<L, PayPass<Job<L>>>
    requires of { IsPassOf queue.now pass.pass }
    requires shape { queue.now.opened.shape ≡ shape }
    ensures same { IsSamePass pass.pass result.pass.pass }
    ensures runs { IfOk result.kept (λ kept. PassRuns (G.passed gate.now) (G.told gate.now) L.tasks shape seed
        pass result.pass (map (λ done. done.place) kept.items)) }
{
    run_at_station(alloc, queue, pass, shape, seed, gate)
}

/// Runs the worker of this station, with the starts of its number.
fn run_at_station<L: Tasks, G: WorkGate, P: Station<Job<L>, G> + Drop>(
    alloc: Global,
    queue: &PayQueue<Job<L>>,
    pass: P,
    shape: Shape,
    seed: u64,
    gate: &G,
) -> Back<L, P>
    requires of { IsPassOf queue.now (P.known pass) }
    requires shape { queue.now.opened.shape ≡ shape }
    ensures same { IsSamePass (P.known pass) (P.known result.pass) }
    ensures runs { IfOk result.kept (λ kept. Runs (P.passes gate.now)
        (λ s. TellsOf (G.told gate.now) L.tasks (P.known s).thread) P.takes P.gives shape seed (P.known pass).thread
        pass result.pass (map (λ done. done.place) kept.items)) }
{
    let starts = Starts::new(seed, pass.worker(), shape.k());
    let turns = turns(shape);
    let worker = Worker {
        pass,
        starts,
        turns,
    };
    worker.run(alloc, queue, gate)
}

/// Gathers what the workers finished, and returns their passes.
fn collect_finished<L: Tasks>(
    alloc: Global,
    backs: Vec<Back<L, PayPass<Job<L>>>>,
    returned: &mut Vec<Done<L>>,
) -> Result<Vec<PayPass<Job<L>>>, AllocError>
    ensures all { IfOk result (λ _. AllByRecursion (λ back. IsOk back.kept) backs.items) }
    ensures passes { IfOk result (λ passes. passes.items ≡ map (λ back. back.pass) backs.items) }
    ensures came { IfOk result (λ _. map (λ done. done.place) returned.new.items
        ≡ map (λ done. done.place) returned.old.items ++ flat_map (λ back. places_of back.kept) backs.items) }
{
    let mut passes = Vec::with_capacity(alloc, backs.len())?;
    for back in backs {
        let Back { pass, kept } = back;
        passes.push(pass)?;
        for done in kept? {
            returned.push(done)?;
        }
    }
    Ok(passes)
}
