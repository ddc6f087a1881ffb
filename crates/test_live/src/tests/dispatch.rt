//! What no contract says of a dispatch: that workers do the work, and do it at the same time.

ghost use Rattle.std.specs.Prelude.{◌<◌};

use super::plain::dispatch;
use super::wait_until;
use kfifo_dispatch::{DispatchFault, Finished, Gate, OpenGate, Starts, Task, WorkGate};
use kfifo_words::{MAX_VERSION, Shape};
use std::alloc::{AllocError, Global};
use std::process::Abort;
use std::sync::atomic::{AtomicU64, Ordering};
use std::test::Fail;
use std::thread::Threads;
use std::time::Instant;

fn task(id: u32, left: u16, sum: u32) -> Task {
    Task { id, left, sum }
}

fn finished(id: u32, sum: u64) -> Finished {
    Finished { id, sum }
}

/// So many workers come to this finished list.
fn check_finished<R: Threads + Abort + Sync>(
    rt: &R,
    alloc: Global,
    tasks: &[Task],
    workers: u32,
    list: &[Finished],
) -> Result<(), Fail> {
    let shape = Shape::new(2, 2, MAX_VERSION)?;
    let done = dispatch(rt, alloc, tasks, workers, shape, &OpenGate)?;
    assert_eq!(rt; done.as_slice(), list);
    Ok(())
}

#[test]
fn finishes_all_tasks(rt: HostRuntime) -> Result<(), Fail> {
    let alloc = rt.alloc();
    check_finished(&rt, alloc, &[], 2, &[])?;
    check_finished(&rt, alloc, &[task(4, 3, 0)], 8, &[finished(4, 6)])?;
    let two = [task(9, 0, 5), task(2, 1, 1)];
    check_finished(&rt, alloc, &two, 2, &[finished(2, 2), finished(9, 5)])?;
    let long = [task(1, 65_535, 4_294_967_295)];
    check_finished(&rt, alloc, &long, 63, &[finished(1, 6_442_418_175)])
}

/// These tasks and workers are refused for this.
fn check_refusal<R: Threads + Abort + Sync>(
    rt: &R,
    alloc: Global,
    tasks: &[Task],
    workers: u32,
    fault: DispatchFault,
) -> Result<(), Fail> {
    let shape = Shape::new(2, 2, MAX_VERSION)?;
    let Err(refused) = dispatch(rt, alloc, tasks, workers, shape, &OpenGate) else {
        panic!(rt; "dispatched {} tasks", tasks.len());
    };
    assert_eq!(rt; refused, fault);
    Ok(())
}

#[test]
fn refuses_in_the_stated_order(rt: HostRuntime) -> Result<(), Fail> {
    let alloc = rt.alloc();
    let many = vec![in alloc; task(7, 1, 0); 1_025]?;
    check_refusal(&rt, alloc, many.as_slice(), 64, DispatchFault::TooManyTasks)?;
    let twice = [task(4, 3, 0), task(4, 1, 0)];
    check_refusal(&rt, alloc, &twice, 64, DispatchFault::RepeatedId)?;
    let apart = [task(4, 3, 0), task(5, 1, 0)];
    check_refusal(&rt, alloc, &apart, 64, DispatchFault::WorkersOutOfRange)?;
    check_refusal(&rt, alloc, &apart, 0, DispatchFault::WorkersOutOfRange)
}

/// Counts the units that each of some workers did, and can hold one of them back.
#[derive(Drop)]
struct Counting {
    units: [AtomicU64; 3],
    gave_up: AtomicU64,
    /// Worker 1 waits until worker 2 has done so many units.
    held: u64,
}

impl Counting {
    fn new(held: u64) -> Counting {
        Counting {
            units: [AtomicU64::new(0), AtomicU64::new(0), AtomicU64::new(0)],
            gave_up: AtomicU64::new(0),
            held,
        }
    }

    /// Waits until the count has come so far.
    fn wait_for(&self, count: &AtomicU64, most: u64) {
        if !wait_until(count, most) {
            self.gave_up.fetch_add(1, Ordering::SeqCst);
        }
    }
}

impl Gate for Counting {
    fn pass(&self, worker: u32, call: u32) {
        if worker == 1 && call == 1 {
            self.wait_for(&self.units[2], self.held);
        }
    }
}

impl WorkGate for Counting {
    fn unit(&self, worker: u32, _id: u32) {
        if let Some(own) = self.units.get(worker as usize) {
            own.fetch_add(1, Ordering::SeqCst);
        }
    }
}

/// Lets no worker take a task before all have come, and counts the units of the caller and of the workers.
#[derive(Drop)]
struct Meeting {
    /// The sum of 2^w for each worker w that is to come.
    wanted: u64,
    came: AtomicU64,
    gave_up: AtomicU64,
    by_caller: AtomicU64,
    by_workers: AtomicU64,
}

impl Meeting {
    /// Workers 1 to `workers`, 63 at most, are to come.
    fn of(workers: u32) -> Meeting {
        let most = u64::MAX.wrapping_shr(63u32.wrapping_sub(workers));
        Meeting {
            wanted: most & !1,
            came: AtomicU64::new(0),
            gave_up: AtomicU64::new(0),
            by_caller: AtomicU64::new(0),
            by_workers: AtomicU64::new(0),
        }
    }
}

impl Gate for Meeting {
    fn pass(&self, worker: u32, call: u32) {
        if call != 1 {
            return;
        }
        self.came
            .fetch_add(1u64.wrapping_shl(worker), Ordering::SeqCst);
        // Where a worker passes its first call twice, more come than are wanted.
        if !wait_until(&self.came, self.wanted) || self.came.load(Ordering::SeqCst) != self.wanted {
            self.gave_up.fetch_add(1, Ordering::SeqCst);
        }
    }
}

impl WorkGate for Meeting {
    fn unit(&self, worker: u32, _id: u32) {
        let units = if worker == 0 {
            &self.by_caller
        } else {
            &self.by_workers
        };
        units.fetch_add(1, Ordering::SeqCst);
    }
}

/// So many workers wait for each other before they take their first tasks, and do all units of two tasks for each.
fn check_meeting<R: Threads + Abort + Sync>(
    rt: &R,
    alloc: Global,
    workers: u32,
) -> Result<(), Fail> {
    let shape = Shape::new(2, 64, MAX_VERSION)?;
    let gate = Meeting::of(workers);
    let mut tasks = Vec::new(alloc);
    for id in 0..workers.wrapping_mul(2) {
        tasks.push(task(id, 3, 0))?;
    }
    let done = dispatch(rt, alloc, tasks.as_slice(), workers, shape, &gate)?;
    assert_eq!(rt; done.len(), tasks.len());
    assert!(rt; done.iter().all(|each| each.sum == 6));
    assert_eq!(rt; gate.gave_up.load(Ordering::SeqCst), 0);
    assert_eq!(rt; gate.by_caller.load(Ordering::SeqCst), 0);
    let units = u64::from(workers).wrapping_mul(6);
    assert_eq!(rt; gate.by_workers.load(Ordering::SeqCst), units);
    Ok(())
}

/// As many workers as were asked for run at the same time, and they do the work, not the caller.
#[test]
fn workers_run_at_the_same_time(rt: HostRuntime) -> Result<(), Fail> {
    for workers in &[1u32, 5, 63] {
        check_meeting(&rt, rt.alloc(), *workers)?;
    }
    Ok(())
}

/// While worker 1 is held back, worker 2 does all units of both tasks.
#[test]
fn one_worker_does_the_work_of_another(rt: HostRuntime) -> Result<(), Fail> {
    let shape = Shape::new(2, 2, MAX_VERSION)?;
    let gate = Counting::new(4);
    let tasks = [task(1, 2, 0), task(2, 2, 0)];
    let done = dispatch(&rt, rt.alloc(), tasks.as_slice(), 2, shape, &gate)?;
    assert_eq!(rt;
        done.as_slice(),
        [finished(1, 3), finished(2, 3)].as_slice()
    );
    assert_eq!(rt; gate.gave_up.load(Ordering::SeqCst), 0);
    assert_eq!(rt; gate.units[2].load(Ordering::SeqCst), 4);
    Ok(())
}

/// The units in the order in which they were done, as digits of a number: the worker's, and the task's.
#[derive(Drop)]
struct Order {
    workers: AtomicU64,
    tasks: AtomicU64,
}

impl Gate for Order {
    fn pass(&self, _worker: u32, _call: u32) {}
}

impl WorkGate for Order {
    fn unit(&self, worker: u32, id: u32) {
        let workers = self.workers.load(Ordering::SeqCst);
        let next = workers.wrapping_mul(10).wrapping_add(u64::from(worker));
        self.workers.store(next, Ordering::SeqCst);
        let tasks = self.tasks.load(Ordering::SeqCst);
        let next = tasks.wrapping_mul(10).wrapping_add(u64::from(id));
        self.tasks.store(next, Ordering::SeqCst);
    }
}

/// One worker on a ring of two slots does a unit of each task in turn.
#[test]
fn tasks_go_round(rt: HostRuntime) -> Result<(), Fail> {
    let shape = Shape::new(1, 2, MAX_VERSION)?;
    let order = Order {
        workers: AtomicU64::new(0),
        tasks: AtomicU64::new(0),
    };
    let tasks = [task(1, 2, 0), task(2, 1, 0)];
    let done = dispatch(&rt, rt.alloc(), tasks.as_slice(), 1, shape, &order)?;
    assert_eq!(rt;
        done.as_slice(),
        [finished(1, 3), finished(2, 1)].as_slice()
    );
    assert_eq!(rt; order.workers.load(Ordering::SeqCst), 111);
    assert_eq!(rt; order.tasks.load(Ordering::SeqCst), 121);
    Ok(())
}

/// The first of four slots that is filled, from the start on and round the segment.
fn first_filled(is_there: &[bool; 4], start: u32) -> usize
    ensures { result < 4 }
{
    let mut slot = start as usize;
    for _look in 0..4u32 {
        if is_there[slot % 4] {
            break;
        }
        slot = slot.wrapping_add(1);
    }
    slot % 4
}

/// The order in which one worker takes four tasks from a segment of four slots, by the starts of a seed, as digits of a
/// number.
fn order_of_starts(seed: u64) -> u64 {
    let mut starts = Starts::new(seed, 1, 4);
    let mut is_there = [true; 4];
    let mut order = 0u64;
    for _take in 0..4u32 {
        let slot = first_filled(&is_there, starts.draw());
        is_there[slot] = false;
        order = order
            .wrapping_mul(10)
            .wrapping_add(slot as u64)
            .wrapping_add(1);
    }
    order
}

/// The order in which one worker does four tasks of one unit, as digits of a number.
fn order_of_tasks<R: Threads + Sync>(rt: &R, alloc: Global, seed: u64) -> Result<u64, Fail> {
    let shape = Shape::new(4, 2, MAX_VERSION)?;
    let tasks = [task(1, 1, 0), task(2, 1, 0), task(3, 1, 0), task(4, 1, 0)];
    let order = Order {
        workers: AtomicU64::new(0),
        tasks: AtomicU64::new(0),
    };
    kfifo_dispatch::dispatch(rt, alloc, tasks.as_slice(), 1, shape, seed, &order)?;
    Ok(order.tasks.load(Ordering::SeqCst))
}

/// One worker takes tasks in the order that its starts give: each time the first that is there from the start on, round
/// the segment.
#[test]
fn the_seed_picks_the_starts(rt: HostRuntime) -> Result<(), Fail> {
    for seed in &[0, 1, 7, 9_223_372_036_854_775_808u64] {
        let order = order_of_tasks(&rt, rt.alloc(), *seed)?;
        assert_eq!(rt; order, order_of_starts(*seed));
    }
    Ok(())
}

/// The caller, who is worker 0, finishes a task that the queue refuses.
#[test]
fn the_caller_works_off_what_is_refused(rt: HostRuntime) -> Result<(), Fail> {
    let shape = Shape::new(1, 2, MAX_VERSION)?;
    let gate = Counting::new(0);
    let tasks = [task(1, 2, 0), task(2, 3, 0), task(3, 4, 0)];
    let done = dispatch(&rt, rt.alloc(), tasks.as_slice(), 1, shape, &gate)?;
    let list = [finished(1, 3), finished(2, 6), finished(3, 10)];
    assert_eq!(rt; done.as_slice(), list.as_slice());
    assert_eq!(rt; gate.units[0].load(Ordering::SeqCst), 4);
    assert_eq!(rt; gate.units[1].load(Ordering::SeqCst), 5);
    Ok(())
}

/// A worker ends after 65,536 takes, and the caller finishes what is left in the queue.
#[test]
fn a_worker_takes_so_often_at_most(rt: HostRuntime) -> Result<(), Fail> {
    let shape = Shape::new(2, 2, MAX_VERSION)?;
    let gate = Counting::new(0);
    let tasks = [task(1, 65_535, 0), task(2, 65_535, 0)];
    let done = dispatch(&rt, rt.alloc(), tasks.as_slice(), 1, shape, &gate)?;
    let sum = 2_147_450_880;
    assert_eq!(rt;
        done.as_slice(),
        [finished(1, sum), finished(2, sum)].as_slice()
    );
    assert_eq!(rt; gate.units[1].load(Ordering::SeqCst), 65_536);
    assert_eq!(rt; gate.units[0].load(Ordering::SeqCst), 65_534);
    Ok(())
}

/// Versions up to 2 are used up by one round of the ring: the worker ends, and the caller does the rest.
#[test]
fn a_worn_queue_leaves_the_work_to_the_caller(rt: HostRuntime) -> Result<(), Fail> {
    let shape = Shape::new(1, 2, 2)?;
    let gate = Counting::new(0);
    let tasks = [task(1, 9, 0), task(2, 9, 0)];
    let done = dispatch(&rt, rt.alloc(), tasks.as_slice(), 1, shape, &gate)?;
    assert_eq!(rt;
        done.as_slice(),
        [finished(1, 45), finished(2, 45)].as_slice()
    );
    assert!(rt; gate.units[0].load(Ordering::SeqCst) > 0);
    Ok(())
}

/// Holds whichever one request of the dispatch for memory fails, and fails where a call always gives up.
#[test]
fn refused_memory(rt: HostRuntime) -> Result<(), Fail> {
    let shape = Shape::new(1, 2, MAX_VERSION)?;
    let tasks = [task(9, 2, 5), task(2, 1, 1), task(3, 0, 7)];
    let done = match dispatch(&rt, rt.alloc(), tasks.as_slice(), 2, shape, &OpenGate) {
        Err(DispatchFault::Memory) => {
            dispatch(&rt, rt.alloc(), tasks.as_slice(), 2, shape, &OpenGate)?
        }
        answered => answered?,
    };
    let list = [finished(2, 2), finished(3, 7), finished(9, 8)];
    assert_eq!(rt; done.as_slice(), list.as_slice());
    Ok(())
}

/// Units of work that take some microseconds each.
#[derive(Drop)]
struct Laborious {
    sum: AtomicU64,
}

impl Gate for Laborious {
    fn pass(&self, _worker: u32, _call: u32) {}
}

impl WorkGate for Laborious {
    fn unit(&self, _worker: u32, id: u32) {
        let mut state = u64::from(id);
        for _step in 0..4_096u32 {
            state = (state ^ (state >> 29)).wrapping_mul(6_364_136_223_846_793_005);
        }
        self.sum.fetch_add(state, Ordering::SeqCst);
    }
}

/// So many workers run tasks of 256 units. Returns the work done.
fn labor<R: Threads + Abort + Sync>(
    rt: &R,
    alloc: Global,
    tasks: &[Task],
    workers: u32,
) -> Result<u64, Fail> {
    let shape = Shape::new(4, 32, MAX_VERSION)?;
    let gate = Laborious {
        sum: AtomicU64::new(0),
    };
    let done = dispatch(rt, alloc, tasks, workers, shape, &gate)?;
    assert_eq!(rt; done.len(), 64);
    assert!(rt; done.iter().all(|each| each.sum == 32_896));
    Ok(gate.sum.load(Ordering::SeqCst))
}

/// Sixty-four tasks of 256 units.
fn long_tasks(alloc: Global) -> Result<Vec<Task>, AllocError> {
    let mut tasks = Vec::new(alloc);
    for id in 0..64u32 {
        tasks.push(task(id, 256, 0))?;
    }
    Ok(tasks)
}

/// Prints how long one, two and four workers take where a unit of work takes longer than the calls of the queue. The
/// finished lists and the work done are the same.
#[test]
fn times_of_workers(rt: HostRuntime) -> Result<(), Fail> {
    let tasks = long_tasks(rt.alloc())?;
    let wanted = labor(&rt, rt.alloc(), tasks.as_slice(), 1)?;
    for workers in &[1u32, 2, 4] {
        let start = Instant::now(&rt)?;
        let work = labor(&rt, rt.alloc(), tasks.as_slice(), *workers)?;
        let taken = start.elapsed(&rt)?;
        assert_eq!(rt; work, wanted);
        eprintln!(rt; "workers {workers}: {taken:?}")?;
    }
    Ok(())
}

/// The same seed gives the same starts, and another worker has others.
#[test]
fn starts_are_those_of_the_seed(rt: HostRuntime) {
    let mut own = Starts::new(7, 1, 64);
    let mut again = Starts::new(7, 1, 64);
    let mut other = Starts::new(7, 2, 64);
    let mut differ = 0u32;
    for _ in 0..64 {
        let start = own.draw();
        assert_eq!(rt; start, again.draw());
        if start != other.draw() {
            differ = differ.wrapping_add(1);
        }
    }
    assert!(rt; differ > 32, "{differ}");
}
