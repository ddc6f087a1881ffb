//! The finished list.
ghost use Rattle.std.specs.Prelude.{◌≡◌, ◌<◌, ◌≤◌, IfOk, IfSome, Some, length, slice_get};
ghost use Rattle.kfifo_dispatch.specs.declared.dispatching.TheConstants.{MAX_TASKS};
ghost use Rattle.kfifo_dispatch.specs.Jobs.{AreTotals, total_at};
ghost use Rattle.kfifo_dispatch.specs.Tasks.{IsFinishedList, finished};

use crate::job::{Done, Job, Tasks};
use crate::task::{Finished, Task};
use crate::work_gate::WorkGate;
use std::alloc::{AllocError, Global};

/// Makes the finished list of the tasks from what came back of them. The caller, as worker 0, finishes a task that
/// never came back; what came back a second time is dropped.
pub(crate) fn finish<L: Tasks, G: WorkGate>(
    alloc: Global,
    tasks: &[Task],
    returned: Vec<Done<L>>,
    gate: &G,
) -> Result<Vec<Finished>, AllocError>
    requires tasks { L.tasks ≡ tasks.now }
    requires few { length tasks.now ≤ MAX_TASKS }
    ensures { IfOk result (λ list. IsFinishedList tasks.now list.items) }
{
    let sums = sums_of(alloc, tasks, returned)?;
    let mut list = Vec::with_capacity(alloc, tasks.len())?;
    for (place, task) in tasks.iter().enumerate() {
        list.push(finish_one::<L, G>(place, task, sums[place], gate))?;
    }
    list.sort_by_key(|task| task.id)?;
    Ok(list)
}

/// What each task came to, if it came back.
fn sums_of<L: Tasks>(
    alloc: Global,
    tasks: &[Task],
    returned: Vec<Done<L>>,
) -> Result<Vec<Option<u64>>, AllocError>
    requires tasks { L.tasks ≡ tasks.now }
    ensures { IfOk result (λ sums. AreTotals tasks.now sums.items) }
{
    let mut sums = vec![in alloc; None; tasks.len()]?;
    for done in returned {
        sums[done.place()] = Some(done.sum());
    }
    Ok(sums)
}

/// The task at this place, finished: with the sum that came back, or by the work done here.
fn finish_one<L: Tasks, G: WorkGate>(
    place: usize,
    task: &Task,
    sum: Option<u64>,
    gate: &G,
) -> Finished
    requires place { place < MAX_TASKS }
    requires task { slice_get L.tasks place ≡ Some task.now }
    requires sum { IfSome sum (λ n. n ≡ total_at L.tasks place) }
    ensures { result ≡ finished task.now }
{
    let sum = match sum {
        Some(sum) => sum,
        None => {
            let job: Job<L> = Job::new(place as u16, task.id, task.left, task.sum);
            job.work_off(0, gate).sum()
        }
    };
    Finished { id: task.id, sum }
}
