//! Which calls precede which.
ghost use Rattle.std.specs.Prelude.{◌↔◌, ◌<◌, ◌≤◌, IfSome, IsTrue, length};
ghost use Rattle.std.specs.List.Sorted.{IsPartitionPoint};
ghost use Rattle.kfifo_model.specs.Histories.{EndsBelow};
ghost use Rattle.kfifo_model.specs.Validity.{IsHistory};
ghost use Rattle.kfifo_verdict.specs.Finding.{IsStart};

use kfifo_model::Call;

/// Whether the call ended before this step.
pub(crate) fn ends_before(call: &Call, step: u64) -> bool
    ensures { IsTrue result ↔ EndsBelow call.now.end step }
{
    match &call.end {
        Some(end) => end.last < step,
        None => false,
    }
}

/// How many calls, from a call on, are looked at before a search among all calls.
const NEXT_CALLS: usize = 8;

/// The first call that begins after this step, if call n does not and one of the next few does.
fn soon_after(calls: &[Call], n: usize, step: u64) -> Option<usize>
    requires { IsHistory calls.now }
    ensures { IfSome result (λ start. (start ≤ length calls.now)
        × IsPartitionPoint (λ c. c.first ≤ step) (λ c. step < c.first) calls.now start) }
{
    if n >= calls.len() {
        return None;
    }
    if step < calls[n].first {
        return None;
    }
    for next in n + 1..calls.len().min(n + NEXT_CALLS) {
        if step < calls[next].first {
            return Some(next);
        }
    }
    None
}

/// The number of the first call that this one precedes, or the number of calls: it precedes those from there on. It is
/// found soon where the call has number n and overlaps few of the calls after it.
pub(crate) fn first_after(calls: &[Call], n: usize, call: &Call) -> usize
    requires { IsHistory calls.now }
    ensures { IsStart calls.now call.now.end result }
{
    let Some(end) = call.end else {
        return calls.len();
    };
    match soon_after(calls, n, end.last) {
        Some(start) => start,
        None => calls.partition_point(|other| other.first <= end.last),
    }
}
