//! What no contract says: that the calls find what they must, over all short histories and over long ones.
ghost use Rattle.std.specs.Prelude.{◌≤◌};

use super::plain::{evidence, has_order, history_of, judge, witness};
use super::{begun, ended};
use kfifo_model::{Answer, Call, End, History, Op, RecordFault};
use kfifo_verdict::Judgement;
use std::alloc::{AllocError, Global};
use std::test::Fail;
use std::time::Instant;

/// A finished enqueue that returned Done.
fn put(thread: u32, item: u32, first: u64, last: u64) -> Call {
    ended(thread, Op::Enqueue(item), first, last, Answer::Done)
}

/// A dequeue that got an item.
fn got(thread: u32, item: u32, first: u64, last: u64) -> Call {
    ended(thread, Op::Dequeue, first, last, Answer::Got(item))
}

/// A dequeue that returned Empty.
fn empty(thread: u32, first: u64, last: u64) -> Call {
    ended(thread, Op::Dequeue, first, last, Answer::Empty)
}

/// A shape of a call: what it does, and when it ends after it began, in half steps of the calls' beginnings.
fn shaped(shape: u64, n: u32, first: u64) -> Call {
    let length = shape % 4;
    let last = first.wrapping_add(2 * length + 1);
    match shape / 4 % 6 {
        0 => put(n, 1, first, last),
        1 => put(n, 2, first, last),
        2 => got(n, 1, first, last),
        3 => got(n, 2, first, last),
        4 => empty(n, first, last),
        _ => begun(n, Op::Enqueue(1 + (length % 2) as u32), first),
    }
}

/// The history of so many calls with this code.
fn coded(alloc: Global, code: u64, count: u32) -> Result<History, RecordFault> {
    let mut calls = Vec::new(alloc);
    let mut rest = code;
    for n in 0..count {
        calls.push(shaped(rest % 24, n, 2 * u64::from(n)))?;
        rest = rest / 24;
    }
    history_of(calls)
}

/// Whether all calls are finished, and no item is put twice or got twice.
fn is_plain(calls: &[Call]) -> bool {
    for (n, call) in calls.iter().enumerate() {
        let Some(end) = call.end else {
            return false;
        };
        for other in calls.iter().take(n) {
            let same_put = call.op != Op::Dequeue && other.op == call.op;
            let same_got = match (end.answer, other.end) {
                (Answer::Got(x), Some(end)) => end.answer == Answer::Got(x),
                _ => false,
            };
            if same_put || same_got {
                return false;
            }
        }
    }
    true
}

/// How many verdicts came of each kind.
#[derive(Clone, Copy, Debug, PartialEq, Eq)]
struct Counts {
    legal: u64,
    no_order: u64,
    undecided: u64,
    /// Of the undecided those whose items are single and whose calls are finished.
    plain: u64,
    /// Of the undecided those that have a legal order.
    missed: u64,
    wrong: u64,
}

/// One more verdict.
fn count(counts: Counts, judgement: &Judgement, plain: bool, has: bool) -> Counts {
    let mut more = counts;
    let wrong = match judgement {
        Judgement::Legal(_) => {
            more.legal = more.legal.wrapping_add(1);
            !has
        }
        Judgement::NoOrder(_) => {
            more.no_order = more.no_order.wrapping_add(1);
            has
        }
        Judgement::Undecided(_) => {
            more.undecided = more.undecided.wrapping_add(1);
            if plain {
                more.plain = more.plain.wrapping_add(1);
            }
            if has {
                more.missed = more.missed.wrapping_add(1);
            }
            false
        }
    };
    if wrong {
        more.wrong = more.wrong.wrapping_add(1);
    }
    more
}

/// Judges each history of so many calls with codes from `from` on, `step` apart.
fn judged(
    alloc: Global,
    calls: u32,
    from: u64,
    step: u64,
    number: u64,
    k: u32,
) -> Result<Counts, AllocError>
    requires { (1 ≤ k) × (k ≤ 64) }
{
    let mut counts = Counts {
        legal: 0,
        no_order: 0,
        undecided: 0,
        plain: 0,
        missed: 0,
        wrong: 0,
    };
    let mut code = from;
    for _ in 0..number {
        if let Ok(history) = coded(alloc, code, calls) {
            if let Ok(has) = has_order(alloc, &history, k) {
                let judgement = judge(alloc, &history, k, 1_000)?;
                let plain = is_plain(history.calls());
                counts = count(counts, &judgement, plain, has);
            }
        }
        code = code.wrapping_add(step);
    }
    Ok(counts)
}

/// The next of some numbers that look random.
fn shaken(seed: u64) -> u64 {
    seed.wrapping_mul(6_364_136_223_846_793_005)
        .wrapping_add(1_442_695_040_888_963_407)
}

/// A number below a bound, of a seed.
fn below(seed: u64, bound: usize) -> usize {
    if bound == 0 {
        return 0;
    }
    ((seed >> 33) % bound as u64) as usize
}

/// A queue that is simulated, and the calls of its threads.
#[derive(Drop)]
struct Simulation {
    seed: u64,
    clock: u64,
    items: u32,
    queue: Vec<u32>,
    calls: Vec<Call>,
    current: Vec<Option<(usize, Option<Answer>)>>,
}

impl Simulation {
    fn new(alloc: Global, threads: usize, seed: u64) -> Result<Simulation, AllocError> {
        Ok(Simulation {
            seed,
            clock: 0,
            items: 0,
            queue: Vec::new(alloc),
            calls: Vec::new(alloc),
            current: vec![in alloc; None; threads]?,
        })
    }

    fn draw(&mut self, bound: usize) -> usize {
        self.seed = shaken(self.seed);
        below(self.seed, bound)
    }

    fn tick(&mut self) -> u64 {
        self.clock = self.clock.wrapping_add(1);
        self.clock
    }

    /// The thread begins a call.
    fn begin(&mut self, thread: usize, limit: usize) -> Result<(), AllocError> {
        if self.calls.len() >= limit {
            return Ok(());
        }
        let op = if self.draw(100) < 50 {
            self.items = self.items.wrapping_add(1);
            Op::Enqueue(self.items)
        } else {
            Op::Dequeue
        };
        let first = self.tick();
        let n = self.calls.len();
        self.calls
            .push(begun(u32::try_from(thread).unwrap_or(0), op, first))?;
        if thread < self.current.len() {
            self.current[thread] = Some((n, None));
        }
        Ok(())
    }

    /// The call takes its place: one of the first k items goes, or one is put at the end.
    fn take_place(&mut self, n: usize, k: usize) -> Result<Answer, AllocError> {
        let op = if n < self.calls.len() {
            self.calls[n].op
        } else {
            Op::Dequeue
        };
        match op {
            Op::Enqueue(item) => {
                self.queue.push(item)?;
                Ok(Answer::Done)
            }
            Op::Dequeue => {
                let most = k.min(self.queue.len());
                let place = self.draw(most);
                if place < self.queue.len() {
                    Ok(Answer::Got(self.queue.remove(place)))
                } else {
                    Ok(Answer::Empty)
                }
            }
        }
    }

    /// The thread makes a step: it begins a call, or the call takes its place, or ends.
    fn step(&mut self, thread: usize, k: usize, limit: usize) -> Result<(), AllocError> {
        let current = if thread < self.current.len() {
            self.current[thread]
        } else {
            None
        };
        match current {
            None => self.begin(thread, limit)?,
            Some((n, None)) => {
                let answer = self.take_place(n, k)?;
                if thread < self.current.len() {
                    self.current[thread] = Some((n, Some(answer)));
                }
            }
            Some((n, Some(answer))) => {
                let last = self.tick();
                if n < self.calls.len() {
                    self.calls[n].end = Some(End { last, answer });
                }
                if thread < self.current.len() {
                    self.current[thread] = None;
                }
            }
        }
        Ok(())
    }

    /// The calls that have begun end.
    fn end_all(&mut self, k: usize) -> Result<(), AllocError> {
        for thread in 0..self.current.len() {
            for _ in 0..2 {
                if thread < self.current.len() && self.current[thread].is_some() {
                    self.step(thread, k, 0)?;
                }
            }
        }
        Ok(())
    }

    fn into_calls(self) -> Vec<Call> {
        let Simulation { calls, .. } = self;
        calls
    }
}

/// The calls of so many threads on a queue that gives any of its k oldest items; the last ones may be unfinished.
fn simulated(
    alloc: Global,
    threads: usize,
    limit: usize,
    k: usize,
    seed: u64,
) -> Result<Vec<Call>, AllocError> {
    let mut simulation = Simulation::new(alloc, threads, seed)?;
    for _ in 0..limit.saturating_mul(3) {
        let thread = simulation.draw(threads);
        simulation.step(thread, k, limit)?;
    }
    Ok(simulation.into_calls())
}

/// The same with all calls finished, on a queue that gives its oldest item.
fn finished(
    alloc: Global,
    threads: usize,
    limit: usize,
    seed: u64,
) -> Result<Vec<Call>, AllocError> {
    let mut simulation = Simulation::new(alloc, threads, seed)?;
    for _ in 0..limit.saturating_mul(3) {
        let thread = simulation.draw(threads);
        simulation.step(thread, 1, limit)?;
    }
    simulation.end_all(1)?;
    Ok(simulation.into_calls())
}

#[test]
fn three_calls(rt: HostRuntime) -> Result<(), Fail> {
    let plain = judged(rt.alloc(), 3, 0, 1, 13_824, 1)?;
    let relaxed = judged(rt.alloc(), 3, 0, 1, 13_824, 2)?;
    eprintln!(rt; "{plain:?} {relaxed:?}")?;
    assert_eq!(rt; plain.wrong, 0);
    assert_eq!(rt; plain.plain, 0);
    assert_eq!(rt; plain.missed, 0);
    assert_eq!(rt; relaxed.wrong, 0);
    assert_eq!(rt; relaxed.missed, 0);
    Ok(())
}

#[test]
fn four_calls(rt: HostRuntime) -> Result<(), Fail> {
    let plain = judged(rt.alloc(), 4, 0, 1, 331_776, 1)?;
    eprintln!(rt; "{plain:?}")?;
    assert_eq!(rt; plain.wrong, 0);
    assert_eq!(rt; plain.plain, 0);
    assert_eq!(rt; plain.missed, 0);
    Ok(())
}

#[test]
fn five_to_eight_calls(rt: HostRuntime) -> Result<(), Fail> {
    let five = judged(rt.alloc(), 5, 0, 61, 130_000, 2)?;
    let eight = judged(rt.alloc(), 8, 1, 1_000_003, 20_000, 2)?;
    eprintln!(rt; "{five:?} {eight:?}")?;
    assert_eq!(rt; five.wrong, 0);
    assert_eq!(rt; five.missed, 0);
    assert_eq!(rt; eight.wrong, 0);
    assert_eq!(rt; eight.missed, 0);
    Ok(())
}

/// Whether a simulated queue's calls are judged legal, and with one answer spoiled are not.
fn is_told_apart(
    alloc: Global,
    threads: usize,
    k: u32,
    seed: u64,
) -> Result<(bool, bool), RecordFault>
    requires { (1 ≤ k) × (k ≤ 64) }
{
    let calls = simulated(alloc, threads, 20_000, k as usize, seed)?;
    let history = history_of(calls)?;
    let legal = match judge(alloc, &history, k, 1_000)? {
        Judgement::Legal(_) => true,
        _ => false,
    };
    let mut spoiled = history.into_calls();
    spoil(&mut spoiled);
    let other = history_of(spoiled)?;
    let still = match judge(alloc, &other, k, 1_000)? {
        Judgement::Legal(_) => true,
        _ => false,
    };
    Ok((legal, still))
}

/// The last call that got an item is told that it got one which no call put.
fn spoil(calls: &mut Vec<Call>) {
    for i in (0..calls.len()).rev() {
        if let Some(end) = calls[i].end {
            if let Answer::Got(_) = end.answer {
                calls[i].end = Some(End {
                    last: end.last,
                    answer: Answer::Got(16_777_215),
                });
                return;
            }
        }
    }
}

#[test]
fn queues_that_ran(rt: HostRuntime) -> Result<(), Fail> {
    assert_eq!(rt; is_told_apart(rt.alloc(), 4, 1, 7)?, (true, false));
    assert_eq!(rt; is_told_apart(rt.alloc(), 8, 1, 8)?, (true, false));
    assert_eq!(rt; is_told_apart(rt.alloc(), 8, 4, 9)?, (true, false));
    Ok(())
}

#[test]
fn longest_plain_history(rt: HostRuntime) -> Result<(), Fail> {
    for threads in [1usize, 8, 64] {
        let calls = finished(rt.alloc(), threads, 65_536, 7)?;
        let history = history_of(calls)?;
        let start = Instant::now(&rt)?;
        let judgement = judge(rt.alloc(), &history, 1, 0)?;
        let judged = start.elapsed(&rt)?;
        let is_legal = match judgement {
            Judgement::Legal(_) => true,
            _ => false,
        };
        assert!(rt; is_legal);
        eprintln!(rt; "threads {threads}: judge {judged:?}")?;
    }
    Ok(())
}

#[test]
fn longest_history(rt: HostRuntime) -> Result<(), Fail> {
    for k in [1u32, 4, 64] {
        let calls = simulated(rt.alloc(), 8, 65_536, k as usize, 7)?;
        let history = history_of(calls)?;
        let start = Instant::now(&rt)?;
        let found = evidence(rt.alloc(), &history, k)?;
        let searched = start.elapsed(&rt)?;
        assert!(rt; found.is_none());
        let start = Instant::now(&rt)?;
        let order = witness(rt.alloc(), &history, k)?;
        let walked = start.elapsed(&rt)?;
        assert!(rt; order.is_some(), "k {k}");
        eprintln!(rt; "k {k}: evidence {searched:?}, witness {walked:?}")?;
    }
    Ok(())
}
