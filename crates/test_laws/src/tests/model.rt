//! Questions on histories where memory is refused, and the longest record.

use crate::plain::{check_order, has_order, measure, ranks, read_history};
use crate::records::empty_takes;
use kfifo_model::{
    Answer, Call, End, History, MeasureFault, Op, RankFault, RecordFault, SearchFault, Verdict,
};
use serde_json::Value;
use std::alloc::{AllocError, Global};
use std::test::Fail;

/// A finished call.
fn call(thread: u32, op: Op, first: u64, last: u64, answer: Answer) -> Call {
    let end = End { last, answer };
    Call {
        thread,
        op,
        first,
        end: Some(end),
    }
}

/// An enqueue that returned Done.
fn put(thread: u32, item: u32, first: u64, last: u64) -> Call {
    call(thread, Op::Enqueue(item), first, last, Answer::Done)
}

/// A dequeue that got the item.
fn got(thread: u32, item: u32, first: u64, last: u64) -> Call {
    call(thread, Op::Dequeue, first, last, Answer::Got(item))
}

/// Four enqueues, and dequeues that overtake by one.
fn relaxed(alloc: Global) -> Result<Vec<Call>, AllocError> {
    let calls = vec![in alloc;
        put(0, 1, 0, 8),
        put(0, 2, 9, 18),
        put(0, 3, 19, 32),
        put(0, 4, 33, 41),
        got(0, 2, 42, 46),
        got(0, 1, 47, 52),
        got(0, 4, 53, 64),
        got(0, 3, 65, 70),
    ]?;
    Ok(calls)
}

/// The calls of `relaxed`, tried once more where memory was refused.
fn relaxed_history(alloc: Global) -> Result<History, Fail> {
    let calls = match relaxed(alloc) {
        Ok(calls) => calls,
        Err(_) => relaxed(alloc)?,
    };
    Ok(History::new(calls)?)
}

/// Where one request for memory fails, the call is refused with Memory, and succeeds when it is made again.
#[test]
fn refused_memory(rt: HostRuntime) -> Result<(), Fail> {
    let history = relaxed_history(rt.alloc())?;
    let found = match has_order(rt.alloc(), &history, 2) {
        Err(SearchFault::Memory) => has_order(rt.alloc(), &history, 2),
        found => found,
    };
    assert_eq!(rt; found, Ok(true));
    let order = [0, 1, 2, 3, 4, 5, 6, 7];
    let verdict = match check_order(rt.alloc(), &history, 2, &order) {
        Err(_) => check_order(rt.alloc(), &history, 2, &order)?,
        Ok(verdict) => verdict,
    };
    assert_eq!(rt; verdict, Verdict::Legal);
    let found = match ranks(rt.alloc(), &history, 2, &order) {
        Err(RankFault::Memory) => ranks(rt.alloc(), &history, 2, &order)?,
        found => found?,
    };
    assert_eq!(rt; found.as_slice(), [1, 0, 1, 0].as_slice());
    let text = r#"[{"thread":0,"op":"enq","item":3,"first":0}]"#;
    let value = match Value::from_str(rt.alloc(), text) {
        Ok(value) => value,
        Err(_) => Value::from_str(rt.alloc(), text)?,
    };
    let read = match read_history(rt.alloc(), &value) {
        Err(RecordFault::Memory) => read_history(rt.alloc(), &value)?,
        read => read?,
    };
    assert_eq!(rt; read.calls().len(), 1);
    let measured = match measure(rt.alloc(), &history) {
        Err(MeasureFault::Memory) => measure(rt.alloc(), &history)?,
        measured => measured?,
    };
    assert_eq!(rt; measured.len(), 4);
    Ok(())
}

/// The shortest record and the longest one are read.
#[test]
fn shortest_and_longest_record(rt: HostRuntime) -> Result<(), Fail> {
    for calls in [0u32, 65_536] {
        let text = empty_takes(rt.alloc(), calls)?;
        let value = Value::from_str(rt.alloc(), text.as_str())?;
        let history = read_history(rt.alloc(), &value)?;
        assert_eq!(&rt; history.calls().len(), calls as usize);
        assert_eq!(&rt; measure(rt.alloc(), &history)?.len(), 0);
    }
    let text = empty_takes(rt.alloc(), 65_537)?;
    let value = Value::from_str(rt.alloc(), text.as_str())?;
    assert_eq!(&rt;
        read_history(rt.alloc(), &value).err(),
        Some(RecordFault::TooMany)
    );
    Ok(())
}
