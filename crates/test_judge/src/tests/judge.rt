//! What the streams of records return when reading, writing or an allocation fails, and for inputs that are too long.
use super::plain::measure_stream;
use crate::streams::{Input, Pieces, sink_with, source_of};
use kfifo_judge::{FromStd, StreamFault, check_stream};
use kfifo_model::{RecordFault, SearchFault};
use std::alloc::Global;
use std::test::Fail;

const RELAXED: &str = r#"[{"thread":0,"op":"enq","item":1,"first":0,"last":8,"answer":"done"},
{"thread":0,"op":"enq","item":2,"first":9,"last":18,"answer":"done"},
{"thread":0,"op":"enq","item":3,"first":19,"last":32,"answer":"done"},
{"thread":0,"op":"enq","item":4,"first":33,"last":41,"answer":"done"},
{"thread":0,"op":"deq","first":42,"last":46,"answer":"got","item":2},
{"thread":0,"op":"deq","first":47,"last":52,"answer":"got","item":1},
{"thread":0,"op":"deq","first":53,"last":64,"answer":"got","item":4},
{"thread":0,"op":"deq","first":65,"last":70,"answer":"got","item":3}]"#;

/// Texts that are no records.
const HOSTILE: [&str; 11] = [
    "",
    "{}",
    "[7]",
    r#"[{"thread":0,"op":"deq","first":0,"last":1,"answer":"empty"}"#,
    r#"[{"thread":64,"op":"deq","first":0}]"#,
    r#"[{"thread":0,"op":"deq","first":0,"last":1,"answer":"done"}]"#,
    r#"[{"thread":0,"op":"deq","first":0,"last":1,"answer":"got"}]"#,
    r#"[{"thread":0,"op":"deq","first":5,"last":4,"answer":"empty"}]"#,
    r#"[{"thread":0,"op":"enq","item":1,"first":18446744073709551616}]"#,
    r#"[{"thread":0,"op":"deq","first":3},{"thread":1,"op":"deq","first":3}]"#,
    r#"[{"thread":0,"op":"deq","first":0},{"thread":0,"op":"deq","first":1}]"#,
];

/// A failed first read is the fault before any other.
#[test]
fn hostile_records(rt: HostRuntime) -> Result<(), Fail> {
    let mut sink = sink_with(rt.alloc(), 0, 0);
    for text in HOSTILE {
        let mut source = source_of(text, 1);
        let found = check_stream(rt.alloc(), &mut source, &mut sink, 2, None);
        assert_eq!(rt; found, Err(StreamFault::Input), "{text}");
        assert_eq!(rt; (source.inner.calls, sink.inner.calls), (1, 0));
    }
    Ok(())
}

/// So many spaces.
fn blanks(alloc: Global, count: usize) -> Result<Vec<u8>, Fail> {
    Ok(vec![in alloc; b' '; count]?)
}

/// A source of so many spaces, in pieces of 4,096 bytes.
fn long_source(blanks: &[u8]) -> Input<'_> {
    FromStd::new(Pieces {
        bytes: blanks,
        step: 4_096,
        fails_at: 0,
        calls: 0,
    })
}

/// One byte over the limit, which comes as a piece of its own, is too much; the limit itself is not.
#[test]
fn long_inputs(rt: HostRuntime) -> Result<(), Fail> {
    let mut blank = blanks(rt.alloc(), 16_777_217)?;
    let mut sink = sink_with(rt.alloc(), 0, 0);
    let mut long = long_source(blank.as_slice());
    let found = check_stream(rt.alloc(), &mut long, &mut sink, 2, None);
    assert_eq!(rt; found, Err(StreamFault::Input));
    assert_eq!(rt; (long.inner.calls, long.failed), (4_097, 0));
    let mut long = long_source(blank.as_slice());
    let found = measure_stream(rt.alloc(), &mut long, &mut sink);
    assert_eq!(rt; found, Err(StreamFault::Input));
    blank.pop();
    let mut fits = long_source(blank.as_slice());
    let found = measure_stream(rt.alloc(), &mut fits, &mut sink);
    assert_eq!(rt; found, Err(StreamFault::NotJson));
    let mut fits = long_source(blank.as_slice());
    let found = check_stream(rt.alloc(), &mut fits, &mut sink, 2, None);
    assert_eq!(rt; found, Err(StreamFault::NotJson));
    assert_eq!(rt; sink.inner.calls, 0);
    Ok(())
}

/// Faults of streams, and what is said of each.
const TOLD: [(StreamFault, &str); 7] = [
    (
        StreamFault::Input,
        "reading failed, or the input is over 16,777,216 bytes",
    ),
    (
        StreamFault::NotJson,
        "the input is no JSON text, or is not UTF-8",
    ),
    (
        StreamFault::Record(RecordFault::TooMany),
        "the record has over 65,536 calls",
    ),
    (
        StreamFault::Search(SearchFault::TooLong),
        "the history has over 12 calls",
    ),
    (
        StreamFault::RepeatedItem,
        "an item is repeated: it was put or taken twice",
    ),
    (StreamFault::Memory, "out of memory"),
    (StreamFault::Output, "the answer could not be written"),
];

#[test]
fn tells_faults(rt: HostRuntime) -> Result<(), Fail> {
    for (fault, said) in TOLD {
        assert_eq!(&rt; format!(in rt.alloc(); "{fault}")?.as_str(), said);
    }
    Ok(())
}

#[test]
fn broken_off(rt: HostRuntime) -> Result<(), Fail> {
    for fails_at in [1, 2, 9] {
        let mut source = source_of(RELAXED, fails_at);
        let mut sink = sink_with(rt.alloc(), 0, 0);
        let found = measure_stream(rt.alloc(), &mut source, &mut sink);
        assert_eq!(rt; found, Err(StreamFault::Input));
        assert_eq!(rt; source.inner.calls, fails_at);
        assert_eq!(rt; source.failed, 1);
        assert_eq!(rt; sink.inner.calls, 0);
    }
    for (fails_at, stalls_at, calls, taken) in [(2, 0, 2, "ord"), (0, 2, 2, "ord"), (1, 0, 1, "")] {
        let mut sink = sink_with(rt.alloc(), fails_at, stalls_at);
        let found = check_stream(rt.alloc(), &mut source_of(RELAXED, 0), &mut sink, 2, None);
        assert_eq!(rt; found, Err(StreamFault::Output));
        assert_eq!(rt; sink.inner.calls, calls);
        assert_eq!(rt; sink.inner.taken.as_slice(), taken.as_bytes());
        assert_eq!(rt; sink.failed, 1);
        let mut sink = sink_with(rt.alloc(), fails_at, stalls_at);
        let found = measure_stream(rt.alloc(), &mut source_of(RELAXED, 0), &mut sink);
        assert_eq!(rt; found, Err(StreamFault::Output));
        assert_eq!(rt; sink.inner.calls, calls);
    }
    Ok(())
}

#[test]
fn refused_memory(rt: HostRuntime) -> Result<(), Fail> {
    let mut first = sink_with(rt.alloc(), 0, 0);
    let mut again = sink_with(rt.alloc(), 0, 0);
    let found = match check_stream(rt.alloc(), &mut source_of(RELAXED, 0), &mut first, 2, None) {
        Ok(status) => Ok(status),
        Err(_) => check_stream(rt.alloc(), &mut source_of(RELAXED, 0), &mut again, 2, None),
    };
    assert_eq!(rt; found, Ok(0));
    let found = match measure_stream(rt.alloc(), &mut source_of(RELAXED, 0), &mut first) {
        Ok(status) => Ok(status),
        Err(_) => measure_stream(rt.alloc(), &mut source_of(RELAXED, 0), &mut again),
    };
    assert_eq!(rt; found, Ok(0));
    Ok(())
}
