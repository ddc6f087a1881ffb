//! A log where memory is refused, one of a queue that returned an item which no call can put, and logs in pieces.
use super::plain::{import_text, read_log, read_log_to_judge};
use crate::streams::source_of;
use kfifo_import::{
    ImportFault, Line, Log, LogReader, MAX_LOG_CALLS, Refusal, lines_of, log_to_judge,
};
use kfifo_judge::{Begun, ReadFault, Source, begin_reading};
use std::alloc::Global;
use std::test::Fail;

/// Two threads, lines in no order; call 1 begins where call 0 ends, so they overlap.
const TOUCHING: &str = "first,last,thread,op,item,answer
30,40,1,deq,5,got
20,25,1,deq,,empty
10,20,0,enq,5,done
50,,0,enq,6,
";

/// Holds with each allocation failing in turn: the call after a refusal returns the record.
#[test]
fn refused_memory(rt: HostRuntime) -> Result<(), Fail> {
    let history = match import_text(rt.alloc(), TOUCHING.as_bytes()) {
        Ok(history) => history,
        Err(fault) => {
            assert_eq!(rt; fault, ImportFault::Memory);
            import_text(rt.alloc(), TOUCHING.as_bytes())?
        }
    };
    assert_eq!(rt; history.calls().len(), 4);
    Ok(())
}

/// The second thread got item 0.
const FOREIGN: &str = "thread,op,item,first,last,answer
0,enq,5,10,20,done
1,deq,0,30,40,got
";

/// Whether a log has a get of item 0, to be judged.
fn has_item_0(alloc: Global, bytes: &[u8]) -> Result<bool, ImportFault> {
    let log = read_log_to_judge(alloc, bytes)?;
    Ok(log.calls.iter().any(|call| call.item == Some(0)))
}

#[test]
fn reads_an_item_that_no_call_can_put_to_judge_it(rt: HostRuntime) -> Result<(), Fail> {
    let (alloc, bytes) = (rt.alloc(), FOREIGN.as_bytes());
    let found = read_log(alloc, bytes);
    assert!(rt; found.is_err());
    assert!(rt; has_item_0(alloc, bytes)?);
    Ok(())
}

/// A byte order mark, an empty line, a field in quotation marks over two lines, and a last line that does not end.
const MARKED: &str =
    "\u{FEFF}thread,op,item,first,last,answer,note\r\n\r\n0,enq,5,10,20,done,\"a, \"\"b\"\"\nc\"\n1,deq,,30,,,\"\"";

/// The same with a third field too many in its last line.
const WIDER: &str =
    "\u{FEFF}thread,op,item,first,last,answer\n\n0,enq,5,10,20,done\r\n\n1,deq,,30,,,\"x\ny\"";

/// The lines of a log that comes in two pieces, cut at this byte.
fn cut_at(alloc: Global, bytes: &[u8], cut: usize) -> Result<Vec<Line>, Refusal> {
    let mut reader = LogReader::new(alloc, 2);
    let (first, second) = bytes.split_at(cut.min(bytes.len()));
    reader.take(first)?;
    reader.take(second)?;
    reader.finish()
}

/// The log to be judged that comes in these two pieces, by the short example of the reader.
fn judge_pieces(alloc: Global, first: &[u8], second: &[u8]) -> Result<Log, Refusal> {
    let mut reader = LogReader::new(alloc, MAX_LOG_CALLS);
    reader.take(first)?;
    reader.take(second)?;
    let log = reader.log_to_judge()?;
    Ok(log)
}

#[test]
fn judges_a_log_in_two_pieces(rt: HostRuntime) -> Result<(), Fail> {
    let (first, second) = FOREIGN.as_bytes().split_at(40);
    let log = judge_pieces(rt.alloc(), first, second).map_err(|refusal| refusal.fault)?;
    assert_eq!(rt; log.calls.len(), 2);
    Ok(())
}

/// The log to be judged of these bytes, by the short examples of its lines.
fn judge_lines(alloc: Global, bytes: &[u8]) -> Result<Log, Refusal> {
    let lines = lines_of(alloc, bytes, MAX_LOG_CALLS)?;
    let log = log_to_judge(alloc, lines)?;
    Ok(log)
}

#[test]
fn judges_a_log_by_its_lines(rt: HostRuntime) -> Result<(), Fail> {
    let log = judge_lines(rt.alloc(), FOREIGN.as_bytes()).map_err(|refusal| refusal.fault)?;
    assert_eq!(rt; log.calls.len(), 2);
    Ok(())
}

/// How many bytes of a record came: all.
fn parse(bytes: Vec<u8>) -> Result<usize, ReadFault> {
    Ok(bytes.len())
}

/// How many bytes of a log came, with one piece more.
fn parse_more<R: Source>(bytes: Vec<u8>, source: &mut R) -> Result<usize, ReadFault> {
    let mut piece = [0_u8; 64];
    let more = source.read(&mut piece).unwrap_or(0);
    Ok(bytes.len().saturating_add(more))
}

/// How many bytes of an input came, by the short example of its beginning.
fn begin<R: Source>(alloc: Global, source: &mut R) -> Result<usize, ReadFault> {
    match begin_reading(alloc, source)? {
        Begun::Whole(bytes) => parse(bytes),
        Begun::Log(bytes) => parse_more(bytes, source),
    }
}

#[test]
fn begins_to_read_a_record_or_a_log(rt: HostRuntime) -> Result<(), Fail> {
    let record = " [ a record is read whole ] ";
    let read = begin(rt.alloc(), &mut source_of(record, 0));
    assert!(rt; matches!(read, Ok(count) if count == record.len()));
    let read = begin(rt.alloc(), &mut source_of(FOREIGN, 0));
    assert!(rt; matches!(read, Ok(count) if count > 7 && count < FOREIGN.len()));
    Ok(())
}

/// The lines of a log that comes a byte at a time.
fn byte_by_byte(alloc: Global, bytes: &[u8]) -> Result<Vec<Line>, Refusal> {
    let mut reader = LogReader::new(alloc, 2);
    for at in 0..bytes.len() {
        reader.take(&bytes[at..at + 1])?;
    }
    reader.finish()
}

/// Whether the lines are numbered 3 and 5, and the first is an enqueue of item 5.
fn are_marked(lines: &[Line]) -> bool {
    match lines {
        [first, second] => first.number == 3 && first.item == Some(5) && second.number == 5,
        _ => false,
    }
}

#[test]
fn reads_a_log_in_pieces(rt: HostRuntime) -> Result<(), Fail> {
    let (alloc, bytes) = (rt.alloc(), MARKED.as_bytes());
    for cut in 0..=bytes.len() {
        let lines = cut_at(alloc, bytes, cut).map_err(|refusal| refusal.fault)?;
        assert!(rt; are_marked(lines.as_slice()));
    }
    let lines = byte_by_byte(alloc, bytes).map_err(|refusal| refusal.fault)?;
    assert!(rt; are_marked(lines.as_slice()));
    Ok(())
}

#[test]
fn refuses_a_log_in_pieces_at_its_line(rt: HostRuntime) -> Result<(), Fail> {
    let (alloc, bytes) = (rt.alloc(), WIDER.as_bytes());
    for cut in 0..=bytes.len() {
        let fault = cut_at(alloc, bytes, cut).err().map(|refusal| refusal.fault);
        assert_eq!(rt; fault, Some(ImportFault::Csv(5)));
    }
    let fault = byte_by_byte(alloc, bytes)
        .err()
        .map(|refusal| refusal.fault);
    assert_eq!(rt; fault, Some(ImportFault::Csv(5)));
    Ok(())
}
