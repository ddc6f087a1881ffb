//! The lines of faults.

use kfifo_cli_texts::{Fault, Printer};
use kfifo_dispatch::DispatchFault;
use kfifo_import::ImportFault;
use kfifo_live::OpenFault;
use kfifo_model::{RecordFault, SearchFault};
use kfifo_replay::ReplayFault;
use kfifo_words::ShapeFault;
use std::test::Fail;

/// What a fault shows stands in its line.
#[test]
fn a_fault_shows_its_line(rt: HostRuntime) -> Result<(), Fail> {
    for (fault, shown) in [
        (Fault::Shape(ShapeFault::LastOutOfRange), "shape fault 3"),
        (Fault::Word(12), "word fault at 12"),
        (Fault::NotJson, "not json"),
        (
            Fault::Record(RecordFault::WrongAnswer(7)),
            "record fault 5 at call 7",
        ),
        (Fault::Search(SearchFault::TooLong), "search fault 1"),
        (
            Fault::Replay(ReplayFault::BadPick(9)),
            "replay fault 1 at 9",
        ),
        (Fault::Replay(ReplayFault::BadScript), "replay fault 3"),
        (Fault::Trace, "trace fault"),
        (Fault::Open(OpenFault::CallsOutOfRange), "open fault 4"),
        (
            Fault::Dispatch(DispatchFault::RepeatedId),
            "dispatch fault 2",
        ),
        (Fault::Import(ImportFault::Csv(3)), "csv fault at line 3"),
        (Fault::Import(ImportFault::TooMany), "record fault 2"),
        (
            Fault::Import(ImportFault::NotACall(9)),
            "record fault 3 at line 9",
        ),
        (
            Fault::Import(ImportFault::Overlap(10)),
            "record fault 8 at line 10",
        ),
        (Fault::TooManyDrawn, "draw fault 1"),
        (Fault::Unexplained, "explain fault 1"),
        (Fault::Contradiction, "draw fault 2"),
        (Fault::Stretch, "draw fault 3"),
        (Fault::NoInput, "no input"),
        (Fault::NoLines, "draw fault 4"),
        (Fault::Memory, "memory"),
    ] {
        let text = format!(in rt.alloc(); "{fault}")?;
        assert_eq!(&rt; text.as_str(), shown);
        let line = format!(in rt.alloc(); "kfifo: {fault}\n")?;
        let mut told = Vec::new(rt.alloc());
        assert!(&rt; fault.tell(&mut Printer::new(&mut told)));
        assert_eq!(&rt; told.as_slice(), line.as_bytes());
    }
    Ok(())
}
