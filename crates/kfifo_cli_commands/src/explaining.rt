//! What is wrong, in words: the lines behind that of a fault.

mod arguments;

use crate::failure::{Detail, Failure};
use arguments::{
    push_dispatch, push_open, push_order, push_picks, push_replay, push_shape, push_word,
};
use kfifo_cli_requests::Request;
use kfifo_cli_texts::Fault;
use kfifo_model::{RecordFault, SearchFault};
use std::alloc::{AllocError, Global};
use std::fmt::Write;
use std::rt::Files;

/// What stands behind a fault where memory is refused for more.
pub(crate) const NO_MEMORY: &str = "an allocation failed: give the program more memory";

/// The lines behind that of a fault: what is wrong, what is allowed, and how to have it explained.
pub(crate) fn lines_of<H: Files>(
    alloc: Global,
    files: &H,
    request: &Request<'_>,
    failure: &Failure,
) -> Result<String, AllocError> {
    let mut text = String::new(alloc);
    match &failure.detail {
        Detail::Words(words) => text.push_str(words.as_str())?,
        Detail::Field(wrong) => write!(text, "{wrong}")?,
        Detail::Nothing => push_words(alloc, files, &mut text, request, failure.fault)?,
    }
    let fault = failure.fault;
    writeln!(text, "\nFor more information, try 'kfifo explain {fault}'.")?;
    Ok(text)
}

/// What is wrong with an input of calls, in words.
pub(crate) fn words_behind(alloc: Global, failure: &Failure) -> Result<String, AllocError> {
    let mut text = String::new(alloc);
    match &failure.detail {
        Detail::Words(words) => text.push_str(words.as_str())?,
        Detail::Field(wrong) => write!(text, "{wrong}")?,
        Detail::Nothing => push_fault(&mut text, failure.fault)?,
    }
    Ok(text)
}

/// Adds what is wrong where no more is known than the fault, whatever was requested.
fn push_fault(text: &mut String, fault: Fault) -> Result<(), AllocError> {
    match fault {
        Fault::Record(RecordFault::Memory) => text.push_str(NO_MEMORY),
        Fault::Record(fault) => write!(text, "{fault}"),
        Fault::Import(fault) => write!(text, "{fault}"),
        _ => text.push_str(words_of(fault)),
    }
}

/// Adds what is wrong where no more is known than the fault and the request.
fn push_words<H: Files>(
    alloc: Global,
    files: &H,
    text: &mut String,
    request: &Request<'_>,
    fault: Fault,
) -> Result<(), AllocError> {
    match fault {
        Fault::Shape(fault) => push_shape(text, request, fault),
        Fault::Word(number) => push_word(alloc, text, request, number),
        Fault::Order => push_order(alloc, files, text, request),
        Fault::Picks => push_picks(alloc, text, request),
        Fault::Replay(fault) => push_replay(text, request, fault),
        Fault::Open(fault) => push_open(text, request, fault),
        Fault::Dispatch(fault) => push_dispatch(text, request, fault),
        _ => push_fault(text, fault),
    }
}

/// What is wrong where the fault alone says it.
fn words_of(fault: Fault) -> &'static str {
    match fault {
        Fault::Trace => {
            "the picks make over 65,536 steps: --trace prints a line for each, and allowed are 65,536"
        }
        Fault::Input => "the file or standard input cannot be read, or has over 16,777,216 bytes",
        Fault::NoInput => {
            "no byte came; in a pipe the command before has probably failed, and said why"
        }
        Fault::NotJson => "the input is no JSON text, or is not UTF-8: allowed is a record in JSON",
        Fault::Search(SearchFault::TooLong) => {
            "the record has over 12 calls: allowed are 12 without --order; judge takes more"
        }
        Fault::RepeatedItem => {
            "an item is put twice, or got twice: allowed are items that are put once and got once"
        }
        Fault::TooManyDrawn => {
            "over 4,096 calls are to be drawn: draw a part by --evidence, --calls or --lines"
        }
        Fault::NoEvidence => {
            "there is no evidence for this k, and there are over 4,096 calls: draw a part by --calls or --lines"
        }
        Fault::Contradiction => {
            "--evidence and --order, --text and --width, or --calls and --lines are given together, or --around \
             without --evidence"
        }
        Fault::Stretch => {
            "the value of --calls or --lines is no stretch: allowed is <A>-<B>, two numbers of 1 to 10 digits, \
             A at most B"
        }
        Fault::NoLines => "--lines is given, and the input is a record: allowed is a log in CSV",
        Fault::Unexplained => {
            "no fault and no answer begins with these words: allowed are those that the program prints, and names \
             as NeverPut, status 3 and KFIFO_FULL"
        }
        _ => NO_MEMORY,
    }
}
