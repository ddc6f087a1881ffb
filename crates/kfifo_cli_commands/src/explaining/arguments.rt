//! What is wrong with the arguments of a command.

use super::NO_MEMORY;
use kfifo_cli_requests::{RecordOptions, ReplayOptions, Request, Sizes};
use kfifo_cli_texts::{FileFault, read_call, read_file, read_group, read_task};
use kfifo_dispatch::DispatchFault;
use kfifo_import::shown;
use kfifo_live::OpenFault;
use kfifo_replay::ReplayFault;
use kfifo_words::ShapeFault;
use std::alloc::{AllocError, Global};
use std::fmt::Write;
use std::rt::Files;

const CALLS: &str =
    "allowed are e<item>, e<item>:<start>, d and d:<start>, with items from 1 to 16,777,215 and starts from 0 to k - 1";

/// The sizes that a command is given.
fn sizes_of(request: &Request<'_>) -> Option<Sizes> {
    match request {
        Request::Run(options) => Some(options.sizes),
        Request::Replay(options) => Some(options.sizes),
        Request::Record(options) => Some(options.sizes),
        Request::Dispatch(options) => Some(options.sizes),
        _ => None,
    }
}

/// Adds which size is out of its range.
pub(crate) fn push_shape(
    text: &mut String,
    request: &Request<'_>,
    fault: ShapeFault,
) -> Result<(), AllocError> {
    let Some(sizes) = sizes_of(request) else {
        return write!(text, "{fault}");
    };
    let (k, segments, last) = (sizes.k, sizes.segments, sizes.last);
    let probes = sizes.probes.unwrap_or(k);
    match fault {
        ShapeFault::KOutOfRange => write!(text, "--k is {k}, allowed are 1 to 64"),
        ShapeFault::SegmentsOutOfRange => {
            write!(text, "--segments is {segments}, allowed are 2 to 1,024")
        }
        ShapeFault::LastOutOfRange => {
            write!(text, "--last is {last}, allowed are 2 to 1,099,511,627,775")
        }
        ShapeFault::ProbesOutOfRange => {
            write!(
                text,
                "--probes is {probes}, allowed are 1 to {k}, the value of --k"
            )
        }
    }
}

/// Adds which word, or which call of a script, is unreadable, and what is allowed. Words are counted from 1.
pub(crate) fn push_word(
    alloc: Global,
    text: &mut String,
    request: &Request<'_>,
    number: usize,
) -> Result<(), AllocError> {
    match request {
        Request::Run(options) => {
            let word = shown(alloc, nth(options.words, number).as_bytes())?;
            write!(text, "word {number} is {word}, {CALLS}")
        }
        Request::Replay(options) => {
            let script = nth(options.scripts, number);
            push_script(
                alloc,
                text,
                script,
                number,
                options.sizes.k,
                options.turns,
                1,
            )
        }
        Request::Record(options) => {
            let script = nth(options.scripts, number);
            let (k, turns) = (options.sizes.k, options.turns);
            push_script(alloc, text, script, number, k, turns, options.repeat)
        }
        Request::Dispatch(options) => {
            let word = shown(alloc, nth(options.words, number).as_bytes())?;
            write!(
                text,
                "word {number} is {word}, allowed are <id>:<left>:<sum>, with ids and sums below 2^32 and left from 0 \
                 to 65,535"
            )
        }
        _ => write!(text, "word {number} is unreadable or out of range"),
    }
}

/// The word with this number, from 1.
fn nth<'a>(words: &[&'a str], number: usize) -> &'a str {
    let place = number.saturating_sub(1);
    match words.get(place) {
        Some(word) => word,
        None => "",
    }
}

/// Adds which call of a script is unreadable; if none is, its items are too great to be made over so often.
fn push_script(
    alloc: Global,
    text: &mut String,
    script: &str,
    number: usize,
    k: u32,
    turns: u16,
    repeat: u32,
) -> Result<(), AllocError> {
    for word in script.split(',') {
        if read_call(word, k.max(1), turns).is_none() {
            let word = shown(alloc, word.as_bytes())?;
            return write!(
                text,
                "script {number} has the call {word}, {CALLS}, joined by commas"
            );
        }
    }
    write!(
        text,
        "script {number} has an item that --repeat {repeat} makes greater than 16,777,215, the greatest that is allowed"
    )
}

/// Adds why the value of `--order` is none.
pub(crate) fn push_order<H: Files>(
    alloc: Global,
    files: &H,
    text: &mut String,
    request: &Request<'_>,
) -> Result<(), AllocError> {
    const ALLOWED: &str = "allowed are call numbers joined by commas, and none";
    let order = match request {
        Request::Check(options) => options.order,
        Request::Draw(options) => options.check.order,
        _ => None,
    };
    let order = order.unwrap_or("");
    let Some(path) = order.strip_prefix('@') else {
        let order = shown(alloc, order.as_bytes())?;
        return write!(
            text,
            "--order is {order}, {ALLOWED}, or @ and the path of a file"
        );
    };
    match read_file(alloc, files, path) {
        Ok(_) => write!(text, "the file {path} of --order holds no order, {ALLOWED}"),
        Err(FileFault::Failed(Some(reason))) => {
            write!(text, "the file {path} of --order cannot be read: {reason}")
        }
        Err(FileFault::Failed(None)) => write!(text, "the file {path} of --order cannot be read"),
        Err(FileFault::TooLong) => {
            write!(
                text,
                "the file {path} of --order has over 16,777,216 bytes, which are allowed"
            )
        }
        Err(FileFault::Memory) => text.push_str(NO_MEMORY),
    }
}

/// Adds which group of `--picks` is unreadable; if none is, they are too many.
pub(crate) fn push_picks(
    alloc: Global,
    text: &mut String,
    request: &Request<'_>,
) -> Result<(), AllocError> {
    let Request::Replay(options) = request else {
        return text.push_str("--picks is unreadable");
    };
    for group in options.picks.split(',') {
        if read_group(group).is_none() {
            let group = shown(alloc, group.as_bytes())?;
            return write!(
                text,
                "--picks has {group}, allowed are <thread> and <thread>x<count>, joined by commas, or none"
            );
        }
    }
    text.push_str("--picks has over 16,777,216 picks, which are allowed")
}

/// The thread that the pick at this place names, from 0 over all groups.
fn picked(picks: &str, place: usize) -> Option<u32> {
    let mut left = place;
    for text in picks.split(',') {
        let group = read_group(text)?;
        let count = group.count as usize;
        if left < count {
            return Some(group.thread);
        }
        left -= count;
    }
    None
}

/// Adds why a replay was refused.
pub(crate) fn push_replay(
    text: &mut String,
    request: &Request<'_>,
    fault: ReplayFault,
) -> Result<(), AllocError> {
    let Request::Replay(options) = request else {
        return write!(text, "{fault}");
    };
    match fault {
        ReplayFault::BadPick(place) => push_pick(text, options, place),
        ReplayFault::BadScript => push_bad_script(text, options),
        ReplayFault::Memory => text.push_str(NO_MEMORY),
    }
}

/// Adds why a pick was refused.
fn push_pick(
    text: &mut String,
    options: &ReplayOptions<'_>,
    place: usize,
) -> Result<(), AllocError> {
    let count = options.scripts.len();
    match picked(options.picks, place) {
        Some(thread) if (thread as usize) < count => write!(
            text,
            "pick {place}, counted from 0, names thread {thread}, whose script has ended"
        ),
        Some(thread) => write!(
            text,
            "pick {place}, counted from 0, names thread {thread}, allowed are threads below {count}, the number of \
             scripts"
        ),
        None => write!(
            text,
            "pick {place}, counted from 0, names no thread that can step"
        ),
    }
}

/// Adds what is wrong with the scripts of a replay, or with the thread that stops.
fn push_bad_script(text: &mut String, options: &ReplayOptions<'_>) -> Result<(), AllocError> {
    let count = options.scripts.len();
    if count > 64 {
        return write!(text, "there are {count} scripts, allowed are 1 to 64");
    }
    for (place, script) in options.scripts.iter().enumerate() {
        let calls = script.split(',').count();
        if calls > 64 {
            let number = place + 1;
            return write!(
                text,
                "script {number} has {calls} calls, allowed are 1 to 64"
            );
        }
    }
    match options.stopped {
        Some(thread) => write!(
            text,
            "--stop is {thread}, allowed are threads below {count}, the number of scripts"
        ),
        None => text.push_str("a script has over 64 calls"),
    }
}

/// Adds why `record` was refused its queue.
pub(crate) fn push_open(
    text: &mut String,
    request: &Request<'_>,
    fault: OpenFault,
) -> Result<(), AllocError> {
    match (request, fault) {
        (Request::Record(options), OpenFault::ThreadsOutOfRange) => {
            let count = options.scripts.len();
            write!(text, "there are {count} scripts, allowed are 1 to 64")
        }
        (Request::Record(options), OpenFault::CallsOutOfRange) => push_long(text, options),
        (_, OpenFault::Memory) => text.push_str(NO_MEMORY),
        _ => write!(text, "{fault}"),
    }
}

/// Adds which script of `record` has too many calls.
fn push_long(text: &mut String, options: &RecordOptions<'_>) -> Result<(), AllocError> {
    let repeat = options.repeat;
    for (place, script) in options.scripts.iter().enumerate() {
        let calls = script.split(',').count();
        if calls.saturating_mul(repeat as usize) > 1024 {
            let number = place + 1;
            return write!(
                text,
                "script {number} has {calls} calls, made {repeat} times, allowed are 1,024 in all"
            );
        }
    }
    text.push_str("a script has over 1,024 calls with its repetitions")
}

/// Adds why tasks were not dispatched.
pub(crate) fn push_dispatch(
    text: &mut String,
    request: &Request<'_>,
    fault: DispatchFault,
) -> Result<(), AllocError> {
    let Request::Dispatch(options) = request else {
        return write!(text, "{fault}");
    };
    let (tasks, workers) = (options.words.len(), options.workers);
    match fault {
        DispatchFault::TooManyTasks => {
            write!(text, "there are {tasks} tasks, allowed are at most 1,024")
        }
        DispatchFault::RepeatedId => match repeated(options.words) {
            Some(id) => write!(text, "two tasks have the id {id}, allowed is one each"),
            None => write!(text, "{fault}"),
        },
        DispatchFault::WorkersOutOfRange => {
            write!(text, "--workers is {workers}, allowed are 1 to 63")
        }
        DispatchFault::Memory => text.push_str(NO_MEMORY),
    }
}

/// An id that two tasks have.
fn repeated(words: &[&str]) -> Option<u32> {
    for (place, word) in words.iter().enumerate() {
        let task = read_task(word)?;
        for earlier in words.iter().take(place) {
            if read_task(earlier)?.id == task.id {
                return Some(task.id);
            }
        }
    }
    None
}
