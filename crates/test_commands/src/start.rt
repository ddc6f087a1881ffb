//! The hint of a reader that waits, and the line of the progress.

use kfifo_cli_commands::{Notes, Progress, ProgressLine, Prompting, Stage};
use std::io;
use std::io::Read;
use std::test::Fail;
use std::time::{Clock, Duration, Instant};

const HINT: &str = "reading from the terminal: end the input by Ctrl-D on a line of its own\n";

/// A blank line that is written over the progress.
const BLANKS: &str = "\r                                \r";

#[test]
fn hints_before_the_first_read_alone(rt: HostRuntime) -> Result<(), Fail> {
    let mut told = Vec::new(rt.alloc());
    let mut input = Prompting::new("ab".as_bytes(), Some(&mut told));
    let mut piece = [0u8; 1];
    for byte in [b'a', b'b'] {
        assert_eq!(rt; input.read(&mut piece)?, 1);
        assert_eq!(rt; piece[0], byte);
    }
    assert_eq!(rt; input.read(&mut piece)?, 0);
    drop(input);
    assert_eq!(rt; told.as_slice(), HINT.as_bytes());
    Ok(())
}

/// A clock that stands still at so many seconds.
struct Still(u64);

impl Clock for Still {
    fn monotonic(&self) -> io::Result<Duration> {
        Ok(Duration::from_secs(self.0))
    }

    fn since_1970(&self) -> io::Result<Duration> {
        Ok(Duration::from_secs(self.0))
    }
}

#[test]
fn shows_the_progress_once_a_second_has_gone_by(rt: HostRuntime) -> Result<(), Fail> {
    let mut shown = Vec::new(rt.alloc());
    let mut notes = Vec::new(rt.alloc());
    let begun = Instant::now(&Still(2)).ok();
    let mut progress = ProgressLine::new(&Still(3), begun, Some(&mut shown), &mut notes);
    progress.told(1, 4);
    progress.told(2, 4);
    progress.ended();
    progress.ended();
    drop(progress);
    let wanted = format!(in rt.alloc(); "\rkfifo: 25 %\rkfifo: 50 %{BLANKS}")?;
    assert_eq!(rt; shown.as_slice(), wanted.as_bytes());
    Ok(())
}

#[test]
fn shows_what_is_done_with_a_long_log(rt: HostRuntime) -> Result<(), Fail> {
    let mut shown = Vec::new(rt.alloc());
    let mut notes = Vec::new(rt.alloc());
    let begun = Instant::now(&Still(2)).ok();
    let mut progress = ProgressLine::new(&Still(2), begun, Some(&mut shown), &mut notes);
    progress.begun(Stage::Reading(33_554_431));
    progress.begun(Stage::Judging(999_999));
    progress.begun(Stage::Reading(351_666_715));
    progress.begun(Stage::Judging(10_000_000));
    progress.ended();
    drop(progress);
    let wanted = format!(in rt.alloc();
        "\rkfifo: read 351 MB{BLANKS}\rkfifo: judging 10000000 calls{BLANKS}"
    )?;
    assert_eq!(rt; shown.as_slice(), wanted.as_bytes());
    Ok(())
}

const WRONG: &str = "line 3: op is \"push\"\n";

#[test]
fn shows_what_is_wrong(rt: HostRuntime) -> Result<(), Fail> {
    let mut notes = Vec::new(rt.alloc());
    let mut progress = ProgressLine::new(&Still(2), None, None, &mut notes);
    progress.explained(WRONG);
    drop(progress);
    assert_eq!(rt; notes.as_slice(), WRONG.as_bytes());
    Ok(())
}

#[test]
fn shows_nothing_before_a_second_has_gone_by(rt: HostRuntime) -> Result<(), Fail> {
    let mut shown = Vec::new(rt.alloc());
    let mut notes = Vec::new(rt.alloc());
    let begun = Instant::now(&Still(2)).ok();
    let mut progress = ProgressLine::new(&Still(2), begun, Some(&mut shown), &mut notes);
    progress.told(1, 4);
    progress.ended();
    drop(progress);
    assert!(rt; shown.is_empty());
    Ok(())
}
