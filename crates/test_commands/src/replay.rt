//! What a replay tells of how far it has come.

use kfifo_cli_commands::{Notes, Progress, Stage, Status, carry_out};
use kfifo_cli_requests::{ReplayOptions, Request, Sizes};
use kfifo_cli_texts::Printer;
use kfifo_judge::FromStd;
use kfifo_words::MAX_VERSION;
use std::alloc::{AllocError, Global};
use std::fmt::Write;
use std::io;
use std::rt::Files;
use std::test::Fail;
use std::thread::Threads;

/// Counts what it is told.
#[derive(Drop)]
struct Counted {
    calls: u64,
    made: u64,
    all: u64,
    fell: bool,
    endings: u64,
}

impl Progress for Counted {
    fn told(&mut self, made: u64, all: u64) {
        self.calls = self.calls.saturating_add(1);
        self.fell = self.fell || made < self.made || all < made;
        self.made = made;
        self.all = all;
    }

    fn begun(&mut self, _stage: Stage) {}

    fn ended(&mut self) {
        self.endings = self.endings.saturating_add(1);
    }
}

impl Notes for Counted {
    fn explained(&mut self, _lines: &str) {}
}

/// So many rounds of 64 threads, in which each is picked once, and a pick more.
fn picks(alloc: Global, rounds: u32) -> Result<String, AllocError> {
    let mut text = String::new(alloc);
    for _ in 0..rounds {
        for thread in 0..64u32 {
            write!(text, "{thread},")?;
        }
    }
    text.push('0')?;
    Ok(text)
}

/// 64 scripts of enqueues and dequeues in turn, with a space between each two.
fn scripts(alloc: Global) -> Result<String, AllocError> {
    let mut text = String::new(alloc);
    for thread in 0..64u32 {
        if thread > 0 {
            text.push(' ')?;
        }
        text.push_str(if thread % 2 == 0 { "e1" } else { "d,e1" })?;
        for _ in 0..30u32 {
            text.push_str(",d,e1")?;
        }
    }
    Ok(text)
}

/// What is told of a replay of so many rounds, which has to give its answer.
fn notes_of<R: Threads + Files + AllocGlobal + Sync>(
    rt: &R,
    rounds: u32,
) -> Result<Option<Counted>, AllocError> {
    let alloc = rt.alloc();
    let picks = picks(alloc, rounds)?;
    let line = scripts(alloc)?;
    let scripts: Vec<&str> = line.split(' ').collect(alloc)?;
    let sizes = Sizes {
        k: 1,
        segments: 2,
        last: MAX_VERSION,
        probes: None,
        hold_again: false,
    };
    let options = ReplayOptions {
        sizes,
        turns: 65_535,
        picks: picks.as_str(),
        stopped: None,
        points: false,
        trace: false,
        record: false,
        scripts: scripts.as_slice(),
    };
    let mut input = FromStd::new(io::empty());
    let (mut output, mut faults) = (Vec::new(alloc), Vec::new(alloc));
    let mut notes = Counted {
        calls: 0,
        made: 0,
        all: 0,
        fell: false,
        endings: 0,
    };
    let status = carry_out(
        alloc,
        rt,
        Request::Replay(options),
        &mut input,
        &mut Printer::new(&mut output),
        &mut Printer::new(&mut faults),
        &mut notes,
    );
    Ok((status == Status::Answered && faults.is_empty()).then_some(notes))
}

#[test]
fn a_long_replay_tells_how_far_it_has_come(rt: HostRuntime) -> Result<(), Fail> {
    let Some(notes) = notes_of(&rt, 9_000)? else {
        return Err(Fail::new("no answer"));
    };
    assert_eq!(rt; notes.calls, 2);
    assert_eq!(rt; notes.made, 524_288);
    assert_eq!(rt; notes.all, 576_001);
    assert!(rt; !notes.fell);
    assert_eq!(rt; notes.endings, 1);
    Ok(())
}

#[test]
fn a_short_replay_tells_nothing(rt: HostRuntime) -> Result<(), Fail> {
    let Some(notes) = notes_of(&rt, 4)? else {
        return Err(Fail::new("no answer"));
    };
    assert_eq!(rt; notes.calls, 0);
    assert_eq!(rt; notes.endings, 1);
    Ok(())
}
