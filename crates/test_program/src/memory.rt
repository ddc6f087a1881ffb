//! Memory that is refused. Under `rt try --test --fail-alloc N -- refused_memory`, for N from 1 on, the tests named
//! so meet each refusal in turn; the others have ample memory, and look at the whole answer.

use crate::told::{program, words};
use std::io;
use std::io::Cursor;
use std::rt::Files;
use std::thread::Threads;

/// An empty page.
fn page() -> Cursor<[u8; 4096]> {
    Cursor::new([0u8; 4096])
}

/// What was written to a page. A page takes no memory.
fn written(page: &Cursor<[u8; 4096]>) -> Option<&[u8]> {
    page.get_ref().get(..page.position() as usize)
}

/// What was written to a page holds this text.
fn holds(page: &Cursor<[u8; 4096]>, text: &str) -> bool {
    written(page) == Some(text.as_bytes())
}

/// What a command line comes to.
struct Case {
    words: [&'static str; 5],
    status: u8,
    output: &'static str,
    faults: &'static str,
}

const CASES: [Case; 5] = [
    Case {
        words: ["run", "--k", "1", "e7", "d"],
        status: 0,
        output: "enqueue 7: done\ndequeue: got 7\nhead 0 v2\ntail 1 v2\n\
                 slot 0.0 0 v2\nslot 1.0 0 v0\n",
        faults: "",
    },
    Case {
        words: ["run", "-k", "2", "e7", "x"],
        status: 1,
        output: "",
        faults: "kfifo: word fault at 2\n",
    },
    Case {
        words: ["run", "--turns", "0", "d", "d"],
        status: 2,
        output: "",
        faults: "error: invalid value '0' for '--turns <ROUNDS>': 0 is not in 1..=65535\n\n\
                 For more information, try '--help'.\n",
    },
    Case {
        words: ["replay", "--picks", "0x7", "e7", "d"],
        status: 0,
        output: "steps 7\norder 0\nworst rank 0\nrollbacks 0\n",
        faults: "",
    },
    Case {
        words: ["dispatch", "-k", "1", "9:2:5", "2:1:1"],
        status: 0,
        output: "2 2\n9 8\n",
        faults: "",
    },
];

/// How a case ended.
#[derive(Clone, Copy, PartialEq, Eq)]
enum Ended {
    AsWanted,
    Refused,
    Otherwise,
}

fn run_case<R: Threads + Files + AllocGlobal + Sync>(rt: &R, case: &Case) -> Ended {
    let Ok(words) = words(rt.alloc(), case.words.as_slice()) else {
        return Ended::Refused;
    };
    let (mut output, mut faults) = (page(), page());
    let mut input = io::empty();
    let status = program(
        rt,
        rt.alloc(),
        words.as_slice(),
        &mut input,
        &mut output,
        &mut faults,
    );
    if status == case.status && holds(&output, case.output) && holds(&faults, case.faults) {
        return Ended::AsWanted;
    }
    let is_told = holds(&faults, "kfifo: memory\n")
        || holds(&faults, "kfifo: replay fault 2\n")
        || holds(&faults, "kfifo: dispatch fault 3\n");
    if status == 1 && holds(&output, "") && is_told {
        return Ended::Refused;
    }
    Ended::Otherwise
}

#[test]
fn ample_memory(rt: HostRuntime) {
    for case in &CASES {
        assert!(rt; run_case(&rt, case) == Ended::AsWanted);
    }
}

#[test]
fn refused_memory_of_an_answer(rt: HostRuntime) {
    assert!(rt; run_case(&rt, &CASES[0]) != Ended::Otherwise);
}

#[test]
fn refused_memory_of_a_fault(rt: HostRuntime) {
    assert!(rt; run_case(&rt, &CASES[1]) != Ended::Otherwise);
}

#[test]
fn refused_memory_of_a_replay(rt: HostRuntime) {
    assert!(rt; run_case(&rt, &CASES[3]) != Ended::Otherwise);
}

#[test]
fn refused_memory_of_a_dispatch(rt: HostRuntime) {
    assert!(rt; run_case(&rt, &CASES[4]) != Ended::Otherwise);
}

#[test]
fn refused_memory_of_a_misuse(rt: HostRuntime) {
    assert!(rt; run_case(&rt, &CASES[2]) != Ended::Otherwise);
}

/// Memory that is refused before the first line is the fault of the program, and from there on that of a file: the
/// others have their lines all the same, and so has the count.
#[test]
fn refused_memory_of_several_files(rt: HostRuntime) {
    let Ok(words) = words(rt.alloc(), ["judge", "gone.csv", "lost.csv"].as_slice()) else {
        return;
    };
    let (mut output, mut faults) = (page(), page());
    let mut input = io::empty();
    let alloc = rt.alloc();
    let status = program(
        &rt,
        alloc,
        words.as_slice(),
        &mut input,
        &mut output,
        &mut faults,
    );
    assert!(rt; status == 1);
    if holds(&faults, "kfifo: memory\n") {
        assert!(rt; holds(&output, ""));
        return;
    }
    assert!(rt; holds(&faults, ""));
    let lines = written(&output).unwrap_or(&[]);
    assert!(rt; lines.starts_with(b"gone.csv: "));
    assert!(rt; lines.ends_with(b"files 2 for k = 1: legal 0, no order 0, undecided 0, fault 2\n"));
    assert_eq!(rt; lines.iter().filter(|byte| **byte == b'\n').count(), 3);
}
