//! A reader that fails.

use crate::told::run_from;
use std::io;
use std::io::{ErrorKind, Read};
use std::rt::Files;
use std::test::Fail;
use std::thread::Threads;

/// Fails at its first call.
#[derive(Drop)]
struct Broken;

impl Read for Broken {
    fn read(&mut self, _piece: &mut [u8]) -> io::Result<usize> {
        Err(ErrorKind::Other.into())
    }
}

/// Whether the program, whose input fails, ends with this line and prints nothing else.
fn fails_with<R: Threads + Files + AllocGlobal + Sync>(rt: &R, texts: &[&str], line: &str) -> bool {
    match run_from(rt, texts, &mut Broken) {
        Ok(told) => told.is(1, "", line),
        Err(_) => false,
    }
}

#[test]
fn tells_where_the_input_fails(rt: HostRuntime) -> Result<(), Fail> {
    for texts in [
        ["check"].as_slice(),
        ["check", "--order", "none"].as_slice(),
        ["measure"].as_slice(),
    ] {
        assert!(rt; fails_with(&rt, texts, "kfifo: input\n"));
    }
    Ok(())
}

/// An order at fault is refused before anything is read: else the fault would be the input's.
#[test]
fn refuses_an_order_before_it_reads(rt: HostRuntime) -> Result<(), Fail> {
    for order in ["0,,1", "none,0", ""] {
        let texts = ["check", "--order", order];
        assert!(rt;
            fails_with(&rt, texts.as_slice(), "kfifo: order fault\n"),
            "{order}"
        );
    }
    Ok(())
}
