//! Writers that fail.

use crate::told::{program, words};
use std::alloc::{AllocError, Global};
use std::io;
use std::io::{ErrorKind, Write};
use std::rt::Files;
use std::test::Fail;
use std::thread::Threads;

/// Takes so many bytes, and then fails.
#[derive(Drop)]
struct Closing {
    room: usize,
}

impl Write for Closing {
    fn write(&mut self, buf: &[u8]) -> io::Result<usize> {
        if self.room == 0 {
            return Err(io::Error::from(ErrorKind::BrokenPipe));
        }
        let taken = buf.len().min(self.room);
        self.room -= taken;
        Ok(taken)
    }

    fn flush(&mut self) -> io::Result<()> {
        Ok(())
    }
}

/// Takes so many bytes and keeps them, and then fails.
#[derive(Drop)]
struct Taking {
    taken: Vec<u8>,
    room: usize,
}

impl Write for Taking {
    fn write(&mut self, buf: &[u8]) -> io::Result<usize> {
        if self.taken.len() >= self.room {
            return Err(io::Error::from(ErrorKind::BrokenPipe));
        }
        let taken = buf.len().min(self.room - self.taken.len());
        self.taken.extend_from_slice(&buf[..taken])?;
        Ok(taken)
    }

    fn flush(&mut self) -> io::Result<()> {
        Ok(())
    }
}

/// Takes all bytes, and fails to pass them on.
#[derive(Drop)]
struct Stuck;

impl Write for Stuck {
    fn write(&mut self, buf: &[u8]) -> io::Result<usize> {
        Ok(buf.len())
    }

    fn flush(&mut self) -> io::Result<()> {
        Err(io::Error::from(ErrorKind::Other))
    }
}

/// Is interrupted at each second call, and takes a byte at each other one.
#[derive(Drop)]
struct Interrupted {
    taken: Vec<u8>,
    calls: u64,
}

impl Write for Interrupted {
    fn write(&mut self, buf: &[u8]) -> io::Result<usize> {
        self.calls = self.calls.wrapping_add(1);
        if self.calls % 2 == 1 {
            return Err(io::Error::from(ErrorKind::Interrupted));
        }
        let taken = buf.len().min(1);
        self.taken.extend_from_slice(&buf[..taken])?;
        Ok(taken)
    }

    fn flush(&mut self) -> io::Result<()> {
        Ok(())
    }
}

/// A writer that was not called yet.
fn never_called(alloc: Global) -> Interrupted {
    Interrupted {
        taken: Vec::new(alloc),
        calls: 0,
    }
}

/// Takes no byte, and does not say why.
#[derive(Drop)]
struct Stopped;

impl Write for Stopped {
    fn write(&mut self, _buf: &[u8]) -> io::Result<usize> {
        Ok(0)
    }

    fn flush(&mut self) -> io::Result<()> {
        Ok(())
    }
}

/// The status of a run with these writers.
fn status_of<R: Threads + Files + AllocGlobal + Sync, W: Write, F: Write>(
    rt: &R,
    texts: &[&str],
    output: &mut W,
    faults: &mut F,
) -> Result<u8, AllocError> {
    let alloc = rt.alloc();
    let words = words(alloc, texts)?;
    let mut input = "[]".as_bytes();
    Ok(program(rt, alloc, words.as_slice(), &mut input, output, faults))
}

#[test]
fn ends_where_the_output_is_closed(rt: HostRuntime) -> Result<(), Fail> {
    for texts in [
        ["run", "e7", "d"].as_slice(),
        ["run", "--help"].as_slice(),
        ["check"].as_slice(),
        ["measure"].as_slice(),
    ] {
        let mut whole = Vec::new(rt.alloc());
        let mut faults = Vec::new(rt.alloc());
        let status = status_of(&rt, texts, &mut whole, &mut faults)?;
        assert!(rt; status == 0 && !whole.is_empty());
        for room in 0..whole.len() {
            let mut output = Closing { room };
            let status = status_of(&rt, texts, &mut output, &mut faults)?;
            assert!(rt; status == 1 && faults.is_empty(), "after {room} bytes");
        }
        let mut output = Closing { room: whole.len() };
        assert!(rt; status_of(&rt, texts, &mut output, &mut faults)? == 0);
        assert!(rt; status_of(&rt, texts, &mut Stuck, &mut faults)? == 1);
        assert!(rt; status_of(&rt, texts, &mut Stopped, &mut faults)? == 1);
        assert!(rt; faults.is_empty());
    }
    Ok(())
}

/// The lines of files are printed one by one: the output may close within any of them, or behind one.
#[test]
fn ends_where_the_output_of_several_files_is_closed(rt: HostRuntime) -> Result<(), Fail> {
    for texts in [
        ["judge", "gone.csv", "lost.csv"].as_slice(),
        ["judge", "--json", "gone.csv", "lost.csv"].as_slice(),
    ] {
        let mut whole = Vec::new(rt.alloc());
        let mut faults = Vec::new(rt.alloc());
        assert!(rt; status_of(&rt, texts, &mut whole, &mut faults)? == 1);
        for room in 0..whole.len() {
            let mut output = Taking {
                taken: Vec::new(rt.alloc()),
                room,
            };
            assert!(rt; status_of(&rt, texts, &mut output, &mut faults)? == 1);
            assert_eq!(rt; output.taken.as_slice(), &whole[..room]);
        }
        assert!(rt; status_of(&rt, texts, &mut Stuck, &mut faults)? == 1);
        assert!(rt; faults.is_empty());
    }
    Ok(())
}

#[test]
fn goes_on_after_an_interruption(rt: HostRuntime) -> Result<(), Fail> {
    for (texts, wanted) in [
        (["run", "e7", "d"].as_slice(), 0),
        (["run", "x"].as_slice(), 1),
    ] {
        let mut output = Vec::new(rt.alloc());
        let mut faults = Vec::new(rt.alloc());
        assert!(rt; status_of(&rt, texts, &mut output, &mut faults)? == wanted);
        let mut slow_output = never_called(rt.alloc());
        let mut slow_faults = never_called(rt.alloc());
        assert!(rt; status_of(&rt, texts, &mut slow_output, &mut slow_faults)? == wanted);
        assert_eq!(rt; slow_output.taken.as_slice(), output.as_slice());
        assert_eq!(rt; slow_faults.taken.as_slice(), faults.as_slice());
    }
    Ok(())
}

#[test]
fn keeps_its_status_where_a_fault_cannot_be_written(rt: HostRuntime) -> Result<(), Fail> {
    for (texts, wanted) in [
        (["run", "x"].as_slice(), 1),
        (["run", "--k", "0", "d"].as_slice(), 1),
        (["run", "--k"].as_slice(), 2),
        (["walk"].as_slice(), 2),
    ] {
        for room in 0..9 {
            let mut output = Vec::new(rt.alloc());
            let mut faults = Closing { room };
            let status = status_of(&rt, texts, &mut output, &mut faults)?;
            assert!(rt; status == wanted && output.is_empty(), "after {room} bytes");
        }
    }
    Ok(())
}
