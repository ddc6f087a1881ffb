//! Readers and writers that go on in pieces, and fail where they are told to.

use kfifo_judge::FromStd;
use std::alloc::Global;
use std::io;
use std::io::{ErrorKind, Read, Write};

/// Gives bytes a few at a time, and fails at one of its calls.
#[derive(Drop)]
pub struct Pieces<'a> {
    pub bytes: &'a [u8],
    pub step: usize,
    pub fails_at: u64,
    pub calls: u64,
}

impl Read for Pieces<'_> {
    fn read(&mut self, piece: &mut [u8]) -> io::Result<usize> {
        self.calls = self.calls.wrapping_add(1);
        if self.calls == self.fails_at {
            return Err(ErrorKind::Other.into());
        }
        let count = piece.len().min(self.bytes.len()).min(self.step);
        piece[..count].copy_from_slice(&self.bytes[..count]);
        self.bytes = &self.bytes[count..];
        Ok(count)
    }
}

/// Takes bytes a few at a time, and fails at one of its calls, or takes none there.
#[derive(Drop)]
pub struct Page {
    pub taken: Vec<u8>,
    step: usize,
    fails_at: u64,
    stalls_at: u64,
    pub calls: u64,
}

impl Write for Page {
    fn write(&mut self, piece: &[u8]) -> io::Result<usize> {
        self.calls = self.calls.wrapping_add(1);
        if self.calls == self.fails_at {
            return Err(ErrorKind::Other.into());
        }
        if self.calls == self.stalls_at {
            return Ok(0);
        }
        let count = piece.len().min(self.step);
        self.taken.extend_from_slice(&piece[..count])?;
        Ok(count)
    }

    fn flush(&mut self) -> io::Result<()> {
        Ok(())
    }
}

/// A source that gives bytes in pieces.
pub type Input<'a> = FromStd<Pieces<'a>>;

/// A sink that takes bytes in pieces.
pub type Output = FromStd<Page>;

/// The text in pieces of seven bytes, where reading fails at a call, 0 for never.
pub fn pieces_of(text: &str, fails_at: u64) -> Pieces<'_> {
    Pieces {
        bytes: text.as_bytes(),
        step: 7,
        fails_at,
        calls: 0,
    }
}

/// A source of these pieces.
pub fn source_of(text: &str, fails_at: u64) -> Input<'_> {
    FromStd::new(pieces_of(text, fails_at))
}

/// A sink that takes three bytes at a time, and fails or stalls at a call, 0 for never.
pub fn sink_with(alloc: Global, fails_at: u64, stalls_at: u64) -> Output {
    FromStd::new(Page {
        taken: Vec::new(alloc),
        step: 3,
        fails_at,
        stalls_at,
        calls: 0,
    })
}
