//! Runs of the whole program over readers and writers in memory.

use std::alloc::{AllocError, Global};
use std::io::{Read, Write};
use std::rt::Files;
use std::thread::Threads;

/// The program, with nothing said of its answer: no test needs what its contract says.
pub fn program<T: Threads + Files + Sync, R: Read, W: Write, F: Write>(
    threads: &T,
    alloc: Global,
    words: &[String],
    input: &mut R,
    output: &mut W,
    faults: &mut F,
) -> u8 {
    kfifo_cli::program(threads, alloc, words, input, output, faults)
}

/// What a run of the program came to.
#[derive(Drop)]
pub struct Told {
    pub status: u8,
    pub output: Vec<u8>,
    pub faults: Vec<u8>,
}

impl Told {
    /// Whether it ended with this status, and wrote these texts.
    pub fn is(&self, status: u8, output: &str, faults: &str) -> bool {
        self.status == status
            && self.output.as_slice() == output.as_bytes()
            && self.faults.as_slice() == faults.as_bytes()
    }
}

/// The words of a command line.
pub fn words(alloc: Global, texts: &[&str]) -> Result<Vec<String>, AllocError> {
    let mut words = Vec::new(alloc);
    for text in texts {
        words.push(String::from_str(alloc, text)?)?;
    }
    Ok(words)
}

/// Runs the program on these words and this input.
pub fn run_from<R: Threads + Files + AllocGlobal + Sync, I: Read>(
    rt: &R,
    texts: &[&str],
    input: &mut I,
) -> Result<Told, AllocError> {
    let alloc = rt.alloc();
    let words = words(alloc, texts)?;
    let mut output = Vec::new(alloc);
    let mut faults = Vec::new(alloc);
    let status = program(rt, alloc, words.as_slice(), input, &mut output, &mut faults);
    Ok(Told {
        status,
        output,
        faults,
    })
}
