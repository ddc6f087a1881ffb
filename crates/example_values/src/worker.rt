//! What one thread does with its handle.
ghost use Rattle.std.specs.Prelude.{◌≡◌, ◌+◌, ◌%◌, ◌^◌, IsErr, OnOk, length};
ghost use Rattle.kfifo_renewing.specs.Renewing.{IsOfSameQueue};
ghost use Rattle.example_values.specs.Takes.{TakesOne};

use kfifo_live::{Given, Taken};
use kfifo_renewing::RenewingHandle;
use std::alloc::{AllocError, Global};
use std::fmt;
use std::thread::yield_now;
use thiserror::Error;

/// How many texts a thread makes.
const TEXTS: u32 = 1_000;

/// How often a text is offered to the queue.
const TRIES: u32 = 1_000;

/// How many texts there were, and their bytes.
#[derive(Clone, Copy, Default)]
pub struct Tally {
    pub texts: u64,
    pub bytes: u64,
}

impl Tally {
    /// Counts a text.
    pub fn add(&mut self, text: &str)
        ensures texts { self.new.texts ≡ (self.old.texts + 1) % 2 ^ 64 }
        ensures bytes { self.new.bytes ≡ (self.old.bytes + length text.now) % 2 ^ 64 }
    {
        self.texts = self.texts.wrapping_add(1);
        self.bytes = self.bytes.wrapping_add(text.len() as u64);
    }

    /// Counts what another tally has counted.
    pub fn add_all(&mut self, other: Tally)
        ensures texts { self.new.texts ≡ (self.old.texts + other.texts) % 2 ^ 64 }
        ensures bytes { self.new.bytes ≡ (self.old.bytes + other.bytes) % 2 ^ 64 }
    {
        self.texts = self.texts.wrapping_add(other.texts);
        self.bytes = self.bytes.wrapping_add(other.bytes);
    }
}

impl fmt::Display for Tally {
    fn fmt<W: fmt::Write>(&self, f: &mut fmt::Formatter<W>) -> fmt::Result {
        write!(f, "{} texts of {} bytes", self.texts, self.bytes)
    }
}

/// Why a thread ended before it had made all its texts.
#[derive(Clone, Copy, PartialEq, Eq, Debug, Error)]
pub enum Fault {
    /// Memory for a text was refused.
    #[error("memory for a text was refused")]
    Memory,
    /// The queue could not open its next generation, or one has no versions left.
    #[error("out of memory, or the queue is worn out")]
    Worn,
}

impl From<AllocError> for Fault {
    fn from(_: AllocError) -> Fault {
        Fault::Memory
    }
}

/// The handle of a thread, and what was made and taken with it.
#[derive(Drop)]
pub struct Worker {
    pub handle: RenewingHandle<String>,
    pub made: Tally,
    /// The texts that it took, and those that it could not give.
    pub out: Tally,
    /// Whether it made all its texts.
    pub ended: Result<(), Fault>,
}

impl Worker {
    /// One that has done nothing.
    pub fn new(handle: RenewingHandle<String>) -> Worker
        ensures handle { result.handle ≡ handle }
        ensures nothing { result.made.texts ≡ 0 }
    {
        Worker {
            handle,
            made: Tally::default(),
            out: Tally::default(),
            ended: Ok(()),
        }
    }

    /// Makes 1,000 texts, gives each to the queue, and takes one after each.
    pub fn work(&mut self, alloc: Global)
        requires { self.old.made.texts ≡ 0 }
        ensures made { OnOk self.new.ended (self.new.made.texts ≡ TEXTS) }
        ensures handle { IsOfSameQueue self.old.handle self.new.handle }
    {
        self.ended = self.make_texts(alloc);
    }

    fn make_texts(&mut self, alloc: Global) -> Result<(), Fault>
        requires { self.old.made.texts ≡ 0 }
        ensures made { OnOk result (self.new.made.texts ≡ TEXTS) }
        ensures handle { IsOfSameQueue self.old.handle self.new.handle }
    {
        for number in 0..TEXTS {
            let text = format!(in alloc; "text {number}")?;
            self.made.add(text.as_str());
            self.give(text)?;
            self.take()?;
        }
        Ok(())
    }

    /// Gives a text. While the queue is full, takes others to make room. What the queue does not get, the thread keeps.
    fn give(&mut self, text: String) -> Result<(), Fault>
        ensures made { self.new.made ≡ self.old.made }
        ensures handle { IsOfSameQueue self.old.handle self.new.handle }
    {
        let mut offered = text;
        for _try in 0..TRIES {
            match self.handle.give(offered) {
                Given::Done => return Ok(()),
                // The refused text is the thread's own again. There is no room for it, or each token is with a text.
                Given::Full(back) | Given::NoToken(back) => {
                    offered = back;
                    self.take()?;
                }
                // Others were faster.
                Given::Busy(back) => {
                    offered = back;
                    yield_now();
                }
                // Memory is missing for the next generation. To try again for ever would be no use.
                Given::Worn(back) => {
                    self.out.add(back.as_str());
                    return Err(Fault::Worn);
                }
            }
        }
        self.out.add(offered.as_str());
        Ok(())
    }

    /// Takes one of the k oldest texts, if there is one.
    fn take(&mut self) -> Result<(), Fault>
        ensures made { self.new.made ≡ self.old.made }
        ensures handle { IsOfSameQueue self.old.handle self.new.handle }
        ensures takes { TakesOne (IsErr result) self.old.out.texts self.new.out.texts self.old.handle self.new.handle }
    {
        match self.handle.take() {
            Taken::Got(text) => {
                self.out.add(text.as_str());
                Ok(())
            }
            // There is no text, or others were faster. What is left comes out later, or at the close.
            Taken::Empty | Taken::Busy => Ok(()),
            Taken::Worn => Err(Fault::Worn),
        }
    }
}
