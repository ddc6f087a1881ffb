//! Where long work tells how far it has come, and a command what is wrong with its input.
ghost use Rattle.std.specs.Prelude.{◌≤◌};

/// Gets told how far a piece of work has come. No answer depends on what it does with that.
pub trait Progress {
    /// So many steps of so many in all are made.
    fn told(&mut self, made: u64, all: u64);

    /// This part of the work begins.
    fn begun(&mut self, stage: Stage);

    /// The work is done, or was given up.
    fn ended(&mut self);
}

/// A part of the work on the calls of an input.
#[derive(Clone, Copy, Debug, PartialEq, Eq)]
pub enum Stage {
    /// So many bytes of a log are read and parsed so far.
    Reading(u64),
    /// So many calls are judged, or looked for evidence.
    Judging(usize),
}

/// Bytes that are read and parsed in about a second.
const LONG_TEXT: u64 = 33_554_432;

/// Calls that are judged in about a second.
const LONG_HISTORY: usize = 1_000_000;

impl Stage {
    /// Whether it takes long enough to be shown.
    pub fn is_long(self) -> bool {
        match self {
            Stage::Reading(bytes) => bytes >= LONG_TEXT,
            Stage::Judging(calls) => calls >= LONG_HISTORY,
        }
    }
}

/// Adds the bytes of a piece to those that were read before, and tells the progress at each 33,554,432 further ones.
pub(crate) fn tell_read<P: Progress>(progress: &mut P, before: u64, piece: usize) -> u64 {
    let read = before.saturating_add(piece as u64);
    if read / LONG_TEXT > before / LONG_TEXT {
        progress.begun(Stage::Reading(read));
    }
    read
}

/// Gets told why there is no answer. No answer depends on what it does with that.
pub trait Notes {
    /// The line of the fault is written. These lines follow: what is wrong in words, and how to have it explained.
    fn explained(&mut self, lines: &str);
}

/// Tells nobody.
#[derive(Drop)]
pub struct Silent;

impl Progress for Silent {
    fn told(&mut self, _made: u64, _all: u64) {}

    fn begun(&mut self, _stage: Stage) {}

    fn ended(&mut self) {}
}

impl Notes for Silent {
    fn explained(&mut self, _lines: &str) {}
}

/// The steps that are made between two calls of a progress.
const PIECE: u32 = 262_144;

/// Counts the steps of a piece of work, and tells the progress at each 262,144 further ones.
#[derive(Drop)]
pub struct Meter<'a, P> {
    progress: &'a mut P,
    made: u64,
    all: u64,
}

impl<'a, P: Progress> Meter<'a, P> {
    /// Begins a piece of work of so many steps in all.
    pub fn new(progress: &'a mut P, all: u64) -> Meter<'a, P> {
        Meter {
            progress,
            made: 0,
            all,
        }
    }

    /// How many steps can be made before the next call of the progress, at least 1.
    pub fn room(&self) -> u32
        ensures { 1 ≤ result }
    {
        PIECE - (self.made % u64::from(PIECE)) as u32
    }

    /// So many further steps are made.
    pub fn add(&mut self, steps: u32) {
        self.made = self.made.saturating_add(u64::from(steps));
        if self.made % u64::from(PIECE) == 0 {
            self.progress.told(self.made, self.all);
        }
    }
}
