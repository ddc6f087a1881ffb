//! Stretches of numbers on the command line.
ghost use Rattle.std.specs.Prelude.{MatchOption};
ghost use Rattle.kfifo_cli_texts.specs.declared.stretch.Stretch.{Stretch as StretchData};
ghost use Rattle.kfifo_cli_texts.specs.Stretches.{WritesStretch};

use crate::words::read_number;

/// The numbers from one to another, both among them.
#[derive(Clone, Copy, Debug, PartialEq, Eq)]
pub struct Stretch {
    /// The first number.
    pub first: u64,
    /// The last one, no less than the first.
    pub last: u64,
}

/// The stretch that a text writes: `<first>-<last>`, of 1 to 10 digits each, where the last is no less than the first.
pub fn read_stretch(text: &str) -> Option<Stretch>
    ensures { MatchOption result ((stretch : StretchData) → ¬ WritesStretch text.now stretch) (WritesStretch text.now) }
{
    let (before, behind) = text.split_once('-')?;
    let first = read_number(before)?;
    let last = read_number(behind)?;
    if last < first {
        return None;
    }
    Some(Stretch { first, last })
}
