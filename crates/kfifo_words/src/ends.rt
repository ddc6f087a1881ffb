//! The ends word: where head and tail stand.
ghost use Rattle.std.specs.Prelude.{◌≡◌, ◌^◌, ◌<◌};
ghost use Rattle.kfifo_words.specs.Words.{ends_word, head_of, tail_of, version_of};

use crate::word::{VALUES, Word};
use std::marker::Model;

/// The index of the ends word in the table.
pub const ENDS_INDEX: usize = 0;

/// The number of segment numbers that a word can have: 12 bits.
pub const SEGMENT_NUMBERS: u64 = 4_096;

/// The ends word: head and tail, segment numbers below 4,096, under one version below 2^40.
///
/// Clauses see it as the number of its bits.
#[derive(Clone, Copy, PartialEq, Eq, Debug)]
pub struct Ends {
    bits: u64,
}

impl Model for Ends {
    ghost use Rattle.std.specs.Prelude.{ℕ};

    ghost Value = { ℕ };

    ghost view = { λ e. e.bits };

    ghost inverse = { λ n. record { bits = n } };
}

impl Ends {
    /// The ends word with this head, this tail and this version.
    #[tactic(auto, unfolding(crate::specs::Words::ends_word, crate::specs::Words::head_of, crate::specs::Words::tail_of, crate::specs::Words::version_of))]
    pub fn pack(head: u32, tail: u32, version: u64) -> Ends
        requires head_fits { head < SEGMENT_NUMBERS }
        requires tail_fits { tail < SEGMENT_NUMBERS }
        requires version_fits { version < 2 ^ 40 }
        ensures word { result ≡ ends_word head tail version }
        ensures head_again { head_of result ≡ head }
        ensures tail_again { tail_of result ≡ tail }
        ensures version_again { version_of result ≡ version }
    {
        Ends {
            bits: version * VALUES + (u64::from(head) * SEGMENT_NUMBERS + u64::from(tail)),
        }
    }

    /// The head's segment.
    #[tactic(auto, unfolding(crate::specs::Words::head_of))]
    pub fn head(self) -> u32
        ensures value { result ≡ head_of self }
        ensures fits { result < SEGMENT_NUMBERS }
    {
        (self.bits / SEGMENT_NUMBERS % SEGMENT_NUMBERS) as u32
    }

    /// The tail's segment.
    #[tactic(auto, unfolding(crate::specs::Words::tail_of))]
    pub fn tail(self) -> u32
        ensures value { result ≡ tail_of self }
        ensures fits { result < SEGMENT_NUMBERS }
    {
        (self.bits % SEGMENT_NUMBERS) as u32
    }

    /// The version that head and tail share.
    #[tactic(auto, unfolding(crate::specs::Words::version_of))]
    pub fn version(self) -> u64
        ensures value { result ≡ version_of self }
        ensures fits { result < 2 ^ 40 }
    {
        self.bits / VALUES
    }

    /// The 64 bits. `pack` makes the same of the head, the tail and the version.
    #[tactic(auto, unfolding(crate::specs::Words::ends_word, crate::specs::Words::head_of, crate::specs::Words::tail_of, crate::specs::Words::version_of))]
    pub fn bits(self) -> u64
        ensures bits { result ≡ self }
        ensures packed { ends_word (head_of self) (tail_of self) (version_of self) ≡ result }
    {
        self.bits
    }

    /// The ends word with these 64 bits.
    pub fn of_bits(bits: u64) -> Ends
        ensures { result ≡ bits }
    {
        Ends { bits }
    }
}

impl From<Ends> for Word {
    ghost from_gives = { λ ends word. word ≡ ends };

    fn from(ends: Ends) -> Word {
        Word::of_bits(ends.bits())
    }
}

impl From<Word> for Ends {
    ghost from_gives = { λ word ends. ends ≡ word };

    fn from(word: Word) -> Ends {
        Ends::of_bits(word.bits())
    }
}
