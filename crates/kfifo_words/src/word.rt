//! A word of the table: a value and a version.
ghost use Rattle.std.specs.Prelude.{◌≡◌, ◌^◌, ◌<◌};
ghost use Rattle.kfifo_words.specs.Words.{slot_word, value_of, version_of};

use std::marker::Model;

/// The number of values that a word can have: the low 24 bits.
pub const VALUES: u64 = 16_777_216;

/// The greatest value of a word.
pub const MAX_VALUE: u32 = 16_777_215;

/// The greatest version that a word can have.
pub const MAX_VERSION: u64 = 1_099_511_627_775;

/// A word of 64 bits: a value below 2^24 and a version below 2^40.
///
/// A slot is empty where its value is 0, with an even version, and filled where its value is an
/// item, with an odd version. Clauses see a word as the number of its bits.
#[derive(Clone, Copy, PartialEq, Eq, Debug)]
pub struct Word {
    bits: u64,
}

impl Model for Word {
    ghost use Rattle.std.specs.Prelude.{ℕ};

    ghost Value = { ℕ };

    ghost view = { λ w. w.bits };

    ghost inverse = { λ n. record { bits = n } };
}

impl Word {
    /// The word with this value and this version.
    #[tactic(auto, unfolding(crate::specs::Words::slot_word, crate::specs::Words::value_of, crate::specs::Words::version_of))]
    pub fn pack(value: u32, version: u64) -> Word
        requires value_fits { value < 2 ^ 24 }
        requires version_fits { version < 2 ^ 40 }
        ensures word { result ≡ slot_word value version }
        ensures value_again { value_of result ≡ value }
        ensures version_again { version_of result ≡ version }
    {
        Word {
            bits: version * VALUES + u64::from(value),
        }
    }

    /// The value: the item of a filled slot, or 0.
    #[tactic(auto, unfolding(crate::specs::Words::value_of))]
    pub fn value(self) -> u32
        ensures value { result ≡ value_of self }
        ensures fits { result < 2 ^ 24 }
    {
        (self.bits % VALUES) as u32
    }

    /// The version.
    #[tactic(auto, unfolding(crate::specs::Words::version_of))]
    pub fn version(self) -> u64
        ensures value { result ≡ version_of self }
        ensures fits { result < 2 ^ 40 }
    {
        self.bits / VALUES
    }

    /// The 64 bits. `pack` makes the same of the value and the version.
    #[tactic(auto, unfolding(crate::specs::Words::slot_word, crate::specs::Words::value_of, crate::specs::Words::version_of))]
    pub fn bits(self) -> u64
        ensures bits { result ≡ self }
        ensures packed { slot_word (value_of self) (version_of self) ≡ result }
    {
        self.bits
    }

    /// The word with these 64 bits.
    pub fn of_bits(bits: u64) -> Word
        ensures { result ≡ bits }
    {
        Word { bits }
    }
}
