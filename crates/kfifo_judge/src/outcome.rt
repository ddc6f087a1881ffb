//! What an answer says of a history.
ghost use Rattle.std.specs.Prelude.{◌≡◌};
ghost use Rattle.kfifo_judge.specs.StreamAnswers.{status_of};

/// What an answer says of a history. The status shows it.
#[derive(Clone, Copy, Debug, PartialEq, Eq)]
pub enum Outcome {
    /// It has a legal order; or bounds of the least k, for which it may have one.
    Answered,
    /// It has none.
    Unordered,
    /// Neither is known.
    Undecided,
}

impl Outcome {
    /// The exit status that shows it.
    pub(crate) fn status(self) -> u8
        ensures { result ≡ status_of self }
    {
        match self {
            Outcome::Answered => 0,
            Outcome::Unordered => 3,
            Outcome::Undecided => 4,
        }
    }
}
