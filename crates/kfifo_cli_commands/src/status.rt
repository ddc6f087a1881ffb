//! How the program ends.
ghost use Rattle.std.specs.Prelude.{◌≡◌};
ghost use Rattle.kfifo_cli_commands.specs.Statuses.{outcome_status, status_number};

use kfifo_judge::Outcome;

/// The exit status.
#[derive(Clone, Copy, PartialEq, Eq, Debug)]
pub enum Status {
    /// An answer was printed.
    Answered = 0,
    /// The data, a size, the memory, reading or writing was at fault.
    Failed = 1,
    /// The command line was at fault.
    Misused = 2,
    /// A record has no order, or its order is not legal.
    Unordered = 3,
    /// Nothing can be said of a record.
    Undecided = 4,
}

impl Status {
    /// The status as the number that the system is given.
    pub fn number(self) -> u8
        ensures { result ≡ status_number self }
    {
        self as u8
    }
}

/// The status after what is said of a history.
pub(crate) fn status_of(said: Outcome) -> Status
    ensures { result ≡ outcome_status said }
{
    match said {
        Outcome::Answered => Status::Answered,
        Outcome::Unordered => Status::Unordered,
        Outcome::Undecided => Status::Undecided,
    }
}
