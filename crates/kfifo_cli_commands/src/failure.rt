//! Why a command has no answer.
ghost use Rattle.std.specs.Prelude.{◌≡◌};
ghost use Rattle.kfifo_cli_texts.specs.Faults.{log_fault, stream_fault};

use kfifo_cli_causes::{log_words, record_words};
use kfifo_cli_texts::Fault;
use kfifo_import::{Refusal, WrongField};
use kfifo_judge::StreamFault;
use std::alloc::{AllocError, Global};

/// What is known of a fault beyond the line that names it.
#[derive(Drop)]
pub enum Detail {
    /// Nothing.
    Nothing,
    /// Of a line of a log that is no call, the field that makes it none.
    Field(WrongField),
    /// What is wrong, in words.
    Words(String),
}

/// Why a command has no answer, with what stands behind the line of its fault.
#[derive(Drop)]
pub struct Failure {
    /// The fault.
    pub fault: Fault,
    /// What is known beyond it.
    pub detail: Detail,
}

impl Failure {
    /// With these words, where there are some.
    pub(crate) fn with_words(self, words: Option<String>) -> Failure
        ensures { result.fault ≡ self.fault }
    {
        match words {
            Some(words) => Failure {
                fault: self.fault,
                detail: Detail::Words(words),
            },
            None => self,
        }
    }

    /// The failure of a call that takes a record in JSON. The words behind it are read from the record's bytes.
    pub(crate) fn of_record(alloc: Global, bytes: &[u8], fault: StreamFault) -> Failure
        ensures { result.fault ≡ stream_fault fault }
    {
        let words = match fault {
            StreamFault::Record(fault) => record_words(alloc, bytes, fault),
            _ => None,
        };
        Failure::from(fault).with_words(words)
    }

    /// The failure of a call that takes a log in CSV.
    pub(crate) fn of_log(alloc: Global, refusal: Refusal) -> Failure
        ensures { result.fault ≡ log_fault refusal.fault }
    {
        let words = log_words(alloc, &refusal);
        Failure::from(refusal).with_words(words)
    }
}

impl From<Fault> for Failure {
    ghost from_gives = { λ given failure. failure.fault ≡ given };

    fn from(fault: Fault) -> Failure {
        Failure {
            fault,
            detail: Detail::Nothing,
        }
    }
}

impl From<AllocError> for Failure {
    ghost use Rattle.kfifo_cli_texts.specs.declared.fault.Fault.TheVariants.{Memory};

    ghost from_gives = { λ _ failure. failure.fault ≡ Memory };

    fn from(_: AllocError) -> Failure {
        Failure::from(Fault::Memory)
    }
}

impl From<StreamFault> for Failure {
    ghost use Rattle.kfifo_cli_texts.specs.Faults.{stream_fault};

    ghost from_gives = { λ given failure. failure.fault ≡ stream_fault given };

    fn from(fault: StreamFault) -> Failure {
        Failure::from(Fault::from(fault))
    }
}

impl From<Refusal> for Failure {
    ghost use Rattle.kfifo_cli_texts.specs.Faults.{log_fault};

    ghost from_gives = { λ given failure. failure.fault ≡ log_fault given.fault };

    fn from(refusal: Refusal) -> Failure {
        let Refusal { fault, wrong, .. } = refusal;
        Failure {
            fault: Fault::from(fault),
            detail: match wrong {
                Some(wrong) => Detail::Field(wrong),
                None => Detail::Nothing,
            },
        }
    }
}
