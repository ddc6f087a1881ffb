//! Records as texts, and why a stream gets no answer.
ghost use Rattle.std.specs.Prelude.{◌≡◌, MatchResult};
ghost use Rattle.kfifo_model.specs.RecordTexts.{IsRecordText};
ghost use Rattle.kfifo_judge.specs.TextFaults.{IsTextFault};

use crate::streams::ReadFault;
use kfifo_model::{History, RecordFault, SearchFault, read_history};
use serde_json::Value;
use std::alloc::{AllocError, Global};
use thiserror::Error;

/// Why a stream of a record gets no answer. `Output` is a fault of writing; the others have a line each.
#[derive(Clone, Copy, Debug, PartialEq, Eq, Error)]
pub enum StreamFault {
    /// `input`: a call of the source failed, or over 16,777,216 bytes came.
    #[error("reading failed, or the input is over 16,777,216 bytes")]
    Input,
    /// `not json`: the input is no JSON text, or is not UTF-8.
    #[error("the input is no JSON text, or is not UTF-8")]
    NotJson,
    /// `record fault <number>`, and `at call <number>` for the faults of a call.
    #[error("{0}")]
    Record(RecordFault),
    /// `search fault <number>`: no search was made.
    #[error("{0}")]
    Search(SearchFault),
    /// `measure fault 2`: an item is repeated.
    #[error("an item is repeated: it was put or taken twice")]
    RepeatedItem,
    /// `memory`: an allocation failed, in reading the text or in answering.
    #[error("out of memory")]
    Memory,
    /// A call of the sink failed, or took no byte.
    #[error("the answer could not be written")]
    Output,
}

impl From<AllocError> for StreamFault {
    ghost use Rattle.kfifo_judge.specs.declared.record.StreamFault.TheVariants.{Memory};

    ghost from_gives = { λ _ fault. fault ≡ Memory };

    fn from(_: AllocError) -> StreamFault {
        StreamFault::Memory
    }
}

impl From<ReadFault> for StreamFault {
    ghost use Rattle.kfifo_judge.specs.ReadCounts.{stream_fault_of};

    ghost from_gives = { λ read fault. fault ≡ stream_fault_of read };

    fn from(fault: ReadFault) -> StreamFault {
        match fault {
            ReadFault::Failed | ReadFault::TooLong => StreamFault::Input,
            ReadFault::Memory => StreamFault::Memory,
        }
    }
}

/// Returns the history that a text records: a record in JSON, as `read_history` of `kfifo_model` takes it.
///
/// ```rust
/// let history = kfifo_judge::read_record(alloc, text.as_bytes())?;
/// ```
///
/// Refuses: NotJson where the text is not UTF-8 or no JSON; Record with the first fault of the record; Memory where an
/// allocation failed.
pub fn read_record(alloc: Global, bytes: &[u8]) -> Result<History, StreamFault>
    ensures { MatchResult result (IsRecordText bytes.now) (IsTextFault bytes.now) }
{
    let Ok(text) = str::from_utf8(bytes) else {
        return Err(StreamFault::NotJson);
    };
    let value = match Value::from_str(alloc, text) {
        Ok(value) => value,
        Err(error) => {
            return if error.is_memory() {
                Err(StreamFault::Memory)
            } else {
                Err(StreamFault::NotJson)
            };
        }
    };
    match read_history(alloc, &value) {
        Ok(history) => Ok(history),
        Err(fault) => Err(StreamFault::Record(fault)),
    }
}
