//! What `measure` says of a record.
ghost use Rattle.std.specs.Prelude.{ℕ, ◌≡◌, IfOk, MatchResult, length, string_bytes};
ghost use Rattle.kfifo_model.specs.Measures.{IsDoneEnqueue, HasDistinctItems, measured};
ghost use Rattle.kfifo_judge.specs.Measure.{IsMeasured, IsMeasuringFault, IsUnmeasured};
ghost use Rattle.kfifo_judge.specs.Measure.{overtaken_line, overtakings_text};

use crate::record::{StreamFault, read_record};
use kfifo_model::{History, MeasureFault, Overtaken, measure};
use std::alloc::{AllocError, Global};

/// The line of one item.
fn item_line(alloc: Global, overtaken: &Overtaken) -> Result<String, AllocError>
    ensures { IfOk result (λ s. string_bytes s ≡ overtaken_line overtaken.now) }
{
    let call = overtaken.call;
    let item = overtaken.item;
    let count = overtaken.count;
    format!(in alloc; "call {call} item {item} overtaken {count}\n")
}

/// The lines of all items, and the greatest count.
fn all_lines(alloc: Global, found: &[Overtaken]) -> Result<String, AllocError>
    ensures { IfOk result (λ s. string_bytes s ≡ overtakings_text found.now) }
{
    let mut text = String::new(alloc);
    let mut most = 0usize;
    for overtaken in found {
        let line = item_line(alloc, overtaken)?;
        text.push_str(line.as_str())?;
        most = most.max(overtaken.count);
    }
    let last = format!(in alloc; "most {most}\n")?;
    text.push_str(last.as_str())?;
    Ok(text)
}

/// The text for a history.
fn answer(alloc: Global, history: &History) -> Result<String, StreamFault>
    ensures { MatchResult result (λ s. (string_bytes s ≡ overtakings_text (measured history.now (length history.now)))
        × ((n : ℕ) → IsDoneEnqueue history.now n → HasDistinctItems history.now)) (IsUnmeasured history.now) }
{
    match measure(alloc, history) {
        Ok(found) => Ok(all_lines(alloc, &found)?),
        Err(MeasureFault::RepeatedItem) => Err(StreamFault::RepeatedItem),
        Err(MeasureFault::Memory) => Err(StreamFault::Memory),
    }
}

/// Returns how often the item of each finished enqueue of a record that returned Done is certainly overtaken, a line
/// each, and the greatest count.
///
/// ```rust
/// let text = measure_text(alloc, bytes.as_slice())?;
/// ```
///
/// Refuses: NotJson and Record as `read_record`; RepeatedItem where an item was put or got twice; Memory where an
/// allocation failed.
pub fn measure_text(alloc: Global, bytes: &[u8]) -> Result<String, StreamFault>
    ensures { MatchResult result (λ text. IsMeasured bytes.now (string_bytes text)) (IsMeasuringFault bytes.now) }
{
    let history = read_record(alloc, bytes)?;
    let text = answer(alloc, &history)?;
    Ok(text)
}
