//! The answers of `check` and `measure`, from a source to a sink.
ghost use Rattle.std.specs.Prelude.{◌≡◌, ◌≤◌, MatchResult, option_map};
ghost use Rattle.std.specs.Io.KnownBytes.{Appends};
ghost use Rattle.kfifo_judge.specs.Check.{IsCheckFault, IsChecked};
ghost use Rattle.kfifo_judge.specs.Measure.{IsMeasuringFault};
ghost use Rattle.kfifo_judge.specs.StreamAnswers.{IsMeasureAnswer, IsStreamAnswer, streams_around};
ghost use Rattle.kfifo_judge.specs.Streams.{AppendsPart, CountsOne};

use crate::check::check_text;
use crate::measure::measure_text;
use crate::outcome::Outcome;
use crate::record::StreamFault;
use crate::streams::{Sink, Source, read_all, write_all};
use std::alloc::Global;

/// Writes a text.
fn send<W: Sink>(sink: &mut W, text: &str) -> Result<(), StreamFault>
    ensures { MatchResult result
        (λ _. Appends (W.contents sink.old) (W.contents sink.new) text.now × (W.failed sink.new ≡ W.failed sink.old))
        (λ fault. (fault ≡ StreamFault.Output) × AppendsPart (W.contents sink.old) (W.contents sink.new) text.now
        × CountsOne (W.failed sink.old) (W.failed sink.new)) }
{
    if write_all(sink, text.as_bytes()) {
        Ok(())
    } else {
        Err(StreamFault::Output)
    }
}

/// Reads a record from the source and writes a line to the sink: whether the record has a legal order, or, if an order
/// is given, whether that order is legal. Returns the exit status: 0, or 3 where there is no order or the order is not
/// legal. k is 1 to 64: a dequeue may take any of the k oldest items.
///
/// ```rust
/// let found = check_stream(rt.alloc(), &mut source, &mut sink, 2, None);
/// ```
///
/// `alloc`, the runtime's allocator, holds the input, at most 16,777,216 bytes, and the history of at most 65,536
/// calls. `StreamFault` lists the faults. A failed call of the source or the sink is not made again.
pub fn check_stream<R: Source, W: Sink>(
    alloc: Global,
    source: &mut R,
    sink: &mut W,
    k: u32,
    order: Option<&[usize]>,
) -> Result<u8, StreamFault>
    requires { (1 ≤ k) × (k ≤ 64) }
    ensures { let o = option_map (λ s. s.now) order.entry in
        IsStreamAnswer (IsChecked k o) (IsCheckFault o)
        (streams_around R.remaining R.failed W.contents W.failed source.old source.new sink.old sink.new) result }
{
    let bytes = read_all(alloc, source)?;
    let (text, said) = check_text(alloc, bytes.as_slice(), k, order)?;
    send(sink, text.as_str())?;
    Ok(said.status())
}

/// Reads a record from the source, and writes to the sink how often the item of each finished enqueue that returned
/// Done is certainly overtaken, and the greatest count. Returns the exit status, 0.
///
/// ```rust
/// let found = measure_stream(rt.alloc(), &mut source, &mut sink);
/// ```
///
/// Memory, limits and faults are as of `check_stream`. A failed call of the source or the sink is not made again.
pub fn measure_stream<R: Source, W: Sink>(
    alloc: Global,
    source: &mut R,
    sink: &mut W,
) -> Result<u8, StreamFault>
    ensures { IsStreamAnswer IsMeasureAnswer IsMeasuringFault
        (streams_around R.remaining R.failed W.contents W.failed source.old source.new sink.old sink.new) result }
{
    let bytes = read_all(alloc, source)?;
    let text = measure_text(alloc, bytes.as_slice())?;
    send(sink, text.as_str())?;
    Ok(Outcome::Answered.status())
}
