//! The text of `replay --trace`: a line for each event, and the report behind them.
ghost use Rattle.std.specs.Prelude.{◌≡◌, ◌⊎◌, List, ℕ, IfOk, IfErr, string_bytes};
ghost use Rattle.kfifo_machine.specs.declared.event.Begin.{Begin as BeginData};
ghost use Rattle.kfifo_replay.specs.Player.{StandsFor};
ghost use Rattle.kfifo_cli_commands.specs.Replays.{IsLong, IsTracedText};

use crate::commands::replay::report_of;
use kfifo_cli_requests::ReplayOptions;
use kfifo_cli_texts::{Fault, push_trace};
use kfifo_replay::{Replay, ReplayFault};
use kfifo_words::Shape;
use std::alloc::Global;

/// The most events that have lines.
pub(crate) const MAX_STEPS: usize = 65_536;

/// The lines of the events, and the report behind them. It refuses over 65,536 events.
pub(crate) fn text_of(
    alloc: Global,
    options: &ReplayOptions<'_>,
    shape: Shape,
    replay: &Replay,
) -> Result<String, Fault>
    requires { replay.now.trace.most ≡ MAX_STEPS }
    ensures ok { IfOk result (λ text. (scripts : List (List BeginData)) (picks : List ℕ)
        → StandsFor shape scripts picks replay.now
        → IsTracedText options.now.points options.now.stopped shape scripts picks (string_bytes text)) }
    ensures err { IfErr result (λ fault. (fault ≡ Fault.Memory) ⊎ (fault ≡ Fault.Replay ReplayFault.Memory)
        ⊎ ((fault ≡ Fault.Trace) × ((scripts : List (List BeginData)) (picks : List ℕ)
        → StandsFor shape scripts picks replay.now → IsLong shape scripts picks))) }
{
    if replay.count() > MAX_STEPS as u64 {
        return Err(Fault::Trace);
    }
    let mut text = String::new(alloc);
    push_trace(&mut text, shape.k(), replay.steps())?;
    let report = report_of(alloc, options, replay)?;
    text.push_str(report.as_str())?;
    Ok(text)
}
