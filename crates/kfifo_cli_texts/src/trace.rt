//! The lines of a trace: what each event of a schedule did.
ghost use Rattle.std.specs.Prelude.{◌≡◌, ◌≤◌, ◌++◌, OnOk, string_bytes};
ghost use Rattle.kfifo_cli_texts.specs.TraceLines as lines;

use crate::report::push_answer;
use kfifo_machine::{Access, DequeuePhase, EnqueuePhase, Outcome, Running};
use kfifo_replay::Step;
use kfifo_words::{ENDS_INDEX, Ends, Word};
use std::alloc::AllocError;
use std::fmt::Write;

/// Adds a line for each of these steps, which are the first ones of a schedule. Segments have k slots.
pub fn push_trace(text: &mut String, k: u32, steps: &[Step]) -> Result<(), AllocError>
    requires { 1 ≤ k }
    ensures { OnOk result (string_bytes text.new ≡ string_bytes text.old ++ lines.trace_lines k 0 steps.now) }
{
    for (place, step) in steps.iter().enumerate() {
        push_step(text, k, place, step)?;
    }
    Ok(())
}

/// Adds the line of the event at this place.
fn push_step(text: &mut String, k: u32, place: usize, step: &Step) -> Result<(), AllocError>
    requires { 1 ≤ k }
    ensures { OnOk result (string_bytes text.new ≡ string_bytes text.old ++ lines.step_line k place step.now) }
{
    push_event(text, place, step.thread)?;
    push_running(text, step.place)?;
    text.push(' ')?;
    push_access(text, k, step.access, step.before)?;
    push_outcome(text, step.outcome)?;
    text.push('\n')
}

/// Adds the place of an event, and the thread that made it.
fn push_event(text: &mut String, place: usize, thread: u32) -> Result<(), AllocError>
    ensures { OnOk result (string_bytes text.new ≡ string_bytes text.old ++ lines.event_text place thread) }
{
    let (before, behind) = (blanks_before(place), blanks_behind(thread));
    write!(text, "{before}{place} thread {thread}{behind} ")
}

/// The blanks before the place of an event, in a field of five columns.
fn blanks_before(place: usize) -> &'static str
    ensures { result.now ≡ lines.blanks_before place }
{
    if place < 10 {
        "    "
    } else if place < 100 {
        "   "
    } else if place < 1000 {
        "  "
    } else if place < 10_000 {
        " "
    } else {
        ""
    }
}

/// The blanks behind the number of a thread, in a field of two columns.
fn blanks_behind(thread: u32) -> &'static str
    ensures { result.now ≡ lines.blanks_behind thread }
{
    if thread < 10 { " " } else { "" }
}

/// Adds the call of a thread at this place, and the step that it makes there.
fn push_running(text: &mut String, place: Running) -> Result<(), AllocError>
    ensures { OnOk result (string_bytes text.new ≡ string_bytes text.old ++ lines.step_text place) }
{
    match place {
        Running::Enqueue { phase, .. } => {
            text.push_str("enqueue ")?;
            text.push_str(enqueue_step(phase))
        }
        Running::Dequeue { phase, .. } => {
            text.push_str("dequeue ")?;
            text.push_str(dequeue_step(phase))
        }
    }
}

/// The name of a step of an enqueue, in a field of eleven columns.
fn enqueue_step(phase: EnqueuePhase) -> &'static str
    ensures { result.now ≡ lines.enqueue_step phase }
{
    match phase {
        EnqueuePhase::LoadEnds => "LoadEnds   ",
        EnqueuePhase::ScanTail { .. } => "ScanTail   ",
        EnqueuePhase::Recheck { .. } => "Recheck    ",
        EnqueuePhase::Put { .. } => "Put        ",
        EnqueuePhase::ReloadSlot { .. } => "ReloadSlot ",
        EnqueuePhase::ReloadEnds { .. } => "ReloadEnds ",
        EnqueuePhase::HoldHead { .. } => "HoldHead   ",
        EnqueuePhase::Undo { .. } => "Undo       ",
        EnqueuePhase::ScanHead { .. } => "ScanHead   ",
        EnqueuePhase::ConfirmFull { .. } => "ConfirmFull",
        EnqueuePhase::MoveHead { .. } => "MoveHead   ",
        EnqueuePhase::MoveTail { .. } => "MoveTail   ",
    }
}

/// The name of a step of a dequeue, in a field of eleven columns.
fn dequeue_step(phase: DequeuePhase) -> &'static str
    ensures { result.now ≡ lines.dequeue_step phase }
{
    match phase {
        DequeuePhase::LoadEnds => "LoadEnds   ",
        DequeuePhase::ScanHead { .. } => "ScanHead   ",
        DequeuePhase::Recheck { .. } => "Recheck    ",
        DequeuePhase::MoveTail { .. } => "MoveTail   ",
        DequeuePhase::Take { .. } => "Take       ",
        DequeuePhase::MoveHead { .. } => "MoveHead   ",
    }
}

/// Adds what a step did that found this word.
fn push_access(text: &mut String, k: u32, access: Access, found: Word) -> Result<(), AllocError>
    requires { 1 ≤ k }
    ensures { OnOk result (string_bytes text.new ≡ string_bytes text.old ++ lines.access_text k access found) }
{
    match access {
        Access::Load { index } => {
            text.push_str("reads ")?;
            push_target(text, k, index)?;
            text.push(' ')?;
            push_word(text, index, found)
        }
        Access::Exchange { index, from, to } => {
            text.push_str("exchanges ")?;
            push_target(text, k, index)?;
            text.push(' ')?;
            push_word(text, index, from)?;
            text.push_str(" to ")?;
            push_word(text, index, to)?;
            push_result(text, index, from, found)
        }
    }
}

/// Adds which word of the table has this index: the ends, or a slot by its segment and its number there.
fn push_target(text: &mut String, k: u32, index: usize) -> Result<(), AllocError>
    requires { 1 ≤ k }
    ensures { OnOk result (string_bytes text.new ≡ string_bytes text.old ++ lines.target_text k index) }
{
    if index == ENDS_INDEX {
        return text.push_str("ends");
    }
    let (segment, slot) = ((index - 1) / k as usize, (index - 1) % k as usize);
    write!(text, "slot {segment}.{slot}")
}

/// Adds what stands in the word with this index.
fn push_word(text: &mut String, index: usize, word: Word) -> Result<(), AllocError>
    ensures { OnOk result (string_bytes text.new ≡ string_bytes text.old ++ lines.word_text index word) }
{
    let (value, version) = (word.value(), word.version());
    if index == ENDS_INDEX {
        let ends = Ends::from(word);
        let (head, tail) = (ends.head(), ends.tail());
        return write!(text, "({head},{tail},{version})");
    }
    write!(text, "({value},{version})")
}

/// Adds whether an exchange was won, or to which word it was lost.
fn push_result(text: &mut String, index: usize, from: Word, found: Word) -> Result<(), AllocError>
    ensures { OnOk result (string_bytes text.new ≡ string_bytes text.old ++ lines.result_text index from found) }
{
    if found == from {
        return text.push_str(" won");
    }
    text.push_str(" lost to ")?;
    push_word(text, index, found)
}

/// Adds the answer, where the call ends.
fn push_outcome(text: &mut String, outcome: Outcome) -> Result<(), AllocError>
    ensures { OnOk result (string_bytes text.new ≡ string_bytes text.old ++ lines.outcome_text outcome) }
{
    match outcome {
        Outcome::Went => Ok(()),
        Outcome::Ended(answer) => push_answer(text, answer),
    }
}
