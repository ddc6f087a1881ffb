//! The command `run`: the calls of a script, made by one pass on the running queue.
ghost use Rattle.std.specs.Prelude.{◌≡◌, ◌≢◌, ◌≤◌, ◌+◌, ◌*◌, ◌<◌, ◌++◌, [], List, ℕ, Some, IfOk, IfErr, OnOk, All};
ghost use Rattle.std.specs.Prelude.{string_bytes};
ghost use Rattle.kfifo_model.specs.declared.calls.Answer.{Answer};
ghost use Rattle.kfifo_machine.specs.Machine.{World, after, word_at};
ghost use Rattle.kfifo_machine.specs.Runs.{CompleteExecution};
ghost use Rattle.kfifo_live.specs.Schedule.{opening};
ghost use Rattle.kfifo_live.specs.Pass.{IsPassOf, IsSamePass};
ghost use Rattle.kfifo_cli_commands.specs.Runs.{IsRunAnswer, IsRunRefusal};
ghost use Rattle.kfifo_cli_texts.specs.Words.{IsCall};
ghost use Rattle.kfifo_cli_commands.specs.Reports.{IsAlone, IsReport, RunInTurn, call_line, slot_lines, world_lines};

use kfifo_cli_requests::RunOptions;
use kfifo_cli_texts::{Fault, push_dequeue, push_ends, push_enqueue, push_slot, read_calls};
use kfifo_live::{Pass, Queue};
use kfifo_machine::Begin;
use kfifo_words::{Ends, Shape, Word};
use std::alloc::{AllocError, Global};

/// The answers of the calls, and then the words of the table, a line for each.
pub fn answer(alloc: Global, options: RunOptions<'_>) -> Result<String, Fault>
    ensures ok { IfOk result (λ text. IsRunAnswer options.entry (string_bytes text)) }
    ensures err { IfErr result (IsRunRefusal options.entry) }
    ensures silent { IfErr result (λ fault. fault ≢ Fault.Output) }
{
    let shape = options.sizes.shape()?;
    let calls = read_calls(alloc, options.words, shape.k(), options.turns)?;
    report_of(alloc, shape, calls.as_slice())
}

/// What is printed of these calls, made one after the other on a new queue.
fn report_of(alloc: Global, shape: Shape, calls: &[Begin]) -> Result<String, Fault>
    requires { All (IsCall shape.k) calls.now }
    ensures ok { IfOk result (λ text. IsReport shape calls.now (string_bytes text)) }
    ensures err { IfErr result (λ fault. fault ≡ Fault.Memory) }
{
    let (queue, mut pass) = open(alloc, shape)?;
    let mut text = String::new(alloc);
    make_calls(&queue, &mut pass, calls, &mut text)?;
    push_words(&mut text, &queue, &mut pass)?;
    Ok(text)
}

/// A queue with one pass, which has seen nothing.
fn open(alloc: Global, shape: Shape) -> Result<(Queue, Pass), Fault>
    ensures opened { IfOk result (λ r. IsPassOf r.0 r.1 × (r.0.opened ≡ opening shape 1) × (r.1.thread ≡ 0)
        × (r.1.seen ≡ [])) }
    ensures refused { IfErr result (λ fault. fault ≡ Fault.Memory) }
{
    let (queue, mut passes) = Queue::open(alloc, shape, 1).map_err(|_| Fault::Memory)?;
    let pass = passes.pop().unwrap();
    Ok((queue, pass))
}

/// Makes the calls, and adds the line of each.
fn make_calls(
    queue: &Queue,
    pass: &mut Pass,
    calls: &[Begin],
    text: &mut String,
) -> Result<(), AllocError>
    requires alone { IsAlone queue.now pass.old }
    requires calls { All (IsCall queue.now.opened.shape.k) calls.now }
    ensures same { IsSamePass pass.old pass.new }
    ensures runs { OnOk result ((answers : List Answer) × (lines : List ℕ)
        × RunInTurn queue.now.opened.shape calls.now answers pass.old.seen pass.new.seen lines
        × (string_bytes text.new ≡ string_bytes text.old ++ lines)) }
{
    for call in calls {
        make_call(queue, pass, *call, text)?;
    }
    Ok(())
}

/// Makes a call, and adds its line.
fn make_call(
    queue: &Queue,
    pass: &mut Pass,
    call: Begin,
    text: &mut String,
) -> Result<(), AllocError>
    requires alone { IsAlone queue.now pass.old }
    requires call { IsCall queue.now.opened.shape.k call }
    ensures same { IsSamePass pass.old pass.new }
    ensures runs { OnOk result ((answer : Answer)
        × CompleteExecution queue.now.opened.shape 1 0 call answer pass.old.seen pass.new.seen
        × (string_bytes text.new ≡ string_bytes text.old ++ call_line call answer)) }
{
    match call {
        Begin::Enqueue { item, start, turns } => {
            let answer = pass.enqueue(queue, item, start, turns);
            push_enqueue(text, item, answer)
        }
        Begin::Dequeue { start, turns } => {
            let answer = pass.dequeue(queue, start, turns);
            push_dequeue(text, answer)
        }
        Begin::Tick | Begin::Seal => unreachable!(),
    }
}

/// Adds the lines of the ends word and of each slot.
fn push_words(text: &mut String, queue: &Queue, pass: &mut Pass) -> Result<(), AllocError>
    requires { IsAlone queue.now pass.old }
    ensures same { pass.new ≡ pass.old }
    ensures lines { OnOk result ((world : World)
        × (after queue.now.opened.shape 1 pass.old.seen ≡ Some world)
        × (string_bytes text.new ≡ string_bytes text.old ++ world_lines queue.now.opened.shape world)) }
{
    let shape = queue.shape();
    push_ends(text, Ends::of_bits(load(queue, pass, 0)))?;
    for segment in 0..shape.n() {
        push_slots(text, queue, pass, segment)?;
    }
    Ok(())
}

/// Adds the lines of the slots of a segment.
fn push_slots(
    text: &mut String,
    queue: &Queue,
    pass: &mut Pass,
    segment: u32,
) -> Result<(), AllocError>
    requires alone { IsAlone queue.now pass.old }
    requires segment { segment < queue.now.opened.shape.n }
    ensures same { pass.new ≡ pass.old }
    ensures lines { OnOk result ((world : World) → after queue.now.opened.shape 1 pass.old.seen ≡ Some world
        → string_bytes text.new ≡ string_bytes text.old
        ++ slot_lines queue.now.opened.shape.k world segment queue.now.opened.shape.k) }
{
    let shape = queue.shape();
    for slot in 0..shape.k() {
        let word = Word::of_bits(load(queue, pass, shape.slot_index(segment, slot)));
        push_slot(text, segment, slot, word)?;
    }
    Ok(())
}

/// A word of the table. With one pass the schedule that it has seen is the whole one.
fn load(queue: &Queue, pass: &mut Pass, index: usize) -> u64
    requires alone { IsAlone queue.now pass.old }
    requires index { index < 2 + queue.now.opened.shape.n * queue.now.opened.shape.k }
    ensures same { pass.new ≡ pass.old }
    ensures word { (world : World) × (after queue.now.opened.shape 1 pass.old.seen ≡ Some world)
        × (result ≡ word_at world index) }
{
    pass.word(queue, index)
}
