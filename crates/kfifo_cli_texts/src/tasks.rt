//! Tasks on the command line: how they are written, and the lines of finished ones.
ghost use Rattle.std.specs.Prelude.{◌≡◌, ℕ, ◌+◌, ◌++◌, ◌⊎◌, MatchOption, IfOk, IfErr, OnOk, flat_map, string_bytes};
ghost use Rattle.kfifo_dispatch.specs.declared.task.Task.{Task as TaskData};
ghost use Rattle.kfifo_cli_texts.specs.Tasks.{IsFirstUnreadTask, WriteTasks, WritesTask, finished_line};

use crate::fault::Fault;
use crate::words::read_within;
use kfifo_dispatch::{Finished, Task};
use std::alloc::{AllocError, Global};
use std::fmt::Write;

/// The tasks that the words write, one each, in their order. The fault names the first word that writes none, or
/// says that memory is short.
pub fn read_tasks(alloc: Global, texts: &[&str]) -> Result<Vec<Task>, Fault>
    ensures tasks { IfOk result (λ tasks. WriteTasks texts.now tasks.items) }
    ensures fault { IfErr result (λ fault. (fault ≡ Fault.Memory)
        ⊎ ((place : ℕ) × (fault ≡ Fault.Word (place + 1)) × IsFirstUnreadTask texts.now place)) }
{
    let mut tasks = Vec::with_capacity(alloc, texts.len())?;
    for (index, text) in texts.iter().enumerate() {
        match read_task(text) {
            Some(task) => tasks.push(task)?,
            None => return Err(Fault::Word(index + 1)),
        }
    }
    Ok(tasks)
}

/// The task that a word writes: `<id>:<left>:<sum>`, of 32, 16 and 32 bits.
pub fn read_task(word: &str) -> Option<Task>
    ensures { MatchOption result ((task : TaskData) → ¬ WritesTask word.now task) (WritesTask word.now) }
{
    let (id, rest) = word.split_once(':')?;
    let (left, sum) = rest.split_once(':')?;
    let id = read_within(id, 0, 4_294_967_296)?;
    let left = read_within(left, 0, 65_536)? as u16;
    let sum = read_within(sum, 0, 4_294_967_296)?;
    Some(Task { id, left, sum })
}

/// The lines of finished tasks, in their order.
pub fn finished_lines(alloc: Global, list: &[Finished]) -> Result<String, AllocError>
    ensures { IfOk result (λ text. string_bytes text ≡ flat_map finished_line list.now) }
{
    let mut text = String::new(alloc);
    for task in list {
        push_finished(&mut text, *task)?;
    }
    Ok(text)
}

/// Adds the line of a finished task.
fn push_finished(text: &mut String, task: Finished) -> Result<(), AllocError>
    ensures { OnOk result (string_bytes text.new ≡ string_bytes text.old ++ finished_line task) }
{
    let Finished { id, sum } = task;
    writeln!(text, "{id} {sum}")
}
