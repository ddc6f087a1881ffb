//! The command `measure`: how often each item of a record was certainly overtaken.
ghost use Rattle.std.specs.Prelude.{IfOk};
ghost use Rattle.kfifo_cli_arguments.specs.CommandLine.{IsCommand, measure_command};

use clap::Command;
use std::alloc::{AllocError, Global};

/// The name of the command.
pub const NAME: &str = "measure";

const EXAMPLES: &str = "\
Example:
  kfifo measure < record.json";

pub(crate) const DETAILS: &str = "\
The record is one as `kfifo check --help` says, on standard input: at most
16777216 bytes and 65536 calls, in which no two enqueues that are done or
unfinished carry one item, and no two dequeues got one.

Each finished enqueue that was answered \"done\" has a line
`call <NUMBER> item <ITEM> overtaken <COUNT>`, in ascending order of NUMBER.
COUNT is the number of items that were put after ITEM and taken before it, or
taken while it never was, whatever the order of calls that overlap. The last
line is `most <COUNT>`, the greatest count, 0 where there is none.

This command takes no --k. Each count is below k in a queue whose dequeues take
one of the k oldest items. Without --k, `kfifo check` tries k = 2 and
`kfifo judge` k = 1.

Faults, each a line on standard error, followed by one that says what is wrong,
and one that names its explanation:
  kfifo: input                reading failed, or over 16777216 bytes came
  kfifo: no input             no byte came; in a pipe the command before has
                              probably failed, and said why
  kfifo: not json             the input is no JSON text, or is not UTF-8
  kfifo: record fault <F>     record faults 1, 2 and 9, as `kfifo check --help`
                              lists them
  kfifo: record fault <F> at call <N>   record faults 3 to 8
  kfifo: measure fault 2      an item is repeated
  kfifo: memory               an allocation failed

Exit status:
  0  the counts were printed
  1  there was a fault of this list, or standard output could not be written
  2  the command line is at fault

Example:
  kfifo measure < record.json

docs/JUDGE.md and docs/PROGRAM.md, where this program comes from, say more.";

/// How the command is written, and its help.
pub fn command<'a>(alloc: Global) -> Result<Command<'a>, AllocError>
    ensures { IfOk result (IsCommand measure_command) }
{
    Ok(
        Command::new(alloc, NAME)
            .about("Says of a record how often each item was certainly overtaken")
            .after_help(EXAMPLES)
            .after_long_help(DETAILS),
    )
}
