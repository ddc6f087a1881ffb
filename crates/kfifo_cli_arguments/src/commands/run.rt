//! The command `run`: the calls of a script, made by one pass on the running queue.
ghost use Rattle.std.specs.Prelude.{IfOk};
ghost use Rattle.clap.specs.Words.{found_of};
ghost use Rattle.kfifo_cli_arguments.specs.CommandLine.{IsCommand, run_command};
ghost use Rattle.kfifo_cli_arguments.specs.Options.{GivesRun};

use crate::options;
use clap::{ArgMatches, Command};
use kfifo_cli_requests::RunOptions;
use std::alloc::{AllocError, Global};

/// The name of the command.
pub const NAME: &str = "run";

const EXAMPLES: &str = "\
Examples:
  kfifo run e7 e8 d                    put 7 and 8, and take one of them
  kfifo run -k 1 --segments 2 e7 e8 e9 d d d
                                       a plain queue of two slots: 9 finds it
                                       full
  kfifo run -k 4 e1:2 e2:2 d:2         look from slot 2 on";

pub(crate) const DETAILS: &str = "\
Each WORD is a call:
  e<ITEM>          put ITEM, 1 to 16777215, into the queue
  e<ITEM>:<START>  the same, looking at the slots of a segment from START on, 0
                   to k - 1
  d                take an item
  d:<START>        the same, looking at the slots of a segment from START on
Numbers have 1 to 10 decimal digits, and no sign.

Each call is answered by a line, `enqueue <ITEM>: <ANSWER>` or
`dequeue: <ANSWER>`:
  done        the item is in the queue
  full        the ring was full, and the item is not in the queue
  got <ITEM>  this item was taken
  empty       the queue was empty
  busy        all rounds of --turns ended, each by moving the head or the tail
  worn        the next step would need a version above --last
A call with --turns of the number of segments plus 2, or more, that no other
call disturbs never answers busy; in `run` no call is disturbed.

Then come the head and the tail, as `head <SEGMENT> v<VERSION>`, and each slot
of the queue, as `slot <SEGMENT>.<SLOT> <ITEM> v<VERSION>`, with 0 for the item
of an empty slot.

Faults, each a line on standard error, followed by one that says what is wrong,
and one that names its explanation:
  kfifo: shape fault 1       k is not 1 to 64
  kfifo: shape fault 2       there are not 2 to 1024 segments
  kfifo: shape fault 3       the greatest version is below 2
  kfifo: shape fault 4       there are not 1 to k probes
  kfifo: word fault at <N>   word N, counted from 1, is no call, or its item or
                             start is out of range
  kfifo: memory              an allocation failed

Exit status:
  0  the answers were printed
  1  there was a fault of this list, or standard output could not be written
  2  the command line is at fault

Examples:
  kfifo run e7 e8 d                    put 7 and 8, and take one of them
  kfifo run -k 1 --segments 2 e7 e8 e9 d d d
                                       a plain queue of two slots: 9 finds it
                                       full
  kfifo run -k 4 e1:2 e2:2 d:2         look from slot 2 on

docs/PROGRAM.md, where this program comes from, says more.";

/// How the command is written, and its help.
pub fn command<'a>(alloc: Global) -> Result<Command<'a>, AllocError>
    ensures { IfOk result (IsCommand run_command) }
{
    let script = options::required_words(alloc, "WORD").help(
        "The calls, in their order: e<ITEM>, e<ITEM>:<START>, d or\nd:<START>",
    );
    let command = Command::new(alloc, NAME)
        .about("Makes calls on a queue, and prints their answers and its words")
        .after_help(EXAMPLES)
        .after_long_help(DETAILS);
    let command = options::with_sizes(alloc, command)?;
    options::with_turns(alloc, command)?.arg(script)
}

/// What the options and the words give.
pub fn options_of<'a>(matches: &'a ArgMatches<'_>) -> RunOptions<'a>
    ensures { GivesRun (found_of matches.now) result }
{
    RunOptions {
        sizes: options::sizes_of(matches),
        turns: options::turns_of(matches),
        words: options::words_of(matches),
    }
}
