//! The command `dispatch`: worker threads run tasks and make the finished list.
ghost use Rattle.std.specs.Prelude.{IfOk};
ghost use Rattle.clap.specs.Words.{found_of};
ghost use Rattle.kfifo_cli_arguments.specs.CommandLine.{IsCommand, dispatch_command};
ghost use Rattle.kfifo_cli_arguments.specs.Options.{GivesDispatch};

use crate::options;
use clap::{ArgMatches, Command};
use kfifo_cli_requests::DispatchOptions;
use std::alloc::{AllocError, Global};

/// The name of the command.
pub const NAME: &str = "dispatch";

const WORKERS: &str = "workers";

const SEED: &str = "seed";

const DEFAULT_WORKERS: u32 = 2;

const DEFAULT_SEED: u32 = 0;

const EXAMPLES: &str = "\
Examples:
  kfifo dispatch 4:3:0                  one task, number 4, with 3 units of work
                                        left: prints 4 6
  kfifo dispatch 9:0:5 2:1:1            a finished task and one with a unit of
                                        work left: prints 2 2 and 9 5
  kfifo dispatch --workers 8 -k 4 --segments 16 1:65535:0 2:65535:0 3:65535:0
                                        three long tasks, worked off by eight
                                        threads";

pub(crate) const DETAILS: &str = "\
Each TASK is <ID>:<LEFT>:<SUM>, three numbers of 1 to 10 decimal digits and no
sign:
  ID    its number, 0 to 4294967295, which no other task has
  LEFT  how many units of work are left of it, 0 to 65535
  SUM   what it has come to so far, 0 to 4294967295
A unit of work adds LEFT to SUM and takes 1 from LEFT. A task is finished when
LEFT is 0. So what a task comes to is SUM + LEFT + (LEFT - 1) + .. + 1, whoever
works on it.

The tasks go round. The program puts them into one queue. Each worker, a thread
of its own, takes a task, does one unit of work on it, and puts it back while
work is left. A task that the queue refuses is worked off by who holds it. A
worker ends when it finds the queue empty, or after 65536 tries to take a task;
what is left then, the program works off itself. Where no thread can be made,
workers run one after the other.

The answer is a line <ID> <SUM> for each task, in ascending order of ID; no line
where there are no tasks. It does not depend on the number of workers, the sizes
of the queue or the seed: these say who does the work, and where threads meet.

--seed is what the workers draw the slots from at which they begin to look, each
in a way of its own.

Limits: 1024 tasks, 63 workers.

Faults, each a line on standard error, followed by one that says what is wrong,
and one that names its explanation; nothing is on standard output then:
  kfifo: shape fault 1       k is not 1 to 64
  kfifo: shape fault 2       there are not 2 to 1024 segments
  kfifo: shape fault 3       the greatest version is below 2
  kfifo: shape fault 4       there are not 1 to k probes
  kfifo: word fault at <N>   word N, counted from 1, is no task, or has a number
                             out of range
  kfifo: dispatch fault 1    there are over 1024 tasks
  kfifo: dispatch fault 2    two tasks have the same ID
  kfifo: dispatch fault 3    an allocation failed while the tasks were worked
                             off
  kfifo: dispatch fault 4    there are not 1 to 63 workers
  kfifo: memory              an allocation failed elsewhere

Exit status:
  0  the finished tasks were printed
  1  there was a fault of this list, or standard output could not be written
  2  the command line is at fault

docs/DISPATCH.md and docs/PROGRAM.md, where this program comes from, say more.";

/// How the command is written, and its help.
pub fn command<'a>(alloc: Global) -> Result<Command<'a>, AllocError>
    ensures { IfOk result (IsCommand dispatch_command) }
{
    let workers = options::number(alloc, WORKERS, "THREADS", "2").help("Worker threads, 1 to 63");
    let seed = options::number(alloc, SEED, "NUMBER", "0").help(
        "What the workers draw the slots from at which they\nbegin to look",
    );
    let tasks = options::any_words(alloc, "TASK").help("The tasks, each <ID>:<LEFT>:<SUM>");
    let command = Command::new(alloc, NAME)
        .about("Works off tasks by threads over one queue, and prints the results")
        .after_help(EXAMPLES)
        .after_long_help(DETAILS);
    options::with_sizes(alloc, command)?
        .arg(workers)?
        .arg(seed)?
        .arg(tasks)
}

/// What the options and the words give.
pub fn options_of<'a>(matches: &'a ArgMatches<'_>) -> DispatchOptions<'a>
    ensures { GivesDispatch (found_of matches.now) result }
{
    DispatchOptions {
        sizes: options::sizes_of(matches),
        workers: options::count_of(matches, WORKERS, DEFAULT_WORKERS),
        seed: options::count_of(matches, SEED, DEFAULT_SEED),
        words: options::words_of(matches),
    }
}
