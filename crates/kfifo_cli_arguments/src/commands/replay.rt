//! The command `replay`: scripts run on the machine in the order of given picks.
ghost use Rattle.std.specs.Prelude.{IfOk};
ghost use Rattle.clap.specs.Words.{found_of};
ghost use Rattle.kfifo_cli_arguments.specs.CommandLine.{IsCommand, replay_command};
ghost use Rattle.kfifo_cli_arguments.specs.Options.{GivesReplay};

use crate::options;
use clap::{ArgMatches, Command, value_parser};
use kfifo_cli_requests::ReplayOptions;
use std::alloc::{AllocError, Global};

/// The name of the command.
pub const NAME: &str = "replay";

const PICKS: &str = "picks";

const STOP: &str = "stop";

const POINTS: &str = "points";

const TRACE: &str = "trace";

const RECORD: &str = "record";

const EXAMPLES: &str = "\
Examples:
  kfifo replay --picks 0x6,1x7,0x2 --turns 1 e5 e6:1
                           two threads put an item each; the first has to take
                           its item back
  kfifo replay --picks 0x3 --stop 0 e5 d
                           the first thread stops within its call, the other
                           goes on to its end
  kfifo replay --picks 0x25 --record e1,e2,d:1,d:1 | kfifo check --order 0,1,2,3";

pub(crate) const DETAILS: &str = "\
Each SCRIPT is what one thread calls, in turn: words joined by commas. The first
script is that of thread 0.
  e<ITEM>          put ITEM, 1 to 16777215, into the queue
  e<ITEM>:<START>  the same, looking at the slots of a segment from START on, 0
                   to k - 1
  d                take an item
  d:<START>        the same, looking at the slots of a segment from START on

--picks says whose turn it is. Each pick names a thread, which makes one atomic
step: an idle thread begins the next call of its script, a thread inside a call
goes on with it. The value is `none`, or groups joined by commas:
  <THREAD>          this thread once
  <THREAD>x<COUNT>  this thread COUNT times in a row, at least once
Numbers have 1 to 10 decimal digits, and no sign. What the picks leave undone is
not done, but with --stop: then each thread other than THREAD goes to the end of
its script after the picks, the threads in ascending order.

The answer has a line each:
  steps <N>        how many steps were made
  order <CALLS>    a legal order of the calls, joined by commas; `none` where
                   there is none to order. Calls are numbered from 0 by their
                   first steps. An unfinished enqueue whose item was taken
                   stands in it
  points <STEPS>   with --points: the step at which each call of the order takes
                   its place in it
  worst rank <N>   the most older items that a dequeue passed over, at most k -
                   1
  rollbacks <N>    how many items were taken back by the calls that had put them
  completed <N>    with --stop: how many unfinished enqueues stand in the order
With --trace a line for each step stands before them. A WORD is
`slot <SEGMENT>.<SLOT> (<ITEM>,<VERSION>)`, with item 0 if it holds none, or
`ends (<HEAD>,<TAIL>,<VERSION>)`. docs/MACHINE.md names and explains each STEP:
  <N> thread <T> <CALL> <STEP> reads <WORD>
                   step N, from 0: thread T loads this word
  <N> thread <T> <CALL> <STEP> exchanges <WORD> to <NEW> won
                   step N: thread T changes this word to NEW. In place of `won`,
                   `lost to` says what stood there: then nothing changes. Behind
                   the last step of a call stand `and answers` and its answer
With --record the answer is one line in place of all these, whatever --points
and --trace say: the calls as a record, which `kfifo check` and `kfifo measure`
read; its stamps are the numbers of the steps, from 0.

Limits: 64 scripts of 64 calls each, 16777216 picks, and 65536 steps with
--trace.

Faults, each a line on standard error, followed by one that says what is wrong,
and one that names its explanation; nothing is on standard output then:
  kfifo: shape fault 1       k is not 1 to 64
  kfifo: shape fault 2       there are not 2 to 1024 segments
  kfifo: shape fault 3       the greatest version is below 2
  kfifo: shape fault 4       there are not 1 to k probes
  kfifo: word fault at <N>   script N, counted from 1, has a word that is no
                             call, or whose item or start is out of range
  kfifo: picks fault         the value of --picks is no groups, or these are
                             over 16777216 picks
  kfifo: replay fault 1 at <P>   pick P, from 0 over all groups, names no script
                                 or one that has ended
  kfifo: replay fault 2      an allocation failed in the replay
  kfifo: replay fault 3      there are over 64 scripts, a script has over 64
                             calls, or no script has the number of --stop
  kfifo: trace fault         with --trace: there are over 65536 steps
  kfifo: memory              an allocation failed elsewhere

Exit status:
  0  the answer was printed
  1  there was a fault of this list, or standard output could not be written
  2  the command line is at fault

An example, step by step:
  kfifo replay -k 1 --turns 1 --picks 0x4,1x2 --stop 0 --points e5 d
Thread 0 makes four steps of its enqueue, the last of which puts 5 into a slot.
Thread 1 makes two steps of its dequeue. Then --stop lets thread 1 go on, while
thread 0 sleeps: thread 1 takes 5. It prints
  steps 9
  order 0,1
  points 7,8
  worst rank 0
  rollbacks 0
  completed 1
The enqueue, call 0, is unfinished and stands in the order, since its item was
taken.

docs/PROGRAM.md and docs/REPLAY.md, where this program comes from, say more.";

/// How the command is written, and its help.
pub fn command<'a>(alloc: Global) -> Result<Command<'a>, AllocError>
    ensures { IfOk result (IsCommand replay_command) }
{
    let picks = options::option(alloc, PICKS).value_name("PICKS").help(
        "Whose turn it is: <THREAD> or <THREAD>x<COUNT>,\njoined by commas [default: none]",
    );
    let stop = options::option(alloc, STOP)
        .value_name("THREAD")
        .value_parser(value_parser!(u32).range(0..=63))
        .help("Behind the picks, let each other thread go to the\nend of its script");
    let points = options::flag(alloc, POINTS).help(
        "Print the step at which each call takes its place in\nthe order, too",
    );
    let trace = options::flag(alloc, TRACE).help(
        "Print what each step does, too: the word that it\nreads or exchanges, and its result",
    );
    let record = options::flag(alloc, RECORD).help(
        "Print the record of the calls, for `check` and\n`measure`, in place of all that",
    );
    let scripts = options::scripts(alloc);
    let command = Command::new(alloc, NAME)
        .about("Runs scripts step by step in a given order, and says what came of it")
        .after_help(EXAMPLES)
        .after_long_help(DETAILS);
    let command = options::with_sizes(alloc, command)?;
    options::with_turns(alloc, command)?
        .arg(picks)?
        .arg(stop)?
        .arg(points)?
        .arg(trace)?
        .arg(record)?
        .arg(scripts)
}

/// What the options and the words give.
pub fn options_of<'a>(matches: &'a ArgMatches<'_>) -> ReplayOptions<'a>
    ensures { GivesReplay (found_of matches.now) result }
{
    let given: Option<&'a str> = matches.get_str(PICKS);
    let picks: &'a str = given.unwrap_or("none");
    ReplayOptions {
        sizes: options::sizes_of(matches),
        turns: options::turns_of(matches),
        picks,
        stopped: matches.get_one(STOP),
        points: matches.get_flag(POINTS),
        trace: matches.get_flag(TRACE),
        record: matches.get_flag(RECORD),
        scripts: options::words_of(matches),
    }
}
