//! The command `record`: scripts, each run by a thread of its own, and the record of the run.
ghost use Rattle.std.specs.Prelude.{◌≤◌, IfOk};
ghost use Rattle.clap.specs.Words.{found_of};
ghost use Rattle.kfifo_cli_arguments.specs.CommandLine.{IsCommand, record_command};
ghost use Rattle.kfifo_cli_arguments.specs.Options.{GivesRecord, GivesTimes};

use crate::options;
use clap::{ArgMatches, Command, value_parser};
use kfifo_cli_requests::RecordOptions;
use std::alloc::{AllocError, Global};

/// The name of the command.
pub const NAME: &str = "record";

const REPEAT: &str = "repeat";

const DEFAULT_REPEAT: u32 = 1;

const EXAMPLES: &str = "\
Examples:
  kfifo record e1,e2,d e3,d,d          two threads, at the same time
  kfifo record e1,e2,d e3,d,d | kfifo check
                                       whether what they did has a legal order
  kfifo record -k 4 --repeat 100 e1,d e2,d e3,d | kfifo measure
                                       how often items were certainly overtaken,
                                       at most 3 times";

pub(crate) const DETAILS: &str = "\
Each SCRIPT is what one thread calls, in turn: words joined by commas. The first
script is that of thread 0.
  e<ITEM>          put ITEM, 1 to 16777215, into the queue
  e<ITEM>:<START>  the same, looking at the slots of a segment from START on, 0
                   to k - 1
  d                take an item
  d:<START>        the same, looking at the slots of a segment from START on
Numbers have 1 to 10 decimal digits, and no sign.

The threads are real ones, so the answers may differ from run to run; those of
one script alone do not. Where no thread can be made, scripts run one after the
other.

With --repeat each thread makes its script over so often. In repetition R, from
0, each item is greater by R times the greatest item of all scripts, so that
items stay distinct where they were.

The answer is one line: the record of the run, as `kfifo check` and
`kfifo measure` read it. The stamps of a call are drawn from one clock just
before and just after it. The record has a legal order for this k, and where
items are distinct `kfifo measure` finds none overtaken k times.

Limits: 64 scripts, each of at most 1024 calls with its repetitions.

Faults, each a line on standard error, followed by one that says what is wrong,
and one that names its explanation; nothing is on standard output then:
  kfifo: shape fault 1       k is not 1 to 64
  kfifo: shape fault 2       there are not 2 to 1024 segments
  kfifo: shape fault 3       the greatest version is below 2
  kfifo: shape fault 4       there are not 1 to k probes
  kfifo: word fault at <N>   script N, counted from 1, has a word that is no
                             call, or whose item or start is out of range, or an
                             item that goes over 16777215 in the last repetition
  kfifo: open fault 1        there are over 64 scripts
  kfifo: open fault 2        an allocation failed while the queue was made or
                             used
  kfifo: open fault 4        a script has over 1024 calls with its repetitions
  kfifo: memory              an allocation failed elsewhere

Exit status:
  0  the record was printed
  1  there was a fault of this list, or standard output could not be written
  2  the command line is at fault

An example: kfifo record -k 1 e7,d prints
  [{\"answer\":\"done\",\"first\":0,\"item\":7,\"last\":1,\"op\":\"enq\",\"thread\":0},
  {\"answer\":\"got\",\"first\":2,\"item\":7,\"last\":3,\"op\":\"deq\",\"thread\":0}]
as one line with no space.

docs/PROGRAM.md, where this program comes from, says more.";

/// How the command is written, and its help.
pub fn command<'a>(alloc: Global) -> Result<Command<'a>, AllocError>
    ensures { IfOk result (IsCommand record_command) }
{
    let repeat = options::option(alloc, REPEAT)
        .value_name("TIMES")
        .value_parser(value_parser!(u32).range(1..=1024))
        .default_value("1")
        .help("How often each script is made over, 1 to 1024, with\nitems of its own each time");
    let scripts = options::scripts(alloc);
    let command = Command::new(alloc, NAME)
        .about("Runs each script on a thread of its own, and prints the record")
        .after_help(EXAMPLES)
        .after_long_help(DETAILS);
    let command = options::with_sizes(alloc, command)?;
    options::with_turns(alloc, command)?
        .arg(repeat)?
        .arg(scripts)
}

/// What the options and the words give.
pub fn options_of<'a>(matches: &'a ArgMatches<'_>) -> RecordOptions<'a>
    ensures { GivesRecord (found_of matches.now) result }
{
    RecordOptions {
        sizes: options::sizes_of(matches),
        turns: options::turns_of(matches),
        repeat: times_of(matches),
        scripts: options::words_of(matches),
    }
}

/// How often scripts are made over, at least once: the option admits no less.
fn times_of(matches: &ArgMatches<'_>) -> u32
    ensures some { 1 ≤ result }
    ensures given { GivesTimes (found_of matches.now) result }
{
    options::count_of(matches, REPEAT, DEFAULT_REPEAT).max(1)
}
