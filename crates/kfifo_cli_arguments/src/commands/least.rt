//! The command `least`: between which bounds the least k of a record or a log lies.
ghost use Rattle.std.specs.Prelude.{IfOk};
ghost use Rattle.clap.specs.Words.{found_of};
ghost use Rattle.kfifo_cli_arguments.specs.CommandLine.{IsCommand, least_command};
ghost use Rattle.kfifo_cli_arguments.specs.Options.{GivesLeast};

use crate::options;
use clap::{ArgMatches, Command};
use kfifo_cli_requests::LeastOptions;
use std::alloc::{AllocError, Global};

/// The name of the command.
pub const NAME: &str = "least";

const EXAMPLES: &str = "\
Examples:
  kfifo least log.csv
  kfifo least < record.json";

pub(crate) const DETAILS: &str = with_all_input_faults!(
    "\
FILE, or standard input where no file is named, has a record, as
`kfifo check --help` says, or a log in CSV, as `kfifo import --help` says: a
record begins with `[`. A record has at most 65536 calls and 16777216 bytes, a
log 16777215 calls. k says how far a queue may stray from first in, first out: a
dequeue takes one of the k oldest items. With k = 1 it is a plain queue.

The answer is
  k at least <N>              for no k below N is an order of the calls legal
  k at most <N>               for N one is; or, where none was found up to 64,
  k unknown                   no order was found for any k from the bound up to
                              64
or, where no k at all would do,
  no order                    with the reason and the calls that it names, as
                              `kfifo judge --help` says

Faults, each a line on standard error, followed by one that says what is wrong,
and one that names its explanation:
",
    "
Exit status:
  0  the bounds were printed
  1  there was a fault of this list, or standard output could not be written
  2  the command line is at fault
  3  `no order` was printed

Examples:
  kfifo least log.csv
  kfifo least < record.json

docs/JUDGE.md and docs/PROGRAM.md, where this program comes from, say more."
);

/// How the command is written, and its help.
pub fn command<'a>(alloc: Global) -> Result<Command<'a>, AllocError>
    ensures { IfOk result (IsCommand least_command) }
{
    let command = Command::new(alloc, NAME)
        .about("Says between which bounds the least k of a record or a log lies")
        .after_help(EXAMPLES)
        .after_long_help(DETAILS);
    let command = options::with_tries(alloc, command)?;
    options::with_file(alloc, command)
}

/// What the options give.
pub fn options_of<'a>(matches: &'a ArgMatches<'_>) -> LeastOptions<'a>
    ensures { GivesLeast (found_of matches.now) result }
{
    LeastOptions {
        tries: options::tries_of(matches),
        file: options::file_of(matches),
    }
}
