//! The command `import`: the record of a log in CSV.
ghost use Rattle.std.specs.Prelude.{IfOk};
ghost use Rattle.clap.specs.Words.{found_of};
ghost use Rattle.kfifo_cli_arguments.specs.CommandLine.{IsCommand, import_command};
ghost use Rattle.kfifo_cli_arguments.specs.Options.{GivesFile};

use crate::options;
use clap::{ArgMatches, Command};
use kfifo_cli_requests::ImportOptions;
use std::alloc::{AllocError, Global};

/// The name of the command.
pub const NAME: &str = "import";

const EXAMPLES: &str = "\
Examples:
  kfifo import log.csv > record.json
  kfifo import < log.csv | kfifo check";

pub(crate) const DETAILS: &str = "\
FILE, or standard input where no file is named, has the log: CSV of at most
16777216 bytes. Its first line names the fields, in any order, and each line
after it is one call, in any order of lines:
  thread,op,item,first,last,answer
  0,enq,7,1000,1840,done
  1,deq,7,1310,2075,got
  1,deq,,2100,2200,empty
  0,enq,8,2300,,
  thread       0 to 63
  op           enq or deq
  item         1 to 16777215, in each enq, and in a deq that was answered got;
               else nothing
  first, last  times of one clock, such as nanoseconds, read before and after
               the call, 0 to 18446744073709551615; two calls may have equal
               times
  answer       of an enq done, full, busy or worn; of a deq got, empty, busy or
               worn
An unfinished call has neither `last` nor `answer`. A dequeue that was cut off
is taken to have got nothing: where your queue cannot know that, leave such a
dequeue out only if its item turns up again.

The answer is the record of the log, as one line of JSON: its calls in ascending
order of `first` (of equal ones the earlier line first), with stamps that are
the places of all beginnings and ends in ascending order of time. At one time
beginnings come before ends, so a call comes before another in the record
exactly where its `last` is less than the other's `first`.

Faults, each a line on standard error, followed by one that says what is wrong,
and one that names its explanation; lines are counted from 1:
  kfifo: input                          the file or standard input cannot be
                                        read, or has over 16777216 bytes
  kfifo: csv fault at line <N>          the first line lacks one of these fields
                                        or has one twice, or line N does not
                                        have as many fields as it
  kfifo: record fault 2                 there are over 65536 calls
  kfifo: record fault 3 at line <N>     a field is missing or not allowed there,
                                        a number is not whole, or `op` is
                                        another word
  kfifo: record fault 4 at line <N>     the thread or the item is out of its
                                        range
  kfifo: record fault 5 at line <N>     the answer is none of this op
  kfifo: record fault 6 at line <N>     `last` is less than `first`
  kfifo: record fault 8 at line <N>     the call before of this thread has not
                                        ended by then
  kfifo: memory                         an allocation failed

Exit status:
  0  the record was printed
  1  there was a fault of this list, or standard output could not be written
  2  the command line is at fault

Examples:
  kfifo import log.csv > record.json
  kfifo import < log.csv | kfifo check

docs/JUDGE.md and docs/PROGRAM.md, where this program comes from, say more.";

/// How the command is written, and its help.
pub fn command<'a>(alloc: Global) -> Result<Command<'a>, AllocError>
    ensures { IfOk result (IsCommand import_command) }
{
    let command = Command::new(alloc, NAME)
        .about("Reads a log of calls in CSV, and prints it as a record")
        .after_help(EXAMPLES)
        .after_long_help(DETAILS);
    options::with_file(alloc, command)
}

/// What the arguments give.
pub fn options_of<'a>(matches: &'a ArgMatches<'_>) -> ImportOptions<'a>
    ensures { GivesFile (found_of matches.now) result.file }
{
    ImportOptions {
        file: options::file_of(matches),
    }
}
