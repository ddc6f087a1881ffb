//! The command `check`: whether a record has a legal order, or whether a given order of it is legal.
ghost use Rattle.std.specs.Prelude.{IfOk};
ghost use Rattle.clap.specs.Words.{found_of};
ghost use Rattle.kfifo_cli_arguments.specs.CommandLine.{IsCommand, check_command};
ghost use Rattle.kfifo_cli_arguments.specs.Options.{GivesCheck};

use crate::options;
use clap::{ArgMatches, Command};
use kfifo_cli_requests::CheckOptions;
use std::alloc::{AllocError, Global};

/// The name of the command.
pub const NAME: &str = "check";

/// The name of the option that gives an order.
pub const ORDER: &str = "order";

const EXAMPLES: &str = "\
Examples:
  kfifo check < record.json                     look for a legal order
  kfifo check -k 1 --order 0,2,1 < record.json
                              judge this order for a plain queue";

pub(crate) const DETAILS: &str = "\
The record is a JSON array on standard input, with an object for each call, by
rising first step:
  {\"thread\":0,\"op\":\"enq\",\"item\":7,\"first\":0,\"last\":8,\"answer\":\"done\"}
  {\"thread\":1,\"op\":\"deq\",\"first\":9,\"last\":13,\"answer\":\"got\",\"item\":7}
  thread       0 to 63
  op           \"enq\" or \"deq\"
  item         1 to 16777215, in each enq, and in a deq that was answered \"got\"
  first, last  stamps of one clock, 0 to 18446744073709551615, drawn before and
               after the call
  answer       of an enq \"done\", \"full\", \"busy\" or \"worn\"; of a deq \"got\",
               \"empty\", \"busy\" or \"worn\"
An unfinished call has neither `last` nor `answer`. Call numbers are places in
the array, from 0.

--order takes call numbers of 1 to 10 digits joined by commas, or `none`.
`--order @FILE` reads them from a file of at most 16777216 bytes, in which white
space may stand around each number.

Limits: 16777216 bytes of input, 65536 calls, and 12 calls where no order is
given.

Without --k this command tries k = 2, and `kfifo judge` k = 1: so a record may
have an `order` here and `no order` there.

Without --order the answer is `order` or `no order`. With it the answer is
`legal`, or the first fault of that order:
  fault 1 repeats             a call number stands twice
  fault 2 not a call          a number is that of no call, or of an unfinished
                              dequeue
  fault 3 leaves out          a finished call is missing
  fault 4 breaks before       a call stands before one that ended before it
                              began
  fault 5 not a run at <N>    place N, from 0, is the first whose answer is not
                              legal there

Faults, each a line on standard error, followed by one that says what is wrong,
and one that names its explanation:
  kfifo: order fault          the value of --order, or its file, is no order or
                              cannot be read; the input is not read then
  kfifo: input                reading failed, or over 16777216 bytes came
  kfifo: no input             no byte came; in a pipe the command before has
                              probably failed, and said why
  kfifo: not json             the input is no JSON text, or is not UTF-8
  kfifo: record fault 1       the text is no array
  kfifo: record fault 2       there are over 65536 calls
  kfifo: record fault 3 at call <N>   call N is no object, a key is missing or
                                      not allowed, or a value is of the wrong
                                      kind
  kfifo: record fault 4 at call <N>   the thread or the item is out of its range
  kfifo: record fault 5 at call <N>   the answer is none of this op
  kfifo: record fault 6 at call <N>   `last` is less than `first`
  kfifo: record fault 7 at call <N>   `first` is not greater than that of the
                                      call before
  kfifo: record fault 8 at call <N>   the call before of this thread has not
                                      ended by then
  kfifo: record fault 9       an allocation failed
  kfifo: search fault 1       there are over 12 calls, and no order is given
  kfifo: search fault 2       an allocation failed in the search
  kfifo: memory               an allocation failed

Exit status:
  0  `order` or `legal` was printed
  1  there was a fault of the last list, or standard output could not be written
  2  the command line is at fault
  3  `no order` or the fault of an order was printed

Examples:
  kfifo check < record.json                     look for a legal order
  kfifo check -k 1 --order 0,2,1 < record.json
                              judge this order for a plain queue
  kfifo check --order @order.txt < record.json
                              judge the order that a file holds

docs/JUDGE.md and docs/PROGRAM.md, where this program comes from, say more.";

/// How the command is written, and its help.
pub fn command<'a>(alloc: Global) -> Result<Command<'a>, AllocError>
    ensures { IfOk result (IsCommand check_command) }
{
    let order = options::option(alloc, ORDER).value_name("CALLS").help(
        "The order to judge: call numbers joined by commas,\nnone for the empty order, or @FILE",
    );
    let command = Command::new(alloc, NAME)
        .about("Reads a record of calls, and says whether an order of them is legal")
        .after_help(EXAMPLES)
        .after_long_help(DETAILS);
    options::with_places(alloc, command, "2")?.arg(order)
}

/// What the options give.
pub fn options_of<'a>(matches: &'a ArgMatches<'_>) -> CheckOptions<'a>
    ensures { GivesCheck (found_of matches.now) result }
{
    CheckOptions {
        k: options::places_of(matches, 2),
        order: matches.get_str(ORDER),
    }
}
