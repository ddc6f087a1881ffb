//! The command `explain`: what a fault or an answer means, in the words of the help, what is allowed, and what to do.
ghost use Rattle.std.specs.Prelude.{IfOk};
ghost use Rattle.clap.specs.Words.{found_of};
ghost use Rattle.kfifo_cli_arguments.specs.CommandLine.{IsCommand, explain_command};
ghost use Rattle.kfifo_cli_arguments.specs.Options.{GivesExplain};

use crate::options;
use crate::topics::{answers, arguments, helps, inputs, statuses, verdicts};
use clap::{ArgMatches, Command};
use kfifo_cli_requests::ExplainOptions;
use std::alloc::{AllocError, Global};

/// The name of the command.
pub const NAME: &str = "explain";

const EXAMPLES: &str = "\
Examples:
  kfifo explain record fault 3
  kfifo explain undecided";

pub(crate) const DETAILS: &str = "\
The words are those of a fault or an answer, as the program printed it:
`record fault 3 at line 12`, with or without `kfifo:` before it, or its first
words that tell it from others, as `csv fault`. Or they are a name: of evidence,
as `NeverPut`, of an exit status, as `status 3`, or of a status of the library
for C, as `KFIFO_FULL`. Quote words that your shell would take for its own.

The answer is what the help of the command says of it, what is allowed, and what
to do.

Some answers stand in no other list:
  legal                       of `check --order`: the order is legal; of
                              `judge`: an order of the calls is legal for this k
  order                       of `check`: an order of the calls is legal; with
                              call numbers after it, the order itself
  the order fails             of `draw --order`: the order is not legal, for the
                              reason after it; or `the order is legal`
  no calls                    of `draw --text`: the record is empty
  call <N> item <X> overtaken <C>   of `measure`: that many items that were put
                                    after X were got before it
  most <C>                    of `measure`: the greatest of these counts
  head <S> v<V>               of `run`: the head's segment, and the version of
                              the word
  tail <S> v<V>               of `run`: the tail's segment, and the version of
                              the word
  slot <S>.<P> <X> v<V>       of `run`: the item in place P of segment S, 0 of
                              none, and the slot's version
  <ID> <SUM>                  of `dispatch`: what the task came to

Exit statuses:
  status 0                    the answer was printed, or the help that was asked
                              for
  status 1                    the data, a size, the memory, reading or writing
                              was at fault; or `judge` was given several
                              files, of which one has no order
  status 2                    the command line is at fault
  status 3                    a record or a log has no order for this k, or the
                              order that was given is not legal
  status 4                    `judge` cannot say whether there is an order: it
                              printed `undecided`

Statuses of the library for C:
  KFIFO_DONE                  the item or the value is in the queue, or was
                              already taken; of a take: one was taken
  KFIFO_FULL                  there is no room or no free cell: nothing was put
                              or reserved
  KFIFO_EMPTY                 the queue was empty
  KFIFO_BUSY                  each round of the call was lost to other threads:
                              nothing was put or taken
  KFIFO_WORN                  a version would pass the greatest one: nothing was
                              put or taken
  KFIFO_BAD_CALL              a pointer is null, an argument is out of range, or
                              a handle is closed, missing, of another kind or
                              without such a cell: nothing was done
  KFIFO_NO_MEMORY             an allocation failed: nothing was done
  KFIFO_BAD_THREADS           the number of threads is not 1 to 64
  KFIFO_LOST                  of a close: an allocation failed, the queue is
                              closed, and what was left in it is lost
  KFIFO_BAD_K                 k is not 1 to 64
  KFIFO_BAD_SEGMENTS          the number of segments is not 2 to 1024
  KFIFO_BAD_LAST              the greatest version is not 2 to 1099511627775
  KFIFO_BAD_PROBES            the number of probes is not 1 to k
  KFIFO_TIMED_OUT             of a call that waits: its time was up, and nothing
                              was put or taken
  KFIFO_FINISHED              of a call that waits: the queue was finished, and
                              nothing was put, or it was empty then
  KFIFO_BAD_RESERVE           the reserve is not below the greatest version
  KFIFO_BAD_CAPACITY          the capacity is 0, or greater than a queue with
                              this k for so many threads can have
  KFIFO_BAD_LAYOUT            the alignment of a cell is no power of two from 1
                              to 4096, or its size is 0 or no multiple of it

Faults, each a line on standard error, followed by one that says what is wrong,
and one that names its explanation:
  kfifo: explain fault 1      the words are those of no fault and no answer
  kfifo: memory               an allocation failed
  error: <TEXT>               of each command: the command line is at fault, and
                              the status is 2

Exit status:
  0  the answer was printed
  1  there was a fault of this list, or standard output could not be written
  2  the command line is at fault

Examples:
  kfifo explain record fault 3
  kfifo explain undecided
  kfifo explain status 3
  kfifo explain \"call 5 got item 9, while 1 older item was there: calls 3\"

docs/PROGRAM.md and docs/JUDGE.md, where this program comes from, say more.";

/// How the command is written, and its help.
pub fn command<'a>(alloc: Global) -> Result<Command<'a>, AllocError>
    ensures { IfOk result (IsCommand explain_command) }
{
    let words = options::required_words(alloc, "WORD").help(
        "The words of a fault or an answer, as they were printed",
    );
    Command::new(alloc, NAME)
        .about("Says what a fault or an answer means, and what to do")
        .after_help(EXAMPLES)
        .after_long_help(DETAILS)
        .arg(words)
}

/// What the words give.
pub fn options_of<'a>(matches: &'a ArgMatches<'_>) -> ExplainOptions<'a>
    ensures { GivesExplain (found_of matches.now) result }
{
    ExplainOptions {
        words: options::words_of(matches),
        first_topics: arguments::topics(),
        second_topics: inputs::topics(),
        third_topics: verdicts::topics(),
        fourth_topics: answers::topics(),
        last_topics: statuses::topics(),
        helps: helps(),
    }
}
