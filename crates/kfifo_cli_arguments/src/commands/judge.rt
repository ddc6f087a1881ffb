//! The command `judge`: a verdict on a record or a log of any length.
ghost use Rattle.std.specs.Prelude.{◌↔◌, ◌<◌, ◌≤◌, IfOk, IsTrue, length};
ghost use Rattle.clap.specs.Words.{found_of};
ghost use Rattle.kfifo_cli_arguments.specs.CommandLine.{IsCommand, judge_command};
ghost use Rattle.kfifo_cli_arguments.specs.Options.{GivesJudge, GivesJudgeFiles, given_files};

use crate::options;
use clap::{ArgMatches, Command};
use kfifo_cli_requests::{JudgeFilesOptions, JudgeOptions};
use std::alloc::{AllocError, Global};

/// The name of the command.
pub const NAME: &str = "judge";

const SHOW: &str = "show";

const JSON: &str = "json";

const EXAMPLES: &str = "\
Examples:
  kfifo judge log.csv                    is this the log of a plain queue, and
                                         why not?
  kfifo judge -k 4 --show < record.json  read standard input, and print an
                                         order, too
  kfifo judge logs/*.csv                 a line for each log of a folder
  kfifo judge --json logs/*.csv | jq -r 'select(.status != \"legal\").file'
                                         the names of those that are not legal";

pub(crate) const DETAILS: &str = with_all_input_faults!(
    "\
FILE, or standard input where no file is named, has a record, as
`kfifo check --help` says, or a log in CSV, as `kfifo import --help` says: a
record begins with `[`. A record has at most 65536 calls and 16777216 bytes, a
log 16777215 calls. `check` decides records of at most 12 calls; this command
takes any, and gives a reason.

Drain the queue until it answers empty before the log ends, or a loss cannot be
seen. Give each item a number of its own: repeated ones may leave even k = 1
undecided.

The answer is one of these:
  legal for k = <K>           an order of the calls is legal, and
  worst rank <N>              the most older items that a dequeue passed over in
                              the order that was found, at most k - 1. It says
                              nothing of the queue: another order of the same
                              calls may have a lesser or a greater one
  order <CALLS>               with --show: the order, which
                              `kfifo check --order` takes
  calls <N>, items left <M>   N calls were judged, and M items were put and
                              never got

  no order for k = <K>        no order is legal, because of one of these:
  call <N> got item <X>, which no call before its end put
                              an item from nowhere: no call put X, or each that
                              did began after call N
  call <N> got item <X>, which was taken more often than put
                              an item twice: more calls got X than put it, and
                              call N is the last of them
  call <N> found nothing, while there were items: calls <CALLS>
                              at each moment of call N an item of one of these
                              puts was in the queue
  call <N> got item <X>, while <K> older items were there: calls <CALLS>
                              an overtaking: the items of these puts stood
                              before X, so X was not one of the k oldest
  call <N> got item <X>, when more gets of it had ended than puts had begun
                              an item too soon: X is put more than once, but by
                              the end of call N more calls had got it than had
                              begun to put it
  call <N> found nothing, while some item had been put more often than taken
                              an Empty too early: as call N began, and as each
                              call began during it, more calls had put some item
                              than had begun to get it
  call <N> got item <X>, though <K> older items were left: calls <CALLS>
                              an overtaking where items repeat: the items of
                              these puts stood before each X that call N may
                              have got
  Then come the calls that are named, the first 32 of them, each in a line:
  call <N>: thread <T> put <X> from <FIRST> to <LAST>
                              what call N did, and when; or `got <X>`, or
                              `found nothing`
  call <N>, line <L>: thread <T> put <X> from <FIRST> to <LAST>
                              the same of a log, with the line and the times of
                              the log
  , got by call <M>           after a put: its item was got by call M. An Empty
                              that names it came too early
  , never got                 after a put: its item was lost, or was left
                              inside at the end of the log
  and the line `calls <N>, items left <M>`, then after an overtaking the lines
  of `kfifo least`, which say for which k there may be an order.

  undecided for k = <K>       neither an order nor a reason was found, for what
                              the next line says.
  the tries ran out           as many choices were undone as --tries allows;
                              more of them may find an order
  nothing is left to try      the search saw nothing that it could do otherwise;
                              more tries do not help
  after <N> tries             after either: that many choices were undone
  ; items repeat              after either: an item is put or got more than
                              once. Give each its own number

Call numbers are places in the array, from 0; those of a log are in ascending
order of first time.

Of several files, each is judged by itself, and has a line:
  <FILE>: legal, calls <N>
  <FILE>: no order, calls <N>: <REASON>    what the evidence says of the queue
  <FILE>: undecided, calls <N>: <REASON>   why the search stopped
  <FILE>: <FAULT> (<WORDS>)                the file has no verdict: it cannot be
                                           read, or is no record and no log
  files <N> for k = <K>: legal <N>, no order <N>, undecided <N>, fault <N>
                                           the last line, which counts them
`kfifo judge FILE` says all of one of them. Of several, - is the name of a file.

With --json the verdict is an object in one line, and so is that of each of
several files, with no line after them. What does not apply is null.
  calls, left     how many calls were judged, and how many items were left
  evidence        of `no order`: its kind, 1 to 7, and its name, a headline, and
                  the calls that it names (named)
  file            the name of the file
  k, status       the k, and `legal`, `no order` or `undecided`
  least           the bounds of the least k (at_least, at_most), where the text
                  says them
  order           with --show: the order that was found
  text            what is printed without --json
  tries           of `undecided`: after how many tries the search gave up
A file of several that has no verdict has the status `fault`, the fault, and
what is wrong (words).

Faults, each a line on standard error, followed by one that says what is wrong,
and one that names its explanation:
",
    "
Exit status:
  0  `legal` was printed
  1  there was a fault of this list, or standard output could not be written
  2  the command line is at fault
  3  `no order` was printed
  4  `undecided` was printed
Of several files: 1 if one has no order or no verdict; else 4 if one is
undecided; else 0.

Examples:
  kfifo judge log.csv                    is this the log of a plain queue, and
                                         why not?
  kfifo judge -k 4 --show < record.json  read standard input, and print an
                                         order, too
  kfifo judge logs/*.csv                 a line for each log of a folder
  kfifo judge --json logs/*.csv | jq -r 'select(.status != \"legal\").file'
                                         the names of those that are not legal

docs/JUDGE.md and docs/PROGRAM.md, where this program comes from, say more."
);

/// How the command is written, and its help.
pub fn command<'a>(alloc: Global) -> Result<Command<'a>, AllocError>
    ensures { IfOk result (IsCommand judge_command) }
{
    let show = options::flag(alloc, SHOW).help("Print the order that was found, too");
    let json = options::flag(alloc, JSON).help(
        "Print the verdict as JSON, an object in a line for\neach file",
    );
    let command = Command::new(alloc, NAME)
        .about("Says whether a record or a log has a legal order, or why not")
        .after_help(EXAMPLES)
        .after_long_help(DETAILS);
    let command = options::with_places(alloc, command, "1")?;
    let command = options::with_tries(alloc, command)?.arg(show)?.arg(json)?;
    options::with_files(alloc, command)
}

/// Whether several files are named.
pub fn names_several(matches: &ArgMatches<'_>) -> bool
    ensures { IsTrue result ↔ 1 < length (given_files (found_of matches.now)) }
{
    options::files_of(matches).len() > 1
}

/// What the options give for at most one file.
pub fn options_of<'a>(matches: &'a ArgMatches<'_>) -> JudgeOptions<'a>
    requires { length (given_files (found_of matches.now)) ≤ 1 }
    ensures { GivesJudge (found_of matches.now) result }
{
    JudgeOptions {
        k: options::places_of(matches, 1),
        tries: options::tries_of(matches),
        show: matches.get_flag(SHOW),
        json: matches.get_flag(JSON),
        file: options::file_of(matches),
    }
}

/// What the options give for several files.
pub fn files_options_of<'a>(matches: &'a ArgMatches<'_>) -> JudgeFilesOptions<'a>
    requires { 1 < length (given_files (found_of matches.now)) }
    ensures { GivesJudgeFiles (found_of matches.now) result }
{
    JudgeFilesOptions {
        k: options::places_of(matches, 1),
        tries: options::tries_of(matches),
        show: matches.get_flag(SHOW),
        json: matches.get_flag(JSON),
        files: options::files_of(matches),
    }
}
