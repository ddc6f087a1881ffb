//! The command line of the whole program: its commands, and which of them is asked for.
ghost use Rattle.std.specs.Prelude.{◌≡◌, None, IfOk, IfSome, map, string_bytes};
ghost use Rattle.clap.specs.Kinds.{FailsBy};
ghost use Rattle.clap.specs.Words.{subcommand_rows_of};
ghost use Rattle.kfifo_cli_arguments.specs.CommandLine.{IsCommand, NamesNone, kfifo, kinds, named};
ghost use Rattle.kfifo_cli_arguments.specs.Requests.{Requests};

use crate::commands::{
    check, dispatch, draw, explain, import, judge, least, measure, record, replay, run,
};
use clap::{ArgMatches, Command, Error};
use kfifo_cli_requests::Request;
use std::alloc::{AllocError, Global};

/// The version of the program.
const VERSION: &str = "0.4.0";

const EXAMPLES: &str = "\
Examples:
  kfifo judge log.csv  says of a log of your own queue whether it is that of a
                       plain queue, and why not
  kfifo run e7 e8 d    puts 7 and 8 into a queue, takes one, and prints the
                       words of the queue
  kfifo run --help     says all about a command

`kfifo --help` has an example of each command, and the exit statuses.";

const DETAILS: &str = "\
Examples:
  kfifo run e7 e8 d   puts 7 and 8 into a queue, takes one, and prints the words
                      of the queue
  kfifo check < record.json
                      says whether a recorded run of a queue has a legal order
  kfifo judge log.csv
                      says of a log of your own queue whether it is that of a
                      plain queue, and why not
  kfifo import log.csv > record.json
                      makes a record of such a log
  kfifo draw log.csv > run.svg
                      draws such a log, a lane for each thread
  kfifo replay --picks 0x6,1x7,0x2 --turns 1 e5 e6:1
                      runs two threads step by step in this order
  kfifo record e1,e2,d e3,d,d | kfifo check
                      runs two real threads, and says whether the record has a
                      legal order
  kfifo dispatch --workers 4 1:1000:0 2:2000:0
                      works off two tasks by four real threads
  kfifo run --help    says how a script is written, and what its options and
                      faults are
  kfifo explain record fault 3
                      says what this fault means, and what to do

Exit status: 0 for an answer; 1 for a fault of the data, a size, the memory,
reading or writing; 2 for a fault of the command line; 3 where a record has no
order, or its order is not legal; 4 where `judge` cannot say.

The documents, where this program comes from: README.md begins; docs/PROGRAM.md
is about the commands, docs/JUDGE.md about records and orders.";

/// Returns the request of the command that was named, with what its options were given; None where none was named.
pub fn request_of<'a>(matches: &'a ArgMatches<'_>) -> Option<Request<'a>>
    ensures some { IfSome result (Requests (subcommand_rows_of matches.now)) }
    ensures none { result ≡ None → NamesNone (subcommand_rows_of matches.now) }
{
    if let Some(options) = matches.subcommand_matches(run::NAME) {
        return Some(Request::Run(run::options_of(options)));
    }
    if let Some(options) = matches.subcommand_matches(check::NAME) {
        return Some(Request::Check(check::options_of(options)));
    }
    if let Some(_) = matches.subcommand_matches(measure::NAME) {
        return Some(Request::Measure);
    }
    if let Some(options) = matches.subcommand_matches(replay::NAME) {
        return Some(Request::Replay(replay::options_of(options)));
    }
    if let Some(options) = matches.subcommand_matches(judge::NAME) {
        if judge::names_several(options) {
            return Some(Request::JudgeFiles(judge::files_options_of(options)));
        }
        return Some(Request::Judge(judge::options_of(options)));
    }
    if let Some(options) = matches.subcommand_matches(least::NAME) {
        return Some(Request::Least(least::options_of(options)));
    }
    if let Some(options) = matches.subcommand_matches(record::NAME) {
        return Some(Request::Record(record::options_of(options)));
    }
    if let Some(options) = matches.subcommand_matches(import::NAME) {
        return Some(Request::Import(import::options_of(options)));
    }
    if let Some(options) = matches.subcommand_matches(draw::NAME) {
        return Some(Request::Draw(draw::options_of(options)));
    }
    if let Some(options) = matches.subcommand_matches(dispatch::NAME) {
        return Some(Request::Dispatch(dispatch::options_of(options)));
    }
    if let Some(options) = matches.subcommand_matches(explain::NAME) {
        return Some(Request::Explain(explain::options_of(options)));
    }
    None
}

/// Reads `words`, the arguments after the program's name, and returns the command that they name, with its options.
/// The error says what is wrong with them, holds the help or the version that they ask for, or says that memory was
/// refused.
pub fn parse<'a>(alloc: Global, words: &'a [String]) -> Result<ArgMatches<'a>, Error>
    ensures named { IfOk result (λ m. subcommand_rows_of m ≡ named (map (λ w. string_bytes w) words.entry.now)) }
    ensures kinds { FailsBy (kinds (map (λ w. string_bytes w) words.entry.now)) result }
{
    command(alloc)?.try_get_matches_from(words)
}

/// How the command line is written, and its help.
fn command<'a>(alloc: Global) -> Result<Command<'a>, AllocError>
    ensures { IfOk result (IsCommand kfifo) }
{
    Command::new(alloc, "kfifo")
        .bin_name("kfifo")?
        .no_binary_name(true)
        .version(VERSION)
        .about("A bounded k-FIFO queue without locks: a dequeue takes any of the k oldest items")
        .after_help(EXAMPLES)
        .after_long_help(DETAILS)
        .subcommand_required(true)
        .arg_required_else_help(true)
        .subcommand(run::command(alloc)?)?
        .subcommand(check::command(alloc)?)?
        .subcommand(measure::command(alloc)?)?
        .subcommand(replay::command(alloc)?)?
        .subcommand(judge::command(alloc)?)?
        .subcommand(least::command(alloc)?)?
        .subcommand(record::command(alloc)?)?
        .subcommand(import::command(alloc)?)?
        .subcommand(draw::command(alloc)?)?
        .subcommand(dispatch::command(alloc)?)?
        .subcommand(explain::command(alloc)?)
}
