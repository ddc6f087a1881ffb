//! Options that several commands share.
ghost use Rattle.std.specs.Prelude.{◌≡◌, ◌≤◌, false, IfOk, map};
ghost use Rattle.clap.specs.Words.{app_of, found_of, one_text, rule_of};
ghost use Rattle.clap.specs.declared.builder.command.Command.TheViews.{out-Command as fields_of};
ghost use Rattle.kfifo_cli_arguments.specs.CommandLine as line;
ghost use Rattle.kfifo_cli_arguments.specs.Options.{GivesFile, GivesOr, GivesPlaces, GivesSizes, GivesTries};
ghost use Rattle.kfifo_cli_arguments.specs.Options.{GivesTurns, given_files, given_words};

use clap::{Arg, ArgAction, ArgMatches, Command, value_parser};
use kfifo_cli_requests::Sizes;
use kfifo_words::MAX_VERSION;
use std::alloc::{AllocError, Global};

const K: &str = "k";

const SEGMENTS: &str = "segments";

const LAST: &str = "last";

const PROBES: &str = "probes";

const HOLD_AGAIN: &str = "hold-again";

const TURNS: &str = "turns";

const TRIES: &str = "tries";

const FILE: &str = "file";

const WORDS: &str = "words";

/// In place of a file, it names standard input.
const STANDARD_INPUT: &str = "-";

const DEFAULT_K: u32 = 2;

const DEFAULT_SEGMENTS: u32 = 2;

const DEFAULT_TURNS: u16 = 2;

const DEFAULT_TRIES: u32 = 1_000_000;

/// The sizes that the options give.
pub fn sizes_of(matches: &ArgMatches<'_>) -> Sizes
    ensures { GivesSizes (found_of matches.now) result }
{
    Sizes {
        k: count_of(matches, K, DEFAULT_K),
        segments: count_of(matches, SEGMENTS, DEFAULT_SEGMENTS),
        last: matches.get_one(LAST).unwrap_or(MAX_VERSION),
        probes: matches.get_one(PROBES),
        hold_again: matches.get_flag(HOLD_AGAIN),
    }
}

/// The number that an option gives, or its default.
pub fn count_of(matches: &ArgMatches<'_>, name: &str, default: u32) -> u32
    ensures { GivesOr 32 (one_text (found_of matches.now) name.now) default result }
{
    matches.get_one(name).unwrap_or(default)
}

/// Adds the options `--k`, `--segments`, `--last`, `--probes` and `--hold-again`.
pub fn with_sizes<'a>(alloc: Global, command: Command<'a>) -> Result<Command<'a>, AllocError>
    ensures { IfOk result (λ c. (app_of c ≡ line.with_sizes (app_of command.entry))
        × ((fields_of c).has_globals ≡ (fields_of command.entry).has_globals)) }
{
    let k = number(alloc, K, "SLOTS", "2").short('k').help(
        "Slots in a segment, 1 to 64: a dequeue takes one of\nthe k oldest items",
    );
    let segments = number(alloc, SEGMENTS, "NUMBER", "2").help("Segments in the ring, 2 to 1024");
    let last = option(alloc, LAST)
        .value_name("VERSION")
        .value_parser(value_parser!(u64).range(0..=1_099_511_627_775))
        .default_value("1099511627775")
        .help("The greatest version of a word,\nat least 2");
    let probes = option(alloc, PROBES)
        .value_name("SLOTS")
        .value_parser(value_parser!(u32))
        .help("Slots of a segment that an enqueue looks at,\n1 to k [default: k]");
    let hold_again = flag(alloc, HOLD_AGAIN).help(
        "Let an enqueue that could not hold the head look at\nits slot again before it takes its item out",
    );
    command
        .arg(k)?
        .arg(segments)?
        .arg(last)?
        .arg(probes)?
        .arg(hold_again)
}

/// Adds the option `--turns`.
pub fn with_turns<'a>(alloc: Global, command: Command<'a>) -> Result<Command<'a>, AllocError>
    ensures { IfOk result (λ c. (app_of c ≡ line.with_turns (app_of command.entry))
        × ((fields_of c).has_globals ≡ (fields_of command.entry).has_globals)) }
{
    let turns = option(alloc, TURNS)
        .value_name("ROUNDS")
        .value_parser(value_parser!(u16).range(1..))
        .default_value("2")
        .help(
            "Rounds that a call makes before it returns busy,\n1 to 65535; segments plus 2 are enough for a call\n\
             that no other disturbs",
        );
    command.arg(turns)
}

/// The rounds of a call, at least 1: the option admits no less.
pub fn turns_of(matches: &ArgMatches<'_>) -> u16
    ensures some { 1 ≤ result }
    ensures given { GivesTurns (found_of matches.now) result }
{
    matches.get_one(TURNS).unwrap_or(DEFAULT_TURNS).max(1)
}

/// Adds the option `--k` of those that ask for an order, 1 to 64, with this default.
pub fn with_places<'a>(
    alloc: Global,
    command: Command<'a>,
    default: &'a str,
) -> Result<Command<'a>, AllocError>
    ensures { IfOk result (λ c. (app_of c ≡ line.with_places default.entry.now (app_of command.entry))
        × ((fields_of c).has_globals ≡ (fields_of command.entry).has_globals)) }
{
    let k = option(alloc, K)
        .value_name("PLACES")
        .value_parser(value_parser!(u32).range(1..=64))
        .default_value(default)
        .short('k')
        .help("A dequeue takes one of the k oldest items,\n1 to 64");
    command.arg(k)
}

/// The option `--k` of those that ask for an order, 1 to 64: the option admits no other.
pub fn places_of(matches: &ArgMatches<'_>, default: u32) -> u32
    ensures given { GivesPlaces (found_of matches.now) default result }
    ensures range { (1 ≤ result) × (result ≤ 64) }
{
    count_of(matches, K, default).max(1).min(64)
}

/// Adds the option `--tries`.
pub fn with_tries<'a>(alloc: Global, command: Command<'a>) -> Result<Command<'a>, AllocError>
    ensures { IfOk result (λ c. (app_of c ≡ line.with_tries (app_of command.entry))
        × ((fields_of c).has_globals ≡ (fields_of command.entry).has_globals)) }
{
    let tries = number(alloc, TRIES, "NUMBER", "1000000").help(
        "How many choices the search for an order may undo\nbefore it gives up",
    );
    command.arg(tries)
}

/// The choices that a search may undo.
pub fn tries_of(matches: &ArgMatches<'_>) -> u64
    ensures { GivesTries (found_of matches.now) result }
{
    u64::from(count_of(matches, TRIES, DEFAULT_TRIES))
}

/// Adds the argument `[FILE]`.
pub fn with_file<'a>(alloc: Global, command: Command<'a>) -> Result<Command<'a>, AllocError>
    ensures { IfOk result (λ c. (app_of c ≡ line.with_file (app_of command.entry))
        × ((fields_of c).has_globals ≡ (fields_of command.entry).has_globals)) }
{
    let file = Arg::new(alloc, FILE)
        .value_name("FILE")
        .action(ArgAction::Set)
        .help("The file to read; standard input if none is named,\nor -");
    command.arg(file)
}

/// Adds the argument `[FILE]..`.
pub fn with_files<'a>(alloc: Global, command: Command<'a>) -> Result<Command<'a>, AllocError>
    ensures { IfOk result (λ c. (app_of c ≡ line.with_files (app_of command.entry))
        × ((fields_of c).has_globals ≡ (fields_of command.entry).has_globals)) }
{
    let files = many(alloc, FILE, "FILE").help(
        "The files to read; standard input if none is named,\nor - alone",
    );
    command.arg(files)
}

/// The paths of all files that are named.
pub fn files_of<'a>(matches: &'a ArgMatches<'_>) -> &'a [&'a str]
    ensures { map (λ file. file.now) result.now ≡ given_files (found_of matches.now) }
{
    matches.get_strs(FILE).unwrap_or(&[])
}

/// The path of the file that is read, where one is named; none of standard input.
pub fn file_of<'a>(matches: &'a ArgMatches<'_>) -> Option<&'a str>
    ensures { GivesFile (found_of matches.now) result }
{
    let path = matches.get_str(FILE)?;
    if path == STANDARD_INPUT {
        None
    } else {
        Some(path)
    }
}

/// The arguments that are words, of which there may be none. Help calls each of them `shown`.
pub fn any_words<'a>(alloc: Global, shown: &'a str) -> Arg<'a>
    ensures rule { rule_of result ≡ line.any_words }
    ensures own { result.global ≡ false }
{
    many(alloc, WORDS, shown)
}

/// The arguments that are words, at least one. Help calls each of them `shown`.
pub fn required_words<'a>(alloc: Global, shown: &'a str) -> Arg<'a>
    ensures rule { rule_of result ≡ line.script }
    ensures own { result.global ≡ false }
{
    any_words(alloc, shown).required(true)
}

/// The scripts of threads, at least one.
pub fn scripts<'a>(alloc: Global) -> Arg<'a>
    ensures rule { rule_of result ≡ line.script }
    ensures own { result.global ≡ false }
{
    required_words(alloc, "SCRIPT").help(
        "What each thread calls: e<ITEM>, e<ITEM>:<START>, d or\nd:<START>, joined by commas",
    )
}

/// The words that are given.
pub fn words_of<'a>(matches: &'a ArgMatches<'_>) -> &'a [&'a str]
    ensures { map (λ word. word.now) result.now ≡ given_words (found_of matches.now) }
{
    matches.get_strs(WORDS).unwrap_or(&[])
}

/// The arguments `name`, of which there may be any number. Help calls each of them `shown`.
fn many<'a>(alloc: Global, name: &'a str, shown: &'a str) -> Arg<'a>
    ensures rule { rule_of result ≡ line.many name.entry.now }
    ensures own { result.global ≡ false }
{
    Arg::new(alloc, name)
        .value_name(shown)
        .action(ArgAction::Append)
        .num_args(1..)
}

/// The option `--name`, which takes a number of 32 bits. Help calls its value `shown`.
pub fn number<'a>(alloc: Global, name: &'a str, shown: &'a str, default: &'a str) -> Arg<'a>
    ensures rule { rule_of result
        ≡ line.default_option name.entry.now (line.small_numbers 0 4294967295) default.entry.now }
    ensures own { result.global ≡ false }
{
    option(alloc, name)
        .value_name(shown)
        .value_parser(value_parser!(u32))
        .default_value(default)
}

/// The option `--name`, which takes no value.
pub fn flag<'a>(alloc: Global, name: &'a str) -> Arg<'a>
    ensures rule { rule_of result ≡ line.flag name.entry.now }
    ensures own { result.global ≡ false }
{
    Arg::new(alloc, name).long(name).action(ArgAction::SetTrue)
}

/// The option `--name`, which takes a value.
pub fn option<'a>(alloc: Global, name: &'a str) -> Arg<'a>
    ensures rule { rule_of result ≡ line.option name.entry.now }
    ensures own { result.global ≡ false }
{
    Arg::new(alloc, name).long(name).action(ArgAction::Set)
}
