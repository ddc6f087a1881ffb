//! The command `draw`: a picture of a record or a log, or of a part of it.
ghost use Rattle.std.specs.Prelude.{◌≡◌, IfOk, codes, option_map};
ghost use Rattle.clap.specs.Words.{app_of, first_value, found_of};
ghost use Rattle.clap.specs.declared.builder.command.Command.TheViews.{out-Command as fields_of};
ghost use Rattle.kfifo_cli_arguments.specs.CommandLine.{IsCommand, draw_command};
ghost use Rattle.kfifo_cli_arguments.specs.CommandLine.{with_evidence_options, with_stretch_options};
ghost use Rattle.kfifo_cli_arguments.specs.CommandLine.{with_style_options};
ghost use Rattle.kfifo_cli_arguments.specs.Options.{GivesDraw, GivesPlaces};

use crate::commands::check;
use crate::options;
use clap::{ArgMatches, Command, value_parser};
use kfifo_cli_requests::{CheckOptions, DrawOptions};
use std::alloc::{AllocError, Global};

/// The name of the command.
pub const NAME: &str = "draw";

const TEXT: &str = "text";

const WIDTH: &str = "width";

const EVIDENCE: &str = "evidence";

const AROUND: &str = "around";

const CALLS: &str = "calls";

const LINES: &str = "lines";

const EXAMPLES: &str = "\
Examples:
  kfifo draw log.csv > run.svg                     a picture for a browser
  kfifo draw --evidence log.csv > reason.svg
                              the calls because of which there is no order
  kfifo draw --text --calls 100-140 < record.json  a part, for the terminal
  kfifo draw --order 0,2,1 < record.json
                              with an order, for a plain queue";

pub(crate) const DETAILS: &str = with_input_faults!(
    "\
FILE, or standard input where no file is named, has a record, as
`kfifo check --help` says, or a log, as `kfifo import --help` says: a record
where its first byte that is no white space is `[`. A record has at most 65536
calls and 16777216 bytes, a log 16777215 calls, and at most 4096 calls are
drawn.

The picture has a lane for each thread, and in it a bar for each call from its
beginning to its end, with the call's number, what it asks for and its answer.
An unfinished call has an open end. Only the order of beginnings and ends
counts, so idle time takes no room: a call has ended before another begins
exactly where its bar ends to the left of the other. Lanes that are too long go
on below: there the torn ends of a bar belong together.

Without --text it is an SVG document, in which a bar tells all that is known of
its call where the pointer rests on it, with its line and its times in a log:
square corners are enqueues, round ones dequeues, and calls that were refused or
found nothing have broken outlines. It is at most 1600 pixels wide, or as many
as --width says, 200 to 16000, unless a single bar needs more room for its
label. With --text it is lines of at most 120 characters:
  thread 0   [0: enq 1 done][2: enq 2 done]
  thread 1                  [3: deq got 1-]

--evidence marks the calls that `kfifo judge` names for --k, and draws them with
the calls that overlap one of them or stand within --around calls of one. Where
there is no evidence nothing is marked, and all calls are drawn, if they are at
most 4096. --calls draws the calls with these numbers, --lines those in these
lines of a log: <A>-<B> goes from A to B, both included, and may go on after
the last one. With --evidence they say in place of --around what is drawn. What
is drawn is a part: it keeps the numbers, the marks and the verdict of the
whole.

--order takes an order of all calls as `kfifo check` does, also from a file by
@FILE. Then each label has the call's place in it, as #4, and the picture says
whether the order is legal for --k. Where it is not, the call at which it fails
is marked, and the fault is named as by `kfifo check`.

Faults, each a line on standard error, followed by one that says what is wrong,
and one that names its explanation:
  kfifo: draw fault 1         over 4096 calls are to be drawn: draw a part by
                              --evidence, --calls or --lines
  kfifo: draw fault 2         --evidence and --order, --text and --width, or
                              --calls and --lines are given together, or
                              --around without --evidence; the input is not read
                              then
  kfifo: draw fault 3         the value of --calls or --lines is not <A>-<B>,
                              two numbers of 1 to 10 digits of which B is no
                              less than A; the input is not read then
  kfifo: draw fault 4         --lines is given, and the input is a record
  kfifo: draw fault 5         --evidence is given, there is none for --k, and
                              there are over 4096 calls: draw a part by --calls
                              or --lines
  kfifo: order fault          the value of --order, or its file, is no order or
                              cannot be read; the input is not read then
",
    "  kfifo: record fault <F> at call <N>   record faults 3 to 8
  kfifo: csv fault at line <N>, record fault <F> at line <N>
                              faults of a log, as `kfifo import --help` lists
                              them
  kfifo: memory               an allocation failed

Exit status:
  0  the picture was printed, also of calls that have no order and with an order
     that is not legal
  1  there was a fault of this list, or standard output could not be written
  2  the command line is at fault

Examples:
  kfifo draw log.csv > run.svg                     a picture for a browser
  kfifo draw --evidence log.csv > reason.svg
                              the calls because of which there is no order
  kfifo draw --text --calls 100-140 < record.json  a part, for the terminal
  kfifo draw --order 0,2,1 < record.json
                              with an order, for a plain queue

docs/JUDGE.md and docs/PROGRAM.md, where this program comes from, say more."
);

/// Adds the options `--text` and `--width`.
fn with_style<'a>(alloc: Global, command: Command<'a>) -> Result<Command<'a>, AllocError>
    ensures { IfOk result (λ c. (app_of c ≡ with_style_options (app_of command.entry))
        × ((fields_of c).has_globals ≡ (fields_of command.entry).has_globals)) }
{
    let text = options::flag(alloc, TEXT).help("Draw with characters, a lane a line");
    let width = options::option(alloc, WIDTH)
        .value_name("PIXELS")
        .value_parser(value_parser!(u32).range(200..=16_000))
        .help("The greatest width, 200 to 16000 [default: 1600]");
    command.arg(text)?.arg(width)
}

/// Adds the options `--evidence` and `--around`.
fn with_evidence<'a>(alloc: Global, command: Command<'a>) -> Result<Command<'a>, AllocError>
    ensures { IfOk result (λ c. (app_of c ≡ with_evidence_options (app_of command.entry))
        × ((fields_of c).has_globals ≡ (fields_of command.entry).has_globals)) }
{
    let evidence = options::flag(alloc, EVIDENCE).help(
        "Mark the calls that the verdict names, and draw them\nand those near them",
    );
    let around = options::option(alloc, AROUND)
        .value_name("CALLS")
        .value_parser(value_parser!(u32))
        .help(
            "Within how many calls of a marked one calls are\ndrawn, with --evidence [default: 8]",
        );
    command.arg(evidence)?.arg(around)
}

/// Adds the options `--calls` and `--lines`.
fn with_stretches<'a>(alloc: Global, command: Command<'a>) -> Result<Command<'a>, AllocError>
    ensures { IfOk result (λ c. (app_of c ≡ with_stretch_options (app_of command.entry))
        × ((fields_of c).has_globals ≡ (fields_of command.entry).has_globals)) }
{
    let calls = options::option(alloc, CALLS)
        .value_name("A-B")
        .help("Draw the calls with the numbers A to B alone");
    let lines = options::option(alloc, LINES)
        .value_name("A-B")
        .help("Draw the calls in the lines A to B of a log alone");
    command.arg(calls)?.arg(lines)
}

/// How the command is written, and its help.
pub fn command<'a>(alloc: Global) -> Result<Command<'a>, AllocError>
    ensures { IfOk result (IsCommand draw_command) }
{
    let order = options::option(alloc, check::ORDER)
        .value_name("CALLS")
        .help(
            "An order to draw, too: call numbers joined by commas,\nnone for the empty order, or @FILE",
        );
    let command = Command::new(alloc, NAME)
        .about("Prints a picture of a record or a log, or of a part of it")
        .after_help(EXAMPLES)
        .after_long_help(DETAILS);
    let command = options::with_places(alloc, command, "1")?.arg(order)?;
    let command = with_style(alloc, command)?;
    let command = with_evidence(alloc, command)?;
    let command = with_stretches(alloc, command)?;
    options::with_file(alloc, command)
}

/// The k, and the order that is drawn too.
fn order_of<'a>(matches: &'a ArgMatches<'_>) -> CheckOptions<'a>
    ensures k { GivesPlaces (found_of matches.now) 1 result.k }
    ensures order { option_map (λ text. text.now) result.order ≡ first_value (found_of matches.now) (codes "order") }
{
    CheckOptions {
        k: options::places_of(matches, 1),
        order: matches.get_str(check::ORDER),
    }
}

/// What the options give.
pub fn options_of<'a>(matches: &'a ArgMatches<'_>) -> DrawOptions<'a>
    ensures { GivesDraw (found_of matches.now) result }
{
    DrawOptions {
        check: order_of(matches),
        text: matches.get_flag(TEXT),
        width: matches.get_one(WIDTH),
        evidence: matches.get_flag(EVIDENCE),
        around: matches.get_one(AROUND),
        calls: matches.get_str(CALLS),
        lines: matches.get_str(LINES),
        file: options::file_of(matches),
    }
}
