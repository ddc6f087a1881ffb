//! How many of several files had which verdict.
ghost use Rattle.std.specs.Prelude.{◌≡◌, ◌≢◌, ◌^◌, ◌++◌, IfErr, MatchBool, OnErr, OnOk, codes, false, flat_map};
ghost use Rattle.kfifo_cli_texts.specs.Printing.{Breaks, Writes};
ghost use Rattle.kfifo_cli_commands.specs.Tallies.{IsBelow, counted, none, summary, tallied, tally_status};

use crate::status::Status;
use kfifo_cli_requests::JudgeFilesOptions;
use kfifo_cli_texts::{Fault, Printer};
use kfifo_judge::Outcome;
use std::io::Write;

/// What came of judging a file.
#[derive(Clone, Copy)]
pub(crate) enum Found {
    /// A verdict on its calls.
    Judged(Outcome),
    /// A fault, and so no verdict.
    Unjudged(Fault),
}

/// How many files had which verdict.
#[derive(Clone, Copy)]
pub(crate) struct Tally {
    /// Those with a legal order.
    pub(crate) legal: usize,
    /// Those with none.
    pub(crate) unordered: usize,
    /// Those of which neither is known.
    pub(crate) undecided: usize,
    /// Those without a verdict: they could not be read, or have no calls.
    pub(crate) unjudged: usize,
}

impl Tally {
    /// No file has been judged yet.
    pub(crate) fn new() -> Tally
        ensures { result ≡ none }
    {
        Tally {
            legal: 0,
            unordered: 0,
            undecided: 0,
            unjudged: 0,
        }
    }

    /// With one more file.
    pub(crate) fn with(self, found: Found) -> Tally
        requires { IsBelow (2 ^ 63) self }
        ensures { result ≡ tallied self found }
    {
        let mut tally = self;
        match found {
            Found::Judged(Outcome::Answered) => tally.legal += 1,
            Found::Judged(Outcome::Unordered) => tally.unordered += 1,
            Found::Judged(Outcome::Undecided) => tally.undecided += 1,
            Found::Unjudged(_) => tally.unjudged += 1,
        }
        tally
    }

    /// The status for all of them: Failed if a file has no order or no verdict, else Undecided if one is.
    pub(crate) fn status(self) -> Status
        ensures known { result ≡ tally_status self }
        ensures status { result ≢ Status.Misused }
    {
        if self.unordered > 0 || self.unjudged > 0 {
            Status::Failed
        } else if self.undecided > 0 {
            Status::Undecided
        } else {
            Status::Answered
        }
    }
}

/// A number of the last line, and what stands before it.
#[derive(Clone, Copy)]
struct Count {
    before: &'static str,
    number: usize,
}

/// Writes these numbers, each behind what stands before it. Returns false where a call failed.
fn write_counts<W: Write>(counts: &[Count], output: &mut Printer<'_, W>) -> bool
    ensures { let text = flat_map counted counts.now in MatchBool result
        (Writes W.contents output.old text output.new) (Breaks W.contents output.old text output.new) }
{
    for count in counts {
        if !output.write_number(count.before, Some(count.number)) {
            return false;
        }
    }
    true
}

/// The numbers of the last line.
fn counts_of(options: JudgeFilesOptions<'_>, tally: Tally) -> [Count; 6]
    ensures { (options.entry.json ≡ false) → flat_map counted result ++ codes "\n" ≡ summary options.entry tally }
{
    [
        Count {
            before: "files ",
            number: options.files.len(),
        },
        Count {
            before: " for k = ",
            number: options.k as usize,
        },
        Count {
            before: ": legal ",
            number: tally.legal,
        },
        Count {
            before: ", no order ",
            number: tally.unordered,
        },
        Count {
            before: ", undecided ",
            number: tally.undecided,
        },
        Count {
            before: ", fault ",
            number: tally.unjudged,
        },
    ]
}

/// Prints the last line of what is said of several files, which have the others. It takes no memory, so that an answer
/// never lacks it.
pub(crate) fn print_summary<W: Write>(
    options: JudgeFilesOptions<'_>,
    tally: Tally,
    output: &mut Printer<'_, W>,
) -> Result<(), Fault>
    ensures ok { OnOk result (Writes W.contents output.old (summary options.entry tally) output.new) }
    ensures err { OnErr result (Breaks W.contents output.old (summary options.entry tally) output.new) }
    ensures fault { IfErr result (λ fault. fault ≡ Fault.Output) }
{
    if options.json {
        return Ok(());
    }
    let counts = counts_of(options, tally);
    if !write_counts(&counts, output) {
        return Err(Fault::Output);
    }
    output.print(b"\n")
}
