//! Which calls `draw` is asked to draw.
ghost use Rattle.std.specs.Prelude.{◌≡◌, ◌↔◌, IsTrue, MatchResult, option_map};
ghost use Rattle.kfifo_cli_commands.specs.Cuts.{AsksFor, Contradict, IsCutFault, IsOfLines, IsPartOf};
ghost use Rattle.kfifo_cli_texts.specs.declared.stretch.Stretch.{Stretch as StretchData};
ghost use Rattle.kfifo_cli_texts.specs.Stretches.{WritesStretch};

use kfifo_cli_requests::DrawOptions;
use kfifo_cli_texts::{Fault, Stretch, read_stretch};
use kfifo_draw::Part;

/// Within how many calls of a named one further calls are drawn.
const AROUND: u32 = 8;

/// The calls that are to be drawn.
#[derive(Clone, Copy)]
pub(crate) enum Cut {
    /// All.
    Whole,
    /// Those with these numbers.
    Calls(Stretch),
    /// Those in these lines of the log.
    Lines(Stretch),
    /// The calls that the evidence names, and the calls that overlap one of them or stand within so many calls of one;
    /// all calls where there is no evidence.
    Evidence(u32),
}

/// Whether lines of a log say which calls are drawn.
pub(crate) fn is_of_lines(cut: Cut) -> bool
    ensures { IsTrue result ↔ IsOfLines cut }
{
    match cut {
        Cut::Lines(_) => true,
        Cut::Whole | Cut::Calls(_) | Cut::Evidence(_) => false,
    }
}

/// Whether options contradict each other.
fn contradict(options: DrawOptions<'_>) -> bool
    ensures { IsTrue result ↔ Contradict options.entry }
{
    if options.evidence {
        if options.check.order.is_some() {
            return true;
        }
    } else if options.around.is_some() {
        return true;
    }
    if options.text && options.width.is_some() {
        return true;
    }
    options.calls.is_some() && options.lines.is_some()
}

/// The stretch that an option gives.
fn stretch_of(text: &str) -> Result<Stretch, Fault>
    ensures { MatchResult result (WritesStretch text.now)
        (λ fault. (fault ≡ Fault.Stretch) × ((stretch : StretchData) → ¬ WritesStretch text.now stretch)) }
{
    match read_stretch(text) {
        Some(stretch) => Ok(stretch),
        None => Err(Fault::Stretch),
    }
}

/// The calls that the options ask for.
pub(crate) fn cut_of(options: DrawOptions<'_>) -> Result<Cut, Fault>
    ensures { MatchResult result (AsksFor options.entry) (IsCutFault options.entry) }
{
    if contradict(options) {
        return Err(Fault::Contradiction);
    }
    if let Some(text) = options.calls {
        return Ok(Cut::Calls(stretch_of(text)?));
    }
    if let Some(text) = options.lines {
        return Ok(Cut::Lines(stretch_of(text)?));
    }
    if options.evidence {
        return Ok(Cut::Evidence(options.around.unwrap_or(AROUND)));
    }
    Ok(Cut::Whole)
}

/// The part of a history that is to be drawn, where the evidence names these calls.
pub(crate) fn part_of<'a>(cut: Cut, named: Option<&'a [usize]>) -> Part<'a>
    ensures { IsPartOf (option_map (λ n. n.now) named.entry) cut result }
{
    match cut {
        Cut::Whole => Part::All,
        Cut::Calls(stretch) => Part::Calls(stretch.first as usize, stretch.last as usize),
        Cut::Lines(stretch) => Part::Lines(stretch.first, stretch.last),
        Cut::Evidence(around) => match named {
            Some(named) => Part::Near(named, around as usize),
            None => Part::All,
        },
    }
}
