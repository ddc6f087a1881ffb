//! The command `replay`: scripts run on the machine in the order of given picks.
ghost use Rattle.std.specs.Prelude.{◌≡◌, ◌≢◌, ◌⊎◌, ◌≤◌, ◌+◌, ◌++◌, ◌∷◌, [], List, ℕ, IfOk, IfErr, OnOk, map, replicate};
ghost use Rattle.std.specs.Prelude.{string_bytes, true};
ghost use Rattle.kfifo_words.specs.declared.shape.Shape.{Shape as ShapeData};
ghost use Rattle.kfifo_machine.specs.declared.event.Begin.{Begin as BeginData};
ghost use Rattle.kfifo_replay.specs.Player.{OfItsPicks, StandsFor, Stops};
ghost use Rattle.kfifo_cli_texts.specs.declared.picks.TheConstants.{MAX_PICKS};
ghost use Rattle.kfifo_cli_texts.specs.Picks as picks;
ghost use Rattle.kfifo_cli_texts.specs.Picks.{count_of, picks_of};
ghost use Rattle.kfifo_cli_commands.specs.Replays.{IsPlainText, IsPointsLine, IsRecordLine, IsRefusal, IsReplayAnswer};
ghost use Rattle.kfifo_cli_commands.specs.Replays.{IsReplayRefusal, IsReplayText, IsReportText, IsUnplayed, Makes};
ghost use Rattle.kfifo_cli_commands.specs.Replays.{first_lines, last_lines, traces};

use crate::progress::{Meter, Progress};
use crate::tracing::{self, MAX_STEPS};
use kfifo_cli_requests::ReplayOptions;
use kfifo_cli_texts::{Fault, Group, read_picks, read_scripts};
use kfifo_judge::push_numbers;
use kfifo_machine::Begin;
use kfifo_model::record_text;
use kfifo_replay::{Replay, ReplayFault, Report};
use kfifo_words::Shape;
use std::alloc::{AllocError, Global};
use std::fmt::Write;

/// The report of the replay, behind a line for each event where they are asked for, or the record of its calls. The
/// progress is told how many of the picks are made.
pub fn answer<P: Progress>(
    alloc: Global,
    options: ReplayOptions<'_>,
    progress: &mut P,
) -> Result<String, Fault>
    ensures ok { IfOk result (λ text. IsReplayAnswer options.entry (string_bytes text)) }
    ensures err { IfErr result (IsReplayRefusal options.entry) }
    ensures silent { IfErr result (λ fault. fault ≢ Fault.Output) }
{
    let shape = options.sizes.shape()?;
    let scripts = read_scripts(alloc, options.scripts, shape.k(), options.turns)?;
    let groups = read_picks(alloc, options.picks)?;
    played(
        alloc,
        &options,
        shape,
        scripts.as_slice(),
        groups.as_slice(),
        progress,
    )
}

/// What is printed of these picks of these scripts.
fn played<P: Progress>(
    alloc: Global,
    options: &ReplayOptions<'_>,
    shape: Shape,
    scripts: &[Vec<Begin>],
    groups: &[Group],
    progress: &mut P,
) -> Result<String, Fault>
    requires { count_of groups.now ≤ MAX_PICKS }
    ensures ok { let own = map (λ script. script.items) scripts.now in
        let o = options.now in IfOk result
        (λ text. (made : List ℕ) × Makes o.stopped shape own (picks_of groups.now) made
        × IsReplayText o.record o.trace o.points o.stopped shape own made (string_bytes text)) }
    ensures err { let own = map (λ script. script.items) scripts.now in
        IfErr result (IsUnplayed options.now shape own (picks_of groups.now)) }
{
    let replay = play(alloc, options, shape, scripts, groups, progress)?;
    if is_traced(options) {
        tracing::text_of(alloc, options, shape, &replay)
    } else {
        text_of(alloc, options, &replay)
    }
}

/// Whether the lines of the events are printed: they are asked for, and no record is.
fn is_traced(options: &ReplayOptions<'_>) -> bool
    ensures { result ≡ traces options.now.record options.now.trace }
{
    options.trace && !options.record
}

/// Of how many events the replay keeps what they did: of none where their lines are not printed.
fn steps_kept(options: &ReplayOptions<'_>) -> usize
    ensures { traces options.now.record options.now.trace ≡ true → result ≡ MAX_STEPS }
{
    if is_traced(options) { MAX_STEPS } else { 0 }
}

/// The replay that has made these picks, and has then gone on to the ends of the scripts where a thread is stopped.
fn play<P: Progress>(
    alloc: Global,
    options: &ReplayOptions<'_>,
    shape: Shape,
    scripts: &[Vec<Begin>],
    groups: &[Group],
    progress: &mut P,
) -> Result<Replay, ReplayFault>
    requires { count_of groups.now ≤ MAX_PICKS }
    ensures ok { let own = map (λ script. script.items) scripts.now in
        IfOk result (λ replay. (made : List ℕ) × Makes options.now.stopped shape own (picks_of groups.now) made
        × StandsFor shape own made replay) }
    ensures kept { let o = options.now in
        IfOk result (λ replay. traces o.record o.trace ≡ true → replay.trace.most ≡ MAX_STEPS) }
    ensures err { IfErr result (IsRefusal options.now.stopped shape (map (λ script. script.items) scripts.now)
        (picks_of groups.now)) }
{
    let mut replay = Replay::open_traced(alloc, shape, scripts, steps_kept(options))?;
    let mut meter = Meter::new(progress, count_picks(groups));
    feed(&mut replay, groups, &mut meter)?;
    match options.stopped {
        Some(thread) => {
            replay.finish(thread)?;
            Ok(replay)
        }
        None => Ok(replay),
    }
}

/// How many picks the groups are.
fn count_picks(groups: &[Group]) -> u64
    requires { count_of groups.now ≤ MAX_PICKS }
    ensures { result ≡ count_of groups.now }
{
    groups.iter().map(|group| u64::from(group.count)).sum()
}

/// Makes the picks of these groups. The place of a refused pick counts over all of them.
fn feed<P: Progress>(
    replay: &mut Replay,
    groups: &[Group],
    meter: &mut Meter<'_, P>,
) -> Result<(), ReplayFault>
    requires few { count_of groups.now ≤ MAX_PICKS }
    requires stands { (shape : ShapeData) × (scripts : List (List BeginData)) × (earlier : List ℕ)
        × StandsFor shape scripts earlier replay.old }
    ensures made { OnOk result (OfItsPicks replay.old (λ shape scripts earlier.
        StandsFor shape scripts (earlier ++ picks_of groups.now) replay.new)) }
    ensures refused { IfErr result (λ fault. OfItsPicks replay.old (λ shape scripts earlier.
        Stops shape scripts earlier (picks_of groups.now) fault replay.new)) }
    ensures most { replay.new.trace.most ≡ replay.old.trace.most }
{
    let mut made: usize = 0;
    for group in groups {
        match feed_group(replay, *group, meter) {
            Ok(()) => made += group.count as usize,
            Err(fault) => return Err(behind(made, fault)),
        }
    }
    Ok(())
}

/// Makes the picks of this group piece by piece, and counts them. The place of a refused pick counts over all of them.
fn feed_group<P: Progress>(
    replay: &mut Replay,
    group: Group,
    meter: &mut Meter<'_, P>,
) -> Result<(), ReplayFault>
    requires few { group.count ≤ MAX_PICKS }
    requires stands { (shape : ShapeData) × (scripts : List (List BeginData)) × (earlier : List ℕ)
        × StandsFor shape scripts earlier replay.old }
    ensures made { OnOk result (OfItsPicks replay.old (λ shape scripts earlier.
        StandsFor shape scripts (earlier ++ replicate group.count group.thread) replay.new)) }
    ensures refused { IfErr result (λ fault. OfItsPicks replay.old (λ shape scripts earlier.
        Stops shape scripts earlier (replicate group.count group.thread) fault replay.new)) }
    ensures most { replay.new.trace.most ≡ replay.old.trace.most }
{
    let mut fed: u32 = 0;
    while fed < group.count {
        let piece = meter.room().min(group.count - fed);
        match replay.feed_many(group.thread, piece) {
            Ok(()) => fed += piece,
            Err(fault) => return Err(behind(fed as usize, fault)),
        }
        meter.add(piece);
    }
    Ok(())
}

/// The fault of picks that stand behind so many.
fn behind(made: usize, fault: ReplayFault) -> ReplayFault
    requires { (place : ℕ) → fault ≡ ReplayFault.BadPick place → made + place ≤ MAX_PICKS }
    ensures { result ≡ picks.behind made fault }
{
    match fault {
        ReplayFault::BadPick(place) => ReplayFault::BadPick(made + place),
        ReplayFault::Memory => ReplayFault::Memory,
        ReplayFault::BadScript => ReplayFault::BadScript,
    }
}

/// What is printed of a replay with no lines of its events.
fn text_of(alloc: Global, options: &ReplayOptions<'_>, replay: &Replay) -> Result<String, Fault>
    ensures ok { IfOk result (λ text. OfItsPicks replay.now (λ shape scripts picks.
        IsPlainText options.now.record options.now.points options.now.stopped shape scripts picks
        (string_bytes text))) }
    ensures err { IfErr result (λ fault. (fault ≡ Fault.Memory) ⊎ (fault ≡ Fault.Replay ReplayFault.Memory)) }
{
    if options.record {
        record_of(alloc, replay)
    } else {
        report_of(alloc, options, replay)
    }
}

/// The line of the record of its calls.
fn record_of(alloc: Global, replay: &Replay) -> Result<String, Fault>
    ensures ok { IfOk result (λ text. OfItsPicks replay.now (λ shape scripts picks.
        IsRecordLine shape scripts picks (string_bytes text))) }
    ensures err { IfErr result (λ fault. (fault ≡ Fault.Memory) ⊎ (fault ≡ Fault.Replay ReplayFault.Memory)) }
{
    let history = replay.history(alloc)?;
    let mut text = record_text(alloc, &history)?;
    text.push('\n')?;
    Ok(text)
}

/// The lines of its report.
pub(crate) fn report_of(
    alloc: Global,
    options: &ReplayOptions<'_>,
    replay: &Replay,
) -> Result<String, Fault>
    ensures ok { IfOk result (λ text. OfItsPicks replay.now (λ shape scripts picks.
        IsReportText options.now.points options.now.stopped shape scripts picks (string_bytes text))) }
    ensures err { IfErr result (λ fault. (fault ≡ Fault.Memory) ⊎ (fault ≡ Fault.Replay ReplayFault.Memory)) }
{
    let report = replay.report(alloc)?;
    let mut text = String::new(alloc);
    push_first(&mut text, &report)?;
    push_points(alloc, &mut text, options.points, replay)?;
    push_last(&mut text, options.stopped, &report)?;
    Ok(text)
}

/// Adds the number of steps and the order.
fn push_first(text: &mut String, report: &Report) -> Result<(), AllocError>
    ensures { OnOk result (string_bytes text.new ≡ string_bytes text.old ++ first_lines report.now) }
{
    let steps = report.steps;
    writeln!(text, "steps {steps}")?;
    push_numbers(text, "order ", report.order.as_slice())
}

/// Adds the line of the points, where it is asked for.
fn push_points(alloc: Global, text: &mut String, wanted: bool, replay: &Replay) -> Result<(), Fault>
    ensures ok { OnOk result (OfItsPicks replay.now (λ shape scripts picks.
        (middle : List ℕ) × IsPointsLine wanted shape scripts picks middle
        × (string_bytes text.new ≡ string_bytes text.old ++ middle))) }
    ensures err { IfErr result (λ fault. (fault ≡ Fault.Memory) ⊎ (fault ≡ Fault.Replay ReplayFault.Memory)) }
{
    if wanted {
        let points = replay.points(alloc)?;
        let places: Vec<usize> = points.iter().map(|point| *point as usize).collect(alloc)?;
        push_numbers(text, "points ", places.as_slice())?;
    }
    Ok(())
}

/// Adds the other numbers of the report. It counts the unfinished enqueues if a thread was stopped.
fn push_last(text: &mut String, stopped: Option<u32>, report: &Report) -> Result<(), AllocError>
    ensures { OnOk result (string_bytes text.new ≡ string_bytes text.old ++ last_lines stopped report.now) }
{
    let (worst, rollbacks, completed) = (report.worst_rank, report.rollbacks, report.completed);
    writeln!(text, "worst rank {worst}")?;
    writeln!(text, "rollbacks {rollbacks}")?;
    match stopped {
        Some(_) => writeln!(text, "completed {completed}"),
        None => Ok(()),
    }
}
