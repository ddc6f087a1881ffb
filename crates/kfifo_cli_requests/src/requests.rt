//! What a command is asked to do: its options, as the command line gives them.
ghost use Rattle.std.specs.Prelude.{◌≤◌};

use crate::sizes::Sizes;
use crate::topics::{HelpTexts, Topic};

/// What `run` is given.
#[derive(Clone, Copy)]
pub struct RunOptions<'a> {
    /// The sizes of the queue.
    pub sizes: Sizes,
    /// Rounds that a call makes before it returns busy, at least 1.
    pub turns: u16,
    /// The calls, in their order, as they are written.
    pub words: &'a [&'a str],
    pub ghost some_turns: { 1 ≤ turns },
}

/// What `check` is given.
#[derive(Clone, Copy)]
pub struct CheckOptions<'a> {
    /// A dequeue takes one of the k oldest items, 1 to 64.
    pub k: u32,
    /// The order to judge, as it is written, or `@` and the path of a file that holds it; none to look for one.
    pub order: Option<&'a str>,
    pub ghost some_places: { 1 ≤ k },
    pub ghost few_places: { k ≤ 64 },
}

/// What `replay` is given.
#[derive(Clone, Copy)]
pub struct ReplayOptions<'a> {
    /// The sizes of the queue.
    pub sizes: Sizes,
    /// Rounds that a call makes before it returns busy, at least 1.
    pub turns: u16,
    /// The picks, as they are written.
    pub picks: &'a str,
    /// The thread that stops after the picks, while each other goes to the end of its script; none where all stop.
    pub stopped: Option<u32>,
    /// Whether the points of the calls in the order are printed too.
    pub points: bool,
    /// Whether a line for each event is printed before the report.
    pub trace: bool,
    /// Whether the record of the calls is printed in place of all that.
    pub record: bool,
    /// The scripts, as they are written.
    pub scripts: &'a [&'a str],
    pub ghost some_turns: { 1 ≤ turns },
}

/// What `judge` is given.
#[derive(Clone, Copy)]
pub struct JudgeOptions<'a> {
    /// A dequeue takes one of the k oldest items, 1 to 64.
    pub k: u32,
    /// How many choices the search for an order may undo.
    pub tries: u64,
    /// Whether the order that was found is printed too.
    pub show: bool,
    /// Whether the verdict is printed as JSON.
    pub json: bool,
    /// The path of the file that is read; none to read standard input.
    pub file: Option<&'a str>,
    pub ghost some_places: { 1 ≤ k },
    pub ghost few_places: { k ≤ 64 },
}

/// What `judge` is given where it names several files.
#[derive(Clone, Copy)]
pub struct JudgeFilesOptions<'a> {
    /// A dequeue takes one of the k oldest items, 1 to 64.
    pub k: u32,
    /// How many choices the search for an order of each file may undo.
    pub tries: u64,
    /// Whether the orders that were found are in the verdicts, where these are printed as JSON.
    pub show: bool,
    /// Whether the verdicts are printed as JSON, one in a line.
    pub json: bool,
    /// The paths of the files that are read, in turn.
    pub files: &'a [&'a str],
    pub ghost some_places: { 1 ≤ k },
    pub ghost few_places: { k ≤ 64 },
}

/// What `least` is given.
#[derive(Clone, Copy)]
pub struct LeastOptions<'a> {
    /// How many choices each search for an order may undo.
    pub tries: u64,
    /// The path of the file that is read; none to read standard input.
    pub file: Option<&'a str>,
}

/// What `import` is given.
#[derive(Clone, Copy)]
pub struct ImportOptions<'a> {
    /// The path of the file that is read; none to read standard input.
    pub file: Option<&'a str>,
}

/// What `draw` is given.
#[derive(Clone, Copy)]
pub struct DrawOptions<'a> {
    /// The order that is drawn too, and the k of its verdict or of the evidence, as `check` is given them; no order to
    /// draw the calls alone.
    pub check: CheckOptions<'a>,
    /// Whether the picture is one of characters.
    pub text: bool,
    /// The greatest width of a picture in SVG, in pixels; 1,600 where it is left out.
    pub width: Option<u32>,
    /// Whether the calls that the evidence names are marked.
    pub evidence: bool,
    /// Within how many calls of a named one further calls are drawn, with `evidence` alone; 8 where it is left out.
    pub around: Option<u32>,
    /// The numbers of the calls that are drawn, as they are written; none to draw the calls of the evidence, or all.
    pub calls: Option<&'a str>,
    /// The lines of the log whose calls are drawn, as they are written.
    pub lines: Option<&'a str>,
    /// The path of the file that is read; none to read standard input.
    pub file: Option<&'a str>,
}

/// What `record` is given.
#[derive(Clone, Copy)]
pub struct RecordOptions<'a> {
    /// The sizes of the queue.
    pub sizes: Sizes,
    /// Rounds that a call makes before it returns busy, at least 1.
    pub turns: u16,
    /// How often the calls of each script are made over, at least 1.
    pub repeat: u32,
    /// The scripts, as they are written.
    pub scripts: &'a [&'a str],
    pub ghost some_turns: { 1 ≤ turns },
    pub ghost some_repetitions: { 1 ≤ repeat },
}

/// What `dispatch` is given.
#[derive(Clone, Copy)]
pub struct DispatchOptions<'a> {
    /// The sizes of the queue.
    pub sizes: Sizes,
    /// The number of worker threads.
    pub workers: u32,
    /// What the starts of the workers' calls are drawn from.
    pub seed: u32,
    /// The tasks, as they are written.
    pub words: &'a [&'a str],
}

/// What `explain` is given.
#[derive(Clone, Copy)]
pub struct ExplainOptions<'a> {
    /// The words of a fault or an answer, as they were printed.
    pub words: &'a [&'a str],
    /// The faults, the answers and the names that are known, in five parts.
    pub first_topics: &'a [Topic],
    /// The second part.
    pub second_topics: &'a [Topic],
    /// The third part.
    pub third_topics: &'a [Topic],
    /// The fourth part.
    pub fourth_topics: &'a [Topic],
    /// The last part.
    pub last_topics: &'a [Topic],
    /// The helps of the commands, which say what they mean.
    pub helps: HelpTexts<'a>,
}

/// A command with its options.
#[derive(Clone, Copy)]
pub enum Request<'a> {
    /// Makes the calls of a script on a queue.
    Run(RunOptions<'a>),
    /// Says whether a record has a legal order, or whether a given one is legal.
    Check(CheckOptions<'a>),
    /// Counts how often each item of a record was certainly overtaken.
    Measure,
    /// Runs scripts on the machine in the order of given picks.
    Replay(ReplayOptions<'a>),
    /// Gives a verdict on a record of any length.
    Judge(JudgeOptions<'a>),
    /// Gives a verdict on each of several files.
    JudgeFiles(JudgeFilesOptions<'a>),
    /// Says between which bounds the least k of a record lies.
    Least(LeastOptions<'a>),
    /// Runs each script on a thread of its own, and records the calls.
    Record(RecordOptions<'a>),
    /// Gives the record of a log in CSV.
    Import(ImportOptions<'a>),
    /// Draws a record.
    Draw(DrawOptions<'a>),
    /// Runs tasks on worker threads.
    Dispatch(DispatchOptions<'a>),
    /// Says what a fault or an answer means.
    Explain(ExplainOptions<'a>),
}
