//! Pictures as SVG.
use crate::bands::{Band, Bar, Edge};
use crate::scene::Scene;
use crate::words::{push_details, push_wrapped};
use kfifo_model::{Call, Effect, Op};
use std::alloc::{AllocError, Global};
use std::fmt::Write;

/// The width of a column, somewhat more than a character's.
const COLUMN: usize = 8;
/// The room at the left, for the numbers of the threads, and the room at the right.
const LEFT: usize = 96;

const RIGHT: usize = 16;
/// The room at either side of a text, and more than the width of a character in a heading.
const SIDE: usize = 12;

const HEAD_COLUMN: usize = 10;
/// The room above the lanes, for a line on what is said of the whole, and the height of a further one.
const TOP: usize = 60;

const NOTE: usize = 18;
/// The room between two bands.
const GAP: usize = 18;
/// The height of a lane and of a bar, and how far a bar stands below the top of its lane.
const LANE: usize = 36;

const BAR: usize = 24;

const INSET: usize = 6;
/// The room above the key and below it.
const BOTTOM: usize = 24;
/// The height of a row of the key.
const KEY_ROW: usize = 32;
/// The width that the key takes: a picture is this wide at least, unless it may not be.
const KEY_WIDTH: usize = 760;

/// The looks of bars. Colours are told apart by those who see few of them, and outlines and corners say the same.
const STYLES: &str = "<style>
text { font: 12px 'DejaVu Sans Mono', Menlo, Consolas, monospace; fill: #1a1a1a }
.head { font-size: 15px; font-weight: bold }
.note { fill: #555 }
.lane { fill: #f3f4f6 }
.puts .bar { fill: #cfe3f5; stroke: #0b5394 }
.takes .bar { fill: #fbdcae; stroke: #a34a00 }
.none .bar { fill: #fff; stroke: #a34a00; stroke-dasharray: 2 3 }
.refused .bar { fill: #e4e4e4; stroke: #666; stroke-dasharray: 7 3 }
.bar { stroke-width: 1.5 }
.fails .bar, .named .bar { stroke: #c00000; stroke-width: 4; stroke-dasharray: none }
.fails text, .named text { fill: #c00000; font-weight: bold }
</style>
";

/// The key of the looks: a class, whether corners are round, how the bar ends, and what it says.
const KEY: [(&str, bool, Edge, &str); 6] = [
    ("puts", false, Edge::Closed, "enqueue done"),
    ("takes", true, Edge::Closed, "dequeue got"),
    ("none", true, Edge::Closed, "dequeue empty"),
    ("refused", false, Edge::Closed, "full, busy, worn"),
    ("puts", false, Edge::Open, "unfinished"),
    ("puts", false, Edge::Torn, "goes on"),
];

/// The left upper corner of a bar, its width, and its looks.
#[derive(Clone, Copy)]
struct Outline {
    x: usize,
    y: usize,
    width: usize,
    /// Whether its corners are round, as dequeues' are.
    round: bool,
    /// Whether its left end is torn, since it began in a band before.
    goes_on: bool,
    /// How it ends at the right.
    edge: Edge,
}

/// The corner's radius.
fn radius(round: bool) -> usize {
    if round { 11 } else { 0 }
}

/// Adds an outline with both its ends.
fn push_closed(text: &mut String, outline: Outline) -> Result<(), AllocError> {
    let (x, y, width) = (outline.x, outline.y, outline.width);
    let corner = radius(outline.round);
    writeln!(
        text,
        "<rect class=\"bar\" x=\"{x}\" y=\"{y}\" width=\"{width}\" height=\"{BAR}\" rx=\"{corner}\"/>"
    )
}

/// Adds the left end of an outline, downwards from its upper side.
fn push_left_end(text: &mut String, outline: Outline) -> Result<(), AllocError> {
    let (x, y, corner) = (outline.x, outline.y, radius(outline.round));
    if outline.goes_on {
        return write!(text, "H {x} l 4 6 l -4 6 l 4 6 l -4 6 ");
    }
    let (upper, bottom) = (y.saturating_add(corner), y.saturating_add(BAR));
    let (lower, start) = (bottom.saturating_sub(corner), x.saturating_add(corner));
    write!(text, "H {start} Q {x} {y} {x} {upper} V {lower} ")?;
    write!(text, "Q {x} {bottom} {start} {bottom} ")
}

/// Adds the right end of an outline, upwards from its lower side.
fn push_right_end(text: &mut String, outline: Outline) -> Result<(), AllocError> {
    let (y, corner) = (outline.y, radius(outline.round));
    let right = outline.x.saturating_add(outline.width);
    let (upper, bottom) = (y.saturating_add(corner), y.saturating_add(BAR));
    let (lower, end) = (bottom.saturating_sub(corner), right.saturating_sub(corner));
    match outline.edge {
        Edge::Open => write!(text, "H {right}"),
        Edge::Torn => write!(text, "H {right} l -4 -6 l 4 -6 l -4 -6 l 4 -6"),
        Edge::Closed => {
            write!(text, "H {end} Q {right} {bottom} {right} {lower} ")?;
            write!(text, "V {upper} Q {right} {y} {end} {y}")
        }
    }
}

/// Adds an outline with an open or a torn end.
fn push_partial(text: &mut String, outline: Outline) -> Result<(), AllocError> {
    let y = outline.y;
    let right = outline.x.saturating_add(outline.width);
    let corner = match outline.edge {
        Edge::Closed => radius(outline.round),
        Edge::Open | Edge::Torn => 0,
    };
    let start = right.saturating_sub(corner);
    write!(text, "<path class=\"bar\" d=\"M {start} {y} ")?;
    push_left_end(text, outline)?;
    push_right_end(text, outline)?;
    text.push_str("\"/>\n")
}

/// Adds an outline and a label in it.
fn push_outline(text: &mut String, outline: Outline, label: &str) -> Result<(), AllocError> {
    if outline.edge == Edge::Closed && !outline.goes_on {
        push_closed(text, outline)?;
    } else {
        push_partial(text, outline)?;
    }
    let (x, y) = (outline.x.saturating_add(7), outline.y.saturating_add(16));
    writeln!(text, "<text x=\"{x}\" y=\"{y}\">{label}</text>")
}

/// How many columns a band has at most in a picture of at most this width.
pub(crate) fn most_columns(width: u32) -> usize {
    (width as usize).saturating_sub(LEFT + RIGHT) / COLUMN
}

/// Where the left end of a column is.
fn column_left(column: usize) -> usize {
    column.saturating_mul(COLUMN).saturating_add(LEFT)
}

/// Where the lines stand that are as wide and as high as a picture.
#[derive(Clone, Copy)]
struct Frame {
    /// The width of the picture.
    width: usize,
    /// The top of the lanes.
    top: usize,
    /// How many lanes a band has.
    lanes: usize,
}

impl Frame {
    /// The frame of a picture of at most this width, where no bar needs more.
    fn of(scene: &Scene<'_>, most: u32) -> Frame {
        let drawn = scene.layout.columns.saturating_mul(COLUMN);
        let width = drawn.saturating_add(LEFT).saturating_add(RIGHT);
        Frame {
            width: width.max(KEY_WIDTH.min(most as usize)),
            top: TOP,
            lanes: scene.layout.threads.len(),
        }
    }

    /// The same with a heading of so many lines: there is room for two.
    fn below(self, lines: usize) -> Frame {
        let more = lines.saturating_sub(2).saturating_mul(NOTE);
        Frame {
            top: self.top.saturating_add(more),
            ..self
        }
    }

    /// How many characters of this width a line of text has at most.
    fn line_width(&self, column: usize) -> usize {
        self.width.saturating_sub(2 * SIDE) / column.max(1)
    }

    /// The top of a band.
    fn band_top(&self, band: usize) -> usize {
        let height = self.lanes.saturating_mul(LANE).saturating_add(GAP);
        band.saturating_mul(height).saturating_add(self.top)
    }

    /// The bottom of so many bands.
    fn bottom(&self, bands: usize) -> usize {
        if bands == 0 {
            self.top
        } else {
            self.band_top(bands).saturating_sub(GAP)
        }
    }
}

/// The top of a lane in a band that has this top.
fn lane_top(top: usize, lane: usize) -> usize {
    lane.saturating_mul(LANE).saturating_add(top)
}

/// The outline of a call's bar in a lane with this top, in a picture of this width.
fn outline_of(call: &Call, bar: &Bar, top: usize, width: usize) -> Outline {
    let x = column_left(bar.left);
    let right = if bar.edge == Edge::Closed {
        // Two bars that follow each other leave a gap.
        column_left(bar.right)
            .saturating_add(COLUMN)
            .saturating_sub(2)
    } else {
        width.saturating_sub(RIGHT)
    };
    Outline {
        x,
        y: top.saturating_add(INSET),
        width: right.saturating_sub(x),
        round: call.op == Op::Dequeue,
        goes_on: bar.goes_on,
        edge: bar.edge,
    }
}

/// The class in the style sheet of what a call does.
fn class_of(call: &Call) -> &'static str {
    match call.effect() {
        Effect::Adds(_) => "puts",
        // An unfinished dequeue, which has no place in an order, is about to take an item.
        Effect::Takes(_) | Effect::Wrong => "takes",
        Effect::FindsNone => "none",
        Effect::Refused => "refused",
    }
}

/// Adds the bar of a call, with its label, and all that is known of the call as a title, which viewers show where the
/// pointer rests.
fn push_call(
    text: &mut String,
    scene: &Scene<'_>,
    bar: &Bar,
    call: &Call,
    outline: Outline,
) -> Result<(), AllocError> {
    let number = scene.numbers.get(bar.index).copied().unwrap_or(bar.index);
    let class = class_of(call);
    let fails = if scene.marks.fails_at(number) {
        " fails"
    } else {
        ""
    };
    let named = if scene.marks.names(number) {
        " named"
    } else {
        ""
    };
    write!(text, "<g class=\"{class}{fails}{named}\"><title>")?;
    let logged = scene.logged.get(number).copied();
    push_details(text, scene.marks, number, call, logged)?;
    text.push_str("</title>\n")?;
    push_outline(text, outline, scene.layout.label_of(bar.index))?;
    text.push_str("</g>\n")
}

/// Adds the lane of a thread, which has this top.
fn push_lane(text: &mut String, top: usize, thread: u32, width: usize) -> Result<(), AllocError> {
    let (inner, height) = (width.saturating_sub(8), LANE.saturating_sub(2));
    let middle = top.saturating_add(22);
    writeln!(
        text,
        "<rect class=\"lane\" x=\"4\" y=\"{top}\" width=\"{inner}\" height=\"{height}\"/>"
    )?;
    writeln!(text, "<text x=\"12\" y=\"{middle}\">thread {thread}</text>")
}

/// Adds a band, which has this top.
fn push_band(
    text: &mut String,
    scene: &Scene<'_>,
    band: &Band,
    top: usize,
    width: usize,
) -> Result<(), AllocError> {
    for (lane, thread) in scene.layout.threads.iter().enumerate() {
        push_lane(text, lane_top(top, lane), *thread, width)?;
    }
    for bar in band.bars.iter() {
        if let Some(call) = scene.calls.get(bar.index) {
            let lane = scene.layout.lane_of(call.thread);
            let outline = outline_of(call, bar, lane_top(top, lane), width);
            push_call(text, scene, bar, call, outline)?;
        }
    }
    Ok(())
}

/// Adds a text with the signs of the document's own written as its entities.
fn push_escaped(text: &mut String, said: &str) -> Result<(), AllocError> {
    for sign in said.chars() {
        match sign {
            '&' => text.push_str("&amp;")?,
            '<' => text.push_str("&lt;")?,
            _ => text.push(sign)?,
        }
    }
    Ok(())
}

/// What is said of the whole above the lanes.
#[derive(Drop)]
struct Heading {
    /// The lines on how much is drawn.
    head: Vec<String>,
    /// The lines behind them.
    notes: Vec<String>,
}

impl Heading {
    /// The heading of a picture, in lines that its width has room for.
    fn of(alloc: Global, scene: &Scene<'_>, frame: &Frame) -> Result<Heading, AllocError> {
        let mut count = String::new(alloc);
        scene.push_count(&mut count)?;
        let mut head = Vec::new(alloc);
        push_wrapped(
            alloc,
            &mut head,
            count.as_str(),
            frame.line_width(HEAD_COLUMN),
        )?;
        let notes = notes_of(alloc, scene, frame.line_width(COLUMN))?;
        Ok(Heading { head, notes })
    }

    /// How many lines it has.
    fn len(&self) -> usize {
        self.head.len().saturating_add(self.notes.len())
    }

    /// Adds its lines.
    fn push(&self, text: &mut String) -> Result<(), AllocError> {
        let below = push_lines(text, "head", self.head.as_slice(), 26)?;
        push_lines(text, "note", self.notes.as_slice(), below.saturating_add(2))?;
        Ok(())
    }
}

/// Adds lines of text of a class, the first at this height, and returns the height of the next.
fn push_lines(
    text: &mut String,
    class: &str,
    lines: &[String],
    first: usize,
) -> Result<usize, AllocError> {
    let mut y = first;
    for line in lines {
        write!(text, "<text class=\"{class}\" x=\"{SIDE}\" y=\"{y}\">")?;
        push_escaped(text, line.as_str())?;
        text.push_str("</text>\n")?;
        y = y.saturating_add(NOTE);
    }
    Ok(y)
}

/// What is said of what is marked, of a picture with too much in it, and of how to read it, in lines of at most so many
/// characters.
fn notes_of(alloc: Global, scene: &Scene<'_>, most: usize) -> Result<Vec<String>, AllocError> {
    let mut notes = Vec::new(alloc);
    let mut verdict = String::new(alloc);
    if scene.marks.push_verdict(&mut verdict)? {
        push_wrapped(alloc, &mut notes, verdict.as_str(), most)?;
    }
    if scene.is_crowded() {
        let mut hint = String::new(alloc);
        scene.push_hint(&mut hint)?;
        push_wrapped(alloc, &mut notes, hint.as_str(), most)?;
    }
    let reading = if scene.layout.bands.len() > 1 {
        "time runs to the right, and only its order counts; lanes go on below"
    } else {
        "time runs to the right, and only its order counts"
    };
    push_wrapped(alloc, &mut notes, reading, most)?;
    Ok(notes)
}

/// The places of the key's looks, from left to right, and below each other where the width has no room for more.
#[derive(Clone, Copy)]
struct Pen {
    x: usize,
    row: usize,
}

impl Pen {
    /// The place of the first.
    fn new() -> Pen {
        Pen { x: SIDE, row: 0 }
    }

    /// Makes room for one of this width in a picture of that width: in the next row, unless it fits or is the first in
    /// its row.
    fn fit(&mut self, width: usize, whole: usize) {
        let right = self.x.saturating_add(width).saturating_add(SIDE);
        if right > whole && self.x > SIDE {
            *self = Pen {
                x: SIDE,
                row: self.row.saturating_add(1),
            };
        }
    }

    /// Goes on behind one of this width.
    fn step(&mut self, width: usize) {
        self.x = self.x.saturating_add(width).saturating_add(SIDE);
    }
}

/// The width of one of the key's looks with this label.
fn key_width(label: &str) -> usize {
    label.len().saturating_mul(COLUMN).saturating_add(12)
}

/// How many rows the key has in a picture of this width.
fn key_rows(whole: usize) -> usize {
    let mut pen = Pen::new();
    for (_, _, _, label) in KEY {
        pen.fit(key_width(label), whole);
        pen.step(key_width(label));
    }
    pen.row.saturating_add(1)
}

/// Adds the key of the looks, in a picture of this width.
fn push_key(text: &mut String, top: usize, whole: usize) -> Result<(), AllocError> {
    let mut pen = Pen::new();
    for (class, round, edge, label) in KEY {
        let width = key_width(label);
        pen.fit(width, whole);
        let outline = Outline {
            x: pen.x,
            y: pen.row.saturating_mul(KEY_ROW).saturating_add(top),
            width,
            round,
            goes_on: false,
            edge,
        };
        writeln!(text, "<g class=\"{class}\">")?;
        push_outline(text, outline, label)?;
        text.push_str("</g>\n")?;
        pen.step(width);
    }
    Ok(())
}

/// Adds the beginning of a document of this size.
fn push_beginning(text: &mut String, width: usize, height: usize) -> Result<(), AllocError> {
    writeln!(
        text,
        "<svg xmlns=\"http://www.w3.org/2000/svg\" width=\"{width}\" height=\"{height}\" \
         viewBox=\"0 0 {width} {height}\">"
    )?;
    text.push_str("<title>Calls of a queue</title>\n")?;
    text.push_str(STYLES)?;
    writeln!(
        text,
        "<rect width=\"{width}\" height=\"{height}\" fill=\"#ffffff\"/>"
    )
}

/// A document with a lane for each thread and a bar for each call, in bands. It is at most so wide, unless a bar needs
/// more for its label.
pub(crate) fn svg_picture(
    alloc: Global,
    scene: &Scene<'_>,
    most: u32,
) -> Result<String, AllocError> {
    let mut text = String::new(alloc);
    let frame = Frame::of(scene, most);
    let heading = Heading::of(alloc, scene, &frame)?;
    let frame = frame.below(heading.len());
    let bands = scene.layout.bands.as_slice();
    let below = frame.bottom(bands.len());
    let key = key_rows(frame.width).saturating_mul(KEY_ROW);
    let height = below.saturating_add(key).saturating_add(BOTTOM);
    push_beginning(&mut text, frame.width, height)?;
    heading.push(&mut text)?;
    for (place, band) in bands.iter().enumerate() {
        push_band(&mut text, scene, band, frame.band_top(place), frame.width)?;
    }
    push_key(&mut text, below.saturating_add(16), frame.width)?;
    text.push_str("</svg>\n")?;
    Ok(text)
}
