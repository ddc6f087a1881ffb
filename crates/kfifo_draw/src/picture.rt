//! The picture of a history.
ghost use Rattle.std.specs.Prelude.{◌≡◌, ◌≤◌, MatchResult, length};
ghost use Rattle.kfifo_draw.specs.Drawing.{AreFew, IsDrawFault, IsInPart, draw_fault_number};

use crate::lanes::text_picture;
use crate::layout::Layout;
use crate::marks::{Marking, Marks};
use crate::part::{Part, count_drawn, drawn_calls};
use crate::scene::Scene;
use crate::svg::svg_picture;
use crate::{lanes, svg};
use kfifo_model::{Call, History, LoggedCall};
use std::alloc::{AllocError, Global};
use thiserror::Error;

/// The most calls of a picture.
pub const MAX_DRAWN: usize = 4_096;

/// The greatest width of a picture in SVG that a window shows whole, in pixels.
pub const DEFAULT_WIDTH: u32 = 1_600;

/// What a picture is made of.
#[derive(Clone, Copy, Debug, PartialEq, Eq)]
pub enum Style {
    /// An SVG document, in which a bar tells all that is known of its call where the pointer rests on it.
    Svg {
        /// The greatest width in pixels. A bar that needs more room for its label, at most some 460 pixels, has it.
        width: u32,
    },
    /// Lines of characters, a lane a line.
    Text,
}

/// What is drawn of a history, and how.
#[derive(Clone, Copy, Debug, PartialEq, Eq)]
pub struct Drawing<'a> {
    /// What the picture is made of.
    pub style: Style,
    /// Which calls are drawn.
    pub part: Part<'a>,
    /// What is marked.
    pub marking: Marking<'a>,
    /// The k of the verdict on an order, 1 to 64: a dequeue may give any of the k oldest items.
    pub k: u32,
    /// For the record of a log, where each call stands in the log and when it was, by the calls' numbers; else empty.
    pub logged: &'a [LoggedCall],
    pub ghost some_places: { 1 ≤ k },
    pub ghost few_places: { k ≤ 64 },
}

impl<'a> Drawing<'a> {
    /// A drawing of this part of a history, for a k of 1 to 64.
    pub fn new(
        style: Style,
        part: Part<'a>,
        marking: Marking<'a>,
        k: u32,
        logged: &'a [LoggedCall],
    ) -> Drawing<'a>
        requires { (1 ≤ k) × (k ≤ 64) }
        ensures style { result.style ≡ style }
        ensures part { result.part ≡ part.entry }
        ensures marking { result.marking ≡ marking.entry }
        ensures k { result.k ≡ k }
        ensures logged { result.logged ≡ logged.entry }
    {
        Drawing {
            style,
            part,
            marking,
            k,
            logged,
        }
    }
}

/// Why a history is not drawn.
#[derive(Clone, Copy, Debug, PartialEq, Eq, Error)]
pub enum DrawFault {
    /// 1: there are over 4,096 calls.
    #[error("a picture has at most 4,096 calls")]
    TooMany,
    /// An allocation failed.
    #[error("out of memory")]
    Memory,
}

impl DrawFault {
    /// The number of the fault: 1, or 0 where an allocation failed.
    pub fn number(self) -> u32
        ensures { result ≡ draw_fault_number self }
    {
        match self {
            DrawFault::TooMany => 1,
            DrawFault::Memory => 0,
        }
    }
}

impl From<AllocError> for DrawFault {
    ghost use Rattle.kfifo_draw.specs.declared.picture.DrawFault.TheVariants.{Memory};

    ghost from_gives = { λ _ fault. fault ≡ Memory };

    fn from(_: AllocError) -> DrawFault {
        DrawFault::Memory
    }
}

/// Returns the picture of a part of a history.
///
/// ```rust
/// let drawing = Drawing {
///     style,
///     part: Part::All,
///     marking,
///     k,
///     logged: &[],
/// };
/// kfifo_draw::draw(alloc, history, &drawing)
/// ```
///
/// The part has at most 4,096 calls. It has a lane for each of its threads, by number, and in it a bar for each call
/// from its beginning to its end, with an open end where the call is unfinished. Only the order of beginnings and ends
/// counts, where at one step beginnings come before ends: the picture has no room for idle time, and a bar is as long
/// as its label needs. Lanes that are longer than the width of the style, or than 120 characters, go
/// on below.
///
/// Calls have the numbers of the whole history. Where an order is given, each call's label has its place in it, and the
/// picture says whether the order of the whole is legal for k; of one that is not, the call at which it fails is
/// marked.
///
/// `alloc`, the runtime's allocator, makes room for the text. Refuses: TooMany where over 4,096 calls belong to the
/// part, else Memory where an allocation failed.
pub fn draw(alloc: Global, history: &History, drawing: &Drawing<'_>) -> Result<String, DrawFault>
    ensures { MatchResult result (λ _. AreFew (IsInPart history.now drawing.now.logged.now drawing.now.part)
        (length history.now))
        (IsDrawFault history.now drawing.now.logged.now drawing.now.part) }
{
    let calls = history.calls();
    if count_drawn(calls, drawing.logged, drawing.part) > MAX_DRAWN {
        return Err(DrawFault::TooMany);
    }
    let text = picture_of(alloc, history, drawing)?;
    Ok(text)
}

/// The calls with these numbers.
fn calls_at(alloc: Global, calls: &[Call], numbers: &[usize]) -> Result<Vec<Call>, AllocError> {
    let mut drawn = Vec::with_capacity(alloc, numbers.len())?;
    for number in numbers {
        if let Some(call) = calls.get(*number) {
            drawn.push(*call)?;
        }
    }
    Ok(drawn)
}

/// The picture of a part of a history.
fn picture_of(
    alloc: Global,
    history: &History,
    drawing: &Drawing<'_>,
) -> Result<String, AllocError> {
    let whole = history.calls();
    let numbers = drawn_calls(alloc, whole, drawing.logged, drawing.part)?;
    let calls = calls_at(alloc, whole, numbers.as_slice())?;
    let marks = Marks::of(alloc, history, drawing.k, drawing.marking)?;
    let most = match drawing.style {
        Style::Svg { width } => svg::most_columns(width),
        Style::Text => lanes::MAX_COLUMNS,
    };
    let layout = Layout::of(
        alloc,
        calls.as_slice(),
        numbers.as_slice(),
        drawing.logged,
        &marks,
        most,
    )?;
    let scene = Scene {
        calls: calls.as_slice(),
        numbers: numbers.as_slice(),
        whole: whole.len(),
        logged: drawing.logged,
        marks: &marks,
        layout: &layout,
    };
    match drawing.style {
        Style::Svg { width } => svg_picture(alloc, &scene, width),
        Style::Text => text_picture(alloc, &scene),
    }
}
