//! Pictures as lines of characters.
use crate::bands::{Band, Bar, Edge};
use crate::scene::Scene;
use std::alloc::{AllocError, Global};
use std::fmt::Write;

/// How many columns a band has at most: a line has at most 120 characters, with the 11 of its thread.
pub(crate) const MAX_COLUMNS: usize = 109;

/// Adds a character so many times.
fn push_times(text: &mut String, mark: char, count: usize) -> Result<(), AllocError> {
    for _ in 0..count {
        text.push(mark)?;
    }
    Ok(())
}

/// Adds a bar with this label, and returns the column behind it. `column` is the one behind what the lane has so far.
fn push_bar(text: &mut String, bar: &Bar, label: &str, column: usize) -> Result<usize, AllocError> {
    push_times(text, ' ', bar.left.saturating_sub(column))?;
    text.push(if bar.goes_on { '~' } else { '[' })?;
    text.push_str(label)?;
    let inside = bar.right.saturating_sub(bar.left).saturating_sub(1);
    push_times(text, '-', inside.saturating_sub(label.len()))?;
    text.push(match bar.edge {
        Edge::Closed => ']',
        Edge::Open => '>',
        Edge::Torn => '~',
    })?;
    Ok(bar.right.saturating_add(1))
}

/// Adds the lane of a thread in a band.
fn push_lane(
    text: &mut String,
    scene: &Scene<'_>,
    band: &Band,
    thread: u32,
) -> Result<(), AllocError> {
    write!(text, "thread {thread:<2}  ")?;
    let mut column = 0;
    for bar in band.bars.iter() {
        if let Some(call) = scene.calls.get(bar.index) {
            if call.thread == thread {
                let label = scene.layout.label_of(bar.index);
                column = push_bar(text, bar, label, column)?;
            }
        }
    }
    text.push('\n')
}

/// Adds the lanes of a band, a line each.
fn push_band(text: &mut String, scene: &Scene<'_>, band: &Band) -> Result<(), AllocError> {
    for thread in scene.layout.threads.iter() {
        push_lane(text, scene, band, *thread)?;
    }
    Ok(())
}

/// Adds what is said of the whole.
fn push_notes(text: &mut String, scene: &Scene<'_>) -> Result<(), AllocError> {
    if scene.is_cut() {
        scene.push_count(text)?;
        text.push('\n')?;
    } else if scene.whole == 0 {
        text.push_str("no calls\n")?;
    }
    if scene.marks.push_verdict(text)? {
        text.push('\n')?;
    }
    if scene.is_crowded() {
        scene.push_hint(text)?;
        text.push('\n')?;
    }
    Ok(())
}

/// The lanes of the calls, a line each, in bands with an empty line between them, and behind them what is said of the
/// whole.
pub(crate) fn text_picture(alloc: Global, scene: &Scene<'_>) -> Result<String, AllocError> {
    let mut text = String::new(alloc);
    for band in scene.layout.bands.iter() {
        if !text.is_empty() {
            text.push('\n')?;
        }
        push_band(&mut text, scene, band)?;
    }
    push_notes(&mut text, scene)?;
    Ok(text)
}
