//! The pictures that a row asks for.

use crate::drive::{add_written, calls_of, k_of};
use crate::form::is_well_formed;
use crate::plain;
use kfifo_draw::{DEFAULT_WIDTH, DrawFault, Marking, Part, Style};
use kfifo_model::History;
use serde_json::Value;
use std::alloc::{AllocError, Global};
use test_rows::{small, text};

/// The picture of a history in which these calls are marked.
fn marked(
    alloc: Global,
    history: &History,
    style: Style,
    ask: &Value,
    near: &[usize],
) -> Result<String, DrawFault> {
    let marking = Marking::Calls(near, text(ask, "reason"));
    let part = match ask.get("around") {
        Some(around) => Part::Near(near, small(around) as usize),
        None => Part::All,
    };
    plain::draw(alloc, history, style, k_of(ask), part, marking)
}

/// The part of a history from one call to another.
fn stretch_of(calls: &[usize]) -> Part<'static> {
    match calls {
        [first, last] => Part::Calls(*first, *last),
        _ => Part::All,
    }
}

/// The picture of a history.
fn picture(
    alloc: Global,
    history: &History,
    style: Style,
    ask: &Value,
) -> Result<String, DrawFault> {
    if let Some(near) = calls_of(alloc, ask, "near")? {
        return marked(alloc, history, style, ask, near.as_slice());
    }
    let part = match calls_of(alloc, ask, "calls")? {
        Some(calls) => stretch_of(calls.as_slice()),
        None => Part::All,
    };
    let k = k_of(ask);
    match calls_of(alloc, ask, "order")? {
        Some(order) => {
            plain::draw(
                alloc,
                history,
                style,
                k,
                part,
                Marking::Order(order.as_slice()),
            )
        }
        None => plain::draw(alloc, history, style, k, part, Marking::Nothing),
    }
}

/// The line on whether a text is well formed.
pub(crate) fn form_line(alloc: Global, text: &str) -> Result<String, AllocError> {
    let line = if is_well_formed(alloc, text)? {
        "well formed"
    } else {
        "not well formed"
    };
    line.to_string(alloc)
}

/// The line of a fault, with its number.
fn fault_line(alloc: Global, fault: DrawFault) -> Result<String, AllocError> {
    let number = fault.number();
    format!(in alloc; "{fault:?}, fault {number}")
}

/// The style of the picture that a question asks for.
fn style_of(ask: &Value) -> Style {
    if text(ask, "ask") == "draw" {
        Style::Text
    } else {
        Style::Svg {
            width: DEFAULT_WIDTH,
        }
    }
}

/// Adds the lines of a picture, or one on its form.
pub(crate) fn add_picture(
    alloc: Global,
    history: &History,
    ask: &Value,
    lines: &mut Vec<String>,
) -> Result<(), AllocError> {
    match picture(alloc, history, style_of(ask), ask) {
        Ok(picture) if text(ask, "ask") == "form" => Ok(lines.push(form_line(
            alloc,
            picture.as_str(),
        )?)?),
        Ok(picture) => add_written(alloc, picture.as_str(), lines),
        Err(fault) => Ok(lines.push(fault_line(alloc, fault)?)?),
    }
}
