//! Whether a text is one XML element, judged apart from what draws pictures. It knows no entities and no comments.

use std::alloc::{AllocError, Global};

/// Whether these are letters and signs that a name in a picture has, and there are some.
fn is_name(text: &str) -> bool {
    let are_signs = text
        .bytes()
        .all(|byte| byte.is_ascii_alphanumeric() || byte == b'-');
    are_signs && !text.is_empty()
}

/// Whether a text between two values is a space, a name and an equals sign.
fn names_attribute(piece: &str) -> bool {
    match piece
        .strip_prefix(' ')
        .and_then(|rest| rest.strip_suffix('='))
    {
        Some(name) => is_name(name),
        None => false,
    }
}

/// Whether what stands behind the name of a tag is attributes: of each a space, its name, an equals sign and its value
/// in quotation marks.
fn are_attributes(rest: &str) -> bool {
    let mut in_value = false;
    let mut ended = false;
    for piece in rest.split('"') {
        let is_right = if in_value {
            !piece.contains('&')
        } else {
            piece.is_empty() || names_attribute(piece)
        };
        if ended || !is_right {
            return false;
        }
        ended = !in_value && piece.is_empty();
        in_value = !in_value;
    }
    ended
}

/// The elements that are open, and how many stand at the top.
#[derive(Drop)]
struct Elements<'a> {
    open: Vec<&'a str>,
    roots: u64,
}

/// Opens an element, or passes one that closes itself; returns whether its tag is right.
fn open<'a>(elements: &mut Elements<'a>, tag: &'a str) -> Result<bool, AllocError> {
    let alone = tag.strip_suffix('/');
    let tag = alone.unwrap_or(tag);
    let name = tag.split(' ').next().unwrap_or("");
    let rest = tag.strip_prefix(name).unwrap_or("");
    if elements.open.is_empty() {
        elements.roots = elements.roots.saturating_add(1);
    }
    if alone.is_none() {
        elements.open.push(name)?;
    }
    Ok(is_name(name) && are_attributes(rest))
}

/// Takes a tag and the text behind it; returns whether both are right where they stand.
fn take<'a>(elements: &mut Elements<'a>, piece: &'a str) -> Result<bool, AllocError> {
    let Some((tag, content)) = piece.split_once('>') else {
        return Ok(false);
    };
    let is_right = match tag.strip_prefix('/') {
        Some(name) => elements.open.pop() == Some(name),
        None => open(elements, tag)?,
    };
    let is_outside = elements.open.is_empty() && !content.trim_ascii().is_empty();
    Ok(is_right && !is_outside && !content.contains('&'))
}

/// Whether a text is one XML element with what it holds, each element closed in its turn.
pub(crate) fn is_well_formed(alloc: Global, text: &str) -> Result<bool, AllocError> {
    let mut elements = Elements {
        open: Vec::new(alloc),
        roots: 0,
    };
    let mut pieces = text.split('<');
    if pieces.next() != Some("") {
        return Ok(false);
    }
    for piece in pieces {
        if !take(&mut elements, piece)? {
            return Ok(false);
        }
    }
    Ok(elements.open.is_empty() && elements.roots == 1)
}
