//! Columns of characters for the places of beginnings and ends.
use crate::spans::Span;
use std::alloc::{AllocError, Global};

/// Room that has to lie between two places.
#[derive(Clone, Copy)]
struct Room {
    from: usize,
    to: usize,
    columns: usize,
}

/// The rooms that finished calls need, whose labels have these widths, in ascending order of end. Their label and the
/// two ends stand beside each other.
fn rooms_of(alloc: Global, spans: &[Span], widths: &[usize]) -> Result<Vec<Room>, AllocError> {
    let mut rooms = Vec::new(alloc);
    for (span, width) in spans.iter().zip(widths.iter()) {
        if let Some(to) = span.to {
            rooms.push(Room {
                from: span.from,
                to,
                columns: width.saturating_add(1),
            })?;
        }
    }
    rooms.sort_unstable_by_key(|room| room.to);
    Ok(rooms)
}

/// Adds a column for each place up to this number of them, each one to the right of the one before.
fn lengthen(columns: &mut Vec<usize>, places: usize) -> Result<(), AllocError> {
    for _ in columns.len()..places {
        let next = columns.last().map_or(0, |last| last.saturating_add(1));
        columns.push(next)?;
    }
    Ok(())
}

/// The column of a place.
pub(crate) fn column_at(columns: &[usize], place: usize) -> usize {
    columns.get(place).copied().unwrap_or(0)
}

/// How many places there are.
pub(crate) fn places_of(spans: &[Span]) -> usize {
    let mut places = 0;
    for span in spans {
        places = span.to.unwrap_or(span.from).saturating_add(1).max(places);
    }
    places
}

/// The column of each place, the least that leave each finished call the room for its label.
pub(crate) fn columns_of(
    alloc: Global,
    spans: &[Span],
    widths: &[usize],
) -> Result<Vec<usize>, AllocError> {
    let mut columns = Vec::new(alloc);
    let rooms = rooms_of(alloc, spans, widths)?;
    for room in rooms.as_slice() {
        // Rooms come in ascending order of end, so the end of this one is now the last place.
        lengthen(&mut columns, room.to.saturating_add(1))?;
        let least = column_at(columns.as_slice(), room.from).saturating_add(room.columns);
        if let Some(last) = columns.last_mut() {
            *last = least.max(*last);
        }
    }
    lengthen(&mut columns, places_of(spans))?;
    Ok(columns)
}
