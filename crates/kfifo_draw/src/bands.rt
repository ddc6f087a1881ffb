//! Stretches of lanes that stand below each other, where one would be too long.
use crate::columns::{column_at, columns_of, places_of};
use crate::spans::{Span, clipped, goes_on};
use std::alloc::{AllocError, Global};

/// How a bar ends at the right.
#[derive(Clone, Copy, PartialEq, Eq)]
pub(crate) enum Edge {
    /// With the call.
    Closed,
    /// Open, since the call is unfinished.
    Open,
    /// Torn, since the bar goes on in the next band.
    Torn,
}

/// The bar of a call in a band. Between its ends there is room for the call's label.
#[derive(Clone, Copy)]
pub(crate) struct Bar {
    /// The place of the call among those that are drawn.
    pub index: usize,
    /// The column of its left end.
    pub left: usize,
    /// The column of its right end; where it is open or torn, the last one of the band.
    pub right: usize,
    /// Whether the call began in a band before.
    pub goes_on: bool,
    /// How it ends at the right.
    pub edge: Edge,
}

/// A stretch of the lanes.
#[derive(Drop)]
pub(crate) struct Band {
    /// The bars of the calls with some place in the band, by the calls' numbers.
    pub bars: Vec<Bar>,
    /// How many columns there are.
    pub columns: usize,
}

/// How many columns a band has: up to the last place, and room for the labels and the ends of bars that do not end in
/// it.
fn column_count(spans: &[Span], widths: &[usize], places: &[usize]) -> usize {
    let mut count = places.last().map_or(0, |last| last.saturating_add(1));
    for (span, width) in spans.iter().zip(widths.iter()) {
        if span.to.is_none() {
            let left = column_at(places, span.from);
            count = left.saturating_add(*width).saturating_add(4).max(count);
        }
    }
    count
}

/// How the bar of a call ends at the right of a band, in which it has this part; `last` says whether no band stands
/// below.
fn edge_of(span: &Span, part: &Span, last: bool) -> Edge {
    if part.to.is_some() {
        Edge::Closed
    } else if span.to.is_none() && last {
        Edge::Open
    } else {
        Edge::Torn
    }
}

/// The parts of spans that lie in a band.
#[derive(Drop)]
struct Parts {
    /// The places of the calls among those that are drawn.
    indices: Vec<usize>,
    /// What of their spans lies in the band.
    spans: Vec<Span>,
    /// The widths of their labels.
    widths: Vec<usize>,
}

/// The parts of these spans that lie among the places from one to another. Where a call goes on from the band before,
/// the band has a place of its own at its left edge.
fn parts_of(
    alloc: Global,
    spans: &[Span],
    widths: &[usize],
    from: usize,
    to: usize,
) -> Result<Parts, AllocError> {
    let mut parts = Parts {
        indices: Vec::new(alloc),
        spans: Vec::new(alloc),
        widths: Vec::new(alloc),
    };
    let edge = usize::from(spans.iter().any(|span| goes_on(span, from)));
    for (index, (span, width)) in spans.iter().zip(widths.iter()).enumerate() {
        if let Some(part) = clipped(span, from, to, edge) {
            parts.indices.push(index)?;
            parts.spans.push(part)?;
            parts.widths.push(*width)?;
        }
    }
    Ok(parts)
}

/// The band of the places from one to another; the last band has none below it.
fn band_of(
    alloc: Global,
    spans: &[Span],
    widths: &[usize],
    from: usize,
    to: usize,
    last: bool,
) -> Result<Band, AllocError> {
    let parts = parts_of(alloc, spans, widths, from, to)?;
    let (inside, rooms) = (parts.spans.as_slice(), parts.widths.as_slice());
    let places = columns_of(alloc, inside, rooms)?;
    let columns = column_count(inside, rooms, places.as_slice());
    let mut bars = Vec::with_capacity(alloc, inside.len())?;
    for (part, index) in inside.iter().zip(parts.indices.iter()) {
        let whole = spans.get(*index).copied().unwrap_or(*part);
        let right = match part.to {
            Some(end) => column_at(places.as_slice(), end),
            None => columns.saturating_sub(1),
        };
        bars.push(Bar {
            index: *index,
            left: column_at(places.as_slice(), part.from),
            right,
            goes_on: whole.from < from,
            edge: edge_of(&whole, part, last),
        })?;
    }
    Ok(Band { bars, columns })
}

/// Whether the band of the places from one to another has at most so many columns. Each place has a column.
fn fits(
    alloc: Global,
    spans: &[Span],
    widths: &[usize],
    from: usize,
    to: usize,
    most: usize,
) -> Result<bool, AllocError> {
    if to.saturating_sub(from) > most {
        return Ok(false);
    }
    let band = band_of(alloc, spans, widths, from, to, false)?;
    Ok(band.columns <= most)
}

/// Up to which place a band goes that begins at this one: as far as it has at most so many columns, and at least a
/// place.
fn end_of_band(
    alloc: Global,
    spans: &[Span],
    widths: &[usize],
    from: usize,
    places: usize,
    most: usize,
) -> Result<usize, AllocError> {
    if fits(alloc, spans, widths, from, places, most)? {
        return Ok(places);
    }
    let mut end = from.saturating_add(1);
    for to in end.saturating_add(1)..places {
        if !fits(alloc, spans, widths, from, to, most)? {
            break;
        }
        end = to;
    }
    Ok(end)
}

/// The bands of calls with these spans, whose labels have these widths, each of at most so many columns.
pub(crate) fn bands_of(
    alloc: Global,
    spans: &[Span],
    widths: &[usize],
    most: usize,
) -> Result<Vec<Band>, AllocError> {
    let mut bands = Vec::new(alloc);
    let places = places_of(spans);
    let mut from = 0;
    for _ in 0..places {
        if from < places {
            let to = end_of_band(alloc, spans, widths, from, places, most)?;
            bands.push(band_of(alloc, spans, widths, from, to, to >= places)?)?;
            from = to;
        }
    }
    Ok(bands)
}
