//! Where calls begin and end among each other.
use kfifo_model::Call;
use std::alloc::{AllocError, Global};

/// From where to where a call reaches: places among all beginnings and ends in ascending order of step, where at one
/// step beginnings come before ends, and ends at one step have one place.
#[derive(Clone, Copy)]
pub(crate) struct Span {
    /// The place of the beginning.
    pub from: usize,
    /// The place of the end; none of an unfinished call.
    pub to: Option<usize>,
}

/// The steps at which calls end, each once, in ascending order.
fn end_steps(alloc: Global, calls: &[Call]) -> Result<Vec<u64>, AllocError> {
    let mut steps = Vec::new(alloc);
    for call in calls {
        if let Some(end) = call.end {
            steps.push(end.last)?;
        }
    }
    steps.sort_unstable();
    steps.dedup();
    Ok(steps)
}

/// The place of an end at this step: behind the beginnings up to it and the ends before it.
fn end_place(calls: &[Call], ends: &[u64], step: u64) -> usize {
    let begun = calls.partition_point(|call| call.first <= step);
    let ended = ends.partition_point(|last| *last < step);
    begun.saturating_add(ended)
}

/// The span of the call with this number.
fn span_of(calls: &[Call], ends: &[u64], number: usize, call: &Call) -> Span {
    let ended = ends.partition_point(|last| *last < call.first);
    Span {
        from: number.saturating_add(ended),
        to: call.end.map(|end| end_place(calls, ends, end.last)),
    }
}

/// The spans of a history's calls, by their numbers.
pub(crate) fn spans_of(alloc: Global, calls: &[Call]) -> Result<Vec<Span>, AllocError> {
    let ends = end_steps(alloc, calls)?;
    let mut spans = Vec::with_capacity(alloc, calls.len())?;
    for (number, call) in calls.iter().enumerate() {
        spans.push(span_of(calls, ends.as_slice(), number, call))?;
    }
    Ok(spans)
}

/// Whether a call with this span began before a place and has not ended before it.
pub(crate) fn goes_on(span: &Span, from: usize) -> bool {
    span.from < from && span.to.map_or(true, |end| end >= from)
}

/// What of a span lies among the places from one to another, counted from `edge` on; none where nothing does. What
/// began before has the place 0, and what ends behind has no end.
pub(crate) fn clipped(span: &Span, from: usize, to: usize, edge: usize) -> Option<Span> {
    let is_before = span.to.map_or(false, |end| end < from);
    if is_before || span.from >= to {
        return None;
    }
    let end = match span.to {
        Some(end) if end < to => Some(end.saturating_sub(from).saturating_add(edge)),
        _ => None,
    };
    let begin = if span.from < from {
        0
    } else {
        span.from.saturating_sub(from).saturating_add(edge)
    };
    Some(Span {
        from: begin,
        to: end,
    })
}
