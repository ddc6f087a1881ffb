//! Where a picture's bars stand.
use crate::bands::{Band, bands_of};
use crate::marks::Marks;
use crate::spans::spans_of;
use crate::words::label_of;
use kfifo_model::{Call, LoggedCall};
use std::alloc::{AllocError, Global};

/// The columns of a bar beside its label, with both ends open or torn, and of a bar that goes on before it.
const ENDS: usize = 5;

/// A picture's lanes and bars.
#[derive(Drop)]
pub(crate) struct Layout {
    /// The threads that have lanes, in ascending order.
    pub threads: Vec<u32>,
    /// What is written into the bars of the calls, in ASCII.
    pub labels: Vec<String>,
    /// The stretches of the lanes that stand below each other, each with the bars of its calls.
    pub bands: Vec<Band>,
    /// How many columns the widest of them has.
    pub columns: usize,
}

impl Layout {
    /// The lanes and bars of these calls, which have these numbers, in bands of at most so many columns, and of more if
    /// that is too few for the widest label.
    pub(crate) fn of(
        alloc: Global,
        calls: &[Call],
        numbers: &[usize],
        logged: &[LoggedCall],
        marks: &Marks,
        most_columns: usize,
    ) -> Result<Layout, AllocError> {
        let labels = labels_of(alloc, calls, numbers, logged, marks)?;
        let widths: Vec<usize> = labels.iter().map(|label| label.len()).collect(alloc)?;
        let spans = spans_of(alloc, calls)?;
        let room = widest(widths.as_slice()).saturating_add(ENDS);
        let most = most_columns.max(room);
        let bands = bands_of(alloc, spans.as_slice(), widths.as_slice(), most)?;
        Ok(Layout {
            threads: threads_of(alloc, calls)?,
            labels,
            columns: most_of(bands.as_slice()),
            bands,
        })
    }

    /// The label of the call with this place among those that are drawn.
    pub(crate) fn label_of(&self, index: usize) -> &str {
        match self.labels.get(index) {
            Some(label) => label.as_str(),
            None => "",
        }
    }

    /// The place of a thread's lane from above.
    pub(crate) fn lane_of(&self, thread: u32) -> usize {
        self.threads.partition_point(|other| *other < thread)
    }
}

/// The greatest of these widths.
fn widest(widths: &[usize]) -> usize {
    let mut most = 0;
    for width in widths {
        most = (*width).max(most);
    }
    most
}

/// The labels of the calls.
fn labels_of(
    alloc: Global,
    calls: &[Call],
    numbers: &[usize],
    logged: &[LoggedCall],
    marks: &Marks,
) -> Result<Vec<String>, AllocError> {
    let mut labels = Vec::with_capacity(alloc, calls.len())?;
    for (call, number) in calls.iter().zip(numbers.iter()) {
        let logged = logged.get(*number).copied();
        labels.push(label_of(alloc, marks, *number, call, logged)?)?;
    }
    Ok(labels)
}

/// The threads of the calls, each once, in ascending order.
fn threads_of(alloc: Global, calls: &[Call]) -> Result<Vec<u32>, AllocError> {
    let mut threads: Vec<u32> = calls.iter().map(|call| call.thread).collect(alloc)?;
    threads.sort_unstable();
    threads.dedup();
    Ok(threads)
}

/// How many columns the widest band has.
fn most_of(bands: &[Band]) -> usize {
    let mut most = 0;
    for band in bands {
        most = band.columns.max(most);
    }
    most
}
