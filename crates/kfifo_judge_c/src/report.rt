//! What an export finds, and how it is handed to C.
ghost use Rattle.std.specs.Prelude.{◌≡◌, MatchResult};
ghost use Rattle.kfifo_judge_c.specs.Reports.{HasNoBounds, HasNoReason, IsHanded, IsUnwritten, Writes};

use crate::named::NamedCall;
use crate::status::NO_MEMORY;
use std::alloc::{AllocError, Global};

/// What is found of some calls.
#[derive(Drop)]
pub struct Report {
    /// The status that is returned.
    pub status: u32,
    /// The number of a fault, or 0.
    pub fault: u32,
    /// The line of a log or the call of a record that has the fault, or 0.
    pub place: u64,
    /// What is said.
    pub text: String,
    /// The number of the kind of evidence, or 0.
    pub kind: u32,
    /// What the evidence says of the queue, in words; empty where there is none.
    pub headline: String,
    /// The calls that the reason names.
    pub named: Vec<NamedCall>,
    /// How many calls were judged, or 0.
    pub calls: usize,
    /// How many items are left at their end, or 0.
    pub left: usize,
    /// The least k is no less, or 0.
    pub at_least: usize,
    /// The least k is no greater, or 0.
    pub at_most: u32,
    /// After how many tries the search for an order gave up, or 0.
    pub tries: u64,
}

/// The numbers of a report, as C has them.
#[repr(C)]
#[derive(Clone, Copy)]
pub struct Found {
    /// The line of a log or the call of a record that has the fault, or 0.
    pub place: u64,
    /// How long the whole text is.
    pub length: usize,
    /// How long the whole headline is.
    pub headline: usize,
    /// How many calls the reason names.
    pub named: usize,
    /// How many calls were judged, or 0.
    pub calls: usize,
    /// How many items are left at their end, or 0.
    pub left: usize,
    /// The least k is no less, or 0.
    pub at_least: usize,
    /// After how many tries the search for an order gave up, or 0.
    pub tries: u64,
    /// The least k is no greater, or 0.
    pub at_most: u32,
    /// The number of a fault, or 0.
    pub fault: u32,
    /// The number of the kind of evidence, or 0.
    pub kind: u32,
}

impl Report {
    /// A report with nothing but a status and a text.
    pub(crate) fn plain(alloc: Global, status: u32, text: String) -> Report
        ensures { (result.status ≡ status) × (result.text ≡ text) × (result.fault ≡ 0) × (result.place ≡ 0)
            × HasNoReason result × HasNoBounds result }
    {
        Report {
            status,
            fault: 0,
            place: 0,
            text,
            kind: 0,
            headline: String::new(alloc),
            named: Vec::new(alloc),
            calls: 0,
            left: 0,
            at_least: 0,
            at_most: 0,
            tries: 0,
        }
    }

    /// Writes as much of the text, of the headline and of the named calls as there is room for, and all numbers, and
    /// returns the status.
    fn write_to(
        &self,
        text: &mut [u8],
        headline: &mut [u8],
        named: &mut [NamedCall],
        found: &mut Found,
    ) -> u32
        ensures { IsHanded self.now result text.old text.new headline.old headline.new named.old named.new found.new }
    {
        write_bytes(text, self.text.as_bytes());
        write_bytes(headline, self.headline.as_bytes());
        write_calls(named, self.named.as_slice());
        *found = Found {
            place: self.place,
            length: self.text.len(),
            headline: self.headline.len(),
            named: self.named.len(),
            calls: self.calls,
            left: self.left,
            at_least: self.at_least,
            tries: self.tries,
            at_most: self.at_most,
            fault: self.fault,
            kind: self.kind,
        };
        self.status
    }
}

/// Writes a report, and returns its status; or returns NO_MEMORY, with nothing written, where there is none.
pub(crate) fn hand_over(
    report: Result<Report, AllocError>,
    text: &mut [u8],
    headline: &mut [u8],
    named: &mut [NamedCall],
    found: &mut Found,
) -> u32
    ensures { MatchResult report
        (λ r. IsHanded r result text.old text.new headline.old headline.new named.old named.new found.new)
        (λ _. (result ≡ NO_MEMORY) × IsUnwritten text.old text.new headline.old headline.new named.old named.new
        found.old found.new) }
{
    match report {
        Ok(report) => report.write_to(text, headline, named, found),
        Err(_) => NO_MEMORY,
    }
}

/// Writes as many of these bytes as there is room for, from the beginning on.
fn write_bytes(out: &mut [u8], from: &[u8])
    ensures { Writes from.now out.old out.new }
{
    let count = from.len().min(out.len());
    out[..count].copy_from_slice(&from[..count]);
}

/// Writes as many of these calls as there is room for, from the beginning on.
fn write_calls(out: &mut [NamedCall], from: &[NamedCall])
    ensures { Writes from.now out.old out.new }
{
    let count = from.len().min(out.len());
    out[..count].copy_from_slice(&from[..count]);
}
