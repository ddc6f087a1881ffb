//! The calls of C. Each takes what it reads and writes as slices, and says how much there is to write: where there is
//! not room for it all, the caller makes room and calls again.
ghost use Rattle.std.specs.Prelude.{◌↔◌, ⊤, IsTrue};
ghost use Rattle.kfifo_judge_c.specs.Pictures.{IsPictureOn};
ghost use Rattle.kfifo_judge_c.specs.Reports.{Answers, IsFoundOf, IsK, IsLeastOn, IsVerdictOn};
ghost use Rattle.kfifo_judge_c.specs.Texts.{IsFoundOfText};

use crate::calls::LogCall;
use crate::drawing::draw_calls;
use crate::judging::{judge_calls, least_of_calls};
use crate::named::NamedCall;
use crate::report::{Found, hand_over};
use crate::status::BAD_CALL;
use crate::texts::judge_bytes;
use std::alloc::Global;

/// Whether k is 1 to 64.
fn is_k(k: u32) -> bool
    ensures { IsTrue result ↔ IsK k }
{
    1 <= k && k <= 64
}

/// Judges these calls for a queue whose gets may give any of its k oldest items, 1 to 64, with at most `tries` choices
/// of the search for an order undone. Returns LEGAL, NO_ORDER, UNDECIDED or FAULT, and writes as much of the text, of
/// the headline and of the calls that it names as there is room for, and how much they are. Bounds of the least k other
/// than 0 are written where the text says them. Of several faults it reports the first: of the first 16,777,215 calls
/// one that is neither a put nor a get, then too many calls, and then the first fault of the lines. Returns BAD_CALL
/// where k is out of range, and NO_MEMORY where an allocation failed, with nothing written.
#[unsafe(no_mangle)]
pub extern "C" fn kfifo_judge_c_calls(
    alloc: Global,
    calls: &[LogCall],
    k: u32,
    tries: u64,
    text: &mut [u8],
    headline: &mut [u8],
    named: &mut [NamedCall],
    found: &mut Found,
) -> u32
    ensures { Answers (IsK k) (IsFoundOf (IsVerdictOn k) calls.now) result text.old text.new
        headline.old headline.new named.old named.new found.old found.new }
{
    if !is_k(k) {
        return BAD_CALL;
    }
    hand_over(
        judge_calls(alloc, calls, k, tries),
        text,
        headline,
        named,
        found,
    )
}

/// Judges a text, a log in CSV or a record in JSON, as `kfifo_judge_c_calls` judges calls.
#[unsafe(no_mangle)]
pub extern "C" fn kfifo_judge_c_text(
    alloc: Global,
    bytes: &[u8],
    k: u32,
    tries: u64,
    text: &mut [u8],
    headline: &mut [u8],
    named: &mut [NamedCall],
    found: &mut Found,
) -> u32
    ensures { Answers (IsK k) (IsFoundOfText k bytes.now) result text.old text.new
        headline.old headline.new named.old named.new found.old found.new }
{
    if !is_k(k) {
        return BAD_CALL;
    }
    hand_over(
        judge_bytes(alloc, bytes, k, tries),
        text,
        headline,
        named,
        found,
    )
}

/// Says between which bounds the least k lies for which these calls have a legal order. Returns LEGAL with the bounds,
/// NO_ORDER where there is evidence for each k, FAULT or NO_MEMORY. Bounds other than 0 are written with LEGAL alone.
#[unsafe(no_mangle)]
pub extern "C" fn kfifo_judge_c_least(
    alloc: Global,
    calls: &[LogCall],
    tries: u64,
    text: &mut [u8],
    headline: &mut [u8],
    named: &mut [NamedCall],
    found: &mut Found,
) -> u32
    ensures { Answers ⊤ (IsFoundOf IsLeastOn calls.now) result text.old text.new
        headline.old headline.new named.old named.new found.old found.new }
{
    hand_over(
        least_of_calls(alloc, calls, tries),
        text,
        headline,
        named,
        found,
    )
}

/// Draws these calls, or, where `evidence` is true, those near the calls that the evidence against this k names, as an
/// SVG document or in characters. Returns DRAWN, FAULT, BAD_CALL or NO_MEMORY. The bounds that it writes are 0.
#[unsafe(no_mangle)]
pub extern "C" fn kfifo_judge_c_draw(
    alloc: Global,
    calls: &[LogCall],
    k: u32,
    evidence: bool,
    svg: bool,
    text: &mut [u8],
    headline: &mut [u8],
    named: &mut [NamedCall],
    found: &mut Found,
) -> u32
    ensures { Answers (IsK k) (IsFoundOf (IsPictureOn k evidence) calls.now) result text.old text.new
        headline.old headline.new named.old named.new found.old found.new }
{
    if !is_k(k) {
        return BAD_CALL;
    }
    hand_over(
        draw_calls(alloc, calls, k, evidence, svg),
        text,
        headline,
        named,
        found,
    )
}
