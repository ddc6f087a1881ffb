//! The calls that the tests make, with nothing said of their answers. No test needs what the contracts say, and
//! some take long to prove with it in view.
ghost use Rattle.std.specs.Prelude.{◌≤◌};

use kfifo_draw::{DrawFault, Drawing, Marking, Part, Style};
use kfifo_import::{ImportFault, Log};
use kfifo_judge::{Outcome, Sink, Source, StreamFault};
use kfifo_model::{Call, History, RecordFault, SearchFault};
use kfifo_verdict::{Evidence, Judgement};
use std::alloc::{AllocError, Global};

pub fn history_of(calls: Vec<Call>) -> Result<History, RecordFault> {
    History::new(calls)
}

pub fn has_order(alloc: Global, history: &History, k: u32) -> Result<bool, SearchFault>
    requires { (1 ≤ k) × (k ≤ 64) }
{
    kfifo_model::has_order(alloc, history, k)
}

pub fn evidence(alloc: Global, history: &History, k: u32) -> Result<Option<Evidence>, AllocError>
    requires { (1 ≤ k) × (k ≤ 64) }
{
    kfifo_verdict::evidence(alloc, history, k)
}

pub fn judge(alloc: Global, history: &History, k: u32, tries: u64) -> Result<Judgement, AllocError>
    requires { (1 ≤ k) × (k ≤ 64) }
{
    kfifo_verdict::judge(alloc, history, k, tries)
}

/// A legal order that is found where 1,000 choices may be undone.
pub fn witness(alloc: Global, history: &History, k: u32) -> Result<Option<Vec<usize>>, AllocError>
    requires { (1 ≤ k) × (k ≤ 64) }
{
    kfifo_verdict::witness(alloc, history, k, 1_000)
}

pub fn measure_stream<R: Source, W: Sink>(
    alloc: Global,
    source: &mut R,
    sink: &mut W,
) -> Result<u8, StreamFault> {
    kfifo_judge::measure_stream(alloc, source, sink)
}

pub fn judge_record(
    alloc: Global,
    text: &str,
    k: u32,
    tries: u64,
    show: bool,
) -> Result<(String, Outcome), StreamFault>
    requires { (1 ≤ k) × (k ≤ 64) }
{
    let history = kfifo_judge::read_record(alloc, text.as_bytes())?;
    Ok(kfifo_judge::judge_text(alloc, &history, &[], k, tries, show)?)
}

pub fn least_record(
    alloc: Global,
    text: &str,
    tries: u64,
) -> Result<(String, Outcome), StreamFault> {
    let history = kfifo_judge::read_record(alloc, text.as_bytes())?;
    Ok(kfifo_judge::least_text(alloc, &history, &[], tries)?)
}

pub fn read_log(alloc: Global, text: &[u8]) -> Result<Log, ImportFault> {
    Ok(kfifo_import::read_log(alloc, text)?)
}

pub fn read_log_to_judge(alloc: Global, text: &[u8]) -> Result<Log, ImportFault> {
    Ok(kfifo_import::read_log_to_judge(alloc, text)?)
}

pub fn import_text(alloc: Global, text: &[u8]) -> Result<History, ImportFault> {
    Ok(kfifo_import::import_text(alloc, text)?)
}

pub fn draw(
    alloc: Global,
    history: &History,
    style: Style,
    k: u32,
    order: Option<&[usize]>,
) -> Result<String, DrawFault>
    requires { (1 ≤ k) × (k ≤ 64) }
{
    let marking = match order {
        Some(order) => Marking::Order(order),
        None => Marking::Nothing,
    };
    let drawing = Drawing {
        style,
        part: Part::All,
        marking,
        k,
        logged: &[],
    };
    kfifo_draw::draw(alloc, history, &drawing)
}
