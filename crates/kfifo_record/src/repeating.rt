//! Scripts made several times over, with items of their own each time.
ghost use Rattle.std.specs.Prelude.{◌≡◌, ◌+◌, ◌-◌, ◌*◌, ◌<◌, ◌≤◌, ◌↔◌, ℕ, IsTrue, IfOk, MatchOption, length, map};
ghost use Rattle.std.specs.List.{fold};
ghost use Rattle.kfifo_linear.specs.Ledger.{item_of};
ghost use Rattle.kfifo_record.specs.Scripts.{scripts_in};
ghost use Rattle.kfifo_record.specs.Repeats as words;
ghost use Rattle.kfifo_record.specs.Repeats.{AllFit, FitsTo, IsFirstOver, all_repeated, greatest_item, last_shift};
ghost use Rattle.kfifo_record.specs.Repeats.{repeated, shifted};
ghost use Rattle.kfifo_words.specs.declared.word.TheConstants.{VALUES};

use kfifo_machine::Begin;
use kfifo_model::MAX_ITEM;
use std::alloc::{AllocError, Global};

/// The place, from 0, of the first script that would put an item over 2^24 - 1 if the scripts were made so many times
/// over; none where each fits. It takes no memory.
pub fn first_over(scripts: &[Vec<Begin>], count: u32) -> Option<usize>
    requires { 1 ≤ count }
    ensures { let own = scripts_in scripts.now in
        MatchOption result (AllFit (last_shift count own) own) (IsFirstOver (last_shift count own) own) }
{
    let by = u64::from(greatest_item(scripts)) * u64::from(count - 1);
    for (place, script) in scripts.iter().enumerate() {
        if !fits(script.as_slice(), by) {
            return Some(place);
        }
    }
    None
}

/// The scripts made so many times over. In repetition r, from 0, each item is the one of the script plus r times the
/// greatest item of all scripts. So if no two enqueues of the scripts have one item, no two of these have.
///
/// No item may go over 2^24 - 1: `first_over` tests it. An error means that an allocation failed.
pub fn repeat_scripts(
    alloc: Global,
    scripts: &[Vec<Begin>],
    count: u32,
) -> Result<Vec<Vec<Begin>>, AllocError>
    requires { AllFit (last_shift count (scripts_in scripts.now)) (scripts_in scripts.now) }
    ensures { IfOk result (λ made. scripts_in made.items ≡ all_repeated count (scripts_in scripts.now)) }
{
    let step = greatest_item(scripts);
    let mut made = Vec::with_capacity(alloc, scripts.len())?;
    for script in scripts {
        made.push(repeat_script(alloc, script.as_slice(), step, count)?)?;
    }
    Ok(made)
}

/// The greatest item of all scripts, 0 where they put none.
fn greatest_item(scripts: &[Vec<Begin>]) -> u32
    ensures { result ≡ greatest_item (scripts_in scripts.now) }
{
    scripts.iter().fold(
        0,
        |most: u32, script| most.max(greatest_of(script.as_slice())),
    )
}

/// The greatest item of a script, 0 where it puts none.
fn greatest_of(script: &[Begin]) -> u32
    ensures { result ≡ words.greatest_of script.now }
{
    script
        .iter()
        .fold(0, |most: u32, call| most.max(item_of(*call)))
}

/// The item that the call puts, 0 where it puts none.
fn item_of(call: Begin) -> u32
    ensures { result ≡ item_of call }
{
    match call {
        Begin::Enqueue { item, .. } => item,
        Begin::Dequeue { .. } | Begin::Tick | Begin::Seal => 0,
    }
}

/// Whether no item of the script goes over 2^24 - 1 where each is greater by so much.
fn fits(script: &[Begin], by: u64) -> bool
    ensures { IsTrue result ↔ FitsTo by script.now }
{
    script.iter().all(|call| is_small(*call, by))
}

/// Whether the item of the call does not go over 2^24 - 1 where it is greater by so much.
fn is_small(call: Begin, by: u64) -> bool
    ensures { IsTrue result ↔ (item_of (shifted by call) < VALUES) }
{
    match call {
        Begin::Enqueue { item, .. } => u64::from(item).saturating_add(by) <= u64::from(MAX_ITEM),
        Begin::Dequeue { .. } | Begin::Tick | Begin::Seal => true,
    }
}

/// The script made so many times over, its items greater by one step more each time.
fn repeat_script(
    alloc: Global,
    script: &[Begin],
    step: u32,
    count: u32,
) -> Result<Vec<Begin>, AllocError>
    requires { FitsTo ((count - 1) * step) script.now }
    ensures { IfOk result (λ made. made.items ≡ repeated step count script.now) }
{
    let mut made = Vec::new(alloc);
    for repetition in 0..count {
        let by = u64::from(repetition) * u64::from(step);
        let more = shift_script(alloc, script, by)?;
        made.extend_from_slice(more.as_slice())?;
    }
    Ok(made)
}

/// The script with each item greater by so much.
fn shift_script(alloc: Global, script: &[Begin], by: u64) -> Result<Vec<Begin>, AllocError>
    requires { FitsTo by script.now }
    ensures { IfOk result (λ made. made.items ≡ map (shifted by) script.now) }
{
    let mut made = Vec::with_capacity(alloc, script.len())?;
    for call in script {
        made.push(shift(*call, by))?;
    }
    Ok(made)
}

/// The call with an item greater by so much.
fn shift(call: Begin, by: u64) -> Begin
    requires { item_of (shifted by call) < VALUES }
    ensures { result ≡ shifted by call }
{
    match call {
        Begin::Enqueue { item, start, turns } => Begin::Enqueue {
            item: (u64::from(item) + by) as u32,
            start,
            turns,
        },
        other => other,
    }
}
