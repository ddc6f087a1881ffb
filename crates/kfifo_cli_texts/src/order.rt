//! Orders that the command line gives, as texts or in files.
ghost use Rattle.std.specs.Prelude.{◌≡◌, ◌≤◌, ◌⊎◌, List, MatchResult, IfOk, IfErr, length, map, ℕ};
ghost use Rattle.kfifo_judge.specs.declared.streams.TheConstants.{MAX_BYTES};
ghost use Rattle.kfifo_cli_texts.specs.Orders.{GivesNoOrder, GivesOrder, WriteNumbers, WritesOrder, WritesSpacedOrder};
ghost use Rattle.kfifo_cli_texts.specs.Orders.{part_of};

use crate::fault::Fault;
use crate::files::{FileFault, read_file};
use crate::words::read_number;
use std::alloc::Global;
use std::rt::Files;

/// The order that the value of `--order` gives: the text itself, or behind `@` the path of a file that holds one, of at
/// most 16,777,216 bytes, in which white space may stand around each number. A file that cannot be read gives none.
pub fn order_of<R: Files>(alloc: Global, files: &R, text: &str) -> Result<Vec<usize>, Fault>
    ensures { MatchResult result (λ order. GivesOrder text.now order.items)
        (λ fault. (fault ≡ Fault.Memory) ⊎ ((fault ≡ Fault.Order) × GivesNoOrder text.now)) }
{
    match text.strip_prefix('@') {
        Some(path) => {
            let bytes = order_file(alloc, files, path)?;
            read_spaced_order(alloc, bytes.as_slice())
        }
        None => read_order(alloc, text),
    }
}

/// The bytes of the file that holds an order.
fn order_file<R: Files>(alloc: Global, files: &R, path: &str) -> Result<Vec<u8>, Fault>
    ensures few { IfOk result (λ bytes. length bytes.items ≤ MAX_BYTES) }
    ensures fault { IfErr result (λ fault. (fault ≡ Fault.Memory) ⊎ (fault ≡ Fault.Order)) }
{
    match read_file(alloc, files, path) {
        Ok(bytes) => Ok(bytes),
        Err(FileFault::Memory) => Err(Fault::Memory),
        Err(FileFault::Failed(_)) => Err(Fault::Order),
        Err(FileFault::TooLong) => Err(Fault::Order),
    }
}

/// The order that a text writes: numbers joined by commas, or `none` for the empty order.
pub fn read_order(alloc: Global, text: &str) -> Result<Vec<usize>, Fault>
    ensures { MatchResult result (λ order. WritesOrder text.now order.items)
        (λ fault. (fault ≡ Fault.Memory) ⊎ ((fault ≡ Fault.Order)
        × ((order : List ℕ) → ¬ WritesOrder text.now order))) }
{
    if text == "none" {
        return Ok(Vec::new(alloc));
    }
    let parts: Vec<&str> = text.split(',').collect(alloc)?;
    read_numbers(alloc, parts.as_slice(), false)
}

/// The order that the bytes of a file write: as a text does, where white space may stand around each number and
/// around `none`.
fn read_spaced_order(alloc: Global, bytes: &[u8]) -> Result<Vec<usize>, Fault>
    ensures { MatchResult result (λ order. WritesSpacedOrder bytes.now order.items)
        (λ fault. (fault ≡ Fault.Memory) ⊎ ((fault ≡ Fault.Order)
        × ((order : List ℕ) → ¬ WritesSpacedOrder bytes.now order))) }
{
    let Ok(text) = str::from_utf8(bytes) else {
        return Err(Fault::Order);
    };
    if text.trim_ascii() == "none" {
        return Ok(Vec::new(alloc));
    }
    let parts: Vec<&str> = text.split(',').collect(alloc)?;
    read_numbers(alloc, parts.as_slice(), true)
}

/// The numbers that the texts write, in their order. White space around a number is dropped where `is_spaced` is true.
fn read_numbers(alloc: Global, texts: &[&str], is_spaced: bool) -> Result<Vec<usize>, Fault>
    ensures { let parts = map (λ t. part_of is_spaced t.now) texts.now in
        MatchResult result (λ numbers. WriteNumbers parts numbers.items)
        (λ fault. (fault ≡ Fault.Memory) ⊎ ((fault ≡ Fault.Order)
        × ((numbers : List ℕ) → ¬ WriteNumbers parts numbers))) }
{
    let mut numbers = Vec::with_capacity(alloc, texts.len())?;
    for text in texts {
        match read_number(plain_part(text, is_spaced)) {
            Some(number) => numbers.push(number as usize)?,
            None => return Err(Fault::Order),
        }
    }
    Ok(numbers)
}

/// The text, with no white space around it where that may stand there.
fn plain_part(text: &str, is_spaced: bool) -> &str
    ensures { result.now ≡ part_of is_spaced text.now }
{
    if is_spaced { text.trim_ascii() } else { text }
}
