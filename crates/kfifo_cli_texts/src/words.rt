//! Words of the command line: numbers, and the calls of scripts.
ghost use Rattle.std.specs.Prelude.{◌≡◌, ℕ, ◌+◌, ◌^◌, ◌<◌, ◌≤◌, ◌↔◌, ◌⊎◌, IsTrue, List, MatchOption, IfOk, IfErr, map};
ghost use Rattle.kfifo_cli_requests.specs.Digits.{IsDigits};
ghost use Rattle.kfifo_cli_texts.specs.Words.{Cuts, EachWrites, WritesNumber, WritesStart, WritesCall};
ghost use Rattle.kfifo_cli_texts.specs.Words.{WritesCalls, IsFirstUnread};
ghost use Rattle.kfifo_cli_texts.specs.Scripts.{IsFirstUnreadScript, WriteScripts, WritesScript, texts_of};
ghost use Rattle.kfifo_machine.specs.declared.event.Begin.{Begin};

use crate::fault::Fault;
use kfifo_machine::Begin;
use kfifo_model::MAX_ITEM;
use std::alloc::{AllocError, Global};

/// Whether each byte is a decimal digit.
fn is_digits(text: &str) -> bool
    ensures { IsTrue result ↔ IsDigits text.now }
{
    text.as_bytes().iter().all(|byte| byte.is_ascii_digit())
}

/// The number that 1 to 10 decimal digits write. Leading zeros are read; a sign, a space or an empty
/// text is none.
pub fn read_number(text: &str) -> Option<u64>
    ensures { MatchOption result ((number : ℕ) → ¬ WritesNumber text.now number) (WritesNumber text.now) }
{
    if text.len() > 10 || !is_digits(text) {
        return None;
    }
    text.parse().ok()
}

/// The number that a text writes, where it is at least `least` and below `limit`.
pub fn read_within(text: &str, least: u64, limit: u64) -> Option<u32>
    requires { limit ≤ 2 ^ 32 }
    ensures { MatchOption result
        ((number : ℕ) → least ≤ number → number < limit → ¬ WritesNumber text.now number)
        (λ number. WritesNumber text.now number × (least ≤ number) × (number < limit)) }
{
    let number = read_number(text)?;
    if least <= number && number < limit {
        Some(number as u32)
    } else {
        None
    }
}

/// What stands before the first colon of a word, and the start below k that stands behind it: 0 where
/// there is no colon.
fn read_start(word: &str, k: u32) -> Option<(&str, u32)>
    requires { 1 ≤ k }
    ensures { MatchOption result
        ((name rest : List ℕ) (start : ℕ) → Cuts word.now name rest → start < k → ¬ WritesStart rest start)
        (λ cut. (rest : List ℕ) × Cuts word.now cut.0.now rest × WritesStart rest cut.1 × (cut.1 < k)) }
{
    match word.split_once(':') {
        Some((name, number)) => Some((name, read_within(number, 0, u64::from(k))?)),
        None => Some((word, 0)),
    }
}

/// The call that a word writes: `e<item>`, `e<item>:<start>`, `d` or `d:<start>`, with an item from 1 to
/// 2^24 - 1 and a start below k, which is 0 where it is left out.
pub fn read_call(word: &str, k: u32, turns: u16) -> Option<Begin>
    requires { 1 ≤ k }
    ensures { MatchOption result ((call : Begin) → ¬ WritesCall k turns word.now call) (WritesCall k turns word.now) }
{
    let (name, start) = read_start(word, k)?;
    match name.strip_prefix('e') {
        Some(number) => {
            let item = read_within(number, 1, MAX_ITEM as u64 + 1)?;
            Some(Begin::Enqueue { item, start, turns })
        }
        None if name == "d" => Some(Begin::Dequeue { start, turns }),
        None => None,
    }
}

/// The calls that the words write, in their order. The fault names the first word that writes none, or
/// says that memory is short.
pub fn read_calls(alloc: Global, texts: &[&str], k: u32, turns: u16) -> Result<Vec<Begin>, Fault>
    requires { 1 ≤ k }
    ensures calls { IfOk result (λ calls. WritesCalls k turns texts.now calls.items) }
    ensures fault { IfErr result (λ fault. (fault ≡ Fault.Memory)
        ⊎ ((place : ℕ) × (fault ≡ Fault.Word (place + 1)) × IsFirstUnread k turns texts.now place)) }
{
    let mut calls = Vec::with_capacity(alloc, texts.len())?;
    for (index, text) in texts.iter().enumerate() {
        match read_call(text, k, turns) {
            Some(call) => calls.push(call)?,
            None => return Err(Fault::Word(index + 1)),
        }
    }
    Ok(calls)
}

/// The scripts that the words write, one each, in their order. The fault names the first word that writes none, or
/// says that memory is short.
pub fn read_scripts(
    alloc: Global,
    texts: &[&str],
    k: u32,
    turns: u16,
) -> Result<Vec<Vec<Begin>>, Fault>
    requires { 1 ≤ k }
    ensures scripts { IfOk result (λ scripts.
        WriteScripts k turns texts.now (map (λ script. script.items) scripts.items)) }
    ensures fault { IfErr result (λ fault. (fault ≡ Fault.Memory)
        ⊎ ((place : ℕ) × (fault ≡ Fault.Word (place + 1)) × IsFirstUnreadScript k turns texts.now place)) }
{
    let mut scripts = Vec::with_capacity(alloc, texts.len())?;
    for (index, text) in texts.iter().enumerate() {
        let read = read_script(alloc, text, k, turns)?;
        match read {
            Some(script) => scripts.push(script)?,
            None => {
                let number = index + 1;
                return Err(Fault::Word(number));
            }
        }
    }
    Ok(scripts)
}

/// The calls of a script, that is of words joined by commas; none where one of them writes no call.
fn read_script(
    alloc: Global,
    text: &str,
    k: u32,
    turns: u16,
) -> Result<Option<Vec<Begin>>, AllocError>
    requires { 1 ≤ k }
    ensures { IfOk result (λ read. MatchOption read ((script : List Begin) → ¬ WritesScript k turns text.now script)
        (λ script. WritesScript k turns text.now script.items)) }
{
    let parts: Vec<&str> = text.split(',').collect(alloc)?;
    read_each_call(alloc, parts.as_slice(), k, turns)
}

/// The calls that the texts write, in their order; none where one of them writes none.
fn read_each_call(
    alloc: Global,
    texts: &[&str],
    k: u32,
    turns: u16,
) -> Result<Option<Vec<Begin>>, AllocError>
    requires { 1 ≤ k }
    ensures { IfOk result (λ read. MatchOption read
        ((calls : List Begin) → ¬ EachWrites (WritesCall k turns) (texts_of texts.now) calls)
        (λ calls. EachWrites (WritesCall k turns) (texts_of texts.now) calls.items)) }
{
    let mut calls = Vec::with_capacity(alloc, texts.len())?;
    for text in texts {
        match read_call(text, k, turns) {
            Some(call) => calls.push(call)?,
            None => return Ok(None),
        }
    }
    Ok(Some(calls))
}
