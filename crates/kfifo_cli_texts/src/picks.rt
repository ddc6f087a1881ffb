//! Picks on the command line: groups of them, joined by commas.
ghost use Rattle.std.specs.Prelude.{◌≡◌, ◌↔◌, ◌⊎◌, ◌≤◌, List, IsTrue, IfOk, IfErr, MatchOption, MatchResult, map};
ghost use Rattle.kfifo_cli_texts.specs.declared.picks.Group.{Group as GroupData};
ghost use Rattle.kfifo_cli_texts.specs.Picks.{GivesGroups, GivesNoGroups, WritesGroup, WritesGroups, count_of};
ghost use Rattle.kfifo_cli_texts.specs.Words.{EachWrites};
ghost use Rattle.kfifo_cli_texts.specs.Scripts.{texts_of};

use crate::fault::Fault;
use crate::words::read_within;
use std::alloc::{AllocError, Global};

/// The most picks of a command line.
pub const MAX_PICKS: u32 = 16_777_216;

/// One thread is picked so many times in a row, at least once.
#[derive(Clone, Copy, PartialEq, Eq, Debug)]
pub struct Group {
    /// The number of the thread.
    pub thread: u32,
    /// How often it is picked.
    pub count: u32,
}

/// The groups that the value of `--picks` gives: groups joined by commas, or `none`, of at most 16,777,216 picks in
/// all.
pub fn read_picks(alloc: Global, text: &str) -> Result<Vec<Group>, Fault>
    ensures { MatchResult result (λ groups. GivesGroups text.now groups.items)
        (λ fault. (fault ≡ Fault.Memory) ⊎ ((fault ≡ Fault.Picks) × GivesNoGroups text.now)) }
{
    let read = read_groups(alloc, text)?;
    match read {
        Some(groups) => {
            if are_few(groups.as_slice()) {
                Ok(groups)
            } else {
                Err(Fault::Picks)
            }
        }
        None => Err(Fault::Picks),
    }
}

/// Whether these are at most 16,777,216 picks.
fn are_few(groups: &[Group]) -> bool
    ensures { IsTrue result ↔ (count_of groups.now ≤ MAX_PICKS) }
{
    let mut left = MAX_PICKS;
    for group in groups {
        if left < group.count {
            return false;
        }
        left -= group.count;
    }
    true
}

/// The groups that a text writes; none where it writes none.
fn read_groups(alloc: Global, text: &str) -> Result<Option<Vec<Group>>, AllocError>
    ensures { IfOk result (λ read. MatchOption read ((groups : List GroupData) → ¬ WritesGroups text.now groups)
        (λ groups. WritesGroups text.now groups.items)) }
{
    if text == "none" {
        return Ok(Some(Vec::new(alloc)));
    }
    let parts: Vec<&str> = text.split(',').collect(alloc)?;
    read_each_group(alloc, parts.as_slice())
}

/// The groups that the texts write, in their order; none where one of them writes none.
fn read_each_group(alloc: Global, texts: &[&str]) -> Result<Option<Vec<Group>>, AllocError>
    ensures { IfOk result (λ read. MatchOption read
        ((groups : List GroupData) → ¬ EachWrites WritesGroup (texts_of texts.now) groups)
        (λ groups. EachWrites WritesGroup (texts_of texts.now) groups.items)) }
{
    let mut groups = Vec::with_capacity(alloc, texts.len())?;
    for text in texts {
        match read_group(text) {
            Some(group) => groups.push(group)?,
            None => return Ok(None),
        }
    }
    Ok(Some(groups))
}

/// The group that a text writes: `<thread>`, or `<thread>x<count>` with a count of at least 1.
pub fn read_group(text: &str) -> Option<Group>
    ensures { MatchOption result ((group : GroupData) → ¬ WritesGroup text.now group) (WritesGroup text.now) }
{
    match text.split_once('x') {
        Some((name, often)) => {
            let thread = read_within(name, 0, 4_294_967_296)?;
            let count = read_within(often, 1, 4_294_967_296)?;
            Some(Group { thread, count })
        }
        None => {
            let thread = read_within(text, 0, 4_294_967_296)?;
            Some(Group { thread, count: 1 })
        }
    }
}
