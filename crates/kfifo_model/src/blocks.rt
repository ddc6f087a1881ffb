//! Calls that got an item, in blocks by when it was put, so that the calls that overtake an item are counted fast.
ghost use Rattle.std.specs.Prelude.{ℕ, ◌≡◌, ◌≤◌, ◌<◌, List, map, length, IfOk, All, IsPermutation, count_by};
ghost use Rattle.std.specs.List.{flat_map};
ghost use Rattle.std.specs.List.Sorted.{IsNonDecreasingBy};
ghost use Rattle.kfifo_model.specs.Rivals.{is_beaten};
ghost use Rattle.kfifo_model.specs.Blocks.{IsBlock, IsSpan};
ghost use Rattle.kfifo_model.specs.declared.rivals.Rival.{Rival};

use crate::rivals::Rival;
use std::alloc::{AllocError, Global};
use std::marker::Model;

/// How many rivals a block has at most.
// About the square root of the most calls, times two: an item asks one block rival by rival and each other block, 128
// at most, by one binary search. Smaller blocks would be more searches, larger ones longer looks.
const BLOCK: usize = 512;

/// Rivals, with the first and the last of the steps at which their items were put.
///
/// If all of them were put after an item, their last steps alone tell which of them overtake it. So a search among
/// these finds how many do.
///
/// Clauses see it as the list of its rivals.
#[derive(Drop)]
pub(crate) struct Block {
    rivals: Vec<Rival>,
    earliest: u64,
    latest: u64,
    /// The last steps of the rivals, in order.
    ends: Vec<u64>,
}

impl Model for Block {
    ghost Value = { List Rival };

    ghost view = { λ b. b.rivals.items };

    ghost invariant = { λ b. IsBlock b.rivals.items b.earliest b.latest b.ends.items };
}

/// Whether a rival overtakes an item that was put by a call that ended at a step, and got by one that began at another.
fn beats(last: u64, got: Option<u64>, rival: &Rival) -> bool
    ensures { result ≡ is_beaten last got rival.now }
{
    last < rival.put_first
        && match got {
            Some(first) => rival.got_last < first,
            None => true,
        }
}

/// How many rivals overtake it.
fn count_beats(rivals: &[Rival], last: u64, got: Option<u64>) -> usize
    ensures { result ≡ count_by (λ r. is_beaten last got r) rivals.now }
{
    rivals
        .iter()
        .filter(|rival| beats(last, got, rival))
        .count()
}

/// The last steps of rivals, in order.
fn ends_of(alloc: Global, rivals: &[Rival]) -> Result<Vec<u64>, AllocError>
    ensures ends { IfOk result (λ v. IsPermutation (map (λ r. r.got_last) rivals.now) v.items) }
    ensures sorted { IfOk result (λ v. IsNonDecreasingBy (λ (n : ℕ). n) v.items) }
{
    let mut ends = Vec::with_capacity(alloc, rivals.len())?;
    for rival in rivals {
        ends.push(rival.got_last)?;
    }
    ends.sort()?;
    Ok(ends)
}

/// The first and the last of the steps at which rivals' items were put.
fn span_of(rivals: &[Rival]) -> (u64, u64)
    ensures { IsSpan rivals.now result.0 result.1 }
{
    let mut earliest = u64::MAX;
    let mut latest = 0;
    for rival in rivals {
        earliest = earliest.min(rival.put_first);
        latest = latest.max(rival.put_first);
    }
    (earliest, latest)
}

impl Block {
    /// A block of these rivals.
    fn of(alloc: Global, rivals: Vec<Rival>) -> Result<Block, AllocError>
        ensures { IfOk result (λ b. b ≡ rivals.items) }
    {
        let (earliest, latest) = span_of(&rivals);
        let ends = ends_of(alloc, &rivals)?;
        Ok(Block {
            rivals,
            earliest,
            latest,
            ends,
        })
    }

    /// How many of its rivals overtake an item that was put by a call that ended at a step, and got by one that
    /// began at another.
    fn count(&self, last: u64, got: Option<u64>) -> usize
        ensures { result ≡ count_by (λ r. is_beaten last got r) self.now }
    {
        if self.latest <= last {
            return 0;
        }
        if self.earliest <= last {
            return count_beats(&self.rivals, last, got);
        }
        match got {
            Some(first) => self.ends.partition_point(|end| *end < first),
            None => self.rivals.as_slice().len(),
        }
    }
}

/// The rivals in blocks, in their order.
pub(crate) fn blocks_of(alloc: Global, rivals: &[Rival]) -> Result<Vec<Block>, AllocError>
    ensures { IfOk result (λ v. flat_map (λ b. b) v.items ≡ rivals.now) }
{
    let mut blocks = Vec::new(alloc);
    let mut from = 0;
    while from < rivals.len() {
        let to = rivals.len().min(from + BLOCK);
        let some = Vec::from_slice(alloc, &rivals[from..to])?;
        blocks.push(Block::of(alloc, some)?)?;
        from = to;
    }
    Ok(blocks)
}

/// How many rivals of these blocks overtake such an item.
pub(crate) fn count_in(blocks: &[Block], last: u64, got: Option<u64>) -> usize
    requires { length (flat_map (λ b. b) blocks.now) < 9223372036854775808 }
    ensures { result ≡ count_by (λ r. is_beaten last got r) (flat_map (λ b. b) blocks.now) }
{
    let mut count = 0;
    for block in blocks {
        count += block.count(last, got);
    }
    count
}
