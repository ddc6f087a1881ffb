//! What the search for an order knows of a history from the beginning.

use crate::sorting::sort_nearly;
use crate::tallies::{item_ranges, near_place};
use kfifo_model::{Call, Effect};
use std::alloc::{AllocError, Global};
use std::collections::BTreeMap;

/// What the search knows of a call.
#[derive(Clone, Copy)]
pub(crate) struct Fact {
    /// What it does to the list of items.
    pub effect: Effect,
    /// The number of its item, or 0 where it has none.
    pub item: usize,
    /// Its first step.
    pub first: u64,
    /// Its last step, or the greatest number where it has not ended.
    pub last: u64,
    /// Whether it has ended.
    pub ended: bool,
}

/// What is known of no call.
const NO_FACT: Fact = Fact {
    effect: Effect::Refused,
    item: 0,
    first: u64::MAX,
    last: u64::MAX,
    ended: false,
};

/// What the search knows of a history.
#[derive(Drop)]
pub(crate) struct Facts {
    /// Of each call.
    calls: Vec<Fact>,
    /// The calls that have ended, in ascending order of last step.
    pub due: Vec<usize>,
    /// All items have lower numbers.
    pub items: usize,
}

/// The numbers of items. Where items lie close together, a number says how far an item is from the least of them; else
/// numbers stand in a tree.
#[derive(Drop)]
struct Numbers {
    /// The item with the number 0, where items lie close together.
    least: u32,
    /// How many numbers there are for items that lie close together.
    near: usize,
    /// The numbers of all other items, from 0 on in the order in which these first occur.
    far: BTreeMap<u32, usize>,
}

impl Numbers {
    /// Numbers for the items of these calls.
    fn new(alloc: Global, calls: &[Call]) -> Numbers {
        let (puts, gets) = item_ranges(calls);
        let range = puts.with(gets);
        Numbers {
            least: range.least,
            near: range.few(calls.len()),
            far: BTreeMap::new(alloc),
        }
    }

    /// The number of an item: the next one where it is new.
    fn of(&mut self, item: u32) -> Result<usize, AllocError> {
        if let Some(number) = near_place(self.least, self.near, item) {
            return Ok(number);
        }
        if let Some(number) = self.far.get(&item).copied() {
            return Ok(number);
        }
        let number = self.far.len();
        self.far.insert(item, number)?;
        Ok(number)
    }

    /// A number above those of all items.
    fn bound(&self) -> usize {
        self.near.max(self.far.len())
    }
}

/// What is known of a call.
fn fact_of(call: &Call, numbers: &mut Numbers) -> Result<Fact, AllocError> {
    let effect = call.effect();
    let item = match effect {
        Effect::Adds(item) | Effect::Takes(item) => numbers.of(item)?,
        Effect::FindsNone | Effect::Refused | Effect::Wrong => 0,
    };
    let last = match call.end {
        Some(end) => end.last,
        None => u64::MAX,
    };
    Ok(Fact {
        effect,
        item,
        first: call.first,
        last,
        ended: call.end.is_some(),
    })
}

/// What is known of a call by its number.
fn fact_at(facts: &[Fact], n: usize) -> Fact {
    facts.get(n).copied().unwrap_or(NO_FACT)
}

/// The calls that have ended, in ascending order of last step.
fn by_end(alloc: Global, facts: &[Fact]) -> Result<Vec<usize>, AllocError> {
    let mut ends = Vec::with_capacity(alloc, facts.len())?;
    for (n, fact) in facts.iter().enumerate() {
        if fact.ended {
            ends.push((fact.last as usize, n, 0))?;
        }
    }
    sort_nearly(&mut ends);
    ends.iter().map(|(_last, n, _)| *n).collect(alloc)
}

impl Facts {
    /// What is known of these calls.
    pub(crate) fn of(alloc: Global, calls: &[Call]) -> Result<Facts, AllocError> {
        let mut numbers = Numbers::new(alloc, calls);
        let mut facts = Vec::with_capacity(alloc, calls.len())?;
        for call in calls {
            facts.push(fact_of(call, &mut numbers)?)?;
        }
        Ok(Facts {
            due: by_end(alloc, &facts)?,
            calls: facts,
            items: numbers.bound(),
        })
    }

    /// How many calls there are.
    pub(crate) fn count(&self) -> usize {
        self.calls.len()
    }

    /// What is known of this call.
    pub(crate) fn at(&self, n: usize) -> Fact {
        fact_at(&self.calls, n)
    }
}
