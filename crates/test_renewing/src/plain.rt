//! The calls that the tests make, with nothing said of them but that handles stay in their queue, as a close wants: no
//! test needs more, and proofs of tests are faster without.
ghost use Rattle.kfifo_renewing.specs.Renewing.{AreOfOneQueue};
ghost use Rattle.kfifo_renewing.specs.Renewing.{IsOfSameQueue};

use kfifo_live::{CloseFault, Given, SPARE_TOKENS, Sizes, Taken};
use kfifo_renewing::{RenewFault, Renewals, RenewingHandle};
use kfifo_words::Shape;
use std::alloc::Global;
use std::marker::Model;

pub fn give<T: Drop>(handle: &mut RenewingHandle<T>, payload: T) -> Given<T>
    ensures { IsOfSameQueue handle.old handle.new }
{
    handle.give(payload)
}

pub fn take<T: Drop>(handle: &mut RenewingHandle<T>) -> Taken<T>
    ensures { IsOfSameQueue handle.old handle.new }
{
    handle.take()
}

/// The handles of one queue. A call is that of the handle in this place; with no handle there it returns what no test
/// wants.
#[derive(Drop)]
pub struct Handles<T: Drop> {
    handles: Vec<RenewingHandle<T>>,
}

impl<T: Drop> Model for Handles<T> {
    ghost Value = { Unit {0} };

    ghost view = { λ h. tt };

    ghost invariant = { λ h. AreOfOneQueue h.handles.items };
}

impl<T: Drop> Handles<T> {
    /// The handles of a queue with these sizes.
    pub fn open(alloc: Global, sizes: Sizes, renewals: Renewals) -> Result<Handles<T>, RenewFault> {
        let handles = kfifo_renewing::open_with(alloc, sizes, renewals)?;
        Ok(Handles { handles })
    }

    pub fn give(&mut self, place: usize, payload: T) -> Given<T> {
        let Some(handle) = self.handles.get_mut(place) else {
            return Given::Worn(payload);
        };
        give(handle, payload)
    }

    pub fn take(&mut self, place: usize) -> Taken<T> {
        let Some(handle) = self.handles.get_mut(place) else {
            return Taken::Worn;
        };
        take(handle)
    }

    pub fn len(&mut self, place: usize) -> usize {
        let Some(handle) = self.handles.get_mut(place) else {
            return usize::MAX;
        };
        handle.len()
    }

    pub fn is_empty(&mut self, place: usize) -> bool {
        let Some(handle) = self.handles.get_mut(place) else {
            return false;
        };
        handle.is_empty()
    }

    pub fn generations(&mut self, place: usize) -> Option<usize> {
        let Some(handle) = self.handles.get_mut(place) else {
            return None;
        };
        handle.generations()
    }

    pub fn lacks_memory(&self, place: usize) -> bool {
        let Some(handle) = self.handles.get(place) else {
            return true;
        };
        handle.lacks_memory()
    }

    /// Takes the last handle out.
    pub fn pop(&mut self) -> Option<RenewingHandle<T>> {
        self.handles.pop()
    }

    pub fn into_vec(self) -> Vec<RenewingHandle<T>>
        ensures { AreOfOneQueue result.items }
    {
        self.handles
    }

    pub fn close(self, alloc: Global) -> Result<Vec<T>, CloseFault> {
        let closed = kfifo_renewing::close(alloc, self.handles)?;
        Ok(closed.left)
    }
}

/// The handles of a queue whose reserve is half of its versions. Each has so many tokens and its spare ones.
pub fn open<T: Drop>(
    alloc: Global,
    shape: Shape,
    threads: u32,
    tokens: u32,
) -> Result<Handles<T>, RenewFault> {
    let tokens = tokens.saturating_add(SPARE_TOKENS);
    open_with(alloc, shape, threads, tokens, shape.last() / 2)
}

pub fn open_with<T: Drop>(
    alloc: Global,
    shape: Shape,
    threads: u32,
    tokens: u32,
    reserve: u64,
) -> Result<Handles<T>, RenewFault> {
    let sizes = Sizes {
        shape,
        threads,
        tokens,
    };
    let renewals = Renewals {
        reserve,
        generations: 1,
    };
    Handles::open(alloc, sizes, renewals)
}
