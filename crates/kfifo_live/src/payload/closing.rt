//! Closing a queue of payloads.
ghost use Rattle.std.specs.Prelude.{◌≡◌, ◌<◌, ◌≤◌, ◌+◌, ◌*◌, [], All, IfOk, IsErrOf, Some, map, vec_capacity};
ghost use Rattle.core.specs.Mem.Slots.{slots_items, slots_len, IsFull};
ghost use Rattle.kfifo_live.specs.Pass.{IsPassOf, queue_of};
ghost use Rattle.kfifo_live.specs.Payloads.{HavePayloads, IsEnded, PayCloses, PayJoins, PayPassView, in_slot};
ghost use Rattle.kfifo_live.specs.Payloads.{pay_pass_view};
ghost use Rattle.kfifo_live.specs.declared.fault.CloseFault.TheVariants.{MissingPass};

use crate::closing::{read_items, read_words};
use crate::fault::CloseFault;
use crate::payload::{PayPass, PayQueue};
use crate::rule::QueueRule;
use crate::seats::join_seats;
use crate::view::{Opening, ThreadSeat, View, Words};
use atomic_table::{Closed, Table};
use kfifo_words::Shape;
use std::alloc::{AllocError, Global};
use std::marker::{Brand, Model};

/// What the slots of a closed table hold, into a list with room for it. The table's memory is given back.
fn empty_slots<T>(
    mut closed: Closed<Option<T>, Global>,
    mut slots: Vec<Option<T>>,
) -> Vec<Option<T>>
    requires full { IsFull closed.slots }
    requires room { (slots.items ≡ []) × (slots_len closed.slots ≤ vec_capacity slots) }
    ensures { result.items ≡ slots_items closed.slots }
{
    for index in 0..closed.slot_count() {
        slots.push_reserved(closed.take(index));
    }
    closed.free();
    slots
}

/// The payloads in the slots of these tokens, in turn.
fn pick_payloads<T: Drop>(
    alloc: Global,
    mut slots: Vec<Option<T>>,
    tokens: &[u32],
) -> Result<Vec<T>, AllocError>
    requires { HavePayloads slots.items tokens.now }
    ensures { IfOk result (λ payloads. map Some payloads.items ≡ map (in_slot slots.items) tokens.now) }
{
    let mut payloads = Vec::with_capacity(alloc, tokens.len())?;
    for token in tokens {
        let Some(payload) = slots[*token as usize - 1].take() else {
            unreachable!()
        };
        payloads.push_reserved(payload);
    }
    Ok(payloads)
}

/// A pass of a queue with payloads that makes no call any more.
///
/// Clauses see it as the pass.
#[derive(Drop)]
pub(crate) struct EndedPass<T: Drop> {
    pub(crate) thread: u32,
    pub(crate) seat: ThreadSeat<T>,
}

impl<T: Drop> Model for EndedPass<T> {
    ghost Value = { PayPassView T };

    ghost view = { λ p. pay_pass_view p.seat.table_id p.thread p.seat.me.0 };

    ghost invariant = { λ p. IsEnded p.thread p.seat.me };
}

impl<T: Drop> PayPass<T> {
    /// The pass, which makes no call any more.
    fn into_ended(self) -> EndedPass<T>
        ensures { result ≡ self }
    {
        let PayPass {
            thread,
            seat,
            at_home: _,
        } = self;
        EndedPass { thread, seat }
    }
}

/// The passes, which make no call any more.
fn end_all<T: Drop>(alloc: Global, passes: Vec<PayPass<T>>) -> Result<Vec<EndedPass<T>>, AllocError>
    ensures { IfOk result (λ ended. ended.items ≡ passes.items) }
{
    let mut ended = Vec::with_capacity(alloc, passes.len())?;
    for pass in passes {
        ended.push(pass.into_ended())?;
    }
    Ok(ended)
}

/// A seat with the parts of all passes.
fn join_all<T: Drop>(
    shared: &Words<T>,
    mut seat: ThreadSeat<T>,
    mut passes: Vec<EndedPass<T>>,
) -> ThreadSeat<T>
    requires table { (seat.table_id ≡ shared.now.table_id) × (0 < shared.now.table_id.words) }
    requires of { All (λ p. IsPassOf (queue_of seat.table_id seat.me.0.opened) p.pass) passes.items }
    ensures table { result.table_id ≡ seat.table_id }
    ensures all { PayJoins seat.me.0 passes.items result.me.0 }
{
    while let Some(pass) = passes.pop() {
        let EndedPass {
            thread: _,
            seat: other,
        } = pass;
        join_seats::<_, Brand>(shared, &mut seat, other);
    }
    seat
}

/// Closes a table by several passes of its queue, and returns the payloads that are left, as `PayQueue::close_with`.
pub(crate) fn close_payloads<T: Drop>(
    alloc: Global,
    table: Table<Option<T>, View<T>, Opening, QueueRule, Global>,
    shape: Shape,
    slots: usize,
    pass: EndedPass<T>,
    others: Vec<EndedPass<T>>,
) -> Result<Vec<T>, CloseFault>
    requires key { shape ≡ table.shared.key.shape }
    requires words { table.shared.table_id.words ≡ 2 + shape.n * shape.k }
    requires slots { table.shared.table_id.slots ≡ slots }
    requires pass { IsPassOf (queue_of table.shared.table_id table.shared.key) pass.pass }
    requires others { All (λ p. IsPassOf (queue_of table.shared.table_id table.shared.key) p.pass) others.items }
    ensures ok { IfOk result (λ payloads. PayCloses (queue_of table.shared.table_id table.shared.key) pass others.items
        payloads.items) }
    ensures missing { ¬ IsErrOf result MissingPass }
{
    let EndedPass { thread: _, seat } = pass;
    // The room is made first: after a refusal the table still drops what it holds.
    let slots = Vec::with_capacity(alloc, slots)?;
    let seat = join_all(&table.shared, seat, others);
    let closed = table.close_with(seat);
    let words = read_words(alloc, &closed, 2 + shape.n() as usize * shape.k() as usize);
    let slots = empty_slots(closed, slots);
    let tokens = read_items(alloc, &shape, words?.as_slice())?;
    let payloads = pick_payloads(alloc, slots, tokens.as_slice())?;
    Ok(payloads)
}

impl<T: Drop> PayQueue<T> {
    /// The payloads that are left: segment by segment from the head's round the ring, within a segment by slot number.
    /// Each is the one that was given with the enqueue that put its token. The one schedule of all calls of the queue,
    /// which begins with what the pass has seen and has no further event of it, keeps the promise of the queue. With
    /// one thread it is what the pass has seen.
    ///
    /// Memory where an allocation failed, the payloads then being dropped. MissingPass never comes: the other passes
    /// may still be anywhere, and can do nothing more.
    pub fn close(self, alloc: Global, pass: PayPass<T>) -> Result<Vec<T>, CloseFault>
        requires { IsPassOf self pass.pass }
        ensures ok { IfOk result (λ payloads. PayCloses self pass [] payloads.items) }
        ensures missing { ¬ IsErrOf result MissingPass }
    {
        self.close_with(alloc, pass, Vec::new(alloc))
    }

    /// As `close`, by several passes: the one schedule begins with what each of them has seen and has no further event
    /// of theirs. So what one of them took is not returned again.
    pub fn close_with(
        self,
        alloc: Global,
        pass: PayPass<T>,
        others: Vec<PayPass<T>>,
    ) -> Result<Vec<T>, CloseFault>
        requires pass { IsPassOf self pass.pass }
        requires others { All (λ p. IsPassOf self p.pass) others.items }
        ensures ok { IfOk result (λ payloads. PayCloses self pass others.items payloads.items) }
        ensures missing { ¬ IsErrOf result MissingPass }
    {
        let PayQueue {
            table,
            shape,
            threads,
            tokens,
        } = self;
        let others = end_all(alloc, others)?;
        let slots = threads as usize * tokens as usize;
        close_payloads(alloc, table, shape, slots, pass.into_ended(), others)
    }
}
