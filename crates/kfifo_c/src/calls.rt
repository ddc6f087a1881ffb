//! The calls of C by one handle.
ghost use Rattle.std.specs.Prelude.{◌≡◌, ℕ, None, Option, All, ⊤};
ghost use Rattle.kfifo_model.specs.declared.calls.Answer.{Answer as Answered};
ghost use Rattle.kfifo_machine.specs.declared.event.Begin.TheVariants.{Enqueue, Dequeue};
ghost use Rattle.kfifo_c.specs.Behind.{Items};
ghost use Rattle.kfifo_c.specs.Exports.{Tries, MayEnqueue, MayDequeue, MayPut, MayRead, CalledFrom, Puts, Gets};
ghost use Rattle.kfifo_c.specs.Exports.{HasCounted, HasRead, count_of, number_of, item_after, read_number, word_after};
ghost use Rattle.kfifo_c.specs.Handles.{WereClosed, fields_of};

use crate::handle::Handle;
use crate::handles::abandon;
use crate::seat::Seat;
use crate::status::{BAD_CALL, DONE, status};
use kfifo_model::{Answer, MAX_ITEM};
use std::alloc::Global;

/// Puts an item into the queue of the handle, as `Pass::enqueue`, and returns its answer's number. Returns BAD_CALL,
/// with nothing done, where the handle is closed or of another kind, the item is not 1 to 2^24 - 1, `start` not below
/// k, or `turns` 0.
#[unsafe(no_mangle)]
pub extern "C" fn kfifo_c_enqueue(pass: &mut Handle, item: u32, start: u32, turns: u16) -> u32
    ensures answer { (answer : Option Answered) × (result ≡ number_of answer)
        × Tries Items (MayEnqueue item start turns) (CalledFrom (Enqueue item start turns)) answer pass.old.held.value
        pass.new.held.value }
    ensures fields { fields_of pass.new ≡ fields_of pass.old }
{
    // The look at the handle stands between two tests of registers: else the compiler makes one of them, and a longer
    // one.
    if item < 1 || item > MAX_ITEM || !pass.has_start(start) {
        return BAD_CALL;
    }
    let answer = pass.held.seat_mut::<Seat>().enqueue(item, start, turns);
    status(answer)
}

/// Takes one of the k oldest items out of the queue of the handle, as `Pass::dequeue`, writes the item if there is one,
/// and returns its answer's number. Returns BAD_CALL, with nothing done, where the handle is closed or of another kind,
/// `start` not below k, or `turns` 0.
#[unsafe(no_mangle)]
pub extern "C" fn kfifo_c_dequeue(pass: &mut Handle, item: &mut u32, start: u32, turns: u16) -> u32
    ensures answer { (answer : Option Answered) × (result ≡ number_of answer) × (item.new ≡ item_after item.old answer)
        × Tries Items (MayDequeue start turns) (CalledFrom (Dequeue start turns)) answer pass.old.held.value
        pass.new.held.value }
    ensures fields { fields_of pass.new ≡ fields_of pass.old }
{
    if !pass.has_start(start) {
        return BAD_CALL;
    }
    let answer = pass.held.seat_mut::<Seat>().dequeue(start, turns);
    if let Some(Answer::Got(taken)) = answer {
        *item = taken;
    }
    status(answer)
}

/// Puts an item into the queue of the handle, with nothing to choose: from the handle's start, in up to 65,535 rounds.
/// Returns the answer's number, or BAD_CALL, with nothing done, where the handle is closed or of another kind, or the
/// item is not 1 to 2^24 - 1.
#[unsafe(no_mangle)]
pub extern "C" fn kfifo_c_put(pass: &mut Handle, item: u32) -> u32
    ensures answer { (answer : Option Answered) × (result ≡ number_of answer)
        × Tries Items (MayPut item) (Puts item) answer pass.old.held.value pass.new.held.value }
    ensures fields { fields_of pass.new ≡ fields_of pass.old }
{
    if item < 1 || item > MAX_ITEM || pass.starts == 0 {
        return BAD_CALL;
    }
    let answer = pass.held.seat_mut::<Seat>().put(item);
    status(Some(answer))
}

/// Takes one of the k oldest items out of the queue of the handle, with nothing to choose: from the handle's start, in
/// up to 65,535 rounds. Writes the item if there is one. Returns the answer's number, or BAD_CALL, with nothing done,
/// where the handle is closed or of another kind.
#[unsafe(no_mangle)]
pub extern "C" fn kfifo_c_get(pass: &mut Handle, item: &mut u32) -> u32
    ensures answer { (answer : Option Answered) × (result ≡ number_of answer) × (item.new ≡ item_after item.old answer)
        × Tries Items (λ _. ⊤) Gets answer pass.old.held.value pass.new.held.value }
    ensures fields { fields_of pass.new ≡ fields_of pass.old }
{
    if pass.starts == 0 {
        return BAD_CALL;
    }
    let answer = pass.held.seat_mut::<Seat>().get();
    if let Answer::Got(got) = answer {
        *item = got;
    }
    status(Some(answer))
}

/// Reads the word of this index, as `Pass::word`. Returns BAD_CALL, with nothing done, where the handle is closed or of
/// another kind, or there is no such word.
#[unsafe(no_mangle)]
pub extern "C" fn kfifo_c_word(pass: &mut Handle, index: usize, word: &mut u64) -> u32
    ensures read { (read : Option ℕ) × (result ≡ read_number read) × (word.new ≡ word_after word.old read)
        × Tries Items (MayRead index) (HasRead index) read pass.old.held.value pass.new.held.value }
    ensures fields { fields_of pass.new ≡ fields_of pass.old }
{
    if pass.starts == 0 {
        return BAD_CALL;
    }
    match pass.held.seat_mut::<Seat>().word(index) {
        Some(bits) => {
            *word = bits;
            DONE
        }
        None => BAD_CALL,
    }
}

/// About how many items are in the queue of the handle, as `Queue::len`. Returns 0 where the handle is closed or of
/// another kind.
#[unsafe(no_mangle)]
pub extern "C" fn kfifo_c_len(pass: &mut Handle) -> usize
    ensures counted { (counted : Option ℕ) × (result ≡ count_of counted)
        × Tries Items (λ _. ⊤) HasCounted counted pass.old.held.value pass.new.held.value }
    ensures fields { fields_of pass.new ≡ fields_of pass.old }
{
    if pass.starts == 0 {
        return 0;
    }
    pass.held.seat_mut::<Seat>().len()
}

/// Closes these handles. With the last open handle of a queue the queue goes, and the items that are left in it.
#[unsafe(no_mangle)]
pub extern "C" fn kfifo_c_abandon(alloc: Global, passes: &mut [Handle])
    ensures { WereClosed 1 passes.old passes.new }
{
    abandon::<Seat>(alloc, passes);
}
