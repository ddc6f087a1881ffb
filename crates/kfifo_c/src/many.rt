//! Many calls of C by one handle.
ghost use Rattle.std.specs.Prelude.{◌≡◌, ◌++◌, ◌↔◌, ℕ, ⊤, None, Option, List, IsTrue, drop, length};
ghost use Rattle.kfifo_model.specs.declared.calls.Answer.{Answer as Answered};
ghost use Rattle.kfifo_model.specs.declared.calls.Answer.TheVariants.{Done, Got};
ghost use Rattle.kfifo_c.specs.Behind.{Items};
ghost use Rattle.kfifo_c.specs.Exports.{Tries, Puts, Gets, number_of};
ghost use Rattle.kfifo_c.specs.Many.{AreItems, GivesEach, TakesEach, last_number};
ghost use Rattle.kfifo_c.specs.Handles.{fields_of};

use crate::handle::Handle;
use crate::seat::Seat;
use crate::status::{BAD_CALL, DONE, status};
use kfifo_model::{Answer, MAX_ITEM};

/// Whether each of these is an item.
fn are_items(items: &[u32]) -> bool
    ensures { IsTrue result ↔ AreItems items.now }
{
    for item in items {
        if *item < 1 || *item > MAX_ITEM {
            return false;
        }
    }
    true
}

impl Seat {
    /// Puts these items, one after the other, up to the first that the queue does not take.
    #[inline(always)]
    fn put_each(&mut self, items: &[u32], put: &mut usize) -> u32
        requires { AreItems items.now }
        ensures each { (last : Option Answered) × (result ≡ last_number number_of (Some last))
            × GivesEach Puts Done items.now put.new last self.old self.new }
        ensures queue { self.new.queue ≡ self.old.queue }
    {
        for i in 0..items.len() {
            let answer = self.put(items[i]);
            match answer {
                Answer::Done => {}
                _ => {
                    *put = i;
                    return status(Some(answer));
                }
            }
        }
        *put = items.len();
        DONE
    }

    /// Takes items, one after the other, up to the first get that comes to none, and writes them.
    #[inline(always)]
    fn get_each(&mut self, items: &mut [u32], got: &mut usize) -> u32
        ensures each { (last : Option Answered) × (taken : List ℕ) × (result ≡ last_number number_of (Some last))
            × (items.new ≡ taken ++ drop (length taken) items.old) × (got.new ≡ length taken)
            × TakesEach Gets Got (length items.old) taken last self.old self.new }
        ensures queue { self.new.queue ≡ self.old.queue }
    {
        for i in 0..items.len() {
            let answer = self.get();
            match answer {
                Answer::Got(item) => items[i] = item,
                _ => {
                    *got = i;
                    return status(Some(answer));
                }
            }
        }
        *got = items.len();
        DONE
    }
}

/// Puts these items into the queue of the handle, one after the other as `kfifo_c_put`, up to the first that is not
/// DONE. Writes how many were put, and returns the number of the last answer. Returns BAD_CALL, with nothing done,
/// where the handle is closed or of another kind, or one of them is not 1 to 2^24 - 1.
#[unsafe(no_mangle)]
pub extern "C" fn kfifo_c_put_many(pass: &mut Handle, items: &[u32], put: &mut usize) -> u32
    ensures answer { (last : Option (Option Answered)) × (result ≡ last_number number_of last)
        × Tries Items (λ _. AreItems items.now) (GivesEach Puts Done items.now put.new) last pass.old.held.value
        pass.new.held.value }
    ensures fields { fields_of pass.new ≡ fields_of pass.old }
{
    if pass.starts == 0 || !are_items(items) {
        *put = 0;
        return BAD_CALL;
    }
    pass.held.seat_mut::<Seat>().put_each(items, put)
}

/// Takes items out of the queue of the handle, one after the other as `kfifo_c_get`, until these are written or a get
/// comes to no item. Writes how many were taken, and returns DONE where these are all, else the number of the last
/// answer. Returns BAD_CALL, with nothing done, where the handle is closed or of another kind.
#[unsafe(no_mangle)]
pub extern "C" fn kfifo_c_get_many(pass: &mut Handle, items: &mut [u32], got: &mut usize) -> u32
    ensures answer { (last : Option (Option Answered)) × (taken : List ℕ) × (result ≡ last_number number_of last)
        × (items.new ≡ taken ++ drop (length taken) items.old) × (got.new ≡ length taken)
        × Tries Items (λ _. ⊤) (TakesEach Gets Got (length items.old) taken) last pass.old.held.value
        pass.new.held.value }
    ensures fields { fields_of pass.new ≡ fields_of pass.old }
{
    if pass.starts == 0 {
        *got = 0;
        return BAD_CALL;
    }
    pass.held.seat_mut::<Seat>().get_each(items, got)
}
