//! Many calls of C by one handle of a queue of values.
ghost use Rattle.std.specs.Prelude.{◌≡◌, ◌++◌, ℕ, ⊤, None, Option, List, drop, length};
ghost use Rattle.kfifo_live.specs.declared.payload.Given.{Given as HasGiven};
ghost use Rattle.kfifo_live.specs.declared.payload.Given.TheVariants as G;
ghost use Rattle.kfifo_live.specs.declared.payload.Taken.{Taken as HasTaken};
ghost use Rattle.kfifo_live.specs.declared.payload.Taken.TheVariants as K;
ghost use Rattle.kfifo_renewing.specs.Renewing.{GivesToNewest, TakesFromOldest};
ghost use Rattle.kfifo_c.specs.Behind.{Values, values_in};
ghost use Rattle.kfifo_c.specs.Exports.{Tries};
ghost use Rattle.kfifo_c.specs.Many.{GivesEach, TakesEach, last_number};
ghost use Rattle.kfifo_c.specs.Values.{given_number, taken_number};
ghost use Rattle.kfifo_c.specs.Handles.{fields_of};

use crate::handle::Handle;
use crate::kind::VALUES;
use crate::status::{BAD_CALL, DONE};
use crate::value_queue::seat::ValueSeat;
use crate::value_queue::status::{given_status, nothing_status};
use kfifo_live::{Given, Taken};

impl ValueSeat {
    /// Gives these values, one after the other, up to the first that the queue does not take.
    #[inline(always)]
    fn give_each(&mut self, values: &[u64], given: &mut usize) -> u32
        ensures each { (last : Option (HasGiven ℕ)) × (result ≡ last_number given_number (Some last))
            × GivesEach GivesToNewest G.Done values.now given.new last self.old self.new }
        ensures opened { self.new.opened ≡ self.old.opened }
    {
        for i in 0..values.len() {
            let answer = self.give(values[i]);
            match answer {
                Given::Done => {}
                _ => {
                    *given = i;
                    return given_status(&answer);
                }
            }
        }
        *given = values.len();
        DONE
    }

    /// Takes values, one after the other, up to the first take that comes to none, and writes them.
    #[inline(always)]
    fn take_each(&mut self, values: &mut [u64], taken: &mut usize) -> u32
        ensures each { (last : Option (HasTaken ℕ)) × (got : List ℕ) × (result ≡ last_number taken_number (Some last))
            × (values.new ≡ got ++ drop (length got) values.old) × (taken.new ≡ length got)
            × TakesEach TakesFromOldest K.Got (length values.old) got last self.old self.new }
        ensures opened { self.new.opened ≡ self.old.opened }
    {
        for i in 0..values.len() {
            match self.take() {
                Taken::Got(value) => values[i] = value,
                nothing => {
                    *taken = i;
                    return nothing_status(nothing);
                }
            }
        }
        *taken = values.len();
        DONE
    }
}

/// Gives these values to the queue of the handle, one after the other as `kfifo_c_give`, up to the first that is not
/// DONE. Writes how many were given, and returns the number of the last answer. Returns BAD_CALL, with nothing done,
/// where the handle is closed or of another kind.
#[unsafe(no_mangle)]
pub extern "C" fn kfifo_c_give_many(pass: &mut Handle, values: &[u64], given: &mut usize) -> u32
    ensures answer { (last : Option (Option (HasGiven ℕ))) × (result ≡ last_number given_number last)
        × Tries Values (λ _. ⊤) (GivesEach GivesToNewest G.Done values.now given.new) last pass.old.held.value
        pass.new.held.value }
    ensures closed { values_in pass.old.held.value ≡ None → given.new ≡ 0 }
    ensures fields { fields_of pass.new ≡ fields_of pass.old }
{
    if pass.kind != VALUES {
        *given = 0;
        return BAD_CALL;
    }
    pass.held.seat_mut::<ValueSeat>().give_each(values, given)
}

/// Takes values out of the queue of the handle, one after the other as `kfifo_c_take`, until these are written or a
/// take comes to no value. Writes how many were taken, and returns DONE where these are all, else the number of the
/// last answer. Returns BAD_CALL, with nothing done, where the handle is closed or of another kind.
#[unsafe(no_mangle)]
pub extern "C" fn kfifo_c_take_many(pass: &mut Handle, values: &mut [u64], taken: &mut usize) -> u32
    ensures answer { (last : Option (Option (HasTaken ℕ))) × (got : List ℕ)
        × (result ≡ last_number taken_number last) × (values.new ≡ got ++ drop (length got) values.old)
        × (taken.new ≡ length got)
        × Tries Values (λ _. ⊤) (TakesEach TakesFromOldest K.Got (length values.old) got) last pass.old.held.value
        pass.new.held.value }
    ensures closed { values_in pass.old.held.value ≡ None → taken.new ≡ 0 }
    ensures fields { fields_of pass.new ≡ fields_of pass.old }
{
    if pass.kind != VALUES {
        *taken = 0;
        return BAD_CALL;
    }
    pass.held.seat_mut::<ValueSeat>().take_each(values, taken)
}
