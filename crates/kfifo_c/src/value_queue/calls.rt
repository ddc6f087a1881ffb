//! The calls of C by one handle of a queue of values.
ghost use Rattle.std.specs.Prelude.{◌≡◌, ◌⊎◌, ℕ, ⊤, MatchOption, None, Option};
ghost use Rattle.kfifo_live.specs.declared.payload.Given.{Given as HasGiven};
ghost use Rattle.kfifo_live.specs.declared.payload.Taken.{Taken as HasTaken};
ghost use Rattle.kfifo_renewing.specs.Renewing.{Counts, GivesToNewest, TakesFromOldest};
ghost use Rattle.kfifo_c.specs.Behind.{Values, values_in};
ghost use Rattle.kfifo_c.specs.Exports.{Tries, count_of};
ghost use Rattle.kfifo_c.specs.Values.{given_number, taken_number, value_after};
ghost use Rattle.kfifo_c.specs.Handles.{WereClosed, fields_of};

use crate::handle::Handle;
use crate::handles::abandon;
use crate::kind::VALUES;
use crate::status::{BAD_CALL, FULL, NO_MEMORY};
use crate::value_queue::seat::ValueSeat;
use crate::value_queue::status::{GOT, given_status, nothing_status};
use kfifo_live::Taken;
use std::alloc::Global;

/// Gives a value to the queue of the handle, as `RenewingHandle::give`, and returns its answer's number. Returns
/// BAD_CALL, with nothing done, where the handle is closed or of another kind.
#[unsafe(no_mangle)]
pub extern "C" fn kfifo_c_give(pass: &mut Handle, value: u64) -> u32
    ensures answer { (answer : Option (HasGiven ℕ)) × (result ≡ given_number answer)
        × Tries Values (λ _. ⊤) (GivesToNewest value) answer pass.old.held.value pass.new.held.value }
    ensures fields { fields_of pass.new ≡ fields_of pass.old }
{
    if pass.kind != VALUES {
        return BAD_CALL;
    }
    let given = pass.held.seat_mut::<ValueSeat>().give(value);
    given_status(&given)
}

/// Takes one of the k oldest values of the oldest generation that has one out of the queue of the handle, as
/// `RenewingHandle::take`, writes the value if there is one, and returns its answer's number. Returns BAD_CALL, with
/// nothing done, where the handle is closed or of another kind.
#[unsafe(no_mangle)]
pub extern "C" fn kfifo_c_take(pass: &mut Handle, value: &mut u64) -> u32
    ensures answer { (answer : Option (HasTaken ℕ)) × (result ≡ taken_number answer)
        × (value.new ≡ value_after value.old answer)
        × Tries Values (λ _. ⊤) TakesFromOldest answer pass.old.held.value pass.new.held.value }
    ensures fields { fields_of pass.new ≡ fields_of pass.old }
{
    if pass.kind != VALUES {
        return BAD_CALL;
    }
    let taken = pass.held.seat_mut::<ValueSeat>().take();
    if let Taken::Got(got) = taken {
        *value = got;
        return GOT;
    }
    nothing_status(taken)
}

/// Why the last give of the handle that found no room was refused: returns NO_MEMORY where it would have opened a
/// generation, and memory was missing for that, as `RenewingHandle::lacks_memory`; else FULL. Returns BAD_CALL where
/// the handle is closed or of another kind.
#[unsafe(no_mangle)]
pub extern "C" fn kfifo_c_why_no_room(pass: &mut Handle) -> u32
    ensures why { MatchOption (values_in pass.old.held.value) (result ≡ 6) (λ _. (result ≡ 1) ⊎ (result ≡ 7)) }
    ensures same { pass.new.held.value ≡ pass.old.held.value }
    ensures fields { fields_of pass.new ≡ fields_of pass.old }
{
    if pass.kind != VALUES {
        return BAD_CALL;
    }
    if pass.held.seat_mut::<ValueSeat>().lacks_memory() {
        return NO_MEMORY;
    }
    FULL
}

/// About how many values are in the queue of the handle, as `RenewingHandle::len`. Returns 0 where the handle is closed
/// or of another kind.
#[unsafe(no_mangle)]
pub extern "C" fn kfifo_c_values_len(pass: &mut Handle) -> usize
    ensures counted { (counted : Option ℕ) × (result ≡ count_of counted)
        × Tries Values (λ _. ⊤) Counts counted pass.old.held.value pass.new.held.value }
    ensures fields { fields_of pass.new ≡ fields_of pass.old }
{
    if pass.kind != VALUES {
        return 0;
    }
    pass.held.seat_mut::<ValueSeat>().len()
}

/// Closes these handles. With the last open handle of a queue the queue goes, and the values that are left in it.
#[unsafe(no_mangle)]
pub extern "C" fn kfifo_c_abandon_values(alloc: Global, passes: &mut [Handle])
    ensures { WereClosed 2 passes.old passes.new }
{
    abandon::<ValueSeat>(alloc, passes);
}
