//! Many handles at once.
ghost use Rattle.std.specs.Prelude.{◌≡◌, Some, All, length, map, reverse};
ghost use Rattle.kfifo_c.specs.Fields.{AreNew};
ghost use Rattle.kfifo_c.specs.Handles.{WereClosed, behind, fields_of};

use crate::handle::Handle;
use crate::seating::Seating;
use std::alloc::Global;

/// Puts the seats behind the handles, the last seat first.
pub(crate) fn put_all<S: Seating>(
    handles: &mut [Handle],
    mut seats: Vec<Box<S, Global>>,
    address: *mut u8,
    size: u32,
    alignment: u32,
)
    requires { length seats.items ≡ length handles.old }
    ensures behind { behind handles.new ≡ map (λ seat. Some (S.behind seat))
        (reverse (map (λ seat. seat.value) seats.items)) }
    ensures fields { All (λ handle. AreNew address S.KIND size alignment (fields_of handle)) handles.new }
{
    for handle in handles.iter_mut() {
        if let Some(seat) = seats.pop() {
            *handle = Handle::of(seat, address, size, alignment);
        }
    }
}

/// Closes those of these handles that are of this kind. With the last open handle of a queue the queue goes, and what
/// is left in it.
pub(crate) fn abandon<S: Seating>(alloc: Global, handles: &mut [Handle])
    ensures { WereClosed S.KIND handles.old handles.new }
{
    for handle in handles.iter_mut() {
        let _seat = handle.take::<S>(alloc);
    }
}
