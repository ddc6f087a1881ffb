//! A seat behind a pointer that C may keep.
ghost use Rattle.std.specs.Prelude.{◌≡◌, Option, None};
ghost use Rattle.kfifo_c.specs.Behind.{Behind};
ghost use Rattle.kfifo_c.specs.Held.{held_owns};

use std::marker::Model;

/// The pointer to a seat's block, or null. One that is dropped leaks its seat.
#[repr(C)]
#[derive(Drop)]
pub struct Held {
    pub(crate) at: *mut u8,
    pub ghost value: { Option Behind },
}

impl Model for Held {
    ghost also_owns = { λ h. held_owns h.at h.value };
}

impl Held {
    /// Null.
    pub(crate) fn empty() -> Held
        ensures { result.value ≡ None }
    {
        Held {
            at: std::ptr::null_mut(),
        }
    }
}
