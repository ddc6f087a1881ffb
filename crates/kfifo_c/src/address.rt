// Where a queue lies, as a pointer to bytes: C compares it, and nothing is read or written through it.
ghost use Rattle.std.specs.Prelude.{◌≡◌};
ghost use Rattle.std.specs.Ptr.{as_ptr};

use kfifo_live::Queue;

/// The address of the queue.
pub(crate) fn address_of(queue: &Queue) -> *mut u8
    ensures { result ≡ as_ptr queue.entry }
{
    std::ptr::from_ref(queue) as *mut u8
}

/// No address.
pub(crate) fn no_address() -> *mut u8 {
    std::ptr::null_mut()
}
