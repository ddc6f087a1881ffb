//! A value that no shared reference can reach.
#![tactic(auto)]

ghost use Rattle.std.specs.Prelude.{◌≡◌};
ghost use base.Fml.{ftrue};

use std::marker::Model;

/// A value that only its owner can reach. A reference to it may go to any thread, since nothing can be done by it.
pub struct Exclusive<T> {
    pub(crate) inner: T,
}

impl<T> Model for Exclusive<T> {
    ghost also_owns = { λ _. ftrue };
}

impl<T> Exclusive<T> {
    /// The value, out of reach.
    pub fn new(inner: T) -> Exclusive<T>
        ensures { result.inner ≡ inner }
    {
        Exclusive { inner }
    }

    /// The value.
    pub fn into_inner(self) -> T
        ensures { result ≡ self.inner }
    {
        let Exclusive { inner } = self;
        inner
    }
}

impl<T: Drop> Drop for Exclusive<T> {
    fn drop(self) {
        drop(self.into_inner());
    }
}

unsafe impl<T: Send> Send for Exclusive<T> {}

unsafe impl<T: Send> Sync for Exclusive<T> {}
