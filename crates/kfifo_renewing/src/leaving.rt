//! A part that is left when it is dropped.
ghost use Rattle.std.specs.Prelude.{◌≡◌};

use std::marker::Model;

/// A part that can be left.
pub(crate) trait Leave {
    /// Leaves it.
    fn leave(self);
}

/// A part that is left when it is dropped.
///
/// Clauses see it as that part.
pub(crate) struct Leaving<P: Leave> {
    pub(crate) part: P,
}

impl<P: Leave> Model for Leaving<P> {
    ghost Value = { P };

    ghost view = { λ l. l.part };
}

impl<P: Leave> Leaving<P> {
    /// The part, which is not left.
    pub(crate) fn into_part(self) -> P
        ensures { result ≡ self }
    {
        let Leaving { part } = self;
        part
    }
}

impl<P: Leave + Drop> Drop for Leaving<P> {
    fn drop(self) {
        self.into_part().leave();
    }
}
