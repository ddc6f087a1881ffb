//! What a pointer of C's owns, for seats of one type.
ghost use Rattle.kfifo_c.specs.Fits.{fits};

use crate::seating::Seating;
use std::marker::{Model, PhantomData};

/// That a `Held` with such a seat owns the seat's block. An exported signature takes no struct with type arguments, so
/// `Held` has none, and no clause can say which type is behind it. It takes no bytes.
pub struct Fits<S: Seating> {
    pub(crate) of: PhantomData<S>,
}

impl<S: Seating> Model for Fits<S> {
    ghost also_owns = { λ f. fits S.row S.behind };
}
