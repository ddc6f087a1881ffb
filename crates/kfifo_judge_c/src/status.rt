//! The numbers that C gets: the members of `enum kfifo_judge_status` in `c/include/kfifo_judge.h`.
ghost use Rattle.std.specs.Prelude.{◌≡◌};
ghost use Rattle.kfifo_judge_c.specs.Reports.{judgement_status};

use kfifo_verdict::Judgement;

/// The calls have a legal order; or no evidence is there for each k.
pub(crate) const LEGAL: u32 = 0;
/// They have none.
pub(crate) const NO_ORDER: u32 = 1;
/// Neither an order nor evidence was found.
pub(crate) const UNDECIDED: u32 = 2;
/// The text is a picture.
pub(crate) const DRAWN: u32 = 3;
/// The log or record has a fault.
pub(crate) const FAULT: u32 = 4;
/// An argument is out of range, and nothing was done.
pub(crate) const BAD_CALL: u32 = 5;
/// An allocation failed, and nothing was done.
pub(crate) const NO_MEMORY: u32 = 6;

/// The status of a verdict.
pub(crate) fn status_of(judgement: &Judgement) -> u32
    ensures { result ≡ judgement_status judgement.now }
{
    match judgement {
        Judgement::Legal(_) => LEGAL,
        Judgement::NoOrder(_) => NO_ORDER,
        Judgement::Undecided(_) => UNDECIDED,
    }
}
