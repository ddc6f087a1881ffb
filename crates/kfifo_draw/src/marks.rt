//! What is marked in the picture of a history: each call's place in an order, and where that fails; or named calls.
ghost use Rattle.std.specs.Prelude.{◌≤◌};

use kfifo_model::{Call, History, Op, Verdict, check_order};
use std::alloc::{AllocError, Global};
use std::fmt::Write;

/// What is marked in a picture.
#[derive(Clone, Copy, Debug, PartialEq, Eq)]
pub enum Marking<'a> {
    /// Nothing.
    Nothing,
    /// The place of each call in this order, and the call at which it fails.
    Order(&'a [usize]),
    /// The calls with these numbers, and in a line why they are marked.
    Calls(&'a [usize], &'a str),
}

/// What is said of a history's calls by what is marked.
#[derive(Drop)]
pub(crate) struct Marks {
    /// The verdict on the order; none where there is no order.
    verdict: Option<Verdict>,
    /// The first place of each call in the order, by the calls' numbers.
    places: Vec<Option<usize>>,
    /// The call at which the order fails.
    failing: Option<usize>,
    /// The calls that are named.
    named: Vec<usize>,
    /// Why they are.
    reason: String,
}

impl Marks {
    /// What is marked.
    pub(crate) fn of(
        alloc: Global,
        history: &History,
        k: u32,
        marking: Marking<'_>,
    ) -> Result<Marks, AllocError>
        requires { (1 ≤ k) × (k ≤ 64) }
    {
        match marking {
            Marking::Nothing => Ok(Marks::none(alloc)),
            Marking::Order(order) => Marks::of_order(alloc, history, k, order),
            Marking::Calls(named, reason) => {
                let mut marks = Marks::none(alloc);
                marks.named = named.to_vec(alloc)?;
                marks.reason.push_str(reason)?;
                Ok(marks)
            }
        }
    }

    /// Nothing.
    fn none(alloc: Global) -> Marks {
        Marks {
            verdict: None,
            places: Vec::new(alloc),
            failing: None,
            named: Vec::new(alloc),
            reason: String::new(alloc),
        }
    }

    /// The places of the calls in this order, and the verdict on it.
    fn of_order(
        alloc: Global,
        history: &History,
        k: u32,
        order: &[usize],
    ) -> Result<Marks, AllocError>
        requires { (1 ≤ k) × (k ≤ 64) }
    {
        let verdict = check_order(alloc, history, k, order)?;
        let calls = history.calls();
        let places = places_in(alloc, calls.len(), order)?;
        let failing = failing_call(calls, order, places.as_slice(), verdict);
        Ok(Marks {
            verdict: Some(verdict),
            places,
            failing,
            named: Vec::new(alloc),
            reason: String::new(alloc),
        })
    }

    /// The place of the call with this number in the order, where it stands there.
    pub(crate) fn place_of(&self, number: usize) -> Option<usize> {
        self.places.get(number).copied().unwrap_or(None)
    }

    /// Whether the order fails at the call with this number.
    pub(crate) fn fails_at(&self, number: usize) -> bool {
        self.failing == Some(number)
    }

    /// Whether the call with this number is named.
    pub(crate) fn names(&self, number: usize) -> bool {
        self.named.contains(&number)
    }

    /// Adds what is to be said of the whole, and returns whether there is anything.
    pub(crate) fn push_verdict(&self, text: &mut String) -> Result<bool, AllocError> {
        let Some(verdict) = self.verdict else {
            text.push_str(self.reason.as_str())?;
            return Ok(!self.reason.is_empty());
        };
        if verdict == Verdict::Legal {
            text.push_str("the order is legal")?;
            return Ok(true);
        }
        text.push_str("the order fails")?;
        if let Some(call) = self.failing {
            write!(text, " at call {call}")?;
        }
        text.push_str(": ")?;
        push_fault(text, verdict)?;
        Ok(true)
    }
}

/// Adds the fault of an order, in the words of the command `check`.
fn push_fault(text: &mut String, verdict: Verdict) -> Result<(), AllocError> {
    match verdict {
        Verdict::Legal => text.push_str("legal"),
        Verdict::Repeats => text.push_str("fault 1 repeats"),
        Verdict::NotACall => text.push_str("fault 2 not a call"),
        Verdict::LeavesOut => text.push_str("fault 3 leaves out"),
        Verdict::BreaksBefore => text.push_str("fault 4 breaks before"),
        Verdict::NotARun(place) => write!(text, "fault 5 not a run at {place}"),
    }
}

/// The first place of each of so many calls in the order.
fn places_in(
    alloc: Global,
    count: usize,
    order: &[usize],
) -> Result<Vec<Option<usize>>, AllocError> {
    let mut places = vec![in alloc; None; count]?;
    for (place, number) in order.iter().enumerate() {
        if let Some(known) = places.get_mut(*number) {
            if known.is_none() {
                *known = Some(place);
            }
        }
    }
    Ok(places)
}

/// The call at which the order has its fault, where that is a call.
fn failing_call(
    calls: &[Call],
    order: &[usize],
    places: &[Option<usize>],
    verdict: Verdict,
) -> Option<usize> {
    match verdict {
        Verdict::Legal => None,
        Verdict::Repeats => first_repeated(order, places),
        Verdict::NotACall => first_not_a_call(calls, order),
        Verdict::LeavesOut => first_left_out(calls, places),
        Verdict::BreaksBefore => first_too_late(calls, order),
        Verdict::NotARun(place) => order.get(place).copied(),
    }
}

/// The first number of the order that stood before.
fn first_repeated(order: &[usize], places: &[Option<usize>]) -> Option<usize> {
    for (place, number) in order.iter().enumerate() {
        if places.get(*number) != Some(&Some(place)) {
            return Some(*number);
        }
    }
    None
}

/// The first number of the order that no call or an unfinished dequeue has, if it is the dequeue's.
fn first_not_a_call(calls: &[Call], order: &[usize]) -> Option<usize> {
    for number in order {
        match calls.get(*number) {
            Some(call) if call.end.is_some() || call.op != Op::Dequeue => {}
            Some(_) => return Some(*number),
            None => return None,
        }
    }
    None
}

/// The first finished call that does not stand in the order.
fn first_left_out(calls: &[Call], places: &[Option<usize>]) -> Option<usize> {
    for (number, (call, place)) in calls.iter().zip(places.iter()).enumerate() {
        if call.end.is_some() && place.is_none() {
            return Some(number);
        }
    }
    None
}

/// The first number of the order whose call ended before one began that stands before it.
fn first_too_late(calls: &[Call], order: &[usize]) -> Option<usize> {
    let mut latest = 0;
    for number in order {
        let call = calls.get(*number)?;
        if call.end.map_or(false, |end| end.last < latest) {
            return Some(*number);
        }
        latest = call.first.max(latest);
    }
    None
}
