//! The ways in which a get can take an item, by number.

/// How many of the choices of an item that leaves the front are changed: of the further ones always the first.
const MAX_CHANGED: u32 = 4;

/// How many ways there are for each put whose item is taken: 2 to the power of `MAX_CHANGED`.
const WAYS: usize = 16;

/// A way in which a get takes an item.
#[derive(Clone, Copy)]
pub(crate) struct Choices {
    /// The place of the put among those that come into question.
    pub candidate: usize,
    /// The way, of those for this put.
    way: usize,
    /// Which of the choices of an item that leaves the front are to come: a binary digit for each, 1 where the other
    /// item leaves.
    rest: usize,
    /// How many of these choices there were, up to `MAX_CHANGED`.
    passed: u32,
}

impl Choices {
    /// The way of this number.
    pub(crate) fn of(number: usize) -> Choices {
        let way = number % WAYS;
        Choices {
            candidate: number / WAYS,
            way,
            rest: way,
            passed: 0,
        }
    }

    /// Whether at the next choice the other item leaves.
    pub(crate) fn is_turned(&self) -> bool {
        self.rest % 2 == 1
    }

    /// There was a choice.
    pub(crate) fn pass(&mut self) {
        self.rest = self.rest / 2;
        if self.passed < MAX_CHANGED {
            self.passed += 1;
        }
    }
}

/// The next way after one in which so many choices were met, if there is one: the others at these choices, and then the
/// next put, if there are more.
pub(crate) fn next_way(choices: &Choices, more: bool) -> Option<usize> {
    let ways = match choices.passed {
        0 => 1,
        1 => 2,
        2 => 4,
        3 => 8,
        _ => WAYS,
    };
    let base = choices.candidate.saturating_mul(WAYS);
    if choices.way.saturating_add(1) < ways {
        Some(base.saturating_add(choices.way).saturating_add(1))
    } else if more {
        Some(base.saturating_add(WAYS))
    } else {
        None
    }
}
