//! What can be said of a history.
ghost use Rattle.std.specs.Prelude.{◌≡◌, ◌↔◌, IsTrue, option_map};
ghost use Rattle.kfifo_verdict.specs.Naming.{IsForEachK, call_in, puts_in};
ghost use Rattle.kfifo_verdict.specs.Judging.{tries_made};

/// A few calls that leave a history no legal order. Calls are named by their numbers.
#[derive(Debug, PartialEq, Eq, Drop)]
pub enum Evidence {
    /// 1: this call got an item that no call before its end put.
    NeverPut(usize),
    /// 2: this call, the last that got its item, got one that was taken more often than put.
    TakenTwice(usize),
    /// 3: this call returned Empty while there were items.
    NotEmpty {
        /// The call.
        empty: usize,
        /// The puts of items that cover it, in the order in which they do.
        puts: Vec<usize>,
    },
    /// 4: this call got an item while k older ones were there.
    TooYoung {
        /// The call.
        get: usize,
        /// The puts of k of them, in ascending order.
        puts: Vec<usize>,
    },
    /// 5: this call got an item, and by its end more gets of that item had ended than puts had begun.
    TakenTooSoon(usize),
    /// 6: this call returned Empty, and as it began, and as each call began meanwhile, more puts of some item had ended
    /// than gets of it had begun.
    ItemsLeft(usize),
    /// 7: this call got an item while k older ones were left.
    OlderLeft {
        /// The call.
        get: usize,
        /// The puts of k of them, in ascending order.
        puts: Vec<usize>,
    },
}

impl Evidence {
    /// Returns the number of the call that got an item or found none.
    pub fn call(&self) -> usize
        ensures { result ≡ call_in self.now }
    {
        match self {
            Evidence::NeverPut(get) | Evidence::TakenTwice(get) | Evidence::TakenTooSoon(get) =>
                *get,
            Evidence::TooYoung { get, .. } | Evidence::OlderLeft { get, .. } => *get,
            Evidence::NotEmpty { empty, .. } | Evidence::ItemsLeft(empty) => *empty,
        }
    }

    /// Returns the numbers of the puts that it names; none of the kinds 1, 2, 5 and 6, which name no puts.
    pub fn puts(&self) -> Option<&[usize]>
        ensures { option_map (λ puts. puts.now) result ≡ puts_in self.now }
    {
        match self {
            Evidence::NotEmpty { puts, .. }
            | Evidence::TooYoung { puts, .. }
            | Evidence::OlderLeft { puts, .. } => Some(puts.as_slice()),
            Evidence::NeverPut(_) | Evidence::TakenTwice(_) => None,
            Evidence::TakenTooSoon(_) | Evidence::ItemsLeft(_) => None,
        }
    }

    /// Whether it leaves no order for any k. The kinds 4 and 7 are about one k.
    pub fn is_for_each_k(&self) -> bool
        ensures { IsTrue result ↔ IsForEachK self.now }
    {
        match self {
            Evidence::NeverPut(_) | Evidence::TakenTwice(_) | Evidence::NotEmpty { .. } => true,
            Evidence::TakenTooSoon(_) | Evidence::ItemsLeft(_) => true,
            Evidence::TooYoung { .. } | Evidence::OlderLeft { .. } => false,
        }
    }
}

/// Why the search for an order found none, and after how many tries: so many choices it undid.
#[derive(Clone, Copy, Debug, PartialEq, Eq)]
pub enum GivenUp {
    /// As many choices were undone as were allowed: with more tries it may find one.
    TriesRanOut(u64),
    /// There was nothing that it could have done otherwise: more tries do not help.
    NothingLeft(u64),
}

impl GivenUp {
    /// How many choices the search undid: no more than were allowed.
    pub fn tries(self) -> u64
        ensures { result ≡ tries_made self }
    {
        match self {
            GivenUp::TriesRanOut(tries) | GivenUp::NothingLeft(tries) => tries,
        }
    }
}

/// A verdict on a history for one k.
#[derive(Debug, PartialEq, Eq, Drop)]
pub enum Judgement {
    /// This order of the calls is legal.
    Legal(Vec<usize>),
    /// No order is legal, because of this.
    NoOrder(Evidence),
    /// There is none of the seven kinds of evidence, and no order was found, for this reason: there may be one all the
    /// same.
    Undecided(GivenUp),
}

/// Between which bounds the least k lies for which a history has a legal order, if it has one for some k.
#[derive(Clone, Copy, Debug, PartialEq, Eq)]
pub struct Bounds {
    /// The least k is no less, from 1.
    pub at_least: usize,
    /// The least k is no greater, from 1 to 64; none where no order was found.
    pub at_most: Option<u32>,
}
