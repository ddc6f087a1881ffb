//! The answers of `judge` and `least`, and evidence by its name.

use kfifo_cli_requests::{Help, Topic};

const NEVER_PUT: &str = "\
To do: look for a dequeue that returns what was not put, or too soon; or for a
call that is missing in the log.
";

const TAKEN_TWICE: &str = "\
To do: look for a dequeue that takes an item which another one takes, too; or
for a put that is missing in the log.
";

const NOT_EMPTY: &str = "\
To do: see after each put whether its item was got later: then the queue said
empty too early; or never: then it was lost, or was left inside at the end of
the log. Drain the queue until it answers empty before the log ends.
";

const TOO_YOUNG: &str = "\
To do: see below for which k there may be an order: for those the queue is a
k-relaxed one.
";

const TAKEN_TOO_SOON: &str = "\
To do: look for a dequeue that takes an item which another one takes, too; give
each item a number of its own to see which one.
";

const ITEMS_LEFT: &str = "\
To do: look for a dequeue that says empty too early; give each item a number of
its own to see which items were there.
";

const OLDER_LEFT: &str = "\
To do: see below for which k there may be an order; give each item its own
number to see which calls got the others.
";

const ITEMS_REPEAT: &str = "\
To do: give each item a number of its own: then k = 1 is always decided if each
call ends.
";

const GOT_BY_CALL: &str = "\
To do: see call M: it got the item after the call that found nothing, or after
one that got a younger item.
";

const NEVER_GOT: &str = "\
To do: drain the queue until it answers empty before the log ends: what is never
got then is lost.
";

/// If two begin alike, the longer one comes first.
const TOPICS: &[Topic] = &[
    Topic {
        words: "no order for",
        help: Help::Judge,
        line: "  no order for k = <K>",
        advice: "\
To do: read the line below it: it names the calls because of which no order is
legal.
",
    },
    Topic {
        words: "legal for",
        help: Help::Judge,
        line: "  legal for k = <K>",
        advice: "\
To do: nothing: the calls may be those of a queue that gives any of its k oldest
items. `--show` prints the order.
",
    },
    Topic {
        words: "calls #, items left",
        help: Help::Judge,
        line: "  calls <N>, items left <M>",
        advice: "\
To do: make sure that the calls are as many as were made. If the queue was emptied at the end, items left are lost.
",
    },
    Topic {
        words: "undecided",
        help: Help::Judge,
        line: "  undecided for k = <K>",
        advice: "\
To do: read the line below it: it says why the search stopped, and `kfifo explain` what helps.
",
    },
    Topic {
        words: "the tries ran",
        help: Help::Judge,
        line: "  the tries ran out",
        advice: "\
Allowed: --tries from 0 to 4294967295, by default 1000000.
To do: give more --tries, or judge a shorter run.
",
    },
    Topic {
        words: "nothing is left",
        help: Help::Judge,
        line: "  nothing is left to try",
        advice: "\
To do: give each item a number of its own, let each call end, and judge a
shorter run.
",
    },
    Topic {
        words: "items repeat",
        help: Help::Judge,
        line: "  ; items repeat",
        advice: ITEMS_REPEAT,
    },
    Topic {
        words: "; items repeat",
        help: Help::Judge,
        line: "  ; items repeat",
        advice: ITEMS_REPEAT,
    },
    Topic {
        words: "no order",
        help: Help::Least,
        line: "  no order ",
        advice: "\
To do: of `check`, use `kfifo judge`, which says why; of `least`, read the line
below it.
",
    },
    Topic {
        words: "call # got item #, which no",
        help: Help::Judge,
        line: "  call <N> got item <X>, which no",
        advice: NEVER_PUT,
    },
    Topic {
        words: "NeverPut",
        help: Help::Judge,
        line: "  call <N> got item <X>, which no",
        advice: NEVER_PUT,
    },
    Topic {
        words: "call # got item #, which was",
        help: Help::Judge,
        line: "  call <N> got item <X>, which was",
        advice: TAKEN_TWICE,
    },
    Topic {
        words: "TakenTwice",
        help: Help::Judge,
        line: "  call <N> got item <X>, which was",
        advice: TAKEN_TWICE,
    },
    Topic {
        words: "call # found nothing, while some",
        help: Help::Judge,
        line: "  call <N> found nothing, while some",
        advice: ITEMS_LEFT,
    },
    Topic {
        words: "ItemsLeft",
        help: Help::Judge,
        line: "  call <N> found nothing, while some",
        advice: ITEMS_LEFT,
    },
    Topic {
        words: "call # found nothing,",
        help: Help::Judge,
        line: "  call <N> found nothing, while there",
        advice: NOT_EMPTY,
    },
    Topic {
        words: "NotEmpty",
        help: Help::Judge,
        line: "  call <N> found nothing, while there",
        advice: NOT_EMPTY,
    },
    Topic {
        words: "call # got item #, while",
        help: Help::Judge,
        line: "  call <N> got item <X>, while",
        advice: TOO_YOUNG,
    },
    Topic {
        words: "TooYoung",
        help: Help::Judge,
        line: "  call <N> got item <X>, while",
        advice: TOO_YOUNG,
    },
    Topic {
        words: "call # got item #, when",
        help: Help::Judge,
        line: "  call <N> got item <X>, when",
        advice: TAKEN_TOO_SOON,
    },
    Topic {
        words: "TakenTooSoon",
        help: Help::Judge,
        line: "  call <N> got item <X>, when",
        advice: TAKEN_TOO_SOON,
    },
    Topic {
        words: "call # got item #, though",
        help: Help::Judge,
        line: "  call <N> got item <X>, though",
        advice: OLDER_LEFT,
    },
    Topic {
        words: "OlderLeft",
        help: Help::Judge,
        line: "  call <N> got item <X>, though",
        advice: OLDER_LEFT,
    },
    Topic {
        words: "call #: thread",
        help: Help::Judge,
        line: "  call <N>: thread",
        advice: "\
To do: compare its stamps with those of the other calls that are named.
",
    },
    Topic {
        words: "call #, line #:",
        help: Help::Judge,
        line: "  call <N>, line <L>: thread",
        advice: "\
To do: see this line of the log, counted from 1.
",
    },
    Topic {
        words: ", got by call",
        help: Help::Judge,
        line: "  , got by call",
        advice: GOT_BY_CALL,
    },
    Topic {
        words: "got by call",
        help: Help::Judge,
        line: "  , got by call",
        advice: GOT_BY_CALL,
    },
    Topic {
        words: ", never got",
        help: Help::Judge,
        line: "  , never got",
        advice: NEVER_GOT,
    },
    Topic {
        words: "never got",
        help: Help::Judge,
        line: "  , never got",
        advice: NEVER_GOT,
    },
    Topic {
        words: "k at least",
        help: Help::Least,
        line: "  k at least",
        advice: "\
To do: nothing: it is a bound that is proved.
",
    },
    Topic {
        words: "k at most",
        help: Help::Least,
        line: "  k at most",
        advice: "\
To do: nothing: an order is legal for this k. A greater --tries may find one for
a lesser k.
",
    },
    Topic {
        words: "k unknown",
        help: Help::Least,
        line: "  k unknown",
        advice: "\
To do: give a greater --tries, if the bound is at most 64.
",
    },
    Topic {
        words: "worst rank",
        help: Help::Judge,
        line: "  worst rank",
        advice: "\
To do: nothing: it is at most k - 1, and 0 in a plain queue.
",
    },
];

/// The answers of `judge` and `least`.
pub(crate) fn topics() -> &'static [Topic] {
    TOPICS
}
