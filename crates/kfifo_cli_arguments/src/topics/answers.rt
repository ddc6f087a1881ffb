//! The answers of the other commands.

use kfifo_cli_requests::{Help, Topic};

const NOTHING: &str = "\
To do: nothing.
";

const FULL: &str = "\
To do: take items first, or make the queue larger by --segments.
";

const BUSY: &str = "\
To do: give more --turns: the number of segments plus 2 is enough where no other
call disturbs.
";

const WORN: &str = "\
To do: make a new queue, or give a greater --last.
";

/// If two begin alike, the longer one comes first.
const TOPICS: &[Topic] = &[
    Topic {
        words: "fault 1 repeats",
        help: Help::Check,
        line: "  fault 1 repeats",
        advice: "\
To do: name each call once in --order.
",
    },
    Topic {
        words: "fault 2 not a call",
        help: Help::Check,
        line: "  fault 2 not a call",
        advice: "\
To do: name finished calls and unfinished enqueues, by their places from 0.
",
    },
    Topic {
        words: "fault 3 leaves out",
        help: Help::Check,
        line: "  fault 3 leaves out",
        advice: "\
To do: name each finished call in --order.
",
    },
    Topic {
        words: "fault 4 breaks before",
        help: Help::Check,
        line: "  fault 4 breaks before",
        advice: "\
To do: put a call that has ended before another began in front of that one.
",
    },
    Topic {
        words: "fault 5 not a run at",
        help: Help::Check,
        line: "  fault 5 not a run at",
        advice: "\
To do: look at the call at this place of the order, from 0: an Empty needs an
empty list, a Got one of the k oldest items.
",
    },
    Topic {
        words: "the order",
        help: Help::Explain,
        line: "  the order fails",
        advice: "\
To do: look at the call that is marked.
",
    },
    Topic {
        words: "legal",
        help: Help::Explain,
        line: "  legal",
        advice: NOTHING,
    },
    Topic {
        words: "call # item # overtaken",
        help: Help::Explain,
        line: "  call <N> item <X> overtaken <C>",
        advice: "\
To do: nothing: in a plain queue each count is 0.
",
    },
    Topic {
        words: "most",
        help: Help::Explain,
        line: "  most <C>",
        advice: "\
To do: nothing: in a plain queue it is 0.
",
    },
    Topic {
        words: "enqueue #: done",
        help: Help::Run,
        line: "  done ",
        advice: NOTHING,
    },
    Topic {
        words: "enqueue #: full",
        help: Help::Run,
        line: "  full ",
        advice: FULL,
    },
    Topic {
        words: "enqueue #: busy",
        help: Help::Run,
        line: "  busy ",
        advice: BUSY,
    },
    Topic {
        words: "enqueue #: worn",
        help: Help::Run,
        line: "  worn ",
        advice: WORN,
    },
    Topic {
        words: "dequeue: got",
        help: Help::Run,
        line: "  got <ITEM> ",
        advice: NOTHING,
    },
    Topic {
        words: "dequeue: empty",
        help: Help::Run,
        line: "  empty ",
        advice: NOTHING,
    },
    Topic {
        words: "dequeue: busy",
        help: Help::Run,
        line: "  busy ",
        advice: BUSY,
    },
    Topic {
        words: "dequeue: worn",
        help: Help::Run,
        line: "  worn ",
        advice: WORN,
    },
    Topic {
        words: "done",
        help: Help::Run,
        line: "  done ",
        advice: NOTHING,
    },
    Topic {
        words: "full",
        help: Help::Run,
        line: "  full ",
        advice: FULL,
    },
    Topic {
        words: "got",
        help: Help::Run,
        line: "  got <ITEM> ",
        advice: NOTHING,
    },
    Topic {
        words: "empty",
        help: Help::Run,
        line: "  empty ",
        advice: NOTHING,
    },
    Topic {
        words: "busy",
        help: Help::Run,
        line: "  busy ",
        advice: BUSY,
    },
    Topic {
        words: "worn",
        help: Help::Run,
        line: "  worn ",
        advice: WORN,
    },
    Topic {
        words: "head",
        help: Help::Explain,
        line: "  head <S> v<V>",
        advice: NOTHING,
    },
    Topic {
        words: "tail",
        help: Help::Explain,
        line: "  tail <S> v<V>",
        advice: NOTHING,
    },
    Topic {
        words: "slot",
        help: Help::Explain,
        line: "  slot <S>.<P> <X> v<V>",
        advice: NOTHING,
    },
    Topic {
        words: "steps",
        help: Help::Replay,
        line: "  steps <N>",
        advice: NOTHING,
    },
    Topic {
        words: "points",
        help: Help::Replay,
        line: "  points <STEPS>",
        advice: NOTHING,
    },
    Topic {
        words: "rollbacks",
        help: Help::Replay,
        line: "  rollbacks <N>",
        advice: NOTHING,
    },
    Topic {
        words: "completed",
        help: Help::Replay,
        line: "  completed <N>",
        advice: NOTHING,
    },
    Topic {
        words: "# thread #",
        help: Help::Replay,
        line: "  <N> thread <T>",
        advice: NOTHING,
    },
    Topic {
        words: "order",
        help: Help::Explain,
        line: "  order",
        advice: "\
To do: of `check`, use `kfifo judge --show` to see the order.
",
    },
    Topic {
        words: "no calls",
        help: Help::Explain,
        line: "  no calls",
        advice: NOTHING,
    },
    Topic {
        words: "# #",
        help: Help::Explain,
        line: "  <ID> <SUM>",
        advice: NOTHING,
    },
];

/// The answers of the other commands.
pub(crate) fn topics() -> &'static [Topic] {
    TOPICS
}
