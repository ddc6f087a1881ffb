//! Exit statuses, and the statuses of the library for C, by their names.

use kfifo_cli_requests::{Help, Topic};

/// No two begin alike.
const TOPICS: &[Topic] = &[
    Topic {
        words: "status 0",
        help: Help::Explain,
        line: "  status 0 ",
        advice: "\
To do: nothing.
",
    },
    Topic {
        words: "status 1",
        help: Help::Explain,
        line: "  status 1 ",
        advice: "\
To do: read the line on standard error, and explain that one. There is none if
standard output could not be written, nor where `judge` was given several files:
there the line of each file without an order or a verdict says why.
",
    },
    Topic {
        words: "status 2",
        help: Help::Explain,
        line: "  status 2 ",
        advice: "\
To do: read the text on standard error, or the help of the command.
",
    },
    Topic {
        words: "status 3",
        help: Help::Explain,
        line: "  status 3 ",
        advice: "\
To do: nothing is wrong with the program: read the answer, which says why.
",
    },
    Topic {
        words: "status 4",
        help: Help::Explain,
        line: "  status 4 ",
        advice: "\
To do: nothing is wrong with the program: read the last line of the answer,
which says why the search stopped.
",
    },
    Topic {
        words: "KFIFO_DONE",
        help: Help::Explain,
        line: "  KFIFO_DONE ",
        advice: "\
To do: nothing.
",
    },
    Topic {
        words: "KFIFO_FULL",
        help: Help::Explain,
        line: "  KFIFO_FULL ",
        advice: "\
To do: take something and put it again, or open a queue with more segments or a
greater capacity.
",
    },
    Topic {
        words: "KFIFO_EMPTY",
        help: Help::Explain,
        line: "  KFIFO_EMPTY ",
        advice: "\
To do: nothing, or take again later.
",
    },
    Topic {
        words: "KFIFO_BUSY",
        help: Help::Explain,
        line: "  KFIFO_BUSY ",
        advice: "\
To do: make the call again, or give it more turns.
",
    },
    Topic {
        words: "KFIFO_WORN",
        help: Help::Explain,
        line: "  KFIFO_WORN ",
        advice: "\
Allowed: a greatest version of at most 1099511627775.
To do: close this queue and open another.
",
    },
    Topic {
        words: "KFIFO_BAD_CALL",
        help: Help::Explain,
        line: "  KFIFO_BAD_CALL ",
        advice: "\
To do: compare the arguments with what kfifo.h says of the call.
",
    },
    Topic {
        words: "KFIFO_NO_MEMORY",
        help: Help::Explain,
        line: "  KFIFO_NO_MEMORY ",
        advice: "\
To do: free memory, and make the call again.
",
    },
    Topic {
        words: "KFIFO_BAD_THREADS",
        help: Help::Explain,
        line: "  KFIFO_BAD_THREADS ",
        advice: "\
Allowed: 1 to 64 threads.
To do: open a queue for fewer threads.
",
    },
    Topic {
        words: "KFIFO_LOST",
        help: Help::Explain,
        line: "  KFIFO_LOST ",
        advice: "\
To do: take all that is left before you close a queue.
",
    },
    Topic {
        words: "KFIFO_BAD_K",
        help: Help::Explain,
        line: "  KFIFO_BAD_K ",
        advice: "\
Allowed: k from 1 to 64.
To do: open a queue with such a k.
",
    },
    Topic {
        words: "KFIFO_BAD_SEGMENTS",
        help: Help::Explain,
        line: "  KFIFO_BAD_SEGMENTS ",
        advice: "\
Allowed: 2 to 1024 segments.
To do: open a queue with that many.
",
    },
    Topic {
        words: "KFIFO_BAD_LAST",
        help: Help::Explain,
        line: "  KFIFO_BAD_LAST ",
        advice: "\
Allowed: a greatest version from 2 to 1099511627775.
To do: open a queue with KFIFO_LAST.
",
    },
    Topic {
        words: "KFIFO_BAD_PROBES",
        help: Help::Explain,
        line: "  KFIFO_BAD_PROBES ",
        advice: "\
Allowed: 1 to k probes.
To do: open a queue with k probes.
",
    },
    Topic {
        words: "KFIFO_TIMED_OUT",
        help: Help::Explain,
        line: "  KFIFO_TIMED_OUT ",
        advice: "\
To do: make the call again, or with more time.
",
    },
    Topic {
        words: "KFIFO_FINISHED",
        help: Help::Explain,
        line: "  KFIFO_FINISHED ",
        advice: "\
To do: make no more calls, and close the queue.
",
    },
    Topic {
        words: "KFIFO_BAD_RESERVE",
        help: Help::Explain,
        line: "  KFIFO_BAD_RESERVE ",
        advice: "\
Allowed: a reserve from 0 to the greatest version less 1.
To do: open a queue with KFIFO_RESERVE, or with 0 for one that wears out.
",
    },
    Topic {
        words: "KFIFO_BAD_CAPACITY",
        help: Help::Explain,
        line: "  KFIFO_BAD_CAPACITY ",
        advice: "\
To do: open a queue with a smaller capacity, with a greater k, or for fewer
threads, or one that grows.
",
    },
    Topic {
        words: "KFIFO_BAD_LAYOUT",
        help: Help::Explain,
        line: "  KFIFO_BAD_LAYOUT ",
        advice: "\
To do: take `sizeof` and `_Alignof` of what a cell is to hold.
",
    },
];

/// Exit statuses, and the statuses of the library for C.
pub(crate) fn topics() -> &'static [Topic] {
    TOPICS
}
