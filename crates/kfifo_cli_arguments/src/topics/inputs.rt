//! Faults of what is read, and of the machine that the program runs on.

use kfifo_cli_requests::{Help, Topic};

const FIELDS: &str = "\
Allowed: `thread`, `op` and `first` always; `item` in each enq, and in a deq
exactly if it was answered got; `last` and `answer` both or neither; no other
key in a record; `op` enq or deq; numbers that are whole and at least 0.
To do: look at the call with this number, from 0, or at this line of the log,
from 1.
";

const RANGES: &str = "\
Allowed: a thread from 0 to 63, an item from 1 to 16777215.
To do: number threads from 0, and items from 1, each with a number of its own.
";

const ANSWERS: &str = "\
Allowed: done, full, busy and worn of an enq; got, empty, busy and worn of a
deq.
To do: correct the answer, or the op.
";

const TIMES: &str = "\
Allowed: `last` equal to `first` or greater.
To do: read one monotonic clock before and after the call, and write the earlier
value as `first`.
";

const OVERLAP: &str = "\
Allowed: calls of one thread that follow one another: the next begins after the
one before has ended.
To do: give each thread a number of its own. A thread whose call never returned
makes no more calls.
";

/// If two begin alike, the longer one comes first.
const TOPICS: &[Topic] = &[
    Topic {
        words: "input",
        help: Help::Judge,
        line: "  kfifo: input",
        advice: "\
Allowed: at most 16777216 bytes, of a log for `judge`, `least` and `draw` any
number.
To do: see that the file is there and can be read, or judge a log in CSV in
place of a long record.
",
    },
    Topic {
        words: "not json",
        help: Help::Check,
        line: "  kfifo: not json",
        advice: "\
Allowed: a JSON array of calls, as `kfifo check --help` shows, of at most 127
levels.
To do: see that the whole record was written. `judge`, `least` and `draw` read a
log in CSV, too; `check` and `measure` read what `kfifo import < log.csv`
prints.
",
    },
    Topic {
        words: "record fault 1",
        help: Help::Check,
        line: "  kfifo: record fault 1",
        advice: "\
Allowed: a JSON array, with an object for each call.
To do: put the calls between [ and ].
",
    },
    Topic {
        words: "record fault 2",
        help: Help::Check,
        line: "  kfifo: record fault 2",
        advice: "\
Allowed: at most 65536 calls of a record, or of a log to import; 16777215 of a
log to judge.
To do: judge a shorter run.
",
    },
    Topic {
        words: "record fault 3 at line",
        help: Help::Import,
        line: "  kfifo: record fault 3 at line",
        advice: FIELDS,
    },
    Topic {
        words: "record fault 3",
        help: Help::Check,
        line: "  kfifo: record fault 3",
        advice: FIELDS,
    },
    Topic {
        words: "record fault 4 at line",
        help: Help::Import,
        line: "  kfifo: record fault 4 at line",
        advice: RANGES,
    },
    Topic {
        words: "record fault 4",
        help: Help::Check,
        line: "  kfifo: record fault 4",
        advice: RANGES,
    },
    Topic {
        words: "record fault 5 at line",
        help: Help::Import,
        line: "  kfifo: record fault 5 at line",
        advice: ANSWERS,
    },
    Topic {
        words: "record fault 5",
        help: Help::Check,
        line: "  kfifo: record fault 5",
        advice: ANSWERS,
    },
    Topic {
        words: "record fault 6 at line",
        help: Help::Import,
        line: "  kfifo: record fault 6 at line",
        advice: TIMES,
    },
    Topic {
        words: "record fault 6",
        help: Help::Check,
        line: "  kfifo: record fault 6",
        advice: TIMES,
    },
    Topic {
        words: "record fault 7",
        help: Help::Check,
        line: "  kfifo: record fault 7",
        advice: "\
Allowed: calls in ascending order of `first`, no two with one `first`.
To do: sort the calls by `first`. In a log in CSV lines may stand in any order,
and two calls may begin at one time.
",
    },
    Topic {
        words: "record fault 8 at line",
        help: Help::Import,
        line: "  kfifo: record fault 8 at line",
        advice: OVERLAP,
    },
    Topic {
        words: "record fault 8",
        help: Help::Check,
        line: "  kfifo: record fault 8",
        advice: OVERLAP,
    },
    Topic {
        words: "record fault 9",
        help: Help::Check,
        line: "  kfifo: record fault 9",
        advice: "\
To do: give the program more memory, or judge a shorter run.
",
    },
    Topic {
        words: "no input",
        help: Help::Judge,
        line: "  kfifo: no input",
        advice: "\
Allowed: a record in JSON or a log in CSV on standard input.
To do: read the line before this fault. Where another command stands before this
one in a pipe, as in `kfifo import < log.csv | kfifo judge`, it has probably
failed, and printed why.
",
    },
    Topic {
        words: "csv fault",
        help: Help::Import,
        line: "  kfifo: csv fault",
        advice: "\
Allowed: a header with thread, op, item, first, last and answer, each once and
in any order, and below it a call a line, with as many fields; a field that does
not apply is empty.
To do: look at this line, counted from 1. A record in JSON begins with [.
",
    },
    Topic {
        words: "search fault 1",
        help: Help::Check,
        line: "  kfifo: search fault 1",
        advice: "\
Allowed: at most 12 calls where no order is given.
To do: use `kfifo judge`, which takes 65536 calls, or give an --order.
",
    },
    Topic {
        words: "search fault 2",
        help: Help::Check,
        line: "  kfifo: search fault 2",
        advice: "\
To do: give the program more memory, or use `kfifo judge`.
",
    },
    Topic {
        words: "measure fault 2",
        help: Help::Measure,
        line: "  kfifo: measure fault 2",
        advice: "\
Allowed: items of which no two enqueues that are done or unfinished carry one,
and no two dequeues got one.
To do: give each item a number of its own.
",
    },
    Topic {
        words: "memory",
        help: Help::Check,
        line: "  kfifo: memory",
        advice: "\
To do: give the program more memory, or judge a shorter run.
",
    },
];

/// Faults of what is read, and of the machine that the program runs on.
pub(crate) fn topics() -> &'static [Topic] {
    TOPICS
}
