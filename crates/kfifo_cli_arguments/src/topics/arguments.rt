//! Faults of the command line and of what its arguments ask for.

use kfifo_cli_requests::{Help, Topic};

/// If two begin alike, the longer one comes first.
const TOPICS: &[Topic] = &[
    Topic {
        words: "shape fault 1",
        help: Help::Run,
        line: "  kfifo: shape fault 1",
        advice: "\
Allowed: -k from 1 to 64, by default 2.
To do: give another -k.
",
    },
    Topic {
        words: "shape fault 2",
        help: Help::Run,
        line: "  kfifo: shape fault 2",
        advice: "\
Allowed: --segments from 2 to 1024, by default 2.
To do: give another --segments.
",
    },
    Topic {
        words: "shape fault 3",
        help: Help::Run,
        line: "  kfifo: shape fault 3",
        advice: "\
Allowed: --last from 2 to 1099511627775, the default.
To do: give another --last, or none.
",
    },
    Topic {
        words: "shape fault 4",
        help: Help::Run,
        line: "  kfifo: shape fault 4",
        advice: "\
Allowed: --probes from 1 to the k of -k, by default k.
To do: give another --probes, or none.
",
    },
    Topic {
        words: "word fault",
        help: Help::Run,
        line: "  kfifo: word fault",
        advice: "\
Allowed: e<ITEM>, e<ITEM>:<START>, d and d:<START>, an item from 1 to 16777215
and a start from 0 to k - 1; of `replay` and `record` such words joined by
commas, of `dispatch` <ID>:<LEFT>:<SUM>.
To do: correct the word with this number, counted from 1; of `replay` and
`record` it is the script with this number.
",
    },
    Topic {
        words: "order fault",
        help: Help::Check,
        line: "  kfifo: order fault",
        advice: "\
Allowed: call numbers of 1 to 10 digits joined by commas, `none`, or @ and the
path of a file with such a text.
To do: correct the value of --order, or the file, of at most 16777216 bytes.
",
    },
    Topic {
        words: "picks fault",
        help: Help::Replay,
        line: "  kfifo: picks fault",
        advice: "\
Allowed: `none`, or groups <THREAD> or <THREAD>x<COUNT> joined by commas, at
most 16777216 picks in all.
To do: correct the value of --picks.
",
    },
    Topic {
        words: "replay fault 1",
        help: Help::Replay,
        line: "  kfifo: replay fault 1",
        advice: "\
Allowed: the numbers of scripts, from 0, that have not ended.
To do: leave this pick out, or give its thread a longer script.
",
    },
    Topic {
        words: "replay fault 2",
        help: Help::Replay,
        line: "  kfifo: replay fault 2",
        advice: "\
To do: give the program more memory, or make fewer picks.
",
    },
    Topic {
        words: "replay fault 3",
        help: Help::Replay,
        line: "  kfifo: replay fault 3",
        advice: "\
Allowed: 1 to 64 scripts of at most 64 calls, and with --stop the number of one
of them, from 0.
To do: make fewer or shorter scripts, or name another thread.
",
    },
    Topic {
        words: "trace fault",
        help: Help::Replay,
        line: "  kfifo: trace fault",
        advice: "\
Allowed: at most 65536 steps with --trace.
To do: make fewer picks, or leave out --trace.
",
    },
    Topic {
        words: "open fault 1",
        help: Help::Record,
        line: "  kfifo: open fault 1",
        advice: "\
Allowed: 1 to 64 scripts, a thread for each.
To do: make fewer scripts.
",
    },
    Topic {
        words: "open fault 2",
        help: Help::Record,
        line: "  kfifo: open fault 2",
        advice: "\
To do: give the program more memory, or make the queue smaller.
",
    },
    Topic {
        words: "open fault 4",
        help: Help::Record,
        line: "  kfifo: open fault 4",
        advice: "\
Allowed: at most 1024 calls of a script times --repeat.
To do: make the script shorter, or --repeat less.
",
    },
    Topic {
        words: "dispatch fault 1",
        help: Help::Dispatch,
        line: "  kfifo: dispatch fault 1",
        advice: "\
Allowed: at most 1024 tasks.
To do: dispatch them in several runs.
",
    },
    Topic {
        words: "dispatch fault 2",
        help: Help::Dispatch,
        line: "  kfifo: dispatch fault 2",
        advice: "\
Allowed: each ID once.
To do: give one of the two tasks another ID.
",
    },
    Topic {
        words: "dispatch fault 3",
        help: Help::Dispatch,
        line: "  kfifo: dispatch fault 3",
        advice: "\
To do: give the program more memory, or dispatch fewer tasks.
",
    },
    Topic {
        words: "dispatch fault 4",
        help: Help::Dispatch,
        line: "  kfifo: dispatch fault 4",
        advice: "\
Allowed: --workers from 1 to 63, by default 2.
To do: give another --workers.
",
    },
    Topic {
        words: "draw fault 1",
        help: Help::Draw,
        line: "  kfifo: draw fault 1",
        advice: "\
Allowed: at most 4096 calls in a picture.
To do: draw a part of the run by --evidence, --calls or --lines.
",
    },
    Topic {
        words: "draw fault 2",
        help: Help::Draw,
        line: "  kfifo: draw fault 2",
        advice: "\
Allowed: options that do not contradict each other, as `kfifo draw --help` says.
To do: leave one of them out.
",
    },
    Topic {
        words: "draw fault 3",
        help: Help::Draw,
        line: "  kfifo: draw fault 3",
        advice: "\
Allowed: two numbers joined by -, the first no greater than the second.
To do: correct the value of --calls or --lines.
",
    },
    Topic {
        words: "draw fault 4",
        help: Help::Draw,
        line: "  kfifo: draw fault 4",
        advice: "\
Allowed: --lines of a log in CSV.
To do: use --calls of a record.
",
    },
    Topic {
        words: "draw fault 5",
        help: Help::Draw,
        line: "  kfifo: draw fault 5",
        advice: "\
Allowed: at most 4096 calls in a picture.
To do: draw a part by --calls or --lines; `kfifo judge` says whether there is
evidence for another k.
",
    },
    Topic {
        words: "explain fault 1",
        help: Help::Explain,
        line: "  kfifo: explain fault 1",
        advice: "\
Allowed: the words of a fault or an answer, as they were printed.
To do: write them as they were printed, or see the help of the command that
printed them.
",
    },
    Topic {
        words: "error:",
        help: Help::Explain,
        line: "  error:",
        advice: "\
To do: see the usage below the error, or `kfifo --help`.
",
    },
];

/// Faults of the command line and of what its arguments ask for.
pub(crate) fn topics() -> &'static [Topic] {
    TOPICS
}
