//! The commands, one module for each: how it is written on the command line, and what its options give.

// A help with the first faults of an input that is a record or a log, between these parts of it.
macro_rules! with_input_faults {
    ($before:literal, $($after:literal),+) => {
        concat!(
            $before,
            "  kfifo: input                the file or standard input cannot be read, or is a
                              record of over 16777216 bytes
  kfifo: no input             no byte came; in a pipe the command before has
                              probably failed, and said why
  kfifo: not json             the input is no JSON text, or is not UTF-8
  kfifo: record fault <F>     record faults 1, 2 and 9, as `kfifo check --help`
                              lists them
",
            $($after),+
        )
    };
}

// A help with all of them.
macro_rules! with_all_input_faults {
    ($before:literal, $after:literal) => {
        with_input_faults!(
            $before,
            "  kfifo: record fault <F> at call <N>   record faults 3 to 8 of a record
  kfifo: record fault <F> at line <N>   the same of a log, as
                                        `kfifo import --help` lists them
  kfifo: csv fault at line <N>          the first line of a log lacks a field or
                                        has one twice, or line N does not have
                                        as many fields as it
  kfifo: memory               an allocation failed
",
            $after
        )
    };
}

pub mod check;
pub mod dispatch;
pub mod draw;
pub mod explain;
pub mod import;
pub mod judge;
pub mod least;
pub mod measure;
pub mod record;
pub mod replay;
pub mod run;
