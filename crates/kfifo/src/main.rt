//! The program `kfifo`: a bounded-size k-FIFO queue without locks, at the command line.
#![tactic(auto)]

pub use kfifo_cli::program;
use kfifo_cli::program_showing;
use kfifo_cli_commands::{Started, start_program};
pub use kfifo_judge::{FromStd, Sink, Source, check_stream, measure_stream};
pub use kfifo_record::record_scripts;
use std::process::ExitCode;

fn main(rt: HostRuntime) -> ExitCode {
    let status = match start_program(&rt) {
        Ok(start) => {
            let Started {
                words,
                mut input,
                mut output,
                mut faults,
                mut progress,
            } = start;
            program_showing(
                &rt,
                rt.alloc(),
                words.as_slice(),
                &mut input,
                &mut output,
                &mut faults,
                &mut progress,
            )
        }
        Err(status) => status,
    };
    ExitCode::from(status)
}
