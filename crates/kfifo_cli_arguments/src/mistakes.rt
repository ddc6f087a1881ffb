//! What is wrong with a command line.

use crate::commands::{check, measure};
use clap::Error;
use std::alloc::{AllocError, Global};
use std::fmt::Write;

/// Whether the command reads standard input alone, and takes no file.
fn takes_no_file(command: &str) -> bool {
    [check::NAME, measure::NAME].contains(&command)
}

/// Adds what to do where a word is refused that is no option: it names a file, which is read from standard input.
fn push_advice(
    alloc: Global,
    text: &mut String,
    command: &str,
    words: &[String],
) -> Result<(), AllocError> {
    for word in words {
        let word = word.as_str();
        let refused = format!(in alloc; "unexpected argument '{word}' found")?;
        if !word.starts_with('-') && text.as_str().contains(refused.as_str()) {
            return writeln!(
                text,
                "\nread it from standard input: kfifo {command} < {word}"
            );
        }
    }
    Ok(())
}

/// Returns what is wrong with `words`, of which a parse gave this error, and what to do where a command that reads
/// standard input alone is given the name of a file. It fails where memory is refused.
pub fn mistake(alloc: Global, words: &[String], error: Error) -> Result<String, AllocError> {
    let mut text = error.to_string(alloc)?;
    let Some((command, words)) = words.split_first() else {
        return Ok(text);
    };
    let command = command.as_str();
    if takes_no_file(command) {
        push_advice(alloc, &mut text, command, words)?;
    }
    Ok(text)
}
