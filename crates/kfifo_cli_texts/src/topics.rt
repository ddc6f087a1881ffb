//! What faults and answers mean: found in the help, by their words as they are printed.

use kfifo_cli_requests::{Help, HelpTexts, Topic};
use std::alloc::{AllocError, Global};

/// How a line of help begins that goes on with the line before it.
const CONTINUED: &str = "               ";

/// Whether the word is the one of the pattern.
fn fits(word: &str, pattern: &str) -> bool {
    match pattern.strip_prefix('#') {
        Some(rest) => {
            let after = word.trim_start_matches(|c: char| c.is_ascii_digit());
            after.len() < word.len() && after == rest
        }
        None => word == pattern,
    }
}

/// Whether the words begin with the pattern's.
fn begin_with(words: &[&str], pattern: &str) -> bool {
    for (place, wanted) in pattern.split(' ').enumerate() {
        match words.get(place) {
            Some(word) if fits(word, wanted) => {}
            _ => return false,
        }
    }
    true
}

/// The words in the arguments, without the program's name, which stands before a fault.
fn words_in<'a>(alloc: Global, arguments: &[&'a str]) -> Result<Vec<&'a str>, AllocError> {
    let mut words = Vec::new(alloc);
    for argument in arguments {
        for word in argument.split_whitespace() {
            if word != "kfifo:" {
                words.push(word)?;
            }
        }
    }
    Ok(words)
}

/// The text of a help.
fn text_of<'a>(helps: &HelpTexts<'a>, help: Help) -> &'a str {
    match help {
        Help::Run => helps.run,
        Help::Check => helps.check,
        Help::Measure => helps.measure,
        Help::Replay => helps.replay,
        Help::Judge => helps.judge,
        Help::Least => helps.least,
        Help::Record => helps.record,
        Help::Import => helps.import,
        Help::Draw => helps.draw,
        Help::Dispatch => helps.dispatch,
        Help::Explain => helps.explain,
    }
}

/// Adds the lines of a help that say what a topic means.
fn push_meaning(text: &mut String, help: &str, topic: &Topic) -> Result<(), AllocError> {
    let mut inside = false;
    for line in help.lines() {
        inside = line.starts_with(topic.line) || (inside && line.starts_with(CONTINUED));
        if inside {
            text.push_str(line)?;
            text.push('\n')?;
        }
    }
    Ok(())
}

/// What is said of the first of the topics with which the arguments begin, none where they begin with none: its lines
/// of the help, and what is allowed and what to do.
pub fn explanation(
    alloc: Global,
    arguments: &[&str],
    topics: &[Topic],
    helps: &HelpTexts<'_>,
) -> Result<Option<String>, AllocError> {
    let words = words_in(alloc, arguments)?;
    for topic in topics {
        if begin_with(words.as_slice(), topic.words) {
            let mut text = String::new(alloc);
            push_meaning(&mut text, text_of(helps, topic.help), topic)?;
            text.push_str(topic.advice)?;
            return Ok(Some(text));
        }
    }
    Ok(None)
}
