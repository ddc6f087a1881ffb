//! The command `explain`: what a fault or an answer means.
ghost use Rattle.std.specs.Prelude.{◌≢◌, IfErr};
ghost use Rattle.kfifo_cli_commands.specs.Explanations.{IsExplainRefusal};

use kfifo_cli_requests::ExplainOptions;
use kfifo_cli_texts::{Fault, explanation};
use std::alloc::Global;

/// What the words mean, what is allowed, and what to do.
pub fn answer(alloc: Global, options: ExplainOptions<'_>) -> Result<String, Fault>
    ensures err { IfErr result IsExplainRefusal }
    ensures silent { IfErr result (λ fault. fault ≢ Fault.Output) }
{
    if let Some(text) = explanation(alloc, options.words, options.first_topics, &options.helps)? {
        return Ok(text);
    }
    if let Some(text) = explanation(alloc, options.words, options.second_topics, &options.helps)? {
        return Ok(text);
    }
    if let Some(text) = explanation(alloc, options.words, options.third_topics, &options.helps)? {
        return Ok(text);
    }
    if let Some(text) = explanation(alloc, options.words, options.fourth_topics, &options.helps)? {
        return Ok(text);
    }
    match explanation(alloc, options.words, options.last_topics, &options.helps)? {
        Some(text) => Ok(text),
        None => Err(Fault::Unexplained),
    }
}
