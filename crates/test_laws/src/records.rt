//! Records as text.

use std::alloc::{AllocError, Global};

/// The text of a record with so many calls of one thread, which finds the queue empty each time.
pub fn empty_takes(alloc: Global, calls: u32) -> Result<String, AllocError> {
    let mut text = String::with_capacity(alloc, 80 * calls as usize + 2)?;
    text.push('[')?;
    for n in 0..calls {
        if n > 0 {
            text.push(',')?;
        }
        let call = format!(in alloc;
            "{{\"thread\":0,\"op\":\"deq\",\"first\":{n},\"last\":{n},\"answer\":\"empty\"}}"
        )?;
        text.push_str(call.as_str())?;
    }
    text.push(']')?;
    Ok(text)
}
