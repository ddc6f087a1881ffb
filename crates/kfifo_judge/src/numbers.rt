//! Lines of numbers.
ghost use Rattle.std.specs.Prelude.{◌≡◌, ◌++◌, OnOk, string_bytes};
ghost use Rattle.kfifo_judge.specs.Numbers.{further, greatest, joined, numbers_line};

use std::alloc::AllocError;
use std::fmt::Write;

/// Adds a line of numbers joined by commas, after a name; `none` where there are no numbers.
pub fn push_numbers(text: &mut String, name: &str, numbers: &[usize]) -> Result<(), AllocError>
    ensures { OnOk result (string_bytes text.new ≡ string_bytes text.old ++ numbers_line name.now numbers.now) }
{
    text.push_str(name)?;
    push_joined(text, numbers)?;
    text.push('\n')
}

/// Adds numbers joined by commas, or `none`.
pub(crate) fn push_joined(text: &mut String, numbers: &[usize]) -> Result<(), AllocError>
    ensures { OnOk result (string_bytes text.new ≡ string_bytes text.old ++ joined numbers.now) }
{
    let Some((first, rest)) = numbers.split_first() else {
        return text.push_str("none");
    };
    write!(text, "{first}")?;
    push_further(text, rest)
}

/// Adds further numbers, each after a comma.
fn push_further(text: &mut String, numbers: &[usize]) -> Result<(), AllocError>
    ensures { OnOk result (string_bytes text.new ≡ string_bytes text.old ++ further numbers.now) }
{
    for number in numbers {
        write!(text, ",{number}")?;
    }
    Ok(())
}

/// The greatest of these numbers, 0 where there is none.
pub(crate) fn greatest_of(numbers: &[u32]) -> u32
    ensures { result ≡ greatest numbers.now }
{
    let mut most = 0;
    for number in numbers {
        most = most.max(*number);
    }
    most
}
