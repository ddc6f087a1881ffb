//! What a log says of calls beside their record.
ghost use Rattle.std.specs.Prelude.{◌≡◌};
ghost use Rattle.kfifo_model.specs.Logged.{line_of};

/// What a log says of a call beside its record.
#[derive(Clone, Copy, Debug, PartialEq, Eq)]
pub struct LoggedCall {
    /// The number of the line that the call stands in, from 1.
    pub line: u64,
    /// When the call began, as the log gives it.
    pub first: u64,
    /// When the call ended, as the log gives it; none of an unfinished call.
    pub last: Option<u64>,
    /// The item that the call put or got, as the log gives it; none of a call that put and got none.
    pub item: Option<u64>,
}

/// The line of the log that the call with this number stands in, from 1; 0 where the log has no such call.
pub fn logged_line(calls: &[LoggedCall], number: usize) -> u64
    ensures { result ≡ line_of calls.now number }
{
    calls.get(number).map_or(0, |call| call.line)
}
