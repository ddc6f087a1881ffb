//! How an input begins: as a record in JSON or as a log in CSV.
ghost use Rattle.std.specs.Prelude.{◌↔◌, ◌≤◌, IsTrue, length};
ghost use Rattle.kfifo_judge.specs.Inputs.{AreSpaces, BeginsLog, BeginsRecord, EndsSpaces, IsLongRecord, IsSpace};

use crate::streams::MAX_BYTES;

/// Whether a byte is a space, a tab, a line feed or a carriage return.
fn is_space(byte: u8) -> bool
    ensures { IsTrue result ↔ IsSpace byte }
{
    byte == b' ' || byte == b'\t' || byte == b'\n' || byte == b'\r'
}

/// The place of the first byte that is no white space, or the number of bytes. All before `from` is white space.
pub(crate) fn skip_spaces(bytes: &[u8], from: usize) -> usize
    requires inside { from ≤ length bytes.now }
    requires spaces { AreSpaces bytes.now from }
    ensures { EndsSpaces bytes.now result }
{
    for place in from..bytes.len() {
        if !is_space(bytes[place]) {
            return place;
        }
    }
    bytes.len()
}

/// Whether a text is a record in JSON, and not a log in CSV: its first byte that is no white space is `[`.
pub fn begins_record(bytes: &[u8]) -> bool
    ensures { IsTrue result ↔ BeginsRecord bytes.now }
{
    begins_there(bytes, skip_spaces(bytes, 0))
}

/// Whether a text whose white space ends there is a record.
fn begins_there(bytes: &[u8], place: usize) -> bool
    requires { EndsSpaces bytes.now place }
    ensures { IsTrue result ↔ BeginsRecord bytes.now }
{
    place < bytes.len() && bytes[place] == b'['
}

/// Whether a text whose white space ends there is a record of over 16,777,216 bytes.
pub(crate) fn is_long_record(bytes: &[u8], place: usize) -> bool
    requires { EndsSpaces bytes.now place }
    ensures { IsTrue result ↔ IsLongRecord bytes.now }
{
    bytes.len() > MAX_BYTES && begins_there(bytes, place)
}

/// Whether a text whose white space ends there begins a log: its first byte that is no white space is there, and is no
/// `[`.
pub(crate) fn begins_log(bytes: &[u8], place: usize) -> bool
    requires { EndsSpaces bytes.now place }
    ensures { IsTrue result → BeginsLog bytes.now }
{
    place < bytes.len() && bytes[place] != b'['
}
