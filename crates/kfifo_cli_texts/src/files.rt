//! Files that the command line names.
ghost use Rattle.std.specs.Prelude.{◌≤◌, IfOk, length};
ghost use Rattle.kfifo_judge.specs.declared.streams.TheConstants.{MAX_BYTES};

use kfifo_judge::{FromStd, ReadFault, read_all};
use std::alloc::Global;
use std::rt::Files;
use std::{fs, io};

/// Why a file was not read.
#[derive(Drop)]
pub enum FileFault {
    /// It could not be opened or read, for the reason that the system gave.
    Failed(Option<io::Error>),
    /// It has over 16,777,216 bytes, which are allowed.
    TooLong,
    /// An allocation failed.
    Memory,
}

/// Returns a file to be read.
pub fn open_file<R: Files>(files: &R, path: &str) -> io::Result<FromStd<R::File>> {
    let file = fs::open(files, path)?;
    Ok(FromStd::new(file))
}

/// Why a file was not read that gave this fault.
fn fault_of<T: Drop>(fault: ReadFault, file: FromStd<T>) -> FileFault {
    match fault {
        ReadFault::Failed => FileFault::Failed(file.reason),
        ReadFault::TooLong => FileFault::TooLong,
        ReadFault::Memory => FileFault::Memory,
    }
}

/// The bytes of a file, at most 16,777,216.
pub fn read_file<R: Files>(alloc: Global, files: &R, path: &str) -> Result<Vec<u8>, FileFault>
    ensures { IfOk result (λ bytes. length bytes.items ≤ MAX_BYTES) }
{
    let mut file = match open_file(files, path) {
        Ok(file) => file,
        Err(error) => return Err(FileFault::Failed(Some(error))),
    };
    match read_all(alloc, &mut file) {
        Ok(bytes) => Ok(bytes),
        Err(fault) => Err(fault_of(fault, file)),
    }
}
