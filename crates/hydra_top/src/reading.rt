//! Reading a file to its end, or to where it is too long.

ghost use Rattle.std.specs.Prelude.{◌≡◌, ◌≤◌, ◌<◌, IfOk, Some, OnOk, OnErr};
ghost use Rattle.hy_outside.specs.Outside.{Rose};
ghost use Rattle.hydra_top.specs.Opened.{OpensOneMore, read_extent};
ghost use Rattle.hydra_top.specs.Reading.{ReadCause, ReadsFile, ReadsLeft};

use hy_outside::{Shelf, ShelfFault};
use hy_text::{Bytes, Text};
use std::alloc::Global;

/// The greatest number of bytes of a file.
pub const LIMIT: usize = 16_777_216;

// How many bytes are read at once.
const PIECE: usize = 4096;

/// What was read of a file.
#[derive(Drop)]
pub enum Source {
    /// All its bytes, which are at most `LIMIT`.
    Whole(Bytes),
    /// It has more than `LIMIT` bytes.
    TooLong,
}

/// Why a file was not read.
#[derive(Clone, Copy, Debug, PartialEq, Eq)]
pub enum ReadEnd {
    /// It could not be opened, or a read failed.
    Failed,
    /// A request for memory was refused.
    NoMemory,
}

/// Opens the file of that name and reads it to its end, or until one byte more than `LIMIT` was
/// read: no more is taken from the shelf. It takes the memory of what it has read.
pub fn read_file<S: Shelf>(alloc: Global, shelf: &mut S, name: &Text) -> Result<Source, ReadEnd>
    ensures file { IfOk result (λ source. ReadsFile (S.files shelf.old) name.now (S.left shelf.new) source) }
    ensures cause { ReadCause (S.faults shelf.old) (S.faults shelf.new) result }
    ensures files { S.files shelf.new ≡ S.files shelf.old }
    ensures opened { OpensOneMore (read_extent result) name.now (S.opened shelf.old) (S.opened shelf.new) }
{
    match shelf.open(alloc, name) {
        Ok(()) => read_rest(alloc, shelf),
        Err(ShelfFault::Failed) => Err(ReadEnd::Failed),
        Err(ShelfFault::NoMemory) => Err(ReadEnd::NoMemory),
    }
}

// Reads what is left of the open file.
fn read_rest<S: Shelf>(alloc: Global, shelf: &mut S) -> Result<Source, ReadEnd>
    ensures left { IfOk result (λ source. ReadsLeft (S.left shelf.old) (S.left shelf.new) source) }
    ensures cause { ReadCause (S.faults shelf.old) (S.faults shelf.new) result }
    ensures files { S.files shelf.new ≡ S.files shelf.old }
    ensures opened { S.opened shelf.new ≡ S.opened shelf.old }
{
    let mut bytes = Bytes::new(alloc);
    while bytes.len() <= LIMIT {
        let mut buffer = [0u8; PIECE];
        let room = (LIMIT + 1 - bytes.len()).min(PIECE);
        let piece = &mut buffer[..room];
        let Ok(count) = shelf.read(piece) else {
            return Err(ReadEnd::Failed);
        };
        if count == 0 {
            return Ok(Source::Whole(bytes));
        }
        if bytes.append(&piece[..count]).is_err() {
            return Err(ReadEnd::NoMemory);
        }
    }
    Ok(Source::TooLong)
}
