//! The outside as two traits: a shelf of files by name and a sink for text. Each tells what it
//! holds, where that is known, and counts its faults, so that a caller's contract can say that an
//! answer about a fault came only where that count rose.
#![tactic(auto)]

ghost use Rattle.std.specs.Prelude.{◌≡◌, ◌≤◌, ℕ, List, [], OnOk, OnErr, IfOk, length};
ghost use Rattle.std.specs.declared.option.Option.{Option};
ghost use Rattle.std.specs.Io.KnownBytes.{ReadConsumes, WriteAppends};
ghost use Rattle.hy_outside.specs.Outside.{HasCause, IsToldAs, OpenCause, OpensTo, Takes, opened_after};

use hy_text::Text;
use std::alloc::Global;

pub mod arguments;
pub mod memory;
pub mod system;

pub use arguments::words_of;
pub use memory::{MemShelf, MemSink, Turn};
pub use system::{FileShelf, StdSink};

/// Why a file was not opened.
#[derive(Clone, Copy, Debug, PartialEq, Eq)]
pub enum ShelfFault {
    /// It is not there, or the shelf failed.
    Failed,
    /// A request for memory was refused.
    NoMemory,
}

/// A read or a write that failed.
#[derive(Clone, Copy, Debug, PartialEq, Eq)]
pub struct Failed;

/// Files by name, at most one of which is open.
pub trait Shelf {
    /// The bytes under each name, where they are told; of two entries of one name the first counts.
    /// No call changes it.
    ghost files: { Self → Option (List (List ℕ × List ℕ)) };

    /// The bytes of the opened file that are not yet read, where they are told. It is empty before
    /// the first `open` and after one that did not answer `Ok`.
    ghost left: { Self → Option (List ℕ) };

    /// How many calls failed. It never falls, and a counter of it may stop at the greatest `u64`.
    ghost faults: { Self → ℕ };

    /// The names given to `open`, in order, but for calls that found no memory.
    ghost opened: { Self → List (List ℕ) };

    /// Opens the file of that name. `Failed` comes only where `faults` rose; a name that is not
    /// there is a `Failed`.
    fn open(&mut self, alloc: Global, name: &Text) -> Result<(), ShelfFault>
        ensures files { files self.new ≡ files self.old }
        ensures opens { OnOk result (OpensTo (files self.old) name.now (left self.new)) }
        ensures closed { OnErr result (IsToldAs (left self.new) []) }
        ensures opened { opened self.new ≡ opened_after (opened self.old) name.now result }
        ensures cause { OpenCause (faults self.old) (faults self.new) result };

    /// Reads the next bytes of the open file to the front of `buf`, and answers how many.
    ///
    /// Into a `buf` that is not empty it reads 0 bytes only where none is left. `Failed` comes only
    /// where `faults` rose, and what is left is then unchanged.
    fn read(&mut self, buf: &mut [u8]) -> Result<usize, Failed>
        ensures bound { IfOk result (λ n. n ≤ length buf.new) }
        ensures bytes { ReadConsumes (left self.old) (left self.new) result buf.new }
        ensures files { files self.new ≡ files self.old }
        ensures opened { opened self.new ≡ opened self.old }
        ensures cause { HasCause (faults self.old) (faults self.new) result };
}

/// Where text goes.
pub trait Sink {
    /// All bytes that were taken, where they are told.
    ghost held: { Self → Option (List ℕ) };

    /// How many calls failed. It never falls, and a counter of it may stop at the greatest `u64`.
    ghost faults: { Self → ℕ };

    /// Takes bytes from the front of `piece`, at least one where it has one, and answers how many.
    /// `Failed` comes only where `faults` rose, and what is held is then unchanged.
    fn write(&mut self, piece: &[u8]) -> Result<usize, Failed>
        ensures taken { Takes piece.now result }
        ensures held { WriteAppends (held self.old) (held self.new) result piece.now }
        ensures cause { HasCause (faults self.old) (faults self.new) result };
}
