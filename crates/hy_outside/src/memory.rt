//! A shelf and a sink in memory that follow a list of turns, so that every fault of the outside can
//! be had at will.

ghost use Rattle.std.specs.Prelude.{◌≡◌, ◌≤◌, ◌<◌, ℕ, List, [], None, Some, IfOk, IfSome, OnOk, OnErr, MatchOption, drop, length, take, min};
ghost use Rattle.std.specs.Io.KnownBytes.{ReadConsumes, WriteAppends};
ghost use Rattle.hy_outside.specs.Outside.{HasCause, IsToldAs, OpenCause, OpensTo, Takes, bytes_of, opened_after};
ghost use Rattle.hy_outside.specs.Memory.{Answers, Opens, found_at, later_turns, next_turn, read_by, read_count, refuses, taken_of, write_count, written_by};

use crate::{Failed, Shelf, ShelfFault, Sink};
use hy_text::{Bytes, Text};
use std::alloc::{AllocError, Global};
use std::marker::Model;

/// What the next call does.
#[derive(Clone, Copy, Debug, PartialEq, Eq)]
pub enum Turn {
    /// All that it is asked.
    All,
    /// At most so many bytes. A read gives at least one where there is one; a write at 0 fails.
    AtMost(usize),
    /// It fails.
    Fail,
}

// The turns of the calls to come.
#[derive(Drop)]
struct Turns {
    turns: Vec<Turn>,
    next: usize,
}

impl Model for Turns {
    ghost use Rattle.std.specs.Prelude.{List, drop};
    ghost use Rattle.hy_outside.specs.declared.memory.Turn.{Turn};

    ghost Value = { List Turn };

    ghost view = { λ t. drop t.next t.turns.items };
}

impl Turns {
    fn new(turns: Vec<Turn>) -> Turns
        ensures { result ≡ turns.items }
    {
        Turns { turns, next: 0 }
    }

    fn take(&mut self) -> Turn
        ensures turn { result ≡ next_turn self.old }
        ensures later { self.new ≡ later_turns self.old }
    {
        if self.next < self.turns.len() {
            let turn = self.turns[self.next];
            self.next += 1;
            return turn;
        }
        Turn::All
    }
}

/// Files in memory. It tells everything.
#[derive(Drop)]
pub struct MemShelf {
    files: Vec<(Text, Bytes)>,
    turns: Turns,
    content: Bytes,
    at: usize,
    faults: u64,
    opened: Vec<Text>,
}

impl Model for MemShelf {
    ghost use Rattle.std.specs.Prelude.{◌≤◌, drop, length};
    ghost use Rattle.hy_outside.specs.Memory.{ShelfState};

    ghost Value = { ShelfState };

    ghost view = { λ s. record { files = s.files.items; turns = s.turns; left = drop s.at s.content; faults = s.faults; opened = s.opened.items } };

    ghost invariant = { λ s. s.at ≤ length s.content };
}

// The bytes of the first file of that name.
fn find<'a>(files: &'a [(Text, Bytes)], name: &Text) -> Option<&'a Bytes>
    ensures { MatchOption result (bytes_of files.now name.now ≡ None) (λ b. bytes_of files.now name.now ≡ Some b.now) }
{
    for file in files {
        if file.0.equals(name) {
            return Some(&file.1);
        }
    }
    None
}

// A copy of what an open finds at a turn.
fn content_at(
    alloc: Global,
    turn: Turn,
    files: &[(Text, Bytes)],
    name: &Text,
) -> Result<Option<Bytes>, AllocError>
    ensures { IfOk result (λ found. found ≡ found_at turn (bytes_of files.now name.now)) }
{
    match turn {
        Turn::Fail => Ok(None),
        Turn::All => copied(alloc, files, name),
        Turn::AtMost(_) => copied(alloc, files, name),
    }
}

fn copied(alloc: Global, files: &[(Text, Bytes)], name: &Text) -> Result<Option<Bytes>, AllocError>
    ensures { IfOk result (λ found. found ≡ bytes_of files.now name.now) }
{
    match find(files, name) {
        None => Ok(None),
        Some(bytes) => {
            let copy = bytes.copy(alloc)?;
            Ok(Some(copy))
        }
    }
}

// How many of `most` bytes a read gives, or None where it fails.
fn count_at(turn: Turn, most: usize) -> Option<usize>
    ensures count { result ≡ read_count turn most }
    ensures within { IfSome result (λ n. n ≤ most) }
    ensures some { IfSome result (λ n. 0 < most → 0 < n) }
{
    match turn {
        Turn::All => Some(most),
        Turn::AtMost(limit) => Some(limit.max(1).min(most)),
        Turn::Fail => None,
    }
}

impl MemShelf {
    /// A shelf of these files, of which none is open. The k-th call of `open` or `read` obeys the
    /// k-th turn, and `Turn::All` past their end; to `open` an `AtMost` is `All`. It takes no memory.
    pub fn new(alloc: Global, files: Vec<(Text, Bytes)>, turns: Vec<Turn>) -> MemShelf
        ensures { result ≡ record { files = files.items; turns = turns.items; left = []; faults = 0; opened = [] } }
    {
        MemShelf {
            files,
            turns: Turns::new(turns),
            content: Bytes::new(alloc),
            at: 0,
            faults: 0,
            opened: Vec::new(alloc),
        }
    }
}

impl Shelf for MemShelf {
    ghost files = { λ s. Some s.files };

    ghost left = { λ s. Some s.left };

    ghost faults = { λ s. s.faults };

    ghost opened = { λ s. s.opened };

    fn open(&mut self, alloc: Global, name: &Text) -> Result<(), ShelfFault>
        ensures state { Opens self.old name.now result self.new }

        ensures files { Some self.new.files ≡ Some self.old.files }
        ensures opens { OnOk result (OpensTo (Some self.old.files) name.now (Some self.new.left)) }
        ensures closed { OnErr result (IsToldAs (Some self.new.left) []) }
        ensures opened { self.new.opened ≡ opened_after self.old.opened name.now result }
        ensures cause { OpenCause self.old.faults self.new.faults result }
    {
        let turn = self.turns.take();
        self.at = self.content.len();
        let Ok(copied) = name.copy(alloc) else {
            return Err(ShelfFault::NoMemory);
        };
        let Ok(found) = content_at(alloc, turn, &self.files, name) else {
            return Err(ShelfFault::NoMemory);
        };
        if self.opened.push(copied).is_err() {
            return Err(ShelfFault::NoMemory);
        }
        match found {
            Some(content) => {
                self.at = 0;
                self.content = content;
                Ok(())
            }
            None => {
                self.faults = self.faults.saturating_add(1);
                Err(ShelfFault::Failed)
            }
        }
    }

    fn read(&mut self, buf: &mut [u8]) -> Result<usize, Failed>
        ensures answer { Answers (read_count (next_turn self.old.turns) (min (length buf.new) (length self.old.left))) result }
        ensures state { self.new ≡ read_by self.old (read_count (next_turn self.old.turns) (min (length buf.new) (length self.old.left))) }

        ensures bound { IfOk result (λ n. n ≤ length buf.new) }
        ensures bytes { ReadConsumes (Some self.old.left) (Some self.new.left) result buf.new }
        ensures files { Some self.new.files ≡ Some self.old.files }
        ensures opened { self.new.opened ≡ self.old.opened }
        ensures cause { HasCause self.old.faults self.new.faults result }
    {
        let turn = self.turns.take();
        let most = buf.len().min(self.content.len() - self.at);
        let Some(count) = count_at(turn, most) else {
            self.faults = self.faults.saturating_add(1);
            return Err(Failed);
        };
        let end = self.at + count;
        buf[..count].copy_from_slice(&self.content.as_slice()[self.at..end]);
        self.at = end;
        Ok(count)
    }
}

/// A sink in memory that holds a limited number of bytes. It tells what it holds.
#[derive(Drop)]
pub struct MemSink {
    held: Vec<u8>,
    room: usize,
    turns: Turns,
    faults: u64,
}

impl Model for MemSink {
    ghost use Rattle.std.specs.Prelude.{◌≤◌, length, vec_capacity};
    ghost use Rattle.hy_outside.specs.Memory.{SinkState};

    ghost Value = { SinkState };

    ghost view = { λ s. record { held = s.held.items; room = s.room; turns = s.turns; faults = s.faults } };

    ghost invariant = { λ s. (length s.held.items ≤ s.room) × (s.room ≤ vec_capacity s.held) };
}

fn is_refused(turn: Turn, size: usize, free: usize) -> bool
    ensures { result ≡ refuses turn size free }
{
    match turn {
        Turn::Fail => true,
        Turn::All => 0 < size && free == 0,
        Turn::AtMost(limit) => 0 < size && (limit == 0 || free == 0),
    }
}

fn count_to_write(turn: Turn, most: usize) -> usize
    ensures count { result ≡ write_count turn most }
    ensures within { result ≤ most }
{
    match turn {
        Turn::All => most,
        Turn::AtMost(limit) => limit.min(most),
        Turn::Fail => 0,
    }
}

impl MemSink {
    /// A sink with room for so many bytes, for which it takes the memory here. The k-th `write`
    /// obeys the k-th turn, and `Turn::All` past their end.
    pub fn new(alloc: Global, room: usize, turns: Vec<Turn>) -> Result<MemSink, AllocError>
        ensures { IfOk result (λ s. s ≡ record { held = []; room = room; turns = turns.items; faults = 0 }) }
    {
        let held = Vec::with_capacity(alloc, room)?;
        Ok(MemSink {
            held,
            room,
            turns: Turns::new(turns),
            faults: 0,
        })
    }

    /// All bytes that were taken.
    pub fn held(&self) -> &[u8]
        ensures { result.now ≡ self.now.held }
    {
        self.held.as_slice()
    }
}

impl Sink for MemSink {
    ghost held = { λ s. Some s.held };

    ghost faults = { λ s. s.faults };

    fn write(&mut self, piece: &[u8]) -> Result<usize, Failed>
        ensures answer { Answers (taken_of self.old piece.now) result }
        ensures state { self.new ≡ written_by self.old piece.now (taken_of self.old piece.now) }

        ensures taken { Takes piece.now result }
        ensures held { WriteAppends (Some self.old.held) (Some self.new.held) result piece.now }
        ensures cause { HasCause self.old.faults self.new.faults result }
    {
        let turn = self.turns.take();
        let free = self.room - self.held.len();
        if is_refused(turn, piece.len(), free) {
            self.faults = self.faults.saturating_add(1);
            return Err(Failed);
        }
        let taken = count_to_write(turn, piece.len().min(free));
        self.held.extend_from_slice(&piece[..taken]).unwrap();
        Ok(taken)
    }
}
