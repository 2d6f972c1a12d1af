//! The shelf of real files and the standard output. They tell no bytes: what a file holds and what
//! becomes of what is printed is outside every contract. They count their faults.

ghost use Rattle.std.specs.Prelude.{◌≡◌, ◌≤◌, ℕ, List, [], None, Ok, false, is_ok, IfOk, OnOk, OnErr, length};
ghost use Rattle.std.specs.Io.KnownBytes.{ReadConsumes, WriteAppends};
ghost use Rattle.hy_outside.specs.Outside.{HasCause, IsToldAs, OpenCause, OpensTo, Takes, one_more, opened_after};
ghost use Rattle.hy_outside.specs.System.{opens_counted};

use crate::{Failed, Shelf, ShelfFault, Sink};
use hy_text::Text;
use std::alloc::Global;
use std::fs;
use std::io::Read;
use std::marker::Model;
use std::rt::Files;

/// Files by name, as the runtime `R` has them.
#[derive(Drop)]
pub struct FileShelf<'a, R: Files> {
    rt: &'a R,
    file: Option<R::File>,
    faults: u64,
    opened: Vec<Text>,
}

impl<'a, R: Files> Model for FileShelf<'a, R> {
    ghost use Rattle.std.specs.Prelude.{is_some};
    ghost use Rattle.hy_outside.specs.System.{FileState};

    ghost Value = { FileState };

    ghost view = { λ s. record { is_open = is_some s.file; faults = s.faults; opened = s.opened.items } };
}

impl<'a, R: Files> FileShelf<'a, R> {
    /// The shelf of the runtime's files, of which none is open. It takes no memory.
    pub fn new(rt: &'a R, alloc: Global) -> FileShelf<'a, R>
        ensures { result ≡ record { is_open = false; faults = 0; opened = [] } }
    {
        FileShelf {
            rt,
            file: None,
            faults: 0,
            opened: Vec::new(alloc),
        }
    }
}

impl<'a, R: Files> Shelf for FileShelf<'a, R> {
    ghost files = { λ s. None };

    ghost left = { λ s. None };

    ghost faults = { λ s. s.faults };

    ghost opened = { λ s. s.opened };

    fn open(&mut self, alloc: Global, name: &Text) -> Result<(), ShelfFault>
        ensures is_open { self.new.is_open ≡ is_ok result }
        ensures counts { self.new.faults ≡ opens_counted self.old.faults result }

        ensures opens { OnOk result (OpensTo None name.now None) }
        ensures closed { OnErr result (IsToldAs None []) }
        ensures opened { self.new.opened ≡ opened_after self.old.opened name.now result }
        ensures cause { OpenCause self.old.faults self.new.faults result }
    {
        self.file = None;
        let Ok(copied) = name.copy(alloc) else {
            return Err(ShelfFault::NoMemory);
        };
        if self.opened.push(copied).is_err() {
            return Err(ShelfFault::NoMemory);
        }
        match fs::open(self.rt, name.as_str()) {
            Ok(file) => {
                self.file = Some(file);
                Ok(())
            }
            Err(_) => {
                self.faults = self.faults.saturating_add(1);
                Err(ShelfFault::Failed)
            }
        }
    }

    fn read(&mut self, buf: &mut [u8]) -> Result<usize, Failed>
        ensures unopened { self.old.is_open ≡ false → result ≡ Ok 0 }
        ensures counts { OnErr result (self.new.faults ≡ one_more self.old.faults) }

        ensures bound { IfOk result (λ n. n ≤ length buf.new) }
        ensures bytes { ReadConsumes None None result buf.new }
        ensures opened { self.new.opened ≡ self.old.opened }
        ensures cause { HasCause self.old.faults self.new.faults result }
    {
        let Some(file) = &mut self.file else {
            return Ok(0);
        };
        match file.read(buf) {
            Ok(count) => Ok(count),
            Err(_) => {
                self.faults = self.faults.saturating_add(1);
                Err(Failed)
            }
        }
    }
}

/// The standard output of the runtime `R`.
#[derive(Drop)]
pub struct StdSink<'a, R: Print> {
    rt: &'a R,
    faults: u64,
}

impl<'a, R: Print> Model for StdSink<'a, R> {
    ghost use Rattle.std.specs.Prelude.{ℕ};

    ghost Value = { ℕ };

    ghost view = { λ s. s.faults };
}

impl<'a, R: Print> StdSink<'a, R> {
    /// The runtime's standard output.
    pub fn new(rt: &'a R) -> StdSink<'a, R>
        ensures { result ≡ 0 }
    {
        StdSink { rt, faults: 0 }
    }
}

impl<'a, R: Print> Sink for StdSink<'a, R> {
    ghost held = { λ s. None };

    ghost faults = { λ s. s };

    fn write(&mut self, piece: &[u8]) -> Result<usize, Failed>
        ensures counts { OnErr result (self.new ≡ one_more self.old) }

        ensures taken { Takes piece.now result }
        ensures held { WriteAppends None None result piece.now }
        ensures cause { HasCause self.old self.new result }
    {
        match self.rt.write_some(piece) {
            Ok(count) if count > 0 || piece.is_empty() => Ok(count),
            _ => {
                self.faults = self.faults.saturating_add(1);
                Err(Failed)
            }
        }
    }
}
