//! The program of a file, and its entry. Each step tells its own refusal, and no later one is looked at before.

ghost use Rattle.std.specs.Prelude.{◌≡◌, ◌<◌, IfOk, IsTrue, List, ℕ, length};
ghost use Rattle.bpl_type.specs.Checked.{checked};
ghost use Rattle.bpl_type.specs.WellTyped.{is_typed};
ghost use Rattle.bpl_flow.specs.Flow.{lowered};
ghost use Rattle.src_prog.specs.Program.{number_of};
ghost use Rattle.hydra_top.specs.Entry.{Gives, IsEntryOf, after_flow, after_typing, at_entry, entered};
ghost use Rattle.hydra_top.specs.Opened.{RefusesFirst};
ghost use Rattle.hydra_top.specs.Reading.{IsSource};

use crate::outcome::Refusal;
use crate::reading::Source;
use crate::trees::read_tree;
use bpl_ast::Ast;
use bpl_flow::lower;
use bpl_type::{Typed, check, checked_programs_are_typed};
use hy_text::{Or, Text};
use src_prog::Prog;
use std::alloc::Global;

/// A program, and the number of one of its procedures.
#[derive(Drop)]
pub struct Entered {
    pub prog: Prog,
    pub entry: u32,
}

/// The program of what was read of a file, and the number of the procedure of this name. The file is refused where it is too long
/// or has no tree, then where it has a fault of typing, then one of flow, then where no procedure with a body has the name; the
/// first of these is told.
pub fn entered_in(alloc: Global, name: &Text, source: &Source) -> Result<Entered, Or<Refusal>>
    ensures entry { (bytes : List ℕ) → IsSource bytes source.now → IsEntryOf name.now bytes result }
    ensures there { IfOk result (λ e. e.entry < length e.prog.procs) }
    ensures first { RefusesFirst result }
{
    match read_tree(alloc, source) {
        Ok(tree) => after_reading(alloc, name, &tree),
        Err(Or::Fault(refusal)) => Err(Or::Fault(refusal)),
        Err(Or::NoMemory) => Err(Or::NoMemory),
    }
}

// The same of a tree.
fn after_reading(alloc: Global, name: &Text, tree: &Ast) -> Result<Entered, Or<Refusal>>
    ensures entry { Gives result (entered name.now tree.now) }
    ensures there { IfOk result (λ e. e.entry < length e.prog.procs) }
    ensures first { RefusesFirst result }
{
    checked_programs_are_typed();
    match check(alloc, tree) {
        Ok(typed) => after_typing(alloc, name, &typed),
        Err(Or::Fault(fault)) => Err(Or::Fault(Refusal::Typing(fault))),
        Err(Or::NoMemory) => Err(Or::NoMemory),
    }
}

// The same of a typed program.
fn after_typing(alloc: Global, name: &Text, typed: &Typed) -> Result<Entered, Or<Refusal>>
    requires { IsTrue (is_typed typed.now) }
    ensures entry { Gives result (after_flow name.now (lowered typed.now)) }
    ensures there { IfOk result (λ e. e.entry < length e.prog.procs) }
    ensures first { RefusesFirst result }
{
    match lower(alloc, typed) {
        Ok(prog) => after_flow(alloc, name, prog),
        Err(Or::Fault(fault)) => Err(Or::Fault(Refusal::Flow(fault))),
        Err(Or::NoMemory) => Err(Or::NoMemory),
    }
}

// The same of a program of blocks.
fn after_flow(alloc: Global, name: &Text, prog: Prog) -> Result<Entered, Or<Refusal>>
    ensures entry { Gives result (at_entry name.now prog (number_of prog name.now)) }
    ensures there { IfOk result (λ e. e.entry < length e.prog.procs) }
    ensures first { RefusesFirst result }
{
    match prog.find(name) {
        Some(entry) => Ok(Entered { prog, entry }),
        None => {
            let name = name.copy(alloc)?;
            Err(Or::Fault(Refusal::NoEntry { name }))
        }
    }
}
