//! The passive form of a procedure.
ghost use Rattle.std.specs.Prelude.{◌≡◌, ◌++◌, [], slice_get, OnOk, IfOk};
ghost use Rattle.flat_prog.specs.Program.{variables_of};
ghost use Rattle.passive_form.specs.Limited.{limited};
ghost use Rattle.passive_form.specs.Making as spec;

use crate::commands::{Draft, push_cmds};
use crate::current::{Current, push_from};
use crate::program::Program;
use crate::starting::start;
use crate::{Passive, PassiveBlock};
use flat_prog::{Flat, FlatCmd, FlatNext, FlatProc};
use hy_val::Sort;
use sqlite_items::{Items, at};
use std::alloc::{AllocError, Global};

// The sorts of all locals of a procedure.
fn sorts_of_locals(alloc: Global, proc: &FlatProc) -> Result<Items<Sort>, AllocError>
    ensures { IfOk result (λ ss. ss ≡ variables_of proc.now) }
{
    let mut sorts = Items::from_slice(alloc, proc.ins.as_slice())?;
    let outs = Items::from_slice(alloc, proc.outs.as_slice())?;
    let own = Items::from_slice(alloc, proc.locals.as_slice())?;
    sorts.append(outs)?;
    sorts.append(own)?;
    Ok(sorts)
}

// A block before its first command: each variable has a version.
fn entered(alloc: Global, program: &Program, proc: &FlatProc) -> Result<Draft, AllocError>
    ensures { IfOk result (λ d. d ≡ record { current = spec.entry_cur program.now proc.now; next = spec.entry_count program.now proc.now; items = [] }) }
{
    let mut globals = Items::new(alloc);
    let mut locals = Items::new(alloc);
    let first_in = push_from(&mut globals, 0, program.globals())?;
    let first_out = push_from(&mut locals, first_in, proc.ins.as_slice())?;
    let first_local = push_from(&mut locals, first_out, proc.outs.as_slice())?;
    let next = push_from(&mut locals, first_local, proc.locals.as_slice())?;
    Ok(Draft {
        current: Current::new(globals, locals),
        next,
        items: Items::new(alloc),
    })
}

// How a block ends, once more.
fn copied(alloc: Global, next: &FlatNext) -> Result<FlatNext, AllocError>
    ensures { IfOk result (λ n. n ≡ next.now) }
{
    match next {
        FlatNext::Goto(targets) => {
            let targets = Items::from_slice(alloc, targets.as_slice())?;
            Ok(FlatNext::Goto(targets))
        }
        FlatNext::Return => Ok(FlatNext::Return),
    }
}

// A block over versions, by its number, its commands and how it ends.
fn passive_block(
    alloc: Global,
    program: &Program,
    proc: &FlatProc,
    number: u32,
    cmds: &[FlatCmd],
    next: FlatNext,
) -> Result<PassiveBlock, AllocError>
    ensures { IfOk result (λ b. b ≡ spec.passive_block program.now proc.now number (record { cmds = cmds.now; next = next })) }
{
    let mut draft = entered(alloc, program, proc)?;
    push_cmds(alloc, program, proc, &mut draft, cmds)?;
    let Draft {
        current,
        next: _,
        items,
    } = draft;
    let (globals, locals) = current.into_parts();
    Ok(PassiveBlock {
        number,
        items,
        globals,
        locals,
        next,
    })
}

// The block of this number over versions. One that isn't there says nothing and returns.
fn block_at(
    alloc: Global,
    program: &Program,
    proc: &FlatProc,
    number: u32,
) -> Result<PassiveBlock, AllocError>
    ensures { IfOk result (λ b. b ≡ spec.passive_block program.now proc.now number (spec.block_or (slice_get proc.now.blocks number))) }
{
    match at(proc.blocks.as_slice(), number as usize) {
        Some(block) => {
            let next = copied(alloc, &block.next)?;
            passive_block(alloc, program, proc, number, block.cmds.as_slice(), next)
        }
        None => passive_block(alloc, program, proc, number, &[], FlatNext::Return),
    }
}

// The blocks of these numbers over versions.
fn passive_blocks(
    alloc: Global,
    program: &Program,
    proc: &FlatProc,
    order: &[u32],
) -> Result<Items<PassiveBlock>, AllocError>
    ensures { IfOk result (λ bs. bs ≡ spec.passive_blocks program.now proc.now order.now) }
{
    let mut blocks = Items::new(alloc);
    for number in order {
        blocks.push(block_at(alloc, program, proc, *number)?)?;
    }
    Ok(blocks)
}

/// The passive form of a procedure of the program, its blocks in this order, where the table has a row for each procedure: for each
/// global, whether a call of the procedure may change it. A procedure without a row changes none. A block that isn't there says nothing
/// and returns. More versions than numbers of 32 bits are want of memory.
pub fn passive_of(
    alloc: Global,
    flat: &Flat,
    limits: &[Items<bool>],
    proc: &FlatProc,
    order: &[u32],
) -> Result<Passive, AllocError>
    ensures { IfOk result (λ p. p ≡ spec.passive_of (limited flat.now limits.now) proc.now order.now) }
{
    let program = Program::new(flat, limits);
    let consts = Items::from_slice(alloc, program.consts())?;
    let globals = Items::from_slice(alloc, program.globals())?;
    let ins = Items::from_slice(alloc, proc.ins.as_slice())?;
    let outs = Items::from_slice(alloc, proc.outs.as_slice())?;
    let locals = sorts_of_locals(alloc, proc)?;
    let start = start(alloc, &program, proc)?;
    let blocks = passive_blocks(alloc, &program, proc, order)?;
    Ok(Passive {
        consts,
        globals,
        ins,
        outs,
        locals,
        start,
        blocks,
    })
}
