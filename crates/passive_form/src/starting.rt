//! The start of a procedure over versions.
ghost use Rattle.std.specs.Prelude.{◌≡◌, ◌+◌, ◌++◌, ◌∷◌, length, OnOk, IfOk};
ghost use Rattle.flat_prog.specs.declared.proc.FlatKind.TheVariants.{Source, Loop};
ghost use Rattle.passive_form.specs.Making as spec;
ghost use Rattle.flat_prog.specs.Shape.{exit_sort};

use crate::current::push_from;
use crate::numbers::higher;
use crate::program::Program;
use crate::{Item, PassiveStart};
use flat_prog::{FlatKind, FlatProc};
use hy_val::{Scalar, Sort, Width};
use sqlite_items::Items;
use std::alloc::{AllocError, Global};

// Any values of the sorts for the versions from a number on. It answers the next number.
fn push_free(items: &mut Items<Item>, first: u32, sorts: &[Sort]) -> Result<u32, AllocError>
    ensures items { OnOk result (items.new ≡ items.old ++ spec.free_items first sorts.now) }
    ensures next { IfOk result (λ n. n ≡ first + length sorts.now) }
{
    let mut version = first;
    for sort in sorts {
        items.push(Item::Free {
            version,
            sort: *sort,
        })?;
        version = higher(version, 1)?;
    }
    Ok(version)
}

// The zeros of the sorts for the versions from a number on.
fn push_zeros(items: &mut Items<Item>, first: u32, sorts: &[Sort]) -> Result<(), AllocError>
    ensures { OnOk result (items.new ≡ items.old ++ spec.zero_items first sorts.now) }
{
    let mut version = first;
    for sort in sorts {
        items.push(Item::Zero {
            version,
            sort: *sort,
        })?;
        version = higher(version, 1)?;
    }
    Ok(())
}

// The sort of exit numbers.
fn number_sort() -> Sort
    ensures { result ≡ exit_sort }
{
    Sort::scalar(Scalar::bits(Width::new(32)))
}

// The sorts of the locals of a loop procedure that begin as zeros: the exit and the others.
fn zero_sorts(alloc: Global, proc: &FlatProc) -> Result<Items<Sort>, AllocError>
    ensures { IfOk result (λ ss. ss ≡ exit_sort ∷ proc.now.locals) }
{
    let mut sorts = Items::new(alloc);
    sorts.push(number_sort())?;
    let own = Items::from_slice(alloc, proc.locals.as_slice())?;
    sorts.append(own)?;
    Ok(sorts)
}

// The start of a source procedure: the outs and the locals have any values.
fn source_start(
    alloc: Global,
    program: &Program,
    proc: &FlatProc,
    source: u32,
) -> Result<PassiveStart, AllocError>
    ensures { IfOk result (λ s. s ≡ spec.passive_start program.now proc.now (Source source)) }
{
    let mut globals = Items::new(alloc);
    let mut locals = Items::new(alloc);
    let mut items = Items::new(alloc);
    let first_in = push_from(&mut globals, 0, program.globals())?;
    let first_out = push_from(&mut locals, first_in, proc.ins.as_slice())?;
    let first_local = push_from(&mut locals, first_out, proc.outs.as_slice())?;
    push_from(&mut locals, first_local, proc.locals.as_slice())?;
    push_free(&mut items, first_out, proc.outs.as_slice())?;
    push_free(&mut items, first_local, proc.locals.as_slice())?;
    Ok(PassiveStart {
        items,
        globals,
        locals,
    })
}

// The start of a loop procedure: the outs begin as the ins, the exit and the locals as zeros.
fn loop_start(
    alloc: Global,
    program: &Program,
    proc: &FlatProc,
    source: u32,
    head: u32,
) -> Result<PassiveStart, AllocError>
    ensures { IfOk result (λ s. s ≡ spec.passive_start program.now proc.now (Loop source head)) }
{
    let mut globals = Items::new(alloc);
    let mut locals = Items::new(alloc);
    let mut items = Items::new(alloc);
    let zeros = zero_sorts(alloc, proc)?;
    let first_in = push_from(&mut globals, 0, program.globals())?;
    push_from(&mut locals, first_in, proc.ins.as_slice())?;
    let first_zero = push_from(&mut locals, first_in, proc.ins.as_slice())?;
    push_from(&mut locals, first_zero, zeros.as_slice())?;
    push_zeros(&mut items, first_zero, zeros.as_slice())?;
    Ok(PassiveStart {
        items,
        globals,
        locals,
    })
}

/// The start of a procedure over versions, by its kind.
pub(crate) fn start(
    alloc: Global,
    program: &Program,
    proc: &FlatProc,
) -> Result<PassiveStart, AllocError>
    ensures { IfOk result (λ s. s ≡ spec.passive_start program.now proc.now proc.now.kind) }
{
    match proc.kind {
        FlatKind::Source { proc: source } => source_start(alloc, program, proc, source),
        FlatKind::Loop { proc: source, head } => loop_start(alloc, program, proc, source, head),
    }
}
