//! Commands over versions.
ghost use Rattle.std.specs.Prelude.{◌≡◌, ◌+◌, ◌++◌, [], ◌∷◌, length, slice_get, OnOk, IfOk};
ghost use Rattle.flat_prog.specs.Program.{variables_of};
ghost use Rattle.passive_form.specs.Local as local;
ghost use Rattle.passive_form.specs.Making as spec;
ghost use Rattle.passive_form.specs.Drafts as drafts;

use crate::Item;
use crate::current::{Current, push_from};
use crate::numbers::higher;
use crate::program::Program;
use crate::renaming::{all_over, over_versions};
use crate::sites::{picked, replaced};
use flat_prog::{FlatCmd, FlatProc};
use hy_val::{Expr, Scalar, Sort, Var};
use sqlite_items::{Items, at};
use std::alloc::{AllocError, Global};

/// A block over versions in the making.
#[derive(Drop)]
pub(crate) struct Draft {
    /// The version of each variable.
    pub current: Current,
    /// The number of the next version.
    pub next: u32,
    /// What has been said.
    pub items: Items<Item>,
}

// The sort of a local, by its number.
fn sort_of_local(proc: &FlatProc, number: usize) -> Option<Sort>
    ensures { result ≡ slice_get (variables_of proc.now) number }
{
    let ins = proc.ins.len();
    if number < ins {
        return at(proc.ins.as_slice(), number).copied();
    }
    let outs = proc.outs.len();
    if number - ins < outs {
        return at(proc.outs.as_slice(), number - ins).copied();
    }
    at(proc.locals.as_slice(), number - ins - outs).copied()
}

// The sort of a variable; of a constant none, since it can't be written.
fn sort_of(program: &Program, proc: &FlatProc, var: Var) -> Option<Sort>
    ensures { result ≡ local.sort_of program.now proc.now var }
{
    match var {
        Var::Const(_) => None,
        Var::Global(number) => at(program.globals(), number as usize).copied(),
        Var::Local(number) => sort_of_local(proc, number as usize),
    }
}

// The sort that a havoc takes values of.
fn free_sort(program: &Program, proc: &FlatProc, var: Var) -> Sort
    ensures { result ≡ spec.sort_or (local.sort_of program.now proc.now var) }
{
    match sort_of(program, proc, var) {
        Some(sort) => sort,
        None => Sort::scalar(Scalar::bool()),
    }
}

// The definitions of an assignment's values.
fn push_lets(alloc: Global, draft: &mut Draft, pairs: &[(Var, Expr)]) -> Result<(), AllocError>
    ensures { OnOk result (draft.new ≡ drafts.with_lets draft.old pairs.now) }
{
    for pair in pairs {
        let version = draft.next;
        let expr = over_versions(alloc, &draft.current, &pair.1)?;
        draft.items.push(Item::Let { version, expr })?;
        draft.next = higher(version, 1)?;
    }
    Ok(())
}

// The targets of an assignment have new versions.
fn set_targets(current: &mut Current, pairs: &[(Var, Expr)], first: u32) -> Result<(), AllocError>
    ensures { OnOk result (current.new ≡ spec.set_versions current.old (local.targets_of pairs.now) pairs.now first) }
{
    let mut version = first;
    for pair in pairs {
        current.set(pair.0, version);
        version = higher(version, 1)?;
    }
    Ok(())
}

// Any values for the variables.
fn push_frees(
    program: &Program,
    proc: &FlatProc,
    draft: &mut Draft,
    vars: &[Var],
) -> Result<(), AllocError>
    ensures { OnOk result (draft.new ≡ drafts.with_frees program.now proc.now draft.old vars.now) }
{
    for var in vars {
        let version = draft.next;
        let sort = free_sort(program, proc, *var);
        draft.items.push(Item::Free { version, sort })?;
        draft.current.set(*var, version);
        draft.next = higher(version, 1)?;
    }
    Ok(())
}

// A call.
fn push_site(
    alloc: Global,
    program: &Program,
    draft: &mut Draft,
    proc: u32,
    args: &[Expr],
    vars: &[Var],
) -> Result<(), AllocError>
    ensures { OnOk result (draft.new ≡ drafts.with_site program.now draft.old proc args.now vars.now) }
{
    let failed = draft.next;
    let args = all_over(alloc, &draft.current, args)?;
    let before = Items::from_slice(alloc, draft.current.globals())?;
    let outs = program.callee_outs(alloc, proc)?;
    let changes = program.callee_changes(alloc, proc)?;
    let after = picked(alloc, changes.as_slice(), program.globals())?;
    let first_out = higher(failed, 1)?;
    let first_after = higher(first_out, outs.len())?;
    let mut fresh = Items::new(alloc);
    draft.next = push_from(&mut fresh, first_after, after.as_slice())?;
    let globals = replaced(
        alloc,
        changes.as_slice(),
        before.as_slice(),
        fresh.as_slice(),
    )?;
    draft.current.set_globals(globals);
    draft.current.set_all(vars, outs.as_slice(), first_out)?;
    draft.items.push(Item::Site {
        proc,
        failed,
        args,
        before,
        outs,
        changes,
        after,
    })
}

// One command, at a position of the block.
fn push_cmd(
    alloc: Global,
    program: &Program,
    proc: &FlatProc,
    draft: &mut Draft,
    position: u32,
    cmd: &FlatCmd,
) -> Result<(), AllocError>
    ensures { OnOk result (draft.new ≡ drafts.with_cmd program.now proc.now draft.old position cmd.now) }
{
    match cmd {
        FlatCmd::Assign(pairs) => {
            let first = draft.next;
            push_lets(alloc, draft, pairs.as_slice())?;
            set_targets(&mut draft.current, pairs.as_slice(), first)
        }
        FlatCmd::Havoc(vars) => push_frees(program, proc, draft, vars.as_slice()),
        FlatCmd::Assume(expr) => {
            let expr = over_versions(alloc, &draft.current, expr)?;
            draft.items.push(Item::Need(expr))
        }
        FlatCmd::Assert { expr, .. } => {
            let expr = over_versions(alloc, &draft.current, expr)?;
            draft.items.push(Item::Check { position, expr })
        }
        FlatCmd::Call {
            proc: callee,
            args,
            outs,
        } => {
            push_site(
                alloc,
                program,
                draft,
                *callee,
                args.as_slice(),
                outs.as_slice(),
            )
        }
    }
}

/// The commands of a block, in order.
pub(crate) fn push_cmds(
    alloc: Global,
    program: &Program,
    proc: &FlatProc,
    draft: &mut Draft,
    cmds: &[FlatCmd],
) -> Result<(), AllocError>
    ensures current { OnOk result (draft.new.current ≡ spec.cur_end program.now draft.old.current draft.old.next cmds.now) }
    ensures items { OnOk result (draft.new.items ≡ draft.old.items ++ spec.items_all program.now proc.now draft.old.current 0 draft.old.next cmds.now) }
{
    let mut position: u32 = 0;
    for cmd in cmds {
        push_cmd(alloc, program, proc, draft, position, cmd)?;
        position = higher(position, 1)?;
    }
    Ok(())
}
