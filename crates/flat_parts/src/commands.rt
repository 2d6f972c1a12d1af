//! Whether commands and blocks fit.
ghost use Rattle.std.specs.Prelude.{◌≡◌, length, IfOk};
ghost use Rattle.std.specs.List.{list_all};
ghost use Rattle.hy_val.specs.Scope as scope;
ghost use Rattle.flat_prog.specs.Shape as spec;
ghost use Rattle.flat_parts.specs.Parts as parts;

use crate::exprs::{Known, is_sort_of};
use flat_prog::{FlatBlock, FlatCmd, FlatNext, FlatProc};
use hy_val::{Expr, Scalar, Sort, Var};
use sqlite_items::at;
use std::alloc::{AllocError, Global};

// Whether each value has the sort of its target, which is no constant.
fn pairs_fit(alloc: Global, known: &Known, pairs: &[(Var, Expr)]) -> Result<bool, AllocError>
    ensures { IfOk result (λ fit. fit ≡ list_all (scope.pair_fits known.now) pairs.now) }
{
    for pair in pairs {
        if !known.expr_fits(alloc, known.target(pair.0), &pair.1)? {
            return Ok(false);
        }
    }
    Ok(true)
}

// Whether each of the variables can be written.
fn are_targets(known: &Known, vars: &[Var]) -> bool
    ensures { result ≡ list_all (scope.is_target known.now) vars.now }
{
    for var in vars {
        if !known.is_target(*var) {
            return false;
        }
    }
    true
}

/// Whether the expression is a bool over what is known.
pub(crate) fn is_condition(alloc: Global, known: &Known, expr: &Expr) -> Result<bool, AllocError>
    ensures { IfOk result (λ fits. fits ≡ scope.is_condition known.now expr.now) }
{
    let fits = known.expr_fits(alloc, Some(Sort::scalar(Scalar::bool())), expr)?;
    Ok(fits)
}

#[tactic(auto, using(crate::proofs::Apart::args_apart))]
// Whether there are as many arguments as sorts, each of its sort.
fn args_fit(alloc: Global, known: &Known, sorts: &[Sort], args: &[Expr]) -> Result<bool, AllocError>
    ensures { IfOk result (λ fit. fit ≡ spec.args_fit known.now sorts.now args.now) }
{
    if sorts.len() != args.len() {
        return Ok(false);
    }
    for place in 0..args.len() {
        if !known.expr_fits(alloc, Some(sorts[place]), &args[place])? {
            return Ok(false);
        }
    }
    Ok(true)
}

#[tactic(auto, using(crate::proofs::Apart::targets_apart))]
// Whether there are as many targets as sorts, each of its sort.
fn targets_fit(known: &Known, sorts: &[Sort], vars: &[Var]) -> bool
    ensures { result ≡ spec.targets_fit known.now sorts.now vars.now }
{
    if sorts.len() != vars.len() {
        return false;
    }
    for place in 0..vars.len() {
        if !is_sort_of(known.target(vars[place]), sorts[place]) {
            return false;
        }
    }
    true
}

// Whether the command fits.
fn cmd_fits(
    alloc: Global,
    procs: &[FlatProc],
    known: &Known,
    cmd: &FlatCmd,
) -> Result<bool, AllocError>
    ensures { IfOk result (λ fits. fits ≡ spec.cmd_fits procs.now known.now cmd.now) }
{
    match cmd {
        FlatCmd::Assign(pairs) => pairs_fit(alloc, known, pairs.as_slice()),
        FlatCmd::Havoc(vars) => Ok(are_targets(known, vars.as_slice())),
        FlatCmd::Assume(expr) => is_condition(alloc, known, expr),
        FlatCmd::Assert {
            proc: _,
            number,
            expr,
        } => {
            let fits = is_condition(alloc, known, expr)?;
            Ok(1 <= *number && fits)
        }
        FlatCmd::Call { proc, args, outs } => match at(procs, *proc as usize) {
            Some(callee) => {
                let fit = args_fit(alloc, known, callee.ins.as_slice(), args.as_slice())?;
                Ok(fit && targets_fit(known, callee.outs.as_slice(), outs.as_slice()))
            }
            None => Ok(false),
        },
    }
}

// Whether all do.
fn cmds_fit(
    alloc: Global,
    procs: &[FlatProc],
    known: &Known,
    cmds: &[FlatCmd],
) -> Result<bool, AllocError>
    ensures { IfOk result (λ fit. fit ≡ list_all (spec.cmd_fits procs.now known.now) cmds.now) }
{
    for cmd in cmds {
        if !cmd_fits(alloc, procs, known, cmd)? {
            return Ok(false);
        }
    }
    Ok(true)
}

// Whether each of the blocks is behind this one and below the count.
fn are_behind(number: usize, count: usize, targets: &[u32]) -> bool
    ensures { result ≡ list_all (parts.is_behind number count) targets.now }
{
    for target in targets {
        if !(number < *target as usize && (*target as usize) < count) {
            return false;
        }
    }
    true
}

// Whether the block with this number, of so many, has an end that leads on.
fn leads_on(number: usize, count: usize, next: &FlatNext) -> bool
    ensures { result ≡ parts.leads_on number count next.now }
{
    match next {
        FlatNext::Return => true,
        FlatNext::Goto(targets) => {
            0 < targets.len() && are_behind(number, count, targets.as_slice())
        }
    }
}

// Whether the commands of the block with this number, of so many, fit, and each edge leads on.
fn block_fits(
    alloc: Global,
    procs: &[FlatProc],
    known: &Known,
    number: usize,
    count: usize,
    block: &FlatBlock,
) -> Result<bool, AllocError>
    ensures { IfOk result (λ fits. fits ≡ parts.block_fits procs.now known.now count number block.now) }
{
    let fit = cmds_fit(alloc, procs, known, block.cmds.as_slice())?;
    Ok(fit && leads_on(number, count, &block.next))
}

/// Whether the commands of the blocks fit, and each edge leads to a later block.
pub(crate) fn blocks_fit(
    alloc: Global,
    procs: &[FlatProc],
    known: &Known,
    blocks: &[FlatBlock],
) -> Result<bool, AllocError>
    ensures { IfOk result (λ fit. fit ≡ parts.blocks_fit procs.now known.now (length blocks.now) 0 blocks.now) }
{
    for number in 0..blocks.len() {
        if !block_fits(alloc, procs, known, number, blocks.len(), &blocks[number])? {
            return Ok(false);
        }
    }
    Ok(true)
}
