//! Whether two flat programs are equal: each part is compared with its counterpart, in order.
ghost use Rattle.std.specs.Prelude.{◌≡◌, ◌↔◌, IsTrue};
ghost use Rattle.flat_prog.specs.declared.block.FlatCmd.TheVariants.{Assign, Havoc, Assume, Assert, Call};

use crate::block::{FlatBlock, FlatCmd, FlatNext};
use crate::flat::Flat;
use crate::proc::{FlatKind, FlatProc};
use hy_val::{Expr, Sort, Var};

fn same_sort(left: &Sort, right: &Sort) -> bool
    ensures { IsTrue result ↔ (left.now ≡ right.now) }
{
    *left == *right
}

fn same_kind(left: &FlatKind, right: &FlatKind) -> bool
    ensures { IsTrue result ↔ (left.now ≡ right.now) }
{
    *left == *right
}

fn same_expr(left: &Expr, right: &Expr) -> bool
    ensures { IsTrue result ↔ (left.now ≡ right.now) }
{
    left.same(right)
}

fn same_numbers(left: &[u32], right: &[u32]) -> bool
    ensures { IsTrue result ↔ (left.now ≡ right.now) }
{
    left == right
}

// Whether two lists are equal.
fn same_sorts(left: &[Sort], right: &[Sort]) -> bool
    ensures { IsTrue result ↔ (left.now ≡ right.now) }
{
    if left.len() != right.len() {
        return false;
    }
    for i in 0..left.len() {
        if !same_sort(&left[i], &right[i]) {
            return false;
        }
    }
    true
}

fn same_var(left: Var, right: Var) -> bool
    ensures { IsTrue result ↔ (left ≡ right) }
{
    left == right
}

// Whether two lists are equal.
fn same_vars(left: &[Var], right: &[Var]) -> bool
    ensures { IsTrue result ↔ (left.now ≡ right.now) }
{
    if left.len() != right.len() {
        return false;
    }
    for i in 0..left.len() {
        let one = left[i];
        let other = right[i];
        if !same_var(one, other) {
            return false;
        }
    }
    true
}

// Whether two lists are equal.
fn same_exprs(left: &[Expr], right: &[Expr]) -> bool
    ensures { IsTrue result ↔ (left.now ≡ right.now) }
{
    if left.len() != right.len() {
        return false;
    }
    for i in 0..left.len() {
        if !same_expr(&left[i], &right[i]) {
            return false;
        }
    }
    true
}

fn same_pair(left: &(Var, Expr), right: &(Var, Expr)) -> bool
    ensures { IsTrue result ↔ (left.now ≡ right.now) }
{
    left.0 == right.0 && left.1.same(&right.1)
}

// Whether two lists are equal.
fn same_pairs(left: &[(Var, Expr)], right: &[(Var, Expr)]) -> bool
    ensures { IsTrue result ↔ (left.now ≡ right.now) }
{
    if left.len() != right.len() {
        return false;
    }
    for i in 0..left.len() {
        if !same_pair(&left[i], &right[i]) {
            return false;
        }
    }
    true
}

fn same_assign(pairs: &[(Var, Expr)], other: &FlatCmd) -> bool
    ensures { IsTrue result ↔ (Assign pairs.now ≡ other.now) }
{
    match other {
        FlatCmd::Assign(others) => same_pairs(pairs, others.as_slice()),
        FlatCmd::Havoc(_) => false,
        FlatCmd::Assume(_) => false,
        FlatCmd::Assert { .. } => false,
        FlatCmd::Call { .. } => false,
    }
}

fn same_havoc(vars: &[Var], other: &FlatCmd) -> bool
    ensures { IsTrue result ↔ (Havoc vars.now ≡ other.now) }
{
    match other {
        FlatCmd::Assign(_) => false,
        FlatCmd::Havoc(others) => same_vars(vars, others.as_slice()),
        FlatCmd::Assume(_) => false,
        FlatCmd::Assert { .. } => false,
        FlatCmd::Call { .. } => false,
    }
}

fn same_assume(expr: &Expr, other: &FlatCmd) -> bool
    ensures { IsTrue result ↔ (Assume expr.now ≡ other.now) }
{
    match other {
        FlatCmd::Assign(_) => false,
        FlatCmd::Havoc(_) => false,
        FlatCmd::Assume(holds) => expr.same(holds),
        FlatCmd::Assert { .. } => false,
        FlatCmd::Call { .. } => false,
    }
}

fn same_assert(proc: u32, number: u32, expr: &Expr, other: &FlatCmd) -> bool
    ensures { IsTrue result ↔ (Assert proc number expr.now ≡ other.now) }
{
    match other {
        FlatCmd::Assign(_) => false,
        FlatCmd::Havoc(_) => false,
        FlatCmd::Assume(_) => false,
        FlatCmd::Assert {
            proc: p,
            number: n,
            expr: holds,
        } => proc == *p && (number == *n && expr.same(holds)),
        FlatCmd::Call { .. } => false,
    }
}

fn same_call(proc: u32, args: &[Expr], outs: &[Var], other: &FlatCmd) -> bool
    ensures { IsTrue result ↔ (Call proc args.now outs.now ≡ other.now) }
{
    match other {
        FlatCmd::Assign(_) => false,
        FlatCmd::Havoc(_) => false,
        FlatCmd::Assume(_) => false,
        FlatCmd::Assert { .. } => false,
        FlatCmd::Call {
            proc: p,
            args: a,
            outs: o,
        } => { proc == *p && (same_exprs(args, a.as_slice()) && same_vars(outs, o.as_slice())) }
    }
}

fn same_cmd(left: &FlatCmd, right: &FlatCmd) -> bool
    ensures { IsTrue result ↔ (left.now ≡ right.now) }
{
    match left {
        FlatCmd::Assign(pairs) => same_assign(pairs.as_slice(), right),
        FlatCmd::Havoc(vars) => same_havoc(vars.as_slice(), right),
        FlatCmd::Assume(expr) => same_assume(expr, right),
        FlatCmd::Assert { proc, number, expr } => same_assert(*proc, *number, expr, right),
        FlatCmd::Call { proc, args, outs } => same_call(
            *proc,
            args.as_slice(),
            outs.as_slice(),
            right,
        ),
    }
}

// Whether two lists are equal.
fn same_cmds(left: &[FlatCmd], right: &[FlatCmd]) -> bool
    ensures { IsTrue result ↔ (left.now ≡ right.now) }
{
    if left.len() != right.len() {
        return false;
    }
    for i in 0..left.len() {
        if !same_cmd(&left[i], &right[i]) {
            return false;
        }
    }
    true
}

fn same_next(left: &FlatNext, right: &FlatNext) -> bool
    ensures { IsTrue result ↔ (left.now ≡ right.now) }
{
    match left {
        FlatNext::Goto(targets) => match right {
            FlatNext::Goto(others) => same_numbers(targets.as_slice(), others.as_slice()),
            FlatNext::Return => false,
        },
        FlatNext::Return => match right {
            FlatNext::Goto(_) => false,
            FlatNext::Return => true,
        },
    }
}

fn same_block(left: &FlatBlock, right: &FlatBlock) -> bool
    ensures { IsTrue result ↔ (left.now ≡ right.now) }
{
    same_cmds(left.cmds.as_slice(), right.cmds.as_slice()) && same_next(&left.next, &right.next)
}

// Whether two lists are equal.
fn same_blocks(left: &[FlatBlock], right: &[FlatBlock]) -> bool
    ensures { IsTrue result ↔ (left.now ≡ right.now) }
{
    if left.len() != right.len() {
        return false;
    }
    for i in 0..left.len() {
        if !same_block(&left[i], &right[i]) {
            return false;
        }
    }
    true
}

fn same_head(left: &FlatProc, right: &FlatProc) -> bool
    ensures { IsTrue result ↔ ((left.now.kind ≡ right.now.kind) × (left.now.ins ≡ right.now.ins)) }
{
    same_kind(&left.kind, &right.kind) && same_sorts(left.ins.as_slice(), right.ins.as_slice())
}

fn same_proc(left: &FlatProc, right: &FlatProc) -> bool
    ensures { IsTrue result ↔ (left.now ≡ right.now) }
{
    same_head(left, right)
        && (same_sorts(left.outs.as_slice(), right.outs.as_slice())
            && (same_sorts(left.locals.as_slice(), right.locals.as_slice())
                && same_blocks(left.blocks.as_slice(), right.blocks.as_slice())))
}

// Whether two lists are equal.
fn same_procs(left: &[FlatProc], right: &[FlatProc]) -> bool
    ensures { IsTrue result ↔ (left.now ≡ right.now) }
{
    if left.len() != right.len() {
        return false;
    }
    for i in 0..left.len() {
        if !same_proc(&left[i], &right[i]) {
            return false;
        }
    }
    true
}

fn same_tail(left: &Flat, right: &Flat) -> bool
    ensures { IsTrue result ↔ ((left.now.globals ≡ right.now.globals) × (left.now.procs ≡ right.now.procs)) }
{
    same_sorts(left.globals(), right.globals()) && same_procs(left.procs(), right.procs())
}

// Whether two flat programs are equal.
pub(crate) fn same_flat(left: &Flat, right: &Flat) -> bool
    ensures { IsTrue result ↔ (left.now ≡ right.now) }
{
    same_sorts(left.consts(), right.consts())
        && (same_numbers(left.uniques(), right.uniques())
            && (same_exprs(left.axioms(), right.axioms()) && same_tail(left, right)))
}
