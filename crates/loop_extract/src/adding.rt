//! The commands that extraction adds.
ghost use Rattle.std.specs.Prelude.{◌≡◌, [], ◌∷◌, IfOk};
ghost use Rattle.hy_val.specs.declared.expr.ExprNode.TheVariants.{Binary, Var as Read};
ghost use Rattle.hy_val.specs.declared.expr.Var.TheVariants.{Local as ALocal};
ghost use Rattle.hy_val.specs.declared.operator.BvOp.TheVariants.{Eq};
ghost use Rattle.flat_prog.specs.Shape.{exit_sort};
ghost use Rattle.extract_def.specs.Renaming as spec;

use crate::numbers::{small, sum};
use flat_prog::FlatCmd;
use hy_val::{Atom, BitVec, BvOp, Expr, ExprNode, Scalar, Sort, Var, Width};
use sqlite_items::Items;
use std::alloc::{AllocError, Global};

// The value of a local.
fn read_of(alloc: Global, local: u32, sort: Sort) -> Result<Expr, AllocError>
    ensures { IfOk result (λ e. e ≡ Read (ALocal local) sort ∷ []) }
{
    sort.keeps_widths();
    let node = ExprNode::Var {
        var: Var::Local(local),
        sort,
    };
    let nodes = Items::from_slice(alloc, &[node])?;
    Ok(Expr::new(nodes))
}

// The values of the locals from a number on, which have these sorts.
fn reads_of(alloc: Global, first: u32, sorts: &[Sort]) -> Result<Items<Expr>, AllocError>
    ensures { IfOk result (λ es. es ≡ spec.reads_of first sorts.now) }
{
    let mut reads = Items::new(alloc);
    for (k, sort) in sorts.iter().enumerate() {
        let local = sum(first, small(k)?)?;
        reads.push(read_of(alloc, local, *sort)?)?;
    }
    Ok(reads)
}

// So many locals, from a number on.
fn locals_from(alloc: Global, first: u32, count: usize) -> Result<Items<Var>, AllocError>
    ensures { IfOk result (λ xs. xs ≡ spec.locals_from first count) }
{
    let mut locals = Items::new(alloc);
    for k in 0..count {
        let local = sum(first, small(k)?)?;
        locals.push(Var::Local(local))?;
    }
    Ok(locals)
}

/// The call of the loop procedure of a number on variables of these sorts, which stand behind so
/// many others; the local behind them takes the number of the exit.
pub fn call_of_loop(
    alloc: Global,
    number: u32,
    by: u32,
    sorts: &[Sort],
) -> Result<FlatCmd, AllocError>
    ensures { IfOk result (λ c. c ≡ spec.call_of_loop number by sorts.now) }
{
    let args = reads_of(alloc, by, sorts)?;
    let mut outs = locals_from(alloc, by, sorts.len())?;
    let exit = sum(by, small(sorts.len())?)?;
    outs.push(Var::Local(exit))?;
    Ok(FlatCmd::Call {
        proc: number,
        args,
        outs,
    })
}

// The sort of an exit number.
pub fn sort_of_exit() -> Sort
    ensures { result ≡ exit_sort }
{
    Sort::scalar(Scalar::bits(Width::new(32)))
}

// The number of an exit as a node.
fn exit_number(exit: u32) -> ExprNode
    ensures { result ≡ spec.exit_number exit }
{
    let bits = BitVec::new(Width::new(32), u64::from(exit));
    ExprNode::Lit(Atom::bits(bits))
}

// Whether the local is the number of this exit.
fn exit_test(alloc: Global, local: u32, exit: u32) -> Result<Expr, AllocError>
    ensures { IfOk result (λ e. e ≡ Read (ALocal local) exit_sort ∷ spec.exit_number exit ∷ Binary Eq 0 1 ∷ []) }
{
    let read = ExprNode::Var {
        var: Var::Local(local),
        sort: sort_of_exit(),
    };
    let equal = ExprNode::Binary {
        op: BvOp::Eq,
        left: 0,
        right: 1,
    };
    let nodes = Items::from_slice(alloc, &[read, exit_number(exit), equal])?;
    Ok(Expr::new(nodes))
}

/// The local is the number of this exit.
pub fn assume_exit(alloc: Global, local: u32, exit: u32) -> Result<FlatCmd, AllocError>
    ensures { IfOk result (λ c. c ≡ spec.assume_exit local exit) }
{
    let test = exit_test(alloc, local, exit)?;
    Ok(FlatCmd::Assume(test))
}

/// The local becomes the number of this exit.
pub fn set_exit(alloc: Global, local: u32, exit: u32) -> Result<FlatCmd, AllocError>
    ensures { IfOk result (λ c. c ≡ spec.set_exit local exit) }
{
    let nodes = Items::from_slice(alloc, &[exit_number(exit)])?;
    let value = Expr::new(nodes);
    let mut pairs = Items::new(alloc);
    pairs.push((Var::Local(local), value))?;
    Ok(FlatCmd::Assign(pairs))
}

/// No run goes on.
pub fn assume_false(alloc: Global) -> Result<FlatCmd, AllocError>
    ensures { IfOk result (λ c. c ≡ spec.assume_false) }
{
    let nodes = Items::from_slice(alloc, &[ExprNode::Lit(Atom::bool(false))])?;
    Ok(FlatCmd::Assume(Expr::new(nodes)))
}
