//! Guards and invariants: what is assumed and asserted at the begin of a block.
ghost use Rattle.std.specs.Prelude.{◌≡◌, ◌<◌, [], length, IsTrue, IfOk};
ghost use Rattle.bpl_flow.specs.Fits.{is_bool, is_guard};
ghost use Rattle.bpl_flow.specs.Walk.{negated, where_true, where_false, add_invariants};

use bpl_type::TypedInvariant;
use hy_val::{Expr, ExprNode, UnOp};
use sqlite_items::Items;
use src_prog::Cmd;
use std::alloc::{AllocError, Global};

/// The nodes, and behind them the negation of the last one.
pub fn with_not(alloc: Global, nodes: &[ExprNode]) -> Result<Items<ExprNode>, AllocError>
    requires { 0 < length nodes.now }
    ensures { IfOk result (λ ns. ns ≡ negated nodes.now) }
{
    let child = nodes.len() - 1;
    let op = UnOp::Not;
    let mut more = Items::from_slice(alloc, nodes)?;
    more.push(ExprNode::Unary { op, child })?;
    Ok(more)
}

/// The expression, negated. It is a bool.
pub fn negation(alloc: Global, condition: &Expr) -> Result<Expr, AllocError>
    requires { IsTrue (is_bool condition.now) }
    ensures { IfOk result (λ n. n ≡ negated condition.now) }
{
    let nodes = with_not(alloc, condition.nodes())?;
    Ok(Expr::new(nodes))
}

/// What is assumed where the guard is true; nothing for `*`.
pub fn assumed(alloc: Global, guard: &Option<Expr>) -> Result<Items<Cmd>, AllocError>
    ensures { IfOk result (λ cmds. cmds ≡ where_true guard.now) }
{
    let mut cmds = Items::new(alloc);
    if let Some(condition) = guard {
        cmds.push(Cmd::Assume(condition.copy(alloc)?))?;
    }
    Ok(cmds)
}

/// What is assumed where the guard is false; nothing for `*`. A guard is a bool.
pub fn refuted(alloc: Global, guard: &Option<Expr>) -> Result<Items<Cmd>, AllocError>
    requires { IsTrue (is_guard guard.now) }
    ensures { IfOk result (λ cmds. cmds ≡ where_false guard.now) }
{
    let mut cmds = Items::new(alloc);
    if let Some(condition) = guard {
        cmds.push(Cmd::Assume(negation(alloc, condition)?))?;
    }
    Ok(cmds)
}

/// What the head of a loop holds.
#[derive(Drop)]
pub struct Head {
    /// The invariants in order: each is asserted, and a free one assumed.
    pub cmds: Items<Cmd>,
    /// How many asserts have been numbered then.
    pub asserts: u32,
}

/// The head of a loop with these invariants, where so many asserts have been numbered before. More than 2^32 - 1 asserts are want
/// of memory.
pub fn head_of(
    alloc: Global,
    invariants: &[TypedInvariant],
    before: u32,
) -> Result<Head, AllocError>
    ensures cmds { IfOk result (λ h. h.cmds ≡ (add_invariants invariants.now [] before).0) }
    ensures asserts { IfOk result (λ h. h.asserts ≡ (add_invariants invariants.now [] before).1) }
{
    let mut cmds = Items::new(alloc);
    let mut asserts = before;
    for invariant in invariants {
        let condition = invariant.condition.copy(alloc)?;
        if invariant.free {
            cmds.push(Cmd::Assume(condition))?;
        } else {
            asserts = asserts.checked_add(1).ok_or(AllocError)?;
            cmds.push(Cmd::Assert {
                number: asserts,
                expr: condition,
            })?;
        }
    }
    Ok(Head { cmds, asserts })
}
