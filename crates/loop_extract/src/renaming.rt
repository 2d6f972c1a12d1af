//! Commands of a source procedure in a flat procedure, where the locals stand further behind.
ghost use Rattle.std.specs.Prelude.{◌≡◌, map, IfOk};
ghost use Rattle.hy_val.specs.Laws.{renamed};
ghost use Rattle.extract_def.specs.Renaming as spec;

use crate::numbers::sum;
use flat_prog::FlatCmd;
use hy_val::{Expr, ExprNode, Var, renaming_keeps};
use sqlite_items::Items;
use src_prog::Cmd;
use std::alloc::{AllocError, Global};

// The variable, a local so much further behind.
fn behind(var: Var, by: u32) -> Result<Var, AllocError>
    ensures { IfOk result (λ x. x ≡ spec.behind by var) }
{
    match var {
        Var::Const(number) => Ok(Var::Const(number)),
        Var::Global(number) => Ok(Var::Global(number)),
        Var::Local(number) => {
            let moved = sum(by, number)?;
            Ok(Var::Local(moved))
        }
    }
}

// The node with its variable, if it is one, so much further behind.
fn moved_node(node: ExprNode, by: u32) -> Result<ExprNode, AllocError>
    ensures { IfOk result (λ n. n ≡ renamed (spec.behind by) node) }
{
    match node {
        ExprNode::Lit(atom) => Ok(ExprNode::Lit(atom)),
        ExprNode::Var { var, sort } => {
            let var = behind(var, by)?;
            Ok(ExprNode::Var { var, sort })
        }
        ExprNode::Unary { op, child } => Ok(ExprNode::Unary { op, child }),
        ExprNode::Binary { op, left, right } => Ok(ExprNode::Binary { op, left, right }),
        ExprNode::If { cond, yes, no } => Ok(ExprNode::If { cond, yes, no }),
        ExprNode::Select { map, index } => Ok(ExprNode::Select { map, index }),
        ExprNode::Store { map, index, value } => Ok(ExprNode::Store { map, index, value }),
    }
}

// The nodes with their variables so much further behind.
fn moved_nodes(alloc: Global, nodes: &[ExprNode], by: u32) -> Result<Items<ExprNode>, AllocError>
    ensures { IfOk result (λ ns. ns ≡ spec.moved by nodes.now) }
{
    let mut moved = Items::new(alloc);
    for node in nodes {
        moved.push(moved_node(*node, by)?)?;
    }
    Ok(moved)
}

// The expression with its locals so much further behind.
fn moved(alloc: Global, expr: &Expr, by: u32) -> Result<Expr, AllocError>
    ensures { IfOk result (λ e. e ≡ spec.moved by expr.now) }
{
    renaming_keeps();
    let nodes = moved_nodes(alloc, expr.nodes(), by)?;
    Ok(Expr::new(nodes))
}

// The expressions with their locals so much further behind.
fn moved_all(alloc: Global, exprs: &[Expr], by: u32) -> Result<Items<Expr>, AllocError>
    ensures { IfOk result (λ es. es ≡ map (spec.moved by) exprs.now) }
{
    let mut all = Items::new(alloc);
    for expr in exprs {
        all.push(moved(alloc, expr, by)?)?;
    }
    Ok(all)
}

// The variables, locals so much further behind.
fn all_behind(alloc: Global, vars: &[Var], by: u32) -> Result<Items<Var>, AllocError>
    ensures { IfOk result (λ xs. xs ≡ map (spec.behind by) vars.now) }
{
    let mut all = Items::new(alloc);
    for var in vars {
        all.push(behind(*var, by)?)?;
    }
    Ok(all)
}

// The pairs of an assignment with their locals so much further behind.
fn moved_pairs(
    alloc: Global,
    pairs: &[(Var, Expr)],
    by: u32,
) -> Result<Items<(Var, Expr)>, AllocError>
    ensures { IfOk result (λ ps. ps ≡ map (spec.moved_pair by) pairs.now) }
{
    let mut all = Items::new(alloc);
    for pair in pairs {
        let var = behind(pair.0, by)?;
        let value = moved(alloc, &pair.1, by)?;
        all.push((var, value))?;
    }
    Ok(all)
}

// The command of the procedure of this number, with its locals so much further behind.
fn moved_cmd(alloc: Global, proc: u32, by: u32, cmd: &Cmd) -> Result<FlatCmd, AllocError>
    ensures { IfOk result (λ c. c ≡ spec.moved_cmd proc by cmd.now) }
{
    match cmd {
        Cmd::Assign(pairs) => {
            let pairs = moved_pairs(alloc, pairs.as_slice(), by)?;
            Ok(FlatCmd::Assign(pairs))
        }
        Cmd::Havoc(vars) => {
            let vars = all_behind(alloc, vars.as_slice(), by)?;
            Ok(FlatCmd::Havoc(vars))
        }
        Cmd::Assume(expr) => {
            let expr = moved(alloc, expr, by)?;
            Ok(FlatCmd::Assume(expr))
        }
        Cmd::Assert { number, expr } => {
            let number = *number;
            let expr = moved(alloc, expr, by)?;
            Ok(FlatCmd::Assert { proc, number, expr })
        }
        Cmd::Call {
            proc: callee,
            args,
            outs,
        } => {
            let callee = *callee;
            let args = moved_all(alloc, args.as_slice(), by)?;
            let outs = all_behind(alloc, outs.as_slice(), by)?;
            Ok(FlatCmd::Call {
                proc: callee,
                args,
                outs,
            })
        }
    }
}

/// The commands of the procedure of this number, in order, with their locals so much further behind.
/// A number that needs more than 32 bits is want of memory, too.
pub fn moved_cmds(
    alloc: Global,
    proc: u32,
    by: u32,
    cmds: &[Cmd],
) -> Result<Items<FlatCmd>, AllocError>
    ensures { IfOk result (λ cs. cs ≡ map (spec.moved_cmd proc by) cmds.now) }
{
    let mut all = Items::new(alloc);
    for cmd in cmds {
        all.push(moved_cmd(alloc, proc, by, cmd)?)?;
    }
    Ok(all)
}
