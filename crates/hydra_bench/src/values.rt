//! Evaluation of a long expression.

use hy_val::{
    Atom, BitVec, BvOp, Env, Expr, ExprBuilder, ExprNode, Scalar, Sort, Value, Var, Width, eval,
};
use sqlite_items::Items;
use std::alloc::{AllocError, Global};

/// A sum of so many variables' values, `x + x + ..`, grouped from the left.
fn sum(alloc: Global, count: u64) -> Result<Option<Expr>, AllocError> {
    let variable = ExprNode::Var {
        var: Var::Global(0),
        sort: Sort::scalar(Scalar::bits(Width::new(32))),
    };
    let mut builder = ExprBuilder::new(alloc);
    let Some(mut left) = builder.try_add(variable)? else {
        return Ok(None);
    };
    for _ in 1..count {
        let Some(right) = builder.try_add(variable)? else {
            return Ok(None);
        };
        let node = ExprNode::Binary {
            op: BvOp::BvAdd,
            left,
            right,
        };
        let Some(whole) = builder.try_add(node)? else {
            return Ok(None);
        };
        left = whole;
    }
    Ok(if left < builder.len() {
        Some(builder.finish(left))
    } else {
        None
    })
}

/// Counts of the evaluation's work.
#[derive(Clone, Copy)]
pub struct Counts {
    /// The nodes of the expression.
    pub nodes: usize,
    /// The rank of its value.
    pub value: u64,
}

/// The rank of an atom; 0 of a map.
fn rank(value: &Value) -> u64 {
    match value {
        Value::Atom(atom) => atom.rank(),
        Value::Map(_) => 0,
    }
}

/// Evaluates a sum of so many thousands of a variable whose value is 3.
pub fn evaluate(alloc: Global, thousands: u64) -> Result<Counts, AllocError> {
    let three = Atom::bits(BitVec::new(Width::new(32), 3));
    let globals = Items::from_vec(vec![in alloc; Value::Atom(three)]?);
    let env = Env {
        consts: Items::new(alloc),
        globals,
        locals: Items::new(alloc),
    };
    let Some(sum) = sum(alloc, thousands.saturating_mul(500))? else {
        return Err(AllocError);
    };
    if !env.reads(&sum) {
        return Err(AllocError);
    }
    let value = eval(alloc, &sum, &env)?;
    Ok(Counts {
        nodes: sum.nodes().len(),
        value: rank(&value),
    })
}
