//! The text of sorts, variables, values and expressions.

use hy_val::{Atom, AtomKind, Expr, ExprNode, Scalar, ScalarKind, Sort, SortKind, Var};
use std::alloc::{AllocError, Global};

fn scalar_text(alloc: Global, scalar: Scalar) -> Result<String, AllocError> {
    match scalar.kind() {
        ScalarKind::Bool => format!(in alloc; "bool"),
        ScalarKind::Bv { width } => format!(in alloc; "bv{}", width.bits()),
    }
}

/// `bool`, `bv8` or `[bv32]bv8`.
pub fn sort_text(alloc: Global, sort: Sort) -> Result<String, AllocError> {
    match sort.kind() {
        SortKind::Scalar(scalar) => scalar_text(alloc, scalar),
        SortKind::Map { index, elem } => {
            let index = scalar_text(alloc, index)?;
            let elem = scalar_text(alloc, elem)?;
            format!(in alloc; "[{}]{}", index.as_str(), elem.as_str())
        }
    }
}

/// `c`, `g` or `l`, and the number.
pub fn var_text(alloc: Global, var: Var) -> Result<String, AllocError> {
    match var {
        Var::Const(number) => format!(in alloc; "c{number}"),
        Var::Global(number) => format!(in alloc; "g{number}"),
        Var::Local(number) => format!(in alloc; "l{number}"),
    }
}

// `true`, `false` or `3bv8`.
fn atom_text(alloc: Global, atom: Atom) -> Result<String, AllocError> {
    match atom.kind() {
        AtomKind::Bool(value) => format!(in alloc; "{value}"),
        AtomKind::Bv(value) => format!(in alloc; "{}bv{}", value.bits(), value.width().bits()),
    }
}

// The text of a node that stands before, by its number.
fn text_at(before: &[String], number: usize) -> &str {
    match before.get(number) {
        Some(text) => text.as_str(),
        None => "nothing",
    }
}

// The text of a node, where these are those of the nodes before it.
fn node_text(alloc: Global, node: &ExprNode, before: &[String]) -> Result<String, AllocError> {
    match node {
        ExprNode::Lit(atom) => atom_text(alloc, *atom),
        ExprNode::Var { var, .. } => var_text(alloc, *var),
        ExprNode::Unary { op, child } => {
            format!(in alloc; "{op:?}({})", text_at(before, *child))
        }
        ExprNode::Binary { op, left, right } => {
            format!(in alloc;
                "{op:?}({}, {})",
                text_at(before, *left),
                text_at(before, *right)
            )
        }
        ExprNode::If { cond, yes, no } => {
            format!(in alloc;
                "If({}, {}, {})",
                text_at(before, *cond),
                text_at(before, *yes),
                text_at(before, *no)
            )
        }
        ExprNode::Select { map, index } => {
            format!(in alloc;
                "Select({}, {})",
                text_at(before, *map),
                text_at(before, *index)
            )
        }
        ExprNode::Store { map, index, value } => {
            format!(in alloc;
                "Store({}, {}, {})",
                text_at(before, *map),
                text_at(before, *index),
                text_at(before, *value)
            )
        }
    }
}

/// An expression as operators with their operands, as `Not(Ne(l0, 3bv8))`.
pub fn expr_text(alloc: Global, expr: &Expr) -> Result<String, AllocError> {
    let mut texts = Vec::new(alloc);
    for node in expr.nodes() {
        let text = node_text(alloc, node, texts.as_slice())?;
        texts.push(text)?;
    }
    texts.pop().ok_or(AllocError)
}
