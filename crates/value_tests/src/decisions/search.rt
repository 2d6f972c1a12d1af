//! Whether terms can hold, by a search over all values of their variables. Their meaning is that of the expression with
//! the same nodes.

use super::digits::Digits;
use super::values::{value, value_count};
use hy_term::{TermNode, TermVariable, Terms, variables_of};
use hy_val::{Atom, Env, Expr, ExprBuilder, ExprNode, Sort, Value, Var, eval};
use sqlite_items::Items;
use std::alloc::{AllocError, Global};

/// Terms as an expression. The global k has the value of the k-th of the variables, the constant k the zero map that the
/// k-th node is.
#[derive(Drop)]
pub struct Question {
    expr: Expr,
    variables: Items<TermVariable>,
    env: Env,
}

// The place of the variable of this number.
fn place_of(variables: &[TermVariable], number: usize) -> u32 {
    let mut place: u32 = 0;
    for variable in variables {
        if variable.number == number {
            return place;
        }
        place = place.saturating_add(1);
    }
    place
}

// The node of the expression for the k-th node of the terms.
fn expr_node(variables: &[TermVariable], k: u32, node: &TermNode) -> ExprNode {
    match *node {
        TermNode::Lit(atom) => ExprNode::Lit(atom),
        TermNode::ZeroMap { index, elem } => ExprNode::Var {
            var: Var::Const(k),
            sort: Sort::map(index, elem),
        },
        TermNode::Variable { number, sort } => ExprNode::Var {
            var: Var::Global(place_of(variables, number)),
            sort,
        },
        TermNode::Unary { op, child } => ExprNode::Unary { op, child },
        TermNode::Binary { op, left, right } => ExprNode::Binary { op, left, right },
        TermNode::If { cond, yes, no } => ExprNode::If { cond, yes, no },
        TermNode::Select { map, index } => ExprNode::Select { map, index },
        TermNode::Store { map, index, value } => ExprNode::Store { map, index, value },
    }
}

// The expression of the terms' root.
fn expression(
    alloc: Global,
    terms: &Terms,
    variables: &[TermVariable],
) -> Result<Option<Expr>, AllocError> {
    let mut builder = ExprBuilder::new(alloc);
    let mut k: u32 = 0;
    for node in terms.nodes() {
        let added = builder.try_add(expr_node(variables, k, node))?;
        if added.is_none() {
            return Ok(None);
        }
        k = k.saturating_add(1);
    }
    let root = terms.root();
    if root < builder.len() {
        Ok(Some(builder.finish(root)))
    } else {
        Ok(None)
    }
}

// The zero map that each node is, and false where it is none.
fn zero_maps(alloc: Global, nodes: &[TermNode]) -> Result<Items<Value>, AllocError> {
    let mut zeros = Items::new(alloc);
    for node in nodes {
        let zero = match *node {
            TermNode::ZeroMap { index, elem } => Value::zero(alloc, Sort::map(index, elem)),
            _ => Value::Atom(Atom::bool(false)),
        };
        zeros.push(zero)?;
    }
    Ok(zeros)
}

// How many lists of values the variables have.
fn list_count(variables: &[TermVariable]) -> u64 {
    let mut count: u64 = 1;
    for variable in variables {
        count = count.saturating_mul(value_count(variable.sort));
    }
    count
}

// The list of values of this number.
fn list(
    alloc: Global,
    variables: &[TermVariable],
    number: u64,
) -> Result<Items<Value>, AllocError> {
    let mut digits = Digits::new(number);
    let mut values = Items::new(alloc);
    for variable in variables {
        let digit = digits.below(value_count(variable.sort));
        values.push(value(alloc, variable.sort, digit)?)?;
    }
    Ok(values)
}

impl Question {
    /// The question that the terms ask; None where their expression is none.
    pub fn of(alloc: Global, terms: &Terms) -> Result<Option<Question>, AllocError> {
        let variables = variables_of(alloc, terms.nodes())?;
        let Some(expr) = expression(alloc, terms, variables.as_slice())? else {
            return Ok(None);
        };
        let env = Env {
            consts: zero_maps(alloc, terms.nodes())?,
            globals: Items::new(alloc),
            locals: Items::new(alloc),
        };
        Ok(Some(Question {
            expr,
            variables,
            env,
        }))
    }

    /// Whether these values of the variables, ascending by number, have their sorts and make the root true.
    pub fn holds(&mut self, alloc: Global, values: Items<Value>) -> Result<bool, AllocError> {
        self.env.globals = values;
        if !self.env.reads(&self.expr) {
            return Ok(false);
        }
        let value = eval(alloc, &self.expr, &self.env)?;
        Ok(value.same(&Value::Atom(Atom::bool(true))))
    }

    /// Whether some values of the variables make the root true.
    pub fn can_hold(&mut self, alloc: Global) -> Result<bool, AllocError> {
        for number in 0..list_count(self.variables.as_slice()) {
            let values = list(alloc, self.variables.as_slice(), number)?;
            if self.holds(alloc, values)? {
                return Ok(true);
            }
        }
        Ok(false)
    }
}
