//! Expressions, and the environments that they read.
ghost use Rattle.std.specs.Prelude.{◌≡◌, ◌↔◌, IfOk, IsTrue};
ghost use Rattle.std.specs.Option.{option_copied};

use crate::atom::Atom;
use crate::operator::{BvOp, UnOp};
use crate::sort::Sort;
use crate::value::Value;
use sqlite_items::{Items, at};
use std::alloc::{AllocError, Global};
use std::marker::Model;

/// A variable, by its kind and its number among those of its kind, from 0.
#[derive(Clone, Copy, Debug, PartialEq, Eq)]
pub enum Var {
    Const(u32),
    Global(u32),
    Local(u32),
}

/// A node of an expression. Its children are named by their numbers, which are lower than its own.
#[derive(Clone, Copy, Debug, PartialEq, Eq)]
pub enum ExprNode {
    /// A constant value.
    Lit(Atom),
    /// The value of a variable.
    Var {
        var: Var,
        sort: Sort,
    },
    /// An operator with one operand.
    Unary {
        op: UnOp,
        child: usize,
    },
    /// An operator with two operands.
    Binary {
        op: BvOp,
        left: usize,
        right: usize,
    },
    /// `yes` where the bool `cond` is true, else `no`, which has the same sort.
    If {
        cond: usize,
        yes: usize,
        no: usize,
    },
    /// The entry of a map at an index.
    Select {
        map: usize,
        index: usize,
    },
    /// The map with a value in place of its entry at an index.
    Store {
        map: usize,
        index: usize,
        value: usize,
    },
}

/// An expression: a list of nodes that isn't empty, in which children stand before their nodes and
/// the sorts fit. The last node is the whole. Contracts see the list.
#[derive(Drop)]
pub struct Expr {
    nodes: Items<ExprNode>,
}

impl Model for Expr {
    ghost use Rattle.std.specs.Prelude.{List, IsTrue};
    ghost use Rattle.hy_val.specs.declared.expr.ExprNode.{ExprNode};

    ghost Value = { List ExprNode };

    ghost use Rattle.hy_val.specs.Exprs.{is_expr};

    ghost view = { λ e. e.nodes };

    ghost invariant = { λ e. IsTrue (is_expr e.nodes) };
}

// Whether two nodes are equal.
fn same_node(left: &ExprNode, right: &ExprNode) -> bool
    ensures { IsTrue result ↔ (left.now ≡ right.now) }
{
    *left == *right
}

// Whether two lists of nodes are equal.
fn same_nodes(left: &[ExprNode], right: &[ExprNode]) -> bool
    ensures { IsTrue result ↔ (left.now ≡ right.now) }
{
    if left.len() != right.len() {
        return false;
    }
    for i in 0..left.len() {
        if !same_node(&left[i], &right[i]) {
            return false;
        }
    }
    true
}

impl Expr {
    ghost use Rattle.hy_val.specs.Exprs.{is_expr};

    /// The expression of these nodes, which are one.
    pub fn new(nodes: Items<ExprNode>) -> Expr
        requires { IsTrue (is_expr nodes) }
        ensures { result ≡ nodes }
    {
        Expr { nodes }
    }

    /// The nodes, of which there are some; children stand before their nodes, and the sorts fit.
    pub fn nodes(&self) -> &[ExprNode]
        ensures value { result.now ≡ self.now }
        ensures kept { IsTrue (is_expr self.now) }
    {
        self.nodes.as_slice()
    }

    /// Whether the two are equal: the same list of nodes. It takes no memory.
    pub fn same(&self, other: &Expr) -> bool
        ensures { IsTrue result ↔ (self.now ≡ other.now) }
    {
        same_nodes(self.nodes.as_slice(), other.nodes.as_slice())
    }

    /// An equal expression.
    pub fn copy(&self, alloc: Global) -> Result<Expr, AllocError>
        ensures { IfOk result (λ e. e ≡ self.now) }
    {
        let nodes = Items::from_slice(alloc, self.nodes.as_slice())?;
        Ok(Expr { nodes })
    }
}

/// The values of the variables, each list by number.
#[derive(Drop)]
pub struct Env {
    pub consts: Items<Value>,
    pub globals: Items<Value>,
    pub locals: Items<Value>,
}

impl Env {
    ghost use Rattle.hy_val.specs.Exprs.{variable, node_reads, reads};

    /// The value of a variable, where it has one.
    pub fn get(&self, var: Var) -> Option<&Value>
        ensures { option_copied result ≡ variable self.now var }
    {
        match var {
            Var::Const(number) => at(self.consts.as_slice(), number as usize),
            Var::Global(number) => at(self.globals.as_slice(), number as usize),
            Var::Local(number) => at(self.locals.as_slice(), number as usize),
        }
    }

    // Whether the variable of a node, if it is one, is there with its sort.
    fn node_reads(&self, node: &ExprNode) -> bool
        ensures { result ≡ node_reads self.now node.now }
    {
        match node {
            ExprNode::Var { var, sort } => match self.get(*var) {
                Some(value) => value.has_sort(*sort),
                None => false,
            },
            ExprNode::Lit(_) => true,
            ExprNode::Unary { .. } => true,
            ExprNode::Binary { .. } => true,
            ExprNode::If { .. } => true,
            ExprNode::Select { .. } => true,
            ExprNode::Store { .. } => true,
        }
    }

    /// Whether the variables of an expression are there, with their sorts: what its evaluation asks.
    pub fn reads(&self, e: &Expr) -> bool
        ensures { result ≡ reads self.now e.now }
    {
        let nodes = e.nodes();
        for node in nodes {
            if !self.node_reads(node) {
                return false;
            }
        }
        true
    }
}
