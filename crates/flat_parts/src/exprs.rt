//! Whether expressions fit, by the sorts of the variables that are known.
ghost use Rattle.std.specs.Prelude.{◌≡◌, IfOk};
ghost use Rattle.std.specs.List.{list_all};
ghost use Rattle.hy_val.specs.Building.{whole_sort};
ghost use Rattle.hy_val.specs.NodeSorts as sorts;
ghost use Rattle.hy_val.specs.Scope as spec;

use hy_val::{Expr, ExprBuilder, ExprNode, Sort, Var};
use sqlite_items::at;
use std::alloc::{AllocError, Global};
use std::marker::Model;

/// The sorts of the constants, the globals and the locals, each by number. Contracts see a scope.
#[derive(Drop)]
pub(crate) struct Known<'a> {
    consts: &'a [Sort],
    globals: &'a [Sort],
    locals: &'a [Sort],
}

impl<'a> Model for Known<'a> {
    ghost use Rattle.hy_val.specs.Scope.{Scope};

    ghost Value = { Scope };

    ghost view = { λ k. record { consts = k.consts.now; globals = k.globals.now; locals = k.locals.now } };
}

/// Whether the sorts are equal.
pub(crate) fn same_sort(one: Sort, other: Sort) -> bool
    ensures { result ≡ sorts.same_sort one other }
{
    one == other
}

/// Whether the sort is there, and this one.
pub(crate) fn is_sort_of(found: Option<Sort>, sort: Sort) -> bool
    ensures { result ≡ spec.is_sort_of found sort }
{
    match found {
        Some(found) => same_sort(found, sort),
        None => false,
    }
}

// Whether the sort is there, and the other one too.
fn are_same(sort: Option<Sort>, other: Option<Sort>) -> bool
    ensures { result ≡ spec.are_same sort other }
{
    match sort {
        Some(sort) => is_sort_of(other, sort),
        None => false,
    }
}

// The sort of the last node.
fn sort_of(alloc: Global, expr: &Expr) -> Result<Option<Sort>, AllocError>
    ensures { IfOk result (λ s. s ≡ whole_sort expr.now) }
{
    let nodes = expr.nodes();
    let mut builder = ExprBuilder::new(alloc);
    for node in nodes {
        builder.add(*node)?;
    }
    Ok(builder.sort(nodes.len().saturating_sub(1)))
}

impl<'a> Known<'a> {
    /// These sorts.
    pub(crate) fn new(consts: &'a [Sort], globals: &'a [Sort], locals: &'a [Sort]) -> Known<'a>
        ensures { result ≡ record { consts = consts.now; globals = globals.now; locals = locals.now } }
    {
        Known {
            consts,
            globals,
            locals,
        }
    }

    // The sort of a variable.
    fn variable(&self, var: Var) -> Option<Sort>
        ensures { result ≡ spec.sort_of_variable self.now var }
    {
        match var {
            Var::Const(number) => at(self.consts, number as usize).copied(),
            Var::Global(number) => at(self.globals, number as usize).copied(),
            Var::Local(number) => at(self.locals, number as usize).copied(),
        }
    }

    /// The sort of a variable that can be written.
    pub(crate) fn target(&self, var: Var) -> Option<Sort>
        ensures { result ≡ spec.sort_of_target self.now var }
    {
        match var {
            Var::Const(_) => None,
            Var::Global(number) => at(self.globals, number as usize).copied(),
            Var::Local(number) => at(self.locals, number as usize).copied(),
        }
    }

    // Whether the node's variable, where it is one, is known with its sort.
    fn node_fits(&self, node: &ExprNode) -> bool
        ensures { result ≡ spec.node_fits self.now node.now }
    {
        match node {
            ExprNode::Var { var, sort } => is_sort_of(self.variable(*var), *sort),
            ExprNode::Lit(_) => true,
            ExprNode::Unary { .. } => true,
            ExprNode::Binary { .. } => true,
            ExprNode::If { .. } => true,
            ExprNode::Select { .. } => true,
            ExprNode::Store { .. } => true,
        }
    }

    // Whether all are.
    fn nodes_fit(&self, nodes: &[ExprNode]) -> bool
        ensures { result ≡ list_all (spec.node_fits self.now) nodes.now }
    {
        for node in nodes {
            if !self.node_fits(node) {
                return false;
            }
        }
        true
    }

    /// Whether the variables of the expression are known, and the whole has this sort.
    pub(crate) fn expr_fits(
        &self,
        alloc: Global,
        sort: Option<Sort>,
        expr: &Expr,
    ) -> Result<bool, AllocError>
        ensures { IfOk result (λ fits. fits ≡ spec.expr_fits self.now sort expr.now) }
    {
        let found = sort_of(alloc, expr)?;
        Ok(self.nodes_fit(expr.nodes()) && are_same(found, sort))
    }

    /// Whether the variable can be written.
    pub(crate) fn is_target(&self, var: Var) -> bool
        ensures { result ≡ spec.is_target self.now var }
    {
        are_same(self.target(var), self.target(var))
    }
}
