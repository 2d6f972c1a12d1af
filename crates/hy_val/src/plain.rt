//! The plain body of evaluation: one pass over the nodes that keeps the value of each, whole.
ghost use Rattle.std.specs.Prelude.{◌≡◌, [], map, slice_get, IfOk, IsTrue, IsSome};
ghost use Rattle.std.specs.Option.{option_map};
ghost use Rattle.hy_val.specs.Maps.{select, stored};
ghost use Rattle.hy_val.specs.declared.value.Value.TheVariants.{Map as MapIs};
ghost use Rattle.hy_val.specs.Sorts.{scalar_of, has_scalar};
ghost use Rattle.hy_val.specs.Values.{sort_of, at, atom_of, table_of, is_on, unary_value, binary_value};
ghost use Rattle.hy_val.specs.NodeSorts.{as_scalar, unary_sort, binary_sort, select_sort, store_sort};
ghost use Rattle.hy_val.specs.Exprs.{sort_of_node, sorts_onto, node_by, values_by, read, eval, reads};

use crate::atom::{Atom, AtomKind};
use crate::expr::{Env, Expr, ExprNode, Var};
use crate::map::{MapValue, select, store};
use crate::operation::{apply, apply1};
use crate::operator::{BvOp, UnOp};
use crate::value::Value;
use std::alloc::{AllocError, Global};

// The atom at a place, which has its own sort; false where there is none.
fn atom_at(known: &[Value], place: usize) -> Atom
    ensures value { result ≡ atom_of (at known.now place) }
    ensures kept { IsTrue (has_scalar result (scalar_of result)) }
{
    match sqlite_items::at(known, place) {
        Some(Value::Atom(a)) => {
            let _sort = a.sort();
            *a
        }
        Some(Value::Map(_)) => Atom::bool(false),
        None => Atom::bool(false),
    }
}

// Whether the value at a place is true.
fn is_on(known: &[Value], place: usize) -> bool
    ensures { result ≡ is_on (at known.now place) }
{
    match atom_at(known, place).kind() {
        AtomKind::Bool(b) => b,
        AtomKind::Bv(_) => false,
    }
}

// The value at a place, copied; false where there is none.
fn value_at(alloc: Global, known: &[Value], place: usize) -> Result<Value, AllocError>
    ensures { IfOk result (λ v. v ≡ at known.now place) }
{
    match sqlite_items::at(known, place) {
        Some(value) => value.copy(alloc),
        None => Ok(Value::Atom(Atom::bool(false))),
    }
}

// The value of a variable, copied; false where there is none.
fn read(alloc: Global, env: &Env, var: Var) -> Result<Value, AllocError>
    ensures { IfOk result (λ v. v ≡ read env.now var) }
{
    match env.get(var) {
        Some(value) => value.copy(alloc),
        None => Ok(Value::Atom(Atom::bool(false))),
    }
}

fn unary(known: &[Value], op: UnOp, child: usize) -> Atom
    requires { IsSome (unary_sort op (as_scalar (slice_get (map sort_of known.now) child))) }
    ensures { result ≡ atom_of (unary_value op (at known.now child)) }
{
    apply1(op, atom_at(known, child))
}

fn binary(known: &[Value], op: BvOp, left: usize, right: usize) -> Atom
    requires { IsSome (binary_sort op (as_scalar (slice_get (map sort_of known.now) left)) (as_scalar (slice_get (map sort_of known.now) right))) }
    ensures { result ≡ atom_of (binary_value op (at known.now left) (at known.now right)) }
{
    apply(op, atom_at(known, left), atom_at(known, right))
}

// The entry at an index of the map at a place; false where there is no map.
fn select_at(known: &[Value], place: usize, i: Atom) -> Atom
    requires kept { IsTrue (has_scalar i (scalar_of i)) }
    requires fits { IsSome (select_sort (option_map sort_of (slice_get known.now place)) (Some (scalar_of i))) }
    ensures { result ≡ select (table_of (at known.now place)) i }
{
    match sqlite_items::at(known, place) {
        Some(Value::Map(m)) => select(m, i),
        Some(Value::Atom(_)) => Atom::bool(false),
        None => Atom::bool(false),
    }
}

// A copy of a map with a value in place of its entry at an index.
fn copy_with(alloc: Global, m: &MapValue, i: Atom, v: Atom) -> Result<Value, AllocError>
    requires index { IsTrue (has_scalar i m.now.index) }
    requires elem { IsTrue (has_scalar v m.now.elem) }
    ensures { IfOk result (λ r. r ≡ MapIs (stored m.now i v)) }
{
    let mut map = m.copy(alloc)?;
    store(&mut map, i, v)?;
    Ok(Value::Map(map))
}

// The map at a place with a value in place of its entry at an index.
fn store_at(
    alloc: Global,
    known: &[Value],
    place: usize,
    i: Atom,
    v: Atom,
) -> Result<Value, AllocError>
    requires index_kept { IsTrue (has_scalar i (scalar_of i)) }
    requires value_kept { IsTrue (has_scalar v (scalar_of v)) }
    requires fits { IsSome (store_sort (option_map sort_of (slice_get known.now place)) (Some (scalar_of i)) (Some (scalar_of v))) }
    ensures { IfOk result (λ r. r ≡ MapIs (stored (table_of (at known.now place)) i v)) }
{
    match sqlite_items::at(known, place) {
        Some(Value::Map(m)) => copy_with(alloc, m, i, v),
        Some(Value::Atom(_)) => unreachable!(),
        None => unreachable!(),
    }
}

// The value of a node, from those of the nodes before it.
fn node_value(
    alloc: Global,
    env: &Env,
    known: &[Value],
    node: &ExprNode,
) -> Result<Value, AllocError>
    requires { IsSome (sort_of_node (map sort_of known.now) node.now) }
    ensures { IfOk result (λ v. v ≡ node_by (read env.now) known.now node.now) }
{
    match node {
        ExprNode::Lit(atom) => Ok(Value::Atom(*atom)),
        ExprNode::Var { var, sort: _ } => read(alloc, env, *var),
        ExprNode::Unary { op, child } => Ok(Value::Atom(unary(known, *op, *child))),
        ExprNode::Binary { op, left, right } => Ok(Value::Atom(binary(known, *op, *left, *right))),
        ExprNode::If { cond, yes, no } => {
            if is_on(known, *cond) {
                value_at(alloc, known, *yes)
            } else {
                value_at(alloc, known, *no)
            }
        }
        ExprNode::Select { map, index } => Ok(Value::Atom(select_at(
            known,
            *map,
            atom_at(known, *index),
        ))),
        ExprNode::Store { map, index, value } => {
            store_at(
                alloc,
                known,
                *map,
                atom_at(known, *index),
                atom_at(known, *value),
            )
        }
    }
}

// The values of all nodes.
fn values_of(alloc: Global, env: &Env, nodes: &[ExprNode]) -> Result<Vec<Value>, AllocError>
    requires sorts { IsSome (sorts_onto [] nodes.now) }
    requires variables { IsTrue (reads env.now nodes.now) }
    ensures { IfOk result (λ vs. vs.items ≡ values_by (read env.now) [] nodes.now) }
{
    let mut values = Vec::new(alloc);
    for node in nodes {
        let value = node_value(alloc, env, values.as_slice(), node)?;
        // It says that the value is one of its sort, which an operator on it will ask.
        let _sort = value.sort();
        values.push(value)?;
    }
    Ok(values)
}

/// The value of an expression in an environment, which has its variables with their sorts: what
/// [`eval`](crate::eval) gives, by a body that copies a map at each node whose value is one. It is
/// there to be compared with.
pub fn eval_plain(alloc: Global, e: &Expr, env: &Env) -> Result<Value, AllocError>
    requires { IsTrue (reads env.now e.now) }
    ensures { IfOk result (λ v. v ≡ eval env.now e.now) }
{
    let mut values = values_of(alloc, env, e.nodes())?;
    match values.pop() {
        Some(value) => Ok(value),
        None => Ok(Value::Atom(Atom::bool(false))),
    }
}
