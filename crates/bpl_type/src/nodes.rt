//! Lists of nodes in the making. The number of an operand's last node is that of the operand.

ghost use Rattle.std.specs.Prelude.{◌≡◌, ◌+◌, ◌-◌, ◌%◌, ◌^◌, List, [], ◌∷◌, ◌++◌, length, map, slice_index, OnOk};
ghost use Rattle.std.specs.Option.{option_copied};
ghost use Rattle.hy_val.specs.Operators.{bits_atom};
ghost use Rattle.hy_val.specs.declared.expr.ExprNode.{ExprNode as Node};
ghost use Rattle.hy_val.specs.declared.expr.Var.{Var as Variable};
ghost use Rattle.bpl_type.specs.Making.{with_term, renumbered, read_back, argument_for, placed, join_term};
ghost use Rattle.type_pass.specs.Replaced.{read_if};
ghost use Rattle.type_pass.specs.Terms.{Term, lit, unary, choice, select, store, missing, nodes_of, substituted};

use hy_val::{Atom, BitVec, BvOp, ExprNode, Sort, UnOp, Var, Width};
use sqlite_items::{Items, at};
use std::alloc::{AllocError, Global};
use std::marker::Model;

/// The nodes of a term. Contracts see the list.
#[derive(Drop)]
pub struct Made {
    nodes: Items<ExprNode>,
}

impl Model for Made {
    ghost use Rattle.std.specs.Prelude.{◌≡◌, List};
    ghost use Rattle.hy_val.specs.declared.expr.ExprNode.{ExprNode};

    ghost Value = { List ExprNode };

    ghost use Rattle.bpl_type.specs.Making.{read_back};
    ghost use Rattle.type_pass.specs.Terms.{nodes_of};

    ghost view = { λ m. m.nodes };

    ghost invariant = { λ m. m.nodes ≡ nodes_of (read_back m.nodes) };
}

impl Made {
    /// These nodes, which are those of a term.
    pub fn new(nodes: Items<ExprNode>) -> Made
        requires { nodes ≡ nodes_of (read_back nodes) }
        ensures { result ≡ nodes }
    {
        Made { nodes }
    }

    /// The nodes, which are those of a term.
    pub fn nodes(&self) -> &[ExprNode]
        ensures value { result.now ≡ self.now }
        ensures kept { self.now ≡ nodes_of (read_back self.now) }
    {
        self.nodes.as_slice()
    }
}

/// How two operands are joined.
#[derive(Clone, Copy, Debug, PartialEq, Eq)]
pub enum Join {
    /// By an operator.
    Plain(BvOp),
    /// `a <== b`, which is `b ==> a`.
    Swapped,
}

/// The number of the last node.
pub fn last(out: &Items<ExprNode>) -> usize
    ensures { result ≡ length out.now - 1 }
{
    out.len().saturating_sub(1)
}

// A node that stands so many nodes later.
fn moved(node: &ExprNode, by: usize) -> ExprNode
    ensures { result ≡ renumbered (λ c. (by + c) % 2 ^ 64) node.now }
{
    match *node {
        ExprNode::Lit(atom) => ExprNode::Lit(atom),
        ExprNode::Var { var, sort } => ExprNode::Var { var, sort },
        ExprNode::Unary { op, child } => ExprNode::Unary {
            op,
            child: by.wrapping_add(child),
        },
        ExprNode::Binary { op, left, right } => ExprNode::Binary {
            op,
            left: by.wrapping_add(left),
            right: by.wrapping_add(right),
        },
        ExprNode::If { cond, yes, no } => ExprNode::If {
            cond: by.wrapping_add(cond),
            yes: by.wrapping_add(yes),
            no: by.wrapping_add(no),
        },
        ExprNode::Select { map, index } => ExprNode::Select {
            map: by.wrapping_add(map),
            index: by.wrapping_add(index),
        },
        ExprNode::Store { map, index, value } => ExprNode::Store {
            map: by.wrapping_add(map),
            index: by.wrapping_add(index),
            value: by.wrapping_add(value),
        },
    }
}

/// Puts the nodes of a term behind the others.
pub fn append(out: &mut Items<ExprNode>, made: &Made) -> Result<(), AllocError>
    ensures { OnOk result (out.new ≡ with_term out.old (read_back made.now)) }
{
    let start = out.len();
    let nodes = made.nodes();
    if nodes.len() > usize::MAX - start {
        return Err(AllocError);
    }
    for node in nodes {
        out.push(moved(node, start))?;
    }
    Ok(())
}

// ---- terms in place of the locals of a body

fn place(places: &[usize], number: usize) -> usize
    ensures { result ≡ slice_index places.now number }
{
    match places.get(number) {
        None => 0,
        Some(place) => *place,
    }
}

// A node whose operands are where these places say.
fn renumbered(node: &ExprNode, places: &[usize]) -> ExprNode
    ensures { result ≡ renumbered (λ c. slice_index places.now c) node.now }
{
    match *node {
        ExprNode::Lit(atom) => ExprNode::Lit(atom),
        ExprNode::Var { var, sort } => ExprNode::Var { var, sort },
        ExprNode::Unary { op, child } => ExprNode::Unary {
            op,
            child: place(places, child),
        },
        ExprNode::Binary { op, left, right } => ExprNode::Binary {
            op,
            left: place(places, left),
            right: place(places, right),
        },
        ExprNode::If { cond, yes, no } => ExprNode::If {
            cond: place(places, cond),
            yes: place(places, yes),
            no: place(places, no),
        },
        ExprNode::Select { map, index } => ExprNode::Select {
            map: place(places, map),
            index: place(places, index),
        },
        ExprNode::Store { map, index, value } => ExprNode::Store {
            map: place(places, map),
            index: place(places, index),
            value: place(places, value),
        },
    }
}

// The argument that stands for a node.
fn argument_for<'a>(arguments: &'a [Made], node: &ExprNode) -> Option<&'a Made>
    ensures { option_copied result ≡ argument_for arguments.now node.now }
{
    match *node {
        ExprNode::Var {
            var: Var::Local(number),
            ..
        } => at(arguments, number as usize),
        _ => None,
    }
}

fn place_node(
    out: &mut Items<ExprNode>,
    places: &[usize],
    arguments: &[Made],
    node: &ExprNode,
) -> Result<(), AllocError>
    ensures { OnOk result (out.new ≡ placed arguments.now places.now out.old node.now) }
{
    match argument_for(arguments, node) {
        None => out.push(renumbered(node, places)),
        Some(made) => append(out, made),
    }
}

/// Puts the nodes of a body behind the others, with the arguments in place of its locals.
pub fn append_body(
    alloc: Global,
    out: &mut Items<ExprNode>,
    body: &Made,
    arguments: &[Made],
) -> Result<(), AllocError>
    ensures { OnOk result (out.new ≡ with_term out.old (substituted (map read_back arguments.now) (read_back body.now))) }
{
    let mut places = Items::new(alloc);
    let nodes = body.nodes();
    for node in nodes {
        place_node(out, places.as_slice(), arguments, node)?;
        places.push(last(out))?;
    }
    Ok(())
}

// ---- single nodes

/// A literal.
pub fn push_literal(out: &mut Items<ExprNode>, atom: Atom) -> Result<(), AllocError>
    ensures { OnOk result (out.new ≡ with_term out.old (lit atom)) }
{
    out.push(ExprNode::Lit(atom))
}

/// A bit vector. A width or bits out of range, which no text has, count as want of memory.
pub fn push_bits(out: &mut Items<ExprNode>, width: u32, bits: u64) -> Result<(), AllocError>
    ensures { OnOk result (out.new ≡ with_term out.old (lit (bits_atom width bits))) }
{
    let Some(width) = Width::try_new(width) else {
        return Err(AllocError);
    };
    let Some(vector) = BitVec::try_new(width, bits) else {
        return Err(AllocError);
    };
    push_literal(out, Atom::bits(vector))
}

/// What stands for what isn't there.
pub fn push_missing(out: &mut Items<ExprNode>) -> Result<(), AllocError>
    ensures { OnOk result (out.new ≡ with_term out.old missing) }
{
    push_literal(out, Atom::bool(false))
}

/// A variable, where a name stands for one.
pub fn push_read(out: &mut Items<ExprNode>, found: Option<(Var, Sort)>) -> Result<(), AllocError>
    ensures { OnOk result (out.new ≡ with_term out.old (read_if found)) }
{
    match found {
        None => push_missing(out),
        Some(seen) => out.push(ExprNode::Var {
            var: seen.0,
            sort: seen.1,
        }),
    }
}

/// An operator of the last operand.
pub fn push_unary(out: &mut Items<ExprNode>, op: UnOp) -> Result<(), AllocError>
    ensures { (o : List Node) → (a : Term) → out.old ≡ with_term o a → OnOk result (out.new ≡ with_term o (unary op a)) }
{
    let child = last(out);
    out.push(ExprNode::Unary { op, child })
}

/// The bits of the last operand from low on, below high. Numbers out of range count as want of
/// memory.
pub fn push_extract(out: &mut Items<ExprNode>, high: u128, low: u128) -> Result<(), AllocError>
    ensures { (o : List Node) → (a : Term) → out.old ≡ with_term o a → OnOk result (out.new ≡ with_term o (unary (UnOp.Extract high low) a)) }
{
    let limit = 1 << 32;
    if high >= limit || low >= limit {
        return Err(AllocError);
    }
    push_unary(
        out,
        UnOp::Extract {
            hi: high as u32,
            lo: low as u32,
        },
    )
}

/// The join of an operand of this number with the last one.
pub fn push_join(out: &mut Items<ExprNode>, join: Join, left: usize) -> Result<(), AllocError>
    ensures { (o : List Node) → (a b : Term) → out.old ≡ with_term (with_term o a) b → left ≡ length (with_term o a) - 1 → OnOk result (out.new ≡ with_term o (join_term join a b)) }
{
    let right = last(out);
    match join {
        Join::Plain(op) => out.push(ExprNode::Binary { op, left, right }),
        Join::Swapped => out.push(ExprNode::Binary {
            op: BvOp::Implies,
            left: right,
            right: left,
        }),
    }
}

/// The choice by a condition and of a value of these numbers, and of the last operand.
pub fn push_choice(out: &mut Items<ExprNode>, cond: usize, yes: usize) -> Result<(), AllocError>
    ensures { (o : List Node) → (c a b : Term) → out.old ≡ with_term (with_term (with_term o c) a) b → cond ≡ length (with_term o c) - 1 → yes ≡ length (with_term (with_term o c) a) - 1
        → OnOk result (out.new ≡ with_term o (choice c a b)) }
{
    let no = last(out);
    out.push(ExprNode::If { cond, yes, no })
}

/// The entry of the map of this number at the last operand.
pub fn push_select(out: &mut Items<ExprNode>, table: usize) -> Result<(), AllocError>
    ensures { (o : List Node) → (a b : Term) → out.old ≡ with_term (with_term o a) b → table ≡ length (with_term o a) - 1 → OnOk result (out.new ≡ with_term o (select a b)) }
{
    let index = last(out);
    out.push(ExprNode::Select { map: table, index })
}

/// The map of this number with the last operand at the index of this number.
pub fn push_store(out: &mut Items<ExprNode>, table: usize, index: usize) -> Result<(), AllocError>
    ensures { (o : List Node) → (c a b : Term) → out.old ≡ with_term (with_term (with_term o c) a) b → table ≡ length (with_term o c) - 1 → index ≡ length (with_term (with_term o c) a) - 1
        → OnOk result (out.new ≡ with_term o (store c a b)) }
{
    let value = last(out);
    out.push(ExprNode::Store {
        map: table,
        index,
        value,
    })
}
