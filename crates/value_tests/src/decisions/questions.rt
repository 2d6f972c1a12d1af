//! Small questions with known answers.

use decide::{Decision, decide};
use hy_term::{TermBuilder, TermNode, Terms};
use hy_val::{Atom, BitVec, BvOp, Scalar, Sort, UnOp, Value, Width};
use std::alloc::{AllocError, Global};
use std::test::Fail;

// `m[false] && m[true]`.
fn both_entries(alloc: Global) -> Result<Terms, AllocError> {
    let mut terms = Terms::new(alloc)?;
    let map = terms.add(TermNode::Variable {
        number: 3,
        sort: Sort::map(Scalar::bool(), Scalar::bool()),
    })?;
    let off = terms.add(TermNode::Lit(Atom::bool(false)))?;
    let one = terms.add(TermNode::Select { map, index: off })?;
    let other = terms.add(TermNode::Select { map, index: 0 })?;
    let both = terms.add(TermNode::Binary {
        op: BvOp::And,
        left: one,
        right: other,
    })?;
    terms.set_root(both);
    Ok(terms)
}

// `x && !x`.
fn contradiction(alloc: Global) -> Result<Terms, AllocError> {
    let mut terms = Terms::new(alloc)?;
    let x = terms.add(TermNode::Variable {
        number: 0,
        sort: Sort::scalar(Scalar::bool()),
    })?;
    let negated = terms.add(TermNode::Unary {
        op: UnOp::Not,
        child: x,
    })?;
    let both = terms.add(TermNode::Binary {
        op: BvOp::And,
        left: x,
        right: negated,
    })?;
    terms.set_root(both);
    Ok(terms)
}

// Whether the value is the map `[bool]bool{false:true,true:true}`.
fn is_true_at_both(value: &Value) -> bool {
    match value {
        Value::Atom(_) => false,
        Value::Map(map) => {
            let pairs = map.pairs();
            pairs.len() == 2
                && pairs[0].0 == Atom::bool(false)
                && pairs[0].1 == Atom::bool(true)
                && pairs[1].0 == Atom::bool(true)
                && pairs[1].1 == Atom::bool(true)
        }
    }
}

#[test]
fn a_map_is_read_back(rt: HostRuntime) -> Result<(), Fail> {
    let terms = both_entries(rt.alloc())?;
    let found = match decide(rt.alloc(), &terms) {
        Decision::Model(values) => values.len() == 1
            && values.as_slice().iter().all(|value| is_true_at_both(value)),
        Decision::Refuted(_) => false,
        Decision::NoMemory => false,
    };
    assert!(rt; found);
    Ok(())
}

// Whether no values make the terms' root true.
fn is_refuted(alloc: Global, terms: &Terms) -> bool {
    match decide(alloc, terms) {
        Decision::Model(_) => false,
        Decision::Refuted(_) => true,
        Decision::NoMemory => false,
    }
}

#[test]
fn a_contradiction_is_refuted(rt: HostRuntime) -> Result<(), Fail> {
    let terms = contradiction(rt.alloc())?;
    assert!(rt; is_refuted(rt.alloc(), &terms));
    Ok(())
}

// `x == bvadd(x, 1)`, on eight bits.
fn own_successor(alloc: Global) -> Result<Terms, AllocError> {
    let mut terms = Terms::new(alloc)?;
    let x = terms.add(TermNode::Variable {
        number: 0,
        sort: Sort::scalar(Scalar::bits(Width::new(8))),
    })?;
    let one = terms.add(TermNode::Lit(Atom::bits(BitVec::new(Width::new(8), 1))))?;
    let next = terms.add(TermNode::Binary {
        op: BvOp::BvAdd,
        left: x,
        right: one,
    })?;
    let same = terms.add(TermNode::Binary {
        op: BvOp::Eq,
        left: x,
        right: next,
    })?;
    terms.set_root(same);
    Ok(terms)
}

// `x == bvmul(x, x)`, on eight bits.
fn own_square(alloc: Global) -> Result<Terms, AllocError> {
    let mut terms = Terms::new(alloc)?;
    let x = terms.add(TermNode::Variable {
        number: 0,
        sort: Sort::scalar(Scalar::bits(Width::new(8))),
    })?;
    let square = terms.add(TermNode::Binary {
        op: BvOp::BvMul,
        left: x,
        right: x,
    })?;
    let same = terms.add(TermNode::Binary {
        op: BvOp::Eq,
        left: x,
        right: square,
    })?;
    terms.set_root(same);
    Ok(terms)
}

fn variable(number: usize, sort: Sort) -> TermNode {
    TermNode::Variable { number, sort }
}

fn binary(op: BvOp, left: usize, right: usize) -> TermNode {
    TermNode::Binary { op, left, right }
}

// `i != j` and `m[i := v][j] != m[j]`, on eight bits.
fn elsewhere_stored(alloc: Global) -> Result<Terms, AllocError> {
    let mut builder = TermBuilder::new(alloc)?;
    let byte = Scalar::bits(Width::new(8));
    let nodes = [
        variable(0, Sort::map(byte, byte)),
        variable(1, Sort::scalar(byte)),
        variable(2, Sort::scalar(byte)),
        variable(3, Sort::scalar(byte)),
        TermNode::Store {
            map: 1,
            index: 2,
            value: 4,
        },
        TermNode::Select { map: 5, index: 3 },
        TermNode::Select { map: 1, index: 3 },
        binary(BvOp::Ne, 2, 3),
        binary(BvOp::Ne, 6, 7),
        binary(BvOp::And, 8, 9),
    ];
    for node in &nodes {
        builder.try_add(*node)?;
    }
    builder.finish(10).ok_or(AllocError)
}

// Whether the value is one byte, 0 or 1.
fn is_zero_or_one(value: &Value) -> bool {
    let zero = Value::Atom(Atom::bits(BitVec::new(Width::new(8), 0)));
    let one = Value::Atom(Atom::bits(BitVec::new(Width::new(8), 1)));
    value.same(&zero) || value.same(&one)
}

#[test]
fn no_byte_is_its_successor(rt: HostRuntime) -> Result<(), Fail> {
    let terms = own_successor(rt.alloc())?;
    assert!(rt; is_refuted(rt.alloc(), &terms));
    Ok(())
}

#[test]
fn a_store_is_not_read_elsewhere(rt: HostRuntime) -> Result<(), Fail> {
    let terms = elsewhere_stored(rt.alloc())?;
    assert!(rt; is_refuted(rt.alloc(), &terms));
    Ok(())
}

#[test]
fn zero_and_one_are_their_squares(rt: HostRuntime) -> Result<(), Fail> {
    let terms = own_square(rt.alloc())?;
    let found = match decide(rt.alloc(), &terms) {
        Decision::Model(values) => values.len() == 1
            && values.as_slice().iter().all(|value| is_zero_or_one(value)),
        Decision::Refuted(_) => false,
        Decision::NoMemory => false,
    };
    assert!(rt; found);
    Ok(())
}
