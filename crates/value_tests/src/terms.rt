//! Terms that are built node by node, and what the readers say of them.
ghost use Rattle.std.specs.Prelude.{◌≡◌, ◌<◌, ◌+◌, length, IfOk};

use hy_term::{TermBuilder, TermNode, Terms, variables_of};
use hy_val::{Atom, BitVec, BvOp, Scalar, Sort, UnOp, Width};
use std::alloc::{AllocError, Global};
use std::test::Fail;

// A map, an entry of it, the map with another entry, and a comparison of the two.
#[test]
fn nodes_of_each_kind_are_added(rt: HostRuntime) -> Result<(), Fail> {
    let byte = Scalar::bits(Width::new(8));
    let mut terms = Terms::new(rt.alloc())?;
    let map = terms.add(TermNode::ZeroMap {
        index: byte,
        elem: byte,
    })?;
    let index = terms.add(TermNode::Variable {
        number: 7,
        sort: Sort::scalar(byte),
    })?;
    let value = terms.add(TermNode::Unary {
        op: UnOp::BvNot,
        child: index,
    })?;
    let stored = terms.add(TermNode::Store { map, index, value })?;
    let picked = terms.add(TermNode::If {
        cond: 0,
        yes: stored,
        no: map,
    })?;
    let entry = terms.add(TermNode::Select { map: picked, index })?;
    let same = terms.add(TermNode::Binary {
        op: BvOp::Eq,
        left: entry,
        right: value,
    })?;
    assert!(rt; same == 7);
    terms.set_root(same);
    assert!(rt; terms.root() == 7);
    assert!(rt; terms.sort_of(stored) == Sort::map(byte, byte));
    assert!(rt; terms.fresh() == Some(8));
    let variables = variables_of(rt.alloc(), terms.nodes())?;
    assert!(rt; variables.len() == 1);
    Ok(())
}

// A node of each answer of the builder.
#[test]
fn nodes_that_fit_are_added(rt: HostRuntime) -> Result<(), Fail> {
    let mut builder = TermBuilder::new(rt.alloc())?;
    let early = builder.try_add(TermNode::Unary {
        op: UnOp::Not,
        child: 1,
    })?;
    assert!(rt; early.is_none());
    let truth = TermNode::Variable {
        number: 7,
        sort: Sort::scalar(Scalar::bool()),
    };
    let byte = TermNode::Variable {
        number: 7,
        sort: Sort::scalar(Scalar::bits(Width::new(8))),
    };
    assert!(rt; builder.try_add(truth)? == Some(1));
    assert!(rt; builder.try_add(byte)?.is_none());
    assert!(rt; builder.try_add(truth)? == Some(2));
    assert!(rt; builder.len() == 3);
    assert!(rt; builder.sort(2) == Some(Sort::scalar(Scalar::bool())));
    let terms = builder.finish(2);
    assert!(rt; terms.is_some());
    Ok(())
}
