//! Expressions whose values the standard's words give, by both bodies of evaluation.

use super::operators::word;
use hy_val::{
    Atom, BvOp, Env, Expr, ExprBuilder, ExprNode, MapValue, Scalar, Sort, Value, Var, eval,
    eval_plain, store,
};
use sqlite_items::Items;
use std::alloc::Global;
use std::process::Abort;
use std::test::Fail;

// The expression of these nodes, the last of which is the whole.
fn expr(rt: &impl Abort, alloc: Global, nodes: &[ExprNode]) -> Result<Expr, Fail> {
    let mut builder = ExprBuilder::new(alloc);
    for node in nodes {
        let number = builder.try_add(*node)?;
        assert!(rt; number.is_some());
    }
    let count = builder.len();
    assert!(rt; count > 0);
    Ok(builder.finish(count - 1))
}

// The value by both bodies, which are the same.
fn value(rt: &impl Abort, alloc: Global, env: &Env, nodes: &[ExprNode]) -> Result<Value, Fail> {
    let e = expr(rt, alloc, nodes)?;
    assert!(rt; env.reads(&e));
    let value = eval(alloc, &e, env)?;
    let plain = eval_plain(alloc, &e, env)?;
    assert!(rt; value.same(&plain));
    Ok(value)
}

fn byte(rt: &impl Abort, bits: u64) -> Atom {
    word(rt, 8, bits)
}

fn byte_sort(rt: &impl Abort) -> Scalar {
    byte(rt, 0).sort()
}

// A node that reads a bool, a byte, or a map from bytes to bytes.
fn read_bool(var: Var) -> ExprNode {
    ExprNode::Var {
        var,
        sort: Sort::scalar(Scalar::bool()),
    }
}

fn read_byte(rt: &impl Abort, var: Var) -> ExprNode {
    ExprNode::Var {
        var,
        sort: Sort::scalar(byte_sort(rt)),
    }
}

fn read_map(rt: &impl Abort, var: Var) -> ExprNode {
    ExprNode::Var {
        var,
        sort: Sort::map(byte_sort(rt), byte_sort(rt)),
    }
}

// The map with these entries, and zero elsewhere.
fn map(rt: &impl Abort, alloc: Global, entries: &[(u64, u64)]) -> Result<Value, Fail> {
    let mut map = MapValue::zero(alloc, byte_sort(rt), byte_sort(rt));
    for (index, entry) in entries {
        let (index, entry) = (byte(rt, *index), byte(rt, *entry));
        assert!(rt; index.has_sort(map.index()));
        assert!(rt; entry.has_sort(map.elem()));
        store(&mut map, index, entry)?;
    }
    Ok(Value::Map(map))
}

// One constant, 5; one global, the map with 10 at 1 and 30 at 3; the locals true, false, and the
// map with 7 at 1.
fn env(rt: &impl Abort, alloc: Global) -> Result<Env, Fail> {
    let mut consts = Items::new(alloc);
    consts.push(Value::Atom(byte(rt, 5)))?;
    let mut globals = Items::new(alloc);
    globals.push(map(rt, alloc, &[(1, 10), (3, 30)])?)?;
    let mut locals = Items::new(alloc);
    locals.push(Value::Atom(Atom::bool(true)))?;
    locals.push(Value::Atom(Atom::bool(false)))?;
    locals.push(map(rt, alloc, &[(1, 7)])?)?;
    Ok(Env {
        consts,
        globals,
        locals,
    })
}

// 200 + 100 is 300, and 300 - 256 is 44.
#[test]
fn a_sum_wraps(rt: HostRuntime) -> Result<(), Fail> {
    let env = env(&rt, rt.alloc())?;
    let nodes = [
        ExprNode::Lit(byte(&rt, 200)),
        ExprNode::Lit(byte(&rt, 100)),
        ExprNode::Binary {
            op: BvOp::BvAdd,
            left: 0,
            right: 1,
        },
    ];
    let sum = value(&rt, rt.alloc(), &env, &nodes)?;
    assert!(rt; sum.same(&Value::Atom(byte(&rt, 44))));
    Ok(())
}

// if x then 5 else 9, for a local x
fn five_or_nine(rt: &impl Abort, alloc: Global, local: u32) -> Result<Value, Fail> {
    let env = env(rt, alloc)?;
    let nodes = [
        read_bool(Var::Local(local)),
        read_byte(rt, Var::Const(0)),
        ExprNode::Lit(byte(rt, 9)),
        ExprNode::If {
            cond: 0,
            yes: 1,
            no: 2,
        },
    ];
    value(rt, alloc, &env, &nodes)
}

#[test]
fn an_if_takes_one_branch(rt: HostRuntime) -> Result<(), Fail> {
    let on = five_or_nine(&rt, rt.alloc(), 0)?;
    assert!(rt; on.same(&Value::Atom(byte(&rt, 5))));
    let off = five_or_nine(&rt, rt.alloc(), 1)?;
    assert!(rt; off.same(&Value::Atom(byte(&rt, 9))));
    Ok(())
}

// m[1 := 4][i], where m has 10 at 1 and 30 at 3
fn stored_and_read(rt: &impl Abort, alloc: Global, index: u64) -> Result<Value, Fail> {
    let env = env(rt, alloc)?;
    let nodes = [
        read_map(rt, Var::Global(0)),
        ExprNode::Lit(byte(rt, 1)),
        ExprNode::Lit(byte(rt, 4)),
        ExprNode::Store {
            map: 0,
            index: 1,
            value: 2,
        },
        ExprNode::Lit(byte(rt, index)),
        ExprNode::Select { map: 3, index: 4 },
    ];
    value(rt, alloc, &env, &nodes)
}

#[test]
fn a_store_is_read_at_its_index_and_beside_it(rt: HostRuntime) -> Result<(), Fail> {
    let at = stored_and_read(&rt, rt.alloc(), 1)?;
    assert!(rt; at.same(&Value::Atom(byte(&rt, 4))));
    let beside = stored_and_read(&rt, rt.alloc(), 3)?;
    assert!(rt; beside.same(&Value::Atom(byte(&rt, 30))));
    let elsewhere = stored_and_read(&rt, rt.alloc(), 2)?;
    assert!(rt; elsewhere.same(&Value::Atom(byte(&rt, 0))));
    Ok(())
}

// if false then m else n[3 := 8]: a map, and its entry at 3
#[test]
fn an_if_of_maps(rt: HostRuntime) -> Result<(), Fail> {
    let env = env(&rt, rt.alloc())?;
    let nodes = [
        read_bool(Var::Local(1)),
        read_map(&rt, Var::Global(0)),
        read_map(&rt, Var::Local(2)),
        ExprNode::Lit(byte(&rt, 3)),
        ExprNode::Lit(byte(&rt, 8)),
        ExprNode::Store {
            map: 2,
            index: 3,
            value: 4,
        },
        ExprNode::If {
            cond: 0,
            yes: 1,
            no: 5,
        },
        ExprNode::Select { map: 6, index: 3 },
    ];
    let whole = value(&rt, rt.alloc(), &env, &nodes[..7])?;
    let expected = map(&rt, rt.alloc(), &[(1, 7), (3, 8)])?;
    assert!(rt; whole.same(&expected));
    let entry = value(&rt, rt.alloc(), &env, &nodes)?;
    assert!(rt; entry.same(&Value::Atom(byte(&rt, 8))));
    Ok(())
}

// m[3 := 0][2 := 20][2 := 21], where m has 10 at 1 and 30 at 3: the last write counts, and a zero
// takes an entry away
#[test]
fn stores_above_one_another(rt: HostRuntime) -> Result<(), Fail> {
    let env = env(&rt, rt.alloc())?;
    let nodes = [
        read_map(&rt, Var::Global(0)),
        ExprNode::Lit(byte(&rt, 3)),
        ExprNode::Lit(byte(&rt, 0)),
        ExprNode::Store {
            map: 0,
            index: 1,
            value: 2,
        },
        ExprNode::Lit(byte(&rt, 2)),
        ExprNode::Lit(byte(&rt, 20)),
        ExprNode::Store {
            map: 3,
            index: 4,
            value: 5,
        },
        ExprNode::Lit(byte(&rt, 21)),
        ExprNode::Store {
            map: 6,
            index: 4,
            value: 7,
        },
    ];
    let whole = value(&rt, rt.alloc(), &env, &nodes)?;
    let expected = map(&rt, rt.alloc(), &[(1, 10), (2, 21)])?;
    assert!(rt; whole.same(&expected));
    let variable = value(&rt, rt.alloc(), &env, &nodes[..1])?;
    let before = map(&rt, rt.alloc(), &[(3, 30), (1, 10)])?;
    assert!(rt; variable.same(&before));
    assert!(rt; !whole.same(&before));
    Ok(())
}
