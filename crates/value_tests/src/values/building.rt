//! Expressions built node by node, values and their sorts, and what is told apart.

use super::operators::word;
use hy_val::{
    BvOp, Expr, ExprBuilder, ExprNode, Sort, UnOp, Value, children_are_lower,
    each_node_has_its_sort, each_node_is_by_cases, only_variables_matter, renaming_keeps,
    stores_write_at_one, values_keep_sorts,
};
use sqlite_items::Items;
use std::test::Fail;

#[test]
fn nodes_that_fit_are_added(rt: HostRuntime) -> Result<(), Fail> {
    let byte = word(&rt, 8, 1);
    let sum = ExprNode::Binary {
        op: BvOp::BvAdd,
        left: 0,
        right: 0,
    };
    let mut builder = ExprBuilder::new(rt.alloc());
    let early = builder.try_add(sum)?;
    assert_eq!(rt; early, None);
    let first = builder.try_add(ExprNode::Lit(byte))?;
    assert_eq!(rt; first, Some(0));
    let fits = builder.sort_of(&sum);
    assert!(rt; fits.is_some());
    let second = builder.add(sum)?;
    assert_eq!(rt; second, 1);
    let sort = builder.sort(1);
    assert!(rt; sort == Some(Sort::scalar(byte.sort())));
    let not = ExprNode::Unary {
        op: UnOp::Not,
        child: 1,
    };
    let refused = builder.try_add(not)?;
    assert_eq!(rt; refused, None);
    assert_eq!(rt; builder.len(), 2);
    let whole = builder.finish(1);
    let copy = whole.copy(rt.alloc())?;
    assert!(rt; whole.same(&copy));
    let other = Expr::new(Items::from_slice(rt.alloc(), &[ExprNode::Lit(byte)])?);
    assert!(rt; !whole.same(&other));
    Ok(())
}

#[test]
fn values_have_one_sort(rt: HostRuntime) -> Result<(), Fail> {
    let (byte, bit) = (word(&rt, 8, 1), word(&rt, 1, 1));
    let (wide, narrow) = (Sort::scalar(byte.sort()), Sort::scalar(bit.sort()));
    let maps = Sort::map(byte.sort(), bit.sort());
    assert!(rt; Value::Atom(byte).has_sort(wide));
    assert!(rt; !Value::Atom(byte).has_sort(narrow));
    assert!(rt; !Value::Atom(byte).has_sort(maps));
    let zero = Value::zero(rt.alloc(), maps);
    assert!(rt; zero.has_sort(maps));
    assert!(rt; !zero.has_sort(wide));
    assert!(rt; !zero.has_sort(Sort::map(bit.sort(), byte.sort())));
    assert!(rt; !zero.same(&Value::zero(rt.alloc(), wide)));
    Ok(())
}

#[test]
fn laws_are_there() {
    stores_write_at_one();
    values_keep_sorts();
    children_are_lower();
    each_node_is_by_cases();
    each_node_has_its_sort();
    only_variables_matter();
    renaming_keeps();
}
