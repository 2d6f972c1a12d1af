//! Nodes with literal or equal operands: what has their sort and their value without them.
ghost use Rattle.std.specs.Prelude.{◌≡◌, ◌<◌, length, slice_get, Some, true, false, IfSome, IsTrue, IsSome};
ghost use Rattle.hy_val.specs.Operators.{apply_to_bools, sort_of_binary};
ghost use Rattle.hy_val.specs.declared.atom.AtomKind.TheVariants.{Bool as BoolAtom};
ghost use Rattle.hy_val.specs.declared.sort.ScalarKind.TheVariants.{Bool as BoolSort};
ghost use Rattle.hy_val.specs.declared.operator.BvOp.TheVariants.{Eq, Ne};
ghost use Rattle.hy_term.specs.TermSorts.{fits_behind, sort_at};
ghost use Rattle.tree_terms.specs.Folding.{IsByTruth, IsConstant, IsFolded, bool_sort};

use hy_term::{
    TermNode, Terms, each_node_has_its_sort, each_node_has_its_value, each_value_has_its_sort,
};
use hy_val::{Atom, AtomKind, BvOp, ScalarKind, SortKind, UnOp, apply, apply1, values_keep_sorts};
use sqlite_items::at;

/// What stands for a node.
#[derive(Clone, Copy, Debug, PartialEq, Eq)]
pub(crate) enum Folded {
    /// A node that is there, by its number.
    Known(usize),
    /// A node to be put behind the others.
    Node(TermNode),
}

// The value of a literal; None where the node isn't one.
fn literal(terms: &Terms, number: usize) -> Option<Atom>
    ensures { IfSome result (λ v. slice_get terms.now.nodes number ≡ Some (TermNode.Lit v)) }
{
    match at(terms.nodes(), number) {
        None => None,
        Some(node) => match *node {
            TermNode::Lit(atom) => Some(atom),
            _ => None,
        },
    }
}

// The value of a literal that is a bool; None where the node isn't one.
fn truth(terms: &Terms, number: usize) -> Option<bool>
    ensures { IfSome result (λ b. slice_get terms.now.nodes number ≡ Some (TermNode.Lit (BoolAtom b))) }
{
    match literal(terms, number)?.kind() {
        AtomKind::Bool(value) => Some(value),
        AtomKind::Bv(_) => None,
    }
}

// Whether the node is a bool.
fn is_bool(terms: &Terms, number: usize) -> bool
    requires { number < length terms.now.nodes }
    ensures { result ≡ true → sort_at terms.now.nodes number ≡ Some bool_sort }
{
    match terms.sort_of(number).kind() {
        SortKind::Scalar(scalar) => match scalar.kind() {
            ScalarKind::Bool => true,
            ScalarKind::Bv { width: _ } => false,
        },
        SortKind::Map { index: _, elem: _ } => false,
    }
}

// The value of an operator on two bools.
fn on_bools(op: BvOp, left: bool, right: bool) -> bool
    requires { IsSome (sort_of_binary op BoolSort BoolSort) }
    ensures { result ≡ apply_to_bools op left right }
{
    match apply(op, Atom::bool(left), Atom::bool(right)).kind() {
        AtomKind::Bool(value) => value,
        AtomKind::Bv(_) => false,
    }
}

// The literal of a constant.
fn constant(terms: &Terms, node: TermNode, value: Atom) -> Folded
    requires { IsConstant terms.now.nodes node value }
    ensures { IsFolded terms.now.nodes node result }
{
    let _sort = value.sort();
    Folded::Node(TermNode::Lit(value))
}

// A function of a bool: `low` where that is false, else `high`.
fn by_truth(terms: &Terms, node: TermNode, child: usize, low: bool, high: bool) -> Folded
    requires { IsByTruth terms.now.nodes node child low high }
    ensures { IsFolded terms.now.nodes node result }
{
    each_value_has_its_sort();
    if low == high {
        return constant(terms, node, Atom::bool(low));
    }
    if high {
        Folded::Known(child)
    } else {
        Folded::Node(TermNode::Unary {
            op: UnOp::Not,
            child,
        })
    }
}

// An operator with a bool literal on the left.
fn left_truth(terms: &Terms, op: BvOp, left: usize, right: usize, value: bool) -> Folded
    requires fits { IsTrue (fits_behind terms.now.nodes (TermNode.Binary op left right)) }
    requires literal { slice_get terms.now.nodes left ≡ Some (TermNode.Lit (BoolAtom value)) }
    ensures { IsFolded terms.now.nodes (TermNode.Binary op left right) result }
{
    each_node_has_its_value();
    each_node_has_its_sort();
    each_value_has_its_sort();
    values_keep_sorts();
    let _nodes = terms.nodes();
    let node = TermNode::Binary { op, left, right };
    let low = on_bools(op, value, false);
    let high = on_bools(op, value, true);
    by_truth(terms, node, right, low, high)
}

// An operator with a bool literal on the right.
fn right_truth(terms: &Terms, op: BvOp, left: usize, right: usize, value: bool) -> Folded
    requires fits { IsTrue (fits_behind terms.now.nodes (TermNode.Binary op left right)) }
    requires literal { slice_get terms.now.nodes right ≡ Some (TermNode.Lit (BoolAtom value)) }
    ensures { IsFolded terms.now.nodes (TermNode.Binary op left right) result }
{
    each_node_has_its_value();
    each_node_has_its_sort();
    each_value_has_its_sort();
    values_keep_sorts();
    let _nodes = terms.nodes();
    let node = TermNode::Binary { op, left, right };
    let low = on_bools(op, false, value);
    let high = on_bools(op, true, value);
    by_truth(terms, node, left, low, high)
}

// An operator on a bool and itself.
fn same_truth(terms: &Terms, op: BvOp, child: usize) -> Folded
    requires fits { IsTrue (fits_behind terms.now.nodes (TermNode.Binary op child child)) }
    requires bool { sort_at terms.now.nodes child ≡ Some bool_sort }
    ensures { IsFolded terms.now.nodes (TermNode.Binary op child child) result }
{
    each_value_has_its_sort();
    values_keep_sorts();
    let _nodes = terms.nodes();
    let node = TermNode::Binary {
        op,
        left: child,
        right: child,
    };
    let low = on_bools(op, false, false);
    let high = on_bools(op, true, true);
    by_truth(terms, node, child, low, high)
}

// An operator on two literals.
fn on_literals(terms: &Terms, op: BvOp, left: usize, right: usize, one: Atom, other: Atom) -> Folded
    requires fits { IsTrue (fits_behind terms.now.nodes (TermNode.Binary op left right)) }
    requires one { slice_get terms.now.nodes left ≡ Some (TermNode.Lit one) }
    requires other { slice_get terms.now.nodes right ≡ Some (TermNode.Lit other) }
    ensures { IsFolded terms.now.nodes (TermNode.Binary op left right) result }
{
    each_node_has_its_value();
    each_node_has_its_sort();
    values_keep_sorts();
    let _nodes = terms.nodes();
    constant(
        terms,
        TermNode::Binary { op, left, right },
        apply(op, one, other),
    )
}

// An operator with one operand.
fn fold_unary(terms: &Terms, op: UnOp, child: usize) -> Folded
    requires { IsTrue (fits_behind terms.now.nodes (TermNode.Unary op child)) }
    ensures { IsFolded terms.now.nodes (TermNode.Unary op child) result }
{
    each_node_has_its_value();
    each_node_has_its_sort();
    values_keep_sorts();
    let _nodes = terms.nodes();
    match literal(terms, child) {
        Some(value) => constant(terms, TermNode::Unary { op, child }, apply1(op, value)),
        None => Folded::Node(TermNode::Unary { op, child }),
    }
}

// An operator with two operands, of which one may be a bool literal.
fn with_truth(terms: &Terms, op: BvOp, left: usize, right: usize) -> Folded
    requires { IsTrue (fits_behind terms.now.nodes (TermNode.Binary op left right)) }
    ensures { IsFolded terms.now.nodes (TermNode.Binary op left right) result }
{
    if let Some(value) = truth(terms, left) {
        return left_truth(terms, op, left, right, value);
    }
    if let Some(value) = truth(terms, right) {
        return right_truth(terms, op, left, right, value);
    }
    let _nodes = terms.nodes();
    if left == right && is_bool(terms, left) {
        return same_truth(terms, op, left);
    }
    Folded::Node(TermNode::Binary { op, left, right })
}

// An operator with two operands.
fn fold_binary(terms: &Terms, op: BvOp, left: usize, right: usize) -> Folded
    requires { IsTrue (fits_behind terms.now.nodes (TermNode.Binary op left right)) }
    ensures { IsFolded terms.now.nodes (TermNode.Binary op left right) result }
{
    match literal(terms, left) {
        None => with_truth(terms, op, left, right),
        Some(one) => match literal(terms, right) {
            None => with_truth(terms, op, left, right),
            Some(other) => on_literals(terms, op, left, right, one, other),
        },
    }
}

// An if whose branches are bool literals.
fn if_of_truths(terms: &Terms, cond: usize, yes: usize, no: usize, high: bool, low: bool) -> Folded
    requires fits { IsTrue (fits_behind terms.now.nodes (TermNode.If cond yes no)) }
    requires yes { slice_get terms.now.nodes yes ≡ Some (TermNode.Lit (BoolAtom high)) }
    requires no { slice_get terms.now.nodes no ≡ Some (TermNode.Lit (BoolAtom low)) }
    ensures { IsFolded terms.now.nodes (TermNode.If cond yes no) result }
{
    each_node_has_its_value();
    each_node_has_its_sort();
    let _nodes = terms.nodes();
    by_truth(terms, TermNode::If { cond, yes, no }, cond, low, high)
}

// An if whose test is a literal.
fn if_literal(terms: &Terms, cond: usize, yes: usize, no: usize, value: bool) -> Folded
    requires fits { IsTrue (fits_behind terms.now.nodes (TermNode.If cond yes no)) }
    requires literal { slice_get terms.now.nodes cond ≡ Some (TermNode.Lit (BoolAtom value)) }
    ensures { IsFolded terms.now.nodes (TermNode.If cond yes no) result }
{
    each_node_has_its_value();
    let _nodes = terms.nodes();
    if value {
        Folded::Known(yes)
    } else {
        Folded::Known(no)
    }
}

// An if whose test is no literal.
fn if_open(terms: &Terms, cond: usize, yes: usize, no: usize) -> Folded
    requires { IsTrue (fits_behind terms.now.nodes (TermNode.If cond yes no)) }
    ensures { IsFolded terms.now.nodes (TermNode.If cond yes no) result }
{
    let _nodes = terms.nodes();
    if yes == no {
        return Folded::Known(yes);
    }
    match truth(terms, yes) {
        None => Folded::Node(TermNode::If { cond, yes, no }),
        Some(high) => match truth(terms, no) {
            None => Folded::Node(TermNode::If { cond, yes, no }),
            Some(low) => if_of_truths(terms, cond, yes, no, high, low),
        },
    }
}

// An if.
fn fold_if(terms: &Terms, cond: usize, yes: usize, no: usize) -> Folded
    requires { IsTrue (fits_behind terms.now.nodes (TermNode.If cond yes no)) }
    ensures { IsFolded terms.now.nodes (TermNode.If cond yes no) result }
{
    match truth(terms, cond) {
        None => if_open(terms, cond, yes, no),
        Some(value) => if_literal(terms, cond, yes, no, value),
    }
}

/// What stands for a node that may stand behind the others: for an operator on literals a literal; for an if whose test is
/// a literal, or whose branches are one node, that branch; for an operator with a literal bool or the same bool twice, or an
/// if whose branches are bool literals, a literal, a node that is there, or the opposite of one; else the node.
pub(crate) fn fold_node(terms: &Terms, node: TermNode) -> Folded
    requires { IsTrue (fits_behind terms.now.nodes node) }
    ensures { IsFolded terms.now.nodes node result }
{
    match node {
        TermNode::Unary { op, child } => fold_unary(terms, op, child),
        TermNode::Binary { op, left, right } => fold_binary(terms, op, left, right),
        TermNode::If { cond, yes, no } => fold_if(terms, cond, yes, no),
        _ => Folded::Node(node),
    }
}
