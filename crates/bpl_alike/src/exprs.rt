//! Expressions: a recursion by the levels of both. Brackets after an operand are compared from the last one on, since one text may
//! group them otherwise than the other.
ghost use Rattle.std.specs.Prelude.{◌≡◌, ◌↔◌, map, true};
ghost use Rattle.bpl_ast.specs.Alike.{bare_bracket, bare_expr, spine};
ghost use Rattle.bpl_alike.specs.Behind.{behind};
ghost use Rattle.bpl_alike.specs.Groups.{expr_group, NoPost};
ghost use Rattle.bpl_alike.specs.Groups.ExprGroup.{Leaf, Listed, Compared, Logical};

use crate::lists::Compare;
use bpl_ast::{Bracket, Expr};
use sqlite_items::{Boxed, Items};

/// Whether two expressions are alike.
#[cycle(expressions)]
#[tactic(auto, using(crate::proofs::GroupLaws::expr_groups))]
fn exprs(a: &Expr, b: &Expr) -> bool
    ensures { result ≡ true ↔ bare_expr a.now ≡ bare_expr b.now }
{
    if let Expr::Post {
        operand: y,
        brackets: q,
        ..
    } = b
    {
        return rest(a, y.get(), q.as_slice());
    }
    match a {
        Expr::Post {
            operand: x,
            brackets: p,
            ..
        } => rest(b, x.get(), p.as_slice()),
        Expr::True { .. } | Expr::False { .. } | Expr::Literal { .. } | Expr::Variable { .. } =>
            leaves(a, b),
        Expr::Equal { .. } | Expr::NotEqual { .. } => comparisons(a, b),
        Expr::Not { .. } | Expr::Implies { .. } | Expr::Choice { .. } => connectives(a, b),
        Expr::Apply { .. }
        | Expr::Concat { .. }
        | Expr::And { .. }
        | Expr::Or { .. }
        | Expr::ImpliedBy { .. }
        | Expr::Equivalent { .. } => applications(a, b),
    }
}

/// Whether two expressions are alike, the first of which is a constant or a variable.
#[tactic(auto, using(crate::proofs::GroupLaws::expr_groups))]
fn leaves(a: &Expr, b: &Expr) -> bool
    requires grouped { expr_group a.now ≡ Leaf }
    requires no_brackets { NoPost b.now }
    ensures { result ≡ true ↔ bare_expr a.now ≡ bare_expr b.now }
{
    match (a, b) {
        (Expr::True { .. }, Expr::True { .. }) => true,
        (Expr::False { .. }, Expr::False { .. }) => true,
        (
            Expr::Literal {
                width: w,
                bits: x,
                ..
            },
            Expr::Literal {
                width: v,
                bits: y,
                ..
            },
        ) => { w == v && x == y }
        (Expr::Variable { name: x }, Expr::Variable { name: y }) => x.is_like(y),
        _ => false,
    }
}

/// Whether two expressions are alike, the first of which has its operands in a list.
#[cycle(expressions)]
#[tactic(auto, using(crate::proofs::GroupLaws::expr_groups))]
fn applications(a: &Expr, b: &Expr) -> bool
    requires grouped { expr_group a.now ≡ Listed }
    requires no_brackets { NoPost b.now }
    ensures { result ≡ true ↔ bare_expr a.now ≡ bare_expr b.now }
{
    match (a, b) {
        (
            Expr::Apply {
                function: f,
                arguments: x,
            },
            Expr::Apply {
                function: g,
                arguments: y,
            },
        ) => { f.is_like(g) && operands(x, y) }
        (Expr::Concat { operands: x, .. }, Expr::Concat { operands: y, .. }) => { operands(x, y) }
        (Expr::And { operands: x, .. }, Expr::And { operands: y, .. }) => { operands(x, y) }
        (Expr::Or { operands: x, .. }, Expr::Or { operands: y, .. }) => { operands(x, y) }
        (Expr::ImpliedBy { operands: x, .. }, Expr::ImpliedBy { operands: y, .. }) => {
            operands(x, y)
        }
        (Expr::Equivalent { operands: x, .. }, Expr::Equivalent { operands: y, .. }) => {
            operands(x, y)
        }
        _ => false,
    }
}

/// Whether two expressions are alike, the first of which compares two operands.
#[cycle(expressions)]
#[tactic(auto, using(crate::proofs::GroupLaws::expr_groups))]
fn comparisons(a: &Expr, b: &Expr) -> bool
    requires grouped { expr_group a.now ≡ Compared }
    requires no_brackets { NoPost b.now }
    ensures { result ≡ true ↔ bare_expr a.now ≡ bare_expr b.now }
{
    match (a, b) {
        (
            Expr::Equal {
                left: x,
                right: z,
                ..
            },
            Expr::Equal {
                left: y,
                right: w,
                ..
            },
        ) => { boxes(x, y) && boxes(z, w) }
        (
            Expr::NotEqual {
                left: x,
                right: z,
                ..
            },
            Expr::NotEqual {
                left: y,
                right: w,
                ..
            },
        ) => { boxes(x, y) && boxes(z, w) }
        _ => false,
    }
}

/// Whether two expressions are alike, the first of which is a negation, an implication or a choice.
#[cycle(expressions)]
#[tactic(auto, using(crate::proofs::GroupLaws::expr_groups))]
fn connectives(a: &Expr, b: &Expr) -> bool
    requires grouped { expr_group a.now ≡ Logical }
    requires no_brackets { NoPost b.now }
    ensures { result ≡ true ↔ bare_expr a.now ≡ bare_expr b.now }
{
    match (a, b) {
        (Expr::Not { operand: x, .. }, Expr::Not { operand: y, .. }) => boxes(x, y),
        (
            Expr::Implies {
                left: x,
                right: z,
                ..
            },
            Expr::Implies {
                left: y,
                right: w,
                ..
            },
        ) => { boxes(x, y) && boxes(z, w) }
        (
            Expr::Choice {
                condition: f,
                yes: x,
                no: z,
                ..
            },
            Expr::Choice {
                condition: g,
                yes: y,
                no: w,
                ..
            },
        ) => { boxes(f, g) && (boxes(x, y) && boxes(z, w)) }
        _ => false,
    }
}

/// Whether two expressions in boxes are alike.
#[cycle(expressions)]
fn boxes(x: &Boxed<Expr>, y: &Boxed<Expr>) -> bool
    ensures { result ≡ true ↔ bare_expr x.now ≡ bare_expr y.now }
{
    exprs(x.get(), y.get())
}

/// Whether two lists of expressions are alike.
#[cycle(expressions)]
fn operands(x: &Items<Expr>, y: &Items<Expr>) -> bool
    ensures { result ≡ true ↔ map bare_expr x.now ≡ map bare_expr y.now }
{
    each(x.as_slice(), y.as_slice())
}

/// Whether two lists of expressions have one length and agree item by item.
#[cycle(expressions)]
fn each(a: &[Expr], b: &[Expr]) -> bool
    ensures { result ≡ true ↔ map bare_expr a.now ≡ map bare_expr b.now }
{
    if a.len() != b.len() {
        return false;
    }
    for i in 0..a.len() {
        if !exprs(&a[i], &b[i]) {
            return false;
        }
    }
    true
}

/// Whether two operands with brackets behind them are alike. The last brackets stand outermost, so as many as both have are
/// compared first.
#[cycle(expressions)]
fn posts(x: &Expr, p: &[Bracket], y: &Expr, q: &[Bracket]) -> bool
    ensures { result ≡ true ↔ behind x.now p.now ≡ behind y.now q.now }
{
    if p.len() <= q.len() {
        let (front, back) = q.split_at(q.len() - p.len());
        brackets(p, back) && rest(x, y, front)
    } else {
        let (front, back) = p.split_at(p.len() - q.len());
        brackets(back, q) && rest(y, x, front)
    }
}

/// Whether an expression is like an operand with brackets behind it.
#[cycle(expressions)]
fn rest(x: &Expr, y: &Expr, q: &[Bracket]) -> bool
    ensures { result ≡ true ↔ spine x.now ≡ behind y.now q.now }
{
    if q.is_empty() {
        return exprs(x, y);
    }
    match x {
        Expr::Post {
            operand,
            brackets: p,
            ..
        } => posts(operand.get(), p.as_slice(), y, q),
        _ => false,
    }
}

/// Whether two lists of brackets have one length and agree item by item.
#[cycle(expressions)]
fn brackets(a: &[Bracket], b: &[Bracket]) -> bool
    ensures { result ≡ true ↔ map bare_bracket a.now ≡ map bare_bracket b.now }
{
    if a.len() != b.len() {
        return false;
    }
    for i in 0..a.len() {
        if !bracket(&a[i], &b[i]) {
            return false;
        }
    }
    true
}

/// Whether two brackets are alike.
#[cycle(expressions)]
fn bracket(a: &Bracket, b: &Bracket) -> bool
    ensures { result ≡ true ↔ bare_bracket a.now ≡ bare_bracket b.now }
{
    match (a, b) {
        (Bracket::Select { index: x }, Bracket::Select { index: y }) => exprs(x, y),
        (Bracket::Store { index: x, value: z }, Bracket::Store { index: y, value: w }) => {
            exprs(x, y) && exprs(z, w)
        }
        (Bracket::Extract { high: x, low: z }, Bracket::Extract { high: y, low: w }) => {
            x == y && z == w
        }
        _ => false,
    }
}

impl Compare for Expr {
    ghost bare = { bare_expr };

    fn is_like(&self, other: &Expr) -> bool {
        exprs(self, other)
    }
}
