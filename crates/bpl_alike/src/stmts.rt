//! Statements: a recursion by the levels of both.
ghost use Rattle.std.specs.Prelude.{◌≡◌, ◌↔◌, map, true};
ghost use Rattle.bpl_ast.specs.Alike.{bare_guard, bare_target, bare_invariant, bare_stmt, bare_if, bare_else};
ghost use Rattle.bpl_alike.specs.Groups.{stmt_group};
ghost use Rattle.bpl_alike.specs.Groups.StmtGroup.{Claim, Update, Called, Jump};

use crate::lists::{Compare, lists, options};
use bpl_ast::{Else, Guard, If, Invariant, Stmt, Target};

impl Compare for Guard {
    ghost bare = { bare_guard };

    fn is_like(&self, other: &Guard) -> bool {
        match (self, other) {
            (Guard::Any { .. }, Guard::Any { .. }) => true,
            (Guard::Condition { condition: x }, Guard::Condition { condition: y }) => x.is_like(y),
            _ => false,
        }
    }
}

impl Compare for Target {
    ghost bare = { bare_target };

    fn is_like(&self, other: &Target) -> bool {
        self.name.is_like(&other.name) && options(&self.index, &other.index)
    }
}

impl Compare for Invariant {
    ghost bare = { bare_invariant };

    fn is_like(&self, other: &Invariant) -> bool {
        self.free == other.free
            && (lists(self.attributes.as_slice(), other.attributes.as_slice())
                && self.condition.is_like(&other.condition))
    }
}

/// Whether two statements are alike, the first of which is an `assert` or an `assume`.
#[tactic(auto, using(crate::proofs::GroupLaws::stmt_groups))]
fn claims(a: &Stmt, b: &Stmt) -> bool
    requires { stmt_group a.now ≡ Claim }
    ensures { result ≡ true ↔ bare_stmt a.now ≡ bare_stmt b.now }
{
    match (a, b) {
        (
            Stmt::Assert {
                attributes: f,
                condition: x,
                ..
            },
            Stmt::Assert {
                attributes: g,
                condition: y,
                ..
            },
        ) => { lists(f.as_slice(), g.as_slice()) && x.is_like(y) }
        (
            Stmt::Assume {
                attributes: f,
                condition: x,
                ..
            },
            Stmt::Assume {
                attributes: g,
                condition: y,
                ..
            },
        ) => { lists(f.as_slice(), g.as_slice()) && x.is_like(y) }
        _ => false,
    }
}

/// Whether two statements are alike, the first of which is a `havoc` or an assignment.
#[tactic(auto, using(crate::proofs::GroupLaws::stmt_groups))]
fn updates(a: &Stmt, b: &Stmt) -> bool
    requires { stmt_group a.now ≡ Update }
    ensures { result ≡ true ↔ bare_stmt a.now ≡ bare_stmt b.now }
{
    match (a, b) {
        (
            Stmt::Havoc {
                attributes: f,
                names: x,
                ..
            },
            Stmt::Havoc {
                attributes: g,
                names: y,
                ..
            },
        ) => { lists(f.as_slice(), g.as_slice()) && lists(x.as_slice(), y.as_slice()) }
        (
            Stmt::Assign {
                targets: x,
                values: z,
                ..
            },
            Stmt::Assign {
                targets: y,
                values: w,
                ..
            },
        ) => { lists(x.as_slice(), y.as_slice()) && lists(z.as_slice(), w.as_slice()) }
        _ => false,
    }
}

/// Whether two statements are alike, the first of which is a `call`.
#[tactic(auto, using(crate::proofs::GroupLaws::stmt_groups))]
fn calls(a: &Stmt, b: &Stmt) -> bool
    requires { stmt_group a.now ≡ Called }
    ensures { result ≡ true ↔ bare_stmt a.now ≡ bare_stmt b.now }
{
    match (a, b) {
        (
            Stmt::Call {
                attributes: f,
                outs: x,
                procedure: p,
                arguments: z,
                ..
            },
            Stmt::Call {
                attributes: g,
                outs: y,
                procedure: q,
                arguments: w,
                ..
            },
        ) => {
            lists(f.as_slice(), g.as_slice())
                && (lists(x.as_slice(), y.as_slice())
                    && (p.is_like(q) && lists(z.as_slice(), w.as_slice())))
        }
        _ => false,
    }
}

/// Whether two statements are alike, the first of which is a label, a `goto`, a `return` or a `break`.
#[tactic(auto, using(crate::proofs::GroupLaws::stmt_groups))]
fn jumps(a: &Stmt, b: &Stmt) -> bool
    requires { stmt_group a.now ≡ Jump }
    ensures { result ≡ true ↔ bare_stmt a.now ≡ bare_stmt b.now }
{
    match (a, b) {
        (Stmt::Label { name: x }, Stmt::Label { name: y }) => x.is_like(y),
        (
            Stmt::Goto {
                attributes: f,
                labels: x,
                ..
            },
            Stmt::Goto {
                attributes: g,
                labels: y,
                ..
            },
        ) => { lists(f.as_slice(), g.as_slice()) && lists(x.as_slice(), y.as_slice()) }
        (Stmt::Return { attributes: f, .. }, Stmt::Return { attributes: g, .. }) => {
            lists(f.as_slice(), g.as_slice())
        }
        (
            Stmt::Break {
                attributes: f,
                label: x,
                ..
            },
            Stmt::Break {
                attributes: g,
                label: y,
                ..
            },
        ) => { lists(f.as_slice(), g.as_slice()) && options(x, y) }
        _ => false,
    }
}

/// Whether two statements are alike.
#[cycle(statements)]
#[tactic(auto, using(crate::proofs::GroupLaws::stmt_groups))]
fn stmts(a: &Stmt, b: &Stmt) -> bool
    ensures { result ≡ true ↔ bare_stmt a.now ≡ bare_stmt b.now }
{
    match (a, b) {
        (Stmt::Assert { .. } | Stmt::Assume { .. }, _) => claims(a, b),
        (Stmt::Havoc { .. } | Stmt::Assign { .. }, _) => updates(a, b),
        (Stmt::Call { .. }, _) => calls(a, b),
        (Stmt::If { inner: x }, Stmt::If { inner: y }) => ifs(x, y),
        (
            Stmt::While {
                attributes: f,
                guard: p,
                invariants: x,
                body: z,
                ..
            },
            Stmt::While {
                attributes: g,
                guard: q,
                invariants: y,
                body: w,
                ..
            },
        ) => {
            lists(f.as_slice(), g.as_slice())
                && (p.is_like(q)
                    && (lists(x.as_slice(), y.as_slice()) && blocks(z.as_slice(), w.as_slice())))
        }
        (Stmt::Label { .. } | Stmt::Goto { .. } | Stmt::Return { .. } | Stmt::Break { .. }, _) =>
            jumps(a, b),
        _ => false,
    }
}

/// Whether two lists of statements have one length and agree item by item.
#[cycle(statements)]
fn blocks(a: &[Stmt], b: &[Stmt]) -> bool
    ensures { result ≡ true ↔ map bare_stmt a.now ≡ map bare_stmt b.now }
{
    if a.len() != b.len() {
        return false;
    }
    for i in 0..a.len() {
        if !stmts(&a[i], &b[i]) {
            return false;
        }
    }
    true
}

/// Whether two `if` statements are alike.
#[cycle(statements)]
fn ifs(a: &If, b: &If) -> bool
    ensures { result ≡ true ↔ bare_if a.now ≡ bare_if b.now }
{
    lists(a.attributes.as_slice(), b.attributes.as_slice())
        && (a.guard.is_like(&b.guard)
            && (blocks(a.then.as_slice(), b.then.as_slice()) && elses(&a.other, &b.other)))
}

/// Whether two parts after `else` are alike.
#[cycle(statements)]
fn elses(a: &Else, b: &Else) -> bool
    ensures { result ≡ true ↔ bare_else a.now ≡ bare_else b.now }
{
    match (a, b) {
        (Else::Absent, Else::Absent) => true,
        (Else::If { inner: x }, Else::If { inner: y }) => ifs(x.get(), y.get()),
        (Else::Block { body: x }, Else::Block { body: y }) => blocks(x.as_slice(), y.as_slice()),
        _ => false,
    }
}

impl Compare for Stmt {
    ghost bare = { bare_stmt };

    fn is_like(&self, other: &Stmt) -> bool {
        stmts(self, other)
    }
}
