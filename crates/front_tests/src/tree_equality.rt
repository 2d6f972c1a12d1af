//! Small trees that are alike, and others.

use bpl_alike::alike;
use bpl_ast::{Ast, Axiom, Body, Bracket, Decl, Expr, Heads, Name, Procedure, Stmt};
use sqlite_items::{Boxed, Items};
use std::alloc::{AllocError, Global};
use std::test::Fail;

fn one<T: Drop>(alloc: Global, item: T) -> Result<Items<T>, AllocError> {
    let mut items = Items::new(alloc);
    items.push(item)?;
    Ok(items)
}

fn two<T: Drop>(alloc: Global, first: T, second: T) -> Result<Items<T>, AllocError> {
    let mut items = one(alloc, first)?;
    items.push(second)?;
    Ok(items)
}

fn name(alloc: Global, at: usize, text: &[u8]) -> Result<Name, AllocError> {
    let text = Items::from_slice(alloc, text)?;
    Ok(Name { at, text })
}

fn variable(alloc: Global, at: usize, text: &[u8]) -> Result<Expr, AllocError> {
    Ok(Expr::Variable {
        name: name(alloc, at, text)?,
    })
}

fn select(alloc: Global, at: usize, text: &[u8]) -> Result<Bracket, AllocError> {
    Ok(Bracket::Select {
        index: variable(alloc, at, text)?,
    })
}

/// `axiom condition;`
fn axiom(alloc: Global, at: usize, condition: Expr) -> Result<Ast, AllocError> {
    let axiom = Axiom {
        at,
        attributes: Items::new(alloc),
        condition,
    };
    Ok(Ast {
        decls: one(alloc, Decl::Axiom(axiom))?,
    })
}

/// `axiom m[i][j];`
fn one_list(alloc: Global) -> Result<Ast, AllocError> {
    let condition = Expr::Post {
        at: 6,
        operand: Boxed::new(alloc, variable(alloc, 6, b"m")?)?,
        brackets: two(alloc, select(alloc, 8, b"i")?, select(alloc, 11, b"j")?)?,
    };
    axiom(alloc, 0, condition)
}

/// `axiom (m[i])[last];`, one byte further.
fn grouped(alloc: Global, last: &[u8]) -> Result<Ast, AllocError> {
    let inner = Expr::Post {
        at: 8,
        operand: Boxed::new(alloc, variable(alloc, 8, b"m")?)?,
        brackets: one(alloc, select(alloc, 10, b"i")?)?,
    };
    let condition = Expr::Post {
        at: 7,
        operand: Boxed::new(alloc, inner)?,
        brackets: one(alloc, select(alloc, 14, last)?)?,
    };
    axiom(alloc, 1, condition)
}

#[test]
fn grouping_and_offsets_do_not_matter(rt: HostRuntime) -> Result<(), Fail> {
    let alloc = rt.alloc();
    let list = one_list(alloc)?;
    let same = grouped(alloc, b"j")?;
    let other = grouped(alloc, b"k")?;
    assert!(rt; alike(&list, &same));
    assert!(rt; alike(&same, &list));
    assert!(rt; !alike(&list, &other));
    Ok(())
}

/// Whether two axioms with these conditions are alike.
fn axioms_alike(alloc: Global, left: Expr, right: Expr) -> Result<bool, AllocError> {
    let left = axiom(alloc, 0, left)?;
    let right = axiom(alloc, 0, right)?;
    Ok(alike(&left, &right))
}

fn literal(at: usize, width: u32, bits: u64) -> Expr {
    Expr::Literal { at, width, bits }
}

fn equal(alloc: Global) -> Result<Expr, AllocError> {
    Ok(Expr::Equal {
        at: 6,
        left: Boxed::new(alloc, literal(6, 8, 1))?,
        right: Boxed::new(alloc, literal(13, 8, 2))?,
    })
}

fn not_equal(alloc: Global) -> Result<Expr, AllocError> {
    Ok(Expr::NotEqual {
        at: 6,
        left: Boxed::new(alloc, literal(6, 8, 1))?,
        right: Boxed::new(alloc, literal(13, 8, 2))?,
    })
}

fn all_of(operands: Items<Expr>) -> Expr {
    Expr::And { at: 6, operands }
}

#[test]
fn conditions_that_differ_are_told_apart(rt: HostRuntime) -> Result<(), Fail> {
    let alloc = rt.alloc();
    assert!(rt; axioms_alike(alloc, literal(6, 8, 1), literal(9, 8, 1))?);
    assert!(rt; !axioms_alike(alloc, literal(6, 8, 1), literal(6, 16, 1))?);
    assert!(rt; !axioms_alike(alloc, literal(6, 8, 1), literal(6, 8, 3))?);
    assert!(rt; !axioms_alike(alloc, equal(alloc)?, not_equal(alloc)?)?);
    let short = one(alloc, Expr::True { at: 6 })?;
    let long = two(alloc, Expr::True { at: 6 }, Expr::True { at: 14 })?;
    assert!(rt; !axioms_alike(alloc, all_of(short), all_of(long))?);
    Ok(())
}

/// `procedure main() { statement }`
fn procedure(alloc: Global, statement: Stmt) -> Result<Ast, AllocError> {
    let main = Procedure {
        at: 0,
        attributes: Items::new(alloc),
        name: name(alloc, 10, b"main")?,
        heads: Heads {
            at: 14,
            ins: Items::new(alloc),
            outs: Items::new(alloc),
        },
        specs: Items::new(alloc),
        body: Some(Body {
            at: 17,
            locals: Items::new(alloc),
            statements: one(alloc, statement)?,
        }),
    };
    Ok(Ast {
        decls: one(alloc, Decl::Procedure(main))?,
    })
}

fn assert_true(alloc: Global, at: usize) -> Stmt {
    Stmt::Assert {
        at,
        attributes: Items::new(alloc),
        condition: Expr::True { at: 26 },
    }
}

fn assume_true(alloc: Global, at: usize) -> Stmt {
    Stmt::Assume {
        at,
        attributes: Items::new(alloc),
        condition: Expr::True { at: 26 },
    }
}

#[test]
fn statements_of_two_kinds_are_told_apart(rt: HostRuntime) -> Result<(), Fail> {
    let alloc = rt.alloc();
    let assert = procedure(alloc, assert_true(alloc, 19))?;
    let later = procedure(alloc, assert_true(alloc, 20))?;
    let assume = procedure(alloc, assume_true(alloc, 19))?;
    assert!(rt; alike(&assert, &later));
    assert!(rt; !alike(&assert, &assume));
    Ok(())
}
