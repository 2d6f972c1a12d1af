//! The text of small trees.

use bpl_ast::{
    Ast, Axiom, Body, Bracket, Decl, Expr, Group, Heads, Name, Procedure, Sort, Stmt, Variables,
};
use bpl_show::show;
use sqlite_items::{Boxed, Items};
use std::alloc::{AllocError, Global};
use std::test::Fail;

fn one<T: Drop>(alloc: Global, item: T) -> Result<Items<T>, AllocError> {
    let mut items = Items::new(alloc);
    items.push(item)?;
    Ok(items)
}

fn two<T: Drop>(alloc: Global, first: T, second: T) -> Result<Items<T>, AllocError> {
    let mut items = one(alloc, first)?;
    items.push(second)?;
    Ok(items)
}

fn name(alloc: Global, at: usize, text: &[u8]) -> Result<Name, AllocError> {
    let text = Items::from_slice(alloc, text)?;
    Ok(Name { at, text })
}

fn variable(alloc: Global, at: usize, text: &[u8]) -> Result<Expr, AllocError> {
    Ok(Expr::Variable {
        name: name(alloc, at, text)?,
    })
}

/// `var b:bool;`, at the begin of the text.
fn flag(alloc: Global) -> Result<Decl, AllocError> {
    let group = Group {
        at: 4,
        names: one(alloc, name(alloc, 4, b"b")?)?,
        sort: Sort::Boolean { at: 6 },
    };
    Ok(Decl::Variables(Variables {
        at: 0,
        attributes: Items::new(alloc),
        groups: one(alloc, group)?,
    }))
}

/// `procedure main(){assert ((b));}`, behind it.
fn main_of_assert(alloc: Global) -> Result<Decl, AllocError> {
    let assert = Stmt::Assert {
        at: 28,
        attributes: Items::new(alloc),
        condition: variable(alloc, 37, b"b")?,
    };
    Ok(Decl::Procedure(Procedure {
        at: 11,
        attributes: Items::new(alloc),
        name: name(alloc, 21, b"main")?,
        heads: Heads {
            at: 25,
            ins: Items::new(alloc),
            outs: Items::new(alloc),
        },
        specs: Items::new(alloc),
        body: Some(Body {
            at: 27,
            locals: Items::new(alloc),
            statements: one(alloc, assert)?,
        }),
    }))
}

#[test]
fn a_line_for_each_command(rt: HostRuntime) -> Result<(), Fail> {
    let alloc = rt.alloc();
    let decls = two(alloc, flag(alloc)?, main_of_assert(alloc)?)?;
    let shown = show(alloc, &Ast { decls })?;
    assert_eq!(rt;
        shown.as_slice(),
        b"var b : bool ;\nprocedure main ( ) {\nassert b ;\n}\n".as_slice()
    );
    Ok(())
}

fn not(alloc: Global, operand: Expr) -> Result<Expr, AllocError> {
    Ok(Expr::Not {
        at: 0,
        operand: Boxed::new(alloc, operand)?,
    })
}

fn and(alloc: Global, first: Expr, second: Expr) -> Result<Expr, AllocError> {
    Ok(Expr::And {
        at: 0,
        operands: two(alloc, first, second)?,
    })
}

fn behind(alloc: Global, operand: Expr, bracket: Bracket) -> Result<Expr, AllocError> {
    Ok(Expr::Post {
        at: 0,
        operand: Boxed::new(alloc, operand)?,
        brackets: one(alloc, bracket)?,
    })
}

/// `(a[007bv008])[340282366920938463463374607431768211455:00]`, without its offsets.
fn extracted(alloc: Global) -> Result<Expr, AllocError> {
    let index = Expr::Literal {
        at: 0,
        width: 8,
        bits: 7,
    };
    let selected = behind(alloc, variable(alloc, 0, b"a")?, Bracket::Select { index })?;
    let high = 340282366920938463463374607431768211455;
    behind(alloc, selected, Bracket::Extract { high, low: 0 })
}

/// `(a && b) && !(!x)`, where x is the above.
fn nested(alloc: Global) -> Result<Expr, AllocError> {
    let first = and(alloc, variable(alloc, 0, b"a")?, variable(alloc, 0, b"b")?)?;
    let second = not(alloc, not(alloc, extracted(alloc)?)?)?;
    and(alloc, first, second)
}

#[test]
fn parentheses_where_the_tree_needs_them(rt: HostRuntime) -> Result<(), Fail> {
    let alloc = rt.alloc();
    let axiom = Axiom {
        at: 0,
        attributes: Items::new(alloc),
        condition: nested(alloc)?,
    };
    let decls = one(alloc, Decl::Axiom(axiom))?;
    let shown = show(alloc, &Ast { decls })?;
    assert_eq!(rt;
        shown.as_slice(),
        b"axiom ( a && b ) && ! ! a [ 7bv8 ] [ 340282366920938463463374607431768211455 : 0 ] ;\n".as_slice()
    );
    Ok(())
}
