//! Programs of a shape and a size, from text on.
ghost use Rattle.std.specs.Prelude.{IsTrue};
ghost use Rattle.bpl_type.specs.WellTyped.{is_typed};

use bpl_ast::Ast;
use bpl_flow::lower;
use bpl_parse::parse;
use bpl_tok::tokens;
use bpl_type::{Typed, check, checked_programs_are_typed};
use src_prog::Prog;
use std::alloc::{AllocError, Global};

/// How the procedures and the loops of a program lie.
#[derive(Clone, Copy)]
pub enum Shape {
    /// So many procedures, each of which calls the next one.
    Procedures,
    /// So many loops in one procedure: for each hundred of them ten, each in the one before, and the others in a row.
    Nests,
    /// So many loops in a row in one procedure.
    Rows,
}

// Procedures, each of which calls the next one.
fn push_procedures(alloc: Global, text: &mut Vec<u8>, size: u64) -> Result<(), AllocError> {
    for number in 1..size {
        let unit = format!(in alloc;
            "procedure p{number}(x: bv8) returns (y: bv8) {{ call y := p{}(x); assert y != x; }}\n",
            number.wrapping_add(1)
        )?;
        text.extend_from_slice(unit.as_bytes())?;
    }
    let last = format!(in alloc; "procedure p{size}(x: bv8) returns (y: bv8) {{ y := x; }}\n")?;
    text.extend_from_slice(last.as_bytes())
}

// Loops in a row, each of which gives a variable any value.
fn push_row(text: &mut Vec<u8>, size: u64) -> Result<(), AllocError> {
    for _number in 0..size {
        text.extend_from_slice(b"while (*) { havoc x; }\n".as_slice())?;
    }
    Ok(())
}

// Nests of ten loops.
fn push_nests(text: &mut Vec<u8>, size: u64) -> Result<(), AllocError> {
    for _number in 0..size {
        for _depth in 0..10 {
            text.extend_from_slice(b"while (*) { havoc x; ".as_slice())?;
        }
        text.extend_from_slice(b"} } } } } } } } } }\n".as_slice())?;
    }
    Ok(())
}

// One procedure, which fails behind its loops.
fn push_loops(text: &mut Vec<u8>, nests: u64, row: u64) -> Result<(), AllocError> {
    text.extend_from_slice(b"procedure main() { var x: bv8;\n".as_slice())?;
    push_nests(text, nests)?;
    push_row(text, row)?;
    text.extend_from_slice(b"assert false; }\n".as_slice())
}

fn text(alloc: Global, shape: Shape, size: u64) -> Result<Vec<u8>, AllocError> {
    let mut text = Vec::new(alloc);
    match shape {
        Shape::Procedures => push_procedures(alloc, &mut text, size)?,
        Shape::Nests => {
            let nests = size / 100;
            push_loops(
                &mut text,
                nests,
                size.saturating_sub(nests.saturating_mul(10)),
            )?;
        }
        Shape::Rows => push_loops(&mut text, 0, size)?,
    }
    Ok(text)
}

/// The program of a shape and a size: its text is read, typed and lowered to blocks.
pub fn program(alloc: Global, shape: Shape, size: u64) -> Result<Prog, AllocError> {
    let text = text(alloc, shape, size)?;
    let Ok(found) = tokens(alloc, text.as_slice()) else {
        return Err(AllocError);
    };
    let Ok(tree) = parse(alloc, text.as_slice(), found.as_slice()) else {
        return Err(AllocError);
    };
    typed_program(alloc, &tree)
}

fn typed_program(alloc: Global, tree: &Ast) -> Result<Prog, AllocError> {
    checked_programs_are_typed();
    match check(alloc, tree) {
        Ok(typed) => lowered(alloc, &typed),
        Err(_) => Err(AllocError),
    }
}

fn lowered(alloc: Global, typed: &Typed) -> Result<Prog, AllocError>
    requires { IsTrue (is_typed typed.now) }
{
    match lower(alloc, typed) {
        Ok(prog) => Ok(prog),
        Err(_) => Err(AllocError),
    }
}
