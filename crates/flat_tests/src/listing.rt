//! The text of a flat program, with all that it has: sorts, commands and their expressions, targets, and what
//! each block comes from.

use crate::sorts::{expr_text, sort_text, var_text};
use extract_def::{Extracted, Origin};
use flat_prog::{FlatBlock, FlatCmd, FlatKind, FlatNext, FlatProc};
use hy_val::{Expr, Sort, Var};
use std::alloc::{AllocError, Global};

// Sorts in parentheses, with a space between two.
fn push_sorts(alloc: Global, text: &mut String, sorts: &[Sort]) -> Result<(), AllocError> {
    text.push_str(" (")?;
    let mut between = "";
    for sort in sorts {
        text.push_str(between)?;
        text.push_str(sort_text(alloc, *sort)?.as_str())?;
        between = " ";
    }
    text.push_str(")")
}

// Numbers, each with a space before it.
fn push_numbers(alloc: Global, text: &mut String, numbers: &[u32]) -> Result<(), AllocError> {
    for number in numbers {
        text.push_str(format!(in alloc; " {number}")?.as_str())?;
    }
    Ok(())
}

// Variables, each with a space before it.
fn push_vars(alloc: Global, text: &mut String, vars: &[Var]) -> Result<(), AllocError> {
    for var in vars {
        text.push_str(" ")?;
        text.push_str(var_text(alloc, *var)?.as_str())?;
    }
    Ok(())
}

// Expressions, each with a space before it.
fn push_exprs(alloc: Global, text: &mut String, exprs: &[Expr]) -> Result<(), AllocError> {
    for expr in exprs {
        text.push_str(" ")?;
        text.push_str(expr_text(alloc, expr)?.as_str())?;
    }
    Ok(())
}

// Each target with its expression.
fn push_pairs(alloc: Global, text: &mut String, pairs: &[(Var, Expr)]) -> Result<(), AllocError> {
    for (var, expr) in pairs {
        text.push_str(" ")?;
        text.push_str(var_text(alloc, *var)?.as_str())?;
        text.push_str(" := ")?;
        text.push_str(expr_text(alloc, expr)?.as_str())?;
    }
    Ok(())
}

// A command, with a semicolon behind it.
fn push_command(alloc: Global, text: &mut String, cmd: &FlatCmd) -> Result<(), AllocError> {
    match cmd {
        FlatCmd::Assign(pairs) => push_pairs(alloc, text, pairs.as_slice())?,
        FlatCmd::Havoc(vars) => {
            text.push_str(" havoc")?;
            push_vars(alloc, text, vars.as_slice())?;
        }
        FlatCmd::Assume(expr) => {
            text.push_str(" assume ")?;
            text.push_str(expr_text(alloc, expr)?.as_str())?;
        }
        FlatCmd::Assert { proc, number, expr } => {
            text.push_str(format!(in alloc; " assert {proc} {number} ")?.as_str())?;
            text.push_str(expr_text(alloc, expr)?.as_str())?;
        }
        FlatCmd::Call { proc, args, outs } => {
            text.push_str(format!(in alloc; " call {proc}")?.as_str())?;
            push_exprs(alloc, text, args.as_slice())?;
            text.push_str(" ->")?;
            push_vars(alloc, text, outs.as_slice())?;
        }
    }
    text.push_str(";")
}

// What a block comes from.
fn push_origin(alloc: Global, text: &mut String, origin: Origin) -> Result<(), AllocError> {
    let shown = match origin {
        Origin::Block(number) => format!(in alloc; "block {number}:")?,
        Origin::Enter { head } => format!(in alloc; "enter {head}:")?,
        Origin::Pass { head, exit } => format!(in alloc; "pass {head} {exit}:")?,
        Origin::Leave { exit } => format!(in alloc; "leave {exit}:")?,
        Origin::Again { head } => format!(in alloc; "again {head}:")?,
    };
    text.push_str(shown.as_str())
}

fn push_block(
    alloc: Global,
    text: &mut String,
    block: &FlatBlock,
    origin: Origin,
) -> Result<(), AllocError> {
    push_origin(alloc, text, origin)?;
    for cmd in block.cmds.as_slice() {
        push_command(alloc, text, cmd)?;
    }
    match &block.next {
        FlatNext::Goto(targets) => {
            text.push_str(" goto")?;
            push_numbers(alloc, text, targets.as_slice())?;
        }
        FlatNext::Return => text.push_str(" return")?,
    }
    text.push_str("\n")
}

// What a procedure stands for, its ins, its outs and its other variables; then its blocks, of which there are as
// many as origins.
fn push_proc(
    alloc: Global,
    text: &mut String,
    proc: &FlatProc,
    origins: &[Origin],
) -> Result<(), AllocError> {
    let kind = match proc.kind {
        FlatKind::Source { proc } => format!(in alloc; "source {proc}")?,
        FlatKind::Loop { proc, head } => format!(in alloc; "loop {proc} {head}")?,
    };
    text.push_str(kind.as_str())?;
    push_sorts(alloc, text, proc.ins.as_slice())?;
    push_sorts(alloc, text, proc.outs.as_slice())?;
    push_sorts(alloc, text, proc.locals.as_slice())?;
    text.push_str("\n")?;
    if origins.len() != proc.blocks.len() {
        return Err(AllocError);
    }
    for (block, origin) in proc.blocks.as_slice().iter().zip(origins) {
        push_block(alloc, text, block, *origin)?;
    }
    Ok(())
}

/// The text of a flat program: a line of its constants' sorts, the numbers of the unique ones, its axioms and its
/// globals' sorts, and then the procedures.
pub fn flat_text(alloc: Global, extracted: &Extracted) -> Result<String, AllocError> {
    let flat = &extracted.flat;
    let mut text = String::new(alloc);
    text.push_str("constants")?;
    push_sorts(alloc, &mut text, flat.consts())?;
    push_numbers(alloc, &mut text, flat.uniques())?;
    push_exprs(alloc, &mut text, flat.axioms())?;
    text.push_str(" globals")?;
    push_sorts(alloc, &mut text, flat.globals())?;
    text.push_str("\n")?;
    if extracted.origins.len() != flat.procs().len() {
        return Err(AllocError);
    }
    for (proc, origins) in flat.procs().iter().zip(extracted.origins.as_slice()) {
        push_proc(alloc, &mut text, proc, origins.as_slice())?;
    }
    Ok(text)
}
