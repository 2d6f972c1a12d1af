//! Statements: a recursion over their levels, of which the reader lets 200 nest.
ghost use Rattle.std.specs.Prelude.{◌≡◌, flat_map, OnOk};
ghost use Rattle.bpl_show.specs.Stmts as spec;
ghost use Rattle.bpl_show.specs.Tokens.{written};

use crate::commands::{
    assignment, break_from, call, condition, guarded, label, naming, return_from,
};
use crate::lists::each;
use crate::tokens::{last, word};
use bpl_ast::{Else, If, Stmt};
use hy_text::Bytes;
use std::alloc::AllocError;

/// Appends a statement.
#[cycle(statements)]
#[tactic(auto, using(crate::proofs::Written::writing, crate::proofs::Equations::equations))]
pub fn stmt(out: &mut Bytes, shown: &Stmt) -> Result<(), AllocError>
    ensures { OnOk result (out.new ≡ written out.old (spec.stmt shown.now)) }
{
    match shown {
        Stmt::Label { name } => label(out, name),
        Stmt::Assert {
            attributes,
            condition: shown,
            ..
        } => condition(out, b"assert", attributes.as_slice(), shown),
        Stmt::Assume {
            attributes,
            condition: shown,
            ..
        } => condition(out, b"assume", attributes.as_slice(), shown),
        Stmt::Havoc {
            attributes,
            names,
            ..
        } => naming(out, b"havoc", attributes.as_slice(), names.as_slice()),
        Stmt::Goto {
            attributes,
            labels,
            ..
        } => naming(out, b"goto", attributes.as_slice(), labels.as_slice()),
        Stmt::Return { attributes, .. } => return_from(out, attributes.as_slice()),
        Stmt::Break {
            attributes,
            label: from,
            ..
        } => break_from(out, attributes.as_slice(), from),
        Stmt::Assign {
            targets,
            values,
            ..
        } => assignment(out, targets.as_slice(), values.as_slice()),
        Stmt::Call {
            attributes,
            outs,
            procedure,
            arguments,
            ..
        } => call(
            out,
            attributes.as_slice(),
            outs.as_slice(),
            procedure,
            arguments.as_slice(),
        ),
        Stmt::If { inner } => if_stmt(out, inner),
        Stmt::While {
            attributes,
            guard,
            invariants,
            body,
            ..
        } => {
            guarded(out, b"while", attributes.as_slice(), guard)?;
            each(out, invariants.as_slice())?;
            block(out, body.as_slice())
        }
    }
}

/// Appends statements, one after the other.
#[cycle(statements)]
pub fn statements(out: &mut Bytes, shown: &[Stmt]) -> Result<(), AllocError>
    ensures { OnOk result (out.new ≡ written out.old (flat_map spec.stmt shown.now)) }
{
    for one in shown {
        stmt(out, one)?;
    }
    Ok(())
}

/// Appends statements in their braces.
#[cycle(statements)]
#[tactic(auto, using(crate::proofs::Written::writing))]
fn block(out: &mut Bytes, body: &[Stmt]) -> Result<(), AllocError>
    ensures { OnOk result (out.new ≡ written out.old (spec.block_of body.now)) }
{
    last(out, b"{")?;
    statements(out, body)?;
    last(out, b"}")
}

/// Appends an `if`.
#[cycle(statements)]
#[tactic(auto, using(crate::proofs::Written::writing, crate::proofs::Equations::equations))]
fn if_stmt(out: &mut Bytes, shown: &If) -> Result<(), AllocError>
    ensures { OnOk result (out.new ≡ written out.old (spec.if_stmt shown.now)) }
{
    guarded(out, b"if", shown.attributes.as_slice(), &shown.guard)?;
    block(out, shown.then.as_slice())?;
    else_part(out, &shown.other)
}

/// Appends what follows the first part of an `if`.
#[cycle(statements)]
#[tactic(auto, using(crate::proofs::Written::writing, crate::proofs::Equations::equations))]
fn else_part(out: &mut Bytes, shown: &Else) -> Result<(), AllocError>
    ensures { OnOk result (out.new ≡ written out.old (spec.else_part shown.now)) }
{
    match shown {
        Else::Absent => Ok(()),
        Else::If { inner } => {
            word(out, b"else")?;
            if_stmt(out, inner.get())
        }
        Else::Block { body } => {
            word(out, b"else")?;
            block(out, body.as_slice())
        }
    }
}
