//! The parts of statements that hold no statement.
ghost use Rattle.std.specs.Prelude.{◌≡◌, OnOk};
ghost use Rattle.bpl_show.specs.Stmts as spec;
ghost use Rattle.bpl_show.specs.Tokens.{written};

use crate::exprs::{bare, chain};
use crate::lists::{Show, each, listed};
use crate::phrase::Phrase;
use crate::tokens::{last, word};
use bpl_ast::{Attribute, Expr, Guard, Invariant, Name, Target};
use hy_text::Bytes;
use std::alloc::AllocError;

/// Appends a word, attributes and a condition, which end a line.
#[tactic(auto, using(crate::proofs::Written::writing))]
pub fn condition(
    out: &mut Bytes,
    keyword: &[u8],
    attributes: &[Attribute],
    shown: &Expr,
) -> Result<(), AllocError>
    ensures { OnOk result (out.new ≡ written out.old (spec.condition keyword.now attributes.now shown.now)) }
{
    word(out, keyword)?;
    each(out, attributes)?;
    bare(out, shown)?;
    last(out, b";")
}

/// Appends a word, attributes and names, which end a line.
#[tactic(auto, using(crate::proofs::Written::writing))]
pub fn naming(
    out: &mut Bytes,
    keyword: &[u8],
    attributes: &[Attribute],
    names: &[Name],
) -> Result<(), AllocError>
    ensures { OnOk result (out.new ≡ written out.old (spec.naming keyword.now attributes.now names.now)) }
{
    word(out, keyword)?;
    each(out, attributes)?;
    listed(out, names)?;
    last(out, b";")
}

/// Appends a label.
#[tactic(auto, using(crate::proofs::Written::writing))]
pub fn label(out: &mut Bytes, name: &Name) -> Result<(), AllocError>
    ensures { OnOk result (out.new ≡ written out.old (spec.label name.now)) }
{
    name.show(out)?;
    last(out, b":")
}

/// Appends a `return`.
#[tactic(auto, using(crate::proofs::Written::writing))]
pub fn return_from(out: &mut Bytes, attributes: &[Attribute]) -> Result<(), AllocError>
    ensures { OnOk result (out.new ≡ written out.old (spec.return_from attributes.now)) }
{
    word(out, b"return")?;
    each(out, attributes)?;
    last(out, b";")
}

/// Appends a name, if there is one.
#[tactic(auto, using(crate::proofs::Written::writing))]
fn maybe_name(out: &mut Bytes, name: &Option<Name>) -> Result<(), AllocError>
    ensures { OnOk result (out.new ≡ written out.old (spec.maybe_name name.now)) }
{
    match name {
        None => Ok(()),
        Some(name) => name.show(out),
    }
}

/// Appends a `break`.
#[tactic(auto, using(crate::proofs::Written::writing))]
pub fn break_from(
    out: &mut Bytes,
    attributes: &[Attribute],
    label: &Option<Name>,
) -> Result<(), AllocError>
    ensures { OnOk result (out.new ≡ written out.old (spec.break_from attributes.now label.now)) }
{
    word(out, b"break")?;
    each(out, attributes)?;
    maybe_name(out, label)?;
    last(out, b";")
}

/// Appends an index in brackets, if there is one.
#[tactic(auto, using(crate::proofs::Written::writing))]
fn maybe_index(out: &mut Bytes, index: &Option<Expr>) -> Result<(), AllocError>
    ensures { OnOk result (out.new ≡ written out.old (spec.maybe_index index.now)) }
{
    match index {
        None => Ok(()),
        Some(index) => {
            word(out, b"[")?;
            bare(out, index)?;
            word(out, b"]")
        }
    }
}

#[tactic(auto, using(crate::proofs::Written::writing))]
impl Show for Target {
    ghost tokens = { spec.target };

    fn show(&self, out: &mut Bytes) -> Result<(), AllocError> {
        self.name.show(out)?;
        maybe_index(out, &self.index)
    }
}

/// Appends an assignment.
#[tactic(auto, using(crate::proofs::Written::writing))]
pub fn assignment(out: &mut Bytes, targets: &[Target], values: &[Expr]) -> Result<(), AllocError>
    ensures { OnOk result (out.new ≡ written out.old (spec.assignment targets.now values.now)) }
{
    listed(out, targets)?;
    word(out, b":=")?;
    chain(out, b",", values, Phrase::Whole)?;
    last(out, b";")
}

/// Appends the names that take the outs of a call, if there are any, and the sign after them.
#[tactic(auto, using(crate::proofs::Written::writing))]
fn taking(out: &mut Bytes, outs: &[Name]) -> Result<(), AllocError>
    ensures { OnOk result (out.new ≡ written out.old (spec.taking outs.now)) }
{
    if outs.is_empty() {
        return Ok(());
    }
    listed(out, outs)?;
    word(out, b":=")
}

/// Appends a call.
#[tactic(auto, using(crate::proofs::Written::writing))]
pub fn call(
    out: &mut Bytes,
    attributes: &[Attribute],
    outs: &[Name],
    procedure: &Name,
    arguments: &[Expr],
) -> Result<(), AllocError>
    ensures { OnOk result (out.new ≡ written out.old (spec.call attributes.now outs.now procedure.now arguments.now)) }
{
    word(out, b"call")?;
    each(out, attributes)?;
    taking(out, outs)?;
    procedure.show(out)?;
    word(out, b"(")?;
    chain(out, b",", arguments, Phrase::Whole)?;
    word(out, b")")?;
    last(out, b";")
}

#[tactic(auto, using(crate::proofs::Written::writing))]
impl Show for Guard {
    ghost tokens = { spec.guard };

    fn show(&self, out: &mut Bytes) -> Result<(), AllocError> {
        match self {
            Guard::Any { .. } => word(out, b"*"),
            Guard::Condition { condition } => bare(out, condition),
        }
    }
}

/// Appends a word, attributes and a guard in its parentheses.
#[tactic(auto, using(crate::proofs::Written::writing))]
pub fn guarded(
    out: &mut Bytes,
    keyword: &[u8],
    attributes: &[Attribute],
    guard: &Guard,
) -> Result<(), AllocError>
    ensures { OnOk result (out.new ≡ written out.old (spec.guarded keyword.now attributes.now guard.now)) }
{
    word(out, keyword)?;
    each(out, attributes)?;
    word(out, b"(")?;
    guard.show(out)?;
    word(out, b")")
}

/// Appends `free`, if it stands.
#[tactic(auto, using(crate::proofs::Written::writing))]
fn maybe_free(out: &mut Bytes, free: bool) -> Result<(), AllocError>
    ensures { OnOk result (out.new ≡ written out.old (spec.maybe_free free)) }
{
    if free { word(out, b"free") } else { Ok(()) }
}

#[tactic(auto, using(crate::proofs::Written::writing))]
impl Show for Invariant {
    ghost tokens = { spec.invariant };

    fn show(&self, out: &mut Bytes) -> Result<(), AllocError> {
        maybe_free(out, self.free)?;
        condition(
            out,
            b"invariant",
            self.attributes.as_slice(),
            &self.condition,
        )
    }
}
