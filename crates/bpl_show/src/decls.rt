//! Declarations.
ghost use Rattle.std.specs.Prelude.{◌≡◌, OnOk};
ghost use Rattle.bpl_show.specs.Decls as spec;
ghost use Rattle.bpl_show.specs.Tokens.{written};

use crate::commands::{condition, naming};
use crate::exprs::bare;
use crate::lists::{Show, each, listed};
use crate::names::sort;
use crate::stmts::statements;
use crate::tokens::{last, word};
use bpl_ast::{
    Body, Constants, Decl, Expr, Function, FunctionArgument, FunctionResult, Group, Heads,
    Implementation, Modifies, Name, ParameterGroup, Procedure, Sort, Synonym, Variables,
};
use hy_text::Bytes;
use std::alloc::AllocError;

/// Appends names and their sort.
#[tactic(auto, using(crate::proofs::Written::writing))]
fn typed(out: &mut Bytes, names: &[Name], of: &Sort) -> Result<(), AllocError>
    ensures { OnOk result (out.new ≡ written out.old (spec.typed names.now of.now)) }
{
    listed(out, names)?;
    word(out, b":")?;
    sort(out, of)
}

/// Appends a declaration of a type.
#[tactic(auto, using(crate::proofs::Written::writing))]
fn synonym(out: &mut Bytes, shown: &Synonym) -> Result<(), AllocError>
    ensures { OnOk result (out.new ≡ written out.old (spec.synonym shown.now)) }
{
    word(out, b"type")?;
    each(out, shown.attributes.as_slice())?;
    shown.name.show(out)?;
    word(out, b"=")?;
    sort(out, &shown.sort)?;
    last(out, b";")
}

/// Appends `unique`, if it stands.
#[tactic(auto, using(crate::proofs::Written::writing))]
fn maybe_unique(out: &mut Bytes, unique: bool) -> Result<(), AllocError>
    ensures { OnOk result (out.new ≡ written out.old (spec.maybe_unique unique)) }
{
    if unique { word(out, b"unique") } else { Ok(()) }
}

/// Appends a declaration of constants.
#[tactic(auto, using(crate::proofs::Written::writing))]
fn constants(out: &mut Bytes, shown: &Constants) -> Result<(), AllocError>
    ensures { OnOk result (out.new ≡ written out.old (spec.constants shown.now)) }
{
    word(out, b"const")?;
    each(out, shown.attributes.as_slice())?;
    maybe_unique(out, shown.unique)?;
    typed(out, shown.names.as_slice(), &shown.sort)?;
    last(out, b";")
}

/// Appends the name of an argument, if it has one, and the colon after it.
#[tactic(auto, using(crate::proofs::Written::writing))]
fn maybe_named(out: &mut Bytes, name: &Option<Name>) -> Result<(), AllocError>
    ensures { OnOk result (out.new ≡ written out.old (spec.maybe_named name.now)) }
{
    match name {
        None => Ok(()),
        Some(name) => {
            name.show(out)?;
            word(out, b":")
        }
    }
}

#[tactic(auto, using(crate::proofs::Written::writing))]
impl Show for FunctionArgument {
    ghost tokens = { spec.argument };

    fn show(&self, out: &mut Bytes) -> Result<(), AllocError> {
        maybe_named(out, &self.name)?;
        sort(out, &self.sort)
    }
}

/// Appends the result of a function.
#[tactic(auto, using(crate::proofs::Written::writing))]
fn output(out: &mut Bytes, shown: &FunctionResult) -> Result<(), AllocError>
    ensures { OnOk result (out.new ≡ written out.old (spec.output shown.now)) }
{
    match shown {
        FunctionResult::Returns { argument, .. } => {
            word(out, b"returns")?;
            word(out, b"(")?;
            argument.show(out)?;
            word(out, b")")
        }
        FunctionResult::Plain { sort: of, .. } => {
            word(out, b":")?;
            sort(out, of)
        }
    }
}

/// Appends the body of a function, or the semicolon in its place.
#[tactic(auto, using(crate::proofs::Written::writing))]
fn function_end(out: &mut Bytes, body: &Option<Expr>) -> Result<(), AllocError>
    ensures { OnOk result (out.new ≡ written out.old (spec.function_end body.now)) }
{
    match body {
        None => last(out, b";"),
        Some(body) => {
            word(out, b"{")?;
            bare(out, body)?;
            last(out, b"}")
        }
    }
}

/// Appends a declaration of a function.
#[tactic(auto, using(crate::proofs::Written::writing))]
fn function(out: &mut Bytes, shown: &Function) -> Result<(), AllocError>
    ensures { OnOk result (out.new ≡ written out.old (spec.function shown.now)) }
{
    word(out, b"function")?;
    each(out, shown.attributes.as_slice())?;
    shown.name.show(out)?;
    word(out, b"(")?;
    listed(out, shown.arguments.as_slice())?;
    word(out, b")")?;
    output(out, &shown.output)?;
    function_end(out, &shown.body)
}

#[tactic(auto, using(crate::proofs::Written::writing))]
impl Show for Group {
    ghost tokens = { spec.group };

    fn show(&self, out: &mut Bytes) -> Result<(), AllocError> {
        typed(out, self.names.as_slice(), &self.sort)
    }
}

#[tactic(auto, using(crate::proofs::Written::writing))]
impl Show for Variables {
    ghost tokens = { spec.variables };

    fn show(&self, out: &mut Bytes) -> Result<(), AllocError> {
        word(out, b"var")?;
        each(out, self.attributes.as_slice())?;
        listed(out, self.groups.as_slice())?;
        last(out, b";")
    }
}

#[tactic(auto, using(crate::proofs::Written::writing))]
impl Show for ParameterGroup {
    ghost tokens = { spec.parameter_group };

    fn show(&self, out: &mut Bytes) -> Result<(), AllocError> {
        each(out, self.attributes.as_slice())?;
        typed(out, self.names.as_slice(), &self.sort)
    }
}

/// Appends groups of parameters in their parentheses.
#[tactic(auto, using(crate::proofs::Written::writing))]
fn parameters(out: &mut Bytes, groups: &[ParameterGroup]) -> Result<(), AllocError>
    ensures { OnOk result (out.new ≡ written out.old (spec.parameters groups.now)) }
{
    word(out, b"(")?;
    listed(out, groups)?;
    word(out, b")")
}

/// Appends `returns` and the outs, if there are any.
#[tactic(auto, using(crate::proofs::Written::writing))]
fn maybe_returns(out: &mut Bytes, outs: &[ParameterGroup]) -> Result<(), AllocError>
    ensures { OnOk result (out.new ≡ written out.old (spec.maybe_returns outs.now)) }
{
    if outs.is_empty() {
        return Ok(());
    }
    word(out, b"returns")?;
    parameters(out, outs)
}

/// Appends the parameters of a procedure.
#[tactic(auto, using(crate::proofs::Written::writing))]
fn heads(out: &mut Bytes, shown: &Heads) -> Result<(), AllocError>
    ensures { OnOk result (out.new ≡ written out.old (spec.heads shown.now)) }
{
    parameters(out, shown.ins.as_slice())?;
    maybe_returns(out, shown.outs.as_slice())
}

#[tactic(auto, using(crate::proofs::Written::writing))]
impl Show for Modifies {
    ghost tokens = { spec.modifies };

    fn show(&self, out: &mut Bytes) -> Result<(), AllocError> {
        naming(
            out,
            b"modifies",
            self.attributes.as_slice(),
            self.names.as_slice(),
        )
    }
}

/// Appends a body in its braces.
#[tactic(auto, using(crate::proofs::Written::writing))]
fn body(out: &mut Bytes, shown: &Body) -> Result<(), AllocError>
    ensures { OnOk result (out.new ≡ written out.old (spec.body shown.now)) }
{
    last(out, b"{")?;
    each(out, shown.locals.as_slice())?;
    statements(out, shown.statements.as_slice())?;
    last(out, b"}")
}

/// Appends the semicolon of a procedure without a body, and its specs; the first one stands on the same line.
#[tactic(auto, using(crate::proofs::Written::writing))]
fn bodiless(out: &mut Bytes, specs: &[Modifies]) -> Result<(), AllocError>
    ensures { OnOk result (out.new ≡ written out.old (spec.bodiless specs.now)) }
{
    if specs.is_empty() {
        return last(out, b";");
    }
    word(out, b";")?;
    each(out, specs)
}

/// Appends what follows the parameters of a procedure.
#[tactic(auto, using(crate::proofs::Written::writing))]
fn procedure_end(
    out: &mut Bytes,
    specs: &[Modifies],
    shown: &Option<Body>,
) -> Result<(), AllocError>
    ensures { OnOk result (out.new ≡ written out.old (spec.procedure_end specs.now shown.now)) }
{
    match shown {
        None => bodiless(out, specs),
        Some(shown) => {
            each(out, specs)?;
            body(out, shown)
        }
    }
}

/// Appends a procedure.
#[tactic(auto, using(crate::proofs::Written::writing))]
fn procedure(out: &mut Bytes, shown: &Procedure) -> Result<(), AllocError>
    ensures { OnOk result (out.new ≡ written out.old (spec.procedure shown.now)) }
{
    word(out, b"procedure")?;
    each(out, shown.attributes.as_slice())?;
    shown.name.show(out)?;
    heads(out, &shown.heads)?;
    procedure_end(out, shown.specs.as_slice(), &shown.body)
}

/// Appends an implementation.
#[tactic(auto, using(crate::proofs::Written::writing))]
fn implementation(out: &mut Bytes, shown: &Implementation) -> Result<(), AllocError>
    ensures { OnOk result (out.new ≡ written out.old (spec.implementation shown.now)) }
{
    word(out, b"implementation")?;
    each(out, shown.attributes.as_slice())?;
    shown.name.show(out)?;
    heads(out, &shown.heads)?;
    body(out, &shown.body)
}

#[tactic(auto, using(crate::proofs::Written::writing))]
impl Show for Decl {
    ghost tokens = { spec.decl };

    fn show(&self, out: &mut Bytes) -> Result<(), AllocError> {
        match self {
            Decl::Synonym(shown) => synonym(out, shown),
            Decl::Constants(shown) => constants(out, shown),
            Decl::Function(shown) => function(out, shown),
            Decl::Axiom(shown) => condition(
                out,
                b"axiom",
                shown.attributes.as_slice(),
                &shown.condition,
            ),
            Decl::Variables(shown) => shown.show(out),
            Decl::Procedure(shown) => procedure(out, shown),
            Decl::Implementation(shown) => implementation(out, shown),
        }
    }
}
