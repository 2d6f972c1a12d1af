//! The names of each space, in the order of the text.

ghost use Rattle.std.specs.Prelude.{◌≡◌, ◌++◌, map, flat_map, IfOk, OnOk};
ghost use Rattle.std.specs.Option.{option_copied};
ghost use Rattle.type_pass.specs.Declarations.{synonyms, functions, procedures, body_names, value_name, value_names, in_heads, in_body};
ghost use Rattle.type_pass.specs.Declarations as spec;
ghost use Rattle.type_pass.specs.Passes.{function_names, local_names};

use bpl_ast::{Ast, Body, Decl, Function, FunctionResult, Group, Heads, Name, ParameterGroup};
use std::alloc::{AllocError, Global};

/// The declared names of the types.
pub fn type_names<'a>(alloc: Global, ast: &'a Ast) -> Result<Vec<&'a Name>, AllocError>
    ensures { IfOk result (λ names. map (λ n. n.now) names.items ≡ map (λ s. s.name) (synonyms ast.now)) }
{
    let mut names = Vec::new(alloc);
    for decl in ast.decls.as_slice() {
        if let Decl::Synonym(synonym) = decl {
            names.push(&synonym.name)?;
        }
    }
    Ok(names)
}

/// The declared names of the functions.
pub fn function_names<'a>(alloc: Global, ast: &'a Ast) -> Result<Vec<&'a Name>, AllocError>
    ensures { IfOk result (λ names. map (λ n. n.now) names.items ≡ map (λ f. f.name) (functions ast.now)) }
{
    let mut names = Vec::new(alloc);
    for decl in ast.decls.as_slice() {
        if let Decl::Function(function) = decl {
            names.push(&function.name)?;
        }
    }
    Ok(names)
}

/// The declared names of the procedures.
pub fn procedure_names<'a>(alloc: Global, ast: &'a Ast) -> Result<Vec<&'a Name>, AllocError>
    ensures { IfOk result (λ names. map (λ n. n.now) names.items ≡ map (λ p. p.name) (procedures ast.now)) }
{
    let mut names = Vec::new(alloc);
    for decl in ast.decls.as_slice() {
        if let Decl::Procedure(procedure) = decl {
            names.push(&procedure.name)?;
        }
    }
    Ok(names)
}

// Puts names behind those of a list.
fn push_names<'a>(names: &mut Vec<&'a Name>, more: &'a [Name]) -> Result<(), AllocError>
    ensures { OnOk result (map (λ n. n.now) names.new.items ≡ map (λ n. n.now) names.old.items ++ more.now) }
{
    for name in more {
        names.push(name)?;
    }
    Ok(())
}

// Puts the names of groups behind those of a list.
fn push_groups<'a>(names: &mut Vec<&'a Name>, groups: &'a [Group]) -> Result<(), AllocError>
    ensures { OnOk result (map (λ n. n.now) names.new.items ≡ map (λ n. n.now) names.old.items ++ flat_map (λ g. g.names) groups.now) }
{
    for group in groups {
        push_names(names, group.names.as_slice())?;
    }
    Ok(())
}

// Puts the names of groups of parameters behind those of a list.
fn push_parameters<'a>(
    names: &mut Vec<&'a Name>,
    groups: &'a [ParameterGroup],
) -> Result<(), AllocError>
    ensures { OnOk result (map (λ n. n.now) names.new.items ≡ map (λ n. n.now) names.old.items ++ flat_map (λ g. g.names) groups.now) }
{
    for group in groups {
        push_names(names, group.names.as_slice())?;
    }
    Ok(())
}

// Puts the names of the local variables of a body behind those of a list.
#[tactic(auto, using(crate::proofs::SpaceLaws::space_laws))]
fn push_locals<'a>(names: &mut Vec<&'a Name>, body: &'a Body) -> Result<(), AllocError>
    ensures { OnOk result (map (λ n. n.now) names.new.items ≡ map (λ n. n.now) names.old.items ++ map (λ d. d.name) (in_body body.now)) }
{
    for line in body.locals.as_slice() {
        push_groups(names, line.groups.as_slice())?;
    }
    Ok(())
}

/// The names of the parameters, the ins first, and then those of the locals of a body.
#[tactic(auto, using(crate::proofs::SpaceLaws::space_laws))]
pub fn body_space<'a>(
    alloc: Global,
    heads: &'a Heads,
    body: Option<&'a Body>,
) -> Result<Vec<&'a Name>, AllocError>
    ensures { IfOk result (λ names. map (λ n. n.now) names.items ≡ map (λ d. d.name) (in_heads heads.now) ++ local_names (option_copied body.entry)) }
{
    let mut names = Vec::new(alloc);
    push_parameters(&mut names, heads.ins.as_slice())?;
    push_parameters(&mut names, heads.outs.as_slice())?;
    match body {
        None => Ok(names),
        Some(body) => {
            push_locals(&mut names, body)?;
            Ok(names)
        }
    }
}

// The name of the result of a function.
fn result_name(output: &FunctionResult) -> Option<&Name>
    ensures { option_copied result ≡ spec.result_name output.now }
{
    match output {
        FunctionResult::Returns { at: _, argument } => argument.name.as_ref(),
        FunctionResult::Plain { at: _, sort: _ } => None,
    }
}

/// The names of the arguments of a function, and then that of its result.
pub fn function_space(alloc: Global, function: &Function) -> Result<Vec<&Name>, AllocError>
    ensures { IfOk result (λ names. map (λ n. n.now) names.items ≡ function_names function.now) }
{
    let mut names = Vec::new(alloc);
    for argument in function.arguments.as_slice() {
        if let Some(name) = &argument.name {
            names.push(name)?;
        }
    }
    match result_name(&function.output) {
        None => Ok(names),
        Some(name) => {
            names.push(name)?;
            Ok(names)
        }
    }
}

// Puts the constants or globals that a declaration declares behind a list.
#[tactic(auto, using(crate::proofs::SpaceLaws::space_laws))]
fn push_values<'a>(names: &mut Vec<&'a Name>, decl: &'a Decl) -> Result<(), AllocError>
    ensures { OnOk result (map (λ n. n.now) names.new.items ≡ map (λ n. n.now) names.old.items ++ value_name decl.now) }
{
    match decl {
        Decl::Constants(constants) => push_names(names, constants.names.as_slice()),
        Decl::Variables(variables) => push_groups(names, variables.groups.as_slice()),
        _ => Ok(()),
    }
}

/// The declared names of the constants and of the global variables.
pub fn value_space<'a>(alloc: Global, ast: &'a Ast) -> Result<Vec<&'a Name>, AllocError>
    ensures { IfOk result (λ names. map (λ n. n.now) names.items ≡ value_names ast.now) }
{
    let mut names = Vec::new(alloc);
    for decl in ast.decls.as_slice() {
        push_values(&mut names, decl)?;
    }
    Ok(names)
}

/// The names of the procedures with a body, and of the implementations.
pub fn bodies_space<'a>(alloc: Global, ast: &'a Ast) -> Result<Vec<&'a Name>, AllocError>
    ensures { IfOk result (λ names. map (λ n. n.now) names.items ≡ body_names ast.now) }
{
    let mut names = Vec::new(alloc);
    for decl in ast.decls.as_slice() {
        match decl {
            Decl::Procedure(procedure) => {
                if procedure.body.is_some() {
                    names.push(&procedure.name)?;
                }
            }
            Decl::Implementation(implementation) => names.push(&implementation.name)?,
            _ => {}
        }
    }
    Ok(names)
}
