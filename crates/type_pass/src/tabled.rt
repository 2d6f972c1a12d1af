//! The tables of a program.

ghost use Rattle.std.specs.Prelude.{◌≡◌, ◌++◌, map, flat_map, length, replicate, IfOk, OnOk};
ghost use Rattle.type_pass.specs.Declarations as declared;
ghost use Rattle.type_pass.specs.Declarations.{synonyms, implementations};
ghost use Rattle.type_pass.specs.Scopes as spec;
ghost use Rattle.type_pass.specs.Scopes.{named_of, argument_of, sort_in, tables_of};
ghost use Rattle.type_pass.specs.Tabled.{named_as, heading_with};

use crate::meaning::meaning_of;
use crate::numbers::Numbers;
use crate::tables::{Heading, Named, Signature, Tables};
use crate::types::Types;
use bpl_ast::{
    Ast, Decl, Function, FunctionArgument, FunctionResult, Group, Name, ParameterGroup, Procedure,
    Sort as Written,
};
use hy_val::Sort;
use sqlite_items::Items;
use std::alloc::{AllocError, Global};

/// Names of one sort, behind those of a list.
pub fn push_names(
    alloc: Global,
    named: &mut Items<Named>,
    names: &[Name],
    sort: Sort,
) -> Result<(), AllocError>
    ensures { OnOk result (named.new ≡ named.old ++ map (named_as sort) names.now) }
{
    for name in names {
        let name = Items::from_slice(alloc, name.text.as_slice())?;
        named.push(Named { name, sort })?;
    }
    Ok(())
}

/// The names of groups with their sorts, behind those of a list.
#[tactic(auto, using(crate::proofs::TableLaws::table_laws))]
pub fn push_groups(
    alloc: Global,
    types: &Types,
    named: &mut Items<Named>,
    groups: &[Group],
) -> Result<(), AllocError>
    ensures { OnOk result (named.new ≡ named.old ++ map (named_of types.now) (flat_map declared.in_group groups.now)) }
{
    for group in groups {
        push_names(
            alloc,
            named,
            group.names.as_slice(),
            types.sort_of(&group.sort),
        )?;
    }
    Ok(())
}

// The constants or the globals that a declaration declares, behind those of a list.
#[tactic(auto, using(crate::proofs::TableLaws::table_laws))]
fn push_constants(
    alloc: Global,
    types: &Types,
    named: &mut Items<Named>,
    decl: &Decl,
) -> Result<(), AllocError>
    ensures { OnOk result (named.new ≡ named.old ++ map (named_of types.now) (flat_map declared.in_constants (declared.constants_of decl.now))) }
{
    match decl {
        Decl::Constants(constants) => push_names(
            alloc,
            named,
            constants.names.as_slice(),
            types.sort_of(&constants.sort),
        ),
        _ => Ok(()),
    }
}

#[tactic(auto, using(crate::proofs::TableLaws::table_laws))]
fn push_globals(
    alloc: Global,
    types: &Types,
    named: &mut Items<Named>,
    decl: &Decl,
) -> Result<(), AllocError>
    ensures { OnOk result (named.new ≡ named.old ++ map (named_of types.now) (flat_map declared.in_variables (declared.variables_of decl.now))) }
{
    match decl {
        Decl::Variables(variables) => push_groups(alloc, types, named, variables.groups.as_slice()),
        _ => Ok(()),
    }
}

#[tactic(auto, using(crate::proofs::TableLaws::table_laws))]
fn all_constants(alloc: Global, types: &Types, ast: &Ast) -> Result<Items<Named>, AllocError>
    ensures { IfOk result (λ named. named ≡ map (named_of types.now) (declared.constants ast.now)) }
{
    let mut named = Items::new(alloc);
    for decl in ast.decls.as_slice() {
        push_constants(alloc, types, &mut named, decl)?;
    }
    Ok(named)
}

#[tactic(auto, using(crate::proofs::TableLaws::table_laws))]
fn all_globals(alloc: Global, types: &Types, ast: &Ast) -> Result<Items<Named>, AllocError>
    ensures { IfOk result (λ named. named ≡ map (named_of types.now) (declared.globals ast.now)) }
{
    let mut named = Items::new(alloc);
    for decl in ast.decls.as_slice() {
        push_globals(alloc, types, &mut named, decl)?;
    }
    Ok(named)
}

// ---- functions

fn argument_name(alloc: Global, argument: &FunctionArgument) -> Result<Items<u8>, AllocError>
    ensures { IfOk result (λ name. name ≡ declared.text_if argument.now.name) }
{
    match &argument.name {
        None => Ok(Items::new(alloc)),
        Some(name) => Items::from_slice(alloc, name.text.as_slice()),
    }
}

fn argument_list(
    alloc: Global,
    types: &Types,
    arguments: &[FunctionArgument],
) -> Result<Items<Named>, AllocError>
    ensures { IfOk result (λ named. named ≡ map (argument_of types.now) arguments.now) }
{
    let mut named = Items::new(alloc);
    for argument in arguments {
        let name = argument_name(alloc, argument)?;
        let sort = types.sort_of(&argument.sort);
        named.push(Named { name, sort })?;
    }
    Ok(named)
}

/// The sort of the result of a function, as the text has it.
pub fn result_sort(output: &FunctionResult) -> &Written
    ensures { result.now ≡ declared.result_sort output.now }
{
    match output {
        FunctionResult::Returns { at: _, argument } => &argument.sort,
        FunctionResult::Plain { at: _, sort } => sort,
    }
}

/// A function as its uses see it.
pub fn signature(alloc: Global, types: &Types, function: &Function) -> Result<Signature, AllocError>
    ensures { IfOk result (λ signature. signature ≡ spec.signature_of types.now function.now) }
{
    let name = Items::from_slice(alloc, function.name.text.as_slice())?;
    let arguments = argument_list(alloc, types, function.arguments.as_slice())?;
    let output = types.sort_of(result_sort(&function.output));
    let meaning = meaning_of(alloc, function)?;
    Ok(Signature {
        name,
        arguments,
        output,
        meaning,
    })
}

fn all_functions(alloc: Global, types: &Types, ast: &Ast) -> Result<Items<Signature>, AllocError>
    ensures { IfOk result (λ signatures. signatures ≡ map (spec.signature_of types.now) (declared.functions ast.now)) }
{
    let mut signatures = Items::new(alloc);
    for decl in ast.decls.as_slice() {
        if let Decl::Function(function) = decl {
            signatures.push(signature(alloc, types, function)?)?;
        }
    }
    Ok(signatures)
}

// ---- procedures

// As many times the sort as there are names, behind those of a list.
#[tactic(auto, using(crate::proofs::TableLaws::table_laws))]
fn push_sorts(sorts: &mut Items<Sort>, names: &[Name], sort: Sort) -> Result<(), AllocError>
    ensures { OnOk result (sorts.new ≡ sorts.old ++ replicate (length names.now) sort) }
{
    for _ in 0..names.len() {
        sorts.push(sort)?;
    }
    Ok(())
}

/// The sorts of parameters.
#[tactic(auto, using(crate::proofs::TableLaws::table_laws))]
pub fn parameter_sorts(
    alloc: Global,
    types: &Types,
    groups: &[ParameterGroup],
) -> Result<Items<Sort>, AllocError>
    ensures { IfOk result (λ sorts. sorts ≡ map (sort_in types.now) (flat_map declared.in_parameters groups.now)) }
{
    let mut sorts = Items::new(alloc);
    for group in groups {
        push_sorts(
            &mut sorts,
            group.names.as_slice(),
            types.sort_of(&group.sort),
        )?;
    }
    Ok(sorts)
}

/// The names of the implementations.
pub fn implemented<'a>(alloc: Global, ast: &'a Ast) -> Result<Numbers<'a>, AllocError>
    ensures { IfOk result (λ numbers. numbers ≡ map (λ i. i.name.text) (implementations ast.now)) }
{
    let mut names = Vec::new(alloc);
    for decl in ast.decls.as_slice() {
        if let Decl::Implementation(implementation) = decl {
            names.push(implementation.name.text.as_slice())?;
        }
    }
    Numbers::new(alloc, names)
}

fn heading(
    alloc: Global,
    types: &Types,
    implemented: &Numbers,
    procedure: &Procedure,
) -> Result<Heading, AllocError>
    ensures { IfOk result (λ heading. heading ≡ heading_with types.now implemented.now procedure.now) }
{
    let name = Items::from_slice(alloc, procedure.name.text.as_slice())?;
    let ins = parameter_sorts(alloc, types, procedure.heads.ins.as_slice())?;
    let outs = parameter_sorts(alloc, types, procedure.heads.outs.as_slice())?;
    let has_body = procedure.body.is_some()
        || implemented.number(procedure.name.text.as_slice()).is_some();
    Ok(Heading {
        name,
        ins,
        outs,
        has_body,
    })
}

// The procedure that a declaration declares, behind those of a list.
#[tactic(auto, using(crate::proofs::TableLaws::table_laws))]
fn push_procedure(
    alloc: Global,
    types: &Types,
    implemented: &Numbers,
    headings: &mut Items<Heading>,
    decl: &Decl,
) -> Result<(), AllocError>
    ensures { OnOk result (headings.new ≡ headings.old ++ map (heading_with types.now implemented.now) (declared.procedure_of decl.now)) }
{
    match decl {
        Decl::Procedure(procedure) => {
            headings.push(heading(alloc, types, implemented, procedure)?)
        }
        _ => Ok(()),
    }
}

// The procedures, where the names of the implementations are known.
fn procedures_with(
    alloc: Global,
    types: &Types,
    implemented: &Numbers,
    ast: &Ast,
) -> Result<Items<Heading>, AllocError>
    ensures { IfOk result (λ headings. headings ≡ map (heading_with types.now implemented.now) (declared.procedures ast.now)) }
{
    let mut headings = Items::new(alloc);
    for decl in ast.decls.as_slice() {
        push_procedure(alloc, types, implemented, &mut headings, decl)?;
    }
    Ok(headings)
}

fn all_procedures(alloc: Global, types: &Types, ast: &Ast) -> Result<Items<Heading>, AllocError>
    requires { types.now ≡ synonyms ast.now }
    ensures { IfOk result (λ headings. headings ≡ map (spec.heading_of ast.now) (declared.procedures ast.now)) }
{
    let implemented = implemented(alloc, ast)?;
    procedures_with(alloc, types, &implemented, ast)
}

/// The tables of a program, by its types.
pub fn tables(alloc: Global, types: &Types, ast: &Ast) -> Result<Tables, AllocError>
    requires { types.now ≡ synonyms ast.now }
    ensures { IfOk result (λ tables. tables ≡ tables_of ast.now) }
{
    let consts = all_constants(alloc, types, ast)?;
    let globals = all_globals(alloc, types, ast)?;
    let functions = all_functions(alloc, types, ast)?;
    let procedures = all_procedures(alloc, types, ast)?;
    Ok(Tables {
        consts,
        globals,
        functions,
        procedures,
    })
}
