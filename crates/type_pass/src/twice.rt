//! The first pass: names and bodies that stand a second time.

ghost use Rattle.std.specs.Prelude.{◌≡◌, ◌++◌, map, flat_map, IfOk};
ghost use Rattle.std.specs.Option.{option_copied};
ghost use Rattle.type_pass.specs.Declarations as spec;
ghost use Rattle.type_pass.specs.Faults.{first};
ghost use Rattle.type_pass.specs.Declarations.{synonyms, functions};
ghost use Rattle.type_pass.specs.Names.{repeats};
ghost use Rattle.type_pass.specs.Passes.{function_repeats, parameter_repeats, inner_repeats, twice_faults};

use crate::fault::{TypeFault, TypeKind, earlier};
use crate::repeats::repeats;
use crate::spaces::{
    bodies_space, body_space, function_names, function_space, procedure_names, type_names,
    value_space,
};
use bpl_ast::{Ast, Attribute, Body, Decl, Function, Heads};
use std::alloc::{AllocError, Global};

/// Whether an attribute is named `bvbuiltin`.
pub fn is_builtin_attribute(attribute: &Attribute) -> bool
    ensures { result ≡ spec.is_builtin_attribute attribute.now }
{
    attribute.name.text.as_slice() == b"bvbuiltin".as_slice()
}

fn has_builtin(function: &Function) -> bool
    ensures { result ≡ spec.has_builtin function.now }
{
    function
        .attributes
        .as_slice()
        .iter()
        .any(|attribute| is_builtin_attribute(attribute))
}

// Names that the arguments and the result share, and a body beside `bvbuiltin`.
#[tactic(auto, using(crate::proofs::SpaceLaws::fault_laws))]
fn function_repeats(alloc: Global, function: &Function) -> Result<Option<TypeFault>, AllocError>
    ensures { IfOk result (λ found. found ≡ first (function_repeats function.now)) }
{
    let names = function_space(alloc, function)?;
    let found = repeats(alloc, names.as_slice())?;
    if has_builtin(function) && function.body.is_some() {
        let twice = TypeFault {
            at: function.name.at,
            kind: TypeKind::Twice,
        };
        Ok(earlier(found, Some(twice)))
    } else {
        Ok(found)
    }
}

// Names that parameters and locals share.
fn parameter_repeats(
    alloc: Global,
    heads: &Heads,
    body: Option<&Body>,
) -> Result<Option<TypeFault>, AllocError>
    ensures { IfOk result (λ found. found ≡ first (parameter_repeats heads.now (option_copied body.entry))) }
{
    let names = body_space(alloc, heads, body)?;
    repeats(alloc, names.as_slice())
}

// What stands a second time inside a declaration.
fn inner_repeats(alloc: Global, decl: &Decl) -> Result<Option<TypeFault>, AllocError>
    ensures { IfOk result (λ found. found ≡ first (inner_repeats decl.now)) }
{
    match decl {
        Decl::Function(function) => function_repeats(alloc, function),
        Decl::Procedure(procedure) => {
            parameter_repeats(alloc, &procedure.heads, procedure.body.as_ref())
        }
        Decl::Implementation(implementation) => parameter_repeats(
            alloc,
            &implementation.heads,
            Some(&implementation.body),
        ),
        _ => Ok(None),
    }
}

// What stands a second time inside the declarations.
fn all_inner_repeats(alloc: Global, ast: &Ast) -> Result<Option<TypeFault>, AllocError>
    ensures { IfOk result (λ found. found ≡ first (flat_map inner_repeats ast.now.decls)) }
{
    let mut found = None;
    for decl in ast.decls.as_slice() {
        let more = inner_repeats(alloc, decl)?;
        found = earlier(found, more);
    }
    Ok(found)
}

// What stands a second time among the declared names of the types and the functions.
#[tactic(auto, using(crate::proofs::SpaceLaws::fault_laws))]
fn declared_repeats(alloc: Global, ast: &Ast) -> Result<Option<TypeFault>, AllocError>
    ensures { IfOk result (λ found. found ≡ first (repeats (map (λ s. s.name) (synonyms ast.now)) ++ repeats (map (λ f. f.name) (functions ast.now)))) }
{
    let names = type_names(alloc, ast)?;
    let types = repeats(alloc, names.as_slice())?;
    let names = function_names(alloc, ast)?;
    let functions = repeats(alloc, names.as_slice())?;
    Ok(earlier(types, functions))
}

/// The first fault of the first pass: a name that stands a second time in its space, or a second
/// body.
#[tactic(auto, using(crate::proofs::SpaceLaws::fault_laws))]
pub fn twice_fault(alloc: Global, ast: &Ast) -> Result<Option<TypeFault>, AllocError>
    ensures { IfOk result (λ found. found ≡ first (twice_faults ast.now)) }
{
    let declared = declared_repeats(alloc, ast)?;
    let names = procedure_names(alloc, ast)?;
    let found = earlier(declared, repeats(alloc, names.as_slice())?);
    let names = value_space(alloc, ast)?;
    let found = earlier(found, repeats(alloc, names.as_slice())?);
    let names = bodies_space(alloc, ast)?;
    let found = earlier(found, repeats(alloc, names.as_slice())?);
    let inner = all_inner_repeats(alloc, ast)?;
    Ok(earlier(found, inner))
}
