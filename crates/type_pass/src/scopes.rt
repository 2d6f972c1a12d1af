//! The scope of the body of a procedure.

ghost use Rattle.std.specs.Prelude.{◌≡◌, ◌++◌, map, flat_map, IfOk, OnOk};
ghost use Rattle.type_pass.specs.Declarations.{declared, in_parameters, in_variables, in_body};
ghost use Rattle.type_pass.specs.Scopes.{named_of, body_scope};

use crate::tabled::{push_groups, push_names};
use crate::tables::{Named, Scope};
use crate::types::Types;
use bpl_ast::{Body, Heads, Name, ParameterGroup, Sort, Variables};
use sqlite_items::Items;
use std::alloc::{AllocError, Global};

// Names that have one sort of the text, behind those of a list.
fn push_declared(
    alloc: Global,
    types: &Types,
    named: &mut Items<Named>,
    names: &[Name],
    sort: &Sort,
) -> Result<(), AllocError>
    ensures { OnOk result (named.new ≡ named.old ++ map (named_of types.now) (map (declared sort.now) names.now)) }
{
    push_names(alloc, named, names, types.sort_of(sort))
}

// The names of parameters with their sorts, behind those of a list.
fn push_parameters(
    alloc: Global,
    types: &Types,
    named: &mut Items<Named>,
    groups: &[ParameterGroup],
) -> Result<(), AllocError>
    ensures { OnOk result (named.new ≡ named.old ++ map (named_of types.now) (flat_map in_parameters groups.now)) }
{
    for group in groups {
        push_declared(alloc, types, named, group.names.as_slice(), &group.sort)?;
    }
    Ok(())
}

// The names of the locals of a body with their sorts, behind those of a list.
fn push_locals(
    alloc: Global,
    types: &Types,
    named: &mut Items<Named>,
    locals: &[Variables],
) -> Result<(), AllocError>
    ensures { OnOk result (named.new ≡ named.old ++ map (named_of types.now) (flat_map in_variables locals.now)) }
{
    for variables in locals {
        push_groups(alloc, types, named, variables.groups.as_slice())?;
    }
    Ok(())
}

/// The scope of a body: the ins, the outs, the locals and the globals are known.
pub fn scope_of_body(
    alloc: Global,
    types: &Types,
    heads: &Heads,
    body: &Body,
) -> Result<Scope, AllocError>
    ensures { IfOk result (λ scope. scope ≡ body_scope types.now heads.now body.now) }
{
    let mut locals = Items::new(alloc);
    push_parameters(alloc, types, &mut locals, heads.ins.as_slice())?;
    let ins = locals.len();
    push_parameters(alloc, types, &mut locals, heads.outs.as_slice())?;
    push_locals(alloc, types, &mut locals, body.locals.as_slice())?;
    Ok(Scope {
        locals,
        ins,
        globals: true,
    })
}

/// Parameters with their sorts.
pub fn parameters(
    alloc: Global,
    types: &Types,
    groups: &[ParameterGroup],
) -> Result<Items<Named>, AllocError>
    ensures { IfOk result (λ named. named ≡ map (named_of types.now) (flat_map in_parameters groups.now)) }
{
    let mut named = Items::new(alloc);
    push_parameters(alloc, types, &mut named, groups)?;
    Ok(named)
}

/// The locals of a body with their sorts, without the parameters.
pub fn own_locals(alloc: Global, types: &Types, body: &Body) -> Result<Items<Named>, AllocError>
    ensures { IfOk result (λ named. named ≡ map (named_of types.now) (in_body body.now)) }
{
    let mut named = Items::new(alloc);
    push_locals(alloc, types, &mut named, body.locals.as_slice())?;
    Ok(named)
}
