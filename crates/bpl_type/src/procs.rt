//! Typed procedures.

ghost use Rattle.std.specs.Prelude.{◌≡◌, [], map, option_map, Some, IfOk};
ghost use Rattle.std.specs.Option.{option_copied};
ghost use Rattle.type_pass.specs.Declarations as declared;
ghost use Rattle.type_pass.specs.Declarations.{synonyms};
ghost use Rattle.type_pass.specs.Passes.{body_faults};
ghost use Rattle.type_pass.specs.Scopes.{tables_of};
ghost use Rattle.bpl_type.specs.TypedOf as spec;
ghost use Rattle.bpl_type.specs.TypedOf.{body_of, formed_proc};

use crate::implementations::Implementations;
use crate::making::typed_block;
use crate::program::Program;
use crate::typed::{TypedBody, TypedProc};
use bpl_ast::{Body, Decl, Heads, Name, Procedure};
use sqlite_items::Items;
use std::alloc::{AllocError, Global};
use type_pass::known::Locals;
use type_pass::scopes::{own_locals, parameters, scope_of_body};
use type_pass::types::Types;

// A body without faults, of a procedure with these heads.
fn typed_body(
    alloc: Global,
    types: &Types,
    program: &Program,
    heads: &Heads,
    body: &Body,
) -> Result<TypedBody, AllocError>
    requires types { types.now ≡ synonyms program.now.ast.now }
    requires faultless { body_faults (tables_of program.now.ast.now) (synonyms program.now.ast.now) heads.now (Some body.now) ≡ [] }
    ensures { IfOk result (λ made. made ≡ body_of program.now.ast.now heads.now body.now) }
{
    let names = scope_of_body(alloc, types, heads, body)?;
    let scope = Locals::new(alloc, names.locals.as_slice(), names.ins, names.globals)?;
    let statements = typed_block(alloc, program, &scope, body.statements.as_slice())?;
    let locals = own_locals(alloc, types, body)?;
    Ok(TypedBody { locals, statements })
}

// A body without faults, where there is one.
fn typed_body_if(
    alloc: Global,
    types: &Types,
    program: &Program,
    heads: &Heads,
    body: Option<&Body>,
) -> Result<Option<TypedBody>, AllocError>
    requires types { types.now ≡ synonyms program.now.ast.now }
    requires faultless { body_faults (tables_of program.now.ast.now) (synonyms program.now.ast.now) heads.now (option_copied body) ≡ [] }
    ensures { IfOk result (λ made. made ≡ option_map (body_of program.now.ast.now heads.now) (option_copied body.entry)) }
{
    match body {
        None => Ok(None),
        Some(body) => Ok(Some(typed_body(alloc, types, program, heads, body)?)),
    }
}

// A procedure of this name with these heads, and with this body, where there is one.
fn formed(
    alloc: Global,
    types: &Types,
    program: &Program,
    name: &Name,
    heads: &Heads,
    body: Option<&Body>,
) -> Result<TypedProc, AllocError>
    requires types { types.now ≡ synonyms program.now.ast.now }
    requires faultless { body_faults (tables_of program.now.ast.now) (synonyms program.now.ast.now) heads.now (option_copied body) ≡ [] }
    ensures { IfOk result (λ made. made ≡ formed_proc program.now.ast.now name.now.text (record { heads = heads.now; body = option_copied body.entry })) }
{
    let name = Items::from_slice(alloc, name.text.as_slice())?;
    let ins = parameters(alloc, types, heads.ins.as_slice())?;
    let outs = parameters(alloc, types, heads.outs.as_slice())?;
    let body = typed_body_if(alloc, types, program, heads, body)?;
    Ok(TypedProc {
        name,
        ins,
        outs,
        body,
    })
}

// A procedure without faults, with the body and the names of its implementation where it has no body of its own.
fn typed_proc(
    alloc: Global,
    types: &Types,
    program: &Program,
    implementations: &Implementations,
    procedure: &Procedure,
) -> Result<TypedProc, AllocError>
    requires types { types.now ≡ synonyms program.now.ast.now }
    requires implementations { map (λ i. i.now) implementations.now.items.items ≡ declared.implementations program.now.ast.now }
    requires faultless { body_faults (tables_of program.now.ast.now) (synonyms program.now.ast.now) procedure.now.heads procedure.now.body ≡ [] }
    ensures { IfOk result (λ made. made ≡ spec.proc_of program.now.ast.now procedure.now) }
{
    let name = &procedure.name;
    let heads = &procedure.heads;
    match &procedure.body {
        Some(body) => formed(alloc, types, program, name, heads, Some(body)),
        None => match implementations.named(name.text.as_slice()) {
            None => formed(alloc, types, program, name, heads, None),
            Some(found) => formed(alloc, types, program, name, &found.heads, Some(&found.body)),
        },
    }
}

// The procedures, by the implementations of the program.
fn procs_with(
    alloc: Global,
    types: &Types,
    program: &Program,
    implementations: &Implementations,
) -> Result<Items<TypedProc>, AllocError>
    requires types { types.now ≡ synonyms program.now.ast.now }
    requires implementations { map (λ i. i.now) implementations.now.items.items ≡ declared.implementations program.now.ast.now }
    ensures { IfOk result (λ made. made ≡ map (spec.proc_of program.now.ast.now) (declared.procedures program.now.ast.now)) }
{
    let mut made = Items::new(alloc);
    for decl in program.ast.decls.as_slice() {
        if let Decl::Procedure(procedure) = decl {
            made.push(typed_proc(alloc, types, program, implementations, procedure)?)?;
        }
    }
    Ok(made)
}

/// The procedures of a program without faults, in the order of their declarations. The body of a
/// procedure that has none of its own is that of its implementation, with the names that the
/// implementation gives to parameters.
pub fn typed_procs(
    alloc: Global,
    types: &Types,
    program: &Program,
) -> Result<Items<TypedProc>, AllocError>
    requires { types.now ≡ synonyms program.now.ast.now }
    ensures { IfOk result (λ made. made ≡ map (spec.proc_of program.now.ast.now) (declared.procedures program.now.ast.now)) }
{
    let implementations = Implementations::new(alloc, program.ast)?;
    procs_with(alloc, types, program, &implementations)
}
