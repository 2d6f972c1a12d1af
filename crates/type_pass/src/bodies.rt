//! The fourth pass: the first fault of the expressions and commands of a program.

ghost use Rattle.std.specs.Prelude.{◌≡◌, ◌≤◌, length, Some, IfOk};
ghost use Rattle.std.specs.Option.{option_copied};
ghost use Rattle.type_pass.specs.Bodies.{signature_faults, decl_faults};
ghost use Rattle.type_pass.specs.Declarations.{function_of, synonyms};
ghost use Rattle.type_pass.specs.Faults.{earlier, first};
ghost use Rattle.type_pass.specs.Passes as spec;
ghost use Rattle.type_pass.specs.Commands.{condition_faults};
ghost use Rattle.type_pass.specs.Scopes.{axiom_scope, tables_of};

use crate::commands::{condition_fault, value_fault};
use crate::fault::TypeFault;
use crate::known::{Known, Locals};
use crate::scopes::scope_of_body;
use crate::stmts::stmts_fault;
use crate::tables::Signature;
use crate::types::Types;
use bpl_ast::{Ast, Body, Decl, Expr, Heads};
use sqlite_items::at;
use std::alloc::{AllocError, Global};

// The fault of the body of a function, whose value has the sort of the result.
fn function_fault(
    alloc: Global,
    known: &Known,
    signature: Option<&Signature>,
    body: &Option<Expr>,
    found: Option<TypeFault>,
) -> Result<Option<TypeFault>, AllocError>
    ensures { IfOk result (λ answer. answer ≡ earlier found (first (signature_faults known.now (option_copied signature.entry) body.now))) }
{
    match signature {
        None => Ok(found),
        Some(signature) => match body {
            None => Ok(found),
            Some(body) => {
                let arguments = signature.arguments.as_slice();
                let scope = Locals::new(alloc, arguments, arguments.len(), false)?;
                Ok(value_fault(known, &scope, Some(signature.output), body, found))
            }
        },
    }
}

// The fault of an axiom.
fn axiom_fault(
    alloc: Global,
    known: &Known,
    condition: &Expr,
    found: Option<TypeFault>,
) -> Result<Option<TypeFault>, AllocError>
    ensures { IfOk result (λ answer. answer ≡ earlier found (first (condition_faults known.now axiom_scope condition.now))) }
{
    let scope = Locals::new(alloc, &[], 0, false)?;
    Ok(condition_fault(known, &scope, condition, found))
}

// The first fault of the body of a procedure.
fn body_fault(
    alloc: Global,
    known: &Known,
    types: &Types,
    heads: &Heads,
    body: &Body,
    found: Option<TypeFault>,
) -> Result<Option<TypeFault>, AllocError>
    ensures { IfOk result (λ answer. answer ≡ earlier found (first (spec.body_faults known.now types.now heads.now (Some body.now)))) }
{
    let names = scope_of_body(alloc, types, heads, body)?;
    let scope = Locals::new(alloc, names.locals.as_slice(), names.ins, names.globals)?;
    stmts_fault(alloc, known, &scope, body.statements.as_slice(), found)
}

// The first fault of a declaration; of a function with the signature.
fn decl_fault(
    alloc: Global,
    known: &Known,
    types: &Types,
    signature: Option<&Signature>,
    decl: &Decl,
    found: Option<TypeFault>,
) -> Result<Option<TypeFault>, AllocError>
    ensures { IfOk result (λ answer. answer ≡ earlier found (first (decl_faults known.now types.now (option_copied signature.entry) decl.now))) }
{
    match decl {
        Decl::Synonym(_) => Ok(found),
        Decl::Constants(_) => Ok(found),
        Decl::Function(function) => {
            function_fault(alloc, known, signature, &function.body, found)
        }
        Decl::Axiom(axiom) => axiom_fault(alloc, known, &axiom.condition, found),
        Decl::Variables(_) => Ok(found),
        Decl::Procedure(procedure) => match &procedure.body {
            None => Ok(found),
            Some(body) => body_fault(alloc, known, types, &procedure.heads, body, found),
        },
        Decl::Implementation(implementation) => body_fault(
            alloc,
            known,
            types,
            &implementation.heads,
            &implementation.body,
            found,
        ),
    }
}

// How many functions a declaration declares.
fn functions_in(decl: &Decl) -> usize
    ensures value { result ≡ length (function_of decl.now) }
    ensures one { result ≤ 1 }
{
    match decl {
        Decl::Function(_) => 1,
        Decl::Synonym(_)
        | Decl::Constants(_)
        | Decl::Axiom(_)
        | Decl::Variables(_)
        | Decl::Procedure(_)
        | Decl::Implementation(_) => 0,
    }
}

/// The first fault of the expressions and commands of a program, by its tables and its types.
pub fn commands_fault(
    alloc: Global,
    known: &Known,
    types: &Types,
    ast: &Ast,
) -> Result<Option<TypeFault>, AllocError>
    requires tables { known.now ≡ tables_of ast.now }
    requires types { types.now ≡ synonyms ast.now }
    ensures { IfOk result (λ found. found ≡ first (spec.commands_faults ast.now)) }
{
    let functions = known.functions();
    let mut number = 0;
    let mut so_far = None;
    for decl in ast.decls.as_slice() {
        so_far = decl_fault(alloc, known, types, at(functions, number), decl, so_far)?;
        number += functions_in(decl);
    }
    Ok(so_far)
}
