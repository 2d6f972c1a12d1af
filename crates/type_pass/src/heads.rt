//! The third pass: the sorts of implementations and of operators, and the names after `modifies`.

ghost use Rattle.std.specs.Prelude.{◌≡◌, flat_map, Some, IfOk};
ghost use Rattle.std.specs.Option.{option_copied};
ghost use Rattle.type_pass.specs.Declarations.{synonyms};
ghost use Rattle.type_pass.specs.Faults.{fault, first};
ghost use Rattle.type_pass.specs.Passes as spec;
ghost use Rattle.type_pass.specs.Scopes.{tables_of};
ghost use Rattle.type_pass.specs.Told.{head_faults_with, implementation_told};

use crate::fault::{TypeFault, TypeKind, earlier};
use crate::known::Known;
use crate::misfit::misfit;
use crate::operand::same_sort;
use crate::tabled::{parameter_sorts, signature};
use crate::tables::{Heading, Meaning, Signature};
use crate::types::Types;
use bpl_ast::{Ast, Decl, Implementation, Modifies, Name};
use hy_val::Sort;
use std::alloc::{AllocError, Global};

fn same_sorts(left: &[Sort], right: &[Sort]) -> bool
    ensures { result ≡ spec.same_sorts left.now right.now }
{
    let mut rest = right;
    for sort in left {
        match rest {
            [] => return false,
            [other, more @ ..] => {
                if !same_sort(*sort, *other) {
                    return false;
                }
                rest = more;
            }
        }
    }
    rest.is_empty()
}

fn at_name(at: usize, kind: TypeKind) -> Option<TypeFault>
    ensures { result ≡ Some (fault at kind) }
{
    Some(TypeFault { at, kind })
}

// What is wrong with an implementation of these sorts, by the procedure of its name.
fn implementation_fault(
    at: usize,
    heading: Option<&Heading>,
    ins: &[Sort],
    outs: &[Sort],
) -> Option<TypeFault>
    ensures { result ≡ first (spec.implementation_faults at (option_copied heading.entry) ins.now outs.now) }
{
    match heading {
        None => at_name(at, TypeKind::Unknown),
        Some(heading) => {
            let wanted_ins = heading.ins.as_slice();
            let wanted_outs = heading.outs.as_slice();
            if wanted_ins.len() != ins.len() || wanted_outs.len() != outs.len() {
                return at_name(at, TypeKind::Arity);
            }
            if same_sorts(wanted_ins, ins) && same_sorts(wanted_outs, outs) {
                None
            } else {
                at_name(at, TypeKind::Mismatch)
            }
        }
    }
}

// What is wrong with a function that means an operator.
fn operator_fault(at: usize, function: &Signature) -> Option<TypeFault>
    ensures { result ≡ first (spec.operator_faults at function.now function.now.meaning) }
{
    match function.meaning {
        Meaning::Body => None,
        Meaning::Operator(builtin) => {
            match misfit(builtin, function.arguments.as_slice(), function.output) {
                None => None,
                Some(kind) => at_name(at, kind),
            }
        }
        Meaning::Nothing => None,
    }
}

fn name_fault(known: &Known, name: &Name) -> Option<TypeFault>
    ensures { result ≡ first (spec.modifies_faults known.now name.now) }
{
    if known.is_global(name.text.as_slice()) {
        None
    } else {
        at_name(name.at, TypeKind::Unknown)
    }
}

fn names_fault(known: &Known, names: &[Name]) -> Option<TypeFault>
    ensures { result ≡ first (flat_map (spec.modifies_faults known.now) names.now) }
{
    let mut found = None;
    for name in names {
        found = earlier(found, name_fault(known, name));
    }
    found
}

fn specs_fault(known: &Known, specs: &[Modifies]) -> Option<TypeFault>
    ensures { result ≡ first (flat_map (λ s. flat_map (spec.modifies_faults known.now) s.names) specs.now) }
{
    let mut found = None;
    for spec in specs {
        found = earlier(found, names_fault(known, spec.names.as_slice()));
    }
    found
}

fn implementation_head(
    alloc: Global,
    types: &Types,
    known: &Known,
    implementation: &Implementation,
) -> Result<Option<TypeFault>, AllocError>
    ensures { IfOk result (λ found. found ≡ first (implementation_told types.now known.now implementation.now)) }
{
    let ins = parameter_sorts(alloc, types, implementation.heads.ins.as_slice())?;
    let outs = parameter_sorts(alloc, types, implementation.heads.outs.as_slice())?;
    let heading = known.procedure(implementation.name.text.as_slice());
    Ok(implementation_fault(
        implementation.name.at,
        heading,
        ins.as_slice(),
        outs.as_slice(),
    ))
}

fn head_fault(
    alloc: Global,
    types: &Types,
    known: &Known,
    decl: &Decl,
) -> Result<Option<TypeFault>, AllocError>
    ensures { IfOk result (λ found. found ≡ first (head_faults_with types.now known.now decl.now)) }
{
    match decl {
        Decl::Function(function) => {
            let signature = signature(alloc, types, function)?;
            Ok(operator_fault(function.name.at, &signature))
        }
        Decl::Procedure(procedure) => Ok(specs_fault(known, procedure.specs.as_slice())),
        Decl::Implementation(implementation) => {
            implementation_head(alloc, types, known, implementation)
        }
        _ => Ok(None),
    }
}

/// The first fault of the third pass: an implementation of an unknown procedure or with other sorts,
/// a `bvbuiltin` whose sorts don't fit, a name after `modifies` that is no global's.
pub fn heads_fault(
    alloc: Global,
    types: &Types,
    known: &Known,
    ast: &Ast,
) -> Result<Option<TypeFault>, AllocError>
    requires types { types.now ≡ synonyms ast.now }
    requires known { known.now ≡ tables_of ast.now }
    ensures { IfOk result (λ found. found ≡ first (spec.heads_faults ast.now)) }
{
    let mut found = None;
    for decl in ast.decls.as_slice() {
        let more = head_fault(alloc, types, known, decl)?;
        found = earlier(found, more);
    }
    Ok(found)
}
