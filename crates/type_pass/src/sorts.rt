//! The second pass: sorts.

ghost use Rattle.std.specs.Prelude.{◌≡◌, ◌++◌, ◌∷◌, [], ◌&&◌, not, map, flat_map, is_some, Some, IfOk};
ghost use Rattle.std.specs.Option.{option_copied};
ghost use Rattle.hy_val.specs.Sorts.{is_scalar};
ghost use Rattle.hy_val.specs.declared.sort.ScalarKind.{ScalarKind};
ghost use Rattle.type_pass.specs.Declarations as declared;
ghost use Rattle.type_pass.specs.Declarations.{synonyms};
ghost use Rattle.type_pass.specs.Faults.{fault, told, first};
ghost use Rattle.type_pass.specs.Passes as spec;
ghost use Rattle.type_pass.specs.Sorts.{sort_faults, part_of, type_number};
ghost use Rattle.type_pass.specs.Told.{sort_told, inside_told, parameter_faults};

use crate::fault::{TypeFault, TypeKind, earlier};
use crate::tabled::result_sort;
use crate::types::Types;
use bpl_ast::{
    Ast, Body, Constants, Decl, Function, FunctionArgument, Group, Heads, Name, ParameterGroup,
    Sort as Written, Variables, Word,
};
use hy_val::Width;
use std::alloc::{AllocError, Global};

/// What is told of a sort.
#[derive(Clone, Copy, Debug, PartialEq, Eq)]
pub struct SortFault {
    /// The offset of its first token.
    pub at: usize,
    /// Whether it is a map.
    pub is_map: bool,
    /// Its first fault.
    pub fault: Option<TypeFault>,
}

fn left_out(at: usize, what: Word) -> Option<TypeFault>
    ensures { result ≡ Some (fault at (TypeKind.LeftOut what)) }
{
    Some(TypeFault {
        at,
        kind: TypeKind::LeftOut { what },
    })
}

// The first fault of an index or an element of a map.
fn inside_map(part: SortFault) -> Option<TypeFault>
    ensures { result ≡ inside_told part }
{
    if part.is_map {
        earlier(left_out(part.at, Word::MapOfMap), part.fault)
    } else {
        part.fault
    }
}

fn bits_fault(at: usize, width: u32) -> Option<TypeFault>
    ensures { result ≡ first (told (not (is_scalar (ScalarKind.Bv width))) at (TypeKind.LeftOut Word.WideType)) }
{
    match Width::try_new(width) {
        None => left_out(at, Word::WideType),
        Some(_) => None,
    }
}

fn name_fault(types: &Types, name: &Name) -> Option<TypeFault>
    ensures { result ≡ first (told (not (is_some (type_number types.now name.now.text))) name.now.at TypeKind.Unknown) }
{
    if types.is_type(name.text.as_slice()) {
        None
    } else {
        Some(TypeFault {
            at: name.at,
            kind: TypeKind::Unknown,
        })
    }
}

/// What is told of a sort. A tree is no deeper than the text nests.
#[tactic(auto, using(crate::proofs::PassLaws::sort_laws))]
fn sort_fault(sort: &Written, types: &Types) -> SortFault
    ensures { result ≡ sort_told (part_of types.now sort.now) }
{
    match sort {
        Written::Boolean { at } => SortFault {
            at: *at,
            is_map: false,
            fault: None,
        },
        Written::Bits { at, width, text: _ } => SortFault {
            at: *at,
            is_map: false,
            fault: bits_fault(*at, *width),
        },
        Written::Named { name } => SortFault {
            at: name.at,
            is_map: types.is_map(name.text.as_slice()),
            fault: name_fault(types, name),
        },
        Written::Map { at, index, elem } => {
            let index = inside_map(sort_fault(index.get(), types));
            let elem = inside_map(sort_fault(elem.get(), types));
            SortFault {
                at: *at,
                is_map: true,
                fault: earlier(index, elem),
            }
        }
    }
}

// The first fault of a sort.
fn fault_of(types: &Types, sort: &Written) -> Option<TypeFault>
    ensures { result ≡ first (sort_faults types.now sort.now) }
{
    sort_fault(sort, types).fault
}

fn groups_fault(types: &Types, groups: &[Group]) -> Option<TypeFault>
    ensures { result ≡ first (flat_map (λ g. sort_faults types.now g.sort) groups.now) }
{
    let mut found = None;
    for group in groups {
        found = earlier(found, fault_of(types, &group.sort));
    }
    found
}

fn lines_fault(types: &Types, lines: &[Variables]) -> Option<TypeFault>
    ensures { result ≡ first (flat_map (λ v. flat_map (λ g. sort_faults types.now g.sort) v.groups) lines.now) }
{
    let mut found = None;
    for line in lines {
        found = earlier(found, groups_fault(types, line.groups.as_slice()));
    }
    found
}

fn arguments_fault(types: &Types, arguments: &[FunctionArgument]) -> Option<TypeFault>
    ensures { result ≡ first (flat_map (λ a. sort_faults types.now a.sort) arguments.now) }
{
    let mut found = None;
    for argument in arguments {
        found = earlier(found, fault_of(types, &argument.sort));
    }
    found
}

// The sort of parameters, of which there is one at least.
#[tactic(auto, using(crate::proofs::PassLaws::pass_laws))]
fn parameter_fault(types: &Types, group: &ParameterGroup) -> Option<TypeFault>
    ensures { result ≡ first (parameter_faults types.now group.now) }
{
    if group.names.is_empty() {
        None
    } else {
        fault_of(types, &group.sort)
    }
}

fn parameters_fault(types: &Types, groups: &[ParameterGroup]) -> Option<TypeFault>
    ensures { result ≡ first (flat_map (parameter_faults types.now) groups.now) }
{
    let mut found = None;
    for group in groups {
        found = earlier(found, parameter_fault(types, group));
    }
    found
}

#[tactic(auto, using(crate::proofs::PassLaws::pass_laws))]
fn heads_fault(types: &Types, heads: &Heads) -> Option<TypeFault>
    ensures { result ≡ first (flat_map (sort_faults types.now) (spec.heads_sorts heads.now)) }
{
    let ins = parameters_fault(types, heads.ins.as_slice());
    let outs = parameters_fault(types, heads.outs.as_slice());
    earlier(ins, outs)
}

#[tactic(auto, using(crate::proofs::PassLaws::pass_laws))]
fn body_fault(types: &Types, body: Option<&Body>) -> Option<TypeFault>
    ensures { result ≡ first (flat_map (sort_faults types.now) (spec.body_sorts (option_copied body.entry))) }
{
    match body {
        None => None,
        Some(body) => lines_fault(types, body.locals.as_slice()),
    }
}

#[tactic(auto, using(crate::proofs::PassLaws::pass_laws))]
fn parts_fault(types: &Types, heads: &Heads, body: Option<&Body>) -> Option<TypeFault>
    ensures { result ≡ first (flat_map (sort_faults types.now) (spec.heads_sorts heads.now ++ spec.body_sorts (option_copied body.entry))) }
{
    earlier(heads_fault(types, heads), body_fault(types, body))
}

#[tactic(auto, using(crate::proofs::PassLaws::pass_laws))]
fn function_fault(types: &Types, function: &Function) -> Option<TypeFault>
    ensures { result ≡ first (flat_map (sort_faults types.now) (map (λ a. a.sort) function.now.arguments ++ declared.result_sort function.now.output ∷ [])) }
{
    let arguments = arguments_fault(types, function.arguments.as_slice());
    earlier(arguments, fault_of(types, result_sort(&function.output)))
}

// The first fault of the sorts that a declaration writes.
#[tactic(auto, using(crate::proofs::PassLaws::pass_laws))]
fn decl_fault(types: &Types, decl: &Decl) -> Option<TypeFault>
    ensures { result ≡ first (flat_map (sort_faults types.now) (spec.sorts_in decl.now)) }
{
    match decl {
        Decl::Synonym(synonym) => fault_of(types, &synonym.sort),
        Decl::Constants(constants) => fault_of(types, &constants.sort),
        Decl::Function(function) => function_fault(types, function),
        Decl::Axiom(_) => None,
        Decl::Variables(variables) => groups_fault(types, variables.groups.as_slice()),
        Decl::Procedure(procedure) => {
            parts_fault(types, &procedure.heads, procedure.body.as_ref())
        }
        Decl::Implementation(implementation) => parts_fault(
            types,
            &implementation.heads,
            Some(&implementation.body),
        ),
    }
}

fn unique_map(types: &Types, constants: &Constants) -> Option<TypeFault>
    ensures { result ≡ first (told (constants.now.unique && (part_of types.now constants.now.sort).is_map) (part_of types.now constants.now.sort).at (TypeKind.LeftOut Word.UniqueMap)) }
{
    let part = sort_fault(&constants.sort, types);
    if constants.unique && part.is_map {
        left_out(part.at, Word::UniqueMap)
    } else {
        None
    }
}

// A unique constant that is a map.
fn unique_fault(types: &Types, decl: &Decl) -> Option<TypeFault>
    ensures { result ≡ first (spec.unique_faults types.now decl.now) }
{
    match decl {
        Decl::Constants(constants) => unique_map(types, constants),
        _ => None,
    }
}

fn all_faults(types: &Types, ast: &Ast) -> Option<TypeFault>
    ensures { result ≡ first (flat_map (λ d. flat_map (sort_faults types.now) (spec.sorts_in d)) ast.now.decls) }
{
    let mut found = None;
    for decl in ast.decls.as_slice() {
        found = earlier(found, decl_fault(types, decl));
    }
    found
}

fn all_uniques(types: &Types, ast: &Ast) -> Option<TypeFault>
    ensures { result ≡ first (flat_map (spec.unique_faults types.now) ast.now.decls) }
{
    let mut found = None;
    for decl in ast.decls.as_slice() {
        found = earlier(found, unique_fault(types, decl));
    }
    found
}

/// The first fault of the second pass: a type that is unknown or lies on a circle, a map inside a
/// map, a unique constant that is a map.
#[tactic(auto, using(crate::proofs::PassLaws::pass_laws))]
pub fn sorts_fault(alloc: Global, types: &Types, ast: &Ast) -> Result<Option<TypeFault>, AllocError>
    requires { types.now ≡ synonyms ast.now }
    ensures { IfOk result (λ found. found ≡ first (spec.sorts_faults ast.now)) }
{
    let sorts = all_faults(types, ast);
    let circles = types.cyclic_type(alloc)?;
    let uniques = all_uniques(types, ast);
    Ok(earlier(earlier(sorts, circles), uniques))
}
