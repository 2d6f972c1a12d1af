//! The first fault of the parts of commands: each call is told what was found before, and answers
//! which of both comes first.

ghost use Rattle.std.specs.Prelude.{◌≡◌, ◌||◌, not, length, map, flat_map, slice_get, IfOk, None, Some};
ghost use Rattle.std.specs.Option.{option_map, option_and_then};
ghost use Rattle.type_pass.specs.Commands as spec;
ghost use Rattle.type_pass.specs.ExprSorts.{part};
ghost use Rattle.type_pass.specs.Faults.{earlier, fault, first, told};
ghost use Rattle.type_pass.specs.Running.{out_faults};
ghost use Rattle.type_pass.specs.Scopes.{find_name, procedure_named};

use crate::exprs::{place, sort_of_expr};
use crate::fault::{TypeFault, TypeKind, earlier};
use crate::known::{Known, Locals};
use crate::operand::{bool_sort, same_sort};
use crate::repeats::repeats;
use crate::tables::Heading;
use bpl_ast::{Expr, Guard, Invariant, Name, Target, Word};
use hy_val::{Sort, SortKind, Var};
use sqlite_items::at;
use std::alloc::{AllocError, Global};

/// A fault, unless one that was found before it is told first.
pub fn told(found: Option<TypeFault>, at: usize, kind: TypeKind) -> Option<TypeFault>
    ensures { result ≡ earlier found (Some (fault at kind)) }
{
    earlier(found, Some(TypeFault { at, kind }))
}

/// The same of a fault that is there where a test holds.
pub fn told_if(
    found: Option<TypeFault>,
    holds: bool,
    at: usize,
    kind: TypeKind,
) -> Option<TypeFault>
    ensures { result ≡ earlier found (first (told holds at kind)) }
{
    if holds { told(found, at, kind) } else { found }
}

// Whether two counts differ.
fn differ(one: usize, other: usize) -> bool
    ensures { result ≡ spec.differ one other }
{
    one != other
}

// ---- values

// Mismatch at an offset where another sort is asked for.
fn sort_fault(
    wanted: Option<Sort>,
    at: usize,
    sort: Sort,
    found: Option<TypeFault>,
) -> Option<TypeFault>
    ensures { result ≡ earlier found (first (spec.sort_faults wanted at sort)) }
{
    match wanted {
        None => found,
        Some(wanted) => told_if(found, !same_sort(sort, wanted), at, TypeKind::Mismatch),
    }
}

/// The fault of a value in a place that asks for a sort, where it is known which.
pub fn value_fault(
    known: &Known,
    scope: &Locals,
    wanted: Option<Sort>,
    value: &Expr,
    found: Option<TypeFault>,
) -> Option<TypeFault>
    ensures { result ≡ earlier found (first (spec.value_faults wanted (part known.now scope.now value.now))) }
{
    match sort_of_expr(known, scope, value) {
        Err(fault) => earlier(found, Some(fault)),
        Ok(sort) => sort_fault(wanted, place(value), sort, found),
    }
}

/// The fault of a condition, which is a bool.
pub fn condition_fault(
    known: &Known,
    scope: &Locals,
    condition: &Expr,
    found: Option<TypeFault>,
) -> Option<TypeFault>
    ensures { result ≡ earlier found (first (spec.condition_faults known.now scope.now condition.now)) }
{
    value_fault(known, scope, Some(bool_sort()), condition, found)
}

/// The fault of a guard.
pub fn guard_fault(
    known: &Known,
    scope: &Locals,
    guard: &Guard,
    found: Option<TypeFault>,
) -> Option<TypeFault>
    ensures { result ≡ earlier found (first (spec.guard_faults known.now scope.now guard.now)) }
{
    match guard {
        Guard::Any { .. } => found,
        Guard::Condition { condition } => condition_fault(known, scope, condition, found),
    }
}

/// The first fault of the invariants of a `while`.
pub fn invariants_fault(
    known: &Known,
    scope: &Locals,
    invariants: &[Invariant],
    found: Option<TypeFault>,
) -> Option<TypeFault>
    ensures { result ≡ earlier found (first (flat_map (λ i. spec.condition_faults known.now scope.now i.condition) invariants.now)) }
{
    let mut so_far = found;
    for invariant in invariants {
        so_far = condition_fault(known, scope, &invariant.condition, so_far);
    }
    so_far
}

// ---- targets

// The fault of a name that changes, by what it stands for.
fn seen_fault(
    scope: &Locals,
    at: usize,
    seen: &Option<(Var, Sort)>,
    found: Option<TypeFault>,
) -> Option<TypeFault>
    ensures { result ≡ earlier found (first (spec.seen_faults scope.now at seen.now)) }
{
    match seen {
        None => told(found, at, TypeKind::Unknown),
        Some(seen) => told_if(
            found,
            !scope.is_assignable(seen.0),
            at,
            TypeKind::NotAssignable,
        ),
    }
}

/// The first fault of names that change.
pub fn names_fault(
    known: &Known,
    scope: &Locals,
    names: &[Name],
    found: Option<TypeFault>,
) -> Option<TypeFault>
    ensures { result ≡ earlier found (first (flat_map (spec.name_faults known.now scope.now) names.now)) }
{
    let mut so_far = found;
    for name in names {
        let seen = known.find(scope, name.text.as_slice());
        so_far = seen_fault(scope, name.at, &seen, so_far);
    }
    so_far
}

// The fault of an index of a variable of a sort, whose name stands at an offset.
fn index_of_fault(
    known: &Known,
    scope: &Locals,
    at: usize,
    sort: Sort,
    index: &Expr,
    found: Option<TypeFault>,
) -> Option<TypeFault>
    ensures { result ≡ earlier found (first (spec.index_of_faults at sort (part known.now scope.now index.now))) }
{
    match sort.kind() {
        SortKind::Scalar(_) => {
            let so_far = told(found, at, TypeKind::Mismatch);
            value_fault(known, scope, None, index, so_far)
        }
        SortKind::Map {
            index: wanted,
            elem: _,
        } => value_fault(known, scope, Some(Sort::scalar(wanted)), index, found),
    }
}

// The fault of the index of a target, if there is one.
fn index_fault(
    known: &Known,
    scope: &Locals,
    at: usize,
    seen: &Option<(Var, Sort)>,
    index: &Option<Expr>,
    found: Option<TypeFault>,
) -> Option<TypeFault>
    ensures { result ≡ earlier found (first (spec.index_faults at seen.now (option_map (part known.now scope.now) index.now))) }
{
    match index {
        None => found,
        Some(index) => match seen {
            None => value_fault(known, scope, None, index, found),
            Some(seen) => index_of_fault(known, scope, at, seen.1, index, found),
        },
    }
}

// The first fault of a target.
fn target_fault(
    known: &Known,
    scope: &Locals,
    target: &Target,
    found: Option<TypeFault>,
) -> Option<TypeFault>
    ensures { result ≡ earlier found (first (spec.target_faults known.now scope.now target.now)) }
{
    let seen = known.find(scope, target.name.text.as_slice());
    let so_far = seen_fault(scope, target.name.at, &seen, found);
    index_fault(known, scope, target.name.at, &seen, &target.index, so_far)
}

// The first fault of targets.
fn targets_fault(
    known: &Known,
    scope: &Locals,
    targets: &[Target],
    found: Option<TypeFault>,
) -> Option<TypeFault>
    ensures { result ≡ earlier found (first (flat_map (spec.target_faults known.now scope.now) targets.now)) }
{
    let mut so_far = found;
    for target in targets {
        so_far = target_fault(known, scope, target, so_far);
    }
    so_far
}

// The sort of the elements of a map.
fn element(sort: Sort) -> Option<Sort>
    ensures { result ≡ spec.element sort }
{
    match sort.kind() {
        SortKind::Scalar(_) => None,
        SortKind::Map { index: _, elem } => Some(Sort::scalar(elem)),
    }
}

// The sort that the value of a target is to have, where it is known.
fn target_sort(known: &Known, scope: &Locals, target: &Target) -> Option<Sort>
    ensures { result ≡ spec.sort_of_target known.now scope.now target.now }
{
    match known.find(scope, target.name.text.as_slice()) {
        None => None,
        Some(seen) => match &target.index {
            None => Some(seen.1),
            Some(_) => element(seen.1),
        },
    }
}

// The same of the target of a number, if there is one.
fn target_sort_at(known: &Known, scope: &Locals, targets: &[Target], number: usize) -> Option<Sort>
    ensures { result ≡ option_and_then (spec.sort_of_target known.now scope.now) (slice_get targets.now number) }
{
    match at(targets, number) {
        None => None,
        Some(target) => target_sort(known, scope, target),
    }
}

// ---- assignments

// The first fault of the values of an assignment.
fn assigned_fault(
    known: &Known,
    scope: &Locals,
    targets: &[Target],
    values: &[Expr],
    found: Option<TypeFault>,
) -> Option<TypeFault>
    ensures { result ≡ earlier found (first (spec.values_faults (map (spec.sort_of_target known.now scope.now) targets.now) (map (part known.now scope.now) values.now))) }
{
    let mut so_far = found;
    for (number, value) in values.iter().enumerate() {
        let wanted = target_sort_at(known, scope, targets, number);
        so_far = value_fault(known, scope, wanted, value, so_far);
    }
    so_far
}

// The names of targets.
fn target_names(alloc: Global, targets: &[Target]) -> Result<Vec<&Name>, AllocError>
    ensures { IfOk result (λ names. map (λ n. n.now) names.items ≡ map (λ t. t.name) targets.now) }
{
    let mut names = Vec::new(alloc);
    for target in targets {
        names.push(&target.name)?;
    }
    Ok(names)
}

/// The first fault of an assignment whose first target stands at an offset.
pub fn assign_fault(
    alloc: Global,
    known: &Known,
    scope: &Locals,
    at: usize,
    targets: &[Target],
    values: &[Expr],
    found: Option<TypeFault>,
) -> Result<Option<TypeFault>, AllocError>
    ensures { IfOk result (λ answer. answer ≡ earlier found (first (spec.assign_faults known.now scope.now at targets.now values.now))) }
{
    let names = target_names(alloc, targets)?;
    let twice = repeats(alloc, names.as_slice())?;
    let counted = told_if(
        found,
        differ(targets.len(), values.len()),
        at,
        TypeKind::Arity,
    );
    let named = targets_fault(known, scope, targets, counted);
    let so_far = earlier(named, twice);
    Ok(assigned_fault(known, scope, targets, values, so_far))
}

// ---- calls

// A sort of a list, by its number.
fn sort_at(sorts: &[Sort], number: usize) -> Option<Sort>
    ensures { result ≡ slice_get sorts.now number }
{
    match at(sorts, number) {
        None => None,
        Some(sort) => Some(*sort),
    }
}

// The fault of a target of a call that takes an out of a sort, where there is one.
fn out_fault(
    known: &Known,
    scope: &Locals,
    wanted: Option<Sort>,
    name: &Name,
    found: Option<TypeFault>,
) -> Option<TypeFault>
    ensures { result ≡ earlier found (first (out_faults known.now scope.now wanted name.now)) }
{
    match wanted {
        None => found,
        Some(sort) => match known.find(scope, name.text.as_slice()) {
            None => found,
            Some(seen) => {
                let differs = !same_sort(seen.1, sort);
                told_if(found, differs, name.at, TypeKind::Mismatch)
            }
        },
    }
}

// The first fault of targets of a call that have not the sorts of the outs.
fn outs_fault(
    known: &Known,
    scope: &Locals,
    outs: &[Sort],
    names: &[Name],
    found: Option<TypeFault>,
) -> Option<TypeFault>
    ensures { result ≡ earlier found (first (spec.outs_faults known.now scope.now outs.now names.now)) }
{
    let mut so_far = found;
    for (number, name) in names.iter().enumerate() {
        so_far = out_fault(known, scope, sort_at(outs, number), name, so_far);
    }
    so_far
}

// The first fault of the arguments of a call whose ins have these sorts.
fn arguments_fault(
    known: &Known,
    scope: &Locals,
    ins: &[Sort],
    arguments: &[Expr],
    found: Option<TypeFault>,
) -> Option<TypeFault>
    ensures { result ≡ earlier found (first (spec.values_faults (map Some ins.now) (map (part known.now scope.now) arguments.now))) }
{
    let mut so_far = found;
    for (number, argument) in arguments.iter().enumerate() {
        so_far = value_fault(known, scope, sort_at(ins, number), argument, so_far);
    }
    so_far
}

// Whether a call has too few or too many arguments or targets.
fn counts_differ(heading: &Heading, outs: &[Name], arguments: &[Expr]) -> bool
    ensures { result ≡ (spec.differ (length heading.now.ins) (length arguments.now) || spec.differ (length heading.now.outs) (length outs.now)) }
{
    differ(heading.ins.len(), arguments.len()) || differ(heading.outs.len(), outs.len())
}

// The first fault of a call of a procedure that is known, whose name stands at an offset.
fn heading_fault(
    known: &Known,
    scope: &Locals,
    at: usize,
    heading: &Heading,
    outs: &[Name],
    arguments: &[Expr],
    found: Option<TypeFault>,
) -> Option<TypeFault>
    ensures { result ≡ earlier found (first (spec.called_faults known.now scope.now at (Some heading.now) outs.now (map (part known.now scope.now) arguments.now))) }
{
    let differs = counts_differ(heading, outs, arguments);
    let counted = told_if(found, differs, at, TypeKind::Arity);
    let no_body = TypeKind::LeftOut { what: Word::NoBody };
    let formed = told_if(counted, !heading.has_body, at, no_body);
    let taken = outs_fault(known, scope, heading.outs.as_slice(), outs, formed);
    arguments_fault(known, scope, heading.ins.as_slice(), arguments, taken)
}

// The first fault of a call, but for those of its targets alone.
fn called_fault(
    known: &Known,
    scope: &Locals,
    procedure: &Name,
    outs: &[Name],
    arguments: &[Expr],
    found: Option<TypeFault>,
) -> Option<TypeFault>
    ensures { result ≡ earlier found (first (spec.called_faults known.now scope.now procedure.now.at (procedure_named known.now procedure.now.text) outs.now (map (part known.now scope.now) arguments.now))) }
{
    match known.procedure(procedure.text.as_slice()) {
        None => {
            let so_far = told(found, procedure.at, TypeKind::Unknown);
            arguments_fault(known, scope, &[], arguments, so_far)
        }
        Some(heading) => heading_fault(known, scope, procedure.at, heading, outs, arguments, found),
    }
}

// Names as references to them.
fn name_refs(alloc: Global, names: &[Name]) -> Result<Vec<&Name>, AllocError>
    ensures { IfOk result (λ refs. map (λ n. n.now) refs.items ≡ names.now) }
{
    let mut refs = Vec::new(alloc);
    for name in names {
        refs.push(name)?;
    }
    Ok(refs)
}

/// The first fault of a call.
pub fn call_fault(
    alloc: Global,
    known: &Known,
    scope: &Locals,
    outs: &[Name],
    procedure: &Name,
    arguments: &[Expr],
    found: Option<TypeFault>,
) -> Result<Option<TypeFault>, AllocError>
    ensures { IfOk result (λ answer. answer ≡ earlier found (first (spec.call_faults known.now scope.now outs.now procedure.now arguments.now))) }
{
    let refs = name_refs(alloc, outs)?;
    let twice = repeats(alloc, refs.as_slice())?;
    let named = names_fault(known, scope, outs, found);
    let so_far = earlier(named, twice);
    Ok(called_fault(known, scope, procedure, outs, arguments, so_far))
}
