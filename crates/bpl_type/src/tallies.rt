//! What the bodies of functions count, found in an order in which those that a body uses come first.

ghost use Rattle.std.specs.Prelude.{◌≡◌, [], map, length, IfOk};
ghost use Rattle.type_pass.specs.Declarations.{functions};
ghost use Rattle.type_pass.specs.Orders.{IsOrder};
ghost use Rattle.type_pass.specs.Passes.{heads_faults, commands_faults, circle_faults, use_graph};
ghost use Rattle.type_pass.specs.Scopes.{function_scope, tables_of};
ghost use Rattle.bpl_type.specs.Sizes.{CountsAs, CountsAt, AreTemplates, body_weight};
ghost use Rattle.bpl_type.specs.Tallies.{templates_of};
ghost use Rattle.bpl_type.specs.Weights.{weight_by};

use crate::count::{Counting, Tally, count};
use crate::templates::functions_of;
use bpl_ast::{Ast, Expr, Function};
use sqlite_items::{Items, at};
use std::alloc::{AllocError, Global};
use type_pass::known::{Known, Locals};
use type_pass::tables::Signature;

/// A tally that counts so many nodes and no locals.
pub fn nodes_alone(alloc: Global, nodes: u64) -> Tally
    ensures base { result.base ≡ nodes }
    ensures slopes { result.slopes ≡ [] }
{
    Tally {
        base: nodes,
        slopes: Items::new(alloc),
    }
}

// What a body counts by its arguments, where functions have these templates.
fn tally_of_body(
    alloc: Global,
    known: &Known,
    templates: &[Tally],
    most: u64,
    signature: &Signature,
    body: &Expr,
) -> Result<Tally, AllocError>
    ensures { IfOk result (λ tally. CountsAs most (weight_by (templates_of known.now templates.now) known.now (function_scope signature.now) body.now) tally) }
{
    let arguments = signature.arguments.as_slice();
    let scope = Locals::new(alloc, arguments, arguments.len(), false)?;
    let counting = Counting {
        known,
        scope: &scope,
        templates,
        most,
        whole: false,
    };
    let mut tally = nodes_alone(alloc, 0);
    count(&counting, 1, body, &mut tally)?;
    Ok(tally)
}

// What a function counts by its arguments; one node where it has no body.
fn tally_of_function(
    alloc: Global,
    known: &Known,
    templates: &[Tally],
    most: u64,
    signature: &Signature,
    function: &Function,
) -> Result<Tally, AllocError>
    ensures { IfOk result (λ tally. CountsAs most (body_weight (weight_by (templates_of known.now templates.now) known.now (function_scope signature.now)) function.now.body) tally) }
{
    match &function.body {
        None => Ok(nodes_alone(alloc, 1)),
        Some(body) => tally_of_body(alloc, known, templates, most, signature, body),
    }
}

// The same by the number of the function.
fn tally_at(
    alloc: Global,
    known: &Known,
    functions: &[&Function],
    templates: &[Tally],
    most: u64,
    number: usize,
) -> Result<Tally, AllocError>
    ensures { IfOk result (λ tally. CountsAt most known.now templates.now (map (λ f. f.now) functions.now) number tally) }
{
    let Some(function) = at(functions, number) else {
        return Ok(nodes_alone(alloc, 1));
    };
    let Some(signature) = at(known.functions(), number) else {
        return Ok(nodes_alone(alloc, 1));
    };
    tally_of_function(alloc, known, templates, most, signature, *function)
}

// As many tallies as there are functions.
fn no_tallies(alloc: Global, count: usize) -> Result<Items<Tally>, AllocError>
    ensures { IfOk result (λ tallies. length tallies ≡ count) }
{
    let mut tallies = Items::new(alloc);
    while tallies.len() < count {
        tallies.push(nodes_alone(alloc, 1))?;
    }
    Ok(tallies)
}

/// What the functions of a program without faults count, in the order of their declarations, up to a
/// bound. They are counted in an order of the graph of uses, so that each use meets a template that is
/// there.
pub fn tallies(
    alloc: Global,
    known: &Known,
    ast: &Ast,
    order: &[usize],
    most: u64,
) -> Result<Items<Tally>, AllocError>
    requires known { known.now ≡ tables_of ast.now }
    requires order { IsOrder (use_graph (functions ast.now)) order.now }
    requires heads { heads_faults ast.now ≡ [] }
    requires commands { commands_faults ast.now ≡ [] }
    requires circles { circle_faults ast.now ≡ [] }
    ensures { IfOk result (λ templates. AreTemplates most ast.now templates) }
{
    let functions = functions_of(alloc, ast)?;
    let mut templates = no_tallies(alloc, functions.len())?;
    for number in order {
        let tally = tally_at(
            alloc,
            known,
            functions.as_slice(),
            templates.as_slice(),
            most,
            *number,
        )?;
        templates.set(*number, tally);
    }
    Ok(templates)
}
