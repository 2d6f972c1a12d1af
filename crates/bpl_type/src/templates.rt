//! The bodies of functions as lists of nodes.

ghost use Rattle.std.specs.Prelude.{◌≡◌, ◌<◌, [], map, length, IfOk, OnOk};
ghost use Rattle.type_pass.specs.Declarations.{functions};
ghost use Rattle.bpl_type.specs.Making.{term_with, bodies_of};
ghost use Rattle.type_pass.specs.Orders.{IsOrder};
ghost use Rattle.type_pass.specs.Passes.{heads_faults, commands_faults, circle_faults, use_graph};
ghost use Rattle.type_pass.specs.Replaced.{body_term};
ghost use Rattle.type_pass.specs.Scopes.{function_scope, tables_of};
ghost use Rattle.bpl_type.specs.Templates.{IsFilled};
ghost use Rattle.type_pass.specs.Terms.{missing, nodes_of};

use crate::nodes::{Made, push_missing};
use crate::writing::{Place, write};
use bpl_ast::{Ast, Decl, Expr, Function};
use sqlite_items::{Items, at};
use std::alloc::{AllocError, Global};
use type_pass::known::{Known, Locals};
use type_pass::tables::Signature;

/// The functions, in the order of their declarations.
pub fn functions_of<'a>(alloc: Global, ast: &'a Ast) -> Result<Vec<&'a Function>, AllocError>
    ensures { IfOk result (λ found. map (λ f. f.now) found.items ≡ functions ast.now) }
{
    let mut found = Vec::new(alloc);
    for decl in ast.decls.as_slice() {
        if let Decl::Function(function) = decl {
            found.push(function)?;
        }
    }
    Ok(found)
}

// What stands for a body that isn't there.
fn missing_body(alloc: Global) -> Result<Made, AllocError>
    ensures { IfOk result (λ made. made ≡ nodes_of missing) }
{
    let mut nodes = Items::new(alloc);
    push_missing(&mut nodes)?;
    Ok(Made::new(nodes))
}

/// As many of them as there are functions.
pub fn missing_bodies(alloc: Global, count: usize) -> Result<Items<Made>, AllocError>
    ensures { IfOk result (λ bodies. length bodies ≡ count) }
{
    let mut bodies = Items::new(alloc);
    while bodies.len() < count {
        bodies.push(missing_body(alloc)?)?;
    }
    Ok(bodies)
}

// The nodes of a body.
fn written(
    alloc: Global,
    known: &Known,
    bodies: &[Made],
    signature: &Signature,
    body: &Expr,
) -> Result<Made, AllocError>
    ensures { IfOk result (λ made. made ≡ nodes_of (term_with known.now bodies.now (function_scope signature.now) body.now)) }
{
    let arguments = signature.arguments.as_slice();
    let scope = Locals::new(alloc, arguments, arguments.len(), false)?;
    let place = Place {
        known,
        bodies,
        scope: &scope,
    };
    let mut nodes = Items::new(alloc);
    write(alloc, &place, body, &mut nodes)?;
    Ok(Made::new(nodes))
}

/// The nodes of the body of a function, where functions have these bodies.
pub fn body_of_function(
    alloc: Global,
    known: &Known,
    bodies: &[Made],
    signature: &Signature,
    function: &Function,
) -> Result<Made, AllocError>
    ensures { IfOk result (λ made. made ≡ nodes_of (body_term (term_with known.now bodies.now (function_scope signature.now)) function.now.body)) }
{
    match &function.body {
        None => missing_body(alloc),
        Some(body) => written(alloc, known, bodies, signature, body),
    }
}

// The body of the function of a number takes its place.
fn fill(
    alloc: Global,
    known: &Known,
    functions: &[&Function],
    bodies: &mut Items<Made>,
    number: usize,
) -> Result<(), AllocError>
    requires { number < length bodies.old }
    ensures { OnOk result (IsFilled known.now (map (λ f. f.now) functions.now) number bodies.old bodies.new) }
{
    let Some(function) = at(functions, number) else {
        return Ok(());
    };
    let Some(signature) = at(known.functions(), number) else {
        return Ok(());
    };
    let made = body_of_function(alloc, known, bodies.as_slice(), signature, *function)?;
    bodies.set(number, made);
    Ok(())
}

/// The bodies of the functions of a program without faults, in the order of their declarations. They
/// are made in an order of the graph of uses, so that each use meets a body that is there.
pub fn bodies(
    alloc: Global,
    known: &Known,
    ast: &Ast,
    order: &[usize],
) -> Result<Items<Made>, AllocError>
    requires known { known.now ≡ tables_of ast.now }
    requires order { IsOrder (use_graph (functions ast.now)) order.now }
    requires heads { heads_faults ast.now ≡ [] }
    requires commands { commands_faults ast.now ≡ [] }
    requires circles { circle_faults ast.now ≡ [] }
    ensures { IfOk result (λ bodies. bodies ≡ bodies_of ast.now) }
{
    let functions = functions_of(alloc, ast)?;
    let mut bodies = missing_bodies(alloc, functions.len())?;
    for number in order {
        fill(alloc, known, functions.as_slice(), &mut bodies, *number)?;
    }
    Ok(bodies)
}
