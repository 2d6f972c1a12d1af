//! Numbers of nodes of expressions once functions are replaced, counted up to a bound.
//!
//! The number of an expression of a function depends on those of the arguments: it is a base, and so
//! many times each. A use of a function counts its base, and each argument as many times, so that
//! each expression is passed once, and nothing is built.

ghost use Rattle.std.specs.Prelude.{◌≡◌, ◌+◌, ◌*◌, ◌<◌, ℕ, map, min, drop, length, OnOk};
ghost use Rattle.std.specs.List.{slice_index_or};
ghost use Rattle.std.specs.Option.{option_copied};
ghost use Rattle.bpl_type.specs.Counts.{affine_at, sloped};
ghost use Rattle.type_pass.specs.Scopes.{find_name};
ghost use Rattle.bpl_type.specs.Tallies.{Adds, noted_template, templates_of, weight_in, bracket_weight_in, weights_in, use_weight_in};
ghost use Rattle.bpl_type.specs.Weights.{chain_weight, rest_weight, all_weights, read_weight, operated_weight, argument_weight, operand_weight};

use bpl_ast::{Bracket, Expr, Name};
use hy_val::Var;
use sqlite_items::{Items, at};
use std::alloc::AllocError;
use type_pass::known::{Known, Locals};
use type_pass::tables::{Builtin, Meaning};

/// A number of nodes that depends on those of the locals: a base, and so many times each.
#[derive(Drop)]
pub struct Tally {
    /// What doesn't depend on them.
    pub base: u64,
    /// How many times each local counts; one behind the last counts never.
    pub slopes: Items<u64>,
}

/// Where nodes are counted.
#[derive(Drop)]
pub struct Counting<'a> {
    /// The names of the program.
    pub known: &'a Known<'a>,
    /// The names of the scope.
    pub scope: &'a Locals<'a>,
    /// What each function counts, in the order of the functions.
    pub templates: &'a [Tally],
    /// The bound: greater numbers count as it.
    pub most: u64,
    /// Whether each local is one node, as in an expression that is in no function.
    pub whole: bool,
}

/// A sum up to a bound.
pub fn plus(a: u64, b: u64, most: u64) -> u64
    ensures { result ≡ min (a + b) most }
{
    a.saturating_add(b).min(most)
}

// A product up to a bound.
fn times(a: u64, b: u64, most: u64) -> u64
    ensures { result ≡ min (a * b) most }
{
    a.saturating_mul(b).min(most)
}

// ---- nodes and locals

// So many nodes more.
fn add_nodes(counting: &Counting, weight: u64, tally: &mut Tally)
    ensures base { tally.new.base ≡ min (tally.old.base + weight) counting.now.most }
    ensures slopes { tally.new.slopes ≡ tally.old.slopes }
{
    tally.base = plus(tally.base, weight, counting.most);
}

// A node so many times more.
fn one_node(counting: &Counting, weight: u64, tally: &mut Tally) -> Result<(), AllocError>
    ensures { OnOk result (Adds counting.now weight (λ v. 1) tally.old tally.new) }
{
    add_nodes(counting, weight, tally);
    Ok(())
}

// A local gets its slope, which is none at first.
fn make_room(slopes: &mut Items<u64>, local: usize) -> Result<(), AllocError>
    ensures room { OnOk result (local < length slopes.new) }
    ensures same { OnOk result ((i : ℕ) → (v : ℕ → ℕ) → sloped slopes.new i v ≡ sloped slopes.old i v) }
{
    while slopes.len() <= local {
        slopes.push(0)?;
    }
    Ok(())
}

fn slope_of(slopes: &[u64], local: usize) -> u64
    ensures { result ≡ slice_index_or slopes.now local 0 }
{
    match slopes.get(local) {
        None => 0,
        Some(slope) => *slope,
    }
}

// The slope of a local is raised.
fn raise(
    counting: &Counting,
    weight: u64,
    local: usize,
    tally: &mut Tally,
) -> Result<(), AllocError>
    ensures { OnOk result (Adds counting.now weight (λ v. v local) tally.old tally.new) }
{
    make_room(&mut tally.slopes, local)?;
    let slope = slope_of(tally.slopes.as_slice(), local);
    tally.slopes.set(local, plus(slope, weight, counting.most));
    Ok(())
}

// A local so many times more.
fn add_local(
    counting: &Counting,
    weight: u64,
    local: usize,
    tally: &mut Tally,
) -> Result<(), AllocError>
    ensures { OnOk result (Adds counting.now weight (λ v. v local) tally.old tally.new) }
{
    if counting.whole {
        one_node(counting, weight, tally)
    } else {
        raise(counting, weight, local, tally)
    }
}

// A variable so many times more.
fn add_read(
    counting: &Counting,
    weight: u64,
    name: &Name,
    tally: &mut Tally,
) -> Result<(), AllocError>
    ensures { OnOk result (Adds counting.now weight (λ v. read_weight v (find_name counting.now.known.now counting.now.scope.now name.now.text)) tally.old tally.new) }
{
    match counting.known.find(counting.scope, name.text.as_slice()) {
        None => one_node(counting, weight, tally),
        Some((var, _)) => match var {
            Var::Const(_) => one_node(counting, weight, tally),
            Var::Global(_) => one_node(counting, weight, tally),
            Var::Local(local) => add_local(counting, weight, local as usize, tally),
        },
    }
}

// ---- expressions

/// Counts an expression so many times. The recursion goes down the tree, which the reader bounds;
/// chains and brackets are lists.
#[cycle(counting)]
#[tactic(auto, using(crate::proofs::WeightEquations::weights))]
pub fn count(
    counting: &Counting,
    weight: u64,
    expr: &Expr,
    tally: &mut Tally,
) -> Result<(), AllocError>
    ensures { OnOk result (Adds counting.now weight (weight_in counting.now expr.now) tally.old tally.new) }
{
    match expr {
        Expr::True { .. } => one_node(counting, weight, tally),
        Expr::False { .. } => one_node(counting, weight, tally),
        Expr::Literal { .. } => one_node(counting, weight, tally),
        Expr::Variable { name } => add_read(counting, weight, name, tally),
        Expr::Apply {
            function,
            arguments,
        } => count_use(counting, weight, function, arguments.as_slice(), tally),
        Expr::Post {
            operand,
            brackets,
            ..
        } => {
            count(counting, weight, operand.get(), tally)?;
            count_brackets(counting, weight, brackets.as_slice(), tally)
        }
        Expr::Not { operand, .. } => {
            count(counting, weight, operand.get(), tally)?;
            one_node(counting, weight, tally)
        }
        Expr::Concat { operands, .. } => {
            count_chain(counting, weight, operands.as_slice(), tally)
        }
        Expr::Equal { left, right, .. } => {
            count(counting, weight, left.get(), tally)?;
            count(counting, weight, right.get(), tally)?;
            one_node(counting, weight, tally)
        }
        Expr::NotEqual { left, right, .. } => {
            count(counting, weight, left.get(), tally)?;
            count(counting, weight, right.get(), tally)?;
            one_node(counting, weight, tally)
        }
        Expr::And { operands, .. } => count_chain(counting, weight, operands.as_slice(), tally),
        Expr::Or { operands, .. } => count_chain(counting, weight, operands.as_slice(), tally),
        Expr::Implies { left, right, .. } => {
            count(counting, weight, left.get(), tally)?;
            count(counting, weight, right.get(), tally)?;
            one_node(counting, weight, tally)
        }
        Expr::ImpliedBy { operands, .. } => {
            count_chain(counting, weight, operands.as_slice(), tally)
        }
        Expr::Equivalent { operands, .. } => {
            count_chain(counting, weight, operands.as_slice(), tally)
        }
        Expr::Choice {
            condition,
            yes,
            no,
            ..
        } => {
            count(counting, weight, condition.get(), tally)?;
            count(counting, weight, yes.get(), tally)?;
            count(counting, weight, no.get(), tally)?;
            one_node(counting, weight, tally)
        }
    }
}

// Operands after the first, each with the node that joins it.
#[cycle(counting)]
fn count_rest(
    counting: &Counting,
    weight: u64,
    operands: &[Expr],
    tally: &mut Tally,
) -> Result<(), AllocError>
    ensures { OnOk result (Adds counting.now weight (rest_weight (map (weight_in counting.now) (drop 1 operands.now))) tally.old tally.new) }
{
    for number in 1..operands.len() {
        count(counting, weight, &operands[number], tally)?;
        one_node(counting, weight, tally)?;
    }
    Ok(())
}

// Operands that group from the left.
#[cycle(counting)]
fn count_chain(
    counting: &Counting,
    weight: u64,
    operands: &[Expr],
    tally: &mut Tally,
) -> Result<(), AllocError>
    ensures { OnOk result (Adds counting.now weight (chain_weight (map (weight_in counting.now) operands.now)) tally.old tally.new) }
{
    match operands {
        [] => one_node(counting, weight, tally),
        [first, ..] => {
            count(counting, weight, first, tally)?;
            count_rest(counting, weight, operands, tally)
        }
    }
}

// Brackets after an operand.
#[cycle(counting)]
fn count_brackets(
    counting: &Counting,
    weight: u64,
    brackets: &[Bracket],
    tally: &mut Tally,
) -> Result<(), AllocError>
    ensures { OnOk result (Adds counting.now weight (all_weights (map (bracket_weight_in counting.now) brackets.now)) tally.old tally.new) }
{
    for bracket in brackets {
        count_bracket(counting, weight, bracket, tally)?;
    }
    Ok(())
}

// What a bracket adds to what stands before it.
#[cycle(counting)]
#[tactic(auto, using(crate::proofs::WeightEquations::weights))]
fn count_bracket(
    counting: &Counting,
    weight: u64,
    bracket: &Bracket,
    tally: &mut Tally,
) -> Result<(), AllocError>
    ensures { OnOk result (Adds counting.now weight (bracket_weight_in counting.now bracket.now) tally.old tally.new) }
{
    match bracket {
        Bracket::Select { index } => {
            count(counting, weight, index, tally)?;
            one_node(counting, weight, tally)
        }
        Bracket::Store { index, value } => {
            count(counting, weight, index, tally)?;
            count(counting, weight, value, tally)?;
            one_node(counting, weight, tally)
        }
        Bracket::Extract { .. } => one_node(counting, weight, tally),
    }
}

// ---- uses of functions

// The first argument of an operator, which is one node where it isn't there.
#[cycle(counting)]
fn count_first(
    counting: &Counting,
    weight: u64,
    arguments: &[Expr],
    tally: &mut Tally,
) -> Result<(), AllocError>
    ensures { OnOk result (Adds counting.now weight (λ v. operand_weight (weights_in counting.now arguments.now v) 0) tally.old tally.new) }
{
    match arguments {
        [] => one_node(counting, weight, tally),
        [first, ..] => count(counting, weight, first, tally),
    }
}

// The second argument of an operator.
#[cycle(counting)]
fn count_second(
    counting: &Counting,
    weight: u64,
    arguments: &[Expr],
    tally: &mut Tally,
) -> Result<(), AllocError>
    ensures { OnOk result (Adds counting.now weight (λ v. operand_weight (weights_in counting.now arguments.now v) 1) tally.old tally.new) }
{
    match arguments {
        [_, second, ..] => count(counting, weight, second, tally),
        _ => one_node(counting, weight, tally),
    }
}

// An operator of the arguments that it asks for.
#[cycle(counting)]
fn count_operator(
    counting: &Counting,
    weight: u64,
    builtin: Builtin,
    arguments: &[Expr],
    tally: &mut Tally,
) -> Result<(), AllocError>
    ensures { OnOk result (Adds counting.now weight (λ v. operated_weight builtin (weights_in counting.now arguments.now v)) tally.old tally.new) }
{
    match builtin {
        Builtin::Unary(_) => {
            count_first(counting, weight, arguments, tally)?;
            one_node(counting, weight, tally)
        }
        Builtin::Binary(_) => {
            count_first(counting, weight, arguments, tally)?;
            count_second(counting, weight, arguments, tally)?;
            one_node(counting, weight, tally)
        }
    }
}

// An argument of a function, which stays a local where it isn't there.
#[cycle(counting)]
fn count_argument(
    counting: &Counting,
    weight: u64,
    arguments: &[Expr],
    local: usize,
    tally: &mut Tally,
) -> Result<(), AllocError>
    ensures { OnOk result (Adds counting.now weight (λ v. argument_weight v (weights_in counting.now arguments.now v) local) tally.old tally.new) }
{
    if local < arguments.len() {
        count(counting, weight, &arguments[local], tally)
    } else {
        add_local(counting, weight, local, tally)
    }
}

// The body of a function with its arguments: the base, and each argument as many times as it is read.
#[cycle(counting)]
fn count_body(
    counting: &Counting,
    weight: u64,
    template: &Tally,
    arguments: &[Expr],
    tally: &mut Tally,
) -> Result<(), AllocError>
    ensures { OnOk result (Adds counting.now weight (λ v. affine_at template.now.base template.now.slopes (argument_weight v (weights_in counting.now arguments.now v))) tally.old tally.new) }
{
    let base = times(weight, template.base, counting.most);
    add_nodes(counting, base, tally);
    for (local, slope) in template.slopes.as_slice().iter().enumerate() {
        let part = times(weight, *slope, counting.most);
        count_argument(counting, part, arguments, local, tally)?;
    }
    Ok(())
}

// What a function counts, by its name.
fn template_of<'a>(counting: &Counting<'a>, text: &[u8]) -> Option<&'a Tally>
    ensures { noted_template (option_copied result) ≡ templates_of counting.now.known.now counting.now.templates.now text.now }
{
    match counting.known.function_number(text) {
        None => None,
        Some(number) => at(counting.templates, number),
    }
}

// A use of a function: an operator of its arguments, or its body with the arguments.
#[cycle(counting)]
fn count_use(
    counting: &Counting,
    weight: u64,
    function: &Name,
    arguments: &[Expr],
    tally: &mut Tally,
) -> Result<(), AllocError>
    ensures { OnOk result (Adds counting.now weight (use_weight_in counting.now function.now.text arguments.now) tally.old tally.new) }
{
    let text = function.text.as_slice();
    match counting.known.function(text) {
        None => one_node(counting, weight, tally),
        Some(signature) => match signature.meaning {
            Meaning::Nothing => one_node(counting, weight, tally),
            Meaning::Operator(builtin) => {
                count_operator(counting, weight, builtin, arguments, tally)
            }
            Meaning::Body => match template_of(counting, text) {
                None => Ok(()),
                Some(template) => count_body(counting, weight, template, arguments, tally),
            },
        },
    }
}
