//! Programs without faults, and their expressions.

ghost use Rattle.std.specs.Prelude.{◌≡◌, [], map, option_map, Some, IfOk, IsTrue};
ghost use Rattle.std.specs.List.{list_all};
ghost use Rattle.hy_val.specs.Exprs.{is_expr};
ghost use Rattle.type_pass.specs.Declarations.{functions};
ghost use Rattle.bpl_type.specs.Making.{bodies_of};
ghost use Rattle.type_pass.specs.Passes.{heads_faults, commands_faults, circle_faults};
ghost use Rattle.type_pass.specs.Replaced.{term_of};
ghost use Rattle.type_pass.specs.Scopes.{tables_of, find_name};
ghost use Rattle.type_pass.specs.Terms.{nodes_of};
ghost use Rattle.bpl_type.specs.TypedOf.{var_of, assigned, pairs_of};
ghost use Rattle.bpl_type.specs.WellMade.{expr_in};

use crate::nodes::{Made, last, push_read, push_store};
use crate::writing::{Place, write};
use bpl_ast::{Ast, Expr, Name, Target};
use hy_val::Var;
use sqlite_items::{Items, at};
use std::alloc::{AllocError, Global};
use type_pass::known::{Known, Locals};

/// A program without faults, with its names and the bodies of its functions.
#[derive(Drop)]
pub struct Program<'a> {
    /// The program.
    pub ast: &'a Ast,
    /// Its names.
    pub known: &'a Known<'a>,
    /// The bodies of its functions, in their order.
    pub bodies: &'a [Made],
    /// The names are those of the program.
    pub ghost names: { known.now ≡ tables_of ast.now },
    /// So are the bodies.
    pub ghost has_bodies: { bodies.now ≡ bodies_of ast.now },
    /// Heads fit.
    pub ghost heads: { heads_faults ast.now ≡ [] },
    /// Expressions and commands fit.
    pub ghost commands: { commands_faults ast.now ≡ [] },
    /// No function uses itself.
    pub ghost circles: { circle_faults ast.now ≡ [] },
}

/// An expression, which has a sort.
pub fn expression(
    alloc: Global,
    program: &Program,
    scope: &Locals,
    expr: &Expr,
) -> Result<hy_val::Expr, AllocError>
    requires { IsTrue (is_expr (expr_in program.now.ast.now scope.now expr.now)) }
    ensures { IfOk result (λ e. e ≡ expr_in program.now.ast.now scope.now expr.now) }
{
    let place = Place {
        known: program.known,
        bodies: program.bodies,
        scope,
    };
    let mut nodes = Items::new(alloc);
    write(alloc, &place, expr, &mut nodes)?;
    Ok(hy_val::Expr::new(nodes))
}

/// Expressions in order, which have sorts.
pub fn expressions(
    alloc: Global,
    program: &Program,
    scope: &Locals,
    exprs: &[Expr],
) -> Result<Items<hy_val::Expr>, AllocError>
    requires { IsTrue (list_all is_expr (map (expr_in program.now.ast.now scope.now) exprs.now)) }
    ensures { IfOk result (λ es. es ≡ map (expr_in program.now.ast.now scope.now) exprs.now) }
{
    let mut made = Items::new(alloc);
    for expr in exprs {
        made.push(expression(alloc, program, scope, expr)?)?;
    }
    Ok(made)
}

/// The variable of a name; some variable where there is none.
pub fn variable(program: &Program, scope: &Locals, name: &Name) -> Var
    ensures { result ≡ var_of (tables_of program.now.ast.now) scope.now name.now }
{
    match program.known.find(scope, name.text.as_slice()) {
        None => Var::Local(0),
        Some(seen) => seen.0,
    }
}

/// The variables of names in order.
pub fn variables(
    alloc: Global,
    program: &Program,
    scope: &Locals,
    names: &[Name],
) -> Result<Items<Var>, AllocError>
    ensures { IfOk result (λ vars. vars ≡ map (var_of (tables_of program.now.ast.now) scope.now) names.now) }
{
    let mut vars = Items::new(alloc);
    for name in names {
        vars.push(variable(program, scope, name))?;
    }
    Ok(vars)
}

// The map of a name with a value at an index.
fn entry(
    alloc: Global,
    program: &Program,
    scope: &Locals,
    name: &Name,
    index: &Expr,
    value: &Expr,
) -> Result<hy_val::Expr, AllocError>
    requires { IsTrue (is_expr (nodes_of (assigned (find_name (tables_of program.now.ast.now) scope.now name.now.text) (Some (term_of (tables_of program.now.ast.now) (functions program.now.ast.now) scope.now index.now)) (term_of (tables_of program.now.ast.now) (functions program.now.ast.now) scope.now value.now)))) }
    ensures { IfOk result (λ e. e ≡ nodes_of (assigned (find_name (tables_of program.now.ast.now) scope.now name.now.text) (Some (term_of (tables_of program.now.ast.now) (functions program.now.ast.now) scope.now index.now)) (term_of (tables_of program.now.ast.now) (functions program.now.ast.now) scope.now value.now))) }
{
    let place = Place {
        known: program.known,
        bodies: program.bodies,
        scope,
    };
    let mut nodes = Items::new(alloc);
    push_read(&mut nodes, program.known.find(scope, name.text.as_slice()))?;
    let table = last(&nodes);
    write(alloc, &place, index, &mut nodes)?;
    let key = last(&nodes);
    write(alloc, &place, value, &mut nodes)?;
    push_store(&mut nodes, table, key)?;
    Ok(hy_val::Expr::new(nodes))
}

// The new value of a target's variable.
fn new_value(
    alloc: Global,
    program: &Program,
    scope: &Locals,
    target: &Target,
    value: &Expr,
) -> Result<hy_val::Expr, AllocError>
    requires { IsTrue (is_expr (nodes_of (assigned (find_name (tables_of program.now.ast.now) scope.now target.now.name.text) (option_map (term_of (tables_of program.now.ast.now) (functions program.now.ast.now) scope.now) target.now.index) (term_of (tables_of program.now.ast.now) (functions program.now.ast.now) scope.now value.now)))) }
    ensures { IfOk result (λ e. e ≡ nodes_of (assigned (find_name (tables_of program.now.ast.now) scope.now target.now.name.text) (option_map (term_of (tables_of program.now.ast.now) (functions program.now.ast.now) scope.now) target.now.index) (term_of (tables_of program.now.ast.now) (functions program.now.ast.now) scope.now value.now))) }
{
    match &target.index {
        None => expression(alloc, program, scope, value),
        Some(index) => entry(alloc, program, scope, &target.name, index, value),
    }
}

/// The variables of targets with their new values.
pub fn pairs(
    alloc: Global,
    program: &Program,
    scope: &Locals,
    targets: &[Target],
    values: &[Expr],
) -> Result<Items<(Var, hy_val::Expr)>, AllocError>
    requires { IsTrue (list_all (λ p. is_expr p.1) (pairs_of (tables_of program.now.ast.now) (functions program.now.ast.now) scope.now targets.now values.now)) }
    ensures { IfOk result (λ ps. ps ≡ pairs_of (tables_of program.now.ast.now) (functions program.now.ast.now) scope.now targets.now values.now) }
{
    let mut made = Items::new(alloc);
    for (number, target) in targets.iter().enumerate() {
        let Some(value) = at(values, number) else {
            return Ok(made);
        };
        let var = variable(program, scope, &target.name);
        made.push((var, new_value(alloc, program, scope, target, value)?))?;
    }
    Ok(made)
}
