//! What a program without faults becomes, besides its constants and globals.

ghost use Rattle.std.specs.Prelude.{◌≡◌, [], map, IfOk};
ghost use Rattle.type_pass.specs.Commands.{condition_faults};
ghost use Rattle.type_pass.specs.Declarations.{synonyms, functions, axioms};
ghost use Rattle.bpl_type.specs.Parted.{parts_of};
ghost use Rattle.type_pass.specs.Passes.{heads_faults, commands_faults, circle_faults, use_graph};
ghost use Rattle.type_pass.specs.Scopes.{tables_of, axiom_scope};
ghost use Rattle.bpl_type.specs.WellMade.{expr_in};

use crate::procs::typed_procs;
use crate::program::{Program, expression};
use crate::templates::bodies;
use crate::typed::TypedProc;
use crate::uniques::uniques;
use bpl_ast::{Ast, Axiom, Decl};
use hy_val::Expr;
use sqlite_items::Items;
use std::alloc::{AllocError, Global};
use type_pass::known::{Known, Locals};
use type_pass::order::order;
use type_pass::types::Types;

/// The parts of a typed program besides its constants and globals.
#[derive(Drop)]
pub struct Parts {
    /// The numbers of the unique constants, ascending.
    pub uniques: Items<u32>,
    /// The axioms.
    pub axioms: Items<Expr>,
    /// The procedures.
    pub procs: Items<TypedProc>,
}

// An axiom without faults.
fn typed_axiom(alloc: Global, program: &Program, stated: &Axiom) -> Result<Expr, AllocError>
    requires { condition_faults (tables_of program.now.ast.now) axiom_scope stated.now.condition ≡ [] }
    ensures { IfOk result (λ made. made ≡ expr_in program.now.ast.now axiom_scope stated.now.condition) }
{
    let scope = Locals::new(alloc, &[], 0, false)?;
    expression(alloc, program, &scope, &stated.condition)
}

// The axioms, in the order of the text.
fn typed_axioms(alloc: Global, program: &Program) -> Result<Items<Expr>, AllocError>
    ensures { IfOk result (λ made. made ≡ map (λ a. expr_in program.now.ast.now axiom_scope a.condition) (axioms program.now.ast.now)) }
{
    let mut made = Items::new(alloc);
    for decl in program.ast.decls.as_slice() {
        if let Decl::Axiom(axiom) = decl {
            made.push(typed_axiom(alloc, program, axiom)?)?;
        }
    }
    Ok(made)
}

// The parts of a program whose functions have their bodies.
fn parts_of_program(alloc: Global, types: &Types, program: &Program) -> Result<Parts, AllocError>
    requires { types.now ≡ synonyms program.now.ast.now }
    ensures { IfOk result (λ made. made ≡ parts_of program.now.ast.now) }
{
    let uniques = uniques(alloc, program.ast)?;
    let axioms = typed_axioms(alloc, program)?;
    let procs = typed_procs(alloc, types, program)?;
    Ok(Parts {
        uniques,
        axioms,
        procs,
    })
}

/// The parts of a program without faults, by its types, its names and the graph of the uses of its
/// functions.
pub fn typed_parts(
    alloc: Global,
    types: &Types,
    known: &Known,
    ast: &Ast,
    graph: &[Items<usize>],
) -> Result<Parts, AllocError>
    requires types { types.now ≡ synonyms ast.now }
    requires known { known.now ≡ tables_of ast.now }
    requires graph { graph.now ≡ use_graph (functions ast.now) }
    requires heads { heads_faults ast.now ≡ [] }
    requires commands { commands_faults ast.now ≡ [] }
    requires circles { circle_faults ast.now ≡ [] }
    ensures { IfOk result (λ made. made ≡ parts_of ast.now) }
{
    let nodes = order(alloc, graph)?;
    let bodies = bodies(alloc, known, ast, nodes.as_slice())?;
    let program = Program {
        ast,
        known,
        bodies: bodies.as_slice(),
    };
    parts_of_program(alloc, types, &program)
}
