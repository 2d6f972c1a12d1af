//! Checking a program: the first fault of the first pass that has one, else the typed program.

ghost use Rattle.std.specs.Prelude.{◌<◌, ◌^◌, ◌-◌, ◌≡◌, None, IfOk};
ghost use Rattle.std.specs.Option.{option_or};
ghost use Rattle.bpl_type.specs.Checked.{Gives, checked, checked_within, after_names, after_sorts};
ghost use Rattle.type_pass.specs.Declarations.{synonyms, functions};
ghost use Rattle.type_pass.specs.Faults.{first};
ghost use Rattle.bpl_type.specs.Parted.{TellsPast, GivesParts};
ghost use Rattle.type_pass.specs.Passes.{heads_faults, commands_faults, circle_faults, use_graph};
ghost use Rattle.type_pass.specs.Scopes.{tables_of};

use crate::parts::{Parts, typed_parts};
use crate::sizes::sizes_fault;
use crate::typed::Typed;
use bpl_ast::Ast;
use hy_text::Or;
use sqlite_items::Items;
use std::alloc::{AllocError, Global};
use type_pass::bodies::commands_fault;
use type_pass::fault::TypeFault;
use type_pass::heads::heads_fault;
use type_pass::known::Known;
use type_pass::sorts::sorts_fault;
use type_pass::tabled::tables;
use type_pass::tables::Tables;
use type_pass::twice::twice_fault;
use type_pass::types::Types;
use type_pass::uses::{circle_fault, graph_of_uses};

/// The greatest number of nodes of an expression once functions are replaced by their meaning.
pub const MAX_NODES: u64 = 10_000_000;

// The first fault of the passes behind that of sorts, sizes apart.
fn fault_after_sorts(
    alloc: Global,
    types: &Types,
    known: &Known,
    ast: &Ast,
    graph: &[Items<usize>],
) -> Result<Option<TypeFault>, AllocError>
    requires types { types.now ≡ synonyms ast.now }
    requires known { known.now ≡ tables_of ast.now }
    requires graph { graph.now ≡ use_graph (functions ast.now) }
    ensures { IfOk result (λ found. found ≡ option_or (first (heads_faults ast.now)) (option_or (first (commands_faults ast.now)) (first (circle_faults ast.now)))) }
{
    if let Some(fault) = heads_fault(alloc, types, known, ast)? {
        return Ok(Some(fault));
    }
    if let Some(fault) = commands_fault(alloc, known, types, ast)? {
        return Ok(Some(fault));
    }
    circle_fault(alloc, ast, graph)
}

// The first fault of the passes behind that of sorts.
fn fault_with_sizes(
    alloc: Global,
    types: &Types,
    known: &Known,
    ast: &Ast,
    graph: &[Items<usize>],
    limit: u64,
) -> Result<Option<TypeFault>, AllocError>
    requires types { types.now ≡ synonyms ast.now }
    requires known { known.now ≡ tables_of ast.now }
    requires graph { graph.now ≡ use_graph (functions ast.now) }
    requires limit { limit < 2 ^ 64 - 1 }
    ensures { IfOk result (TellsPast limit ast.now) }
{
    if let Some(fault) = fault_after_sorts(alloc, types, known, ast, graph)? {
        return Ok(Some(fault));
    }
    sizes_fault(alloc, types, known, ast, graph, limit)
}

// The same, or the parts of the typed program where there is none.
fn checked_parts(
    alloc: Global,
    types: &Types,
    known: &Known,
    ast: &Ast,
    limit: u64,
) -> Result<Parts, Or<TypeFault>>
    requires types { types.now ≡ synonyms ast.now }
    requires known { known.now ≡ tables_of ast.now }
    requires limit { limit < 2 ^ 64 - 1 }
    ensures { GivesParts limit ast.now result }
{
    let graph = graph_of_uses(alloc, ast)?;
    match fault_with_sizes(alloc, types, known, ast, graph.as_slice(), limit)? {
        Some(fault) => Err(Or::Fault(fault)),
        None => Ok(typed_parts(alloc, types, known, ast, graph.as_slice())?),
    }
}

// The same by the tables.
fn parts_by_tables(
    alloc: Global,
    types: &Types,
    tables: &Tables,
    ast: &Ast,
    limit: u64,
) -> Result<Parts, Or<TypeFault>>
    requires types { types.now ≡ synonyms ast.now }
    requires tables { tables.now ≡ tables_of ast.now }
    requires limit { limit < 2 ^ 64 - 1 }
    ensures { GivesParts limit ast.now result }
{
    let known = Known::new(alloc, tables)?;
    checked_parts(alloc, types, &known, ast, limit)
}

// The typed program of these parts, with the constants and globals of the tables.
fn whole(tables: Tables, parts: Parts) -> Typed
    ensures { result ≡ record { consts = tables.consts; uniques = parts.uniques; axioms = parts.axioms; globals = tables.globals; procs = parts.procs } }
{
    let Tables {
        consts,
        globals,
        ..
    } = tables;
    let Parts {
        uniques,
        axioms,
        procs,
    } = parts;
    Typed {
        consts,
        uniques,
        axioms,
        globals,
        procs,
    }
}

// The typed program, or the first fault of the passes behind that of sorts.
fn typed_by_types(
    alloc: Global,
    types: &Types,
    ast: &Ast,
    limit: u64,
) -> Result<Typed, Or<TypeFault>>
    requires types { types.now ≡ synonyms ast.now }
    requires limit { limit < 2 ^ 64 - 1 }
    ensures { Gives result (after_sorts limit ast.now None) }
{
    let tables = tables(alloc, types, ast)?;
    let parts = parts_by_tables(alloc, types, &tables, ast, limit)?;
    Ok(whole(tables, parts))
}

// The same with the fault of the pass of sorts.
fn typed_past_names(alloc: Global, ast: &Ast, limit: u64) -> Result<Typed, Or<TypeFault>>
    requires limit { limit < 2 ^ 64 - 1 }
    ensures { Gives result (after_names limit ast.now None) }
{
    let types = Types::new(alloc, ast)?;
    match sorts_fault(alloc, &types, ast)? {
        Some(fault) => Err(Or::Fault(fault)),
        None => typed_by_types(alloc, &types, ast, limit),
    }
}

// The same as `check`, with any limit on the nodes of an expression.
fn check_within(alloc: Global, ast: &Ast, limit: u64) -> Result<Typed, Or<TypeFault>>
    requires limit { limit < 2 ^ 64 - 1 }
    ensures { Gives result (checked_within limit ast.now) }
{
    match twice_fault(alloc, ast)? {
        Some(fault) => Err(Or::Fault(fault)),
        None => typed_past_names(alloc, ast, limit),
    }
}

/// The typed program of a tree, or the first fault of the first of five passes that has one. Of the
/// faults of a pass the one is told that stands first in the text, at its offset in bytes; at one
/// offset the kinds come in the order Unknown, Arity, Mismatch, Width, NotAssignable, Twice, LeftOut,
/// Cyclic, Large.
///
/// 1. Names: `Twice` at a name that is declared again in its space, among the names of one
///    declaration, or with a second body.
/// 2. Sorts: `Unknown` at a type that nothing declares, `Width` at widths past 64, `LeftOut` at maps
///    of maps and at unique maps, `Cyclic` at a type that stands for itself.
/// 3. Heads: `Unknown`, `Arity` and `Mismatch` at an implementation whose procedure is not declared
///    or has other sorts, `Mismatch` and `Width` at a `bvbuiltin` whose sorts don't fit, `Unknown`
///    after `modifies`.
/// 4. Expressions and commands: `Unknown`, `Arity`, `Mismatch`, `Width`, `NotAssignable`, `Twice` at
///    targets, and `LeftOut` at calls of what has no body or no meaning.
/// 5. Functions: `Cyclic` at one that uses itself; where there is none, `Large` at an expression of
///    more than `MAX_NODES` nodes once functions are replaced by their meaning.
///
/// 2^32 or more constants, globals, names of one scope or procedures with a body count as want of
/// memory.
pub fn check(alloc: Global, ast: &Ast) -> Result<Typed, Or<TypeFault>>
    ensures { Gives result (checked ast.now) }
{
    check_within(alloc, ast, MAX_NODES)
}
