//! The names of a program and of a scope, with their look-ups by hash.

ghost use Rattle.std.specs.Prelude.{◌≡◌, position, is_some, IfOk};
ghost use Rattle.std.specs.Option.{option_copied, option_or};
ghost use Rattle.std.specs.Str.{bytes_eq};
ghost use Rattle.type_pass.specs.Scopes as spec;
ghost use Rattle.type_pass.specs.Scopes.{body_number};

use crate::indexed::{Indexed, body_numbers, function_numbers, procedure_numbers};
use crate::numbers::Numbers;
use crate::tables::{Heading, Named, Scope, Signature, Tables};
use hy_val::{Sort, Var};
use sqlite_items::at;
use std::alloc::{AllocError, Global};
use std::marker::Model;

/// The names of a program. Contracts see its tables.
#[derive(Drop)]
pub struct Known<'a> {
    tables: &'a Tables,
    consts: Indexed<'a>,
    globals: Indexed<'a>,
    functions: Numbers<'a>,
    procedures: Numbers<'a>,
    bodies: Numbers<'a>,
}

impl<'a> Model for Known<'a> {
    ghost use Rattle.type_pass.specs.declared.tables.Tables.{Tables};
    ghost use Rattle.type_pass.specs.Indexes.{AreIndexes};

    ghost Value = { Tables };

    ghost view = { λ k. k.tables.now };

    ghost invariant = { λ k. AreIndexes k.tables.now k.consts k.globals k.functions k.procedures k.bodies };
}

/// The names of a scope besides the constants and globals. Contracts see the scope.
#[derive(Drop)]
pub struct Locals<'a> {
    names: Indexed<'a>,
    ins: usize,
    globals: bool,
}

impl<'a> Model for Locals<'a> {
    ghost use Rattle.type_pass.specs.declared.tables.Scope.{Scope};

    ghost Value = { Scope };

    ghost view = { λ l. record { locals = l.names; ins = l.ins; globals = l.globals } };
}

// A constant.
fn constant(names: &Indexed, text: &[u8]) -> Option<(Var, Sort)>
    ensures { result ≡ spec.seen_as (λ i. Var.Const i) names.now text.now }
{
    match names.seen(text) {
        None => None,
        Some(found) => Some((Var::Const(found.0), found.1)),
    }
}

// A global.
fn global(names: &Indexed, text: &[u8]) -> Option<(Var, Sort)>
    ensures { result ≡ spec.seen_as (λ i. Var.Global i) names.now text.now }
{
    match names.seen(text) {
        None => None,
        Some(found) => Some((Var::Global(found.0), found.1)),
    }
}

// A local.
fn local(names: &Indexed, text: &[u8]) -> Option<(Var, Sort)>
    ensures { result ≡ spec.seen_as (λ i. Var.Local i) names.now text.now }
{
    match names.seen(text) {
        None => None,
        Some(found) => Some((Var::Local(found.0), found.1)),
    }
}

impl<'a> Locals<'a> {
    /// The scope of these names, of which the first `ins` are ins; the globals are known or not.
    /// 2^32 names or more count as want of memory.
    pub fn new(
        alloc: Global,
        names: &'a [Named],
        ins: usize,
        globals: bool,
    ) -> Result<Locals<'a>, AllocError>
        ensures { IfOk result (λ scope. scope ≡ record { locals = names.now; ins = ins; globals = globals }) }
    {
        let names = Indexed::new(alloc, names)?;
        Ok(Locals {
            names,
            ins,
            globals,
        })
    }

    /// Whether a variable may change: a constant and an in-parameter never do.
    pub fn is_assignable(&self, var: Var) -> bool
        ensures { result ≡ spec.is_assignable self.now var }
    {
        match var {
            Var::Const(_) => false,
            Var::Global(_) => true,
            Var::Local(number) => self.ins <= number as usize,
        }
    }
}

impl<'a> Known<'a> {
    /// The names of these tables. 2^32 names of one kind or more count as want of memory.
    pub fn new(alloc: Global, tables: &'a Tables) -> Result<Known<'a>, AllocError>
        ensures { IfOk result (λ known. known ≡ tables.now) }
    {
        let consts = Indexed::new(alloc, tables.consts.as_slice())?;
        let globals = Indexed::new(alloc, tables.globals.as_slice())?;
        let functions = function_numbers(alloc, tables.functions.as_slice())?;
        let procedures = procedure_numbers(alloc, tables.procedures.as_slice())?;
        let bodies = body_numbers(alloc, tables.procedures.as_slice())?;
        Ok(Known {
            tables,
            consts,
            globals,
            functions,
            procedures,
            bodies,
        })
    }

    /// The functions, in the order of their declarations.
    pub fn functions(&self) -> &[Signature]
        ensures { result.now ≡ self.now.functions }
    {
        self.tables.functions.as_slice()
    }

    /// The function of a name.
    #[tactic(auto, using(crate::proofs::IndexLaws::index_laws))]
    pub fn function(&self, text: &[u8]) -> Option<&Signature>
        ensures { option_copied result ≡ spec.function_named self.now text.now }
    {
        match self.functions.number(text) {
            None => None,
            Some(place) => at(self.tables.functions.as_slice(), place),
        }
    }

    /// The number of the function of a name.
    #[tactic(auto, using(crate::proofs::IndexLaws::index_laws))]
    pub fn function_number(&self, text: &[u8]) -> Option<usize>
        ensures { result ≡ position (λ f. bytes_eq text.now f.name) self.now.functions }
    {
        self.functions.number(text)
    }

    /// The procedure of a name.
    #[tactic(auto, using(crate::proofs::IndexLaws::index_laws))]
    pub fn procedure(&self, text: &[u8]) -> Option<&Heading>
        ensures { option_copied result ≡ spec.procedure_named self.now text.now }
    {
        match self.procedures.number(text) {
            None => None,
            Some(place) => at(self.tables.procedures.as_slice(), place),
        }
    }

    /// The number of the procedure of a name among those with a body, in the order of their
    /// declarations; 0 where there is none.
    pub fn body_number(&self, text: &[u8]) -> u32
        ensures { result ≡ body_number self.now text.now }
    {
        match self.bodies.number(text) {
            None => 0,
            Some(number) => number as u32,
        }
    }

    /// Whether a global variable has the name.
    pub fn is_global(&self, text: &[u8]) -> bool
        ensures { result ≡ is_some (position (λ g. bytes_eq text.now g.name) self.now.globals) }
    {
        self.globals.has(text)
    }

    // The constant of a name, or its global where those are known.
    fn value(&self, globals: bool, text: &[u8]) -> Option<(Var, Sort)>
        ensures { result ≡ option_or (spec.seen_as (λ i. Var.Const i) self.now.consts text.now) (spec.seen_if globals (spec.seen_as (λ i. Var.Global i) self.now.globals text.now)) }
    {
        match constant(&self.consts, text) {
            Some(found) => Some(found),
            None => {
                if globals {
                    global(&self.globals, text)
                } else {
                    None
                }
            }
        }
    }

    /// What a name stands for in a scope, with its sort: a local, else a constant, else a global
    /// where the globals are known.
    pub fn find(&self, scope: &Locals, text: &[u8]) -> Option<(Var, Sort)>
        ensures { result ≡ spec.find_name self.now scope.now text.now }
    {
        match local(&scope.names, text) {
            Some(found) => Some(found),
            None => self.value(scope.globals, text),
        }
    }
}
