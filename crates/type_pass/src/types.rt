//! The types of a program: by number, with what each stands for.

ghost use Rattle.std.specs.Prelude.{◌≡◌, ◌++◌, ◌<◌, length, map, filter_map, replicate, is_some, slice_get, slice_set, List, ℕ, None, Some, false, IfOk, OnOk};
ghost use Rattle.hy_val.specs.NodeSorts.{as_scalar};
ghost use Rattle.type_pass.specs.Declarations.{synonyms};
ghost use Rattle.type_pass.specs.Memos.{from_node, noted, heads, head_graph, number_among};
ghost use Rattle.type_pass.specs.Faults.{first};
ghost use Rattle.type_pass.specs.Orders.{IsOrder};
ghost use Rattle.type_pass.specs.Passes.{cyclic_names};
ghost use Rattle.type_pass.specs.Sorts as spec;
ghost use Rattle.type_pass.specs.Sorts.{mentions, resolved_by, written_as_map, names_map, named_sort, type_number};

use crate::circle::cyclic_name;
use crate::fault::TypeFault;
use crate::numbers::{Numbers, push_number};
use crate::order::order;
use bpl_ast::{Ast, Decl, Name, Sort as Written, Synonym};
use hy_val::{Scalar, Sort, SortKind, Width};
use sqlite_items::{Items, at};
use std::alloc::{AllocError, Global};
use std::marker::Model;

/// The types of a program. Contracts see their declarations, in the order of the text.
#[derive(Drop)]
pub struct Types<'a> {
    synonyms: Vec<&'a Synonym>,
    numbers: Numbers<'a>,
    maps: Vec<bool>,
    sorts: Vec<Option<Sort>>,
}

impl<'a> Model for Types<'a> {
    ghost use Rattle.std.specs.Prelude.{List, map};
    ghost use Rattle.bpl_ast.specs.declared.decl.Synonym.{Synonym};
    ghost use Rattle.bpl_ast.specs.contracts.sort.Sort as written;
    ghost use Rattle.std.specs.Coded.{codes};

    ghost Value = { List Synonym };

    ghost coded = { Prim.hlevel (codes, written.the_row.coded) };

    ghost use Rattle.type_pass.specs.Memos.{AreTypes};

    ghost view = { λ t. map (λ s. s.now) t.synonyms.items };

    ghost invariant = { λ t. AreTypes (map (λ s. s.now) t.synonyms.items) t.numbers t.maps.items t.sorts.items };
}

// The declarations of the types.
fn synonyms_of<'a>(alloc: Global, ast: &'a Ast) -> Result<Vec<&'a Synonym>, AllocError>
    ensures { IfOk result (λ types. map (λ s. s.now) types.items ≡ synonyms ast.now) }
{
    let mut types = Vec::new(alloc);
    for decl in ast.decls.as_slice() {
        if let Decl::Synonym(synonym) = decl {
            types.push(synonym)?;
        }
    }
    Ok(types)
}

// Their names.
fn names_of<'a>(alloc: Global, types: &[&'a Synonym]) -> Result<Vec<&'a [u8]>, AllocError>
    ensures { IfOk result (λ names. map (λ t. t.now) names.items ≡ map (λ s. s.now.name.text) types.now) }
{
    let mut names = Vec::new(alloc);
    for synonym in types {
        names.push(synonym.name.text.as_slice())?;
    }
    Ok(names)
}

// Their declared names.
fn declared_names<'a>(alloc: Global, types: &[&'a Synonym]) -> Result<Vec<&'a Name>, AllocError>
    ensures { IfOk result (λ names. map (λ n. n.now) names.items ≡ map (λ s. s.now.name) types.now) }
{
    let mut names = Vec::new(alloc);
    for synonym in types {
        names.push(&synonym.name)?;
    }
    Ok(names)
}

// The type of which a sort is another name, behind those of a list.
#[tactic(auto, using(crate::proofs::TypeLaws::type_laws))]
fn push_heads(sort: &Written, numbers: &Numbers, edges: &mut Items<usize>) -> Result<(), AllocError>
    ensures { OnOk result (edges.new ≡ edges.old ++ filter_map (number_among numbers.now) (heads sort.now)) }
{
    match sort {
        Written::Boolean { at: _ } => Ok(()),
        Written::Bits {
            at: _,
            width: _,
            text: _,
        } => Ok(()),
        Written::Named { name } => push_number(edges, numbers.number(name.text.as_slice())),
        Written::Map {
            at: _,
            index: _,
            elem: _,
        } => Ok(()),
    }
}

// The types that a sort names, behind those of a list.
#[tactic(auto, using(crate::proofs::TypeLaws::type_laws))]
fn push_mentions(
    sort: &Written,
    numbers: &Numbers,
    edges: &mut Items<usize>,
) -> Result<(), AllocError>
    ensures { OnOk result (edges.new ≡ edges.old ++ filter_map (number_among numbers.now) (mentions sort.now)) }
{
    match sort {
        Written::Boolean { at: _ } => Ok(()),
        Written::Bits {
            at: _,
            width: _,
            text: _,
        } => Ok(()),
        Written::Named { name } => push_number(edges, numbers.number(name.text.as_slice())),
        Written::Map { at: _, index, elem } => {
            push_mentions(index.get(), numbers, edges)?;
            push_mentions(elem.get(), numbers, edges)
        }
    }
}

// The types of which types are other names.
fn heads_of(
    alloc: Global,
    types: &[&Synonym],
    numbers: &Numbers,
) -> Result<Vec<Items<usize>>, AllocError>
    requires { numbers.now ≡ map (λ s. s.now.name.text) types.now }
    ensures { IfOk result (λ graph. graph.items ≡ head_graph (map (λ s. s.now) types.now)) }
{
    let mut graph = Vec::new(alloc);
    for synonym in types {
        let mut edges = Items::new(alloc);
        push_heads(&synonym.sort, numbers, &mut edges)?;
        graph.push(edges)?;
    }
    Ok(graph)
}

// The types that types name.
fn mentions_of(
    alloc: Global,
    types: &[&Synonym],
    numbers: &Numbers,
) -> Result<Vec<Items<usize>>, AllocError>
    requires { numbers.now ≡ map (λ s. s.now.name.text) types.now }
    ensures { IfOk result (λ graph. graph.items ≡ spec.type_graph (map (λ s. s.now) types.now)) }
{
    let mut graph = Vec::new(alloc);
    for synonym in types {
        let mut edges = Items::new(alloc);
        push_mentions(&synonym.sort, numbers, &mut edges)?;
        graph.push(edges)?;
    }
    Ok(graph)
}

// What is noted for a name.
fn noted_flag(numbers: &Numbers, flags: &[bool], text: &[u8]) -> bool
    ensures { result ≡ noted false flags.now (number_among numbers.now text.now) }
{
    match numbers.number(text) {
        None => false,
        Some(number) => match flags.get(number) {
            None => false,
            Some(flag) => *flag,
        },
    }
}

fn noted_sort(numbers: &Numbers, sorts: &[Option<Sort>], text: &[u8]) -> Option<Sort>
    ensures { result ≡ noted None sorts.now (number_among numbers.now text.now) }
{
    match numbers.number(text) {
        None => None,
        Some(number) => match sorts.get(number) {
            None => None,
            Some(None) => None,
            Some(Some(sort)) => Some(*sort),
        },
    }
}

// Whether a sort is written as a map, or is a name for which that is noted.
#[tactic(auto, using(crate::proofs::TypeLaws::type_laws))]
fn is_map(sort: &Written, numbers: &Numbers, flags: &[bool]) -> bool
    ensures { result ≡ written_as_map (λ t. noted false flags.now (number_among numbers.now t)) sort.now }
{
    match sort {
        Written::Boolean { at: _ } => false,
        Written::Bits {
            at: _,
            width: _,
            text: _,
        } => false,
        Written::Named { name } => noted_flag(numbers, flags, name.text.as_slice()),
        Written::Map {
            at: _,
            index: _,
            elem: _,
        } => true,
    }
}

fn bits_sort(width: u32) -> Option<Sort>
    ensures { result ≡ spec.bits_sort width }
{
    match Width::try_new(width) {
        None => None,
        Some(width) => Some(Sort::scalar(Scalar::bits(width))),
    }
}

fn as_scalar(sort: Option<Sort>) -> Option<Scalar>
    ensures { result ≡ as_scalar sort }
{
    match sort {
        None => None,
        Some(sort) => match sort.kind() {
            SortKind::Scalar(scalar) => Some(scalar),
            SortKind::Map { index: _, elem: _ } => None,
        },
    }
}

fn map_sort(index: Option<Scalar>, elem: Option<Scalar>) -> Option<Sort>
    ensures { result ≡ spec.map_sort index elem }
{
    match index {
        None => None,
        Some(index) => match elem {
            None => None,
            Some(elem) => Some(Sort::map(index, elem)),
        },
    }
}

// What a sort stands for, by what is noted for names. A tree is no deeper than the text nests.
#[tactic(auto, using(crate::proofs::TypeLaws::type_laws))]
fn resolve(sort: &Written, numbers: &Numbers, sorts: &[Option<Sort>]) -> Option<Sort>
    ensures { result ≡ resolved_by (λ t. noted None sorts.now (number_among numbers.now t)) sort.now }
{
    match sort {
        Written::Boolean { at: _ } => Some(Sort::scalar(Scalar::bool())),
        Written::Bits {
            at: _,
            width,
            text: _,
        } => bits_sort(*width),
        Written::Named { name } => noted_sort(numbers, sorts, name.text.as_slice()),
        Written::Map { at: _, index, elem } => map_sort(
            as_scalar(resolve(index.get(), numbers, sorts)),
            as_scalar(resolve(elem.get(), numbers, sorts)),
        ),
    }
}

// The value of a node, where it is one.
fn put_flag(flags: &mut Vec<bool>, node: usize, flag: bool)
    ensures { flags.new.items ≡ slice_set flags.old.items node flag }
{
    if node < flags.len() {
        flags[node] = flag;
    }
}

fn put_sort(sorts: &mut Vec<Option<Sort>>, node: usize, sort: Option<Sort>)
    ensures { sorts.new.items ≡ slice_set sorts.old.items node sort }
{
    if node < sorts.len() {
        sorts[node] = sort;
    }
}

// Whether a type stands for a map, by what is noted for others.
fn flag_at(types: &[&Synonym], numbers: &Numbers, flags: &[bool], node: usize) -> bool
    ensures { result ≡ from_node false (λ s. written_as_map (λ t. noted false flags.now (number_among numbers.now t)) s.now.sort) (slice_get types.now node) }
{
    match at(types, node) {
        None => false,
        Some(synonym) => is_map(&synonym.sort, numbers, flags),
    }
}

// What a type stands for, by what is noted for others.
fn sort_at(
    types: &[&Synonym],
    numbers: &Numbers,
    sorts: &[Option<Sort>],
    node: usize,
) -> Option<Sort>
    ensures { result ≡ from_node None (λ s. resolved_by (λ t. noted None sorts.now (number_among numbers.now t)) s.now.sort) (slice_get types.now node) }
{
    match at(types, node) {
        None => None,
        Some(synonym) => resolve(&synonym.sort, numbers, sorts),
    }
}

// Which types stand for maps, by their order.
fn flags_in_order(
    alloc: Global,
    types: &[&Synonym],
    numbers: &Numbers,
    nodes: &[usize],
) -> Result<Vec<bool>, AllocError>
    requires names { numbers.now ≡ map (λ s. s.now.name.text) types.now }
    requires nodes { IsOrder (head_graph (map (λ s. s.now) types.now)) nodes.now }
    ensures { IfOk result (λ flags. (text : List ℕ) → names_map (length types.now) (map (λ s. s.now) types.now) text ≡ noted false flags.items (type_number (map (λ s. s.now) types.now) text)) }
{
    let mut flags = vec![in alloc; false; types.len()]?;
    for node in nodes {
        let flag = flag_at(types, numbers, flags.as_slice(), *node);
        put_flag(&mut flags, *node, flag);
    }
    Ok(flags)
}

// Which types stand for maps.
fn map_flags(alloc: Global, types: &[&Synonym], numbers: &Numbers) -> Result<Vec<bool>, AllocError>
    requires { numbers.now ≡ map (λ s. s.now.name.text) types.now }
    ensures { IfOk result (λ flags. (text : List ℕ) → names_map (length types.now) (map (λ s. s.now) types.now) text ≡ noted false flags.items (type_number (map (λ s. s.now) types.now) text)) }
{
    let graph = heads_of(alloc, types, numbers)?;
    let nodes = order(alloc, graph.as_slice())?;
    flags_in_order(alloc, types, numbers, nodes.as_slice())
}

// No type stands for anything yet.
fn no_sorts(alloc: Global, types: usize) -> Result<Vec<Option<Sort>>, AllocError>
    ensures { IfOk result (λ sorts. sorts.items ≡ replicate types None) }
{
    let mut sorts = Vec::new(alloc);
    for _ in 0..types {
        sorts.push(None)?;
    }
    Ok(sorts)
}

// What types stand for, by their order.
fn sorts_in_order(
    alloc: Global,
    types: &[&Synonym],
    numbers: &Numbers,
    nodes: &[usize],
) -> Result<Vec<Option<Sort>>, AllocError>
    requires names { numbers.now ≡ map (λ s. s.now.name.text) types.now }
    requires nodes { IsOrder (spec.type_graph (map (λ s. s.now) types.now)) nodes.now }
    ensures { IfOk result (λ sorts. (text : List ℕ) → named_sort (length types.now) (map (λ s. s.now) types.now) text ≡ noted None sorts.items (type_number (map (λ s. s.now) types.now) text)) }
{
    let mut sorts = no_sorts(alloc, types.len())?;
    for node in nodes {
        let sort = sort_at(types, numbers, sorts.as_slice(), *node);
        put_sort(&mut sorts, *node, sort);
    }
    Ok(sorts)
}

// What types stand for.
fn resolved_sorts(
    alloc: Global,
    types: &[&Synonym],
    numbers: &Numbers,
) -> Result<Vec<Option<Sort>>, AllocError>
    requires { numbers.now ≡ map (λ s. s.now.name.text) types.now }
    ensures { IfOk result (λ sorts. (text : List ℕ) → named_sort (length types.now) (map (λ s. s.now) types.now) text ≡ noted None sorts.items (type_number (map (λ s. s.now) types.now) text)) }
{
    let graph = mentions_of(alloc, types, numbers)?;
    let nodes = order(alloc, graph.as_slice())?;
    sorts_in_order(alloc, types, numbers, nodes.as_slice())
}

impl<'a> Types<'a> {
    /// The types of a program.
    pub fn new(alloc: Global, ast: &'a Ast) -> Result<Types<'a>, AllocError>
        ensures { IfOk result (λ types. types ≡ synonyms ast.now) }
    {
        let synonyms = synonyms_of(alloc, ast)?;
        let names = names_of(alloc, synonyms.as_slice())?;
        let numbers = Numbers::new(alloc, names)?;
        let maps = map_flags(alloc, synonyms.as_slice(), &numbers)?;
        let sorts = resolved_sorts(alloc, synonyms.as_slice(), &numbers)?;
        Ok(Types {
            synonyms,
            numbers,
            maps,
            sorts,
        })
    }

    /// The sort that a sort of the text stands for; bool where it has a fault.
    pub fn sort_of(&self, sort: &Written) -> Sort
        ensures { result ≡ spec.sort_of self.now sort.now }
    {
        match resolve(sort, &self.numbers, self.sorts.as_slice()) {
            None => Sort::scalar(Scalar::bool()),
            Some(sort) => sort,
        }
    }

    /// Whether there is a type of the name.
    pub fn is_type(&self, text: &[u8]) -> bool
        ensures { result ≡ is_some (type_number self.now text.now) }
    {
        self.numbers.number(text).is_some()
    }

    /// Whether a name stands for a map.
    pub fn is_map(&self, text: &[u8]) -> bool
        ensures { result ≡ names_map (length self.now) self.now text.now }
    {
        noted_flag(&self.numbers, self.maps.as_slice(), text)
    }

    /// The first of the types that lie on a circle.
    pub fn cyclic_type(&self, alloc: Global) -> Result<Option<TypeFault>, AllocError>
        ensures { IfOk result (λ found. found ≡ first (cyclic_names (spec.type_graph self.now) (map (λ s. s.name) self.now))) }
    {
        let types = self.synonyms.as_slice();
        let graph = mentions_of(alloc, types, &self.numbers)?;
        let names = declared_names(alloc, types)?;
        cyclic_name(alloc, graph.as_slice(), names.as_slice())
    }
}
