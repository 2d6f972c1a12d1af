//! The terms that a question begins with: a variable for each value that the entry is called with.
ghost use Rattle.std.specs.Prelude.{◌≡◌, ◌++◌, ◌∷◌, [], ◌+◌, length, slice_get, IfOk, OnOk, IsSome, IsTrue};
ghost use Rattle.hy_val.specs.NodeSorts.{is_sort};
ghost use Rattle.hy_term.specs.TermSorts.{sorts};
ghost use Rattle.hy_term.specs.Variables.{below};
ghost use Rattle.flat_prog.specs.Sites.{numbers_from};
ghost use Rattle.tree_words.specs.Stands.{ins_at};
ghost use Rattle.tree_query.specs.Opening.{CanHaveValues, HasTerms, IsOpening, variables_from};

use flat_prog::Flat;
use hy_term::{TermNode, Terms, above_is_free};
use hy_val::{Sort, SortKind};
use sqlite_items::{Items, at};
use std::alloc::{AllocError, Global};

/// Terms with a variable for each constant of a program, each global, as the entry finds it, and each in of the entry. The
/// number of a variable is that of its node.
#[derive(Drop)]
pub struct BaseTerms {
    /// The literal true, node 0 and the root, and behind it the variables.
    pub terms: Terms,
    /// The nodes of the constants, in order.
    pub consts: Items<usize>,
    /// The nodes of the globals, in order.
    pub globals: Items<usize>,
    /// The nodes of the entry's ins, in order.
    pub args: Items<usize>,
}

// A sort is one: its widths are 1 to 64.
fn keep_sort(sort: Sort)
    ensures { IsTrue (is_sort sort) }
{
    match sort.kind() {
        SortKind::Scalar(scalar) => scalar.keeps_width(),
        SortKind::Map { index, elem } => {
            index.keeps_width();
            elem.keeps_width();
        }
    }
}

// Puts a variable of a sort behind the others, with the number of its node.
fn push_variable(terms: &mut Terms, sort: Sort) -> Result<usize, AllocError>
    requires { IsTrue (below (length terms.old.nodes) terms.old.nodes) }
    ensures number { IfOk result (λ t. t ≡ length terms.old.nodes) }
    ensures nodes { OnOk result (terms.new.nodes ≡ terms.old.nodes ++ TermNode.Variable (length terms.old.nodes) sort ∷ []) }
    ensures root { terms.new.root ≡ terms.old.root }
    ensures low { OnOk result (IsTrue (below (length terms.new.nodes) terms.new.nodes)) }
{
    keep_sort(sort);
    above_is_free();
    let number = terms.nodes().len();
    let node = terms.add(TermNode::Variable { number, sort })?;
    Ok(node)
}

// Puts variables of these sorts behind the others, and answers their nodes.
fn push_variables(
    alloc: Global,
    terms: &mut Terms,
    sorts: &[Sort],
) -> Result<Items<usize>, AllocError>
    requires { IsTrue (below (length terms.old.nodes) terms.old.nodes) }
    ensures nodes { OnOk result (terms.new.nodes ≡ terms.old.nodes ++ variables_from (length terms.old.nodes) sorts.now) }
    ensures numbers { IfOk result (λ ts. ts ≡ numbers_from (length terms.old.nodes) (length sorts.now)) }
    ensures root { terms.new.root ≡ terms.old.root }
    ensures low { OnOk result (IsTrue (below (length terms.new.nodes) terms.new.nodes)) }
{
    let mut numbers = Items::new(alloc);
    for sort in sorts {
        let node = push_variable(terms, *sort)?;
        numbers.push(node)?;
    }
    Ok(numbers)
}

// The sorts of the ins of a procedure; none where it is not there.
fn ins_at(flat: &Flat, proc: u32) -> &[Sort]
    ensures { result.now ≡ ins_at (slice_get flat.now.procs proc) }
{
    match at(flat.procs(), proc as usize) {
        None => &[],
        Some(found) => found.ins.as_slice(),
    }
}

/// The terms that a question about a procedure of a program begins with, the entry: the literal true, and a variable for each
/// constant, each global and each in, in this order, so that any values of their sorts can be had. Where there is no procedure
/// of the number there are no ins. `AllocError` comes where memory runs out.
pub fn base_terms(alloc: Global, flat: &Flat, entry: u32) -> Result<BaseTerms, AllocError>
    ensures is { IfOk result (λ b. IsOpening flat.now entry b) }
    ensures terms { IfOk result (λ b. HasTerms flat.now entry b.terms.nodes b) }
    ensures values { IfOk result (λ b. CanHaveValues flat.now entry b.terms.nodes b) }
{
    let mut terms = Terms::new(alloc)?;
    let consts = push_variables(alloc, &mut terms, flat.consts())?;
    let globals = push_variables(alloc, &mut terms, flat.globals())?;
    let args = push_variables(alloc, &mut terms, ins_at(flat, entry))?;
    let _nodes = terms.nodes();
    Ok(BaseTerms {
        terms,
        consts,
        globals,
        args,
    })
}
