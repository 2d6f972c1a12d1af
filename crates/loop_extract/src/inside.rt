//! What a scope keeps: its blocks, and the loops directly inside.
ghost use Rattle.std.specs.Prelude.{◌≡◌, ◌++◌, ◌∷◌, [], ◌+◌, ◌<◌, false, length, filter, map, slice_index_or, if◌then◌else◌, IfOk, IsTrue, OnOk};
ghost use Rattle.extract_def.specs.Exits as exits;
ghost use Rattle.extract_def.specs.Places as places;
ghost use Rattle.extract_def.specs.Scopes as scopes;
ghost use Rattle.loop_extract.specs.Ascents.{head_in};
ghost use Rattle.loop_extract.specs.Flags.{ups};
ghost use Rattle.loop_extract.specs.Plans as spec;

use crate::ascending::Ascending;
use crate::edges::Exits;
use crate::exits::exits_of;
use crate::inner::Inner;
use crate::numbers::{small, sum};
use crate::plan::Plan;
use crate::spans::{Heads, Inside, Spans};
use extract_def::Scope;
use sqlite_items::Items;
use src_prog::{SrcLoop, SrcProc};
use std::alloc::{AllocError, Global};

// Whether two scopes are one.
fn same_scope(left: Scope, right: Scope) -> bool
    ensures { result ≡ scopes.same_scope left right }
{
    match left {
        Scope::Whole => match right {
            Scope::Whole => true,
            Scope::In { .. } => false,
        },
        Scope::In { head, exit } => match right {
            Scope::Whole => false,
            Scope::In {
                head: other,
                exit: end,
            } => head == other && exit == end,
        },
    }
}

/// The loops directly inside a scope, by head.
pub fn spans_in(alloc: Global, heads: &Heads, scope: Scope) -> Result<Spans, AllocError>
    ensures { IfOk result (λ ls. ls ≡ spec.spans_in scope heads.now) }
{
    let found = heads.window(scope);
    let among = found.1;
    let mut spans = Items::new(alloc);
    let mut numbers = Items::new(alloc);
    for head in among {
        if same_scope(head.around, scope) {
            spans.push(head.span)?;
            numbers.push(head.span.head)?;
        }
    }
    Ok(Spans::new(Ascending::new(numbers), spans))
}

// A block more, if it is reached, and stands in the scope or is the head of one of the loops.
fn push_kept(
    kept: &mut Items<u32>,
    plan: &Plan,
    scope: Scope,
    spans: &Spans,
    number: usize,
) -> Result<(), AllocError>
    requires within { number < length plan.now.up }
    requires long { length plan.now.scopes ≡ length plan.now.up }
    ensures { OnOk result (kept.new ≡ kept.old ++ (if slice_index_or plan.now.up number false then (if spec.stays plan.now.scopes scope spans.now number then number ∷ [] else []) else [])) }
{
    if !plan.up.as_slice()[number] {
        return Ok(());
    }
    let block = small(number)?;
    if same_scope(plan.scopes.as_slice()[number], scope) || spans.is_head(block) {
        kept.push(block)?;
    }
    Ok(())
}

// Where the blocks of a scope begin.
fn first_of(scope: Scope) -> usize
    ensures { result ≡ spec.first_of scope }
{
    match scope {
        Scope::Whole => 0,
        Scope::In { head, exit: _ } => head as usize,
    }
}

// Where the blocks of a scope end, among so many.
fn end_of(scope: Scope, count: usize) -> usize
    ensures { result ≡ spec.end_of scope count }
{
    match scope {
        Scope::Whole => count,
        Scope::In { head: _, exit } => (exit as usize).min(count),
    }
}

/// The reached blocks that stand in a scope or are heads of these loops, ascending. Looks at the
/// blocks of the scope alone.
pub fn kept_of(
    alloc: Global,
    plan: &Plan,
    scope: Scope,
    spans: &Spans,
) -> Result<Ascending, AllocError>
    requires long { length plan.now.scopes ≡ length plan.now.up }
    requires spans { spans.now ≡ spec.spans_in scope plan.now.heads }
    requires within { spec.OnlyWithin plan.now scope }
    ensures { IfOk result (λ ns. ns ≡ filter (spec.stays plan.now.scopes scope spans.now) (ups 0 plan.now.up)) }
{
    let mut kept = Items::new(alloc);
    let first = first_of(scope);
    let end = end_of(scope, plan.up.len());
    for number in first..end {
        push_kept(&mut kept, plan, scope, spans, number)?;
    }
    Ok(Ascending::new(kept))
}

// The loops so far, and where the blocks for the exits of the next one stand.
#[derive(Drop)]
struct Inners {
    inside: Items<Inner>,
    next: u32,
}

// A loop more.
fn push_inner(
    alloc: Global,
    proc: &SrcProc,
    plan: &Plan,
    inners: &mut Inners,
    number: u32,
    span: SrcLoop,
) -> Result<(), AllocError>
    requires size { length plan.now.up ≡ length proc.now.blocks }
    requires reached { ups 0 plan.now.up ≡ scopes.reached_blocks proc.now }
    ensures inside { OnOk result (inners.new.inside ≡ inners.old.inside ++ record { span = span; number = number; first = inners.old.next; exits = exits.exits_of proc.now span } ∷ []) }
    ensures next { OnOk result (inners.new.next ≡ inners.old.next + places.pass_count (exits.exits_of proc.now span)) }
{
    let exits = exits_of(alloc, proc, plan.up.as_slice(), span)?;
    let count = small(exits.len().max(1))?;
    let first = inners.next;
    inners.next = sum(first, count)?;
    inners.inside.push(Inner {
        span,
        number,
        first,
        exits,
    })
}

/// The loops directly inside a scope, by head, where the blocks for the exits of the first one stand from a number on.
pub fn inners_of(
    alloc: Global,
    proc: &SrcProc,
    plan: &Plan,
    scope: Scope,
    first: u32,
    heads: Ascending,
) -> Result<Inside, AllocError>
    requires heads { heads ≡ map head_in (spec.spans_in scope plan.now.heads) }
    requires size { length plan.now.up ≡ length proc.now.blocks }
    requires reached { ups 0 plan.now.up ≡ scopes.reached_blocks proc.now }
    ensures { IfOk result (λ is. is ≡ spec.inners_from proc.now scope plan.now.base first plan.now.heads) }
{
    let found = plan.heads.window(scope);
    let among = found.1;
    let base = sum(plan.base, small(found.0)?)?;
    let mut inners = Inners {
        inside: Items::new(alloc),
        next: first,
    };
    for (k, head) in among.iter().enumerate() {
        if same_scope(head.around, scope) {
            let number = sum(base, small(k)?)?;
            push_inner(alloc, proc, plan, &mut inners, number, head.span)?;
        }
    }
    let Inners { inside, next: _ } = inners;
    Ok(Inside::new(heads, inside))
}

/// How many blocks there are for the exits of these loops.
pub fn passes_in(inside: &[Inner]) -> Result<u32, AllocError>
    ensures { IfOk result (λ n. n ≡ spec.passes_in inside.now) }
{
    let mut passes = 0;
    for inner in inside {
        passes = sum(passes, small(inner.exits.len().max(1))?)?;
    }
    Ok(passes)
}

/// The exits of the loop of a scope, none where it is the whole procedure.
pub fn exits_in(
    alloc: Global,
    proc: &SrcProc,
    plan: &Plan,
    scope: Scope,
) -> Result<Exits, AllocError>
    requires size { length plan.now.up ≡ length proc.now.blocks }
    requires reached { ups 0 plan.now.up ≡ scopes.reached_blocks proc.now }
    ensures { IfOk result (λ es. es ≡ places.exits_in proc.now scope) }
{
    match scope {
        Scope::Whole => Ok(Exits::new(Items::new(alloc))),
        Scope::In { head, exit } => {
            let edges = exits_of(alloc, proc, plan.up.as_slice(), SrcLoop { head, exit })?;
            Ok(Exits::new(edges))
        }
    }
}
