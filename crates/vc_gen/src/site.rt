//! Calls: the callee's result is new variables, and the run goes on where the callee does not fail.
ghost use Rattle.std.specs.Prelude.{◌≡◌, ◌∷◌, [], ◌+◌, ◌<◌, length, OnOk, IfOk, false, slice_index_or};
ghost use Rattle.passive_form.specs.Local.{replaced};
ghost use Rattle.passive_form.specs.declared.Item.TheVariants.{Site};
ghost use Rattle.vc_gen.specs.Standing.{Later, Plain};
ghost use Rattle.vc_gen.specs.Emit.{Behind, ArgsReady, ArgsSay, ItemReady, Step, terms_of};

use crate::bits::negated;
use crate::expression::{place, translate};
use crate::fresh::{fresh_all, fresh_one};
use crate::going::pass;
use crate::parts::{Draft, SiteTerm};
use hy_term::Terms;
use hy_val::{Expr, Scalar, Sort};
use sqlite_items::{Items, at};
use std::alloc::{AllocError, Global};

// The terms of the arguments.
fn translate_all(
    alloc: Global,
    terms: &mut Terms,
    consts: &[usize],
    versions: &[usize],
    args: &[Expr],
) -> Result<Items<usize>, AllocError>
    requires ready { ArgsReady terms.old.nodes consts.now versions.now args.now }
    ensures later { Later terms.old.nodes terms.new.nodes }
    ensures say { IfOk result (λ ts. ArgsSay terms.old.nodes consts.now versions.now args.now terms.new.nodes ts) }
{
    let mut found = Items::new(alloc);
    for arg in args {
        let term = translate(alloc, terms, consts, versions, arg)?;
        found.push(term)?;
    }
    Ok(found)
}

// The terms of versions.
pub(crate) fn terms_of(
    alloc: Global,
    versions: &[usize],
    own: &[u32],
) -> Result<Items<usize>, AllocError>
    ensures { IfOk result (λ ts. ts ≡ terms_of versions.now own.now) }
{
    let mut found = Items::new(alloc);
    for version in own {
        found.push(place(versions, *version as usize))?;
    }
    Ok(found)
}

// Whether the global is marked.
fn is_marked(changes: &[bool], number: usize) -> bool
    ensures { result ≡ slice_index_or changes.now number false }
{
    match at(changes, number) {
        Some(mark) => *mark,
        None => false,
    }
}

// The term of one more global behind a call. The answer says how many of the new ones are used.
fn push_behind(
    found: &mut Items<usize>,
    changes: &[bool],
    before: &[usize],
    changed: &[usize],
    index: usize,
    used: usize,
) -> Result<usize, AllocError>
    requires index { index < length before.now }
    requires behind { Behind changes.now before.now changed.now index used found.old }
    ensures { IfOk result (λ next. Behind changes.now before.now changed.now (index + 1) next found.new) }
{
    if used >= changed.len() {
        found.push(place(before, index))?;
        return Ok(used);
    }
    if is_marked(changes, index) {
        found.push(place(changed, used))?;
        return Ok(used + 1);
    }
    found.push(place(before, index))?;
    Ok(used)
}

// The terms of all globals behind a call: new ones for those that the callee may change.
fn globals_behind(
    alloc: Global,
    changes: &[bool],
    before: &[usize],
    changed: &[usize],
) -> Result<Items<usize>, AllocError>
    ensures { IfOk result (λ ts. ts ≡ replaced changes.now before.now changed.now) }
{
    let mut found = Items::new(alloc);
    let mut used = 0;
    for index in 0..before.len() {
        used = push_behind(&mut found, changes, before, changed, index, used)?;
    }
    Ok(found)
}

// The number of the next call. One that needs more than 32 bits is want of memory.
fn next_call(number: u32) -> Result<u32, AllocError>
    ensures { IfOk result (λ n. n ≡ number + 1) }
{
    number.checked_add(1).ok_or(AllocError)
}

/// A call, which is that of this number among the calls of the block. More than 32 bits can number are want of memory.
pub(crate) fn emit_site(
    alloc: Global,
    terms: &mut Terms,
    consts: &[usize],
    draft: &mut Draft,
    block: u32,
    proc: u32,
    failed: u32,
    args: &[Expr],
    before: &[u32],
    outs: &[Sort],
    changes: &[bool],
    after: &[Sort],
) -> Result<(), AllocError>
    requires ready { ItemReady terms.old.nodes consts.now draft.old (Site proc failed args.now before.now outs.now changes.now after.now) }
    ensures later { Later terms.old.nodes terms.new.nodes }
    ensures step { OnOk result (Step consts.now block terms.old.nodes draft.old (Site proc failed args.now before.now outs.now changes.now after.now ∷ []) terms.new.nodes draft.new) }
{
    let args = translate_all(alloc, terms, consts, draft.versions.as_slice(), args)?;
    let globals_before = terms_of(alloc, draft.versions.as_slice(), before)?;
    let first = draft.next;
    let bit = fresh_one(terms, draft, Sort::scalar(Scalar::bool()))?;
    let outs = fresh_all(alloc, terms, draft, outs)?;
    let changed = fresh_all(alloc, terms, draft, after)?;
    let holds = negated(terms, bit)?;
    let node = draft.cond;
    let fails = pass(terms, draft, holds, bit)?;
    let globals_after = globals_behind(
        alloc,
        changes,
        globals_before.as_slice(),
        changed.as_slice(),
    )?;
    let calls = next_call(draft.calls)?;
    draft.sites.push(SiteTerm {
        block,
        call: draft.calls,
        proc,
        node,
        first,
        failed: bit,
        args,
        globals_before,
        outs,
        changed,
        globals_after,
        fails,
    })?;
    draft.calls = calls;
    Ok(())
}
