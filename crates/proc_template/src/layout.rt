//! What the variables of a formula stand for, in the order in which it makes them, and which of them a run takes as it begins.
ghost use Rattle.std.specs.Prelude.{◌≡◌, ◌+◌, ◌-◌, ◌<◌, ◌≤◌, ◌++◌, ◌∷◌, [], false, length, slice_index_or, All, OnOk, IfOk};
ghost use Rattle.flat_prog.specs.Sites.{numbers_from};
ghost use Rattle.vc_gen.specs.Fold.{choice_count};
ghost use Rattle.proc_template.specs.Layout as spec;

use crate::sites::site_starts;
use flat_prog::{FlatBlock, FlatNext};
use hy_val::Sort;
use passive_form::{Item, Passive, PassiveBlock};
use sqlite_items::{Items, at};
use std::alloc::{AllocError, Global};
use tree_terms::Role;

/// The roles of the variables, by number, and the numbers of those that a run takes values for as it begins.
#[derive(Drop)]
pub(crate) struct Layout {
    /// For each variable number its role.
    pub roles: Items<Role>,
    /// The variables that are taken as the run begins, in order.
    pub begin: Items<usize>,
}

// A role for each constant.
fn push_consts(roles: &mut Items<Role>, sorts: &[Sort]) -> Result<(), AllocError>
    ensures { OnOk result (roles.new ≡ roles.old ++ spec.const_roles sorts.now) }
{
    for (number, _) in sorts.iter().enumerate() {
        roles.push(Role::Const(number))?;
    }
    Ok(())
}

// A role for each global.
fn push_globals(roles: &mut Items<Role>, sorts: &[Sort]) -> Result<(), AllocError>
    ensures { OnOk result (roles.new ≡ roles.old ++ spec.global_roles sorts.now) }
{
    for (number, _) in sorts.iter().enumerate() {
        roles.push(Role::Global(number))?;
    }
    Ok(())
}

// A role for each in.
fn push_ins(roles: &mut Items<Role>, sorts: &[Sort]) -> Result<(), AllocError>
    ensures { OnOk result (roles.new ≡ roles.old ++ spec.in_roles sorts.now) }
{
    for (number, _) in sorts.iter().enumerate() {
        roles.push(Role::In(number))?;
    }
    Ok(())
}

// A role for each out of the callee at a site.
fn push_outs(roles: &mut Items<Role>, site: usize, sorts: &[Sort]) -> Result<(), AllocError>
    ensures { OnOk result (roles.new ≡ roles.old ++ spec.out_roles site sorts.now) }
{
    for (number, _) in sorts.iter().enumerate() {
        roles.push(Role::Out { site, at: number })?;
    }
    Ok(())
}

// Whether the global is marked.
fn is_marked(changes: &[bool], number: usize) -> bool
    ensures { result ≡ slice_index_or changes.now number false }
{
    match at(changes, number) {
        Some(mark) => *mark,
        None => false,
    }
}

// The role, where it is marked.
fn push_if(roles: &mut Items<Role>, mark: bool, role: Role) -> Result<(), AllocError>
    ensures { OnOk result (roles.new ≡ roles.old ++ spec.role_if mark role) }
{
    if mark {
        roles.push(role)?;
    }
    Ok(())
}

// A role for each global that is marked.
fn push_after(
    roles: &mut Items<Role>,
    site: usize,
    changes: &[bool],
    before: &[u32],
) -> Result<(), AllocError>
    ensures { OnOk result (roles.new ≡ roles.old ++ spec.after_roles site changes.now 0 before.now) }
{
    for number in 0..before.len() {
        let mark = is_marked(changes, number);
        push_if(roles, mark, Role::After { site, at: number })?;
    }
    Ok(())
}

// Roles of choices that the run makes by itself.
fn push_own(roles: &mut Items<Role>, count: usize) -> Result<(), AllocError>
    ensures { OnOk result (roles.new ≡ roles.old ++ spec.own_roles count) }
{
    for _ in 0..count {
        roles.push(Role::Own)?;
    }
    Ok(())
}

// The roles of what comes back at a site.
fn push_site(
    roles: &mut Items<Role>,
    site: usize,
    outs: &[Sort],
    changes: &[bool],
    before: &[u32],
) -> Result<(), AllocError>
    ensures { OnOk result (roles.new ≡ roles.old ++ spec.site_roles site outs.now changes.now before.now) }
{
    roles.push(Role::Failed(site))?;
    push_outs(roles, site, outs)?;
    push_after(roles, site, changes, before)?;
    Ok(())
}

// The number of the next site. One that needs more than 64 bits is want of memory.
fn next_site(site: usize) -> Result<usize, AllocError>
    ensures { IfOk result (λ n. n ≡ site + 1) }
{
    site.checked_add(1).ok_or(AllocError)
}

// The variables of an item. The answer is the number of the next site.
fn push_item(roles: &mut Items<Role>, site: usize, item: &Item) -> Result<usize, AllocError>
    ensures roles { OnOk result (roles.new ≡ roles.old ++ spec.item_roles site item.now) }
    ensures next { IfOk result (λ n. n ≡ site + spec.item_sites item.now) }
{
    match item {
        Item::Let { .. } => Ok(site),
        Item::Zero { .. } => Ok(site),
        Item::Free { .. } => {
            roles.push(Role::Own)?;
            Ok(site)
        }
        Item::Need(_) => Ok(site),
        Item::Check { .. } => Ok(site),
        Item::Site {
            before,
            outs,
            changes,
            ..
        } => {
            push_site(
                roles,
                site,
                outs.as_slice(),
                changes.as_slice(),
                before.as_slice(),
            )?;
            next_site(site)
        }
    }
}

// The variables of items, the first of whose sites has this number.
fn push_items(roles: &mut Items<Role>, site: usize, items: &[Item]) -> Result<(), AllocError>
    ensures { OnOk result (roles.new ≡ roles.old ++ spec.items_roles site items.now) }
{
    let mut next = site;
    for item in items {
        next = push_item(roles, next, item)?;
    }
    Ok(())
}

// How many choices of a target a block makes: one for each target but the last.
fn choices(next: &FlatNext) -> usize
    ensures { result ≡ choice_count next.now }
{
    match next {
        FlatNext::Goto(targets) => targets.len().saturating_sub(1),
        FlatNext::Return => 0,
    }
}

// The variables of a block.
fn push_block(
    starts: &[usize],
    roles: &mut Items<Role>,
    block: &PassiveBlock,
) -> Result<(), AllocError>
    requires { block.now.number < length starts.now }
    ensures { OnOk result (roles.new ≡ roles.old ++ spec.block_roles starts.now block.now) }
{
    let site = starts[block.number as usize];
    push_items(roles, site, block.items.as_slice())?;
    push_own(roles, choices(&block.next))?;
    Ok(())
}

// The variables of the blocks.
fn push_blocks(
    starts: &[usize],
    roles: &mut Items<Role>,
    blocks: &[PassiveBlock],
) -> Result<(), AllocError>
    requires { All (λ b. b.number < length starts.now) blocks.now }
    ensures { OnOk result (roles.new ≡ roles.old ++ spec.blocks_roles starts.now blocks.now) }
{
    for block in blocks {
        push_block(starts, roles, block)?;
    }
    Ok(())
}

// The numbers from one on, up to another.
fn numbers(alloc: Global, first: usize, end: usize) -> Result<Items<usize>, AllocError>
    requires { first ≤ end }
    ensures { IfOk result (λ ns. ns ≡ numbers_from first (end - first)) }
{
    let mut numbers = Items::new(alloc);
    for number in first..end {
        numbers.push(number)?;
    }
    Ok(numbers)
}

// The variables of the constants, the globals and the ins, and of the begin.
fn open_layout(alloc: Global, passive: &Passive) -> Result<Layout, AllocError>
    ensures { IfOk result (λ l. l ≡ record { roles = spec.begin_roles passive.now; begin = spec.begin_values passive.now }) }
{
    let mut roles = Items::new(alloc);
    push_consts(&mut roles, passive.consts.as_slice())?;
    push_globals(&mut roles, passive.globals.as_slice())?;
    push_ins(&mut roles, passive.ins.as_slice())?;
    let first = roles.len();
    push_items(&mut roles, 0, passive.start.items.as_slice())?;
    let begin = numbers(alloc, first, roles.len())?;
    Ok(Layout { roles, begin })
}

/// What the variables of the formula of a passive form stand for, where the procedure has these blocks, and each block of the
/// passive form is one of them. `AllocError` comes for want of memory.
pub(crate) fn lay_out(
    alloc: Global,
    blocks: &[FlatBlock],
    passive: &Passive,
) -> Result<Layout, AllocError>
    requires { All (λ b. b.number < length blocks.now) passive.now.blocks }
    ensures { IfOk result (λ l. l ≡ spec.layout_of blocks.now passive.now) }
{
    let starts = site_starts(alloc, blocks)?;
    let mut layout = open_layout(alloc, passive)?;
    push_blocks(
        starts.as_slice(),
        &mut layout.roles,
        passive.blocks.as_slice(),
    )?;
    Ok(layout)
}
