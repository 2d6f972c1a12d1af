//! The calls of a procedure by number: by block, and in each block in order.
ghost use Rattle.std.specs.Prelude.{◌≡◌, ℕ, ◌<◌, ◌++◌, ◌∷◌, [], length, OnOk, IfOk};
ghost use Rattle.flat_prog.specs.Sites.{calls_of};
ghost use Rattle.tree_terms.specs.Tables.{row};
ghost use Rattle.proc_template.specs.Layout.{starts_of};
ghost use Rattle.proc_template.specs.Sites as spec;

use flat_prog::{FlatBlock, FlatCmd};
use sqlite_items::{Items, at};
use std::alloc::{AllocError, Global};
use tree_terms::{SiteTerms, Table};
use vc_gen::SiteTerm;

// The procedure that the command calls, if it calls one, stands behind the others.
fn push_call(callees: &mut Items<u32>, cmd: &FlatCmd) -> Result<(), AllocError>
    ensures { OnOk result (callees.new ≡ callees.old ++ calls_of (cmd.now ∷ [])) }
{
    match cmd {
        FlatCmd::Assign(_) => Ok(()),
        FlatCmd::Havoc(_) => Ok(()),
        FlatCmd::Assume(_) => Ok(()),
        FlatCmd::Assert { .. } => Ok(()),
        FlatCmd::Call { proc, .. } => callees.push(*proc),
    }
}

// So do those that the commands call.
fn push_calls(callees: &mut Items<u32>, cmds: &[FlatCmd]) -> Result<(), AllocError>
    ensures { OnOk result (callees.new ≡ callees.old ++ calls_of cmds.now) }
{
    for cmd in cmds {
        push_call(callees, cmd)?;
    }
    Ok(())
}

/// For each block the number of its first site, which is that of the calls in the blocks before it.
pub(crate) fn site_starts(alloc: Global, blocks: &[FlatBlock]) -> Result<Items<usize>, AllocError>
    ensures { IfOk result (λ ns. ns ≡ starts_of blocks.now) }
{
    let mut starts = Items::new(alloc);
    let mut callees = Items::new(alloc);
    for block in blocks {
        starts.push(callees.len())?;
        push_calls(&mut callees, block.cmds.as_slice())?;
    }
    Ok(starts)
}

#[tactic(auto, using(crate::proofs::Bucketing::noted_in, crate::proofs::Bucketing::noted_out))]
// The place of a site stands behind the others of its block, where there is such a block.
fn note(table: &mut Table, count: usize, block: usize, place: usize) -> Result<(), AllocError>
    requires { length table.old ≡ count }
    ensures { OnOk result (spec.IsNoted table.old table.new block place) }
{
    if block >= count {
        return Ok(());
    }
    table.push(block, place)?;
    Ok(())
}

// For each of so many blocks the places of its sites.
fn by_block(alloc: Global, sites: &[SiteTerm], count: usize) -> Result<Table, AllocError>
    ensures count { IfOk result (λ t. length t ≡ count) }
    ensures places { IfOk result (λ t. (n : ℕ) → n < count → row t n ≡ spec.places_in n 0 sites.now) }
{
    let mut table = Table::new(alloc, count)?;
    for (place, site) in sites.iter().enumerate() {
        note(&mut table, count, site.block as usize, place)?;
    }
    Ok(table)
}

// The terms of a site.
fn site_terms(alloc: Global, site: &SiteTerm) -> Result<SiteTerms, AllocError>
    ensures { IfOk result (λ s. s ≡ spec.site_terms site.now) }
{
    let args = Items::from_slice(alloc, site.args.as_slice())?;
    let before = Items::from_slice(alloc, site.globals_before.as_slice())?;
    let outs = Items::from_slice(alloc, site.outs.as_slice())?;
    let after = Items::from_slice(alloc, site.globals_after.as_slice())?;
    Ok(SiteTerms {
        proc: site.proc as usize,
        node: site.node,
        fails: site.failed,
        args,
        before,
        outs,
        after,
    })
}

// The sites at these places stand behind the others.
fn push_sites(
    alloc: Global,
    sorted: &mut Items<SiteTerms>,
    sites: &[SiteTerm],
    places: &[usize],
) -> Result<(), AllocError>
    ensures { OnOk result (sorted.new ≡ sorted.old ++ spec.sites_at sites.now places.now) }
{
    for place in places {
        match at(sites, *place) {
            Some(site) => sorted.push(site_terms(alloc, site)?)?,
            None => {}
        }
    }
    Ok(())
}

/// The sites by number, where there are so many blocks: those of each block in turn, in the order in which they are given.
pub(crate) fn sorted_sites(
    alloc: Global,
    sites: &[SiteTerm],
    count: usize,
) -> Result<Items<SiteTerms>, AllocError>
    ensures { IfOk result (λ ss. ss ≡ spec.sorted_sites count sites.now) }
{
    let table = by_block(alloc, sites, count)?;
    let mut sorted = Items::new(alloc);
    for block in 0..count {
        push_sites(alloc, &mut sorted, sites, table.row(block))?;
    }
    Ok(sorted)
}
