//! Formulas of procedures, made from their passive forms.
ghost use Rattle.std.specs.Prelude.{◌≡◌, ◌<◌, length, IfOk};
ghost use Rattle.proc_template.specs.Template.{AreTemplates, IsFit, IsMadeOf, IsTemplateOf};

use crate::layout::{Layout, lay_out};
use crate::sites::sorted_sites;
use crate::starting::begin;
use crate::track::track;
use flat_prog::{Flat, FlatBlock};
use hy_term::Terms;
use passive_form::{Passive, passive_form_of};
use sqlite_items::{Items, at};
use std::alloc::{AllocError, Global};
use tree_terms::Template;
use vc_gen::{Instance, instance, passive_forms_are_ready};

// The formula of a passive form, for the procedure of this number, which has these blocks.
fn of_passive(
    alloc: Global,
    proc: u32,
    blocks: &[FlatBlock],
    passive: &Passive,
) -> Result<Template, AllocError>
    requires { IsFit blocks.now passive.now }
    ensures { IfOk result (λ t. IsMadeOf proc blocks.now passive.now t) }
{
    let mut terms = Terms::new(alloc)?;
    let actuals = begin(alloc, &mut terms, passive)?;
    let next = terms.nodes().len() - 1;
    let instance = instance(alloc, &mut terms, passive, &actuals, next)?;
    let layout = lay_out(alloc, blocks, passive)?;
    let sites = sorted_sites(alloc, instance.sites.as_slice(), blocks.len())?;
    let track = track(alloc, proc, blocks, terms.nodes(), &layout, &instance)?;
    let nodes = Items::from_slice(alloc, terms.nodes())?;
    let Layout { roles, .. } = layout;
    let Instance {
        ended,
        outs,
        globals,
        fails,
        ..
    } = instance;
    Ok(Template {
        nodes,
        roles,
        sites,
        track,
        ends: ended,
        fails,
        outs,
        globals,
    })
}

/// The formula of the procedure of this number, over variables of its own, where the table has a row for each procedure: for each
/// global, whether a call of the procedure may change it.
///
/// The first variables are the constants, the globals and the ins, numbered from 0 in this order. The sites are numbered by block and
/// by call. `AllocError` comes for want of memory, or of numbers: more than 2 ^ 32 versions or calls of a block.
pub fn make_template(
    alloc: Global,
    flat: &Flat,
    limits: &[Items<bool>],
    proc: u32,
) -> Result<Template, AllocError>
    requires { proc < length flat.now.procs }
    ensures { IfOk result (λ t. IsTemplateOf flat.now limits.now proc t) }
{
    passive_forms_are_ready();
    // Reading the constants also gives that the program is one.
    let _consts = flat.consts();
    let passive = passive_form_of(alloc, flat, limits, proc)?;
    match at(flat.procs(), proc as usize) {
        Some(found) => {
            let template = of_passive(alloc, proc, found.blocks.as_slice(), &passive)?;
            Ok(template)
        }
        None => unreachable!(),
    }
}

/// The formulas of all procedures, in order, each as `make_template` makes it. `AllocError` comes where it comes there.
pub fn templates(
    alloc: Global,
    flat: &Flat,
    limits: &[Items<bool>],
) -> Result<Items<Template>, AllocError>
    ensures { IfOk result (λ ts. AreTemplates flat.now limits.now ts) }
{
    // Reading the constants also gives that 32 bits number the procedures.
    let _consts = flat.consts();
    let mut templates = Items::new(alloc);
    for proc in 0..flat.procs().len() {
        let template = make_template(alloc, flat, limits, proc as u32)?;
        templates.push(template)?;
    }
    Ok(templates)
}
