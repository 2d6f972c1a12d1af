//! Labels, gotos and breaks in a walk.
ghost use Rattle.std.specs.Prelude.{◌≡◌, map, OnOk, IfOk};
ghost use Rattle.bpl_flow.specs.Walk.{loops_of, label, place_label, twice, goto, jump_of, has_label, leaves, left_by, break_to, in_block};
ghost use Rattle.bpl_flow.specs.declared.state.Aim.TheVariants.{Label};

use crate::current::going;
use crate::fault::{FlowFault, FlowKind};
use crate::places::Places;
use crate::state::{Aim, Around, End, Jump, Place, Walk};
use bpl_ast::Name;
use sqlite_items::Items;
use std::alloc::{AllocError, Global};

/// An equal name.
pub fn copy_name(alloc: Global, name: &Name) -> Result<Name, AllocError>
    ensures { IfOk result (λ n. n ≡ name.now) }
{
    let text = Items::from_slice(alloc, name.text.as_slice())?;
    Ok(Name { at: name.at, text })
}

/// The loops among statements, in order.
pub fn loops_among(alloc: Global, around: &[Around]) -> Result<Items<u32>, AllocError>
    ensures { IfOk result (λ ls. ls ≡ loops_of around.now) }
{
    let mut loops = Items::new(alloc);
    for outer in around {
        if outer.is_loop {
            loops.push(outer.statement)?;
        }
    }
    Ok(loops)
}

/// A name in a goto, among statements and behind labels.
pub fn jump(
    alloc: Global,
    around: &[Around],
    places: &Places,
    name: &Name,
) -> Result<Jump, AllocError>
    ensures { IfOk result (λ j. j ≡ jump_of around.now places.now name.now) }
{
    let is_behind = places.contains(name.text.as_slice());
    let loops = loops_among(alloc, around)?;
    let name = copy_name(alloc, name)?;
    Ok(Jump {
        name,
        is_behind,
        loops,
    })
}

/// The names in a goto, in order.
pub fn jumps_to(
    alloc: Global,
    around: &[Around],
    places: &Places,
    names: &[Name],
) -> Result<Items<Jump>, AllocError>
    ensures { IfOk result (λ js. js ≡ map (jump_of around.now places.now) names.now) }
{
    let mut jumps = Items::new(alloc);
    for name in names {
        jumps.push(jump(alloc, around, places, name)?)?;
    }
    Ok(jumps)
}

/// The edges of a goto, in order.
pub fn aims_at(alloc: Global, names: &[Name]) -> Result<Items<Aim>, AllocError>
    ensures { IfOk result (λ aims. aims ≡ map (λ n. Label n.text) names.now) }
{
    let mut aims = Items::new(alloc);
    for target in names {
        let name = Items::from_slice(alloc, target.text.as_slice())?;
        aims.push(Aim::Label { name })?;
    }
    Ok(aims)
}

/// Whether a statement has this label directly before it.
pub fn is_labelled(outer: &Around, name: &Name) -> bool
    ensures { result ≡ has_label name.now.text outer.now.label }
{
    match &outer.label {
        None => false,
        Some(label) => label.text.as_slice() == name.text.as_slice(),
    }
}

/// Whether a break with this label, or without one, may leave a statement.
pub fn may_leave(label: &Option<Name>, outer: &Around) -> bool
    ensures { result ≡ leaves label.now outer.now }
{
    match label {
        None => outer.is_loop,
        Some(name) => is_labelled(outer, name),
    }
}

/// The innermost statement that a break leaves, where there is one. The statements stand with the outermost first.
pub fn innermost(label: &Option<Name>, around: &[Around]) -> Option<u32>
    ensures { result ≡ left_by label.now None around.now }
{
    let mut found = None;
    for outer in around {
        if may_leave(label, outer) {
            found = Some(outer.statement);
        }
    }
    found
}

impl Walk {
    /// The first place of a label is kept; a second one is a fault.
    pub fn place(&mut self, alloc: Global, around: &[Around], name: &Name) -> Result<(), AllocError>
        ensures { OnOk result (self.new ≡ record self.old { places = place_label around.now name.now self.old.made self.old.places; faults = twice name.now self.old.places self.old.faults }) }
    {
        let block = self.made;
        if self.places.contains(name.text.as_slice()) {
            let at = name.at;
            let kind = FlowKind::LabelTwice;
            self.faults.push(FlowFault { at, kind })?;
            return Ok(());
        }
        let loops = loops_among(alloc, around)?;
        let name = Items::from_slice(alloc, name.text.as_slice())?;
        self.places.add(alloc, Place { name, block, loops })
    }

    /// A label makes a block, to which the current one goes, and which becomes current.
    pub fn label(&mut self, alloc: Global, around: &[Around], name: &Name) -> Result<(), AllocError>
        ensures { OnOk result (self.new ≡ label around.now name.now self.old) }
    {
        self.place(alloc, around, name)?;
        let number = self.made;
        let end = going(alloc, Aim::Block { number })?;
        self.end_block(end)?;
        self.begin_block(Items::new(alloc))
    }

    /// The current block ends with edges to the labels, in order.
    pub fn goto(
        &mut self,
        alloc: Global,
        around: &[Around],
        names: &[Name],
    ) -> Result<(), AllocError>
        ensures { OnOk result (self.new ≡ goto around.now names.now self.old) }
    {
        let jumps = jumps_to(alloc, around, &self.places, names)?;
        let aims = aims_at(alloc, names)?;
        self.ensure_block(alloc)?;
        self.jumps.append(jumps)?;
        self.end_block(End::Goes { aims })
    }

    /// The current block ends with an edge past the statement; a break that leaves none is a fault.
    pub fn break_from(
        &mut self,
        alloc: Global,
        left: Option<u32>,
        at: usize,
    ) -> Result<(), AllocError>
        ensures { OnOk result (self.new ≡ break_to left at self.old) }
    {
        match left {
            None => {
                let kind = FlowKind::BreakOutside;
                self.faults.push(FlowFault { at, kind })?;
                self.end_block(End::Returns)
            }
            Some(statement) => {
                self.breaks.add(statement)?;
                let end = going(alloc, Aim::Exit { statement })?;
                self.end_block(end)
            }
        }
    }

    /// A break, with its label or without one.
    pub fn break_out(
        &mut self,
        alloc: Global,
        around: &[Around],
        label: &Option<Name>,
        at: usize,
    ) -> Result<(), AllocError>
        ensures { OnOk result (self.new ≡ break_to (left_by label.now None around.now) at (in_block self.old)) }
    {
        let left = innermost(label, around);
        self.ensure_block(alloc)?;
        self.break_from(alloc, left, at)
    }
}
