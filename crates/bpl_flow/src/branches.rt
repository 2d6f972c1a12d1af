//! The begin and the end of the parts of `if` and `while` in a walk.
ghost use Rattle.std.specs.Prelude.{◌≡◌, [], ◌∷◌, ◌++◌, true, false, IsTrue, OnOk, IfOk};
ghost use Rattle.bpl_flow.specs.Fits.{is_guard};
ghost use Rattle.bpl_flow.specs.Walk.{begin_else, end_if, begin_body, is_broken, head_block, end_while};

use crate::breaks::Breaks;
use crate::current::{going, parting};
use crate::guards::{assumed, refuted};
use crate::state::{Aim, Current, Ended, Walk};
use hy_val::Expr;
use sqlite_items::Items;
use src_prog::{Cmd, SrcLoop};
use std::alloc::{AllocError, Global};
use std::mem;

/// The head of a loop, which goes to the body behind it and out.
pub fn ended_head(alloc: Global, head: u32, cmds: Items<Cmd>, out: u32) -> Result<Ended, AllocError>
    ensures { IfOk result (λ b. b ≡ head_block head cmds out) }
{
    let body = head.checked_add(1).ok_or(AllocError)?;
    let end = parting(alloc, body, out)?;
    Ok(Ended {
        number: head,
        cmds,
        end,
    })
}

/// Whether a break leaves the loop of a guard.
pub fn is_left(guard: &Option<Expr>, head: u32, breaks: &Breaks) -> bool
    ensures { result ≡ is_broken guard.now head breaks.now }
{
    guard.is_some() && breaks.contains(head)
}

impl Walk {
    /// The then part goes on to the exit, and the else part begins. The guard is a bool.
    pub fn begin_else(
        &mut self,
        alloc: Global,
        statement: u32,
        guard: &Option<Expr>,
    ) -> Result<(), AllocError>
        requires { IsTrue (is_guard guard.now) }
        ensures { OnOk result (self.new ≡ begin_else statement guard.now self.old) }
    {
        let first = refuted(alloc, guard)?;
        let end = going(alloc, Aim::Exit { statement })?;
        self.end_block(end)?;
        self.begin_block(first)
    }

    /// The else part goes on to the exit, which becomes current; the block before the `if` goes to both parts.
    pub fn end_if(
        &mut self,
        alloc: Global,
        before: Option<Current>,
        part: u32,
        other: u32,
    ) -> Result<(), AllocError>
        ensures { OnOk result (self.new ≡ end_if before part other self.old) }
    {
        let end = going(alloc, Aim::Exit { statement: part })?;
        self.end_block(end)?;
        if let Some(current) = before {
            let Current { number, cmds } = current;
            let end = parting(alloc, part, other)?;
            self.ended.push(Ended { number, cmds, end })?;
        }
        self.exits.push((part, self.made))?;
        self.begin_block(Items::new(alloc))
    }

    /// The current block goes to the head of a loop, which is made; then the body begins.
    pub fn begin_body(
        &mut self,
        alloc: Global,
        guard: &Option<Expr>,
        asserts: u32,
    ) -> Result<(), AllocError>
        ensures { OnOk result (self.new ≡ begin_body guard.now asserts self.old) }
    {
        let first = assumed(alloc, guard)?;
        let number = self.made;
        let end = going(alloc, Aim::Block { number })?;
        self.end_block(end)?;
        self.begin_block(Items::new(alloc))?;
        self.asserts = asserts;
        self.loops = Items::new(alloc);
        self.begin_block(first)
    }

    /// The loop stands behind those before it and before those inside it.
    pub fn close_loop(
        &mut self,
        head: u32,
        exit: u32,
        before: Items<SrcLoop>,
    ) -> Result<(), AllocError>
        ensures { OnOk result (self.new ≡ record self.old { loops = before ++ record { head = head; exit = exit } ∷ self.old.loops; exits = self.old.exits ++ (head, exit) ∷ [] }) }
    {
        let inner = mem::replace(&mut self.loops, before);
        self.loops.push(SrcLoop { head, exit })?;
        self.loops.append(inner)?;
        self.exits.push((head, exit))?;
        Ok(())
    }

    /// The end of a loop that no break leaves: its exit begins with the negated guard.
    pub fn end_plain(
        &mut self,
        alloc: Global,
        guard: &Option<Expr>,
        head: u32,
        cmds: Items<Cmd>,
        before: Items<SrcLoop>,
    ) -> Result<(), AllocError>
        requires { IsTrue (is_guard guard.now) }
        ensures { OnOk result (self.new ≡ end_while false guard.now head cmds before self.old) }
    {
        let first = refuted(alloc, guard)?;
        let exit = self.made;
        self.ended.push(ended_head(alloc, head, cmds, exit)?)?;
        let end = going(alloc, Aim::Block { number: head })?;
        self.end_block(end)?;
        self.close_loop(head, exit, before)?;
        self.begin_block(first)
    }

    /// The end of a loop that a break leaves: the negated guard stands in a block of its own, made directly before the exit.
    pub fn end_left(
        &mut self,
        alloc: Global,
        guard: &Option<Expr>,
        head: u32,
        cmds: Items<Cmd>,
        before: Items<SrcLoop>,
    ) -> Result<(), AllocError>
        requires { IsTrue (is_guard guard.now) }
        ensures { OnOk result (self.new ≡ end_while true guard.now head cmds before self.old) }
    {
        let first = refuted(alloc, guard)?;
        self.ended.push(ended_head(alloc, head, cmds, self.made)?)?;
        let end = going(alloc, Aim::Block { number: head })?;
        self.end_block(end)?;
        self.begin_block(first)?;
        let end = going(alloc, Aim::Exit { statement: head })?;
        self.end_block(end)?;
        self.close_loop(head, self.made, before)?;
        self.begin_block(Items::new(alloc))
    }
}
