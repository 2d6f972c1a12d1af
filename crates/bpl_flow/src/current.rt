//! The current block of a walk: how it begins, grows and ends.
ghost use Rattle.std.specs.Prelude.{◌≡◌, [], ◌∷◌, OnOk, IfOk};
ghost use Rattle.bpl_flow.specs.Walk.{begin, stop, start, in_block, append, command, asserted};
ghost use Rattle.bpl_flow.specs.declared.state.Aim.TheVariants.{Block};
ghost use Rattle.bpl_flow.specs.declared.state.End.TheVariants.{Goes};

use crate::breaks::Breaks;
use crate::places::Places;
use crate::state::{Aim, Current, End, Ended, Walk};
use hy_val::Expr;
use sqlite_items::Items;
use src_prog::Cmd;
use std::alloc::{AllocError, Global};

/// An end with one edge.
pub fn going(alloc: Global, aim: Aim) -> Result<End, AllocError>
    ensures { IfOk result (λ e. e ≡ Goes (aim ∷ [])) }
{
    let mut aims = Items::new(alloc);
    aims.push(aim)?;
    Ok(End::Goes { aims })
}

/// An end with an edge to each of two blocks, in order.
pub fn parting(alloc: Global, first: u32, second: u32) -> Result<End, AllocError>
    ensures { IfOk result (λ e. e ≡ Goes (Block first ∷ Block second ∷ [])) }
{
    let mut aims = Items::new(alloc);
    aims.push(Aim::Block { number: first })?;
    aims.push(Aim::Block { number: second })?;
    Ok(End::Goes { aims })
}

impl Walk {
    /// The walk at the begin of a body: block 0 is current.
    pub fn at_begin(alloc: Global) -> Walk
        ensures { result ≡ begin }
    {
        let cmds = Items::new(alloc);
        Walk {
            made: 1,
            asserts: 0,
            current: Some(Current { number: 0, cmds }),
            ended: Items::new(alloc),
            loops: Items::new(alloc),
            exits: Items::new(alloc),
            places: Places::new(alloc),
            jumps: Items::new(alloc),
            breaks: Breaks::new(alloc),
            faults: Items::new(alloc),
        }
    }

    /// The current block ends so, where there is one.
    pub fn end_block(&mut self, end: End) -> Result<(), AllocError>
        ensures { OnOk result (self.new ≡ stop end self.old) }
    {
        if let Some(current) = self.current.take() {
            let Current { number, cmds } = current;
            self.ended.push(Ended { number, cmds, end })?;
        }
        Ok(())
    }

    /// A new block becomes current; it begins with these commands. More than 2^32 - 1 blocks are want of memory.
    pub fn begin_block(&mut self, first: Items<Cmd>) -> Result<(), AllocError>
        ensures { OnOk result (self.new ≡ start first self.old) }
    {
        let number = self.made;
        self.made = number.checked_add(1).ok_or(AllocError)?;
        self.current = Some(Current {
            number,
            cmds: first,
        });
        Ok(())
    }

    /// Where there is no current block, one is made.
    pub fn ensure_block(&mut self, alloc: Global) -> Result<(), AllocError>
        ensures { OnOk result (self.new ≡ in_block self.old) }
    {
        if self.current.is_none() {
            self.begin_block(Items::new(alloc))?;
        }
        Ok(())
    }

    /// The current block gets one more command.
    pub fn add(&mut self, cmd: Cmd) -> Result<(), AllocError>
        ensures { OnOk result (self.new ≡ append cmd self.old) }
    {
        if let Some(mut current) = self.current.take() {
            current.cmds.push(cmd)?;
            self.current = Some(current);
        }
        Ok(())
    }

    /// A command that is no jump.
    pub fn command(&mut self, alloc: Global, cmd: Cmd) -> Result<(), AllocError>
        ensures { OnOk result (self.new ≡ command cmd self.old) }
    {
        self.ensure_block(alloc)?;
        self.add(cmd)
    }

    /// An assert, which gets the next number. More than 2^32 - 1 asserts are want of memory.
    pub fn assertion(&mut self, alloc: Global, condition: Expr) -> Result<(), AllocError>
        ensures { OnOk result (self.new ≡ asserted condition self.old) }
    {
        let number = self.asserts.checked_add(1).ok_or(AllocError)?;
        let cmd = Cmd::Assert {
            number,
            expr: condition,
        };
        self.command(alloc, cmd)?;
        self.asserts = number;
        Ok(())
    }
}
