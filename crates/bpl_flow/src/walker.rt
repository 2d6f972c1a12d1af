//! The walk over statements: a recursion over the tree, which the reader bounds at 200 levels.
ghost use Rattle.std.specs.Prelude.{◌≡◌, List, [], ◌∷◌, ◌++◌, map, true, false, IsTrue, OnOk, IfOk};
ghost use Rattle.bpl_flow.specs.Fits.{Fits, AllFit, is_guard};
ghost use Rattle.bpl_flow.specs.Flow.{walked};
ghost use Rattle.bpl_flow.specs.Walk.{walk, go_all, in_block, begin_part, begin_body, add_invariants, is_broken, end_while, end_if};
ghost use Rattle.bpl_flow.specs.declared.state.Around.{Around};

use crate::branches::is_left;
use crate::copies::{args_of, pairs_of};
use crate::guards::{assumed, head_of};
use crate::jumps::copy_name;
use crate::state::{Around, Current, End, Walk};
use bpl_ast::Name;
use bpl_type::{TypedBody, TypedInvariant, TypedStmt};
use hy_val::Expr;
use sqlite_items::Items;
use src_prog::{Cmd, SrcLoop};
use std::alloc::{AllocError, Global};
use std::mem;

/// The name of a statement that is a label.
#[tactic(auto, using(crate::proofs::WalkEquations::walks))]
pub fn label_of(alloc: Global, statement: &TypedStmt) -> Result<Option<Name>, AllocError>
    ensures { IfOk result (λ name. name ≡ (walk statement.now).label) }
{
    match statement {
        TypedStmt::Label { name } => Ok(Some(copy_name(alloc, name)?)),
        TypedStmt::Assert { .. }
        | TypedStmt::Assume { .. }
        | TypedStmt::Havoc { .. }
        | TypedStmt::Goto { .. }
        | TypedStmt::Return
        | TypedStmt::Break { .. }
        | TypedStmt::Assign { .. }
        | TypedStmt::Call { .. }
        | TypedStmt::If { .. }
        | TypedStmt::While { .. } => Ok(None),
    }
}

/// A statement that is being walked: what its end asks for.
#[derive(Drop)]
pub struct Entered {
    /// The number of the statement.
    pub number: u32,
    /// For an `if`, the block before it.
    pub before: Option<Current>,
    /// For a `while`, the commands of its head.
    pub head: Items<Cmd>,
    /// For a `while`, the loops before it.
    pub loops: Items<SrcLoop>,
}

impl Walk {
    /// The begin of an `if`, and of its then part.
    pub fn enter_if(
        &mut self,
        alloc: Global,
        around: &mut Items<Around>,
        guard: &Option<Expr>,
        label: Option<Name>,
    ) -> Result<Entered, AllocError>
        ensures around { OnOk result (around.new ≡ around.old ++ record { statement = (in_block self.old).made; label = label; is_loop = false } ∷ []) }
        ensures number { IfOk result (λ e. e.number ≡ (in_block self.old).made) }
        ensures before { IfOk result (λ e. e.before ≡ (in_block self.old).current) }
        ensures begun { OnOk result (self.new ≡ begin_part guard.now (in_block self.old)) }
    {
        self.ensure_block(alloc)?;
        let number = self.made;
        let before = self.current.take();
        let statement = number;
        let is_loop = false;
        around.push(Around {
            statement,
            label,
            is_loop,
        })?;
        let first = assumed(alloc, guard)?;
        self.begin_block(first)?;
        Ok(Entered {
            number,
            before,
            head: Items::new(alloc),
            loops: Items::new(alloc),
        })
    }

    /// The begin of a `while`: its head, and then its body.
    pub fn enter_while(
        &mut self,
        alloc: Global,
        around: &mut Items<Around>,
        guard: &Option<Expr>,
        invariants: &[TypedInvariant],
        label: Option<Name>,
    ) -> Result<Entered, AllocError>
        ensures around { OnOk result (around.new ≡ around.old ++ record { statement = (in_block self.old).made; label = label; is_loop = true } ∷ []) }
        ensures number { IfOk result (λ e. e.number ≡ (in_block self.old).made) }
        ensures head { IfOk result (λ e. e.head ≡ (add_invariants invariants.now [] (in_block self.old).asserts).0) }
        ensures loops { IfOk result (λ e. e.loops ≡ (in_block self.old).loops) }
        ensures begun { OnOk result (self.new ≡ begin_body guard.now (add_invariants invariants.now [] (in_block self.old).asserts).1 (in_block self.old)) }
    {
        self.ensure_block(alloc)?;
        let number = self.made;
        let head = head_of(alloc, invariants, self.asserts)?;
        let loops = mem::replace(&mut self.loops, Items::new(alloc));
        let statement = number;
        let is_loop = true;
        around.push(Around {
            statement,
            label,
            is_loop,
        })?;
        self.begin_body(alloc, guard, head.asserts)?;
        Ok(Entered {
            number,
            before: None,
            head: head.cmds,
            loops,
        })
    }

    /// The end of a `while`. The guard is a bool.
    #[tactic(auto, using(crate::proofs::Lists::before_last))]
    pub fn leave_while(
        &mut self,
        alloc: Global,
        around: &mut Items<Around>,
        guard: &Option<Expr>,
        entered: Entered,
    ) -> Result<(), AllocError>
        requires { IsTrue (is_guard guard.now) }
        ensures around { OnOk result ((outer : List Around) (last : Around) → around.old ≡ outer ++ last ∷ [] → around.new ≡ outer) }
        ensures ended { OnOk result (self.new ≡ end_while (is_broken guard.now entered.number self.old.breaks) guard.now entered.number entered.head entered.loops self.old) }
    {
        around.pop();
        let Entered {
            number,
            before: _,
            head,
            loops,
        } = entered;
        if is_left(guard, number, &self.breaks) {
            self.end_left(alloc, guard, number, head, loops)
        } else {
            self.end_plain(alloc, guard, number, head, loops)
        }
    }

    /// The end of an `if`, where its else part began at a block.
    #[tactic(auto, using(crate::proofs::Lists::before_last))]
    pub fn leave_if(
        &mut self,
        alloc: Global,
        around: &mut Items<Around>,
        entered: Entered,
        other: u32,
    ) -> Result<(), AllocError>
        ensures around { OnOk result ((outer : List Around) (last : Around) → around.old ≡ outer ++ last ∷ [] → around.new ≡ outer) }
        ensures ended { OnOk result (self.new ≡ end_if entered.before entered.number other self.old) }
    {
        around.pop();
        let Entered {
            number,
            before,
            head: _,
            loops: _,
        } = entered;
        self.end_if(alloc, before, number, other)
    }

    /// A statement of a body that fits, among the statements around it and with the label directly before it.
    #[cycle(walk)]
    #[tactic(auto, using(crate::proofs::WalkEquations::walks))]
    pub fn statement(
        &mut self,
        alloc: Global,
        around: &mut Items<Around>,
        statement: &TypedStmt,
        before: Option<Name>,
    ) -> Result<(), AllocError>
        requires { Fits statement.now }
        ensures kept { OnOk result (around.new ≡ around.old) }
        ensures walked { OnOk result (self.new ≡ (walk statement.now).go around.old before self.old) }
    {
        match statement {
            TypedStmt::Label { name } => self.label(alloc, around.as_slice(), name),
            TypedStmt::Assert { condition } => self.assertion(alloc, condition.copy(alloc)?),
            TypedStmt::Assume { condition } => {
                self.command(alloc, Cmd::Assume(condition.copy(alloc)?))
            }
            TypedStmt::Havoc { vars } => {
                let vars = Items::from_slice(alloc, vars.as_slice())?;
                self.command(alloc, Cmd::Havoc(vars))
            }
            TypedStmt::Goto { labels } => { self.goto(alloc, around.as_slice(), labels.as_slice()) }
            TypedStmt::Return => {
                self.ensure_block(alloc)?;
                self.end_block(End::Returns)
            }
            TypedStmt::Break { at, label } => {
                self.break_out(alloc, around.as_slice(), label, *at)
            }
            TypedStmt::Assign { pairs } => {
                let pairs = pairs_of(alloc, pairs.as_slice())?;
                self.command(alloc, Cmd::Assign(pairs))
            }
            TypedStmt::Call { proc, args, outs } => {
                let args = args_of(alloc, args.as_slice())?;
                let outs = Items::from_slice(alloc, outs.as_slice())?;
                let proc = *proc;
                self.command(alloc, Cmd::Call { proc, args, outs })
            }
            TypedStmt::If { guard, then, other } => {
                let entered = self.enter_if(alloc, around, guard, before)?;
                self.statements(alloc, around, then.as_slice())?;
                let second = self.made;
                self.begin_else(alloc, entered.number, guard)?;
                self.statements(alloc, around, other.as_slice())?;
                self.leave_if(alloc, around, entered, second)
            }
            TypedStmt::While {
                guard,
                invariants,
                body,
            } => {
                let entered = self.enter_while(
                    alloc,
                    around,
                    guard,
                    invariants.as_slice(),
                    before,
                )?;
                self.statements(alloc, around, body.as_slice())?;
                self.leave_while(alloc, around, guard, entered)
            }
        }
    }

    /// Statements of a body that fit, in order.
    #[cycle(walk)]
    pub fn statements(
        &mut self,
        alloc: Global,
        around: &mut Items<Around>,
        statements: &[TypedStmt],
    ) -> Result<(), AllocError>
        requires { AllFit statements.now }
        ensures kept { OnOk result (around.new ≡ around.old) }
        ensures walked { OnOk result (self.new ≡ go_all (map walk statements.now) around.old None self.old) }
    {
        let mut before = None;
        for statement in statements {
            let label = label_of(alloc, statement)?;
            self.statement(alloc, around, statement, before)?;
            before = label;
        }
        Ok(())
    }
}

/// The whole walk of a body that fits.
pub fn walk_body(alloc: Global, body: &TypedBody) -> Result<Walk, AllocError>
    requires { AllFit body.now.statements }
    ensures { IfOk result (λ w. w ≡ walked body.now) }
{
    let mut walk = Walk::at_begin(alloc);
    let mut around = Items::new(alloc);
    walk.statements(alloc, &mut around, body.statements.as_slice())?;
    walk.end_block(End::Returns)?;
    Ok(walk)
}
