//! Formulas of procedures: how many terms, gates and clauses they have.
ghost use Rattle.std.specs.Prelude.{◌≡◌, ◌<◌, length};
ghost use Rattle.vc_gen.specs.Fitting.{PassiveFits};

use bit_blast::blast;
use flat_parts::flat_of;
use flat_prog::{Flat, FlatBlock, FlatCmd, FlatKind, FlatNext, FlatProc, limits};
use gate_net::clauses;
use hy_term::{TermBuilder, Terms};
use hy_val::{Atom, BitVec, BvOp, Expr, ExprBuilder, ExprNode, Scalar, Sort, Var, Width};
use map_axioms::reduce;
use passive_form::{Passive, passive_form_of};
use sqlite_items::Items;
use std::alloc::{AllocError, Global};
use vc_gen::{Actuals, Instance, instance, passive_forms_are_ready};

/// A procedure: how many blocks and variables it has, and how it ends. It is a row of diamonds of three blocks: an assert, a branch
/// that assigns one of the first five variables, and one that does nothing.
#[derive(Clone, Copy)]
pub struct Extent {
    /// How many blocks there are, about.
    pub blocks: u64,
    /// How many variables there are, at least five.
    pub variables: u64,
    /// Whether the branch that does nothing returns, rather than go to the next diamond.
    pub returns: bool,
}

/// How large a formula is as a net.
#[derive(Clone, Copy)]
pub struct NetSizes {
    /// The terms.
    pub terms: usize,
    /// The gates, the two constants among them.
    pub gates: usize,
    /// The clauses of the net.
    pub clauses: usize,
}

// The sort of all variables.
fn word() -> Sort {
    Sort::scalar(Scalar::bits(Width::new(32)))
}

// `var op 1`. What doesn't fit counts as want of memory.
fn by_one(alloc: Global, var: Var, op: BvOp) -> Result<Expr, AllocError> {
    let nodes = [
        ExprNode::Var { var, sort: word() },
        ExprNode::Lit(Atom::bits(BitVec::new(Width::new(32), 1))),
        ExprNode::Binary {
            op,
            left: 0,
            right: 1,
        },
    ];
    let mut builder = ExprBuilder::new(alloc);
    for node in &nodes {
        if builder.try_add(*node)?.is_none() {
            return Err(AllocError);
        }
    }
    if builder.len() < 3 {
        return Err(AllocError);
    }
    Ok(builder.finish(2))
}

// A block with at most one command, and where it goes; it returns where there is no target.
fn block(alloc: Global, cmd: Option<FlatCmd>, targets: &[u32]) -> Result<FlatBlock, AllocError> {
    let mut cmds = Items::new(alloc);
    if let Some(cmd) = cmd {
        cmds.push(cmd)?;
    }
    let next = if targets.is_empty() {
        FlatNext::Return
    } else {
        FlatNext::Goto(Items::from_slice(alloc, targets)?)
    };
    Ok(FlatBlock { cmds, next })
}

// An assert that the variable is not 1.
fn claim(alloc: Global, var: Var) -> Result<FlatCmd, AllocError> {
    Ok(FlatCmd::Assert {
        proc: 0,
        number: 1,
        expr: by_one(alloc, var, BvOp::Ne)?,
    })
}

// The variable becomes 1 higher.
fn raise(alloc: Global, var: Var) -> Result<FlatCmd, AllocError> {
    let value = by_one(alloc, var, BvOp::BvAdd)?;
    let mut pairs = Items::new(alloc);
    pairs.push((var, value))?;
    Ok(FlatCmd::Assign(pairs))
}

// One more block.
fn push_block(
    alloc: Global,
    blocks: &mut Items<FlatBlock>,
    cmd: Option<FlatCmd>,
    targets: &[u32],
) -> Result<(), AllocError> {
    let block = block(alloc, cmd, targets)?;
    blocks.push(block)
}

// The blocks of a diamond, the first of which has this number.
fn push_diamond(
    alloc: Global,
    blocks: &mut Items<FlatBlock>,
    returns: bool,
    first: u32,
) -> Result<(), AllocError> {
    let var = Var::Local(first % 5);
    let second = first.saturating_add(1);
    let third = first.saturating_add(2);
    let behind = [first.saturating_add(3)];
    let claim = claim(alloc, var)?;
    push_block(alloc, blocks, Some(claim), &[second, third])?;
    let raise = raise(alloc, var)?;
    push_block(alloc, blocks, Some(raise), &behind)?;
    let targets = if returns { &behind[1..] } else { &behind[..] };
    push_block(alloc, blocks, None, targets)
}

// The procedure.
fn procedure(alloc: Global, extent: Extent) -> Result<FlatProc, AllocError> {
    let mut blocks = Items::new(alloc);
    let mut first: u32 = 0;
    for _diamond in 0..extent.blocks / 3 {
        push_diamond(alloc, &mut blocks, extent.returns, first)?;
        first = first.saturating_add(3);
    }
    push_block(alloc, &mut blocks, None, &[])?;
    let locals = vec![in alloc; word(); extent.variables as usize]?;
    Ok(FlatProc {
        kind: FlatKind::Source { proc: 0 },
        ins: Items::new(alloc),
        outs: Items::new(alloc),
        locals: Items::from_vec(locals),
        blocks,
    })
}

// The terms of a passive form that is called with nothing; what is called with something counts as want of memory.
fn instance_of(alloc: Global, passive: &Passive) -> Result<(Terms, Instance), AllocError>
    requires { PassiveFits passive.now }
{
    let actuals = Actuals {
        consts: Items::new(alloc),
        globals: Items::new(alloc),
        args: Items::new(alloc),
    };
    let mut terms = Terms::new(alloc)?;
    if passive.consts.len() != 0 || passive.globals.len() != 0 || passive.ins.len() != 0 {
        return Err(AllocError);
    }
    let instance = instance(alloc, &mut terms, passive, &actuals, 0)?;
    Ok((terms, instance))
}

// The formula of a procedure of the program.
fn formula_of(alloc: Global, flat: &Flat, proc: u32) -> Result<(Terms, Instance), AllocError>
    requires { proc < length flat.now.procs }
{
    passive_forms_are_ready();
    // Reading the constants also gives that the program is one.
    let _consts = flat.consts();
    let limits = limits(alloc, flat)?;
    let passive = passive_form_of(alloc, flat, limits.as_slice(), proc)?;
    instance_of(alloc, &passive)
}

// The formula of the procedure.
fn formula(alloc: Global, extent: Extent) -> Result<(Terms, Instance), AllocError> {
    let mut procs = Items::new(alloc);
    procs.push(procedure(alloc, extent)?)?;
    let flat = match flat_of(alloc, Items::new(alloc), Items::new(alloc), procs)? {
        Some(flat) => flat,
        None => return Err(AllocError),
    };
    if flat.procs().len() == 0 {
        return Err(AllocError);
    }
    formula_of(alloc, &flat, 0)
}

/// How many terms the formula of the procedure has.
pub fn count_terms(alloc: Global, extent: Extent) -> Result<usize, AllocError> {
    let (terms, _instance) = formula(alloc, extent)?;
    Ok(terms.nodes().len())
}

// The same terms, about the node of this number.
fn about(alloc: Global, terms: &Terms, root: usize) -> Result<Terms, AllocError> {
    let mut builder = TermBuilder::new(alloc)?;
    for (place, node) in terms.nodes().iter().enumerate() {
        // The first node is there at once.
        if 0 < place {
            builder.try_add(*node)?;
        }
    }
    builder.finish(root).ok_or(AllocError)
}

/// The sizes of the net of the question whether the procedure can fail.
pub fn count_net(alloc: Global, extent: Extent) -> Result<NetSizes, AllocError> {
    let (terms, instance) = formula(alloc, extent)?;
    let question = about(alloc, &terms, instance.fails)?;
    let (reduced, _plan) = reduce(alloc, &question)?;
    let net = blast(alloc, &reduced)?;
    let cnf = clauses(alloc, &net)?;
    Ok(NetSizes {
        terms: terms.nodes().len(),
        gates: net.wires().saturating_sub(net.inputs),
        clauses: cnf.clauses.len(),
    })
}
