//! Work for benchmarks: makes an input of the size that is asked for, does one piece of work on it, and prints counts of that
//! work. It prints no times; the scripts under `bench/` take them from outside.
#![tactic(auto)]

mod circuits;
mod extracting;
mod formulas;
mod reading;
mod runs;
mod shapes;
mod solving;
mod stores;
mod values;

use circuits::Circuit;
use formulas::Extent;
use hy_text::read_u64;
use shapes::Shape;
use std::alloc::Global;
use std::{env, io};
use stores::Outcome;

/// What is to be done, and how large.
#[derive(Clone, Copy)]
enum Work {
    /// Cuts so many MiB of a program's text into tokens.
    Tokens(u64),
    /// Reads a program of so many MiB.
    Parse(u64),
    /// Reads a program of so many MiB and shows it.
    Show(u64),
    /// Evaluates an expression of so many thousand nodes.
    Values(u64),
    /// Solves random clauses of so many variables.
    Solve(u64),
    /// Builds circuits over words of so many bits.
    Gates(u64),
    /// Takes the maps from a question of so many stores and selects.
    Reduce(u64),
    /// Makes the clauses of such a question.
    Blast(u64),
    /// Decides such a question.
    Decide(u64),
    /// Makes a program of a shape and a size.
    Lower(Shape, u64),
    /// Makes a program of a shape and a size, and takes its loops out.
    Extract(Shape, u64),
    /// Makes a program of so many loops, a failing run tree of its flat program, and the tree's choices.
    Back(u64),
    /// Makes the terms of a procedure.
    Terms(Extent),
    /// Makes the clauses of a procedure.
    Net(Extent),
}

/// The work that the words name; None where they name none.
fn chosen(kind: &str, size: &str) -> Option<Work> {
    let size = read_u64(size.as_bytes()).ok()?;
    match kind {
        "tokens" => Some(Work::Tokens(size)),
        "parse" => Some(Work::Parse(size)),
        "show" => Some(Work::Show(size)),
        "values" => Some(Work::Values(size)),
        "solve" => Some(Work::Solve(size)),
        "gates" => Some(Work::Gates(size)),
        "reduce" => Some(Work::Reduce(size)),
        "blast" => Some(Work::Blast(size)),
        "decide" => Some(Work::Decide(size)),
        "back" => Some(Work::Back(size)),
        _ => None,
    }
}

/// The same where they name a shape too.
fn shaped(kind: &str, shape: &str, size: &str) -> Option<Work> {
    let size = read_u64(size.as_bytes()).ok()?;
    let shape = match shape {
        "procedures" => Shape::Procedures,
        "nests" => Shape::Nests,
        "rows" => Shape::Rows,
        _ => return None,
    };
    match kind {
        "lower" => Some(Work::Lower(shape, size)),
        "extract" => Some(Work::Extract(shape, size)),
        _ => None,
    }
}

/// The work on a procedure that the words name; None where they name none.
fn chosen_formula(kind: &str, blocks: &str, variables: &str) -> Option<Work> {
    let blocks = read_u64(blocks.as_bytes()).ok()?;
    let variables = read_u64(variables.as_bytes()).ok()?;
    let extent = |returns: bool| Extent {
        blocks,
        variables,
        returns,
    };
    match kind {
        "terms" => Some(Work::Terms(extent(false))),
        "returns" => Some(Work::Terms(extent(true))),
        "net" => Some(Work::Net(extent(false))),
        _ => None,
    }
}

/// Prints what the solver did on clauses of so many variables.
fn tell_solved(rt: &HostRuntime, alloc: Global, variables: u64) -> io::Result<()> {
    let counts = solving::decide(alloc, variables)?;
    let verdict = if counts.refuted {
        "refuted"
    } else {
        "satisfiable"
    };
    println!(rt;
        "solve: {variables} variables, {} clauses, {} conflicts, {verdict}",
        counts.clauses, counts.conflicts
    )
}

/// Prints the sizes of circuits over words of so many bits.
fn tell_circuits(rt: &HostRuntime, alloc: Global, width: u64) -> io::Result<()> {
    let sum = circuits::count(alloc, Circuit::Adder, width)?;
    let product = circuits::count(alloc, Circuit::Multiplier, width)?;
    let quotient = circuits::count(alloc, Circuit::Divider, width)?;
    println!(rt;
        "gates: width {width}, adder {} ({} clauses), multiplier {} ({} clauses), divider {} ({} clauses)",
        sum.gates, sum.clauses, product.gates, product.clauses, quotient.gates, quotient.clauses
    )
}

/// Prints what is decided of the question of so many stores and selects.
fn tell_decided(rt: &HostRuntime, alloc: Global, count: u64) -> io::Result<()> {
    match stores::decided(alloc, count)? {
        Outcome::Model(values) => println!(rt; "decide: {count} stores, model of {values} values"),
        Outcome::Refuted(lines) => println!(rt; "decide: {count} stores, refuted by {lines} lines"),
    }
}

/// Prints the sizes of a program.
fn tell_program(rt: &HostRuntime, work: &str, counts: extracting::Counts) -> io::Result<()> {
    println!(rt;
        "{work}: {} procedures, {} blocks, {} commands",
        counts.procs, counts.blocks, counts.commands
    )
}

/// Prints the sizes of a failing run tree of so many loops, and of its choices.
fn tell_back(rt: &HostRuntime, alloc: Global, loops: u64) -> io::Result<()> {
    let loops = loops.min(1_000_000) as u32;
    let counts = extracting::back(alloc, loops)?;
    println!(rt; "back: {} nodes, {} choices", counts.nodes, counts.choices)
}

/// Prints how large the formula of a procedure is.
fn tell_net(rt: &HostRuntime, alloc: Global, extent: Extent) -> io::Result<()> {
    let sizes = formulas::count_net(alloc, extent)?;
    println!(rt;
        "net: {} blocks, {} variables, {} terms, {} gates, {} clauses",
        extent.blocks, extent.variables, sizes.terms, sizes.gates, sizes.clauses
    )
}

/// Does the work and prints its counts.
fn run(rt: &HostRuntime, alloc: Global, work: Work) -> io::Result<()> {
    match work {
        Work::Tokens(size) => {
            let counts = reading::cut(alloc, size)?;
            println!(rt; "tokens: {} bytes, {} tokens", counts.bytes, counts.tokens)
        }
        Work::Parse(size) => {
            let counts = reading::read(alloc, size)?;
            println!(rt;
                "parse: {} bytes, {} declarations",
                counts.bytes, counts.declarations
            )
        }
        Work::Show(size) => {
            let counts = reading::shown(alloc, size)?;
            println!(rt; "show: {} bytes, {} shown", counts.bytes, counts.shown)
        }
        Work::Values(size) => {
            let counts = values::evaluate(alloc, size)?;
            println!(rt; "values: {} nodes, value {}", counts.nodes, counts.value)
        }
        Work::Solve(size) => tell_solved(rt, alloc, size),
        Work::Gates(width) => tell_circuits(rt, alloc, width),
        Work::Reduce(size) => {
            let sizes = stores::reduced(alloc, size)?;
            println!(rt;
                "reduce: {size} stores, {} nodes, {} reduced",
                sizes.nodes, sizes.reduced
            )
        }
        Work::Blast(size) => {
            let sizes = stores::blasted(alloc, size)?;
            println!(rt;
                "blast: {size} stores, {} gates, {} clauses",
                sizes.gates, sizes.clauses
            )
        }
        Work::Decide(size) => tell_decided(rt, alloc, size),
        Work::Lower(shape, size) => {
            tell_program(rt, "lower", extracting::lowered(alloc, shape, size)?)
        }
        Work::Extract(shape, size) => {
            tell_program(rt, "extract", extracting::extracted(alloc, shape, size)?)
        }
        Work::Back(size) => tell_back(rt, alloc, size),
        Work::Terms(extent) => {
            let terms = formulas::count_terms(alloc, extent)?;
            println!(rt;
                "terms: {} blocks, {} variables, {terms} terms",
                extent.blocks, extent.variables
            )
        }
        Work::Net(extent) => tell_net(rt, alloc, extent),
    }
}

fn main(rt: HostRuntime) -> io::Result<()> {
    let alloc = rt.alloc();
    let args = env::args(&rt)?;
    let mut words = Vec::new(alloc);
    for arg in args.skip(1) {
        words.push(arg)?;
    }
    let work = match words.as_slice() {
        [kind, size] => chosen(kind.as_str(), size.as_str()),
        [kind, first, second] => {
            match shaped(kind.as_str(), first.as_str(), second.as_str()) {
                Some(work) => Some(work),
                None => chosen_formula(kind.as_str(), first.as_str(), second.as_str()),
            }
        }
        _ => None,
    };
    match work {
        Some(work) => run(&rt, alloc, work),
        None => println!(rt;
            "usage: hydra_bench tokens MIB | parse MIB | show MIB | values THOUSANDS | solve VARIABLES | gates WIDTH | reduce STORES | blast STORES | decide STORES | back LOOPS | lower SHAPE SIZE | extract SHAPE SIZE | terms BLOCKS VARIABLES | returns BLOCKS VARIABLES | net BLOCKS VARIABLES, where SHAPE is procedures, nests or rows"
        ),
    }
}
