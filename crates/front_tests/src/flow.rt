//! The blocks of small bodies, written out, and the first fault of others.
ghost use Rattle.std.specs.Prelude.{◌≡◌, [], ◌∷◌, true, IfOk, IsTrue};
ghost use Rattle.bpl_flow.specs.Anywhere.{Anywhere, AllAnywhere};
ghost use Rattle.bpl_type.specs.WellTyped.{is_typed};
ghost use Rattle.hy_val.specs.declared.atom.AtomKind.TheVariants.{Bool as Truth};
ghost use Rattle.hy_val.specs.declared.expr.ExprNode.TheVariants.{Lit};

use bpl_ast::Name;
use bpl_flow::{FlowKind, lower};
use bpl_type::{Typed, TypedBody, TypedProc, TypedStmt};
use hy_text::Or;
use hy_val::{Atom, Expr, ExprNode};
use sqlite_items::Items;
use src_prog::{Cmd, Next, Prog, SrcBlock};
use std::alloc::{AllocError, Global};
use std::test::Fail;

// ---- statements

fn name(alloc: Global, at: usize, text: &[u8]) -> Result<Name, AllocError> {
    let text = Items::from_slice(alloc, text)?;
    Ok(Name { at, text })
}

fn truth(alloc: Global) -> Result<Expr, AllocError>
    ensures { IfOk result (λ e. e ≡ Lit (Truth true) ∷ []) }
{
    let nodes = Items::from_slice(alloc, &[ExprNode::Lit(Atom::bool(true))])?;
    Ok(Expr::new(nodes))
}

#[tactic(auto, using(bpl_flow::proofs::Anywhere::anywhere))]
fn assertion(alloc: Global) -> Result<TypedStmt, AllocError>
    ensures { IfOk result (λ s. Anywhere s) }
{
    let condition = truth(alloc)?;
    Ok(TypedStmt::Assert { condition })
}

#[tactic(auto, using(bpl_flow::proofs::Anywhere::anywhere))]
fn label(alloc: Global, at: usize, text: &[u8]) -> Result<TypedStmt, AllocError>
    ensures { IfOk result (λ s. Anywhere s) }
{
    let name = name(alloc, at, text)?;
    Ok(TypedStmt::Label { name })
}

// A goto that names the label once.
#[tactic(auto, using(bpl_flow::proofs::Anywhere::anywhere))]
fn goto(alloc: Global, at: usize, text: &[u8]) -> Result<TypedStmt, AllocError>
    ensures { IfOk result (λ s. Anywhere s) }
{
    let mut labels = Items::new(alloc);
    labels.push(name(alloc, at, text)?)?;
    Ok(TypedStmt::Goto { labels })
}

// A goto that names the label twice.
#[tactic(auto, using(bpl_flow::proofs::Anywhere::anywhere))]
fn goto_twice(alloc: Global, at: usize, text: &[u8]) -> Result<TypedStmt, AllocError>
    ensures { IfOk result (λ s. Anywhere s) }
{
    let mut labels = Items::new(alloc);
    labels.push(name(alloc, at, text)?)?;
    labels.push(name(alloc, at, text)?)?;
    Ok(TypedStmt::Goto { labels })
}

// A break out of the innermost loop.
#[tactic(auto, using(bpl_flow::proofs::Anywhere::anywhere))]
fn plain_break(at: usize) -> TypedStmt
    ensures { Anywhere result }
{
    TypedStmt::Break { at, label: None }
}

// A break out of a statement with a label.
#[tactic(auto, using(bpl_flow::proofs::Anywhere::anywhere))]
fn break_of(alloc: Global, at: usize, text: &[u8]) -> Result<TypedStmt, AllocError>
    ensures { IfOk result (λ s. Anywhere s) }
{
    let label = Some(name(alloc, at, text)?);
    Ok(TypedStmt::Break { at, label })
}

// `if (*) { part } else { other }`
#[tactic(auto, using(bpl_flow::proofs::Anywhere::anywhere))]
fn choice(part: Items<TypedStmt>, other: Items<TypedStmt>) -> TypedStmt
    requires part { AllAnywhere part }
    requires other { AllAnywhere other }
    ensures { Anywhere result }
{
    TypedStmt::If {
        guard: None,
        then: part,
        other,
    }
}

// `while (*) { body }`
#[tactic(auto, using(bpl_flow::proofs::Anywhere::anywhere))]
fn repetition(alloc: Global, body: Items<TypedStmt>) -> TypedStmt
    requires { AllAnywhere body }
    ensures { Anywhere result }
{
    TypedStmt::While {
        guard: None,
        invariants: Items::new(alloc),
        body,
    }
}

// `while (true) { body }`
#[tactic(auto, using(bpl_flow::proofs::Anywhere::anywhere))]
fn guarded(alloc: Global, body: Items<TypedStmt>) -> Result<TypedStmt, AllocError>
    requires { AllAnywhere body }
    ensures { IfOk result (λ s. Anywhere s) }
{
    let guard = Some(truth(alloc)?);
    Ok(TypedStmt::While {
        guard,
        invariants: Items::new(alloc),
        body,
    })
}

#[tactic(auto, using(bpl_flow::proofs::Anywhere::anywhere))]
fn nothing(alloc: Global) -> Items<TypedStmt>
    ensures { AllAnywhere result }
{
    Items::new(alloc)
}

// The statements and one more.
#[tactic(auto, using(bpl_flow::proofs::Anywhere::anywhere))]
fn then(statements: Items<TypedStmt>, last: TypedStmt) -> Result<Items<TypedStmt>, AllocError>
    requires before { AllAnywhere statements }
    requires last { Anywhere last }
    ensures { IfOk result (λ ss. AllAnywhere ss) }
{
    let mut all = statements;
    all.push(last)?;
    Ok(all)
}

fn only(alloc: Global, statement: TypedStmt) -> Result<Items<TypedStmt>, AllocError>
    requires { Anywhere statement }
    ensures { IfOk result (λ ss. AllAnywhere ss) }
{
    then(nothing(alloc), statement)
}

fn procedure(alloc: Global, name: &[u8], body: Option<TypedBody>) -> Result<TypedProc, AllocError>
    ensures { IfOk result (λ p. p ≡ record { name = name.now; ins = []; outs = []; body = body }) }
{
    Ok(TypedProc {
        name: Items::from_slice(alloc, name)?,
        ins: Items::new(alloc),
        outs: Items::new(alloc),
        body,
    })
}

// `procedure p(); procedure main() { statements }`
#[tactic(auto, using(bpl_flow::proofs::Anywhere::anywhere))]
fn program(alloc: Global, statements: Items<TypedStmt>) -> Result<Typed, AllocError>
    requires { AllAnywhere statements }
    ensures { IfOk result (λ t. IsTrue (is_typed t)) }
{
    let locals = Items::new(alloc);
    let mut procs = Items::new(alloc);
    procs.push(procedure(alloc, b"p", None)?)?;
    procs.push(procedure(alloc, b"main", Some(TypedBody { locals, statements }))?)?;
    Ok(Typed {
        consts: Items::new(alloc),
        uniques: Items::new(alloc),
        axioms: Items::new(alloc),
        globals: Items::new(alloc),
        procs,
    })
}

// ---- listings

// `a` and the number of an assert, `e` for what is assumed, `!` behind it where it is a negation.
fn show_command(alloc: Global, text: &mut String, cmd: &Cmd) -> Result<(), AllocError> {
    match cmd {
        Cmd::Assert { number, .. } => text.push_str(&format!(in alloc; " a{number}")?),
        Cmd::Assume(expr) => {
            let negation = matches!(expr.nodes().last(), Some(ExprNode::Unary { .. }));
            text.push_str(if negation { " e!" } else { " e" })
        }
        Cmd::Assign(_) | Cmd::Havoc(_) | Cmd::Call { .. } => text.push_str(" ?"),
    }
}

fn show_targets(alloc: Global, text: &mut String, targets: &[u32]) -> Result<(), AllocError> {
    text.push_str(" ->")?;
    for target in targets {
        text.push_str(&format!(in alloc; " {target}")?)?;
    }
    Ok(())
}

fn show_block(alloc: Global, text: &mut String, block: &SrcBlock) -> Result<(), AllocError> {
    for cmd in block.cmds.as_slice() {
        show_command(alloc, text, cmd)?;
    }
    match &block.next {
        Next::Goto(targets) => show_targets(alloc, text, targets.as_slice()),
        Next::Return => text.push_str(" return"),
    }
}

// The blocks of all procedures, and their loops.
fn show(alloc: Global, prog: &Prog) -> Result<String, AllocError> {
    let mut text = String::new(alloc);
    for proc in prog.procs() {
        for (number, block) in proc.blocks.as_slice().iter().enumerate() {
            text.push_str(&format!(in alloc; "{number}:")?)?;
            show_block(alloc, &mut text, block)?;
            text.push_str("\n")?;
        }
        for span in proc.loops.as_slice() {
            text.push_str(&format!(in alloc; "{}..{}\n", span.head, span.exit)?)?;
        }
    }
    Ok(text)
}

fn show_kind(kind: FlowKind) -> &'static str {
    match kind {
        FlowKind::NoLabel => "no label",
        FlowKind::LabelTwice => "label twice",
        FlowKind::NotForward => "not forward",
        FlowKind::BreakOutside => "break outside",
    }
}

// What the statements become, or the first fault.
fn listing(alloc: Global, statements: Items<TypedStmt>) -> Result<String, AllocError>
    requires { AllAnywhere statements }
{
    let typed = program(alloc, statements)?;
    match lower(alloc, &typed) {
        Ok(prog) => show(alloc, &prog),
        Err(Or::Fault(fault)) => {
            let kind = show_kind(fault.kind);
            format!(in alloc; "{} {kind}", fault.at)
        }
        Err(Or::NoMemory) => Err(AllocError),
    }
}

// ---- tests

// `while (*) { while (*) { assert true; } assert true; } assert true;`
#[test]
fn loops_stand_by_head(rt: HostRuntime) -> Result<(), Fail> {
    let alloc = rt.alloc();
    let inner = repetition(alloc, only(alloc, assertion(alloc)?)?);
    let body = then(only(alloc, inner)?, assertion(alloc)?)?;
    let all = then(only(alloc, repetition(alloc, body))?, assertion(alloc)?)?;
    let text = listing(alloc, all)?;
    assert_eq!(rt;
        text.as_str(),
        "0: -> 1\n1: -> 2 6\n2: -> 3\n3: -> 4 5\n4: a1 -> 3\n5: a2 -> 1\n6: a3 return\n1..6\n3..5\n"
    );
    Ok(())
}

// `while (true) { assert true; if (*) { assert true; } assert true; }`
#[test]
fn an_else_part_is_made(rt: HostRuntime) -> Result<(), Fail> {
    let alloc = rt.alloc();
    let part = choice(only(alloc, assertion(alloc)?)?, nothing(alloc));
    let body = then(
        then(only(alloc, assertion(alloc)?)?, part)?,
        assertion(alloc)?,
    )?;
    let text = listing(alloc, only(alloc, guarded(alloc, body)?)?)?;
    assert_eq!(rt;
        text.as_str(),
        "0: -> 1\n1: -> 2 6\n2: e a1 -> 3 4\n3: a2 -> 5\n4: -> 5\n5: a3 -> 1\n6: e! return\n1..6\n"
    );
    Ok(())
}

// `while (true) { break; } assert true;`: the break passes by the negated guard
#[test]
fn a_break_leaves_the_guard_as_it_is(rt: HostRuntime) -> Result<(), Fail> {
    let alloc = rt.alloc();
    let left = guarded(alloc, only(alloc, plain_break(13))?)?;
    let text = listing(alloc, then(only(alloc, left)?, assertion(alloc)?)?)?;
    assert_eq!(rt;
        text.as_str(),
        "0: -> 1\n1: -> 2 3\n2: e -> 4\n3: e! -> 4\n4: a1 return\n1..4\n"
    );
    Ok(())
}

// `goto A, A; assert true; A:`, and `goto A; if (*) { A: }`
#[test]
fn gotos_lead_ahead(rt: HostRuntime) -> Result<(), Fail> {
    let alloc = rt.alloc();
    let jump = then(only(alloc, goto_twice(alloc, 5, b"A")?)?, assertion(alloc)?)?;
    let text = listing(alloc, then(jump, label(alloc, 9, b"A")?)?)?;
    assert_eq!(rt; text.as_str(), "0: -> 2 2\n1: a1 -> 2\n2: return\n");
    let inside = choice(only(alloc, label(alloc, 9, b"A")?)?, nothing(alloc));
    let text = listing(alloc, then(only(alloc, goto(alloc, 5, b"A")?)?, inside)?)?;
    assert_eq!(rt;
        text.as_str(),
        "0: -> 3\n1: -> 2 4\n2: -> 3\n3: -> 5\n4: -> 5\n5: return\n"
    );
    Ok(())
}

// `goto A; A: A:` tells the second label, `goto A;` alone the missing one.
#[test]
fn labels_are_there_once(rt: HostRuntime) -> Result<(), Fail> {
    let alloc = rt.alloc();
    let jump = then(only(alloc, goto(alloc, 5, b"A")?)?, label(alloc, 8, b"A")?)?;
    let text = listing(alloc, then(jump, label(alloc, 11, b"A")?)?)?;
    assert_eq!(rt; text.as_str(), "11 label twice");
    let text = listing(alloc, only(alloc, goto(alloc, 5, b"A")?)?)?;
    assert_eq!(rt; text.as_str(), "5 no label");
    Ok(())
}

// `A: goto A;`, and `goto A; while (*) { A: }`
#[test]
fn gotos_lead_into_no_loop_and_not_back(rt: HostRuntime) -> Result<(), Fail> {
    let alloc = rt.alloc();
    let back = then(only(alloc, label(alloc, 1, b"A")?)?, goto(alloc, 8, b"A")?)?;
    let text = listing(alloc, back)?;
    assert_eq!(rt; text.as_str(), "8 not forward");
    let inside = repetition(alloc, only(alloc, label(alloc, 9, b"A")?)?);
    let text = listing(alloc, then(only(alloc, goto(alloc, 5, b"A")?)?, inside)?)?;
    assert_eq!(rt; text.as_str(), "5 not forward");
    Ok(())
}

// `A: B: while (*) { break A; }`, and the same with `break B`
#[test]
fn the_last_label_is_the_loops(rt: HostRuntime) -> Result<(), Fail> {
    let alloc = rt.alloc();
    let labels = then(only(alloc, label(alloc, 1, b"A")?)?, label(alloc, 3, b"B")?)?;
    let left = repetition(alloc, only(alloc, break_of(alloc, 9, b"A")?)?);
    let text = listing(alloc, then(labels, left)?)?;
    assert_eq!(rt; text.as_str(), "9 break outside");
    let labels = then(only(alloc, label(alloc, 1, b"A")?)?, label(alloc, 3, b"B")?)?;
    let left = repetition(alloc, only(alloc, break_of(alloc, 9, b"B")?)?);
    let text = listing(alloc, then(labels, left)?)?;
    assert_eq!(rt;
        text.as_str(),
        "0: -> 1\n1: -> 2\n2: -> 3\n3: -> 4 5\n4: -> 5\n5: return\n3..5\n"
    );
    Ok(())
}

// A goto to no label stands behind a stray break in the text: the break is told, though it comes last in the walk.
#[test]
fn the_first_fault_in_the_text_is_told(rt: HostRuntime) -> Result<(), Fail> {
    let alloc = rt.alloc();
    let all = then(only(alloc, goto(alloc, 40, b"A")?)?, plain_break(13))?;
    let text = listing(alloc, all)?;
    assert_eq!(rt; text.as_str(), "13 break outside");
    Ok(())
}
