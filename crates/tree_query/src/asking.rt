//! The questions that a search asks of the formulas of its program, put, decided and answered.
ghost use Rattle.std.specs.Prelude.{◌≡◌, length, true, false, IfOk, IsTrue};
ghost use Rattle.hy_term.specs.Meaning.{values};
ghost use Rattle.hy_term.specs.Variables.{numbers, of_list};
ghost use Rattle.flat_prog.specs.Nodes.{are_nodes};
ghost use Rattle.decide.specs.Decided.{IsModel};
ghost use Rattle.template_law.specs.Formulas.{AreChanges};
ghost use Rattle.tree_words.specs.Reading.{nodes_read};
ghost use Rattle.tree_query.specs.Answered.{AnswerIs};
ghost use Rattle.tree_query.specs.Asked.{IsTable};
ghost use Rattle.tree_query.specs.Asking.{IsOf, MayAsk, OverIs, UnderIs};
ghost use Rattle.tree_query.specs.Founded.{IsFoundation};

use crate::formulas::Formulas;
use crate::founding::{Bools, Foundation, founded};
use crate::linking::places;
use crate::questioning::{Question, asked};
use crate::readying::{formulas_have_sites, tables_are_ready};
use crate::valuing::term_values;
use call_tree::{PartTree, Piece};
use cnf_form::Refuted;
use decide::{Decision, decide};
use flat_prog::{Flat, PartRun};
use hy_val::Value;
use sqlite_items::Items;
use std::alloc::{AllocError, Global};
use std::mem;
use template_law::{parts_are_met, sound_parts_are_met};
use tree_terms::{Linked, SharedTerms};
use tree_words::{
    made_are_questions, members_are_over, nodes_are_members, questions_stand, read_nodes,
};

/// What is answered to a question.
#[derive(Drop)]
pub enum QueryAnswer {
    /// A member: a run that the question allows.
    Run(PartRun),
    /// There is none, by a formula that is refuted.
    Refuted(Refuted),
    /// Memory ran out.
    NoMemory,
}

// The run that values of a question's variables stand for.
fn run_read(
    alloc: Global,
    flat: &Flat,
    changes: &[Items<usize>],
    q: &Linked,
    question: &Question,
    model: &[Value],
) -> Result<PartRun, AllocError>
    requires count { length question.now.places ≡ length q.now.tree }
    requires model { IsModel question.now.terms model.now }
    requires nodes { IsTrue (are_nodes (nodes_read flat.now.procs changes.now q.now question.now.places question.now.reach (values (of_list (numbers question.now.terms.nodes) model.now) question.now.terms.nodes))) }
    ensures { IfOk result (λ r. r ≡ nodes_read flat.now.procs changes.now q.now question.now.places question.now.reach (values (of_list (numbers question.now.terms.nodes) model.now) question.now.terms.nodes)) }
{
    let values = term_values(alloc, &question.terms, model)?;
    let nodes = read_nodes(
        alloc,
        flat.procs(),
        changes,
        q,
        &question.places,
        question.reach.as_slice(),
        values.as_slice(),
    )?;
    Ok(PartRun::new(nodes))
}

// The answer to a question whose tree has this table, over or, where open sites are blocked, under.
fn answer(
    alloc: Global,
    flat: &Flat,
    entry: u32,
    bound: u32,
    tree: &PartTree,
    piece: &Piece,
    blocked: bool,
    changes: &[Items<usize>],
    q: &Linked,
    terms: SharedTerms,
    bools: Bools,
) -> Result<QueryAnswer, AllocError>
    requires changes { AreChanges flat.now changes.now }
    requires may { MayAsk flat.now entry bound tree.now piece.now }
    requires founded { IsFoundation flat.now entry terms.nodes q.now.consts q.now.globals q.now.args bools.allowed bools.always bools.never }
    requires table { IsTable flat.now entry tree.now terms.nodes q.now }
    ensures { IfOk result (AnswerIs blocked flat.now entry bound tree.now piece.now) }
{
    nodes_are_members();
    made_are_questions();
    questions_stand();
    members_are_over();
    sound_parts_are_met();
    parts_are_met();
    // Reading the constants also gives that the program is one.
    let _consts = flat.consts();
    let question = asked(
        alloc, flat, entry, bound, tree, piece, blocked, q, terms, bools,
    )?;
    match decide(alloc, &question.terms) {
        Decision::Model(model) => {
            let run = run_read(alloc, flat, changes, q, &question, model.as_slice())?;
            Ok(QueryAnswer::Run(run))
        }
        Decision::Refuted(refuted) => Ok(QueryAnswer::Refuted(refuted)),
        Decision::NoMemory => Err(AllocError),
    }
}

impl Formulas {
    // The answer, where there is memory for it. The formulas are moved into the tree's table, and back.
    fn tried(
        &mut self,
        alloc: Global,
        flat: &Flat,
        entry: u32,
        bound: u32,
        tree: &PartTree,
        piece: &Piece,
        blocked: bool,
    ) -> Result<QueryAnswer, AllocError>
        requires formulas { IsOf flat.now self.old }
        requires asked { MayAsk flat.now entry bound tree.now piece.now }
        ensures formulas { IsOf flat.now self.new }
        ensures answer { IfOk result (AnswerIs blocked flat.now entry bound tree.now piece.now) }
    {
        formulas_have_sites();
        tables_are_ready();
        let foundation = founded(alloc, flat, entry)?;
        let Foundation {
            terms,
            consts,
            globals,
            args,
            bools,
        } = foundation;
        let nodes = places(alloc, flat, entry, tree, self.templates.as_slice())?;
        let q = Linked {
            templates: mem::replace(&mut self.templates, Items::new(alloc)),
            tree: nodes,
            consts,
            globals,
            args,
        };
        let result = answer(
            alloc,
            flat,
            entry,
            bound,
            tree,
            piece,
            blocked,
            self.changes.as_slice(),
            &q,
            terms,
            bools,
        );
        let Linked {
            templates,
            tree: _,
            consts: _,
            globals: _,
            args: _,
        } = q;
        self.templates = templates;
        result
    }

    // The answer to the question over or, where open sites are blocked, under.
    fn answered(
        &mut self,
        alloc: Global,
        flat: &Flat,
        entry: u32,
        bound: u32,
        tree: &PartTree,
        piece: &Piece,
        blocked: bool,
    ) -> QueryAnswer
        requires formulas { IsOf flat.now self.old }
        requires asked { MayAsk flat.now entry bound tree.now piece.now }
        ensures formulas { IsOf flat.now self.new }
        ensures answer { AnswerIs blocked flat.now entry bound tree.now piece.now result }
    {
        match self.tried(alloc, flat, entry, bound, tree, piece, blocked) {
            Ok(answer) => answer,
            Err(_) => QueryAnswer::NoMemory,
        }
    }

    /// Asks whether a partial tree of an entry has a failing partial run that meets a piece: a run of the entry whose nodes are
    /// nodes of the tree, in which at open sites, within the bound, free children may stand for what is not inlined. `Run` has
    /// such a run; `Refuted` a formula that could be satisfied exactly where there were one, and its refutation.
    ///
    /// The tree has to be a partial tree of the entry, a procedure, and the piece names nodes of it. The formulas stay as they
    /// are. Time and memory, beside deciding, are linear in the formulas of the tree's nodes and in the lengths of the paths of
    /// its sites, but for the caps of these, and for unique constants (`allowed`). `NoMemory` comes where memory runs out, or
    /// numbers, and where a unique constant is a map.
    pub fn over(
        &mut self,
        alloc: Global,
        flat: &Flat,
        entry: u32,
        bound: u32,
        tree: &PartTree,
        piece: &Piece,
    ) -> QueryAnswer
        requires formulas { IsOf flat.now self.old }
        requires asked { MayAsk flat.now entry bound tree.now piece.now }
        ensures formulas { IsOf flat.now self.new }
        ensures answer { OverIs flat.now entry bound tree.now piece.now result }
    {
        self.answered(alloc, flat, entry, bound, tree, piece, false)
    }

    /// Asks the same, where no open site may be passed: the run has no free child, and so is one of the program.
    pub fn under(
        &mut self,
        alloc: Global,
        flat: &Flat,
        entry: u32,
        bound: u32,
        tree: &PartTree,
        piece: &Piece,
    ) -> QueryAnswer
        requires formulas { IsOf flat.now self.old }
        requires asked { MayAsk flat.now entry bound tree.now piece.now }
        ensures formulas { IsOf flat.now self.new }
        ensures answer { UnderIs flat.now entry bound tree.now piece.now result }
    {
        self.answered(alloc, flat, entry, bound, tree, piece, true)
    }
}
