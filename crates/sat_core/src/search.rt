//! The state of a search, and its steps: assign what is forced, decide, learn and go back.
ghost use Rattle.std.specs.Prelude.{◌≡◌, ℕ, List, ◌+◌, ◌-◌, ◌*◌, ◌/◌, ◌^◌, ◌==◌, ◌<◌, ◌≤◌, [], ◌∷◌, ◌++◌, length, take, IfOk, OnOk, OnErr, true, false, not, slice_index, slice_index_or, slice_set, slice_get, Some};
ghost use Rattle.cnf_form.specs.Literal.{negation, is_among, clause_in_range, clauses_in_range, look};
ghost use Rattle.cnf_form.specs.Lines.{follows};
ghost use Rattle.cnf_form.specs.Store.{NoneSeen, falses_of};
ghost use Rattle.cnf_form.specs.declared.look.Look.TheVariants as says;
ghost use Rattle.sat_core.specs.Analysis.{IsPlaced, Forces, IsConflict, IsLearnt};
ghost use Rattle.sat_core.specs.Answer.{IsExtended};
ghost use Rattle.sat_core.specs.Searching.{has_variable, IsSearching, GoesOn, IsTurn};

use crate::learn::{analyze, refuting_line};
use crate::order::Order;
use cnf_form::{ClauseStore, Line, Lines, Lit, LiteralSet, Seen};
use std::alloc::{AllocError, Global};

/// What a turn of the search came to.
#[derive(Drop)]
pub(crate) enum Turn {
    /// The search took a step.
    Onward,
    /// All variables are assigned, and no clause is false.
    Satisfied,
    /// The empty line follows.
    Refuted(Line),
}

/// The assigned literals and why they are, and what was learnt.
///
/// Level 0 is what was assigned before all decisions; level k begins with the k-th decision.
#[derive(Drop)]
pub(crate) struct Search {
    /// The assigned literals, in the order of assignment.
    trail: Vec<Lit>,
    /// By variable, its place in the trail. It means nothing where the variable is free.
    places: Vec<usize>,
    /// By place, the clause that forced the literal. It means nothing at a decision.
    reasons: Vec<usize>,
    /// By level, less one, the place of its decision.
    starts: Vec<usize>,
    /// Which variable is decided.
    order: Order,
    /// Working memory of the analysis.
    marks: LiteralSet,
    /// The learnt lines.
    lines: Lines,
}

impl Search {
    /// Nothing is assigned. There is no memory for 2^63 variables or more.
    pub(crate) fn new(alloc: Global, variables: usize) -> Result<Self, AllocError>
        ensures begins { IfOk result (λ s. (clauses : List (List ℕ)) → clauses_in_range variables clauses ≡ true → IsSearching clauses [] s) }
        ensures sized { IfOk result (λ s. length s.places.items ≡ variables) }
        ensures lines { IfOk result (λ s. s.lines ≡ []) }
    {
        if variables > usize::MAX / 2 {
            return Err(AllocError);
        }
        Ok(Search {
            trail: Vec::new(alloc),
            places: vec![in alloc; 0; variables]?,
            reasons: Vec::new(alloc),
            starts: Vec::new(alloc),
            order: Order::new(alloc, variables)?,
            marks: LiteralSet::new(alloc),
            lines: Lines::new(alloc),
        })
    }

    /// Whether the variable is assigned.
    fn is_assigned(&self, variable: usize) -> bool
        requires placed { IsPlaced self.now.trail.items self.now.places.items }
        requires variable { variable < length self.now.places.items }
        ensures { result ≡ has_variable self.now.trail.items variable }
    {
        let place = self.places[variable];
        place < self.trail.len() && self.trail[place].variable() == variable
    }

    /// The free variable of the greatest activity, or the number of variables where none is free,
    /// which a look at each variable has shown. No proof rests on the order.
    fn next_free(&mut self) -> usize
        requires placed { IsPlaced self.old.trail.items self.old.places.items }
        ensures within { result ≤ length self.old.places.items }
        ensures free { result < length self.old.places.items → has_variable self.old.trail.items result ≡ false }
        ensures taken { result ≡ length self.old.places.items → (v : ℕ) → v < length self.old.places.items → has_variable self.old.trail.items v ≡ true }
        ensures trail { self.new.trail ≡ self.old.trail }
        ensures places { self.new.places ≡ self.old.places }
        ensures reasons { self.new.reasons ≡ self.old.reasons }
        ensures starts { self.new.starts ≡ self.old.starts }
        ensures lines { self.new.lines ≡ self.old.lines }
    {
        while let Some(variable) = self.order.pop() {
            if variable < self.places.len() && !self.is_assigned(variable) {
                return variable;
            }
        }
        self.least_free()
    }

    /// The least free variable, or the number of variables.
    fn least_free(&self) -> usize
        requires placed { IsPlaced self.now.trail.items self.now.places.items }
        ensures within { result ≤ length self.now.places.items }
        ensures taken { (v : ℕ) → v < result → has_variable self.now.trail.items v ≡ true }
        ensures free { result < length self.now.places.items → has_variable self.now.trail.items result ≡ false }
    {
        for variable in 0..self.places.len() {
            if !self.is_assigned(variable) {
                return variable;
            }
        }
        self.places.len()
    }

    /// Assigns a literal whose variable is free.
    fn put<S: ClauseStore>(
        &mut self,
        store: &mut S,
        lit: Lit,
        reason: usize,
    ) -> Result<(), AllocError>
        requires same { S.assigned store.old ≡ self.old.trail.items }
        requires free { has_variable self.old.trail.items (lit / 2) ≡ false }
        requires variable { lit / 2 < length self.old.places.items }
        ensures assigned { OnOk result (S.assigned store.new ≡ S.assigned store.old ++ lit ∷ []) }
        ensures trail { OnOk result (self.new.trail.items ≡ self.old.trail.items ++ lit ∷ []) }
        ensures places { OnOk result (self.new.places.items ≡ slice_set self.old.places.items (lit / 2) (length self.old.trail.items)) }
        ensures reasons { OnOk result (self.new.reasons.items ≡ self.old.reasons.items ++ reason ∷ []) }
        ensures starts { self.new.starts ≡ self.old.starts }
        ensures lines { self.new.lines ≡ self.old.lines }
        ensures clauses { S.clauses store.new ≡ S.clauses store.old }
    {
        store.assign(lit)?;
        self.places[lit.variable()] = self.trail.len();
        self.trail.push(lit)?;
        self.reasons.push(reason)?;
        Ok(())
    }

    /// Assigns a literal that a clause forces.
    fn propagate<S: ClauseStore>(
        &mut self,
        store: &mut S,
        lit: Lit,
        reason: usize,
    ) -> Result<(), AllocError>
        requires searching { IsSearching (S.clauses store.old) (S.assigned store.old) self.old }
        requires free { has_variable self.old.trail.items (lit / 2) ≡ false }
        requires variable { lit / 2 < length self.old.places.items }
        requires forced { Forces (S.clauses store.old) self.old.trail.items reason lit }
        ensures searching { OnOk result (IsSearching (S.clauses store.new) (S.assigned store.new) self.new) }
        ensures longer { OnOk result (length self.new.trail.items ≡ length self.old.trail.items + 1) }
        ensures sized { OnOk result (length self.new.places.items ≡ length self.old.places.items) }
        ensures starts { self.new.starts ≡ self.old.starts }
        ensures lines { self.new.lines ≡ self.old.lines }
        ensures clauses { S.clauses store.new ≡ S.clauses store.old }
    {
        self.put(store, lit, reason)?;
        Ok(())
    }

    /// Begins a level: the free variable is false.
    fn decide<S: ClauseStore>(&mut self, store: &mut S, variable: usize) -> Result<(), AllocError>
        requires searching { IsSearching (S.clauses store.old) (S.assigned store.old) self.old }
        requires quiet { NoneSeen (S.clauses store.old) self.old.trail.items }
        requires variable { variable < length self.old.places.items }
        requires free { has_variable self.old.trail.items variable ≡ false }
        ensures searching { OnOk result (IsSearching (S.clauses store.new) (S.assigned store.new) self.new) }
        ensures longer { OnOk result (length self.new.trail.items ≡ length self.old.trail.items + 1) }
        ensures sized { OnOk result (length self.new.places.items ≡ length self.old.places.items) }
        ensures starts { OnOk result (self.new.starts.items ≡ self.old.starts.items ++ length self.old.trail.items ∷ []) }
        ensures lines { self.new.lines ≡ self.old.lines }
        ensures clauses { S.clauses store.new ≡ S.clauses store.old }
    {
        self.starts.push(self.trail.len())?;
        self.put(store, Lit::negative(variable), 0)?;
        Ok(())
    }

    /// How many literals of the trail make all these literals false: those up to the last that is
    /// the negation of one of them.
    fn reach(&self, literals: &[Lit]) -> usize
        requires placed { IsPlaced self.now.trail.items self.now.places.items }
        requires are_false { (q : ℕ) → is_among literals.now q ≡ true → is_among self.now.trail.items (negation q) ≡ true }
        ensures holds { (q : ℕ) → is_among literals.now q ≡ true → is_among (take result self.now.trail.items) (negation q) ≡ true }
        ensures least { (n : ℕ) → n < result → (q : ℕ) × (is_among literals.now q ≡ true) × (is_among (take n self.now.trail.items) (negation q) ≡ false) }
    {
        let mut reach = 0;
        for lit in literals {
            let place = self.places[lit.variable()];
            reach = reach.max(place + 1);
        }
        reach
    }

    /// How many decisions stand before the place, where one stands there or behind it. Takes time
    /// linear in those that stand there or behind it.
    fn level_at(&self, place: usize) -> usize
        requires ascending { (i j : ℕ) → i < j → j < length self.now.starts.items → slice_index self.now.starts.items i < slice_index self.now.starts.items j }
        requires some { 0 < length self.now.starts.items }
        requires last { place ≤ slice_index self.now.starts.items (length self.now.starts.items - 1) }
        ensures within { result < length self.now.starts.items }
        ensures behind { place ≤ slice_index self.now.starts.items result }
        ensures earlier { (i : ℕ) → i < result → slice_index self.now.starts.items i < place }
    {
        let mut level = self.starts.len() - 1;
        while level > 0 && self.starts[level - 1] >= place {
            level -= 1;
        }
        level
    }

    /// Frees the variables of the literals behind the first ones. After an error some are free.
    fn take_back(&mut self, count: usize) -> Result<(), AllocError>
        ensures trail { OnOk result (self.new.trail.items ≡ take count self.old.trail.items) }
        ensures places { self.new.places ≡ self.old.places }
        ensures reasons { self.new.reasons ≡ self.old.reasons }
        ensures starts { self.new.starts ≡ self.old.starts }
        ensures lines { self.new.lines ≡ self.old.lines }
    {
        while count < self.trail.len() {
            let last = self.trail.len() - 1;
            self.order.enter(self.trail[last].variable())?;
            self.trail.truncate(last);
        }
        Ok(())
    }

    /// Goes back to the level: takes back the decision behind it and all that was assigned since.
    /// After an error the store still has the literals that were taken back.
    fn go_back<S: ClauseStore>(&mut self, store: &mut S, level: usize) -> Result<(), AllocError>
        requires searching { IsSearching (S.clauses store.old) (S.assigned store.old) self.old }
        requires level { level < length self.old.starts.items }
        ensures searching { OnOk result (IsSearching (S.clauses store.new) (S.assigned store.new) self.new) }
        ensures trail { OnOk result (self.new.trail.items ≡ take (slice_index self.old.starts.items level) self.old.trail.items) }
        ensures starts { OnOk result (self.new.starts.items ≡ take level self.old.starts.items) }
        ensures places { self.new.places ≡ self.old.places }
        ensures lines { self.new.lines ≡ self.old.lines }
        ensures clauses { S.clauses store.new ≡ S.clauses store.old }
    {
        let count = self.starts[level];
        self.starts.truncate(level);
        self.take_back(count)?;
        self.reasons.truncate(count);
        store.cut_to(count);
        Ok(())
    }

    /// Adds a line to the log and its clause to the store, and answers the clause's number.
    fn add<S: ClauseStore>(
        &mut self,
        alloc: Global,
        store: &mut S,
        line: Line,
    ) -> Result<usize, AllocError>
        requires searching { IsSearching (S.clauses store.old) (S.assigned store.old) self.old }
        requires in_range { clause_in_range (length self.old.places.items) line.clause ≡ true }
        requires quiet { (i : ℕ) → i < length self.old.starts.items → look (falses_of (take (slice_index self.old.starts.items i) self.old.trail.items)) line.clause ≡ says.Other }
        ensures searching { OnOk result (IsSearching (S.clauses store.new) (S.assigned store.new) self.new) }
        ensures id { IfOk result (λ id. slice_get (S.clauses store.new) id ≡ Some line.clause) }
        ensures clauses { OnOk result (S.clauses store.new ≡ S.clauses store.old ++ line.clause ∷ []) }
        ensures err { OnErr result (S.clauses store.new ≡ S.clauses store.old) }
        ensures lines { OnOk result (self.new.lines ≡ self.old.lines ++ line ∷ []) }
        ensures trail { self.new.trail ≡ self.old.trail }
        ensures places { self.new.places ≡ self.old.places }
        ensures starts { self.new.starts ≡ self.old.starts }
    {
        let clause = line.clause.copy(alloc)?;
        self.lines.push(line)?;
        let id = store.add(clause)?;
        Ok(id)
    }

    /// The level to go back to where these literals, false before the last decision, are all of a
    /// line but its last one: the second highest level of the line, or level 0 where there are none.
    fn level_of(&self, rest: &[Lit]) -> usize
        requires placed { IsPlaced self.now.trail.items self.now.places.items }
        requires ascending { (i j : ℕ) → i < j → j < length self.now.starts.items → slice_index self.now.starts.items i < slice_index self.now.starts.items j }
        requires some { 0 < length self.now.starts.items }
        requires early { (q : ℕ) → is_among rest.now q ≡ true → is_among (take (slice_index self.now.starts.items (length self.now.starts.items - 1)) self.now.trail.items) (negation q) ≡ true }
        ensures within { result < length self.now.starts.items }
        ensures holds { (q : ℕ) → is_among rest.now q ≡ true → is_among (take (slice_index self.now.starts.items result) self.now.trail.items) (negation q) ≡ true }
        ensures least { (i : ℕ) → i < result → (q : ℕ) × (is_among rest.now q ≡ true) × (is_among (take (slice_index self.now.starts.items i) self.now.trail.items) (negation q) ≡ false) }
    {
        let reach = self.reach(rest);
        self.level_at(reach)
    }

    /// The line that is learnt from a clause that has become false behind a decision.
    fn analyze_last<S: ClauseStore>(
        &mut self,
        alloc: Global,
        store: &S,
        conflict: usize,
    ) -> Result<Line, AllocError>
        requires searching { IsSearching (S.clauses store.now) (S.assigned store.now) self.old }
        requires some { 0 < length self.old.starts.items }
        requires conflict { IsConflict (S.clauses store.now) self.old.trail.items conflict }
        ensures learnt { IfOk result (IsLearnt (S.clauses store.now) self.old.trail.items (slice_index self.old.starts.items (length self.old.starts.items - 1))) }
        ensures trail { self.new.trail ≡ self.old.trail }
        ensures places { self.new.places ≡ self.old.places }
        ensures reasons { self.new.reasons ≡ self.old.reasons }
        ensures starts { self.new.starts ≡ self.old.starts }
        ensures lines { self.new.lines ≡ self.old.lines }
    {
        let start = self.starts[self.starts.len() - 1];
        analyze(
            alloc,
            store,
            &mut self.marks,
            &self.trail,
            &self.places,
            &self.reasons,
            start,
            conflict,
        )
    }

    /// The empty line, from a clause that has become false before all decisions.
    fn refute<S: ClauseStore>(
        &mut self,
        alloc: Global,
        store: &S,
        conflict: usize,
    ) -> Result<Line, AllocError>
        requires searching { IsSearching (S.clauses store.now) (S.assigned store.now) self.old }
        requires none { length self.old.starts.items ≡ 0 }
        requires conflict { IsConflict (S.clauses store.now) self.old.trail.items conflict }
        ensures empty { IfOk result (λ line. line.clause ≡ []) }
        ensures derived { IfOk result (λ line. follows (S.clauses store.now) line ≡ true) }
        ensures lines { self.new.lines ≡ self.old.lines }
    {
        refuting_line(
            alloc,
            store,
            &mut self.marks,
            &self.trail,
            &self.places,
            &self.reasons,
            conflict,
        )
    }

    /// Learns a line from a clause that has become false behind a decision, goes back and assigns
    /// the line's last literal.
    fn learn<S: ClauseStore>(
        &mut self,
        alloc: Global,
        store: &mut S,
        conflict: usize,
    ) -> Result<(), AllocError>
        requires searching { IsSearching (S.clauses store.old) (S.assigned store.old) self.old }
        requires some { 0 < length self.old.starts.items }
        requires conflict { IsConflict (S.clauses store.old) self.old.trail.items conflict }
        ensures onward { OnOk result (GoesOn (S.clauses store.old) self.old (S.clauses store.new) (S.assigned store.new) self.new) }
        ensures extended { IsExtended (S.clauses store.old) (S.clauses store.new) }
        ensures in_range { clauses_in_range (length self.old.places.items) (S.clauses store.new) ≡ true }
    {
        let line = self.analyze_last(alloc, store, conflict)?;
        let Some((last, rest)) = line.clause.as_slice().split_last() else {
            unreachable!()
        };
        let lit = *last;
        let level = self.level_of(rest);
        self.order.raise(self.marks.as_slice());
        self.go_back(store, level)?;
        let id = self.add(alloc, store, line)?;
        self.propagate(store, lit, id)?;
        Ok(())
    }

    /// Takes one turn: asks the store for a clause that is unit or false, and assigns, learns or
    /// decides.
    pub(crate) fn turn<S: ClauseStore>(
        &mut self,
        alloc: Global,
        store: &mut S,
    ) -> Result<Turn, AllocError>
        requires { IsSearching (S.clauses store.old) (S.assigned store.old) self.old }
        ensures turn { IfOk result (IsTurn (S.clauses store.old) self.old (S.clauses store.new) (S.assigned store.new) self.new) }
        ensures extended { IsExtended (S.clauses store.old) (S.clauses store.new) }
        ensures in_range { clauses_in_range (length self.old.places.items) (S.clauses store.new) ≡ true }
    {
        match store.next()? {
            Seen::Unit { lit, clause } => {
                self.propagate(store, lit, clause)?;
                Ok(Turn::Onward)
            }
            Seen::Falsified { clause } => {
                if self.starts.is_empty() {
                    let line = self.refute(alloc, store, clause)?;
                    return Ok(Turn::Refuted(line));
                }
                self.learn(alloc, store, clause)?;
                Ok(Turn::Onward)
            }
            Seen::Nothing => {
                let variable = self.next_free();
                if variable == self.places.len() {
                    return Ok(Turn::Satisfied);
                }
                self.decide(store, variable)?;
                Ok(Turn::Onward)
            }
        }
    }

    /// The truth value of each variable, where all are assigned.
    pub(crate) fn values(&self, alloc: Global) -> Result<Vec<bool>, AllocError>
        requires placed { IsPlaced self.now.trail.items self.now.places.items }
        requires taken { (v : ℕ) → v < length self.now.places.items → has_variable self.now.trail.items v ≡ true }
        ensures len { IfOk result (λ values. length values.items ≡ length self.now.places.items) }
        ensures values { IfOk result (λ values. (v : ℕ) → v < length self.now.places.items → slice_index_or values.items v false ≡ is_among self.now.trail.items (2 * v)) }
    {
        let mut values = Vec::new(alloc);
        for place in &self.places {
            values.push(!self.trail[*place].is_negated())?;
        }
        Ok(values)
    }

    /// The learnt lines.
    pub(crate) fn into_lines(self) -> Lines
        ensures { result ≡ self.lines }
    {
        self.lines
    }
}
