//! How the reasons of a goal are written.
ghost use Rattle.std.specs.Prelude.{◌≡◌, ◌++◌, false, length, All, IfErr, OnOk, codes};
ghost use Rattle.nts_store.specs.Growth.{IsIn};
ghost use Rattle.nts_terms.specs.Handles.{HoldsArgs, HoldsGoal, HoldsVars};
ghost use Rattle.nts_candidates.specs.HeldReasons.{HoldsReason};
ghost use Rattle.nts_wording.specs.Growing.{Begins};
ghost use Rattle.nts_wording.specs.Statuses.{is_refusal};
ghost use Rattle.nts_declaring.specs.Held.{Says, IsAny, IsNothing, Lengthens};
ghost use Rattle.nts_declaring.specs.Reasons.{IsReasonsPut, IsReasonLine, IsAskedText, origin_words, reason_words, outcome_words, doubt_words};

use crate::origins::{Origin, origin_of};
use crate::program::Program;
use indexmap::IndexSet;
use itoa::Buffer;
use nts_certainty::{Certainty, MaybeCause};
use nts_delegate::Reason;
use nts_model::{
    AliasRelationDirection, BoundVarIndexKind, Constant, FreeRegion, Label, Leaf, Sort, TyHead,
    VariableKind,
};
use nts_store::NodeId;
use nts_terms::{BoundVars, ClauseKind, Cx, Goal, PredicateKind, TraitRef};
use nts_text::{NameTable, Scope};
use nts_wording::{LineVariables, Stop, int_name, put_answer, spelling, type_name, uint_name};
use std::alloc::{AllocError, Global};
use std::io::Write;

/// How much text is held before it goes out.
const HELD: usize = 4096;

/// What is still to be written of a term. A term may be nested very deep, so this stands on the heap.
#[derive(Clone, Copy)]
enum Piece {
    Term(NodeId),
    Comma,
    Colon,
    Equal,
    Close,
}

/// What words reasons.
#[derive(Drop)]
struct Wording<'a> {
    cx: &'a Cx,
    names: &'a NameTable,
    scope: &'a Scope,
    /// The number of each variable of the goal among those of its sort, at its place among all.
    numbers: Vec<usize>,
    /// What is worded and has not gone out.
    text: Vec<u8>,
}

/// Writes a line for each of the reasons, and lets them out, if these are the lines of the impls of the goal's trait. Whatever
/// happens, what was written before stays.
#[tactic(auto, using(nts_wording::proofs::Growths::writes))]
pub fn write_reasons<W: Write>(
    output: &mut W,
    program: &Program,
    variables: &LineVariables,
    lines: &[u64],
    reasons: &[Reason],
) -> Result<(), Stop>
    requires holds { All (HoldsReason program.now.cx.nodes) reasons.now }
    ensures told { OnOk result (IsReasonsPut lines.now reasons.now (W.contents output.old)
        (W.contents output.new)) }
    ensures fault { IfErr result (λ s. is_refusal s ≡ false) }
    ensures begins { Begins (W.contents output.old) (W.contents output.new) }
{
    let mut wording = Wording {
        cx: &program.cx,
        names: &program.names,
        scope: &program.scope,
        numbers: numbers_of(program.alloc, variables)?,
        text: Vec::new(program.alloc),
    };
    // No candidate answers the goal.
    if reasons.len() < lines.len() {
        return Ok(());
    }
    for number in 0..reasons.len() {
        let origin = origin_of(lines, reasons.len(), number);
        wording.reason(output, origin, reasons[number])?;
    }
    wording.put_out(output)
}

/// The number of each variable among those of its sort, at its place among all.
fn numbers_of(alloc: Global, variables: &LineVariables) -> Result<Vec<usize>, AllocError> {
    let mut numbers = Vec::from_elem(alloc, 0, variables.sorts.len())?;
    place_numbers(&mut numbers, &variables.types);
    place_numbers(&mut numbers, &variables.regions);
    Ok(numbers)
}

/// Puts the number of each place at that place.
fn place_numbers(numbers: &mut [usize], places: &[usize]) {
    for (number, place) in places.iter().enumerate() {
        if *place < numbers.len() {
            numbers[*place] = number;
        }
    }
}

impl Wording<'_> {
    /// The line of a candidate.
    #[tactic(auto, using(nts_wording::proofs::Growths::writes))]
    fn reason<W: Write>(
        &mut self,
        output: &mut W,
        origin: Origin,
        reason: Reason,
    ) -> Result<(), Stop>
        requires { HoldsReason self.old.cx.now.nodes reason }
        ensures says { OnOk result (Says (IsReasonLine origin reason) (W.contents output.old)
            (W.contents output.new) self.old.text.items self.new.text.items) }
        ensures rest { self.new ≡ record self.old { text = self.new.text } }
        ensures fault { IfErr result (λ s. is_refusal s ≡ false) }
        ensures begins { Begins (W.contents output.old) (W.contents output.new) }
    {
        self.origin(origin)?;
        self.asked(output, reason)?;
        self.write(reason_words(reason))?;
        self.write(b"\n")?;
        self.put_much(output)
    }

    /// The condition that a reason names, if it names one.
    #[tactic(auto, using(nts_wording::proofs::Growths::writes))]
    fn asked<W: Write>(&mut self, output: &mut W, reason: Reason) -> Result<(), Stop>
        requires { HoldsReason self.old.cx.now.nodes reason }
        ensures says { OnOk result (Says (IsAskedText reason) (W.contents output.old)
            (W.contents output.new) self.old.text.items self.new.text.items) }
        ensures rest { self.new ≡ record self.old { text = self.new.text } }
        ensures fault { IfErr result (λ s. is_refusal s ≡ false) }
        ensures begins { Begins (W.contents output.old) (W.contents output.new) }
    {
        match reason {
            Reason::Condition { goal, .. } => {
                self.goal(output, goal)?;
                self.write(b" ")?;
                Ok(())
            }
            Reason::Equation(_) | Reason::Leak | Reason::Holds(_) => Ok(()),
        }
    }

    /// Where a candidate comes from.
    fn origin(&mut self, origin: Origin) -> Result<(), AllocError>
        ensures says { OnOk result
            (self.new.text.items ≡ self.old.text.items ++ origin_words origin) }
        ensures rest { self.new ≡ record self.old { text = self.new.text } }
    {
        match origin {
            Origin::Environment => self.write(b"  environment: "),
            Origin::Line(number) => {
                let mut digits = Buffer::new();
                self.write(b"  line ")?;
                self.write(digits.format(number).as_bytes())?;
                self.write(b": ")
            }
        }
    }

    /// What a condition asks for.
    #[tactic(auto, using(nts_wording::proofs::Growths::writes))]
    fn goal<W: Write>(&mut self, output: &mut W, goal: Goal) -> Result<(), Stop>
        requires { HoldsGoal self.old.cx.now.nodes goal }
        ensures says { OnOk result (Says IsAny (W.contents output.old)
            (W.contents output.new) self.old.text.items self.new.text.items) }
        ensures rest { self.new ≡ record self.old { text = self.new.text } }
        ensures fault { IfErr result (λ s. is_refusal s ≡ false) }
        ensures begins { Begins (W.contents output.old) (W.contents output.new) }
    {
        let said = goal.predicate.kind(self.cx);
        match said.value {
            PredicateKind::Clause(ClauseKind::Trait(trait_ref)) => {
                self.binder(said.vars)?;
                self.trait_goal(output, trait_ref)
            }
            PredicateKind::Clause(ClauseKind::TypeOutlives(ty, region)) => {
                self.binder(said.vars)?;
                self.related(output, ty.node, Piece::Colon, region.node)
            }
            PredicateKind::Clause(ClauseKind::RegionOutlives(longer, shorter)) => {
                self.binder(said.vars)?;
                self.related(output, longer.node, Piece::Colon, shorter.node)
            }
            PredicateKind::AliasRelate(left, right, AliasRelationDirection::Equate) => {
                self.binder(said.vars)?;
                self.related(output, left.node, Piece::Equal, right.node)
            }
            // A line says no other goals.
            _ => Ok(self.write(b"_")?),
        }
    }

    /// The names that a goal binds.
    fn binder(&mut self, vars: BoundVars) -> Result<(), AllocError>
        requires { HoldsVars self.old.cx.now.nodes vars }
        ensures more { OnOk result (Lengthens self.old.text.items self.new.text.items) }
        ensures rest { self.new ≡ record self.old { text = self.new.text } }
    {
        let count = vars.len(self.cx);
        if count == 0 {
            return Ok(());
        }
        self.write(b"for<")?;
        for var in 0..count {
            if var > 0 {
                self.write(b", ")?;
            }
            self.bound(vars.get(self.cx, var), var)?;
        }
        self.write(b"> ")
    }

    /// A trait with its arguments.
    #[tactic(auto, using(nts_wording::proofs::Growths::writes))]
    fn trait_goal<W: Write>(&mut self, output: &mut W, trait_ref: TraitRef) -> Result<(), Stop>
        requires { HoldsArgs self.old.cx.now.nodes trait_ref.args }
        ensures says { OnOk result (Says IsAny (W.contents output.old)
            (W.contents output.new) self.old.text.items self.new.text.items) }
        ensures rest { self.new ≡ record self.old { text = self.new.text } }
        ensures fault { IfErr result (λ s. is_refusal s ≡ false) }
        ensures begins { Begins (W.contents output.old) (W.contents output.new) }
    {
        let names = self.names;
        self.write(type_name(&names.traits, trait_ref.def_id.number))?;
        let mut pieces = Vec::new(self.cx.alloc);
        self.open(trait_ref.args.node, &mut pieces)?;
        self.all_pieces(output, &mut pieces)
    }

    /// Two terms, and what is said of them between the two.
    #[tactic(auto, using(nts_wording::proofs::Growths::writes))]
    fn related<W: Write>(
        &mut self,
        output: &mut W,
        left: NodeId,
        between: Piece,
        right: NodeId,
    ) -> Result<(), Stop>
        ensures says { OnOk result (Says IsAny (W.contents output.old)
            (W.contents output.new) self.old.text.items self.new.text.items) }
        ensures rest { self.new ≡ record self.old { text = self.new.text } }
        ensures fault { IfErr result (λ s. is_refusal s ≡ false) }
        ensures begins { Begins (W.contents output.old) (W.contents output.new) }
    {
        let mut pieces = Vec::new(self.cx.alloc);
        pieces.push(Piece::Term(right))?;
        pieces.push(between)?;
        pieces.push(Piece::Term(left))?;
        self.all_pieces(output, &mut pieces)
    }

    /// What these pieces begin with, the last first.
    #[tactic(auto, using(nts_wording::proofs::Growths::writes))]
    fn all_pieces<W: Write>(&mut self, output: &mut W, pieces: &mut Vec<Piece>) -> Result<(), Stop>
        ensures says { OnOk result (Says IsAny (W.contents output.old)
            (W.contents output.new) self.old.text.items self.new.text.items) }
        ensures rest { self.new ≡ record self.old { text = self.new.text } }
        ensures fault { IfErr result (λ s. is_refusal s ≡ false) }
        ensures begins { Begins (W.contents output.old) (W.contents output.new) }
    {
        'turns: for _ in 0..u64::MAX {
            match pieces.pop() {
                None => return Ok(()),
                Some(piece) => self.piece(piece, pieces)?,
            }
            self.put_much(output)?;
        }
        // No output takes a text of so many pieces.
        Err(Stop::Failed)
    }

    /// What a piece begins with. What follows is added to the pieces, the last first.
    fn piece(&mut self, piece: Piece, pieces: &mut Vec<Piece>) -> Result<(), AllocError>
        ensures more { OnOk result (Lengthens self.old.text.items self.new.text.items) }
        ensures rest { self.new ≡ record self.old { text = self.new.text } }
    {
        match piece {
            Piece::Comma => self.write(b", "),
            Piece::Colon => self.write(b": "),
            Piece::Equal => self.write(b" = "),
            Piece::Close => self.write(b")"),
            Piece::Term(term) => self.head(term, pieces),
        }
    }

    /// What a term begins with, likewise.
    fn head(&mut self, term: NodeId, pieces: &mut Vec<Piece>) -> Result<(), AllocError>
        ensures more { OnOk result (Lengthens self.old.text.items self.new.text.items) }
        ensures rest { self.new ≡ record self.old { text = self.new.text } }
    {
        let nodes = &self.cx.nodes;
        if !nodes.contains(term) {
            return Ok(());
        }
        match nodes.label(term) {
            Label::Leaf(leaf) => self.leaf(leaf),
            Label::Bound(sort, BoundVarIndexKind::Bound(_), var) => self.bound(sort, var),
            Label::Ty(TyHead::Int(int)) => self.write(int_name(int)),
            Label::Ty(TyHead::Uint(uint)) => self.write(uint_name(uint)),
            Label::Ty(TyHead::Ctor(number)) => {
                let names = self.names;
                self.declared(type_name(&names.types, number), term, pieces)
            }
            Label::Ty(TyHead::Alias(number)) => {
                let names = self.names;
                self.declared(type_name(&names.aliases, number), term, pieces)
            }
            _ => self.write(b"_"),
        }
    }

    /// The name of a declared type or alias, and the bracket behind it if it has arguments.
    fn declared(
        &mut self,
        name: &[u8],
        term: NodeId,
        pieces: &mut Vec<Piece>,
    ) -> Result<(), AllocError>
        requires { IsIn self.old.cx.now.nodes term }
        ensures more { OnOk result (Lengthens self.old.text.items self.new.text.items) }
        ensures rest { self.new ≡ record self.old { text = self.new.text } }
    {
        self.write(name)?;
        let nodes = &self.cx.nodes;
        if nodes.child_count(term) == 0 {
            return Ok(());
        }
        self.open(nodes.child(term, 0), pieces)
    }

    /// The bracket in front of these arguments, if there are any.
    fn open(&mut self, list: NodeId, pieces: &mut Vec<Piece>) -> Result<(), AllocError>
        requires { IsIn self.old.cx.now.nodes list }
        ensures more { OnOk result (Lengthens self.old.text.items self.new.text.items) }
        ensures rest { self.new ≡ record self.old { text = self.new.text } }
    {
        let nodes = &self.cx.nodes;
        let count = nodes.child_count(list);
        if count == 0 {
            return Ok(());
        }
        self.write(b"(")?;
        pieces.push(Piece::Close)?;
        let mut i = count;
        while i > 0 {
            i -= 1;
            pieces.push(Piece::Term(nodes.child(list, i)))?;
            if i > 0 {
                pieces.push(Piece::Comma)?;
            }
        }
        Ok(())
    }

    /// A variable of a binder, by its place.
    fn bound(&mut self, sort: Sort, var: usize) -> Result<(), AllocError>
        ensures more { OnOk result (Lengthens self.old.text.items self.new.text.items) }
        ensures rest { self.new ≡ record self.old { text = self.new.text } }
    {
        let mut digits = Buffer::new();
        match sort {
            Sort::Region => self.write(b"'_")?,
            Sort::Ty | Sort::Const => self.write(b"_")?,
        }
        self.write(digits.format(var as u64).as_bytes())
    }

    /// A term without parts.
    fn leaf(&mut self, leaf: Leaf) -> Result<(), AllocError>
        ensures more { OnOk result (Lengthens self.old.text.items self.new.text.items) }
        ensures rest { self.new ≡ record self.old { text = self.new.text } }
    {
        let scope = self.scope;
        match leaf {
            Leaf::Variable(VariableKind::Region, variable) => {
                let name = self.variable(&scope.variables.regions, variable);
                self.write(name.unwrap_or(b"'_"))
            }
            Leaf::Variable(_, variable) => {
                let name = self.variable(&scope.variables.types, variable);
                self.write(name.unwrap_or(b"_"))
            }
            Leaf::TyConstant(Constant::Param(number)) => {
                self.write(spelling(&scope.parameters.types, number as usize).unwrap_or(b"_"))
            }
            Leaf::Region(FreeRegion::EarlyParam(number)) => {
                self.write(spelling(&scope.parameters.regions, number as usize).unwrap_or(b"'_"))
            }
            Leaf::Region(FreeRegion::Static) => self.write(b"'static"),
            Leaf::Region(_) => self.write(b"'_"),
            Leaf::TyConstant(_) | Leaf::ConstConstant(_) => self.write(b"_"),
        }
    }

    /// The name that the line gives a variable of the table, if it is one of the goal's. Those have the table's first places.
    fn variable<'b>(&self, names: &'b IndexSet<Vec<u8>>, variable: usize) -> Option<&'b [u8]> {
        spelling(names, *self.numbers.get(variable)?)
    }

    fn write(&mut self, text: &[u8]) -> Result<(), AllocError>
        ensures says { OnOk result (self.new.text.items ≡ self.old.text.items ++ text.now) }
        ensures rest { self.new ≡ record self.old { text = self.new.text } }
    {
        self.text.extend_from_slice(text)
    }

    /// Lets out what is held, if it is much.
    #[tactic(auto, using(nts_wording::proofs::Growths::writes))]
    fn put_much<W: Write>(&mut self, output: &mut W) -> Result<(), Stop>
        ensures says { OnOk result (Says IsNothing (W.contents output.old)
            (W.contents output.new) self.old.text.items self.new.text.items) }
        ensures rest { self.new ≡ record self.old { text = self.new.text } }
        ensures fault { IfErr result (λ s. is_refusal s ≡ false) }
        ensures begins { Begins (W.contents output.old) (W.contents output.new) }
    {
        if self.text.len() < HELD {
            return Ok(());
        }
        self.put_out(output)
    }

    /// Lets out what is held.
    #[tactic(auto, using(nts_wording::proofs::Growths::writes))]
    fn put_out<W: Write>(&mut self, output: &mut W) -> Result<(), Stop>
        ensures says { OnOk result (Says IsNothing (W.contents output.old)
            (W.contents output.new) self.old.text.items self.new.text.items) }
        ensures all { OnOk result (length self.new.text.items ≡ 0) }
        ensures rest { self.new ≡ record self.old { text = self.new.text } }
        ensures fault { IfErr result (λ s. is_refusal s ≡ false) }
        ensures begins { Begins (W.contents output.old) (W.contents output.new) }
    {
        put_answer(output, &self.text)?;
        self.text.clear();
        Ok(())
    }
}

/// What is said of a candidate for this reason.
fn reason_words(reason: Reason) -> &'static [u8]
    ensures { result.now ≡ reason_words reason }
{
    match reason {
        Reason::Equation(_) => b"does not fit",
        Reason::Condition { certainty, .. } => outcome_words(certainty),
        Reason::Leak => b"leaks",
        Reason::Holds(Certainty::Yes) => b"holds",
        Reason::Holds(Certainty::Maybe(info)) => doubt_words(info.cause),
    }
}

/// What is said of a condition that is so certain, or has no solution.
fn outcome_words(certainty: Option<Certainty>) -> &'static [u8]
    ensures { result.now ≡ outcome_words certainty }
{
    match certainty {
        None => b"no",
        Some(Certainty::Yes) => b"yes",
        Some(Certainty::Maybe(info)) => doubt_words(info.cause),
    }
}

/// How a doubt is written.
fn doubt_words(cause: MaybeCause) -> &'static [u8]
    ensures { result.now ≡ doubt_words cause }
{
    match cause {
        MaybeCause::Ambiguity => b"maybe ambiguity",
        MaybeCause::Overflow { .. } => b"maybe overflow",
    }
}
