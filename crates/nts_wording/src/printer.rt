//! The text of answers.
ghost use Rattle.std.specs.Prelude.{◌≡◌, ◌∷◌, [], ◌++◌, Some, false, reverse, IfErr, OnOk, codes};
ghost use Rattle.std.specs.Io.KnownBytes.{Appends};
ghost use Rattle.nts_wording.specs.Growing.{Begins};
ghost use Rattle.nts_wording.specs.Statuses.{is_refusal};
ghost use Rattle.nts_model.specs.Terms.Trees.{node, children, shape, Meets, in_order, is, arguments};
ghost use Rattle.nts_model.specs.declared.labels.Label.TheVariants as labels;
ghost use Rattle.nts_store.specs.Growth.{IsIn, tree_at};
ghost use Rattle.nts_wording.specs.Printing.{leaf_name, head_name, is_region_leaf, IsLeafText, IsUnnamedType, IsUnnamedRegion, IsText, same_term};
ghost use Rattle.nts_wording.specs.Pieces.{lexicon_of, names_in, seen_by, Writes, WritesText, PutsText, Completes, Opens};
ghost use Rattle.nts_wording.specs.declared.printer.Piece.TheVariants as piece_kinds;
ghost use Rattle.std.specs.Map.{lookup};
ghost use Rattle.nts_store.specs.declared.nodes.NodeId.{NodeId};
ghost use Rattle.nts_wording.specs.Answers.{relation_word, first_of, name_by, is_variable, AreNames, bound_types, bound_regions, IsValueLine, IsFactLine, AreLines, IsAnswerPut, nothing_seen};
ghost use Rattle.nts_wording.specs.declared.answer.Answer.TheVariants as answers;

use crate::answer::{Answer, Found};
use crate::output::{put, put_answer};
use crate::status::Stop;
use crate::words::{
    int_name, is_region_leaf, leaf_name, relation_word, spelling, type_name, uint_name, value_at,
};
use indexmap::{IndexMap, IndexSet};
use nts_model::{Label, Leaf, TyHead};
use nts_store::{NodeId, Nodes};
use nts_text::{NameTable, Scope};
use nts_unify::Constraint;
use std::alloc::{AllocError, Global};
use std::io::Write;

/// What is still to be printed of a term. A term may be nested very deep, so this stands on the heap.
#[derive(Clone, Copy)]
enum Piece {
    Term(NodeId),
    Comma,
    Close,
}

/// What prints an answer.
#[derive(Drop)]
struct Printer<'a> {
    alloc: Global,
    nodes: &'a Nodes,
    names: &'a NameTable,
    scope: &'a Scope,
    /// The goal's variables that are left, by the variable of the table that each is.
    known: IndexMap<NodeId, Vec<u8>>,
    /// Other types without a name, in order of first sight.
    types: IndexSet<NodeId>,
    /// Other regions without a name, in order of first sight.
    regions: IndexSet<NodeId>,
    /// What is printed and has not gone out.
    text: Vec<u8>,
}

/// Writes the lines that answer a goal, and lets them out. No answer is made in memory: what is printed of a term goes out piece by
/// piece. Whatever happens, what was written before stays.
#[tactic(auto, using(crate::proofs::Growths::writes))]
pub fn write_answer<W: Write>(
    alloc: Global,
    output: &mut W,
    nodes: &Nodes,
    names: &NameTable,
    scope: &Scope,
    answer: &Answer,
) -> Result<(), Stop>
    ensures told { OnOk result (IsAnswerPut nodes.now names.now scope.now answer.now
        (W.contents output.old) (W.contents output.new)) }
    ensures fault { IfErr result (λ s. is_refusal s ≡ false) }
    ensures begins { Begins (W.contents output.old) (W.contents output.new) }
{
    match answer {
        Answer::Yes(found) => write_found(alloc, output, nodes, names, scope, found),
        Answer::No => put_answer(output, b"no\n"),
        Answer::Ambiguity => put_answer(output, b"maybe ambiguity\n"),
        Answer::Overflow => put_answer(output, b"maybe overflow\n"),
    }
}

/// The same for a goal that holds.
#[tactic(auto, using(crate::proofs::Growths::writes))]
fn write_found<W: Write>(
    alloc: Global,
    output: &mut W,
    nodes: &Nodes,
    names: &NameTable,
    scope: &Scope,
    found: &Found,
) -> Result<(), Stop>
    ensures told { OnOk result (IsAnswerPut nodes.now names.now scope.now (answers.Yes found.now)
        (W.contents output.old) (W.contents output.new)) }
    ensures fault { IfErr result (λ s. is_refusal s ≡ false) }
    ensures begins { Begins (W.contents output.old) (W.contents output.new) }
{
    let text = Vec::from_slice(alloc, b"yes\n")?;
    let mut printer = Printer {
        alloc,
        nodes,
        names,
        scope,
        known: IndexMap::new(alloc),
        types: IndexSet::new(alloc),
        regions: IndexSet::new(alloc),
        text,
    };
    printer.found(output, found)?;
    output.flush()?;
    Ok(())
}

impl Printer<'_> {
    /// The lines of a goal that holds, behind the `yes`.
    #[tactic(auto, using(crate::proofs::Growths::writes))]
    fn found<W: Write>(&mut self, output: &mut W, found: &Found) -> Result<(), Stop>
        requires known { self.old.known.entries ≡ [] }
        requires seen { seen_by self.old ≡ nothing_seen }
        requires yes { self.old.text.items ≡ codes "yes\n" }
        ensures told { OnOk result (IsAnswerPut self.old.nodes.now self.old.names.now
            self.old.scope.now (answers.Yes found.now) (W.contents output.old)
            (W.contents output.new)) }
        ensures fault { IfErr result (λ s. is_refusal s ≡ false) }
        ensures begins { Begins (W.contents output.old) (W.contents output.new) }
    {
        self.learn(found)?;
        self.values(output, found)?;
        self.facts(output, &found.facts)?;
        self.put_out(output)
    }

    /// Lets out what is held.
    #[tactic(auto, using(crate::proofs::Growths::writes))]
    fn put_out<W: Write>(&mut self, output: &mut W) -> Result<(), Stop>
        ensures put { OnOk result (Appends (W.contents output.old) (W.contents output.new)
            self.old.text.items) }
        ensures text { OnOk result (self.new.text.items ≡ []) }
        ensures rest { self.new ≡ record self.old { text = self.new.text } }
        ensures fault { IfErr result (λ s. is_refusal s ≡ false) }
        ensures begins { Begins (W.contents output.old) (W.contents output.new) }
    {
        put(output, &self.text)?;
        self.text.clear();
        Ok(())
    }

    fn write(&mut self, text: &[u8]) -> Result<(), AllocError>
        ensures writes { OnOk result (Writes self.old self.new text.now) }
        ensures seen { OnOk result (seen_by self.new ≡ seen_by self.old) }
    {
        self.text.extend_from_slice(text)
    }

    /// Gives each variable that is left the name of the first of the goal's variables that it is.
    fn learn(&mut self, found: &Found) -> Result<(), AllocError>
        requires { self.old.known.entries ≡ [] }
        ensures names { OnOk result (AreNames self.old.nodes.now (names_in self.new.known.entries)
            (bound_types self.old.scope.now found.now ++ bound_regions self.old.scope.now
            found.now)) }
        ensures rest { OnOk result (self.new ≡ record self.old { known = self.new.known }) }
    {
        let scope = self.scope;
        for (i, place) in found.variables.types.iter().enumerate() {
            if let Some(name) = spelling(&scope.variables.types, i) {
                if let Some(value) = value_at(&found.values, *place) {
                    self.learn_one(name, value)?;
                }
            }
        }
        for (j, place) in found.variables.regions.iter().enumerate() {
            if let Some(name) = spelling(&scope.variables.regions, j) {
                if let Some(value) = value_at(&found.values, *place) {
                    self.learn_one(name, value)?;
                }
            }
        }
        Ok(())
    }

    fn learn_one(&mut self, name: &[u8], value: NodeId) -> Result<(), AllocError>
        ensures names { OnOk result ((t : NodeId) → lookup (same_term t)
            (names_in self.new.known.entries) ≡ first_of (lookup (same_term t)
            (names_in self.old.known.entries)) (name_by self.old.nodes.now t (name.now, value))) }
        ensures rest { OnOk result (self.new ≡ record self.old { known = self.new.known }) }
    {
        if !self.is_variable(value) {
            return Ok(());
        }
        if self.known.contains_key(&value) {
            return Ok(());
        }
        let name = Vec::from_slice(self.alloc, name)?;
        self.known.insert(value, name)?;
        Ok(())
    }

    fn is_variable(&self, term: NodeId) -> bool
        ensures { result ≡ is_variable (tree_at self.now.nodes.now term) }
    {
        self.nodes.contains(term)
            && matches!(self.nodes.label(term), Label::Leaf(Leaf::Variable(_, _)))
    }

    /// A line for each type variable of the goal, in order of first sight.
    #[tactic(auto, using(crate::proofs::Growths::writes))]
    fn values<W: Write>(&mut self, output: &mut W, found: &Found) -> Result<(), Stop>
        ensures told { OnOk result (PutsText (W.contents output.old) (W.contents output.new)
            self.old self.new (λ old text new. AreLines (IsValueLine (lexicon_of self.old)) old
            (bound_types self.old.scope.now found.now) text new)) }
        ensures fault { IfErr result (λ s. is_refusal s ≡ false) }
        ensures begins { Begins (W.contents output.old) (W.contents output.new) }
    {
        let scope = self.scope;
        for (i, place) in found.variables.types.iter().enumerate() {
            if let Some(name) = spelling(&scope.variables.types, i) {
                if let Some(value) = value_at(&found.values, *place) {
                    self.value(output, name, value)?;
                }
            }
        }
        Ok(())
    }

    /// The line of a variable and its value.
    #[tactic(auto, using(crate::proofs::Growths::writes))]
    fn value<W: Write>(&mut self, output: &mut W, name: &[u8], value: NodeId) -> Result<(), Stop>
        ensures told { OnOk result (PutsText (W.contents output.old) (W.contents output.new)
            self.old self.new (λ old text new. IsValueLine (lexicon_of self.old) old
            (name.now, value) text new)) }
        ensures fault { IfErr result (λ s. is_refusal s ≡ false) }
        ensures begins { Begins (W.contents output.old) (W.contents output.new) }
    {
        self.write(b"  ")?;
        self.write(name)?;
        self.write(b" = ")?;
        self.term(output, value)?;
        self.write(b"\n")?;
        Ok(())
    }

    /// A line for each region constraint.
    #[tactic(auto, using(crate::proofs::Growths::writes))]
    fn facts<W: Write>(&mut self, output: &mut W, facts: &[Constraint]) -> Result<(), Stop>
        ensures told { OnOk result (PutsText (W.contents output.old) (W.contents output.new)
            self.old self.new (λ old text new. AreLines (IsFactLine (lexicon_of self.old)) old
            facts.now text new)) }
        ensures fault { IfErr result (λ s. is_refusal s ≡ false) }
        ensures begins { Begins (W.contents output.old) (W.contents output.new) }
    {
        for fact in facts {
            self.fact(output, *fact)?;
        }
        Ok(())
    }

    /// The line of a region constraint.
    #[tactic(auto, using(crate::proofs::Growths::writes))]
    fn fact<W: Write>(&mut self, output: &mut W, fact: Constraint) -> Result<(), Stop>
        ensures told { OnOk result (PutsText (W.contents output.old) (W.contents output.new)
            self.old self.new (λ old text new. IsFactLine (lexicon_of self.old) old fact text
            new)) }
        ensures fault { IfErr result (λ s. is_refusal s ≡ false) }
        ensures begins { Begins (W.contents output.old) (W.contents output.new) }
    {
        self.write(b"  ")?;
        self.term(output, fact.left)?;
        self.write(relation_word(fact.relation))?;
        self.term(output, fact.right)?;
        self.write(b"\n")?;
        Ok(())
    }

    /// A type or a region, as it is written. It goes out piece by piece.
    #[tactic(auto, using(crate::proofs::Growths::writes))]
    fn term<W: Write>(&mut self, output: &mut W, term: NodeId) -> Result<(), Stop>
        ensures told { OnOk result (PutsText (W.contents output.old) (W.contents output.new)
            self.old self.new (λ old text new. IsText (lexicon_of self.old) old
            (tree_at self.old.nodes.now term) text new)) }
        ensures fault { IfErr result (λ s. is_refusal s ≡ false) }
        ensures begins { Begins (W.contents output.old) (W.contents output.new) }
    {
        let mut pieces = Vec::new(self.alloc);
        pieces.push(Piece::Term(term))?;
        'turns: for _ in 0..u64::MAX {
            match pieces.pop() {
                None => return Ok(()),
                Some(piece) => self.piece(piece, &mut pieces)?,
            }
            self.put_out(output)?;
        }
        // No output takes a text of so many pieces.
        Err(Stop::Failed)
    }

    /// What a piece begins with. What follows is added to the pieces, the last first.
    fn piece(&mut self, piece: Piece, pieces: &mut Vec<Piece>) -> Result<(), AllocError>
        ensures { OnOk result (WritesText self.old self.new (λ old text new. Completes
            (lexicon_of self.old) old (piece ∷ reverse pieces.old.items) text new
            (reverse pieces.new.items))) }
    {
        match piece {
            Piece::Comma => self.write(b", "),
            Piece::Close => self.write(b")"),
            Piece::Term(term) => self.head(term, pieces),
        }
    }

    /// What a term begins with. What follows is added to the pieces, the last first.
    fn head(&mut self, term: NodeId, pieces: &mut Vec<Piece>) -> Result<(), AllocError>
        ensures { OnOk result (WritesText self.old self.new (λ old text new. Completes
            (lexicon_of self.old) old (piece_kinds.Term term ∷ reverse pieces.old.items) text new
            (reverse pieces.new.items))) }
    {
        let nodes = self.nodes;
        if !nodes.contains(term) {
            return Ok(());
        }
        match nodes.label(term) {
            Label::Leaf(leaf) => self.leaf(term, leaf),
            Label::Ty(head) => self.type_head(term, head, pieces),
            _ => self.unnamed_type(term),
        }
    }

    /// What a type begins with, likewise.
    fn type_head(
        &mut self,
        term: NodeId,
        head: TyHead,
        pieces: &mut Vec<Piece>,
    ) -> Result<(), AllocError>
        requires within { IsIn self.old.nodes.now term }
        requires label { tree_at self.old.nodes.now term ≡ node (labels.Ty head) (children
            (tree_at self.old.nodes.now term)) }
        requires formed { Meets (shape (labels.Ty head)) (children
            (tree_at self.old.nodes.now term)) }
        ensures { OnOk result (WritesText self.old self.new (λ old text new. Completes
            (lexicon_of self.old) old (piece_kinds.Term term ∷ reverse pieces.old.items) text new
            (reverse pieces.new.items))) }
    {
        let names = self.names;
        match head {
            TyHead::Ctor(number) => {
                self.declared(type_name(&names.types, number), term, head, pieces)
            }
            TyHead::Alias(number) => {
                self.declared(type_name(&names.aliases, number), term, head, pieces)
            }
            TyHead::Int(int) => self.write(int_name(int)),
            TyHead::Uint(uint) => self.write(uint_name(uint)),
            _ => self.unnamed_type(term),
        }
    }

    /// The name of a declared type or alias, and the bracket behind it if it has arguments.
    fn declared(
        &mut self,
        name: &[u8],
        term: NodeId,
        head: TyHead,
        pieces: &mut Vec<Piece>,
    ) -> Result<(), AllocError>
        requires within { IsIn self.old.nodes.now term }
        requires named { head_name (lexicon_of self.old) head ≡ Some name.now }
        requires label { tree_at self.old.nodes.now term ≡ node (labels.Ty head) (children
            (tree_at self.old.nodes.now term)) }
        requires formed { Meets (in_order (is arguments ∷ [])) (children
            (tree_at self.old.nodes.now term)) }
        ensures { OnOk result (WritesText self.old self.new (λ old text new. Completes
            (lexicon_of self.old) old (piece_kinds.Term term ∷ reverse pieces.old.items) text new
            (reverse pieces.new.items))) }
    {
        let _ = head;
        self.write(name)?;
        let list = self.nodes.child(term, 0);
        self.open(list, pieces)
    }

    /// The bracket in front of these arguments, if there are any.
    fn open(&mut self, list: NodeId, pieces: &mut Vec<Piece>) -> Result<(), AllocError>
        requires within { IsIn self.old.nodes.now list }
        ensures { OnOk result (WritesText self.old self.new (λ old text new. Opens
            (lexicon_of self.old) old (children (tree_at self.old.nodes.now list))
            (reverse pieces.old.items) text new (reverse pieces.new.items))) }
    {
        let nodes = self.nodes;
        let count = nodes.child_count(list);
        if count == 0 {
            return Ok(());
        }
        self.write(b"(")?;
        pieces.push(Piece::Close)?;
        let mut i = count;
        while i > 0 {
            i -= 1;
            pieces.push(Piece::Term(nodes.child(list, i)))?;
            if i > 0 {
                pieces.push(Piece::Comma)?;
            }
        }
        Ok(())
    }

    /// A term without parts.
    fn leaf(&mut self, term: NodeId, leaf: Leaf) -> Result<(), AllocError>
        ensures { OnOk result (WritesText self.old self.new (λ old text new. IsLeafText
            (lexicon_of self.old) leaf old term text new)) }
    {
        match leaf_name(&self.known, self.scope, term, leaf) {
            Some(name) => self.text.extend_from_slice(name),
            None => {
                if is_region_leaf(leaf) {
                    self.unnamed_region(term)
                } else {
                    self.unnamed_type(term)
                }
            }
        }
    }

    fn unnamed_type(&mut self, term: NodeId) -> Result<(), AllocError>
        ensures { OnOk result (WritesText self.old self.new
            (λ old text new. IsUnnamedType old term text new)) }
    {
        let (number, _) = self.types.insert_full(term)?;
        let name = format!(in self.alloc; "?{number}")?;
        self.write(name.as_bytes())
    }

    fn unnamed_region(&mut self, term: NodeId) -> Result<(), AllocError>
        ensures { OnOk result (WritesText self.old self.new
            (λ old text new. IsUnnamedRegion old term text new)) }
    {
        let (number, _) = self.regions.insert_full(term)?;
        let name = format!(in self.alloc; "'_{number}")?;
        self.write(name.as_bytes())
    }
}
