//! A program that can say why a goal is not answered yes.
ghost use Rattle.std.specs.Prelude.{◌≡◌, false, All, IsNone, IfOk, IfErr, OnOk, OnErr};
ghost use Rattle.nts_delegate.specs.Clauses.{AreClausesReady};
ghost use Rattle.nts_candidates.specs.HeldReasons.{HoldsReason};
ghost use Rattle.nts_table.specs.Tables.{IsTable};
ghost use Rattle.nts_store.specs.Growth.{tree_at};
ghost use Rattle.nts_terms.specs.Handles.{HoldsGoal};
ghost use Rattle.nts_terms.specs.Rest.{Grows};
ghost use Rattle.nts_text.specs.Lines.{IsPassedOver};
ghost use Rattle.nts_wording.specs.Fitting.{IsDeclaredPredicate};
ghost use Rattle.nts_wording.specs.Growing.{Begins};
ghost use Rattle.nts_wording.specs.Statuses.{is_refusal};
ghost use Rattle.nts_program.specs.nts_declaring.specs.Heads.{HeadsFit};
ghost use Rattle.nts_reasons.specs.Obeying.{trait_of, lines_for, IsNewExplainer, HasLines, DoesCommand, IsObeyed, Notes};
ghost use Rattle.nts_terms.specs.Signatures.{variances_in};
ghost use Rattle.nts_reasons.specs.Running.{is_yes, HasMoreTerms, HasReasons, AreReasonsOf, IsReasonedPut, IsTold};

use nts_assembly::Assembly;
use nts_delegate::{Clauses, Reason};
use nts_explaining::explain;
use nts_program::nts_declaring::{ImplLines, Program, pose, write_reasons};
use nts_program::nts_evaluation::goal_is_admitted;
use nts_program::{Stop, follow};
use nts_table::InferCtxt;
use nts_terms::{Cx, Goal};
use nts_text::{Command, Resolved, read_command};
use nts_wording::{Answer, LineVariables, MISFIT};
use std::alloc::Global;
use std::io::Write;

/// What the lines of a run have said so far, and on which of them the impls stand.
#[derive(Drop)]
pub struct Explainer {
    pub program: Program,
    pub lines: ImplLines,
}

/// A goal that a line asked, and its answer.
#[derive(Drop)]
pub struct Asked {
    pub answer: Answer,
    /// What the line says.
    pub nodes: Vec<Resolved>,
}

impl Explainer {
    /// Nothing said. It takes no memory.
    pub fn new(alloc: Global) -> Self
        ensures ready { AreClausesReady result.program.cx.nodes result.program.clauses }
        ensures new { IsNewExplainer result }
        ensures lines { HasLines result }
        ensures heads { HeadsFit result.program.cx result.program.clauses }
    {
        Explainer {
            program: Program::new(alloc),
            lines: ImplLines::new(alloc),
        }
    }

    /// Does what the line of this number says. The result is the goal that it asks with its answer, if it asks one.
    pub fn obey(&mut self, line: &[u8], number: u64) -> Result<Option<Asked>, Stop>
        requires ready { AreClausesReady self.old.program.cx.nodes self.old.program.clauses }
        ensures ready { OnOk result (AreClausesReady self.new.program.cx.nodes
            self.new.program.clauses) }
        ensures passed { IfOk result (λ o. IsPassedOver line.now → IsNone o) }
        ensures refused { OnErr result (IsPassedOver line.now → ⊥) }
        ensures obeyed { IfOk result (IsObeyed number line.now self.old self.new) }
        ensures lines { OnOk result (HasLines self.old → HasLines self.new) }
        ensures heads { OnOk result (HeadsFit self.old.program.cx self.old.program.clauses →
            HeadsFit self.new.program.cx self.new.program.clauses) }
    {
        let program = &mut self.program;
        match read_command(program.alloc, line, &mut program.names, &mut program.scope)? {
            Some(command) => self.follow(&command, number),
            None => Ok(None),
        }
    }

    /// Does what a command says, likewise.
    fn follow(&mut self, command: &Command, number: u64) -> Result<Option<Asked>, Stop>
        requires ready { AreClausesReady self.old.program.cx.nodes self.old.program.clauses }
        ensures ready { OnOk result (AreClausesReady self.new.program.cx.nodes
            self.new.program.clauses) }
        ensures names { self.new.program.names ≡ self.old.program.names }
        ensures scope { self.new.program.scope ≡ self.old.program.scope }
        ensures does { IfOk result (DoesCommand number self.old self.new command.now) }
    {
        let answer = follow(&mut self.program, command)?;
        self.note(command, number)?;
        match (command, answer) {
            (Command::Goal(nodes), Some(answer)) => {
                let nodes = Vec::from_slice(self.program.alloc, nodes)?;
                Ok(Some(Asked { answer, nodes }))
            }
            _ => Ok(None),
        }
    }

    /// Notes the line of an impl.
    fn note(&mut self, command: &Command, number: u64) -> Result<(), Stop>
        ensures notes { OnOk result (Notes self.old.lines self.new.lines number command.now) }
        ensures program { self.new.program ≡ self.old.program }
    {
        if let Command::Impl { head, .. } = command {
            let Some(trait_number) = trait_of(head) else {
                return Err(MISFIT);
            };
            self.lines.note(trait_number, number)?;
        }
        Ok(())
    }

    /// Writes the answer to the goal of the last line, and behind it what its candidates came to, if the answer is not yes. Each
    /// is let out. Whatever happens, what was written before stays.
    #[tactic(auto, using(nts_wording::proofs::Growths::writes))]
    pub fn tell<W: Write>(&mut self, output: &mut W, asked: &Asked) -> Result<(), Stop>
        requires ready { AreClausesReady self.old.program.cx.nodes self.old.program.clauses }
        requires heads { HeadsFit self.old.program.cx self.old.program.clauses }
        requires lines { HasLines self.old }
        ensures ready { AreClausesReady self.new.program.cx.nodes self.new.program.clauses }
        ensures told { OnOk result (IsTold self.old asked.now (W.contents output.old)
            (W.contents output.new)) }
        ensures terms { HasMoreTerms self.old self.new }
        ensures fault { IfErr result (λ s. is_refusal s ≡ false) }
        ensures begins { Begins (W.contents output.old) (W.contents output.new) }
    {
        self.program.write_answer(output, &asked.answer)?;
        if is_yes(&asked.answer) {
            return Ok(());
        }
        self.tell_reasons(output, &asked.nodes)
    }

    /// Writes what the candidates for the goal that these nodes say come to.
    #[tactic(auto, using(nts_wording::proofs::Growths::writes, crate::proofs::Lining::line_reasons))]
    fn tell_reasons<W: Write>(&mut self, output: &mut W, nodes: &[Resolved]) -> Result<(), Stop>
        requires ready { AreClausesReady self.old.program.cx.nodes self.old.program.clauses }
        requires heads { HeadsFit self.old.program.cx self.old.program.clauses }
        requires lines { HasLines self.old }
        ensures ready { AreClausesReady self.new.program.cx.nodes self.new.program.clauses }
        ensures reasoned { OnOk result (IsReasonedPut self.old nodes.now (W.contents output.old)
            (W.contents output.new)) }
        ensures terms { HasMoreTerms self.old self.new }
        ensures fault { IfErr result (λ s. is_refusal s ≡ false) }
        ensures begins { Begins (W.contents output.old) (W.contents output.new) }
    {
        let explained = match ask_again(&mut self.program, nodes) {
            Ok(explained) => explained,
            Err(stop) => return Err(unrefused(stop)),
        };
        let lines = lines_for(&self.lines, nodes);
        write_reasons(
            output,
            &self.program,
            &explained.variables,
            lines,
            &explained.reasons,
        )
    }
}

fn is_yes(answer: &Answer) -> bool
    ensures { result ≡ is_yes answer.now }
{
    matches!(answer, Answer::Yes(_))
}

/// Why a goal that was answered can't be asked for its reasons. It is refused by none: what was answered can be posed.
fn unrefused(stop: Stop) -> Stop
    ensures { is_refusal result ≡ false }
{
    match stop {
        Stop::Memory => Stop::Memory,
        Stop::Failed | Stop::Refused(_) => Stop::Failed,
    }
}

/// A goal that was posed again, and what its candidates come to.
#[derive(Drop)]
struct Explained {
    variables: LineVariables,
    reasons: Vec<Reason>,
}

/// Poses the goal that these nodes say again, in a table of its own, and asks what its candidates come to.
#[tactic(auto, using(nts_program::proofs::Asking::asking, crate::proofs::Staying::heads_later))]
fn ask_again(program: &mut Program, nodes: &[Resolved]) -> Result<Explained, Stop>
    requires ready { AreClausesReady program.old.cx.nodes program.old.clauses }
    requires heads { HeadsFit program.old.cx program.old.clauses }
    ensures reasons { IfOk result (λ e. AreReasonsOf program.old nodes.now e.reasons.items) }
    ensures holds { IfOk result (λ e. All (HoldsReason program.new.cx.nodes) e.reasons.items) }
    ensures ready { AreClausesReady program.new.cx.nodes program.new.clauses }
    ensures terms { Grows program.old.cx program.new.cx }
    ensures rest { program.new ≡ record program.old { cx = program.new.cx } }
{
    let posed = pose(&mut program.cx, program.env, program.mode, nodes)?;
    let mut table = posed.table;
    let reasons = reasons_of(&mut program.cx, &program.clauses, &mut table, posed.goal)?;
    Ok(Explained {
        variables: posed.variables,
        reasons,
    })
}

/// What the candidates for a goal come to, with its environment's clauses and these as the rules.
#[tactic(auto, using(nts_program::proofs::Asking::asking))]
fn reasons_of(
    cx: &mut Cx,
    clauses: &Clauses,
    table: &mut InferCtxt,
    goal: Goal,
) -> Result<Vec<Reason>, Stop>
    requires ready { AreClausesReady cx.old.nodes clauses.now }
    requires heads { HeadsFit cx.old clauses.now }
    requires table { IsTable cx.old.nodes table.old }
    requires goal { HoldsGoal cx.old.nodes goal }
    requires declared { IsDeclaredPredicate cx.old.declarations
        (tree_at cx.old.nodes goal.predicate.node) }
    ensures reasons { IfOk result (λ rs. HasReasons cx.old.nodes
        (variances_in cx.old.declarations) clauses.now table.old goal rs.items) }
    ensures holds { IfOk result (λ rs. All (HoldsReason cx.new.nodes) rs.items) }
    ensures grows { Grows cx.old cx.new }
{
    let admitted = goal_is_admitted(table, cx, goal)?;
    if !admitted {
        return Err(MISFIT);
    }
    let rules = Assembly::new(clauses);
    match explain(table, cx, &rules, goal) {
        Ok(reasons) => Ok(reasons),
        // What fails is a growth, or a universe above the greatest is asked for.
        Err(_) => Err(Stop::Memory),
    }
}

/// The number of the trait of a goal, or of the head of an impl.
fn trait_of(nodes: &[Resolved]) -> Option<usize>
    ensures { result ≡ trait_of nodes.now }
{
    for node in nodes {
        if let Resolved::Trait { number, .. } = node {
            return Some(*number);
        }
    }
    None
}

/// The lines of the impls of a goal's trait.
fn lines_for<'a>(lines: &'a ImplLines, nodes: &[Resolved]) -> &'a [u64]
    ensures { result.now ≡ lines_for lines.now (trait_of nodes.now) }
{
    match trait_of(nodes) {
        Some(trait_number) => lines.of_trait(trait_number),
        None => &[],
    }
}
