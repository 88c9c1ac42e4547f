//! The state of a run, and what each command but a goal does to it.
ghost use Rattle.std.specs.Prelude.{◌≡◌, true, false, length, map, IfOk, IfErr, OnOk};
ghost use Rattle.nts_delegate.specs.Adding.{AddsClause, AddsNormClause, MakesCoinductive, MakesRigid};
ghost use Rattle.nts_delegate.specs.Clauses.{AreClausesReady};
ghost use Rattle.nts_delegate.specs.declared.alias_table.NormClause.{NormClause};
ghost use Rattle.nts_delegate.specs.declared.clauses.Clause.{Clause};
ghost use Rattle.nts_text.specs.Resolution.{trait_sorts, alias_sorts};
ghost use Rattle.nts_wording.specs.Fitting.{HeadFits};
ghost use Rattle.nts_wording.specs.Meaning.{IsRuleOf, IsNormRuleOf};
ghost use Rattle.nts_wording.specs.Answers.{IsAnswerPut};
ghost use Rattle.nts_wording.specs.Growing.{Begins};
ghost use Rattle.nts_wording.specs.Statuses.{is_refusal};
ghost use Rattle.nts_declaring.specs.Heads.{HeadsFit};
ghost use Rattle.nts_declaring.specs.Declaring.{IsNewProgram, DeclaresType, DeclaresTrait, DeclaresAlias, next_alias, HasDeclared, KeepsRules, AssumesNodes, IsInStep};
ghost use Rattle.nts_terms.specs.Rest.{Grows};

use nts_delegate::Clauses;
use nts_model::{Sort, Variance};
use nts_terms::{AliasDefId, AliasKind, Cx, ParamEnv, are_variances};
use nts_text::{Command, Mode, NameTable, Param, Refusal, Resolved, Scope};
use nts_wording::{Answer, MISFIT, Stop, clause_of, environment_of, norm_clause_of, write_answer};
use std::alloc::{AllocError, Global};
use std::io::Write;

/// What the lines of a run have said so far.
#[derive(Drop)]
pub struct Program {
    pub alloc: Global,
    /// The terms, what is declared, and the depth.
    pub cx: Cx,
    pub clauses: Clauses,
    /// The environment of the goals, if a line told it.
    pub env: Option<ParamEnv>,
    /// The names that are declared.
    pub names: NameTable,
    /// The variables of the last line, and the parameters of all.
    pub scope: Scope,
    pub mode: Mode,
}

impl Program {
    /// Nothing said. It takes no memory.
    #[tactic(auto, using(crate::proofs::HeadsKept::heads_none))]
    pub fn new(alloc: Global) -> Self
        ensures ready { AreClausesReady result.cx.nodes result.clauses }
        ensures new { IsNewProgram result }
        ensures step { IsInStep result }
        ensures heads { HeadsFit result.cx result.clauses }
    {
        Program {
            alloc,
            cx: Cx::new(alloc),
            clauses: Clauses::new(alloc),
            env: None,
            names: NameTable::new(alloc),
            scope: Scope::new(alloc),
            mode: Mode::Analysis,
        }
    }

    /// Writes the answer to the last line, and lets it out. Whatever happens, what was written before stays.
    #[tactic(auto, using(nts_wording::proofs::Growths::writes))]
    pub fn write_answer<W: Write>(&self, output: &mut W, answer: &Answer) -> Result<(), Stop>
        ensures told { OnOk result (IsAnswerPut self.now.cx.nodes self.now.names self.now.scope
            answer.now (W.contents output.old) (W.contents output.new)) }
        ensures fault { IfErr result (λ s. is_refusal s ≡ false) }
        ensures begins { Begins (W.contents output.old) (W.contents output.new) }
    {
        write_answer(
            self.alloc,
            output,
            &self.cx.nodes,
            &self.names,
            &self.scope,
            answer,
        )
    }

    /// Does what a command says, but for a goal, which declares nothing. Its names are those that are declared.
    #[tactic(auto, using(crate::proofs::Values::keeping))]
    pub fn declare(&mut self, command: &Command) -> Result<(), Stop>
        requires ready { AreClausesReady self.old.cx.nodes self.old.clauses }
        ensures ready { OnOk result (AreClausesReady self.new.cx.nodes self.new.clauses) }
        ensures names { self.new.names ≡ self.old.names }
        ensures scope { self.new.scope ≡ self.old.scope }
        ensures declares { OnOk result (HasDeclared self.old self.new command.now) }
        ensures heads { OnOk result (HeadsFit self.old.cx self.old.clauses →
            HeadsFit self.new.cx self.new.clauses) }
    {
        match command {
            Command::Mode(mode) => {
                self.mode = *mode;
                Ok(())
            }
            Command::Depth(depth) => {
                self.cx.set_recursion_limit(usize::from(*depth));
                Ok(())
            }
            Command::Type { params, .. } => self.declare_type(params),
            Command::Trait {
                number,
                coinductive,
            } => self.declare_trait(*number, *coinductive),
            Command::Alias { number, is_rigid } => self.declare_alias(*number, *is_rigid),
            Command::Impl { head, body } => self.add_impl(head, body),
            Command::Norm { head, body } => self.add_norm(head, body),
            Command::Env(nodes) => self.assume(nodes),
            Command::Goal(_) => Ok(()),
        }
    }

    fn declare_type(&mut self, params: &[Param]) -> Result<(), Stop>
        requires ready { AreClausesReady self.old.cx.nodes self.old.clauses }
        ensures ready { OnOk result (AreClausesReady self.new.cx.nodes self.new.clauses) }
        ensures declared { OnOk result (DeclaresType params.now self.old.cx self.new.cx) }
        ensures rules { KeepsRules self.old self.new }
        ensures names { self.new.names ≡ self.old.names }
        ensures scope { self.new.scope ≡ self.old.scope }
    {
        let sorts = sorts_of(self.alloc, params)?;
        let variances = variances_of(self.alloc, params)?;
        // A line names no const parameter.
        if !are_variances(&sorts, &variances) {
            return Err(MISFIT);
        }
        self.cx.declare_ctor(&sorts, &variances)?;
        Ok(())
    }

    #[tactic(auto, using(crate::proofs::Values::keeping))]
    fn declare_trait(&mut self, number: usize, coinductive: bool) -> Result<(), Stop>
        requires ready { AreClausesReady self.old.cx.nodes self.old.clauses }
        ensures ready { OnOk result (AreClausesReady self.new.cx.nodes self.new.clauses) }
        ensures declared { OnOk result (DeclaresTrait (trait_sorts self.old.names number)
            self.old.cx self.new.cx) }
        ensures coinductive { OnOk result (coinductive ≡ true →
            MakesCoinductive self.old.clauses self.new.clauses
            (length self.old.cx.declarations.traits)) }
        ensures inductive { OnOk result (coinductive ≡ false →
            self.new.clauses ≡ self.old.clauses) }
        ensures mode { self.new.mode ≡ self.old.mode }
        ensures env { self.new.env ≡ self.old.env }
        ensures names { self.new.names ≡ self.old.names }
        ensures scope { self.new.scope ≡ self.old.scope }
    {
        let names = &self.names;
        let Some(signature) = names.traits.get(number) else {
            return Err(MISFIT);
        };
        let id = self.cx.declare_trait(&signature.sorts)?;
        if coinductive {
            self.clauses.set_coinductive(id)?;
        }
        Ok(())
    }

    #[tactic(auto, using(crate::proofs::Values::keeping))]
    fn add_impl(&mut self, head: &[Resolved], body: &[Resolved]) -> Result<(), Stop>
        requires ready { AreClausesReady self.old.cx.nodes self.old.clauses }
        ensures ready { OnOk result (AreClausesReady self.new.cx.nodes self.new.clauses) }
        ensures added { OnOk result ((c : Clause) × AddsClause self.old.clauses self.new.clauses c
            × IsRuleOf self.new.cx.nodes head.now body.now c
            × HeadFits self.new.cx.declarations self.new.cx.nodes c.trait_id.number c) }
        ensures grows { OnOk result (Grows self.old.cx self.new.cx) }
        ensures mode { self.new.mode ≡ self.old.mode }
        ensures env { self.new.env ≡ self.old.env }
        ensures names { self.new.names ≡ self.old.names }
        ensures scope { self.new.scope ≡ self.old.scope }
    {
        let clause = clause_of(&mut self.cx, head, body)?;
        if !Clauses::clause_fits(&self.cx, &clause)? {
            return Err(MISFIT);
        }
        self.clauses.add_clause(&self.cx, clause)?;
        Ok(())
    }

    #[tactic(auto, using(crate::proofs::Values::keeping))]
    fn declare_alias(&mut self, number: usize, is_rigid: bool) -> Result<(), Stop>
        requires ready { AreClausesReady self.old.cx.nodes self.old.clauses }
        ensures ready { OnOk result (AreClausesReady self.new.cx.nodes self.new.clauses) }
        ensures declared { OnOk result (DeclaresAlias (alias_sorts self.old.names number)
            self.old.cx self.new.cx) }
        ensures rigid { OnOk result (is_rigid ≡ true →
            MakesRigid self.old.clauses self.new.clauses (next_alias self.old.cx)) }
        ensures loose { OnOk result (is_rigid ≡ false → self.new.clauses ≡ self.old.clauses) }
        ensures mode { self.new.mode ≡ self.old.mode }
        ensures env { self.new.env ≡ self.old.env }
        ensures names { self.new.names ≡ self.old.names }
        ensures scope { self.new.scope ≡ self.old.scope }
    {
        let names = &self.names;
        let Some(signature) = names.aliases.get(number) else {
            return Err(MISFIT);
        };
        let id = self
            .cx
            .declare_alias(&signature.sorts, AliasKind::Projection)?;
        if is_rigid {
            let is_made = self.clauses.set_rigid(AliasDefId::Ty(id))?;
            // A new alias has no clauses.
            if !is_made {
                return Err(MISFIT);
            }
        }
        Ok(())
    }

    /// Adds what an alias normalizes to.
    #[tactic(auto, using(crate::proofs::Values::keeping))]
    fn add_norm(&mut self, head: &[Resolved], body: &[Resolved]) -> Result<(), Stop>
        requires ready { AreClausesReady self.old.cx.nodes self.old.clauses }
        ensures ready { OnOk result (AreClausesReady self.new.cx.nodes self.new.clauses) }
        ensures added { OnOk result ((c : NormClause) × AddsNormClause self.old.clauses
            self.new.clauses c × IsNormRuleOf self.new.cx.nodes head.now body.now c) }
        ensures grows { OnOk result (Grows self.old.cx self.new.cx) }
        ensures mode { self.new.mode ≡ self.old.mode }
        ensures env { self.new.env ≡ self.old.env }
        ensures names { self.new.names ≡ self.old.names }
        ensures scope { self.new.scope ≡ self.old.scope }
    {
        let clause = norm_clause_of(&mut self.cx, head, body)?;
        if !Clauses::norm_clause_fits(&self.cx, &clause)? {
            return Err(MISFIT);
        }
        let is_added = self.clauses.add_norm_clause(clause)?;
        // The reader of lines refuses this before.
        if !is_added {
            return Err(Stop::Refused(Refusal::AliasIsRigid));
        }
        Ok(())
    }

    /// Assumes the environment that these nodes say, in place of the one before.
    #[tactic(auto, using(crate::proofs::Values::keeping))]
    fn assume(&mut self, nodes: &[Resolved]) -> Result<(), Stop>
        requires ready { AreClausesReady self.old.cx.nodes self.old.clauses }
        ensures ready { OnOk result (AreClausesReady self.new.cx.nodes self.new.clauses) }
        ensures assumed { OnOk result (AssumesNodes nodes.now self.new) }
        ensures grows { OnOk result (Grows self.old.cx self.new.cx) }
        ensures clauses { self.new.clauses ≡ self.old.clauses }
        ensures mode { self.new.mode ≡ self.old.mode }
        ensures names { self.new.names ≡ self.old.names }
        ensures scope { self.new.scope ≡ self.old.scope }
    {
        let env = environment_of(&mut self.cx, nodes)?;
        self.env = Some(env);
        Ok(())
    }
}

fn sorts_of(alloc: Global, params: &[Param]) -> Result<Vec<Sort>, AllocError>
    ensures { IfOk result (λ v. v.items ≡ map (λ p. p.sort) params.now) }
{
    params.iter().map(|param| param.sort).collect(alloc)
}

fn variances_of(alloc: Global, params: &[Param]) -> Result<Vec<Variance>, AllocError>
    ensures { IfOk result (λ v. v.items ≡ map (λ p. p.variance) params.now) }
{
    params.iter().map(|param| param.variance).collect(alloc)
}
