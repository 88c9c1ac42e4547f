//! The clauses of aliases, by alias.
ghost use Rattle.std.specs.Prelude.{◌≡◌, ◌≢◌, ◌<◌, ◌↔◌, ℕ, [], true, false, length, slice_get, IfOk, IsTrue, OnOk, OnErr, IsOkUnless, Ok, if◌then◌else◌};
ghost use Rattle.nts_model.specs.declared.labels.AliasHead.{AliasHead};
ghost use Rattle.nts_terms.specs.Handles.{alias_head};
ghost use Rattle.nts_delegate.specs.Clauses.{said_in, said_at};
ghost use Rattle.nts_delegate.specs.Adding.{with_norm_clause, made_rigid};

use nts_model::Sort;
use nts_store::Fault;
use nts_terms::{AliasDefId, GenericArgs, Predicate, Term};
use std::alloc::{AllocError, Global};

/// A rule for what an alias normalizes to: with the arguments of the head it normalizes to the result
/// where the body holds. Its terms name its variables as canonical bound variables.
#[derive(Drop)]
pub struct NormClause {
    /// The sorts of its variables.
    pub fresh: Vec<Sort>,
    pub alias: AliasDefId,
    pub head: GenericArgs,
    pub result: Term,
    pub body: Vec<Predicate>,
}

/// What is said of an alias. A rigid one stands for itself, and gets no clauses.
#[derive(Drop)]
struct AliasRules {
    clauses: Vec<NormClause>,
    is_rigid: bool,
}

impl AliasRules {
    /// Nothing yet. It takes no memory.
    fn new(alloc: Global) -> AliasRules
        ensures clauses { result.clauses.items ≡ [] }
        ensures rigid { result.is_rigid ≡ false }
    {
        AliasRules {
            clauses: Vec::new(alloc),
            is_rigid: false,
        }
    }
}

/// What is said of each alias, by its number: of those of types, and of the consts that are to be evaluated.
#[derive(Drop)]
pub(crate) struct AliasTable {
    types: Vec<AliasRules>,
    consts: Vec<AliasRules>,
}

impl AliasTable {
    ghost use Rattle.nts_delegate.specs.Clauses.{nothing_said};

    /// Nothing is said of any alias. It takes no memory.
    pub(crate) fn new(alloc: Global) -> AliasTable
        ensures { (a : AliasHead) → said_at result a ≡ nothing_said }
    {
        AliasTable {
            types: Vec::new(alloc),
            consts: Vec::new(alloc),
        }
    }

    /// One more clause of its alias, after all others; or `false`, and nothing else, if the alias is rigid.
    pub(crate) fn add(&mut self, alloc: Global, clause: NormClause) -> Result<bool, Fault>
        ensures said { IfOk result (λ b. said_at self.new (alias_head clause.alias) ≡
            (if b then with_norm_clause (said_at self.old (alias_head clause.alias)) clause
            else said_at self.old (alias_head clause.alias))) }
        ensures others { (a : AliasHead) → a ≢ alias_head clause.alias →
            said_at self.new a ≡ said_at self.old a }
        ensures loose { IfOk result (λ b. IsTrue b ↔ ((said_at self.old
            (alias_head clause.alias)).is_rigid ≡ false)) }
        ensures err { OnErr result ((a : AliasHead) → said_at self.new a ≡ said_at self.old a) }
        ensures memory { IsOkUnless result Fault.Memory }
    {
        match clause.alias {
            AliasDefId::Ty(id) => add_at(alloc, &mut self.types, id.number, clause),
            AliasDefId::Const(id) => add_at(alloc, &mut self.consts, id.number, clause),
        }
    }

    /// Makes an alias rigid; or says `false`, and does nothing else, if it has clauses.
    pub(crate) fn set_rigid(&mut self, alloc: Global, alias: AliasDefId) -> Result<bool, Fault>
        ensures said { IfOk result (λ b. said_at self.new (alias_head alias) ≡
            (if b then made_rigid (said_at self.old (alias_head alias))
            else said_at self.old (alias_head alias))) }
        ensures others { (a : AliasHead) → a ≢ alias_head alias →
            said_at self.new a ≡ said_at self.old a }
        ensures bare { IfOk result (λ b. IsTrue b ↔ ((said_at self.old
            (alias_head alias)).clauses ≡ [])) }
        ensures err { OnErr result ((a : AliasHead) → said_at self.new a ≡ said_at self.old a) }
        ensures memory { IsOkUnless result Fault.Memory }
    {
        match alias {
            AliasDefId::Ty(id) => set_rigid_at(alloc, &mut self.types, id.number),
            AliasDefId::Const(id) => set_rigid_at(alloc, &mut self.consts, id.number),
        }
    }

    /// The clauses of an alias.
    pub(crate) fn of_alias(&self, alias: AliasDefId) -> &[NormClause]
        ensures { result.now ≡ (said_at self.now (alias_head alias)).clauses }
    {
        match alias {
            AliasDefId::Ty(id) => clauses_at(&self.types, id.number),
            AliasDefId::Const(id) => clauses_at(&self.consts, id.number),
        }
    }

    /// Whether an alias stands for itself.
    pub(crate) fn is_rigid(&self, alias: AliasDefId) -> bool
        ensures { result ≡ (said_at self.now (alias_head alias)).is_rigid }
    {
        match alias {
            AliasDefId::Ty(id) => is_rigid_at(&self.types, id.number),
            AliasDefId::Const(id) => is_rigid_at(&self.consts, id.number),
        }
    }
}

/// Makes a place for each number up to this one. Nothing more is said at any.
fn reach(alloc: Global, rules: &mut Vec<AliasRules>, number: usize) -> Result<(), AllocError>
    ensures within { OnOk result (number < length rules.new.items) }
    ensures same { (i : ℕ) → said_in (slice_get rules.new.items i) ≡
        said_in (slice_get rules.old.items i) }
{
    while rules.len() <= number {
        rules.push(AliasRules::new(alloc))?;
    }
    Ok(())
}

fn add_at(
    alloc: Global,
    rules: &mut Vec<AliasRules>,
    number: usize,
    clause: NormClause,
) -> Result<bool, Fault>
    ensures said { IfOk result (λ b. said_in (slice_get rules.new.items number) ≡
        (if b then with_norm_clause (said_in (slice_get rules.old.items number)) clause
        else said_in (slice_get rules.old.items number))) }
    ensures others { (i : ℕ) → i ≢ number → said_in (slice_get rules.new.items i) ≡
        said_in (slice_get rules.old.items i) }
    ensures loose { IfOk result (λ b. IsTrue b ↔ ((said_in (slice_get rules.old.items
        number)).is_rigid ≡ false)) }
    ensures err { OnErr result ((i : ℕ) → said_in (slice_get rules.new.items i) ≡
        said_in (slice_get rules.old.items i)) }
    ensures memory { IsOkUnless result Fault.Memory }
{
    reach(alloc, rules, number)?;
    if rules[number].is_rigid {
        return Ok(false);
    }
    rules[number].clauses.push(clause)?;
    Ok(true)
}

fn set_rigid_at(alloc: Global, rules: &mut Vec<AliasRules>, number: usize) -> Result<bool, Fault>
    ensures said { IfOk result (λ b. said_in (slice_get rules.new.items number) ≡
        (if b then made_rigid (said_in (slice_get rules.old.items number))
        else said_in (slice_get rules.old.items number))) }
    ensures others { (i : ℕ) → i ≢ number → said_in (slice_get rules.new.items i) ≡
        said_in (slice_get rules.old.items i) }
    ensures bare { IfOk result (λ b. IsTrue b ↔ ((said_in (slice_get rules.old.items
        number)).clauses ≡ [])) }
    ensures err { OnErr result ((i : ℕ) → said_in (slice_get rules.new.items i) ≡
        said_in (slice_get rules.old.items i)) }
    ensures memory { IsOkUnless result Fault.Memory }
{
    reach(alloc, rules, number)?;
    if !rules[number].clauses.is_empty() {
        return Ok(false);
    }
    rules[number].is_rigid = true;
    Ok(true)
}

fn clauses_at(rules: &[AliasRules], number: usize) -> &[NormClause]
    ensures { result.now ≡ (said_in (slice_get rules.now number)).clauses }
{
    match rules.get(number) {
        Some(entry) => &entry.clauses,
        None => &[],
    }
}

fn is_rigid_at(rules: &[AliasRules], number: usize) -> bool
    ensures { result ≡ (said_in (slice_get rules.now number)).is_rigid }
{
    match rules.get(number) {
        Some(entry) => entry.is_rigid,
        None => false,
    }
}
