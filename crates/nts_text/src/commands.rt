//! Commands: lines whose names have become numbers.

ghost use Rattle.std.specs.Prelude.{◌≡◌, ◌↔◌, ◌⊎◌, true, [], map, All, Err, IfOk, IfErr, OnOk, OnErr, IfSome, IsNone};
ghost use Rattle.nts_text.specs.Commands.{IsSorted, IsMeant, IsCommandOf, Declares};
ghost use Rattle.nts_text.specs.Lines.{IsPassedOver, NamesAreInside};
ghost use Rattle.nts_text.specs.Binders.{nothing_bound};
ghost use Rattle.nts_text.specs.Faults.{HasBadNames, HasFreeName, HasBoundTwice, HasRigidAlias, IsFaultOf};
ghost use Rattle.nts_text.specs.Reasons.{is_name_reason};
ghost use Rattle.nts_text.specs.Resolution.{AreSorted, AreMeanings};
ghost use Rattle.nts_text.specs.Tokens.{IsInside};
ghost use Rattle.nts_text.specs.declared.refusals.TextError.TheVariants.{Refused};
ghost use Rattle.nts_text.specs.declared.refusals.Refusal.TheVariants.{AliasIsRigid, NameDeclaredTwice, UnknownName, VariableInAnEnvironment};
ghost use Rattle.nts_text.specs.Spelled.{KeepsNumbers, KeepsNames};

use crate::lexer::tokens_of;
use crate::names::{NameTable, Scope};
use crate::parser::{Line, Mode, Param, keyword_of, line_of, text};
use crate::predicates::Node;
use crate::refusals::TextError;
use crate::resolver::{Resolved, Site, resolve_nodes};
use nts_model::Sort;
use std::alloc::{AllocError, Global};

/// What a line asks for. Types, traits and aliases are numbered from 0 on, in the order of their
/// declarations. A predicate stands before its arguments, and each of those before its own; the names
/// that its binder binds stand before it.
#[derive(Drop)]
pub enum Command {
    Mode(Mode),
    Depth(u16),
    Type {
        number: usize,
        params: Vec<Param>,
    },
    Trait {
        number: usize,
        coinductive: bool,
    },
    Alias {
        number: usize,
        is_rigid: bool,
    },
    Impl {
        head: Vec<Resolved>,
        body: Vec<Resolved>,
    },
    /// What an alias normalizes to.
    Norm {
        head: Vec<Resolved>,
        body: Vec<Resolved>,
    },
    Goal(Vec<Resolved>),
    /// The environment of the goals that follow.
    Env(Vec<Resolved>),
}

fn sorts_of(alloc: Global, params: &[Param]) -> Result<Vec<Sort>, AllocError>
    ensures { IfOk result (λ v. v.items ≡ map (λ p. p.sort) params.now) }
{
    params.iter().map(|param| param.sort).collect(alloc)
}

/// Gives the names of a clause their meaning, first those of its head.
fn clause_meaning(
    alloc: Global,
    line: &[u8],
    head: &[Node],
    body: &[Node],
    names: &NameTable,
    scope: &mut Scope,
) -> Result<(Vec<Resolved>, Vec<Resolved>), TextError>
    requires head { All (λ n. IsInside line.now n.token) head.now }
    requires body { All (λ n. IsInside line.now n.token) body.now }
    ensures sorted { IfOk result (λ rs. AreSorted names.now [] rs.0.items ×
        AreSorted names.now [] rs.1.items) }
    ensures means { IfOk result (λ rs.
        AreMeanings names.now scope.new line.now nothing_bound head.now rs.0.items ×
        AreMeanings names.now scope.new line.now nothing_bound body.now rs.1.items) }
    ensures kept { KeepsNames scope.old scope.new }
    ensures reasons { IfErr result (λ e. is_name_reason e ≡ true) }
    ensures variable { result ≡ Err (Refused VariableInAnEnvironment) →
        Site.Clause ≡ Site.Environment }
    ensures unknown { result ≡ Err (Refused UnknownName) →
        HasFreeName names.now line.now head.now ⊎ HasFreeName names.now line.now body.now }
    ensures twice { result ≡ Err (Refused NameDeclaredTwice) →
        HasBoundTwice names.now line.now head.now ⊎ HasBoundTwice names.now line.now body.now }
    ensures rigid { result ≡ Err (Refused AliasIsRigid) →
        HasRigidAlias names.now line.now head.now ⊎ HasRigidAlias names.now line.now body.now }
{
    let first = resolve_nodes(alloc, line, head, Site::Clause, names, scope)?;
    let rest = resolve_nodes(alloc, line, body, Site::Clause, names, scope)?;
    Ok((first, rest))
}

/// Gives the names of a parsed line their meaning.
fn meaning(
    alloc: Global,
    line: &[u8],
    parsed: Line,
    names: &mut NameTable,
    scope: &mut Scope,
) -> Result<Command, TextError>
    requires { NamesAreInside line.now parsed }
    ensures sorted { IfOk result (IsSorted names.new) }
    ensures means { IfOk result (IsMeant names.new scope.new line.now parsed) }
    ensures declares { OnOk result (Declares line.now names.old names.new parsed) }
    ensures kept { OnOk result (KeepsNames scope.old scope.new) }
    ensures fault { IfErr result (λ e. HasBadNames names.old line.now e parsed) }
{
    match parsed {
        Line::Mode(mode) => Ok(Command::Mode(mode)),
        Line::Depth(depth) => Ok(Command::Depth(depth)),
        Line::Type { name, params } => {
            let sorts = sorts_of(alloc, &params)?;
            let number = names.declare_type(alloc, text(line, name), sorts)?;
            Ok(Command::Type { number, params })
        }
        Line::Trait {
            name,
            sorts,
            coinductive,
        } => {
            let number = names.declare_trait(alloc, text(line, name), sorts)?;
            Ok(Command::Trait {
                number,
                coinductive,
            })
        }
        Line::Alias {
            name,
            sorts,
            is_rigid,
        } => {
            let number = names.declare_alias(alloc, text(line, name), sorts, is_rigid)?;
            Ok(Command::Alias { number, is_rigid })
        }
        Line::Impl { head, body } => {
            let (head, body) = clause_meaning(alloc, line, &head, &body, names, scope)?;
            Ok(Command::Impl { head, body })
        }
        Line::Norm { head, body } => {
            let (head, body) = clause_meaning(alloc, line, &head, &body, names, scope)?;
            Ok(Command::Norm { head, body })
        }
        Line::Goal(nodes) => {
            let nodes = resolve_nodes(alloc, line, &nodes, Site::Goal, names, scope)?;
            Ok(Command::Goal(nodes))
        }
        Line::Env(nodes) => {
            let nodes = resolve_nodes(alloc, line, &nodes, Site::Environment, names, scope)?;
            Ok(Command::Env(nodes))
        }
    }
}

/// Reads a line: `None` for a line to pass over. The scope then has the variables of this line.
pub fn read_command(
    alloc: Global,
    line: &[u8],
    names: &mut NameTable,
    scope: &mut Scope,
) -> Result<Option<Command>, TextError>
    ensures passed { IfOk result (λ o. IsNone o ↔ IsPassedOver line.now) }
    ensures refused { OnErr result (IsPassedOver line.now → ⊥) }
    ensures fault { IfErr result (IsFaultOf names.old line.now) }
    ensures sorted { IfOk result (λ o. IfSome o (IsSorted names.new)) }
    ensures said { IfOk result (λ o.
        IfSome o (IsCommandOf line.now names.old names.new scope.new)) }
    ensures names { IfOk result (λ o. IsNone o → names.new ≡ names.old) }
    ensures parameters { OnOk result (KeepsNumbers scope.old.parameters scope.new.parameters) }
{
    scope.begin_line(alloc);
    match keyword_of(line) {
        Ok(None) => Ok(None),
        Ok(Some((keyword, start))) => {
            let tokens = tokens_of(alloc, line, start)?;
            let parsed = line_of(alloc, keyword, line, &tokens)?;
            Ok(Some(meaning(alloc, line, parsed, names, scope)?))
        }
        Err(refusal) => Err(TextError::Refused(refusal)),
    }
}
