//! Names that stand alone: what is declared, predicates, types of no arguments.
ghost use Rattle.std.specs.Prelude.{◌≡◌, ◌≢◌, true, None, Some, Err, vec_len, IfOk, IfErr, MatchResult};
ghost use Rattle.nts_text.specs.Lines.{bytes_of};
ghost use Rattle.nts_text.specs.NameTable.{IsNameTaken, NameStandsFor};
ghost use Rattle.nts_text.specs.Binders.{BoundNames};
ghost use Rattle.nts_text.specs.Names.{is_numbered};
ghost use Rattle.nts_text.specs.Reasons.{is_name_reason};
ghost use Rattle.nts_text.specs.Tokens.{IsInside};
ghost use Rattle.nts_text.specs.Faults.{IsRigidAlias};
ghost use Rattle.nts_text.specs.Resolution.{sort_of, role_of, IsDeclared, IsMeaningOf};
ghost use Rattle.nts_text.specs.declared.names.Scope.{Scope};
ghost use Rattle.nts_text.specs.declared.refusals.TextError.TheVariants.{Refused};
ghost use Rattle.nts_text.specs.declared.refusals.Refusal.TheVariants.{AliasIsRigid, NameDeclaredTwice, ParameterInAClause, UnknownName, VariableInAnEnvironment, WrongArguments};

use crate::names::{Declared, NameTable, Scope};
use crate::parser::text;
use crate::predicates::{Node, Role};
use crate::refusals::{Refusal, TextError};
use crate::resolver::{Resolved, Site};
use nts_model::Sort;

/// A line that is refused, and why.
pub fn refused<T>(refusal: Refusal) -> Result<T, TextError>
    ensures { result ≡ Err (Refused refusal) }
{
    Err(TextError::Refused(refusal))
}

/// What the name of a node stands for.
pub fn declared(names: &NameTable, line: &[u8], node: Node) -> Result<Declared, TextError>
    requires { IsInside line.now node.token }
    ensures unknown { IfErr result (λ e. (e ≡ Refused UnknownName) ×
        (IsNameTaken names.now (bytes_of line.now node.token) → ⊥)) }
    ensures numbered { IfOk result (λ d. is_numbered (vec_len names.now.types)
        (vec_len names.now.traits) (vec_len names.now.aliases) d ≡ true) }
    ensures found { IfOk result (NameStandsFor names.now (bytes_of line.now node.token)) }
{
    match names.lookup(text(line, node.token)) {
        Some(declared) => Ok(declared),
        None => refused(Refusal::UnknownName),
    }
}

/// A node that stands in a trait's place.
pub fn predicate(names: &NameTable, line: &[u8], node: Node) -> Result<Resolved, TextError>
    requires { IsInside line.now node.token }
    ensures sort { IfOk result (λ r. sort_of r ≡ None) }
    ensures role { IfOk result (λ r. role_of r ≡ Role.Trait) }
    ensures declared { IfOk result (IsDeclared names.now) }
    ensures means { (scope : Scope) (b : BoundNames) →
        IfOk result (IsMeaningOf names.now scope line.now b node) }
    ensures reasons { IfErr result (λ e. is_name_reason e ≡ true) }
    ensures reason { result ≢ Err (Refused ParameterInAClause) }
    ensures variable { result ≢ Err (Refused VariableInAnEnvironment) }
    ensures unknown { result ≡ Err (Refused UnknownName) →
        IsNameTaken names.now (bytes_of line.now node.token) → ⊥ }
    ensures declares { result ≢ Err (Refused NameDeclaredTwice) }
    ensures rigid { result ≢ Err (Refused AliasIsRigid) }
{
    let Declared::Trait(number) = declared(names, line, node)? else {
        return refused(Refusal::WrongArguments);
    };
    if names.traits[number].sorts.len() != node.arguments {
        return refused(Refusal::WrongArguments);
    }
    Ok(Resolved::Trait {
        number,
        arguments: node.arguments,
    })
}

/// An alias on the left of an `=`. One that is rigid has no other value than itself.
pub fn normalized(names: &NameTable, line: &[u8], node: Node) -> Result<Resolved, TextError>
    requires inside { IsInside line.now node.token }
    requires role { node.role ≡ Role.Normalizes }
    ensures sort { IfOk result (λ r. sort_of r ≡ None) }
    ensures role { IfOk result (λ r. role_of r ≡ Role.Normalizes) }
    ensures declared { IfOk result (IsDeclared names.now) }
    ensures means { (scope : Scope) (b : BoundNames) →
        IfOk result (IsMeaningOf names.now scope line.now b node) }
    ensures reasons { IfErr result (λ e. is_name_reason e ≡ true) }
    ensures reason { result ≢ Err (Refused ParameterInAClause) }
    ensures variable { result ≢ Err (Refused VariableInAnEnvironment) }
    ensures unknown { result ≡ Err (Refused UnknownName) →
        IsNameTaken names.now (bytes_of line.now node.token) → ⊥ }
    ensures declares { result ≢ Err (Refused NameDeclaredTwice) }
    ensures rigid { result ≡ Err (Refused AliasIsRigid) → IsRigidAlias names.now line.now node }
{
    let Declared::Alias { number, is_rigid } = declared(names, line, node)? else {
        return refused(Refusal::WrongArguments);
    };
    let arguments = names.aliases[number].sorts.len();
    if node.arguments == 0 || node.arguments - 1 != arguments {
        return refused(Refusal::WrongArguments);
    }
    if is_rigid {
        return refused(Refusal::AliasIsRigid);
    }
    Ok(Resolved::Normalizes { number, arguments })
}

/// A known or declared name that stands in a type's place.
pub fn named_type(names: &NameTable, line: &[u8], node: Node) -> Result<Resolved, TextError>
    requires { IsInside line.now node.token }
    ensures sort { IfOk result (λ r. sort_of r ≡ Some Sort.Ty) }
    ensures role { IfOk result (λ r. role_of r ≡ Role.Argument) }
    ensures declared { IfOk result (IsDeclared names.now) }
    ensures means { (scope : Scope) (b : BoundNames) →
        IfOk result (IsMeaningOf names.now scope line.now b node) }
    ensures reasons { IfErr result (λ e. is_name_reason e ≡ true) }
    ensures reason { result ≢ Err (Refused ParameterInAClause) }
    ensures variable { result ≢ Err (Refused VariableInAnEnvironment) }
    ensures unknown { result ≡ Err (Refused UnknownName) →
        IsNameTaken names.now (bytes_of line.now node.token) → ⊥ }
    ensures declares { result ≢ Err (Refused NameDeclaredTwice) }
    ensures rigid { result ≢ Err (Refused AliasIsRigid) }
{
    let (found, wanted) = match declared(names, line, node)? {
        Declared::Int(int) => (Resolved::Int(int), 0),
        Declared::Uint(uint) => (Resolved::Uint(uint), 0),
        Declared::Type(number) => (
            Resolved::Ctor {
                number,
                arguments: node.arguments,
            },
            names.types[number].sorts.len(),
        ),
        Declared::Alias { number, .. } => (
            Resolved::Alias {
                number,
                arguments: node.arguments,
            },
            names.aliases[number].sorts.len(),
        ),
        Declared::Trait(_) => return refused(Refusal::WrongArguments),
    };
    if wanted != node.arguments {
        return refused(Refusal::WrongArguments);
    }
    Ok(found)
}

/// A place for a parameter: none in a clause.
pub fn allows_parameter(site: Site) -> Result<(), TextError>
    ensures { MatchResult result (λ _. site ≢ Site.Clause) (λ e. (e ≡ Refused ParameterInAClause) ×
        (site ≡ Site.Clause)) }
{
    match site {
        Site::Clause => refused(Refusal::ParameterInAClause),
        Site::Goal | Site::Environment => Ok(()),
    }
}

/// A place for a variable: none in an environment.
pub fn allows_variable(site: Site) -> Result<(), TextError>
    ensures { MatchResult result (λ _. site ≢ Site.Environment) (λ e.
        (e ≡ Refused VariableInAnEnvironment) × (site ≡ Site.Environment)) }
{
    match site {
        Site::Environment => refused(Refusal::VariableInAnEnvironment),
        Site::Clause | Site::Goal => Ok(()),
    }
}
