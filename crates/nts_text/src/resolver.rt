//! Predicates whose names have become numbers.
ghost use Rattle.std.specs.Prelude.{◌≡◌, ◌≢◌, true, None, Some, Err, ◌++◌, ◌∷◌, [], length, reverse, All, IfOk, IfErr, IsErr, OnOk};
ghost use Rattle.nts_text.specs.Binders.{BoundNames, bound_names, bound_behind, nothing_bound};
ghost use Rattle.nts_text.specs.Faults.{IsUnknown, HasFreeName, IsBoundTwice, HasBoundTwice, IsRigidAlias, HasRigidAlias};
ghost use Rattle.nts_text.specs.Spelled.{KeepsNames};
ghost use Rattle.nts_text.specs.Reasons.{is_name_reason};
ghost use Rattle.nts_text.specs.Tokens.{IsInside};
ghost use Rattle.nts_text.specs.Resolution.{argument_sorts, sort_of, role_of, IsDeclared, IsMeaningOf, IsNoVariable, AreMeanings, AreSorted};
ghost use Rattle.nts_text.specs.declared.names.Scope.{Scope};
ghost use Rattle.nts_text.specs.declared.refusals.TextError.TheVariants.{Refused};
ghost use Rattle.nts_text.specs.declared.refusals.Refusal.TheVariants.{AliasIsRigid, NameDeclaredTwice, ParameterInAClause, UnknownName, VariableInAnEnvironment, WrongArguments};

use crate::arguments::want_arguments;
use crate::known::{
    allows_parameter, allows_variable, declared, named_type, normalized, predicate, refused,
};
use crate::lexer::TokenKind;
use crate::names::{Bounds, NameTable, Scope};
use crate::parser::text;
use crate::predicates::{Node, Role};
use crate::refusals::{Refusal, TextError};
use nts_model::{IntTy, Sort, UintTy};
use std::alloc::{AllocError, Global};

/// Where predicates stand. Those of a clause may not name parameters, and those of an environment no variables.
#[derive(Clone, Copy, PartialEq, Eq)]
pub enum Site {
    Clause,
    Goal,
    Environment,
}

/// A node whose name has become a number: a trait's, a type's, an alias's, that of a variable or of a parameter
/// among those of its sort, or its place in the list of its predicate's binder.
#[derive(Clone, Copy, PartialEq, Eq)]
pub enum Resolved {
    /// A name for the binder of the next predicate to bind. It has the next place of the list.
    Binds(Sort),
    /// A name that the binder binds.
    BoundType(usize),
    BoundRegion(usize),
    Trait { number: usize, arguments: usize },
    /// A type outlives a region.
    TypeOutlives,
    /// A region outlives another one.
    RegionOutlives,
    Ctor { number: usize, arguments: usize },
    Alias { number: usize, arguments: usize },
    /// An alias normalizes to the type behind its arguments.
    Normalizes { number: usize, arguments: usize },
    Int(IntTy),
    Uint(UintTy),
    TypeVariable(usize),
    TypeParam(usize),
    RegionVariable(usize),
    RegionParam(usize),
    Static,
}

/// What reads nodes: the line, the place of the predicates in it, and the names.
#[derive(Clone, Copy)]
struct Reading<'a> {
    alloc: Global,
    line: &'a [u8],
    site: Site,
    names: &'a NameTable,
}

impl Reading<'_> {
    /// A name for the next binder to bind.
    fn bound(&self, bounds: &mut Bounds, node: Node) -> Result<Resolved, TextError>
        requires inside { IsInside self.now.line.now node.token }
        requires role { node.role ≡ Role.Bound }
        ensures sort { IfOk result (λ r. sort_of r ≡ None) }
        ensures role { IfOk result (λ r. role_of r ≡ Role.Bound) }
        ensures declared { IfOk result (IsDeclared self.now.names.now) }
        ensures means { (scope : Scope) → IfOk result (IsMeaningOf self.now.names.now scope
            self.now.line.now (bound_names bounds.old) node) }
        ensures bounds { OnOk result (bound_names bounds.new ≡
            bound_behind self.now.line.now (bound_names bounds.old) node) }
        ensures reasons { IfErr result (λ e. is_name_reason e ≡ true) }
        ensures parameter { result ≢ Err (Refused ParameterInAClause) }
        ensures variable { result ≢ Err (Refused VariableInAnEnvironment) }
        ensures unknown { result ≢ Err (Refused UnknownName) }
        ensures twice { result ≡ Err (Refused NameDeclaredTwice) →
            IsBoundTwice self.now.names.now self.now.line.now (bound_names bounds.old) node }
        ensures rigid { result ≢ Err (Refused AliasIsRigid) }
    {
        let sort = match node.token.kind {
            TokenKind::Name => Sort::Ty,
            TokenKind::RegionParam => Sort::Region,
            TokenKind::Static => return refused(Refusal::NameDeclaredTwice),
            _ => return refused(Refusal::WrongArguments),
        };
        let name = text(self.line, node.token);
        if self.names.lookup(name).is_some() {
            return refused(Refusal::NameDeclaredTwice);
        }
        let is_new = bounds.bind(self.alloc, name)?;
        if !is_new {
            return refused(Refusal::NameDeclaredTwice);
        }
        Ok(Resolved::Binds(sort))
    }

    /// A node that stands in a trait's place. The names that were to be bound are now bound.
    fn trait_node(&self, bounds: &mut Bounds, node: Node) -> Result<Resolved, TextError>
        requires inside { IsInside self.now.line.now node.token }
        requires role { node.role ≡ Role.Trait }
        ensures sort { IfOk result (λ r. sort_of r ≡ None) }
        ensures role { IfOk result (λ r. role_of r ≡ Role.Trait) }
        ensures declared { IfOk result (IsDeclared self.now.names.now) }
        ensures means { (scope : Scope) (b : BoundNames) →
            IfOk result (IsMeaningOf self.now.names.now scope self.now.line.now b node) }
        ensures bounds { bound_names bounds.new ≡ bound_behind self.now.line.now (bound_names
            bounds.old) node }
        ensures reasons { IfErr result (λ e. is_name_reason e ≡ true) }
        ensures parameter { result ≢ Err (Refused ParameterInAClause) }
        ensures variable { result ≢ Err (Refused VariableInAnEnvironment) }
        ensures unknown { result ≡ Err (Refused UnknownName) →
            IsUnknown self.now.names.now self.now.line.now (bound_names bounds.old) node }
        ensures twice { result ≢ Err (Refused NameDeclaredTwice) }
        ensures rigid { result ≢ Err (Refused AliasIsRigid) }
    {
        bounds.begin_predicate(self.alloc);
        match bounds.number(text(self.line, node.token)) {
            Some(_) => refused(Refusal::WrongArguments),
            None => predicate(self.names, self.line, node),
        }
    }

    /// An alias on the left of an `=`. The names that were to be bound are now bound.
    fn alias_node(&self, bounds: &mut Bounds, node: Node) -> Result<Resolved, TextError>
        requires inside { IsInside self.now.line.now node.token }
        requires role { node.role ≡ Role.Normalizes }
        ensures sort { IfOk result (λ r. sort_of r ≡ None) }
        ensures role { IfOk result (λ r. role_of r ≡ Role.Normalizes) }
        ensures declared { IfOk result (IsDeclared self.now.names.now) }
        ensures means { (scope : Scope) (b : BoundNames) →
            IfOk result (IsMeaningOf self.now.names.now scope self.now.line.now b node) }
        ensures bounds { bound_names bounds.new ≡ bound_behind self.now.line.now (bound_names
            bounds.old) node }
        ensures reasons { IfErr result (λ e. is_name_reason e ≡ true) }
        ensures parameter { result ≢ Err (Refused ParameterInAClause) }
        ensures variable { result ≢ Err (Refused VariableInAnEnvironment) }
        ensures unknown { result ≡ Err (Refused UnknownName) →
            IsUnknown self.now.names.now self.now.line.now (bound_names bounds.old) node }
        ensures twice { result ≢ Err (Refused NameDeclaredTwice) }
        ensures rigid { result ≡ Err (Refused AliasIsRigid) →
            IsRigidAlias self.now.names.now self.now.line.now node }
    {
        bounds.begin_predicate(self.alloc);
        match bounds.number(text(self.line, node.token)) {
            Some(_) => refused(Refusal::WrongArguments),
            None => normalized(self.names, self.line, node),
        }
    }

    /// A name that stands in a type's place: one that is bound, or a known or declared one.
    fn type_name(&self, bounds: &Bounds, node: Node) -> Result<Resolved, TextError>
        requires inside { IsInside self.now.line.now node.token }
        requires role { node.role ≡ Role.Argument }
        requires name { node.token.kind ≡ TokenKind.Name }
        ensures sort { IfOk result (λ r. sort_of r ≡ Some Sort.Ty) }
        ensures role { IfOk result (λ r. role_of r ≡ Role.Argument) }
        ensures declared { IfOk result (IsDeclared self.now.names.now) }
        ensures means { (scope : Scope) → IfOk result (IsMeaningOf self.now.names.now scope
            self.now.line.now (bound_names bounds.now) node) }
        ensures reasons { IfErr result (λ e. is_name_reason e ≡ true) }
        ensures parameter { result ≢ Err (Refused ParameterInAClause) }
        ensures variable { result ≢ Err (Refused VariableInAnEnvironment) }
        ensures unknown { result ≡ Err (Refused UnknownName) →
            IsUnknown self.now.names.now self.now.line.now (bound_names bounds.now) node }
        ensures twice { result ≢ Err (Refused NameDeclaredTwice) }
        ensures rigid { result ≢ Err (Refused AliasIsRigid) }
    {
        match bounds.number(text(self.line, node.token)) {
            Some(number) => {
                if node.arguments != 0 {
                    return refused(Refusal::WrongArguments);
                }
                Ok(Resolved::BoundType(number))
            }
            None => named_type(self.names, self.line, node),
        }
    }

    /// A node that stands in a type's place.
    fn type_node(
        &self,
        bounds: &Bounds,
        scope: &mut Scope,
        node: Node,
    ) -> Result<Resolved, TextError>
        requires inside { IsInside self.now.line.now node.token }
        requires role { node.role ≡ Role.Argument }
        ensures sort { IfOk result (λ r. sort_of r ≡ Some Sort.Ty) }
        ensures role { IfOk result (λ r. role_of r ≡ Role.Argument) }
        ensures declared { IfOk result (IsDeclared self.now.names.now) }
        ensures means { IfOk result (IsMeaningOf self.now.names.now scope.new self.now.line.now
            (bound_names bounds.now) node) }
        ensures kept { KeepsNames scope.old scope.new }
        ensures reasons { IfErr result (λ e. is_name_reason e ≡ true) }
        ensures parameter { result ≡ Err (Refused ParameterInAClause) →
            self.now.site ≡ Site.Clause }
        ensures variable { result ≡ Err (Refused VariableInAnEnvironment) →
            self.now.site ≡ Site.Environment }
        ensures free { self.now.site ≡ Site.Environment → IfOk result IsNoVariable }
        ensures unknown { result ≡ Err (Refused UnknownName) →
            IsUnknown self.now.names.now self.now.line.now (bound_names bounds.now) node }
        ensures twice { result ≢ Err (Refused NameDeclaredTwice) }
        ensures rigid { result ≢ Err (Refused AliasIsRigid) }
    {
        let name = text(self.line, node.token);
        match node.token.kind {
            TokenKind::Name => self.type_name(bounds, node),
            TokenKind::TypeVariable => {
                allows_variable(self.site)?;
                Ok(Resolved::TypeVariable(scope.variables.type_number(self.alloc, name)?))
            }
            TokenKind::TypeParam => {
                allows_parameter(self.site)?;
                Ok(Resolved::TypeParam(scope.parameters.type_number(self.alloc, name)?))
            }
            _ => refused(Refusal::WrongArguments),
        }
    }

    /// A region that is written as a parameter is: one that is bound, or a parameter.
    fn region_name(
        &self,
        bounds: &Bounds,
        scope: &mut Scope,
        node: Node,
    ) -> Result<Resolved, TextError>
        requires inside { IsInside self.now.line.now node.token }
        requires name { node.token.kind ≡ TokenKind.RegionParam }
        ensures sort { IfOk result (λ r. sort_of r ≡ Some Sort.Region) }
        ensures role { IfOk result (λ r. role_of r ≡ Role.Argument) }
        ensures declared { IfOk result (IsDeclared self.now.names.now) }
        ensures means { IfOk result (IsMeaningOf self.now.names.now scope.new self.now.line.now
            (bound_names bounds.now) node) }
        ensures kept { KeepsNames scope.old scope.new }
        ensures reasons { IfErr result (λ e. is_name_reason e ≡ true) }
        ensures parameter { result ≡ Err (Refused ParameterInAClause) →
            self.now.site ≡ Site.Clause }
        ensures variable { result ≡ Err (Refused VariableInAnEnvironment) →
            self.now.site ≡ Site.Environment }
        ensures free { self.now.site ≡ Site.Environment → IfOk result IsNoVariable }
        ensures unknown { result ≢ Err (Refused UnknownName) }
        ensures twice { result ≢ Err (Refused NameDeclaredTwice) }
        ensures rigid { result ≢ Err (Refused AliasIsRigid) }
    {
        let name = text(self.line, node.token);
        if let Some(number) = bounds.number(name) {
            return Ok(Resolved::BoundRegion(number));
        }
        allows_parameter(self.site)?;
        Ok(Resolved::RegionParam(scope.parameters.region_number(self.alloc, name)?))
    }

    /// Why a name that stands in a region's place is refused.
    fn no_region(&self, bounds: &Bounds, node: Node) -> Result<Resolved, TextError>
        requires inside { IsInside self.now.line.now node.token }
        requires role { node.role ≡ Role.Argument }
        ensures refused { IfErr result (λ e. e ≢ Refused UnknownName → e ≡ Refused WrongArguments) }
        ensures unknown { result ≡ Err (Refused UnknownName) →
            IsUnknown self.now.names.now self.now.line.now (bound_names bounds.now) node }
        ensures none { IsErr result }
    {
        match bounds.number(text(self.line, node.token)) {
            Some(_) => refused(Refusal::WrongArguments),
            None => {
                let _ = declared(self.names, self.line, node)?;
                refused(Refusal::WrongArguments)
            }
        }
    }

    /// A node that stands in a region's place.
    fn region_node(
        &self,
        bounds: &Bounds,
        scope: &mut Scope,
        node: Node,
    ) -> Result<Resolved, TextError>
        requires inside { IsInside self.now.line.now node.token }
        requires role { node.role ≡ Role.Argument }
        ensures sort { IfOk result (λ r. sort_of r ≡ Some Sort.Region) }
        ensures role { IfOk result (λ r. role_of r ≡ Role.Argument) }
        ensures declared { IfOk result (IsDeclared self.now.names.now) }
        ensures means { IfOk result (IsMeaningOf self.now.names.now scope.new self.now.line.now
            (bound_names bounds.now) node) }
        ensures kept { KeepsNames scope.old scope.new }
        ensures reasons { IfErr result (λ e. is_name_reason e ≡ true) }
        ensures parameter { result ≡ Err (Refused ParameterInAClause) →
            self.now.site ≡ Site.Clause }
        ensures variable { result ≡ Err (Refused VariableInAnEnvironment) →
            self.now.site ≡ Site.Environment }
        ensures free { self.now.site ≡ Site.Environment → IfOk result IsNoVariable }
        ensures unknown { result ≡ Err (Refused UnknownName) →
            IsUnknown self.now.names.now self.now.line.now (bound_names bounds.now) node }
        ensures twice { result ≢ Err (Refused NameDeclaredTwice) }
        ensures rigid { result ≢ Err (Refused AliasIsRigid) }
    {
        let name = text(self.line, node.token);
        match node.token.kind {
            TokenKind::Static => Ok(Resolved::Static),
            TokenKind::RegionVariable => {
                allows_variable(self.site)?;
                Ok(Resolved::RegionVariable(scope.variables.region_number(self.alloc, name)?))
            }
            TokenKind::RegionParam => self.region_name(bounds, scope, node),
            TokenKind::Name => self.no_region(bounds, node),
            _ => refused(Refusal::WrongArguments),
        }
    }

    /// A node of a predicate, in the place of an argument of this sort or in front of all arguments.
    fn node(
        &self,
        bounds: &mut Bounds,
        scope: &mut Scope,
        wanted: Option<Sort>,
        node: Node,
    ) -> Result<Resolved, TextError>
        requires { IsInside self.now.line.now node.token }
        ensures sort { IfOk result (λ r. sort_of r ≡ wanted) }
        ensures role { IfOk result (λ r. node.role ≡ role_of r) }
        ensures declared { IfOk result (IsDeclared self.now.names.now) }
        ensures means { IfOk result (IsMeaningOf self.now.names.now scope.new self.now.line.now
            (bound_names bounds.old) node) }
        ensures bounds { OnOk result (bound_names bounds.new ≡
            bound_behind self.now.line.now (bound_names bounds.old) node) }
        ensures kept { KeepsNames scope.old scope.new }
        ensures reasons { IfErr result (λ e. is_name_reason e ≡ true) }
        ensures parameter { result ≡ Err (Refused ParameterInAClause) →
            self.now.site ≡ Site.Clause }
        ensures variable { result ≡ Err (Refused VariableInAnEnvironment) →
            self.now.site ≡ Site.Environment }
        ensures free { self.now.site ≡ Site.Environment → IfOk result IsNoVariable }
        ensures unknown { result ≡ Err (Refused UnknownName) →
            IsUnknown self.now.names.now self.now.line.now (bound_names bounds.old) node }
        ensures twice { result ≡ Err (Refused NameDeclaredTwice) →
            IsBoundTwice self.now.names.now self.now.line.now (bound_names bounds.old) node }
        ensures rigid { result ≡ Err (Refused AliasIsRigid) →
            IsRigidAlias self.now.names.now self.now.line.now node }
    {
        match (node.role, wanted) {
            (Role::Bound, None) => self.bound(bounds, node),
            (Role::Trait, None) => self.trait_node(bounds, node),
            (Role::Normalizes, None) => self.alias_node(bounds, node),
            (Role::TypeOutlives, None) => {
                bounds.begin_predicate(self.alloc);
                Ok(Resolved::TypeOutlives)
            }
            (Role::RegionOutlives, None) => {
                bounds.begin_predicate(self.alloc);
                Ok(Resolved::RegionOutlives)
            }
            (Role::Argument, Some(Sort::Ty)) => self.type_node(bounds, scope, node),
            (Role::Argument, Some(Sort::Region)) => self.region_node(bounds, scope, node),
            // No text is a const, and no line has nodes in other places.
            _ => refused(Refusal::WrongArguments),
        }
    }
}

/// Keeps a node, and wants its arguments.
fn keep(
    wanted: &mut Vec<Sort>,
    all: &mut Vec<Resolved>,
    names: &NameTable,
    node: Resolved,
) -> Result<(), AllocError>
    requires { IsDeclared names.now node }
    ensures wants { OnOk result (wanted.new.items ≡ wanted.old.items ++ reverse
        (argument_sorts names.now node)) }
    ensures keeps { OnOk result (all.new.items ≡ all.old.items ++ node ∷ []) }
{
    want_arguments(wanted, names, node)?;
    all.push(node)?;
    Ok(())
}

impl Reading<'_> {
    /// Adds what these nodes mean to an empty list.
    fn all_nodes(
        &self,
        nodes: &[Node],
        scope: &mut Scope,
        bounds: &mut Bounds,
        wanted: &mut Vec<Sort>,
        all: &mut Vec<Resolved>,
    ) -> Result<(), TextError>
        requires inside { All (λ n. IsInside self.now.line.now n.token) nodes.now }
        requires nothing { bound_names bounds.old ≡ nothing_bound }
        requires unwanted { wanted.old.items ≡ [] }
        requires empty { all.old.items ≡ [] }
        ensures each { OnOk result (length all.new.items ≡ length nodes.now) }
        ensures sorted { OnOk result (AreSorted self.now.names.now [] all.new.items) }
        ensures declared { OnOk result (All (IsDeclared self.now.names.now) all.new.items) }
        ensures means { OnOk result (AreMeanings self.now.names.now scope.new self.now.line.now
            nothing_bound nodes.now all.new.items) }
        ensures kept { KeepsNames scope.old scope.new }
        ensures reasons { IfErr result (λ e. is_name_reason e ≡ true) }
        ensures parameter { result ≡ Err (Refused ParameterInAClause) →
            self.now.site ≡ Site.Clause }
        ensures variable { result ≡ Err (Refused VariableInAnEnvironment) →
            self.now.site ≡ Site.Environment }
        ensures free { self.now.site ≡ Site.Environment → OnOk result
            (All IsNoVariable all.new.items) }
        ensures unknown { result ≡ Err (Refused UnknownName) →
            HasFreeName self.now.names.now self.now.line.now nodes.now }
        ensures twice { result ≡ Err (Refused NameDeclaredTwice) →
            HasBoundTwice self.now.names.now self.now.line.now nodes.now }
        ensures rigid { result ≡ Err (Refused AliasIsRigid) →
            HasRigidAlias self.now.names.now self.now.line.now nodes.now }
    {
        for node in nodes {
            let resolved = self.node(bounds, scope, wanted.pop(), *node)?;
            keep(wanted, all, self.names, resolved)?;
        }
        if wanted.is_empty() {
            Ok(())
        } else {
            refused(Refusal::WrongArguments)
        }
    }
}

/// Replaces the names of predicates by numbers. The first node from the left that is at fault
/// decides why they are refused. Nodes that end before each has its arguments are refused too;
/// no line has such nodes.
pub fn resolve_nodes(
    alloc: Global,
    line: &[u8],
    nodes: &[Node],
    site: Site,
    names: &NameTable,
    scope: &mut Scope,
) -> Result<Vec<Resolved>, TextError>
    requires { All (λ n. IsInside line.now n.token) nodes.now }
    ensures each { IfOk result (λ rs. length rs.items ≡ length nodes.now) }
    ensures sorted { IfOk result (λ rs. AreSorted names.now [] rs.items) }
    ensures declared { IfOk result (λ rs. All (IsDeclared names.now) rs.items) }
    ensures means { IfOk result (λ rs. AreMeanings names.now scope.new line.now nothing_bound
        nodes.now rs.items) }
    ensures kept { KeepsNames scope.old scope.new }
    ensures reasons { IfErr result (λ e. is_name_reason e ≡ true) }
    ensures parameter { result ≡ Err (Refused ParameterInAClause) → site ≡ Site.Clause }
    ensures variable { result ≡ Err (Refused VariableInAnEnvironment) → site ≡ Site.Environment }
    ensures free { site ≡ Site.Environment → IfOk result (λ rs. All IsNoVariable rs.items) }
    ensures unknown { result ≡ Err (Refused UnknownName) →
        HasFreeName names.now line.now nodes.now }
    ensures twice { result ≡ Err (Refused NameDeclaredTwice) →
        HasBoundTwice names.now line.now nodes.now }
    ensures rigid { result ≡ Err (Refused AliasIsRigid) →
        HasRigidAlias names.now line.now nodes.now }
{
    let reading = Reading {
        alloc,
        line,
        site,
        names,
    };
    let mut bounds = Bounds::new(alloc);
    let mut wanted = Vec::new(alloc);
    let mut all = Vec::new(alloc);
    let done = reading.all_nodes(nodes, scope, &mut bounds, &mut wanted, &mut all);
    done.and(Ok(all))
}
