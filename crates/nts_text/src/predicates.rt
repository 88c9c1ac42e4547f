//! Predicates, as the grammar reads them.

ghost use Rattle.std.specs.Prelude.{◌≡◌, ◌<◌, ◌≤◌, ◌+◌, ◌^◌, true, not, ◌==◌, ◌&&◌, ◌++◌, if◌then◌else◌, is_some, is_none, length, map, filter, reverse, All, Contains, IfOk, IfSome, OnOk};
ghost use Rattle.nts_text.specs.Predicates.{is_name, is_equals, is_word, ends_item, is_complete, may_have_colon, may_have_equals, needs_equals, is_right, is_value, may_sign, may_follow, may_follow_bound, may_stand, binding_before, binding_behind, first_side, side_behind, is_many, before_first_of, are_predicates, kind_before, sign_before, taken_sign, trees_before, outlives_role, behind_sign, written_nodes, is_forest};

use crate::kinds::{is_bound, is_marked, is_region, is_sign, is_type, is_word};
use crate::lexer::{Token, TokenKind};
use std::alloc::{AllocError, Global};

/// What a node is in its predicate.
#[derive(Clone, Copy, PartialEq, Eq)]
pub enum Role {
    /// A name that the binder in front of the predicate binds.
    Bound,
    /// The trait.
    Trait,
    /// The colon between a type and a region that it outlives.
    TypeOutlives,
    /// The colon between a region and one that it outlives.
    RegionOutlives,
    /// The alias on the left of an `=`. Its last argument is what stands behind that.
    Normalizes,
    /// An argument of the trait, or of another argument, or what stands on one side of a colon or behind an `=`.
    Argument,
}

/// A name, a variable, a parameter or a region, and how many arguments it is given; or a colon, whose
/// arguments are the type or region and the region that stand on its sides.
///
/// Predicates, types and arguments are lists of nodes in the order of the text, but for the colon:
/// each node stands before its arguments, and the names that a binder binds before the trait, the colon
/// or the alias.
#[derive(Clone, Copy, PartialEq, Eq)]
pub struct Node {
    pub token: Token,
    pub arguments: usize,
    pub role: Role,
}

/// Which predicates are to come.
#[derive(Clone, Copy, PartialEq, Eq)]
pub enum Wanted {
    /// One of a trait, without a binder.
    Base,
    /// An alias and its value, without a binder.
    Norm,
    /// One.
    One,
    /// Many, parted by commas.
    Many,
    /// Many that may be assumed: those, and aliases with their values.
    Assumed,
}

/// What a predicate may yet be where its tokens so far are read, or on which side of its sign they stand.
#[derive(Clone, Copy, PartialEq, Eq)]
pub enum Side {
    /// One of a trait.
    Trait,
    /// One of a trait, or on the left of a colon.
    Left,
    /// One of a trait, or on the left of a colon or of an `=`.
    Any,
    /// On the left of an `=`.
    Alias,
    /// Behind a colon.
    Region,
    /// Behind an `=`.
    Type,
}

/// Whether this may stand behind a complete argument or predicate.
fn ends_item(many: bool, depth: usize, kind: TokenKind) -> bool
    ensures { result ≡ ends_item many depth kind }
{
    match kind {
        TokenKind::Comma => many || depth > 0,
        TokenKind::Close => depth > 0,
        _ => false,
    }
}

fn may_have_colon(side: Side) -> bool
    ensures { result ≡ may_have_colon side }
{
    matches!(side, Side::Left | Side::Any)
}

fn may_have_equals(side: Side) -> bool
    ensures { result ≡ may_have_equals side }
{
    matches!(side, Side::Alias | Side::Any)
}

fn needs_equals(side: Side) -> bool
    ensures { result ≡ needs_equals side }
{
    side == Side::Alias
}

fn is_right(side: Side) -> bool
    ensures { result ≡ is_right side }
{
    matches!(side, Side::Region | Side::Type)
}

fn is_value(side: Side) -> bool
    ensures { result ≡ is_value side }
{
    side == Side::Type
}

/// Whether an argument or a predicate may be complete with this token.
fn is_complete(side: Side, depth: usize, kind: TokenKind) -> bool
    ensures { result ≡ is_complete side depth kind }
{
    match kind {
        TokenKind::Close => depth > 0 || !needs_equals(side),
        TokenKind::Name => depth > 0 || is_value(side),
        _ => is_marked(kind) && (depth > 0 || is_right(side)),
    }
}

/// Whether a colon or an `=` may stand behind a token.
fn may_sign(kind: TokenKind, side: Side, depth: usize, before: TokenKind) -> bool
    ensures { result ≡ may_sign kind side depth before }
{
    match kind {
        TokenKind::Colon => {
            may_have_colon(side) && depth == 0 && (is_word(before) || before == TokenKind::Close)
        }
        TokenKind::Equals => {
            may_have_equals(side)
                && depth == 0
                && (before == TokenKind::Name || before == TokenKind::Close)
        }
        _ => false,
    }
}

/// Whether a token may stand behind another one, where so many brackets are open between them, on
/// this side of the predicate's sign.
fn may_follow(many: bool, side: Side, depth: usize, before: TokenKind, kind: TokenKind) -> bool
    ensures { result ≡ may_follow many side depth before kind }
{
    match before {
        TokenKind::Open => is_word(kind),
        TokenKind::Comma => match kind {
            TokenKind::For => depth == 0,
            _ => is_word(kind),
        },
        TokenKind::Greater => kind == TokenKind::Name || may_have_colon(side) && is_marked(kind),
        TokenKind::Colon => is_region(kind),
        TokenKind::Equals => is_type(kind),
        _ => match kind {
            TokenKind::Open => before == TokenKind::Name,
            TokenKind::Colon | TokenKind::Equals => may_sign(kind, side, depth, before),
            _ => is_complete(side, depth, before) && ends_item(many, depth, kind),
        },
    }
}

/// Whether a token may stand behind another one in the list of a binder.
fn may_follow_bound(before: TokenKind, kind: TokenKind) -> bool
    ensures { result ≡ may_follow_bound before kind }
{
    match before {
        TokenKind::For | TokenKind::Comma => is_bound(kind),
        _ => matches!(kind, TokenKind::Comma | TokenKind::Greater),
    }
}

/// Whether a token may stand behind another one, in the list of a binder or outside.
fn may_stand(
    many: bool,
    binding: bool,
    side: Side,
    depth: usize,
    before: TokenKind,
    kind: TokenKind,
) -> bool
    ensures { result ≡ may_stand many binding side depth before kind }
{
    if binding {
        may_follow_bound(before, kind)
    } else {
        may_follow(many, side, depth, before, kind)
    }
}

/// On which side a predicate begins.
fn first_side(wanted: Wanted) -> Side
    ensures { result ≡ first_side wanted }
{
    match wanted {
        Wanted::Base => Side::Trait,
        Wanted::Norm => Side::Alias,
        Wanted::One | Wanted::Many => Side::Left,
        Wanted::Assumed => Side::Any,
    }
}

/// On which side a predicate is behind this.
fn side_behind(wanted: Wanted, side: Side, depth: usize, kind: TokenKind) -> Side
    ensures { result ≡ side_behind wanted side depth kind }
{
    match kind {
        TokenKind::Colon => Side::Region,
        TokenKind::Equals => Side::Type,
        TokenKind::Comma => { if depth == 0 { first_side(wanted) } else { side } }
        _ => side,
    }
}

/// Whether the list of a binder is open behind this.
fn binding_behind(binding: bool, kind: TokenKind) -> bool
    ensures { result ≡ binding_behind binding kind }
{
    match kind {
        TokenKind::For => true,
        TokenKind::Greater => false,
        _ => binding,
    }
}

/// Whether the list of a binder is open before this, if this is so behind it.
fn binding_before(kind: TokenKind, behind: bool) -> bool
    ensures { result ≡ binding_before kind behind }
{
    match kind {
        TokenKind::Greater => true,
        TokenKind::For => false,
        _ => behind,
    }
}

fn is_many(wanted: Wanted) -> bool
    ensures { result ≡ is_many wanted }
{
    matches!(wanted, Wanted::Many | Wanted::Assumed)
}

/// Behind what the first predicate stands, as it were: a predicate is to come behind a comma, and one
/// without a binder behind the end of a binder.
fn before_first_of(wanted: Wanted) -> TokenKind
    ensures { result ≡ before_first_of wanted }
{
    match wanted {
        Wanted::Base | Wanted::Norm => TokenKind::Greater,
        Wanted::One | Wanted::Many | Wanted::Assumed => TokenKind::Comma,
    }
}

/// Whether these tokens are such predicates.
fn are_predicates(tokens: &[Token], wanted: Wanted) -> bool
    ensures { result ≡ are_predicates wanted tokens.now }
{
    let many = is_many(wanted);
    let mut before = before_first_of(wanted);
    let mut binding = false;
    let mut side = first_side(wanted);
    let mut depth: usize = 0;
    for token in tokens {
        if !may_stand(many, binding, side, depth, before, token.kind) {
            return false;
        }
        binding = binding_behind(binding, token.kind);
        side = side_behind(wanted, side, depth, token.kind);
        match token.kind {
            TokenKind::Open => depth += 1,
            TokenKind::Close => depth -= 1,
            _ => {}
        }
        before = token.kind;
    }
    is_complete(side, depth, before) && depth == 0
}

/// What stands in front of the token at this place; in front of the first one a comma, as it were.
fn kind_before(tokens: &[Token], at: usize) -> TokenKind
    requires { at ≤ length tokens.now }
    ensures { result ≡ kind_before tokens.now at }
{
    if at == 0 {
        TokenKind::Comma
    } else {
        tokens[at - 1].kind
    }
}

/// What a word is behind such a token, where the list of a binder is open behind it or not, so many
/// brackets are, and a sign stands behind it or not.
fn role_of(
    before: TokenKind,
    kind: TokenKind,
    binding: bool,
    depth: usize,
    sign: Option<Token>,
) -> Role
    ensures { result ≡ (if binding then Role.Bound else
        (if is_name kind && not (is_equals before) && (depth == 0) && is_none sign then Role.Trait
        else Role.Argument)) }
{
    if binding {
        Role::Bound
    } else if kind == TokenKind::Name
        && before != TokenKind::Equals
        && depth == 0
        && sign.is_none()
    {
        Role::Trait
    } else {
        Role::Argument
    }
}

/// The next sign before a token, where this is the next one behind it, and so many brackets are
/// open and so many trees begin at its level.
fn sign_before(token: Token, depth: usize, trees: usize, behind: Option<Token>) -> Option<Token>
    ensures { result ≡ sign_before token depth trees behind }
{
    if is_sign(token.kind) {
        if trees == 0 { None } else { Some(token) }
    } else if is_word(token.kind) && depth == 0 {
        None
    } else {
        behind
    }
}

/// The sign that a word takes: inside of brackets none.
fn taken_sign(depth: usize, behind: Option<Token>) -> Option<Token>
    ensures { result ≡ taken_sign depth behind }
{
    if depth == 0 { behind } else { None }
}

/// What a colon says, by the word that stands on its left with its arguments.
fn outlives_role(kind: TokenKind) -> Role
    ensures { result ≡ outlives_role kind }
{
    if is_region(kind) {
        Role::RegionOutlives
    } else {
        Role::TypeOutlives
    }
}

/// How many trees begin at one level of brackets before a token that is no bracket.
fn trees_before(kind: TokenKind, behind: usize) -> usize
    requires { behind + 1 < 2 ^ 64 }
    ensures { result ≡ trees_before kind behind }
{
    if is_word(kind) {
        behind + 1
    } else if is_sign(kind) {
        behind.saturating_sub(1)
    } else {
        behind
    }
}

/// Adds a node, and then that of the colon that it stands on the left of. An alias on the left of an
/// `=` takes what stands behind that as its last argument.
fn push_word(nodes: &mut Vec<Node>, node: Node, sign: Option<Token>) -> Result<(), AllocError>
    requires { node.arguments + 1 < 2 ^ 64 }
    ensures { OnOk result (nodes.new.items ≡ nodes.old.items ++
        reverse (behind_sign node sign)) }
{
    let Some(token) = sign else {
        nodes.push(node)?;
        return Ok(());
    };
    if token.kind == TokenKind::Equals {
        nodes.push(Node {
            token: node.token,
            arguments: node.arguments + 1,
            role: Role::Normalizes,
        })?;
        return Ok(());
    }
    nodes.push(node)?;
    nodes.push(Node {
        token,
        arguments: 2,
        role: outlives_role(node.token.kind),
    })?;
    Ok(())
}

/// The nodes of predicates, in the order of the text. They are found from the last to the first,
/// so that a name's arguments are counted when it is reached, and the sign is known that it stands
/// on the left of.
fn nodes_of(alloc: Global, tokens: &[Token]) -> Result<Vec<Node>, AllocError>
    ensures nodes { IfOk result (λ ns. ns.items ≡ written_nodes tokens.now) }
    ensures words { IfOk result (λ ns. filter (λ t. is_word t.kind)
        (map (λ n. n.token) ns.items) ≡ filter (λ t. is_word t.kind) tokens.now) }
    ensures tokens { IfOk result (λ ns. All (λ n. Contains tokens.now n.token) ns.items) }
    ensures forest { IfOk result (λ ns. is_forest 0 ns.items ≡ true) }
{
    let mut nodes = Vec::new(alloc);
    let mut outer = Vec::new(alloc);
    let mut count: usize = 0;
    let mut arguments: usize = 0;
    let mut binding = false;
    let mut sign = None;
    let mut at = tokens.len();
    while at > 0 {
        at -= 1;
        let token = tokens[at];
        let depth = outer.len();
        let before = kind_before(tokens, at);
        let role = role_of(before, token.kind, binding, depth, sign);
        let taken = taken_sign(depth, sign);
        binding = binding_before(token.kind, binding);
        sign = sign_before(token, depth, count, sign);
        match token.kind {
            TokenKind::Close => {
                outer.push(count)?;
                count = 0;
                arguments = 0;
            }
            TokenKind::Open => {
                arguments = count;
                count = outer.pop().unwrap_or(0);
            }
            kind => {
                count = trees_before(kind, count);
                if is_word(kind) {
                    let node = Node {
                        token,
                        arguments,
                        role,
                    };
                    push_word(&mut nodes, node, taken)?;
                }
                arguments = 0;
            }
        }
    }
    nodes.reverse();
    Ok(nodes)
}

/// The nodes of predicates, or `None` if these tokens are not such predicates.
pub fn predicates_of(
    alloc: Global,
    tokens: &[Token],
    wanted: Wanted,
) -> Result<Option<Vec<Node>>, AllocError>
    ensures written { IfOk result (λ o. is_some o ≡ are_predicates wanted tokens.now) }
    ensures nodes { IfOk result (λ o. IfSome o (λ ns. ns.items ≡ written_nodes tokens.now)) }
    ensures words { IfOk result (λ o. IfSome o (λ ns. filter (λ t. is_word t.kind)
        (map (λ n. n.token) ns.items) ≡ filter (λ t. is_word t.kind) tokens.now)) }
    ensures tokens { IfOk result (λ o. IfSome o (λ ns.
        All (λ n. Contains tokens.now n.token) ns.items)) }
    ensures forest { IfOk result (λ o. IfSome o (λ ns. is_forest 0 ns.items ≡ true)) }
{
    if !are_predicates(tokens, wanted) {
        return Ok(None);
    }
    Ok(Some(nodes_of(alloc, tokens)?))
}
