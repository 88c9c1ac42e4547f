//! The grammar of a line.

ghost use Rattle.std.specs.Prelude.{◌≡◌, ◌≢◌, ◌<◌, ◌≤◌, ◌↔◌, true, false, [], ◌∷◌, length, All, Contains, IfOk, IfErr, OnErr, IfSome, IsSomeAnd, IsNone, IsErr, List, IsTrue, SomeIff, map, slice_get, take};
ghost use Rattle.nts_text.specs.Bytes.{decimal_value};
ghost use Rattle.nts_text.specs.Tokens.{IsInside};
ghost use Rattle.nts_text.specs.Predicates.{are_predicates};
ghost use Rattle.nts_text.specs.Reasons.{is_form_reason};
ghost use Rattle.nts_text.specs.Declarations.{AreParams, AreSortsIfAny, EndsIn, sign_of, unmarked, word_of_sort};
ghost use Rattle.nts_text.specs.Lines.{word_of_keyword, word_of_mode, bytes_of, IsPassedOver, BeginsWithKeyword, HasNoKeyword, NamesAreInside, IsClause, Says, TokensSayNothing, SaysTooMuch};
ghost use Rattle.nts_text.specs.declared.refusals.TextError.TheVariants.{Refused};
ghost use Rattle.nts_text.specs.declared.refusals.Refusal.TheVariants.{Syntax, NumberOutOfRange, UnknownCommand};
ghost use Rattle.nts_text.specs.declared.lexer.Token.{Token};
ghost use Rattle.nts_text.specs.declared.parser.Keyword.{Keyword};
ghost use Rattle.nts_text.specs.declared.parser.Mode.{Mode};
ghost use Rattle.nts_text.specs.declared.parser.Param.{Param};
ghost use Rattle.nts_text.specs.declared.predicates.Node.{Node};
ghost use Rattle.nts_model.specs.declared.labels.Sort.{Sort};

use crate::lexer::{Token, TokenKind, skip_blanks, token_at};
use crate::params::{params_of, sorts_of};
use crate::predicates::{Node, Wanted, predicates_of};
use crate::refusals::{Refusal, TextError};
use nts_model::{Sort, Variance};
use std::alloc::{AllocError, Global};

/// The first word of a line.
#[derive(Clone, Copy, PartialEq, Eq)]
pub enum Keyword {
    Mode,
    Depth,
    Type,
    Trait,
    Alias,
    Impl,
    Norm,
    Goal,
    Env,
}

/// The modes that a line can ask for.
#[derive(Clone, Copy, PartialEq, Eq)]
pub enum Mode {
    Coherence,
    Analysis,
    PostAnalysis,
}

/// A parameter of a declared type.
#[derive(Clone, Copy, PartialEq, Eq)]
pub struct Param {
    pub sort: Sort,
    pub variance: Variance,
}

/// A line as the grammar reads it. The names in it may mean nothing.
#[derive(Drop)]
pub enum Line {
    Mode(Mode),
    Depth(u16),
    Type {
        name: Token,
        params: Vec<Param>,
    },
    Trait {
        name: Token,
        sorts: Vec<Sort>,
        coinductive: bool,
    },
    Alias {
        name: Token,
        sorts: Vec<Sort>,
        is_rigid: bool,
    },
    Impl {
        head: Vec<Node>,
        body: Vec<Node>,
    },
    Norm {
        head: Vec<Node>,
        body: Vec<Node>,
    },
    Goal(Vec<Node>),
    Env(Vec<Node>),
}

/// The bytes of a token.
pub fn text<'a>(line: &'a [u8], token: Token) -> &'a [u8]
    requires { IsInside line.now token }
    ensures { result.now ≡ bytes_of line.now token }
{
    &line[token.start..token.end]
}

fn keyword_word(word: &[u8]) -> Option<Keyword>
    ensures found { IfSome result (λ k. word.now ≡ word_of_keyword k) }
    ensures none { IsNone result → (k : Keyword) → word.now ≢ word_of_keyword k }
{
    match word {
        b"mode" => Some(Keyword::Mode),
        b"depth" => Some(Keyword::Depth),
        b"type" => Some(Keyword::Type),
        b"trait" => Some(Keyword::Trait),
        b"alias" => Some(Keyword::Alias),
        b"impl" => Some(Keyword::Impl),
        b"norm" => Some(Keyword::Norm),
        b"goal" => Some(Keyword::Goal),
        b"env" => Some(Keyword::Env),
        _ => None,
    }
}

/// The command of a line and the place behind it, or `None` for a line to pass over: an empty
/// one, one of blanks alone, or one that begins with `#`.
pub fn keyword_of(line: &[u8]) -> Result<Option<(Keyword, usize)>, Refusal>
    ensures passed { IfOk result (λ o. IsNone o ↔ IsPassedOver line.now) }
    ensures inside { IfOk result (λ o. IfSome o (λ k. k.1 ≤ length line.now)) }
    ensures keyword { IfOk result (λ o. IfSome o (λ k. BeginsWithKeyword line.now k.0 k.1)) }
    ensures refused { IfErr result (λ e. (e ≡ UnknownCommand) × (IsPassedOver line.now → ⊥)) }
    ensures unknown { OnErr result (HasNoKeyword line.now) }
{
    if line.first() == Some(&b'#') {
        return Ok(None);
    }
    let start = skip_blanks(line, 0);
    if start == line.len() {
        return Ok(None);
    }
    let Some(token) = token_at(line, start) else {
        return Err(Refusal::UnknownCommand);
    };
    match keyword_word(text(line, token)) {
        Some(command) => Ok(Some((command, token.end))),
        None => Err(Refusal::UnknownCommand),
    }
}

/// The value of decimal digits, if it is at most 65,535. Leading zeros count for nothing.
pub fn number_of(digits: &[u8]) -> Option<u16>
    ensures { SomeIff result (decimal_value digits.now < 65536) (decimal_value digits.now) }
{
    let mut value: u32 = 0;
    for digit in digits {
        value = (value * 10 + u32::from(digit.saturating_sub(b'0'))).min(65536);
    }
    u16::try_from(value).ok()
}

fn mode_of(word: &[u8]) -> Option<Mode>
    ensures found { IfSome result (λ m. word.now ≡ word_of_mode m) }
    ensures none { IsNone result → (m : Mode) → word.now ≢ word_of_mode m }
{
    match word {
        b"coherence" => Some(Mode::Coherence),
        b"analysis" => Some(Mode::Analysis),
        _ if word == b"postanalysis".as_slice() => Some(Mode::PostAnalysis),
        _ => None,
    }
}

fn mode_line(line: &[u8], tokens: &[Token]) -> Option<Line>
    requires { All (IsInside line.now) tokens.now }
    ensures says { IfSome result (Says line.now tokens.now Keyword.Mode) }
    ensures inside { IfSome result (NamesAreInside line.now) }
    ensures none { IsNone result → TokensSayNothing line.now tokens.now Keyword.Mode }
{
    let [word] = tokens else {
        return None;
    };
    Some(Line::Mode(mode_of(text(line, *word))?))
}

fn depth_line(line: &[u8], tokens: &[Token]) -> Result<Line, Refusal>
    requires { All (IsInside line.now) tokens.now }
    ensures says { IfOk result (Says line.now tokens.now Keyword.Depth) }
    ensures inside { IfOk result (NamesAreInside line.now) }
    ensures refused { IfErr result (λ e. e ≢ Syntax → (e ≡ NumberOutOfRange) ×
        SaysTooMuch line.now tokens.now) }
    ensures syntax { IfErr result (λ e. e ≡ Syntax → (t : Token) → tokens.now ≡ t ∷ [] →
        t.kind ≢ TokenKind.Number) }
{
    match tokens {
        [number] if number.kind == TokenKind::Number => match number_of(text(line, *number)) {
            Some(depth) => Ok(Line::Depth(depth)),
            None => Err(Refusal::NumberOutOfRange),
        },
        _ => Err(Refusal::Syntax),
    }
}

fn type_line(alloc: Global, line: &[u8], tokens: &[Token]) -> Result<Option<Line>, AllocError>
    requires { All (IsInside line.now) tokens.now }
    ensures says { IfOk result (λ o. IfSome o (Says line.now tokens.now Keyword.Type)) }
    ensures inside { IfOk result (λ o. IfSome o (NamesAreInside line.now)) }
    ensures none { IfOk result (λ o. IsNone o → TokensSayNothing line.now tokens.now Keyword.Type) }
{
    let [name, rest @ ..] = tokens else {
        return Ok(None);
    };
    if name.kind != TokenKind::Name {
        return Ok(None);
    }
    if rest.is_empty() {
        return Ok(Some(Line::Type {
            name: *name,
            params: Vec::new(alloc),
        }));
    }
    match params_of(alloc, line, rest)? {
        Some(params) => Ok(Some(Line::Type {
            name: *name,
            params,
        })),
        None => Ok(None),
    }
}

/// What stands before a last word that is this one.
fn before_word<'a>(line: &[u8], tokens: &'a [Token], word: &[u8]) -> Option<&'a [Token]>
    requires { All (IsInside line.now) tokens.now }
    ensures found { IfSome result (λ list. EndsIn word.now line.now tokens.now list.now) }
    ensures none { IsNone result → (list : List Token) →
        EndsIn word.now line.now tokens.now list → ⊥ }
    ensures inside { IfSome result (λ list. All (IsInside line.now) list.now) }
{
    let (last, list) = tokens.split_last()?;
    if is_name(line, *last, word) {
        Some(list)
    } else {
        None
    }
}

fn is_name(line: &[u8], token: Token, word: &[u8]) -> bool
    requires { IsInside line.now token }
    ensures { IsTrue result ↔ (sign_of line.now token ≡ (TokenKind.Name, word.now)) }
{
    token.kind == TokenKind::Name && text(line, token) == word
}

fn trait_line(alloc: Global, line: &[u8], tokens: &[Token]) -> Result<Option<Line>, AllocError>
    requires { All (IsInside line.now) tokens.now }
    ensures says { IfOk result (λ o. IfSome o (Says line.now tokens.now Keyword.Trait)) }
    ensures inside { IfOk result (λ o. IfSome o (NamesAreInside line.now)) }
    ensures none { IfOk result (λ o. IsNone o →
        TokensSayNothing line.now tokens.now Keyword.Trait) }
{
    let [name, rest @ ..] = tokens else {
        return Ok(None);
    };
    if name.kind != TokenKind::Name {
        return Ok(None);
    }
    let (list, coinductive) = match before_word(line, rest, b"coinductive".as_slice()) {
        Some(list) => (list, true),
        None => (rest, false),
    };
    match sorts_of(alloc, line, list)? {
        Some(sorts) => Ok(Some(Line::Trait {
            name: *name,
            sorts,
            coinductive,
        })),
        None => Ok(None),
    }
}

/// The sorts that stand in brackets, none if there are no tokens, or `None` if these tokens are neither.
fn sorts_if_any(
    alloc: Global,
    line: &[u8],
    tokens: &[Token],
) -> Result<Option<Vec<Sort>>, AllocError>
    requires { All (IsInside line.now) tokens.now }
    ensures sorts { IfOk result (λ o. IfSome o (λ v. AreSortsIfAny line.now tokens.now v.items)) }
    ensures none { IfOk result (λ o. IsNone o → (ss : List Sort) →
        AreSortsIfAny line.now tokens.now ss → ⊥) }
{
    if tokens.is_empty() {
        return Ok(Some(Vec::new(alloc)));
    }
    sorts_of(alloc, line, tokens)
}

fn alias_line(alloc: Global, line: &[u8], tokens: &[Token]) -> Result<Option<Line>, AllocError>
    requires { All (IsInside line.now) tokens.now }
    ensures says { IfOk result (λ o. IfSome o (Says line.now tokens.now Keyword.Alias)) }
    ensures inside { IfOk result (λ o. IfSome o (NamesAreInside line.now)) }
    ensures none { IfOk result (λ o. IsNone o →
        TokensSayNothing line.now tokens.now Keyword.Alias) }
{
    let [name, rest @ ..] = tokens else {
        return Ok(None);
    };
    if name.kind != TokenKind::Name {
        return Ok(None);
    }
    let (list, is_rigid) = match before_word(line, rest, b"rigid".as_slice()) {
        Some(list) => (list, true),
        None => (rest, false),
    };
    match sorts_if_any(alloc, line, list)? {
        Some(sorts) => Ok(Some(Line::Alias {
            name: *name,
            sorts,
            is_rigid,
        })),
        None => Ok(None),
    }
}

/// The place of the first arrow.
fn arrow_of(tokens: &[Token]) -> Option<usize>
    ensures inside { IfSome result (λ at. at < length tokens.now) }
    ensures found { IfSome result (λ at. IfSome (slice_get tokens.now at) (λ t.
        t.kind ≡ TokenKind.Arrow)) }
    ensures first { IfSome result (λ at. All (λ t. t.kind ≢ TokenKind.Arrow) (take at tokens.now)) }
    ensures none { IsNone result → All (λ t. t.kind ≢ TokenKind.Arrow) tokens.now }
{
    tokens
        .iter()
        .position(|token| token.kind == TokenKind::Arrow)
}

/// The parts of a clause: a predicate that binds nothing, and the predicates behind `<-` if that is there.
#[derive(Drop)]
struct Parts {
    head: Vec<Node>,
    body: Vec<Node>,
}

/// The parts of a clause whose head is such a predicate, or `None` if these tokens are none.
fn clause_parts(
    alloc: Global,
    tokens: &[Token],
    wanted: Wanted,
) -> Result<Option<Parts>, AllocError>
    ensures clause { IfOk result (λ o. IfSome o (λ p. IsClause wanted tokens.now p.head.items
        p.body.items)) }
    ensures head { IfOk result (λ o. IfSome o (λ p. All (λ n. Contains tokens.now n.token)
        p.head.items)) }
    ensures body { IfOk result (λ o. IfSome o (λ p. All (λ n. Contains tokens.now n.token)
        p.body.items)) }
    ensures none { IfOk result (λ o. IsNone o → (head body : List Node) →
        IsClause wanted tokens.now head body → ⊥) }
{
    let Some(at) = arrow_of(tokens) else {
        return match predicates_of(alloc, tokens, wanted)? {
            Some(head) => Ok(Some(Parts {
                head,
                body: Vec::new(alloc),
            })),
            None => Ok(None),
        };
    };
    let Some(head) = predicates_of(alloc, &tokens[..at], wanted)? else {
        return Ok(None);
    };
    let Some(body) = predicates_of(alloc, &tokens[at + 1..], Wanted::Many)? else {
        return Ok(None);
    };
    Ok(Some(Parts { head, body }))
}

/// A clause whose head is a trait's.
fn impl_line(alloc: Global, line: &[u8], tokens: &[Token]) -> Result<Option<Line>, AllocError>
    requires { All (IsInside line.now) tokens.now }
    ensures says { IfOk result (λ o. IfSome o (Says line.now tokens.now Keyword.Impl)) }
    ensures inside { IfOk result (λ o. IfSome o (NamesAreInside line.now)) }
    ensures none { IfOk result (λ o. IsNone o → TokensSayNothing line.now tokens.now Keyword.Impl) }
{
    let _ = line;
    match clause_parts(alloc, tokens, Wanted::Base)? {
        Some(parts) => Ok(Some(Line::Impl {
            head: parts.head,
            body: parts.body,
        })),
        None => Ok(None),
    }
}

/// A clause whose head is an alias with its value.
fn norm_line(alloc: Global, line: &[u8], tokens: &[Token]) -> Result<Option<Line>, AllocError>
    requires { All (IsInside line.now) tokens.now }
    ensures says { IfOk result (λ o. IfSome o (Says line.now tokens.now Keyword.Norm)) }
    ensures inside { IfOk result (λ o. IfSome o (NamesAreInside line.now)) }
    ensures none { IfOk result (λ o. IsNone o → TokensSayNothing line.now tokens.now Keyword.Norm) }
{
    let _ = line;
    match clause_parts(alloc, tokens, Wanted::Norm)? {
        Some(parts) => Ok(Some(Line::Norm {
            head: parts.head,
            body: parts.body,
        })),
        None => Ok(None),
    }
}

/// A goal: one predicate.
fn goal_line(alloc: Global, line: &[u8], tokens: &[Token]) -> Result<Option<Line>, AllocError>
    requires { All (IsInside line.now) tokens.now }
    ensures says { IfOk result (λ o. IfSome o (Says line.now tokens.now Keyword.Goal)) }
    ensures inside { IfOk result (λ o. IfSome o (NamesAreInside line.now)) }
    ensures syntax { IfOk result (λ o. IsNone o → are_predicates Wanted.One tokens.now ≡ false) }
{
    match predicates_of(alloc, tokens, Wanted::One)? {
        Some(nodes) => Ok(Some(Line::Goal(nodes))),
        None => Ok(None),
    }
}

/// An environment: nothing, or predicates that may be assumed.
fn env_line(alloc: Global, line: &[u8], tokens: &[Token]) -> Result<Option<Line>, AllocError>
    requires { All (IsInside line.now) tokens.now }
    ensures says { IfOk result (λ o. IfSome o (Says line.now tokens.now Keyword.Env)) }
    ensures inside { IfOk result (λ o. IfSome o (NamesAreInside line.now)) }
    ensures none { IfOk result (λ o. IsNone o → TokensSayNothing line.now tokens.now Keyword.Env) }
{
    if tokens.is_empty() {
        return Ok(Some(Line::Env(Vec::new(alloc))));
    }
    match predicates_of(alloc, tokens, Wanted::Assumed)? {
        Some(nodes) => Ok(Some(Line::Env(nodes))),
        None => Ok(None),
    }
}

/// What the tokens behind a keyword say.
pub fn line_of(
    alloc: Global,
    keyword: Keyword,
    line: &[u8],
    tokens: &[Token],
) -> Result<Line, TextError>
    requires { All (IsInside line.now) tokens.now }
    ensures says { IfOk result (Says line.now tokens.now keyword) }
    ensures inside { IfOk result (NamesAreInside line.now) }
    ensures reasons { IfErr result (λ e. is_form_reason e ≡ true) }
    ensures syntax { result ≡ Err (Refused Syntax) → TokensSayNothing line.now tokens.now keyword }
    ensures range { result ≡ Err (Refused NumberOutOfRange) → (keyword ≡ Keyword.Depth) ×
        SaysTooMuch line.now tokens.now }
    ensures depth { keyword ≡ Keyword.Depth → IsErr result → (t : Token) → tokens.now ≡ t ∷ [] →
        t.kind ≡ TokenKind.Number → 65535 < decimal_value (bytes_of line.now t) }
    ensures goal { keyword ≡ Keyword.Goal → result ≡ Err (Refused Syntax) →
        are_predicates Wanted.One tokens.now ≡ false }
{
    let read = match keyword {
        Keyword::Mode => mode_line(line, tokens),
        Keyword::Depth => return depth_line(line, tokens).map_err(TextError::Refused),
        Keyword::Type => type_line(alloc, line, tokens)?,
        Keyword::Trait => trait_line(alloc, line, tokens)?,
        Keyword::Alias => alias_line(alloc, line, tokens)?,
        Keyword::Impl => impl_line(alloc, line, tokens)?,
        Keyword::Norm => norm_line(alloc, line, tokens)?,
        Keyword::Goal => goal_line(alloc, line, tokens)?,
        Keyword::Env => env_line(alloc, line, tokens)?,
    };
    read.ok_or(TextError::Refused(Refusal::Syntax))
}
