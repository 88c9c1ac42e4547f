//! The tokens of a line.

ghost use Rattle.std.specs.Prelude.{◌≡◌, ◌≢◌, ◌<◌, ◌≤◌, ◌↔◌, true, All, length, is_some, IfSome, IfOk, IfErr, IsTrue, slice_index};
ghost use Rattle.std.specs.Char.{is_ascii_alphabetic, is_ascii_digit};
ghost use Rattle.nts_text.specs.Bytes.{is_blank, is_name_byte, IsRun, IsNameAt};
ghost use Rattle.nts_text.specs.Tokens.{IsInside, IsTokenAt, token_begins, AreTokensFrom, HasStrayByte};
ghost use Rattle.nts_text.specs.declared.refusals.TextError.TheVariants.{Memory, Refused};
ghost use Rattle.nts_text.specs.declared.refusals.Refusal.TheVariants.{Syntax};

use crate::refusals::{Refusal, TextError};
use std::alloc::Global;

/// What a token is. A name with its marks is one token.
#[derive(Clone, Copy, PartialEq, Eq)]
pub enum TokenKind {
    /// `x`
    Name,
    /// `12`
    Number,
    /// `?x`
    TypeVariable,
    /// `!A`
    TypeParam,
    /// `'?r`
    RegionVariable,
    /// `'a`
    RegionParam,
    /// `'static`
    Static,
    Open,
    Close,
    Comma,
    Minus,
    Equals,
    Colon,
    Greater,
    /// `<-`
    Arrow,
    /// `for<`
    For,
}

/// A token of a line: its bytes are those from `start` to `end`.
#[derive(Clone, Copy, PartialEq, Eq)]
pub struct Token {
    pub kind: TokenKind,
    pub start: usize,
    pub end: usize,
}

fn is_name_byte(byte: u8) -> bool
    ensures { result ≡ is_name_byte byte }
{
    byte.is_ascii_alphanumeric() || byte == b'_'
}

fn is_blank(byte: u8) -> bool
    ensures { result ≡ is_blank byte }
{
    byte == b' ' || byte == b'\t'
}

/// The first place from `start` on whose byte is no blank, or the end of the line.
pub fn skip_blanks(line: &[u8], start: usize) -> usize
    requires { start ≤ length line.now }
    ensures { IsRun is_blank line.now start result }
{
    let mut at = start;
    while at < line.len() && is_blank(line[at]) {
        at += 1;
    }
    at
}

fn name_end(line: &[u8], start: usize) -> usize
    requires { start ≤ length line.now }
    ensures { IsRun is_name_byte line.now start result }
{
    let mut at = start;
    while at < line.len() && is_name_byte(line[at]) {
        at += 1;
    }
    at
}

fn digits_end(line: &[u8], start: usize) -> usize
    requires { start ≤ length line.now }
    ensures { IsRun is_ascii_digit line.now start result }
{
    let mut at = start;
    while at < line.len() && line[at].is_ascii_digit() {
        at += 1;
    }
    at
}

/// Whether the byte at this place is `byte`.
fn has_byte(line: &[u8], at: usize, byte: u8) -> bool
    ensures { IsTrue result ↔ ((at < length line.now) × (slice_index line.now at ≡ byte)) }
{
    at < line.len() && line[at] == byte
}

/// A name behind the marks that stand from `start` to `name`.
fn marked(line: &[u8], start: usize, name: usize, kind: TokenKind) -> Option<Token>
    requires { name ≤ length line.now }
    ensures found { is_some result ≡ is_ascii_alphabetic (slice_index line.now name) }
    ensures token { IfSome result (λ t. (t.kind ≡ kind) × (t.start ≡ start)) }
    ensures name { IfSome result (λ t. IsNameAt line.now name t.end) }
{
    if name < line.len() && line[name].is_ascii_alphabetic() {
        Some(Token {
            kind,
            start,
            end: name_end(line, name),
        })
    } else {
        None
    }
}

/// A name, or `for<`.
fn name_or_for(line: &[u8], start: usize) -> Token
    requires inside { start < length line.now }
    requires letter { is_ascii_alphabetic (slice_index line.now start) ≡ true }
    ensures { IsTokenAt line.now start result }
{
    let end = name_end(line, start);
    if &line[start..end] == b"for".as_slice() && has_byte(line, end, b'<') {
        Token {
            kind: TokenKind::For,
            start,
            end: end + 1,
        }
    } else {
        Token {
            kind: TokenKind::Name,
            start,
            end,
        }
    }
}

/// A region that begins here: `'a`, `'?r` or `'static`.
fn region(line: &[u8], start: usize) -> Option<Token>
    requires inside { start < length line.now }
    requires quote { slice_index line.now start ≡ 39 }
    ensures found { is_some result ≡ token_begins line.now start }
    ensures token { IfSome result (IsTokenAt line.now start) }
{
    if has_byte(line, start + 1, b'?') {
        return marked(line, start, start + 2, TokenKind::RegionVariable);
    }
    let token = marked(line, start, start + 1, TokenKind::RegionParam)?;
    if &line[start + 1..token.end] == b"static".as_slice() {
        return Some(Token {
            kind: TokenKind::Static,
            start,
            end: token.end,
        });
    }
    Some(token)
}

/// The longest token that begins at `start`, if one does.
pub fn token_at(line: &[u8], start: usize) -> Option<Token>
    requires { start < length line.now }
    ensures found { is_some result ≡ token_begins line.now start }
    ensures token { IfSome result (IsTokenAt line.now start) }
{
    let kind = match line[start] {
        b'a'..=b'z' | b'A'..=b'Z' => return Some(name_or_for(line, start)),
        b'0'..=b'9' => {
            return Some(Token {
                kind: TokenKind::Number,
                start,
                end: digits_end(line, start),
            });
        }
        b'?' => return marked(line, start, start + 1, TokenKind::TypeVariable),
        b'!' => return marked(line, start, start + 1, TokenKind::TypeParam),
        b'\'' => return region(line, start),
        b'<' => {
            if !has_byte(line, start + 1, b'-') {
                return None;
            }
            return Some(Token {
                kind: TokenKind::Arrow,
                start,
                end: start + 2,
            });
        }
        b'(' => TokenKind::Open,
        b')' => TokenKind::Close,
        b',' => TokenKind::Comma,
        b'-' => TokenKind::Minus,
        b'=' => TokenKind::Equals,
        b':' => TokenKind::Colon,
        b'>' => TokenKind::Greater,
        _ => return None,
    };
    Some(Token {
        kind,
        start,
        end: start + 1,
    })
}

/// The tokens of a line from `start` on. Bytes that belong to no token are a syntax error.
pub fn tokens_of(alloc: Global, line: &[u8], start: usize) -> Result<Vec<Token>, TextError>
    requires { start ≤ length line.now }
    ensures tokens { IfOk result (λ ts. AreTokensFrom line.now start ts.items) }
    ensures inside { IfOk result (λ ts. All (IsInside line.now) ts.items) }
    ensures refused { IfErr result (λ e. e ≢ Memory → (e ≡ Refused Syntax) ×
        HasStrayByte line.now start) }
{
    let mut tokens = Vec::new(alloc);
    let mut at = skip_blanks(line, start);
    while at < line.len() {
        let Some(token) = token_at(line, at) else {
            return Err(TextError::Refused(Refusal::Syntax));
        };
        tokens.push(token)?;
        at = skip_blanks(line, token.end);
    }
    Ok(tokens)
}
