//! What a token may be in a predicate.
ghost use Rattle.std.specs.Prelude.{◌≡◌};
ghost use Rattle.nts_text.specs.Predicates.{is_bound_token, is_marked, is_region, is_sign, is_type, is_word};

use crate::lexer::TokenKind;

/// A variable, a parameter or `'static`.
pub fn is_marked(kind: TokenKind) -> bool
    ensures { result ≡ is_marked kind }
{
    matches!(
        kind,
        TokenKind::TypeVariable
            | TokenKind::TypeParam
            | TokenKind::RegionVariable
            | TokenKind::RegionParam
            | TokenKind::Static
    )
}

/// What may be an argument: a name, or what has a mark.
pub fn is_word(kind: TokenKind) -> bool
    ensures { result ≡ is_word kind }
{
    kind == TokenKind::Name || is_marked(kind)
}

/// A region.
pub fn is_region(kind: TokenKind) -> bool
    ensures { result ≡ is_region kind }
{
    matches!(
        kind,
        TokenKind::RegionVariable | TokenKind::RegionParam | TokenKind::Static
    )
}

/// A type begins with it.
pub fn is_type(kind: TokenKind) -> bool
    ensures { result ≡ is_type kind }
{
    is_word(kind) && !is_region(kind)
}

/// A colon or an `=`.
pub fn is_sign(kind: TokenKind) -> bool
    ensures { result ≡ is_sign kind }
{
    matches!(kind, TokenKind::Colon | TokenKind::Equals)
}

/// What may stand where a binder lists what it binds.
pub fn is_bound(kind: TokenKind) -> bool
    ensures { result ≡ is_bound_token kind }
{
    matches!(
        kind,
        TokenKind::Name | TokenKind::RegionParam | TokenKind::Static
    )
}
