//! The parameters of a declaration, and their sorts.

ghost use Rattle.std.specs.Prelude.{◌≡◌, ◌≢◌, [], All, IfOk, IfSome, IsSomeAnd, IsNone, List, map};
ghost use Rattle.nts_text.specs.Tokens.{IsInside};
ghost use Rattle.nts_text.specs.Declarations.{AreParams, unmarked, word_of_sort};
ghost use Rattle.nts_text.specs.Lines.{bytes_of};
ghost use Rattle.nts_text.specs.declared.parser.Param.{Param};
ghost use Rattle.nts_model.specs.declared.labels.Sort.{Sort};

use crate::lexer::{Token, TokenKind};
use crate::parser::{Param, text};
use nts_model::{Sort, Variance};
use std::alloc::{AllocError, Global};

fn sort_of(word: &[u8]) -> Option<Sort>
    ensures found { IfSome result (λ s. word.now ≡ word_of_sort s) }
    ensures none { IsNone result → (s : Sort) → word.now ≡ word_of_sort s → word.now ≡ [] }
{
    match word {
        b"type" => Some(Sort::Ty),
        b"region" => Some(Sort::Region),
        _ => None,
    }
}

/// The parameter of this variance whose sort is this word.
fn param_of(line: &[u8], word: Token, variance: Variance) -> Option<Param>
    requires { IsInside line.now word }
    ensures sort { IfSome result (λ p. bytes_of line.now word ≡ word_of_sort p.sort) }
    ensures variance { IfSome result (λ p. p.variance ≡ variance) }
    ensures none { IsNone result → (s : Sort) → bytes_of line.now word ≢ word_of_sort s }
{
    Some(Param {
        sort: sort_of(text(line, word))?,
        variance,
    })
}

/// Where a list of parameters stands between two of its tokens.
#[derive(Clone, Copy, PartialEq, Eq)]
enum Place {
    /// The opening bracket is to come.
    Bracket,
    /// A parameter is to come.
    Param,
    /// The sort of a parameter is to come.
    Sort(Variance),
    /// Behind a parameter.
    Behind,
    /// Behind the closing bracket.
    End,
}

/// The parameters that stand in brackets, or `None` if these tokens are none.
pub(crate) fn params_of(
    alloc: Global,
    line: &[u8],
    tokens: &[Token],
) -> Result<Option<Vec<Param>>, AllocError>
    requires { All (IsInside line.now) tokens.now }
    ensures params { IfOk result (λ o. IfSome o (λ ps. AreParams line.now tokens.now ps.items)) }
    ensures only { IfOk result (λ o. (ps : List Param) → AreParams line.now tokens.now ps →
        IsSomeAnd o (λ qs. qs.items ≡ ps)) }
{
    let mut params = Vec::new(alloc);
    let mut place = Place::Bracket;
    for token in tokens {
        place = match (place, token.kind) {
            (Place::Bracket, TokenKind::Open) => Place::Param,
            (Place::Param, TokenKind::Minus) => Place::Sort(Variance::Contravariant),
            (Place::Param, TokenKind::Equals) => Place::Sort(Variance::Invariant),
            (Place::Param, TokenKind::Name) => {
                let Some(param) = param_of(line, *token, Variance::Covariant) else {
                    return Ok(None);
                };
                params.push(param)?;
                Place::Behind
            }
            (Place::Sort(variance), TokenKind::Name) => {
                let Some(param) = param_of(line, *token, variance) else {
                    return Ok(None);
                };
                params.push(param)?;
                Place::Behind
            }
            (Place::Behind, TokenKind::Comma) => Place::Param,
            (Place::Behind, TokenKind::Close) => Place::End,
            _ => return Ok(None),
        };
    }
    if place == Place::End {
        Ok(Some(params))
    } else {
        Ok(None)
    }
}

/// The sorts that stand in brackets, or `None` if these tokens are none.
pub(crate) fn sorts_of(
    alloc: Global,
    line: &[u8],
    tokens: &[Token],
) -> Result<Option<Vec<Sort>>, AllocError>
    requires { All (IsInside line.now) tokens.now }
    ensures sorts { IfOk result (λ o. IfSome o (λ v. AreParams line.now tokens.now
        (map unmarked v.items))) }
    ensures none { IfOk result (λ o. IsNone o → (ss : List Sort) →
        AreParams line.now tokens.now (map unmarked ss) → ⊥) }
{
    let Some(params) = params_of(alloc, line, tokens)? else {
        return Ok(None);
    };
    let mut sorts = Vec::new(alloc);
    for param in &params {
        // A parameter with a mark is not covariant, and a sort has no mark.
        if param.variance != Variance::Covariant {
            return Ok(None);
        }
        sorts.push(param.sort)?;
    }
    Ok(Some(sorts))
}
