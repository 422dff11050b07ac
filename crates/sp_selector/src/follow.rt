ghost use Rattle.std.specs.Prelude.{◌≡◌, ◌++◌, ◌∷◌, [], ℕ, OnOk};
ghost use Rattle.std.specs.Option.{ok_or, option_map};
ghost use Rattle.std.specs.Str.{chars};
ghost use Rattle.sp_selector.specs.Grammar.{is_comparison, joins};
ghost use Rattle.sp_selector.specs.Parser.{Gives, after_and, after_close, after_null, after_open, escape_of, joint, only_char, texts_of};

use crate::parse::{Chain, ParseError};
use crate::token::{Mark, Token};
use crate::tree::Operator;
use sp_base::items::Items;
use sp_base::text::Str;
use sp_pattern::like::first_char;
use std::alloc::{AllocError, Global};

/// The operator of a chain with which tokens begin, and what follows it.
pub(crate) fn joint(chain: Chain, tokens: &[Token]) -> Option<(Operator, &[Token])>
    ensures { option_map (λ x. (x.0, x.1.now)) result ≡ joint chain tokens.now }
{
    match tokens.split_first() {
        Some((Token::Infix(operator), more)) => {
            if !joins(chain, *operator) {
                return None;
            }
            Some((*operator, more))
        }
        _ => None,
    }
}

pub(crate) fn joins(chain: Chain, operator: Operator) -> bool
    ensures { result ≡ joins chain operator }
{
    match (chain, operator) {
        (Chain::Disjunction, Operator::Or) => true,
        (Chain::Conjunction, Operator::And) => true,
        (Chain::Sum, Operator::Add | Operator::Subtract) => true,
        (Chain::Product, Operator::Multiply | Operator::Divide) => true,
        _ => false,
    }
}

pub(crate) fn is_comparison(operator: Operator) -> bool
    ensures { result ≡ is_comparison operator }
{
    matches!(
        operator,
        Operator::Equal
            | Operator::NotEqual
            | Operator::Less
            | Operator::AtMost
            | Operator::Greater
            | Operator::AtLeast
    )
}

/// What follows a mark, which has to stand there.
pub(crate) fn after_mark(mark: Mark, tokens: &[Token]) -> Result<&[Token], ParseError>
    ensures close { mark ≡ Mark.Close → Gives (λ x. x.now) result (after_close tokens.now) }
    ensures null { mark ≡ Mark.Null → Gives (λ x. x.now) result (after_null tokens.now) }
    ensures open { mark ≡ Mark.Open → Gives (λ x. x.now) result (after_open tokens.now) }
{
    match tokens.split_first() {
        Some((Token::Mark(found), rest)) if *found == mark => Ok(rest),
        _ => Err(ParseError::Stuck(tokens.len())),
    }
}

pub(crate) fn after_and(tokens: &[Token]) -> Result<&[Token], ParseError>
    ensures { Gives (λ x. x.now) result (after_and tokens.now) }
{
    match tokens.split_first() {
        Some((Token::Infix(Operator::And), rest)) => Ok(rest),
        _ => Err(ParseError::Stuck(tokens.len())),
    }
}

pub(crate) fn escape(tokens: &[Token]) -> Result<(Option<char>, &[Token]), ParseError>
    ensures { Gives (λ x. (x.0, x.1.now)) result (escape_of tokens.now) }
{
    let Some((Token::Mark(Mark::Escape), more)) = tokens.split_first() else {
        return Ok((None, tokens));
    };
    let Some((Token::Text(text), rest)) = more.split_first() else {
        return Err(ParseError::Stuck(more.len()));
    };
    match only_char(text.as_str()) {
        Some(c) => Ok((Some(c), rest)),
        None => Err(ParseError::Stuck(more.len())),
    }
}

pub(crate) fn only_char(text: &str) -> Option<char>
    ensures { (left : ℕ) → only_char (chars text.now) left ≡ ok_or result left }
{
    let Some((c, rest)) = first_char(text) else {
        return None;
    };
    if first_char(rest).is_some() {
        return None;
    }
    Some(c)
}

/// The texts of a list, up to its closing parenthesis.
pub(crate) fn texts(alloc: Global, tokens: &[Token]) -> Result<(Items<Str>, &[Token]), ParseError>
    ensures { Gives (λ x. (x.0, x.1.now)) result (texts_of tokens.now) }
{
    let mut items = Vec::new(alloc);
    let mut rest = tokens;
    while let Some((Token::Text(text), more)) = rest.split_first() {
        push_copy(alloc, &mut items, text)?;
        match more.split_first() {
            Some((Token::Mark(Mark::Close), end)) => return Ok((Items::from_vec(items), end)),
            Some((Token::Mark(Mark::Comma), next)) => rest = next,
            _ => return Err(ParseError::Stuck(more.len())),
        }
    }
    Err(ParseError::Stuck(rest.len()))
}

pub(crate) fn push_copy(alloc: Global, texts: &mut Vec<Str>, text: &Str) -> Result<(), AllocError>
    ensures { OnOk result (texts.new.items ≡ texts.old.items ++ text.now ∷ []) }
{
    texts.push(text.copy(alloc)?)?;
    Ok(())
}
