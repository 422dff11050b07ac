//! The parser. `room` bounds how many readings lie in one another; ten for each token are enough.
#![tactic(auto, using(crate::proofs::Steps::reads_step, crate::proofs::Steps::reads_none), unfolding(crate::specs::Parser::step))]

ghost use Rattle.std.specs.Prelude.{◌≡◌, IfOk};
ghost use Rattle.sp_selector.specs.Grammar.{Chained, Condition, Factor, Negation, Primary, Test, operand_of};
ghost use Rattle.sp_selector.specs.Parser.{Chain_after, Condition_after, Gives, Whole, between_step, in_step, like_step, null_test, parenthesis_step, reads};
ghost use Rattle.sp_selector.specs.Tree.{Binary, expression};

use crate::follow::{after_and, after_mark, escape, is_comparison, joint, texts};
use crate::token::{Mark, Token};
use crate::tree::{Operator, Sign, Tree};
use sp_pattern::pattern::pattern;
use std::alloc::{AllocError, Global};

/// Operands of one kind with operators between them, which are grouped from the left.
#[derive(Clone, Copy, Debug, PartialEq, Eq)]
pub enum Chain {
    Disjunction,
    Conjunction,
    Sum,
    Product,
}

/// Why no tree was read.
#[derive(Debug, Drop)]
pub enum ParseError {
    /// So many tokens are left from the one on that can't stand there; 0 where more is missing.
    Stuck(usize),
    Memory,
}

impl From<AllocError> for ParseError {
    ghost use Rattle.sp_selector.specs.declared.parse.ParseError.TheVariants.{Memory};
    ghost use Rattle.std.specs.Prelude.{◌≡◌};

    ghost from_gives = { λ _ e. e ≡ Memory };

    fn from(_: AllocError) -> Self {
        ParseError::Memory
    }
}

/// A tree and the tokens after it.
pub type Read<'a> = Result<(Tree, &'a [Token]), ParseError>;

fn boxed(alloc: Global, tree: Tree) -> Result<Box<Tree>, AllocError>
    ensures { IfOk result (λ b. b.value ≡ tree) }
{
    Ok(Box::new(alloc, tree)?)
}

/// Reads a chain.
#[cycle(parse)]
pub fn chained<'a>(alloc: Global, room: usize, chain: Chain, tokens: &'a [Token]) -> Read<'a>
    ensures { Gives (λ x. (expression x.0, x.1.now)) result (reads room (Whole (Chained chain)) tokens.now) }
{
    if room == 0 {
        return Err(ParseError::Stuck(tokens.len()));
    }
    let (first, rest) = operand(alloc, room - 1, chain, tokens)?;
    chain_after(alloc, room - 1, chain, first, rest)
}

#[cycle(parse)]
fn operand<'a>(alloc: Global, room: usize, chain: Chain, tokens: &'a [Token]) -> Read<'a>
    ensures { Gives (λ x. (expression x.0, x.1.now)) result (reads room (Whole (operand_of chain)) tokens.now) }
{
    match chain {
        Chain::Disjunction => chained(alloc, room, Chain::Conjunction, tokens),
        Chain::Conjunction => negation(alloc, room, tokens),
        Chain::Sum => chained(alloc, room, Chain::Product, tokens),
        Chain::Product => factor(alloc, room, tokens),
    }
}

#[cycle(parse)]
#[tactic(auto, using(crate::proofs::Chains::chain_ends, crate::proofs::Chains::chain_goes_on, crate::proofs::Steps::reads_none))]
fn chain_after<'a>(
    alloc: Global,
    room: usize,
    chain: Chain,
    left: Tree,
    tokens: &'a [Token],
) -> Read<'a>
    ensures { Gives (λ x. (expression x.0, x.1.now)) result (reads room (Chain_after chain (expression left)) tokens.now) }
{
    let mut room = room;
    let mut left = left;
    let mut tokens = tokens;
    while room > 0 {
        let Some((operator, more)) = joint(chain, tokens) else {
            return Ok((left, tokens));
        };
        room -= 1;
        let (right, rest) = operand(alloc, room, chain, more)?;
        left = both(alloc, operator, left, right)?;
        tokens = rest;
    }
    Err(ParseError::Stuck(tokens.len()))
}

fn both(alloc: Global, operator: Operator, left: Tree, right: Tree) -> Result<Tree, AllocError>
    ensures { IfOk result (λ t. expression t ≡ Binary operator (expression left) (expression right)) }
{
    Ok(Tree::Binary(operator, boxed(alloc, left)?, boxed(alloc, right)?))
}

#[cycle(parse)]
fn negation<'a>(alloc: Global, room: usize, tokens: &'a [Token]) -> Read<'a>
    ensures { Gives (λ x. (expression x.0, x.1.now)) result (reads room (Whole Negation) tokens.now) }
{
    if room == 0 {
        return Err(ParseError::Stuck(tokens.len()));
    }
    match tokens.split_first() {
        Some((Token::Mark(Mark::Not), more)) => {
            let (inner, rest) = negation(alloc, room - 1, more)?;
            Ok((Tree::Not(boxed(alloc, inner)?), rest))
        }
        _ => condition(alloc, room - 1, tokens),
    }
}

#[cycle(parse)]
fn condition<'a>(alloc: Global, room: usize, tokens: &'a [Token]) -> Read<'a>
    ensures { Gives (λ x. (expression x.0, x.1.now)) result (reads room (Whole Condition) tokens.now) }
{
    if room == 0 {
        return Err(ParseError::Stuck(tokens.len()));
    }
    let (first, rest) = chained(alloc, room - 1, Chain::Sum, tokens)?;
    condition_after(alloc, room - 1, first, rest)
}

#[cycle(parse)]
fn factor<'a>(alloc: Global, room: usize, tokens: &'a [Token]) -> Read<'a>
    ensures { Gives (λ x. (expression x.0, x.1.now)) result (reads room (Whole Factor) tokens.now) }
{
    if room == 0 {
        return Err(ParseError::Stuck(tokens.len()));
    }
    match tokens.split_first() {
        Some((Token::Infix(Operator::Add), more)) => {
            let (inner, rest) = factor(alloc, room - 1, more)?;
            Ok((Tree::Signed(Sign::Plus, boxed(alloc, inner)?), rest))
        }
        Some((Token::Infix(Operator::Subtract), more)) => {
            let (inner, rest) = factor(alloc, room - 1, more)?;
            Ok((Tree::Signed(Sign::Minus, boxed(alloc, inner)?), rest))
        }
        _ => primary(alloc, room - 1, tokens),
    }
}

#[cycle(parse)]
fn primary<'a>(alloc: Global, room: usize, tokens: &'a [Token]) -> Read<'a>
    ensures { Gives (λ x. (expression x.0, x.1.now)) result (reads room (Whole Primary) tokens.now) }
{
    if room == 0 {
        return Err(ParseError::Stuck(tokens.len()));
    }
    match tokens.split_first() {
        Some((Token::Number(number), rest)) => Ok((Tree::Number(*number), rest)),
        Some((Token::Text(text), rest)) => Ok((Tree::Text(text.copy(alloc)?), rest)),
        Some((Token::Name(name), rest)) => Ok((Tree::Property(name.copy(alloc)?), rest)),
        Some((Token::Mark(Mark::True), rest)) => Ok((Tree::Truth(true), rest)),
        Some((Token::Mark(Mark::False), rest)) => Ok((Tree::Truth(false), rest)),
        Some((Token::Mark(Mark::Open), more)) => parenthesis(alloc, room - 1, more),
        _ => Err(ParseError::Stuck(tokens.len())),
    }
}

#[cycle(parse)]
fn parenthesis<'a>(alloc: Global, room: usize, tokens: &'a [Token]) -> Read<'a>
    ensures { Gives (λ x. (expression x.0, x.1.now)) result (parenthesis_step (reads room) tokens.now) }
{
    let (inner, rest) = chained(alloc, room, Chain::Disjunction, tokens)?;
    Ok((inner, after_mark(Mark::Close, rest)?))
}

#[cycle(parse)]
fn condition_after<'a>(alloc: Global, room: usize, operand: Tree, tokens: &'a [Token]) -> Read<'a>
    ensures { Gives (λ x. (expression x.0, x.1.now)) result (reads room (Condition_after (expression operand)) tokens.now) }
{
    if room == 0 {
        return Err(ParseError::Stuck(tokens.len()));
    }
    match tokens.split_first() {
        Some((Token::Infix(operator), more)) => {
            if !is_comparison(*operator) {
                return Ok((operand, tokens));
            }
            let (right, rest) = chained(alloc, room - 1, Chain::Sum, more)?;
            let both = Tree::Binary(*operator, boxed(alloc, operand)?, boxed(alloc, right)?);
            Ok((both, rest))
        }
        Some((Token::Mark(Mark::Is), more)) => null_test(alloc, operand, more),
        Some((Token::Mark(Mark::Not), more)) => {
            let (test, rest) = test(alloc, room - 1, operand, more)?;
            Ok((Tree::Not(boxed(alloc, test)?), rest))
        }
        Some((Token::Mark(Mark::Between | Mark::In | Mark::Like), _)) => {
            test(alloc, room - 1, operand, tokens)
        }
        _ => Ok((operand, tokens)),
    }
}

fn null_test<'a>(alloc: Global, operand: Tree, tokens: &'a [Token]) -> Read<'a>
    ensures { Gives (λ x. (expression x.0, x.1.now)) result (null_test (expression operand) tokens.now) }
{
    match tokens.split_first() {
        Some((Token::Mark(Mark::Not), more)) => {
            let rest = after_mark(Mark::Null, more)?;
            let test = Tree::IsNull(boxed(alloc, operand)?);
            Ok((Tree::Not(boxed(alloc, test)?), rest))
        }
        _ => {
            let rest = after_mark(Mark::Null, tokens)?;
            Ok((Tree::IsNull(boxed(alloc, operand)?), rest))
        }
    }
}

#[cycle(parse)]
fn test<'a>(alloc: Global, room: usize, operand: Tree, tokens: &'a [Token]) -> Read<'a>
    ensures { Gives (λ x. (expression x.0, x.1.now)) result (reads room (Whole (Test (expression operand))) tokens.now) }
{
    if room == 0 {
        return Err(ParseError::Stuck(tokens.len()));
    }
    match tokens.split_first() {
        Some((Token::Mark(Mark::Between), more)) => between(alloc, room - 1, operand, more),
        Some((Token::Mark(Mark::In), more)) => among(alloc, operand, more),
        Some((Token::Mark(Mark::Like), more)) => like(alloc, operand, more),
        _ => Err(ParseError::Stuck(tokens.len())),
    }
}

#[cycle(parse)]
fn between<'a>(alloc: Global, room: usize, operand: Tree, tokens: &'a [Token]) -> Read<'a>
    ensures { Gives (λ x. (expression x.0, x.1.now)) result (between_step (reads room) (expression operand) tokens.now) }
{
    let (low, rest) = chained(alloc, room, Chain::Sum, tokens)?;
    let more = after_and(rest)?;
    let (high, end) = chained(alloc, room, Chain::Sum, more)?;
    let operand = boxed(alloc, operand)?;
    let low = boxed(alloc, low)?;
    Ok((Tree::Between(operand, low, boxed(alloc, high)?), end))
}

fn among<'a>(alloc: Global, operand: Tree, tokens: &'a [Token]) -> Read<'a>
    ensures { Gives (λ x. (expression x.0, x.1.now)) result (in_step (expression operand) tokens.now) }
{
    let more = after_mark(Mark::Open, tokens)?;
    let (texts, rest) = texts(alloc, more)?;
    Ok((Tree::In(boxed(alloc, operand)?, texts), rest))
}

fn like<'a>(alloc: Global, operand: Tree, tokens: &'a [Token]) -> Read<'a>
    ensures { Gives (λ x. (expression x.0, x.1.now)) result (like_step (expression operand) tokens.now) }
{
    let Some((Token::Text(text), more)) = tokens.split_first() else {
        return Err(ParseError::Stuck(tokens.len()));
    };
    let (escape, rest) = escape(more)?;
    let pattern = pattern(alloc, escape, text.as_str())?;
    Ok((Tree::Like(boxed(alloc, operand)?, pattern), rest))
}
