ghost use Rattle.std.specs.Prelude.{◌≡◌, ◌==◌, ◌&&◌, ◌||◌, ◌+◌, if◌then◌else◌, ◌≤◌, ◌<◌, false, true, not, length, drop, IfOk, IfSome, Some, slice_index, position};
ghost use Rattle.std.specs.Option.{option_map};
ghost use Rattle.sp_message.specs.Decimal.{is_digit, joined};
ghost use Rattle.sp_selector.specs.Scan.{begins_word, decimals_or_none, digits_len, is_separator, is_utf8, is_word_byte, keyword_of, number_at, number_token, pointed, quoted, symbol_at, text_token, token_at, whole_or_none, word_at, word_len};

use crate::token::{Mark, Token};
use crate::tree::Operator;
use sp_base::text::Str;
use sp_message::decimal::{millionths, whole};
use sp_message::value::{Fixed, bounded};
use std::alloc::{AllocError, Global};

/// The token with which a text begins, the longest one, and how many bytes it has.
#[tactic(auto, unfolding(crate::specs::Scan::token_at))]
pub fn token_at(alloc: Global, text: &[u8]) -> Result<Option<(Token, usize)>, AllocError>
    ensures { IfOk result (λ found. found ≡ token_at text.now) }
{
    let first = byte_at(text, 0);
    if begins_word(first) {
        return word_at(alloc, text);
    }
    if first.is_ascii_digit() || first == b'.' {
        return Ok(number_at(text));
    }
    if first == b'\'' {
        return quoted_at(alloc, without_first(text));
    }
    Ok(symbol_at(first, byte_at(text, 1)))
}

/// The byte in a place, or 0 past the end.
fn byte_at(text: &[u8], at: usize) -> u8
    ensures { result ≡ slice_index text.now at }
{
    match text.get(at) {
        Some(b) => *b,
        None => 0,
    }
}

fn without_first(text: &[u8]) -> &[u8]
    ensures { result.now ≡ drop 1 text.now }
{
    match text.split_first() {
        Some((_, rest)) => rest,
        None => text,
    }
}

/// Whether a byte separates tokens.
pub fn is_separator(b: u8) -> bool
    ensures { result ≡ is_separator b }
{
    b == b' ' || b == b'\t' || b == b'\r' || b == b'\n'
}

fn begins_word(b: u8) -> bool
    ensures { result ≡ begins_word b }
{
    b.is_ascii_alphabetic() || b == b'_' || b == b'$'
}

fn is_word_byte(b: u8) -> bool
    ensures { result ≡ is_word_byte b }
{
    begins_word(b) || b.is_ascii_digit()
}

fn first_no_word_byte(text: &[u8]) -> Option<usize>
    ensures { result ≡ position (λ b. not (is_word_byte b)) text.now }
{
    text.iter().position(|b| !is_word_byte(*b))
}

#[tactic(auto, using(crate::proofs::Fronts::front_is_within, crate::proofs::Fronts::front_is_all))]
fn word_len(text: &[u8]) -> usize
    ensures value { result ≡ word_len text.now }
    ensures bound { result ≤ length text.now }
{
    match first_no_word_byte(text) {
        Some(len) => len,
        None => text.len(),
    }
}

fn first_no_digit(text: &[u8]) -> Option<usize>
    ensures { result ≡ position (λ b. not (is_digit b)) text.now }
{
    text.iter().position(|b| !b.is_ascii_digit())
}

#[tactic(auto, using(crate::proofs::Fronts::front_is_within, crate::proofs::Fronts::front_is_all))]
fn digits_len(text: &[u8]) -> usize
    ensures value { result ≡ digits_len text.now }
    ensures bound { result ≤ length text.now }
{
    match first_no_digit(text) {
        Some(len) => len,
        None => text.len(),
    }
}

fn word_at(alloc: Global, text: &[u8]) -> Result<Option<(Token, usize)>, AllocError>
    ensures { IfOk result (λ found. found ≡ word_at text.now) }
{
    let len = word_len(text);
    let Some(word) = text_of(&text[..len]) else {
        return Ok(None);
    };
    match keyword(word.as_bytes()) {
        Some(keyword) => Ok(Some((keyword, len))),
        None => Ok(Some((Token::Name(Str::copy_of(alloc, word)?), len))),
    }
}

/// Bytes as a text, where they are UTF-8.
fn text_of(bytes: &[u8]) -> Option<&str>
    ensures { option_map (λ t. t.now) result ≡ (if is_utf8 bytes.now then Some bytes.now else None) }
{
    match str::from_utf8(bytes) {
        Ok(text) => Some(text),
        Err(_) => None,
    }
}

#[tactic(auto, unfolding(crate::specs::Scan::keyword_of))]
fn keyword(word: &[u8]) -> Option<Token>
    ensures { result ≡ keyword_of word.now }
{
    match word {
        w if w.eq_ignore_ascii_case(b"AND") => Some(Token::Infix(Operator::And)),
        w if w.eq_ignore_ascii_case(b"OR") => Some(Token::Infix(Operator::Or)),
        w if w.eq_ignore_ascii_case(b"NOT") => Some(Token::Mark(Mark::Not)),
        w if w.eq_ignore_ascii_case(b"BETWEEN") => Some(Token::Mark(Mark::Between)),
        w if w.eq_ignore_ascii_case(b"IN") => Some(Token::Mark(Mark::In)),
        w if w.eq_ignore_ascii_case(b"LIKE") => Some(Token::Mark(Mark::Like)),
        w if w.eq_ignore_ascii_case(b"ESCAPE") => Some(Token::Mark(Mark::Escape)),
        w if w.eq_ignore_ascii_case(b"IS") => Some(Token::Mark(Mark::Is)),
        w if w.eq_ignore_ascii_case(b"NULL") => Some(Token::Mark(Mark::Null)),
        w if w.eq_ignore_ascii_case(b"TRUE") => Some(Token::Mark(Mark::True)),
        w if w.eq_ignore_ascii_case(b"FALSE") => Some(Token::Mark(Mark::False)),
        _ => None,
    }
}

fn number_at(text: &[u8]) -> Option<(Token, usize)>
    ensures { result ≡ number_at text.now }
{
    let len = digits_len(text);
    let digits = &text[..len];
    let rest = &text[len..];
    if byte_at(rest, 0) == b'.' {
        let more = without_first(rest);
        return pointed(digits, &more[..digits_len(more)]);
    }
    number_token(len, joined(whole_or_none(digits), Some(0)))
}

fn pointed(digits: &[u8], decimals: &[u8]) -> Option<(Token, usize)>
    ensures { result ≡ pointed digits.now decimals.now }
{
    if digits.len() == 0 && decimals.len() == 0 {
        return None;
    }
    let number = joined(whole_or_none(digits), decimals_or_none(decimals));
    number_token(digits.len() + 1 + decimals.len(), number)
}

fn whole_or_none(digits: &[u8]) -> Option<u64>
    ensures { result ≡ whole_or_none digits.now }
{
    if digits.is_empty() {
        return Some(0);
    }
    whole(digits)
}

fn decimals_or_none(digits: &[u8]) -> Option<u64>
    ensures value { result ≡ decimals_or_none digits.now }
    ensures below { IfSome result (λ n. n < 1000000) }
{
    if digits.is_empty() {
        return Some(0);
    }
    millionths(digits)
}

fn joined(whole: Option<u64>, millionths: Option<u64>) -> Option<Fixed>
    requires { IfSome millionths (λ n. n < 1000000) }
    ensures { result ≡ joined whole millionths }
{
    match (whole, millionths) {
        (Some(whole), Some(millionths)) => bounded(whole, millionths),
        _ => None,
    }
}

fn number_token(len: usize, number: Option<Fixed>) -> Option<(Token, usize)>
    ensures { result ≡ number_token len number }
{
    match number {
        Some(number) => Some((Token::Number(number), len)),
        None => None,
    }
}

fn quoted_at(alloc: Global, text: &[u8]) -> Result<Option<(Token, usize)>, AllocError>
    ensures { IfOk result (λ found. found ≡ text_token (quoted false text.now)) }
{
    let Some((content, len)) = quoted(alloc, text)? else {
        return Ok(None);
    };
    let Some(text) = text_of(content.as_slice()) else {
        return Ok(None);
    };
    Ok(Some((Token::Text(Str::copy_of(alloc, text)?), len + 2)))
}

fn symbol_at(b: u8, next: u8) -> Option<(Token, usize)>
    ensures { result ≡ symbol_at b next }
{
    match (b, next) {
        (b'(', _) => Some((Token::Mark(Mark::Open), 1)),
        (b')', _) => Some((Token::Mark(Mark::Close), 1)),
        (b',', _) => Some((Token::Mark(Mark::Comma), 1)),
        (b'=', _) => Some((Token::Infix(Operator::Equal), 1)),
        (b'+', _) => Some((Token::Infix(Operator::Add), 1)),
        (b'-', _) => Some((Token::Infix(Operator::Subtract), 1)),
        (b'*', _) => Some((Token::Infix(Operator::Multiply), 1)),
        (b'/', _) => Some((Token::Infix(Operator::Divide), 1)),
        (b'<', b'>') => Some((Token::Infix(Operator::NotEqual), 2)),
        (b'<', b'=') => Some((Token::Infix(Operator::AtMost), 2)),
        (b'<', _) => Some((Token::Infix(Operator::Less), 1)),
        (b'>', b'=') => Some((Token::Infix(Operator::AtLeast), 2)),
        (b'>', _) => Some((Token::Infix(Operator::Greater), 1)),
        _ => None,
    }
}

/// What a text says whose opening quote is past, and how many bytes it has up to its closing quote.
fn quoted(alloc: Global, text: &[u8]) -> Result<Option<(Vec<u8>, usize)>, AllocError>
    ensures value { IfOk result (λ found. option_map (λ x. (x.0.items, x.1)) found ≡ quoted false text.now) }
    ensures bound { IfOk result (λ found. IfSome found (λ x. x.1 ≤ length text.now)) }
{
    let mut content = Vec::new(alloc);
    let mut after_quote = false;
    for (at, b) in text.iter().enumerate() {
        if *b == b'\'' {
            if !after_quote {
                after_quote = true;
                continue;
            }
            content.push(*b)?;
            after_quote = false;
            continue;
        }
        if after_quote {
            return Ok(Some((content, at - 1)));
        }
        content.push(*b)?;
    }
    if after_quote {
        Ok(Some((content, text.len() - 1)))
    } else {
        Ok(None)
    }
}
