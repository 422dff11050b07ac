ghost use Rattle.std.specs.Prelude.{◌≡◌, false, ◌≤◌, length, IfOk};
ghost use Rattle.std.specs.List.{slice_index_or};
ghost use Rattle.sp_selector.specs.Scan.{is_counted, is_in, scan};
ghost use Rattle.sp_selector.specs.Limit.{allowed};

use crate::scan::{is_separator, token_at};
use crate::token::{Mark, Token};
use crate::tree::Operator;
use std::alloc::{AllocError, Global};
use std::marker::Model;

/// The tokens of a text with their offsets, up to its end or, not whole, to where none begins.
#[derive(Drop)]
pub struct Scanned {
    tokens: Vec<Token>,
    places: Vec<usize>,
    end: usize,
    whole: bool,
}

impl Model for Scanned {
    ghost use Rattle.sp_selector.specs.Scan.{Scanned as Scan};

    ghost Value = { Scan };

    ghost view = { λ s. record { tokens = s.tokens.items; places = s.places.items; end = s.end; whole = s.whole } };
}

impl Scanned {
    /// The tokens from the left.
    pub fn tokens(&self) -> &[Token]
        ensures { result.now ≡ self.now.tokens }
    {
        self.tokens.as_slice()
    }

    /// Whether tokens go up to the end of the text.
    pub fn is_whole(&self) -> bool
        ensures { result ≡ self.now.whole }
    {
        self.whole
    }

    /// The offset of a token, or of the end behind the last one.
    pub fn place(&self, index: usize) -> usize
        ensures { result ≡ slice_index_or self.now.places index self.now.end }
    {
        match self.places.get(index) {
            Some(place) => *place,
            None => self.end,
        }
    }
}

/// The tokens of a text.
pub fn scan(alloc: Global, text: &[u8]) -> Result<Scanned, AllocError>
    ensures { IfOk result (λ s. s ≡ scan 0 0 text.now) }
{
    let mut tokens = Vec::new(alloc);
    let mut places = Vec::new(alloc);
    let mut skip: usize = 0;
    for (at, b) in text.iter().enumerate() {
        if skip > 0 {
            skip -= 1;
            continue;
        }
        if is_separator(*b) {
            continue;
        }
        let Some((token, len)) = token_at(alloc, &text[at..])? else {
            return Ok(Scanned {
                tokens,
                places,
                end: at,
                whole: false,
            });
        };
        tokens.push(token)?;
        places.push(at)?;
        skip = len.saturating_sub(1);
    }
    Ok(Scanned {
        tokens,
        places,
        end: text.len(),
        whole: true,
    })
}

/// How many tokens there are before the one that would be counted beyond so many.
pub fn allowed(tokens: &[Token], most: usize) -> usize
    ensures value { result ≡ allowed most false tokens.now }
    ensures bound { result ≤ length tokens.now }
{
    let mut left = most;
    let mut after_in = false;
    for (index, token) in tokens.iter().enumerate() {
        if !is_counted(after_in, token) {
            after_in = is_in(token);
            continue;
        }
        if left == 0 {
            return index;
        }
        left -= 1;
        after_in = is_in(token);
    }
    tokens.len()
}

fn is_counted(after_in: bool, token: &Token) -> bool
    ensures { result ≡ is_counted after_in token.now }
{
    match token {
        Token::Infix(Operator::Add | Operator::Subtract) | Token::Mark(Mark::Not) => true,
        Token::Mark(Mark::Open) => !after_in,
        _ => false,
    }
}

fn is_in(token: &Token) -> bool
    ensures { result ≡ is_in token.now }
{
    matches!(token, Token::Mark(Mark::In))
}
