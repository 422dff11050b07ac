ghost use Rattle.std.specs.Prelude.{◌≡◌, ◌≤◌, ℕ, List, bytes_eq, length, IfOk, OnOk};
ghost use Rattle.sp_base.specs.Topic.{first_bad_byte};
ghost use Rattle.sp_selector.specs.Parser.{Gives};
ghost use Rattle.sp_selector.specs.Places.{IsBadAt};
ghost use Rattle.sp_selector.specs.Selector.{Answers, IsSelector, is_true, judged, judgement, reading_of, selector_in};
ghost use Rattle.sp_selector.specs.Takes.{passes, selector_fault, takes, tree_in};
ghost use Rattle.sp_selector.specs.Tree.{Expression, expression};
ghost use Rattle.sp_selector.specs.Values.{value};

use crate::datum::Datum;
use crate::evaluate::evaluate;
use crate::parse::{Chain, ParseError, chained};
use crate::scanned::{Scanned, allowed, scan};
use crate::token::Token;
use crate::tree::Tree;
use sp_base::bytes::Bytes;
use sp_message::property::Properties;
use std::alloc::{AllocError, Global};
use std::marker::Model;
use thiserror::Error;

/// The most bytes that a selector's text has.
pub const LONGEST_SELECTOR: usize = 2_000;

/// How many tokens of a selector may be NOT, `+`, `-` or a parenthesis that begins a primary.
pub const MOST_COUNTED: usize = 200;

/// Why no selector was read.
#[derive(Debug, Drop, Error)]
pub enum SelectorError {
    /// `at` is 2000 for more than 2,000 bytes, the offset of the first byte that is not UTF-8, or of
    /// the first token that is bad by itself or after which no continuation is a selector, or the
    /// text's length where more is missing. The first of these that applies counts.
    #[error("no selector, by the byte at {at}")]
    Bad { at: u64 },
    #[error("want of memory")]
    Memory,
}

impl From<AllocError> for SelectorError {
    ghost use Rattle.sp_selector.specs.declared.selector.SelectorError.TheVariants.{Memory};
    ghost use Rattle.std.specs.Prelude.{◌≡◌};

    ghost from_gives = { λ _ e. e ≡ Memory };

    fn from(_: AllocError) -> Self {
        SelectorError::Memory
    }
}

/// A condition over a message's properties, which contracts see as its text. What the text means is
/// said by `takes` and by the grammar: no text has two trees.
#[derive(Drop)]
pub struct Selector {
    text: Bytes,
    tree: Tree,
}

impl Model for Selector {
    ghost use Rattle.std.specs.Prelude.{List, ℕ};
    ghost use Rattle.sp_selector.specs.Selector.{IsSelector};
    ghost use Rattle.sp_selector.specs.Tree.{expression};

    ghost Value = { List ℕ };

    ghost view = { λ s. s.text };

    ghost invariant = { λ s. IsSelector s.text (expression s.tree) };
}

impl Selector {
    /// The selector that a text is. Bad exactly where the text has no tree.
    pub fn read(alloc: Global, text: &[u8]) -> Result<Selector, SelectorError>
        ensures read { IfOk result (λ s. s ≡ text.now) }
        ensures form { OnOk result (selector_fault text.now ≡ None) }
        ensures bad { (at : ℕ) → result ≡ Err (SelectorError.Bad at) → selector_fault text.now ≡ Some at }
        ensures tree { OnOk result ((e : Expression) × IsSelector text.now e) }
        ensures none { (at : ℕ) (e : Expression) → result ≡ Err (SelectorError.Bad at) → IsSelector text.now e → ⊥ }
        ensures place { (at : ℕ) → result ≡ Err (SelectorError.Bad at) → IsBadAt text.now at }
    {
        match read_tree(alloc, text) {
            Ok(tree) => Ok(Selector::of_tree(alloc, text, tree)?),
            Err(e) => Err(e),
        }
    }

    fn of_tree(alloc: Global, text: &[u8], tree: Tree) -> Result<Selector, AllocError>
        requires { IsSelector text.now (expression tree) }
        ensures { IfOk result (λ s. s ≡ text.now) }
    {
        Ok(Selector {
            text: Bytes::copy_of(alloc, text)?,
            tree,
        })
    }

    /// The selector's text, which has a tree.
    pub fn as_bytes(&self) -> &[u8]
        ensures value { result.now ≡ self.now }
        ensures form { selector_fault self.now ≡ None }
        ensures bound { length self.now ≤ 2000 }
    {
        self.text.as_slice()
    }

    /// Whether both selectors have the same text.
    pub fn same(&self, other: &Selector) -> bool
        ensures { result ≡ bytes_eq self.now other.now }
    {
        self.text.same(&other.text)
    }

    /// A second selector with the same text.
    pub fn copy(&self, alloc: Global) -> Result<Selector, AllocError>
        ensures { IfOk result (λ s. s ≡ self.now) }
    {
        match Selector::read(alloc, self.text.as_slice()) {
            Ok(selector) => Ok(selector),
            Err(SelectorError::Memory) => Err(AllocError),
            Err(SelectorError::Bad { .. }) => unreachable!(),
        }
    }

    /// Whether the selector's value for these properties is TRUE. It takes no memory.
    pub fn takes(&self, properties: &Properties) -> bool
        ensures { result ≡ takes self.now properties.now }
    {
        is_true(&self.tree, properties)
    }
}

fn is_true(tree: &Tree, properties: &Properties) -> bool
    ensures { result ≡ is_true (value (expression tree.now) properties.now) }
{
    match evaluate(tree, properties) {
        Datum::Truth(truth) => truth,
        Datum::Null | Datum::Number(_) | Datum::Text(_) => false,
    }
}

/// Whether these properties pass: a selector takes them, or there is none. It takes no memory.
pub fn passes(selector: &Option<Selector>, properties: &Properties) -> bool
    ensures { result ≡ passes selector.now properties.now }
{
    match selector {
        None => true,
        Some(selector) => selector.takes(properties),
    }
}

/// A second selector with the same text, where there is one.
pub fn copy_of(alloc: Global, selector: &Option<Selector>) -> Result<Option<Selector>, AllocError>
    ensures { IfOk result (λ s. s ≡ selector.now) }
{
    match selector {
        None => Ok(None),
        Some(selector) => Ok(Some(selector.copy(alloc)?)),
    }
}

/// What `takes` asks of a text is its tree by the grammar, of which there is one where the text is a
/// selector, and none elsewhere. A text without a fault is a selector, and its fault is where it is bad,
/// which no text is at two offsets.
pub fn reading_is_by_the_grammar()
    ensures derived { (text : List ℕ) (e : Expression) → tree_in text ≡ Some e → IsSelector text e }
    ensures read { (text : List ℕ) (e : Expression) → IsSelector text e → tree_in text ≡ Some e }
    ensures form { (text : List ℕ) → selector_fault text ≡ None → (e : Expression) × IsSelector text e }
    ensures fault { (text : List ℕ) (at : ℕ) → selector_fault text ≡ Some at → IsBadAt text at }
    ensures place { (text : List ℕ) (a b : ℕ) → IsBadAt text a → IsBadAt text b → a ≡ b }
{}

#[tactic(auto, using(crate::proofs::Selectors::few_tokens), unfolding(crate::specs::Selector::selector_in))]
fn read_tree(alloc: Global, text: &[u8]) -> Result<Tree, SelectorError>
    ensures { Answers expression result (selector_in text.now) }
{
    if text.len() > LONGEST_SELECTOR {
        return Err(SelectorError::Bad { at: 2_000 });
    }
    if let Some(at) = first_bad_byte(text) {
        return Err(SelectorError::Bad { at: at as u64 });
    }
    let scanned = scan(alloc, text)?;
    judge(alloc, &scanned)
}

fn first_bad_byte(text: &[u8]) -> Option<usize>
    ensures { result ≡ first_bad_byte text.now }
{
    match str::from_utf8(text) {
        Ok(_) => None,
        Err(e) => Some(e.valid_up_to()),
    }
}

fn judge(alloc: Global, scanned: &Scanned) -> Result<Tree, SelectorError>
    requires { length scanned.now.tokens ≤ 2000 }
    ensures { Answers expression result (judgement scanned.now) }
{
    let tokens = scanned.tokens();
    let usable = allowed(tokens, MOST_COUNTED);
    match whole(alloc, &tokens[..usable]) {
        Ok(tree) => judge_whole(scanned, usable, tree),
        Err(ParseError::Stuck(left)) => Err(SelectorError::Bad {
            at: scanned.place(usable.saturating_sub(left)) as u64,
        }),
        Err(ParseError::Memory) => Err(SelectorError::Memory),
    }
}

fn judge_whole(scanned: &Scanned, usable: usize, tree: Tree) -> Result<Tree, SelectorError>
    ensures { Answers expression result (judged scanned.now usable (Ok (expression tree))) }
{
    if usable == scanned.tokens().len() && scanned.is_whole() {
        return Ok(tree);
    }
    Err(SelectorError::Bad {
        at: scanned.place(usable) as u64,
    })
}

/// The tree of all these tokens.
fn whole(alloc: Global, tokens: &[Token]) -> Result<Tree, ParseError>
    requires { length tokens.now ≤ 2000 }
    ensures { Gives expression result (reading_of tokens.now) }
{
    let room = 10 * tokens.len() + 10;
    let (tree, rest) = chained(alloc, room, Chain::Disjunction, tokens)?;
    if rest.is_empty() {
        Ok(tree)
    } else {
        Err(ParseError::Stuck(rest.len()))
    }
}
