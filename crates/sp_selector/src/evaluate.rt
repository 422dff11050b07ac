ghost use Rattle.std.specs.Prelude.{◌≡◌, ◌==◌, bytes_eq, Some, None};
ghost use Rattle.std.specs.List.{list_any};
ghost use Rattle.std.specs.Option.{option_copied};
ghost use Rattle.std.specs.Str.{chars};
ghost use Rattle.sp_selector.specs.Tree.{expression};
ghost use Rattle.sp_selector.specs.Values.{alike, and_of, applied, compared, computed, is_null, not_of, numbers_compared, of_text, of_truth, of_value, or_of, signed, truth_of, value};
ghost use Rattle.sp_pattern.specs.Pattern.{matches};

use crate::datum::{Datum, Lent};
use crate::number::{MILLION, bounded, product, quotient};
use crate::tree::{Operator, Sign, Tree};
use sp_base::text::Str;
use sp_message::property::Properties;
use sp_message::value::{Fixed, Value};
use sp_pattern::item::PatternItem;
use sp_pattern::like::matches;

/// The value of a tree for the properties of a message. It takes no memory.
pub fn evaluate<'a>(tree: &'a Tree, properties: &'a Properties) -> Datum<'a>
    ensures { result ≡ value (expression tree.now) properties.now }
{
    match tree {
        Tree::Number(number) => Datum::Number(*number),
        Tree::Text(text) => Datum::Text(Lent::new(text.as_str())),
        Tree::Truth(truth) => Datum::Truth(*truth),
        Tree::Property(name) => of_value(properties.find(name.as_bytes())),
        Tree::Not(operand) => of_truth(not_of(truth_of(&evaluate(operand, properties)))),
        Tree::Signed(sign, operand) => signed(*sign, evaluate(operand, properties)),
        Tree::Binary(operator, left, right) => {
            let left = evaluate(left, properties);
            let right = evaluate(right, properties);
            applied(*operator, &left, &right)
        }
        Tree::Between(operand, low, high) => {
            let operand = evaluate(operand, properties);
            let low = evaluate(low, properties);
            let high = evaluate(high, properties);
            of_truth(and_of(
                compared(Operator::AtLeast, &operand, &low),
                compared(Operator::AtMost, &operand, &high),
            ))
        }
        Tree::In(operand, texts) => {
            of_truth(is_among(&evaluate(operand, properties), texts.as_slice()))
        }
        Tree::Like(operand, pattern) => {
            of_truth(is_like(&evaluate(operand, properties), pattern.as_slice()))
        }
        Tree::IsNull(operand) => Datum::Truth(is_null(&evaluate(operand, properties))),
    }
}

fn of_value(value: Option<&Value>) -> Datum<'_>
    ensures { result ≡ of_value (option_copied value.entry) }
{
    match value {
        Some(Value::Whole(n)) => bounded(i128::from(*n) * MILLION),
        Some(Value::Fixed(number)) => Datum::Number(*number),
        Some(Value::Text(text)) => Datum::Text(Lent::new(text.as_str())),
        Some(Value::Bool(truth)) => Datum::Truth(*truth),
        None => Datum::Null,
    }
}

fn is_null(datum: &Datum) -> bool
    ensures { result ≡ is_null datum.now }
{
    matches!(datum, Datum::Null)
}

fn signed(sign: Sign, datum: Datum<'_>) -> Datum<'_>
    ensures { result ≡ signed sign datum.entry }
{
    match (sign, datum) {
        (Sign::Plus, Datum::Number(number)) => Datum::Number(number),
        (Sign::Minus, Datum::Number(number)) => Datum::Number(number.negated()),
        _ => Datum::Null,
    }
}

fn truth_of(datum: &Datum) -> Option<bool>
    ensures { result ≡ truth_of datum.now }
{
    match datum {
        Datum::Truth(truth) => Some(*truth),
        Datum::Null | Datum::Number(_) | Datum::Text(_) => None,
    }
}

fn of_truth(truth: Option<bool>) -> Datum<'static>
    ensures { result ≡ of_truth truth }
{
    match truth {
        Some(truth) => Datum::Truth(truth),
        None => Datum::Null,
    }
}

fn and_of(a: Option<bool>, b: Option<bool>) -> Option<bool>
    ensures { result ≡ and_of a b }
{
    match (a, b) {
        (Some(false), _) => Some(false),
        (Some(true), b) => b,
        (None, Some(false)) => Some(false),
        (None, _) => None,
    }
}

fn or_of(a: Option<bool>, b: Option<bool>) -> Option<bool>
    ensures { result ≡ or_of a b }
{
    match (a, b) {
        (Some(true), _) => Some(true),
        (Some(false), b) => b,
        (None, Some(true)) => Some(true),
        (None, _) => None,
    }
}

fn not_of(truth: Option<bool>) -> Option<bool>
    ensures { result ≡ not_of truth }
{
    match truth {
        Some(truth) => Some(!truth),
        None => None,
    }
}

fn applied(operator: Operator, a: &Datum, b: &Datum) -> Datum<'static>
    ensures { result ≡ applied operator a.now b.now }
{
    match operator {
        Operator::Or => of_truth(or_of(truth_of(a), truth_of(b))),
        Operator::And => of_truth(and_of(truth_of(a), truth_of(b))),
        Operator::Add | Operator::Subtract | Operator::Multiply | Operator::Divide => {
            computed(operator, a, b)
        }
        _ => of_truth(compared(operator, a, b)),
    }
}

fn computed(operator: Operator, a: &Datum, b: &Datum) -> Datum<'static>
    ensures { result ≡ computed operator a.now b.now }
{
    let (Datum::Number(x), Datum::Number(y)) = (a, b) else {
        return Datum::Null;
    };
    match operator {
        Operator::Add => bounded(x.millionths() + y.millionths()),
        Operator::Subtract => bounded(x.millionths() - y.millionths()),
        Operator::Multiply => product(*x, *y),
        Operator::Divide => quotient(*x, *y),
        _ => Datum::Null,
    }
}

fn compared(operator: Operator, a: &Datum, b: &Datum) -> Option<bool>
    ensures { result ≡ compared operator a.now b.now }
{
    match (a, b) {
        (Datum::Null, _) | (_, Datum::Null) => None,
        (Datum::Number(x), Datum::Number(y)) => Some(numbers_compared(operator, *x, *y)),
        (Datum::Text(t), Datum::Text(u)) => Some(alike(operator, t.as_str() == u.as_str())),
        (Datum::Truth(x), Datum::Truth(y)) => Some(alike(operator, *x == *y)),
        _ => Some(false),
    }
}

fn alike(operator: Operator, same: bool) -> bool
    ensures { result ≡ alike operator same }
{
    match operator {
        Operator::Equal => same,
        Operator::NotEqual => !same,
        _ => false,
    }
}

fn numbers_compared(operator: Operator, x: Fixed, y: Fixed) -> bool
    ensures { result ≡ numbers_compared operator x y }
{
    match operator {
        Operator::Equal => x == y,
        Operator::NotEqual => x != y,
        Operator::Less => x < y,
        Operator::AtMost => x <= y,
        Operator::Greater => x > y,
        Operator::AtLeast => x >= y,
        _ => false,
    }
}

fn is_among(datum: &Datum, texts: &[Str]) -> Option<bool>
    ensures { result ≡ of_text (λ t. list_any (λ u. bytes_eq u t) texts.now) datum.now }
{
    match datum {
        Datum::Null => None,
        Datum::Text(text) => Some(has_text(texts, text.as_str())),
        Datum::Truth(_) | Datum::Number(_) => Some(false),
    }
}

fn has_text(texts: &[Str], text: &str) -> bool
    ensures { result ≡ list_any (λ u. bytes_eq u text.now) texts.now }
{
    texts.iter().any(|u| u.as_str() == text)
}

fn is_like(datum: &Datum, pattern: &[PatternItem]) -> Option<bool>
    ensures { result ≡ of_text (λ t. matches pattern.now (chars t)) datum.now }
{
    match datum {
        Datum::Null => None,
        Datum::Text(text) => Some(matches(pattern, text.as_str())),
        Datum::Truth(_) | Datum::Number(_) => Some(false),
    }
}
