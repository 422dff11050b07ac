ghost use Rattle.std.specs.Prelude.{◌≡◌, ◌==◌, ◌&&◌, ◌*◌, ◌^◌, ◌-◌, ◌<◌, ◌≤◌, ◌++◌, ◌%◌, ◌+◌, true, length, nat_le, IfSome, OnOk, Some, None, if◌then◌else◌, string_bytes, position};
ghost use Rattle.std.specs.List.{list_all, position_or_len};
ghost use Rattle.sp_message.specs.Decimal.{is_digit, decimal_part, millionths_of, number_of, places_of, whole_of, whole_part};

use std::alloc::AllocError;

/// The greatest number that digits may stand for, 2^63 - 1.
pub const GREATEST_WHOLE: u128 = 9_223_372_036_854_775_807;

/// Whether all bytes are digits.
pub fn all_digits(text: &[u8]) -> bool
    ensures { result ≡ list_all is_digit text.now }
{
    text.iter().all(|b| b.is_ascii_digit())
}

/// The number that one or more digits are. None exactly where other bytes stand there, where there
/// are none, or where it is above 2^63 - 1.
pub fn whole(text: &[u8]) -> Option<u64>
    ensures value { result ≡ whole_of text.now }
    ensures below { IfSome result (λ n. n < 2 ^ 63) }
{
    if text.is_empty() || !all_digits(text) {
        return None;
    }
    number(text)
}

/// The millionths that one to six decimals are. None exactly where something else stands there.
#[tactic(auto, using(crate::proofs::Digits::few_below, crate::proofs::Digits::scaled_below))]
pub fn millionths(text: &[u8]) -> Option<u64>
    ensures value { result ≡ millionths_of text.now }
    ensures below { IfSome result (λ n. n < 1000000) }
{
    if text.is_empty() || text.len() > 6 || !all_digits(text) {
        return None;
    }
    match number(text) {
        Some(n) => Some(n * 10u64.pow(6 - text.len() as u32)),
        None => unreachable!(),
    }
}

/// The number that digits are. None exactly where it is above 2^63 - 1.
fn number(text: &[u8]) -> Option<u64>
    requires { list_all is_digit text.now ≡ true }
    ensures value { result ≡ (if nat_le (number_of text.now) (2 ^ 63 - 1) then Some (number_of text.now) else None) }
    ensures below { IfSome result (λ n. n < 2 ^ 63) }
{
    let mut n: u64 = 0;
    for b in text {
        let next = u128::from(n) * 10 + u128::from(*b - b'0');
        if next > GREATEST_WHOLE {
            return None;
        }
        n = next as u64;
    }
    Some(n)
}

/// What stands before the first point, or all where there is none.
pub fn whole_part(text: &[u8]) -> &[u8]
    ensures { result.now ≡ whole_part text.now }
{
    &text[..point_in(text)]
}

/// What stands after the first point, or nothing where there is none.
pub fn decimal_part(text: &[u8]) -> &[u8]
    ensures { result.now ≡ decimal_part text.now }
{
    let point = point_in(text);
    if point < text.len() {
        &text[point + 1..]
    } else {
        &[]
    }
}

/// The offset of the first point, or the text's length where there is none.
fn point_in(text: &[u8]) -> usize
    ensures value { result ≡ position_or_len (λ b. b == 46) text.now }
    ensures bound { result ≤ length text.now }
{
    match first_point(text) {
        Some(at) => at,
        None => text.len(),
    }
}

fn first_point(text: &[u8]) -> Option<usize>
    ensures { result ≡ position (λ b. b == 46) text.now }
{
    text.iter().position(|b| *b == b'.')
}

/// Appends the first of so many places and those after it, without zeros at the end.
#[tactic(auto, using(crate::proofs::Digits::unit_positive, crate::proofs::Digits::first_place, crate::proofs::Digits::next_places))]
pub fn push_places(text: &mut String, places: u32, n: u32) -> Result<(), AllocError>
    requires few { places ≤ 6 }
    requires below { n < 10 ^ places }
    ensures { OnOk result (string_bytes text.new ≡ string_bytes text.old ++ places_of places n) }
{
    if places == 0 {
        return Ok(());
    }
    let unit = 10u32.pow(places - 1);
    text.push(digit(n / unit))?;
    if n % unit == 0 {
        return Ok(());
    }
    push_places(text, places - 1, n % unit)
}

fn digit(n: u32) -> char
    requires { n < 10 }
    ensures { result ≡ 48 + n }
{
    char::from(b'0' + n as u8)
}
