// Numbers in decimal digits, without a sign and without leading zeros.
ghost use Rattle.std.specs.Prelude.{◌≡◌, ◌<◌, ◌^◌, true, IfSome};
ghost use Rattle.std.specs.Str.{all_ascii_digits};
ghost use Rattle.sp_tape.specs.Numeral.{is_numeral, numeral_value, number_from};

/// The number that a text of at most 16 digits writes.
pub fn number_from(text: &[u8]) -> Option<u64>
    ensures { result ≡ number_from text.now }
{
    if !is_numeral(text) {
        return None;
    }
    Some(value_of(text))
}

fn is_numeral(text: &[u8]) -> bool
    ensures { result ≡ is_numeral text.now }
{
    if text.is_empty() || text.len() > 16 {
        return false;
    }
    if !all_digits(text) {
        return false;
    }
    text.len() == 1 || text[0] != b'0'
}

fn all_digits(text: &[u8]) -> bool
    ensures { result ≡ all_ascii_digits text.now }
{
    for b in text {
        if !b.is_ascii_digit() {
            return false;
        }
    }
    true
}

fn value_of(text: &[u8]) -> u64
    requires { is_numeral text.now ≡ true }
    ensures { result ≡ numeral_value text.now }
{
    match str::from_utf8(text) {
        Ok(digits) => parsed(digits),
        Err(_) => unreachable!(),
    }
}

fn parsed(digits: &str) -> u64
    requires { is_numeral digits.now ≡ true }
    ensures { result ≡ numeral_value digits.now }
{
    match digits.parse::<u64>() {
        Ok(value) => value,
        Err(_) => unreachable!(),
    }
}
