// The length of a request's body, by the fields of its head.
ghost use Rattle.std.specs.Prelude.{◌≡◌, ◌≤◌, All, true, codes, length, map};
ghost use Rattle.std.specs.List.{filter, list_any};
ghost use Rattle.std.specs.Str.{all_ascii_digits};
ghost use Rattle.httparse.specs.Spans.{IsHeaderWithin, header_bytes};
ghost use Rattle.sp_rest.specs.Wire.Request.{is_named, is_number, length_in, length_by, body_length};

use httparse::spans::HeaderSpan;

/// The most bytes that a body has.
const MOST: u64 = 8_388_608;

/// The body's length. None where an encoding is given, two lengths, or one that is no decimal
/// number of at most 8 MiB.
pub fn body_length(bytes: &[u8], headers: &[HeaderSpan]) -> Option<u64>
    requires { All (IsHeaderWithin (length bytes.now)) headers.now }
    ensures { result ≡ body_length (map (header_bytes bytes.now) headers.now) }
{
    if has_encoding(bytes, headers) {
        return None;
    }
    given_length(bytes, headers)
}

fn has_encoding(bytes: &[u8], headers: &[HeaderSpan]) -> bool
    requires { All (IsHeaderWithin (length bytes.now)) headers.now }
    ensures { result ≡ list_any (is_named (codes "transfer-encoding")) (map (header_bytes bytes.now) headers.now) }
{
    for header in headers {
        if is_named(bytes, header, "transfer-encoding") {
            return true;
        }
    }
    false
}

fn given_length(bytes: &[u8], headers: &[HeaderSpan]) -> Option<u64>
    requires { All (IsHeaderWithin (length bytes.now)) headers.now }
    ensures { result ≡ length_by (filter (is_named (codes "content-length")) (map (header_bytes bytes.now) headers.now)) }
{
    let mut given: Option<HeaderSpan> = None;
    for header in headers {
        if is_named(bytes, header, "content-length") {
            if given.is_some() {
                return None;
            }
            given = Some(*header);
        }
    }
    match given {
        None => Some(0),
        Some(header) => length_in(header.value.of(bytes)),
    }
}

fn is_named(bytes: &[u8], header: &HeaderSpan, name: &str) -> bool
    requires { IsHeaderWithin (length bytes.now) header.now }
    ensures { result ≡ is_named name.now (header_bytes bytes.now header.now) }
{
    header.name.of(bytes).eq_ignore_ascii_case(name.as_bytes())
}

/// The number that a value writes, with leading zeros or without.
fn length_in(value: &[u8]) -> Option<u64>
    ensures { result ≡ length_in value.now }
{
    if !is_number(value) {
        return None;
    }
    number_in(value)
}

fn is_number(value: &[u8]) -> bool
    ensures { result ≡ is_number value.now }
{
    !value.is_empty() && all_digits(value)
}

fn all_digits(value: &[u8]) -> bool
    ensures { result ≡ all_ascii_digits value.now }
{
    for byte in value {
        if !byte.is_ascii_digit() {
            return false;
        }
    }
    true
}

fn number_in(value: &[u8]) -> Option<u64>
    requires { is_number value.now ≡ true }
    ensures { result ≡ length_in value.now }
{
    let mut n: u64 = 0;
    for byte in value {
        n = n * 10 + (*byte - b'0') as u64;
        if n > MOST {
            return None;
        }
    }
    Some(n)
}
