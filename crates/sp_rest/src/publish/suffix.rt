// What stands behind a property's value to name its kind.
ghost use Rattle.std.specs.Prelude.{◌≡◌, ◌==◌, ◌≤◌, length, position, reverse, not};
ghost use Rattle.std.specs.List.{after_last, list_any, list_all, suffix_len, position_or_len};
ghost use Rattle.std.specs.Char.{is_ascii_alphanumeric};
ghost use Rattle.sp_rest.specs.Publish.Suffix.{is_semicolon, past_spaces, is_word, names_kind, has_suffix, bare_of, word_of, names_text, names_whole, names_truth, kind_named};

/// What a value may be.
#[derive(Clone, Copy, Debug, PartialEq, Eq)]
pub enum ValueKind {
    Text,
    Whole,
    Bool,
    Fixed,
}

/// Whether the last semicolon is followed by spaces, `type=` and letters or digits to the end.
pub fn has_suffix(value: &[u8]) -> bool
    ensures { result ≡ has_suffix value.now }
{
    has_semicolon(value) && names_kind(after_semicolon(value))
}

/// What stands before the last semicolon.
pub fn bare_of(value: &[u8]) -> &[u8]
    ensures { result.now ≡ bare_of value.now }
{
    let end = value.len() - tail_len(value);
    &value[..end.saturating_sub(1)]
}

/// The word that stands at the end, where there is a suffix.
pub fn word_of(value: &[u8]) -> &[u8]
    ensures { result.now ≡ word_of value.now }
{
    let text = past_spaces(after_semicolon(value));
    &text[text.len().min(5)..]
}

fn has_semicolon(value: &[u8]) -> bool
    ensures { result ≡ list_any is_semicolon value.now }
{
    value.iter().any(|b| *b == b';')
}

fn after_semicolon(value: &[u8]) -> &[u8]
    ensures { result.now ≡ after_last is_semicolon value.now }
{
    &value[value.len() - tail_len(value)..]
}

/// How many bytes at the end are no semicolons.
fn tail_len(value: &[u8]) -> usize
    ensures value { result ≡ suffix_len (λ b. not (is_semicolon b)) value.now }
    ensures bound { result ≤ length value.now }
{
    match semicolon_from_end(value) {
        Some(n) => n,
        None => value.len(),
    }
}

fn semicolon_from_end(value: &[u8]) -> Option<usize>
    ensures { result ≡ position is_semicolon (reverse value.now) }
{
    value.iter().rev().position(|b| *b == b';')
}

fn names_kind(text: &[u8]) -> bool
    ensures { result ≡ names_kind text.now }
{
    let rest = past_spaces(text);
    rest.starts_with(b"type=") && is_word(&rest[5..])
}

fn past_spaces(text: &[u8]) -> &[u8]
    ensures { result.now ≡ past_spaces text.now }
{
    &text[spaces(text)..]
}

fn spaces(text: &[u8]) -> usize
    ensures value { result ≡ position_or_len (λ b. not (b == 32)) text.now }
    ensures bound { result ≤ length text.now }
{
    match first_past_spaces(text) {
        Some(at) => at,
        None => text.len(),
    }
}

fn first_past_spaces(text: &[u8]) -> Option<usize>
    ensures { result ≡ position (λ b. not (b == 32)) text.now }
{
    text.iter().position(|b| *b != b' ')
}

fn is_word(text: &[u8]) -> bool
    ensures { result ≡ is_word text.now }
{
    !text.is_empty() && all_in_words(text)
}

fn all_in_words(text: &[u8]) -> bool
    ensures { result ≡ list_all is_ascii_alphanumeric text.now }
{
    text.iter().all(|b| b.is_ascii_alphanumeric())
}

/// The kind that a word names.
pub fn kind_named(word: &[u8]) -> Option<ValueKind>
    ensures { result ≡ kind_named word.now }
{
    if names_text(word) {
        return Some(ValueKind::Text);
    }
    if names_whole(word) {
        return Some(ValueKind::Whole);
    }
    if names_truth(word) {
        return Some(ValueKind::Bool);
    }
    if word == b"fixed".as_slice() {
        return Some(ValueKind::Fixed);
    }
    None
}

fn names_text(word: &[u8]) -> bool
    ensures { result ≡ names_text word.now }
{
    word == b"string".as_slice() || word == b"text".as_slice()
}

fn names_whole(word: &[u8]) -> bool
    ensures { result ≡ names_whole word.now }
{
    word == b"int8".as_slice()
        || word == b"int16".as_slice()
        || word == b"int32".as_slice()
        || word == b"int64".as_slice()
        || word == b"whole".as_slice()
}

fn names_truth(word: &[u8]) -> bool
    ensures { result ≡ names_truth word.now }
{
    word == b"bool".as_slice() || word == b"boolean".as_slice()
}
