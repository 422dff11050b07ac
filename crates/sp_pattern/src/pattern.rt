ghost use Rattle.std.specs.Prelude.{◌≡◌, IfOk};
ghost use Rattle.sp_pattern.specs.Pattern.{is_escape, pattern_of, plain_item};

use crate::item::PatternItem;
use crate::like::first_char;
use sp_base::items::Items;
use std::alloc::{AllocError, Global};

/// The items of a pattern with this escape character, if there is one.
pub fn pattern(
    alloc: Global,
    escape: Option<char>,
    text: &str,
) -> Result<Items<PatternItem>, AllocError>
    ensures { IfOk result (λ items. items ≡ pattern_of escape text.now) }
{
    let mut items = Vec::new(alloc);
    let mut escaped = false;
    let mut rest = text;
    while let Some((c, more)) = first_char(rest) {
        if escaped {
            items.push(PatternItem::Exactly(c))?;
            escaped = false;
        } else if is_escape(escape, c) {
            escaped = true;
        } else {
            items.push(plain_item(c))?;
        }
        rest = more;
    }
    if let (true, Some(c)) = (escaped, escape) {
        items.push(PatternItem::Exactly(c))?;
    }
    Ok(Items::from_vec(items))
}

fn is_escape(escape: Option<char>, c: char) -> bool
    ensures { result ≡ is_escape escape c }
{
    match escape {
        Some(e) => e == c,
        None => false,
    }
}

fn plain_item(c: char) -> PatternItem
    ensures { result ≡ plain_item c }
{
    match c {
        '%' => PatternItem::Any,
        '_' => PatternItem::One,
        _ => PatternItem::Exactly(c),
    }
}
