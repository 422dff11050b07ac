use crate::like::matches;
use crate::pattern::pattern;
use std::test::Fail;

// A pattern, its escape character, a text, and whether the text matches.
const TEXTS: [(&str, Option<char>, &str, bool); 13] = [
    ("", None, "", true),
    ("", None, "a", false),
    ("%", None, "", true),
    ("a%", None, "abc", true),
    ("%c%", None, "abc", true),
    ("_", None, "\u{e9}", true),
    ("__", None, "x", false),
    ("50!%", Some('!'), "50%", true),
    ("50!_", Some('!'), "50%", false),
    ("a!", Some('!'), "a!", true),
    ("a\\_%", Some('\\'), "a_1", true),
    ("a\\_%", Some('\\'), "ab1", false),
    ("a\\_%", Some('\\'), "", false),
];

#[test]
fn wildcards_stand_for_others_unless_they_are_escaped(rt: HostRuntime) -> Result<(), Fail> {
    for (spelled, escape, text, want) in TEXTS {
        let items = pattern(rt.alloc(), escape, spelled)?;
        assert_eq!(rt; matches(items.as_slice(), text), want, "{spelled} {text}");
    }
    Ok(())
}
