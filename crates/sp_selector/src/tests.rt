use crate::selector::{Selector, SelectorError};
use sp_base::text::Str;
use sp_message::property::{Properties, Property};
use sp_message::value::{Fixed, Value};
use std::alloc::Global;
use std::process::Abort;
use std::test::Fail;
use std::thread::Builder;

fn with_one(alloc: Global, name: &str, value: Value) -> Result<Properties, Fail> {
    let mut rows = Vec::new(alloc);
    rows.push(Property {
        name: Str::copy_of(alloc, name)?,
        value,
    })?;
    Ok(Properties::from_vec(rows).ok_or("no properties")?)
}

fn text(alloc: Global, text: &str) -> Result<Value, Fail> {
    Ok(Value::Text(Str::copy_of(alloc, text)?))
}

fn takes(alloc: Global, selector: &str, properties: &Properties) -> Result<bool, Fail> {
    Ok(Selector::read(alloc, selector.as_bytes())?.takes(properties))
}

// The offset at which a text is refused, and none where it is a selector.
fn refused_at(alloc: Global, text: &[u8]) -> Result<Option<u64>, Fail> {
    match Selector::read(alloc, text) {
        Ok(_) => Ok(None),
        Err(SelectorError::Bad { at }) => Ok(Some(at)),
        Err(SelectorError::Memory) => Err(Fail::from("no memory")),
    }
}

#[test]
fn unknown_is_not_taken(rt: HostRuntime) -> Result<(), Fail> {
    let alloc = rt.alloc();
    let priced = with_one(alloc, "price", Value::Whole(11))?;
    assert!(rt; !takes(alloc, "price > 10.5 AND NOT (region = 'eu')", &priced)?);
    assert!(rt; takes(alloc, "price > 10.5", &priced)?);
    Ok(())
}

#[test]
fn a_quotient_by_zero_is_null(rt: HostRuntime) -> Result<(), Fail> {
    let alloc = rt.alloc();
    let three = with_one(alloc, "qty", Value::Whole(3))?;
    assert!(rt; takes(alloc, "qty / 0 IS NULL", &three)?);
    Ok(())
}

#[test]
fn an_escaped_underscore_is_itself(rt: HostRuntime) -> Result<(), Fail> {
    let alloc = rt.alloc();
    let rows = [("a_1", true), ("ab1", false), ("", false), ("a_", true)];
    for (name, taken) in rows {
        let named = with_one(alloc, "name", text(alloc, name)?)?;
        assert_eq!(rt;
            takes(alloc, "name LIKE 'a\\_%' ESCAPE '\\'", &named)?,
            taken,
            "{name}"
        );
    }
    Ok(())
}

// a is 7, b 2.5, c "x", d "50%", t TRUE and f FALSE.
fn six(alloc: Global) -> Result<Properties, Fail> {
    let half = Fixed::read(b"2.5").ok_or("no number")?;
    let values = [
        ("a", Value::Whole(7)),
        ("b", Value::Fixed(half)),
        ("c", text(alloc, "x")?),
        ("d", text(alloc, "50%")?),
        ("f", Value::Bool(false)),
        ("t", Value::Bool(true)),
    ];
    let mut rows = Vec::new(alloc);
    for (name, value) in values {
        rows.push(Property {
            name: Str::copy_of(alloc, name)?,
            value,
        })?;
    }
    Ok(Properties::from_vec(rows).ok_or("no properties")?)
}

fn each_is(rt: &impl Abort, alloc: Global, taken: bool, selectors: &[&str]) -> Result<(), Fail> {
    let properties = six(alloc)?;
    for selector in selectors {
        assert_eq!(rt; takes(alloc, selector, &properties)?, taken, "{selector}");
    }
    Ok(())
}

#[test]
fn these_take_the_message(rt: HostRuntime) -> Result<(), Fail> {
    each_is(
        &rt,
        rt.alloc(),
        true,
        &[
            "TRUE",
            "t",
            "not f",
            "NOT NOT t",
            "a = 7",
            "a = 7.0",
            "a <> 8",
            "a > b AND b < a",
            "a >= 7 And a <= 7.",
            "a - 2 - 1 = 4",
            "a - (2 - 1) = 6",
            "a + 1 * 2 = 9",
            "(a + 1) * 2 = 16",
            "12 / 2 / 3 = 2",
            "-a = -7",
            "- -a = a",
            "+a = 7",
            "a * b = 17.5",
            "a / 2 = 3.5",
            "1 / 3 = .333333",
            "-1 / 3 = -.333333",
            "0.000001 * 0.1 = 0",
            "nothing IS NULL",
            "nothing + 1 IS NULL",
            "c + 1 IS NULL",
            "+c IS NULL",
            "a / 0 IS NULL",
            "9223372036854775807 + 1 IS NULL",
            "9223372036854775807 * 9223372036854775807 IS NULL",
            "a IS NOT NULL",
            "a BETWEEN 7 AND 7",
            "a NOT BETWEEN 8 AND 9",
            "a BETWEEN b AND 9 AND t",
            "c IN ('y', 'x')",
            "c NOT IN ('y')",
            "c = 'x'",
            "c <> 'y'",
            "t = TRUE",
            "t <> f",
            "a NOT IN ('7')",
            "NOT (a = 'x')",
            "d LIKE '50!%' ESCAPE '!'",
            "c LIKE '_'",
            "d LIKE '5%'",
            "d LIKE '%0%'",
            "c NOT LIKE '__'",
            "'' LIKE '%'",
            "'it''s' LIKE 'it''s'",
            "'\u{e9}' LIKE '_'",
            "'a!' LIKE 'a!' ESCAPE '!'",
            "f OR t AND t",
            "nothing = 1 OR t",
            "(nothing = 1 AND f) = FALSE",
            "(NOT (nothing = 1)) IS NULL",
            "(5 AND t) IS NULL",
        ],
    )
}

#[test]
fn these_do_not_take_it(rt: HostRuntime) -> Result<(), Fail> {
    each_is(
        &rt,
        rt.alloc(),
        false,
        &[
            "5",
            "'x'",
            "NULLS",
            "nothing",
            "nothing = nothing",
            "nothing <> nothing",
            "NOT (nothing = 1)",
            "nothing = 1 AND t",
            "a = 'x'",
            "a <> 'x'",
            "c < 'y'",
            "f < t",
            "a BETWEEN 8 AND 6",
            "a BETWEEN 6 AND nothing",
            "nothing IN ('x')",
            "nothing NOT IN ('x')",
            "a IN ('7')",
            "a LIKE '7'",
            "nothing NOT LIKE 'x'",
            "c LIKE '__'",
            "d LIKE '50!_' ESCAPE '!'",
            "(f OR t) AND f",
            "a / 2 = 3",
            "1 / 3 * 3 = 1",
        ],
    )
}

#[test]
fn bad_texts_are_refused_where_reading_cannot_go_on(rt: HostRuntime) -> Result<(), Fail> {
    let alloc = rt.alloc();
    let rows = [
        ("a = ", 4),
        ("a = = 1", 4),
        ("a LIKE 1", 7),
        ("1e5", 1),
        ("", 0),
        ("  ", 2),
        ("a b", 2),
        ("a = 1 = 2", 6),
        ("a BETWEEN 1", 11),
        ("a BETWEEN 1 OR 2", 12),
        ("a IN ()", 6),
        ("a IN ('x' 'y')", 10),
        ("a IN ('x',", 10),
        ("a IS 1", 5),
        ("a NOT = 1", 6),
        ("a LIKE 'x' ESCAPE 'ab'", 18),
        ("a LIKE 'x' ESCAPE ''", 18),
        ("(a", 2),
        ("a)", 1),
        ("'x", 0),
        ("a = 'it''s", 4),
        ("a = .", 4),
        ("1.1234567", 0),
        ("9223372036854775808", 0),
        ("a = 9223372036854775807.5", 4),
        ("a # b", 2),
        ("a = NOT b", 4),
        ("NULL", 0),
        ("a < > b", 4),
        ("a AND", 5),
    ];
    for (text, at) in rows {
        assert_eq!(rt; refused_at(alloc, text.as_bytes())?, Some(at), "{text}");
    }
    assert_eq!(rt; refused_at(alloc, b"a = '\xff'")?, Some(5));
    Ok(())
}

fn repeated(alloc: Global, piece: &str, times: usize, end: &str) -> Result<String, Fail> {
    let mut text = String::new(alloc);
    for _ in 0..times {
        text.push_str(piece)?;
    }
    text.push_str(end)?;
    Ok(text)
}

#[test]
fn lengths_and_counted_tokens_have_limits(rt: HostRuntime) -> Result<(), Fail> {
    let alloc = rt.alloc();
    let rows = [
        (" ", 1999, "t", None),
        (" ", 2000, "t", Some(2000)),
        ("-", 200, "1", None),
        ("-", 201, "1", Some(200)),
        ("NOT ", 201, "t", Some(800)),
        ("(", 201, "t", Some(200)),
        ("1+", 200, "1", None),
        ("1+", 201, "1", Some(401)),
        ("t OR ", 399, "t", None),
        ("a IN('x') OR ", 150, "t", None),
    ];
    for (piece, times, end, at) in rows {
        let text = repeated(alloc, piece, times, end)?;
        assert_eq!(rt;
            refused_at(alloc, text.as_str().as_bytes())?,
            at,
            "{piece} {times}"
        );
    }
    Ok(())
}

// The longest chain of each operator, the most signs and NOTs, and whether it is taken. A chain
// groups into a tree that is as deep as it is long.
const LONGEST: [(&str, usize, &str, bool); 12] = [
    ("1OR ", 499, "TRUE", true),
    ("1AND ", 399, "1", false),
    ("t AND ", 332, "t", true),
    ("1+", 200, "1=201", true),
    ("1-", 199, "1=-198", true),
    ("1*", 998, "1=1", true),
    ("1/", 998, "1=1", true),
    ("NOT ", 200, "t", true),
    ("+", 200, "a=7", true),
    ("-", 200, "a=7", true),
    ("1/1*", 498, "1=1", true),
    ("f OR ", 399, "t", true),
];

// How many of the texts are selectors that take the message or not, as they should.
fn right_values(alloc: Global, texts: &[(String, bool)], properties: &Properties) -> usize {
    let right = texts.iter().filter(|row| match Selector::read(alloc, row.0.as_bytes()) {
        Ok(selector) => selector.takes(properties) == row.1,
        Err(_) => false,
    });
    right.count()
}

#[test]
fn the_longest_chains_have_a_value_on_a_stack_of_2_mib(rt: HostRuntime) -> Result<(), Fail> {
    let alloc = rt.alloc();
    let properties = six(alloc)?;
    let mut texts = Vec::new(alloc);
    for (piece, times, end, taken) in LONGEST {
        texts.push((repeated(alloc, piece, times, end)?, taken))?;
    }
    let thread = Builder::new().stack_size(2 << 20).spawn(
        &rt,
        move || right_values(alloc, texts.as_slice(), &properties),
    )?;
    assert_eq!(rt; thread.join(&rt), LONGEST.len());
    Ok(())
}

// Reading goes through all levels of the grammar once for each parenthesis.
#[test]
fn nested_parentheses_are_read_on_a_stack_of_4_mib(rt: HostRuntime) -> Result<(), Fail> {
    let alloc = rt.alloc();
    let properties = six(alloc)?;
    let nested = repeated(alloc, "(", 200, "t")?;
    let closed = repeated(alloc, ")", 200, "")?;
    let mut texts = Vec::new(alloc);
    texts.push((format!(in alloc; "{nested}{closed}")?, true))?;
    let thread = Builder::new().stack_size(4 << 20).spawn(
        &rt,
        move || right_values(alloc, texts.as_slice(), &properties),
    )?;
    assert_eq!(rt; thread.join(&rt), 1);
    Ok(())
}

#[test]
fn long_patterns_have_a_value(rt: HostRuntime) -> Result<(), Fail> {
    let alloc = rt.alloc();
    let long = repeated(alloc, "a", 8192, "")?;
    let properties = with_one(alloc, "x", text(alloc, long.as_str())?)?;
    let mut pattern = repeated(alloc, "%a", 400, "")?;
    pattern.push_str("%b")?;
    let selector = format!(in alloc; "x LIKE '{}'", pattern.as_str())?;
    assert!(rt; !takes(alloc, selector.as_str(), &properties)?);
    Ok(())
}
