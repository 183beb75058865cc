// Texts with thousands of parts in one sum or condition, and the places of their operators.
use crate::shown::{repeated, schema, shown};
use std::process::Abort;
use std::test::Fail;

const PARTS: usize = 3000;

// Pieces of texts that are printed as they are, and the types of their columns.
const TEXTS: [((&str, &str, &str, &str, &str), &str); 3] = [
    (("SELECT ", "(", "1", " + 1)", " AS \"n\""), " Int"),
    (
        ("SELECT ", "(", "TRUE", " AND (1 = 2))", " AS \"n\""),
        " Bool",
    ),
    (
        (
            "SELECT 1 AS \"n\" WHERE ",
            "(",
            "(FALSE AND TRUE)",
            " OR ((TRUE OR FALSE) AND (NOT FALSE)))",
            "",
        ),
        " Int",
    ),
];

// Pieces of texts that break a rule of scope, and the rule with its place.
const BROKEN: [((&str, &str, &str, &str, &str), &str); 5] = [
    (
        ("SELECT 1", " + 1", "", "", " + TRUE AS \"n\""),
        "Broken { rule: 5, place: 12009 }",
    ),
    (
        ("SELECT 1 + TRUE", " + 1", "", "", " AS \"n\""),
        "Broken { rule: 5, place: 9 }",
    ),
    (
        ("SELECT 1", " + 1", " + \"x\".\"n\"", " + 1", " AS \"n\""),
        "Broken { rule: 3, place: 12011 }",
    ),
    (
        ("SELECT 1 AS \"n\" WHERE 1", " + 1", "", "", ""),
        "Broken { rule: 6, place: 12020 }",
    ),
    (
        (
            "SELECT (SELECT COALESCE(SUM(TRUE",
            " OR TRUE",
            "",
            "",
            "), 0)) AS \"n\"",
        ),
        "Broken { rule: 10, place: 24025 }",
    ),
];

#[test]
fn reads_judges_and_prints_long_operations(rt: HostRuntime) -> Result<(), Fail> {
    let alloc = rt.alloc();
    let schema = schema(alloc).expect(&rt, "there is memory");
    for (pieces, types) in &TEXTS {
        let text = repeated(alloc, *pieces, PARTS)?;
        let got = shown(alloc, &schema, text.as_str(), text.len() as u64).expect(
            &rt,
            "there is memory",
        );
        assert!(&rt; got.as_str().starts_with(text.as_str()));
        assert!(&rt; got.as_str().ends_with(*types));
    }
    for (pieces, rule) in &BROKEN {
        let text = repeated(alloc, *pieces, PARTS)?;
        let got = shown(alloc, &schema, text.as_str(), text.len() as u64).expect(
            &rt,
            "there is memory",
        );
        assert_eq!(&rt; got.as_str(), *rule);
    }
    Ok(())
}
