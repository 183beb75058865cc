// Whole SQL texts, with faults and places worked out by hand.
use crate::shown::repeated;
use sql_reader::read_sql;
use std::alloc::{AllocError, Global};
use std::process::Abort;
use std::test::Fail;

// A text, the depth at which it is read, and what comes of it.
const TEXTS: [(&str, u64, &str); 56] = [
    ("SELECT -1 AS \"n\"", 0, "Deep { place: 0 }"),
    ("SELECT -1 AS \"n\"", 1, "Deep { place: 0 }"),
    ("SELECT -1 AS \"n\"", 2, "Deep { place: 7 }"),
    ("SELECT -1 AS \"n\"", 3, "Deep { place: 7 }"),
    ("SELECT -1 AS \"n\"", 4, "spelled"),
    ("", 0, "Unexpected { place: 0 }"),
    ("", 200, "Unexpected { place: 0 }"),
    ("FROM", 0, "Unexpected { place: 0 }"),
    ("WITH", 1, "Deep { place: 0 }"),
    ("WITH", 2, "Unexpected { place: 4 }"),
    (
        "SELECT ROW_NUMBER() OVER () AS \"n\"",
        1,
        "Deep { place: 0 }",
    ),
    ("SELECT ROW_NUMBER() OVER () AS \"n\"", 2, "spelled"),
    ("SELECT 1 AS \"n\"", 2, "Deep { place: 7 }"),
    ("SELECT 1 AS \"n\"", 3, "spelled"),
    ("SELECT (", 2, "Deep { place: 7 }"),
    ("SELECT (", 3, "Unexpected { place: 8 }"),
    ("SELECT ((", 3, "Deep { place: 8 }"),
    (
        "SELECT CASE WHEN TRUE THEN 1 ELSE 2 END AS \"n\"",
        3,
        "Deep { place: 7 }",
    ),
    (
        "SELECT CASE WHEN TRUE THEN 1 ELSE 2 END AS \"n\"",
        4,
        "spelled",
    ),
    ("SELECT 1", 200, "Unexpected { place: 8 }"),
    ("SELECT 9223372036854775807 AS \"n\"", 200, "spelled"),
    (
        "SELECT 9223372036854775808 AS \"n\"",
        200,
        "IntRange { place: 7 }",
    ),
    ("SELECT 9223372036854775808 ?", 200, "IntRange { place: 7 }"),
    ("SELECT ? 9223372036854775808", 200, "Token { place: 7 }"),
    ("SELECT SELECT ?", 200, "Token { place: 14 }"),
    ("SELECT 1a", 200, "Token { place: 8 }"),
    ("SELECT 1 AS n", 200, "Token { place: 12 }"),
    ("SELECT 1 AS \"\"", 200, "Token { place: 12 }"),
    ("SELECT 1 AS \"n", 200, "Token { place: 12 }"),
    ("SELECT 'a'' AS \"n\"", 200, "Token { place: 7 }"),
    ("SELECT 'it''s''' AS \"n\"", 200, "spelled"),
    ("SELECT '' AS \"n\"", 200, "spelled"),
    ("sElEcT tRuE aS \"n\"", 200, "spelled"),
    ("SELECT_ 1 AS \"n\"", 200, "Token { place: 0 }"),
    (
        "-- a ? comment\n SELECT 1 AS \"n\" -- and another",
        200,
        "spelled",
    ),
    ("SELECT 1 AS \"n\" - - ", 200, "Unexpected { place: 16 }"),
    ("SELECT 1 = 2 = 3 AS \"n\"", 200, "Unexpected { place: 13 }"),
    ("SELECT (1 = 2) = TRUE AS \"n\"", 200, "spelled"),
    (
        "SELECT NOT 1 = 2 OR 3 <> 4 AND TRUE AS \"n\"",
        200,
        "spelled",
    ),
    (
        "SELECT 1 + NOT TRUE AS \"n\"",
        200,
        "Unexpected { place: 11 }",
    ),
    ("SELECT - - 1 * 2 + 3 AS \"n\"", 200, "spelled"),
    ("SELECT EXISTS", 200, "Unexpected { place: 7 }"),
    ("SELECT NOT (1) AS \"n\"", 200, "spelled"),
    ("SELECT 1 + ROW_NUMBER", 200, "Unexpected { place: 11 }"),
    ("SELECT \"a\" AS \"n\"", 200, "Unexpected { place: 11 }"),
    ("SELECT 1 AS \"n\";", 200, "spelled"),
    ("SELECT 1 AS \"n\";;", 200, "Unexpected { place: 16 }"),
    (
        "SELECT 1 AS \"n\" UNION ALL SELECT 2 AS \"n\" UNION ALL SELECT 3 AS \"n\"",
        3,
        "spelled",
    ),
    (
        "SELECT 1 AS \"n\" UNION SELECT 2 AS \"n\"",
        200,
        "Unexpected { place: 22 }",
    ),
    (
        "WITH \"q\" AS (SELECT 1 AS \"n\") SELECT \"a\".\"n\" AS \"m\" FROM \"q\" AS \"a\", \"q\" AS \"b\"",
        3,
        "spelled",
    ),
    (
        "WITH \"q\" AS (SELECT 1 AS \"n\"), \"r\" AS (SELECT 1 AS \"n\") SELECT 1 AS \"n\"",
        3,
        "spelled",
    ),
    (
        "WITH \"q\" AS (SELECT 1 AS \"n\"), SELECT 1 AS \"n\"",
        200,
        "Unexpected { place: 31 }",
    ),
    (
        "SELECT 1 AS \"n\" FROM \"t\" AS \"x\" WHERE \"x\".\"a\" < 1, 2",
        200,
        "Unexpected { place: 49 }",
    ),
    (
        "SELECT ROW_NUMBER() OVER (ORDER BY \"x\".\"a\", 2) AS \"n\", 1 AS \"m\" FROM \"t\" AS \"x\" WHERE TRUE;",
        3,
        "spelled",
    ),
    (
        "SELECT 1 AS \"n\" WHERE NOT EXISTS (SELECT 1 AS \"n\" WHERE NOT EXISTS (SELECT 1 AS \"n\" WHERE NOT EXISTS (SELECT 1 AS \"n\")))",
        12,
        "spelled",
    ),
    (
        "SELECT 1 AS \"n\" WHERE NOT EXISTS (SELECT 1 AS \"n\" WHERE NOT EXISTS (SELECT 1 AS \"n\" WHERE NOT EXISTS (SELECT 1 AS \"n\")))",
        11,
        "Deep { place: 109 }",
    ),
];

fn shown(alloc: Global, text: &[u8], depth: u64) -> Result<String, AllocError> {
    match read_sql(alloc, text, depth) {
        Ok(_text) => String::from_str(alloc, "spelled"),
        Err(fault) => format!(in alloc; "{fault:?}"),
    }
}

// Pieces, how many times two of them stand, and what comes of the text at a depth of its bytes.
const REPEATED: [((&str, &str, &str, &str, &str), usize, &str); 10] = [
    (("SELECT 1 AS \"", "n", "\"", "", ""), 128, "spelled"),
    (
        ("SELECT 1 AS \"", "n", "\"", "", ""),
        129,
        "Token { place: 12 }",
    ),
    (("SELECT ", "(", "1", ")", " AS \"n\""), 20000, "spelled"),
    (
        ("SELECT ", "(", "1", ")", ") AS \"n\""),
        20000,
        "Unexpected { place: 40008 }",
    ),
    (("SELECT 1", " - 1", " AS \"n\"", "", ""), 1999, "spelled"),
    (("SELECT 1", " - 1", " AS \"n\"", "", ""), 2000, "Memory"),
    (("SELECT 1", " + 1", " AS \"n\"", "", ""), 5000, "spelled"),
    (("SELECT ", "1 + (", "1", ")", " AS \"n\""), 1999, "spelled"),
    (("SELECT ", "1 + (", "1", ")", " AS \"n\""), 2000, "Memory"),
    (
        (
            "SELECT 1 AS \"n\"",
            " UNION ALL SELECT 1 AS \"n\"",
            "",
            "",
            "",
        ),
        5000,
        "spelled",
    ),
];

#[test]
fn reads_or_refuses(rt: HostRuntime) -> Result<(), Fail> {
    let alloc = rt.alloc();
    for (text, depth, want) in &TEXTS {
        assert_eq!(&rt; shown(alloc, text.as_bytes(), *depth)?.as_str(), *want);
    }
    for (pieces, count, want) in &REPEATED {
        let text = repeated(alloc, *pieces, *count)?;
        assert_eq!(&rt;
            shown(alloc, text.as_bytes(), text.len() as u64)?.as_str(),
            *want
        );
    }
    assert_eq!(&rt;
        shown(alloc, &[83, 32, 255], 200)?.as_str(),
        "NotUtf8 { place: 2 }"
    );
    assert_eq!(&rt;
        shown(
            alloc,
            &[0xEF, 0xBB, 0xBF, b'S', b'E', b'L', b'E', b'C', b'T'],
            200
        )?
        .as_str(),
        "Unexpected { place: 9 }"
    );
    Ok(())
}
