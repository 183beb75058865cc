// Excerpts, written by hand.
use diagnostics::{
    QueryFaultKind, SchemaFaultKind, SqlFaultKind, excerpt, query_sentence, schema_sentence,
    sql_sentence,
};
use std::alloc::{AllocError, Global};
use std::process::Abort;
use std::test::Fail;

// A text, a place, and what is said of it.
const EXCERPTS: [(&[u8], u64, &[u8]); 15] = [
    (
        b"for (e <- table employees) e.name\n",
        27,
        b"q:1:28: Why.\nfor (e <- table employees) e.name\n                           ^\n",
    ),
    (b"", 0, b"q:1:1: Why.\n\n^\n"),
    (b"[1", 2, b"q:1:3: Why.\n[1\n  ^\n"),
    (b"[1\n", 3, b"q:1:3: Why.\n[1\n  ^\n"),
    (b"[1\n", 99, b"q:1:3: Why.\n[1\n  ^\n"),
    (b"a\nbcd", 4, b"q:2:3: Why.\nbcd\n  ^\n"),
    (b"a\n\nb", 2, b"q:2:1: Why.\n\n^\n"),
    (b"ab\r\ncd\r\n", 5, b"q:2:2: Why.\ncd\n ^\n"),
    (b"ab\r\ncd\r\n", 2, b"q:1:3: Why.\nab\n  ^\n"),
    (b"\t\tx y", 4, b"q:1:5: Why.\n  x y\n    ^\n"),
    // Letters of two, three and four bytes before the caret.
    (
        b"\xC3\xA9\xE2\x82\xAC\xF0\x9F\x98\x80x",
        9,
        b"q:1:4: Why.\n\xC3\xA9\xE2\x82\xAC\xF0\x9F\x98\x80x\n   ^\n",
    ),
    // What is no UTF-8, and what a terminal might obey.
    (b"a\xFFb", 2, b"q:1:3: Why.\na?b\n  ^\n"),
    (b"\xE2\x82a", 2, b"q:1:3: Why.\n??a\n  ^\n"),
    (
        b"a\x1B[b\x7F\r\x00c",
        7,
        b"q:1:8: Why.\na?[b???c\n       ^\n",
    ),
    (b"a\xC2\x80b", 3, b"q:1:3: Why.\na\xC2\x80b\n  ^\n"),
];

#[test]
fn excerpts_are_written(rt: HostRuntime) -> Result<(), Fail> {
    for (text, place, wanted) in &EXCERPTS {
        let made = excerpt(rt.alloc(), b"q", text, *place, "Why.")?;
        assert!(rt; made.as_slice() == *wanted, "{text:?} at {place}");
    }
    Ok(())
}

// A line of so many times a text; a place; its column; ten columns that are shown ten times; and
// how many of the shown ones are before the caret.
const LONG: [(&str, usize, u64, u64, &str, usize); 12] = [
    ("0123456789", 10, 99, 100, "0123456789", 99),
    ("0123456789", 10, 100, 101, "0123456789", 100),
    ("0123456789", 15, 3, 4, "0123456789", 3),
    ("0123456789", 15, 50, 51, "0123456789", 50),
    ("0123456789", 15, 51, 52, "1234567890", 50),
    ("0123456789", 15, 75, 76, "5678901234", 50),
    ("0123456789", 15, 100, 101, "0123456789", 50),
    ("0123456789", 15, 101, 102, "0123456789", 51),
    ("0123456789", 15, 149, 150, "0123456789", 99),
    ("0123456789", 15, 150, 151, "0123456789", 100),
    // In columns and not in bytes: 120 letters of two bytes, of which the first 20 are left out.
    ("éàéàéàéàéà", 12, 200, 101, "éàéàéàéàéà", 80),
    // A line of a megabyte.
    ("0123456789", 100000, 999999, 1000000, "0123456789", 99),
];

// So many times a text.
fn repeated(alloc: Global, text: &str, times: usize) -> Result<String, AllocError> {
    let mut all = String::new(alloc);
    for _at in 0..times {
        all.push_str(text)?;
    }
    Ok(all)
}

#[test]
fn long_lines_are_cut(rt: HostRuntime) -> Result<(), Fail> {
    let alloc = rt.alloc();
    for (part, times, place, column, shown, before) in &LONG {
        let line = repeated(alloc, part, *times)?;
        let text = format!(in alloc; "# above\n{line}\n# below\n")?;
        let shown = repeated(alloc, shown, 10)?;
        let spaces = repeated(alloc, " ", *before)?;
        let wanted = format!(in alloc; "long.nq:2:{column}: Why.\n{shown}\n{spaces}^\n")?;
        let at = place.saturating_add(8);
        let made = excerpt(alloc, b"long.nq", text.as_bytes(), at, "Why.")?;
        assert!(rt; made.as_slice() == wanted.as_bytes(), "{part} at {place}");
    }
    Ok(())
}

#[test]
fn sentences_are_said(rt: HostRuntime) {
    let schema = schema_sentence(SchemaFaultKind::NoColumn);
    assert!(rt; schema == "This table has no column. It needs at least one: table t (c: int);");
    let query = query_sentence(QueryFaultKind::Unbound);
    assert!(rt; query == "No variable has this name. If you mean a table, write table before it.");
    let sql = sql_sentence(SqlFaultKind::IntRange);
    assert!(rt; sql == "This number is too large. The largest is 9223372036854775807.");
}
