// Schema texts with what they spell, or with their fault and its place, counted by hand.
use nq_model::Schema;
use schema_reader::read_schema;
use std::alloc::{AllocError, Global};
use std::process::Abort;
use std::test::Fail;

// Each table by its name, its columns with their types, and the words of its key behind a `+`.
fn shown_schema(alloc: Global, schema: &Schema) -> Result<String, AllocError> {
    let mut shown = String::new(alloc);
    for table in schema.tables.as_slice() {
        write!(shown, "{}", table.name.as_str())?;
        for column in table.columns.as_slice() {
            write!(shown, " {}:{:?}", column.0.as_str(), column.1)?;
        }
        for word in table.key.as_slice() {
            write!(shown, " +{}", word.as_str())?;
        }
        write!(shown, ";")?;
    }
    Ok(shown)
}

fn shown(alloc: Global, text: &[u8]) -> Result<String, AllocError> {
    match read_schema(alloc, text) {
        Ok(schema) => shown_schema(alloc, &schema),
        Err(fault) => format!(in alloc; "{fault:?}"),
    }
}

// The numbered parts, joined.
fn numbered(alloc: Global, count: u32, before: &str, after: &str) -> Result<String, AllocError> {
    let mut text = String::new(alloc);
    for number in 1..=count {
        write!(text, "{before}{number}{after}")?;
    }
    Ok(text)
}

const CASES: [(&str, &str); 44] = [
    // A schema of no tables.
    ("", ""),
    (" \t\r\n", ""),
    ("# a comment to the end", ""),
    // `table t (` has 9 bytes, and `a: int, ` 8.
    ("table t (a: int);", "t a:Int;"),
    (
        "table t(a:int,b:bool,c:text);table u(a:int);",
        "t a:Int b:Bool c:Text;u a:Int;",
    ),
    ("table t (a: int, a: text);", "TwiceColumn { place: 17 }"),
    ("table t ();", "NoColumn { place: 6 }"),
    ("table t (a: int)", "Syntax { place: 16 }"),
    ("table t (a: int,);", "Syntax { place: 16 }"),
    ("table t (a: real);", "Syntax { place: 12 }"),
    ("table t (a int);", "Syntax { place: 11 }"),
    ("tables t (a: int);", "Syntax { place: 0 }"),
    ("Table t (a: int);", "Syntax { place: 0 }"),
    (
        "table table (table: int, int: bool);",
        "table table:Int int:Bool;",
    ),
    // `table t (a: int);` has 17 bytes, so the second name stands at 18 + 6.
    (
        "table t (a: int); table t (b: int);",
        "TwiceTable { place: 24 }",
    ),
    ("table t (a: int); table t ();", "TwiceTable { place: 24 }"),
    ("table t (a: int); table u (a: int);", "t a:Int;u a:Int;"),
    // A key: `key` stands at 17, `(` at 21, its first word at 22.
    ("table t (a: int, key (b));", "KeyColumn { place: 22 }"),
    ("table t (a: int, key (a, a));", "KeyColumn { place: 25 }"),
    (
        "table t (a: int); table u (b: int, key (a));",
        "KeyColumn { place: 40 }",
    ),
    (
        "table t (a: int, b: bool, key (b, a));",
        "t a:Int b:Bool +b +a;",
    ),
    ("table t (a: int, key ());", "Syntax { place: 22 }"),
    ("table t (a: int, key (a), b: int);", "Syntax { place: 24 }"),
    ("table t (a: int, key (a) key (a));", "Syntax { place: 25 }"),
    // `key` is a name before `:`, and behind no column it begins no key.
    ("table t (key: int);", "t key:Int;"),
    (
        "table t (a: int, key: text, key (key));",
        "t a:Int key:Text +key;",
    ),
    ("table t (key (a));", "Syntax { place: 13 }"),
    ("table t (a: int, word (a));", "Syntax { place: 22 }"),
    // A comment ends at a line feed alone.
    ("table t ( # ) ;\na: int);", "t a:Int;"),
    ("# one\rtwo;\ntable t (a: int);", "t a:Int;"),
    ("table t (a: int); # \r;", "t a:Int;"),
    ("table t (a: int); # \n;", "Syntax { place: 21 }"),
    // The bytes EF BB BF are white space at the beginning and nowhere else.
    ("\u{feff}table t (a: int);", "t a:Int;"),
    ("\u{feff}table t ();", "NoColumn { place: 9 }"),
    ("\u{feff}\u{feff}", "Syntax { place: 3 }"),
    (" \u{feff}", "Syntax { place: 1 }"),
    ("table t (a: int);\u{feff}", "Syntax { place: 17 }"),
    // A byte where no token begins, behind a wrong token and before one.
    ("table ; @", "Syntax { place: 6 }"),
    ("table t @ ;", "Syntax { place: 8 }"),
    ("table 1t (a: int);", "Syntax { place: 6 }"),
    ("table t (a: int) @", "Syntax { place: 17 }"),
    // Of two faults the earlier, and `Syntax` before the others.
    (
        "table t (a: int, a: int, key (c)); table t ();",
        "TwiceColumn { place: 17 }",
    ),
    ("table t (); table t (a: int);", "NoColumn { place: 6 }"),
    ("table t (a: int, a: int)", "Syntax { place: 24 }"),
];

// 64 bytes.
const LONG: &str = "n123456789n123456789n123456789n123456789n123456789n123456789n123";

fn expect(rt: &impl Abort, alloc: Global, text: &[u8], want: &str) -> Result<(), AllocError> {
    assert_eq!(rt; shown(alloc, text)?.as_str(), want);
    Ok(())
}

// Names of 64 bytes and of 65.
fn expect_long_names(rt: &impl Abort, alloc: Global) -> Result<(), AllocError> {
    let text = format!(in alloc; "table {LONG} ({LONG}: int);")?;
    let want = format!(in alloc; "{LONG} {LONG}:Int;")?;
    expect(rt, alloc, text.as_bytes(), want.as_str())?;
    let text = format!(in alloc; "table {LONG}4 (a: int);")?;
    expect(rt, alloc, text.as_bytes(), "OverLimit { place: 6 }")?;
    let text = format!(in alloc; "table {LONG}4 ();")?;
    expect(rt, alloc, text.as_bytes(), "NoColumn { place: 6 }")?;
    let text = format!(in alloc; "table t ({LONG}4: int);")?;
    expect(rt, alloc, text.as_bytes(), "OverLimit { place: 9 }")
}

// 64 tables and 65: 9 tables of 18 bytes and 55 of 19 stand before the 65th, and 6 bytes before its
// name.
fn expect_many_tables(rt: &impl Abort, alloc: Global) -> Result<(), AllocError> {
    let text = numbered(alloc, 64, "table t", " (a: int);")?;
    let want = numbered(alloc, 64, "t", " a:Int;")?;
    expect(rt, alloc, text.as_bytes(), want.as_str())?;
    let text = numbered(alloc, 65, "table t", " (a: int);")?;
    expect(rt, alloc, text.as_bytes(), "OverLimit { place: 1213 }")
}

// 64 columns and 65: `table t (a: int` has 15 bytes, 9 columns of 9 bytes and 54 of 10 stand behind it
// before the 65th, and 2 bytes before its name.
fn expect_many_columns(rt: &impl Abort, alloc: Global) -> Result<(), AllocError> {
    let columns = numbered(alloc, 63, ", c", ": int")?;
    let text = format!(in alloc; "table t (a: int{columns});")?;
    let shown_columns = numbered(alloc, 63, " c", ":Int")?;
    let want = format!(in alloc; "t a:Int{shown_columns};")?;
    expect(rt, alloc, text.as_bytes(), want.as_str())?;
    let columns = numbered(alloc, 64, ", c", ": int")?;
    let text = format!(in alloc; "table t (a: int{columns});")?;
    expect(rt, alloc, text.as_bytes(), "OverLimit { place: 638 }")
}

#[test]
fn reads_schemas(rt: HostRuntime) -> Result<(), Fail> {
    let alloc = rt.alloc();
    for (text, want) in &CASES {
        expect(&rt, alloc, text.as_bytes(), want)?;
    }
    // The first byte of the first sequence that is not UTF-8, whatever else is wrong.
    expect(&rt, alloc, b"table t\xFF(a: int);", "NotUtf8 { place: 7 }")?;
    expect(&rt, alloc, b"; # \xE2\x82\n \xFF", "NotUtf8 { place: 4 }")?;
    expect_long_names(&rt, alloc)?;
    expect_many_tables(&rt, alloc)?;
    expect_many_columns(&rt, alloc)?;
    Ok(())
}
