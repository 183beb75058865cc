// JSON tables with the rows that they give, or with their first fault, worked out by hand.
use nq_json::read_json_table;
use nq_model::{CellRef, ColumnType, Label, List, TableShape};
use rows::Table;
use std::alloc::{AllocError, Global};
use std::test::Fail;

// Columns `NAME TYPE,..`, a key `NAME,..`, a text, and what it gives: its rows, each cell between
// `[` and `]` and each row with a line feed, or its fault.
type Case = (&'static str, &'static str, &'static [u8], &'static str);

const NAME: &str = "name text";

const THREE: &str = "a int,b text,c bool";

const INT: &str = "a int";

const PAIR: &str = "a int,b text";

const CASES: [Case; 39] = [
    (
        NAME,
        "",
        b"[{\"name\":\"Sales\"},{\"name\":\"Product\"}]",
        "[Sales]\n[Product]\n",
    ),
    (NAME, "", b"[{\"n\\u0061me\":\"x\"}]", "[x]\n"),
    (NAME, "", b"[{\"name\":5}]", "BadCell { row: 1, column: 1 }"),
    (NAME, "", b"{}", "NotArray"),
    (NAME, "", b"null", "NotArray"),
    (NAME, "", b"", "NotJson"),
    (NAME, "", b"[{\"name\":\"\xff\"}]", "NotJson"),
    (NAME, "", b"\xef\xbb\xbf[]", "NotJson"),
    (NAME, "", b"[{\"name\":\"x\"},]", "NotJson"),
    (NAME, "", b"[{\"name\":1e999}]", "NotJson"),
    (NAME, "", b"[] []", "NotJson"),
    (NAME, "", b" [ ]\n", ""),
    (
        THREE,
        "a",
        b"[{\"c\":true,\"a\":-9223372036854775808,\"b\":\"x\"},{\"b\":\"\",\"a\":9223372036854775807,\"c\":false}]",
        "[-9223372036854775808][x][true]\n[9223372036854775807][][false]\n",
    ),
    (INT, "a", b"[{\"a\":-0}]", "BadCell { row: 1, column: 1 }"),
    (INT, "a", b"[{\"a\":1e2}]", "BadCell { row: 1, column: 1 }"),
    (INT, "a", b"[{\"a\":1.0}]", "BadCell { row: 1, column: 1 }"),
    (
        INT,
        "a",
        b"[{\"a\":9223372036854775808}]",
        "BadCell { row: 1, column: 1 }",
    ),
    (
        INT,
        "a",
        b"[{\"a\":-9223372036854775809}]",
        "BadCell { row: 1, column: 1 }",
    ),
    (
        INT,
        "a",
        b"[{\"a\":\"1\"}]",
        "BadCell { row: 1, column: 1 }",
    ),
    (INT, "a", b"[{\"a\":null}]", "BadCell { row: 1, column: 1 }"),
    (
        "a bool",
        "",
        b"[{\"a\":\"true\"}]",
        "BadCell { row: 1, column: 1 }",
    ),
    (
        "a bool",
        "",
        b"[{\"a\":true},{\"a\":0}]",
        "BadCell { row: 2, column: 1 }",
    ),
    (
        PAIR,
        "a",
        b"[{\"a\":1,\"b\":\"x\"},{\"a\":2}]",
        "BadRow { row: 2 }",
    ),
    (
        PAIR,
        "a",
        b"[{\"a\":1,\"b\":\"x\",\"c\":2}]",
        "BadRow { row: 1 }",
    ),
    (PAIR, "a", b"[{\"a\":1,\"c\":\"x\"}]", "BadRow { row: 1 }"),
    (PAIR, "a", b"[{}]", "BadRow { row: 1 }"),
    (PAIR, "a", b"[[1,\"x\"]]", "BadRow { row: 1 }"),
    (PAIR, "a", b"[{\"a\":1,\"b\":\"x\",\"a\":7}]", "[7][x]\n"),
    (
        PAIR,
        "a",
        b"[{\"a\":1,\"b\":\"x\",\"a\":true}]",
        "BadCell { row: 1, column: 1 }",
    ),
    (
        PAIR,
        "a",
        b"[{\"a\":1,\"b\":\"x\"},{\"a\":2,\"b\":\"x\"},{\"a\":1,\"b\":\"y\"}]",
        "TwiceKey { row: 3, earlier: 1 }",
    ),
    (
        PAIR,
        "",
        b"[{\"a\":1,\"b\":\"x\"},{\"a\":1,\"b\":\"x\"}]",
        "[1][x]\n[1][x]\n",
    ),
    (
        PAIR,
        "b,a",
        b"[{\"a\":1,\"b\":\"x\"},{\"a\":2,\"b\":\"x\"},{\"a\":2,\"b\":\"y\"}]",
        "[1][x]\n[2][x]\n[2][y]\n",
    ),
    (
        PAIR,
        "b,a",
        b"[{\"a\":1,\"b\":\"x\"},{\"a\":2,\"b\":\"x\"},{\"b\":\"x\",\"a\":2}]",
        "TwiceKey { row: 3, earlier: 2 }",
    ),
    (
        PAIR,
        "a",
        b"[{\"a\":1,\"b\":5},7]",
        "BadCell { row: 1, column: 2 }",
    ),
    (PAIR, "a", b"[7,{\"a\":1,\"b\":5}]", "BadRow { row: 1 }"),
    (
        THREE,
        "a",
        b"[{\"c\":1,\"b\":2,\"a\":3}]",
        "BadCell { row: 1, column: 2 }",
    ),
    (
        THREE,
        "a",
        b"[{\"c\":1,\"b\":\"x\",\"a\":\"y\"}]",
        "BadCell { row: 1, column: 1 }",
    ),
    (
        PAIR,
        "a",
        b"[{\"a\":1,\"b\":\"x\"},{\"a\":1,\"b\":\"y\"},{\"a\":true,\"b\":\"z\"}]",
        "TwiceKey { row: 2, earlier: 1 }",
    ),
    (
        PAIR,
        "a",
        b"[{\"a\":1,\"b\":\"x\"},{\"a\":1,\"b\":0}]",
        "BadCell { row: 2, column: 2 }",
    ),
];

fn shape_of(alloc: Global, column_list: &str, key_list: &str) -> Result<TableShape, Fail> {
    let mut columns = List::new(alloc);
    for column in column_list.split(',') {
        let (name, kind) = column.split_once(' ').ok_or("no type")?;
        let column_type = match kind {
            "int" => ColumnType::Int,
            "bool" => ColumnType::Bool,
            _ => ColumnType::Text,
        };
        columns.push((Label::from_str(alloc, name)?, column_type))?;
    }
    let mut key = List::new(alloc);
    for name in key_list.split_terminator(',') {
        key.push(Label::from_str(alloc, name)?)?;
    }
    let name = Label::from_str(alloc, "t")?;
    Ok(TableShape { name, columns, key })
}

fn cell_text(alloc: Global, cell: &CellRef<'_>) -> Result<String, AllocError> {
    match cell {
        CellRef::Int(number) => format!(in alloc; "[{number}]"),
        CellRef::Bool(truth) => format!(in alloc; "[{truth}]"),
        CellRef::Text(text) => format!(in alloc; "[{text}]"),
    }
}

fn table_text(alloc: Global, table: &Table) -> Result<String, AllocError> {
    let mut all = String::new(alloc);
    for row in 0..table.rows.len() {
        for column in 0..table.rows.width(row) {
            let cell = table.rows.cell(row, column);
            all.push_str(cell_text(alloc, &cell)?.as_str())?;
        }
        all.push_str("\n")?;
    }
    Ok(all)
}

fn given(alloc: Global, shape: &TableShape, text: &[u8]) -> Result<String, AllocError> {
    match read_json_table(alloc, shape, text) {
        Ok(table) => table_text(alloc, &table),
        Err(fault) => format!(in alloc; "{fault:?}"),
    }
}

#[test]
fn json_tables_give_rows_or_their_first_fault(rt: HostRuntime) -> Result<(), Fail> {
    let alloc = rt.alloc();
    for (columns, key, text, gives) in &CASES {
        let shape = shape_of(alloc, columns, key)?;
        let found = given(alloc, &shape, text)?;
        assert_eq!(rt; found.as_str(), *gives, "{}", text.escape_ascii());
    }
    Ok(())
}

// So many arrays, each in the one before.
fn nested(alloc: Global, depth: usize) -> Result<Vec<u8>, AllocError> {
    let mut text = Vec::new(alloc);
    text.resize(depth, b'[')?;
    text.resize(2 * depth, b']')?;
    Ok(text)
}

#[test]
fn arrays_nest_at_most_127_deep(rt: HostRuntime) -> Result<(), Fail> {
    let alloc = rt.alloc();
    let shape = shape_of(alloc, INT, "")?;
    for (depth, gives) in [
        (1, ""),
        (127, "BadRow { row: 1 }"),
        (128, "NotJson"),
        (500_000, "NotJson"),
    ] {
        let text = nested(alloc, depth)?;
        let found = given(alloc, &shape, text.as_slice())?;
        assert_eq!(rt; found.as_str(), gives, "{depth} brackets");
    }
    Ok(())
}
