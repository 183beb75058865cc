// Table texts with the rows that they give, or with their first fault, worked out by hand.
use nq_model::{CellRef, ColumnType, Label, List, TableShape};
use rows::Table;
use std::alloc::{AllocError, Global};
use std::test::Fail;
use table_reader::read_table;

// Columns `NAME TYPE,..`, a key `NAME,..`, a text, and what it gives: its rows, each cell between `[` and
// `]` and each row with a line feed, or its fault.
type Case = (&'static str, &'static str, &'static [u8], &'static str);

const SALARY: &str = "dept text,name text,salary int";

const CLIENT: &str = "dept text,name text,client bool";

const PAIR: &str = "a int,b text";

const INT: &str = "a int";

const BOOL: &str = "a bool";

const TEXT: &str = "a text";

const CASES: [Case; 51] = [
    (
        SALARY,
        "",
        b"dept,name,salary\nProduct,Alex,20000\n",
        "[Product][Alex][20000]\n",
    ),
    (SALARY, "", b"dept,name,salary", ""),
    (SALARY, "", b"dept,name,pay", "Header"),
    (SALARY, "", b"name,dept,salary\nAlex,Product,1", "Header"),
    (SALARY, "", b"dept,name,salary,x\nProduct,Alex,1", "Header"),
    (SALARY, "", b"dept,name\nProduct,Alex", "Header"),
    (SALARY, "", b"", "Header"),
    (SALARY, "", b"\n\n", "Header"),
    (
        SALARY,
        "",
        b"dept,name,salary\nProduct,Alex",
        "Width { row: 1 }",
    ),
    (
        SALARY,
        "",
        b"dept,name,salary\nProduct,Alex,1,",
        "Width { row: 1 }",
    ),
    (
        SALARY,
        "",
        b"dept,name,salary\nProduct,Alex,1\n\nSales,x\xff",
        "Width { row: 2 }",
    ),
    (
        SALARY,
        "",
        b"dept,name,salary\nProduct,Alex,12a",
        "BadInt { row: 1, column: 3 }",
    ),
    (
        SALARY,
        "",
        b"dept,name,salary\nProduct,\xff,12a",
        "NotUtf8 { row: 1, column: 2 }",
    ),
    (
        SALARY,
        "",
        b"dept,name,salary\nProduct,Alex,1\nSales,Sue,\xff",
        "NotUtf8 { row: 2, column: 3 }",
    ),
    (
        CLIENT,
        "",
        b"dept,name,client\nSales,Sue,yes",
        "BadBool { row: 1, column: 3 }",
    ),
    (
        CLIENT,
        "",
        b"dept,name,client\nSales,Sue,t\nSales,Bob,f\n,,true\n, x ,false",
        "[Sales][Sue][true]\n[Sales][Bob][false]\n[][][true]\n[][ x ][false]\n",
    ),
    (
        PAIR,
        "a",
        b"a,b\n1,x\n2,y\n1,z",
        "TwiceKey { row: 3, earlier: 1 }",
    ),
    (PAIR, "", b"a,b\n1,x\n2,y\n1,z", "[1][x]\n[2][y]\n[1][z]\n"),
    (
        PAIR,
        "a",
        b"a,b\n0,x\n1,y\n-0,z",
        "TwiceKey { row: 3, earlier: 1 }",
    ),
    (
        PAIR,
        "b,a",
        b"a,b\n1,x\n1,y\n2,x\n01,y",
        "TwiceKey { row: 4, earlier: 2 }",
    ),
    (
        PAIR,
        "b",
        b"a,b\n1,x\n2,y\nz,x\n1,x",
        "BadInt { row: 3, column: 1 }",
    ),
    (
        PAIR,
        "a",
        b"a,b\n1,x\n1,x\nz,x",
        "TwiceKey { row: 2, earlier: 1 }",
    ),
    (
        TEXT,
        "",
        b"a\r\n\"x, \"\"y\"\"\"\r\n\"\"\r\n",
        "[x, \"y\"]\n[]\n",
    ),
    (TEXT, "", b"a\rx\r\r\ny\n\"z\n\"", "[x]\n[y]\n[z\n]\n"),
    (TEXT, "", b"\xef\xbb\xbfa\nx", "[x]\n"),
    (TEXT, "", b"\xef\xbb\xbf\xef\xbb\xbfa\nx", "Header"),
    (
        "\u{feff}a text",
        "",
        b"\xef\xbb\xbf\xef\xbb\xbfa\nx",
        "[x]\n",
    ),
    (
        INT,
        "",
        b"a\n-0\n007\n-12\n9223372036854775807\n-9223372036854775808",
        "[0]\n[7]\n[-12]\n[9223372036854775807]\n[-9223372036854775808]\n",
    ),
    (INT, "", b"a\n+1", "BadInt { row: 1, column: 1 }"),
    (INT, "", b"a\n 1", "BadInt { row: 1, column: 1 }"),
    (INT, "", b"a\n1 ", "BadInt { row: 1, column: 1 }"),
    (INT, "", b"a\n\"\"", "BadInt { row: 1, column: 1 }"),
    (INT, "", b"a\n-", "BadInt { row: 1, column: 1 }"),
    (INT, "", b"a\n--1", "BadInt { row: 1, column: 1 }"),
    (
        INT,
        "",
        b"a\n9223372036854775808",
        "BadInt { row: 1, column: 1 }",
    ),
    (
        INT,
        "",
        b"a\n-9223372036854775809",
        "BadInt { row: 1, column: 1 }",
    ),
    (INT, "", b"a\n\xd9\xa3", "BadInt { row: 1, column: 1 }"),
    (INT, "", b"a\n1.0", "BadInt { row: 1, column: 1 }"),
    (INT, "", b"a\n\xff", "NotUtf8 { row: 1, column: 1 }"),
    (BOOL, "", b"a\nyes", "BadBool { row: 1, column: 1 }"),
    (BOOL, "", b"a\nT", "BadBool { row: 1, column: 1 }"),
    (BOOL, "", b"a\nTRUE", "BadBool { row: 1, column: 1 }"),
    (BOOL, "", b"a\n t", "BadBool { row: 1, column: 1 }"),
    (BOOL, "", b"a\n\"\"", "BadBool { row: 1, column: 1 }"),
    (BOOL, "", b"a\n1", "BadBool { row: 1, column: 1 }"),
    (BOOL, "", b"a\ntruef", "BadBool { row: 1, column: 1 }"),
    (BOOL, "", b"a\n\xff", "NotUtf8 { row: 1, column: 1 }"),
    (
        BOOL,
        "a",
        b"a\nt\nf\ntrue",
        "TwiceKey { row: 3, earlier: 1 }",
    ),
    // The first two keys share a code of the index of keys.
    (
        INT,
        "a",
        b"a\n2654435769\n4294967296\n0",
        "[2654435769]\n[4294967296]\n[0]\n",
    ),
    (
        INT,
        "a",
        b"a\n2654435769\n4294967296\n2654435769",
        "TwiceKey { row: 3, earlier: 1 }",
    ),
    (
        INT,
        "a",
        b"a\n2654435769\n4294967296\n4294967296",
        "TwiceKey { row: 3, earlier: 2 }",
    ),
];

fn shape_of(alloc: Global, column_list: &str, key_list: &str) -> Result<TableShape, Fail> {
    let mut columns = List::new(alloc);
    for column in column_list.split(',') {
        let (name, kind) = column.split_once(' ').ok_or("no type")?;
        let column_type = match kind {
            "int" => ColumnType::Int,
            "bool" => ColumnType::Bool,
            _ => ColumnType::Text,
        };
        columns.push((Label::from_str(alloc, name)?, column_type))?;
    }
    let mut key = List::new(alloc);
    for name in key_list.split_terminator(',') {
        key.push(Label::from_str(alloc, name)?)?;
    }
    let name = Label::from_str(alloc, "t")?;
    Ok(TableShape { name, columns, key })
}

fn cell_text(alloc: Global, cell: &CellRef<'_>) -> Result<String, AllocError> {
    match cell {
        CellRef::Int(number) => format!(in alloc; "[{number}]"),
        CellRef::Bool(truth) => format!(in alloc; "[{truth}]"),
        CellRef::Text(text) => format!(in alloc; "[{text}]"),
    }
}

fn table_text(alloc: Global, table: &Table) -> Result<String, AllocError> {
    let mut all = String::new(alloc);
    for row in 0..table.rows.len() {
        for column in 0..table.rows.width(row) {
            let cell = table.rows.cell(row, column);
            all.push_str(cell_text(alloc, &cell)?.as_str())?;
        }
        all.push_str("\n")?;
    }
    Ok(all)
}

#[test]
fn texts_give_rows_or_their_first_fault(rt: HostRuntime) -> Result<(), Fail> {
    let alloc = rt.alloc();
    for (columns, key, text, gives) in &CASES {
        let shape = shape_of(alloc, columns, key)?;
        let given = match read_table(alloc, &shape, text) {
            Ok(table) => table_text(alloc, &table)?,
            Err(fault) => format!(in alloc; "{fault:?}")?,
        };
        assert_eq!(rt; given.as_str(), *gives, "{}", text.escape_ascii());
    }
    Ok(())
}
