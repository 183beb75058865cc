// Explanations of tables, written by hand.
use nq_model::{List, Memory, TableShape};
use schema_reader::read_schema;
use std::alloc::Global;
use std::test::Fail;
use table_explanations::explain_table;
use table_reader::{TableFault, read_table};

const SCHEMA: &[u8] =
    b"table projects (id: int, name: text, budget: int, paid: bool, key (id, name));
";

fn shape_of(alloc: Global) -> Result<TableShape, Memory> {
    match read_schema(alloc, SCHEMA) {
        Ok(mut schema) => schema.tables.pop().ok_or(Memory),
        Err(_) => Err(Memory),
    }
}

// The explanation of the text of a table, if it is refused.
fn explained(alloc: Global, text: &[u8]) -> Result<Option<List<u8>>, Memory> {
    let shape = shape_of(alloc)?;
    match read_table(alloc, &shape, text) {
        Ok(_) => Ok(None),
        Err(fault) => Ok(Some(explain_table(alloc, b"f", text, &shape, &fault)?)),
    }
}

// A table, and its explanation.
const EXPLAINED: [(&[u8], &str); 14] = [
    // No int.
    (
        b"id,name,budget,paid\n1,Oslo,100,true\n2,Bergen,x12,false\n",
        "f:3:10: This is no int: an int is an optional minus sign and digits, within 64 bits.
2,Bergen,x12,false
         ^
row: 2
column: budget
cell: x12
",
    ),
    // No truth value, in a text whose lines end with two bytes.
    (
        b"id,name,budget,paid\r\n1,Oslo,100,yes\r\n",
        "f:2:12: This is no truth value: write true, false, t or f.
1,Oslo,100,yes
           ^
row: 1
column: paid
cell: yes
",
    ),
    // No UTF-8, behind blank lines of both kinds.
    (
        b"id,name,budget,paid\n\n\r\n1,\xFF,100,t\n",
        "f:4:3: This cell is not UTF-8. Save the file as UTF-8.
1,?,100,t
  ^
row: 1
column: name
",
    ),
    // A byte order mark, and an empty cell at the beginning of a row.
    (
        b"\xEF\xBB\xBFid,name,budget,paid\n,Oslo,1,t\n",
        "f:2:1: This is no int: an int is an optional minus sign and digits, within 64 bits.
,Oslo,1,t
^
row: 1
column: id
cell: \n",
    ),
    // A comma, doubled quotes and a line feed in a cell before the place.
    (
        b"id,name,budget,paid\n1,\"Oslo, \"\"the\ncity\"\"\",1e3,t\n",
        "f:3:9: This is no int: an int is an optional minus sign and digits, within 64 bits.
city\"\"\",1e3,t
        ^
row: 1
column: budget
cell: 1e3
",
    ),
    // A comma in no quotes.
    (
        b"id,name,budget,paid\n1,Oslo, Norway,100,t\n",
        "f:2:1: This row has another number of cells than the table has columns.
1,Oslo, Norway,100,t
^
row: 1
columns: 4
cells: 5
A cell with a comma in it stands in double quotes.
",
    ),
    // Too few cells, behind a row whose quotes hold the end of a line.
    (
        b"id,name,budget,paid\n1,\"a\r\nb\",1,t\n2,Oslo",
        "f:4:1: This row has another number of cells than the table has columns.
2,Oslo
^
row: 2
columns: 4
cells: 2
",
    ),
    // The same key twice; the blank line is no row.
    (
        b"id,name,budget,paid\n1,Oslo,100,t\n\n2,Oslo,100,t\n1,Oslo,7,f\n",
        "f:5:1: An earlier row has the same key.
1,Oslo,7,f
^
row: 3
earlier: 1, in line 2
key: id,name
",
    ),
    // No text at all.
    (
        b"",
        "f:1:1: The first line is not the names of the columns.

^
expected: id,name,budget,paid
column: 1
found: nothing
",
    ),
    // A header with one column too few, with one too many, and with a misspelt one.
    (
        b"id,name,budget\n1,Oslo,100\n",
        "f:1:1: The first line is not the names of the columns.
id,name,budget
^
expected: id,name,budget,paid
column: 4
found: nothing
",
    ),
    (
        b"id,name,budget,paid,city\n",
        "f:1:21: The first line is not the names of the columns.
id,name,budget,paid,city
                    ^
expected: id,name,budget,paid
column: 5
found: city
",
    ),
    (
        b"\nid,\"nam\",budget,paid\n1,Oslo,100,t\n",
        "f:2:4: The first line is not the names of the columns.
id,\"nam\",budget,paid
   ^
expected: id,name,budget,paid
column: 2
found: nam
",
    ),
    // A cell of 100 bytes is not repeated.
    (
        b"id,name,budget,paid
1,Oslo,99999999999999999999999999999999999999999999999999999999999999999999999999999999999999999999\
99999999,t
",
        "f:2:8: This is no int: an int is an optional minus sign and digits, within 64 bits.
1,Oslo,999999999999999999999999999999999999999999999999999999999999999999999999999999999999999999999
       ^
row: 1
column: budget
",
    ),
    // Letters of two and of three bytes before the place.
    (
        b"id,name,budget,paid\n1,Troms\xC3\xB8\xE2\x80\x93N\xC3\xB8tter\xC3\xB8y,12 000,t\n",
        "f:2:19: This is no int: an int is an optional minus sign and digits, within 64 bits.
1,Tromsø–Nøtterøy,12 000,t
                  ^
row: 1
column: budget
cell: 12 000
",
    ),
];

#[test]
fn tables_are_explained(rt: HostRuntime) -> Result<(), Fail> {
    let alloc = rt.alloc();
    for (text, wanted) in &EXPLAINED {
        let made = explained(alloc, text)?;
        assert!(rt; made.is_some(), "{text:?}");
        if let Some(made) = made {
            assert!(rt; made.as_slice() == wanted.as_bytes(), "{text:?}: {made:?}");
        }
    }
    Ok(())
}

// A row that the text does not have is empty, and its place is the end of the text.
#[test]
fn absent_row_is_explained(rt: HostRuntime) -> Result<(), Fail> {
    let alloc = rt.alloc();
    let shape = shape_of(alloc)?;
    let fault = TableFault::BadInt { row: 7, column: 9 };
    let made = explain_table(alloc, b"f", b"id,name,budget,paid\n", &shape, &fault)?;
    let wanted =
        "f:1:20: This is no int: an int is an optional minus sign and digits, within 64 bits.
id,name,budget,paid
                   ^
row: 7
column: \ncell: \n";
    assert!(rt; made.as_slice() == wanted.as_bytes(), "{made:?}");
    Ok(())
}
