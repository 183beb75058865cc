// Rows as JSON, worked out by hand.
use nq_json::write_json_rows;
use nq_model::CellRef;
use rows::Rows;
use std::test::Fail;

#[test]
fn rows_are_written_as_one_line(rt: HostRuntime) -> Result<(), Fail> {
    let alloc = rt.alloc();
    let mut rows = Rows::new(alloc);
    let text = "a\"b\\/\u{1}\u{fc}";
    rows.push_lent(&[CellRef::Int(-1), CellRef::Bool(true), CellRef::Text(text)])?;
    rows.push_lent(&[CellRef::Int(7), CellRef::Bool(false), CellRef::Text("")])?;
    rows.push_lent(&[])?;
    let line = write_json_rows(alloc, &rows, &[1, 2, 0, 1])?;
    let expected = "[[7,false,\"\"],[],[-1,true,\"a\\\"b\\\\/\\u0001ü\"],[7,false,\"\"]]\n";
    assert!(rt; line.as_slice() == expected.as_bytes());
    let none = write_json_rows(alloc, &rows, &[])?;
    assert!(rt; none.as_slice() == "[]\n".as_bytes());
    Ok(())
}
