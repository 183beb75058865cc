// Indexes of a tag and cells that are equal, or are not.
use natural_keys::KeyIndex;
use nq_model::{Cell, List, Memory, Text};
use std::alloc::Global;

// The index of a tag, an integer and a text.
fn index(alloc: Global, tag: i64, number: i64, text: &str) -> Result<KeyIndex, Memory> {
    let mut cells = List::new(alloc);
    cells.push(Cell::Int(number))?;
    cells.push(Cell::Text(Text::from_str(alloc, text)?))?;
    Ok(KeyIndex { tag, cells })
}

#[test]
fn equals_where_tag_and_cells_do(rt: HostRuntime) -> Result<(), Memory> {
    let alloc = rt.alloc();
    let one = index(alloc, 1, 7, "a")?;
    assert!(&rt; one == index(alloc, 1, 7, "a")?);
    assert!(&rt; one != index(alloc, 2, 7, "a")?);
    assert!(&rt; one != index(alloc, 1, 8, "a")?);
    assert!(&rt; one != index(alloc, 1, 7, "")?);
    Ok(())
}
