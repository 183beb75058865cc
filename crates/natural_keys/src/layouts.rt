// The layouts of the indexes of comprehensions, path by path.
ghost use Rattle.std.specs.Prelude.{◌≡◌, IfOk, length, map, max};
ghost use Rattle.nq_model.specs.Types.{type_tree};
ghost use Rattle.nq_ir.specs.Shredded.{shredded_tree};
ghost use Rattle.nq_ir.specs.Spots.{strand_tree};
ghost use Rattle.sql_profile.specs.Scope.{same_type};
ghost use Rattle.stitcher.specs.Linked.{homes};
ghost use Rattle.natural_keys.specs.Layouts.{layout_at, layout_of, no_layout, of_type, raised, outer_by};

use crate::columns::scope_key;
use crate::homes::homes_of;
use crate::layout::{KeyColumn, Layout};
use nq_ir::{Shredded, Strand};
use nq_model::{ColumnType, List, Memory, Schema, Ty};
use std::alloc::Global;

// Whether two column types are one.
fn same_type(left: ColumnType, right: ColumnType) -> bool
    ensures { result ≡ same_type left right }
{
    match (left, right) {
        (ColumnType::Int, ColumnType::Int) => true,
        (ColumnType::Bool, ColumnType::Bool) => true,
        (ColumnType::Text, ColumnType::Text) => true,
        _ => false,
    }
}

// How many of these columns have a type.
fn count(columns: &[KeyColumn], of: ColumnType) -> Result<u64, Memory>
    ensures { IfOk result (λ count. count ≡ length (of_type of columns.now)) }
{
    let mut count: u64 = 0;
    for column in columns {
        if same_type(column.of, of) {
            count = count.checked_add(1).ok_or(Memory)?;
        }
    }
    Ok(count)
}

// The larger of two numbers.
fn larger(left: u64, right: u64) -> u64
    ensures { result ≡ max left right }
{
    if left < right { right } else { left }
}

// A layout that these key columns fit into too.
fn raised(layout: Layout, columns: &[KeyColumn]) -> Result<Layout, Memory>
    ensures { IfOk result (λ made. made ≡ raised layout columns.now) }
{
    Ok(Layout {
        ints: larger(layout.ints, count(columns, ColumnType::Int)?),
        bools: larger(layout.bools, count(columns, ColumnType::Bool)?),
        texts: larger(layout.texts, count(columns, ColumnType::Text)?),
    })
}

// The layout of the indexes of comprehensions: of each type as many cells as one of them has key
// columns at most.
fn layout_of(alloc: Global, schema: &Schema, parts: &[Strand]) -> Result<Layout, Memory>
    ensures { IfOk result (λ layout.
        layout ≡ layout_of schema.now.tables (map strand_tree parts.now)) }
{
    let mut layout = Layout {
        ints: 0,
        bools: 0,
        texts: 0,
    };
    for part in parts {
        let columns = scope_key(alloc, schema, part)?;
        layout = raised(layout, columns.as_slice())?;
    }
    Ok(layout)
}

/// By path, the layout of the indexes that name the comprehensions there. Fails only if memory runs
/// out.
pub fn inner_layouts(
    alloc: Global,
    schema: &Schema,
    forms: &[Shredded],
) -> Result<List<Layout>, Memory>
    ensures { IfOk result (λ layouts.
        layouts ≡ map (λ form. layout_of schema.now.tables form.parts)
        (map shredded_tree forms.now)) }
{
    let mut layouts = List::with_capacity(alloc, forms.len())?;
    for form in forms {
        layouts.push(layout_of(alloc, schema, form.parts.as_slice())?)?;
    }
    Ok(layouts)
}

// No cell.
fn none() -> Layout
    ensures { result ≡ no_layout }
{
    Layout {
        ints: 0,
        bools: 0,
        texts: 0,
    }
}

// The layout at a path; no cell where there is none.
fn layout_at(layouts: &[Layout], path: u64) -> Layout
    ensures { result ≡ layout_at layouts.now path }
{
    match layouts.get(path as usize) {
        Some(layout) => *layout,
        None => none(),
    }
}

// By path, the layout of the outer indexes, where the paths have these homes.
fn outer_by(alloc: Global, inners: &[Layout], homes: &[(u64, u64)]) -> Result<List<Layout>, Memory>
    ensures { IfOk result (λ layouts. layouts ≡ outer_by inners.now homes.now) }
{
    let mut layouts = List::with_capacity(alloc, homes.len())?;
    match homes.split_first() {
        None => Ok(layouts),
        Some((_, inside)) => {
            layouts.push(none())?;
            for home in inside {
                layouts.push(layout_at(inners, home.0))?;
            }
            Ok(layouts)
        }
    }
}

/// By path, the layout of the indexes of the bags in which the rows there stand: no cell at the
/// empty path, else the inner layout of the enclosing path. Fails only if memory runs out.
pub fn outer_layouts(alloc: Global, of: &Ty, inners: &[Layout]) -> Result<List<Layout>, Memory>
    ensures { IfOk result (λ layouts. layouts ≡ outer_by inners.now (homes (type_tree of.now))) }
{
    let homes = homes_of(alloc, of)?;
    outer_by(alloc, inners, homes.as_slice())
}
