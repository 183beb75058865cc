// The body of a table.
ghost use Rattle.std.specs.Prelude.{◌≡◌, IfOk, [], ◌∷◌, map, option_copied};
ghost use Rattle.nq_model.specs.Typing.{shape_named};
ghost use Rattle.nq_ir.specs.RawForms.{columns_body, no_raw, no_raw_comp, raw_bag, raw_column, raw_comp, raw_plain, raw_rec};
ghost use Rattle.nq_ir.specs.WellFormed.{table_columns};
ghost use Rattle.normalise.specs.Raw.{fields_view, moved_body, raw_fields_of};

use crate::comps::one_comp;
use crate::fields::in_label_order;
use crate::forms::{bag, plain};
use crate::raw::{MovedBody, RawBase, RawBody};
use nq_model::{ColumnType, Label, List, Memory, Schema, TableShape};
use std::alloc::Global;

/// The record of the columns at each row of a table.
pub(crate) fn table_body(alloc: Global, schema: &Schema, name: &Label) -> Result<MovedBody, Memory>
    ensures { IfOk result (λ b.
        moved_body b ≡ raw_bag
        (raw_comp (name.now ∷ []) no_raw
        (raw_rec (columns_body (table_columns schema.now.tables name.now))) no_raw_comp)) }
{
    let mut tables = List::with_capacity(alloc, 1)?;
    tables.push(name.copy(alloc)?)?;
    let fields = columns_of(alloc, schema, name)?;
    let row = MovedBody::new(alloc, RawBody::Rec(fields))?;
    bag(alloc, one_comp(alloc, tables, row)?)
}

fn columns_of(
    alloc: Global,
    schema: &Schema,
    name: &Label,
) -> Result<List<(Label, MovedBody)>, Memory>
    ensures { IfOk result (λ fs.
        raw_fields_of fs ≡ columns_body (table_columns schema.now.tables name.now)) }
{
    match shape_of(schema, name) {
        Some(shape) => columns_at(alloc, shape.columns.as_slice()),
        None => Ok(List::new(alloc)),
    }
}

fn columns_at(
    alloc: Global,
    columns: &[(Label, ColumnType)],
) -> Result<List<(Label, MovedBody)>, Memory>
    ensures { IfOk result (λ fs. raw_fields_of fs ≡ columns_body columns.now) }
{
    in_label_order(each_column(alloc, columns)?)
}

fn each_column(
    alloc: Global,
    columns: &[(Label, ColumnType)],
) -> Result<List<(Label, MovedBody)>, Memory>
    ensures { IfOk result (λ fs. fields_view fs ≡ map
        (λ c. (c.0, raw_plain (raw_column 0 c.0))) columns.now) }
{
    let mut fields = List::with_capacity(alloc, columns.len())?;
    for column in columns {
        fields.push(column_field(alloc, &column.0)?)?;
    }
    Ok(fields)
}

// A column of the innermost generator.
fn column_field(alloc: Global, label: &Label) -> Result<(Label, MovedBody), Memory>
    ensures { IfOk result (λ f.
        (f.0 ≡ label.now) × (moved_body f.1 ≡ raw_plain (raw_column 0 label.now))) }
{
    let column = label.copy(alloc)?;
    let body = plain(alloc, RawBase::Column { back: 0, column })?;
    Ok((label.copy(alloc)?, body))
}

// The first table of that name.
fn shape_of<'a>(schema: &'a Schema, name: &Label) -> Option<&'a TableShape>
    ensures { option_copied result ≡ shape_named name.now schema.now.tables }
{
    for shape in schema.tables.as_slice() {
        if name.as_str() == shape.name.as_str() {
            return Some(shape);
        }
    }
    None
}
