// What a normal form means over tables, by evaluating it.
ghost use Rattle.std.specs.Prelude.{◌≡◌, IfOk};
ghost use Rattle.nq_model.specs.Databases.{database};
ghost use Rattle.nq_model.specs.Values.{nested};
ghost use Rattle.nq_ir.specs.Meanings.{form_meaning, rows_in};
ghost use Rattle.nq_ir.specs.Trees.{form_tree};
ghost use Rattle.rows.specs.Tables.{rows_of};

use crate::bodies::elements;
use crate::named::named_tables;
use nq_ir::Normal;
use nq_model::{List, Memory, Schema, Value};
use rows::Table;
use std::alloc::Global;

/// What a normal form means over the tables of a schema: a bag. All choices of rows are made before
/// any condition is tested, so this is slow. A form that is not well formed has a value too, which
/// means nothing. Fails only if memory runs out.
#[tactic(auto, using(nq_ir::proofs::Forms::form_is, nq_model::proofs::Trees::nested_bag))]
pub fn evaluate(
    alloc: Global,
    schema: &Schema,
    tables: &[Table],
    form: &Normal,
) -> Result<Value, Memory>
    ensures { IfOk result (λ value.
        nested value ≡ form_meaning (rows_in (database schema.now.tables (rows_of tables.now)))
        (form_tree form.now)) }
{
    let named = named_tables(alloc, schema, tables)?;
    let around = List::new(alloc);
    let made = elements(
        alloc,
        named.as_slice(),
        around.as_slice(),
        form.parts.as_slice(),
    )?;
    Ok(Value::Bag(made))
}
