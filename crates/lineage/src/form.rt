// The traced form of a normal form.
ghost use Rattle.std.specs.Prelude.{◌≡◌, ◌≢◌, ◌↔◌, All, IfOk, IsTrue};
ghost use Rattle.nq_model.specs.Tables.{IsProperSchema};
ghost use Rattle.nq_ir.specs.Trees.{form_tree};
ghost use Rattle.nq_ir.specs.WellFormed.{IsWellFormed};
ghost use Rattle.traced_meaning.specs.NumberedTables.{
  HasNoNumbers,
  number_column,
  numbered_schema,
};
ghost use Rattle.lineage.specs.ListedTables.{listed};
ghost use Rattle.lineage.specs.TraceForms.{form_traced};

use crate::bodies::{NUMBER, comps_traced};
use crate::places::{most_gens, push_bodies};
use crate::tables::{numbered_schema, push_listed};
use crate::types::{type_traced, with_numbers};
use nq_ir::Normal;
use nq_model::{ColumnType, Label, List, Memory, Schema};
use std::alloc::Global;
use traced_meaning::trace_laws;

/// A form whose elements say which rows made them: the schema with a column for the number of a
/// row, the form, and the tables of each comprehension's own generators, by its tag.
#[derive(Drop)]
pub struct TraceForm {
    pub schema: Schema,
    pub normal: Normal,
    pub tables: List<(u64, List<Label>)>,
}

/// Whether no column of the schema is named `#`, the name of the column for the number of a row.
pub fn has_no_numbers(schema: &Schema) -> bool
    ensures { IsTrue result ↔ HasNoNumbers schema.now }
{
    for shape in schema.tables.as_slice() {
        if !no_number(shape.columns.as_slice()) {
            return false;
        }
    }
    true
}

fn no_number(columns: &[(Label, ColumnType)]) -> bool
    ensures { IsTrue result ↔ All (λ column. column.0 ≢ number_column) columns.now }
{
    columns.iter().all(|column| column.0.as_str() != NUMBER)
}

/// The traced form of a normal form over a schema with no column named `#`. Each table has that
/// column more, the last, for the number of a row. The form has the same tags, generators and
/// conditions; each element, at every depth, is a record of `at`, its comprehension's tag, `r1`,
/// `r2` and so on, the numbers of the rows at which the comprehension's own generators stand, and
/// `value`, the element. Where comprehensions at one path differ in how many generators they have,
/// 0 stands for the missing numbers. It is well formed over its schema, which is proper, so it may
/// be compiled. Fails only if memory runs out.
pub fn trace_form(alloc: Global, schema: &Schema, normal: &Normal) -> Result<TraceForm, Memory>
    requires proper { IsProperSchema schema.now }
    requires well_formed { IsWellFormed schema.now.tables (form_tree normal.now) }
    requires free { HasNoNumbers schema.now }
    ensures schema { IfOk result (λ form. form.schema ≡ numbered_schema schema.now) }
    ensures normal { IfOk result
        (λ form. form_tree form.normal ≡ form_traced (form_tree normal.now)) }
    ensures tables { IfOk result (λ form. form.tables ≡ listed (form_tree normal.now).comps) }
    ensures proper { IfOk result (λ form. IsProperSchema form.schema) }
    ensures well_formed { IfOk result
        (λ form. IsWellFormed form.schema.tables (form_tree form.normal)) }
{
    trace_laws();
    let mut tables = List::new(alloc);
    push_listed(alloc, normal.parts.as_slice(), &mut tables)?;
    Ok(TraceForm {
        schema: numbered_schema(alloc, schema)?,
        normal: form_traced(alloc, normal)?,
        tables,
    })
}

#[tactic(auto, using(nq_ir::proofs::Forms::form_is, crate::proofs::Views::comps_listed))]
fn form_traced(alloc: Global, normal: &Normal) -> Result<Normal, Memory>
    ensures { IfOk result (λ made. form_tree made ≡ form_traced (form_tree normal.now)) }
{
    let comps = normal.parts.as_slice();
    let mut inner = Vec::new(alloc);
    push_bodies(comps, &mut inner)?;
    let count = most_gens(comps);
    let value = type_traced(alloc, &normal.element, inner.as_slice())?;
    Ok(Normal {
        element: with_numbers(alloc, count, value)?,
        parts: comps_traced(alloc, comps, count, inner.as_slice())?,
    })
}
