// From a normal form to its SQL texts.
ghost use Rattle.std.specs.Prelude.{◌≡◌, ◌<◌, ◌^◌, All, IfOk, IsTrue, length, map};
ghost use Rattle.nq_model.specs.Tables.{IsProperSchema};
ghost use Rattle.nq_model.specs.Types.{bag, type_tree};
ghost use Rattle.nq_ir.specs.Lets.{let_form_tree};
ghost use Rattle.nq_ir.specs.Paths.{paths};
ghost use Rattle.nq_ir.specs.Shredded.{shredded_tree, IsShreddedOf};
ghost use Rattle.nq_ir.specs.Trees.{form_tree};
ghost use Rattle.nq_ir.specs.WellFormed.{IsWellFormed};
ghost use Rattle.shred_types.specs.Columns.{columns_at, answer_columns};
ghost use Rattle.shred_types.specs.Under.{steps_of};
ghost use Rattle.nq_compile.specs.Links.{AnswersLink};
ghost use Rattle.nq_compile.specs.Reading.{TagAndNumberRead};
ghost use Rattle.nq_compile.specs.Shreds.{Shreds, form_means};
ghost use Rattle.nq_compile.specs.Texts.{text_of, texts_of, SpellsItself};

use crate::compiled::Compiled;
use flatten::flatten;
use let_insert::insert_lets;
use nq_ir::{LetForm, Normal, Path, Shredded};
use nq_model::{ColumnType, List, Memory, Schema, Ty, boxed};
use shred_terms::shred_all;
use shred_types::{columns_at, paths};
use sql_printer::print;
use std::alloc::Global;

/// The greatest number that a text can hold.
const NUMBERS: u64 = 9_223_372_036_854_775_807;

/// The SQL texts of a normal form, one for each path of its type. They shred the form: over all
/// tables of the schema, whatever answers SQL allows to them, those are linked, and tag and number
/// read them, so stitching them gives the form's meaning. Fails only if memory runs out.
pub fn compile_normal(alloc: Global, schema: &Schema, normal: &Normal) -> Result<Compiled, Memory>
    requires proper { IsProperSchema schema.now }
    requires well_formed { IsWellFormed schema.now.tables (form_tree normal.now) }
    ensures result { IfOk result
        (λ compiled. type_tree compiled.result ≡ bag (form_tree normal.now).element) }
    ensures paths { IfOk result
        (λ compiled. steps_of compiled.paths ≡ paths (bag (form_tree normal.now).element)) }
    ensures columns { IfOk result (λ compiled. compiled.columns
        ≡ map (columns_at (bag (form_tree normal.now).element))
        (paths (bag (form_tree normal.now).element))) }
    ensures texts { IfOk result
        (λ compiled. compiled.texts ≡ texts_of schema.now (form_tree normal.now)) }
    ensures read { IfOk result
        (λ compiled. TagAndNumberRead schema.now (form_tree normal.now) compiled.texts) }
    ensures shreds { IfOk result
        (λ compiled. Shreds schema.now (form_tree normal.now).element compiled.texts
        (form_means (form_tree normal.now))) }
    ensures linked { IfOk result
        (λ compiled. AnswersLink schema.now (type_tree compiled.result) compiled.texts) }
{
    let result = result_type(alloc, normal)?;
    let paths = paths(alloc, &result)?;
    let columns = columns_of(alloc, &result, &paths)?;
    let forms = shred_all(alloc, normal)?;
    let texts = texts_of(alloc, schema, &forms, &columns)?;
    Ok(Compiled {
        result,
        paths,
        texts,
        columns,
    })
}

// The type of the bag that a normal form means.
fn result_type(alloc: Global, normal: &Normal) -> Result<Ty, Memory>
    ensures { IfOk result (λ made. type_tree made ≡ bag (form_tree normal.now).element) }
{
    let element = normal.element.copy(alloc)?;
    Ok(Ty::Bag(boxed(alloc, element)?))
}

// The columns at each of these paths.
fn columns_of(alloc: Global, of: &Ty, paths: &List<Path>) -> Result<List<List<ColumnType>>, Memory>
    ensures { IfOk result (λ all. all ≡ map (columns_at (type_tree of.now)) (steps_of paths.now)) }
{
    let mut all = List::with_capacity(alloc, paths.len())?;
    for path in paths.as_slice() {
        all.push(columns_at(alloc, of, path)?)?;
    }
    Ok(all)
}

// The text of each of these shredded forms, whose columns are these.
#[tactic(auto, using(crate::proofs::Forms::text_rules))]
fn texts_of(
    alloc: Global,
    schema: &Schema,
    forms: &List<Shredded>,
    columns: &List<List<ColumnType>>,
) -> Result<List<List<u8>>, Memory>
    requires proper { IsProperSchema schema.now }
    requires forms { All (λ form. IsShreddedOf schema.now (shredded_tree form)) forms.now }
    requires columns { columns.now ≡ map
        (λ form. answer_columns (shredded_tree form).element) forms.now }
    ensures are { IfOk result
        (λ texts. texts ≡ map (λ form. text_of schema.now (shredded_tree form)) forms.now) }
    ensures spell { IfOk result
        (λ texts. All (λ form. SpellsItself schema.now (shredded_tree form)) forms.now) }
{
    let mut texts = List::with_capacity(alloc, forms.len())?;
    for at in 0..forms.len() {
        let text = text_of(
            alloc,
            schema,
            &forms.as_slice()[at],
            columns.as_slice()[at].as_slice(),
        )?;
        texts.push(text)?;
    }
    Ok(texts)
}

// Whether there are numbers for all lets and columns.
fn has_numbers(form: &LetForm, columns: &[ColumnType]) -> bool
    ensures { IsTrue result → (length (let_form_tree form.now).lets < 2 ^ 63)
        × (length columns.now < 2 ^ 63) }
{
    form.lets.len() as u64 <= NUMBERS && columns.len() as u64 <= NUMBERS
}

// The text of a shredded form, whose columns are these.
fn text_of(
    alloc: Global,
    schema: &Schema,
    form: &Shredded,
    columns: &[ColumnType],
) -> Result<List<u8>, Memory>
    requires proper { IsProperSchema schema.now }
    requires form { IsShreddedOf schema.now (shredded_tree form.now) }
    requires columns { columns.now ≡ answer_columns (shredded_tree form.now).element }
    ensures is { IfOk result (λ text. text ≡ text_of schema.now (shredded_tree form.now)) }
    ensures spells { IfOk result (λ text. SpellsItself schema.now (shredded_tree form.now)) }
{
    let lets = insert_lets(alloc, form)?;
    // No memory holds more lets or columns than there are numbers.
    if !has_numbers(&lets, columns) {
        return Err(Memory);
    }
    let tree = flatten(alloc, schema, &lets, columns)?;
    let text = print(alloc, &tree)?;
    Ok(text)
}
