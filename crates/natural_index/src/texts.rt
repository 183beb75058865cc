// From a normal form to its natural texts.
ghost use Rattle.std.specs.Prelude.{◌≡◌, ◌<◌, ℕ, All, IfErr, IfOk, IsTrue, None, length, map};
ghost use Rattle.nq_model.specs.Numberings.{count_from};
ghost use Rattle.nq_model.specs.Tables.{IsProperSchema};
ghost use Rattle.nq_model.specs.Types.{bag, type_tree};
ghost use Rattle.nq_ir.specs.Trees.{form_tree};
ghost use Rattle.nq_ir.specs.WellFormed.{IsWellFormed};
ghost use Rattle.sql_profile.specs.Spellable.{IsSpellable};
ghost use Rattle.sql_profile.specs.Trees.{sql_tree};
ghost use Rattle.stitcher.specs.Schemes.{element_of};
ghost use Rattle.natural_keys.specs.Layouts.{layout_at};
ghost use Rattle.natural_keys.specs.NaturalKeys.{element_columns, index_columns, natural_keys};
ghost use Rattle.natural_index.specs.Naming.{no_key, NoKeySays};
ghost use Rattle.natural_index.specs.Reading.{AreScopedTrees, KeysRead};
ghost use Rattle.natural_index.specs.Trees.{HasNumbers, elements_of, natural_trees, parts_of, tree_in};

use crate::fault::NaturalFault;
use crate::keyless::least_keyless;
use crate::select::text_at;
use natural_keys::{Layout, NaturalKeys, element_columns, inner_layouts, outer_layouts};
use nq_ir::{Normal, Shredded};
use nq_model::{ColumnType, List, Memory, Schema, Ty, boxed};
use shred_terms::shred_all;
use sql_profile::SqlText;
use std::alloc::Global;
use stitcher::IndexScheme;

/// The greatest number that a text can hold.
const NUMBERS: u64 = 9_223_372_036_854_775_807;

/// The natural texts of a normal form, one for each path of its type in path order, and the scheme
/// that reads their answers.
#[derive(Drop)]
pub struct Natural {
    pub keys: NaturalKeys,
    pub texts: List<SqlText>,
}

/// The SQL texts of a normal form in which a bag is named by the keys of the rows at which its
/// comprehension stands: one for each path of its type, in path order, without WITH and without
/// ROW_NUMBER. Over all tables of the schema, whatever answers SQL allows to them, the scheme reads
/// them, so stitching them by it gives the form's meaning.
///
/// Only generators of comprehensions whose elements hold a bag need a key, for only their rows
/// are named. `NoKey` comes exactly where the table of one of them has none, and gives that of
/// the one with the least number; `Memory` comes only if memory runs out.
///
/// After the natural indexes of Cheney, Lindley and Wadler, "Query Shredding", SIGMOD 2014.
pub fn natural_texts(
    alloc: Global,
    schema: &Schema,
    normal: &Normal,
) -> Result<Natural, NaturalFault>
    requires proper { IsProperSchema schema.now }
    requires well_formed { IsWellFormed schema.now.tables (form_tree normal.now) }
    ensures named { IfOk result
        (λ natural. no_key schema.now.tables (form_tree normal.now) ≡ None) }
    ensures fault { IfErr result
        (NoKeySays (no_key schema.now.tables (form_tree normal.now))) }
    ensures keys { IfOk result
        (λ natural. ⟦<NaturalKeys as IndexScheme>⟧.scheme natural.keys
        ≡ natural_keys schema.now.tables (form_tree normal.now)) }
    ensures texts { IfOk result
        (λ natural. map sql_tree natural.texts
        ≡ natural_trees schema.now.tables (form_tree normal.now)) }
    ensures spellable { IfOk result (λ natural. All IsSpellable (map sql_tree natural.texts)) }
    ensures scoped { IfOk result
        (λ natural. AreScopedTrees schema.now (form_tree normal.now)
        (map sql_tree natural.texts)) }
    ensures read { IfOk result
        (λ natural. KeysRead schema.now (form_tree normal.now) (map sql_tree natural.texts)) }
{
    let result = result_type(alloc, normal)?;
    let forms = shred_all(alloc, normal)?;
    if let Some(generator) = least_keyless(schema, forms.as_slice()) {
        let table = generator.table.copy(alloc)?;
        return Err(NaturalFault::NoKey { table });
    }
    let inners = inner_layouts(alloc, schema, forms.as_slice())?;
    let outers = outer_layouts(alloc, &result, inners.as_slice())?;
    let keys = NaturalKeys::new(alloc, &result, outers.as_slice(), inners.as_slice())?;
    let texts = texts_of(
        alloc,
        schema,
        outers.as_slice(),
        inners.as_slice(),
        forms.as_slice(),
    )?;
    Ok(Natural { keys, texts })
}

// The type of the bag that a normal form means.
fn result_type(alloc: Global, normal: &Normal) -> Result<Ty, Memory>
    ensures { IfOk result (λ made. type_tree made ≡ bag (form_tree normal.now).element) }
{
    let element = normal.element.copy(alloc)?;
    Ok(Ty::Bag(boxed(alloc, element)?))
}

// Whether there are numbers for all columns at a path.
fn has_numbers(outer: Layout, columns: &[ColumnType]) -> bool
    ensures { IsTrue result → HasNumbers outer columns.now }
{
    outer.ints <= NUMBERS
        && outer.bools <= NUMBERS
        && outer.texts <= NUMBERS
        && columns.len() as u64 <= NUMBERS
}

// The text at each path.
fn texts_of(
    alloc: Global,
    schema: &Schema,
    outers: &[Layout],
    inners: &[Layout],
    forms: &[Shredded],
) -> Result<List<SqlText>, Memory>
    requires outers { length outers.now ≡ length forms.now }
    requires inners { length inners.now ≡ length forms.now }
    ensures are { IfOk result (λ texts. map sql_tree texts
        ≡ map (tree_in schema.now.tables outers.now inners.now (elements_of forms.now)
        (parts_of forms.now)) (count_from 0 (length forms.now))) }
    ensures numbered { IfOk result (λ texts. (q : ℕ) → q < length forms.now
        → HasNumbers (layout_at outers.now q)
        (element_columns (index_columns (layout_at inners.now q))
        (element_of (elements_of forms.now) q))) }
{
    let mut texts = List::with_capacity(alloc, forms.len())?;
    for at in 0..forms.len() {
        let columns = element_columns(alloc, inners[at], &forms[at].element)?;
        // No memory holds more columns than there are numbers.
        if !has_numbers(outers[at], columns.as_slice()) {
            return Err(Memory);
        }
        texts.push(text_at(alloc, schema, outers[at], inners[at], &forms[at])?)?;
    }
    Ok(texts)
}
