// From a normal form to its natural texts, printed.
ghost use Rattle.std.specs.Prelude.{◌≡◌, ◌≤◌, All, IfErr, IfOk, None, length, map};
ghost use Rattle.nq_compile.specs.Reading.{SchemeReads};
ghost use Rattle.nq_compile.specs.Shreds.{IsScopedText};
ghost use Rattle.nq_ir.specs.Meanings.{EachBoth};
ghost use Rattle.nq_ir.specs.Parts.{bags};
ghost use Rattle.nq_ir.specs.Paths.{paths};
ghost use Rattle.nq_ir.specs.Trees.{form_tree};
ghost use Rattle.nq_ir.specs.WellFormed.{IsWellFormed};
ghost use Rattle.nq_model.specs.Numberings.{count_from};
ghost use Rattle.nq_model.specs.Tables.{IsProperSchema};
ghost use Rattle.nq_model.specs.Types.{bag, type_tree};
ghost use Rattle.shred_types.specs.Under.{steps_of};
ghost use Rattle.sql_profile.specs.Printed.{printed};
ghost use Rattle.sql_profile.specs.Spellable.{IsSpellable};
ghost use Rattle.sql_profile.specs.Trees.{sql_tree};
ghost use Rattle.natural_keys.specs.NaturalKeys.{natural_keys};
ghost use Rattle.natural_index.specs.Naming.{NoKeySays, no_key};
ghost use Rattle.natural_compile.specs.Texts.{SpellsTree, keyed_texts};

use crate::compiled::KeyedTexts;
use natural_index::{NaturalFault, natural_texts};
use natural_keys::NaturalKeys;
use nq_ir::Normal;
use nq_model::{ColumnType, List, Memory, Schema, Ty, boxed};
use shred_types::paths;
use sql_printer::print;
use sql_profile::SqlText;
use std::alloc::Global;
use stitcher::IndexScheme;

/// The natural texts of a normal form, printed, one for each path of its type. Over all tables of
/// the schema, whatever answers SQL allows to them, the keys read them for the form.
pub fn form_by_keys(
    alloc: Global,
    schema: &Schema,
    normal: &Normal,
) -> Result<KeyedTexts, NaturalFault>
    requires proper { IsProperSchema schema.now }
    requires well_formed { IsWellFormed schema.now.tables (form_tree normal.now) }
    ensures named { IfOk result
        (λ compiled. no_key schema.now.tables (form_tree normal.now) ≡ None) }
    ensures fault { IfErr result
        (NoKeySays (no_key schema.now.tables (form_tree normal.now))) }
    ensures result { IfOk result
        (λ compiled. type_tree compiled.result ≡ bag (form_tree normal.now).element) }
    ensures paths { IfOk result
        (λ compiled. steps_of compiled.paths ≡ paths (bag (form_tree normal.now).element)) }
    ensures keys { IfOk result
        (λ compiled. ⟦<NaturalKeys as IndexScheme>⟧.scheme compiled.keys
        ≡ natural_keys schema.now.tables (form_tree normal.now)) }
    ensures columns { IfOk result
        (λ compiled. compiled.columns
        ≡ map (natural_keys schema.now.tables (form_tree normal.now)).columns
        (count_from 0 (bags (bag (form_tree normal.now).element)))) }
    ensures texts { IfOk result
        (λ compiled. compiled.texts ≡ keyed_texts schema.now.tables (form_tree normal.now)) }
    ensures scoped { IfOk result
        (λ compiled. EachBoth (IsScopedText schema.now) compiled.columns compiled.texts) }
    ensures read { IfOk result
        (λ compiled. SchemeReads (natural_keys schema.now.tables (form_tree normal.now))
        schema.now (form_tree normal.now) compiled.texts) }
{
    let natural = natural_texts(alloc, schema, normal)?;
    let result = result_type(alloc, normal)?;
    let paths = paths(alloc, &result)?;
    let texts = printed_texts(alloc, natural.texts.as_slice())?;
    let columns = columns_of(alloc, &natural.keys, paths.len())?;
    Ok(KeyedTexts {
        result,
        paths,
        keys: natural.keys,
        texts,
        columns,
    })
}

// The type of the bag that a normal form means.
fn result_type(alloc: Global, normal: &Normal) -> Result<Ty, Memory>
    ensures { IfOk result (λ made. type_tree made ≡ bag (form_tree normal.now).element) }
{
    let element = normal.element.copy(alloc)?;
    Ok(Ty::Bag(boxed(alloc, element)?))
}

// Texts, printed. Each spells its tree.
fn printed_texts(alloc: Global, texts: &[SqlText]) -> Result<List<List<u8>>, Memory>
    requires { All IsSpellable (map sql_tree texts.now) }
    ensures are { IfOk result (λ all. all ≡ map printed (map sql_tree texts.now)) }
    ensures spell { IfOk result (λ all. All SpellsTree (map sql_tree texts.now)) }
{
    let mut all = List::with_capacity(alloc, texts.len())?;
    for text in texts {
        all.push(print(alloc, text)?)?;
    }
    Ok(all)
}

// The columns that a scheme has at the first paths, as many as this.
fn columns_of<S: IndexScheme>(
    alloc: Global,
    scheme: &S,
    count: usize,
) -> Result<List<List<ColumnType>>, Memory>
    requires { count ≤ length (S.scheme scheme.now).elements }
    ensures { IfOk result (λ all. all
        ≡ map (S.scheme scheme.now).columns (count_from 0 count)) }
{
    let mut all = List::with_capacity(alloc, count)?;
    for path in 0..count {
        all.push(scheme.columns(alloc, path as u64)?)?;
    }
    Ok(all)
}
