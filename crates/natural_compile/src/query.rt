// From a query to its natural texts, printed.
ghost use Rattle.std.specs.Prelude.{◌≡◌, IfErr, IfOk, None, map};
ghost use Rattle.nq_compile.specs.Shreds.{IsScopedText, StitchTo};
ghost use Rattle.nq_ir.specs.Meanings.{EachBoth};
ghost use Rattle.nq_ir.specs.Parts.{bags, element_types};
ghost use Rattle.nq_ir.specs.Paths.{paths};
ghost use Rattle.nq_model.specs.Numberings.{count_from};
ghost use Rattle.nq_model.specs.Proper.{IsProperTerm};
ghost use Rattle.nq_model.specs.QueryMeaning.{Means};
ghost use Rattle.nq_model.specs.Tables.{IsProperSchema};
ghost use Rattle.nq_model.specs.Terms.{placed, term_tree};
ghost use Rattle.nq_model.specs.Types.{TypeTree, bag, type_tree};
ghost use Rattle.nq_model.specs.Typing.{IsAccepted};
ghost use Rattle.shred_types.specs.Under.{steps_of};
ghost use Rattle.natural_keys.specs.NaturalKeys.{natural_keys};
ghost use Rattle.natural_index.specs.Naming.{NoKeySays, no_key};
ghost use Rattle.natural_compile.specs.Texts.{OfForm, keyed_texts};

use crate::compiled::KeyedTexts;
use crate::normal::form_by_keys;
use natural_index::NaturalFault;
use natural_keys::NaturalKeys;
use normalise::normalise;
use nq_model::{Schema, Term};
use std::alloc::Global;
use stitcher::IndexScheme;
use unfold::unfold;

/// The SQL texts of an accepted query in which a bag is named by keys, one for each path of its
/// type, without WITH and without ROW_NUMBER. Over all tables of the schema, whatever answers SQL
/// allows to them, stitching those by the keys gives the nested multiset that the query means.
///
/// `NoKey` comes exactly where the rows of a table that has no key would name a bag, and gives the
/// table of the generator with the least number of which that is so, in the normal form of the
/// plain term to which the query unfolds. `Memory` comes only if memory runs out.
///
/// After the natural indexes of Cheney, Lindley and Wadler, "Query Shredding", SIGMOD 2014.
pub fn compile_by_keys(
    alloc: Global,
    schema: &Schema,
    term: Term,
) -> Result<KeyedTexts, NaturalFault>
    requires schema { IsProperSchema schema.now }
    requires proper { IsProperTerm (term_tree term) }
    requires accepted { (element : TypeTree)
        × IsAccepted schema.now (term_tree term) (bag element) }
    ensures named { IfOk result (λ compiled. OfForm schema.now (placed term)
        (λ form. no_key schema.now.tables form ≡ None)) }
    ensures fault { IfErr result (λ fault. OfForm schema.now (placed term)
        (λ form. NoKeySays (no_key schema.now.tables form) fault)) }
    ensures result { IfOk result
        (λ compiled. (type : TypeTree) → IsAccepted schema.now (term_tree term) type
        → type_tree compiled.result ≡ type) }
    ensures paths { IfOk result
        (λ compiled. steps_of compiled.paths ≡ paths (type_tree compiled.result)) }
    ensures keys { IfOk result (λ compiled. OfForm schema.now (placed term)
        (λ form. ⟦<NaturalKeys as IndexScheme>⟧.scheme compiled.keys
        ≡ natural_keys schema.now.tables form)) }
    ensures of_type { IfOk result
        (λ compiled. (⟦<NaturalKeys as IndexScheme>⟧.scheme compiled.keys).elements
        ≡ element_types (type_tree compiled.result)) }
    ensures columns { IfOk result
        (λ compiled. compiled.columns
        ≡ map (⟦<NaturalKeys as IndexScheme>⟧.scheme compiled.keys).columns
        (count_from 0 (bags (type_tree compiled.result)))) }
    ensures texts { IfOk result (λ compiled. OfForm schema.now (placed term)
        (λ form. compiled.texts ≡ keyed_texts schema.now.tables form)) }
    ensures scoped { IfOk result
        (λ compiled. EachBoth (IsScopedText schema.now) compiled.columns compiled.texts) }
    ensures stitched { IfOk result
        (λ compiled. (element : TypeTree) → IsAccepted schema.now (term_tree term) (bag element)
        → StitchTo (⟦<NaturalKeys as IndexScheme>⟧.scheme compiled.keys)
        schema.now element compiled.texts
        (λ tables value. Means tables (placed term) value)) }
{
    let plain = unfold(alloc, schema, term)?;
    let normal = normalise(alloc, schema, &plain)?;
    form_by_keys(alloc, schema, &normal)
}
