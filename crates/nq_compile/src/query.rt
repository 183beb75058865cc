// From a query to its SQL texts.
ghost use Rattle.std.specs.Prelude.{◌≡◌, IfOk, map};
ghost use Rattle.nq_model.specs.Proper.{IsProperTerm};
ghost use Rattle.nq_model.specs.QueryMeaning.{Means};
ghost use Rattle.nq_model.specs.Tables.{IsProperSchema};
ghost use Rattle.nq_model.specs.Terms.{PlacedTerm, placed, bare, term_tree};
ghost use Rattle.nq_model.specs.Types.{TypeTree, bag, type_tree};
ghost use Rattle.nq_model.specs.Typing.{IsAccepted};
ghost use Rattle.nq_model.specs.Unfolding.{Unfolds};
ghost use Rattle.nq_ir.specs.NormalForms.{normal_form};
ghost use Rattle.nq_ir.specs.Paths.{paths};
ghost use Rattle.shred_types.specs.Columns.{columns_at};
ghost use Rattle.shred_types.specs.Under.{steps_of};
ghost use Rattle.nq_compile.specs.Links.{AnswersLink};
ghost use Rattle.nq_compile.specs.Reading.{TagAndNumberRead};
ghost use Rattle.nq_compile.specs.Shreds.{Shreds};
ghost use Rattle.nq_compile.specs.Texts.{texts_of};

use crate::compiled::Compiled;
use crate::normal::compile_normal;
use normalise::normalise;
use nq_model::{Memory, Schema, Term};
use std::alloc::Global;
use unfold::unfold;

/// The SQL texts of an accepted query, one for each path of its type. They shred the query: over
/// all tables of the schema, whatever answers SQL allows to them, in any order and with ties
/// numbered in any way, those are linked, and stitching them by tag and number gives the nested
/// multiset that the query means. Fails only if memory runs out.
///
/// After Cheney, Lindley and Wadler, "Query Shredding", SIGMOD 2014.
pub fn compile(alloc: Global, schema: &Schema, term: Term) -> Result<Compiled, Memory>
    requires schema { IsProperSchema schema.now }
    requires proper { IsProperTerm (term_tree term) }
    requires accepted { (element : TypeTree)
        × IsAccepted schema.now (term_tree term) (bag element) }
    ensures result { IfOk result
        (λ compiled. (type : TypeTree) → IsAccepted schema.now (term_tree term) type
        → type_tree compiled.result ≡ type) }
    ensures paths { IfOk result
        (λ compiled. steps_of compiled.paths ≡ paths (type_tree compiled.result)) }
    ensures columns { IfOk result
        (λ compiled. compiled.columns
        ≡ map (columns_at (type_tree compiled.result)) (paths (type_tree compiled.result))) }
    ensures texts { IfOk result
        (λ compiled. (element : TypeTree) (plain : PlacedTerm)
        → IsAccepted schema.now (term_tree term) (bag element)
        → Unfolds (placed term) plain
        → compiled.texts ≡ texts_of schema.now
        (normal_form schema.now.tables element (bare plain))) }
    ensures read { IfOk result
        (λ compiled. (element : TypeTree) (plain : PlacedTerm)
        → IsAccepted schema.now (term_tree term) (bag element)
        → Unfolds (placed term) plain
        → TagAndNumberRead schema.now (normal_form schema.now.tables element (bare plain))
        compiled.texts) }
    ensures shreds { IfOk result
        (λ compiled. (element : TypeTree) → IsAccepted schema.now (term_tree term) (bag element)
        → Shreds schema.now element compiled.texts
        (λ tables value. Means tables (placed term) value)) }
    ensures linked { IfOk result
        (λ compiled. AnswersLink schema.now (type_tree compiled.result) compiled.texts) }
{
    let plain = unfold(alloc, schema, term)?;
    let normal = normalise(alloc, schema, &plain)?;
    compile_normal(alloc, schema, &normal)
}
