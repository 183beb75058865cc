// From a query to the texts of its traced form.
ghost use Rattle.std.specs.Prelude.{IfOk};
ghost use Rattle.nq_ir.specs.NormalForms.{normal_form};
ghost use Rattle.nq_model.specs.Proper.{IsProperTerm};
ghost use Rattle.nq_model.specs.Tables.{IsProperSchema};
ghost use Rattle.nq_model.specs.Terms.{PlacedTerm, bare, placed, term_tree};
ghost use Rattle.nq_model.specs.Types.{TypeTree, bag};
ghost use Rattle.nq_model.specs.Typing.{IsAccepted};
ghost use Rattle.nq_model.specs.Unfolding.{Unfolds};
ghost use Rattle.traced_meaning.specs.NumberedTables.{HasNoNumbers};
ghost use Rattle.lineage_compile.specs.Texts.{IsLineage};

use crate::compiled::TracedTexts;
use lineage::{lineage_laws, trace_form};
use normalise::normalise;
use nq_compile::compile_normal;
use nq_model::{Memory, Schema, Term};
use std::alloc::Global;
use traced_meaning::trace_laws;
use unfold::unfold;

/// The SQL texts of the lineage of an accepted query, over a schema with no column named `#`. They
/// are those of the traced form of its normal form, over the schema in which each table has a last
/// column more, for the number of a row. Over all tables of the schema, whatever answers SQL allows
/// to them over the tables with numbers, what those stitch to tells the traced meaning of the plain
/// term to which the query unfolds. Fails only if memory runs out.
///
/// After Fehrenbach and Cheney, "Language-integrated provenance", PPDP 2016, and Cheney, Lindley
/// and Wadler, "Query Shredding", SIGMOD 2014.
pub fn compile_lineage(alloc: Global, schema: &Schema, term: Term) -> Result<TracedTexts, Memory>
    requires schema { IsProperSchema schema.now }
    requires free { HasNoNumbers schema.now }
    requires proper { IsProperTerm (term_tree term) }
    requires accepted { (element : TypeTree)
        × IsAccepted schema.now (term_tree term) (bag element) }
    ensures { IfOk result
        (λ made. (element : TypeTree) (plain : PlacedTerm)
        → IsAccepted schema.now (term_tree term) (bag element)
        → Unfolds (placed term) plain
        → IsLineage schema.now (normal_form schema.now.tables element (bare plain)) (bare plain)
        made) }
{
    lineage_laws();
    trace_laws();
    let plain = unfold(alloc, schema, term)?;
    let normal = normalise(alloc, schema, &plain)?;
    let form = trace_form(alloc, schema, &normal)?;
    let compiled = compile_normal(alloc, &form.schema, &form.normal)?;
    Ok(TracedTexts {
        form,
        result: compiled.result,
        texts: compiled.texts,
        columns: compiled.columns,
    })
}
