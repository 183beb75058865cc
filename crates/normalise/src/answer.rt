// The normal form of a whole query.
ghost use Rattle.std.specs.Prelude.{◌≡◌, Bool, true, IfOk, List, []};
ghost use Rattle.nq_model.specs.Databases.{database};
ghost use Rattle.nq_model.specs.Meaning.{meaning};
ghost use Rattle.nq_model.specs.NamedRows.{Label};
ghost use Rattle.nq_model.specs.Proper.{IsClosed, IsPlainTerm, IsProperTerm};
ghost use Rattle.nq_model.specs.SchemaTables.{AreTablesOf};
ghost use Rattle.nq_model.specs.Tables.{IsProperSchema};
ghost use Rattle.nq_model.specs.Terms.{term_tree};
ghost use Rattle.nq_model.specs.Types.{TypeTree, bag};
ghost use Rattle.nq_model.specs.Typing.{HasType};
ghost use Rattle.nq_model.specs.Values.{Same};
ghost use Rattle.nq_model.specs.declared.table.Cell.{Cell};
ghost use Rattle.nq_ir.specs.Meanings.{form_meaning, rows_in};
ghost use Rattle.nq_ir.specs.NormalForms.{normal_form};
ghost use Rattle.nq_ir.specs.Trees.{form_tree};
ghost use Rattle.nq_ir.specs.WellFormed.{IsWellFormed};
ghost use Rattle.nq_ir.specs.Words.{FormWords, SchemaWords, TermWords};

use crate::number_body::number_form;
use crate::scope::Scope;
use crate::walk::comps;
use nq_ir::Normal;
use nq_model::{Memory, Schema, Term};
use nq_types::check;
use std::alloc::Global;

/// The normal form of a closed, plain and proper term of bag type over a proper schema.
///
/// Want of memory is also the answer where a body that is built is deeper than the limit, since
/// what comes after recurses over it, and where the form has 2^63 tags or generators.
///
/// After Cheney, Lindley and Wadler, "Query Shredding", SIGMOD 2014, and Cooper, "The
/// script-writer's dream", DBPL 2009.
pub fn normalise(alloc: Global, schema: &Schema, term: &Term) -> Result<Normal, Memory>
    requires proper { IsProperSchema schema.now × IsPlainTerm (term_tree term.now)
        × IsProperTerm (term_tree term.now) × IsClosed (term_tree term.now) }
    requires typed { (element : TypeTree)
        × HasType schema.now [] (term_tree term.now) (bag element) }
    ensures form { IfOk result
        (λ n. form_tree n ≡ normal_form schema.now.tables (form_tree n).element
        (term_tree term.now)) }
    ensures of_type { IfOk result
        (λ n. HasType schema.now [] (term_tree term.now) (bag (form_tree n).element)) }
    ensures well_formed { IfOk result (λ n. IsWellFormed schema.now.tables (form_tree n)) }
    ensures meaning { IfOk result
        (λ n. (tables : List (List (List Cell))) → AreTablesOf schema.now.tables tables
        → Same (meaning (database schema.now.tables tables) [] (term_tree term.now))
        (form_meaning (rows_in (database schema.now.tables tables)) (form_tree n))) }
    ensures words { IfOk result
        (λ n. (holds : Label → Bool) → SchemaWords (λ l. holds l ≡ true) schema.now.tables
        → TermWords (λ l. holds l ≡ true) (term_tree term.now) → FormWords
        (λ l. holds l ≡ true) (form_tree n)) }
{
    let ty = match check(alloc, schema, term) {
        Ok(ty) => ty,
        Err(_) => return Err(Memory),
    };
    let comps = comps(alloc, schema, term, &Scope::Top)?;
    number_form(alloc, comps.as_slice(), &ty)
}
