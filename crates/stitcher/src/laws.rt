// Laws of stitching, each on a function that does nothing.
ghost use Rattle.std.specs.Prelude.{◌↔◌, List};
ghost use Rattle.nq_model.specs.Databases.{database};
ghost use Rattle.nq_model.specs.SchemaTables.{AreTablesOf};
ghost use Rattle.nq_model.specs.Tables.{IsProperSchema};
ghost use Rattle.nq_model.specs.Types.{TypeTree, bag};
ghost use Rattle.nq_model.specs.Values.{Same};
ghost use Rattle.nq_model.specs.declared.table.Schema.{Schema};
ghost use Rattle.nq_model.specs.declared.table.Cell.{Cell};
ghost use Rattle.nq_ir.specs.Trees.{FormTree};
ghost use Rattle.nq_ir.specs.Meanings.{Tables, rows_in, form_meaning};
ghost use Rattle.nq_ir.specs.Lets.{FlatRow, AllGive};
ghost use Rattle.nq_ir.specs.Parts.{element_types};
ghost use Rattle.nq_ir.specs.WellFormed.{IsWellFormed, column_names};
ghost use Rattle.stitcher.specs.Schemes.{AnswerRows, Reads, stitched};
ghost use Rattle.stitcher.specs.FlatNumbers.{flat_numbers, AreLaidOut};
ghost use Rattle.stitcher.specs.Linked.{IsLinked, HasLinks, homes};

use crate::scheme::IndexScheme;

/// Where a scheme reads answers for a well-formed form and tables, stitching them gives the same
/// nested multiset as the form means over those tables.
pub fn reading_law<S: IndexScheme>()
    ensures { (scheme : S) (schema : Schema) (form : FormTree) (ts : Tables) (ans : List AnswerRows)
        → IsWellFormed schema.tables form → Reads (S.scheme scheme) ans form ts
        → Same (stitched (S.scheme scheme) form.element ans) (form_meaning ts form) }
{}

/// Tag and number read all answers that the let forms of a well-formed form allow, in whatever
/// order their rows come and however each text numbers its ties. So stitching such answers gives
/// the form's meaning.
pub fn flat_laws()
    ensures read { (schema : Schema) (form : FormTree) (tables : List (List (List Cell)))
        (rows : List (List FlatRow)) (ans : List AnswerRows)
        → IsProperSchema schema → IsWellFormed schema.tables form → AreTablesOf schema.tables tables
        → AllGive (column_names schema.tables) (rows_in (database schema.tables tables)) form rows
        → AreLaidOut (element_types (bag form.element)) rows ans
        → Reads (flat_numbers (element_types (bag form.element))) ans form
        (rows_in (database schema.tables tables)) }
    ensures meaning { (schema : Schema) (form : FormTree) (tables : List (List (List Cell)))
        (rows : List (List FlatRow)) (ans : List AnswerRows)
        → IsProperSchema schema → IsWellFormed schema.tables form → AreTablesOf schema.tables tables
        → AllGive (column_names schema.tables) (rows_in (database schema.tables tables)) form rows
        → AreLaidOut (element_types (bag form.element)) rows ans
        → Same (stitched (flat_numbers (element_types (bag form.element))) form.element ans)
        (form_meaning (rows_in (database schema.tables tables)) form) }
{}

/// Answers are linked, which is to say without fault, exactly where each row stands in a bag that a
/// row of the enclosing answer gives, and no two rows of an answer give one inner bag by the same
/// index.
pub fn linked_law()
    ensures { (type : TypeTree) (ans : List AnswerRows)
        → IsLinked type ans ↔ HasLinks (flat_numbers (element_types type)) (homes type) ans }
{}
