// Laws of normal forms and of their strands, each on a function that does nothing.
ghost use Rattle.std.specs.List.{AllByRecursion as Each};
ghost use Rattle.nq_model.specs.NamedRows.{Label};
ghost use Rattle.nq_ir.specs.Meanings.{EachBoth};
ghost use Rattle.nq_ir.specs.Parts.{element_types};
ghost use Rattle.nq_ir.specs.Spots.{strands};
ghost use Rattle.nq_ir.specs.Trees.{FormTree};
ghost use Rattle.nq_ir.specs.TypedStrands.{IsTypedStrand};
ghost use Rattle.nq_ir.specs.Words.{FormWords, SchemaWords, TermWords};
ghost use Rattle.std.specs.Prelude.{◌≡◌, ◌<◌, ◌^◌, Bool, true, List, [], length};
ghost use Rattle.nq_model.specs.Databases.{database};
ghost use Rattle.nq_model.specs.Meaning.{meaning};
ghost use Rattle.nq_model.specs.Numberings.{count_from};
ghost use Rattle.nq_model.specs.Proper.{IsClosed, IsPlainTerm, IsProperTerm};
ghost use Rattle.nq_model.specs.SchemaTables.{AreTablesOf};
ghost use Rattle.nq_model.specs.Tables.{IsProperSchema};
ghost use Rattle.nq_model.specs.Terms.{TermTree};
ghost use Rattle.nq_model.specs.Types.{TypeTree, bag};
ghost use Rattle.nq_model.specs.Typing.{HasType};
ghost use Rattle.nq_model.specs.Values.{Same};
ghost use Rattle.nq_model.specs.declared.table.Schema.{Schema};
ghost use Rattle.nq_model.specs.declared.table.Cell.{Cell};
ghost use Rattle.nq_ir.specs.Meanings.{form_meaning, rows_in};
ghost use Rattle.nq_ir.specs.NormalForms.{normal_form};
ghost use Rattle.nq_ir.specs.WellFormed.{IsWellFormed, comps_numbers, comps_tags};

/// The normal form of a closed, plain and proper term of bag type over a proper schema is well
/// formed where it has fewer than 2^63 tags and generators, and means what the term means over all
/// tables of the schema. What holds of every label, table and column of the term and of the schema
/// holds of those of the form. The tags of every normal form are 1, 2 and so on in pre-order, and
/// so are its generator numbers in the order of the printed text.
pub fn normal_form_laws()
    ensures well_formed { (schema : Schema) (element : TypeTree) (term : TermTree)
        → IsProperSchema schema
        → IsPlainTerm term → IsProperTerm term → IsClosed term
        → HasType schema [] term (bag element)
        → length (comps_tags (normal_form schema.tables element term).comps) < 2 ^ 63
        → length (comps_numbers (normal_form schema.tables element term).comps) < 2 ^ 63
        → IsWellFormed schema.tables (normal_form schema.tables element term) }
    ensures meaning { (schema : Schema) (element : TypeTree) (term : TermTree)
        → IsProperSchema schema
        → IsPlainTerm term → IsProperTerm term → IsClosed term
        → HasType schema [] term (bag element)
        → (tables : List (List (List Cell))) → AreTablesOf schema.tables tables
        → Same (meaning (database schema.tables tables) [] term)
        (form_meaning (rows_in (database schema.tables tables))
        (normal_form schema.tables element term)) }
    ensures words { (holds : Label → Bool) (schema : Schema) (element : TypeTree) (term : TermTree)
        → IsProperSchema schema
        → IsPlainTerm term → IsProperTerm term → IsClosed term
        → HasType schema [] term (bag element)
        → SchemaWords (λ l. holds l ≡ true) schema.tables → TermWords (λ l. holds l ≡ true) term
        → FormWords (λ l. holds l ≡ true) (normal_form schema.tables element term) }
    ensures tags { (schema : Schema) (element : TypeTree) (term : TermTree)
        → let tags = comps_tags (normal_form schema.tables element term).comps in tags
        ≡ count_from 1 (length tags) }
    ensures numbers { (schema : Schema) (element : TypeTree) (term : TermTree)
        → let numbers = comps_numbers (normal_form schema.tables element term).comps in numbers
        ≡ count_from 1 (length numbers) }
{}

/// The strands of a well-formed form, path by path, are typed by the generators in scope, their
/// shapes with the type of the elements at the path.
pub fn strand_laws()
    ensures typed { (schema : Schema) (form : FormTree) → IsWellFormed schema.tables form
        → EachBoth (λ element here. Each (IsTypedStrand schema.tables element) here)
        (element_types (bag form.element)) (strands form.element form.comps) }
{}
