// When a normal form can be spelled, on a function that does nothing.
ghost use Rattle.std.specs.Prelude.{◌≡◌, Bool, true};
ghost use Rattle.nq_model.specs.NamedRows.{Label};
ghost use Rattle.nq_model.specs.Proper.{IsProperTerm, IsQueryWord};
ghost use Rattle.nq_model.specs.Terms.{TermTree};
ghost use Rattle.nq_model.specs.declared.table.Schema.{Schema};
ghost use Rattle.nq_ir.specs.Trees.{FormTree};
ghost use Rattle.nq_ir.specs.WellFormed.{IsWellFormed};
ghost use Rattle.nq_ir.specs.Words.{FormWords, SchemaWords, TermWords};
ghost use Rattle.normal_printer.specs.Spellable.{IsSpellable};

/// A form that is well formed over a schema of words can be spelled where it has no words but those
/// of the schema and of a proper term, as its normal form has.
pub fn printing_laws()
    ensures { (schema : Schema) (term : TermTree) (form : FormTree)
        → SchemaWords IsQueryWord schema.tables → IsProperTerm term
        → IsWellFormed schema.tables form
        → ((holds : Label → Bool) → SchemaWords (λ l. holds l ≡ true) schema.tables → TermWords
        (λ l. holds l ≡ true) term → FormWords (λ l. holds l ≡ true) form)
        → IsSpellable form }
{}
