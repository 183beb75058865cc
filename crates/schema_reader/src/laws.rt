// Laws of what a schema text spells, on a function that does nothing.
ghost use Rattle.std.specs.Prelude.{◌≡◌, ℕ, List, ◌⊎◌};
ghost use Rattle.nq_model.specs.SchemaTexts.{Fault, HasFault, Spells};
ghost use Rattle.nq_model.specs.Tables.{IsProperSchema};
ghost use Rattle.nq_model.specs.declared.table.Schema.{Schema};
ghost use Rattle.schema_reader.specs.Words.{HaveQueryWords};

/// Each text either spells one schema, which is proper and whose names a query can spell, or has
/// one fault at one place.
pub fn schema_laws()
    ensures some { (text : List ℕ)
        → ((schema : Schema) × Spells text schema)
        ⊎ ((f : Fault) × (place : ℕ) × HasFault text f place) }
    ensures not_both { (text : List ℕ) (schema : Schema) (f : Fault) (place : ℕ)
        → Spells text schema → HasFault text f place → ⊥ }
    ensures one_schema { (text : List ℕ) (schema other : Schema) → Spells text schema
        → Spells text other → schema ≡ other }
    ensures one_fault { (text : List ℕ) (f g : Fault) (place other : ℕ) → HasFault text f place
        → HasFault text g other
        → (f ≡ g) × (place ≡ other) }
    ensures proper { (text : List ℕ) (schema : Schema) → Spells text schema
        → IsProperSchema schema }
    ensures words { (text : List ℕ) (schema : Schema) → Spells text schema
        → HaveQueryWords schema }
{}
