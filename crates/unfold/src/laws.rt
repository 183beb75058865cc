// The laws of unfolding, each on a function that does nothing.
ghost use Rattle.nq_model.specs.Databases.{FilledTable, database};
ghost use Rattle.nq_model.specs.Proper.{IsProperTerm};
ghost use Rattle.nq_model.specs.QueryMeaning.{Means};
ghost use Rattle.nq_model.specs.SchemaTables.{AreTablesOf};
ghost use Rattle.nq_model.specs.Tables.{IsProperSchema};
ghost use Rattle.nq_model.specs.Types.{TypeTree};
ghost use Rattle.nq_model.specs.Terms.{PlacedTerm, bare};
ghost use Rattle.nq_model.specs.ValueTypes.{IsOfType};
ghost use Rattle.nq_model.specs.Values.{Nested, IsProper};
ghost use Rattle.nq_model.specs.declared.table.Cell.{Cell};
ghost use Rattle.std.specs.Prelude.{◌≡◌, List, Some, None};
ghost use Rattle.nq_model.specs.Unfolding.{Unfolds, step};
ghost use Rattle.nq_model.specs.Typing.{IsAccepted};
ghost use Rattle.nq_model.specs.declared.table.Schema.{Schema};
ghost use Rattle.unfold.specs.Contractions.{Contracts, Contractions};
ghost use Rattle.unfold.specs.Unfolded.{IsUnfolding};

/// The steps of every accepted term end, in a plain term of the same type.
pub fn unfolding_ends()
    ensures { (schema : Schema) (t : PlacedTerm) (a : TypeTree) → IsAccepted schema (bare t) a
        → (u : PlacedTerm) × IsUnfolding schema t u }
{}

/// Each step contracts a node, and where no step goes on no node is contractible. Whatever order
/// nodes are contracted in, and wherever they stand, the terms that come of it meet again, and what
/// is left where no node is contractible is the term's unfolding, places included.
pub fn unfolding_is_confluent()
    ensures steps { (t u : PlacedTerm) → step t ≡ Some u → Contracts t u }
    ensures ends { (t u : PlacedTerm) → step t ≡ None → Contracts t u → ⊥ }
    ensures meets { (t u v : PlacedTerm) → Contractions t u → Contractions t v
        → (w : PlacedTerm) × Contractions u w × Contractions v w }
    ensures one { (t u v : PlacedTerm) → Unfolds t u → Contractions t v → step v ≡ None → v ≡ u }
{}

/// An accepted query means one value, and no other, over any tables. Over tables of a proper schema
/// the value of a proper query is of the query's type, and its labels rise.
pub fn query_meanings()
    ensures one { (schema : Schema) (t : PlacedTerm) (a : TypeTree) → IsAccepted schema (bare t) a
        → (tables : List FilledTable)
        → (v : Nested) × Means tables t v × ((w : Nested) → Means tables t w → w ≡ v) }
    ensures typed { (schema : Schema) (t : PlacedTerm) (a : TypeTree) → IsProperSchema schema
        → IsProperTerm (bare t) → IsAccepted schema (bare t) a
        → (tables : List (List (List Cell))) → AreTablesOf schema.tables tables
        → (v : Nested) → Means (database schema.tables tables) t v → IsOfType a v × IsProper v }
{}
