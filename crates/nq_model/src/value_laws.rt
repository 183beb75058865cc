// Laws of what terms and queries mean, on a function that does nothing.
ghost use Rattle.std.specs.Prelude.{◌≡◌, List};
ghost use Rattle.std.specs.List.{AllZip};
ghost use Rattle.nq_model.specs.Databases.{FilledTable, database};
ghost use Rattle.nq_model.specs.Meaning.{meaning};
ghost use Rattle.nq_model.specs.Proper.{IsOrdered, IsPlainTerm, IsProperTerm};
ghost use Rattle.nq_model.specs.QueryMeaning.{Means};
ghost use Rattle.nq_model.specs.SchemaTables.{AreTablesOf};
ghost use Rattle.nq_model.specs.Terms.{PlacedTerm, TermTree};
ghost use Rattle.nq_model.specs.Types.{TypeTree};
ghost use Rattle.nq_model.specs.Typing.{HasType};
ghost use Rattle.nq_model.specs.ValueTypes.{IsOfType};
ghost use Rattle.nq_model.specs.Values.{Nested, IsProper};
ghost use Rattle.nq_model.specs.declared.table.Cell.{Cell};
ghost use Rattle.nq_model.specs.declared.table.Schema.{Schema};

/// Over tables of a schema, what a typed plain term means is of the term's type, where the values
/// of the variables are of theirs. The labels of a value rise where those of its type do. A query
/// means one value at most.
pub fn meaning_laws()
    ensures typed { (schema : Schema) (tables : List (List (List Cell)))
        → AreTablesOf schema.tables tables
        → (context : List TypeTree) (env : List Nested) → AllZip IsOfType context env
        → (t : TermTree) (a : TypeTree) → IsProperTerm t → IsPlainTerm t
        → HasType schema context t a
        → IsOfType a (meaning (database schema.tables tables) env t) }
    ensures proper { (a : TypeTree) (v : Nested) → IsOrdered a → IsOfType a v → IsProper v }
    ensures one { (tables : List FilledTable) (query : PlacedTerm) (v w : Nested)
        → Means tables query v → Means tables query w → v ≡ w }
{}
