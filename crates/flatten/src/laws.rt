// Laws of flattening, on a function that does nothing.
ghost use Rattle.std.specs.Prelude.{◌≡◌, ◌<◌, ◌^◌, List, length, map};
ghost use Rattle.nq_model.specs.Databases.{database};
ghost use Rattle.nq_model.specs.SchemaTables.{AreTablesOf};
ghost use Rattle.nq_model.specs.Tables.{IsProperSchema, types_of};
ghost use Rattle.nq_model.specs.declared.table.ColumnType.{ColumnType};
ghost use Rattle.nq_model.specs.declared.table.Cell.{Cell};
ghost use Rattle.nq_model.specs.declared.table.Schema.{Schema};
ghost use Rattle.nq_ir.specs.Meanings.{rows_in};
ghost use Rattle.nq_ir.specs.Lets.{FlatRow, LetFormTree, FormGives, IsLetFormOf};
ghost use Rattle.nq_ir.specs.WellFormed.{column_names};
ghost use Rattle.shred_types.specs.Columns.{answer_columns, row_cells};
ghost use Rattle.sql_profile.specs.AllowedAnswers.{TreeAllows};
ghost use Rattle.sql_profile.specs.Scope.{IsWellScoped, shapes_of_schema};
ghost use Rattle.sql_profile.specs.Servers.{held_of};
ghost use Rattle.sql_profile.specs.Spellable.{IsSpellable};
ghost use Rattle.flatten.specs.Emitted.{flattened, answer_shape};

/// Over the tables of a proper schema, each answer that SQL allows to the tree of a let form is,
/// laid out in columns, one of the lists of rows that the let form allows, however ties are
/// numbered. The tree is well scoped over the schema, and its columns are `ot`, `on`, `c1` and so
/// on, with the types at the form's path. A text can spell it.
pub fn flattening_laws()
    ensures rows { (schema : Schema) (tables : List (List (List Cell))) (f : LetFormTree)
        (ans : List (List Cell))
        → IsProperSchema schema → AreTablesOf schema.tables tables → IsLetFormOf schema f
        → TreeAllows (held_of schema.tables tables) (flattened schema f) ans
        → (rows : List FlatRow)
        × FormGives (column_names schema.tables) (rows_in (database schema.tables tables)) f rows
        × (ans ≡ map (row_cells f.element) rows) }
    ensures scoped { (schema : Schema) (f : LetFormTree) → IsProperSchema schema
        → IsLetFormOf schema f
        → IsWellScoped (shapes_of_schema schema.tables) (flattened schema f)
        (answer_shape (answer_columns f.element)) }
    ensures spellable { (schema : Schema) (f : LetFormTree) → IsProperSchema schema
        → IsLetFormOf schema f
        → length f.lets < 2 ^ 63 → length (answer_columns f.element) < 2 ^ 63
        → IsSpellable (flattened schema f) }
    ensures types { (columns : List ColumnType) → types_of (answer_shape columns) ≡ columns }
{}
