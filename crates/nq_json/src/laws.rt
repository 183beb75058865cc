// Laws of the definitions, each on a function that does nothing.
ghost use Rattle.std.specs.Prelude.{◌≡◌, ◌↔◌, ℕ, true, List, [], Ok, Err, Contains};
ghost use Rattle.nq_model.specs.Orders.{AreDistinct};
ghost use Rattle.nq_model.specs.Proper.{IsOrdered};
ghost use Rattle.nq_model.specs.Tables.{Columns, names_of};
ghost use Rattle.nq_model.specs.Types.{TypeTree};
ghost use Rattle.nq_model.specs.Values.{Nested};
ghost use Rattle.nq_model.specs.ValueTypes.{IsOfType};
ghost use Rattle.serde_json.specs.Data.{Members};
ghost use Rattle.nq_json.specs.Json.{json};
ghost use Rattle.nq_model.specs.declared.table.Cell.{Cell};
ghost use Rattle.nq_model.specs.declared.table.TableShape.{TableShape};
ghost use Rattle.nq_json.specs.Shapes.{faults, keys_of};
ghost use Rattle.nq_json.specs.Tables.{has_names, table_of};
ghost use Rattle.nq_json.specs.Faults.{OfArray, GivesRows, HasFault};
ghost use Rattle.nq_json.specs.declared.tables.JsonTableFault.{JsonTableFault};

/// Two different values of one type have different JSON forms, and no node of the form of a value
/// is faulty at its type. So what `value_of` gives for the form of a value at its type is the
/// value.
pub fn form_laws()
    ensures apart { (a : TypeTree) (v u : Nested) → IsOrdered a → IsOfType a v → IsOfType a u
        → json v ≡ json u → v ≡ u }
    ensures faultless { (a : TypeTree) (n : ℕ) (v : Nested) → IsOrdered a → IsOfType a v
        → faults a n (json v) ≡ [] }
{}

/// `table_of` computes what the words of tables say. A text gives rows where it is an array whose
/// elements are rows, no two of which have equal key cells; it has a fault where nothing before it
/// is wrong. An object has the names of columns where its keys are just those names.
pub fn json_table_laws()
    ensures rows { (shape : TableShape) (text : List ℕ) (rows : List (List Cell))
        → (table_of shape text ≡ Ok rows) ↔ OfArray text (λ ds. GivesRows shape ds rows) }
    ensures fault { (shape : TableShape) (text : List ℕ) (e : JsonTableFault)
        → (table_of shape text ≡ Err e) ↔ HasFault shape text e }
    ensures names { (columns : Columns) (ms : Members)
        → AreDistinct (names_of columns) → AreDistinct (keys_of ms)
        → (has_names columns ms ≡ true)
        ↔ ((key : List ℕ) → Contains (keys_of ms) key ↔ Contains (names_of columns) key) }
{}
