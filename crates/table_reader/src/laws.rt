// Laws of the definitions, each on a function that does nothing.
ghost use Rattle.std.specs.Prelude.{◌≡◌, ◌↔◌, ◌⊎◌, ℕ, List};
ghost use Rattle.nq_model.specs.declared.table.Cell.{Cell};
ghost use Rattle.nq_model.specs.declared.table.TableShape.{TableShape};
ghost use Rattle.table_reader.specs.declared.TableFault.{TableFault};
ghost use Rattle.table_reader.specs.Records.{records_of};
ghost use Rattle.table_reader.specs.Tables.{rows_of, table_of};
ghost use Rattle.table_reader.specs.Faults.{GivesRows, HasFault};

/// `table_of` computes what the words of tables say. A text gives rows where its header is the
/// column names, each further record spells a row, and no two rows have equal key cells; it has a
/// fault where nothing before it is wrong. It does one of the two, and has one fault at most.
/// `rows_of` is its rows.
pub fn table_laws()
    ensures rows { (shape : TableShape) (text : List ℕ) (rows : List (List Cell))
        → (table_of shape text ≡ Ok rows) ↔ GivesRows shape (records_of text) rows }
    ensures fault { (shape : TableShape) (text : List ℕ) (e : TableFault)
        → (table_of shape text ≡ Err e) ↔ HasFault shape (records_of text) e }
    ensures either { (shape : TableShape) (text : List ℕ)
        → ((rows : List (List Cell)) × GivesRows shape (records_of text) rows)
        ⊎ ((e : TableFault) × HasFault shape (records_of text) e) }
    ensures not_both { (shape : TableShape) (text : List ℕ) (rows : List (List Cell))
        (e : TableFault)
        → GivesRows shape (records_of text) rows → HasFault shape (records_of text) e → ⊥ }
    ensures one_fault { (shape : TableShape) (text : List ℕ) (e f : TableFault)
        → HasFault shape (records_of text) e → HasFault shape (records_of text) f → e ≡ f }
    ensures rows_of { (shape : TableShape) (text : List ℕ) (rows : List (List Cell))
        → (rows_of shape text ≡ Some rows) ↔ (table_of shape text ≡ Ok rows) }
{}
