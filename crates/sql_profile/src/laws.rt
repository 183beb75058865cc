// Laws of the definitions, each on a function that does nothing.
ghost use Rattle.std.specs.Prelude.{◌≡◌, ◌≢◌, ◌<◌, ◌^◌, ◌↔◌, ◌⊎◌, ◌++◌, ◌∷◌, [], ℕ, List, All, Contains, Some, None, false, length, map, zip};
ghost use Rattle.std.specs.List.{AllByRecursion as Each};
ghost use Rattle.std.specs.Str.{IsUtf8};
ghost use Rattle.nq_model.specs.Bags.{Reordered};
ghost use Rattle.nq_model.specs.Cells.{RowFits};
ghost use Rattle.nq_model.specs.Databases.{database};
ghost use Rattle.nq_model.specs.Numberings.{Rises, key_lt};
ghost use Rattle.nq_model.specs.Orders.{AreDistinct};
ghost use Rattle.nq_model.specs.Tables.{Columns, names_of, types_of};
ghost use Rattle.nq_model.specs.declared.table.Cell.{Cell};
ghost use Rattle.nq_model.specs.declared.table.TableShape.{TableShape};
ghost use Rattle.nq_model.specs.declared.term.Binary.{Binary};
ghost use Rattle.nq_model.specs.NamedRows.{NamedTables};
ghost use Rattle.sql_profile.specs.AllowedAnswers.{Scope, TreeAllows, ValueGives};
ghost use Rattle.sql_profile.specs.NumberedKeys.{IsNthOf, keys_of, number_cells};
ghost use Rattle.sql_profile.specs.Printed.{printed};
ghost use Rattle.sql_profile.specs.Scope.{Broken, Fine, IsWellScoped, Shapes, among, found, judge, names_in, shapes_of, shapes_of_schema};
ghost use Rattle.sql_profile.specs.Servers.{filled_of, held_of, table_names};
ghost use Rattle.sql_profile.specs.Spellable.{IsSpellable};
ghost use Rattle.sql_profile.specs.Texts.{Fault, HasFault, IsAskable, Spells, TextAllows};
ghost use Rattle.sql_profile.specs.Tokens.{Edition, First};
ghost use Rattle.sql_profile.specs.Trees.{ExprTree, ExprTrees, PlacedExpr, PlacedLink, PlacedSql, SqlTree, bare, bare_expr, bare_link, binary, binary_at, chain, chain_at, number};
ghost use Rattle.sql_profile.specs.declared.server.Loaded.{Loaded};

/// A text spells exactly one tree, or has exactly one fault, at each depth. A depth of its own
/// bytes is enough for every text that spells a tree at some depth.
pub fn text_laws()
    ensures one_tree { (edition : Edition) (d e : ℕ) (text : List ℕ) (tree other : PlacedSql)
        → Spells edition d text tree → Spells edition e text other → tree ≡ other }
    ensures one_fault { (edition : Edition) (d : ℕ) (text : List ℕ) (f g : Fault) (p q : ℕ)
        → HasFault edition d text f p → HasFault edition d text g q → (f ≡ g) × (p ≡ q) }
    ensures not_both { (edition : Edition) (d : ℕ) (text : List ℕ) (tree : PlacedSql) (f : Fault)
        (place : ℕ)
        → Spells edition d text tree → HasFault edition d text f place → ⊥ }
    ensures either { (edition : Edition) (d : ℕ) (text : List ℕ)
        → ((tree : PlacedSql) × Spells edition d text tree)
        ⊎ ((f : Fault) × (place : ℕ) × HasFault edition d text f place) }
    ensures bytes_are_deep { (edition : Edition) (d : ℕ) (text : List ℕ) (tree : PlacedSql)
        → Spells edition d text tree → Spells edition (length text) text tree }
{}

/// The walk in the order of judging is fine with columns exactly where the tree is well scoped with
/// them, and so breaks a rule exactly where it has none. What is found under a name is the first
/// that stands there.
pub fn scope_laws()
    ensures agree { (tables : Shapes) (tree : PlacedSql) (columns : Columns)
        → (judge tables tree ≡ Fine columns) ↔ IsWellScoped tables (bare tree) columns }
    ensures broken { (tables : Shapes) (tree : PlacedSql) (columns : Columns) (rule place : ℕ)
        → judge tables tree ≡ Broken rule place → IsWellScoped tables (bare tree) columns → ⊥ }
    ensures first_found { (name : List ℕ) (before after : List (List ℕ × Columns))
        (columns : Columns)
        → Each (λ n. name ≢ n) (names_in before)
        → found name (before ++ (name, columns) ∷ after) ≡ Some columns }
    ensures none_found { (name : List ℕ) (others : List (List ℕ × Columns))
        → Each (λ n. name ≢ n) (names_in others) → found name others ≡ None }
    ensures not_among { (name : List ℕ) (names : List (List ℕ)) → (among name names ≡ false) ↔ Each
        (λ n. name ≢ n) names }
{}

/// The last link of a chain is its outermost operation. The places of a chain are those of its
/// links, and without them it joins the same parts.
pub fn chain_laws()
    ensures one_more { (op : Binary) (first : PlacedExpr) (more : List PlacedLink)
        (link : PlacedLink)
        → chain_at op first (more ++ link ∷ [])
        ≡ binary_at link.place op (chain_at op first more) link.right }
    ensures bare_more { (op : Binary) (first : ExprTree) (more : List ExprTree) (right : ExprTree)
        → chain op first (more ++ right ∷ []) ≡ binary op (chain op first more) right }
    ensures bare_of { (op : Binary) (first : PlacedExpr) (more : List PlacedLink)
        → bare_expr (chain_at op first more) ≡ chain op (bare_expr first) (map bare_link more) }
{}

/// What SQL allows as an answer. A tree that is well scoped over tables whose rows fit allows only
/// rows of its columns' types. However a numbering numbers ties, the combination with the number n
/// has the n-th of the sorted key lists, and the pairs of number and key list are one multiset.
pub fn answer_laws()
    ensures fitting { (held : List Loaded) (tree : SqlTree) (columns : Columns)
        (rows : List (List Cell))
        → All (λ table. All (RowFits (types_of table.columns)) table.rows) held
        → IsWellScoped (shapes_of held) tree columns → TreeAllows held tree rows
        → All (RowFits (types_of columns)) rows }
    ensures nth_key { (tables : NamedTables) (kept : List Scope) (keys : ExprTrees)
        (cells : List Cell) (sorted : List (List Cell))
        → ValueGives tables kept (number keys) cells → Reordered (keys_of tables keys kept) sorted
        → Rises key_lt sorted
        → Each (IsNthOf sorted) (zip cells (keys_of tables keys kept)) }
    ensures numbers_fixed { (tables : NamedTables) (kept : List Scope) (keys : ExprTrees)
        (cells : List Cell) (sorted : List (List Cell))
        → ValueGives tables kept (number keys) cells → Reordered (keys_of tables keys kept) sorted
        → Rises key_lt sorted
        → Reordered (zip cells (keys_of tables keys kept)) (number_cells sorted) }
{}

/// An answer that SQL allows to a text that may be asked has the types of the text's columns.
pub fn ask_laws()
    ensures fitting { (edition : Edition) (held : List Loaded) (text : List ℕ)
        (rows : List (List Cell))
        → All (λ table. All (RowFits (types_of table.columns)) table.rows) held
        → (asked : IsAskable edition held text) → TextAllows edition held text rows
        → All (RowFits (types_of asked.columns)) rows }
{}

/// The text of a tree that can be spelled spells it, where it is UTF-8; and each text spells such a
/// tree.
pub fn printing_laws()
    ensures read_back { (tree : SqlTree) → IsSpellable tree → IsUtf8 (printed tree)
        → (placed : PlacedSql) × Spells First (length (printed tree)) (printed tree) placed
        × (bare placed ≡ tree) }
    ensures spellable { (edition : Edition) (d : ℕ) (text : List ℕ) (tree : PlacedSql)
        → Spells edition d text tree → IsSpellable (bare tree) }
{}

/// The tables that are loaded of a schema, one to each shape and in its order, have its shapes, and
/// queries see them as its tables.
pub fn loaded_laws()
    ensures shapes { (shapes : List TableShape) (tables : List (List (List Cell)))
        → length tables ≡ length shapes
        → shapes_of (held_of shapes tables) ≡ shapes_of_schema shapes }
    ensures filled { (shapes : List TableShape) (tables : List (List (List Cell)))
        → map filled_of (held_of shapes tables) ≡ database shapes tables }
{}
