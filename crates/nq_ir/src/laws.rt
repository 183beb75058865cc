// Laws of the forms, each on a function that does nothing.
ghost use Rattle.std.specs.Prelude.{◌≡◌, [], List, map};
ghost use Rattle.std.specs.List.{AllByRecursion as Each};
ghost use Rattle.nq_model.specs.Databases.{database};
ghost use Rattle.nq_model.specs.Numberings.{TellsApart};
ghost use Rattle.nq_model.specs.SchemaTables.{AreTablesOf};
ghost use Rattle.nq_model.specs.Tables.{IsProperSchema};
ghost use Rattle.nq_model.specs.Types.{bag};
ghost use Rattle.nq_model.specs.Values.{Same, bag_of};
ghost use Rattle.nq_model.specs.declared.table.Schema.{Schema};
ghost use Rattle.nq_model.specs.declared.table.Cell.{Cell};
ghost use Rattle.nq_ir.specs.declared.base.Gen.{Gen};
ghost use Rattle.nq_ir.specs.Trees.{FormTree, Conds};
ghost use Rattle.nq_ir.specs.Meanings.{Tables, rows_in, kept, form_meaning};
ghost use Rattle.nq_ir.specs.Building.{built};
ghost use Rattle.nq_ir.specs.Paths.{paths};
ghost use Rattle.nq_ir.specs.Spots.{strands, spots, top_spot, by_tag, strands_at, spot_cells, OutersKept};
ghost use Rattle.nq_ir.specs.Shredded.{ShreddedTree, IsShreddedOf};
ghost use Rattle.nq_ir.specs.Lets.{FlatRow, flat, FormGives, AllGive, Inserts, insert_lets};
ghost use Rattle.nq_ir.specs.Written.{PairsAreChildren, WriteAll};
ghost use Rattle.nq_ir.specs.WellFormed.{IsWellFormed, column_names};

/// The spots of a well-formed form build its meaning. A spot is its tag and its cells: the choices
/// of rows for the generators in scope are told apart by them, over tables of a schema.
pub fn spot_laws()
    ensures meaning { (schema : Schema) (form : FormTree) → IsWellFormed schema.tables form
        → (ts : Tables)
        → bag_of (built (spots ts (strands form.element form.comps)) form.element 0 top_spot)
        ≡ form_meaning ts form }
    ensures cells { (schema : Schema) (tables : List (List (List Cell)))
        → AreTablesOf schema.tables tables → (gens : List Gen) (conds : Conds)
        → TellsApart spot_cells (kept (rows_in (database schema.tables tables)) gens conds []) }
{}

/// The shredded forms at the paths of a well-formed form have the strands of all its
/// comprehensions, path by path, in the order of their tags. The children in their rows stand at
/// the kept choices of all generators in scope. The rows at a path are the pairs of a parent's spot
/// and one of its children.
pub fn shredding_laws()
    ensures strands { (schema : Schema) (form : FormTree) → IsWellFormed schema.tables form
        → map (strands_at form.element form.comps) (paths (bag form.element))
        ≡ map by_tag (strands form.element form.comps) }
    ensures rows { (schema : Schema) (form : FormTree) → IsProperSchema schema
        → IsWellFormed schema.tables form → (ts : Tables)
        → Each (Each (OutersKept ts)) (strands form.element form.comps) }
    ensures pairs { (schema : Schema) (s : ShreddedTree) → IsShreddedOf schema s → (ts : Tables)
        → PairsAreChildren ts s.parts }
{}

/// Rows that the let forms of a well-formed form allow, however they number ties and in whatever
/// order the rows come, build the form's meaning: the children of a spot are found by its tag and
/// its number.
pub fn let_laws()
    ensures { (schema : Schema) (form : FormTree) (tables : List (List (List Cell)))
        → IsProperSchema schema → IsWellFormed schema.tables form
        → AreTablesOf schema.tables tables → (rows : List (List FlatRow))
        → AllGive (column_names schema.tables) (rows_in (database schema.tables tables)) form rows
        → Same (bag_of (built (flat rows) form.element 0 (0, 1)))
        (form_meaning (rows_in (database schema.tables tables)) form) }
{}

/// The let form of a shredded form of a well-formed form: one let for each parent that has a
/// strand, in the order of the parents, and none at the empty path; each part stands on its
/// parent's let, and with it is its strand again. It allows the rows of the shredded form, each
/// pair once, in any order, with each spot written as its tag and number.
pub fn insertion_laws()
    ensures lets { (schema : Schema) (s : ShreddedTree) → IsShreddedOf schema s
        → Inserts s (insert_lets s) }
    ensures rows { (schema : Schema) (s : ShreddedTree) (tables : List (List (List Cell)))
        → IsProperSchema schema → IsShreddedOf schema s
        → AreTablesOf schema.tables tables → (rows : List FlatRow)
        → FormGives (column_names schema.tables) (rows_in (database schema.tables tables))
        (insert_lets s) rows
        → WriteAll (column_names schema.tables) (rows_in (database schema.tables tables))
        s.parts rows }
{}
