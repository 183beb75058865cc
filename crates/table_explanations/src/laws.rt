// A law of the definitions, on a function that does nothing.
ghost use Rattle.std.specs.Prelude.{◌≡◌, ℕ, true};
ghost use Rattle.csv.specs.Machine.{step as machine_step};
ghost use Rattle.csv.specs.Reading.{default_config};
ghost use Rattle.csv.specs.declared.parser.State.{State};
ghost use Rattle.csv.specs.declared.parser.State.TheVariants as st;
ghost use Rattle.table_explanations.specs.Agreement.{is_met, walk_after, walk_at};
ghost use Rattle.table_explanations.specs.Places.{start, step};

/// The walk that finds the places of cells goes with the machine with which `csv` reads records.
/// They begin together, and over each byte the walk goes to the next cell where the machine ends a
/// field, to the next row where it ends a record, and else stays at the cell.
pub fn walk_laws()
    ensures begins { start ≡ walk_at 0 1 st.StartRecord }
    ensures goes { (row column byte : ℕ) (state : State) → is_met state ≡ true
        → step (walk_at row column state) byte
        ≡ walk_after row column (machine_step default_config state byte).0
        (machine_step default_config state byte).1 }
    ensures met { (byte : ℕ) (state : State) → is_met state ≡ true
        → is_met (machine_step default_config state byte).0 ≡ true }
{}
