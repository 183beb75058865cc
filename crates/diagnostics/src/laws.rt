// Laws of the definitions, each on a function that does nothing.
ghost use Rattle.std.specs.Prelude.{◌≡◌, ℕ, ◌<◌, ◌^◌, length, List, IsTrue, IsUtf8, encode_utf8, encode_utf8_all, flat_map, map};
ghost use Rattle.std.specs.Str.{all_scalars};
ghost use Rattle.diagnostics.specs.Columns.{columns};
ghost use Rattle.diagnostics.specs.Excerpts.{excerpt_text};

/// The columns of a line put together are the line, and the columns of a text are its characters.
pub fn column_laws()
    ensures whole { (line : List ℕ) → flat_map (λ column. column) (columns line) ≡ line }
    ensures characters { (cs : List ℕ) → IsTrue (all_scalars cs)
        → columns (encode_utf8_all cs) ≡ map encode_utf8 cs }
{}

/// Whatever the bytes of a text are, what is said of a place in it is UTF-8, where the name of the
/// file is.
pub fn excerpt_laws()
    ensures { (file text sentence : List ℕ) (place : ℕ) → length text < 2 ^ 63 → IsUtf8 file
        → IsUtf8 sentence → IsUtf8 (excerpt_text file text place sentence) }
{}
