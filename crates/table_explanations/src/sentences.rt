// The sentence that is said of each fault.
ghost use Rattle.std.specs.Prelude.{◌≡◌};
ghost use Rattle.table_explanations.specs.Sentences.{sentence};

/// What is wrong at a place.
#[derive(Clone, Copy)]
pub enum Wrong {
    /// The first record is not the names of the columns.
    Header,
    /// A row has another number of cells than the table has columns.
    Width,
    /// A cell is not UTF-8.
    NotUtf8,
    /// A cell is no int.
    NoInt,
    /// A cell is no truth value.
    NoBool,
    /// An earlier row has the same key.
    TwiceKey,
}

/// What is said of it.
pub(crate) fn sentence(wrong: Wrong) -> &'static str
    ensures { result.now ≡ sentence wrong }
{
    match wrong {
        Wrong::Header => "The first line is not the names of the columns.",
        Wrong::Width => "This row has another number of cells than the table has columns.",
        Wrong::NotUtf8 => "This cell is not UTF-8. Save the file as UTF-8.",
        Wrong::NoInt => {
            "This is no int: an int is an optional minus sign and digits, within 64 bits."
        }
        Wrong::NoBool => "This is no truth value: write true, false, t or f.",
        Wrong::TwiceKey => "An earlier row has the same key.",
    }
}
