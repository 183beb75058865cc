// Where cells begin in the bytes of a text.
ghost use Rattle.std.specs.Prelude.{◌≡◌, ◌≤◌, ◌<◌, ◌+◌, ◌-◌, ◌^◌};
ghost use Rattle.std.specs.Prelude.{length};
ghost use Rattle.csv.specs.Reading.{strip_bom};
ghost use Rattle.nq_model.specs.QueryTokens.{begins_with};
ghost use Rattle.table_explanations.specs.Places.{begins, cell_place, cell_step, ends_row};
ghost use Rattle.table_explanations.specs.Places.{goes_on, is_at, mark, next_cell, next_row};
ghost use Rattle.table_explanations.specs.Places.{place_from, plain_step, start, step};

/// What the next byte is to its cell.
#[derive(Clone, Copy)]
pub enum Mode {
    /// A row begins, unless the byte is of the end of a line.
    StartRow,
    /// A cell begins.
    StartCell,
    /// The cell has begun, in no quotes.
    Plain,
    /// The cell has begun, in quotes.
    Quoted,
    /// The byte before closed the quotes, or was the first of two that stand for one.
    BehindQuote,
}

/// Where a walk over the bytes of a text stands. The header is row 0, and columns begin with 1.
#[derive(Clone, Copy)]
pub struct Walk {
    pub(crate) row: u64,
    pub(crate) column: u64,
    pub(crate) mode: Mode,
}

fn start() -> Walk
    ensures { result ≡ start }
{
    Walk {
        row: 0,
        column: 1,
        mode: Mode::StartRow,
    }
}

fn ends_row(byte: u8) -> bool
    ensures { result ≡ ends_row byte }
{
    byte == b'\n' || byte == b'\r'
}

fn goes_on(walk: Walk, mode: Mode) -> Walk
    ensures { result ≡ goes_on walk mode }
{
    Walk {
        row: walk.row,
        column: walk.column,
        mode,
    }
}

fn next_cell(walk: Walk) -> Walk
    requires { walk.column < 2 ^ 63 }
    ensures { result ≡ next_cell walk }
{
    Walk {
        row: walk.row,
        column: walk.column + 1,
        mode: Mode::StartCell,
    }
}

fn next_row(walk: Walk) -> Walk
    requires { walk.row < 2 ^ 63 }
    ensures { result ≡ next_row walk }
{
    Walk {
        row: walk.row + 1,
        column: 1,
        mode: Mode::StartRow,
    }
}

fn plain_step(walk: Walk, byte: u8) -> Walk
    requires row { walk.row < 2 ^ 63 }
    requires column { walk.column < 2 ^ 63 }
    ensures { result ≡ plain_step walk byte }
{
    if byte == b',' {
        next_cell(walk)
    } else if ends_row(byte) {
        next_row(walk)
    } else {
        goes_on(walk, Mode::Plain)
    }
}

fn cell_step(walk: Walk, byte: u8) -> Walk
    requires row { walk.row < 2 ^ 63 }
    requires column { walk.column < 2 ^ 63 }
    ensures { result ≡ cell_step walk byte }
{
    if byte == b'"' {
        goes_on(walk, Mode::Quoted)
    } else {
        plain_step(walk, byte)
    }
}

// The walk behind one more byte.
fn step(walk: Walk, byte: u8) -> Walk
    requires row { walk.row < 2 ^ 63 }
    requires column { walk.column < 2 ^ 63 }
    ensures { result ≡ step walk byte }
{
    match walk.mode {
        Mode::StartRow if ends_row(byte) => walk,
        Mode::StartRow | Mode::StartCell => cell_step(walk, byte),
        Mode::Plain => plain_step(walk, byte),
        Mode::Quoted if byte == b'"' => goes_on(walk, Mode::BehindQuote),
        Mode::Quoted => walk,
        Mode::BehindQuote if byte == b'"' => goes_on(walk, Mode::Quoted),
        Mode::BehindQuote => plain_step(walk, byte),
    }
}

// Whether a cell begins at the byte.
fn begins(mode: Mode, byte: u8) -> bool
    ensures { result ≡ begins mode byte }
{
    match mode {
        Mode::StartRow => !ends_row(byte),
        Mode::StartCell => true,
        Mode::Plain | Mode::Quoted | Mode::BehindQuote => false,
    }
}

// Whether this cell does.
fn is_at(row: u64, column: u64, walk: Walk, byte: u8) -> bool
    ensures { result ≡ is_at row column walk byte }
{
    begins(walk.mode, byte) && walk.row == row && walk.column == column
}

// How many bytes there are before this cell.
fn place_from(row: u64, column: u64, bytes: &[u8]) -> usize
    ensures is { result ≡ place_from row column start bytes.now }
    ensures within { result ≤ length bytes.now }
{
    let mut walk = start();
    for at in 0..bytes.len() {
        if is_at(row, column, walk, bytes[at]) {
            return at;
        }
        walk = step(walk, bytes[at]);
    }
    bytes.len()
}

// Whether a byte order mark stands at the front.
fn has_mark(text: &[u8]) -> bool
    ensures { result ≡ begins_with mark text.now }
{
    text.starts_with(&[0xEF, 0xBB, 0xBF])
}

// The bytes behind a byte order mark.
#[tactic(auto, using(crate::proofs::WalkFacts::mark_rules))]
fn behind_mark(text: &[u8]) -> &[u8]
    ensures is { result.now ≡ strip_bom text.now }
    ensures within { length result.now ≤ length text.now }
{
    if has_mark(text) { &text[3..] } else { text }
}

/// The place at which the cell of a row and a column begins, or the length of the text if it does
/// not. The header is row 0, and columns begin with 1.
#[tactic(auto, unfolding(crate::specs::Places::cell_place))]
pub(crate) fn cell_place(text: &[u8], row: u64, column: u64) -> u64
    ensures { result ≡ cell_place row column text.now }
{
    let bytes = behind_mark(text);
    let before = text.len() - bytes.len();
    (before + place_from(row, column, bytes)) as u64
}
