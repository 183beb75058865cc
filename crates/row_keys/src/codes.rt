// Codes of keys: numbers of 32 bits, by which an index finds a key without a copy of its cells. A
// code is a polynomial over what the cells hold, modulo 2^32. The last number enters it unscaled,
// so keys that follow one another mostly have neighbouring codes, and an ordered table fills the
// index in order.
ghost use Rattle.std.specs.Prelude.{◌≡◌};
ghost use Rattle.nq_model.specs.CellRefs.{cell_seen};
ghost use Rattle.row_keys.specs.Codes.{cell_code, code_with, int_code, text_code};

use nq_model::CellRef;

// 2^32 divided by the golden ratio, Knuth's multiplier for hashes: its multiples spread evenly, so
// that small differences in several cells do not cancel.
const FACTOR: u32 = 2_654_435_769;

// No byte of UTF-8, so that it tells where a text ends.
const END: u32 = 255;

#[tactic(auto, unfolding(crate::specs::Codes::code_with))]
fn code_with(code: u32, number: u32) -> u32
    ensures { result ≡ code_with code number }
{
    code.wrapping_mul(FACTOR).wrapping_add(number)
}

fn int_code(code: u32, number: i64) -> u32
    ensures { result ≡ int_code code number }
{
    let bits = number.cast_unsigned();
    let upper = (bits >> 32) as u32;
    let lower = (bits % (1 << 32)) as u32;
    code_with(code_with(code, upper), lower)
}

fn text_code(code: u32, text: &str) -> u32
    ensures { result ≡ text_code code text.now }
{
    let mut code = code;
    for byte in text.as_bytes() {
        code = code_with(code, u32::from(*byte));
    }
    code_with(code, END)
}

// The code of a key with one more cell, from the code of the cells before it.
pub(crate) fn cell_code(code: u32, cell: &CellRef<'_>) -> u32
    ensures { result ≡ cell_code code (cell_seen cell.now) }
{
    match cell {
        CellRef::Int(number) => int_code(code, *number),
        CellRef::Bool(truth) => code_with(code, u32::from(*truth)),
        CellRef::Text(text) => text_code(code, text),
    }
}
