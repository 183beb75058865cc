// What the cells of a column are told apart by is chosen by some of them, so that few heads tie. No
// clause depends on the choice.
ghost use Rattle.std.specs.Prelude.{◌<◌, ◌≤◌, length};

use crate::heads::{Frame, height};
use crate::keys::cell_at;
use crate::ranks::Ranked;
use nq_model::CellRef;
use rows::Rows;

// By how many rows a frame is chosen, at most.
const SAMPLE_SIZE: usize = 256;

// How many bytes of a text are looked at behind the prefix.
const LETTERS: usize = 10;

// The bytes up to this are never letters, so that a head holds four of the others, whichever they
// are.
const MIN_FLOOR: u8 = 1;

// The numbers looked at have at most half of all heads, with a quarter or more free on either side
// of them.
const SPREAD_BITS: u32 = 31;

const FREE_STEPS: u64 = 1 << 30;

// How far apart the rows stand by which a frame is chosen.
fn stride(ranks: &[Ranked]) -> usize
    ensures { 0 < result }
{
    ranks.len() / SAMPLE_SIZE + 1
}

// How many bytes two texts begin with alike.
fn common_size(text: &[u8], other: &[u8]) -> usize
    ensures { result ≤ length text.now }
{
    for (i, byte) in text.iter().enumerate() {
        if i >= other.len() || other[i] != *byte {
            return i;
        }
    }
    text.len()
}

// The text in a column of a row, and none where something else stands there.
fn text_at<'a>(rows: &'a Rows, column: usize, ranked: &Ranked) -> &'a [u8] {
    match cell_at(rows, ranked.place(), column) {
        CellRef::Text(text) => text.as_bytes(),
        _ => &[],
    }
}

// What the texts of rows here and there begin with alike, and so most others too. Behind it they
// are told apart by their heads.
fn common_prefix<'a>(rows: &'a Rows, column: usize, ranks: &[Ranked]) -> &'a [u8] {
    if ranks.is_empty() {
        return &[];
    }
    let mut prefix = text_at(rows, column, &ranks[0]);
    for ranked in ranks.iter().step_by(stride(ranks)) {
        let text = text_at(rows, column, ranked);
        prefix = &prefix[..common_size(prefix, text)];
    }
    prefix
}

// The least and the greatest byte, of these and of a text's first ones from a place on.
fn with_letters(letters: (u8, u8), text: &[u8], first: usize) -> (u8, u8) {
    let (mut least, mut greatest) = letters;
    for byte in text.iter().skip(first).take(LETTERS) {
        least = least.min(*byte);
        greatest = greatest.max(*byte);
    }
    (least, greatest)
}

// The least and the greatest byte that stands behind the prefix in the texts of rows here and
// there.
fn common_letters(rows: &Rows, column: usize, ranks: &[Ranked], prefix: &[u8]) -> (u8, u8) {
    let mut letters = (u8::MAX, 0u8);
    for ranked in ranks.iter().step_by(stride(ranks)) {
        letters = with_letters(letters, text_at(rows, column, ranked), prefix.len());
    }
    letters
}

// Where nothing stands behind the prefix, any byte may.
fn frame_of_texts<'a>(rows: &'a Rows, column: usize, ranks: &[Ranked]) -> Frame<'a> {
    let prefix = common_prefix(rows, column, ranks);
    let (least, greatest) = common_letters(rows, column, ranks, prefix);
    if least > greatest {
        return Frame::Texts {
            prefix,
            floor: MIN_FLOOR,
            last: u8::MAX,
        };
    }
    Frame::Texts {
        prefix,
        floor: least.saturating_sub(1).max(MIN_FLOOR),
        last: greatest,
    }
}

// The least and the greatest height of the numbers of rows here and there.
fn common_heights(rows: &Rows, column: usize, ranks: &[Ranked]) -> (u64, u64) {
    let mut least = u64::MAX;
    let mut greatest = 0u64;
    for ranked in ranks.iter().step_by(stride(ranks)) {
        if let CellRef::Int(number) = cell_at(rows, ranked.place(), column) {
            least = least.min(height(number));
            greatest = greatest.max(height(number));
        }
    }
    (least, greatest)
}

// Steps are no longer than they need be for the heads of these numbers to stand amid all heads.
fn frame_of_numbers(rows: &Rows, column: usize, ranks: &[Ranked]) -> Frame<'static> {
    let (least, greatest) = common_heights(rows, column, ranks);
    let zeros = greatest.saturating_sub(least).leading_zeros();
    let shift = (u64::BITS - SPREAD_BITS).saturating_sub(zeros);
    let free = FREE_STEPS.unbounded_shl(shift);
    Frame::Numbers {
        least: least.saturating_sub(free),
        shift,
    }
}

// A frame for cells of the kind that stands in the first of these rows.
pub(crate) fn frame_of<'a>(rows: &'a Rows, column: usize, ranks: &[Ranked]) -> Frame<'a> {
    if ranks.is_empty() {
        return Frame::Truths;
    }
    match cell_at(rows, ranks[0].place(), column) {
        CellRef::Int(_) => frame_of_numbers(rows, column, ranks),
        CellRef::Text(_) => frame_of_texts(rows, column, ranks),
        CellRef::Bool(_) => Frame::Truths,
    }
}
