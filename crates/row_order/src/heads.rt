// What cells begin with, as numbers that stand in the cells' order.
ghost use Rattle.std.specs.Prelude.{◌≡◌, ◌+◌, ◌-◌, ◌^◌};
ghost use Rattle.nq_model.specs.CellRefs.{cell_seen};
ghost use Rattle.row_order.specs.Heads.{head_of, head_of_int, head_of_text, head_past, height_of};

use nq_model::CellRef;
use std::cmp::Ordering;

// The texts that begin with a prefix have all heads but the least and the greatest.
const HEADS: u64 = (1 << 32) - 2;

// What the cells of a column are told apart by. Heads stand in the order of the cells whatever it
// is, but with a frame that fits the cells few heads tie.
#[derive(Clone, Copy)]
pub(crate) enum Frame<'a> {
    Truths,
    // By how many steps of two to the power `shift` a number's height is above the least.
    Numbers {
        least: u64,
        shift: u32,
    },
    // By what stands in a text behind a prefix. Letters are the bytes above the floor, up to the
    // last.
    Texts {
        prefix: &'a [u8],
        floor: u8,
        last: u8,
    },
}

// Each letter has its share of all heads, and so have those behind it of that share. So a head
// holds as much of a text as it can: four of any bytes, but six of 26 letters and nine of ten
// digits.
fn text_head(floor: u8, last: u8, text: &[u8]) -> u32
    ensures { result ≡ 1 + head_of_text floor last (2 ^ 32 - 2) text.now }
{
    let count = u64::from(last.saturating_sub(floor)) + 1;
    let mut head = 1u64;
    let mut room = HEADS;
    for byte in text {
        if room <= 1 || *byte <= floor {
            return head as u32;
        }
        if *byte > last {
            return (head + (room - 1)) as u32;
        }
        room /= count;
        head += u64::from(*byte - floor) * room;
    }
    head as u32
}

// The head of what stands behind a prefix. A text that does not begin with it has the least head or
// the greatest, so that the heads stand in the order of the texts whatever the prefix is.
fn head_behind(prefix: &[u8], floor: u8, last: u8, text: &[u8]) -> u32
    ensures { result ≡ head_past floor last prefix.now text.now }
{
    for (i, byte) in prefix.iter().enumerate() {
        if i >= text.len() {
            return 0;
        }
        match text[i].cmp(byte) {
            Ordering::Less => return 0,
            Ordering::Equal => {}
            Ordering::Greater => return u32::MAX,
        }
    }
    text_head(floor, last, &text[prefix.len()..])
}

// How far a number is above the least of 64 bits.
pub(crate) fn height(number: i64) -> u64
    ensures { result ≡ height_of number }
{
    number.abs_diff(i64::MIN)
}

// How many steps a number is above the least: none below it, and at most what a head holds.
fn number_head(least: u64, shift: u32, number: i64) -> u32
    ensures { result ≡ head_of_int least shift number }
{
    let above = height(number).saturating_sub(least);
    above.unbounded_shr(shift).min(u64::from(u32::MAX)) as u32
}

// A number that stands among those of other cells as the cell does, whatever the frame is.
pub(crate) fn cell_head(frame: &Frame<'_>, cell: &CellRef<'_>) -> u32
    ensures { result ≡ head_of frame.now (cell_seen cell.now) }
{
    match frame {
        Frame::Truths => match cell {
            CellRef::Bool(truth) => u32::from(*truth),
            CellRef::Int(_) | CellRef::Text(_) => u32::MAX,
        },
        Frame::Numbers { least, shift } => match cell {
            CellRef::Bool(_) => 0,
            CellRef::Int(number) => number_head(*least, *shift, *number),
            CellRef::Text(_) => u32::MAX,
        },
        Frame::Texts {
            prefix,
            floor,
            last,
        } => match cell {
            CellRef::Bool(_) | CellRef::Int(_) => 0,
            CellRef::Text(text) => head_behind(prefix, *floor, *last, text.as_bytes()),
        },
    }
}
