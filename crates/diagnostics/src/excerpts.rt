// An excerpt: what is said of a place in a file, the line of the place, and a caret under it.
ghost use Rattle.std.specs.Prelude.{◌≡◌, ◌++◌, replicate, IfOk, OnOk};
ghost use Rattle.diagnostics.specs.Columns.{columns};
ghost use Rattle.diagnostics.specs.Excerpts.{excerpt_text, head_text, left_out, numbered, pointed_text};

use crate::columns::{count_columns, put_columns, skip_columns, whole_within};
use crate::lines::line_of;
use crate::places::Place;
use nq_model::{List, Memory};
use std::alloc::Global;

// How many columns are shown of a line.
const WIDTH: usize = 100;

// How many of them are before the place, where the line is longer on both sides.
const SIDE: usize = 50;

// How many columns are left out before those that are shown.
fn left_out(before: usize, all: usize) -> usize
    ensures { result ≡ left_out before all }
{
    before.saturating_sub(SIDE).min(all.saturating_sub(WIDTH))
}

// Puts so many spaces.
fn put_spaces(text: &mut List<u8>, count: usize) -> Result<(), Memory>
    ensures { OnOk result (text.new ≡ text.old ++ replicate count 32) }
{
    for _at in 0..count {
        text.push(b' ')?;
    }
    Ok(())
}

// Puts a colon and a number.
fn put_number(alloc: Global, text: &mut List<u8>, number: u64) -> Result<(), Memory>
    ensures { OnOk result (text.new ≡ text.old ++ numbered number) }
{
    let digits = number.to_string(alloc)?;
    text.extend_from_slice(b":")?;
    text.extend_from_slice(digits.as_bytes())
}

// Puts what stands before the line.
#[tactic(auto, unfolding(crate::specs::Excerpts::head_text))]
fn put_head(
    alloc: Global,
    text: &mut List<u8>,
    file: &[u8],
    place: Place,
    sentence: &str,
) -> Result<(), Memory>
    ensures { OnOk result (text.new
        ≡ text.old ++ head_text file.now place.line place.column sentence.now) }
{
    text.extend_from_slice(file)?;
    put_number(alloc, text, place.line)?;
    put_number(alloc, text, place.column)?;
    text.extend_from_slice(b": ")?;
    text.extend_from_slice(sentence.as_bytes())?;
    text.extend_from_slice(b"\n")
}

// Puts a line with a caret under it, behind so many columns.
#[tactic(auto, unfolding(crate::specs::Excerpts::pointed_text))]
fn put_pointed(text: &mut List<u8>, line: &[u8], before: usize) -> Result<(), Memory>
    ensures { OnOk result (text.new
        ≡ text.old ++ pointed_text before (columns line.now)) }
{
    let left_out = left_out(before, count_columns(line));
    put_columns(text, skip_columns(line, left_out), WIDTH)?;
    text.extend_from_slice(b"\n")?;
    put_spaces(text, before - left_out)?;
    text.extend_from_slice(b"^\n")
}

/// What is said of a place in a file: `FILE:LINE:COLUMN: SENTENCE`, then the line of the place,
/// then a line with a caret under the place. Of a line of more than 100 columns the 100 round the
/// place are shown. A tab is shown as a space, and what is no UTF-8, or a control character, as
/// `?`. Each line ends with a line feed. Fails only if memory runs out.
#[tactic(auto, unfolding(crate::specs::Excerpts::excerpt_text))]
pub fn excerpt(
    alloc: Global,
    file: &[u8],
    text: &[u8],
    place: u64,
    sentence: &str,
) -> Result<List<u8>, Memory>
    ensures { IfOk result
        (λ made. made ≡ excerpt_text file.now text.now place sentence.now) }
{
    let line = line_of(text, place);
    let before = whole_within(line.bytes, line.before);
    let mut made = List::new(alloc);
    let place = Place {
        line: line.number,
        column: before as u64 + 1,
    };
    put_head(alloc, &mut made, file, place, sentence)?;
    put_pointed(&mut made, line.bytes, before)?;
    Ok(made)
}
