// The two ways to the text of answers.
use answer_text::answer_text;
use canon::{sort_deep, write};
use nq_model::{List, Memory, Ty, Value};
use reference_stitching::are_answers;
use sql_profile::Answer;
use std::alloc::Global;
use stitcher::{FlatNumbers, stitch};

// The value that the answers are stitched to, if they are answers of the type.
fn stitched(alloc: Global, of: &Ty, answers: &List<Answer>) -> Result<Option<Value>, Memory> {
    let scheme = FlatNumbers::new(alloc, of)?;
    if !are_answers(alloc, &scheme, of, answers.as_slice())? {
        return Ok(None);
    }
    match of {
        Ty::Bag(_) => Ok(Some(stitch(alloc, &scheme, of, answers)?)),
        _ => Ok(None),
    }
}

/// The text by way of the value, which is stitched and sorted; empty where these are no answers of
/// the type.
pub fn by_value(alloc: Global, of: &Ty, answers: &List<Answer>) -> Result<String, Memory> {
    let Some(value) = stitched(alloc, of, answers)? else {
        return Ok(String::new(alloc));
    };
    let sorted = sort_deep(alloc, value)?;
    text_of(alloc, write(alloc, &sorted)?)
}

/// The text straight from the answers; empty where the type is no bag.
pub fn straight(alloc: Global, of: &Ty, answers: List<Answer>) -> Result<String, Memory> {
    match of {
        Ty::Bag(_) => text_of(alloc, answer_text(alloc, of, answers)?),
        _ => Ok(String::new(alloc)),
    }
}

fn text_of(alloc: Global, bytes: List<u8>) -> Result<String, Memory> {
    Ok(String::from_utf8_lossy(alloc, bytes.as_slice())?)
}
