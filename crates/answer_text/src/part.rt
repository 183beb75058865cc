// Parts of elements, and where their values stand.
use crate::groups::Groups;
use crate::heading::Heading;
use nq_model::List;

/// A part of the element of a bag. Its value in a row is taken from there.
#[derive(Drop)]
pub(crate) enum Part {
    /// The cell in a column.
    Cell(usize),
    /// Parts, each with its label as it is written.
    Record(List<(Heading, Part)>),
    /// The bag under the index whose tag stands in a column, its number beside it: the rows of the
    /// bag are among these, in groups, and each is an element.
    Bag(usize, Groups, Box<Part>),
}
