// Answers that a seed decides. Their rows fit their columns, and need not be linked.
use crate::random::Random;
use nq_model::{Cell, Label, List, Memory, Text, Ty};
use rows::Rows;
use sql_profile::Answer;
use std::alloc::Global;

/// How the inner bags of a row are named.
pub enum Naming {
    /// By the number of the row, so that no two rows give one bag.
    ByRow,
    /// By any of the numbers, so that rows share bags.
    ByChance,
}

/// What answers are like.
pub struct Manner {
    /// Each answer has fewer rows than this, which may be none.
    pub under: u32,
    /// How their rows name bags.
    pub naming: Naming,
    /// What tags, numbers and integer cells are taken from.
    pub numbers: &'static [i64],
    /// What text cells are taken from.
    pub words: &'static [&'static str],
}

// The index of the bag that a row gives for a part.
fn inner(random: &mut Random, manner: &Manner, row: i64) -> (i64, i64) {
    match manner.naming {
        Naming::ByRow => (1, row),
        Naming::ByChance => (random.number(manner.numbers), random.number(manner.numbers)),
    }
}

// The index of the bag that a row stands in, which some row may give.
fn outer(random: &mut Random, manner: &Manner, is_top: bool) -> (i64, i64) {
    if is_top && random.below(4) > 0 {
        return (0, 1);
    }
    let row = i64::from(random.below(manner.under));
    inner(random, manner, row)
}

// Puts the cells of a part of an element at the end of its row.
#[cycle(cells)]
fn push_cells(
    alloc: Global,
    part: &Ty,
    random: &mut Random,
    manner: &Manner,
    row: i64,
    cells: &mut List<Cell>,
) -> Result<(), Memory> {
    match part {
        Ty::Int => cells.push(Cell::Int(random.number(manner.numbers))),
        Ty::Bool => cells.push(Cell::Bool(random.below(2) > 0)),
        Ty::Text => cells.push(Cell::Text(Text::from_str(alloc, random.word(manner.words))?)),
        Ty::Rec(fields) => push_field_cells(alloc, fields.as_slice(), random, manner, row, cells),
        Ty::Bag(_) => push_index(cells, inner(random, manner, row)),
        Ty::Fun(_, _) => Ok(()),
    }
}

#[cycle(cells)]
fn push_field_cells(
    alloc: Global,
    fields: &[(Label, Ty)],
    random: &mut Random,
    manner: &Manner,
    row: i64,
    cells: &mut List<Cell>,
) -> Result<(), Memory> {
    for field in fields {
        push_cells(alloc, &field.1, random, manner, row, cells)?;
    }
    Ok(())
}

fn push_index(cells: &mut List<Cell>, index: (i64, i64)) -> Result<(), Memory> {
    cells.push(Cell::Int(index.0))?;
    cells.push(Cell::Int(index.1))
}

fn answer_of(
    alloc: Global,
    element: &Ty,
    random: &mut Random,
    manner: &Manner,
    is_top: bool,
) -> Result<Answer, Memory> {
    let mut rows = Rows::new(alloc);
    for row in 0..random.below(manner.under) {
        let mut cells = List::new(alloc);
        push_index(&mut cells, outer(random, manner, is_top))?;
        push_cells(alloc, element, random, manner, i64::from(row), &mut cells)?;
        rows.push(cells.as_slice())?;
    }
    Ok(Answer { rows })
}

// Puts an answer at the end for each bag of a type, in path order.
#[cycle(answers)]
fn push_answers(
    alloc: Global,
    of: &Ty,
    random: &mut Random,
    manner: &Manner,
    answers: &mut List<Answer>,
) -> Result<(), Memory> {
    match of {
        Ty::Int | Ty::Bool | Ty::Text | Ty::Fun(_, _) => Ok(()),
        Ty::Rec(fields) => push_field_answers(alloc, fields.as_slice(), random, manner, answers),
        Ty::Bag(element) => {
            let answer = answer_of(alloc, element, random, manner, answers.is_empty())?;
            answers.push(answer)?;
            push_answers(alloc, element, random, manner, answers)
        }
    }
}

#[cycle(answers)]
fn push_field_answers(
    alloc: Global,
    fields: &[(Label, Ty)],
    random: &mut Random,
    manner: &Manner,
    answers: &mut List<Answer>,
) -> Result<(), Memory> {
    for field in fields {
        push_answers(alloc, &field.1, random, manner, answers)?;
    }
    Ok(())
}

/// Answers of a type, one for each bag in it.
pub fn answers_of(
    alloc: Global,
    of: &Ty,
    seed: u64,
    manner: &Manner,
) -> Result<List<Answer>, Memory> {
    let mut random = Random::new(seed);
    let mut answers = List::new(alloc);
    push_answers(alloc, of, &mut random, manner, &mut answers)?;
    Ok(answers)
}
