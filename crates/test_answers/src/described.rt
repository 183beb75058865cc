// Types and answers from short descriptions.
use nq_model::{Cell, Label, List, Memory, Text, Ty, boxed};
use rows::Rows;
use sql_profile::Answer;
use std::alloc::Global;

/// A type.
pub enum Shape {
    Int,
    Bool,
    Text,
    Rec(&'static [(&'static str, Shape)]),
    Bag(&'static Shape),
}

/// The rows of an answer. Their cells are words: numbers, truth values, and else texts.
pub type Listed = &'static [&'static str];

/// The type.
#[cycle(types)]
pub fn type_of(alloc: Global, shape: &Shape) -> Result<Ty, Memory> {
    match shape {
        Shape::Int => Ok(Ty::Int),
        Shape::Bool => Ok(Ty::Bool),
        Shape::Text => Ok(Ty::Text),
        Shape::Rec(fields) => Ok(Ty::Rec(fields_of(alloc, fields)?)),
        Shape::Bag(element) => Ok(Ty::Bag(boxed(alloc, type_of(alloc, element)?)?)),
    }
}

#[cycle(types)]
fn fields_of(alloc: Global, fields: &[(&'static str, Shape)]) -> Result<List<(Label, Ty)>, Memory> {
    let mut made = List::new(alloc);
    for field in fields {
        made.push((Label::from_str(alloc, field.0)?, type_of(alloc, &field.1)?))?;
    }
    Ok(made)
}

/// The type of a bag of such elements.
pub fn bag_type(alloc: Global, element: &Shape) -> Result<Ty, Memory> {
    let element = type_of(alloc, element)?;
    Ok(Ty::Bag(boxed(alloc, element)?))
}

fn cell_of(alloc: Global, word: &str) -> Result<Cell, Memory> {
    match (word, word.parse::<i64>()) {
        (_, Ok(number)) => Ok(Cell::Int(number)),
        ("false", _) => Ok(Cell::Bool(false)),
        ("true", _) => Ok(Cell::Bool(true)),
        _ => Ok(Cell::Text(Text::from_str(alloc, word)?)),
    }
}

fn answer_of(alloc: Global, listed: &[&str]) -> Result<Answer, Memory> {
    let mut rows = Rows::new(alloc);
    for words in listed {
        let mut row = List::new(alloc);
        for word in words.split(' ') {
            row.push(cell_of(alloc, word)?)?;
        }
        rows.push(row.as_slice())?;
    }
    Ok(Answer { rows })
}

/// The answers.
pub fn answers_of(alloc: Global, listed: &[Listed]) -> Result<List<Answer>, Memory> {
    let mut answers = List::new(alloc);
    for rows in listed {
        answers.push(answer_of(alloc, rows)?)?;
    }
    Ok(answers)
}
