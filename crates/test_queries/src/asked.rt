// A query text, read, typed over the tables of an organisation, and unfolded.
use nq_model::{Memory, Node, Schema, Term, boxed};
use nq_parser::parse;
use nq_types::check;
use std::alloc::Global;
use unfold::unfold;

/// What comes of a query.
#[derive(Drop)]
pub enum Outcome {
    IllTyped,
    WantOfMemory,
    Reached(Term),
}

/// The term that a query text spells.
pub fn read(alloc: Global, text: &str) -> Result<Term, Memory> {
    parse(alloc, text.as_bytes(), 200).map_err(|_| Memory)
}

/// The term, where a function that is applied on the spot is a `let` in its place: at the head of the term, and at the
/// head of the body of a `for` or of such a function, where no text spells one. Another application at such a place
/// is an error.
#[cycle(with_lets)]
pub fn with_lets(alloc: Global, term: Term) -> Result<Term, Memory> {
    let Term { place, node } = term;
    match node {
        Node::For { source, body } => {
            let body = with_lets(alloc, Box::into_inner(body))?;
            let body = boxed(alloc, body)?;
            Ok(Term {
                place,
                node: Node::For { source, body },
            })
        }
        Node::Apply { func, arg } => let_of(alloc, place, Box::into_inner(func), arg),
        node => Ok(Term { place, node }),
    }
}

#[cycle(with_lets)]
fn let_of(alloc: Global, place: u64, func: Term, value: Box<Term>) -> Result<Term, Memory> {
    match func.node {
        Node::Fun { taken: _, body } => {
            let body = with_lets(alloc, Box::into_inner(body))?;
            let body = boxed(alloc, body)?;
            Ok(Term {
                place,
                node: Node::Bind { value, body },
            })
        }
        _ => Err(Memory),
    }
}

/// What comes of the query that a term is.
pub fn answered(alloc: Global, schema: &Schema, term: Term) -> Outcome {
    match check(alloc, schema, &term) {
        Ok(_type) => match unfold(alloc, schema, term) {
            Ok(reached) => Outcome::Reached(reached),
            Err(Memory) => Outcome::WantOfMemory,
        },
        Err(_) => Outcome::IllTyped,
    }
}
