// The tokens of a query text.
ghost use Rattle.nq_model.specs.QueryTokens.{tokens_of};
ghost use Rattle.query_syntax.specs.Fronts.{Cuts};

use crate::fault::SyntaxFault;
use crate::front::{Front, front_at};
use crate::symbol::{Symbol, Token};
use nq_model::List;
use std::alloc::Global;

/// The tokens of a text, the end of the text being the last. `Token` and `IntRange` at the first
/// place where none is cut off; `Memory` where there is too little memory.
pub fn tokens(alloc: Global, text: &str) -> Result<List<Token<'_>>, SyntaxFault>
    ensures { Cuts result (tokens_of text.now) }
{
    let mut tokens = List::new(alloc);
    let end = text.len();
    let mut place = 0;
    while place < end {
        match front_at(text, place) {
            Front::Gap(size) => place += size,
            Front::Takes(size, symbol) => {
                tokens.push(Token {
                    place: place as u64,
                    symbol,
                })?;
                place += size;
            }
            Front::NoToken => return Err(SyntaxFault::Token {
                place: place as u64,
            }),
            Front::TooLarge => return Err(SyntaxFault::IntRange {
                place: place as u64,
            }),
        }
    }
    tokens.push(Token {
        place: place as u64,
        symbol: Symbol::End,
    })?;
    Ok(tokens)
}
