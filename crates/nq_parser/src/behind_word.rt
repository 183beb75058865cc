// A token behind `(` and a word, which may be a label.
ghost use Rattle.nq_model.specs.QueryGrammar.{kind};
ghost use Rattle.nq_parser.specs.Editions.{edition_view};
ghost use Rattle.nq_parser.specs.Machine.{at_word, no_label};
ghost use Rattle.nq_parser.specs.Stacks.{frames};
ghost use Rattle.nq_parser.specs.States.{Leads};
ghost use Rattle.query_syntax.specs.Symbols.{token_view};

use crate::begin::start;
use crate::behind::after;
use crate::between::{at_aggregate, at_for, at_fun, at_table, at_where};
use crate::edition::Edition;
use crate::form::{FieldHead, Form};
use crate::part::Part;
use crate::stack::Stack;
use crate::state::Position;
use crate::wants::wants;
use crate::words::{WordKind, kind_of};
use nq_model::Memory;
use query_syntax::{Symbol, Syntax, Token, Variable};
use std::alloc::Global;

/// A token behind `(` and a word: an `=`, or the word is no label.
pub fn at_word(
    alloc: Global,
    edition: Edition,
    stack: &mut Stack,
    opening: u64,
    word: Variable,
    token: Token<'_>,
) -> Result<Option<Position>, Memory>
    ensures { Leads result (frames stack.new.levels)
        (at_word (edition_view edition) opening word.place word.name (frames stack.old.levels)
        (token_view token.entry)) }
{
    match token.symbol {
        Symbol::Assign => wants(
            stack,
            Form::Field {
                head: FieldHead::First { opening },
                place: word.place,
                label: word.name,
                mark: token.place,
            },
        ),
        _ => no_label(alloc, edition, stack, opening, word, token),
    }
}

// The word is no label, and this token stands behind it.
fn no_label(
    alloc: Global,
    edition: Edition,
    stack: &mut Stack,
    opening: u64,
    word: Variable,
    token: Token<'_>,
) -> Result<Option<Position>, Memory>
    ensures { Leads result (frames stack.new.levels)
        (no_label (edition_view edition) (kind (edition_view edition) word.name)
        opening word.place word.name (frames stack.old.levels) (token_view token.entry)) }
{
    stack.push(Form::Paren { opening })?;
    let Variable { place, name } = word;
    match kind_of(edition, name.as_str()) {
        WordKind::Name => {
            let part = Part::new(alloc, Syntax::Var { place, name }, 1, 0)?;
            after(alloc, edition, stack, part, token)
        }
        WordKind::Truth(truth) => {
            let part = Part::new(alloc, Syntax::Truth { place, truth }, 1, 0)?;
            after(alloc, edition, stack, part, token)
        }
        WordKind::Table => at_table(alloc, place, token),
        WordKind::Aggregate(aggregate) => at_aggregate(stack, aggregate, place, token),
        WordKind::For => Ok(at_for(place, token)),
        WordKind::Where => at_where(stack, place, token),
        WordKind::If => {
            stack.push(Form::If { place })?;
            start(alloc, edition, stack, token)
        }
        WordKind::Fun => Ok(at_fun(place, token)),
        WordKind::Then | WordKind::Else | WordKind::Let | WordKind::Base(_) => Ok(None),
    }
}
