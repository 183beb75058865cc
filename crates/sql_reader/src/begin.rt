// A token where an expression begins.
ghost use Rattle.std.specs.Prelude.{◌≡◌};
ghost use Rattle.sql_profile.specs.Tokens.{Key, Not};
ghost use Rattle.sql_reader.specs.Stacks.{forms};
ghost use Rattle.sql_reader.specs.States.{Leads, Turns, Withs};
ghost use Rattle.sql_reader.specs.Steps.{asks, start, start_exists, start_row, start_scalar};
ghost use Rattle.sql_reader.specs.Symbols.{mark_token, token_view};

use crate::form::Form;
use crate::levels::level;
use crate::moves::{leaf, named, wants};
use crate::stack::Stack;
use crate::state::{Head, Position};
use crate::token::{Mark, Symbol, Token};
use lexical::unquoted;
use nq_model::{Binary, Memory};
use sql_profile::ExprNode;
use std::alloc::Global;

/// A token where an expression begins.
#[tactic(auto, using(crate::proofs::Putting::same_text))]
pub fn start(alloc: Global, stack: &mut Stack, token: Token<'_>) -> Result<Option<Position>, Memory>
    ensures { (b : Withs) → Turns result b (forms stack.new.levels)
        (start b (forms stack.old.levels) (token_view token.entry)) }
{
    let place = token.place;
    match token.symbol {
        Symbol::Number(number) => leaf(alloc, place, ExprNode::Int(number.value as i64)),
        Symbol::Literal(spelled) => {
            let text = unquoted(alloc, spelled)?;
            leaf(alloc, place, ExprNode::Text(text))
        }
        Symbol::Name(name) => {
            let name = named(alloc, place, name)?;
            Ok(Some(Position::AtName { name }))
        }
        Symbol::Mark(mark) => start_mark(alloc, stack, place, mark),
        Symbol::End => Ok(None),
    }
}

// A keyword or a symbol where an expression begins.
fn start_mark(
    alloc: Global,
    stack: &mut Stack,
    place: u64,
    mark: Mark,
) -> Result<Option<Position>, Memory>
    ensures { (b : Withs) → Turns result b (forms stack.new.levels)
        (start b (forms stack.old.levels) (mark_token mark place)) }
{
    match mark {
        Mark::Truth(truth) => leaf(alloc, place, ExprNode::Bool(truth)),
        Mark::Opening => wants(stack, Form::Paren { place }),
        Mark::Operator(Binary::Sub) => wants(stack, Form::Minus { place }),
        Mark::Case => Ok(Some(Position::AtCase { place })),
        Mark::Not => start_not(stack, place),
        Mark::Exists => Ok(start_exists(stack)),
        Mark::Select => Ok(start_scalar(stack)),
        Mark::RowNumber => Ok(start_row(stack)),
        _ => Ok(None),
    }
}

// NOT, where it may begin an expression.
fn start_not(stack: &mut Stack, place: u64) -> Result<Option<Position>, Memory>
    ensures { (b : Withs) → Turns result b (forms stack.new.levels)
        (start b (forms stack.old.levels) (Key place Not)) }
{
    if asks(stack) <= 3 {
        wants(stack, Form::Not { place })
    } else {
        Ok(None)
    }
}

// EXISTS behind NOT.
fn start_exists(stack: &mut Stack) -> Option<Position>
    ensures { (b : Withs) → Leads result b (forms stack.new.levels)
        (start_exists (forms stack.old.levels) b) }
{
    match stack.pop()? {
        Form::Not { place } => Some(Position::AtExists { place }),
        _ => None,
    }
}

// SELECT behind a `(`.
fn start_scalar(stack: &mut Stack) -> Option<Position>
    ensures { (b : Withs) → Leads result b (forms stack.new.levels)
        (start_scalar (forms stack.old.levels) b) }
{
    match stack.pop()? {
        Form::Paren { place } => Some(Position::AtHead {
            place,
            head: Head::Select,
        }),
        _ => None,
    }
}

// ROW_NUMBER behind SELECT, or behind a comma of items.
fn start_row(stack: &Stack) -> Option<Position>
    ensures { (b : Withs) → Leads result b (forms stack.now.levels)
        (start_row (forms stack.now.levels) b) }
{
    match stack.top() {
        Some(Form::Item { .. }) => Some(Position::AtRow),
        _ => None,
    }
}

// The level that the next expression has to have.
fn asks(stack: &Stack) -> u64
    ensures { result ≡ asks (forms stack.now.levels) }
{
    match stack.top() {
        Some(Form::Right { op, .. }) => level(*op) + 1,
        Some(Form::Minus { .. }) => 7,
        Some(Form::Not { .. }) => 3,
        _ => 1,
    }
}
