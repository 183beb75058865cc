// A token where an expression begins.
ghost use Rattle.std.specs.Prelude.{◌≡◌, [], cond, leb, Some, None};
ghost use Rattle.nq_model.specs.QueryGrammar.{Edition as AnyEdition, IsIf};
ghost use Rattle.nq_parser.specs.Editions.{edition_view};
ghost use Rattle.nq_model.specs.QueryTokens.{Closing, Colon, Sign};
ghost use Rattle.nq_parser.specs.Machine.{asks, asks_of, begin_word, start, start_prefix, start_word};
ghost use Rattle.nq_parser.specs.Stacks.{frames};
ghost use Rattle.nq_parser.specs.Forms.{form_view};
ghost use Rattle.nq_parser.specs.States.{position_view, Leads, Stands};
ghost use Rattle.query_syntax.specs.Symbols.{token_view};
ghost use Rattle.nq_parser.specs.Words.{kind_view};

use crate::edition::Edition;
use crate::form::{Around, Form};
use crate::have::have;
use crate::levels::level;
use crate::stack::Stack;
use crate::state::{Position, TypeState};
use crate::type_stack::TypeStack;
use crate::wants::wants;
use crate::words::{WordKind, kind_of};
use nq_model::{Binary, Label, Memory, Text, Unary};
use query_syntax::{Operator, Symbol, Syntax, Token, Variable};
use std::alloc::Global;

/// A token where an expression begins.
pub fn start(
    alloc: Global,
    edition: Edition,
    stack: &mut Stack,
    token: Token<'_>,
) -> Result<Option<Position>, Memory>
    ensures { Leads result (frames stack.new.levels)
        (start (edition_view edition) (frames stack.old.levels) (token_view token.entry)) }
{
    let place = token.place;
    match token.symbol {
        Symbol::Number(number) => have(alloc, Syntax::Number { place, number }, 1, 0),
        Symbol::Literal(spelled) => {
            let spelled = Text::from_str(alloc, spelled)?;
            have(alloc, Syntax::Literal { place, spelled }, 1, 0)
        }
        Symbol::Word(word) => start_word(alloc, edition, stack, place, word),
        Symbol::Operator(Operator::Of(Binary::Sub)) => start_prefix(stack, place, Unary::Minus),
        Symbol::Bang => start_prefix(stack, place, Unary::Not),
        Symbol::Opening => wants(stack, Form::Paren { opening: place }),
        Symbol::OpeningBag => wants(stack, Form::Bag { opening: place }),
        Symbol::Closing => no_fields(alloc, stack, place),
        Symbol::Colon => nil_type(alloc, stack, place),
        Symbol::Operator(
            Operator::Union
            | Operator::Of(
                Binary::Eq
                | Binary::Ne
                | Binary::Lt
                | Binary::Le
                | Binary::Gt
                | Binary::Ge
                | Binary::And
                | Binary::Or
                | Binary::Add
                | Binary::Mul,
            ),
        )
        | Symbol::ClosingBag
        | Symbol::Comma
        | Symbol::Semicolon
        | Symbol::Dot
        | Symbol::Assign
        | Symbol::From
        | Symbol::Arrow
        | Symbol::End => Ok(None),
    }
}

// `(` and `)` are the record with no fields.
#[tactic(auto, using(crate::proofs::Stepping::no_paren_closing))]
fn no_fields(alloc: Global, stack: &mut Stack, closing: u64) -> Result<Option<Position>, Memory>
    ensures { (edition : AnyEdition)
        → Leads result (frames stack.new.levels)
        (start edition (frames stack.old.levels) (Sign closing Closing)) }
{
    match stack.take_paren() {
        Some(opening) => have(alloc, Syntax::NoFields { opening, closing }, 1, 0),
        None => Ok(None),
    }
}

// `[` and `:` begin an empty bag.
#[tactic(auto, using(crate::proofs::Stepping::no_bag_colon))]
fn nil_type(alloc: Global, stack: &mut Stack, colon: u64) -> Result<Option<Position>, Memory>
    ensures { (edition : AnyEdition)
        → Leads result (frames stack.new.levels)
        (start edition (frames stack.old.levels) (Sign colon Colon)) }
{
    match stack.take_bag() {
        Some(opening) => {
            let ty = TypeState {
                forms: TypeStack::new(alloc),
                around: Around::Nil { opening, colon },
            };
            Ok(Some(Position::WantType { ty }))
        }
        None => Ok(None),
    }
}

// `-` or `!`, where one may begin an expression.
fn start_prefix(stack: &mut Stack, place: u64, op: Unary) -> Result<Option<Position>, Memory>
    ensures { Leads result (frames stack.new.levels)
        (start_prefix (frames stack.old.levels) place op) }
{
    if asks(stack) <= 8 {
        wants(stack, Form::Prefix { place, op })
    } else {
        Ok(None)
    }
}

// A word where an expression begins; behind `(` it may be a label.
#[tactic(auto, using(crate::proofs::Stepping::no_paren_word))]
fn start_word(
    alloc: Global,
    edition: Edition,
    stack: &mut Stack,
    place: u64,
    word: &str,
) -> Result<Option<Position>, Memory>
    ensures { Leads result (frames stack.new.levels)
        (start_word (edition_view edition) (frames stack.old.levels) place word.now) }
{
    match stack.take_paren() {
        Some(opening) => {
            let name = Label::from_str(alloc, word)?;
            let word = Variable { place, name };
            Ok(Some(Position::AtWord { opening, word }))
        }
        None => begin_word(alloc, stack, kind_of(edition, word), place, word),
    }
}

// A word of this kind where an expression begins.
fn begin_word(
    alloc: Global,
    stack: &mut Stack,
    kind: WordKind,
    place: u64,
    word: &str,
) -> Result<Option<Position>, Memory>
    ensures { Leads result (frames stack.new.levels)
        (begin_word (kind_view kind) (frames stack.old.levels) place word.now) }
{
    match kind {
        WordKind::Name => {
            let name = Label::from_str(alloc, word)?;
            have(alloc, Syntax::Var { place, name }, 1, 0)
        }
        WordKind::Truth(truth) => have(alloc, Syntax::Truth { place, truth }, 1, 0),
        WordKind::Table => Ok(Some(Position::AtTable { place })),
        WordKind::Aggregate(aggregate) => Ok(Some(Position::AtAggregate { aggregate, place })),
        WordKind::If => begin_if(stack, place),
        WordKind::For => Ok(begin_form(stack, 1, Position::AtFor { place })),
        WordKind::Where => Ok(begin_form(stack, 1, Position::AtWhere { place })),
        WordKind::Fun => Ok(begin_form(stack, 1, Position::AtFun { place })),
        WordKind::Let => Ok(begin_form(stack, 0, Position::AtLet { place })),
        WordKind::Then | WordKind::Else | WordKind::Base(_) => Ok(None),
    }
}

// A form of this level begins, where no higher one is asked for.
fn begin_form(stack: &Stack, level: u64, at: Position) -> Option<Position>
    ensures { Stands result (frames stack.now.levels)
        (cond (leb (asks (frames stack.now.levels)) level)
        (Some (position_view at (frames stack.now.levels))) None) }
{
    let begins = asks(stack) <= level;
    begins.then_some(at)
}

fn begin_if(stack: &mut Stack, place: u64) -> Result<Option<Position>, Memory>
    ensures { Leads result (frames stack.new.levels)
        (begin_word IsIf (frames stack.old.levels) place []) }
{
    if asks(stack) <= 1 {
        wants(stack, Form::If { place })
    } else {
        Ok(None)
    }
}

// The level that the next expression has to have.
fn asks(stack: &Stack) -> u64
    ensures { result ≡ asks (frames stack.now.levels) }
{
    match stack.top() {
        Some(form) => asks_of(form),
        None => 0,
    }
}

fn asks_of(form: &Form) -> u64
    ensures { result ≡ asks_of (form_view form.now) }
{
    match form {
        Form::Right { op, .. } => level(*op) + 1,
        Form::Prefix { .. } => 8,
        Form::LetBody { .. } => 0,
        Form::Paren { .. }
        | Form::Bag { .. }
        | Form::Aggregate { .. }
        | Form::Source { .. }
        | Form::ForBody { .. }
        | Form::Test { .. }
        | Form::Guarded { .. }
        | Form::If { .. }
        | Form::Then { .. }
        | Form::Else { .. }
        | Form::FunBody { .. }
        | Form::LetValue { .. }
        | Form::Argument { .. }
        | Form::Field { .. } => 1,
    }
}
