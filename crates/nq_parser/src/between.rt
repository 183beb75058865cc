// A token where one certain token has to come.
ghost use Rattle.std.specs.Prelude.{◌≡◌, cond, List, None, Some};
ghost use Rattle.nq_parser.specs.Editions.{edition_view};
ghost use Rattle.nq_parser.specs.Forms.{fields_view, part_view};
ghost use Rattle.nq_parser.specs.Machine.{Frame, State as MachineState, at_aggregate, at_comma, at_dot, at_for, at_for_name, at_for_open, at_fun, at_fun_close, at_fun_name, at_fun_open, at_label, at_let, at_let_name, at_table, at_where, if_name};
ghost use Rattle.nq_parser.specs.Stacks.{frames};
ghost use Rattle.nq_parser.specs.States.{Leads, Stands};
ghost use Rattle.query_syntax.specs.Symbols.{token_view};
ghost use Rattle.query_syntax.specs.Trees.{aggregate_view, type_view};
ghost use Rattle.nq_parser.specs.Words.{kind_view};

use crate::edition::Edition;
use crate::form::{Around, FieldHead, Form};
use crate::have::have;
use crate::part::{Fields, Part, TypePart, deeper};
use crate::stack::Stack;
use crate::state::{Position, TypeState};
use crate::type_stack::TypeStack;
use crate::wants::wants;
use crate::words::{WordKind, kind_of};
use nq_model::{Label, Memory};
use query_syntax::{Aggregate, Symbol, Syntax, Token, Variable};
use std::alloc::Global;

/// The name of a table.
pub fn at_table(alloc: Global, place: u64, token: Token<'_>) -> Result<Option<Position>, Memory>
    ensures { (k : List Frame) → Leads result k (at_table place k (token_view token.entry)) }
{
    match token.symbol {
        Symbol::Word(name) => {
            let syntax = Syntax::Table {
                place,
                word: token.place,
                name: Label::from_str(alloc, name)?,
            };
            have(alloc, syntax, 1, 0)
        }
        _ => Ok(None),
    }
}

/// The `(` behind `empty`, `count` or `sum`.
pub fn at_aggregate(
    stack: &mut Stack,
    aggregate: Aggregate,
    place: u64,
    token: Token<'_>,
) -> Result<Option<Position>, Memory>
    ensures { Leads result (frames stack.new.levels)
        (at_aggregate (aggregate_view aggregate) place (frames stack.old.levels)
        (token_view token.entry)) }
{
    match token.symbol {
        Symbol::Opening => wants(
            stack,
            Form::Aggregate {
                aggregate,
                place,
                opening: token.place,
            },
        ),
        _ => Ok(None),
    }
}

/// The `(` behind `for`.
pub fn at_for(place: u64, token: Token<'_>) -> Option<Position>
    ensures { (k : List Frame) → Stands result k (at_for place k (token_view token.entry)) }
{
    match token.symbol {
        Symbol::Opening => Some(Position::AtForOpen {
            place,
            opening: token.place,
        }),
        _ => None,
    }
}

/// The `(` behind `where`.
pub fn at_where(stack: &mut Stack, place: u64, token: Token<'_>) -> Result<Option<Position>, Memory>
    ensures { Leads result (frames stack.new.levels)
        (at_where place (frames stack.old.levels) (token_view token.entry)) }
{
    match token.symbol {
        Symbol::Opening => wants(
            stack,
            Form::Test {
                place,
                opening: token.place,
            },
        ),
        _ => Ok(None),
    }
}

/// The `(` behind `fun`.
pub fn at_fun(place: u64, token: Token<'_>) -> Option<Position>
    ensures { (k : List Frame) → Stands result k (at_fun place k (token_view token.entry)) }
{
    match token.symbol {
        Symbol::Opening => Some(Position::AtFunOpen {
            place,
            opening: token.place,
        }),
        _ => None,
    }
}

/// The variable of a `for`.
pub fn at_for_open(
    alloc: Global,
    edition: Edition,
    place: u64,
    opening: u64,
    token: Token<'_>,
) -> Result<Option<Position>, Memory>
    ensures { (k : List Frame)
        → Leads result k (at_for_open (edition_view edition) place opening k
        (token_view token.entry)) }
{
    match token.symbol {
        Symbol::Word(word) => {
            let variable = Variable {
                place: token.place,
                name: Label::from_str(alloc, word)?,
            };
            if is_name(kind_of(edition, word)) {
                Ok(Some(Position::AtForName {
                    place,
                    opening,
                    variable,
                }))
            } else {
                Ok(None)
            }
        }
        _ => Ok(None),
    }
}

/// The variable of a function.
pub fn at_fun_open(
    alloc: Global,
    edition: Edition,
    place: u64,
    opening: u64,
    token: Token<'_>,
) -> Result<Option<Position>, Memory>
    ensures { (k : List Frame)
        → Leads result k (at_fun_open (edition_view edition) place opening k
        (token_view token.entry)) }
{
    match token.symbol {
        Symbol::Word(word) => {
            let variable = Variable {
                place: token.place,
                name: Label::from_str(alloc, word)?,
            };
            if is_name(kind_of(edition, word)) {
                Ok(Some(Position::AtFunName {
                    place,
                    opening,
                    variable,
                }))
            } else {
                Ok(None)
            }
        }
        _ => Ok(None),
    }
}

/// The variable of a `let`.
pub fn at_let(
    alloc: Global,
    edition: Edition,
    place: u64,
    token: Token<'_>,
) -> Result<Option<Position>, Memory>
    ensures { (k : List Frame)
        → Leads result k (at_let (edition_view edition) place k (token_view token.entry)) }
{
    match token.symbol {
        Symbol::Word(word) => {
            let variable = Variable {
                place: token.place,
                name: Label::from_str(alloc, word)?,
            };
            if is_name(kind_of(edition, word)) {
                Ok(Some(Position::AtLetName { place, variable }))
            } else {
                Ok(None)
            }
        }
        _ => Ok(None),
    }
}

// Whether the word may be a variable.
fn is_name(kind: WordKind) -> bool
    ensures { (st : MachineState) → if_name (kind_view kind) st ≡ cond result (Some st) None }
{
    match kind {
        WordKind::Name => true,
        WordKind::For
        | WordKind::Where
        | WordKind::If
        | WordKind::Then
        | WordKind::Else
        | WordKind::Fun
        | WordKind::Let
        | WordKind::Table
        | WordKind::Aggregate(_)
        | WordKind::Truth(_)
        | WordKind::Base(_) => false,
    }
}

/// The `<-` of a `for`.
pub fn at_for_name(
    stack: &mut Stack,
    place: u64,
    opening: u64,
    variable: Variable,
    token: Token<'_>,
) -> Result<Option<Position>, Memory>
    ensures { Leads result (frames stack.new.levels)
        (at_for_name place opening variable.place variable.name (frames stack.old.levels)
        (token_view token.entry)) }
{
    match token.symbol {
        Symbol::From => wants(
            stack,
            Form::Source {
                place,
                opening,
                variable,
                from: token.place,
            },
        ),
        _ => Ok(None),
    }
}

/// The `:` behind the variable of a function.
pub fn at_fun_name(
    alloc: Global,
    place: u64,
    opening: u64,
    variable: Variable,
    token: Token<'_>,
) -> Option<Position>
    ensures { (k : List Frame)
        → Stands result k (at_fun_name place opening variable.place variable.name k
        (token_view token.entry)) }
{
    match token.symbol {
        Symbol::Colon => {
            let ty = TypeState {
                forms: TypeStack::new(alloc),
                around: Around::Fun {
                    place,
                    opening,
                    variable,
                    colon: token.place,
                },
            };
            Some(Position::WantType { ty })
        }
        _ => None,
    }
}

/// The `->` behind the variable of a function and its type.
pub fn at_fun_close(
    stack: &mut Stack,
    place: u64,
    opening: u64,
    variable: Variable,
    colon: u64,
    taken: TypePart,
    closing: u64,
    token: Token<'_>,
) -> Result<Option<Position>, Memory>
    ensures { Leads result (frames stack.new.levels)
        (at_fun_close place opening variable.place variable.name colon (type_view taken.ty) closing
        (frames stack.old.levels) (token_view token.entry)) }
{
    match token.symbol {
        Symbol::Arrow => wants(
            stack,
            Form::FunBody {
                place,
                opening,
                variable,
                colon,
                taken,
                closing,
                arrow: token.place,
            },
        ),
        _ => Ok(None),
    }
}

/// The `=` behind the variable of a `let`.
pub fn at_let_name(
    stack: &mut Stack,
    place: u64,
    variable: Variable,
    token: Token<'_>,
) -> Result<Option<Position>, Memory>
    ensures { Leads result (frames stack.new.levels)
        (at_let_name place variable.place variable.name (frames stack.old.levels)
        (token_view token.entry)) }
{
    match token.symbol {
        Symbol::Assign => wants(
            stack,
            Form::LetValue {
                place,
                variable,
                assign: token.place,
            },
        ),
        _ => Ok(None),
    }
}

/// The label behind a comma in a record.
pub fn at_comma(
    alloc: Global,
    fields: Fields,
    comma: u64,
    token: Token<'_>,
) -> Result<Option<Position>, Memory>
    ensures { (k : List Frame)
        → Leads result k (at_comma (fields_view fields) comma k (token_view token.entry)) }
{
    match token.symbol {
        Symbol::Word(word) => {
            let label = Variable {
                place: token.place,
                name: Label::from_str(alloc, word)?,
            };
            Ok(Some(Position::AtLabel {
                fields,
                comma,
                label,
            }))
        }
        _ => Ok(None),
    }
}

/// The `=` behind a label in a record.
pub fn at_label(
    stack: &mut Stack,
    fields: Fields,
    comma: u64,
    label: Variable,
    token: Token<'_>,
) -> Result<Option<Position>, Memory>
    ensures { Leads result (frames stack.new.levels)
        (at_label (fields_view fields) comma label.place label.name (frames stack.old.levels)
        (token_view token.entry)) }
{
    match token.symbol {
        Symbol::Assign => wants(
            stack,
            Form::Field {
                head: FieldHead::Next { fields, comma },
                place: label.place,
                label: label.name,
                mark: token.place,
            },
        ),
        _ => Ok(None),
    }
}

/// The label behind a `.`.
pub fn at_dot(
    alloc: Global,
    of: Part,
    dot: u64,
    token: Token<'_>,
) -> Result<Option<Position>, Memory>
    ensures { (k : List Frame)
        → Leads result k (at_dot (part_view of) dot k (token_view token.entry)) }
{
    match token.symbol {
        Symbol::Word(word) => {
            let depth = deeper(of.depth)?;
            let types = of.types;
            let syntax = Syntax::Field {
                of: of.syntax,
                dot,
                place: token.place,
                label: Label::from_str(alloc, word)?,
            };
            let part = Part::new(alloc, syntax, depth, types)?;
            Ok(Some(Position::Have { part }))
        }
        _ => Ok(None),
    }
}
