// A token where a type begins.
ghost use Rattle.std.specs.Prelude.{List};
ghost use Rattle.nq_model.specs.QueryGrammar.{Edition as AnyEdition};
ghost use Rattle.nq_model.specs.QueryTokens.{Closing, Sign};
ghost use Rattle.nq_parser.specs.Editions.{edition_view};
ghost use Rattle.nq_parser.specs.Forms.{around_view};
ghost use Rattle.nq_parser.specs.Machine.{Frame, begin_base, start_base, start_type};
ghost use Rattle.nq_parser.specs.States.{Leads, Stands};
ghost use Rattle.query_syntax.specs.Symbols.{token_view};
ghost use Rattle.nq_parser.specs.TypeStacks.{type_frames};
ghost use Rattle.nq_parser.specs.Words.{kind_view};

use crate::edition::Edition;
use crate::form::TypeForm;
use crate::part::TypePart;
use crate::state::{Position, TypeState};
use crate::wants::wants_type;
use crate::words::{WordKind, kind_of};
use nq_model::{Label, Memory};
use query_syntax::{Symbol, Token, TypeSyntax, Variable};
use std::alloc::Global;

/// A token where a type begins.
pub fn start_type(
    alloc: Global,
    edition: Edition,
    ty: TypeState,
    token: Token<'_>,
) -> Result<Option<Position>, Memory>
    ensures { (k : List Frame)
        → Leads result k (start_type (edition_view edition) (type_frames ty.forms.levels)
        (around_view ty.around) k (token_view token.entry)) }
{
    let place = token.place;
    match token.symbol {
        Symbol::Word(word) => start_base(alloc, edition, ty, place, word),
        Symbol::Opening => wants_type(ty, TypeForm::Paren { opening: place }),
        Symbol::OpeningBag => wants_type(ty, TypeForm::Bag { opening: place }),
        Symbol::Closing => Ok(no_types(ty, place)),
        Symbol::Number(_)
        | Symbol::Literal(_)
        | Symbol::Operator(_)
        | Symbol::ClosingBag
        | Symbol::Comma
        | Symbol::Colon
        | Symbol::Semicolon
        | Symbol::Dot
        | Symbol::Assign
        | Symbol::From
        | Symbol::Arrow
        | Symbol::Bang
        | Symbol::End => Ok(None),
    }
}

// `(` and `)` are the record type with no fields.
#[tactic(auto, using(crate::proofs::TypeStepping::no_paren_closing))]
fn no_types(ty: TypeState, closing: u64) -> Option<Position>
    ensures { (edition : AnyEdition) (k : List Frame)
        → Stands result k (start_type edition (type_frames ty.forms.levels) (around_view ty.around)
        k (Sign closing Closing)) }
{
    let mut ty = ty;
    match ty.forms.take_paren() {
        Some(opening) => {
            let part = TypePart {
                ty: TypeSyntax::NoFields { opening, closing },
                depth: 1,
            };
            Some(Position::HaveType { part, ty })
        }
        None => None,
    }
}

// A word where a type begins; behind `(` it may be a label.
#[tactic(auto, using(crate::proofs::TypeStepping::no_paren_word))]
fn start_base(
    alloc: Global,
    edition: Edition,
    ty: TypeState,
    place: u64,
    word: &str,
) -> Result<Option<Position>, Memory>
    ensures { (k : List Frame)
        → Leads result k (start_base (edition_view edition) (type_frames ty.forms.levels)
        (around_view ty.around) k place word.now) }
{
    let mut ty = ty;
    match ty.forms.take_paren() {
        Some(opening) => {
            let name = Label::from_str(alloc, word)?;
            let word = Variable { place, name };
            Ok(Some(Position::AtTypeWord { opening, word, ty }))
        }
        None => { Ok(begin_base(ty, kind_of(edition, word), place)) }
    }
}

// The name of a base type.
fn begin_base(ty: TypeState, kind: WordKind, place: u64) -> Option<Position>
    ensures { (k : List Frame)
        → Stands result k (begin_base (kind_view kind) (type_frames ty.forms.levels)
        (around_view ty.around) k place) }
{
    match kind {
        WordKind::Base(base) => {
            let part = TypePart {
                ty: TypeSyntax::Base { place, base },
                depth: 1,
            };
            Some(Position::HaveType { part, ty })
        }
        WordKind::For
        | WordKind::Where
        | WordKind::If
        | WordKind::Then
        | WordKind::Else
        | WordKind::Fun
        | WordKind::Let
        | WordKind::Table
        | WordKind::Aggregate(_)
        | WordKind::Truth(_)
        | WordKind::Name => None,
    }
}
