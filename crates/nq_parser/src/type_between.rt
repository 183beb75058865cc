// A token where one certain token of a record type has to come.
ghost use Rattle.std.specs.Prelude.{List};
ghost use Rattle.nq_model.specs.QueryGrammar.{kind};
ghost use Rattle.nq_parser.specs.Editions.{edition_view};
ghost use Rattle.nq_parser.specs.Forms.{around_view, type_fields_view};
ghost use Rattle.nq_parser.specs.Machine.{Frame, at_type_comma, at_type_label, at_type_word, no_type_label};
ghost use Rattle.nq_parser.specs.States.{Leads};
ghost use Rattle.query_syntax.specs.Symbols.{token_view};
ghost use Rattle.nq_parser.specs.TypeStacks.{type_frames};
ghost use Rattle.nq_parser.specs.Words.{kind_view};

use crate::edition::Edition;
use crate::form::{TypeForm, TypeHead};
use crate::part::{TypeFields, TypePart};
use crate::state::{Position, TypeState};
use crate::type_behind::after_type;
use crate::wants::wants_type;
use crate::words::{WordKind, kind_of};
use nq_model::{Label, Memory};
use query_syntax::{Symbol, Token, TypeSyntax, Variable};
use std::alloc::Global;

/// The label behind a comma in a record type.
pub fn at_type_comma(
    alloc: Global,
    fields: TypeFields,
    comma: u64,
    ty: TypeState,
    token: Token<'_>,
) -> Result<Option<Position>, Memory>
    ensures { (k : List Frame)
        → Leads result k (at_type_comma (type_fields_view fields) comma
        (type_frames ty.forms.levels) (around_view ty.around) k (token_view token.entry)) }
{
    match token.symbol {
        Symbol::Word(word) => {
            let label = Variable {
                place: token.place,
                name: Label::from_str(alloc, word)?,
            };
            Ok(Some(Position::AtTypeLabel {
                fields,
                comma,
                label,
                ty,
            }))
        }
        _ => Ok(None),
    }
}

/// The `:` behind a label in a record type.
pub fn at_type_label(
    fields: TypeFields,
    comma: u64,
    label: Variable,
    ty: TypeState,
    token: Token<'_>,
) -> Result<Option<Position>, Memory>
    ensures { (k : List Frame)
        → Leads result k (at_type_label (type_fields_view fields) comma label.place label.name
        (type_frames ty.forms.levels) (around_view ty.around) k (token_view token.entry)) }
{
    match token.symbol {
        Symbol::Colon => {
            let form = TypeForm::Field {
                head: TypeHead::Next { fields, comma },
                place: label.place,
                label: label.name,
                mark: token.place,
            };
            wants_type(ty, form)
        }
        _ => Ok(None),
    }
}

/// A token behind `(` and a word: a `:`, or the word is a type.
pub fn at_type_word(
    alloc: Global,
    edition: Edition,
    opening: u64,
    word: Variable,
    ty: TypeState,
    token: Token<'_>,
) -> Result<Option<Position>, Memory>
    ensures { (k : List Frame)
        → Leads result k (at_type_word (edition_view edition) opening word.place word.name
        (type_frames ty.forms.levels) (around_view ty.around) k (token_view token.entry)) }
{
    match token.symbol {
        Symbol::Colon => {
            let form = TypeForm::Field {
                head: TypeHead::First { opening },
                place: word.place,
                label: word.name,
                mark: token.place,
            };
            wants_type(ty, form)
        }
        _ => no_label(alloc, edition, opening, word, ty, token),
    }
}

// The word behind a `(` is a type, and this token stands behind it.
fn no_label(
    alloc: Global,
    edition: Edition,
    opening: u64,
    word: Variable,
    ty: TypeState,
    token: Token<'_>,
) -> Result<Option<Position>, Memory>
    ensures { (k : List Frame)
        → Leads result k (no_type_label (kind (edition_view edition) word.name) opening word.place
        (type_frames ty.forms.levels) (around_view ty.around) k (token_view token.entry)) }
{
    let kind = kind_of(edition, word.name.as_str());
    base_behind(alloc, opening, kind, word.place, ty, token)
}

// A word of this kind behind a `(`, and the token behind it.
fn base_behind(
    alloc: Global,
    opening: u64,
    kind: WordKind,
    place: u64,
    ty: TypeState,
    token: Token<'_>,
) -> Result<Option<Position>, Memory>
    ensures { (k : List Frame)
        → Leads result k (no_type_label (kind_view kind) opening place (type_frames ty.forms.levels)
        (around_view ty.around) k (token_view token.entry)) }
{
    match kind {
        WordKind::Base(base) => {
            let mut ty = ty;
            ty.forms.push(TypeForm::Paren { opening })?;
            let part = TypePart {
                ty: TypeSyntax::Base { place, base },
                depth: 1,
            };
            after_type(alloc, part, ty, token)
        }
        WordKind::For
        | WordKind::Where
        | WordKind::If
        | WordKind::Then
        | WordKind::Else
        | WordKind::Fun
        | WordKind::Let
        | WordKind::Table
        | WordKind::Aggregate(_)
        | WordKind::Truth(_)
        | WordKind::Name => Ok(None),
    }
}
