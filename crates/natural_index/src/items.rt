// Expressions under the names of an answer's columns.
ghost use Rattle.std.specs.Prelude.{◌≡◌, ◌+◌, ◌++◌, ◌∷◌, [], IfOk, OnOk, map};
ghost use Rattle.sql_profile.specs.Trees.{expr_tree, plain};
ghost use Rattle.flatten.specs.Names.{number_text};
ghost use Rattle.flatten.specs.Views.{item_view};
ghost use Rattle.natural_index.specs.Trees.{as_items, in_columns, numbered};

use nq_model::{Label, List, Memory};
use sql_profile::{Expr, Item, ItemValue};
use std::alloc::Global;

// A word and a number.
#[tactic(auto, using(flatten::proofs::Apart::number_text_decimal, crate::proofs::Numbered::word_numbered))]
fn numbered_name(alloc: Global, word: &str, number: u64) -> Result<Label, Memory>
    ensures { IfOk result (λ name. name ≡ word.now ++ number_text number) }
{
    let name = format!(in alloc; "{word}{number}")?;
    Label::from_str(alloc, name.as_str())
}

// Puts an expression under a name at the end.
#[tactic(auto, using(flatten::proofs::Lists::plain_seen))]
fn push_item(items: &mut List<Item>, name: Label, value: Expr) -> Result<(), Memory>
    ensures { OnOk result (map item_view items.new
        ≡ map item_view items.old ++ (name, plain (expr_tree value)) ∷ []) }
{
    items.push(Item {
        name,
        place: 0,
        value: ItemValue::Plain(value),
    })
}

// Puts expressions under a word and their number, from 1 on, at the end.
fn push_numbered(
    alloc: Global,
    items: &mut List<Item>,
    word: &str,
    exprs: List<Expr>,
) -> Result<(), Memory>
    ensures { OnOk result (map item_view items.new
        ≡ map item_view items.old ++ as_items (numbered word.now 1 (map expr_tree exprs))) }
{
    let mut number: u64 = 1;
    for expr in exprs.into_vec() {
        let name = numbered_name(alloc, word, number)?;
        push_item(items, name, expr)?;
        number = number.checked_add(1).ok_or(Memory)?;
    }
    Ok(())
}

/// The items of an answer: a tag, key columns of each type, and the parts of the element.
pub(crate) fn items_of(
    alloc: Global,
    tag: Expr,
    ints: List<Expr>,
    bools: List<Expr>,
    texts: List<Expr>,
    parts: List<Expr>,
) -> Result<List<Item>, Memory>
    ensures { IfOk result (λ items. map item_view items
        ≡ as_items (in_columns (expr_tree tag) (map expr_tree ints) (map expr_tree bools)
        (map expr_tree texts) (map expr_tree parts))) }
{
    let mut items = List::new(alloc);
    push_item(&mut items, Label::from_str(alloc, "ot")?, tag)?;
    push_numbered(alloc, &mut items, "ki", ints)?;
    push_numbered(alloc, &mut items, "kb", bools)?;
    push_numbered(alloc, &mut items, "kt", texts)?;
    push_numbered(alloc, &mut items, "c", parts)?;
    Ok(items)
}
