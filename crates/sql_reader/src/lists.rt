// Parts of a query that were read, of which more may come.
ghost use Rattle.std.specs.Prelude.{◌≡◌, Option, IfOk};
ghost use Rattle.sql_reader.specs.Parts.{add_item, add_key, add_select, add_source, begun, counting, no_keys, no_selects, numbering, plain, summing};
ghost use Rattle.sql_reader.specs.Views.{begun_view, kept_tree, keys_view, name_view, part_view, scalar_view, selects_view, value_view};

use crate::extent::{Extent, enclosed, greater, nothing};
use crate::part::Part;
use nq_model::{Label, List, Memory};
use sql_profile::{Expr, Item, ItemValue, Select, Source, With};
use std::alloc::Global;

/// A name and its place.
#[derive(Drop)]
pub struct Name {
    pub place: u64,
    pub label: Label,
}

/// The SELECTs of a query so far, and how deep the deepest is.
#[derive(Drop)]
pub struct Selects {
    pub selects: List<Select>,
    pub extent: Extent,
}

/// The order keys of a numbering so far, and how deep the deepest is.
#[derive(Drop)]
pub struct Keys {
    pub keys: List<Expr>,
    pub extent: Extent,
}

/// A SELECT that was begun: those before it in its query, its place, its items so far and how deep
/// they are.
#[derive(Drop)]
pub struct Begun {
    pub before: Selects,
    pub place: u64,
    pub items: List<Item>,
    pub extent: Extent,
}

/// A scalar query that was begun: its place, the value that it sums, if it counts nothing, and how
/// deep that is.
#[derive(Drop)]
pub struct Scalar {
    pub place: u64,
    pub value: Option<Box<Expr>>,
    pub extent: Extent,
}

/// What sources and a condition belong to.
#[derive(Drop)]
pub enum Ranged {
    Select(Begun),
    Scalar(Scalar),
}

/// What stands before AS in an item, and how deep it is.
#[derive(Drop)]
pub struct Value {
    pub value: ItemValue,
    pub extent: Extent,
}

/// The WITH queries so far, how deep they are, and the name of the one that is being read, if one
/// is.
#[derive(Drop)]
pub struct Base {
    pub withs: List<With>,
    pub extent: Extent,
    pub name: Option<Name>,
}

/// No SELECTs.
pub fn no_selects(alloc: Global) -> Selects
    ensures { selects_view result ≡ no_selects }
{
    Selects {
        selects: List::new(alloc),
        extent: nothing(),
    }
}

/// No order keys.
pub fn no_keys(alloc: Global) -> Keys
    ensures { keys_view result ≡ no_keys }
{
    Keys {
        keys: List::new(alloc),
        extent: nothing(),
    }
}

/// A SELECT with no items as yet.
pub fn begin_select(alloc: Global, before: Selects, place: u64) -> Begun
    ensures { begun_view result ≡ begun (selects_view before) place }
{
    Begun {
        before,
        place,
        items: List::new(alloc),
        extent: nothing(),
    }
}

/// The SELECT with one more item.
pub fn add_item(begun: Begun, value: Value, name: Name) -> Result<Begun, Memory>
    ensures { IfOk result (λ more.
        begun_view more ≡ add_item (begun_view begun) (value_view value) (name_view name)) }
{
    let mut begun = begun;
    begun.items.push(Item {
        name: name.label,
        place: name.place,
        value: value.value,
    })?;
    begun.extent = greater(begun.extent, value.extent);
    Ok(begun)
}

/// The sources with one more.
pub fn add_source(from: List<Source>, table: Name, alias: Label) -> Result<List<Source>, Memory>
    ensures { IfOk result (λ more. more ≡ add_source from (name_view table) alias) }
{
    let mut from = from;
    from.push(Source {
        table: table.label,
        alias,
        place: table.place,
    })?;
    Ok(from)
}

/// The order keys with one more.
#[tactic(auto, using(crate::proofs::Putting::keys_put))]
pub fn add_key(keys: Keys, part: Part) -> Result<Keys, Memory>
    ensures { IfOk result (λ more. keys_view more ≡ add_key (keys_view keys) (part_view part)) }
{
    let mut keys = keys;
    keys.extent = greater(keys.extent, part.extent);
    keys.keys.push(Box::into_inner(part.expr))?;
    Ok(keys)
}

/// The SELECTs with the one that was begun, of these sources, and of what it keeps, which is so
/// deep.
#[tactic(auto, using(crate::proofs::Putting::selects_put))]
pub fn add_select(
    begun: Begun,
    from: List<Source>,
    keep: Option<Expr>,
    kept: Extent,
) -> Result<Selects, Memory>
    ensures { IfOk result (λ more.
        selects_view more ≡ add_select (begun_view begun) from (kept_tree keep) kept.depth) }
{
    let Begun {
        before,
        place,
        items,
        extent,
    } = begun;
    let whole = enclosed(greater(extent, kept))?;
    let deepest = greater(before.extent, whole);
    let mut selects = before.selects;
    selects.push(Select {
        place,
        items,
        from,
        keep,
    })?;
    Ok(Selects {
        selects,
        extent: deepest,
    })
}

/// A scalar query that counts.
pub fn counting(place: u64) -> Scalar
    ensures { scalar_view result ≡ counting place }
{
    Scalar {
        place,
        value: None,
        extent: nothing(),
    }
}

/// A scalar query that sums an expression.
pub fn summing(place: u64, part: Part) -> Scalar
    ensures { scalar_view result ≡ summing place (part_view part) }
{
    Scalar {
        place,
        value: Some(part.expr),
        extent: part.extent,
    }
}

/// An expression as an item.
pub fn plain(part: Part) -> Value
    ensures { value_view result ≡ plain (part_view part) }
{
    let extent = part.extent;
    Value {
        value: ItemValue::Plain(Box::into_inner(part.expr)),
        extent,
    }
}

/// A numbering as an item.
pub fn numbering(keys: Keys) -> Value
    ensures { value_view result ≡ numbering (keys_view keys) }
{
    Value {
        value: ItemValue::Number(keys.keys),
        extent: keys.extent,
    }
}
