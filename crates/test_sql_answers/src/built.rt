// SQL trees from short descriptions, at no place.
use nq_model::{Binary, Label, List, Memory, Text, boxed};
use sql_profile::{Expr, ExprNode, Item, ItemValue, Picked, Query, Select, Source, SqlText, With};
use std::alloc::Global;

/// A source and a column of it.
pub type Named = (&'static str, &'static str);

/// What a scalar query ranges over: its tables with their aliases, and two columns that are equal, if any are to be.
pub struct Over {
    pub from: &'static [Named],
    pub equal: Option<(Named, Named)>,
}

/// What an item is.
pub enum Value {
    Int(i64),
    Text(&'static str),
    Column(Named),
    /// The number of a row in the order of these columns.
    Number(&'static [Named]),
    /// How many combinations a scalar query keeps.
    Count(Over),
    /// The sum of a column over them.
    Sum(Named, Over),
    /// The sum of a number over them.
    SumOf(i64, Over),
}

/// Which combinations are kept.
pub enum Keep {
    All,
    None,
    Equal(Named, Named),
    /// Those for which no row of the table has this column equal to that of another source.
    Without(Named, Named),
    /// Those for which a scalar query keeps more than so many combinations.
    MoreThan(i64, Over),
}

/// A SELECT: its items with their names, its tables with their aliases, and what it keeps.
pub struct Chosen {
    pub items: &'static [(&'static str, Value)],
    pub from: &'static [Named],
    pub keep: Keep,
}

fn label(alloc: Global, name: &str) -> Result<Label, Memory> {
    Label::from_str(alloc, name)
}

fn at_no_place(node: ExprNode) -> Expr {
    Expr { place: 0, node }
}

fn column(alloc: Global, name: Named) -> Result<Expr, Memory> {
    Ok(at_no_place(ExprNode::Column {
        alias: label(alloc, name.0)?,
        column: label(alloc, name.1)?,
    }))
}

fn equal(alloc: Global, left: Named, right: Named) -> Result<Expr, Memory> {
    Ok(at_no_place(ExprNode::Binary {
        op: Binary::Eq,
        left: boxed(alloc, column(alloc, left)?)?,
        right: boxed(alloc, column(alloc, right)?)?,
    }))
}

fn picked(alloc: Global, over: &Over) -> Result<Picked, Memory> {
    Ok(Picked {
        from: sources(alloc, over.from)?,
        keep: match &over.equal {
            Some((left, right)) => Some(equal(alloc, *left, *right)?),
            None => None,
        },
    })
}

fn count(alloc: Global, over: &Over) -> Result<Expr, Memory> {
    let over = boxed(alloc, picked(alloc, over)?)?;
    Ok(at_no_place(ExprNode::Count(over)))
}

fn sum(alloc: Global, summed: Expr, over: &Over) -> Result<Expr, Memory> {
    Ok(at_no_place(ExprNode::Sum {
        over: boxed(alloc, picked(alloc, over)?)?,
        value: boxed(alloc, summed)?,
    }))
}

fn item_value(alloc: Global, value: &Value) -> Result<ItemValue, Memory> {
    match value {
        Value::Int(number) => Ok(ItemValue::Plain(at_no_place(ExprNode::Int(*number)))),
        Value::Text(word) => {
            let spelled = Text::from_str(alloc, word)?;
            Ok(ItemValue::Plain(at_no_place(ExprNode::Text(spelled))))
        }
        Value::Column(named) => Ok(ItemValue::Plain(column(alloc, *named)?)),
        Value::Number(keys) => {
            let mut exprs = List::new(alloc);
            for key in *keys {
                exprs.push(column(alloc, *key)?)?;
            }
            Ok(ItemValue::Number(exprs))
        }
        Value::Count(over) => Ok(ItemValue::Plain(count(alloc, over)?)),
        Value::Sum(of, over) => Ok(ItemValue::Plain(sum(alloc, column(alloc, *of)?, over)?)),
        Value::SumOf(number, over) => {
            let summed = at_no_place(ExprNode::Int(*number));
            Ok(ItemValue::Plain(sum(alloc, summed, over)?))
        }
    }
}

fn items(alloc: Global, named: &[(&'static str, Value)]) -> Result<List<Item>, Memory> {
    let mut items = List::new(alloc);
    for item in named {
        items.push(Item {
            name: label(alloc, item.0)?,
            place: 0,
            value: item_value(alloc, &item.1)?,
        })?;
    }
    Ok(items)
}

fn sources(alloc: Global, from: &[Named]) -> Result<List<Source>, Memory> {
    let mut sources = List::new(alloc);
    for source in from {
        sources.push(Source {
            table: label(alloc, source.0)?,
            alias: label(alloc, source.1)?,
            place: 0,
        })?;
    }
    Ok(sources)
}

// The query that has a row for each of the table's whose column equals the other.
fn partners(alloc: Global, table: Named, other: Named) -> Result<Query, Memory> {
    let select = Select {
        place: 0,
        items: items(alloc, &[("one", Value::Int(1))])?,
        from: sources(alloc, &[(table.0, table.0)])?,
        keep: Some(equal(alloc, table, other)?),
    };
    query(alloc, select)
}

fn test(alloc: Global, keep: &Keep) -> Result<Option<Expr>, Memory> {
    match keep {
        Keep::All => Ok(None),
        Keep::None => Ok(Some(at_no_place(ExprNode::Bool(false)))),
        Keep::Equal(left, right) => Ok(Some(equal(alloc, *left, *right)?)),
        Keep::Without(table, other) => {
            let partners = boxed(alloc, partners(alloc, *table, *other)?)?;
            Ok(Some(at_no_place(ExprNode::NotExists(partners))))
        }
        Keep::MoreThan(number, over) => Ok(Some(at_no_place(ExprNode::Binary {
            op: Binary::Gt,
            left: boxed(alloc, count(alloc, over)?)?,
            right: boxed(alloc, at_no_place(ExprNode::Int(*number)))?,
        }))),
    }
}

fn select(alloc: Global, chosen: &Chosen) -> Result<Select, Memory> {
    Ok(Select {
        place: 0,
        items: items(alloc, chosen.items)?,
        from: sources(alloc, chosen.from)?,
        keep: test(alloc, &chosen.keep)?,
    })
}

fn query(alloc: Global, select: Select) -> Result<Query, Memory> {
    let mut selects = List::new(alloc);
    selects.push(select)?;
    Ok(Query { selects })
}

/// The text of these SELECTs, behind one WITH query or none.
pub fn text_of(
    alloc: Global,
    with: Option<&(&'static str, Chosen)>,
    main: &[Chosen],
) -> Result<SqlText, Memory> {
    let mut withs = List::new(alloc);
    if let Some((name, chosen)) = with {
        withs.push(With {
            name: label(alloc, name)?,
            place: 0,
            query: query(alloc, select(alloc, chosen)?)?,
        })?;
    }
    let mut selects = List::new(alloc);
    for chosen in main {
        selects.push(select(alloc, chosen)?)?;
    }
    Ok(SqlText {
        withs,
        main: Query { selects },
    })
}
