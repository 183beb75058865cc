// Let forms from short descriptions.
use nq_ir::{Base, Gen, LetForm, LetPart, LetQuery, Path, Shape, Step};
use nq_model::{Binary, Label, List, Memory, Text, Ty, boxed};
use std::alloc::Global;

/// The number of a generator, and a column of its table.
pub type Named = (u64, &'static str);

/// Generators with their tables, and columns that are equal.
pub struct Over {
    pub gens: &'static [Named],
    pub equal: &'static [(Named, Named)],
}

/// What a row holds.
pub enum Held {
    Word(&'static str),
    Column(Named),
    /// A record of a column and a bag, under these labels.
    WithBag(&'static str, Named, &'static str),
}

/// A part: the number of its let, its tag, what it ranges over, and what its rows hold.
pub struct Part {
    pub from: u64,
    pub tag: u64,
    pub over: Over,
    pub held: Held,
}

/// A let form: the labels of its path, those of the records of its element, from the outermost inwards, each with a
/// text and a bag, the tags of its lets with what these range over, and its parts.
pub struct Form {
    pub path: &'static [&'static str],
    pub records: &'static [(&'static str, &'static str)],
    pub lets: &'static [(u64, Over)],
    pub parts: &'static [Part],
}

fn label(alloc: Global, name: &str) -> Result<Label, Memory> {
    Label::from_str(alloc, name)
}

fn path(alloc: Global, labels: &[&str]) -> Result<Path, Memory> {
    let mut steps = List::new(alloc);
    for name in labels {
        steps.push(Step::Down)?;
        steps.push(Step::Field(label(alloc, name)?))?;
    }
    Ok(Path { steps })
}

fn element(alloc: Global, records: &[(&str, &str)]) -> Result<Ty, Memory> {
    let mut inner = Ty::Text;
    for record in records.iter().rev() {
        let mut fields = List::new(alloc);
        fields.push((label(alloc, record.0)?, Ty::Text))?;
        fields.push((label(alloc, record.1)?, Ty::Bag(boxed(alloc, inner)?)))?;
        inner = Ty::Rec(fields);
    }
    Ok(inner)
}

fn gens(alloc: Global, over: &Over) -> Result<List<Gen>, Memory> {
    let mut gens = List::new(alloc);
    for from in over.gens {
        gens.push(Gen {
            number: from.0,
            table: label(alloc, from.1)?,
        })?;
    }
    Ok(gens)
}

fn column(alloc: Global, named: Named) -> Result<Base, Memory> {
    Ok(Base::Column {
        generator: named.0,
        column: label(alloc, named.1)?,
    })
}

fn conds(alloc: Global, over: &Over) -> Result<List<Base>, Memory> {
    let mut conds = List::new(alloc);
    for pair in over.equal {
        conds.push(Base::Binary {
            op: Binary::Eq,
            left: boxed(alloc, column(alloc, pair.0)?)?,
            right: boxed(alloc, column(alloc, pair.1)?)?,
        })?;
    }
    Ok(conds)
}

fn shape(alloc: Global, held: &Held) -> Result<Shape, Memory> {
    match held {
        Held::Word(word) => Ok(Shape::Plain(Base::Text(Text::from_str(alloc, word)?))),
        Held::Column(named) => Ok(Shape::Plain(column(alloc, *named)?)),
        Held::WithBag(of_column, named, of_bag) => {
            let mut fields = List::new(alloc);
            let plain = Shape::Plain(column(alloc, *named)?);
            fields.push((label(alloc, of_column)?, plain))?;
            fields.push((label(alloc, of_bag)?, Shape::Index))?;
            Ok(Shape::Rec(fields))
        }
    }
}

fn lets(alloc: Global, form: &Form) -> Result<List<LetQuery>, Memory> {
    let mut lets = List::new(alloc);
    for named in form.lets {
        lets.push(LetQuery {
            parent: named.0,
            gens: gens(alloc, &named.1)?,
            conds: conds(alloc, &named.1)?,
        })?;
    }
    Ok(lets)
}

fn parts(alloc: Global, form: &Form) -> Result<List<LetPart>, Memory> {
    let mut parts = List::new(alloc);
    for part in form.parts {
        parts.push(LetPart {
            from: part.from,
            tag: part.tag,
            gens: gens(alloc, &part.over)?,
            conds: conds(alloc, &part.over)?,
            shape: shape(alloc, &part.held)?,
        })?;
    }
    Ok(parts)
}

/// The let form.
pub fn made(alloc: Global, form: &Form) -> Result<LetForm, Memory> {
    Ok(LetForm {
        path: path(alloc, form.path)?,
        element: element(alloc, form.records)?,
        lets: lets(alloc, form)?,
        parts: parts(alloc, form)?,
    })
}

/// The sum of so many ones, each `+` within the next.
pub fn nested_ones(alloc: Global, ones: u64) -> Result<Base, Memory> {
    let mut sum = Base::Int(1);
    for _ in 1..ones {
        sum = Base::Binary {
            op: Binary::Add,
            left: boxed(alloc, sum)?,
            right: boxed(alloc, Base::Int(1))?,
        };
    }
    Ok(sum)
}

/// The sum of so many ones in one chain.
pub fn chained_ones(alloc: Global, ones: u64) -> Result<Base, Memory> {
    let mut more = List::new(alloc);
    for _ in 1..ones {
        more.push(Base::Int(1))?;
    }
    let first = boxed(alloc, Base::Int(1))?;
    Ok(Base::Chain {
        op: Binary::Add,
        first,
        more,
    })
}

/// The form of one row that holds a number, under so many conditions that hold.
pub fn one_row(alloc: Global, number: Base, times: u64) -> Result<LetForm, Memory> {
    let mut conds = List::new(alloc);
    for _ in 0..times {
        conds.push(Base::Bool(true))?;
    }
    let mut parts = List::new(alloc);
    parts.push(LetPart {
        from: 0,
        tag: 1,
        gens: List::new(alloc),
        conds,
        shape: Shape::Plain(number),
    })?;
    Ok(LetForm {
        path: path(alloc, &[])?,
        element: Ty::Int,
        lets: List::new(alloc),
        parts,
    })
}
