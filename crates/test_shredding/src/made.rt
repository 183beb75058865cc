// The worked forms. Each comprehension has one generator, whose number is the comprehension's tag.
use nq_ir::{Base, Body, Comp, Gen, Normal, Test};
use nq_model::{Label, List, Memory, Ty, boxed};
use std::alloc::Global;

#[derive(Clone, Copy)]
pub enum Form {
    // A department with its employees, and a record with nobody.
    TwoSides,
    // Departments, their employees, and their tasks.
    ThreeLevels,
    // Tags that do not rise: within two bags, and of the two comprehensions around them.
    Mixed,
    Falling,
    // A record of two bags.
    TwoBags,
    // A bag of bags of bags, of which the outer two have one element each.
    Deep,
    // A record of a bag, a count and a sum.
    Totals,
    // A record without fields.
    Empty,
}

// One generator.
fn one_gen(alloc: Global, number: u64) -> Result<List<Gen>, Memory> {
    let mut gens = List::new(alloc);
    gens.push(Gen {
        number,
        table: Label::from_str(alloc, "t")?,
    })?;
    Ok(gens)
}

fn comp(alloc: Global, tag: u64, body: Body) -> Result<Comp, Memory> {
    let gens = one_gen(alloc, tag)?;
    let conds = List::new(alloc);
    Ok(Comp {
        tag,
        gens,
        conds,
        body,
    })
}

// A bag of ints, with a comprehension for each tag.
fn ints(alloc: Global, tags: &[u64]) -> Result<Normal, Memory> {
    let mut parts = List::new(alloc);
    for tag in tags {
        parts.push(comp(alloc, *tag, Body::Plain(Base::Int(7)))?)?;
    }
    Ok(Normal {
        element: Ty::Int,
        parts,
    })
}

// A bag as a field of a record: its type, and itself.
struct NamedBag {
    ty: (Label, Ty),
    body: (Label, Body),
}

// A bag under this name.
fn named_bag(alloc: Global, name: &str, bag: Normal) -> Result<NamedBag, Memory> {
    let labels = (Label::from_str(alloc, name)?, Label::from_str(alloc, name)?);
    let element = boxed(alloc, bag.element.copy(alloc)?)?;
    Ok(NamedBag {
        ty: (labels.0, Ty::Bag(element)),
        body: (labels.1, Body::Bag(bag)),
    })
}

// A bag with one comprehension, over a record of the named bags. Where none is named the record is empty.
fn records(alloc: Global, tag: u64, named: Vec<(&str, Normal)>) -> Result<Normal, Memory> {
    let mut bodies = List::new(alloc);
    let mut types = List::new(alloc);
    for (name, bag) in named {
        let NamedBag { ty, body } = named_bag(alloc, name, bag)?;
        types.push(ty)?;
        bodies.push(body)?;
    }
    let mut parts = List::new(alloc);
    parts.push(comp(alloc, tag, Body::Rec(bodies))?)?;
    Ok(Normal {
        element: Ty::Rec(types),
        parts,
    })
}

// A bag of bags, with a comprehension for each.
fn bags(alloc: Global, each: Vec<(u64, Normal)>) -> Result<Normal, Memory> {
    let mut parts = List::new(alloc);
    let mut element = Ty::Int;
    for (tag, bag) in each {
        element = Ty::Bag(boxed(alloc, bag.element.copy(alloc)?)?);
        parts.push(comp(alloc, tag, Body::Bag(bag))?)?;
    }
    Ok(Normal { element, parts })
}

// The comprehensions of both.
fn both(first: Normal, second: Normal) -> Result<Normal, Memory> {
    let Normal { element, mut parts } = first;
    for part in second.parts.into_vec() {
        parts.push(part)?;
    }
    Ok(Normal { element, parts })
}

// What a count or a sum goes over.
fn over(alloc: Global, number: u64) -> Result<Test, Memory> {
    Ok(Test {
        gens: one_gen(alloc, number)?,
        conds: List::new(alloc),
    })
}

// A count, which has generators and no tag.
fn count(alloc: Global) -> Result<Body, Memory> {
    let over = over(alloc, 3)?;
    Ok(Body::Plain(Base::Count(over)))
}

// A sum, likewise.
fn sum(alloc: Global) -> Result<Body, Memory> {
    let over = over(alloc, 4)?;
    let value = boxed(alloc, Base::Int(7))?;
    Ok(Body::Plain(Base::Sum { over, value }))
}

// The bodies of a bag, a count and a sum.
fn total_bodies(alloc: Global) -> Result<List<(Label, Body)>, Memory> {
    let mut bodies = List::new(alloc);
    bodies.push((Label::from_str(alloc, "b")?, Body::Bag(ints(alloc, &[2])?)))?;
    bodies.push((Label::from_str(alloc, "n")?, count(alloc)?))?;
    bodies.push((Label::from_str(alloc, "s")?, sum(alloc)?))?;
    Ok(bodies)
}

fn total_types(alloc: Global) -> Result<List<(Label, Ty)>, Memory> {
    let mut types = List::new(alloc);
    let bag = Ty::Bag(boxed(alloc, Ty::Int)?);
    types.push((Label::from_str(alloc, "b")?, bag))?;
    types.push((Label::from_str(alloc, "n")?, Ty::Int))?;
    types.push((Label::from_str(alloc, "s")?, Ty::Int))?;
    Ok(types)
}

// A bag of one record of these.
fn totals(alloc: Global) -> Result<Normal, Memory> {
    let element = Ty::Rec(total_types(alloc)?);
    let body = Body::Rec(total_bodies(alloc)?);
    let mut parts = List::new(alloc);
    parts.push(comp(alloc, 1, body)?)?;
    Ok(Normal { element, parts })
}

pub fn made(alloc: Global, form: Form) -> Result<Normal, Memory> {
    match form {
        Form::TwoSides => both(
            records(alloc, 1, vec![in alloc; ("b", ints(alloc, &[2])?)]?)?,
            records(alloc, 3, vec![in alloc; ("b", ints(alloc, &[])?)]?)?,
        ),
        Form::ThreeLevels => {
            let staff = records(alloc, 2, vec![in alloc; ("tasks", ints(alloc, &[3])?)]?)?;
            records(alloc, 1, vec![in alloc; ("employees", staff)]?)
        }
        Form::Mixed => bags(
            alloc,
            vec![in alloc; (1, ints(alloc, &[10, 30])?), (2, ints(alloc, &[20])?)]?,
        ),
        Form::Falling => bags(
            alloc,
            vec![in alloc; (7, ints(alloc, &[8])?), (2, ints(alloc, &[3])?)]?,
        ),
        Form::TwoBags => records(
            alloc,
            1,
            vec![in alloc; ("a", ints(alloc, &[2])?), ("b", ints(alloc, &[3])?)]?,
        ),
        Form::Deep => {
            let inner = bags(alloc, vec![in alloc; (2, ints(alloc, &[3])?)]?)?;
            bags(alloc, vec![in alloc; (1, inner)]?)
        }
        Form::Totals => totals(alloc),
        Form::Empty => records(alloc, 1, Vec::new(alloc)),
    }
}
