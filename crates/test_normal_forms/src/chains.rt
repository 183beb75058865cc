// Chains of operations: the count of thousands of comprehensions, and chains that no query has.
ghost use Rattle.nq_model.specs.Tables.{IsProperSchema};

use normal_printer::print_normal;
use normalise::normalise;
use nq_ir::{Base, Body, Comp, Normal};
use nq_model::{Binary, List, Memory, Schema, Ty, boxed};
use std::alloc::Global;
use std::process::Abort;
use test_support::{org, plain};

// How many tables each of the two unions has.
const TABLES: u64 = 55;

// `table tasks ++ .. ++ table tasks`.
fn put_union(text: &mut String) -> Result<(), Memory> {
    text.push_str("table tasks")?;
    for _ in 1..TABLES {
        text.push_str(" ++ table tasks")?;
    }
    Ok(())
}

// The query that counts the pairs of two unions.
fn pairs_counted(alloc: Global) -> Result<String, Memory> {
    let mut text = String::new(alloc);
    text.push_str("nq 2; [count(for (a <- ")?;
    put_union(&mut text)?;
    text.push_str(") for (b <- ")?;
    put_union(&mut text)?;
    text.push_str(") [()])]")?;
    Ok(text)
}

// The text of its normal form: a count for each pair of tables, with two generators of its own.
fn counts(alloc: Global) -> Result<String, Memory> {
    let mut text = String::new(alloc);
    text.push_str("nq 2; [")?;
    for place in 0..TABLES * TABLES {
        put_count(&mut text, place)?;
    }
    text.push_str("]")?;
    Ok(text)
}

fn put_count(text: &mut String, place: u64) -> Result<(), Memory> {
    let outer = place.saturating_mul(2).saturating_add(1);
    let inner = outer.saturating_add(1);
    text.push_str(if place == 0 { "" } else { " + " })?;
    Ok(write!(
        text,
        "count(for (x{outer} <- table tasks) for (x{inner} <- table tasks) [()])"
    )?)
}

// The text of the normal form of a query.
fn printed(alloc: Global, schema: &Schema, query: &str) -> Result<List<u8>, Memory>
    requires { IsProperSchema schema.now }
{
    let term = plain(alloc, schema, query)?;
    let form = normalise(alloc, schema, &term)?;
    print_normal(alloc, &form)
}

#[test]
fn counts_thousands_of_comprehensions(rt: HostRuntime) -> Result<(), Memory> {
    let alloc = rt.alloc();
    let schema = org(alloc)?;
    let query = pairs_counted(alloc)?;
    let text = printed(alloc, &schema, query.as_str())?;
    assert_eq!(&rt; text.as_slice(), counts(alloc)?.as_bytes());
    Ok(())
}

// The form of one element: so many numbers from 0 on, joined by an operation.
fn joined(alloc: Global, op: Binary, parts: i64) -> Result<Normal, Memory> {
    let mut more = List::new(alloc);
    for number in 1..parts {
        more.push(Base::Int(number))?;
    }
    let first = boxed(alloc, Base::Int(0))?;
    let mut comps = List::new(alloc);
    comps.push(Comp {
        tag: 1,
        gens: List::new(alloc),
        conds: List::new(alloc),
        body: Body::Plain(Base::Chain { op, first, more }),
    })?;
    Ok(Normal {
        element: Ty::Int,
        parts: comps,
    })
}

// An operation, how many parts it joins, and the text. Comparisons do not chain.
const JOINED: [(Binary, i64, &str); 6] = [
    (Binary::Sub, 1, "[0]"),
    (Binary::Sub, 2, "[0 - 1]"),
    (Binary::Sub, 4, "[0 - 1 - 2 - 3]"),
    (Binary::Or, 3, "[0 || 1 || 2]"),
    (Binary::Eq, 2, "[0 == 1]"),
    (Binary::Lt, 4, "[((0 < 1) < 2) < 3]"),
];

#[test]
fn chains_print_as_nested_operations(rt: HostRuntime) -> Result<(), Memory> {
    let alloc = rt.alloc();
    for (op, parts, text) in &JOINED {
        let form = joined(alloc, *op, *parts)?;
        assert_eq!(&rt; print_normal(alloc, &form)?.as_slice(), text.as_bytes());
    }
    Ok(())
}
