// Queries whose terms are deep, or get deep on the way.
use crate::asked::{Outcome, answered, read};
use nq_model::{Memory, Node, Schema, Term};
use std::alloc::Global;
use std::process::Abort;
use test_support::org;

const PLUS_ONE: &str = "fun (x: int) -> x + 1";

// let f0 = FIRST; let f1 = fun (x: int) -> f0(f0(x)); let f2 = fun (x: int) -> f1(f1(x)); .. BODY, where `last` is the
// number of the last function
fn tower(alloc: Global, first: &str, last: u64, body: &str) -> Result<String, Memory> {
    let mut text = format!(in alloc; "let f0 = {first}; ")?;
    for k in 0..last {
        let next = k.saturating_add(1);
        write!(text, "let f{next} = fun (x: int) -> f{k}(f{k}(x)); ")?;
    }
    text.push_str(body)?;
    Ok(text)
}

// `fK(..(1))`, where the functions in use add `sum` in all
fn sum_of(alloc: Global, last: u64, sum: u64) -> Result<String, Memory> {
    let mut text = String::new(alloc);
    let mut closing = String::new(alloc);
    let mut left = sum;
    for k in 0..last.saturating_add(1) {
        if left % 2 == 1 {
            write!(text, "f{k}(")?;
            closing.push_str(")")?;
        }
        left /= 2;
    }
    write!(text, "1{closing}")?;
    Ok(text)
}

fn tower_of(alloc: Global, last: u64, sum: u64) -> Result<String, Memory> {
    let sums = sum_of(alloc, last, sum)?;
    let body = format!(in alloc; "[{sums}]")?;
    tower(alloc, PLUS_ONE, last, body.as_str())
}

// `let x0 = 1; let x1 = x0 + 1; .. [xN]`
fn chain(alloc: Global, last: u64) -> Result<String, Memory> {
    let mut text = String::from_str(alloc, "let x0 = 1; ")?;
    for k in 0..last {
        let next = k.saturating_add(1);
        write!(text, "let x{next} = x{k} + 1; ")?;
    }
    write!(text, "[x{last}]")?;
    Ok(text)
}

// `let x = 1; let x = x + x; .. [x]`, doubled so many times
fn doubled(alloc: Global, times: u64) -> Result<String, Memory> {
    let mut text = String::from_str(alloc, "let x = 1; ")?;
    for _ in 0..times {
        text.push_str("let x = x + x; ")?;
    }
    text.push_str("[x]")?;
    Ok(text)
}

// How many sums stand in one another on the way to the leftmost leaf.
fn sums(term: &Term) -> u64 {
    match &term.node {
        Node::Single(of) => sums(of),
        Node::Binary {
            op: _,
            left,
            right: _,
        } => sums(left).saturating_add(1),
        _ => 0,
    }
}

// The number of sums, where the query is answered, and none for want of memory.
fn sums_of(alloc: Global, schema: &Schema, text: &str) -> Result<Option<u64>, Memory> {
    let term = read(alloc, text)?;
    match answered(alloc, schema, term) {
        Outcome::Reached(reached) => Ok(Some(sums(&reached))),
        Outcome::WantOfMemory => Ok(None),
        Outcome::IllTyped => Ok(Some(u64::MAX)),
    }
}

// Queries in which a term of tens of thousands of sums stands where nothing uses it.
const UNUSED: [&str; 3] = [
    "let deep = f15(1); [7]",
    "[(a = f15(1), b = 7).b]",
    "[(fun (x: int) -> 7)(f15(1))]",
];

// 1,998 sums, a leaf and a bag are 2,000 nodes, one below the other. The stack carries them; one more is want of
// memory, and so are tens of thousands, and the next query is answered as before.
#[test]
fn deep_queries(rt: HostRuntime) -> Result<(), Memory> {
    let alloc = rt.alloc();
    let schema = org(alloc)?;
    let deepest = tower_of(alloc, 10, 1998)?;
    assert_eq!(&rt; sums_of(alloc, &schema, deepest.as_str())?, Some(1998));
    let deeper = tower_of(alloc, 10, 1999)?;
    assert_eq!(&rt; sums_of(alloc, &schema, deeper.as_str())?, None);
    let far_deeper = tower_of(alloc, 15, 32768)?;
    assert_eq!(&rt; sums_of(alloc, &schema, far_deeper.as_str())?, None);
    assert_eq!(&rt; sums_of(alloc, &schema, deepest.as_str())?, Some(1998));
    for body in &UNUSED {
        let text = tower(alloc, PLUS_ONE, 15, body)?;
        assert_eq!(&rt; sums_of(alloc, &schema, text.as_str())?, Some(0));
    }
    let falling = tower(alloc, "fun (x: int) -> x", 20, "[f20(1)]")?;
    assert_eq!(&rt; sums_of(alloc, &schema, falling.as_str())?, Some(0));
    let chained = chain(alloc, 149)?;
    assert_eq!(&rt; sums_of(alloc, &schema, chained.as_str())?, Some(149));
    let doublings = doubled(alloc, 16)?;
    assert_eq!(&rt; sums_of(alloc, &schema, doublings.as_str())?, Some(16));
    Ok(())
}
