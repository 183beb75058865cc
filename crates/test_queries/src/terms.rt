// Each query is unfolded, and compared with the term worked out by hand and with what single steps reach, places
// included. In a term `x1`, `x2`, .. name the binders from outside.
use crate::asked::{Outcome, answered, read, with_lets};
use crate::shown::shown;
use nq_model::{Memory, Schema, Term};
use reference_terms::unfold_by_steps;
use std::alloc::Global;
use std::process::Abort;
use test_support::org;

// A query and the term to which it unfolds.
const QUERIES: [(&str, &str); 20] = [
    ("let f = fun (x: int) -> [x]; f(1)", "[1]"),
    (
        "let twice = fun (f: int -> int) -> fun (x: int) -> f(f(x)); [twice(fun (n: int) -> n + 1)(5)]",
        "[((5 + 1) + 1)]",
    ),
    (
        "[(if true then fun (n: int) -> n else fun (n: int) -> n + n)(3)]",
        "[(if true then 3 else (3 + 3))]",
    ),
    // The x of the body is not that of the function's.
    (
        "let x = 1; let f = fun (y: int) -> for (x <- [10] ++ [20]) [x + y]; f(x)",
        "for (x1 <- ([10] ++ [20])) [(x1 + 1)]",
    ),
    ("[(f = fun (n: int) -> n, b = 7).b]", "[7]"),
    // A function that takes a function on rows, and functions chosen for each row.
    (
        "let filter = fun (p: (dept: text, name: text, salary: int) -> bool) ->
           for (e <- table employees) where (p(e)) [e.name];
         let both = fun (h: ((dept: text, name: text, salary: int) -> bool) -> [text]) ->
           h(fun (e: (dept: text, name: text, salary: int)) -> e.salary < 1000)
             ++ h(fun (e: (dept: text, name: text, salary: int)) -> e.salary > 50000);
         both(filter)",
        "(for (x1 <- table employees) where ((x1.salary < 1000)) [x1.name] ++ for (x1 <- table employees) where ((x1.salary > 50000)) [x1.name])",
    ),
    (
        "let lo = fun (n: int) -> n < 1000;
         let hi = fun (n: int) -> n > 50000;
         for (c <- table contacts) for (e <- table employees)
         where (e.dept == c.dept && (if c.client then hi else lo)(e.salary)) [e.name]",
        "for (x1 <- table contacts) for (x2 <- table employees) where (((x2.dept == x1.dept) && (if x1.client then (x2.salary > 50000) else (x2.salary < 1000)))) [x2.name]",
    ),
    // Functions that take and give functions, and records of functions.
    (
        "let compose = fun (f: int -> int) -> fun (g: int -> int) -> fun (x: int) -> f(g(x));
         [compose(fun (n: int) -> n * 2)(fun (n: int) -> n + 1)(5)]",
        "[((5 + 1) * 2)]",
    ),
    (
        "[(if true then (f = fun (n: int) -> n + 1, g = 2) else (f = fun (n: int) -> n * 2, g = 3)).f(4)]",
        "[(if true then (4 + 1) else (4 * 2))]",
    ),
    (
        "[(if true then (if false then fun (n: int) -> n + 1 else fun (n: int) -> n) else fun (n: int) -> n * 2)(4)]",
        "[(if true then (if false then (4 + 1) else 4) else (4 * 2))]",
    ),
    (
        "let r = (f = fun (n: int) -> n + 1, g = fun (n: int) -> n * 2); [r.g(r.f(3))]",
        "[((3 + 1) * 2)]",
    ),
    // No name is captured, under each binder.
    (
        "for (x <- [1]) (fun (y: int) -> for (x <- [2]) [x + y])(x)",
        "for (x1 <- [1]) for (x2 <- [2]) [(x2 + x1)]",
    ),
    (
        "for (x <- [1]) [(fun (y: int) -> fun (x: int) -> x + y)(x)(10)]",
        "for (x1 <- [1]) [(10 + x1)]",
    ),
    // A value that is used last under a binder.
    (
        "let x = 1 + 2; for (y <- [x]) [x + y]",
        "for (x1 <- [(1 + 2)]) [((1 + 2) + x1)]",
    ),
    // Names that use the one before.
    (
        "let x1 = 1; let x2 = x1 + 1; let x3 = x2 + 1; [x3]",
        "[((1 + 1) + 1)]",
    ),
    (
        "let x = 1; let x = x + x; let x = x + x; [x]",
        "[((1 + 1) + (1 + 1))]",
    ),
    (
        "let f = fun (x: int) -> x + 1; let g = fun (x: int) -> f(f(x)); [g(g(1))]",
        "[((((1 + 1) + 1) + 1) + 1)]",
    ),
    // Counts and sums stay where they stand, and what they are asked of is unfolded.
    (
        "nq 2; let twice = fun (b: [int]) -> sum(b) + count(b); [twice([4] ++ [5])]",
        "[(sum(([4] ++ [5])) + count(([4] ++ [5])))]",
    ),
    (
        "nq 2; let of = fun (d: text) -> for (e <- table employees) where (e.dept == d) [e.salary];
         for (d <- table departments) [count(of(d.name)) + sum(of(d.name))]",
        "for (x1 <- table departments) [(count(for (x2 <- table employees) where ((x2.dept == x1.name)) [x2.salary]) + sum(for (x2 <- table employees) where ((x2.dept == x1.name)) [x2.salary]))]",
    ),
    ("let sum = fun (x: int) -> x; [sum(2)]", "[2]"),
];

// The same with each function that is applied on the spot as a `let`.
const WITH_LETS: [(&str, &str); 10] = [
    // No name is captured: the `let`s of `let y = x; let x = 5; [x + y]` under a `for`.
    (
        "for (x <- [1]) (fun (y: int) -> (fun (x: int) -> [x + y])(5))(x)",
        "for (x1 <- [1]) [(5 + x1)]",
    ),
    (
        "for (x <- [1]) (fun (y: int) -> for (z <- [2]) (fun (x: int) -> [x + y])(z))(x)",
        "for (x1 <- [1]) for (x2 <- [2]) [(x2 + x1)]",
    ),
    // Names that nothing uses.
    (
        "for (x <- [1]) (fun (y: int) -> [x])(2)",
        "for (x1 <- [1]) [x1]",
    ),
    (
        "for (x <- [1]) (fun (y: int) -> (fun (z: int) -> [x])(y))(2)",
        "for (x1 <- [1]) [x1]",
    ),
    // A value that is used outside a binder and under one.
    (
        "for (x <- [1]) (fun (y: int) -> [y] ++ (for (z <- [y]) [y + z]))(x + 1)",
        "for (x1 <- [1]) ([(x1 + 1)] ++ for (x2 <- [(x1 + 1)]) [((x1 + 1) + x2)])",
    ),
    (
        "for (x <- [1]) (fun (y: int) -> for (z <- [2]) [y + z])(x + 1)",
        "for (x1 <- [1]) for (x2 <- [2]) [((x1 + 1) + x2)]",
    ),
    // Functions and records of functions that are used under a binder.
    (
        "for (x <- [1]) (fun (f: int -> int) -> for (z <- [2]) (fun (w: int) -> [f(w) + x])(f(z)))(fun (y: int) -> x + y)",
        "for (x1 <- [1]) for (x2 <- [2]) [((x1 + (x1 + x2)) + x1)]",
    ),
    (
        "for (x <- [1]) (fun (f: int -> int) -> for (z <- [2]) [f(z)])(fun (y: int) -> x + y)",
        "for (x1 <- [1]) for (x2 <- [2]) [(x1 + x2)]",
    ),
    (
        "for (x <- [1]) (fun (r: (a: int, b: int -> int)) -> for (z <- [r.a]) [r.b(z)])((a = x, b = fun (y: int) -> y))",
        "for (x1 <- [1]) for (x2 <- [x1]) [x2]",
    ),
    (
        "for (x <- [1]) (fun (add: int -> int -> int) -> [add(2)(3)])(fun (a: int) -> fun (b: int) -> a + b + x)",
        "for (x1 <- [1]) [((2 + 3) + x1)]",
    ),
];

fn said(alloc: Global, schema: &Schema, term: Term) -> Result<String, Memory> {
    match answered(alloc, schema, term) {
        Outcome::Reached(reached) => shown(alloc, &reached, false),
        Outcome::IllTyped => Ok(String::from_str(alloc, "ill typed")?),
        Outcome::WantOfMemory => Ok(String::from_str(alloc, "want of memory")?),
    }
}

// Whether single steps lead to the same term, places included.
fn is_by_steps(alloc: Global, schema: &Schema, term: Term) -> Result<bool, Memory> {
    let stepped = unfold_by_steps(alloc, term.copy(alloc)?)?;
    match answered(alloc, schema, term) {
        Outcome::Reached(reached) => {
            let one = shown(alloc, &reached, true)?;
            let other = shown(alloc, &stepped, true)?;
            Ok(one.as_str() == other.as_str())
        }
        Outcome::IllTyped | Outcome::WantOfMemory => Ok(false),
    }
}

#[test]
fn unfolds(rt: HostRuntime) -> Result<(), Memory> {
    let alloc = rt.alloc();
    let schema = org(alloc)?;
    for (text, want) in &QUERIES {
        let term = read(alloc, text)?;
        assert_eq!(&rt; said(alloc, &schema, term.copy(alloc)?)?.as_str(), *want);
        assert!(&rt; is_by_steps(alloc, &schema, term)?);
    }
    for (text, want) in &WITH_LETS {
        let term = with_lets(alloc, read(alloc, text)?)?;
        assert_eq!(&rt; said(alloc, &schema, term.copy(alloc)?)?.as_str(), *want);
        assert!(&rt; is_by_steps(alloc, &schema, term)?);
    }
    Ok(())
}
