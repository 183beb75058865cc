// Queries with the texts of their normal forms, worked out by hand; each is read back, unfolds to itself, and prints as
// the same text.
ghost use Rattle.nq_model.specs.Tables.{IsProperSchema};

use crate::alike::is_alike;
use normal_printer::print_normal;
use normalise::normalise;
use nq_model::{List, Memory, Schema};
use nq_parser::parse;
use std::alloc::Global;
use std::process::Abort;
use test_support::{org, plain};

// A query, and the text of its normal form.
const PRINTED: [(&str, &str); 40] = [
    (
        "let tasksOf = fun (e: text) ->
           for (t <- table tasks) where (t.employee == e) [t.task];
         for (d <- table departments)
         [(department = d.name,
           employees = for (e <- table employees) where (e.dept == d.name)
             [(name = e.name, tasks = tasksOf(e.name))])]",
        "for (x1 <- table departments) [(department = x1.name, employees = for (x2 <- table employees) where (x2.dept == x1.name) [(name = x2.name, tasks = for (x3 <- table tasks) where (x3.employee == x2.name) [x3.task])])]",
    ),
    (
        "let lo = fun (n: int) -> n < 1000;
         let hi = fun (n: int) -> n > 50000;
         for (c <- table contacts) for (e <- table employees)
         where (e.dept == c.dept && (if c.client then hi else lo)(e.salary)) [e.name]",
        "for (x1 <- table contacts) for (x2 <- table employees) where (x2.dept == x1.dept && (if x1.client then x2.salary > 50000 else x2.salary < 1000)) [x2.name]",
    ),
    (
        "[empty(table tasks)]",
        "[empty(for (x1 <- table tasks) [()])]",
    ),
    (
        "if true then [1] else [2]",
        "(where (true) [1]) ++ (where (!true) [2])",
    ),
    ("[: (a: int, b: [text])]", "[: (a: int, b: [text])]"),
    // A `for` is weaker than a union, and a bag is not.
    (
        "(for (d <- table departments) where (d.name == 'Sales')
           [(n = 'a', b = for (e <- table employees) where (e.dept == d.name) [e.name])])
           ++ [(n = 'b', b = [: text])]",
        "(for (x1 <- table departments) where (x1.name == 'Sales') [(b = for (x2 <- table employees) where (x2.dept == x1.name) [x2.name], n = 'a')]) ++ [(b = [: text], n = 'b')]",
    ),
    (
        "for (d <- table departments) [(d = d.name, none = empty(
           (for (e <- table employees) where (e.dept == d.name) [e.name])
           ++ (for (c <- table contacts) where (c.dept == d.name
             && empty(for (t <- table tasks) where (t.employee == c.name) [t])) [c.name])))]",
        "for (x1 <- table departments) [(d = x1.name, none = empty((for (x2 <- table employees) where (x2.dept == x1.name) [()]) ++ (for (x3 <- table contacts) where (x3.dept == x1.name && empty(for (x4 <- table tasks) where (x4.employee == x3.name) [()])) [()])))]",
    ),
    // A choice of bags below an emptiness test is a union of what stands in its branches.
    (
        "for (s <- for (d <- table departments)
           [(n = d.name, es = for (e <- table employees) where (e.dept == d.name) [e.name])])
         [empty(if s.n == 'Sales'
           then (if empty(s.es)
             then (for (t <- table tasks) where (t.employee == s.n) [t.task])
             else s.es)
           else (for (c <- table contacts) where (c.dept == s.n) [c.name]) ++ ['none'])]",
        "for (x1 <- table departments) [empty((for (x2 <- table tasks) where (x1.name == 'Sales' && empty(for (x3 <- table employees) where (x3.dept == x1.name) [()]) && x2.employee == x1.name) [()]) ++ (for (x4 <- table employees) where (x1.name == 'Sales' && !empty(for (x5 <- table employees) where (x5.dept == x1.name) [()]) && x4.dept == x1.name) [()]) ++ (for (x6 <- table contacts) where (!(x1.name == 'Sales') && x6.dept == x1.name) [()]) ++ (where (!(x1.name == 'Sales')) [()]))]",
    ),
    // `-` is joined from the left, and stands directly before what it negates.
    ("[- - 1]", "[--1]"),
    ("[1 - (2 - 3) - - 4]", "[1 - (2 - 3) - -4]"),
    ("[-(1 - 2) * 3 * (4 * 5)]", "[-(1 - 2) * 3 * (4 * 5)]"),
    // An `if` under each operator, and where nothing is asked for.
    (
        "[(if true then 1 else 2) + (if true then 3 else 4) - (if true then 5 else 6) * (if true then 7 else 8)]",
        "[(if true then 1 else 2) + (if true then 3 else 4) - (if true then 5 else 6) * (if true then 7 else 8)]",
    ),
    (
        "[!(if true then false else true) && -(if true then 1 else 2) < (if false then 3 else 4)
          || (if true then 5 else 6) >= (if true then 7 else 8)]",
        "[!(if true then false else true) && -(if true then 1 else 2) < (if false then 3 else 4) || (if true then 5 else 6) >= (if true then 7 else 8)]",
    ),
    (
        "[((if true then 1 else 2) == (if true then 3 else 4)) != ((if true then 5 else 6) <= (if true then 7 else 8))]",
        "[((if true then 1 else 2) == (if true then 3 else 4)) != ((if true then 5 else 6) <= (if true then 7 else 8))]",
    ),
    (
        "[(if (if true then false else true) then (if false then 'a' else 'b') else (if true then 'c' else 'd')) > 'e']",
        "[(if if true then false else true then if false then 'a' else 'b' else if true then 'c' else 'd') > 'e']",
    ),
    // What is under `where` is a union of what is under it.
    (
        "where (true) [1] ++ [2]",
        "(where (true) [1]) ++ (where (true) [2])",
    ),
    (
        "where (true || false) where (1 < 2) where (true && false) [1]",
        "where ((true || false) && 1 < 2 && (true && false)) [1]",
    ),
    ("[1] ++ ([2] ++ [3])", "[1] ++ [2] ++ [3]"),
    ("[[1] ++ [1]]", "[[1] ++ [1]]"),
    (
        "[empty([: int]) && empty([1])]",
        "[empty([: ()]) && empty([()])]",
    ),
    // Words that are reserved as variables may be labels, and a quote is doubled.
    (
        "[(table = 'it''s', for = 9223372036854775807)]",
        "[(for = 9223372036854775807, table = 'it''s')]",
    ),
    ("[()] ++ [: ()]", "[()]"),
    ("[: (a: (), b: [(c: bool)])]", "[: (a: (), b: [(c: bool)])]"),
    // Where a count or a sum stands in the form, its text has the header of the second edition.
    (
        "nq 2;
         for (d <- table departments) [(d = d.name,
           n = count(for (e <- table employees) where (e.dept == d.name) [e]),
           s = sum(for (e <- table employees) where (e.dept == d.name) [e.salary]))]",
        "nq 2; for (x1 <- table departments) [(d = x1.name, n = count(for (x2 <- table employees) where (x2.dept == x1.name) [()]), s = sum(for (x3 <- table employees) where (x3.dept == x1.name) [x3.salary]))]",
    ),
    (
        "nq 2; [sum([1] ++ [2] ++ [3])]",
        "nq 2; [sum([1]) + sum([2]) + sum([3])]",
    ),
    (
        "nq 2; [count(table departments ++ table departments)]",
        "nq 2; [count(for (x1 <- table departments) [()]) + count(for (x2 <- table departments) [()])]",
    ),
    // A sum of three parts under operators that bind more strongly, and on the right of one that binds as strongly.
    (
        "nq 2; [count(table tasks ++ table tasks ++ table tasks) * 2 - sum([4] ++ [5] ++ [6])]",
        "nq 2; [(count(for (x1 <- table tasks) [()]) + count(for (x2 <- table tasks) [()]) + count(for (x3 <- table tasks) [()])) * 2 - (sum([4]) + sum([5]) + sum([6]))]",
    ),
    (
        "nq 2; [count([[1] ++ [2]] ++ [[: int]])]",
        "nq 2; [count([()]) + count([()])]",
    ),
    (
        "nq 2; let twice = fun (b: [int]) -> sum(b) + count(b); [twice([4] ++ [5])]",
        "nq 2; [sum([4]) + sum([5]) + (count([()]) + count([()]))]",
    ),
    (
        "nq 2; [sum(for (x <- [1] ++ [2]) for (e <- table employees) [x])]",
        "nq 2; [sum(for (x1 <- table employees) [1]) + sum(for (x2 <- table employees) [2])]",
    ),
    (
        "nq 2; [count(if true then [1] else [2] ++ [3])]",
        "nq 2; [count(where (true) [()]) + count(where (!true) [()]) + count(where (!true) [()])]",
    ),
    (
        "nq 2; [sum(where (empty(table tasks)) [7])]",
        "nq 2; [sum(where (empty(for (x1 <- table tasks) [()])) [7])]",
    ),
    (
        "nq 2; [sum(for (d <- table departments)
           [count(for (e <- table employees) where (e.dept == d.name) [e])])]",
        "nq 2; [sum(for (x1 <- table departments) [count(for (x2 <- table employees) where (x2.dept == x1.name) [()])])]",
    ),
    ("nq 2; [-sum([5]) * 2]", "nq 2; [-sum([5]) * 2]"),
    // In a condition of a test, and in one of a comprehension.
    (
        "nq 2; [empty(for (d <- table departments) where (count(table tasks) == 2) [sum([: int])])]",
        "nq 2; [empty(for (x1 <- table departments) where (count(for (x2 <- table tasks) [()]) == 2) [()])]",
    ),
    (
        "nq 2; [empty(where (sum([1]) == 1) [2])]",
        "nq 2; [empty(where (sum([1]) == 1) [()])]",
    ),
    // What has no count and no sum in its form has no header.
    ("nq 2; [count([: int])]", "[0]"),
    ("nq 2; [1]", "[1]"),
    ("nq 2; [(count = 1).count]", "[1]"),
    ("let sum = fun (x: int) -> x; [sum(2)]", "[2]"),
];

// The text of the normal form of a query.
fn printed(alloc: Global, schema: &Schema, query: &str) -> Result<List<u8>, Memory>
    requires { IsProperSchema schema.now }
{
    let term = plain(alloc, schema, query)?;
    let form = normalise(alloc, schema, &term)?;
    print_normal(alloc, &form)
}

// Whether unfolding leaves the term of a text as it is.
fn is_unfolded(alloc: Global, schema: &Schema, text: &str) -> Result<bool, Memory> {
    let unfolded = plain(alloc, schema, text)?;
    match parse(alloc, text.as_bytes(), 200) {
        Ok(read) => Ok(is_alike(&read, &unfolded)),
        Err(_) => Err(Memory),
    }
}

#[test]
fn prints_and_reads_back(rt: HostRuntime) -> Result<(), Memory> {
    let alloc = rt.alloc();
    let schema = org(alloc)?;
    for (query, text) in &PRINTED {
        assert_eq!(&rt; printed(alloc, &schema, query)?.as_slice(), text.as_bytes());
        assert_eq!(&rt; printed(alloc, &schema, text)?.as_slice(), text.as_bytes());
        assert!(&rt; is_unfolded(alloc, &schema, text)?);
    }
    Ok(())
}
