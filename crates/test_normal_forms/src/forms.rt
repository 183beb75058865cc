// Queries with the normal forms worked out by hand.
use crate::told::told;
use normalise::normalise;
use nq_model::Memory;
use std::process::Abort;
use test_support::{org, plain};

// A query, and its normal form.
const QUERIES: [(&str, &str); 24] = [
    // Three levels, the innermost by a function.
    (
        "let tasksOf = fun (e: text) ->
           for (t <- table tasks) where (t.employee == e) [t.task];
         for (d <- table departments)
         [(department = d.name,
           employees = for (e <- table employees) where (e.dept == d.name)
             [(name = e.name, tasks = tasksOf(e.name))])]",
        "{(department: text, employees: [(name: text, tasks: [text])]) | 1: x1 in departments -> (department = x1.name, employees = {(name: text, tasks: [text]) | 2: x2 in employees where (x2.dept == x1.name) -> (name = x2.name, tasks = {text | 3: x3 in tasks where (x3.employee == x2.name) -> x3.task})})}",
    ),
    // The second comprehension of the whole comes after those in the body of the first.
    (
        "(for (d <- table departments) where (d.name == 'Sales')
           [(n = 'a', b = for (e <- table employees) where (e.dept == d.name) [e.name])])
           ++ [(n = 'b', b = [: text])]",
        "{(b: [text], n: text) | 1: x1 in departments where (x1.name == 'Sales') -> (b = {text | 2: x2 in employees where (x2.dept == x1.name) -> x2.name}, n = 'a') | 3: once -> (b = {text}, n = 'b')}",
    ),
    (
        "let lo = fun (n: int) -> n < 1000;
         let hi = fun (n: int) -> n > 50000;
         for (c <- table contacts) for (e <- table employees)
         where (e.dept == c.dept && (if c.client then hi else lo)(e.salary)) [e.name]",
        "{text | 1: x1 in contacts, x2 in employees where ((x2.dept == x1.dept) && (if x1.client then (x2.salary > 50000) else (x2.salary < 1000))) -> x2.name}",
    ),
    // Emptiness tests have numbers and no tags.
    (
        "for (d <- table departments) [(d = d.name, none = empty(
           (for (e <- table employees) where (e.dept == d.name) [e.name])
           ++ (for (c <- table contacts) where (c.dept == d.name
             && empty(for (t <- table tasks) where (t.employee == c.name) [t])) [c.name])))]",
        "{(d: text, none: bool) | 1: x1 in departments -> (d = x1.name, none = empty(x2 in employees where (x2.dept == x1.name) | x3 in contacts where ((x3.dept == x1.name) && empty(x4 in tasks where (x4.employee == x3.name)))))}",
    ),
    // Choices of bags below an emptiness test: each branch is under its tests, the outer first, and each copy of a test
    // has generators of its own.
    (
        "for (s <- for (d <- table departments)
           [(n = d.name, es = for (e <- table employees) where (e.dept == d.name) [e.name])])
         [empty(if s.n == 'Sales'
           then (if empty(s.es)
             then (for (t <- table tasks) where (t.employee == s.n) [t.task])
             else s.es)
           else (for (c <- table contacts) where (c.dept == s.n) [c.name]) ++ ['none'])]",
        "{bool | 1: x1 in departments -> empty(x2 in tasks where (x1.name == 'Sales') and empty(x3 in employees where (x3.dept == x1.name)) and (x2.employee == x1.name) | x4 in employees where (x1.name == 'Sales') and !empty(x5 in employees where (x5.dept == x1.name)) and (x4.dept == x1.name) | x6 in contacts where !(x1.name == 'Sales') and (x6.dept == x1.name) | once where !(x1.name == 'Sales'))}",
    ),
    (
        "[empty(table tasks)]",
        "{bool | 1: once -> empty(x1 in tasks)}",
    ),
    (
        "if true then [1] else [2]",
        "{int | 1: once where true -> 1 | 2: once where !true -> 2}",
    ),
    ("[: (a: int, b: [text])]", "{(a: int, b: [text])}"),
    // A choice of records is one of their fields, and each has its own copy of the test. A bag's generators come before
    // those of its conditions.
    (
        "for (d <- table departments)
         [if empty(for (e <- table employees) where (e.dept == d.name) [e])
          then (n = 'nobody', es = [d.name])
          else (n = d.name, es = for (e <- table employees) where (e.dept == d.name) [e.name])]",
        "{(es: [text], n: text) | 1: x1 in departments -> (es = {text | 2: once where empty(x2 in employees where (x2.dept == x1.name)) -> x1.name | 3: x3 in employees where !empty(x4 in employees where (x4.dept == x1.name)) and (x3.dept == x1.name) -> x3.name}, n = (if empty(x5 in employees where (x5.dept == x1.name)) then 'nobody' else x1.name))}",
    ),
    // One table twice, told apart by number.
    (
        "for (a <- table employees) for (b <- table employees)
         where (a.dept == b.dept && a.salary < b.salary) [(more = b.name, less = a.name)]",
        "{(less: text, more: text) | 1: x1 in employees, x2 in employees where ((x1.dept == x2.dept) && (x1.salary < x2.salary)) -> (less = x1.name, more = x2.name)}",
    ),
    // For each comprehension of the source, those of the body.
    (
        "(for (n <- (for (d <- table departments) [d.name])
             ++ (for (c <- table contacts) where (c.client) [c.name]))
           [n] ++ (for (t <- table tasks) where (t.employee == n) [t.task]))
         ++ ['last']",
        "{text | 1: x1 in departments -> x1.name | 2: x2 in departments, x3 in tasks where (x3.employee == x2.name) -> x3.task | 3: x4 in contacts where x4.client -> x4.name | 4: x5 in contacts, x6 in tasks where x5.client and (x6.employee == x5.name) -> x6.task | 5: once -> 'last'}",
    ),
    // A test in a test, as the condition of the outer of two generators.
    (
        "for (d <- table departments)
         where (empty(for (e <- table employees)
           where (empty(for (t <- table tasks) where (t.employee == e.name && t.task == d.name) [t])) [e]))
         for (c <- table contacts) where (c.dept == d.name) [c.name]",
        "{text | 1: x1 in departments, x2 in contacts where empty(x3 in employees where empty(x4 in tasks where ((x4.employee == x3.name) && (x4.task == x1.name)))) and (x2.dept == x1.name) -> x2.name}",
    ),
    // An inner bag that is used twice, once as the source of a `for`.
    (
        "for (s <- for (d <- table departments)
           [(n = d.name, es = for (e <- table employees) where (e.dept == d.name) [e.name])])
         [(whole = s.es, some = for (e <- s.es) where (e == s.n) [e])]",
        "{(some: [text], whole: [text]) | 1: x1 in departments -> (some = {text | 2: x2 in employees where (x2.dept == x1.name) and (x2.name == x1.name) -> x2.name}, whole = {text | 3: x3 in employees where (x3.dept == x1.name) -> x3.name})}",
    ),
    // The record of a table's columns.
    (
        "table contacts",
        "{(client: bool, dept: text, name: text) | 1: x1 in contacts -> (client = x1.client, dept = x1.dept, name = x1.name)}",
    ),
    (
        "for (t <- table tasks) [(of = t, by = t.employee)]",
        "{(by: text, of: (employee: text, task: text)) | 1: x1 in tasks -> (by = x1.employee, of = (employee = x1.employee, task = x1.task))}",
    ),
    // The outer condition comes first.
    (
        "where (true) where (false) [1] ++ [2]",
        "{int | 1: once where true and false -> 1 | 2: once where true and false -> 2}",
    ),
    // Nothing is simplified.
    (
        "[-1 * 2 - 3 + (if !true || false then 4 else 5)]",
        "{int | 1: once -> (((-1 * 2) - 3) + (if (!true || false) then 4 else 5))}",
    ),
    (
        "[empty([: int]) && empty([1])]",
        "{bool | 1: once -> (empty() && empty(once))}",
    ),
    // What stands in the bodies below an emptiness test has no place in it.
    (
        "[(a = empty(for (d <- table departments) [(inner = table tasks)]), b = table departments)]",
        "{(a: bool, b: [(name: text)]) | 1: once -> (a = empty(x1 in departments), b = {(name: text) | 2: x2 in departments -> (name = x2.name)})}",
    ),
    // Counts and sums have numbers and no tags.
    (
        "nq 2;
         for (d <- table departments) [(d = d.name,
           n = count(for (e <- table employees) where (e.dept == d.name) [e]),
           s = sum(for (e <- table employees) where (e.dept == d.name) [e.salary]))]",
        "{(d: text, n: int, s: int) | 1: x1 in departments -> (d = x1.name, n = count(x2 in employees where (x2.dept == x1.name)), s = sum(x3 in employees where (x3.dept == x1.name) -> x3.salary))}",
    ),
    // One for each comprehension, joined from the left; of none it is 0.
    (
        "nq 2; [count([1] ++ [2] ++ [3])]",
        "{int | 1: once -> ((count(once) + count(once)) + count(once))}",
    ),
    (
        "nq 2; [sum([: int]) + count([: bool])]",
        "{int | 1: once -> (0 + 0)}",
    ),
    // Each branch of a choice of bags is under its test.
    (
        "nq 2; [count(if true then [1] else [2] ++ [3])]",
        "{int | 1: once -> ((count(once where true) + count(once where !true)) + count(once where !true))}",
    ),
    // A sum's generators come before those of its conditions, and those before the ones of its value.
    (
        "nq 2; [sum(for (e <- table employees) where (count(table tasks) > 1) [count(table contacts) + e.salary])]",
        "{int | 1: once -> sum(x1 in employees where (count(x2 in tasks) > 1) -> (count(x3 in contacts) + x1.salary))}",
    ),
];

#[test]
fn has_its_normal_form(rt: HostRuntime) -> Result<(), Memory> {
    let alloc = rt.alloc();
    let schema = org(alloc)?;
    for (text, want) in &QUERIES {
        let term = plain(alloc, &schema, text)?;
        let form = normalise(alloc, &schema, &term)?;
        assert_eq!(&rt; told(alloc, &form)?.as_str(), *want);
    }
    Ok(())
}
