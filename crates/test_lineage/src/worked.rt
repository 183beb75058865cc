// Queries with their lineage, worked out by hand.
use crate::told::{plain_text_of, records_text_of, schema_of, text_of, traced};
use nq_model::Memory;
use std::process::Abort;
use test_support::org;

// The tables of an organisation, each row with its number.
const TABLES: [&str; 4] = [
    "name,#\nProduct,1\nQuality,2\nResearch,3\nSales,4\n",
    "dept,name,salary,#\nProduct,Alex,20000,1\nProduct,Bert,900,2\nSales,Erik,2000000,3\n",
    "employee,task,#\nAlex,build,1\nBert,build,2\nErik,call,3\nErik,enthuse,4\n",
    "dept,name,client,#\nProduct,Pam,false,1\nQuality,Quinn,true,2\nSales,Sue,true,3\n",
];

// The same, where one department stands twice, there are eleven tasks, and no contacts.
const OTHERS: [&str; 4] = [
    "name,#\nProduct,1\nProduct,2\n",
    "dept,name,salary,#\nProduct,Alex,1,1\nProduct,Bert,2,2\n",
    "employee,task,#\na,b,1\na,b,2\na,b,3\na,b,4\na,b,5\na,b,6\na,b,7\na,b,8\na,b,9\na,b,10\na,b,11\n",
    "dept,name,client,#\n",
];

// The employees of each department.
const STAFF: &str = "for (d <- table departments)
    [(d = d.name, es = for (e <- table employees) where (e.dept == d.name) [e.name])]";

// A query, and its lineage.
const QUERIES: [(&str, &str); 13] = [
    // An inner element has the rows of its own generators alone.
    (
        STAFF,
        "{(d = 'Product', es = {'Alex' @ [employees 1], 'Bert' @ [employees 2]}) @ [departments 1], (d = 'Quality', es = {}) @ [departments 2], (d = 'Research', es = {}) @ [departments 3], (d = 'Sales', es = {'Erik' @ [employees 3]}) @ [departments 4]}",
    ),
    // Equal values stay apart by their rows; a constant has none.
    (
        "[1] ++ (for (x <- table tasks) [1])",
        "{1 @ [], 1 @ [tasks 1], 1 @ [tasks 2], 1 @ [tasks 3], 1 @ [tasks 4]}",
    ),
    // The outer row stands first.
    (
        "for (d <- table departments) for (e <- table employees)
         where (e.dept == d.name) [e.name]",
        "{'Alex' @ [departments 1, employees 1], 'Bert' @ [departments 1, employees 2], 'Erik' @ [departments 4, employees 3]}",
    ),
    (
        "for (x <- for (e <- table employees) where (e.salary > 0) [e])
         for (c <- table contacts) where (c.dept == x.dept) [(n = x.name, c = c.name)]",
        "{(c = 'Pam', n = 'Alex') @ [employees 1, contacts 1], (c = 'Pam', n = 'Bert') @ [employees 2, contacts 1], (c = 'Sue', n = 'Erik') @ [employees 3, contacts 3]}",
    ),
    // Sides of a union differ in how many rows they have, outside and inside.
    (
        "(for (d <- table departments) where (d.name == 'Sales')
           [(n = 'a', b = for (e <- table employees) where (e.dept == d.name) [e.name])])
         ++ [(n = 'b', b = (for (t <- table tasks) for (e <- table employees)
              where (t.employee == e.name) [t.task]) ++ ['x'])]",
        "{(b = {'Erik' @ [employees 3]}, n = 'a') @ [departments 4], (b = {'build' @ [tasks 1, employees 1], 'build' @ [tasks 2, employees 2], 'call' @ [tasks 3, employees 3], 'enthuse' @ [tasks 4, employees 3], 'x' @ []}, n = 'b') @ []}",
    ),
    // Fewer rows stand before more.
    (
        "(for (d <- table departments) for (e <- table employees)
           where (d.name == 'Sales' && e.dept == d.name) [1])
         ++ (for (d <- table departments) where (d.name == 'Sales') [1])
         ++ (for (e <- table employees) where (e.name == 'Erik') [1])",
        "{1 @ [departments 4], 1 @ [departments 4, employees 3], 1 @ [employees 3]}",
    ),
    // The rows that a test, a count or a sum looks at are none of the element's.
    (
        "for (d <- table departments)
         where (empty(for (e <- table employees) where (e.dept == d.name) [e])) [d.name]",
        "{'Quality' @ [departments 2], 'Research' @ [departments 3]}",
    ),
    (
        "nq 2; for (d <- table departments) [(n = count(
           for (e <- table employees) where (e.dept == d.name) [e]), s = sum(
           for (e <- table employees) where (e.dept == d.name) [e.salary]))]",
        "{(n = 0, s = 0) @ [departments 2], (n = 0, s = 0) @ [departments 3], (n = 1, s = 2000000) @ [departments 4], (n = 2, s = 20900) @ [departments 1]}",
    ),
    // A row may be of one table twice.
    (
        "for (t <- table tasks) for (u <- table tasks)
         where (t.task == u.task && t.employee < u.employee) [t.task]",
        "{'build' @ [tasks 1, tasks 2]}",
    ),
    (
        "let of = fun (n: text) -> for (t <- table tasks) where (t.employee == n) [t.task];
         [(a = of('Alex'), b = of('Erik'))]",
        "{(a = {'build' @ [tasks 1]}, b = {'call' @ [tasks 3], 'enthuse' @ [tasks 4]}) @ []}",
    ),
    (
        "for (d <- table departments) where (d.name == 'Sales') [[[d.name]]]",
        "{{{'Sales' @ []} @ []} @ [departments 4]}",
    ),
    (
        "if empty(table tasks) then table departments
         else for (d <- table departments) where (d.name < 'Q') [d]",
        "{(name = 'Product') @ [departments 1]}",
    ),
    ("[: (a: int, b: [text])]", "{}"),
];

// Over the other tables.
const OTHER_QUERIES: [(&str, &str); 3] = [
    // Equal rows are two rows.
    (
        STAFF,
        "{(d = 'Product', es = {'Alex' @ [employees 1], 'Bert' @ [employees 2]}) @ [departments 1], (d = 'Product', es = {'Alex' @ [employees 1], 'Bert' @ [employees 2]}) @ [departments 2]}",
    ),
    // Rows stand by their numbers and not by the texts of these.
    (
        "for (t <- table tasks) [1]",
        "{1 @ [tasks 1], 1 @ [tasks 2], 1 @ [tasks 3], 1 @ [tasks 4], 1 @ [tasks 5], 1 @ [tasks 6], 1 @ [tasks 7], 1 @ [tasks 8], 1 @ [tasks 9], 1 @ [tasks 10], 1 @ [tasks 11]}",
    ),
    ("table contacts", "{}"),
];

#[test]
fn tells_the_rows(rt: HostRuntime) -> Result<(), Memory> {
    let alloc = rt.alloc();
    let schema = org(alloc)?;
    for (query, want) in &QUERIES {
        let traced = traced(alloc, &schema, &TABLES, query)?;
        assert_eq!(&rt; text_of(alloc, traced)?.as_str(), *want);
    }
    for (query, want) in &OTHER_QUERIES {
        let traced = traced(alloc, &schema, &OTHERS, query)?;
        assert_eq!(&rt; text_of(alloc, traced)?.as_str(), *want);
    }
    Ok(())
}

#[test]
fn erases_the_rows(rt: HostRuntime) -> Result<(), Memory> {
    let alloc = rt.alloc();
    let schema = org(alloc)?;
    let traced = traced(alloc, &schema, &TABLES, STAFF)?;
    assert_eq!(&rt;
        plain_text_of(alloc, &traced)?.as_str(),
        "{(d = 'Product', es = {'Alex', 'Bert'}), (d = 'Quality', es = {}), (d = 'Research', es = {}), (d = 'Sales', es = {'Erik'})}"
    );
    Ok(())
}

#[test]
fn records_the_rows(rt: HostRuntime) -> Result<(), Memory> {
    let alloc = rt.alloc();
    let schema = org(alloc)?;
    let query = "[(n = [1], e = for (e <- table employees) for (d <- table departments)
        where (e.dept == d.name && e.name == 'Erik') [e.name])]";
    let traced = traced(alloc, &schema, &TABLES, query)?;
    assert_eq!(&rt;
        records_text_of(alloc, traced)?.as_str(),
        "{(rows = {}, value = (e = {(rows = {{'employees', 3}, {'departments', 4}}, value = 'Erik')}, n = {(rows = {}, value = 1)}))}"
    );
    Ok(())
}

// Eleven tables. The label of the tenth number stands between those of the first and the second.
const ELEVEN: &str = "table a (x: int); table b (x: int); table c (x: int); table d (x: int);
table e (x: int); table f (x: int); table g (x: int); table h (x: int); table i (x: int);
table j (x: int); table k (x: int);";

// The rows of the second table are two, those of the tenth are three.
const ROWS: [&str; 11] = [
    "x,#\n0,1\n",
    "x,#\n0,1\n1,2\n",
    "x,#\n0,1\n",
    "x,#\n0,1\n",
    "x,#\n0,1\n",
    "x,#\n0,1\n",
    "x,#\n0,1\n",
    "x,#\n0,1\n",
    "x,#\n0,1\n",
    "x,#\n0,1\n0,2\n1,3\n",
    "x,#\n0,1\n",
];

#[test]
fn keeps_the_order_of_eleven_generators(rt: HostRuntime) -> Result<(), Memory> {
    let alloc = rt.alloc();
    let schema = schema_of(alloc, ELEVEN)?;
    let query = "for (a <- table a) for (b <- table b) for (c <- table c) for (d <- table d)
        for (e <- table e) for (f <- table f) for (g <- table g) for (h <- table h)
        for (i <- table i) for (j <- table j) for (k <- table k)
        where (b.x == 1 && j.x == 1) [k.x]";
    let traced = traced(alloc, &schema, &ROWS, query)?;
    assert_eq!(&rt;
        text_of(alloc, traced)?.as_str(),
        "{0 @ [a 1, b 2, c 1, d 1, e 1, f 1, g 1, h 1, i 1, j 3, k 1]}"
    );
    Ok(())
}
