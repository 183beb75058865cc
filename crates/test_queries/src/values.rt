// What queries mean over the tables of an organisation, by the plain evaluators: of the term that single steps reach,
// and of the normal form.
ghost use Rattle.nq_model.specs.Tables.{IsProperSchema};

use crate::asked::read;
use canon::{sort_deep, write};
use normalise::normalise;
use nq_model::{List, Memory, Schema, Value};
use reference_terms::{Scope, unfold_by_steps};
use rows::Table;
use std::alloc::Global;
use std::process::Abort;
use std::str;
use table_reader::read_table;
use test_support::{org, plain};

// The texts of the tables, in the order of the schema.
const TABLES: [&str; 4] = [
    "name\nProduct\nQuality\nResearch\nSales\n",
    "dept,name,salary\nProduct,Alex,20000\nProduct,Bert,900\nSales,Erik,2000000\n",
    "employee,task\nAlex,build\nBert,build\nErik,call\nErik,enthuse\n",
    "dept,name,client\nProduct,Pam,false\nQuality,Quinn,true\nSales,Sue,true\n",
];

// The same, where one department stands twice.
const TWICE: [&str; 4] = [
    "name\nProduct\nProduct\n",
    "dept,name,salary\nProduct,Alex,1\nProduct,Bert,2\n",
    "employee,task\n",
    "dept,name,client\n",
];

// A query, and what it means.
const QUERIES: [(&str, &str); 32] = [
    ("[: (dept: text, name: text, salary: int)]", "{}"),
    ("[[1] ++ [1]]", "{{1, 1}}"),
    ("for (e <- table employees) [()]", "{(), (), ()}"),
    (
        "let x = 1; let f = fun (y: int) -> for (x <- [10] ++ [20]) [x + y]; f(x)",
        "{11, 21}",
    ),
    ("[9223372036854775807 + 1]", "{-9223372036854775808}"),
    (
        "(for (d <- table departments) where (d.name == 'Sales')
           [(n = 'a', b = for (e <- table employees) where (e.dept == d.name) [e.name])])
           ++ [(n = 'b', b = [: text])]",
        "{(b = {}, n = 'b'), (b = {'Erik'}, n = 'a')}",
    ),
    (
        "let filter = fun (p: (dept: text, name: text, salary: int) -> bool) ->
           for (e <- table employees) where (p(e)) [e.name];
         let both = fun (h: ((dept: text, name: text, salary: int) -> bool) -> [text]) ->
           h(fun (e: (dept: text, name: text, salary: int)) -> e.salary < 1000)
             ++ h(fun (e: (dept: text, name: text, salary: int)) -> e.salary > 50000);
         both(filter)",
        "{'Bert', 'Erik'}",
    ),
    (
        "let lo = fun (n: int) -> n < 1000;
         let hi = fun (n: int) -> n > 50000;
         for (c <- table contacts) for (e <- table employees)
         where (e.dept == c.dept && (if c.client then hi else lo)(e.salary)) [e.name]",
        "{'Bert', 'Erik'}",
    ),
    (
        "for (d <- table departments) [(d = d.name, none = empty(
           (for (e <- table employees) where (e.dept == d.name) [e.name])
           ++ (for (c <- table contacts) where (c.dept == d.name
             && empty(for (t <- table tasks) where (t.employee == c.name) [t])) [c.name])))]",
        "{(d = 'Product', none = false), (d = 'Quality', none = false), (d = 'Research', none = true), (d = 'Sales', none = false)}",
    ),
    // Counts and sums.
    (
        "nq 2;
         for (d <- table departments) [(d = d.name,
           n = count(for (e <- table employees) where (e.dept == d.name) [e]),
           s = sum(for (e <- table employees) where (e.dept == d.name) [e.salary]))]",
        "{(d = 'Product', n = 2, s = 20900), (d = 'Quality', n = 0, s = 0), (d = 'Research', n = 0, s = 0), (d = 'Sales', n = 1, s = 2000000)}",
    ),
    (
        "nq 2; [sum([9223372036854775807] ++ [1])]",
        "{-9223372036854775808}",
    ),
    ("nq 2; [count([: int])]", "{0}"),
    ("let count = 3; [count]", "{3}"),
    ("nq 2; [sum([1] ++ [2] ++ [3])]", "{6}"),
    (
        "nq 2; [count(table departments ++ table departments)]",
        "{8}",
    ),
    (
        "nq 2; for (d <- table departments)
         where (count(for (e <- table employees) where (e.dept == d.name) [e]) > 1) [d.name]",
        "{'Product'}",
    ),
    (
        "nq 2; [empty(for (d <- table departments) where (count(table tasks) == 2) [sum([: int])])]",
        "{true}",
    ),
    ("nq 2; [count([[1] ++ [2]] ++ [[: int]])]", "{2}"),
    (
        "nq 2; [sum(for (d <- table departments)
           [count(for (e <- table employees) where (e.dept == d.name) [e])])]",
        "{3}",
    ),
    (
        "nq 2; for (e <- table employees) [sum(for (t <- table tasks) [e.salary])]",
        "{3600, 80000, 8000000}",
    ),
    ("nq 2; [count(if true then [1] else [2] ++ [3])]", "{1}"),
    (
        "nq 2; [if count(table contacts) > 2 then sum(for (e <- table employees) [e.salary]) else 0]",
        "{2020900}",
    ),
    (
        "nq 2; let twice = fun (b: [int]) -> sum(b) + count(b); [twice([4] ++ [5])]",
        "{11}",
    ),
    (
        "nq 2; [sum(for (x <- [1] ++ [2]) for (e <- table employees) [x])]",
        "{9}",
    ),
    ("nq 2; [sum(where (empty(table tasks)) [7])]", "{0}"),
    ("nq 2; [-sum([5]) * 2]", "{-10}"),
    (
        "nq 2; for (d <- table departments) [(d = d.name,
           es = for (e <- table employees) where (e.dept == d.name)
             [(n = e.name, k = count(for (t <- table tasks) where (t.employee == e.name) [t]))])]",
        "{(d = 'Product', es = {(k = 1, n = 'Alex'), (k = 1, n = 'Bert')}), (d = 'Quality', es = {}), (d = 'Research', es = {}), (d = 'Sales', es = {(k = 2, n = 'Erik')})}",
    ),
    ("nq 2; [1]", "{1}"),
    ("nq 2; [(count = 1).count]", "{1}"),
    ("let sum = fun (x: int) -> x; [sum(2)]", "{2}"),
    ("let nq = 2; [nq]", "{2}"),
    ("nq 2; let nq = 2; [nq]", "{2}"),
];

// Equal rows stay apart.
const EACH_STAFF: (&str, &str) = (
    "for (d <- table departments)
       [(d = d.name, es = for (e <- table employees) where (e.dept == d.name) [e.name])]",
    "{(d = 'Product', es = {'Alex', 'Bert'}), (d = 'Product', es = {'Alex', 'Bert'})}",
);

fn tables_of(alloc: Global, schema: &Schema, texts: &[&str]) -> Result<List<Table>, Memory> {
    let mut tables = List::new(alloc);
    for (shape, text) in schema.tables.as_slice().iter().zip(texts.iter()) {
        let table = read_table(alloc, shape, text.as_bytes()).map_err(|_| Memory)?;
        tables.push(table)?;
    }
    Ok(tables)
}

// The canonical text of a value, without its newline.
fn line(alloc: Global, value: Value) -> Result<String, Memory> {
    let written = write(alloc, &sort_deep(alloc, value)?)?;
    let line = str::from_utf8(written.as_slice()).unwrap_or("no text");
    Ok(String::from_str(alloc, line.trim_end())?)
}

// What a query means, by its term.
fn by_term(alloc: Global, schema: &Schema, tables: &[Table], text: &str) -> Result<String, Memory> {
    let term = unfold_by_steps(alloc, read(alloc, text)?)?;
    line(
        alloc,
        reference_terms::evaluate(alloc, schema, tables, &Scope::Top, &term)?,
    )
}

// What a query means, by its normal form.
fn by_form(alloc: Global, schema: &Schema, tables: &[Table], text: &str) -> Result<String, Memory>
    requires { IsProperSchema schema.now }
{
    let term = plain(alloc, schema, text)?;
    let form = normalise(alloc, schema, &term)?;
    line(
        alloc,
        reference_forms::evaluate(alloc, schema, tables, &form)?,
    )
}

#[test]
fn means(rt: HostRuntime) -> Result<(), Memory> {
    let alloc = rt.alloc();
    let schema = org(alloc)?;
    let tables = tables_of(alloc, &schema, &TABLES)?;
    for (text, want) in &QUERIES {
        assert_eq!(&rt;
            by_term(alloc, &schema, tables.as_slice(), text)?.as_str(),
            *want
        );
        assert_eq!(&rt;
            by_form(alloc, &schema, tables.as_slice(), text)?.as_str(),
            *want
        );
    }
    let twice = tables_of(alloc, &schema, &TWICE)?;
    let (text, want) = EACH_STAFF;
    assert_eq!(&rt;
        by_term(alloc, &schema, twice.as_slice(), text)?.as_str(),
        want
    );
    assert_eq!(&rt;
        by_form(alloc, &schema, twice.as_slice(), text)?.as_str(),
        want
    );
    Ok(())
}
