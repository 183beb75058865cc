// Explanations, written by hand: what a person who knows SQL tried first, and what helps.
use explanations::{explain_schema, explain_syntax, explain_type};
use nq_model::{List, Memory, Schema};
use nq_parser::parse;
use nq_types::{CheckFault, check, found_types};
use schema_reader::{SchemaFault, read_schema};
use std::alloc::Global;
use std::process::Abort;
use std::test::Fail;

const SCHEMA: &[u8] = b"table customers (id: int, name: text, city: text, vip: bool, key (id));
table orders (id: int, customer: int, key (id));
";

fn schema_of(alloc: Global) -> Result<Schema, Memory> {
    match read_schema(alloc, SCHEMA) {
        Ok(schema) => Ok(schema),
        Err(_) => Err(Memory),
    }
}

// The explanation of a query text, if it is refused.
fn explained(alloc: Global, query: &[u8], depth: u64) -> Result<Option<List<u8>>, Memory> {
    let schema = schema_of(alloc)?;
    match parse(alloc, query, depth) {
        Ok(term) => match check(alloc, &schema, &term) {
            Ok(_) => Ok(None),
            Err(CheckFault::Ill { rule, place }) => {
                let found = found_types(alloc, &schema, &term)?;
                let types = found.as_slice();
                let made = explain_type(
                    alloc,
                    b"q",
                    query,
                    u64::from(rule),
                    place,
                    &schema,
                    types,
                )?;
                Ok(Some(made))
            }
            Err(CheckFault::Memory) => Err(Memory),
        },
        Err(fault) => {
            let made = explain_syntax(alloc, b"q", query, depth, &fault, &schema)?;
            Ok(Some(made))
        }
    }
}

// A query, and its explanation.
const EXPLAINED: [(&str, &str); 32] = [
    (
        "for (c <- table customers) where (c.city = 'Oslo') [c.name]",
        "q:1:42: To compare two values, write ==.
for (c <- table customers) where (c.city = 'Oslo') [c.name]
                                         ^
found: =
expected: an operator, (, ) or a dot
",
    ),
    (
        "for c in customers [c.name]\n",
        "q:1:5: A for has parentheses, as in for (x <- table t) [x.a].
for c in customers [c.name]
    ^
found: c
expected: (
",
    ),
    (
        "for (c customers) [c.name]",
        "q:1:8: A for takes its elements by an arrow, as in for (x <- table t).
for (c customers) [c.name]
       ^
found: customers
expected: <-
",
    ),
    (
        "for (c <- customers) [c.name]",
        "q:1:11: This is a table. Write table before its name.
for (c <- customers) [c.name]
          ^
write: table customers
",
    ),
    (
        "[(n = nobody)]",
        "q:1:7: No variable has this name. If you mean a table, write table before it.
[(n = nobody)]
      ^
tables: customers and orders
",
    ),
    (
        "[count(table customers)]",
        "q:1:2: The word count is of the second edition. Begin the query with nq 2;
[count(table customers)]
 ^
tables: customers and orders
",
    ),
    // At the end of the text.
    (
        "for (c <- table customers)",
        "q:1:27: The query is not finished.
for (c <- table customers)
                          ^
found: the end of the text
expected: an expression
",
    ),
    // A tab before the place.
    (
        "\tfor c in customers [c.name]",
        "q:1:6: A for has parentheses, as in for (x <- table t) [x.a].
 for c in customers [c.name]
     ^
found: c
expected: (
",
    ),
    // Letters of two, three and four bytes before the place.
    (
        "['é€😀' = 'x']",
        "q:1:8: To compare two values, write ==.
['é€😀' = 'x']
       ^
found: =
expected: an operator, (, ] or a dot
",
    ),
    // Lines that end with a carriage return and a line feed.
    (
        "for (c <- table customers)\r\nwhere c.vip [c.name]\r\n",
        "q:2:7: The condition stands in parentheses, as in where (c.vip).
where c.vip [c.name]
      ^
found: c
expected: (
",
    ),
    (
        "select name from customers",
        "q:1:8: There is no select. Write for (r <- table t) where (r.a == 1) [(a = r.a)].
select name from customers
       ^
found: name
expected: an operator, (, a dot or the end of the text
",
    ),
    (
        "table customers;",
        "q:1:16: A query ends without a semicolon. Only a let has one.
table customers;
               ^
found: a semicolon
expected: an operator, (, a dot or the end of the text
",
    ),
    (
        "[1, 2, 3]",
        "q:1:3: A bag of two is [1] ++ [2], and a bag of one record [(a = 1, b = 2)].
[1, 2, 3]
  ^
found: a comma
expected: an operator, (, ] or a dot
",
    ),
    (
        "[]",
        "q:1:2: An empty bag names the type of its elements, as in [: int].
[]
 ^
found: ]
expected: an expression or a colon
",
    ),
    (
        "for (c <- table customers) [(name: c.name)]",
        "q:1:34: A field is label = value. Only in types is it label: type.
for (c <- table customers) [(name: c.name)]
                                 ^
found: a colon
expected: an operator, =, (, ) or a dot
",
    ),
    (
        "for (c <- table customers) where (not c.vip) [c.name]",
        "q:1:39: The word not is written !, as in !(a == b).
for (c <- table customers) where (not c.vip) [c.name]
                                      ^
found: c
expected: an operator, (, ) or a dot
",
    ),
    (
        "for (c <- table customers) where (c.city <> 'Oslo') [c.name]",
        "q:1:43: Unequal is written !=.
for (c <- table customers) where (c.city <> 'Oslo') [c.name]
                                          ^
found: >
expected: an operand
",
    ),
    (
        "for (c <- table customers) where (1 < c.id < 3) [c.id]",
        "q:1:44: Comparisons do not chain. Write 1 < x && x < 3.
for (c <- table customers) where (1 < c.id < 3) [c.id]
                                           ^
found: <
expected: ++, ||, &&, +, -, *, (, ) or a dot
",
    ),
    // In the second edition two more words begin an expression.
    (
        "nq 2; [)",
        "q:1:8: No query goes on like this.
nq 2; [)
       ^
found: )
expected: an expression or a colon
",
    ),
    (
        "table ;",
        "q:1:7: No query goes on like this.
table ;
      ^
found: a semicolon
expected: any word
",
    ),
    (
        "[: string]",
        "q:1:4: The types are int, bool, text, [T], (a: T, b: U) and T -> U.
[: string]
   ^
found: string
expected: a type
",
    ),
    (
        "for (table <- table customers) [table.name]",
        "q:1:6: A name of your own stands here, and no word of the language.
for (table <- table customers) [table.name]
     ^
found: table
expected: a name of your own
",
    ),
    // In a parenthesis a record may begin, whose label may be any word.
    (
        "(;",
        "q:1:2: No query goes on like this.
(;
 ^
found: a semicolon
expected: an expression, any word or )
",
    ),
    (
        "for (c <- table customers) where (c.city == \"Oslo\") [c.name]",
        "q:1:45: Texts stand in single quotes, as in 'Oslo'. Names stand in none.
for (c <- table customers) where (c.city == \"Oslo\") [c.name]
                                            ^
",
    ),
    (
        "for (c <- table customers) where (c.city == 'Oslo' || 'Rome') [c.name]",
        "q:1:52: Both sides of && and || are bools: x == 'a' || x == 'b', not x == 'a' || 'b'.
for (c <- table customers) where (c.city == 'Oslo' || 'Rome') [c.name]
                                                   ^
found: bool and text
rule: 10, kept by: [1 == 2 || 1 == 3]
",
    ),
    // What stands there: of a comparison both sides, of a record its labels, of a comprehension its
    // source and its body, and of a choice all three parts.
    (
        "for (c <- table customers) where (c.id == '1') [c.name]",
        "q:1:40: You compare two ints, two bools or two texts. Of rows, compare the columns.
for (c <- table customers) where (c.id == '1') [c.name]
                                       ^
found: int and text
rule: 9, kept by: ['a' == 'b']
",
    ),
    (
        "for (o <- table orders) [o.total]",
        "\
q:1:27: Before the dot stands a record that has the field. Take it of a row, not of a table.
for (o <- table orders) [o.total]
                          ^
found: (customer: int, id: int)
rule: 15, kept by: for (e <- table employees) [e.name]
",
    ),
    (
        "for (o <- table orders) o.id",
        "q:1:1: A for goes over a bag, and its body is a bag: put the element into [..].
for (o <- table orders) o.id
^
found: [(customer: int, id: int)] and int
rule: 20, kept by: for (e <- table employees) [e.name]
",
    ),
    (
        "for (o <- table orders) [if o.id < 2 then o.id else 'many']",
        "q:1:26: The test of if is a bool, and the values behind then and else have one type.
for (o <- table orders) [if o.id < 2 then o.id else 'many']
                         ^
found: bool, int and text
rule: 11, kept by: [if 1 < 2 then 'yes' else 'no']
",
    ),
    (
        "table costumers",
        "q:1:1: The schema must have the table: is the name misspelt, or the schema another one?
table costumers
^
tables: customers and orders
nearest: customers
",
    ),
    // Two letters are left out; and three or more part the name from each table.
    (
        "table ores",
        "q:1:1: The schema must have the table: is the name misspelt, or the schema another one?
table ores
^
tables: customers and orders
nearest: orders
",
    ),
    (
        "table old",
        "q:1:1: The schema must have the table: is the name misspelt, or the schema another one?
table old
^
tables: customers and orders
",
    ),
];

#[test]
fn queries_are_explained(rt: HostRuntime) -> Result<(), Fail> {
    let alloc = rt.alloc();
    for (query, wanted) in &EXPLAINED {
        let made = explained(alloc, query.as_bytes(), 200)?;
        assert!(rt; made.is_some(), "{query}");
        if let Some(made) = made {
            assert!(rt; made.as_slice() == wanted.as_bytes(), "{query}: {made:?}");
        }
    }
    Ok(())
}

// At depth 1 nothing may stand in parentheses.
#[test]
fn depth_is_explained(rt: HostRuntime) -> Result<(), Fail> {
    let made = explained(rt.alloc(), b"(1)", 1)?;
    let wanted = b"q:1:2: This goes too deep. A query may be 200 levels deep.
(1)
 ^
found: a number
expected: )
";
    assert!(rt; made.is_some());
    if let Some(made) = made {
        assert!(rt; made.as_slice() == wanted.as_slice(), "{made:?}");
    }
    Ok(())
}

#[test]
fn schemas_are_explained(rt: HostRuntime) -> Result<(), Fail> {
    let alloc = rt.alloc();
    let fault = SchemaFault::Syntax { place: 12 };
    let made = explain_schema(alloc, b"s", b"table t (a: INT);\n", &fault)?;
    let wanted =
        b"s:1:13: No schema goes on like this. A table is: table t (c: int, d: text, key (c));
table t (a: INT);
            ^
";
    assert!(rt; made.as_slice() == wanted.as_slice(), "{made:?}");
    Ok(())
}
