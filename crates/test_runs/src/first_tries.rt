// The first tries of a person who knows SQL, each as a whole run of `explain` that is worked out by
// hand.
use crate::runs::{Engine, Wanted, check_run, held, put};
use nq_model::List;
use std::alloc::Global;
use std::test::Fail;

const SCHEMA: &[u8] = b"table customers (id: int, name: text, city: text, vip: bool, key (id));
table orders (id: int, customer: int, key (id));
table lines (order: int, qty: int, price: int);
table products (name: text, category: text, price: int);
";

// A query, and what is written of it.
const TRIES: [(&str, &str); 56] = [
    (
        "select name from customers",
        "\
q:1:8: There is no select. Write for (r <- table t) where (r.a == 1) [(a = r.a)].
select name from customers
       ^
found: name
expected: an operator, (, a dot or the end of the text
",
    ),
    (
        "for c in customers [c.name]",
        "\
q:1:5: A for has parentheses, as in for (x <- table t) [x.a].
for c in customers [c.name]
    ^
found: c
expected: (
",
    ),
    (
        "for (c <- customers) [c.name]",
        "\
q:1:11: This is a table. Write table before its name.
for (c <- customers) [c.name]
          ^
write: table customers
",
    ),
    (
        "for (c <- table customers) c.name",
        "\
q:1:1: A for goes over a bag, and its body is a bag: put the element into [..].
for (c <- table customers) c.name
^
found: [(city: text, id: int, name: text, vip: bool)] and text
rule: 20, kept by: for (e <- table employees) [e.name]
",
    ),
    (
        "for (c <- table customers) [c.name];",
        "\
q:1:36: A query ends without a semicolon. Only a let has one.
for (c <- table customers) [c.name];
                                   ^
found: a semicolon
expected: an operator, (, a dot or the end of the text
",
    ),
    (
        "table customers;",
        "\
q:1:16: A query ends without a semicolon. Only a let has one.
table customers;
               ^
found: a semicolon
expected: an operator, (, a dot or the end of the text
",
    ),
    (
        "for (c <- table customers) where c.vip [c.name]",
        "\
q:1:34: The condition stands in parentheses, as in where (c.vip).
for (c <- table customers) where c.vip [c.name]
                                 ^
found: c
expected: (
",
    ),
    (
        "for (c <- table customers) where (c.city = 'Oslo') [c.name]",
        "\
q:1:42: To compare two values, write ==.
for (c <- table customers) where (c.city = 'Oslo') [c.name]
                                         ^
found: =
expected: an operator, (, ) or a dot
",
    ),
    (
        "for (c <- table customers) where (c.city == \"Oslo\") [c.name]",
        "\
q:1:45: Texts stand in single quotes, as in 'Oslo'. Names stand in none.
for (c <- table customers) where (c.city == \"Oslo\") [c.name]
                                            ^
",
    ),
    (
        "for (c <- table customers) where (c.city == 'Oslo' and c.vip) [c.name]",
        "\
q:1:52: The word and is written &&.
for (c <- table customers) where (c.city == 'Oslo' and c.vip) [c.name]
                                                   ^
found: and
expected: ++, ||, &&, +, -, *, (, ) or a dot
",
    ),
    (
        "for (c <- table customers) where (not c.vip) [c.name]",
        "\
q:1:39: The word not is written !, as in !(a == b).
for (c <- table customers) where (not c.vip) [c.name]
                                      ^
found: c
expected: an operator, (, ) or a dot
",
    ),
    (
        "for (c <- table customers) where (c.city <> 'Oslo') [c.name]",
        "\
q:1:43: Unequal is written !=.
for (c <- table customers) where (c.city <> 'Oslo') [c.name]
                                          ^
found: >
expected: an operand
",
    ),
    (
        "for (c <- table customers) [(name: c.name)]",
        "\
q:1:34: A field is label = value. Only in types is it label: type.
for (c <- table customers) [(name: c.name)]
                                 ^
found: a colon
expected: an operator, =, (, ) or a dot
",
    ),
    (
        "for (c <- table customers) [(c.name, c.city)]",
        "\
q:1:36: No list stands here. Write (a = 1, b = 2), f(1)(2), or a for in a for.
for (c <- table customers) [(c.name, c.city)]
                                   ^
found: a comma
expected: an operator, (, ) or a dot
",
    ),
    (
        "for (c <- table customers) [{name = c.name}]",
        "\
q:1:29: There are no braces. A bag is [1] ++ [2], and a record (a = 1, b = 2).
for (c <- table customers) [{name = c.name}]
                            ^
",
    ),
    (
        "for (c <- table customers) [(name = c.nam)]",
        "\
q:1:38: Before the dot stands a record that has the field. Take it of a row, not of a table.
for (c <- table customers) [(name = c.nam)]
                                     ^
found: (city: text, id: int, name: text, vip: bool)
rule: 15, kept by: for (e <- table employees) [e.name]
",
    ),
    (
        "for (c <- table costumers) [c.name]",
        "\
q:1:11: The schema must have the table: is the name misspelt, or the schema another one?
for (c <- table costumers) [c.name]
          ^
tables: customers, orders, lines and products
nearest: customers
",
    ),
    (
        "for (c <- table customers) let n = c.name; [n]",
        "\
q:1:28: A let stands at the beginning. Inside, write for (x <- [1 + 2]) [x].
for (c <- table customers) let n = c.name; [n]
                           ^
found: let
expected: an expression
",
    ),
    (
        "for (c <- table customers) (let n = c.name; [n])",
        "\
q:1:33: A let stands at the beginning. Inside, write for (x <- [1 + 2]) [x].
for (c <- table customers) (let n = c.name; [n])
                                ^
found: n
expected: =
",
    ),
    (
        "let f = fun x -> x; [f(1)]",
        "\
q:1:13: A function names the type of its parameter, as in fun (x: int) -> x + 1.
let f = fun x -> x; [f(1)]
            ^
found: x
expected: (
",
    ),
    (
        "let f = fun (x: int, y: int) -> x + y; [f(1, 2)]",
        "\
q:1:20: A function has one parameter. Write fun (x: int) -> fun (y: int) -> x + y.
let f = fun (x: int, y: int) -> x + y; [f(1, 2)]
                   ^
found: a comma
expected: -> or )
",
    ),
    (
        "let f = fun (x: int) -> fun (y: int) -> x + y; [f(1)(2)]",
        "\
[int]
",
    ),
    (
        "let f (x: int) = x; [f(1)]",
        "\
q:1:7: A function is a value. Write let f = fun (x: int) -> x + 1;
let f (x: int) = x; [f(1)]
      ^
found: (
expected: =
",
    ),
    (
        "for (c <- table customers) [c.name || ' of ' || c.city]",
        "\
q:1:36: Both sides of && and || are bools: x == 'a' || x == 'b', not x == 'a' || 'b'.
for (c <- table customers) [c.name || ' of ' || c.city]
                                   ^
found: text and text
rule: 10, kept by: [1 == 2 || 1 == 3]
",
    ),
    (
        "for (c <- table customers) [c.name + ' of ' + c.city]",
        "\
q:1:36: Both sides of +, - and * are ints. Texts cannot be joined.
for (c <- table customers) [c.name + ' of ' + c.city]
                                   ^
found: text and text
rule: 8, kept by: [1 + 2]
",
    ),
    (
        "for (l <- table lines) [l.price / 100]",
        "\
q:1:33: There is no division, and a comment begins with #.
for (l <- table lines) [l.price / 100]
                                ^
",
    ),
    (
        "for (c <- table customers, o <- table orders) [c.name]",
        "\
q:1:26: No list stands here. Write (a = 1, b = 2), f(1)(2), or a for in a for.
for (c <- table customers, o <- table orders) [c.name]
                         ^
found: a comma
expected: an operator, (, ) or a dot
",
    ),
    (
        "count(table customers)",
        "\
q:1:1: The word count is of the second edition. Begin the query with nq 2;
count(table customers)
^
tables: customers, orders, lines and products
",
    ),
    (
        "[count(table customers)]",
        "\
q:1:2: The word count is of the second edition. Begin the query with nq 2;
[count(table customers)]
 ^
tables: customers, orders, lines and products
",
    ),
    (
        "for (p <- table products) where (p.category == 'toys' || 'books') [p.name]",
        "\
q:1:55: Both sides of && and || are bools: x == 'a' || x == 'b', not x == 'a' || 'b'.
for (p <- table products) where (p.category == 'toys' || 'books') [p.name]
                                                      ^
found: bool and text
rule: 10, kept by: [1 == 2 || 1 == 3]
",
    ),
    (
        "for (p <- table products) where (1000 < p.price < 3000) [p.name]",
        "\
q:1:49: Comparisons do not chain. Write 1 < x && x < 3.
for (p <- table products) where (1000 < p.price < 3000) [p.name]
                                                ^
found: <
expected: ++, ||, &&, +, -, *, (, ) or a dot
",
    ),
    (
        "for (c <- table customers) where (c == c) [c.name]",
        "\
q:1:37: You compare two ints, two bools or two texts. Of rows, compare the columns.
for (c <- table customers) where (c == c) [c.name]
                                    ^
found: (city: text, id: int, name: text, vip: bool) and (city: text, id: int, name: text, vip: bool)
rule: 9, kept by: ['a' == 'b']
",
    ),
    (
        "for (c <- table customers) \
            where (empty(for (o <- table orders) o.customer == c.id)) [c.name]",
        "\
q:1:41: A for goes over a bag, and its body is a bag: put the element into [..].
for (c <- table customers) where (empty(for (o <- table orders) o.customer == c.id)) [c.name]
                                        ^
found: [(customer: int, id: int)] and bool
rule: 20, kept by: for (e <- table employees) [e.name]
",
    ),
    (
        "for (c <- table customers) [if c.vip then 'vip']",
        "\
q:1:48: An if has an else, since it always has a value.
for (c <- table customers) [if c.vip then 'vip']
                                               ^
found: ]
expected: an operator, else, ( or a dot
",
    ),
    (
        "for (c <- table customers) where (c.vip) [c.name] ++ [ 'total' ]",
        "\
[text]
",
    ),
    (
        "-- a comment",
        "\
q:1:6: No query goes on like this.
-- a comment
     ^
found: comment
expected: an operator, (, a dot or the end of the text
",
    ),
    (
        "[-9223372036854775808]",
        "\
q:1:3: This number is too large. The largest is 9223372036854775807.
[-9223372036854775808]
  ^
",
    ),
    (
        "[null]",
        "\
q:1:2: There is no null. A bag of none or one stands for what may be absent.
[null]
 ^
tables: customers, orders, lines and products
",
    ),
    (
        "for (c <- table customers) [c]  // all",
        "\
q:1:33: There is no division, and a comment begins with #.
for (c <- table customers) [c]  // all
                                ^
",
    ),
    (
        "table customers.name",
        "\
q:1:16: Before the dot stands a record that has the field. Take it of a row, not of a table.
table customers.name
               ^
found: [(city: text, id: int, name: text, vip: bool)]
rule: 15, kept by: for (e <- table employees) [e.name]
",
    ),
    (
        "(table customers).name",
        "\
q:1:18: Before the dot stands a record that has the field. Take it of a row, not of a table.
(table customers).name
                 ^
found: [(city: text, id: int, name: text, vip: bool)]
rule: 15, kept by: for (e <- table employees) [e.name]
",
    ),
    (
        "for (table <- table customers) [table.name]",
        "\
q:1:6: A name of your own stands here, and no word of the language.
for (table <- table customers) [table.name]
     ^
found: table
expected: a name of your own
",
    ),
    (
        "for (o <- table orders) for (l <- table lines) where (l.order == o.id) [l.qty * l.price]",
        "\
[int]
",
    ),
    (
        "1",
        "\
q:1:1: The whole query is a bag: put a value into [..], or give a function its argument.
1
^
found: int
rule: 23, kept by: [1 + 1]
",
    ),
    (
        "customers",
        "\
q:1:1: This is a table. Write table before its name.
customers
^
write: table customers
",
    ),
    (
        "table customers ++ table products",
        "\
q:1:17: Both sides of ++ are bags of one type: elements in [..], rows with the same fields.
table customers ++ table products
                ^
found: [(city: text, id: int, name: text, vip: bool)] and [(category: text, name: text, price: int)]
rule: 19, kept by: [1] ++ [2]
",
    ),
    (
        "for (c <- table customers) [c.name, c.city]",
        "\
q:1:35: A bag of two is [1] ++ [2], and a bag of one record [(a = 1, b = 2)].
for (c <- table customers) [c.name, c.city]
                                  ^
found: a comma
expected: an operator, (, ] or a dot
",
    ),
    (
        "[1, 2, 3]",
        "\
q:1:3: A bag of two is [1] ++ [2], and a bag of one record [(a = 1, b = 2)].
[1, 2, 3]
  ^
found: a comma
expected: an operator, (, ] or a dot
",
    ),
    (
        "[]",
        "\
q:1:2: An empty bag names the type of its elements, as in [: int].
[]
 ^
found: ]
expected: an expression or a colon
",
    ),
    (
        "for (c <- table customers) [(name = c.name, orders = [])]",
        "\
q:1:55: An empty bag names the type of its elements, as in [: int].
for (c <- table customers) [(name = c.name, orders = [])]
                                                      ^
found: ]
expected: an expression or a colon
",
    ),
    (
        "for (x <- [(n = 1)] ++ [(n = 2)]) [x.n]",
        "\
[int]
",
    ),
    (
        "let people = table customers; for (p <- people) [p.name]",
        "\
[text]
",
    ),
    (
        "let all = fun (p: bool) -> p; [all(true)]",
        "\
[bool]
",
    ),
    (
        "for (c <- table customers) where (c.name like 'A%') [c.name]",
        "\
q:1:42: There is no like. Texts are compared whole, by ==, !=, <, <=, > and >=.
for (c <- table customers) where (c.name like 'A%') [c.name]
                                         ^
found: like
expected: an operator, (, ) or a dot
",
    ),
    (
        "for (c <- table customers) where (c.id in [1]) [c.name]",
        "\
q:1:40: There is no in. Write x == 1 || x == 2, or !empty(..) of what has it.
for (c <- table customers) where (c.id in [1]) [c.name]
                                       ^
found: in
expected: an operator, (, ) or a dot
",
    ),
    (
        "for (c <- table customers) where (exists(table orders)) [c.name]",
        "\
q:1:35: There is no exists. Write !empty(..).
for (c <- table customers) where (exists(table orders)) [c.name]
                                  ^
tables: customers, orders, lines and products
",
    ),
];

#[test]
fn explains_first_tries(rt: HostRuntime) -> Result<(), Fail> {
    let alloc = rt.alloc();
    for (query, out) in &TRIES {
        let mut files = List::new(alloc);
        put(alloc, &mut files, "shop", SCHEMA)?;
        put(alloc, &mut files, "q", query.as_bytes())?;
        let wanted = Wanted {
            words: &["explain", "shop", "q"],
            room: 500,
            status: 0,
            out: *out,
            note: "",
        };
        check_run(&rt, alloc, Engine::Plain, held(alloc, files, &[])?, &wanted)?;
    }
    Ok(())
}
