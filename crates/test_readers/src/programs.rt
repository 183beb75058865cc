// Programs with the type that they have, or the typing rule that they break and its place, counted by hand.
use nq_model::{Memory, Schema, Ty};
use nq_parser::parse;
use nq_types::{check, write_type};
use schema_reader::read_schema;
use std::alloc::{AllocError, Global};
use std::process::Abort;
use std::str;
use std::test::Fail;

// The schema over which the programs are typed.
const PARTS: &[u8] = b"table parts (size: int, name: text);";

// A program, and the type that it has, or the first rule that it breaks in judging order.
const PROGRAMS: [(&str, &str); 28] = [
    ("table parts", "[(name: text, size: int)]"),
    ("for (p <- table parts) [p.name]", "[text]"),
    // Records are the same in any order of their fields.
    ("[(b = 1, a = 2)] ++ [(a = 3, b = 4)]", "[(a: int, b: int)]"),
    // A function may take a function.
    (
        "[(fun (f: int -> int) -> f(1))(fun (x: int) -> x)]",
        "[int]",
    ),
    ("table nobody", "Ill { rule: 5, place: 0 }"),
    ("-true", "Ill { rule: 6, place: 0 }"),
    ("!1", "Ill { rule: 7, place: 0 }"),
    ("1 + true", "Ill { rule: 8, place: 2 }"),
    (
        "(a = 1, b = 1) == (a = 1, b = 1)",
        "Ill { rule: 9, place: 15 }",
    ),
    ("true && 1", "Ill { rule: 10, place: 5 }"),
    ("if true then [1] else [true]", "Ill { rule: 11, place: 0 }"),
    (
        "fun (x: [int -> int]) -> 1 + true",
        "Ill { rule: 12, place: 0 }",
    ),
    ("(fun (x: int) -> x)(true)", "Ill { rule: 13, place: 19 }"),
    ("1(1)", "Ill { rule: 13, place: 1 }"),
    (
        "for (p <- table parts) [p.a]",
        "Ill { rule: 15, place: 25 }",
    ),
    ("empty((a = 1, b = 1))", "Ill { rule: 16, place: 0 }"),
    ("[fun (x: int) -> x]", "Ill { rule: 17, place: 0 }"),
    ("[: int -> int]", "Ill { rule: 18, place: 0 }"),
    ("[1] ++ [true]", "Ill { rule: 19, place: 4 }"),
    ("for (x <- [1]) x", "Ill { rule: 20, place: 0 }"),
    ("where (1) [1]", "Ill { rule: 21, place: 0 }"),
    ("1 + 1", "Ill { rule: 23, place: 2 }"),
    // The source of a `for` is judged before its body, and so is the value of a `let`; a part of a node is
    // judged before the node, and the whole last.
    ("for (x <- 1) 1 + true", "Ill { rule: 20, place: 0 }"),
    ("let x = -true; 1 + true", "Ill { rule: 6, place: 8 }"),
    ("-(1 + true)", "Ill { rule: 8, place: 4 }"),
    ("where (1) [1 + true]", "Ill { rule: 8, place: 13 }"),
    ("fun (x: int) -> 1 + true", "Ill { rule: 8, place: 18 }"),
    ("fun (x: int) -> x", "Ill { rule: 23, place: 0 }"),
];

// The type of a program, or its fault.
fn judged(alloc: Global, schema: &Schema, text: &str) -> Result<String, AllocError> {
    let term = match parse(alloc, text.as_bytes(), 200) {
        Ok(term) => term,
        Err(fault) => return format!(in alloc; "{fault:?}"),
    };
    match check(alloc, schema, &term) {
        Ok(ty) => written(alloc, &ty),
        Err(fault) => format!(in alloc; "{fault:?}"),
    }
}

fn written(alloc: Global, ty: &Ty) -> Result<String, AllocError> {
    match write_type(alloc, ty) {
        Ok(text) => String::from_str(alloc, str::from_utf8(text.as_slice()).unwrap_or("no text")),
        Err(Memory) => Err(AllocError),
    }
}

#[test]
fn types_or_refuses(rt: HostRuntime) -> Result<(), Fail> {
    let alloc = rt.alloc();
    let schema = read_schema(alloc, PARTS).expect(&rt, "the schema is spelled");
    for (text, want) in &PROGRAMS {
        assert_eq!(&rt; judged(alloc, &schema, text)?.as_str(), *want);
    }
    Ok(())
}
