// Values as JSON, and JSON values as values of a type, worked out by hand.
use nq_json::{JsonFault, value_of, write_json};
use nq_model::{Label, List, Memory, Text, Ty, Value, boxed};
use serde_json::Value as Json;
use std::alloc::Global;
use std::str;
use std::test::Fail;

// A type, a JSON text, and what it gives: the text of the value, or the number of the first faulty
// node.
type Case = (&'static str, &'static str, &'static str);

const CASES: [Case; 32] = [
    ("[int]", "[1,true]", "node 3"),
    ("[int]", "[1,[2],3]", "node 3"),
    ("[int]", "[ 3, 1, 2 ]", "[3,1,2]"),
    ("[int]", "[]", "[]"),
    ("[int]", "{}", "node 1"),
    (
        "[int]",
        "[-9223372036854775808,-1,9223372036854775807]",
        "[-9223372036854775808,-1,9223372036854775807]",
    ),
    ("int", "-9223372036854775808", "-9223372036854775808"),
    ("int", "-9223372036854775809", "node 1"),
    ("int", "9223372036854775808", "node 1"),
    ("int", "1.5", "node 1"),
    ("int", "1e2", "node 1"),
    ("int", "-0", "node 1"),
    ("int", "\"1\"", "node 1"),
    ("int", "null", "node 1"),
    ("bool", "false", "false"),
    ("bool", "0", "node 1"),
    ("text", "5", "node 1"),
    (
        "text",
        "\"\\u0001\\b\\t\\n\\f\\r\\\"\\\\\\/\\u00fc\\u001F\u{7f}\"",
        "\"\\u0001\\b\\t\\n\\f\\r\\\"\\\\/ü\\u001f\u{7f}\"",
    ),
    ("()", "{}", "{}"),
    ("()", "[]", "node 1"),
    ("()", "{\"a\":1}", "node 1"),
    (
        "(a: int, b: [text])",
        "{\"b\":[\"x\",\"y\"],\"a\":1}",
        "{\"a\":1,\"b\":[\"x\",\"y\"]}",
    ),
    ("(a: int, b: [text])", "{\"b\":[\"x\",5],\"a\":1}", "node 5"),
    ("(a: int, b: [text])", "{\"a\":1}", "node 1"),
    (
        "(a: int, b: [text])",
        "{\"a\":true,\"b\":[],\"c\":2}",
        "node 1",
    ),
    (
        "(a: int, b: [text])",
        "{\"a\":true,\"b\":[],\"a\":2}",
        "{\"a\":2,\"b\":[]}",
    ),
    (
        "[(a: [int], b: bool)]",
        "[{\"a\":[1,2],\"b\":true},{\"a\":[],\"b\":0}]",
        "node 9",
    ),
    (
        "[(a: [int], b: bool)]",
        "[{\"a\":[1,2],\"b\":true},{\"a\":[],\"b\":false}]",
        "[{\"a\":[1,2],\"b\":true},{\"a\":[],\"b\":false}]",
    ),
    ("[[int]]", "[[],[1,2],[1,2]]", "[[],[1,2],[1,2]]"),
    ("[[int]]", "[[],[1,2],[1,\"2\"],3]", "node 8"),
    ("[()]", "[{},{},{}]", "[{},{},{}]"),
    ("int -> int", "1", "node 1"),
];

fn record(alloc: Global, fields: Vec<(&str, Ty)>) -> Result<Ty, Memory> {
    let mut all = List::new(alloc);
    for (label, of) in fields {
        all.push((Label::from_str(alloc, label)?, of))?;
    }
    Ok(Ty::Rec(all))
}

fn bag(alloc: Global, of: Ty) -> Result<Ty, Memory> {
    Ok(Ty::Bag(boxed(alloc, of)?))
}

fn type_of(alloc: Global, text: &str) -> Result<Ty, Memory> {
    match text {
        "int" => Ok(Ty::Int),
        "bool" => Ok(Ty::Bool),
        "text" => Ok(Ty::Text),
        "()" => Ok(Ty::Rec(List::new(alloc))),
        "[int]" => bag(alloc, Ty::Int),
        "[[int]]" => bag(alloc, bag(alloc, Ty::Int)?),
        "[()]" => bag(alloc, Ty::Rec(List::new(alloc))),
        "(a: int, b: [text])" => {
            let texts = bag(alloc, Ty::Text)?;
            record(alloc, vec![in alloc; ("a", Ty::Int), ("b", texts)]?)
        }
        "[(a: [int], b: bool)]" => {
            let numbers = bag(alloc, Ty::Int)?;
            let element = record(alloc, vec![in alloc; ("a", numbers), ("b", Ty::Bool)]?)?;
            bag(alloc, element)
        }
        _ => Ok(Ty::Fun(boxed(alloc, Ty::Int)?, boxed(alloc, Ty::Int)?)),
    }
}

// The text of the value without its newline, or the number of the first faulty node.
fn given(alloc: Global, of: &Ty, json: &Json) -> Result<String, Fail> {
    match value_of(alloc, of, json) {
        Ok(value) => {
            let bytes = write_json(alloc, &value)?;
            let line = str::from_utf8(bytes.as_slice()).map_err(|_| "no UTF-8")?;
            let text = line.strip_suffix("\n").ok_or("no newline")?;
            Ok(String::from_str(alloc, text)?)
        }
        Err(JsonFault::Shape { node }) => Ok(format!(in alloc; "node {node}")?),
        Err(JsonFault::Memory) => Err("want of memory".into()),
    }
}

#[test]
fn json_values_are_forms_or_have_a_first_fault(rt: HostRuntime) -> Result<(), Fail> {
    let alloc = rt.alloc();
    for (type_text, json_text, gives) in &CASES {
        let of = type_of(alloc, type_text)?;
        let json = Json::from_str(alloc, json_text).map_err(|_| "no JSON")?;
        let text = given(alloc, &of, &json)?;
        assert_eq!(rt; text.as_str(), *gives, "{type_text} of {json_text}");
    }
    Ok(())
}

fn text(alloc: Global, characters: &str) -> Result<Value, Memory> {
    Ok(Value::Text(Text::from_str(alloc, characters)?))
}

fn department(alloc: Global, name: &str, employees: &[&str]) -> Result<Value, Memory> {
    let mut names = List::new(alloc);
    for employee in employees {
        names.push(text(alloc, employee)?)?;
    }
    let mut fields = List::new(alloc);
    fields.push((Label::from_str(alloc, "d")?, text(alloc, name)?))?;
    fields.push((Label::from_str(alloc, "es")?, Value::Bag(names)))?;
    Ok(Value::Rec(fields))
}

#[test]
fn values_are_written_as_one_line(rt: HostRuntime) -> Result<(), Fail> {
    let alloc = rt.alloc();
    let mut departments = List::new(alloc);
    departments.push(department(alloc, "Product", &["Alex", "Bert"])?)?;
    departments.push(department(alloc, "a\"b\\/\u{1}", &[])?)?;
    departments.push(Value::Rec(List::new(alloc)))?;
    departments.push(Value::Int(-1))?;
    departments.push(Value::Bool(true))?;
    let line = write_json(alloc, &Value::Bag(departments))?;
    let expected =
        "[{\"d\":\"Product\",\"es\":[\"Alex\",\"Bert\"]},{\"d\":\"a\\\"b\\\\/\\u0001\",\"es\":[]},{},-1,true]\n";
    assert!(rt; line.as_slice() == expected.as_bytes());
    Ok(())
}
