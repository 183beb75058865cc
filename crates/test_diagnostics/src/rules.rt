// The examples of rules, read and judged: each right one is accepted, and each wrong one breaks
// just its rule.
use diagnostics::{
    Rule, ScopeRule, TypingRule, example_schema, rule_text, scope_rule, typing_rule,
};
use nq_model::{Memory, Schema};
use nq_parser::parse;
use nq_types::{CheckFault, check};
use schema_reader::read_schema;
use sql_reader::read_sql;
use sql_scope::{ScopeFault, scope};
use std::alloc::Global;
use std::process::Abort;
use std::test::Fail;

// What comes of a query or an SQL text.
#[derive(Clone, Copy, Debug, PartialEq, Eq)]
enum Outcome {
    Accepted,
    // It is no schema, query or text.
    Unread,
    Breaks(u64),
}

fn schema_of(alloc: Global) -> Result<Schema, Memory> {
    match read_schema(alloc, example_schema().as_bytes()) {
        Ok(schema) => Ok(schema),
        Err(_) => Err(Memory),
    }
}

fn outcome_of_query(alloc: Global, query: &str) -> Result<Outcome, Memory> {
    let schema = schema_of(alloc)?;
    let Ok(term) = parse(alloc, query.as_bytes(), 200) else {
        return Ok(Outcome::Unread);
    };
    match check(alloc, &schema, &term) {
        Ok(_) => Ok(Outcome::Accepted),
        Err(CheckFault::Ill { rule, .. }) => Ok(Outcome::Breaks(u64::from(rule))),
        Err(CheckFault::Memory) => Err(Memory),
    }
}

fn outcome_of_sql(alloc: Global, text: &str) -> Result<Outcome, Memory> {
    let schema = schema_of(alloc)?;
    let Ok(tree) = read_sql(alloc, text.as_bytes(), 200) else {
        return Ok(Outcome::Unread);
    };
    match scope(alloc, &schema, &tree) {
        Ok(_) => Ok(Outcome::Accepted),
        Err(ScopeFault::Broken { rule, .. }) => Ok(Outcome::Breaks(u64::from(rule))),
        Err(ScopeFault::Memory) => Err(Memory),
    }
}

#[test]
fn examples_of_typing_rules_are_true(rt: HostRuntime) -> Result<(), Fail> {
    let alloc = rt.alloc();
    for number in 1..26 {
        let found = typing_rule(number);
        assert!(rt; found.is_some(), "rule {number}");
        if let Some(rule) = found {
            assert!(rt; rule.number() == number, "rule {number}");
            let right = outcome_of_query(alloc, rule.right())?;
            assert!(rt; right == Outcome::Accepted, "rule {number}: {right:?}");
            if let Some(wrong) = rule.wrong() {
                let wrong = outcome_of_query(alloc, wrong)?;
                assert!(rt;
                    wrong == Outcome::Breaks(number),
                    "rule {number}: {wrong:?}"
                );
            }
        }
    }
    assert!(rt; typing_rule(0).is_none() && typing_rule(26).is_none());
    Ok(())
}

#[test]
fn examples_of_scope_rules_are_true(rt: HostRuntime) -> Result<(), Fail> {
    let alloc = rt.alloc();
    for number in 1..11 {
        let found = scope_rule(number);
        assert!(rt; found.is_some(), "rule {number}");
        if let Some(rule) = found {
            assert!(rt; rule.number() == number, "rule {number}");
            let right = outcome_of_sql(alloc, rule.right())?;
            assert!(rt; right == Outcome::Accepted, "rule {number}: {right:?}");
            let wrong = outcome_of_sql(alloc, rule.wrong())?;
            assert!(rt;
                wrong == Outcome::Breaks(number),
                "rule {number}: {wrong:?}"
            );
        }
    }
    assert!(rt; scope_rule(0).is_none() && scope_rule(11).is_none());
    Ok(())
}

// A rule with the first three lines of its text; the others are the schema.
const TEXTS: [(Rule, &str); 3] = [
    (
        Rule::Typing(TypingRule::Arithmetic),
        "Typing rule 8: Both sides of +, - and * are ints. Texts cannot be joined.
accepted: [1 + 2]
refused:  ['a' + 'b']
",
    ),
    (
        Rule::Typing(TypingRule::Let),
        "Typing rule 22: A let may name a value of any type.
accepted: let x = 1; [x]
refused:  never
",
    ),
    (
        Rule::Scope(ScopeRule::ItemNames),
        "SQL rule 7: The items of one SELECT have different names.
accepted: SELECT 1 AS \"m\", 2 AS \"n\"
refused:  SELECT 1 AS \"n\", 2 AS \"n\"
",
    ),
];

const SCHEMA: &str = "The examples are over
table departments (name: text);
table employees (dept: text, name: text, salary: int);
table tasks (employee: text, task: text);
";

#[test]
fn rules_are_told(rt: HostRuntime) -> Result<(), Fail> {
    let alloc = rt.alloc();
    for (rule, lines) in &TEXTS {
        let wanted = format!(in alloc; "{lines}{SCHEMA}")?;
        let text = rule_text(alloc, *rule)?;
        assert!(rt; text.as_slice() == wanted.as_bytes(), "{rule:?}");
    }
    Ok(())
}
