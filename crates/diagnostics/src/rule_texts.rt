// What is written of a rule.
ghost use Rattle.std.specs.Prelude.{◌≡◌, ◌++◌, IfOk, OnOk, option_copied};
ghost use Rattle.diagnostics.specs.RuleTexts.{example_schema, examples_text, rule_asks, rule_head, rule_kind, right_line, rule_number, rule_right, rule_text, rule_wrong, schema_lines, wrong_line};

use crate::scope_rules::ScopeRule;
use crate::typing_rules::TypingRule;
use nq_model::{List, Memory};
use std::alloc::Global;

/// A rule that a query or an SQL text may break.
#[derive(Clone, Copy, Debug, PartialEq, Eq)]
pub enum Rule {
    /// A typing rule of queries.
    Typing(TypingRule),
    /// A scope rule of SQL texts.
    Scope(ScopeRule),
}

/// The schema of all examples of rules.
#[tactic(auto, unfolding(crate::specs::RuleTexts::example_schema))]
pub fn example_schema() -> &'static str
    ensures { result.now ≡ example_schema }
{
    "table departments (name: text);
table employees (dept: text, name: text, salary: int);
table tasks (employee: text, task: text);
"
}

fn kind(rule: Rule) -> &'static [u8]
    ensures { result.now ≡ rule_kind rule }
{
    match rule {
        Rule::Typing(_) => b"Typing rule ",
        Rule::Scope(_) => b"SQL rule ",
    }
}

fn number(rule: Rule) -> u64
    ensures { result ≡ rule_number rule }
{
    match rule {
        Rule::Typing(typing) => typing.number(),
        Rule::Scope(scope) => scope.number(),
    }
}

// Puts which rule it is.
fn put_head(alloc: Global, text: &mut List<u8>, rule: Rule) -> Result<(), Memory>
    ensures { OnOk result (text.new ≡ text.old ++ rule_head rule) }
{
    let digits = number(rule).to_string(alloc)?;
    text.extend_from_slice(kind(rule))?;
    text.extend_from_slice(digits.as_bytes())
}

fn asks(rule: Rule) -> &'static str
    ensures { result.now ≡ rule_asks rule }
{
    match rule {
        Rule::Typing(typing) => typing.asks(),
        Rule::Scope(scope) => scope.asks(),
    }
}

fn right(rule: Rule) -> &'static str
    ensures { result.now ≡ rule_right rule }
{
    match rule {
        Rule::Typing(typing) => typing.right(),
        Rule::Scope(scope) => scope.right(),
    }
}

fn wrong(rule: Rule) -> Option<&'static str>
    ensures { option_copied result ≡ rule_wrong rule }
{
    match rule {
        Rule::Typing(typing) => typing.wrong(),
        Rule::Scope(scope) => Some(scope.wrong()),
    }
}

// Puts the line of the example that keeps a rule.
#[tactic(auto, unfolding(crate::specs::RuleTexts::right_line))]
fn put_right(text: &mut List<u8>, rule: Rule) -> Result<(), Memory>
    ensures { OnOk result (text.new ≡ text.old ++ right_line (rule_right rule)) }
{
    text.extend_from_slice(b"accepted: ")?;
    text.extend_from_slice(right(rule).as_bytes())?;
    text.extend_from_slice(b"\n")
}

// Puts the line of the example that breaks a rule.
#[tactic(auto, unfolding(crate::specs::RuleTexts::wrong_line))]
fn put_wrong(text: &mut List<u8>, rule: Rule) -> Result<(), Memory>
    ensures { OnOk result (text.new ≡ text.old ++ wrong_line (rule_wrong rule)) }
{
    match wrong(rule) {
        None => text.extend_from_slice(b"refused:  never\n"),
        Some(wrong) => {
            text.extend_from_slice(b"refused:  ")?;
            text.extend_from_slice(wrong.as_bytes())?;
            text.extend_from_slice(b"\n")
        }
    }
}

// Puts the schema of the examples.
#[tactic(auto, unfolding(crate::specs::RuleTexts::schema_lines))]
fn put_schema(text: &mut List<u8>) -> Result<(), Memory>
    ensures { OnOk result (text.new ≡ text.old ++ schema_lines) }
{
    text.extend_from_slice(b"The examples are over\n")?;
    text.extend_from_slice(example_schema().as_bytes())
}

// Puts the two examples and their schema.
#[tactic(auto, unfolding(crate::specs::RuleTexts::examples_text))]
fn put_examples(text: &mut List<u8>, rule: Rule) -> Result<(), Memory>
    ensures { OnOk result (text.new ≡ text.old ++ examples_text rule) }
{
    put_right(text, rule)?;
    put_wrong(text, rule)?;
    put_schema(text)
}

/// The text on a rule: which it is and what it asks, an example that keeps it, one that breaks it
/// and no other, and the schema of the examples. Fails only if memory runs out.
#[tactic(auto, unfolding(crate::specs::RuleTexts::rule_text))]
pub fn rule_text(alloc: Global, rule: Rule) -> Result<List<u8>, Memory>
    ensures { IfOk result (λ text. text ≡ rule_text rule) }
{
    let mut text = List::new(alloc);
    put_head(alloc, &mut text, rule)?;
    text.extend_from_slice(b": ")?;
    text.extend_from_slice(asks(rule).as_bytes())?;
    text.extend_from_slice(b"\n")?;
    put_examples(&mut text, rule)?;
    Ok(text)
}
