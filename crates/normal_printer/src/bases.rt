// Base terms, emptiness tests, counts, sums, generators and conditions.
ghost use Rattle.std.specs.Prelude.{◌≡◌, ◌++◌, OnOk, codes, map, string_bytes};
ghost use Rattle.nq_ir.specs.Printed.{aggregate, named_base, named_tests, sign_of, text_of, word_of};
ghost use Rattle.nq_model.specs.Terms.{Count, Emptiness};
ghost use Rattle.nq_ir.specs.Trees.{base_tree, conds_tree, test_part, tests_of};
ghost use Rattle.normal_printer.specs.Chains.{chain_rest, chain_start, closing, is_bare, openings};
ghost use Rattle.normal_printer.specs.Parts.{gens_text, lead, test_term, text_at, where_text};

use crate::levels::{
    AND, PREFIX, UNION, base_level, comp_level, is_bare, left_level, level_in, level_of,
};
use crate::pieces::{put_lead, put_literal, put_name, put_truth};
use nq_ir::{Base, Gen, Test};
use nq_model::{Binary, Memory, Unary};

#[cycle(put_base)]
#[tactic(auto, using(nq_ir::proofs::Forms::base_empty, crate::proofs::Joined::named_count))]
pub(crate) fn put_base(text: &mut String, base: &Base) -> Result<(), Memory>
    ensures { OnOk result (string_bytes text.new
        ≡ string_bytes text.old ++ text_of (named_base (base_tree base.now))) }
{
    match base {
        Base::Int(number) => Ok(write!(text, "{number}")?),
        Base::Bool(truth) => put_truth(text, *truth),
        Base::Text(literal) => put_literal(text, literal.as_str()),
        Base::Column { generator, column } => {
            put_name(text, *generator)?;
            text.push_str(".")?;
            text.push_str(column.as_str())?;
            Ok(())
        }
        Base::Unary { op, of } => {
            text.push_str(sign_of(*op))?;
            put_base_at(text, of, PREFIX)
        }
        Base::Binary { op, left, right } => {
            put_base_at(text, left, left_level(*op))?;
            text.push_str(word_of(*op))?;
            put_base_at(text, right, level_of(*op) + 1)
        }
        Base::Chain { op, first, more } => {
            put_first(text, *op, first, more.len())?;
            put_more(text, *op, more.as_slice())
        }
        Base::Choose { test, yes, no } => {
            text.push_str("if ")?;
            put_base(text, test)?;
            text.push_str(" then ")?;
            put_base(text, yes)?;
            text.push_str(" else ")?;
            put_base(text, no)
        }
        Base::Empty(tests) => put_empty(text, tests.as_slice()),
        Base::Count(test) => put_count(text, test),
        Base::Sum { over, value } => {
            put_over(text, over)?;
            put_summed(text, value)
        }
    }
}

// The term where a level is asked for: in parentheses where its own is weaker.
#[cycle(put_base)]
fn put_base_at(text: &mut String, base: &Base, asked: u64) -> Result<(), Memory>
    ensures { OnOk result (string_bytes text.new
        ≡ string_bytes text.old ++ text_at asked (named_base (base_tree base.now))) }
{
    if asked <= base_level(base) {
        put_base(text, base)
    } else {
        text.push_str("(")?;
        put_base(text, base)?;
        text.push_str(")")?;
        Ok(())
    }
}

// The first part of a chain that so many parts follow, behind the parentheses that open before it.
#[cycle(put_base)]
fn put_first(text: &mut String, op: Binary, first: &Base, more: usize) -> Result<(), Memory>
    ensures { OnOk result (string_bytes text.new
        ≡ string_bytes text.old ++ chain_start op more (named_base (base_tree first.now))) }
{
    if more == 0 {
        return put_base(text, first);
    }
    put_openings(text, op, more - 1)?;
    put_base_at(text, first, left_level(op))
}

// The parts behind the first.
#[cycle(put_base)]
fn put_more(text: &mut String, op: Binary, more: &[Base]) -> Result<(), Memory>
    ensures { OnOk result (string_bytes text.new
        ≡ string_bytes text.old ++ chain_rest op 0 more.now) }
{
    for (place, part) in more.iter().enumerate() {
        put_word(text, op, place)?;
        put_base_at(text, part, level_of(op) + 1)?;
    }
    Ok(())
}

// The parentheses that so many operations open, each on the left of the next.
#[tactic(auto, using(crate::proofs::Chains::bare_openings))]
fn put_openings(text: &mut String, op: Binary, inner: usize) -> Result<(), Memory>
    ensures { OnOk result (string_bytes text.new
        ≡ string_bytes text.old ++ openings (is_bare op) inner) }
{
    if is_bare(op) {
        return Ok(());
    }
    for _ in 0..inner {
        text.push_str("(")?;
    }
    Ok(())
}

// The operator before the part at a place behind the first, and what it closes.
fn put_word(text: &mut String, op: Binary, place: usize) -> Result<(), Memory>
    ensures { OnOk result (string_bytes text.new
        ≡ string_bytes text.old ++ lead place (word_of op) (closing (is_bare op) ++ word_of op)) }
{
    if place > 0 && !is_bare(op) {
        text.push_str(")")?;
    }
    text.push_str(word_of(op))?;
    Ok(())
}

fn sign_of(op: Unary) -> &'static str
    ensures { result.now ≡ sign_of op }
{
    match op {
        Unary::Minus => "-",
        Unary::Not => "!",
    }
}

fn word_of(op: Binary) -> &'static str
    ensures { result.now ≡ word_of op }
{
    match op {
        Binary::Add => " + ",
        Binary::Sub => " - ",
        Binary::Mul => " * ",
        Binary::Eq => " == ",
        Binary::Ne => " != ",
        Binary::Lt => " < ",
        Binary::Le => " <= ",
        Binary::Gt => " > ",
        Binary::Ge => " >= ",
        Binary::And => " && ",
        Binary::Or => " || ",
    }
}

// `for (xk <- table t) ` for each generator.
pub(crate) fn put_gens(text: &mut String, gens: &[Gen]) -> Result<(), Memory>
    ensures { OnOk result (string_bytes text.new ≡ string_bytes text.old ++ gens_text gens.now) }
{
    for generator in gens {
        text.push_str("for (")?;
        put_name(text, generator.number)?;
        text.push_str(" <- table ")?;
        text.push_str(generator.table.as_str())?;
        text.push_str(") ")?;
    }
    Ok(())
}

// `where (X) `, if there are conditions.
#[cycle(put_base)]
pub(crate) fn put_where(text: &mut String, conds: &[Base]) -> Result<(), Memory>
    ensures { OnOk result (string_bytes text.new
        ≡ string_bytes text.old ++ where_text (conds_tree conds.now)) }
{
    if conds.is_empty() {
        return Ok(());
    }
    for (place, cond) in conds.iter().enumerate() {
        put_lead(text, place, "where (", " && ")?;
        put_base_at(text, cond, level_in(AND, conds.len(), place))?;
    }
    text.push_str(") ")?;
    Ok(())
}

#[cycle(put_base)]
fn put_empty(text: &mut String, tests: &[Test]) -> Result<(), Memory>
    ensures { OnOk result (string_bytes text.new
        ≡ string_bytes text.old
        ++ text_of (aggregate Emptiness (named_tests (tests_of (map test_part tests.now))))) }
{
    text.push_str("empty(")?;
    put_tests(text, tests)?;
    text.push_str(")")?;
    Ok(())
}

#[cycle(put_base)]
fn put_count(text: &mut String, test: &Test) -> Result<(), Memory>
    ensures { OnOk result (string_bytes text.new
        ≡ string_bytes text.old ++ text_of (aggregate Count (test_term test.now))) }
{
    text.push_str("count(")?;
    put_test(text, test)?;
    text.push_str(")")?;
    Ok(())
}

// What a sum goes over.
#[cycle(put_base)]
fn put_over(text: &mut String, over: &Test) -> Result<(), Memory>
    ensures { OnOk result (string_bytes text.new
        ≡ string_bytes text.old ++ (codes "sum(" ++ (gens_text (test_part over.now).gens
        ++ where_text (test_part over.now).conds))) }
{
    text.push_str("sum(")?;
    put_gens(text, over.gens.as_slice())?;
    put_where(text, over.conds.as_slice())?;
    Ok(())
}

// The value that is summed.
#[cycle(put_base)]
fn put_summed(text: &mut String, value: &Base) -> Result<(), Memory>
    ensures { OnOk result (string_bytes text.new
        ≡ string_bytes text.old
        ++ (codes "[" ++ (text_of (named_base (base_tree value.now)) ++ codes "])"))) }
{
    text.push_str("[")?;
    put_base(text, value)?;
    text.push_str("])")?;
    Ok(())
}

// The comprehensions of a test in a union; of none the empty bag of records without fields.
#[cycle(put_base)]
fn put_tests(text: &mut String, tests: &[Test]) -> Result<(), Memory>
    ensures { OnOk result (string_bytes text.new
        ≡ string_bytes text.old ++ text_of (named_tests (tests_of (map test_part tests.now)))) }
{
    if tests.is_empty() {
        return Ok(text.push_str("[: ()]")?);
    }
    for (place, test) in tests.iter().enumerate() {
        put_lead(text, place, "", " ++ ")?;
        put_test_at(text, test, level_in(UNION, tests.len(), place))?;
    }
    Ok(())
}

// The comprehension where a level is asked for: in parentheses where its own is weaker.
#[cycle(put_base)]
fn put_test_at(text: &mut String, test: &Test, asked: u64) -> Result<(), Memory>
    ensures { OnOk result (string_bytes text.new
        ≡ string_bytes text.old ++ text_at asked (test_term test.now)) }
{
    if asked <= comp_level(test.gens.as_slice(), test.conds.as_slice()) {
        put_test(text, test)
    } else {
        text.push_str("(")?;
        put_test(text, test)?;
        text.push_str(")")?;
        Ok(())
    }
}

// A comprehension of a test or a count gives records without fields.
#[cycle(put_base)]
fn put_test(text: &mut String, test: &Test) -> Result<(), Memory>
    ensures { OnOk result (string_bytes text.new
        ≡ string_bytes text.old ++ text_of (test_term test.now)) }
{
    put_gens(text, test.gens.as_slice())?;
    put_where(text, test.conds.as_slice())?;
    text.push_str("[()]")?;
    Ok(())
}
