// Normal forms as text.
use nq_ir::{Base, Body, Comp, Gen, Normal, Test};
use nq_model::{Binary, Label, Memory, Unary};
use nq_types::write_type;
use std::alloc::Global;
use std::str;
use test_support::Page;

/// The text of a form: `{TYPE | TAG: GENERATORS where CONDITION and CONDITION -> BODY | ..}`, with the type of the
/// elements. Where there is no generator it says `once`. An emptiness test has no type, tags or bodies, and neither has a
/// count; a sum has its value in the place of a body.
pub fn told(alloc: Global, form: &Normal) -> Result<String, Memory> {
    let mut told = FormPage {
        page: Page::new(alloc),
    };
    told.put_bag(form)?;
    Ok(told.page.text)
}

#[derive(Drop)]
struct FormPage {
    page: Page,
}

impl FormPage {
    #[cycle(put_bag)]
    fn put_bag(&mut self, bag: &Normal) -> Result<(), Memory> {
        self.page.say("{")?;
        let element = write_type(self.page.alloc, &bag.element)?;
        self.page
            .say(str::from_utf8(element.as_slice()).unwrap_or("?"))?;
        for comp in bag.parts.as_slice() {
            self.put_comp(comp)?;
        }
        self.page.say("}")
    }

    #[cycle(put_bag)]
    fn put_comp(&mut self, comp: &Comp) -> Result<(), Memory> {
        self.page.number(" | ", comp.tag, ": ")?;
        self.put_choices(comp.gens.as_slice(), comp.conds.as_slice())?;
        self.page.say(" -> ")?;
        self.put_body(&comp.body)
    }

    #[cycle(put_bag)]
    fn put_body(&mut self, body: &Body) -> Result<(), Memory> {
        match body {
            Body::Plain(base) => self.put_base(base),
            Body::Rec(fields) => self.put_fields(fields.as_slice()),
            Body::Bag(bag) => self.put_bag(bag),
        }
    }

    #[cycle(put_bag)]
    fn put_fields(&mut self, fields: &[(Label, Body)]) -> Result<(), Memory> {
        self.page.say("(")?;
        for (at, (label, body)) in fields.iter().enumerate() {
            self.page.say(if at == 0 { "" } else { ", " })?;
            self.page.say(label.as_str())?;
            self.page.say(" = ")?;
            self.put_body(body)?;
        }
        self.page.say(")")
    }

    fn put_gens(&mut self, gens: &[Gen]) -> Result<(), Memory> {
        self.page.say(if gens.is_empty() { "once" } else { "" })?;
        for (at, generator) in gens.iter().enumerate() {
            self.page.say(if at == 0 { "" } else { ", " })?;
            self.page.number("x", generator.number, " in ")?;
            self.page.say(generator.table.as_str())?;
        }
        Ok(())
    }

    #[cycle(put_base)]
    fn put_choices(&mut self, gens: &[Gen], conds: &[Base]) -> Result<(), Memory> {
        self.put_gens(gens)?;
        for (at, cond) in conds.iter().enumerate() {
            self.page.say(if at == 0 { " where " } else { " and " })?;
            self.put_base(cond)?;
        }
        Ok(())
    }

    #[cycle(put_base)]
    fn put_tests(&mut self, tests: &[Test]) -> Result<(), Memory> {
        self.page.say("empty(")?;
        for (at, test) in tests.iter().enumerate() {
            self.page.say(if at == 0 { "" } else { " | " })?;
            self.put_choices(test.gens.as_slice(), test.conds.as_slice())?;
        }
        self.page.say(")")
    }

    // The parentheses of so many operations.
    fn put_openings(&mut self, operations: usize) -> Result<(), Memory> {
        for _ in 0..operations {
            self.page.say("(")?;
        }
        Ok(())
    }

    // The parts of a chain behind the first, each with its operator.
    #[cycle(put_base)]
    fn put_links(&mut self, op: Binary, parts: &[Base]) -> Result<(), Memory> {
        for part in parts {
            self.page.say(sign(op))?;
            self.put_base(part)?;
            self.page.say(")")?;
        }
        Ok(())
    }

    #[cycle(put_base)]
    fn put_base(&mut self, base: &Base) -> Result<(), Memory> {
        match base {
            Base::Int(number) => {
                let text = format!(in self.page.alloc; "{number}")?;
                self.page.say(text.as_str())
            }
            Base::Bool(truth) => self.page.say(if *truth { "true" } else { "false" }),
            Base::Text(text) => {
                self.page.say("'")?;
                self.page.say(text.as_str())?;
                self.page.say("'")
            }
            Base::Column { generator, column } => {
                self.page.number("x", *generator, ".")?;
                self.page.say(column.as_str())
            }
            Base::Unary { op, of } => {
                self.page.say(mark(*op))?;
                self.put_base(of)
            }
            Base::Binary { op, left, right } => {
                self.page.say("(")?;
                self.put_base(left)?;
                self.page.say(sign(*op))?;
                self.put_base(right)?;
                self.page.say(")")
            }
            Base::Chain { op, first, more } => {
                self.put_openings(more.len())?;
                self.put_base(first)?;
                self.put_links(*op, more.as_slice())
            }
            Base::Choose { test, yes, no } => {
                self.page.say("(if ")?;
                self.put_base(test)?;
                self.page.say(" then ")?;
                self.put_base(yes)?;
                self.page.say(" else ")?;
                self.put_base(no)?;
                self.page.say(")")
            }
            Base::Empty(tests) => self.put_tests(tests.as_slice()),
            Base::Count(test) => {
                self.page.say("count(")?;
                self.put_choices(test.gens.as_slice(), test.conds.as_slice())?;
                self.page.say(")")
            }
            Base::Sum { over, value } => {
                self.page.say("sum(")?;
                self.put_choices(over.gens.as_slice(), over.conds.as_slice())?;
                self.page.say(" -> ")?;
                self.put_base(value)?;
                self.page.say(")")
            }
        }
    }
}

fn mark(op: Unary) -> &'static str {
    match op {
        Unary::Minus => "-",
        Unary::Not => "!",
    }
}

fn sign(op: Binary) -> &'static str {
    match op {
        Binary::Add => " + ",
        Binary::Sub => " - ",
        Binary::Mul => " * ",
        Binary::Eq => " == ",
        Binary::Ne => " != ",
        Binary::Lt => " < ",
        Binary::Le => " <= ",
        Binary::Gt => " > ",
        Binary::Ge => " >= ",
        Binary::And => " && ",
        Binary::Or => " || ",
    }
}
