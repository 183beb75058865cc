// Terms as text, with each variable named after how many binders stand around its own: x1 is the outermost.
use nq_model::{Binary, Label, Memory, Node, Term, Ty};
use nq_types::write_type;
use std::alloc::Global;
use test_support::Page;

/// The text of a term, with the place of each node before it where `places` says so. A form that no row leaves
/// is a question mark.
pub fn shown(alloc: Global, term: &Term, places: bool) -> Result<String, Memory> {
    let mut shown = TermPage {
        page: Page::new(alloc),
        places,
    };
    shown.put(term, 0)?;
    Ok(shown.page.text)
}

#[derive(Drop)]
struct TermPage {
    page: Page,
    places: bool,
}

impl TermPage {
    // The parameter of a function, and the arrow.
    fn parameter(&mut self, level: u64, taken: &Ty) -> Result<(), Memory> {
        let taken = write_type(self.page.alloc, taken)?;
        self.page.number("fun (x", level, ": ")?;
        self.page
            .say(str::from_utf8(taken.as_slice()).unwrap_or("?"))?;
        self.page.say(") -> ")
    }

    #[cycle(put)]
    fn put(&mut self, term: &Term, level: u64) -> Result<(), Memory> {
        if self.places {
            self.page.number("@", term.place, " ")?;
        }
        let under = level.saturating_add(1);
        match &term.node {
            Node::Var(k) => self.page.number("x", level.saturating_sub(*k), ""),
            Node::Int(number) => {
                let text = format!(in self.page.alloc; "{number}")?;
                self.page.say(text.as_str())
            }
            Node::Bool(truth) => self.page.say(if *truth { "true" } else { "false" }),
            Node::Table(name) => {
                self.page.say("table ")?;
                self.page.say(name.as_str())
            }
            Node::Binary { op, left, right } => {
                self.page.say("(")?;
                self.put(left, level)?;
                self.page.say(sign(*op))?;
                self.put(right, level)?;
                self.page.say(")")
            }
            Node::If { test, yes, no } => {
                self.page.say("(if ")?;
                self.put(test, level)?;
                self.page.say(" then ")?;
                self.put(yes, level)?;
                self.page.say(" else ")?;
                self.put(no, level)?;
                self.page.say(")")
            }
            Node::Field { of, label } => {
                self.put(of, level)?;
                self.page.say(".")?;
                self.page.say(label.as_str())
            }
            Node::Single(of) => {
                self.page.say("[")?;
                self.put(of, level)?;
                self.page.say("]")
            }
            Node::Union { left, right } => {
                self.page.say("(")?;
                self.put(left, level)?;
                self.page.say(" ++ ")?;
                self.put(right, level)?;
                self.page.say(")")
            }
            Node::Count(of) => self.put_asked("count(", of, level),
            Node::Sum(of) => self.put_asked("sum(", of, level),
            Node::Rec(fields) => self.put_record(fields.as_slice(), level),
            Node::Fun { taken, body } => {
                self.parameter(under, taken)?;
                self.put(body, under)
            }
            Node::Apply { func, arg } => {
                self.put(func, level)?;
                self.page.say("(")?;
                self.put(arg, level)?;
                self.page.say(")")
            }
            Node::Bind { value, body } => {
                self.page.number("let x", under, " = ")?;
                self.put(value, level)?;
                self.page.say("; ")?;
                self.put(body, under)
            }
            Node::For { source, body } => {
                self.page.number("for (x", under, " <- ")?;
                self.put(source, level)?;
                self.page.say(") ")?;
                self.put(body, under)
            }
            Node::Guard { test, body } => {
                self.page.say("where (")?;
                self.put(test, level)?;
                self.page.say(") ")?;
                self.put(body, level)
            }
            _ => self.page.say("?"),
        }
    }

    // What is asked of a bag: a word, and the bag in parentheses.
    #[cycle(put)]
    fn put_asked(&mut self, word: &str, of: &Term, level: u64) -> Result<(), Memory> {
        self.page.say(word)?;
        self.put(of, level)?;
        self.page.say(")")
    }

    #[cycle(put)]
    fn put_record(&mut self, fields: &[(Label, Term)], level: u64) -> Result<(), Memory> {
        self.page.say("(")?;
        for field in fields {
            self.page.say(field.0.as_str())?;
            self.page.say(" = ")?;
            self.put(&field.1, level)?;
            self.page.say(", ")?;
        }
        self.page.say(")")
    }
}

fn sign(op: Binary) -> &'static str {
    match op {
        Binary::Add => " + ",
        Binary::Sub => " - ",
        Binary::Mul => " * ",
        Binary::Eq => " == ",
        Binary::Ne => " != ",
        Binary::Lt => " < ",
        Binary::Le => " <= ",
        Binary::Gt => " > ",
        Binary::Ge => " >= ",
        Binary::And => " && ",
        Binary::Or => " || ",
    }
}
