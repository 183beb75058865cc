// How often the variables are used for which a walk puts a term in.
use crate::field::find;
use nq_model::{Label, Memory, Node, Term};
use std::alloc::Global;

// The uses of the variable of each binder around a part, the innermost last, and of those for which
// a term is put in, in the reverse of the order in which a walk comes to them.
#[derive(Drop)]
struct Tally {
    around: Vec<u64>,
    done: Vec<u64>,
}

/// The uses of each variable for which a walk puts a term in: that of the binder to which a walk
/// comes first is the last. What a walk does not come to is not counted.
///
/// Where a number is too large or too small, a value is copied or missed, and nothing else.
pub(crate) fn count_uses(alloc: Global, term: &Term) -> Result<Vec<u64>, Memory> {
    let mut tally = Tally {
        around: Vec::new(alloc),
        done: Vec::new(alloc),
    };
    count(&mut tally, term)?;
    let Tally {
        around: _around,
        done,
    } = tally;
    Ok(done)
}

impl Tally {
    // Another use of the variable `k`.
    fn use_one(&mut self, k: u64) {
        let count = self.around.len();
        let k = k as usize;
        if k < count {
            let at = count - 1 - k;
            self.around[at] = self.around[at].saturating_add(1);
        }
    }
}

// The parts of a node, the last first.
#[cycle(count)]
fn count(tally: &mut Tally, term: &Term) -> Result<(), Memory> {
    match &term.node {
        Node::Var(k) => {
            tally.use_one(*k);
            Ok(())
        }
        Node::Int(_) | Node::Bool(_) | Node::Text(_) | Node::Table(_) | Node::Nil(_) => Ok(()),
        Node::Unary { op: _, of }
        | Node::Empty(of)
        | Node::Count(of)
        | Node::Sum(of)
        | Node::Single(of) => count(tally, of),
        Node::Binary { op: _, left, right }
        | Node::Union { left, right }
        | Node::Guard {
            test: left,
            body: right,
        } => {
            count(tally, right)?;
            count(tally, left)
        }
        Node::If { test, yes, no } => {
            count(tally, no)?;
            count(tally, yes)?;
            count(tally, test)
        }
        Node::Fun { taken: _, body } => {
            let _uses = count_body(tally, body)?;
            Ok(())
        }
        Node::Apply { func, arg } => match count_function(tally, func)? {
            Some(uses) => count_value(tally, uses, arg),
            None => {
                count(tally, arg)?;
                count(tally, func)
            }
        },
        Node::Rec(fields) => count_fields(tally, fields.as_slice()),
        Node::Field { of, label } => count_field(tally, of, label),
        Node::For { source, body } => {
            let _uses = count_body(tally, body)?;
            count(tally, source)
        }
        Node::Bind { value, body } => {
            let uses = count_body(tally, body)?;
            count_value(tally, uses, value)
        }
    }
}

// What is under a binder, and how often its variable is used there.
#[cycle(count)]
fn count_body(tally: &mut Tally, body: &Term) -> Result<u64, Memory> {
    tally.around.push(0)?;
    count(tally, body)?;
    Ok(tally.around.pop().unwrap_or(0))
}

// The same for a function that is written out.
#[cycle(count)]
fn count_function(tally: &mut Tally, func: &Term) -> Result<Option<u64>, Memory> {
    match &func.node {
        Node::Fun { taken: _, body } => Ok(Some(count_body(tally, body)?)),
        _ => Ok(None),
    }
}

// What is put in for a variable with so many uses.
#[cycle(count)]
fn count_value(tally: &mut Tally, uses: u64, value: &Term) -> Result<(), Memory> {
    if uses > 0 {
        count(tally, value)?;
    }
    tally.done.push(uses)?;
    Ok(())
}

#[cycle(count)]
fn count_field(tally: &mut Tally, of: &Term, label: &Label) -> Result<(), Memory> {
    match &of.node {
        Node::Rec(fields) => {
            let fields = fields.as_slice();
            match find(fields, label) {
                Some(at) => count(tally, &fields[at].1),
                None => count_fields(tally, fields),
            }
        }
        _ => count(tally, of),
    }
}

// A walk takes the last field first.
#[cycle(count)]
fn count_fields(tally: &mut Tally, fields: &[(Label, Term)]) -> Result<(), Memory> {
    for field in fields {
        count(tally, &field.1)?;
    }
    Ok(())
}
