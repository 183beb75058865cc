// The query, with the place 0 everywhere, since it stands in no text.
ghost use Rattle.std.specs.Prelude.{◌≡◌, IfOk, [], ◌∷◌, Ok};
ghost use Rattle.nq_model.specs.Judging.{program_judged};
ghost use Rattle.nq_model.specs.Proper.{IsProperTerm};
ghost use Rattle.nq_model.specs.Terms.{PlacedNode, bare, placed, placed_node};
ghost use Rattle.generated_inputs.specs.Generated.{unplaced, variable, column, over, single, where_equal, record_of, tasks_function, employee_element, department_element, generated_schema, generated_query, generated_type};

use nq_model::{Binary, Label, List, Memory, Node, Term, Ty, boxed};
use std::alloc::Global;

fn unplaced(node: Node) -> Term
    ensures { placed result ≡ unplaced (placed_node node) }
{
    Term { place: 0, node }
}

// The variable of the binder so many binders outwards.
fn variable(binder: u64) -> Term
    ensures { placed result ≡ variable binder }
{
    unplaced(Node::Var(binder))
}

// A column of a row that a variable names.
fn column(alloc: Global, row: u64, label: &str) -> Result<Term, Memory>
    ensures { IfOk result (λ term. placed term ≡ column row label.now) }
{
    let label = Label::from_str(alloc, label)?;
    let of = boxed(alloc, variable(row))?;
    Ok(unplaced(Node::Field { of, label }))
}

// Two terms in boxes.
fn both(alloc: Global, first: Term, second: Term) -> Result<(Box<Term>, Box<Term>), Memory>
    ensures { IfOk result (λ boxes. (boxes.0.value ≡ first) × (boxes.1.value ≡ second)) }
{
    let first = boxed(alloc, first)?;
    Ok((first, boxed(alloc, second)?))
}

// The bag of what a body gives for each row of a table.
fn over(alloc: Global, name: &str, body: Term) -> Result<Term, Memory>
    ensures { IfOk result (λ term. placed term ≡ over name.now (placed body)) }
{
    let table = Node::Table(Label::from_str(alloc, name)?);
    let (source, body) = both(alloc, unplaced(table), body)?;
    Ok(unplaced(Node::For { source, body }))
}

// The bag of one element.
fn single(alloc: Global, element: Term) -> Result<Term, Memory>
    ensures { IfOk result (λ term. placed term ≡ single (placed element)) }
{
    Ok(unplaced(Node::Single(boxed(alloc, element)?)))
}

// The bag of one element where two terms are equal, and the empty one else.
fn where_equal(alloc: Global, left: Term, right: Term, element: Term) -> Result<Term, Memory>
    ensures { IfOk result (λ term.
        placed term ≡ where_equal (placed left) (placed right) (placed element)) }
{
    let body = single(alloc, element)?;
    let (left, right) = both(alloc, left, right)?;
    let op = Binary::Eq;
    let test = unplaced(Node::Binary { op, left, right });
    let (test, body) = both(alloc, test, body)?;
    Ok(unplaced(Node::Guard { test, body }))
}

// The record of two fields.
#[tactic(auto, using(nq_model::proofs::Terms::node_record))]
fn record_of(alloc: Global, first: (Label, Term), second: (Label, Term)) -> Result<Term, Memory>
    ensures { IfOk result (λ term.
        placed term ≡ record_of ((first.0, placed first.1) ∷ (second.0, placed second.1) ∷ [])) }
{
    let mut fields = List::new(alloc);
    fields.push(first)?;
    fields.push(second)?;
    Ok(unplaced(Node::Rec(fields)))
}

// What gives the tasks of an employee's name.
fn tasks_function(alloc: Global) -> Result<Term, Memory>
    ensures { IfOk result (λ term. placed term ≡ tasks_function) }
{
    let employee = column(alloc, 0, "employee")?;
    let task = column(alloc, 0, "task")?;
    let body = over(
        alloc,
        "tasks",
        where_equal(alloc, employee, variable(1), task)?,
    )?;
    Ok(unplaced(Node::Fun {
        taken: Ty::Text,
        body: boxed(alloc, body)?,
    }))
}

// An employee's name and tasks.
fn employee_element(alloc: Global) -> Result<Term, Memory>
    ensures { IfOk result (λ term. placed term ≡ employee_element) }
{
    let labels = (
        Label::from_str(alloc, "name")?,
        Label::from_str(alloc, "tasks")?,
    );
    let (func, arg) = both(alloc, variable(2), column(alloc, 0, "name")?)?;
    let tasks = unplaced(Node::Apply { func, arg });
    let name = column(alloc, 0, "name")?;
    record_of(alloc, (labels.0, name), (labels.1, tasks))
}

// A department's name and employees.
fn department_element(alloc: Global) -> Result<Term, Memory>
    ensures { IfOk result (λ term. placed term ≡ department_element) }
{
    let labels = (
        Label::from_str(alloc, "department")?,
        Label::from_str(alloc, "employees")?,
    );
    let dept = column(alloc, 0, "dept")?;
    let department = column(alloc, 1, "name")?;
    let employee = employee_element(alloc)?;
    let here = where_equal(alloc, dept, department, employee)?;
    let employees = over(alloc, "employees", here)?;
    let name = column(alloc, 0, "name")?;
    record_of(alloc, (labels.0, name), (labels.1, employees))
}

/// The query, whatever the size: each department with its employees, and each of those with their
/// tasks.
#[tactic(auto, unfolding(crate::specs::Generated::generated_query), using(crate::proofs::ProperQuery::query_rules))]
pub fn generated_query(alloc: Global) -> Result<Term, Memory>
    ensures is { IfOk result (λ term. placed term ≡ generated_query) }
    ensures proper { IfOk result (λ term. IsProperTerm (bare (placed term))) }
    ensures typed { program_judged generated_schema generated_query ≡ Ok generated_type }
{
    let element = department_element(alloc)?;
    let departments = over(alloc, "departments", single(alloc, element)?)?;
    let tasks_of = tasks_function(alloc)?;
    let (value, body) = both(alloc, tasks_of, departments)?;
    Ok(unplaced(Node::Bind { value, body }))
}
