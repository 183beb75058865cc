// What a plain term means over tables, by evaluating it.
ghost use Rattle.std.specs.Prelude.{◌≡◌, IfOk};
ghost use Rattle.nq_model.specs.Databases.{database};
ghost use Rattle.nq_model.specs.Meaning.{meaning, field_meanings};
ghost use Rattle.nq_model.specs.Terms.{term_tree, term_fields_of, fields_view as terms_view};
ghost use Rattle.nq_model.specs.Values.{nested, fields_view};
ghost use Rattle.rows.specs.Tables.{rows_of};
ghost use Rattle.reference_terms.specs.Scopes.{values};

use crate::cells::{cell_in, value_of};
use crate::elements::{append, elements_in};
use crate::records::{field_in, put_field};
use crate::scope::Scope;
use crate::tables::table_meaning;
use crate::totals::{count, sum};
use nq_model::{
    Label, List, Memory, Node, Schema, Term, Value, binary_value, is_true, unary_value,
};
use rows::Table;
use std::alloc::Global;

/// What a plain term means over the tables of a schema, where the variables have these values. A
/// term that is not typed has a value too, which means nothing. Fails only if memory runs out.
#[cycle(evaluate)]
pub fn evaluate(
    alloc: Global,
    schema: &Schema,
    tables: &[Table],
    scope: &Scope,
    term: &Term,
) -> Result<Value, Memory>
    ensures { IfOk result (λ value.
        nested value ≡ meaning (database schema.now.tables (rows_of tables.now)) (values scope.now)
        (term_tree term.now)) }
{
    match &term.node {
        Node::Var(k) => scope.value(alloc, *k),
        Node::Int(number) => Ok(Value::Int(*number)),
        Node::Bool(truth) => Ok(Value::Bool(*truth)),
        Node::Text(text) => Ok(Value::Text(text.copy(alloc)?)),
        Node::Table(name) => table_meaning(alloc, schema, tables, name.as_str()),
        Node::Unary { op, of } => {
            let of = cell_in(evaluate(alloc, schema, tables, scope, of)?);
            Ok(value_of(unary_value(*op, &of)))
        }
        Node::Binary { op, left, right } => {
            let left = cell_in(evaluate(alloc, schema, tables, scope, left)?);
            let right = cell_in(evaluate(alloc, schema, tables, scope, right)?);
            Ok(value_of(binary_value(*op, &left, &right)))
        }
        Node::If { test, yes, no } => {
            if is_true(&cell_in(evaluate(alloc, schema, tables, scope, test)?)) {
                evaluate(alloc, schema, tables, scope, yes)
            } else {
                evaluate(alloc, schema, tables, scope, no)
            }
        }
        Node::Rec(fields) => Ok(Value::Rec(evaluate_fields(
            alloc,
            schema,
            tables,
            scope,
            fields.as_slice(),
        )?)),
        Node::Field { of, label } => {
            let record = evaluate(alloc, schema, tables, scope, of)?;
            field_in(alloc, &record, label.as_str())
        }
        Node::Empty(of) => {
            let elements = elements_in(alloc, evaluate(alloc, schema, tables, scope, of)?);
            Ok(Value::Bool(elements.is_empty()))
        }
        Node::Count(of) => {
            let elements = elements_in(alloc, evaluate(alloc, schema, tables, scope, of)?);
            Ok(Value::Int(count(elements)))
        }
        Node::Sum(of) => {
            let elements = elements_in(alloc, evaluate(alloc, schema, tables, scope, of)?);
            Ok(Value::Int(sum(elements)))
        }
        Node::Single(of) => {
            let mut elements = List::new(alloc);
            elements.push(evaluate(alloc, schema, tables, scope, of)?)?;
            Ok(Value::Bag(elements))
        }
        Node::Nil(_) => Ok(Value::Bag(List::new(alloc))),
        Node::Union { left, right } => {
            let mut elements = elements_in(alloc, evaluate(alloc, schema, tables, scope, left)?);
            let more = elements_in(alloc, evaluate(alloc, schema, tables, scope, right)?);
            append(&mut elements, more)?;
            Ok(Value::Bag(elements))
        }
        Node::For { source, body } => {
            let source = elements_in(alloc, evaluate(alloc, schema, tables, scope, source)?);
            let mut all = List::new(alloc);
            for value in source.as_slice() {
                let inner = Scope::Inner(value, scope);
                let more = elements_in(alloc, evaluate(alloc, schema, tables, &inner, body)?);
                append(&mut all, more)?;
            }
            Ok(Value::Bag(all))
        }
        Node::Guard { test, body } => {
            if is_true(&cell_in(evaluate(alloc, schema, tables, scope, test)?)) {
                let elements = elements_in(alloc, evaluate(alloc, schema, tables, scope, body)?);
                Ok(Value::Bag(elements))
            } else {
                Ok(Value::Bag(List::new(alloc)))
            }
        }
        Node::Fun { .. } => Ok(Value::Bool(false)),
        Node::Apply { .. } => Ok(Value::Bool(false)),
        Node::Bind { .. } => Ok(Value::Bool(false)),
    }
}

// The fields of a record in the byte order of their labels, from the last to the first.
#[cycle(evaluate)]
fn evaluate_fields(
    alloc: Global,
    schema: &Schema,
    tables: &[Table],
    scope: &Scope,
    fields: &[(Label, Term)],
) -> Result<List<(Label, Value)>, Memory>
    ensures { IfOk result (λ made.
        fields_view made ≡ field_meanings (database schema.now.tables (rows_of tables.now))
        (values scope.now) (term_fields_of (terms_view fields.now))) }
{
    let mut made = List::new(alloc);
    let mut place = fields.len();
    while place > 0 {
        place -= 1;
        let label = fields[place].0.copy(alloc)?;
        let value = evaluate(alloc, schema, tables, scope, &fields[place].1)?;
        made = put_field(made, label, value)?;
    }
    Ok(made)
}
