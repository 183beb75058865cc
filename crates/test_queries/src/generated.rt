// The generated query is the term that this text spells.
use crate::asked::read;
use crate::shown::shown;
use generated_inputs::generated_query;
use nq_model::Memory;
use std::process::Abort;

// Each department with its employees, and each of those with their tasks.
const TEXT: &str = "let tasksOf = fun (e: text) ->
  for (t <- table tasks) where (t.employee == e) [t.task];
for (d <- table departments)
[(department = d.name,
  employees = for (e <- table employees) where (e.dept == d.name)
    [(name = e.name, tasks = tasksOf(e.name))])]";

#[test]
fn is_the_term_of_a_text(rt: HostRuntime) -> Result<(), Memory> {
    let alloc = rt.alloc();
    let made = shown(alloc, &generated_query(alloc)?, false)?;
    let spelled = shown(alloc, &read(alloc, TEXT)?, false)?;
    assert_eq!(&rt; made.as_str(), spelled.as_str());
    Ok(())
}
