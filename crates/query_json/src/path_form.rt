// Paths as texts.
ghost use Rattle.std.specs.Prelude.{◌≡◌, ◌++◌, IfOk, OnOk, string_bytes};
ghost use Rattle.query_json.specs.Paths.{path_text, step_text};

use nq_ir::Step;
use nq_model::Memory;
use std::alloc::Global;

fn put_step(text: &mut String, step: &Step) -> Result<(), Memory>
    ensures { OnOk result (string_bytes text.new
        ≡ string_bytes text.old ++ step_text step.now) }
{
    match step {
        Step::Down => text.push_str("[]")?,
        Step::Field(label) => {
            text.push_str(".")?;
            text.push_str(label.as_str())?;
        }
    }
    Ok(())
}

/// A path: `/`, and then its steps.
pub(crate) fn path_text(alloc: Global, steps: &[Step]) -> Result<String, Memory>
    ensures { IfOk result (λ text. string_bytes text ≡ path_text steps.now) }
{
    let mut text = String::from_str(alloc, "/")?;
    for step in steps {
        put_step(&mut text, step)?;
    }
    Ok(text)
}
