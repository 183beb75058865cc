// A shredded form and its let form as a line.
use nq_ir::{Gen, LetForm, Shredded, Step};
use nq_model::Memory;
use std::alloc::Global;

/// The path, the parent, the generators around, and the tag of each strand; then the parents of the lets, and each
/// part's let and tag.
pub fn told(alloc: Global, form: &Shredded, lets: &LetForm) -> Result<String, Memory> {
    let mut line = String::from_str(alloc, "/")?;
    for step in form.path.steps.as_slice() {
        match step {
            Step::Down => line.push_str("[]")?,
            Step::Field(label) => {
                line.push_str(".")?;
                line.push_str(label.as_str())?;
            }
        }
    }
    for strand in form.parts.as_slice() {
        let parent = strand.parent;
        line.push_str(format!(in alloc; " {parent}(")?.as_str())?;
        put_gens(alloc, strand.outer_gens.as_slice(), &mut line)?;
        let tag = strand.tag;
        line.push_str(format!(in alloc; ")>{tag}")?.as_str())?;
    }
    line.push_str(" |")?;
    for around in lets.lets.as_slice() {
        let parent = around.parent;
        line.push_str(format!(in alloc; " {parent}")?.as_str())?;
    }
    line.push_str(" |")?;
    for part in lets.parts.as_slice() {
        let from = part.from;
        let tag = part.tag;
        line.push_str(format!(in alloc; " {from}.{tag}")?.as_str())?;
    }
    Ok(line)
}

fn put_gens(alloc: Global, gens: &[Gen], line: &mut String) -> Result<(), Memory> {
    for generator in gens {
        let number = generator.number;
        line.push_str(format!(in alloc; "x{number}")?.as_str())?;
    }
    Ok(())
}
