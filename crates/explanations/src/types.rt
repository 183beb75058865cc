// The types that were found where a typing rule is broken.
ghost use Rattle.std.specs.Prelude.{◌≡◌, ◌++◌, OnOk, codes};
ghost use Rattle.explanations.specs.Explanations.{types_line, type_texts};
ghost use Rattle.explanations.specs.Lists.{listed, listed_behind, separator};
ghost use Rattle.nq_model.specs.TypeTexts.{written_type};
ghost use Rattle.nq_model.specs.Types.{type_tree};
ghost use Rattle.nq_types.specs.Found.{types_found};

use crate::lists::separator;
use nq_model::{List, Memory, Ty};
use nq_types::write_type;
use std::alloc::Global;

// Puts a type that so many follow, and what stands before it.
fn put_next(alloc: Global, text: &mut List<u8>, ty: &Ty, behind: usize) -> Result<(), Memory>
    ensures { OnOk result (text.new
        ≡ text.old ++ (separator (codes " and ") behind ++ written_type (type_tree ty.now))) }
{
    let written = write_type(alloc, ty)?;
    text.extend_from_slice(separator(" and ", behind).as_bytes())?;
    text.extend_from_slice(written.as_slice())
}

// Puts types, which stand behind others.
fn put_behind(alloc: Global, text: &mut List<u8>, types: &[Ty]) -> Result<(), Memory>
    ensures { OnOk result (text.new
        ≡ text.old ++ listed_behind (codes " and ") (type_texts (types_found types.now))) }
{
    for at in 0..types.len() {
        put_next(alloc, text, &types[at], types.len() - at - 1)?;
    }
    Ok(())
}

// Puts types one after the other.
fn put_all(alloc: Global, text: &mut List<u8>, types: &[Ty]) -> Result<(), Memory>
    ensures { OnOk result (text.new
        ≡ text.old ++ listed (codes " and ") (type_texts (types_found types.now))) }
{
    match types {
        [] => text.extend_from_slice(b"none"),
        [first, behind @ ..] => {
            let written = write_type(alloc, first)?;
            text.extend_from_slice(written.as_slice())?;
            put_behind(alloc, text, behind)
        }
    }
}

/// Puts the types that were found.
#[tactic(auto, unfolding(crate::specs::Explanations::types_line))]
pub(crate) fn put_types(alloc: Global, text: &mut List<u8>, types: &[Ty]) -> Result<(), Memory>
    ensures { OnOk result (text.new ≡ text.old ++ types_line (types_found types.now)) }
{
    text.extend_from_slice(b"found: ")?;
    put_all(alloc, text, types)?;
    text.extend_from_slice(b"\n")
}
