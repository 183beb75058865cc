// The frames of `show sql`.
ghost use Rattle.std.specs.Prelude.{◌≡◌, ◌++◌, IfOk, OnOk, length};
ghost use Rattle.shred_types.specs.Under.{steps_of};
ghost use Rattle.command_line.specs.Frames.{frame, frames};

use crate::paths::put_path;
use nq_ir::Path;
use nq_model::{List, Memory};
use std::alloc::Global;

/// A frame for each path with its SQL text: the path and the length of the text in bytes, the text,
/// and a line `;`.
pub fn frames(alloc: Global, paths: &List<Path>, texts: &List<List<u8>>) -> Result<List<u8>, Memory>
    requires { length paths.now ≡ length texts.now }
    ensures { IfOk result (λ all. all ≡ frames (steps_of paths.now) texts.now) }
{
    let mut all = List::new(alloc);
    for at in 0..paths.len() {
        put_frame(
            alloc,
            &mut all,
            &paths.as_slice()[at],
            &texts.as_slice()[at],
        )?;
    }
    Ok(all)
}

fn put_frame(alloc: Global, all: &mut List<u8>, path: &Path, text: &List<u8>) -> Result<(), Memory>
    ensures { OnOk result (all.new ≡ all.old ++ frame path.now.steps text.now) }
{
    let bytes = text.len().to_string(alloc)?;
    all.extend_from_slice(b"-- ")?;
    put_path(all, path.steps.as_slice())?;
    all.push(b' ')?;
    all.extend_from_slice(bytes.as_bytes())?;
    all.push(b'\n')?;
    all.extend_from_slice(text.as_slice())?;
    all.extend_from_slice(b"\n;\n")
}
