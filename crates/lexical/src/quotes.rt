// The text of a literal.
ghost use Rattle.std.specs.Prelude.{◌≡◌, false, IfOk};
ghost use Rattle.nq_model.specs.QueryScope.{undoubled};

use nq_model::{Memory, Text};
use std::alloc::Global;

// A spelled literal with one quote for each two.
fn undoubled(alloc: Global, spelled: &[u8]) -> Result<Vec<u8>, Memory>
    ensures { IfOk result (λ bytes. bytes.items ≡ undoubled false spelled.now) }
{
    let mut bytes = Vec::new(alloc);
    let mut kept = false;
    for byte in spelled {
        if kept {
            kept = false;
        } else {
            bytes.push(*byte)?;
            kept = *byte == b'\'';
        }
    }
    Ok(bytes)
}

/// The text that a literal spells between its quotes. A literal that was read has its quotes in
/// twos, so its text is UTF-8. `Memory` where there is too little memory, or the quotes are not in
/// twos so that no UTF-8 is left.
pub fn unquoted(alloc: Global, spelled: &str) -> Result<Text, Memory>
    ensures { IfOk result (λ text. text ≡ undoubled false spelled.now) }
{
    match String::from_utf8(undoubled(alloc, spelled.as_bytes())?) {
        Ok(text) => Ok(Text::from_string(text)),
        Err(_) => Err(Memory),
    }
}
