// Words that name a size.
ghost use Rattle.std.specs.Prelude.{◌≡◌, IfSome};
ghost use Rattle.generated_inputs.specs.Sizes.{IsSize, size_of};

use lexical::{digits_len, value_of};

// The greatest size.
const GREATEST: u64 = 5000;

/// The size that a word names: digits alone, of which the first is not 0, that spell a number from
/// 1 to 5000.
#[tactic(auto, using(crate::proofs::Sizes::size_rules))]
pub fn size_of(word: &str) -> Option<u64>
    ensures size { result ≡ size_of word.now }
    ensures sized { IfSome result IsSize }
{
    let digits = word.as_bytes();
    let Some((first, _)) = digits.split_first() else {
        return None;
    };
    if *first == b'0' {
        return None;
    }
    if digits_len(digits) < digits.len() {
        return None;
    }
    let size = value_of(digits)?;
    if size < 1 {
        return None;
    }
    if size > GREATEST {
        return None;
    }
    Some(size)
}
