// Text literals, in which a quote is doubled.
ghost use Rattle.std.specs.Prelude.{◌≡◌, false, not, ◌&&◌};
ghost use Rattle.nq_model.specs.QueryTokens.{literal_len};

use crate::bytes::is_quote;

// Whether a literal ends before a byte: the byte before is a quote that closes, unless this is one
// too.
fn ends(after_quote: bool, is_quote: bool) -> bool
    ensures { result ≡ (after_quote && not is_quote) }
{
    after_quote && !is_quote
}

// Whether a byte is a quote that closes, unless another follows.
fn may_close(after_quote: bool, is_quote: bool) -> bool
    ensures { result ≡ (not after_quote && is_quote) }
{
    !after_quote && is_quote
}

/// How many bytes stand up to the quote that closes a literal, with this quote. A doubled quote
/// closes none.
pub fn literal_len(bytes: &[u8]) -> Option<usize>
    ensures { result ≡ literal_len false bytes.now }
{
    let mut after_quote = false;
    for (i, byte) in bytes.iter().enumerate() {
        let quote = is_quote(*byte);
        if ends(after_quote, quote) {
            return Some(i);
        }
        after_quote = may_close(after_quote, quote);
    }
    if after_quote { Some(bytes.len()) } else { None }
}
