// Kinds of bytes, and how far the first of a text are of one kind.
ghost use Rattle.std.specs.Prelude.{◌≡◌};
ghost use Rattle.std.specs.List.{prefix_len};
ghost use Rattle.nq_model.specs.SchemaTokens.{is_white, begins_word, is_word_byte, is_comment_byte};
ghost use Rattle.nq_model.specs.QueryTokens.{is_digit, is_quote, is_order_mark};

// The bytes EF BB BF, which count as white space at the beginning of a text.
const BYTE_ORDER_MARK: [u8; 3] = [0xEF, 0xBB, 0xBF];

/// Space, tab, line feed and carriage return.
pub fn is_white(byte: u8) -> bool
    ensures { result ≡ is_white byte }
{
    byte == b' ' || byte == b'\t' || byte == b'\n' || byte == b'\r'
}

/// An ASCII letter, or `_`.
pub fn begins_word(byte: u8) -> bool
    ensures { result ≡ begins_word byte }
{
    byte.is_ascii_alphabetic() || byte == b'_'
}

fn is_word_byte(byte: u8) -> bool
    ensures { result ≡ is_word_byte byte }
{
    begins_word(byte) || byte.is_ascii_digit()
}

/// `0` to `9`.
pub fn is_digit(byte: u8) -> bool
    ensures { result ≡ is_digit byte }
{
    byte.is_ascii_digit()
}

/// `'`.
pub fn is_quote(byte: u8) -> bool
    ensures { result ≡ is_quote byte }
{
    byte == b'\''
}

/// How many bytes stand before the first line feed, or before the end.
pub fn comment_len(bytes: &[u8]) -> usize
    ensures { result ≡ prefix_len is_comment_byte bytes.now }
{
    for (i, byte) in bytes.iter().enumerate() {
        if *byte == b'\n' {
            return i;
        }
    }
    bytes.len()
}

/// How many bytes stand before the first that is in no word, or before the end.
pub fn word_len(bytes: &[u8]) -> usize
    ensures { result ≡ prefix_len is_word_byte bytes.now }
{
    for (i, byte) in bytes.iter().enumerate() {
        if !is_word_byte(*byte) {
            return i;
        }
    }
    bytes.len()
}

/// How many bytes stand before the first that is no digit, or before the end.
pub fn digits_len(bytes: &[u8]) -> usize
    ensures { result ≡ prefix_len is_digit bytes.now }
{
    for (i, byte) in bytes.iter().enumerate() {
        if !is_digit(*byte) {
            return i;
        }
    }
    bytes.len()
}

/// Whether a text begins here, with the bytes EF BB BF, which count as white space.
pub fn is_order_mark(place: usize, bytes: &[u8]) -> bool
    ensures { result ≡ is_order_mark place bytes.now }
{
    place == 0 && bytes.starts_with(&BYTE_ORDER_MARK)
}
