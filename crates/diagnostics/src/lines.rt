// The line in which a place of a text is.
ghost use Rattle.std.specs.Prelude.{◌≡◌, ◌≤◌, count_by, length};
ghost use Rattle.std.specs.List.{suffix_len};
ghost use Rattle.diagnostics.specs.Lines.{before_place, ends_line, first_line, is_feed, is_no_feed, last_end, line_number, line_of, meant};

// How many line feeds there are.
fn feeds(bytes: &[u8]) -> usize
    ensures { result ≡ count_by is_feed bytes.now }
{
    let mut count = 0;
    for byte in bytes {
        if *byte == b'\n' {
            count += 1;
        }
    }
    count
}

// How many bytes stand behind the last line feed.
fn behind_feed(bytes: &[u8]) -> usize
    ensures is { result ≡ suffix_len is_no_feed bytes.now }
    ensures within { result ≤ length bytes.now }
{
    let mut count = 0;
    for byte in bytes {
        if *byte == b'\n' {
            count = 0;
        } else {
            count += 1;
        }
    }
    count
}

// Whether what ends a line stands at the front.
fn ends_line(bytes: &[u8]) -> bool
    ensures { result ≡ ends_line bytes.now }
{
    bytes.starts_with(b"\n") || bytes.starts_with(b"\r\n")
}

// The line at the front of a text.
fn first_line(bytes: &[u8]) -> &[u8]
    ensures { result.now ≡ first_line bytes.now }
{
    for at in 0..bytes.len() {
        if ends_line(&bytes[at..]) {
            return &bytes[..at];
        }
    }
    bytes
}

// The number of bytes up to the end of the last line.
fn last_end(text: &[u8]) -> usize
    ensures { result ≡ last_end text.now }
{
    match text.split_last() {
        Some((last, front)) if *last == b'\n' => front.len(),
        _ => text.len(),
    }
}

// The place that is meant.
fn meant(text: &[u8], place: u64) -> usize
    ensures is { result ≡ meant text.now place }
    ensures within { result ≤ length text.now }
{
    let end = last_end(text);
    if place < end as u64 {
        place as usize
    } else {
        end
    }
}

/// The line of a place: its number, how many of its bytes are before the place, and its bytes.
#[derive(Clone, Copy)]
pub(crate) struct Line<'a> {
    pub(crate) number: u64,
    pub(crate) before: usize,
    pub(crate) bytes: &'a [u8],
}

/// The line in which a place of a text is.
pub(crate) fn line_of(text: &[u8], place: u64) -> Line<'_>
    ensures number { result.number ≡ line_number text.now place }
    ensures before { result.before ≡ before_place text.now place }
    ensures bytes { result.bytes.now ≡ line_of text.now place }
{
    let end = meant(text, place);
    let front = &text[..end];
    let before = behind_feed(front);
    Line {
        number: feeds(front) as u64 + 1,
        before,
        bytes: first_line(&text[end - before..]),
    }
}
