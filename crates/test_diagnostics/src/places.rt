// Places in texts, with lines and columns counted by hand.
use diagnostics::{Place, place_in};
use std::process::Abort;
use std::test::Fail;

// A text, a place, its line and its column.
const PLACES: [(&[u8], u64, u64, u64); 69] = [
    // An empty text has one line.
    (b"", 0, 1, 1),
    (b"", 9, 1, 1),
    // A last line without an end, and places at and behind the end.
    (b"abc", 0, 1, 1),
    (b"abc", 2, 1, 3),
    (b"abc", 3, 1, 4),
    (b"abc", 4, 1, 4),
    (b"abc", 18446744073709551615, 1, 4),
    (b"a\nbc", 0, 1, 1),
    (b"a\nbc", 1, 1, 2),
    (b"a\nbc", 2, 2, 1),
    (b"a\nbc", 3, 2, 2),
    (b"a\nbc", 4, 2, 3),
    (b"a\nbc", 5, 2, 3),
    // A line feed at the end begins no line.
    (b"a\nbc\n", 4, 2, 3),
    (b"a\nbc\n", 5, 2, 3),
    (b"a\nbc\n", 6, 2, 3),
    (b"\n", 0, 1, 1),
    (b"\n", 1, 1, 1),
    (b"\n\n", 0, 1, 1),
    (b"\n\n", 1, 2, 1),
    (b"\n\n", 2, 2, 1),
    (b"a\n\nb", 2, 2, 1),
    (b"a\n\nb", 3, 3, 1),
    // Carriage returns.
    (b"ab\r\ncd\r\n", 1, 1, 2),
    (b"ab\r\ncd\r\n", 2, 1, 3),
    (b"ab\r\ncd\r\n", 3, 1, 3),
    (b"ab\r\ncd\r\n", 4, 2, 1),
    (b"ab\r\ncd\r\n", 5, 2, 2),
    (b"ab\r\ncd\r\n", 6, 2, 3),
    (b"ab\r\ncd\r\n", 7, 2, 3),
    (b"ab\r\ncd\r\n", 8, 2, 3),
    (b"\r\n", 0, 1, 1),
    (b"\r\n", 1, 1, 1),
    (b"\r\n", 2, 1, 1),
    (b"\r\r\n", 1, 1, 2),
    (b"\r\r\n", 2, 1, 2),
    (b"a\rb", 1, 1, 2),
    (b"a\rb", 2, 1, 3),
    (b"a\r", 2, 1, 3),
    // A tab is one column.
    (b"\ta", 0, 1, 1),
    (b"\ta", 1, 1, 2),
    // Characters of two, three and four bytes.
    (b"\xC3\xA9a", 0, 1, 1),
    (b"\xC3\xA9a", 1, 1, 1),
    (b"\xC3\xA9a", 2, 1, 2),
    (b"\xC3\xA9a", 3, 1, 3),
    (b"\xE2\x82\xACa", 1, 1, 1),
    (b"\xE2\x82\xACa", 2, 1, 1),
    (b"\xE2\x82\xACa", 3, 1, 2),
    (b"\xF0\x9F\x98\x80a", 3, 1, 1),
    (b"\xF0\x9F\x98\x80a", 4, 1, 2),
    (b"\xF0\x9F\x98\x80a", 5, 1, 3),
    // Bytes that are part of no character: alone, in a character that is not ended, in a longer
    // spelling than is allowed, in a surrogate, and above U+10FFFF.
    (b"\xFFa", 0, 1, 1),
    (b"\xFFa", 1, 1, 2),
    (b"\xFFa", 2, 1, 3),
    (b"\x80\x80a", 2, 1, 3),
    (b"\xC3(", 1, 1, 2),
    (b"\xC3(", 2, 1, 3),
    (b"\xE2\x82a", 1, 1, 2),
    (b"\xE2\x82a", 2, 1, 3),
    (b"\xE2\x82a", 3, 1, 4),
    (b"\xE2\x82", 2, 1, 3),
    (b"\xC0\x80a", 2, 1, 3),
    (b"\xED\xA0\x80a", 3, 1, 4),
    (b"\xF4\x90\x80\x80a", 4, 1, 5),
    (b"\xF0\x9F\x98", 3, 1, 4),
    (b"\xE2\xC3\xA9a", 2, 1, 2),
    (b"\xE2\xC3\xA9a", 3, 1, 3),
    // A character does not reach over the end of a line.
    (b"\xC3\n\xA9a", 2, 2, 1),
    (b"\xC3\n\xA9a", 3, 2, 2),
];

#[test]
fn places_are_counted(rt: HostRuntime) -> Result<(), Fail> {
    for (text, place, line, column) in &PLACES {
        let found = place_in(text, *place);
        let wanted = Place {
            line: *line,
            column: *column,
        };
        assert!(rt; found == wanted, "{text:?} at {place}: {found:?}");
    }
    Ok(())
}
