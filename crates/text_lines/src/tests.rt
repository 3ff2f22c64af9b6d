//! Lines worked out by hand.
//!
//! Lines end as files of different systems have it, or don't end; a carriage return counts as an end only before a line
//! feed. A space at an end of a line makes a word that is empty.

use super::*;

#[test]
fn lines_are_numbered(rt: HostRuntime) {
    let cases: [(&[u8], &[&[u8]]); 8] = [
        (b"", &[]),
        (b"\n", &[b""]),
        (b"a", &[b"a"]),
        (b"a\nb\n", &[b"a", b"b"]),
        (b"a\r\n\r\nb\r", &[b"a", b"", b"b\r"]),
        (b"a\r\r\n", &[b"a\r"]),
        (b"\ra\rb\n\n", &[b"\ra\rb", b""]),
        (b"\r", &[b"\r"]),
    ];
    for (bytes, lines) in &cases {
        let mut left = numbered_lines(bytes);
        for (at, line) in lines.iter().enumerate() {
            let next = left.next();
            assert!(rt; next == Some((at as u64 + 1, *line)));
        }
        assert!(rt; left.next().is_none());
    }
}

#[test]
fn silent_lines_words_and_parts(rt: HostRuntime) {
    let cases: [(&[u8], bool); 5] = [
        (b"", true),
        (b"#", true),
        (b"# box", true),
        (b" #", false),
        (b"a#", false),
    ];
    for (line, silent) in &cases {
        assert!(rt; is_silent(line) == *silent);
    }
    assert!(rt; matches!(read_words(b""), Words::One(b"")));
    assert!(rt; matches!(read_words(b"box"), Words::One(b"box")));
    assert!(rt; matches!(read_words(b"1 2"), Words::Two(b"1", b"2")));
    assert!(rt; matches!(read_words(b" 1 "), Words::Three(b"", b"1", b"")));
    assert!(rt; matches!(read_words(b"1 2 3 "), Words::More));
    let (first, rest) = cut_part(b"a+=+", b'+');
    assert!(rt; first == b"a".as_slice() && rest == Some(b"=+".as_slice()));
    let (first, rest) = cut_part(b"", b'+');
    assert!(rt; first.is_empty() && rest.is_none());
    let mut left = parts_of(b"a++", b'+');
    assert!(rt; left.next() == Some(b"a".as_slice()));
    assert!(rt; left.next() == Some(b"".as_slice()));
    assert!(rt; left.next() == Some(b"".as_slice()));
    assert!(rt; left.next().is_none());
    parts_are_joined();
}
