//! The lines of a file.
//!
//! Catalogues, tables and routes come from editors of all kinds. So a carriage return before a line feed is no part of
//! a line.

ghost use Rattle.std.specs.Prelude.{◌≡◌, ◌↔◌, ◌==◌, ◌∷◌, [], ◌<◌, length, position, IfSome, IfNone, IsTrue};
ghost use Rattle.std.specs.Str.Lines.{lines, strip_carriage_return};
ghost use Rattle.text_lines.specs.Lines.{IsSilent, is_silent};

/// Whether the line says nothing: it is empty, or a remark, which begins with `#`. It takes no memory.
pub fn is_silent(line: &[u8]) -> bool
    ensures said { IsTrue result ↔ IsSilent line.now }
    ensures function { result ≡ is_silent line.now }
{
    match line {
        [] => true,
        [first, ..] => *first == b'#',
    }
}

/// Where the first line feed stands.
fn place_of_line_feed(bytes: &[u8]) -> Option<usize>
    ensures { result ≡ position (λ byte. byte == 10) bytes.now }
{
    bytes.iter().position(|byte| *byte == b'\n')
}

/// A line that a line feed ended, without the carriage return before that, where it has one. It takes no memory.
pub fn without_carriage_return(line: &[u8]) -> &[u8]
    ensures { result.now ≡ strip_carriage_return line.now }
{
    match line {
        [front @ .., b'\r'] => front,
        _ => line,
    }
}

/// The first line of a file, and what stands behind the line feed that ends it; none where the file has no line. It
/// takes no memory.
pub fn cut_line(bytes: &[u8]) -> Option<(&[u8], &[u8])>
    ensures line { IfSome result (λ cut. lines bytes.now ≡ cut.0.now ∷ lines cut.1.now) }
    ensures shorter { IfSome result (λ cut. length cut.1.now < length bytes.now) }
    ensures none { IfNone result (lines bytes.now ≡ []) }
{
    if bytes.is_empty() {
        return None;
    }
    match place_of_line_feed(bytes) {
        Some(at) => Some((without_carriage_return(&bytes[..at]), &bytes[at + 1..])),
        None => Some((bytes, &[])),
    }
}
