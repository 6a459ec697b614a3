//! The lines of a file, one after another.
ghost use Rattle.std.specs.Prelude.{◌≡◌, ◌<◌, ◌==◌, [], ◌∷◌, length, MatchOption};
ghost use Rattle.std.specs.List.{position};
ghost use Rattle.std.specs.Str.Lines.{lines, strip_carriage_return};
ghost use Rattle.file_spec.specs.Lines.{is_comment};
ghost use Rattle.script_text.specs.Texts.{octets_of, text_in};

use memchr::memchr;
use simdutf8::basic::from_utf8;

fn without_return(line: &[u8]) -> &[u8]
    ensures { result.now ≡ strip_carriage_return line.now }
{
    if line.is_empty() || line[line.len() - 1] != b'\r' {
        return line;
    }
    &line[..line.len() - 1]
}

fn line_end(octets: &[u8]) -> Option<usize>
    ensures { result ≡ position (λ c. c == 10) octets.now }
{
    memchr(b'\n', octets)
}

/// The first line of these octets, and what follows it; none where there are no octets.
pub fn next_line(octets: &[u8]) -> Option<(&[u8], &[u8])>
    ensures lines { MatchOption result (lines octets.now ≡ []) (λ x. lines octets.now ≡ x.0.now ∷ lines x.1.now) }
    ensures shorter { MatchOption result (octets.now ≡ []) (λ x. length x.1.now < length octets.now) }
{
    if octets.is_empty() {
        return None;
    }
    match line_end(octets) {
        Some(end) => Some((without_return(&octets[..end]), &octets[end + 1..])),
        None => Some((octets, &octets[octets.len()..])),
    }
}

/// Whether a line says nothing: it is empty, or begins with `#`.
pub fn says_nothing(line: &[u8]) -> bool
    ensures { result ≡ is_comment line.now }
{
    match line {
        [] => true,
        [first, ..] => *first == b'#',
    }
}

/// The octets as text, if they are UTF-8.
pub fn text_of(octets: &[u8]) -> Option<&str>
    ensures { octets_of result ≡ text_in octets.now }
{
    match from_utf8(octets) {
        Ok(text) => Some(text),
        Err(_) => None,
    }
}
