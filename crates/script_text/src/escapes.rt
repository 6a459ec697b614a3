//! The escapes of a script's texts.
ghost use Rattle.std.specs.Prelude.{◌≡◌, ◌<◌, ◌==◌, ◌∷◌, length, None, Some, Ok, IfSome, MatchOption, OnOk, IfErr};
ghost use Rattle.std.specs.List.{position};
ghost use Rattle.file_spec.specs.Script.{escape, followed, typed, unescaped};
ghost use Rattle.script_text.specs.Causes.{IsCauseAt};
ghost use Rattle.script_text.specs.Texts.{octets_of};

use crate::{ConfFault, ConfKind};
use file_spec::limits::LONGEST_TEXT;
use rtt_base::Bytes;

/// What a backslash and this octet stand for.
fn escape_of(octet: u8) -> Option<&'static [u8]>
    ensures { octets_of result ≡ escape octet }
{
    match octet {
        b'n' => Some("\u{2028}".as_bytes()),
        b'b' => Some(b"\x08"),
        b'a' => Some(b"\x07"),
        b'\\' => Some(b"\\"),
        _ => None,
    }
}

fn backslash_in(octets: &[u8]) -> Option<usize>
    ensures { result ≡ position (λ c. c == 92) octets.now }
{
    octets.iter().position(|octet| *octet == b'\\')
}

/// The octets before the first backslash, and those behind it; none where there is no backslash.
fn split_at_backslash(octets: &[u8]) -> Option<(&[u8], &[u8])>
    ensures parts { MatchOption result (unescaped octets.now ≡ Some octets.now)
        (λ x. unescaped octets.now ≡ followed (Some x.0.now) (unescaped (92 ∷ x.1.now))) }
    ensures shorter { IfSome result (λ x. length x.1.now < length octets.now) }
{
    match backslash_in(octets) {
        Some(end) => Some((&octets[..end], &octets[end + 1..])),
        None => None,
    }
}

/// What a backslash and the first of these octets stand for, and the octets behind it.
fn split_escape(octets: &[u8]) -> Option<(&'static [u8], &[u8])>
    ensures parts { MatchOption result (unescaped (92 ∷ octets.now) ≡ None)
        (λ x. unescaped (92 ∷ octets.now) ≡ followed (Some x.0.now) (unescaped x.1.now)) }
    ensures shorter { IfSome result (λ x. length x.1.now < length octets.now) }
{
    let [escaped, after @ ..] = octets else {
        return None;
    };
    match escape_of(*escaped) {
        Some(meant) => Some((meant, after)),
        None => None,
    }
}

/// Reads the text of a line, run by run up to the next backslash, and writes it over `text`. What stands there after a
/// fault is not said.
pub(crate) fn read_text(line: u32, octets: &[u8], text: &mut Bytes) -> Result<(), ConfFault>
    ensures ok { OnOk result (typed octets.now ≡ Ok text.new) }
    ensures err { IfErr result (λ fault. IsCauseAt line fault (typed octets.now)) }
{
    let no_escape = ConfFault::Refused {
        line,
        kind: ConfKind::Escape,
    };
    text.clear();
    let mut rest = octets;
    while let Some((run, behind)) = split_at_backslash(rest) {
        text.append(run)?;
        let Some((meant, after)) = split_escape(behind) else {
            return Err(no_escape);
        };
        text.append(meant)?;
        rest = after;
    }
    text.append(rest)?;
    if text.len() > LONGEST_TEXT {
        return Err(ConfFault::Refused {
            line,
            kind: ConfKind::Long,
        });
    }
    Ok(())
}
