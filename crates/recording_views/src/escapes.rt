//! A text as a line of a script says it.
ghost use Rattle.std.specs.Prelude.{◌≡◌, ◌++◌, OnOk, IsUtf8, All, encode_utf8};
ghost use Rattle.std.specs.Bool.{OnTrue};
ghost use Rattle.command_spec.specs.Transcripts.{escaped};
ghost use Rattle.recording_views.specs.Escapes.{IsPlain, escaped_after};

use rtt_base::{Bytes, NoMemory};
use t140_text::{CharClass, class};

/// Whether this is a character of ASCII that stands for itself.
fn is_plain(octet: u8) -> bool
    ensures { OnTrue result (IsPlain octet) }
{
    b' ' <= octet && octet <= b'~' && octet != b'\\'
}

/// Whether all of these are. No octet ends the loop, so that the compiler tests many at a time.
fn are_plain(octets: &[u8]) -> bool
    ensures { OnTrue result (All IsPlain octets.now) }
{
    let mut plain = true;
    for octet in octets {
        plain &= is_plain(*octet);
    }
    plain
}

/// Appends a character as it is.
fn append_as_it_is(c: char, out: &mut Bytes) -> Result<(), NoMemory>
    ensures { OnOk result (out.new ≡ out.old ++ encode_utf8 c) }
{
    let mut octets = [0; 4];
    let text = c.encode_utf8(&mut octets);
    out.append(text.as_bytes())
}

/// Appends what stands for a character, which comes right after CR or not: the LF of CR LF was said by the CR.
fn append_escaped_character(c: char, after_cr: bool, out: &mut Bytes) -> Result<(), NoMemory>
    ensures { OnOk result (out.new ≡ out.old ++ escaped_after after_cr c) }
{
    match class(c) {
        CharClass::Erase => out.append(b"\\b"),
        CharClass::Bell => out.append(b"\\a"),
        CharClass::NewLine if c == '\n' && after_cr => Ok(()),
        CharClass::NewLine => out.append(b"\\n"),
        CharClass::Silent => Ok(()),
        CharClass::Marker => append_as_it_is(c, out),
        CharClass::Print if c == '\\' => out.append(b"\\\\"),
        CharClass::Print => append_as_it_is(c, out),
    }
}

/// Appends a text with its escapes, character by character.
#[inline(never)]
fn append_characters(text: &[u8], out: &mut Bytes) -> Result<(), NoMemory>
    requires { IsUtf8 text.now }
    ensures { OnOk result (out.new ≡ out.old ++ escaped text.now) }
{
    let Ok(text) = str::from_utf8(text) else {
        unreachable!()
    };
    let mut after_cr = false;
    for c in text.chars() {
        append_escaped_character(c, after_cr, out)?;
        after_cr = c == '\r';
    }
    Ok(())
}

/// Appends a text with its escapes. Most texts have none.
#[tactic(auto, using(crate::proofs::Escaping::plain_escaped))]
pub fn append_escaped(text: &[u8], out: &mut Bytes) -> Result<(), NoMemory>
    requires { IsUtf8 text.now }
    ensures { OnOk result (out.new ≡ out.old ++ escaped text.now) }
{
    if are_plain(text) {
        out.append(text)
    } else {
        append_characters(text, out)
    }
}
