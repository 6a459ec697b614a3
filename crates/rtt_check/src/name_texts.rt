//! Names as they are told.
ghost use Rattle.std.specs.Prelude.{◌≡◌, ◌++◌, encode_utf8, OnOk};
ghost use Rattle.view_spec.specs.TextViews.{is_direction};
ghost use Rattle.report_spec.specs.Told.{told_character, told_name};

use rtt_base::{Bytes, NoMemory};

/// Whether the character turns the direction in which text runs.
fn is_direction(c: char) -> bool
    ensures { result ≡ is_direction c }
{
    matches!(c, '\u{202A}'..='\u{202E}' | '\u{2066}'..='\u{2069}')
}

/// The character that is told of a name's character.
pub fn told_character(c: char) -> char
    ensures { result ≡ told_character c }
{
    if c.is_control() || is_direction(c) {
        char::REPLACEMENT_CHARACTER
    } else {
        c
    }
}

/// Appends a character of a name as it is told.
fn append_character(text: &mut Bytes, c: char) -> Result<(), NoMemory>
    ensures { OnOk result (text.new ≡ text.old ++ encode_utf8 (told_character c)) }
{
    let mut octets = [0; 4];
    let told = told_character(c).encode_utf8(&mut octets);
    text.append(told.as_bytes())
}

/// Appends a name as it is told.
pub(crate) fn append_told(text: &mut Bytes, name: &str) -> Result<(), NoMemory>
    ensures { OnOk result (text.new ≡ text.old ++ told_name name.now) }
{
    for c in name.chars() {
        append_character(text, c)?;
    }
    Ok(())
}
