//! What is told of a refusal.
ghost use Rattle.std.specs.Prelude.{◌≡◌, ◌<◌, ◌++◌, decimal, drop, flat_map, map, take, option_map, OnOk};
ghost use Rattle.command_spec.specs.Messages.{refusal_message};
ghost use Rattle.report_spec.specs.Checking.{hex_digit, hex_octet, shown, shown_at, shown_line, shown_octet, shown_octets};
ghost use Rattle.report_spec.specs.Told.{told_name};
ghost use Rattle.rtt_check.specs.Reports.{place_message, shown_of};

use crate::lines::line_at;
use crate::name_texts::append_told;
use crate::names::{conf_kind_name, frame_kind_name};
use command_spec::{Refusal, dump_kind_name};
use itoa::Buffer;
use report_spec::limits::{MOST_SHOWN_AT_BYTE, MOST_SHOWN_OCTETS};
use rtt_base::{Bytes, NoMemory};

/// Appends where in a file of this name something is refused, the number of a unit, and why.
fn append_place(
    text: &mut Bytes,
    name: &str,
    unit: &[u8],
    number: u64,
    why: &[u8],
) -> Result<(), NoMemory>
    ensures { OnOk result (text.new ≡ text.old ++ place_message (told_name name.now) unit.now number why.now) }
{
    let mut digits = Buffer::new();
    append_told(text, name)?;
    text.append(unit)?;
    text.append(digits.format(number).as_bytes())?;
    text.append(b": ")?;
    text.append(why)?;
    text.append(b"\n")
}

/// Appends a number between what stands before it and what stands behind it.
fn append_counted(
    text: &mut Bytes,
    before: &[u8],
    number: u32,
    behind: &[u8],
) -> Result<(), NoMemory>
    ensures { OnOk result (text.new ≡ text.old ++ (before.now ++ (decimal number ++ behind.now))) }
{
    let mut digits = Buffer::new();
    text.append(before)?;
    text.append(digits.format(number).as_bytes())?;
    text.append(behind)
}

/// Appends where a file of this name is refused, and why.
pub(crate) fn append_refusal(text: &mut Bytes, name: &str, refusal: Refusal) -> Result<(), NoMemory>
    ensures { OnOk result (text.new ≡ text.old ++ refusal_message (told_name name.now) refusal) }
{
    match refusal {
        Refusal::AtByte { byte, kind } => {
            append_place(text, name, b" byte ", byte, dump_kind_name(kind))
        }
        Refusal::AtFrame { byte, kind } => {
            append_place(text, name, b" byte ", byte, frame_kind_name(kind))
        }
        Refusal::AtLine { line, kind } => {
            append_place(text, name, b" line ", u64::from(line), conf_kind_name(kind))
        }
        Refusal::AtTrunk { line } => {
            append_place(text, name, b" line ", u64::from(line), b"Trunk")
        }
        Refusal::AfterTurns { turns } => {
            append_counted(text, b"conference too long: ", turns, b" turns\n")
        },
    }
}

/// A hexadecimal digit.
fn hex_digit(digit: u8) -> u8
    requires { digit < 16 }
    ensures { result ≡ hex_digit digit }
{
    if digit < 10 { b'0' + digit } else { 87 + digit }
}

/// Appends an octet in hexadecimal digits.
fn append_hex_octet(text: &mut Bytes, octet: u8) -> Result<(), NoMemory>
    ensures { OnOk result (text.new ≡ text.old ++ hex_octet octet) }
{
    text.append(&[b' ', hex_digit(octet / 16), hex_digit(octet % 16)])
}

/// The same of each of these.
fn append_hex(text: &mut Bytes, octets: &[u8]) -> Result<(), NoMemory>
    ensures { OnOk result (text.new ≡ text.old ++ flat_map hex_octet octets.now) }
{
    match octets {
        [octet, more @ ..] => {
            append_hex_octet(text, *octet)?;
            append_hex(text, more)
        }
        [] => Ok(()),
    }
}

/// What is shown of octets at a byte: not more than are shown of any.
fn first_octets(octets: &[u8]) -> &[u8]
    ensures { result.now ≡ take MOST_SHOWN_AT_BYTE octets.now }
{
    if octets.len() > MOST_SHOWN_AT_BYTE {
        &octets[..MOST_SHOWN_AT_BYTE]
    } else {
        octets
    }
}

/// Appends the first of these octets, where there is one.
fn append_shown_octets(text: &mut Bytes, octets: &[u8]) -> Result<(), NoMemory>
    ensures { OnOk result (text.new ≡ text.old ++ shown_octets octets.now) }
{
    if octets.is_empty() {
        return Ok(());
    }
    text.append(b"|")?;
    append_hex(text, first_octets(octets))?;
    text.append(b"\n")
}

/// What stands in a file from this byte on.
fn octets_from(octets: &[u8], byte: u64) -> &[u8]
    ensures { result.now ≡ drop byte octets.now }
{
    if byte < octets.len() as u64 {
        &octets[byte as usize..]
    } else {
        &[]
    }
}

/// Appends the octets that stand at this byte of a file.
fn append_shown_at(text: &mut Bytes, octets: &[u8], byte: u64) -> Result<(), NoMemory>
    ensures { OnOk result (text.new ≡ text.old ++ shown_at octets.now byte) }
{
    append_shown_octets(text, octets_from(octets, byte))
}

/// An octet as it is shown.
fn shown_octet(octet: u8) -> u8
    ensures { result ≡ shown_octet octet }
{
    if octet > 31 && octet < 127 {
        octet
    } else {
        b'?'
    }
}

/// Appends octets as they are shown.
fn append_octets(text: &mut Bytes, octets: &[u8]) -> Result<(), NoMemory>
    ensures { OnOk result (text.new ≡ text.old ++ map shown_octet octets.now) }
{
    for octet in octets {
        text.append(&[shown_octet(*octet)])?;
    }
    Ok(())
}

/// What is shown of a line: not more of its octets than are shown of any.
fn front_of(line: &[u8]) -> &[u8]
    ensures { result.now ≡ take MOST_SHOWN_OCTETS line.now }
{
    if line.len() > MOST_SHOWN_OCTETS {
        &line[..MOST_SHOWN_OCTETS]
    } else {
        line
    }
}

/// Appends a line as it is shown.
fn append_shown_line(text: &mut Bytes, line: &[u8]) -> Result<(), NoMemory>
    ensures { OnOk result (text.new ≡ text.old ++ shown_line line.now) }
{
    text.append(b"| ")?;
    append_octets(text, front_of(line))?;
    text.append(b"\n")
}

/// The same, where there is one.
pub(crate) fn append_shown(text: &mut Bytes, line: Option<&[u8]>) -> Result<(), NoMemory>
    ensures { OnOk result (text.new ≡ text.old ++ shown (option_map (λ l. l.now) line.entry)) }
{
    match line {
        Some(line) => append_shown_line(text, line),
        None => Ok(()),
    }
}

/// Appends what stands where a file with these octets is refused.
pub(crate) fn append_shown_of(
    text: &mut Bytes,
    octets: &[u8],
    refusal: Refusal,
) -> Result<(), NoMemory>
    ensures { OnOk result (text.new ≡ text.old ++ shown_of octets.now refusal) }
{
    match refusal {
        Refusal::AtByte { byte, .. } | Refusal::AtFrame { byte, .. } => {
            append_shown_at(text, octets, byte)
        }
        Refusal::AtLine { line, .. } | Refusal::AtTrunk { line } => {
            append_shown(text, line_at(octets, line))
        }
        Refusal::AfterTurns { .. } => Ok(()),
    }
}
