//! Names of files and legs as they are told.
ghost use Rattle.std.specs.Prelude.{◌≡◌, ◌≤◌, encode_utf8, OnErr};
ghost use Rattle.std.specs.List.{list_all};
ghost use Rattle.rtt_io.specs.Counts.{Rose};
ghost use Rattle.report_spec.specs.Told.{told_character, told_name};
ghost use Rattle.rtt_top.specs.Sinks.{Wrote, WrotePartly, is_plain_octet};

use rtt_base::Failed;
use rtt_check::told_character;
use rtt_io::Sink;

/// Whether all octets are characters of ASCII that are told as they are.
fn are_plain(octets: &[u8]) -> bool
    ensures { result ≡ list_all is_plain_octet octets.now }
{
    octets.iter().all(|octet| matches!(*octet, b' '..=b'~'))
}

/// Writes a character of a name as it is told.
fn write_character<E: Sink>(err: &mut E, c: char) -> Result<(), Failed>
    ensures never_falls { E.faults err.old ≤ E.faults err.new }
    ensures failed { OnErr result (Rose (E.faults err.old) (E.faults err.new)) }
    ensures written { Wrote E.Sink err.old err.new (encode_utf8 (told_character c)) result }
    ensures partly { WrotePartly E.Sink err.old err.new (encode_utf8 (told_character c)) result }
{
    let mut octets = [0; 4];
    let told = told_character(c).encode_utf8(&mut octets);
    err.write_all(told.as_bytes())
}

/// Writes a name as it is told, character by character.
fn write_characters<E: Sink>(err: &mut E, name: &str) -> Result<(), Failed>
    ensures never_falls { E.faults err.old ≤ E.faults err.new }
    ensures failed { OnErr result (Rose (E.faults err.old) (E.faults err.new)) }
    ensures written { Wrote E.Sink err.old err.new (told_name name.now) result }
    ensures partly { WrotePartly E.Sink err.old err.new (told_name name.now) result }
{
    for c in name.chars() {
        write_character(err, c)?;
    }
    Ok(())
}

/// Writes a name as it is told. Most are written at once.
#[tactic(auto, using(crate::proofs::Telling::plain_told))]
pub(crate) fn write_name<E: Sink>(err: &mut E, name: &str) -> Result<(), Failed>
    ensures never_falls { E.faults err.old ≤ E.faults err.new }
    ensures failed { OnErr result (Rose (E.faults err.old) (E.faults err.new)) }
    ensures written { Wrote E.Sink err.old err.new (told_name name.now) result }
    ensures partly { WrotePartly E.Sink err.old err.new (told_name name.now) result }
{
    if are_plain(name.as_bytes()) {
        err.write_all(name.as_bytes())
    } else {
        write_characters(err, name)
    }
}
