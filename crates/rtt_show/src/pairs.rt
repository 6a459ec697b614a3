//! What is shown of the packets of another payload type.
ghost use Rattle.std.specs.Prelude.{◌≡◌, ◌==◌, ◌&&◌, ◌++◌, not, nat_lt, length, OnOk};
ghost use Rattle.command_spec.specs.Streams.{are_like_text, is_dynamic};
ghost use Rattle.report_spec.specs.Guesses.{filled, are_mostly_text, guess_line};
ghost use Rattle.rtpdump_io.specs.InMemory.{HasRecords};
ghost use Rattle.rtt_show.specs.Records.{OfRecords};
ghost use Rattle.rtt_show.specs.Signs.{AreSigns};
ghost use Rattle.rtt_show.specs.Shown.{first_guess, guessed, pair_text, pair_line};

use crate::likes::{accepted_of, all_near_text};
use crate::print_lines::append_number;
use crate::record_kinds::may_be_given;
use crate::signs::{Signs, signs_of};
use rtt_base::{Bytes, NoMemory, PayloadTypes};

/// What packets may be: red with texts of a type inside, or plain texts.
#[derive(Clone, Copy)]
pub(crate) enum Guess {
    Nothing,
    Red { inside: u8 },
    Text,
}

/// Whether the payloads of type `pt` show that they may be red.
fn show_red(signs: Signs, pt: u8) -> bool
    ensures { result ≡ (is_dynamic signs.inside && not (signs.inside == pt) && signs.redundant) }
{
    may_be_given(signs.inside) && signs.inside != pt && signs.redundant
}

/// Whether the payloads show that they may be so, and each packet is like a text of these types.
fn are_near_where(shown: bool, records: &[u8], ssrc: u32, payload_types: PayloadTypes) -> bool
    ensures { OfRecords records.now (λ came. result ≡ (shown && are_like_text ssrc payload_types came)) }
{
    if !shown {
        return false;
    }
    all_near_text(records, ssrc, payload_types)
}

/// Whether a payload is not empty.
fn has_filled(signs: Signs) -> bool
    ensures { result ≡ nat_lt 0 signs.filled }
{
    signs.filled > 0
}

/// Whether that is so, and of those of these packets that have a payload, so many, at least half are texts of this SSRC and
/// these payload types.
fn are_mostly_texts(
    near: bool,
    records: &[u8],
    ssrc: u32,
    payload_types: PayloadTypes,
    number: u64,
) -> bool
    requires { HasRecords records.now }
    ensures { OfRecords records.now (λ came. number ≡ length (filled came) → result ≡ (near && are_mostly_text ssrc payload_types came)) }
{
    if !near {
        return false;
    }
    number <= 2 * accepted_of(records, ssrc, payload_types)
}

/// The first of the two that they may be.
fn guess_from(red: bool, text: bool, inside: u8) -> Guess
    ensures { guessed result ≡ first_guess red text inside }
{
    if red {
        return Guess::Red { inside };
    }
    if text {
        return Guess::Text;
    }
    Guess::Nothing
}

/// What these packets of a pair may be.
fn guess_of(ssrc: u32, pt: u8, records: &[u8], signs: Signs) -> Guess
    requires { HasRecords records.now }
    ensures { OfRecords records.now (λ came. AreSigns signs came → guessed result ≡ guess_line ssrc pt came) }
{
    if !may_be_given(pt) {
        return Guess::Nothing;
    }
    let inside = PayloadTypes {
        t140: signs.inside,
        red: pt,
    };
    let plain = PayloadTypes { t140: pt, red: 0 };
    let red = are_near_where(show_red(signs, pt), records, ssrc, inside);
    let near = are_near_where(has_filled(signs), records, ssrc, plain);
    let text = are_mostly_texts(near, records, ssrc, plain, signs.filled);
    guess_from(red, text, signs.inside)
}

/// Appends a guess.
fn append_guess(guess: Guess, out: &mut Bytes) -> Result<(), NoMemory>
    ensures { OnOk result (out.new ≡ out.old ++ guessed guess) }
{
    match guess {
        Guess::Nothing => Ok(()),
        Guess::Red { inside } => append_number(b" red of ", u64::from(inside), out),
        Guess::Text => out.append(b" text"),
    }
}

/// Appends the line of a pair.
fn append_pair(
    ssrc: u32,
    pt: u8,
    packets: u64,
    guess: Guess,
    out: &mut Bytes,
) -> Result<(), NoMemory>
    ensures { OnOk result (out.new ≡ out.old ++ pair_text ssrc pt packets (guessed guess)) }
{
    append_number(b"-- ssrc ", u64::from(ssrc), out)?;
    append_number(b" type ", u64::from(pt), out)?;
    append_number(b" packets ", packets, out)?;
    append_guess(guess, out)?;
    out.append(b"\n")
}

/// Appends what is shown of a pair with these packets.
pub(crate) fn show_pair(ssrc: u32, pt: u8, records: &[u8], out: &mut Bytes) -> Result<(), NoMemory>
    requires { HasRecords records.now }
    ensures { OnOk result (OfRecords records.now (λ came. out.new ≡ out.old ++ pair_line ssrc pt came)) }
{
    let signs = signs_of(records);
    let guess = guess_of(ssrc, pt, records, signs);
    append_pair(ssrc, pt, signs.packets, guess, out)
}
