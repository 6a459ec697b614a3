//! Whether packets are like those of text.
ghost use Rattle.std.specs.Prelude.{◌≡◌, ◌&&◌, ◌<◌, ◌^◌, Some, length};
ghost use Rattle.wire_spec.specs.Text.{text_of};
ghost use Rattle.command_spec.specs.Streams.{are_like_text};
ghost use Rattle.rtt_show.specs.Records.{OfRecords};
ghost use Rattle.rtpdump_io.specs.InMemory.{HasRecords};
ghost use Rattle.report_spec.specs.Guesses.{accepted};
ghost use Rattle.rtt_show.specs.Surveys.{seen, is_like};
ghost use Rattle.rtt_show.specs.Signs.{is_filled_text};

use crate::record_kinds::{has_octets, is_near_text, is_text, payload_of, read_source};
use crate::sums::one_if;
use rtpdump_io::next_record;
use rtt_base::{PayloadTypes, TextPacket};

/// Whether those before are near texts, and this packet too, which is not read where one before was none.
fn and_near_text(
    before: bool,
    octets: &[u8],
    ssrc: u32,
    payload_types: PayloadTypes,
    packet: &mut TextPacket,
) -> bool
    ensures { result ≡ (before && is_like (seen (text_of octets.now (Some ssrc) payload_types))) }
{
    if !before {
        return false;
    }
    is_near_text(read_source(octets, ssrc, payload_types, packet))
}

/// Whether each of these packets is a text of this SSRC and these payload types, or would be if its text were shorter
/// or other octets.
pub(crate) fn all_near_text(records: &[u8], ssrc: u32, payload_types: PayloadTypes) -> bool
    ensures { OfRecords records.now (λ came. result ≡ are_like_text ssrc payload_types came) }
{
    let mut packet = TextPacket::default();
    let mut near = true;
    let mut rest = records;
    while let Some((_, octets, more)) = next_record(rest) {
        near = and_near_text(near, octets, ssrc, payload_types, &mut packet);
        rest = more;
    }
    near
}

/// Whether a packet has a payload, and is a text of this SSRC and these payload types.
fn is_accepted(
    octets: &[u8],
    ssrc: u32,
    payload_types: PayloadTypes,
    packet: &mut TextPacket,
) -> bool
    ensures { result ≡ is_filled_text ssrc payload_types octets.now }
{
    if !has_octets(payload_of(octets)) {
        return false;
    }
    is_text(read_source(octets, ssrc, payload_types, packet))
}

/// How many of these packets have a payload, and are texts of this SSRC and these payload types.
pub(crate) fn accepted_of(records: &[u8], ssrc: u32, payload_types: PayloadTypes) -> u64
    requires { HasRecords records.now }
    ensures number { OfRecords records.now (λ came. result ≡ length (accepted ssrc payload_types came)) }
    ensures few { result < 2 ^ 32 }
{
    let mut packet = TextPacket::default();
    let mut number = 0u64;
    let mut rest = records;
    while let Some((_, octets, more)) = next_record(rest) {
        let accepted = is_accepted(octets, ssrc, payload_types, &mut packet);
        number += one_if(accepted);
        rest = more;
    }
    number
}
