//! What a packet is, by its header, and as one of text.
ghost use Rattle.std.specs.Prelude.{◌≡◌, ◌<◌, Some};
ghost use Rattle.wire_spec.specs.Packets.{has_text};
ghost use Rattle.wire_spec.specs.Dump.{Whole};
ghost use Rattle.wire_spec.specs.Text.{text_of};
ghost use Rattle.command_spec.specs.Streams.{is_rtcp, sort_of_what, payload_in, is_of_text, is_dynamic};
ghost use Rattle.command_spec.specs.Showing.{place_of};
ghost use Rattle.rtp_text.specs.Headers.{reading};
ghost use Rattle.rtt_show.specs.Surveys.{sorted, seen, is_like, is_read};

use crate::origins::Origin;
use file_spec::limits::{FIRST_TYPE, LAST_TYPE};
use rtp_text::{RtpView, read_rtp, read_text, view_text};
use rtt_base::{PayloadTypes, TextPacket};
use wire_spec::TextFault;

/// A packet whose header is read, or none.
#[derive(Clone, Copy)]
pub(crate) enum RecordKind<'a> {
    Headed(RtpView<'a>),
    NoRtp,
    Rtcp,
}

/// Whether a packet is one of RTCP (RFC 5761, section 4).
fn is_of_rtcp(octets: &[u8]) -> bool
    ensures { result ≡ is_rtcp octets.now }
{
    octets.len() > 1 && (192..=223).contains(&octets[1])
}

/// What a packet is by its header.
#[inline(always)]
pub(crate) fn sort_packet(octets: &[u8]) -> RecordKind<'_>
    ensures { sorted result ≡ sort_of_what (Whole octets.now) }
{
    if is_of_rtcp(octets) {
        return RecordKind::Rtcp;
    }
    match read_rtp(octets) {
        Ok(view) => RecordKind::Headed(view),
        Err(_) => RecordKind::NoRtp,
    }
}

/// The payload of a packet; none where its header can't be read.
pub(crate) fn payload_of(octets: &[u8]) -> &[u8]
    ensures { result.now ≡ payload_in (sort_of_what (Whole octets.now)) }
{
    match sort_packet(octets) {
        RecordKind::Headed(view) => view.payload,
        RecordKind::NoRtp | RecordKind::Rtcp => &[],
    }
}

/// Whether a payload is not empty.
pub(crate) fn has_octets(payload: &[u8]) -> bool
    ensures { result ≡ has_text payload.now }
{
    !payload.is_empty()
}

/// Whether a packet's payload type is one of the two of text.
pub(crate) fn has_text_type(view: &RtpView<'_>, payload_types: PayloadTypes) -> bool
    ensures { result ≡ is_of_text payload_types (reading view.now) }
{
    view.pt == payload_types.t140 || view.pt == payload_types.red
}

/// Whether a payload type may be given to text (RFC 3551, section 3).
pub(crate) fn may_be_given(pt: u8) -> bool
    ensures { result ≡ is_dynamic pt }
{
    FIRST_TYPE <= u32::from(pt) && u32::from(pt) <= LAST_TYPE
}

/// The source and the sequence number of a packet of text of this stream, or why it is none.
#[inline(always)]
pub(crate) fn read_source(
    octets: &[u8],
    ssrc: u32,
    payload_types: PayloadTypes,
    packet: &mut TextPacket,
) -> Result<Origin, TextFault>
    ensures { result ≡ seen (text_of octets.now (Some ssrc) payload_types) }
{
    if let Some(view) = view_text(octets, Some(ssrc), payload_types) {
        let (source, seq) = (view.source, view.seq);
        return Ok(Origin { source, seq });
    }
    match read_text(octets, Some(ssrc), payload_types, packet) {
        Ok(()) => Ok(Origin {
            source: packet.source,
            seq: packet.seq,
        }),
        Err(fault) => Err(fault),
    }
}

/// Whether a packet was read as a text, or would be if its text were shorter or other octets.
pub(crate) fn is_near_text(read: Result<Origin, TextFault>) -> bool
    ensures { result ≡ is_like read }
{
    match read {
        Ok(_) | Err(TextFault::Long | TextFault::NotText) => true,
        Err(_) => false,
    }
}

/// Whether a packet was read as a text.
pub(crate) fn is_text(read: Result<Origin, TextFault>) -> bool
    ensures { result ≡ is_read read }
{
    match read {
        Ok(_) => true,
        Err(_) => false,
    }
}

/// The place of a refusal in the order of the tests.
pub(crate) fn place_among(fault: TextFault) -> usize
    ensures place { result ≡ place_of fault }
    ensures few { result < 10 }
{
    match fault {
        TextFault::Short => 0,
        TextFault::Version => 1,
        TextFault::Padding => 2,
        TextFault::Sources => 3,
        TextFault::WrongType => 4,
        TextFault::Cut => 5,
        TextFault::Many => 6,
        TextFault::Long => 7,
        TextFault::NotText => 8,
        TextFault::Foreign => 9,
    }
}
