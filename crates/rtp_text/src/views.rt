//! A packet of text that is looked at where it lies, and copied nowhere.
ghost use Rattle.std.specs.Prelude.{◌≡◌, ◌*◌, ◌<◌, ◌≤◌, ◌^◌, Ok, length, drop, IfSome};
ghost use Rattle.wire_spec.specs.Red.{header_of, older_size, texts_within};
ghost use Rattle.wire_spec.specs.Text.{text_of, text_packet, text_within};
ghost use Rattle.rtp_text.specs.Headers.{reading};
ghost use Rattle.rtt_base.specs.declared.limits.TheConstants.{MOST_PRIMARY_OCTETS};
ghost use Rattle.rtp_text.specs.Reading.{headers_of};
ghost use Rattle.rtp_text.specs.Views.{blocks_in, packet_in, IsCut, IsPacketOf, IsView};

use crate::block_readers::{redundant_header, scan_headers};
use crate::packets::accept;
use crate::{RtpView, read_rtp};
use rtt_base::PayloadTypes;
use rtt_base::limits::{MOST_PACKET_OCTETS, MOST_TEXT_OCTETS};
use wire_spec::RedHeader;

/// A packet of text where it lies, all of whose texts are ASCII.
#[derive(Clone, Copy, Debug)]
pub struct TextView<'a> {
    /// The M bit: the first packet after a pause.
    pub marker_bit: bool,
    /// The sequence number.
    pub seq: u16,
    /// The timestamp, in ticks of 1 ms.
    pub timestamp: u32,
    /// The SSRC of the stream.
    pub ssrc: u32,
    /// Whose text it is: the only CSRC, or the SSRC where there is none (RFC 9071).
    pub source: u32,
    /// How many redundant blocks it has, 0 to 8.
    pub count: usize,
    /// Octets that begin with their headers, four each.
    pub headers: &'a [u8],
    /// Their texts, one behind the other, the oldest first.
    pub older: &'a [u8],
    /// The primary text.
    pub primary: &'a [u8],
}

impl TextView<'_> {
    /// The header of the redundant block at this place, counted from 0, the oldest: its offset, and how many octets its text has.
    #[inline(always)]
    pub fn header(&self, place: usize) -> RedHeader
        requires view { IsView self.now }
        requires there { place < self.now.count }
        ensures value { result ≡ header_of (drop (4 * place) self.now.headers.now) }
        ensures small { result.size < 2 ^ 10 }
    {
        redundant_header(&self.headers[4 * place..])
    }
}

/// Cuts texts into the redundant ones, which have so many octets, and the primary one, if it has at most `most` and all are
/// ASCII.
#[inline(always)]
fn cut_texts(most: usize, texts: &[u8], older: usize) -> Option<(&[u8], &[u8])>
    ensures { IfSome result (λ parts. IsCut most older texts.now parts.0.now parts.1.now) }
{
    if texts.len() < older || texts.len() - older > most {
        return None;
    }
    if !texts.is_ascii() {
        return None;
    }
    Some(texts.split_at(older))
}

/// The view of a packet with so many redundant headers, whose texts have `older` octets.
#[inline(always)]
fn view_texts<'a>(
    most: usize,
    head: &RtpView<'a>,
    count: usize,
    headers: &'a [u8],
    older: usize,
    texts: &'a [u8],
) -> Option<TextView<'a>>
    requires most { most ≤ MOST_PRIMARY_OCTETS }
    requires few { count ≤ 8 }
    requires headers { 4 * count ≤ length headers.now }
    requires older { older ≡ older_size (headers_of count headers.now) }
    ensures packet { IfSome result (λ view. text_packet (reading head.now) (blocks_in view) ≡ packet_in view) }
    ensures texts { IfSome result (λ view. texts_within most (headers_of count headers.now) texts.now ≡ Ok (blocks_in view)) }
    ensures view { IfSome result IsView }
{
    let Some((older, primary)) = cut_texts(most, texts, older) else {
        return None;
    };
    Some(TextView {
        marker_bit: head.marker_bit,
        seq: head.seq,
        timestamp: head.timestamp,
        ssrc: head.ssrc,
        source: head.csrc.unwrap_or(head.ssrc),
        count,
        headers,
        older,
        primary,
    })
}

/// The view of a packet with this header and payload.
#[inline(always)]
fn view_payload<'a>(
    most: usize,
    head: &RtpView<'a>,
    payload_types: PayloadTypes,
) -> Option<TextView<'a>>
    requires { most ≤ MOST_PRIMARY_OCTETS }
    ensures packet { IfSome result (IsPacketOf most (reading head.now) payload_types) }
    ensures view { IfSome result IsView }
{
    if head.pt == payload_types.t140 {
        return view_texts(most, head, 0, &[], 0, head.payload);
    }
    if head.pt != payload_types.red {
        return None;
    }
    let Ok((count, older, texts)) = scan_headers(head.payload, payload_types.t140) else {
        return None;
    };
    view_texts(most, head, count, head.payload, older, texts)
}

/// Looks at a packet of text where it lies: of the stream `ssrc`, where one is named. `None` where the octets are no
/// such packet, its primary text has more than `most` octets, or a text of it is not ASCII: `read_text_within` tells why,
/// and reads other texts too. It takes no memory.
#[inline(always)]
pub fn view_text_within(
    most: usize,
    octets: &[u8],
    ssrc: Option<u32>,
    payload_types: PayloadTypes,
) -> Option<TextView<'_>>
    requires { most ≤ MOST_PRIMARY_OCTETS }
    ensures packet { IfSome result (λ view. text_within most octets.now ssrc payload_types ≡ Ok (packet_in view)) }
    ensures view { IfSome result IsView }
{
    if octets.len() > MOST_PACKET_OCTETS {
        return None;
    }
    let Ok(read) = read_rtp(octets) else {
        return None;
    };
    let Ok(head) = accept(read, ssrc) else {
        return None;
    };
    view_payload(most, &head, payload_types)
}

/// Looks at a packet of text whose primary text is no longer than that of any block.
#[inline(always)]
pub fn view_text(
    octets: &[u8],
    ssrc: Option<u32>,
    payload_types: PayloadTypes,
) -> Option<TextView<'_>>
    ensures packet { IfSome result (λ view. text_of octets.now ssrc payload_types ≡ Ok (packet_in view)) }
    ensures view { IfSome result IsView }
{
    view_text_within(MOST_TEXT_OCTETS, octets, ssrc, payload_types)
}
