//! Writing the blocks of a payload, and whole packets of text.
ghost use Rattle.std.specs.Prelude.{ℕ, List, Some, ◌≡◌, ◌*◌, ◌^◌, ◌≤◌, ◌<◌, ◌++◌, ◌∷◌, [], length, map, slice_get, All};
ghost use Rattle.std.specs.List.{flat_map};
ghost use Rattle.rtt_base.specs.declared.blocks.TextBlock.{TextBlock};
ghost use Rattle.rtt_base.specs.Buffers.{Appends};
ghost use Rattle.wire_spec.specs.Red.{red_header, red_spelling, red_written};
ghost use Rattle.wire_spec.specs.SentPackets.{payload_sent, head_of, packet_written};
ghost use Rattle.rtp_text.specs.Headers.{spelled};
ghost use Rattle.wire_spec.specs.Packets.{redundant};
ghost use Rattle.rtp_text.specs.Writing.{HasOffset, clamped, seen, text_octets, packet_with};

use crate::{RtpHead, write_header};
use byteorder::{BigEndian, ByteOrder};
use rtt_base::limits::MOST_OFFSET;
use rtt_base::{Blocks, OctetBuffer, PayloadTypes};

/// F, the bit of a header's first octet that tells a redundant header from the last.
const F: u8 = 128;

/// A redundant block where it is kept: how far it lies before its packet, below 2^14 ticks of 1 ms, and its text, of at
/// most 1023 octets.
#[derive(Clone, Copy, Debug)]
pub struct BlockView<'a> {
    pub offset: u16,
    pub text: &'a [u8],
}

/// The redundant blocks of a packet, wherever they are kept.
pub trait OlderBlocks {
    // the blocks of a packet with this timestamp, oldest first
    ghost blocks: { Self → ℕ → List TextBlock };

    /// How many there are.
    fn len(&self) -> usize
        ensures { (timestamp : ℕ) → result ≡ length (blocks self.now timestamp) };

    /// The block at this place, counted from the oldest, in a packet with this timestamp.
    fn block(&self, place: usize, timestamp: u32) -> BlockView<'_>
        requires { place < length (blocks self.now timestamp) }
        ensures block { slice_get (blocks self.now timestamp) place ≡ Some (seen result) }
        ensures offset { result.offset < 2 ^ 14 }
        ensures text { length result.text.now < 2 ^ 10 };
}

impl OlderBlocks for Blocks {
    // all but the last, with offsets that fit in 14 bits
    ghost blocks = { λ all timestamp. map clamped (redundant all) };

    fn len(&self) -> usize {
        self.len().saturating_sub(1)
    }

    fn block(&self, place: usize, _timestamp: u32) -> BlockView<'_> {
        let block = &self.as_slice()[place];
        BlockView {
            offset: block.offset.min(MOST_OFFSET),
            text: block.text.as_slice(),
        }
    }
}

/// What a packet of text says beside its blocks.
#[derive(Clone, Copy, Debug)]
pub struct TextHead {
    /// The M bit.
    pub marker_bit: bool,
    /// The sequence number.
    pub seq: u16,
    /// The timestamp, in ticks of 1 ms.
    pub timestamp: u32,
    /// The SSRC of the stream.
    pub ssrc: u32,
    /// Whose text it is: it is named by a CSRC where it is not the SSRC (RFC 9071).
    pub source: u32,
}

/// The header of a redundant block (RFC 2198, section 3).
fn header_octets(block: &BlockView<'_>, t140: u8) -> [u8; 4]
    requires offset { block.now.offset < 2 ^ 14 }
    requires text { length block.now.text.now < 2 ^ 10 }
    requires t140 { t140 < 2 ^ 7 }
    ensures { result ≡ red_header t140 (seen block.now) }
{
    let mut octets = [0; 4];
    octets[0] = F + t140;
    let size = block.text.len() as u32;
    BigEndian::write_u24(&mut octets[1..], 1024 * u32::from(block.offset) + size);
    octets
}

/// Appends the headers of redundant blocks, and the last header.
fn write_headers<O: OctetBuffer, B: OlderBlocks>(
    older: &B,
    timestamp: u32,
    t140: u8,
    out: &mut O,
) -> Result<(), O::Refusal>
    requires { t140 < 2 ^ 7 }
    ensures { Appends O.greatest (O.written out.old) (O.written out.new) (flat_map (red_header t140) (B.blocks older.now timestamp) ++ t140 ∷ []) result }
{
    let before = out.len();
    for place in 0..older.len() {
        let header = header_octets(&older.block(place, timestamp), t140);
        let appended = out.append(&header);
        if appended.is_err() {
            out.truncate(before);
            return appended;
        }
    }
    let last = out.append(&[t140]);
    if last.is_err() {
        out.truncate(before);
    }
    last
}

/// Appends the texts of redundant blocks, and then the primary text.
fn write_texts<O: OctetBuffer, B: OlderBlocks>(
    older: &B,
    timestamp: u32,
    text: &[u8],
    out: &mut O,
) -> Result<(), O::Refusal>
    ensures { Appends O.greatest (O.written out.old) (O.written out.new) (text_octets (B.blocks older.now timestamp) ++ text.now) result }
{
    let before = out.len();
    for place in 0..older.len() {
        let block = older.block(place, timestamp);
        let appended = out.append(block.text);
        if appended.is_err() {
            out.truncate(before);
            return appended;
        }
    }
    let last = out.append(text);
    if last.is_err() {
        out.truncate(before);
    }
    last
}

/// Appends a payload in red form.
fn write_red<O: OctetBuffer, B: OlderBlocks>(
    older: &B,
    timestamp: u32,
    text: &[u8],
    t140: u8,
    out: &mut O,
) -> Result<(), O::Refusal>
    requires { t140 < 2 ^ 7 }
    ensures { Appends O.greatest (O.written out.old) (O.written out.new) (red_spelling t140 (B.blocks older.now timestamp) text.now) result }
{
    let before = out.len();
    let headed = write_headers(older, timestamp, t140, out);
    if headed.is_err() {
        return headed;
    }
    let written = write_texts(older, timestamp, text, out);
    if written.is_err() {
        out.truncate(before);
    }
    written
}

/// Appends the red form of blocks, of which the last is the primary one.
pub fn write_blocks<O: OctetBuffer>(
    blocks: &Blocks,
    payload_types: PayloadTypes,
    out: &mut O,
) -> Result<(), O::Refusal>
    requires some { 0 < length blocks.now }
    requires offsets { All HasOffset blocks.now }
    requires t140 { payload_types.t140 < 2 ^ 7 }
    ensures { Appends O.greatest (O.written out.old) (O.written out.new) (red_written blocks.now payload_types) result }
{
    let all = blocks.as_slice();
    let primary = &all[all.len() - 1];
    write_red(blocks, 0, primary.text.as_slice(), payload_types.t140, out)
}

/// Appends a payload: in red form where there is a redundant block, else in plain form.
fn write_payload<O: OctetBuffer, B: OlderBlocks>(
    older: &B,
    timestamp: u32,
    text: &[u8],
    payload_types: PayloadTypes,
    out: &mut O,
) -> Result<(), O::Refusal>
    requires { payload_types.t140 < 2 ^ 7 }
    ensures { Appends O.greatest (O.written out.old) (O.written out.new) (payload_sent payload_types (B.blocks older.now timestamp) text.now) result }
{
    if older.len() > 0 {
        write_red(older, timestamp, text, payload_types.t140, out)
    } else {
        out.append(text)
    }
}

/// The header of a packet of text.
fn rtp_head<B: OlderBlocks>(head: &TextHead, older: &B, payload_types: PayloadTypes) -> RtpHead
    requires t140 { payload_types.t140 < 2 ^ 7 }
    requires red { payload_types.red < 2 ^ 7 }
    ensures value { (text : List ℕ) → spelled result ≡ head_of payload_types (packet_with head.now (B.blocks older.now head.now.timestamp) text) }
    ensures fits { result.pt < 2 ^ 7 }
{
    let pt = if older.len() == 0 {
        payload_types.t140
    } else {
        payload_types.red
    };
    let csrc = if head.source == head.ssrc {
        None
    } else {
        Some(head.source)
    };
    RtpHead {
        marker_bit: head.marker_bit,
        pt,
        seq: head.seq,
        timestamp: head.timestamp,
        ssrc: head.ssrc,
        csrc,
    }
}

/// Appends a packet of text, of the payload type `payload_types.red` where there is a redundant block, else of
/// `payload_types.t140`. Where the buffer refuses it, nothing is appended.
pub fn write_text<O: OctetBuffer, B: OlderBlocks>(
    head: &TextHead,
    older: &B,
    text: &[u8],
    payload_types: PayloadTypes,
    out: &mut O,
) -> Result<(), O::Refusal>
    requires t140 { payload_types.t140 < 2 ^ 7 }
    requires red { payload_types.red < 2 ^ 7 }
    ensures { Appends O.greatest (O.written out.old) (O.written out.new)
        (packet_written payload_types
        (packet_with head.now (B.blocks older.now head.now.timestamp) text.now)) result }
{
    let before = out.len();
    let rtp = rtp_head(head, older, payload_types);
    let headed = write_header(&rtp, out);
    if headed.is_err() {
        return headed;
    }
    let written = write_payload(older, head.timestamp, text, payload_types, out);
    if written.is_err() {
        out.truncate(before);
    }
    written
}
