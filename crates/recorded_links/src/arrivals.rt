//! Whether what comes may bring text that was not there before.
ghost use Rattle.std.specs.Prelude.{◌≡◌, true, false, IfSome};
ghost use Rattle.recorded_links.specs.Arrivals.{HasShape, IsRepeat};

use crate::octets::is_rtcp;
use receiver::is_blank;
use rtp_text::{read_rtp, read_text, view_text};
use rtt_base::{PayloadTypes, TextPacket};

/// More packets of a run are not counted: no packet has more redundant blocks.
const MOST_COUNTED: usize = 8;

/// Packets of text of one sender that came one behind the other, with one number behind the other.
#[derive(Clone, Copy, Debug)]
pub(crate) struct PacketRun {
    payload_types: PayloadTypes,
    ssrc: u32,
    /// The number behind that of the last one.
    next: u16,
    /// How many there are.
    count: usize,
}

/// What a run is asked of a packet of text.
#[derive(Clone, Copy, Debug)]
pub(crate) struct PacketShape {
    pub(crate) ssrc: u32,
    pub(crate) seq: u16,
    /// How many redundant blocks it has.
    pub(crate) blocks: usize,
    /// It has no text of its own, or one that only keeps the line alive.
    pub(crate) is_blank: bool,
}

/// Whether octets are a packet of one of these types, whatever its texts are.
fn is_of_types(octets: &[u8], payload_types: PayloadTypes) -> bool {
    match read_rtp(octets) {
        Ok(head) => head.pt == payload_types.t140 || head.pt == payload_types.red,
        Err(_) => false,
    }
}

/// What a packet of text is, where octets are one.
fn shape_by_copy(octets: &[u8], payload_types: PayloadTypes) -> Option<PacketShape>
    ensures { IfSome result (HasShape octets.now payload_types) }
{
    if !is_of_types(octets, payload_types) {
        return None;
    }
    copied_shape(octets, payload_types)
}

/// The same of octets that have one of these types. They are copied.
#[inline(never)]
fn copied_shape(octets: &[u8], payload_types: PayloadTypes) -> Option<PacketShape>
    ensures { IfSome result (HasShape octets.now payload_types) }
{
    let mut packet = TextPacket::default();
    let Ok(()) = read_text(octets, None, payload_types, &mut packet) else {
        return None;
    };
    Some(PacketShape {
        ssrc: packet.ssrc,
        seq: packet.seq,
        blocks: packet.older.len(),
        is_blank: is_blank(packet.primary.as_slice()),
    })
}

/// What a packet of text is, where octets are one. One whose texts are ASCII is looked at where it lies.
fn shape_of(octets: &[u8], payload_types: PayloadTypes) -> Option<PacketShape>
    ensures { IfSome result (HasShape octets.now payload_types) }
{
    match view_text(octets, None, payload_types) {
        Some(view) => Some(PacketShape {
            ssrc: view.ssrc,
            seq: view.seq,
            blocks: view.count,
            is_blank: is_blank(view.primary),
        }),
        None => shape_by_copy(octets, payload_types),
    }
}

impl PacketRun {
    /// No packet came yet.
    pub(crate) fn new(payload_types: PayloadTypes) -> PacketRun {
        PacketRun {
            payload_types,
            ssrc: 0,
            next: 0,
            count: 0,
        }
    }

    // Whether a packet comes behind all of these.
    fn goes_on(self, shape: PacketShape) -> bool
        ensures { result ≡ true → (shape.ssrc ≡ self.ssrc) × (shape.seq ≡ self.next) }
    {
        shape.ssrc == self.ssrc && shape.seq == self.next
    }

    // The packets up to this one.
    fn after(self, shape: PacketShape) -> PacketRun {
        let count = if self.goes_on(shape) { self.count } else { 0 };
        PacketRun {
            payload_types: self.payload_types,
            ssrc: shape.ssrc,
            next: shape.seq.wrapping_add(1),
            count: count.saturating_add(1).min(MOST_COUNTED),
        }
    }

    /// Whether octets that come next may bring text that was not there before. All may but a packet that has none of its own, or only
    /// keeps the line alive, and whose redundant texts are those of packets of the run.
    pub(crate) fn hear(&mut self, octets: &[u8]) -> bool
        ensures { result ≡ false → IsRepeat self.old octets.now }
    {
        let run = *self;
        if is_rtcp(octets) {
            return true;
        }
        let Some(shape) = shape_of(octets, run.payload_types) else {
            self.count = 0;
            return true;
        };
        *self = run.after(shape);
        !(shape.is_blank && run.goes_on(shape) && shape.blocks <= run.count)
    }
}
