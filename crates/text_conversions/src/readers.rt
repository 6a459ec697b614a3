//! Reading frames from a stream that comes in pieces.
ghost use Rattle.std.specs.Prelude.{◌≡◌, ◌+◌, ◌-◌, ◌<◌, ◌≤◌, [], ◌++◌, length, take, IfOk};
ghost use Rattle.file_spec.specs.declared.frame_limits.TheConstants.{MOST_FRAMES_OCTETS};
ghost use Rattle.rtt_base.specs.declared.limits.TheConstants.{MOST_PACKET_OCTETS, MOST_TEXT_OCTETS};
ghost use Rattle.text_conversions.specs.Fronts.{place_of, IsBegun, needed};

use crate::batches::{FrameBatch, MOST_BATCH_FRAMES};
use crate::fronts::{FramePosition, first_frame};
use file_spec::frame_limits::FRAME_HEAD_OCTETS;
use file_spec::{FrameKind, FrameRefusal};
use rtt_base::Packet;

/// Reads frames from a stream that comes in pieces, which may be cut anywhere. It keeps the octets of one frame. After a fault it
/// reads no further, and answers the same fault.
#[derive(Drop)]
pub struct FrameReader {
    /// Where the frame begins that is not yet whole.
    place: FramePosition,
    /// The octets of it that are there.
    held: Packet,
    fault: Option<FrameRefusal>,
    ghost begun: { IsBegun place held },
    ghost within: { place.byte ≤ MOST_FRAMES_OCTETS },
}

/// How many more octets of a frame, of which these are there, may be taken at once: up to the end of its head, and then up to its
/// own end.
fn missing(held: &[u8]) -> usize
    requires { length held.now ≤ needed held.now }
    ensures { result ≡ needed held.now - length held.now }
{
    if held.len() < FRAME_HEAD_OCTETS {
        return FRAME_HEAD_OCTETS - held.len();
    }
    FRAME_HEAD_OCTETS + usize::from(u16::from_be_bytes([held[4], held[5]])) - held.len()
}

/// Appends what is missing of a frame, or all of this piece, and tells how many octets that were.
fn take_missing(held: &mut Packet, piece: &[u8]) -> usize
    requires few { needed held.old ≤ MOST_PACKET_OCTETS }
    requires missing { length held.old < needed held.old }
    ensures held { held.new ≡ held.old ++ take result piece.now }
    ensures needed { length held.old + result ≤ needed held.old }
    ensures within { result ≤ length piece.now }
    ensures some { 0 < length piece.now → 0 < result }
{
    let taken = missing(held.as_slice()).min(piece.len());
    let _ = held.append(&piece[..taken]);
    taken
}

impl FrameReader {
    ghost use Rattle.std.specs.Prelude.{List, ℕ};
    ghost use Rattle.file_spec.specs.Frames.{read_frames};
    ghost use Rattle.text_conversions.specs.Readers.{Stands, Feeds, Takes, IsOpen, is_fault};

    /// A reader to which nothing came yet.
    pub fn new() -> FrameReader
        ensures { Stands result [] }
    {
        FrameReader {
            place: FramePosition { byte: 0, latest: 0 },
            held: Packet::new(),
            fault: None,
        }
    }

    /// Puts up to 64 frames that end in this piece in place of what is in `out`, and tells how many octets it took: those up to the
    /// end of the 64th frame, or all. At a fault `out` has the frames of this piece before it.
    pub fn feed(&mut self, piece: &[u8], out: &mut FrameBatch) -> Result<usize, FrameRefusal>
        ensures feeds { Feeds self.old self.new piece.now out.new result }
        ensures few { length out.new ≤ MOST_BATCH_FRAMES }
        ensures within { IfOk result (λ taken. taken ≤ length piece.now) }
        ensures whole { IfOk result (λ taken. length out.new < MOST_BATCH_FRAMES → taken ≡ length piece.now) }
    {
        out.clear();
        if let Some(fault) = self.fault {
            return Err(fault);
        }
        let mut taken = 0;
        while taken < piece.len() && out.len() < MOST_BATCH_FRAMES {
            match self.take(&piece[taken..], out) {
                Ok(more) => taken += more,
                Err(fault) => return Err(fault),
            }
        }
        Ok(taken)
    }

    /// Takes octets of this piece up to the end of the head or of the frame that is begun, and appends the frame where it is whole.
    fn take(&mut self, piece: &[u8], out: &mut FrameBatch) -> Result<usize, FrameRefusal>
        requires open { IsOpen self.old }
        requires some { 0 < length piece.now }
        requires room { length out.old < MOST_BATCH_FRAMES }
        ensures takes { Takes self.old self.new piece.now out.old out.new result }
        ensures few { length out.new ≤ MOST_BATCH_FRAMES }
        ensures some { IfOk result (λ taken. 0 < taken) }
        ensures within { IfOk result (λ taken. taken ≤ length piece.now) }
        ensures open { IfOk result (λ taken. IsOpen self.new) }
    {
        let taken = take_missing(&mut self.held, piece);
        match first_frame(self.place, self.held.as_slice()) {
            Ok(Some(view)) => {
                let place = FramePosition {
                    byte: self.place.byte + (FRAME_HEAD_OCTETS + view.text.len()) as u64,
                    latest: view.at,
                };
                out.push_copy(view.at, view.text);
                self.place = place;
                self.held.clear();
                Ok(taken)
            }
            Ok(None) => Ok(taken),
            Err(kind) => {
                let fault = FrameRefusal {
                    offset: self.place.byte,
                    kind,
                };
                self.held.clear();
                self.fault = Some(fault);
                Err(fault)
            }
        }
    }

    /// Tells whether the octets that were taken are whole frames.
    pub fn end(&self) -> Result<(), FrameRefusal>
        ensures { (octets : List ℕ) → Stands self.now octets → is_fault result ≡ (read_frames octets).fault }
    {
        if let Some(fault) = self.fault {
            return Err(fault);
        }
        if self.held.is_empty() {
            return Ok(());
        }
        Err(FrameRefusal {
            offset: self.place.byte,
            kind: FrameKind::EndsInside,
        })
    }
}
