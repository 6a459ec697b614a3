//! The frame in front of octets.
ghost use Rattle.std.specs.Prelude.{◌≡◌, ◌≢◌, ◌≤◌, length, IfSome};
ghost use Rattle.std.specs.Str.{is_utf8};
ghost use Rattle.file_spec.specs.Frames.{length_of, time_of, head_fault};
ghost use Rattle.file_spec.specs.declared.frame_kinds.FrameKind.TheVariants.{EndsInside};
ghost use Rattle.text_conversions.specs.Fronts.{IsFront, place_of};

use file_spec::FrameKind;
use file_spec::frame_limits::{END_OF_FRAME_MOMENTS, FRAME_HEAD_OCTETS, MOST_FRAMES_OCTETS};
use rtt_base::limits::MOST_TEXT_OCTETS;
use simdutf8::basic::from_utf8;

/// Where a frame begins.
#[derive(Clone, Copy, Debug)]
pub struct FramePosition {
    /// How many octets stand in front of it.
    pub byte: u64,
    /// The moment of the frame in front of it, in milliseconds; 0 for the first.
    pub latest: u32,
}

/// A frame whose text lies among the octets that it was read from.
#[derive(Clone, Copy, Debug)]
pub struct FrameView<'a> {
    /// In milliseconds.
    pub at: u32,
    pub text: &'a [u8],
}

/// The time and the length of the text that stand in front of these octets.
fn head_of(octets: &[u8]) -> (u32, u16)
    requires { FRAME_HEAD_OCTETS ≤ length octets.now }
    ensures time { result.0 ≡ time_of octets.now }
    ensures length { result.1 ≡ length_of octets.now }
{
    let at = u32::from_be_bytes([octets[0], octets[1], octets[2], octets[3]]);
    let size = u16::from_be_bytes([octets[4], octets[5]]);
    (at, size)
}

/// The first test that the head of a frame fails.
fn fault_of_head(place: FramePosition, at: u32, size: u16) -> Option<FrameKind>
    requires { place.byte ≤ MOST_FRAMES_OCTETS }
    ensures value { result ≡ head_fault (place_of place) at size }
    ensures lasts { IfSome result (λ kind. kind ≢ EndsInside) }
{
    let size = u64::from(size);
    if at < place.latest || at >= END_OF_FRAME_MOMENTS {
        Some(FrameKind::Time)
    } else if size == 0 || size > MOST_TEXT_OCTETS as u64 {
        Some(FrameKind::Length)
    } else if place.byte + (FRAME_HEAD_OCTETS as u64 + size) > MOST_FRAMES_OCTETS {
        Some(FrameKind::TooLarge)
    } else {
        None
    }
}

fn is_text(octets: &[u8]) -> bool
    ensures { result ≡ is_utf8 octets.now }
{
    match from_utf8(octets) {
        Ok(_) => true,
        Err(_) => false,
    }
}

/// The frame in front of these octets, which begin at `place`, or the first test that it fails; none where it is not there to its
/// end.
pub fn first_frame(place: FramePosition, octets: &[u8]) -> Result<Option<FrameView<'_>>, FrameKind>
    requires { place.byte ≤ MOST_FRAMES_OCTETS }
    ensures { IsFront (place_of place) octets.now result }
{
    if octets.len() < FRAME_HEAD_OCTETS {
        return Ok(None);
    }
    let (at, size) = head_of(octets);
    if let Some(kind) = fault_of_head(place, at, size) {
        return Err(kind);
    }
    let behind = &octets[FRAME_HEAD_OCTETS..];
    let size = usize::from(size);
    if behind.len() < size {
        return Ok(None);
    }
    let text = &behind[..size];
    if !is_text(text) {
        return Err(FrameKind::NotText);
    }
    Ok(Some(FrameView { at, text }))
}
