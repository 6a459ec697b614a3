//! One packet: its head, length and padding.
ghost use Rattle.std.specs.Prelude.{◌≡◌, ◌+◌, ◌*◌, ◌≤◌, length, IfOk};
ghost use Rattle.wire_spec.specs.Steps.{Gives};
ghost use Rattle.wire_spec.specs.Rtcp.{unpadded, body_of, body_at};
ghost use Rattle.rtcp_labels.specs.Views.{body_view};

use crate::notes::ReadResult;
use wire_spec::RtcpRefusal;

/// How many octets a head has: version, padding bit and count, the type, and the length in two octets.
const HEAD: usize = 4;

/// A packet without its head and padding.
#[derive(Clone, Copy)]
pub(crate) struct Body<'a> {
    /// How many chunks or sources it counts.
    pub count: u8,
    /// Its type.
    pub kind: u8,
    /// Its octets.
    pub octets: &'a [u8],
    /// What follows the packet.
    pub rest: &'a [u8],
}

/// What stands before the padding, where there is some.
fn before_padding_octets(octets: &[u8], padded: bool) -> ReadResult<&[u8]>
    ensures { Gives (λ body. body.now) result (unpadded padded octets.now) }
{
    if !padded {
        return Ok(octets);
    }
    let count = octets.last().map_or(0, |&last| usize::from(last));
    if count < 1 || octets.len() < count {
        return Err(RtcpRefusal::Padding);
    }
    Ok(&octets[..octets.len() - count])
}

/// The packet whose head began with this octet and this type, from behind the head on, where `size` octets are its own.
fn body_behind(first: u8, kind: u8, size: usize, behind: &[u8]) -> ReadResult<Body<'_>>
    ensures exact { Gives body_view result (body_of first kind size behind.now) }
    ensures shorter { IfOk result (λ body. length body.rest.now ≤ length behind.now) }
{
    if behind.len() < size {
        return Err(RtcpRefusal::Short);
    }
    let (own, rest) = behind.split_at(size);
    let octets = before_padding_octets(own, first / 32 % 2 == 1)?;
    Ok(Body {
        count: first % 32,
        kind,
        octets,
        rest,
    })
}

/// The packet in front.
#[tactic(auto, unfolding(wire_spec::specs::Rtcp::body_at))]
pub(crate) fn front_body(bytes: &[u8]) -> ReadResult<Body<'_>>
    ensures exact { Gives body_view result (body_at bytes.now) }
    ensures shorter { IfOk result (λ body. length body.rest.now + 4 ≤ length bytes.now) }
{
    if bytes.len() < HEAD {
        return Err(RtcpRefusal::Short);
    }
    if bytes[0] >> 6 != 2 {
        return Err(RtcpRefusal::Version);
    }
    let size = 4 * usize::from(u16::from_be_bytes([bytes[2], bytes[3]]));
    body_behind(bytes[0], bytes[1], size, &bytes[HEAD..])
}
