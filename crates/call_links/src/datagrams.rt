//! What a datagram of a peer says of it: RTP and RTCP come at one port.
ghost use Rattle.std.specs.Prelude.{◌≡◌};
ghost use Rattle.std.specs.List.{list_any};
ghost use Rattle.wire_spec.specs.Rtcp.{rtcp};
ghost use Rattle.command_spec.specs.Streams as streams;
ghost use Rattle.call_links.specs.Leaving as leaving;

use rtcp_labels::read_rtcp;
use rtp_text::read_rtp;
use wire_spec::{Event, Events};

/// Whether a datagram is RTCP, by its second octet (RFC 5761, section 4).
fn is_rtcp(octets: &[u8]) -> bool
    ensures { result ≡ streams.is_rtcp octets.now }
{
    octets
        .get(1)
        .is_some_and(|&kind| (192..=223).contains(&kind))
}

/// The SSRC of the last RTP packet, this datagram counted.
pub(crate) fn ssrc_after(last: Option<u32>, octets: &[u8]) -> Option<u32>
    ensures { result ≡ leaving.ssrc_after last octets.now }
{
    if is_rtcp(octets) {
        return last;
    }
    match read_rtp(octets) {
        Ok(view) => Some(view.ssrc),
        Err(_) => last,
    }
}

/// Whether this is the leaving of a peer whose last RTP packet had this SSRC; of whomever, where none came (RFC 3550, section 6.6).
fn is_leaving(event: &Event, last: Option<u32>) -> bool
    ensures { result ≡ leaving.is_leaving last event.now }
{
    match event {
        Event::Name { .. } => false,
        Event::Bye { ssrc } => last.is_none_or(|own| *ssrc == own),
    }
}

/// Whether one of the events is the leaving of the peer.
fn has_leaving(events: &[Event], last: Option<u32>) -> bool
    ensures { result ≡ list_any (leaving.is_leaving last) events.now }
{
    events.iter().any(|event| is_leaving(event, last))
}

/// Whether a datagram says that the peer leaves. What is no RTCP that can be read says nothing.
pub(crate) fn says_bye(last: Option<u32>, octets: &[u8]) -> bool
    ensures { result ≡ leaving.says_bye last octets.now }
{
    is_rtcp(octets) && tells_leaving(last, octets)
}

// Apart from the rest, since it has room for 64 events.
#[inline(never)]
fn tells_leaving(last: Option<u32>, octets: &[u8]) -> bool
    ensures { result ≡ leaving.has_leaving last (rtcp octets.now) }
{
    let mut events = Events::new();
    match read_rtcp(octets, &mut events) {
        Ok(()) => has_leaving(events.as_slice(), last),
        Err(_) => false,
    }
}
