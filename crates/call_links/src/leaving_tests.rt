ghost use Rattle.std.specs.Prelude.{◌≡◌};

use crate::{LeavingLinks, Silence};
use link_io::{Came, FailingLink, LinkIn, Links, MemLinks, PlannedTake};
use rtt_base::{Bytes, NoMemory, Packet};
use std::alloc::Global;
use std::marker::Brand;
use std::test::Fail;

/// A leaving of 1001 with an octet too many.
const BROKEN: Datagram = Octets(b"\x81\xCB\0\x01\0\0\x03\xE9\0");

/// A packet of 1001 with payload type 75 and M bit 1: RTCP by its second octet, and none that can be read.
const UNREAD: Datagram = Octets(b"\x80\xCB\0\x05\0\0\0\x64\0\0\x03\xE9");

/// What comes, of an SSRC.
#[derive(Clone, Copy)]
enum Datagram {
    /// A packet: the text `Hi`.
    Text(u32),
    /// An empty report.
    Report(u32),
    /// A leaving.
    Bye(u32),
    /// A report and a leaving behind it, as terminals send them.
    ReportAndBye(u32),
    /// Any octets.
    Octets(&'static [u8]),
}

use Datagram::{Bye, Octets, Report, ReportAndBye, Text};

/// Datagrams that come one after the other, and how many of them are told before the link is closed.
#[derive(Clone, Copy)]
struct Story(&'static [Datagram], usize);

/// The own BYE, alone, closes for good.
const LEAVES: Story = Story(&[Text(1001), Bye(1001), Text(1001), Report(1001)], 1);

/// Behind a report it does too.
const REPORTS_AND_LEAVES: Story = Story(&[Text(1001), Report(1001), ReportAndBye(1001)], 2);

/// Nobody else closes the link, once the peer has sent text, nor does what can't be read.
const GOES_ON: Story = Story(
    &[
        Octets(b""),
        Report(1001),
        BROKEN,
        UNREAD,
        Text(1001),
        Bye(1002),
        BROKEN,
        UNREAD,
    ],
    8,
);

/// Before text of the peer, any BYE does.
const NEVER_SPOKE: Story = Story(&[Report(1001), Bye(1002), Text(1001)], 1);

/// The last SSRC counts.
const ANOTHER_STREAM: Story = Story(&[Text(1001), Text(1002), Bye(1001), Bye(1002)], 3);

fn append_head(octets: &mut Bytes, head: &[u8], ssrc: u32) -> Result<(), NoMemory> {
    octets.append(head)?;
    octets.append(&ssrc.to_be_bytes())
}

fn append_datagram(octets: &mut Bytes, datagram: Datagram) -> Result<(), NoMemory> {
    match datagram {
        Text(ssrc) => {
            append_head(octets, b"\x80\xE2\0\x05\0\0\0\x64", ssrc)?;
            octets.append(b"Hi")
        }
        Report(ssrc) => append_head(octets, b"\x80\xC9\0\x01", ssrc),
        Bye(ssrc) => append_head(octets, b"\x81\xCB\0\x01", ssrc),
        ReportAndBye(ssrc) => {
            append_head(octets, b"\x80\xC9\0\x01", ssrc)?;
            append_head(octets, b"\x81\xCB\0\x01", ssrc)
        }
        Octets(all) => octets.append(all),
    }
}

// Plans that these come, one after the other.
fn plan_all(links: &mut MemLinks, alloc: Global, datagrams: &[Datagram]) -> Result<(), NoMemory> {
    for datagram in datagrams {
        let mut octets = Bytes::new(alloc);
        append_datagram(&mut octets, *datagram)?;
        let planned = PlannedTake {
            at: 100,
            came: Came::Datagram,
            octets,
        };
        links.plan(5001, planned)?;
    }
    Ok(())
}

// Whether the next take tells this, at the moment of all cases.
fn tells<L: LinkIn>(link: &mut L, came: Came) -> bool {
    let mut out = Packet::new();
    match link.take(&mut out, 0) {
        Ok(taken) => taken.at == 100 && taken.came == came,
        Err(_) => false,
    }
}

// Whether so many takes tell this.
fn tells_often<L: LinkIn>(link: &mut L, count: usize, came: Came) -> bool {
    for _ in 0..count {
        if !tells(link, came) {
            return false;
        }
    }
    true
}

// Whether a story is told as it is to be, by a link on which it comes.
fn is_told(alloc: Global, story: Story) -> Result<bool, NoMemory> {
    let Story(datagrams, open) = story;
    let mut below = MemLinks::new(alloc);
    plan_all(&mut below, alloc, datagrams)?;
    let mut links: LeavingLinks<MemLinks, Brand> = LeavingLinks::new(below, None);
    let Ok((mut inbound, outbound)) = links.link(5001, "127.0.0.1:6001") else {
        return Ok(false);
    };
    let closed = datagrams.len().saturating_sub(open);
    let right = tells_often(&mut inbound, open, Came::Datagram)
        && tells_often(&mut inbound, closed, Came::Closed);
    links.done_in(inbound);
    links.done_out(outbound);
    let kept = links.into_links().taken(5001).len();
    Ok(right && kept == datagrams.len())
}

#[test]
fn who_leaves_closes_the_link_for_good(rt: HostRuntime) -> Result<(), Fail> {
    assert!(rt; is_told(rt.alloc(), LEAVES)?);
    assert!(rt; is_told(rt.alloc(), REPORTS_AND_LEAVES)?);
    assert!(rt; is_told(rt.alloc(), NEVER_SPOKE)?);
    Ok(())
}

#[test]
fn what_is_no_leaving_of_the_peer_closes_nothing(rt: HostRuntime) -> Result<(), Fail> {
    assert!(rt; is_told(rt.alloc(), GOES_ON)?);
    assert!(rt; is_told(rt.alloc(), ANOTHER_STREAM)?);
    Ok(())
}

#[test]
fn faults_are_those_of_the_link_below(rt: HostRuntime) -> Result<(), Fail> {
    let mut below = MemLinks::new(rt.alloc());
    plan_all(&mut below, rt.alloc(), LEAVES.0)?;
    below.fail(FailingLink::Link(5002))?;
    below.fail(FailingLink::Take(5001, 2))?;
    let mut links: LeavingLinks<MemLinks, Brand> = LeavingLinks::new(below, None);
    assert!(rt; links.link(5002, "127.0.0.1:6002").is_err());
    let (mut inbound, outbound) = links.link(5001, "127.0.0.1:6001")?;
    assert!(rt; tells(&mut inbound, Came::Datagram));
    assert!(rt; !tells(&mut inbound, Came::Closed));
    assert!(rt; tells_often(&mut inbound, 3, Came::Closed));
    links.done_in(inbound);
    links.done_out(outbound);
    Ok(())
}

/// What one take gives at a moment, and what is told of it.
#[derive(Clone, Copy)]
struct Moment(u32, Came, Came);

/// Who was silent for 100 ms has gone: counted from the first take, and from each datagram; it comes not back.
const GOES_SILENTLY: &[Moment] = &[
    Moment(1000, Came::Quiet, Came::Quiet),
    Moment(1099, Came::Quiet, Came::Quiet),
    Moment(1099, Came::Large, Came::Large),
    Moment(1198, Came::Quiet, Came::Quiet),
    Moment(1199, Came::Quiet, Came::Closed),
    Moment(1200, Came::Large, Came::Closed),
];

/// A datagram keeps who sends it, however late it is.
const COMES_LATE: &[Moment] = &[
    Moment(5000, Came::Large, Came::Large),
    Moment(9000, Came::Large, Came::Large),
    Moment(9099, Came::Quiet, Came::Quiet),
    Moment(9100, Came::Quiet, Came::Closed),
];

// Whether moments are told as they are to be, where a peer may be silent so long.
fn is_told_by<S: Silence + Send>(
    alloc: Global,
    longest: Option<u32>,
    moments: &[Moment],
) -> Result<bool, NoMemory>
    requires { longest ≡ S.longest }
{
    let mut below = MemLinks::new(alloc);
    for Moment(at, came, _) in moments {
        below.plan(5001, PlannedTake::new(alloc, *at, *came, b"")?)?;
    }
    let mut links: LeavingLinks<MemLinks, S> = LeavingLinks::new(below, longest);
    let Ok((mut inbound, outbound)) = links.link(5001, "127.0.0.1:6001") else {
        return Ok(false);
    };
    let mut right = true;
    let mut out = Packet::new();
    for Moment(at, _, told) in moments {
        right = right
            && match inbound.take(&mut out, 0) {
                Ok(taken) => taken.at == u64::from(*at) && taken.came == *told,
                Err(_) => false,
            };
    }
    links.done_in(inbound);
    links.done_out(outbound);
    Ok(right)
}

fn is_told_at(alloc: Global, longest: Option<u32>, moments: &[Moment]) -> Result<bool, NoMemory> {
    is_told_by::<Brand>(alloc, longest, moments)
}

#[test]
fn who_is_silent_too_long_has_gone(rt: HostRuntime) -> Result<(), Fail> {
    assert!(rt; is_told_at(rt.alloc(), Some(100), GOES_SILENTLY)?);
    assert!(rt; is_told_at(rt.alloc(), Some(100), COMES_LATE)?);
    assert!(rt; !is_told_at(rt.alloc(), Some(101), GOES_SILENTLY)?);
    assert!(rt; !is_told_at(rt.alloc(), None, GOES_SILENTLY)?);
    Ok(())
}
