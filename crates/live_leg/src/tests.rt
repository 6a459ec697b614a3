use crate::{ItemKind, Leg, LegSettings, LegTally, LinkItem, LinkLeg, LinkStop, PacedLink};
use link_io::{Came, MemIn, PlannedTake};
use receiver::{EarSettings, TextCut};
use rtt_base::{NoMemory, PayloadTypes};
use std::alloc::Global;
use std::sync::atomic::AtomicBool;
use std::sync::{Arc, Wait};
use std::test::Fail;
use workers::{Producer, Reusable};

const EAR: EarSettings = EarSettings {
    ssrc: 1001,
    payload_types: PayloadTypes { t140: 98, red: 100 },
    wait: 1000,
    long: false,
    cut: TextCut::Long,
};

// Ann types A, and then nothing but U+FEFF.
const TYPED: &[u8] = b"\x80\xE2\0\0\0\0\0\0\0\0\x03\xE9A";

const IDLE: &[u8] = b"\x80\x62\0\x01\0\0\x01\x2C\0\0\x03\xE9\xEF\xBB\xBF";

// What comes at Ann's link: the moment (milliseconds), what it is, and the octets of a datagram.
type LinkEvent = (u32, Came, &'static [u8]);

const SHE_TYPES: LinkEvent = (100, Came::Datagram, TYPED);

const SHE_IDLES: LinkEvent = (100, Came::Datagram, IDLE);

const SHE_CLOSES: LinkEvent = (200, Came::Closed, b"");

// Her leg over this link, followed or not, told to stop or not, and an item for what it gives.
fn over(
    alloc: Global,
    link: MemIn,
    follow: bool,
    is_stopped: bool,
) -> Result<(LinkLeg<MemIn>, LinkItem), NoMemory> {
    let settings = LegSettings { ear: EAR, follow };
    let item = LinkItem::blank(alloc)?;
    let Ok(stop) = Arc::new(alloc, AtomicBool::new(is_stopped)) else {
        return Err(NoMemory);
    };
    match Leg::new(alloc, PacedLink::new(link, 100, stop), settings) {
        Ok(leg) => Ok((leg, item)),
        Err(_) => Err(NoMemory),
    }
}

// A link where this comes.
fn linked(alloc: Global, comings: &[LinkEvent]) -> Result<MemIn, NoMemory> {
    let mut link = MemIn::new(alloc, 5001);
    for (at, came, octets) in comings {
        link.plan(PlannedTake::new(alloc, *at, *came, *octets)?)?;
    }
    Ok(link)
}

// Her leg where this comes.
fn ann(
    alloc: Global,
    comings: &[LinkEvent],
    is_stopped: bool,
) -> Result<(LinkLeg<MemIn>, LinkItem), NoMemory> {
    over(alloc, linked(alloc, comings)?, false, is_stopped)
}

// The same, where she is followed.
fn followed(alloc: Global, comings: &[LinkEvent]) -> Result<(LinkLeg<MemIn>, LinkItem), NoMemory> {
    over(alloc, linked(alloc, comings)?, true, false)
}

// What a leg gives next, if it gives something.
fn next<Q, F: Producer<Q>, R: Wait>(rt: &R, leg: &mut F, item: &mut Q) -> bool {
    if leg.is_over() {
        return false;
    }
    leg.next(rt, item)
}

// What it gives next is of this kind.
fn gives<F: Producer<LinkItem>, R: Wait>(
    rt: &R,
    leg: &mut F,
    item: &mut LinkItem,
    kind: ItemKind<LinkStop>,
) -> bool {
    next(rt, leg, item) && item.kind == kind
}

// Whether this is a text of Ann, from this moment on.
fn is_said(item: &LinkItem, text: &[u8], ready: u64) -> bool {
    item.chunk.ready == ready && item.chunk.text.as_slice() == text
}

#[test]
fn what_is_heard_is_given_and_then_the_end(rt: HostRuntime) -> Result<(), Fail> {
    let (mut leg, mut item) = ann(rt.alloc(), &[SHE_TYPES, SHE_CLOSES], false)?;
    assert!(rt; gives(&rt, &mut leg, &mut item, ItemKind::Text));
    assert!(rt; is_said(&item, b"A", 100));
    assert!(rt; gives(&rt, &mut leg, &mut item, ItemKind::Seen));
    assert!(rt; gives(&rt, &mut leg, &mut item, ItemKind::End));
    assert!(rt; leg.is_over());
    Ok(())
}

#[test]
fn a_keep_alive_is_passed_over(rt: HostRuntime) -> Result<(), Fail> {
    let (mut leg, mut item) = ann(rt.alloc(), &[SHE_IDLES], false)?;
    assert!(rt; gives(&rt, &mut leg, &mut item, ItemKind::Seen));
    assert!(rt; gives(&rt, &mut leg, &mut item, ItemKind::Silent));
    Ok(())
}

#[test]
fn a_leg_that_is_told_to_stop_asks_no_more(rt: HostRuntime) -> Result<(), Fail> {
    let (mut leg, mut item) = ann(rt.alloc(), &[SHE_TYPES], true)?;
    assert!(rt; gives(&rt, &mut leg, &mut item, ItemKind::Fault(LinkStop::Told)));
    assert!(rt; leg.is_over());
    let link = leg.into_arrivals().into_link();
    assert_eq!(rt; link.told().len(), 0);
    Ok(())
}

#[test]
fn a_fault_is_the_last(rt: HostRuntime) -> Result<(), Fail> {
    let mut link = MemIn::new(rt.alloc(), 5001);
    link.fail_at(2)?;
    let (mut leg, mut item) = over(rt.alloc(), link, false, false)?;
    assert!(rt; gives(&rt, &mut leg, &mut item, ItemKind::Silent));
    assert!(rt; gives(&rt, &mut leg, &mut item, ItemKind::Fault(LinkStop::Failed)));
    assert!(rt; leg.is_over());
    Ok(())
}

// Whether its link has nothing then, as it says at this moment.
fn is_silent_at<F: Producer<LinkItem>, R: Wait>(
    rt: &R,
    leg: &mut F,
    item: &mut LinkItem,
    at: u64,
) -> bool {
    gives(rt, leg, item, ItemKind::Silent) && item.at == at
}

#[test]
fn a_leg_that_hears_nothing_waits_for_the_next_turn(rt: HostRuntime) -> Result<(), Fail> {
    let (mut leg, mut item) = ann(rt.alloc(), &[(130, Came::Quiet, b"")], false)?;
    assert!(rt; is_silent_at(&rt, &mut leg, &mut item, 130));
    assert!(rt; is_silent_at(&rt, &mut leg, &mut item, 200));
    assert!(rt; is_silent_at(&rt, &mut leg, &mut item, 300));
    Ok(())
}

// Letters of the SSRCs 5 and 6, with their numbers.
const A5: &[u8] = b"\x80\x62\0\0\0\0\0\0\0\0\0\x05A";

const C5: &[u8] = b"\x80\x62\0\x02\0\0\0\x64\0\0\0\x05C";

const B6: &[u8] = b"\x80\x62\0\0\0\0\0\0\0\0\0\x06B";

// What it says next is this text, from this moment on.
fn says<F: Producer<LinkItem>, R: Wait>(
    rt: &R,
    leg: &mut F,
    item: &mut LinkItem,
    text: &[u8],
    ready: u64,
) -> bool {
    gives(rt, leg, item, ItemKind::Text) && is_said(item, text, ready)
}

const MARKER: &[u8] = b"\xEF\xBF\xBD";

#[test]
fn a_terminal_that_begins_anew_is_heard_behind_a_marker(rt: HostRuntime) -> Result<(), Fail> {
    let comings = [(0, Came::Datagram, A5), (5000, Came::Datagram, B6)];
    let (mut leg, mut item) = followed(rt.alloc(), &comings)?;
    assert!(rt; says(&rt, &mut leg, &mut item, b"A", 0));
    assert!(rt; gives(&rt, &mut leg, &mut item, ItemKind::Seen));
    assert!(rt; says(&rt, &mut leg, &mut item, MARKER, 5000));
    assert!(rt; says(&rt, &mut leg, &mut item, b"B", 5000));
    assert!(rt; gives(&rt, &mut leg, &mut item, ItemKind::Seen));
    assert!(rt; gives(&rt, &mut leg, &mut item, ItemKind::Silent));
    Ok(())
}

#[test]
fn one_of_before_comes_back_where_the_sender_was_quiet(rt: HostRuntime) -> Result<(), Fail> {
    let comings = [
        (0, Came::Datagram, A5),
        (500, Came::Datagram, B6),
        (1499, Came::Datagram, C5),
        (1500, Came::Datagram, C5),
    ];
    let (mut leg, mut item) = followed(rt.alloc(), &comings)?;
    assert!(rt; says(&rt, &mut leg, &mut item, b"A", 0));
    assert!(rt; gives(&rt, &mut leg, &mut item, ItemKind::Seen));
    assert!(rt; says(&rt, &mut leg, &mut item, MARKER, 500));
    assert!(rt; says(&rt, &mut leg, &mut item, b"B", 500));
    assert!(rt; gives(&rt, &mut leg, &mut item, ItemKind::Seen));
    assert!(rt; gives(&rt, &mut leg, &mut item, ItemKind::Seen));
    assert!(rt; says(&rt, &mut leg, &mut item, MARKER, 1500));
    assert!(rt; says(&rt, &mut leg, &mut item, b"C", 1500));
    Ok(())
}

#[test]
fn a_hole_of_one_before_is_waited_for_no_longer(rt: HostRuntime) -> Result<(), Fail> {
    let comings = [
        (0, Came::Datagram, A5),
        (100, Came::Datagram, C5),
        (500, Came::Datagram, B6),
    ];
    let (mut leg, mut item) = followed(rt.alloc(), &comings)?;
    assert!(rt; says(&rt, &mut leg, &mut item, b"A", 0));
    assert!(rt; gives(&rt, &mut leg, &mut item, ItemKind::Seen));
    assert!(rt; gives(&rt, &mut leg, &mut item, ItemKind::Seen));
    assert!(rt; says(&rt, &mut leg, &mut item, MARKER, 500));
    assert!(rt; says(&rt, &mut leg, &mut item, b"C", 500));
    assert!(rt; says(&rt, &mut leg, &mut item, MARKER, 500));
    assert!(rt; says(&rt, &mut leg, &mut item, b"B", 500));
    Ok(())
}

#[test]
fn whoever_sends_first_is_heard(rt: HostRuntime) -> Result<(), Fail> {
    let (mut leg, mut item) = followed(rt.alloc(), &[(100, Came::Datagram, A5)])?;
    assert!(rt; says(&rt, &mut leg, &mut item, b"A", 100));
    let (mut other, mut item) = ann(rt.alloc(), &[(100, Came::Datagram, A5)], false)?;
    assert!(rt; gives(&rt, &mut other, &mut item, ItemKind::Seen));
    Ok(())
}

// What is no packet, and what is too large.
const NOISE: &[u8] = b"\0\x01";

const TOO_LARGE: LinkEvent = (200, Came::Large, b"");

// It gives what came, as far as this many items go.
fn gives_all<F: Producer<LinkItem>, R: Wait>(rt: &R, leg: &mut F, item: &mut LinkItem, most: u32) {
    for _ in 0..most {
        let _ = next(rt, leg, item);
    }
}

#[test]
fn a_leg_counts_what_came(rt: HostRuntime) -> Result<(), Fail> {
    let comings = [
        (0, Came::Datagram, A5),
        (100, Came::Datagram, NOISE),
        TOO_LARGE,
        (500, Came::Datagram, B6),
        (600, Came::Datagram, C5),
    ];
    let (mut leg, mut item) = followed(rt.alloc(), &comings)?;
    gives_all(&rt, &mut leg, &mut item, 20);
    let counted = LegTally {
        came: 5,
        text: 2,
        refused: 2,
        foreign: 1,
        senders: 2,
    };
    assert_eq!(rt; leg.tally(), counted);
    Ok(())
}

#[test]
fn a_leg_that_is_not_followed_has_one_sender(rt: HostRuntime) -> Result<(), Fail> {
    let comings = [SHE_TYPES, SHE_IDLES, (150, Came::Datagram, A5)];
    let (mut leg, mut item) = ann(rt.alloc(), &comings, false)?;
    assert_eq!(rt; leg.tally(), LegTally::default());
    gives_all(&rt, &mut leg, &mut item, 20);
    let counted = LegTally {
        came: 3,
        text: 2,
        refused: 0,
        foreign: 1,
        senders: 1,
    };
    assert_eq!(rt; leg.tally(), counted);
    Ok(())
}
