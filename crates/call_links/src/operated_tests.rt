use crate::requests::{Request, request_of};
use crate::{Desk, OperatedLinks, Operator, OperatorPort};
use conf_text::{Form, read_conf};
use link_io::{Came, LinkIn, Links, MemLinks, PlannedTake};
use rtt_base::{Bytes, NoMemory, Packet};
use std::alloc::Global;
use std::test::Fail;

/// Ann and Bob, and an operator.
const CONFERENCE: &[u8] =
    b"mixer 9000 0 0\nleg Ann aware 1001 5001 127.0.0.1:6001\nleg Bob aware 1002 5002 127.0.0.1:6002\nturns 600\noperator 7001 Sesame42\n";

/// The same, where Bob's leg is followed.
const FOLLOWED: &[u8] =
    b"mixer 9000 0 0\nleg Ann aware 1001 5001 127.0.0.1:6001\nleg Bob aware 1002 5002 127.0.0.1:6002\nturns 600\noperator 7001 Sesame42\nfollow Bob\n";

/// A packet of text of SSRC 1001.
const TEXT: &[u8] = b"\x80\xE2\0\x05\0\0\0\x64\0\0\x03\xE9Hi";

/// An empty report of SSRC 1001.
const REPORT: &[u8] = b"\x80\xC9\0\x01\0\0\x03\xE9";

/// What comes at a port before the first turn, and before the second.
#[derive(Clone, Copy)]
struct AskedOctets(&'static [&'static [u8]], &'static [&'static [u8]]);

/// A port in memory.
#[derive(Drop)]
struct MemPort {
    alloc: Global,
    asked: AskedOctets,
    used: usize,
    turned: bool,
    answers: Vec<Bytes>,
}

impl MemPort {
    fn new(alloc: Global, asked: AskedOctets) -> MemPort {
        MemPort {
            alloc,
            asked,
            used: 0,
            turned: false,
            answers: Vec::new(alloc),
        }
    }

    fn next(&mut self) -> Option<&'static [u8]> {
        let coming = if self.turned {
            self.asked.1
        } else {
            self.asked.0
        };
        match coming.get(self.used) {
            Some(octets) => {
                self.used = self.used.saturating_add(1);
                Some(*octets)
            }
            None => {
                self.used = 0;
                self.turned = true;
                None
            }
        }
    }
}

impl OperatorPort for MemPort {
    fn receive(&mut self, room: &mut [u8]) -> Option<usize> {
        let octets = self.next()?;
        let count = octets.len().min(room.len());
        room[..count].copy_from_slice(&octets[..count]);
        Some(count)
    }

    fn answer(&mut self, octets: &[u8]) {
        let mut answer = Bytes::new(self.alloc);
        if answer.append(octets).is_ok() {
            let _kept = self.answers.push(answer);
        }
    }
}

/// The operator of a conference.
fn operator(
    alloc: Global,
    conference: &[u8],
    asked: AskedOctets,
) -> Result<Operator<MemPort>, NoMemory> {
    let Ok(conference) = read_conf(alloc, conference, Form::Links) else {
        return Err(NoMemory);
    };
    let desk = Desk::new(alloc, conference, MemPort::new(alloc, asked))?;
    Ok(Operator::At(desk))
}

/// Links at which this comes: of Ann a text and a report, of Bob a text of hers and a datagram that is too long.
fn links(
    alloc: Global,
    conference: &[u8],
    asked: AskedOctets,
) -> Result<OperatedLinks<MemLinks, MemPort>, NoMemory> {
    let mut below = MemLinks::new(alloc);
    below.plan(5001, PlannedTake::new(alloc, 100, Came::Datagram, TEXT)?)?;
    below.plan(5001, PlannedTake::new(alloc, 250, Came::Datagram, REPORT)?)?;
    below.plan(5002, PlannedTake::new(alloc, 200, Came::Datagram, TEXT)?)?;
    below.plan(5002, PlannedTake::new(alloc, 300, Came::Large, b"")?)?;
    Ok(OperatedLinks::new(below, operator(alloc, conference, asked)?))
}

/// Whether so many takes tell this.
fn tells<L: LinkIn>(link: &mut L, count: usize, came: Came) -> bool {
    let mut out = Packet::new();
    for _ in 0..count {
        match link.take(&mut out, 0) {
            Ok(taken) if taken.came == came => {}
            _ => return false,
        }
    }
    true
}

/// Whether this alone was answered.
fn answered<L: Links>(links: &OperatedLinks<L, MemPort>, answer: &[u8]) -> bool {
    match &links.operator {
        Operator::At(desk) => match desk.port.answers.as_slice() {
            [only] => only.as_slice() == answer,
            _ => false,
        },
        _ => false,
    }
}

#[test]
fn only_the_word_and_what_is_asked_are_a_request(rt: HostRuntime) -> Result<(), Fail> {
    assert!(rt; request_of(b"Sesame42", b"Sesame42 stop") == Some(Request::Stop));
    assert!(rt; request_of(b"Sesame42", b"Sesame42 state") == Some(Request::State));
    assert!(rt; request_of(b"Sesame42", b"Sesame43 stop").is_none());
    assert!(rt; request_of(b"Sesame42", b"resame42 stop").is_none());
    assert!(rt; request_of(b"Sesame42", b"Sesame42").is_none());
    assert!(rt; request_of(b"Sesame42", b"Sesame42 ").is_none());
    assert!(rt; request_of(b"Sesame42", b"Sesame42-stop").is_none());
    assert!(rt; request_of(b"Sesame42", b"Sesame42 stop\n").is_none());
    assert!(rt; request_of(b"Sesame42", b"Sesame4 stop").is_none());
    assert!(rt; request_of(b"Sesame42", b"").is_none());
    Ok(())
}

/// What an operator of this conference is told at the second turn.
fn told(alloc: Global, conference: &[u8], answer: &[u8]) -> Result<bool, NoMemory> {
    let asked = AskedOctets(&[b"Sesame43 state", b"state"], &[b"Sesame42 state"]);
    let mut links = links(alloc, conference, asked)?;
    let Ok((mut ann, ann_out)) = links.link(5001, "127.0.0.1:6001") else {
        return Ok(false);
    };
    let Ok((mut bob, bob_out)) = links.link(5002, "127.0.0.1:6002") else {
        links.done_in(ann);
        links.done_out(ann_out);
        return Ok(false);
    };
    let came = tells(&mut ann, 2, Came::Datagram)
        && tells(&mut bob, 1, Came::Datagram)
        && tells(&mut bob, 1, Came::Large);
    links.pause_until(1000);
    links.pause_until(1100);
    let is_told = came && answered(&links, answer);
    links.done_in(ann);
    links.done_in(bob);
    links.done_out(ann_out);
    links.done_out(bob_out);
    Ok(is_told)
}

#[test]
fn an_operator_is_told_how_the_call_stands(rt: HostRuntime) -> Result<(), Fail> {
    let answer: &[u8] =
        b"turn 2 of 600\nAnn datagrams 2 text 1 last 750 here\nBob datagrams 2 text 0 last 700 here\n";
    assert!(rt; told(rt.alloc(), CONFERENCE, answer)?);
    Ok(())
}

#[test]
fn of_a_leg_that_is_followed_each_text_counts(rt: HostRuntime) -> Result<(), Fail> {
    let answer: &[u8] =
        b"turn 2 of 600\nAnn datagrams 2 text 1 last 750 here\nBob datagrams 2 text 1 last 700 here\n";
    assert!(rt; told(rt.alloc(), FOLLOWED, answer)?);
    Ok(())
}

#[test]
fn a_call_that_is_stopped_is_heard_to_its_end(rt: HostRuntime) -> Result<(), Fail> {
    let asked = AskedOctets(&[b"Sesame42 stop"], &[b"Sesame42 state"]);
    let mut links = links(rt.alloc(), CONFERENCE, asked)?;
    let (mut ann, ann_out) = links.link(5001, "127.0.0.1:6001")?;
    let (mut bob, bob_out) = links.link(5002, "127.0.0.1:6002")?;
    assert!(rt; tells(&mut ann, 1, Came::Datagram));
    links.pause_until(1000);
    assert!(rt; tells(&mut ann, 1, Came::Datagram));
    assert!(rt; tells(&mut ann, 3, Came::Closed));
    assert!(rt; tells(&mut bob, 1, Came::Datagram));
    links.pause_until(1100);
    let answer: &[u8] =
        b"turn 2 of 600\nAnn datagrams 2 text 1 last 750 left\nBob datagrams 1 text 0 last 800 here\n";
    assert!(rt; answered(&links, answer));
    links.done_in(ann);
    links.done_in(bob);
    links.done_out(ann_out);
    links.done_out(bob_out);
    Ok(())
}

/// How many datagrams are told of so many that lie there when the call is stopped.
fn heard_behind(alloc: Global, count: usize) -> Result<usize, NoMemory> {
    let mut below = MemLinks::new(alloc);
    for _ in 0..count {
        below.plan(5001, PlannedTake::new(alloc, 100, Came::Datagram, TEXT)?)?;
    }
    let asked = AskedOctets(&[b"Sesame42 stop"], &[]);
    let mut links = OperatedLinks::new(below, operator(alloc, CONFERENCE, asked)?);
    let Ok((mut inbound, outbound)) = links.link(5001, "127.0.0.1:6001") else {
        return Ok(0);
    };
    links.pause_until(1000);
    let mut heard = count;
    for told in 0..count {
        if !tells(&mut inbound, 1, Came::Datagram) {
            heard = told;
            break;
        }
    }
    links.done_in(inbound);
    links.done_out(outbound);
    Ok(heard)
}

#[test]
fn who_sends_without_end_is_stopped_too(rt: HostRuntime) -> Result<(), Fail> {
    assert!(rt; heard_behind(rt.alloc(), 200)? == 200);
    assert!(rt; heard_behind(rt.alloc(), 300)? == 256);
    Ok(())
}

#[test]
fn where_no_operator_can_be_heard_no_link_is_opened(rt: HostRuntime) -> Result<(), Fail> {
    let unheard: Operator<MemPort> = Operator::Unheard;
    let mut links = OperatedLinks::new(MemLinks::new(rt.alloc()), unheard);
    assert!(rt; links.link(5001, "127.0.0.1:6001").is_err());
    let nobody: Operator<MemPort> = Operator::Nobody;
    let mut links = OperatedLinks::new(MemLinks::new(rt.alloc()), nobody);
    let (mut inbound, outbound) = links.link(5001, "127.0.0.1:6001")?;
    assert!(rt; tells(&mut inbound, 1, Came::Quiet));
    links.done_in(inbound);
    links.done_out(outbound);
    Ok(())
}
