//! Ann types, and what is sent to Bob's terminal. Each packet is written by hand: its header and CSRC (RFC 3550, section 5.1;
//! RFC 9071), the heads of its blocks (RFC 2198, section 3), and the blocks, oldest first (RFC 4103, section 4).
use crate::{Gateway, Terminals};
use conf_text::{Form, read_conf};
use rtt_base::Packet;
use std::process::Abort;
use std::test::Fail;

/// Two legs. The packets to a terminal begin with the sequence number 100 and the timestamp 5000.
const TWO: &[u8] =
    b"mixer 9000 100 5000\nleg Ann aware 1001 5001 127.0.0.1:5101\nleg Bob aware 1002 5002 127.0.0.1:5102\n";

/// Ann types `Hi`, then `!`: her packets have the numbers 7 and 8, and the second repeats the text of the first.
const HI: &[u8] =
    b"\x80\xE4\x00\x07\x00\x00\x03\xE8\x00\x00\x03\xE9\xE2\x09\x60\x00\xE2\x04\xB0\x00\x62Hi";

const EXCLAMATION: &[u8] =
    b"\x80\x64\x00\x08\x00\x00\x05\x14\x00\x00\x03\xE9\xE2\x09\x60\x00\xE2\x04\xB0\x02\x62Hi!";

/// The packets to Bob's terminal: Ann's text, then her next one with the first repeated, then both repeated, then the second
/// alone.
const FIRST: &[u8] =
    b"\x81\xE4\x00\x64\x00\x00\x13\xEC\x00\x00\x23\x28\x00\x00\x03\xE9\xE2\xFF\xFC\x00\xE2\xFF\xFC\x00\x62Hi";

const SECOND: &[u8] =
    b"\x81\x64\x00\x65\x00\x00\x15\x18\x00\x00\x23\x28\x00\x00\x03\xE9\xE2\xFF\xFC\x00\xE2\x04\xB0\x02\x62Hi!";

const THIRD: &[u8] =
    b"\x81\x64\x00\x66\x00\x00\x16\x44\x00\x00\x23\x28\x00\x00\x03\xE9\xE2\x09\x60\x02\xE2\x04\xB0\x01\x62Hi!";

const FOURTH: &[u8] =
    b"\x81\x64\x00\x67\x00\x00\x17\x70\x00\x00\x23\x28\x00\x00\x03\xE9\xE2\x09\x60\x01\xE2\x04\xB0\x00\x62!";

/// What a turn sent to Bob's terminal, and whether it sent something to Ann's.
#[derive(Drop)]
struct TurnSent {
    to_bob: Packet,
    to_ann: bool,
}

impl Terminals for TurnSent {
    fn send(&mut self, leg: usize, packet: &[u8]) {
        if leg == 1 {
            let _ = self.to_bob.append(packet);
        } else {
            self.to_ann = true;
        }
    }
}

/// A datagram of Ann comes.
fn type_at(rt: &impl Abort, gateway: &mut Gateway, now: u32, datagram: &[u8]) {
    assert!(rt; gateway.legs() == 2);
    assert!(rt; gateway.hear(0, u64::from(now), datagram).is_ok());
}

/// A turn sends Bob's terminal this packet, or nothing, and Ann's nothing.
fn expect_at(rt: &impl Abort, gateway: &mut Gateway, now: u32, packet: &[u8]) {
    let mut sent = TurnSent {
        to_bob: Packet::new(),
        to_ann: false,
    };
    assert!(rt; gateway.turn(u64::from(now), &mut sent));
    assert!(rt; sent.to_bob.as_slice() == packet, "at {now}");
    assert!(rt; !sent.to_ann);
}

/// So it is at this moment, and a tick and two ticks later nothing is sent.
fn expect_alone_at(rt: &impl Abort, gateway: &mut Gateway, now: u32, packet: &[u8]) {
    expect_at(rt, gateway, now, packet);
    expect_at(rt, gateway, now.saturating_add(100), b"");
    expect_at(rt, gateway, now.saturating_add(200), b"");
}

#[test]
fn what_ann_types_is_sent_to_bob_and_repeated(rt: HostRuntime) -> Result<(), Fail> {
    let conference = read_conf(rt.alloc(), TWO, Form::Links)?;
    let mut gateway = Gateway::new(rt.alloc(), &conference)?;
    type_at(&rt, &mut gateway, 90, HI);
    expect_alone_at(&rt, &mut gateway, 100, FIRST);
    type_at(&rt, &mut gateway, 390, EXCLAMATION);
    expect_alone_at(&rt, &mut gateway, 400, SECOND);
    expect_alone_at(&rt, &mut gateway, 700, THIRD);
    expect_alone_at(&rt, &mut gateway, 1000, FOURTH);
    expect_at(&rt, &mut gateway, 1300, b"");
    Ok(())
}
