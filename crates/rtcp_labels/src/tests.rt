use crate::{Event, Events, RtcpRefusal, read_rtcp, write_bye, write_sdes};
use rtt_base::Packet;
use std::test::Fail;

/// A sender report and a source description with a CNAME and a TOOL, as mediastreamer2 5.1.64 sent them over loopback.
const REPORT: [u8; 68] = [
    0x80, 0xC8, 0x00, 0x06, 0x00, 0x00, 0x03, 0xE9, 0xEE, 0xB3, 0x46, 0x07, 0x75, 0xD1, 0xA2, 0x1E,
    0x08, 0xDF, 0xC3, 0x1E, 0x00, 0x00, 0x00, 0x06, 0x00, 0x00, 0x00, 0x72, 0x81, 0xCA, 0x00, 0x09,
    0x00, 0x00, 0x03, 0xE9, 0x01, 0x0F, 0x75, 0x6E, 0x6B, 0x6E, 0x6F, 0x77, 0x6E, 0x40, 0x75, 0x6E,
    0x6B, 0x6E, 0x6F, 0x77, 0x6E, 0x06, 0x0B, 0x6F, 0x52, 0x54, 0x50, 0x2D, 0x35, 0x2E, 0x31, 0x2E,
    0x36, 0x34, 0x00, 0x00,
];

/// A sender report, a source description with a CNAME and a NAME, and a leaving, as rtpbin of GStreamer 1.22.0 sent them over
/// loopback at the end of its stream.
const LAST_REPORT: [u8; 72] = [
    0x80, 0xC8, 0x00, 0x06, 0x00, 0x00, 0x03, 0xE9, 0xEE, 0xB5, 0x6D, 0xF5, 0xE0, 0x6A, 0xE3, 0xA3,
    0xCC, 0x27, 0x34, 0x86, 0x00, 0x00, 0x01, 0x2C, 0x00, 0x04, 0xB0, 0x00, 0x81, 0xCA, 0x00, 0x08,
    0x00, 0x00, 0x03, 0xE9, 0x01, 0x0F, 0x61, 0x6E, 0x6E, 0x40, 0x65, 0x78, 0x61, 0x6D, 0x70, 0x6C,
    0x65, 0x2E, 0x6F, 0x72, 0x67, 0x02, 0x07, 0x41, 0x6E, 0x6E, 0x20, 0x4C, 0x65, 0x65, 0x00, 0x00,
    0x81, 0xCB, 0x00, 0x01, 0x00, 0x00, 0x03, 0xE9,
];

/// The name `Ann Lee` of 1001.
const ANN: [u8; 20] = *b"\x81\xCA\x00\x04\x00\x00\x03\xE9\x02\x07Ann Lee\x00\x00\x00";

/// 1001 leaves.
const LEAVING: [u8; 8] = [0x81, 0xCB, 0x00, 0x01, 0x00, 0x00, 0x03, 0xE9];

/// How many events are read, or why the octets are refused.
fn count(bytes: &[u8]) -> Result<usize, RtcpRefusal> {
    let mut events = Events::new();
    read_rtcp(bytes, &mut events)?;
    Ok(events.len())
}

fn is_name(event: Option<&Event>, of: u32, text: &str) -> bool {
    match event {
        Some(Event::Name { ssrc, name }) => *ssrc == of && name.as_str() == text,
        _ => false,
    }
}

fn is_bye(event: Option<&Event>, of: u32) -> bool {
    match event {
        Some(Event::Bye { ssrc }) => *ssrc == of,
        _ => false,
    }
}

/// So many packets in which 31 sources leave, and one in which `more` do.
fn leavings(packets: usize, more: u8) -> Packet {
    let mut octets = Packet::new();
    for _ in 0..packets {
        let _ = octets.append(&[0x9F, 0xCB, 0, 31]);
        let _ = octets.append(&[7; 124]);
    }
    let _ = octets.append(&[0x80 + more % 32, 0xCB, 0, more]);
    for _ in 0..more {
        let _ = octets.append(&[0, 0, 0, 7]);
    }
    octets
}

#[test]
fn a_name_and_a_leaving_are_read_behind_a_report(rt: HostRuntime) -> Result<(), Fail> {
    let mut octets = Packet::new();
    octets.append(&REPORT)?;
    octets.append(&ANN)?;
    octets.append(&LEAVING)?;
    let mut events = Events::new();
    read_rtcp(octets.as_slice(), &mut events)?;
    assert_eq!(rt; events.len(), 2);
    assert!(rt; is_name(events.as_slice().first(), 1001, "Ann Lee"));
    assert!(rt; is_bye(events.as_slice().last(), 1001));
    read_rtcp(&REPORT, &mut events)?;
    assert_eq!(rt; events.len(), 0);
    Ok(())
}

#[test]
fn what_is_written_is_what_others_write(rt: HostRuntime) -> Result<(), Fail> {
    let mut octets = Packet::new();
    write_sdes(1001, "Ann Lee", &mut octets)?;
    assert_eq!(rt; octets.as_slice(), ANN.as_slice());
    octets.clear();
    write_bye(1001, &mut octets)?;
    assert_eq!(rt; octets.as_slice(), LEAVING.as_slice());
    Ok(())
}

#[test]
fn what_passes_the_room_left_is_not_written(rt: HostRuntime) -> Result<(), Fail> {
    let mut octets = Packet::new();
    octets.append(&[0; 4217])?;
    assert!(rt; write_bye(1001, &mut octets).is_err());
    assert!(rt; write_sdes(1001, "A", &mut octets).is_err());
    assert_eq!(rt; octets.len(), 4217);
    octets.truncate(4216);
    assert!(rt; write_bye(1001, &mut octets).is_ok());
    assert_eq!(rt; octets.len(), 4224);
    Ok(())
}

#[test]
fn each_refusal_of_a_packet(rt: HostRuntime) {
    assert!(rt; count(&[]) == Err(RtcpRefusal::Short));
    assert!(rt; count(&[0x80, 0xC9, 0]) == Err(RtcpRefusal::Short));
    assert!(rt; count(&[0x80, 0xC9, 0, 1, 0, 0, 0]) == Err(RtcpRefusal::Short));
    assert!(rt; count(&[0x80, 0xC9, 0, 0, 0x80]) == Err(RtcpRefusal::Short));
    assert!(rt; count(&[0x80, 0xC9, 0, 0]) == Ok(0));
    assert!(rt; count(&[0x40, 0xC9, 0xFF, 0xFF]) == Err(RtcpRefusal::Version));
    assert!(rt; count(&[0xA0, 0xC9, 0, 0]) == Err(RtcpRefusal::Padding));
    assert!(rt; count(&[0xA0, 0xC9, 0, 1, 0, 0, 0, 0]) == Err(RtcpRefusal::Padding));
    assert!(rt; count(&[0xA0, 0xC9, 0, 1, 0, 0, 0, 5]) == Err(RtcpRefusal::Padding));
    assert!(rt; count(&[0xA0, 0xC9, 0, 1, 0, 0, 0, 4]) == Ok(0));
    assert!(rt; count(&[0xA1, 0xCB, 0, 1, 0, 0, 0, 4]) == Err(RtcpRefusal::Bye));
    assert!(rt; count(&[0x82, 0xCB, 0, 1, 0, 0, 0, 7]) == Err(RtcpRefusal::Bye));
    assert!(rt; count(&[0x81, 0xCB, 0, 2, 0, 0, 0, 7, 1, 2, 3, 4]) == Ok(1));
}

#[test]
fn each_refusal_of_a_chunk(rt: HostRuntime) {
    assert!(rt; count(&[0x81, 0xCA, 0, 0]) == Err(RtcpRefusal::Items));
    assert!(rt; count(b"\x81\xCA\x00\x02\x00\x00\x03\xE9\x02\x02An") == Err(RtcpRefusal::Items));
    assert!(rt; count(b"\x81\xCA\x00\x02\x00\x00\x03\xE9\x02\x03An") == Err(RtcpRefusal::Items));
    assert!(rt; count(b"\x81\xCA\x00\x02\x00\x00\x03\xE9\x02\x01A\x02") == Err(RtcpRefusal::Items));
    assert!(rt;
        count(b"\xA1\xCA\x00\x02\x00\x00\x03\xE9\x02\x00\x00\x01") == Err(RtcpRefusal::Items)
    );
    assert!(rt; count(b"\x81\xCA\x00\x02\x00\x00\x03\xE9\x02\x01A\x00") == Ok(1));
    assert!(rt; count(b"\x81\xCA\x00\x02\x00\x00\x03\xE9\x02\x00\x00\x00") == Ok(0));
    assert!(rt; count(b"\x81\xCA\x00\x02\x00\x00\x03\xE9\x02\x01\xFF\x00") == Ok(0));
    assert!(rt; count(b"\x81\xCA\x00\x02\x00\x00\x03\xE9\x01\x01A\x00") == Ok(0));
    assert!(rt; count(b"\x81\xCA\x00\x02\x00\x00\x03\xE9\x00ABC") == Ok(0));
    assert!(rt;
        count(b"\x82\xCA\x00\x04\x00\x00\x03\xE9\x02\x01A\x00\x00\x00\x03\xEA\x02\x01B\x00")
            == Ok(2)
    );
}

#[test]
fn a_65th_event_is_refused_behind_what_its_packet_refuses(rt: HostRuntime) -> Result<(), Fail> {
    assert!(rt; count(leavings(2, 2).as_slice()) == Ok(64));
    assert!(rt; count(leavings(2, 3).as_slice()) == Err(RtcpRefusal::Many));
    let mut octets = leavings(2, 2);
    octets.append(&LEAVING)?;
    octets.append(&[0x40, 0, 0, 0])?;
    assert!(rt; count(octets.as_slice()) == Err(RtcpRefusal::Many));
    let mut cut = leavings(2, 2);
    cut.append(b"\x82\xCA\x00\x02\x00\x00\x03\xE9\x02\x01A\x00")?;
    assert!(rt; count(cut.as_slice()) == Err(RtcpRefusal::Items));
    let mut gone = leavings(2, 2);
    gone.append(&[0x82, 0xCB, 0, 1, 0, 0, 0, 7])?;
    assert!(rt; count(gone.as_slice()) == Err(RtcpRefusal::Bye));
    Ok(())
}

#[test]
fn a_real_sender_tells_its_name_and_that_it_leaves(rt: HostRuntime) -> Result<(), Fail> {
    let mut events = Events::new();
    read_rtcp(&LAST_REPORT, &mut events)?;
    assert_eq!(rt; events.len(), 2);
    assert!(rt; is_name(events.as_slice().first(), 1001, "Ann Lee"));
    assert!(rt; is_bye(events.as_slice().last(), 1001));
    Ok(())
}
