//! What was sent comes out as an output writes it at once, and texts are kept once.
ghost use Rattle.packetizer.specs.OutputSettings.{AreSettings};

use crate::SentLog;
use crate::text_lists::TextList;
use packetizer::{Packetizer, PacketizerSettings};
use rtt_base::{NoMemory, Packet, PayloadTypes};
use std::alloc::Global;
use std::process::Abort;
use std::test::Fail;

/// The stream of a mixer to a terminal.
fn settings() -> PacketizerSettings
    ensures { AreSettings result }
{
    PacketizerSettings {
        ssrc: 9000,
        seq: 100,
        timestamp: 5000,
        payload_types: PayloadTypes { t140: 98, red: 100 },
        generations: 1,
    }
}

/// A text of a source, counted from 0, at its media time in milliseconds.
#[derive(Clone, Copy)]
struct SentText<'a> {
    media: u16,
    source: usize,
    text: &'a [u8],
}

/// A text of a source at its media time.
fn said(media: u16, source: usize, text: &[u8]) -> SentText<'_> {
    SentText {
        media,
        source,
        text,
    }
}

/// A log of two terminals with two sources each, to which nothing was sent.
fn log_of_two(alloc: Global) -> Result<SentLog, NoMemory> {
    let mut log = SentLog::new(alloc, 2)?;
    log.add(alloc, settings(), vec![in alloc; 1001u32, 1002]?)?;
    log.add(alloc, settings(), vec![in alloc; 1001u32, 1002]?)?;
    Ok(log)
}

/// Sends a text to the terminal, a second after its media time.
fn send(
    rt: &impl Abort,
    alloc: Global,
    log: &mut SentLog,
    terminal: usize,
    sent: &SentText,
) -> Result<(), Fail> {
    assert!(rt; terminal < log.terminals());
    let pen = log.pen(alloc, terminal)?;
    assert!(rt; sent.source < pen.sources.len());
    assert!(rt; sent.text.len() < 1024);
    let now = u32::from(sent.media) + 1000;
    log.send(terminal, now, u64::from(sent.media), sent.source, sent.text)?;
    Ok(())
}

/// What the log makes for the terminal are the packets of these texts, as an output writes them at once.
fn expect(
    rt: &impl Abort,
    alloc: Global,
    log: &SentLog,
    terminal: usize,
    all: &[SentText],
) -> Result<(), Fail> {
    assert!(rt; terminal < log.terminals());
    assert!(rt; log.count(terminal) == all.len());
    assert!(rt; log.never_falls(terminal));
    let mut made = log.pen(alloc, terminal)?;
    let mut written = Packetizer::new(alloc, settings(), &[1001, 1002])?;
    for number in 0..all.len() {
        let sent = &all[number];
        let mut packet = Packet::new();
        let mut again = Packet::new();
        assert!(rt; sent.source < written.sources());
        assert!(rt; sent.text.len() < 1024);
        let media = u64::from(sent.media);
        assert!(rt;
            written
                .packet(media, sent.source, sent.text, &mut packet)
                .is_ok()
        );
        let now = log.packet(terminal, number, &mut made, &mut again);
        assert!(rt; now == u32::from(sent.media) + 1000);
        assert!(rt; again.as_slice() == packet.as_slice());
    }
    Ok(())
}

#[test]
fn packets_are_made_again(rt: HostRuntime) -> Result<(), Fail> {
    let mut log = log_of_two(rt.alloc())?;
    let first = said(0, 0, b"Hel");
    let second = said(300, 0, b"lo");
    let third = said(600, 1, b"x");
    send(&rt, rt.alloc(), &mut log, 0, &first)?;
    send(&rt, rt.alloc(), &mut log, 0, &second)?;
    // The other terminal comes late.
    send(&rt, rt.alloc(), &mut log, 1, &second)?;
    send(&rt, rt.alloc(), &mut log, 0, &third)?;
    send(&rt, rt.alloc(), &mut log, 1, &third)?;
    expect(&rt, rt.alloc(), &log, 0, &[first, second, third])?;
    expect(&rt, rt.alloc(), &log, 1, &[second, third])?;
    Ok(())
}

#[test]
fn a_text_is_kept_once_however_it_is_cut(rt: HostRuntime) -> Result<(), Fail> {
    let mut list = TextList::new(rt.alloc());
    assert_eq!(rt; list.keep(0, b"ab")?, 0);
    assert_eq!(rt; list.keep(0, b"abc")?, 0);
    assert_eq!(rt; list.keep(2, b"cd")?, 2);
    assert_eq!(rt; list.keep(3, b"de")?, 3);
    // One that comes late begins with the last text.
    assert_eq!(rt; list.keep(0, b"de")?, 3);
    assert_eq!(rt; list.keep(5, b"f")?, 5);
    // What begins inside a text is kept again, and the next of both once.
    assert_eq!(rt; list.keep(0, b"e")?, 6);
    assert_eq!(rt; list.keep(6, b"g")?, 7);
    assert_eq!(rt; list.keep(7, b"g")?, 7);
    Ok(())
}

/// What the log tells at once of a source of the first terminal.
fn expect_said(rt: &impl Abort, log: &SentLog, ssrc: u32, text: Option<&[u8]>) {
    assert!(rt; log.terminals() > 0);
    assert!(rt; log.said(0, 0, ssrc) == text);
}

#[test]
fn what_was_sent_of_a_source_is_told_in_one_piece(rt: HostRuntime) -> Result<(), Fail> {
    let mut log = log_of_two(rt.alloc())?;
    let first = said(0, 0, b"ab");
    let other = said(300, 1, b"x");
    let second = said(600, 0, b"c");
    let late = said(900, 0, b"d");
    let last = said(1200, 0, b"e");
    send(&rt, rt.alloc(), &mut log, 0, &first)?;
    send(&rt, rt.alloc(), &mut log, 0, &other)?;
    send(&rt, rt.alloc(), &mut log, 0, &second)?;
    expect_said(&rt, &log, 1001, Some(b"abc".as_slice()));
    expect_said(&rt, &log, 1002, Some(b"x".as_slice()));
    expect_said(&rt, &log, 1003, None);
    // Another terminal is sent something else in between.
    send(&rt, rt.alloc(), &mut log, 1, &late)?;
    send(&rt, rt.alloc(), &mut log, 0, &last)?;
    expect_said(&rt, &log, 1001, None);
    Ok(())
}
