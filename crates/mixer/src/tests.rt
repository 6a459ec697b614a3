//! Examples of a mixer.
use crate::{Batch, Mixer};
use conf_text::{Form, read_conf};
use rtt_base::limits::MOST_TEXT_OCTETS;
use rtt_base::{Chunk, Text};
use std::alloc::Global;
use std::process::Abort;
use std::test::Fail;

/// Four legs, aware.
const FOUR: &[u8] =
    b"leg A aware 1001 a.rtp a\nleg B aware 1002 b.rtp b\nleg C aware 1003 c.rtp c\nleg D aware 1004 d.rtp d\nmixer 9000 0 0\n";

/// Two legs.
const TWO: &[u8] = b"leg A aware 1001 a.rtp a\nleg B aware 1002 b.rtp b\nmixer 9000 0 0\n";

/// Seventeen legs, of which the last comes when the first is gone.
const SEVENTEEN: &[u8] =
    b"leg A aware 1 a.rtp a\nleg B aware 2 b.rtp b\nleg C aware 3 c.rtp c\nleg D aware 4 d.rtp d\nleg E aware 5 e.rtp e\nleg F aware 6 f.rtp f\nleg G aware 7 g.rtp g\nleg H aware 8 h.rtp h\nleg I aware 9 i.rtp i\nleg J aware 10 j.rtp j\nleg K aware 11 k.rtp k\nleg L aware 12 l.rtp l\nleg M aware 13 m.rtp m\nleg N aware 14 n.rtp n\nleg O aware 15 o.rtp o\nleg P aware 16 p.rtp p\nleg Q aware 17 q.rtp q\nmixer 9000 0 0\nstay A 0 4000\nstay Q 5000 9000\n";

/// The first so many legs come, and listen.
fn come(rt: &impl Abort, mixer: &mut Mixer, legs: usize) {
    for leg in 0..legs {
        assert!(rt; leg < mixer.legs());
        assert!(rt; mixer.admit(leg, true));
    }
}

/// Whether a text of so many of these octets is taken of the leg.
fn takes(rt: &impl Abort, mixer: &mut Mixer, source: u8, octet: u8, octets: usize) -> bool {
    let mut text = Text::new();
    for _ in 0..octets {
        if text.len() < MOST_TEXT_OCTETS {
            text.push(octet);
        }
    }
    let chunk = Chunk {
        source,
        ready: 0,
        text,
    };
    assert!(rt; (source as usize) < mixer.legs());
    let Ok(_) = str::from_utf8(chunk.text.as_slice()) else {
        return false;
    };
    mixer.offer(&chunk).is_ok()
}

/// How many of so many such texts of the first of two legs are taken.
fn count_taken(rt: &impl Abort, alloc: Global, octets: usize, offers: u32) -> Result<u32, Fail> {
    let conference = read_conf(alloc, TWO, Form::Files)?;
    let mut mixer = Mixer::new(alloc, &conference)?;
    come(rt, &mut mixer, 2);
    let mut count = 0;
    for _ in 0..offers {
        if takes(rt, &mut mixer, 0, b'x', octets) {
            count += 1;
        }
    }
    Ok(count)
}

/// A turn at this moment.
fn turn(rt: &impl Abort, mixer: &mut Mixer, now: u32, batch: &mut Batch) {
    assert!(rt; mixer.turns() < 5000000);
    mixer.turn(u64::from(now), batch);
}

/// The source of which the terminal is sent text.
fn source_to(batch: &Batch, terminal: usize) -> Option<usize> {
    for post in batch.posts() {
        if post.terminal == terminal {
            return Some(post.source);
        }
    }
    None
}

/// Each of three legs is offered the octet as a text.
fn type_all(rt: &impl Abort, mixer: &mut Mixer, octet: u8) {
    for source in 0..3u8 {
        assert!(rt; takes(rt, mixer, source, octet, 1));
    }
}

#[test]
fn three_that_type_are_sent_in_turn(rt: HostRuntime) -> Result<(), Fail> {
    let conference = read_conf(rt.alloc(), FOUR, Form::Files)?;
    let mut mixer = Mixer::new(rt.alloc(), &conference)?;
    let mut batch = Batch::new(rt.alloc())?;
    come(&rt, &mut mixer, 4);
    for round in 0..18u32 {
        if round % 3 == 0 && round < 12 {
            type_all(&rt, &mut mixer, b'1');
        }
        turn(&rt, &mut mixer, round * 100, &mut batch);
        assert_eq!(rt; source_to(&batch, 3), Some((round % 3) as usize));
    }
    assert!(rt; mixer.idle());
    turn(&rt, &mut mixer, 1800, &mut batch);
    assert!(rt; batch.posts().is_empty());
    Ok(())
}

#[test]
fn sixteen_texts_of_a_thousand_octets_are_taken(rt: HostRuntime) -> Result<(), Fail> {
    assert_eq!(rt; count_taken(&rt, rt.alloc(), 1000, 17)?, 16);
    Ok(())
}

#[test]
fn texts_of_one_octet_are_taken_to_512(rt: HostRuntime) -> Result<(), Fail> {
    assert_eq!(rt; count_taken(&rt, rt.alloc(), 1, 513)?, 512);
    Ok(())
}

#[test]
fn a_place_that_was_left_is_given_again(rt: HostRuntime) -> Result<(), Fail> {
    let conference = read_conf(rt.alloc(), SEVENTEEN, Form::Files)?;
    let mut mixer = Mixer::new(rt.alloc(), &conference)?;
    come(&rt, &mut mixer, 16);
    assert!(rt; mixer.legs() == 17);
    assert!(rt; !mixer.admit(16, true));
    mixer.hush(0);
    assert!(rt; mixer.leave(0));
    assert!(rt; mixer.admit(16, true));
    Ok(())
}
