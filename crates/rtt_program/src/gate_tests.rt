//! Calls whose legs are held by gates: they print the same, and their legs run at the same time.
use crate::plays::{OPENING, sink, status_of};
use link_io::{Came, MemLinks, PlannedTake};
use rtt_base::{Bytes, NoMemory};
use rtt_io::{Gate, MemWorld, StillGate};
use std::alloc::Global;
use std::sync::Wait;
use std::sync::atomic::{AtomicBool, AtomicU64, Ordering};
use std::test::Fail;
use std::thread;
use std::thread::Threads;
use std::time::Clock;

const OF_FILES: &[u8] = b"mixer 9000 100 5000
leg Ann aware 1001 ann.rtp to-ann.rtp
leg Bob aware 1002 bob.rtp to-bob.rtp
";

const OF_LINKS: &[u8] = b"mixer 9000 100 5000
leg Ann aware 1001 5004 127.0.0.1:6004
leg Bob aware 1002 5006 127.0.0.1:6006
";

// A packet of plain text, abc.
const PACKET: &[u8] = b"\x80\x62\0\0\0\0\0\0\0\0\x03\xE9abc";

// So often a gate looks at most whether what it waits for has come.
const LOOKS: u32 = 10_000_000;

// Whether the number is above this before so many looks.
fn rises(number: &AtomicU64, above: u64) -> bool {
    for _ in 0..LOOKS {
        if number.load(Ordering::SeqCst) > above {
            return true;
        }
        thread::yield_now();
    }
    false
}

// Holds each of two legs at its first item until the other leg has come to its first.
#[derive(Drop)]
struct MeetingGate {
    first: AtomicU64,
    second: AtomicU64,
    missed: AtomicBool,
}

impl Gate for MeetingGate {
    fn pass(&self, leg: u32) {
        let (mine, other) = if leg == 0 {
            (&self.first, &self.second)
        } else {
            (&self.second, &self.first)
        };
        mine.fetch_add(1, Ordering::SeqCst);
        if !rises(other, 0) {
            self.missed.store(true, Ordering::SeqCst);
        }
    }

    fn popped(&self, _leg: u32) {}
}

// Holds who pops at the first item of leg 0 until that leg came to its 60th; and leg 0 at its 70th until a second was popped.
#[derive(Drop)]
struct Seventieth {
    passed: AtomicU64,
    popped: AtomicU64,
    missed: AtomicBool,
}

impl Gate for Seventieth {
    fn pass(&self, leg: u32) {
        if leg != 0 {
            return;
        }
        let before = self.passed.fetch_add(1, Ordering::SeqCst);
        if before == 69 && !rises(&self.popped, 1) {
            self.missed.store(true, Ordering::SeqCst);
        }
    }

    fn popped(&self, leg: u32) {
        if leg != 0 {
            return;
        }
        let before = self.popped.fetch_add(1, Ordering::SeqCst);
        if before == 0 && !rises(&self.passed, 59) {
            self.missed.store(true, Ordering::SeqCst);
        }
    }
}

// A packet of plain text with this number, at as many times 256 ms.
fn append_plain(recording: &mut Bytes, number: u8) -> Result<(), NoMemory> {
    recording.append(&[0, 0x17, 0, 0x0F, 0, 0, number, 0])?;
    recording.append(&[0x80, 0x62, 0, number, 0, 0, number, 0])?;
    recording.append(b"\0\0\x03\xE9abc")
}

// The recording of 80 of them.
fn typing(alloc: Global) -> Result<Bytes, NoMemory> {
    let mut recording = Bytes::new(alloc);
    recording.append(&OPENING)?;
    for number in 0..80u8 {
        append_plain(&mut recording, number)?;
    }
    Ok(recording)
}

// The calls, in which 80 packets of Ann come, and none of Bob.
fn surroundings(alloc: Global) -> Result<MemWorld, NoMemory> {
    let mut world = MemWorld::new(alloc);
    world.add_file("files.txt", OF_FILES)?;
    world.add_file("links.txt", OF_LINKS)?;
    world.add_file("ann.rtp", typing(alloc)?.as_slice())?;
    world.add_file("bob.rtp", &OPENING)?;
    Ok(world)
}

fn links(alloc: Global) -> Result<MemLinks, NoMemory> {
    let mut links = MemLinks::new(alloc);
    for _ in 0..80u32 {
        links.plan(5004, PlannedTake::new(alloc, 10, Came::Datagram, PACKET)?)?;
    }
    links.plan(5004, PlannedTake::new(alloc, 20, Came::Closed, b"")?)?;
    links.plan(5006, PlannedTake::new(alloc, 15, Came::Closed, b"")?)?;
    Ok(links)
}

// What a run of these words prints by this gate: nothing where its status is not 0.
fn printed_by<R: Threads + Wait + Clock + Copy + Send + Sync + 'static, G: Gate + Sync>(
    rt: &R,
    alloc: Global,
    text: &str,
    gate: &G,
) -> Result<Bytes, Fail> {
    let mut world = surroundings(alloc)?;
    let mut links = links(alloc)?;
    let mut out = sink(alloc)?;
    let mut err = sink(alloc)?;
    let status = status_of(
        rt, alloc, text, &mut world, &mut links, &mut out, &mut err, gate,
    )?;
    let mut printed = Bytes::new(alloc);
    if status == 0 {
        printed.append(out.taken())?;
    }
    Ok(printed)
}

// Whether a run of these words prints something, and the same by this gate and without one.
fn is_same_by<R: Threads + Wait + Clock + Copy + Send + Sync + 'static, G: Gate + Sync>(
    rt: &R,
    alloc: Global,
    text: &str,
    gate: &G,
) -> Result<bool, Fail> {
    let plain = printed_by(rt, alloc, text, &StillGate)?;
    let held = printed_by(rt, alloc, text, gate)?;
    Ok(plain.len() > 0 && plain.as_slice() == held.as_slice())
}

fn meets<R: Threads + Wait + Clock + Copy + Send + Sync + 'static>(
    rt: &R,
    alloc: Global,
    text: &str,
) -> Result<bool, Fail> {
    let gate = MeetingGate {
        first: AtomicU64::new(0),
        second: AtomicU64::new(0),
        missed: AtomicBool::new(false),
    };
    let same = is_same_by(rt, alloc, text, &gate)?;
    Ok(same && !gate.missed.load(Ordering::SeqCst))
}

fn goes_through<R: Threads + Wait + Clock + Copy + Send + Sync + 'static>(
    rt: &R,
    alloc: Global,
    text: &str,
) -> Result<bool, Fail> {
    let gate = Seventieth {
        passed: AtomicU64::new(0),
        popped: AtomicU64::new(0),
        missed: AtomicBool::new(false),
    };
    let same = is_same_by(rt, alloc, text, &gate)?;
    let all = gate.passed.load(Ordering::SeqCst) >= 70;
    Ok(same && all && !gate.missed.load(Ordering::SeqCst))
}

#[test]
fn legs_run_at_the_same_time(rt: HostRuntime) -> Result<(), Fail> {
    assert!(rt; meets(&rt, rt.alloc(), "mix files.txt")?);
    assert!(rt; meets(&rt, rt.alloc(), "live links.txt")?);
    Ok(())
}

#[test]
fn a_queue_is_emptied_while_its_leg_runs(rt: HostRuntime) -> Result<(), Fail> {
    assert!(rt; goes_through(&rt, rt.alloc(), "mix files.txt")?);
    assert!(rt; goes_through(&rt, rt.alloc(), "live links.txt")?);
    Ok(())
}
