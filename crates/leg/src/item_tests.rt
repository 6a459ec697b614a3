ghost use Rattle.std.specs.Prelude.{◌≡◌, ◌≤◌, Bool, IfOk, length};
ghost use Rattle.leg.specs.Gives.{is_over};
ghost use Rattle.leg.specs.Answers.{AllNew};

use crate::{Leg, LegInlet};
use file_spec::{LegLine, Stay};
use link_io::Beat;
use mix_loop::{InletReturn, MixEnd, MixerCalls, Room, mix_inlets};
use receiver::{EarSettings, TextCut};
use rtpdump_io::DumpFault;
use rtt_base::{Bytes, Chunk, Full, Name, NoMemory, Path, PayloadTypes};
use rtt_io::SteadySource;
use std::alloc::Global;
use std::sync::Wait;
use std::test::Fail;

// The line and the head of a recording.
const OPENING: [u8; 44] = *b"#!rtpplay1.0 127.0.0.1/5004\n\0\0\0\0\0\0\0\0\x7F\0\0\x01\x13\x8C\0\0";

// Records at 0, 300 and 1500 ms: A, then B, then the sixth packet, C, which repeats two without text.
const FIRST: [u8; 30] =
    *b"\0\x1E\0\x16\0\0\0\0\x80\xE4\0\0\0\0\0\0\0\0\x03\xE9\xE2\xFF\xFC\0\xE2\xFF\xFC\0\x62A";

const SECOND: [u8; 31] =
    *b"\0\x1F\0\x17\0\0\x01\x2C\x80\x64\0\x01\0\0\x01\x2C\0\0\x03\xE9\xE2\xFF\xFC\0\xE2\x04\xB0\x01\x62AB";

// In place of the second: U+FEFF at 300 ms.
const IDLE: [u8; 33] =
    *b"\0\x21\0\x19\0\0\x01\x2C\x80\x64\0\x01\0\0\x01\x2C\0\0\x03\xE9\xE2\xFF\xFC\0\xE2\x04\xB0\x01\x62A\xEF\xBB\xBF";

const SIXTH: [u8; 30] =
    *b"\0\x1E\0\x16\0\0\x05\xDC\x80\x64\0\x05\0\0\x05\xDC\0\0\x03\xE9\xE2\x09\x60\0\xE2\x04\xB0\0\x62C";

// A call of the mixer.
#[derive(Clone, Copy, Debug, PartialEq, Eq)]
enum MixerCall {
    Admit(usize, bool),
    Hush(usize),
    Leave(usize),
    Offer(u8, u64),
    Turn(u64),
}

// A mixer that notes what it is called, takes every text and is always idle.
#[derive(Drop)]
struct NotingMixer {
    calls: Vec<MixerCall>,
    legs: usize,
    turns: u64,
}

impl NotingMixer {
    fn note(&mut self, call: MixerCall)
        ensures legs { self.new.legs ≡ self.old.legs }
        ensures turns { self.new.turns ≡ self.old.turns }
    {
        let _full = self.calls.push(call);
    }
}

impl MixerCalls for NotingMixer {
    ghost use Rattle.std.specs.Prelude.{◌^◌, []};

    type Fault = NoMemory;

    type Clock = ();

    ghost stands = { λ m s payload_types calls. ⊥ };

    ghost halted = { λ m s payload_types calls now. Unit {0} };

    ghost legs = { λ m. m.legs };

    ghost turns = { λ m. m.turns };

    ghost addresses = { λ m. [] };

    ghost horizon = { 2 ^ 32 };

    ghost unsent = { λ m why. Unit {0} };

    fn admit(&mut self, leg: usize, listens: bool) -> bool {
        self.note(MixerCall::Admit(leg, listens));
        true
    }

    fn hush(&mut self, leg: usize) {
        self.note(MixerCall::Hush(leg));
    }

    fn leave(&mut self, leg: usize) -> bool {
        self.note(MixerCall::Leave(leg));
        true
    }

    fn offer(&mut self, chunk: &Chunk) -> Result<(), Full> {
        self.note(MixerCall::Offer(chunk.source, chunk.ready));
        Ok(())
    }

    fn turn(&mut self, now: u64, _beat: &Beat<'_, ()>) -> Result<(), NoMemory> {
        self.note(MixerCall::Turn(now));
        self.turns += 1;
        Ok(())
    }

    fn idle(&self) -> bool {
        true
    }
}

// A leg over the first of these records, and two others or one.
fn ann(alloc: Global, second: &[u8], last: &[u8]) -> Result<LegInlet<SteadySource>, NoMemory>
    ensures { IfOk result (λ inlet. is_over inlet.leg ≡ Bool.false) }
{
    let mut recording = Bytes::new(alloc);
    recording.append(&OPENING)?;
    recording.append(&FIRST)?;
    recording.append(second)?;
    recording.append(last)?;
    let settings = EarSettings {
        ssrc: 1001,
        payload_types: PayloadTypes { t140: 98, red: 100 },
        wait: 1000,
        long: false,
        cut: TextCut::Long,
    };
    match Leg::new(alloc, SteadySource::new(recording), settings) {
        Ok(leg) => Ok(LegInlet { leg }),
        Err(_) => Err(NoMemory),
    }
}

// A leg that stays so long.
fn line(alloc: Global, from: u32, until: Option<u32>) -> Result<LegLine, NoMemory> {
    Ok(LegLine {
        line: 0,
        name: Name::new(),
        aware: true,
        ssrc: 1001,
        input: Path::from_text(alloc, "ann.rtp")?,
        output: Path::from_text(alloc, "to-ann.rtp")?,
        payload_types: PayloadTypes { t140: 98, red: 100 },
        generations: 2,
        stay: Stay { from, until },
        follow: false,
        long: false,
    })
}

// How such a mixing ends, and the calls that it makes.
#[derive(Drop)]
struct CallNotes {
    mixing: MixEnd<DumpFault, NoMemory>,
    calls: Vec<MixerCall>,
}

// What is called last, where one talks until 2500.
const LAST_CALLS: [MixerCall; 8] = [
    MixerCall::Turn(900),
    MixerCall::Turn(1200),
    MixerCall::Turn(1500),
    MixerCall::Turn(1800),
    MixerCall::Turn(2100),
    MixerCall::Turn(2400),
    MixerCall::Offer(0, 2500),
    MixerCall::Offer(0, 2500),
];

// Whether these were called first, and then those that are called last, and mixing is over.
fn ends_as_ever(noted: &CallNotes, first: &[MixerCall]) -> bool {
    let calls = noted.calls.as_slice();
    noted.mixing == MixEnd::Over
        && calls.len().saturating_sub(first.len()) == LAST_CALLS.len()
        && calls.starts_with(first)
        && calls.ends_with(&LAST_CALLS)
}

// Mixes these, at 300 ms a turn.
fn mix_noting<R: Wait>(
    rt: &R,
    alloc: Global,
    inlets: Vec<LegInlet<SteadySource>>,
    lines: &[LegLine],
) -> Result<CallNotes, NoMemory>
    requires lines { length inlets.items ≡ length lines.now }
    requires few { length lines.now ≤ 64 }
    requires new { AllNew inlets.items }
{
    let legs = inlets.len();
    let room = Room::new(alloc, legs)?;
    let mut mixer = NotingMixer {
        calls: Vec::new(alloc),
        legs,
        turns: 0,
    };
    let InletReturn { mixing, inlets: _ } = mix_inlets(
        rt, inlets, lines, room, &mut mixer, 300, 20,
    );
    let NotingMixer {
        calls,
        legs: _,
        turns: _,
    } = mixer;
    Ok(CallNotes { mixing, calls })
}

#[test]
fn legs_come_offer_and_go_at_their_moments(rt: HostRuntime) -> Result<(), Fail> {
    let alloc = rt.alloc();
    let talks = ann(alloc, &SECOND, &SIXTH)?;
    let visits = ann(alloc, &SECOND, b"")?;
    let lines = [line(alloc, 0, None)?, line(alloc, 200, Some(800))?];
    let mut inlets = Vec::with_capacity(alloc, 2)?;
    inlets.push_reserved(talks);
    inlets.push_reserved(visits);
    let noted = mix_noting(&rt, alloc, inlets, &lines)?;
    let calls = [
        MixerCall::Admit(0, true),
        MixerCall::Offer(0, 0),
        MixerCall::Turn(0),
        MixerCall::Admit(1, true),
        MixerCall::Offer(0, 300),
        MixerCall::Offer(1, 300),
        MixerCall::Turn(300),
        MixerCall::Turn(600),
        MixerCall::Hush(1),
        MixerCall::Leave(1),
    ];
    assert!(rt; ends_as_ever(&noted, &calls));
    Ok(())
}

// As where the second packet has no text.
#[test]
fn a_keep_alive_is_no_text(rt: HostRuntime) -> Result<(), Fail> {
    let alloc = rt.alloc();
    let talks = ann(alloc, &IDLE, &SIXTH)?;
    let lines = [line(alloc, 0, None)?];
    let mut inlets = Vec::with_capacity(alloc, 1)?;
    inlets.push_reserved(talks);
    let noted = mix_noting(&rt, alloc, inlets, &lines)?;
    let calls = [
        MixerCall::Admit(0, true),
        MixerCall::Offer(0, 0),
        MixerCall::Turn(0),
        MixerCall::Turn(300),
        MixerCall::Turn(600),
    ];
    assert!(rt; ends_as_ever(&noted, &calls));
    Ok(())
}
