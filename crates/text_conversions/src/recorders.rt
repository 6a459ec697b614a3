//! A sender whose packets are recorded.
ghost use Rattle.std.specs.Prelude.{◌≡◌, ◌+◌, ◌<◌, ◌≤◌, ◌↔◌, ◌^◌, ◌∷◌, ◌++◌, [], List, length, IfOk, IsOk, OnOk, IsUtf8};
ghost use Rattle.stream_spec.specs.declared.limits.TheConstants.{MOST_WAITING_OCTETS};

use packetizer::{Sender, SenderSettings};
use rtpdump_io::{write_opening, write_record};
use rtt_base::{Bytes, Full, NoMemory, Packet};
use script_text::ScriptLine;
use std::alloc::Global;

/// A sender that is asked at each millisecond, and the recording of what it sent. Milliseconds at which nothing is due
/// are passed over.
#[derive(Drop)]
pub struct Recorder {
    pub sender: Sender,
    pub octets: Bytes,
    /// The last packet, which the next one is written over.
    pub packet: Packet,
    /// The millisecond of the next ask.
    pub now: u64,
}

impl Recorder {
    ghost use Rattle.packetizer.specs.declared.senders.SenderSettings.{SenderSettings};
    ghost use Rattle.file_spec.specs.Script as spec;
    ghost use Rattle.script_text.specs.ScriptLines.{line_of};
    ghost use Rattle.packetizer.specs.SenderSettings.{AreSettings};
    ghost use Rattle.packetizer.specs.SenderStanding.{waits_for};
    ghost use Rattle.command_spec.specs.Scripts.{events_until};
    ghost use Rattle.text_conversions.specs.Insides.{IsAt, IsAsked, Known};

    /// A sender that was neither given a text nor asked.
    pub fn new(alloc: Global, settings: SenderSettings) -> Result<Recorder, NoMemory>
        requires { AreSettings settings }
        ensures at { IfOk result (λ r. IsAt settings [] r) }
        ensures now { IfOk result (λ r. r.now ≡ 0) }
    {
        let sender = Sender::new(alloc, settings)?;
        let mut octets = Bytes::new(alloc);
        write_opening(&mut octets)?;
        Ok(Recorder {
            sender,
            octets,
            packet: Packet::new(),
            now: 0,
        })
    }

    /// Types a line of this millisecond. `Full`: too much waits with it.
    pub fn type_line(&mut self, line: ScriptLine<'_>) -> Result<(), Full>
        requires text { IsUtf8 line.text.now }
        requires now { self.old.now ≡ line.at }
        ensures room { (settings : SenderSettings) (lines : List spec.ScriptLine) → IsAt settings lines self.old
            → (IsOk result ↔ (length (waits_for settings
            (events_until lines self.old.now)) + length line.entry.text.now ≤ MOST_WAITING_OCTETS)) }
        ensures ok { OnOk result ((settings : SenderSettings) (lines : List spec.ScriptLine)
            → IsAt settings lines self.old → IsAt settings (lines ++ line_of line.entry ∷ []) self.new) }
        ensures now { self.new.now ≡ self.old.now }
    {
        self.sender.typed(line.text)
    }

    /// Asks at each millisecond before this one.
    #[inline(always)]
    pub fn pass_to(&mut self, at: u64) -> Result<(), NoMemory>
        requires known { Known self.old }
        requires early { at < 2 ^ 31 }
        ensures at { OnOk result ((settings : SenderSettings) (lines : List spec.ScriptLine)
            → IsAt settings lines self.old → IsAt settings lines self.new) }
        ensures now { OnOk result (self.old.now ≤ at → self.new.now ≡ at) }
    {
        while self.now < at {
            self.ask()?;
            self.skip_to(at);
        }
        Ok(())
    }

    /// Asks at this millisecond.
    fn ask(&mut self) -> Result<(), NoMemory>
        requires known { Known self.old }
        requires early { self.old.now < 2 ^ 31 }
        ensures asked { OnOk result ((settings : SenderSettings) (lines : List spec.ScriptLine) → IsAt settings lines self.old → IsAsked settings lines self.new) }
        ensures now { OnOk result (self.new.now ≡ self.old.now + 1) }
    {
        if self.sender.turn_into(self.now, &mut self.packet) {
            write_record(self.now as u32, self.packet.as_slice(), &mut self.octets)?;
        }
        self.now += 1;
        Ok(())
    }

    /// Passes over the milliseconds before `at` at which nothing is due.
    fn skip_to(&mut self, at: u64)
        requires room { self.old.now ≤ at }
        requires early { at < 2 ^ 31 }
        ensures at { (settings : SenderSettings) (lines : List spec.ScriptLine) → IsAsked settings lines self.old → IsAt settings lines self.new }
        ensures within { self.new.now ≤ at }
        ensures later { (settings : SenderSettings) (lines : List spec.ScriptLine) → IsAsked settings lines self.old → self.old.now ≤ self.new.now }
    {
        self.now = match self.sender.next_due() {
            Some(due) => due.min(at),
            None => at,
        };
    }
}
