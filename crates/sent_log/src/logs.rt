//! A log of what was sent.
ghost use Rattle.std.specs.Prelude.{◌≡◌, ◌+◌, ◌%◌, ◌^◌, ◌<◌, ◌≤◌, ◌++◌, ◌∷◌, [], true, length, IfOk, IfSome, OnOk, OnErr};
ghost use Rattle.packetizer.specs.OutputSettings.{AreSettings};
ghost use Rattle.packetizer.specs.Speakers.{AreDistinct, text_of};
ghost use Rattle.sent_log.specs.States.{HasSource, IsStreamOf, NeverFalls, OfTerminal, State, TellsText, said, sent_to, sents};
ghost use Rattle.sent_log.specs.Pens.{AppendsPacket, IsPacket, IsPenOf, IsPenTo};
ghost use Rattle.sent_log.specs.Insides.{IsLog, state_of};
ghost use Rattle.sent_log.specs.Writing.{HasRoom};
ghost use Rattle.rtt_base.specs.declared.limits.TheConstants.{MOST_PACKET_OCTETS};

use crate::pens::Pen;
use crate::runs::empty_runs;
use crate::terminals::{TerminalLog, make_lists, never_fall};
use crate::text_lists::TextList;
use crate::turns::{Turn, note_turn};
use crate::writers::append_packet;
use packetizer::PacketizerSettings;
use rtt_base::{NoMemory, OctetBuffer, Packet, PayloadTypes};
use std::alloc::Global;
use std::marker::Model;

/// What was sent to the terminals of a conference.
#[derive(Drop)]
pub struct SentLog {
    turns: Vec<Turn>,
    /// The texts of each leg, as terminals with many sources are sent them, and those of each terminal with one source.
    texts: Vec<TextList>,
    terminals: Vec<TerminalLog>,
}

impl Model for SentLog {
    ghost Value = { State };

    ghost view = { state_of };

    ghost invariant = { IsLog };
}

/// The number of the list of the first source of a terminal with so many, where there are so many lists: one source has a list
/// of its own, and many share theirs with the other terminals.
fn first_list(sources: usize, lists: usize) -> usize
    ensures { result ≤ lists }
{
    if sources == 1 { lists } else { 0 }
}

impl SentLog {
    /// A log with room for so many terminals, of which none is added yet.
    pub fn new(alloc: Global, terminals: usize) -> Result<SentLog, NoMemory>
        ensures { IfOk result (λ log. log ≡ []) }
    {
        let mut texts = Vec::new(alloc);
        make_lists(alloc, &mut texts, terminals)?;
        let terminals = Vec::with_capacity(alloc, terminals)?;
        Ok(SentLog {
            turns: Vec::new(alloc),
            texts,
            terminals,
        })
    }

    /// Adds the next terminal, to which nothing was sent: its stream, and its sources, all different. After `NoMemory` all
    /// is as before.
    pub fn add(
        &mut self,
        alloc: Global,
        settings: PacketizerSettings,
        sources: Vec<u32>,
    ) -> Result<(), NoMemory>
        requires settings { AreSettings settings }
        requires distinct { AreDistinct sources.items }
        ensures ok { OnOk result (self.new
            ≡ self.old ++ record { settings = settings; sources = sources.items; sent = [] } ∷ []) }
        ensures err { OnErr result (self.new ≡ self.old) }
    {
        let first = first_list(sources.len(), self.texts.len());
        make_lists(alloc, &mut self.texts, first + sources.len())?;
        let runs = empty_runs(alloc, sources.len())?;
        self.terminals.push(TerminalLog {
            settings,
            sources,
            first,
            runs,
            entries: Vec::new(alloc),
        })?;
        Ok(())
    }

    /// Notes what is sent to a terminal at the moment `now`, in milliseconds: a text of at most 1023 octets of the source
    /// with this number, at this media time. After `NoMemory` all is as before.
    pub fn send(
        &mut self,
        terminal: usize,
        now: u32,
        media: u64,
        source: usize,
        text: &[u8],
    ) -> Result<(), NoMemory>
        requires source { HasSource self.old terminal source }
        requires text { length text.now < 1024 }
        ensures ok { OnOk result (self.new
            ≡ sent_to terminal now (λ sources. text_of sources source media text.now) self.old) }
        ensures err { OnErr result (self.new ≡ self.old) }
    {
        let turn = note_turn(&mut self.turns, Turn { now, media })?;
        let sent_to = &mut self.terminals[terminal];
        sent_to.note(turn, source, text, &mut self.texts)
    }

    /// The number of terminals.
    pub fn terminals(&self) -> usize
        ensures { result ≡ length self.now }
    {
        self.terminals.len()
    }

    /// How many packets were sent to the terminal.
    pub fn count(&self, terminal: usize) -> usize
        requires { terminal < length self.now }
        ensures { OfTerminal self.now terminal (λ x. result ≡ length x.sent) }
    {
        self.terminals[terminal].entries.len()
    }

    /// Whether the moments of what was sent to the terminal never fall.
    pub fn never_falls(&self, terminal: usize) -> bool
        requires { terminal < length self.now }
        ensures { result ≡ true → OfTerminal self.now terminal NeverFalls }
    {
        never_fall(&self.terminals[terminal].entries, &self.turns)
    }

    /// Whether what is sent to the terminal is a stream with this SSRC and these payload types.
    pub fn is_stream(&self, terminal: usize, ssrc: u32, payload_types: PayloadTypes) -> bool
        requires { terminal < length self.now }
        ensures { result ≡ true → OfTerminal self.now terminal (IsStreamOf ssrc payload_types) }
    {
        let sent_to = &self.terminals[terminal];
        sent_to.has_ssrcs();
        sent_to.is_stream(ssrc, payload_types)
    }

    /// The number of the source, counted from 0, its SSRC, and the text of the packet with this number, counted from 0, that was
    /// sent to the terminal.
    pub fn text(&self, terminal: usize, number: usize) -> (usize, u32, &[u8])
        requires terminal { terminal < length self.now }
        requires number { OfTerminal self.now terminal (λ x. number < length x.sent) }
        ensures { OfTerminal self.now terminal (λ x. TellsText x number result.1 result.2.now) }
    {
        let sent_to = &self.terminals[terminal];
        let entry = sent_to.entries[number];
        let source = entry.source as usize;
        let ssrc = sent_to.sources[source];
        let list = &self.texts[sent_to.first + source];
        let text = list.text(entry.place as usize, entry.len as usize);
        (source, ssrc, text)
    }

    /// All texts that were sent to the terminal of the source with this SSRC, one behind the other: where they stand so in one
    /// piece, and the source is one of the terminal's with the number `near`, counted from 0, or the next one.
    pub fn said(&self, terminal: usize, near: usize, ssrc: u32) -> Option<&[u8]>
        requires { terminal < length self.now }
        ensures { OfTerminal self.now terminal (λ x. IfSome result (λ text. text.now ≡ said ssrc (sents x.sent))) }
    {
        let sent_to = &self.terminals[terminal];
        let Some(source) = sent_to.number_near(near, ssrc) else {
            return None;
        };
        let run = sent_to.runs[source];
        if !run.joined {
            return None;
        }
        let list = &self.texts[sent_to.first + source];
        Some(list.text(run.from, run.to - run.from))
    }

    /// A pen to the terminal that has written nothing.
    pub fn pen(&self, alloc: Global, terminal: usize) -> Result<Pen, NoMemory>
        requires { terminal < length self.now }
        ensures { IfOk result (λ pen. OfTerminal self.now terminal (λ x. IsPenOf x 0 pen)) }
    {
        let sent_to = &self.terminals[terminal];
        Pen::new(alloc, sent_to.settings.seq, sent_to.sources.len())
    }

    /// As if the pen, which is one to the terminal, had written nothing. It takes no memory.
    pub fn restart(&self, terminal: usize, pen: &mut Pen)
        requires terminal { terminal < length self.now }
        requires pen { OfTerminal self.now terminal (λ x. IsPenTo x pen.old) }
        ensures { OfTerminal self.now terminal (λ x. IsPenOf x 0 pen.new) }
    {
        let sent_to = &self.terminals[terminal];
        pen.restart(sent_to.settings.seq);
    }

    /// Makes the packet with this number, counted from 0, that was sent to the terminal, by a pen that has written those
    /// before it, in place of what `packet` had; and answers its moment, in milliseconds.
    pub fn packet(&self, terminal: usize, number: usize, pen: &mut Pen, packet: &mut Packet) -> u32
        requires terminal { terminal < length self.now }
        requires number { OfTerminal self.now terminal (λ x. number < length x.sent) }
        requires pen { OfTerminal self.now terminal (λ x. IsPenOf x number pen.old) }
        ensures made { OfTerminal self.now terminal (λ x. IsPacket x number packet.new result) }
        ensures pen { OfTerminal self.now terminal (λ x. IsPenOf x (number + 1) pen.new) }
        ensures some { 0 < length packet.new }
        ensures fits { length packet.new ≤ 4224 }
    {
        packet.clear();
        self.append_packet(terminal, number, pen, packet)
    }

    /// Appends the packet with this number, counted from 0, that was sent to the terminal, by a pen that has written those
    /// before it, to a buffer with room for any packet; and answers its moment, in milliseconds.
    #[inline(always)]
    pub fn append_packet<O: OctetBuffer>(
        &self,
        terminal: usize,
        number: usize,
        pen: &mut Pen,
        out: &mut O,
    ) -> u32
        requires terminal { terminal < length self.now }
        requires number { OfTerminal self.now terminal (λ x. number < length x.sent) }
        requires pen { OfTerminal self.now terminal (λ x. IsPenOf x number pen.old) }
        requires room { HasRoom O.greatest (O.written out.old) }
        ensures made { AppendsPacket self.now terminal number (O.written out.old) (O.written out.new) result }
        ensures pen { OfTerminal self.now terminal (λ x. IsPenOf x (number + 1) pen.new) }
        ensures some { length (O.written out.old) < length (O.written out.new) }
        ensures fits { length (O.written out.new) ≤ length (O.written out.old) + MOST_PACKET_OCTETS }
    {
        let sent_to = &self.terminals[terminal];
        let entry = &sent_to.entries[number];
        let turn = self.turns[entry.turn as usize];
        let source = entry.source as usize;
        let timestamp = timestamp_at(sent_to.settings.timestamp, turn.media);
        let repeats = &pen.sources[source];
        append_packet(
            sent_to,
            &self.texts,
            repeats,
            entry,
            pen.seq,
            timestamp,
            out,
        );
        pen.keep(source, timestamp, number);
        turn.now
    }
}

/// The timestamp at this media time, where it is `first` at 0.
fn timestamp_at(first: u32, media: u64) -> u32
    ensures { result ≡ (first + media) % 2 ^ 32 }
{
    first.wrapping_add((media % (1 << 32)) as u32)
}
