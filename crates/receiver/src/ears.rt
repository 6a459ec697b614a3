//! The ear of one stream.
ghost use Rattle.std.specs.Prelude.{◌≡◌, ◌≢◌, ℕ, ◌+◌, ◌≤◌, ◌<◌, List, [], ◌∷◌, ◌++◌, length, Bool, Some, Ok, Err, OnOk, OnErr, IfOk, IfErr, IsTrue, IsUtf8, AllPairs};
ghost use Rattle.wire_spec.specs.Packets.{Packet, has_text};
ghost use Rattle.stream_spec.specs.Ready.{chunk_of, chunk as heard_chunk};
ghost use Rattle.reorder_buffer.specs.Stories.{Story, begun, went, ended};
ghost use Rattle.receiver.specs.declared.settings.EarSettings.{EarSettings};
ghost use Rattle.receiver.specs.declared.answers.PlainAnswer.{PlainAnswer};
ghost use Rattle.receiver.specs.Hears.{settings_of, arrival_count, is_finished, is_clear, is_quiet, text_for, told, Hears, Gave, IsGiving, BeginsAnew, Becomes, GivesChunk, GivesNone, GaveReady, GaveFront, AllReady};
ghost use Rattle.receiver.specs.EarEach.{GathersEach, IsHearingEach};
ghost use Rattle.receiver.specs.EarPlain.{IsTextFor, HearsPlain, GivesPlain};
ghost use Rattle.rtt_base.specs.declared.limits.TheConstants.{END_OF_MOMENTS, LONGEST_WAIT, MOST_ARRIVALS, MOST_SOURCES};

use crate::{EarSettings, PieceCursor, PlainAnswer, Receiver, SourceText};
use file_spec::primary_limit;
use reorder_buffer::ReorderBuffer;
use rtp_text::{read_text_within, view_text_within};
use rtt_base::{Chunk, NoMemory};
use std::alloc::Global;
use wire_spec::TextFault;

/// Hears the packets of one stream, and gives what is heard of them: each text once, in order, with a marker U+FFFD
/// where text may be missing. A text is given as soon as nothing before it is waited for any longer. Whose it is is set
/// by who mixes: the source of each chunk is 0.
///
/// Times are in milliseconds. A time before the greatest one so far stands for that one.
#[derive(Drop)]
pub struct Ear {
    settings: EarSettings,
    /// Its current packet is the one that is read, or heard.
    buffer: ReorderBuffer,
    receiver: Receiver,
    /// What is still to be handed out of that packet.
    piece: PieceCursor,
    /// When it was ready.
    ready: u64,
}

/// Puts this text of at most 1023 octets in place of what is in `chunk`.
fn write_chunk(chunk: &mut Chunk, ready: u64, text: &[u8])
    requires { length text.now < 1024 }
    ensures { chunk_of chunk.new ≡ heard_chunk 0 ready text.now }
{
    chunk.source = 0;
    chunk.ready = ready;
    chunk.text.clear();
    let _ = chunk.text.append(text);
}

impl Ear {
    /// An ear to which nothing came yet, for the text of these sources: 1 to 64, all different. It takes all memory
    /// that it needs; only `gather_each` and `hear_plain` take more, for what they append.
    pub fn new(alloc: Global, settings: EarSettings, sources: &[u32]) -> Result<Ear, NoMemory>
        requires wait { settings.wait ≤ LONGEST_WAIT }
        requires some { 0 < length sources.now }
        requires few { length sources.now ≤ MOST_SOURCES }
        requires differ { AllPairs (λ a b. a ≢ b) sources.now }
        ensures hears { IfOk result (λ ear. Hears ear settings sources.now (begun settings.wait)) }
        ensures gave { IfOk result (λ ear. (source : ℕ) → sources.now ≡ source ∷ []
            → Gave ear settings source (begun settings.wait) []) }
        ensures quiet { IfOk result (λ ear. is_quiet ear ≡ Bool.true) }
        ensures arrivals { IfOk result (λ ear. arrival_count ear ≡ 0) }
        ensures open { IfOk result (λ ear. is_finished ear ≡ Bool.false) }
    {
        Ok(Ear {
            settings,
            buffer: ReorderBuffer::new(alloc, settings.wait)?,
            receiver: Receiver::new(alloc, sources)?,
            piece: PieceCursor::none(),
            ready: 0,
        })
    }

    /// Begins anew, for the packets of this SSRC: nothing came of it yet. It is for an ear of one source, and takes no
    /// memory.
    pub fn restart(&mut self, ssrc: u32)
        requires { ∥ IsGiving self.old ∥₁ }
        ensures begins { BeginsAnew self.old self.new ssrc }
        ensures settings { settings_of self.new ≡ record (settings_of self.old) { ssrc = ssrc } }
        ensures quiet { is_quiet self.new ≡ Bool.true }
        ensures arrivals { arrival_count self.new ≡ 0 }
        ensures open { is_finished self.new ≡ Bool.false }
    {
        self.settings.ssrc = ssrc;
        self.buffer.restart();
        self.receiver.restart(ssrc);
        self.piece.clear();
    }

    /// Takes a packet that came at `now`. What is no packet of text of the stream is refused, and hands in no time.
    #[inline(always)]
    pub fn hear(&mut self, now: u64, octets: &[u8]) -> Result<(), TextFault>
        requires now { now < END_OF_MOMENTS }
        requires quiet { is_quiet self.old ≡ Bool.true }
        requires few { arrival_count self.old < MOST_ARRIVALS }
        ensures ok { OnOk result ((p : Packet) × (text_for (settings_of self.old) octets.now ≡ Ok p)) }
        ensures err { IfErr result (λ fault. text_for (settings_of self.old) octets.now ≡ Err fault) }
        ensures becomes { Becomes self.old self.new (λ settings story. told story now (text_for settings octets.now)) }
        ensures quiet { OnErr result (is_quiet self.new ≡ Bool.true) }
        ensures settings { settings_of self.new ≡ settings_of self.old }
        ensures arrivals { arrival_count self.new ≤ arrival_count self.old + 1 }
        ensures finished { is_finished self.new ≡ is_finished self.old }
    {
        match read_text_within(
            primary_limit(self.settings.long),
            octets,
            Some(self.settings.ssrc),
            self.settings.payload_types,
            self.buffer.packet_mut(),
        ) {
            Ok(()) => {
                let _taken = self.buffer.arrive(now);
                Ok(())
            }
            Err(fault) => Err(fault),
        }
    }

    /// Lets time go on to `now`.
    pub fn expire(&mut self, now: u64)
        requires now { now < END_OF_MOMENTS }
        requires quiet { is_quiet self.old ≡ Bool.true }
        ensures becomes { Becomes self.old self.new (λ settings story. went story now) }
        ensures settings { settings_of self.new ≡ settings_of self.old }
        ensures arrivals { arrival_count self.new ≡ arrival_count self.old }
        ensures finished { is_finished self.new ≡ is_finished self.old }
    {
        self.buffer.expire(now);
    }

    /// Lets the wait go by after the greatest moment so far, so that all that came is given.
    pub fn finish(&mut self)
        requires quiet { is_quiet self.old ≡ Bool.true }
        requires once { is_finished self.old ≡ Bool.false }
        ensures becomes { Becomes self.old self.new (λ settings story. ended story) }
        // Each chunk is ready by then.
        ensures all { AllReady self.old }
        ensures settings { settings_of self.new ≡ settings_of self.old }
        ensures arrivals { arrival_count self.new ≡ arrival_count self.old }
        ensures finished { is_finished self.new ≡ Bool.true }
    {
        self.buffer.finish();
    }

    /// Puts the next text that is heard of the source, as it is handed out, in place of what is in `chunk`, and tells whether there
    /// was one. A marker is a text of its own. It is for an ear of one source.
    pub fn next(&mut self, chunk: &mut Chunk) -> bool
        requires gave { ∥ IsGiving self.old ∥₁ }
        ensures some { result ≡ Bool.true → GivesChunk self.old self.new (chunk_of chunk.new) }
        ensures none { result ≡ Bool.false → GivesNone self.old self.new }
        ensures all { result ≡ Bool.false → GaveReady self.old }
        ensures front { GaveFront self.new }
        ensures text { result ≡ Bool.true → has_text chunk.new.text ≡ Bool.true }
        ensures utf8 { result ≡ Bool.true → IsUtf8 chunk.new.text }
        ensures source { result ≡ Bool.true → chunk.new.source ≡ 0 }
        ensures quiet { result ≡ Bool.false → is_quiet self.new ≡ Bool.true }
        ensures settings { settings_of self.new ≡ settings_of self.old }
        ensures arrivals { arrival_count self.new ≡ arrival_count self.old }
        ensures finished { is_finished self.new ≡ is_finished self.old }
    {
        loop {
            if self
                .piece
                .next(self.settings.cut, self.buffer.packet(), &mut chunk.text)
            {
                chunk.source = 0;
                chunk.ready = self.ready;
                return true;
            }
            let Some(due) = self.buffer.next() else {
                return false;
            };
            let texts = self.receiver.take_piece(due.number, self.buffer.packet());
            self.piece.begin(texts);
            self.ready = due.ready;
        }
    }

    /// Adds all that is heard of each source by now to what was heard of it, and tells how many packets were used. There
    /// is one text for each source. After `NoMemory` a part may stand there.
    pub fn gather_each(&mut self, heard: &mut [SourceText]) -> Result<u64, NoMemory>
        requires hears { IsHearingEach self.old heard.old }
        requires clear { is_clear self.old ≡ Bool.true }
        requires few { arrival_count self.old ≤ MOST_ARRIVALS }
        ensures gathers { IfOk result (λ used. GathersEach self.old self.new used heard.old heard.new) }
        ensures quiet { OnOk result (is_quiet self.new ≡ Bool.true) }
        ensures settings { OnOk result (settings_of self.new ≡ settings_of self.old) }
        ensures arrivals { OnOk result (arrival_count self.new ≡ arrival_count self.old) }
        ensures finished { OnOk result (is_finished self.new ≡ is_finished self.old) }
    {
        let mut used = 0;
        while let Some(due) = self.buffer.next() {
            self.receiver
                .take_each(due.number, self.buffer.packet(), heard)?;
            used += 1;
        }
        Ok(used)
    }

    /// Hears a packet that came at `now` where it lies, and adds what is heard of it to what was heard of its source. It
    /// does so where the packet is next in order, all of its text is ASCII, and nothing but its primary text is heard of
    /// it. Else it answers false, and nothing is changed: `hear` and `gather_each` are the way then. There is one text for
    /// each source. After `NoMemory` a part may stand there.
    #[inline(always)]
    pub fn hear_plain(
        &mut self,
        now: u64,
        octets: &[u8],
        heard: &mut [SourceText],
    ) -> Result<bool, NoMemory>
        requires now { now < END_OF_MOMENTS }
        requires hears { IsHearingEach self.old heard.old }
        requires quiet { is_quiet self.old ≡ Bool.true }
        requires few { arrival_count self.old < MOST_ARRIVALS }
        ensures hears { IfOk result (λ plain. IsTrue plain
            → HearsPlain self.old self.new now octets.now heard.old heard.new) }
        ensures packet { IfOk result (λ plain. IsTrue plain → IsTextFor (settings_of self.old) octets.now) }
        ensures unchanged { IfOk result (λ plain. plain ≡ Bool.false → self.new ≡ self.old) }
        ensures untold { IfOk result (λ plain. plain ≡ Bool.false → heard.new ≡ heard.old) }
        ensures quiet { OnOk result (is_quiet self.new ≡ Bool.true) }
        ensures settings { OnOk result (settings_of self.new ≡ settings_of self.old) }
        ensures arrivals { OnOk result (arrival_count self.new ≤ arrival_count self.old + 1) }
        ensures finished { OnOk result (is_finished self.new ≡ is_finished self.old) }
    {
        let Some(view) = view_text_within(
            primary_limit(self.settings.long),
            octets,
            Some(self.settings.ssrc),
            self.settings.payload_types,
        ) else {
            return Ok(false);
        };
        let Some(number) = self.buffer.next_in_order(view.seq) else {
            return Ok(false);
        };
        if !self.receiver.take_plain(number, &view, heard)? {
            return Ok(false);
        }
        let _ready = self.buffer.give_at_once(now, number);
        Ok(true)
    }

    /// Hears a packet that came at `now` where it lies, as `hear` and `next` would, and puts its text in place of what is
    /// in `chunk`. It does so as `hear_plain` does, where the text is not cut. It is for an ear of one source.
    #[inline(always)]
    pub fn hear_plain_chunk(&mut self, now: u64, octets: &[u8], chunk: &mut Chunk) -> PlainAnswer
        requires now { now < END_OF_MOMENTS }
        requires gave { ∥ IsGiving self.old ∥₁ }
        requires quiet { is_quiet self.old ≡ Bool.true }
        requires few { arrival_count self.old < MOST_ARRIVALS }
        ensures some { result ≡ PlainAnswer.Chunk
            → GivesPlain self.old self.new now octets.now (chunk_of chunk.new ∷ []) }
        ensures none { result ≡ PlainAnswer.Nothing → GivesPlain self.old self.new now octets.now [] }
        ensures packet { result ≢ PlainAnswer.NotPlain → IsTextFor (settings_of self.old) octets.now }
        ensures all { result ≢ PlainAnswer.NotPlain → GaveReady self.new }
        ensures front { result ≢ PlainAnswer.NotPlain → GaveFront self.new }
        ensures unchanged { result ≡ PlainAnswer.NotPlain → self.new ≡ self.old }
        ensures text { result ≡ PlainAnswer.Chunk → has_text chunk.new.text ≡ Bool.true }
        ensures utf8 { result ≡ PlainAnswer.Chunk → IsUtf8 chunk.new.text }
        ensures quiet { is_quiet self.new ≡ Bool.true }
        ensures settings { settings_of self.new ≡ settings_of self.old }
        ensures arrivals { arrival_count self.new ≤ arrival_count self.old + 1 }
        ensures finished { is_finished self.new ≡ is_finished self.old }
    {
        let Some(view) = view_text_within(
            primary_limit(self.settings.long),
            octets,
            Some(self.settings.ssrc),
            self.settings.payload_types,
        ) else {
            return PlainAnswer::NotPlain;
        };
        if view.primary.len() > self.settings.cut.most() {
            return PlainAnswer::NotPlain;
        }
        let Some(number) = self.buffer.next_in_order(view.seq) else {
            return PlainAnswer::NotPlain;
        };
        if !self.receiver.take_plain_piece(number, &view) {
            return PlainAnswer::NotPlain;
        }
        let ready = self.buffer.give_at_once(now, number);
        if view.primary.is_empty() {
            return PlainAnswer::Nothing;
        }
        if self.settings.cut.drops(view.primary) {
            return PlainAnswer::Nothing;
        }
        write_chunk(chunk, ready, view.primary);
        PlainAnswer::Chunk
    }

    /// How many packets came.
    pub fn arrivals(&self) -> u64
        ensures { result ≡ arrival_count self.now }
    {
        self.buffer.arrivals()
    }
}
