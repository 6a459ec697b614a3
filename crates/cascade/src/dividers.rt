//! Splitting the packets of one stream into recordings of its sources.
ghost use Rattle.std.specs.Prelude.{◌≡◌, ◌≢◌, ◌+◌, ◌≤◌, ◌<◌, ◌^◌, ℕ, [], length, All, Bool, OnOk, IfOk, AllPairs};
ghost use Rattle.reorder_buffer.specs.States.{arrival_count, has_ready, is_finished};
ghost use Rattle.cascade.specs.Dividers.{Listens, IsListening, IsHearing, IsStarted, Gathers, ClosesAll, SplitsAll, Takes, Ends};
ghost use Rattle.rtt_base.specs.declared.limits.TheConstants.{END_OF_MOMENTS, LONGEST_WAIT, MOST_ARRIVALS, MOST_SOURCES};

use crate::routes::divide;
use crate::splitters::SourceRecording;
use receiver::Receiver;
use reorder_buffer::ReorderBuffer;
use rtp_text::read_text;
use rtt_base::{NoMemory, Packet, PayloadTypes};
use std::alloc::Global;

/// Hears the packets of one stream, and splits what is heard of each source into a recording of its own. One reorder buffer and one
/// receiver serve all sources, so that what is missing of one is known by the packets of the others.
#[derive(Drop)]
pub struct Demux {
    ssrc: u32,
    payload_types: PayloadTypes,
    /// Its current packet is the one that is read, or heard.
    buffer: ReorderBuffer,
    receiver: Receiver,
    /// One for each source, in their order.
    splitters: Vec<SourceRecording>,
    /// The packet that is written.
    out: Packet,
}

/// Recordings without packets, of these sources.
fn new_splitters(
    alloc: Global,
    sources: &[u32],
    payload_types: PayloadTypes,
) -> Result<Vec<SourceRecording>, NoMemory>
    ensures started { IfOk result (λ splitters. IsStarted payload_types sources.now splitters.items) }
{
    let mut splitters = Vec::with_capacity(alloc, sources.len())?;
    for source in sources {
        splitters.push(SourceRecording::new(alloc, *source, payload_types)?)?;
    }
    Ok(splitters)
}

/// Writes what each has in hand.
fn close_all(splitters: &mut [SourceRecording], out: &mut Packet) -> Result<(), NoMemory>
    requires t140 { All (λ s. s.payload_types.t140 < 2 ^ 7) splitters.old }
    ensures closes { OnOk result (ClosesAll splitters.old splitters.new) }
{
    for place in 0..splitters.len() {
        splitters[place].close(out)?;
    }
    Ok(())
}

impl Demux {
    /// Nothing came yet. It is for the text of these sources: 1 to 64, all different. The wait is at most 10000
    /// milliseconds.
    pub fn new(
        alloc: Global,
        ssrc: u32,
        sources: &[u32],
        payload_types: PayloadTypes,
        wait: u64,
    ) -> Result<Demux, NoMemory>
        requires t140 { payload_types.t140 < 2 ^ 7 }
        requires wait { wait ≤ LONGEST_WAIT }
        requires some { 0 < length sources.now }
        requires few { length sources.now ≤ MOST_SOURCES }
        requires differ { AllPairs (λ a b. a ≢ b) sources.now }
        ensures listens { IfOk result (λ d. (limit : ℕ)
            → Listens d (record { ssrc = ssrc; payload_types = payload_types; wait = wait; limit = limit })
            sources.now []) }
        ensures arrivals { IfOk result (λ d. arrival_count d.buffer ≡ 0) }
    {
        Ok(Demux {
            ssrc,
            payload_types,
            buffer: ReorderBuffer::new(alloc, wait)?,
            receiver: Receiver::new(alloc, sources)?,
            splitters: new_splitters(alloc, sources, payload_types)?,
            out: Packet::new(),
        })
    }

    /// Adds what is heard by now.
    fn gather(&mut self) -> Result<(), NoMemory>
        requires hears { IsHearing self.old }
        ensures gathers { OnOk result (Gathers self.old self.new) }
        ensures quiet { OnOk result (has_ready self.new.buffer ≡ Bool.false) }
        ensures arrivals { OnOk result (arrival_count self.new.buffer ≡ arrival_count self.old.buffer) }
        ensures finished { OnOk result (is_finished self.new.buffer ≡ is_finished self.old.buffer) }
    {
        while let Some(due) = self.buffer.next() {
            divide(
                &mut self.receiver,
                self.splitters.as_mut_slice(),
                due,
                self.buffer.packet(),
                &mut self.out,
            )?;
        }
        Ok(())
    }

    /// Hears a packet that came at `now`, in milliseconds. What is no packet of text of the stream is passed over. After
    /// `NoMemory` it is of no use.
    pub fn hear(&mut self, now: u64, octets: &[u8]) -> Result<(), NoMemory>
        requires now { now < END_OF_MOMENTS }
        requires listens { IsListening self.old }
        requires few { arrival_count self.old.buffer < MOST_ARRIVALS }
        ensures takes { OnOk result (Takes self.old self.new now octets.now) }
        ensures arrivals { OnOk result (arrival_count self.new.buffer ≤ arrival_count self.old.buffer + 1) }
    {
        match read_text(
            octets,
            Some(self.ssrc),
            self.payload_types,
            self.buffer.packet_mut(),
        ) {
            Ok(()) => {
                let _taken = self.buffer.arrive(now);
                self.gather()
            }
            Err(_refused) => Ok(()),
        }
    }

    /// Adds what is left to be heard: nothing comes any more.
    fn end(&mut self) -> Result<(), NoMemory>
        requires listens { IsListening self.old }
        ensures ends { OnOk result (Ends self.old self.new) }
    {
        self.buffer.finish();
        self.gather()
    }

    /// The recordings, whole: nothing comes any more.
    pub fn finish(mut self) -> Result<Vec<SourceRecording>, NoMemory>
        requires listens { IsListening self }
        ensures splits { IfOk result (λ splitters. SplitsAll self splitters.items) }
    {
        self.end()?;
        close_all(self.splitters.as_mut_slice(), &mut self.out)?;
        let Demux {
            ssrc: _,
            payload_types: _,
            buffer: _,
            receiver: _,
            splitters,
            out: _,
        } = self;
        Ok(splitters)
    }
}
