//! What was sent to one terminal.
ghost use Rattle.std.specs.Prelude.{◌≡◌, ◌+◌, ◌<◌, ◌≤◌, ◌^◌, true, length, slice_index, All, IfOk, IfSome, OnOk, OnErr};
ghost use Rattle.std.specs.List.Sorted.{IsNonDecreasingBy};
ghost use Rattle.sent_log.specs.Insides.{HasNoted, IsSame, NotesNothing, turn_at};
ghost use Rattle.sent_log.specs.Lists.{EachGrows};

use crate::runs::Run;
use crate::text_lists::TextList;
use crate::turns::Turn;
use packetizer::PacketizerSettings;
use rtt_base::{NoMemory, PayloadTypes};
use std::alloc::Global;

/// A packet that was sent, in 12 octets.
#[derive(Clone, Copy, Debug)]
pub struct LoggedPacket {
    /// The turn's number.
    pub turn: u32,
    /// Where the text stands in the list of its source.
    pub place: u32,
    /// The number of the text's octets.
    pub len: u16,
    /// The source's number.
    pub source: u16,
}

/// A terminal.
#[derive(Drop)]
pub struct TerminalLog {
    pub settings: PacketizerSettings,
    pub sources: Vec<u32>,
    /// The number of the list of the first source's texts; those of the others follow.
    pub first: usize,
    /// Where the texts of each source stand, in its list.
    pub runs: Vec<Run>,
    /// Oldest first.
    pub entries: Vec<LoggedPacket>,
}

impl TerminalLog {
    /// Whether it is sent a stream with this SSRC and these payload types.
    pub fn is_stream(&self, ssrc: u32, payload_types: PayloadTypes) -> bool
        ensures ssrc { result ≡ true → self.now.settings.ssrc ≡ ssrc }
        ensures payload_types { result ≡ true → self.now.settings.payload_types ≡ payload_types }
    {
        self.settings.ssrc == ssrc && self.settings.payload_types == payload_types
    }

    /// Whether the source with this number, if there is one, has this SSRC.
    fn is_source(&self, number: usize, ssrc: u32) -> bool
        ensures within { result ≡ true → number < length self.now.sources.items }
        ensures is { result ≡ true → slice_index self.now.sources.items number ≡ ssrc }
    {
        number < self.sources.len() && self.sources[number] == ssrc
    }

    /// The number of the source with this SSRC, where it is `near` or the next one.
    pub fn number_near(&self, near: usize, ssrc: u32) -> Option<usize>
        ensures within { IfSome result (λ number. number < length self.now.sources.items) }
        ensures is { IfSome result (λ number. slice_index self.now.sources.items number ≡ ssrc) }
    {
        if self.is_source(near, ssrc) {
            return Some(near);
        }
        let next = near.saturating_add(1);
        if self.is_source(next, ssrc) {
            return Some(next);
        }
        None
    }

    /// The SSRC of each source has 32 bits. Nothing is done.
    pub fn has_ssrcs(&self)
        ensures { All (λ source. source < 2 ^ 32) self.now.sources.items }
    {
        for source in &self.sources {
            let _source = *source;
        }
    }

    /// Notes what is sent in this turn: a text of the source.
    pub fn note(
        &mut self,
        turn: u32,
        source: usize,
        text: &[u8],
        texts: &mut Vec<TextList>,
    ) -> Result<(), NoMemory>
        requires source { source < length self.old.sources.items }
        requires runs { length self.old.runs.items ≡ length self.old.sources.items }
        requires lists { self.old.first + length self.old.sources.items ≤ length texts.old.items }
        requires text { length text.now < 1024 }
        ensures grows { EachGrows texts.old.items texts.new.items }
        ensures same { IsSame self.old self.new }
        ensures ok { OnOk result (HasNoted turn source text.now texts.new.items self.old self.new) }
        ensures err { OnErr result (NotesNothing self.old self.new) }
    {
        let list = &mut texts[self.first + source];
        let place = list.keep(self.runs[source].to, text)?;
        let entry = entry_of(turn, source, place, text.len())?;
        self.entries.push(entry)?;
        self.runs[source].follow(place, text.len());
        Ok(())
    }
}

/// The entry of a text that stands at this place in the list of its source.
fn entry_of(turn: u32, source: usize, place: usize, len: usize) -> Result<LoggedPacket, NoMemory>
    requires { len < 1024 }
    ensures { IfOk result (λ e. e ≡ record { turn = turn; place = place; len = len; source = source }) }
{
    if place > u32::MAX as usize || source > u16::MAX as usize {
        return Err(NoMemory);
    }
    Ok(LoggedPacket {
        turn,
        place: place as u32,
        len: len as u16,
        source: source as u16,
    })
}

/// Makes lists until there are so many.
pub fn make_lists(alloc: Global, texts: &mut Vec<TextList>, count: usize) -> Result<(), NoMemory>
    ensures grows { EachGrows texts.old.items texts.new.items }
    ensures ok { OnOk result (count ≤ length texts.new.items) }
{
    while texts.len() < count {
        texts.push(TextList::new(alloc))?;
    }
    Ok(())
}

/// Whether the moments of these entries never fall.
pub fn never_fall(entries: &[LoggedPacket], turns: &[Turn]) -> bool
    requires { All (λ e. e.turn < length turns.now) entries.now }
    ensures { result ≡ true → IsNonDecreasingBy (λ e. (turn_at turns.now e.turn).now) entries.now }
{
    let mut last = 0;
    for entry in entries {
        let now = turns[entry.turn as usize].now;
        if now < last {
            return false;
        }
        last = now;
    }
    true
}
