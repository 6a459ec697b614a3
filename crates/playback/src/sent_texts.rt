//! What a terminal hears to which all comes in order: what was sent.
ghost use Rattle.std.specs.Prelude.{◌≡◌, ◌≢◌, ◌≤◌, ◌<◌, ◌^◌, true, None, [], length, map, slice_index, All, AllPairs, IfOk, IfSome, OnOk, vec_len};
ghost use Rattle.terminal.specs.Terminals.{counts_of, Heard, IsEmpty};
ghost use Rattle.wire_spec.specs.Dump.{sent_item};
ghost use Rattle.sent_log.specs.States.{IsStreamOf, OfTerminal, records_of, sents};
ghost use Rattle.playback.specs.Written.{IsPlayable};
ghost use Rattle.playback.specs.Whole.{AreSaid, SaysMore};
ghost use Rattle.rtt_base.specs.declared.limits.TheConstants.{LONGEST_WAIT, MOST_ARRIVALS, MOST_SOURCES};

use rtt_base::NoMemory;
use sent_log::SentLog;
use std::alloc::Global;
use terminal::{SourceText, Terminal, TerminalSettings};

/// Whether the source at this place, if there is one, has this SSRC.
fn stands_at(sources: &[u32], ssrc: u32, place: usize) -> bool
    ensures within { result ≡ true → place < length sources.now }
    ensures is { result ≡ true → slice_index sources.now place ≡ ssrc }
{
    place < sources.len() && sources[place] == ssrc
}

/// The place of the source with this SSRC, if there is one. It is found at once at the place `near` or the one before.
fn place_of(sources: &[u32], ssrc: u32, near: usize) -> Option<usize>
    ensures some { IfSome result (λ place. (place < length sources.now) × (slice_index sources.now place ≡ ssrc)) }
    ensures none { result ≡ None → All (λ source. source ≢ ssrc) sources.now }
{
    if stands_at(sources, ssrc, near) {
        return Some(near);
    }
    let before = near.saturating_sub(1);
    if stands_at(sources, ssrc, before) {
        return Some(before);
    }
    for place in 0..sources.len() {
        if sources[place] == ssrc {
            return Some(place);
        }
    }
    None
}

/// Adds a text to that of its source, if that is one of these.
fn add_text(
    sources: &[u32],
    ssrc: u32,
    near: usize,
    text: &[u8],
    texts: &mut [SourceText],
) -> Result<(), NoMemory>
    requires each { length texts.old ≡ length sources.now }
    requires differ { AllPairs (λ a b. a ≢ b) sources.now }
    ensures says { OnOk result (SaysMore sources.now ssrc text.now texts.old texts.new) }
    ensures each { length texts.new ≡ length texts.old }
{
    let Some(place) = place_of(sources, ssrc, near) else {
        return Ok(());
    };
    texts[place].text.append(text)
}

/// An SSRC has 32 bits. Nothing is done.
pub(crate) fn has_32_bits(ssrc: u32)
    ensures { ssrc < 2 ^ 32 }
{}

/// So many sources that said nothing.
fn nothing_said(alloc: Global, number: usize) -> Result<Vec<SourceText>, NoMemory>
    ensures count { IfOk result (λ texts. vec_len texts ≡ number) }
    ensures empty { IfOk result (λ texts. All IsEmpty texts.items) }
{
    let mut texts = Vec::with_capacity(alloc, number)?;
    for _source in 0..number {
        texts.push(SourceText::new(alloc))?;
    }
    Ok(texts)
}

/// Adds all that was sent to the terminal of each of these sources to its text.
fn add_said(
    log: &SentLog,
    terminal: usize,
    sources: &[u32],
    texts: &mut [SourceText],
) -> Result<(), NoMemory>
    requires terminal { terminal < length log.now }
    requires silent { AreSaid sources.now [] texts.old }
    requires differ { AllPairs (λ a b. a ≢ b) sources.now }
    ensures { OnOk result (OfTerminal log.now terminal (λ x. AreSaid sources.now (sents x.sent) texts.new)) }
{
    for number in 0..log.count(terminal) {
        let (source, ssrc, text) = log.text(terminal, number);
        add_text(sources, ssrc, source, text, texts)?;
    }
    Ok(())
}

/// All that was sent to the terminal of each of these sources, where the log has each in one piece.
fn said_at_once(
    alloc: Global,
    log: &SentLog,
    terminal: usize,
    sources: &[u32],
) -> Result<Option<Vec<SourceText>>, NoMemory>
    requires { terminal < length log.now }
    ensures { IfOk result (λ told. IfSome told (λ texts.
        OfTerminal log.now terminal (λ x. AreSaid sources.now (sents x.sent) texts.items))) }
{
    let mut texts = Vec::with_capacity(alloc, sources.len())?;
    for place in 0..sources.len() {
        let Some(said) = log.said(terminal, place, sources[place]) else {
            return Ok(None);
        };
        let mut source = SourceText::new(alloc);
        source.text.append(said)?;
        texts.push(source)?;
    }
    Ok(Some(texts))
}

/// All that was sent to the terminal of each of these sources.
fn said_texts(
    alloc: Global,
    log: &SentLog,
    terminal: usize,
    sources: &[u32],
) -> Result<Vec<SourceText>, NoMemory>
    requires terminal { terminal < length log.now }
    requires differ { AllPairs (λ a b. a ≢ b) sources.now }
    ensures { IfOk result (λ texts.
        OfTerminal log.now terminal (λ x. AreSaid sources.now (sents x.sent) texts.items)) }
{
    if let Some(texts) = said_at_once(alloc, log, terminal, sources)? {
        return Ok(texts);
    }
    let mut added = nothing_said(alloc, sources.len())?;
    add_said(log, terminal, sources, added.as_mut_slice())?;
    Ok(added)
}

/// The terminal that heard all that was sent to it, which is a stream that it hears.
pub(crate) fn heard_all(
    alloc: Global,
    settings: TerminalSettings,
    sources: &[u32],
    log: &SentLog,
    terminal: usize,
) -> Result<Terminal, NoMemory>
    requires wait { settings.wait ≤ LONGEST_WAIT }
    requires some { 0 < length sources.now }
    requires few { length sources.now ≤ MOST_SOURCES }
    requires differ { AllPairs (λ a b. a ≢ b) sources.now }
    requires terminal { terminal < length log.now }
    requires sent { OfTerminal log.now terminal IsPlayable }
    requires stream { OfTerminal log.now terminal (IsStreamOf settings.ssrc settings.payload_types) }
    ensures heard { IfOk result (λ heard. OfTerminal log.now terminal (λ x.
        Heard heard settings sources.now (map sent_item (records_of x.settings x.sent)))) }
    ensures few { IfOk result (λ terminal. (counts_of terminal).packets < MOST_ARRIVALS) }
{
    has_32_bits(settings.ssrc);
    let texts = said_texts(alloc, log, terminal, sources)?;
    Terminal::told(alloc, settings, sources, texts, log.count(terminal) as u64)
}
