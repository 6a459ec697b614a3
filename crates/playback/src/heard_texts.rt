//! A terminal that hears what comes to it.
ghost use Rattle.std.specs.Prelude.{true, ◌≡◌, ◌≢◌, ◌+◌, ◌≤◌, ◌<◌, ◌==◌, length, All, AllPairs, IfOk, OnOk};
ghost use Rattle.std.specs.List.{list_any};
ghost use Rattle.playback.specs.Arriving.{IsOfFirst};
ghost use Rattle.terminal.specs.Terminals.{counts_of, IsOpen};
ghost use Rattle.sent_log.specs.States.{OfTerminal, recording_of, sents};
ghost use Rattle.playback.specs.Written.{HasRecords, IsPlayable};
ghost use Rattle.playback.specs.Finds.{AreFound, LieWithin};
ghost use Rattle.playback.specs.Told.{HearsAll, HearsAsSent, HearsByPlan, HearsCopies, HearsCopy, HearsSent, HeardByPlan};
ghost use Rattle.file_spec.specs.declared.limits.TheConstants.{MOST_LEGS};
ghost use Rattle.rtt_base.specs.declared.limits.TheConstants.{LONGEST_WAIT, MOST_ARRIVALS, MOST_SOURCES};

use crate::indexes::{RecordIndex, find_records};
use crate::sent_texts::{has_32_bits, heard_all};
use crate::{Arrival, arrivals};
use file_spec::PlanLine;
use rtpdump_io::{next_record, records_of};
use rtt_base::NoMemory;
use sent_log::{SentLog, in_memory};
use std::alloc::Global;
use terminal::{Terminal, TerminalSettings};

/// Whether a line of the plan is of this terminal.
fn speaks_of(plan: &[PlanLine], terminal: u8) -> bool
    ensures { result ≡ list_any (λ line. line.terminal == terminal) plan.now }
{
    plan.iter().any(|line| line.terminal == terminal)
}

/// Hears a packet that comes.
fn hear_copy(
    terminal: &mut Terminal,
    records: &[u8],
    found: &RecordIndex,
    copy: Arrival,
) -> Result<(), NoMemory>
    requires open { IsOpen terminal.old }
    requires few { (counts_of terminal.old).packets < MOST_ARRIVALS }
    requires sent { IsOfFirst (length found.now.places.items) copy }
    requires within { LieWithin found.now records.now }
    requires found { AreFound found.now records.now }
    ensures listens { OnOk result (HearsCopy terminal.old records.now found.now copy terminal.new) }
    ensures open { IsOpen terminal.new }
    ensures packets { (counts_of terminal.new).packets ≤ (counts_of terminal.old).packets + 1 }
{
    let place = found.places[copy.index as usize];
    match next_record(&records[place..]) {
        Some((_, packet, _)) => terminal.arrive(copy.at, packet),
        None => unreachable!(),
    }
}

/// Hears all packets that come.
fn hear_copies(
    terminal: &mut Terminal,
    records: &[u8],
    found: &RecordIndex,
    copies: &[Arrival],
) -> Result<(), NoMemory>
    requires open { IsOpen terminal.old }
    requires none { (counts_of terminal.old).packets ≡ 0 }
    requires few { length copies.now < MOST_ARRIVALS }
    requires sent { All (IsOfFirst (length found.now.places.items)) copies.now }
    requires within { LieWithin found.now records.now }
    requires found { AreFound found.now records.now }
    ensures listens { OnOk result (HearsCopies terminal.old records.now found.now copies.now terminal.new) }
    ensures open { IsOpen terminal.new }
    ensures few { (counts_of terminal.new).packets < MOST_ARRIVALS }
{
    for copy in copies {
        hear_copy(terminal, records, found, *copy)?;
    }
    Ok(())
}

/// Hears what comes of these records by the plan.
fn hear_by_plan(
    alloc: Global,
    terminal: &mut Terminal,
    records: &[u8],
    plan: &[PlanLine],
    number: u8,
) -> Result<(), NoMemory>
    requires open { IsOpen terminal.old }
    requires none { (counts_of terminal.old).packets ≡ 0 }
    requires records { HasRecords records.now }
    ensures listens { OnOk result (HearsByPlan terminal.old records.now plan.now number terminal.new) }
    ensures open { IsOpen terminal.new }
    ensures few { (counts_of terminal.new).packets < MOST_ARRIVALS }
{
    let found = find_records(alloc, records)?;
    let copies = arrivals(alloc, plan, number, found.moments.as_slice())?;
    hear_copies(terminal, records, &found, copies.as_slice())
}

/// Hears what comes by the plan of what was sent to the terminal, of which the whole recording is made in memory.
fn hear(
    alloc: Global,
    heard: &mut Terminal,
    log: &SentLog,
    terminal: usize,
    plan: &[PlanLine],
) -> Result<(), NoMemory>
    requires open { IsOpen heard.old }
    requires none { (counts_of heard.old).packets ≡ 0 }
    requires terminal { terminal < length log.now }
    requires leg { terminal < MOST_LEGS }
    requires sent { OfTerminal log.now terminal IsPlayable }
    ensures listens { OnOk result (OfTerminal log.now terminal (HearsSent heard.old plan.now terminal heard.new)) }
    ensures open { IsOpen heard.new }
    ensures few { (counts_of heard.new).packets < MOST_ARRIVALS }
{
    let recording = in_memory(alloc, log, terminal)?;
    let records = records_of(recording.as_slice());
    hear_by_plan(alloc, heard, records, plan, terminal as u8)
}

/// Hears to its end what comes by the plan of what was sent to the terminal.
fn played_by_plan(
    alloc: Global,
    settings: TerminalSettings,
    sources: &[u32],
    log: &SentLog,
    terminal: usize,
    plan: &[PlanLine],
) -> Result<Terminal, NoMemory>
    requires wait { settings.wait ≤ LONGEST_WAIT }
    requires some { 0 < length sources.now }
    requires few { length sources.now ≤ MOST_SOURCES }
    requires differ { AllPairs (λ a b. a ≢ b) sources.now }
    requires terminal { terminal < length log.now }
    requires leg { terminal < MOST_LEGS }
    requires sent { OfTerminal log.now terminal IsPlayable }
    ensures heard { IfOk result (λ heard. OfTerminal log.now terminal (λ x.
        HeardByPlan settings sources.now (recording_of x) plan.now terminal heard)) }
    ensures few { IfOk result (λ terminal. (counts_of terminal).packets < MOST_ARRIVALS) }
{
    let mut heard = Terminal::new(alloc, settings, sources)?;
    hear(alloc, &mut heard, log, terminal, plan)?;
    heard.finish()?;
    Ok(heard)
}

/// Whether all that was sent to the terminal comes as it was sent, and is a stream that it hears.
fn hears_all(settings: TerminalSettings, log: &SentLog, terminal: usize, plan: &[PlanLine]) -> bool
    requires terminal { terminal < length log.now }
    requires leg { terminal < MOST_LEGS }
    ensures { result ≡ true → HearsAll settings log.now terminal plan.now }
{
    !speaks_of(plan, terminal as u8)
        && log.never_falls(terminal)
        && log.is_stream(terminal, settings.ssrc, settings.payload_types)
}

/// Whether all that was sent to the terminal with this number, counted from 0 and below 64, is heard there as it was sent: texts
/// each of which could be sent after those before it, in packets of at most 65527 octets. Then each packet is used, and of each
/// source what is heard is `SentLog::said`.
pub fn hears_as_sent(
    settings: TerminalSettings,
    log: &SentLog,
    terminal: usize,
    plan: &[PlanLine],
) -> bool
    requires terminal { terminal < length log.now }
    requires leg { terminal < MOST_LEGS }
    requires sent { OfTerminal log.now terminal IsPlayable }
    ensures { result ≡ true → OfTerminal log.now terminal (λ x.
        HearsAsSent settings (recording_of x) plan.now terminal (sents x.sent)) }
{
    has_32_bits(settings.ssrc);
    hears_all(settings, log, terminal, plan)
}

/// The terminal with this number, counted from 0 and below 64, that heard to its end what comes to it, by the plan of a
/// conference, of what was sent to it: texts each of which could be sent after those before it, in packets of at most
/// 65527 octets. The terminal is made as `Terminal::new` makes it.
///
/// Where no line of the plan is of the terminal, and the moments of the packets never fall, what it hears is what was sent, and
/// no packet is made. Else the whole recording is made in memory, with 12 octets a packet to find it there, and 16 for each packet
/// that comes.
#[inline(never)]
pub fn played(
    alloc: Global,
    settings: TerminalSettings,
    sources: &[u32],
    log: &SentLog,
    terminal: usize,
    plan: &[PlanLine],
) -> Result<Terminal, NoMemory>
    requires wait { settings.wait ≤ LONGEST_WAIT }
    requires some { 0 < length sources.now }
    requires few { length sources.now ≤ MOST_SOURCES }
    requires differ { AllPairs (λ a b. a ≢ b) sources.now }
    requires terminal { terminal < length log.now }
    requires leg { terminal < MOST_LEGS }
    requires sent { OfTerminal log.now terminal IsPlayable }
    ensures heard { IfOk result (λ heard. OfTerminal log.now terminal (λ x.
        HeardByPlan settings sources.now (recording_of x) plan.now terminal heard)) }
    ensures few { IfOk result (λ terminal. (counts_of terminal).packets < MOST_ARRIVALS) }
{
    if hears_all(settings, log, terminal, plan) {
        return heard_all(alloc, settings, sources, log, terminal);
    }
    played_by_plan(alloc, settings, sources, log, terminal, plan)
}
