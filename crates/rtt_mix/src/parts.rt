//! What is seen at the terminals of a conference, heard on several threads: each hears a part of the terminals.
ghost use Rattle.std.specs.Prelude.{◌≡◌, ℕ, ◌+◌, ◌*◌, ◌/◌, ◌≤◌, ◌<◌, ◌++◌, min, length, vec_len, All, IfOk, OnOk};
ghost use Rattle.file_spec.specs.Conferences.{meaning_of};
ghost use Rattle.playback.specs.Written.{IsPlayable};
ghost use Rattle.sent_log.specs.States.{OfTerminal};
ghost use Rattle.sent_log.specs.Files.{recordings_of};
ghost use Rattle.rtt_mix.specs.Viewed.{AddsSeen, ArePartsOf, AreOf, AreSumsOf, AreViewsOf, IsPartOf, joined, summed};
ghost use Rattle.rtt_mix.specs.declared.parts.TheConstants.{MOST_PARTS};
ghost use Rattle.file_spec.specs.declared.limits.TheConstants.{MOST_LEGS};

use crate::known_lines::{KnownLines, lines_on_threads};
use crate::pieces::add_pieces;
use crate::views::{TerminalViews, nothing_seen, settings_at, views_between, views_of};
use file_spec::Conference;
use playback::hears_as_sent;
use rtt_base::NoMemory;
use sent_log::SentLog;
use std::alloc::Global;
use std::thread;
use std::thread::Threads;

/// How many parts there are, one for each thread. A thread holds the text of one terminal beside its view, so few of them at
/// once take little memory.
pub(crate) const MOST_PARTS: usize = 4;

/// From how many packets on, heard at all terminals together, threads are worth their start.
const WORTH_THREADS: usize = 4_000;

/// The view of a terminal that hears all as it was sent costs as much as if one of so many packets were heard.
const SHOWN_FOR_ONE_HEARD: usize = 16;

/// How much the view of the terminal with this number, counted from 0, costs, in packets that are heard.
fn cost_of_view(conference: &Conference, log: &SentLog, terminal: usize) -> usize
    requires terminal { terminal < length log.now }
    requires each { length log.now ≡ length conference.now.legs }
    requires sent { OfTerminal log.now terminal IsPlayable }
{
    let leg = &conference.legs.as_slice()[terminal];
    let settings = settings_at(conference, leg);
    let packets = log.count(terminal);
    if leg.aware && hears_as_sent(settings, log, terminal, conference.plan.as_slice()) {
        return packets / SHOWN_FOR_ONE_HEARD;
    }
    packets
}

/// The same of all terminals together.
fn cost_of_views(conference: &Conference, log: &SentLog) -> usize
    requires each { length log.now ≡ length conference.now.legs }
    requires sent { All IsPlayable log.now }
{
    let mut sum: usize = 0;
    for terminal in 0..log.terminals() {
        sum = sum.saturating_add(cost_of_view(conference, log, terminal));
    }
    sum
}

/// How many terminals each part has, but the last ones.
fn part_size(terminals: usize) -> usize
    requires { terminals ≤ MOST_LEGS }
    ensures all { terminals ≤ MOST_PARTS * result }
    ensures few { result ≤ MOST_LEGS }
{
    (terminals + MOST_PARTS - 1) / MOST_PARTS
}

/// At which terminal the part with this number begins, of parts of so many terminals.
fn begin_of(number: usize, size: usize, terminals: usize) -> usize
    requires number { number ≤ MOST_PARTS }
    requires size { size ≤ MOST_LEGS }
    ensures { result ≡ min (number * size) terminals }
{
    (number * size).min(terminals)
}

/// What is seen at the terminals of the part with this number.
fn part_of(
    alloc: Global,
    conference: &Conference,
    log: &SentLog,
    known: &[KnownLines<'_>],
    size: usize,
    number: usize,
) -> Result<TerminalViews, NoMemory>
    requires each { length log.now ≡ length conference.now.legs }
    requires sent { All IsPlayable log.now }
    requires size { size ≤ MOST_LEGS }
    requires number { number < MOST_PARTS }
    ensures { IfOk result (IsPartOf (meaning_of conference.now) (recordings_of log.now) size number) }
{
    let from = begin_of(number, size, log.terminals());
    let to = begin_of(number + 1, size, log.terminals());
    views_between(alloc, conference, log, known, from, to)
}

/// What is seen at the terminals of each part.
fn parts_of<R: Threads + Sync>(
    rt: &R,
    alloc: Global,
    conference: &Conference,
    log: &SentLog,
    known: &[KnownLines<'_>],
    size: usize,
) -> Result<Vec<Result<TerminalViews, NoMemory>>, NoMemory>
    requires each { length log.now ≡ length conference.now.legs }
    requires sent { All IsPlayable log.now }
    requires size { size ≤ MOST_LEGS }
    ensures count { IfOk result (λ parts. vec_len parts ≡ MOST_PARTS) }
    ensures parts { IfOk result (λ parts. ArePartsOf (meaning_of conference.now) (recordings_of log.now) size
        parts.items) }
{
    match thread::map_indices(
        rt,
        alloc,
        MOST_PARTS,
        &|number| { part_of(alloc, conference, log, known, size, number) },
    ) {
        Ok(parts) => Ok(parts),
        Err(_) => Err(NoMemory),
    }
}

/// Adds what is seen at more terminals.
fn add_part(part: TerminalViews, all: &mut TerminalViews) -> Result<(), NoMemory>
    requires part { AreOf MOST_LEGS part }
    requires before { (n : ℕ) × (n < MOST_PARTS) × AreOf (MOST_LEGS * n) all.old }
    ensures adds { OnOk result (AddsSeen part all.old all.new) }
    ensures with_it { OnOk result ((n : ℕ) → AreOf (MOST_LEGS * n) all.old → AreOf (MOST_LEGS * (n + 1)) all.new) }
{
    let TerminalViews {
        views,
        packets,
        used,
        markers,
    } = part;
    add_pieces(views, &mut all.views)?;
    all.packets += packets;
    all.used += used;
    all.markers += markers;
    Ok(())
}

/// What is seen at the terminals of a conference, as `views_of` tells it, on several threads where much is heard.
pub(crate) fn views_on_threads<R: Threads + Sync>(
    rt: &R,
    alloc: Global,
    conference: &Conference,
    log: &SentLog,
) -> Result<TerminalViews, NoMemory>
    requires each { length log.now ≡ length conference.now.legs }
    requires sent { All IsPlayable log.now }
    ensures views { IfOk result (λ seen. AreViewsOf (meaning_of conference.now) (recordings_of log.now) (joined seen)) }
    ensures sums { IfOk result (λ seen. AreSumsOf (meaning_of conference.now) (recordings_of log.now) (summed seen)) }
{
    if cost_of_views(conference, log) < WORTH_THREADS {
        return views_of(alloc, conference, log);
    }
    let size = part_size(log.terminals());
    let known = lines_on_threads(rt, alloc, conference, log)?;
    let parts = parts_of(rt, alloc, conference, log, &known, size)?;
    let mut total = nothing_seen(alloc);
    for part in parts {
        let seen = part?;
        add_part(seen, &mut total)?;
    }
    Ok(total)
}
