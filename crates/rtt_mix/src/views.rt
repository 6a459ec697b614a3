//! What is seen at the terminals of a conference.
ghost use Rattle.std.specs.Prelude.{◌≡◌, ◌≢◌, ℕ, ◌+◌, ◌^◌, ◌<◌, ◌≤◌, [], length, All, AllPairs, IfOk, OnOk};
ghost use Rattle.file_spec.specs.Conferences.{meaning_of};
ghost use Rattle.sent_log.specs.States.{OfTerminal};
ghost use Rattle.playback.specs.Written.{IsPlayable};
ghost use Rattle.sent_log.specs.Files.{recording_at, recordings_of};
ghost use Rattle.rtt_mix.specs.Viewed.{AddsCounts, AddsSeenAs, AddsSent, AddsUsed, AreOf, AreSeenBetween, AreSumsOf, AreViewsOf, HasFew, joined, markers_of, summed, terminal_settings};
ghost use Rattle.terminal.specs.Views.{Fits};
ghost use Rattle.file_spec.specs.declared.limits.TheConstants.{MOST_LEGS};
ghost use Rattle.rtt_base.specs.declared.limits.TheConstants.{MOST_ARRIVALS, MOST_SOURCES};

use crate::known_lines::KnownLines;
use crate::pieces::{Piece, add_pieces};
use crate::sent_views::sent_view;
use crate::showing::add_shown;
use file_spec::{Conference, LegLine, others};
use playback::played;
use rtt_base::NoMemory;
use sent_log::SentLog;
use std::alloc::Global;
use terminal::{Terminal, TerminalSettings, View};

/// What is seen at terminals, in leg order, one view behind the other, each in one piece or more. The numbers are sums over them.
#[derive(Drop)]
pub struct TerminalViews {
    pub views: Vec<Piece>,
    /// How many packets came.
    pub packets: u64,
    /// How many of them were used.
    pub used: u64,
    /// How many markers were added.
    pub markers: u64,
}

/// What the terminal of a leg hears.
pub(crate) fn settings_at(conference: &Conference, leg: &LegLine) -> TerminalSettings
    ensures { result ≡ terminal_settings (meaning_of conference.now) leg.now }
{
    TerminalSettings {
        ssrc: conference.mixer.ssrc,
        payload_types: leg.payload_types,
        wait: u64::from(conference.wait),
    }
}

/// How many markers were heard at a terminal, over all its sources.
fn markers_of(terminal: &Terminal) -> u64
    requires { markers_of terminal.now < 2 ^ 46 }
    ensures { result ≡ markers_of terminal.now }
{
    let mut markers = 0;
    for text in terminal.heard() {
        markers += text.markers;
    }
    markers
}

/// Adds what a terminal counted.
fn count(terminal: &Terminal, seen: &mut TerminalViews)
    requires few { HasFew terminal.now }
    requires before { (n : ℕ) × (n < MOST_LEGS) × AreOf n seen.old }
    ensures adds { AddsCounts terminal.now seen.old seen.new }
    ensures with_it { (n : ℕ) → AreOf n seen.old → AreOf (n + 1) seen.new }
{
    let counts = terminal.counts();
    seen.packets += counts.packets;
    seen.used += counts.used;
    seen.markers += markers_of(terminal);
}

/// Adds what this view shows of a terminal that hears these sources, of what the log has for it.
fn add_seen(
    alloc: Global,
    conference: &Conference,
    own: usize,
    sources: &[u32],
    view: View<'_>,
    log: &SentLog,
    known: &[KnownLines<'_>],
    seen: &mut TerminalViews,
) -> Result<(), NoMemory>
    requires own { own < length conference.now.legs }
    requires some { 0 < length sources.now }
    requires few { length sources.now ≤ MOST_SOURCES }
    requires differ { AllPairs (λ a b. a ≢ b) sources.now }
    requires fits { Fits view (length sources.now) }
    requires each { length log.now ≡ length conference.now.legs }
    requires sent { OfTerminal log.now own IsPlayable }
    requires before { AreOf own seen.old }
    ensures adds { OnOk result (AddsSeenAs (meaning_of conference.now) own (recording_at log.now own)
        sources.now view.entry seen.old seen.new) }
    ensures with_it { OnOk result (AreOf (own + 1) seen.new) }
{
    let leg = &conference.legs.as_slice()[own];
    let terminal = played(
        alloc,
        settings_at(conference, leg),
        sources,
        log,
        own,
        conference.plan.as_slice(),
    )?;
    add_shown(alloc, &terminal, view, known, &mut seen.views)?;
    count(&terminal, seen);
    Ok(())
}

/// Adds the view, in these pieces, of a terminal to which so many packets came, each of which was used, without a marker.
fn add_sent_view(pieces: Vec<Piece>, packets: u64, seen: &mut TerminalViews) -> Result<(), NoMemory>
    requires few { packets < MOST_ARRIVALS }
    requires before { (n : ℕ) × (n < MOST_LEGS) × AreOf n seen.old }
    ensures adds { OnOk result (AddsUsed pieces.items packets seen.old seen.new) }
    ensures with_it { OnOk result ((n : ℕ) → AreOf n seen.old → AreOf (n + 1) seen.new) }
{
    add_pieces(pieces, &mut seen.views)?;
    seen.packets += packets;
    seen.used += packets;
    Ok(())
}

/// Adds what is seen at the terminal of a leg, of what the log has for it.
fn add_view(
    alloc: Global,
    conference: &Conference,
    own: usize,
    log: &SentLog,
    known: &[KnownLines<'_>],
    seen: &mut TerminalViews,
) -> Result<(), NoMemory>
    requires own { own < length conference.now.legs }
    requires each { length log.now ≡ length conference.now.legs }
    requires sent { OfTerminal log.now own IsPlayable }
    requires before { AreOf own seen.old }
    ensures adds { OnOk result (AddsSent (meaning_of conference.now) own (recording_at log.now own) seen.old seen.new) }
    ensures with_it { OnOk result (AreOf (own + 1) seen.new) }
{
    let legs = conference.legs.as_slice();
    let leg = &legs[own];
    if leg.aware {
        let speakers = others(alloc, legs, own)?;
        let sources = speakers.sources.as_slice();
        let names = speakers.names.as_slice();
        if let Some(pieces) = sent_view(alloc, conference, own, sources, names, log, known)? {
            let packets = log.count(own) as u64;
            return add_sent_view(pieces, packets, seen);
        }
        let view = View::Aware {
            name: &leg.name,
            names,
        };
        return add_seen(alloc, conference, own, sources, view, log, known, seen);
    }
    let view = View::Unaware { name: &leg.name };
    add_seen(
        alloc,
        conference,
        own,
        &[conference.mixer.ssrc],
        view,
        log,
        known,
        seen,
    )
}

/// Of no terminal.
pub(crate) fn nothing_seen(alloc: Global) -> TerminalViews
    ensures views { result.views.items ≡ [] }
    ensures packets { result.packets ≡ 0 }
    ensures used { result.used ≡ 0 }
    ensures markers { result.markers ≡ 0 }
{
    TerminalViews {
        views: Vec::new(alloc),
        packets: 0,
        used: 0,
        markers: 0,
    }
}

/// What is seen at the terminals from `from` on and below `to`, of what the log has for each.
pub(crate) fn views_between(
    alloc: Global,
    conference: &Conference,
    log: &SentLog,
    known: &[KnownLines<'_>],
    from: usize,
    to: usize,
) -> Result<TerminalViews, NoMemory>
    requires each { length log.now ≡ length conference.now.legs }
    requires sent { All IsPlayable log.now }
    requires order { from ≤ to }
    requires within { to ≤ length log.now }
    ensures views { IfOk result (AreSeenBetween (meaning_of conference.now) (recordings_of log.now) from to) }
    ensures numbers { IfOk result (AreOf to) }
{
    let mut seen = nothing_seen(alloc);
    for own in from..to {
        add_view(alloc, conference, own, log, known, &mut seen)?;
    }
    Ok(seen)
}

/// What is seen at the terminals of a conference, in leg order, of what the log has for each.
pub fn views_of(
    alloc: Global,
    conference: &Conference,
    log: &SentLog,
) -> Result<TerminalViews, NoMemory>
    requires each { length log.now ≡ length conference.now.legs }
    requires sent { All IsPlayable log.now }
    ensures views { IfOk result (λ seen. AreViewsOf (meaning_of conference.now) (recordings_of log.now) (joined seen)) }
    ensures sums { IfOk result (λ seen. AreSumsOf (meaning_of conference.now) (recordings_of log.now) (summed seen)) }
{
    views_between(alloc, conference, log, &[], 0, log.terminals())
}
