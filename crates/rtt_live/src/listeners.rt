//! The terminal of a leg, which hears the packets that are given to its link.
ghost use Rattle.std.specs.Prelude.{◌≡◌, ◌≢◌, ◌<◌, ◌≤◌, [], length, true, AllPairs, IfOk, OnOk};
ghost use Rattle.terminal.specs.Terminals.{IsFinished, texts_of};
ghost use Rattle.rtt_live.specs.Listeners.{HasHeard, HearsNext, HearsOut, NoneHeard};
ghost use Rattle.rtt_base.specs.declared.limits.TheConstants.{LONGEST_WAIT, MOST_SOURCES};

use crate::speakers::settings_at;
use file_spec::{Conference, others};
use rtt_base::NoMemory;
use rtt_base::limits::MOST_ARRIVALS;
use std::alloc::Global;
use std::marker::Model;
use terminal::{Terminal, TerminalSettings};

/// The terminal of a leg, with what it was made with.
#[derive(Drop)]
pub struct Listener {
    terminal: Terminal,
    settings: TerminalSettings,
    sources: Vec<u32>,
}

impl Model for Listener {
    ghost use Rattle.rtt_live.specs.Listeners.{IsListener, Listening};

    ghost Value = { Listening };

    ghost view = { λ l. record { terminal = l.terminal; settings = l.settings; sources = l.sources.items } };

    ghost invariant = { λ l. IsListener (record {
      terminal = l.terminal;
      settings = l.settings;
      sources =
          l.sources.items;
    }) };
}

impl Listener {
    /// A terminal to which nothing came yet, for the text of these sources: 1 to 64, all different.
    pub fn new(
        alloc: Global,
        settings: TerminalSettings,
        sources: Vec<u32>,
    ) -> Result<Listener, NoMemory>
        requires wait { settings.wait ≤ LONGEST_WAIT }
        requires some { 0 < length sources.items }
        requires few { length sources.items ≤ MOST_SOURCES }
        requires differ { AllPairs (λ a b. a ≢ b) sources.items }
        ensures { IfOk result (λ listener. HasHeard listener []) }
    {
        let terminal = Terminal::new(alloc, settings, sources.as_slice())?;
        Ok(Listener {
            terminal,
            settings,
            sources,
        })
    }

    /// Hears a packet that is given to the terminal's link, at once. The packet 2^40, to which no call comes, is refused as where
    /// memory ran out.
    pub fn hear(&mut self, packet: &[u8]) -> Result<(), NoMemory>
        ensures { OnOk result (HearsNext self.old packet.now self.new) }
    {
        if self.terminal.counts().packets >= MOST_ARRIVALS - 1 {
            return Err(NoMemory);
        }
        self.terminal.arrive(0, packet)
    }

    // Whether it was made with these.
    fn is_made_with(&self, settings: TerminalSettings, sources: &[u32]) -> bool
        ensures { result ≡ true → (self.now.settings ≡ settings) × (self.now.sources ≡ sources.now) }
    {
        self.settings == settings && self.sources.as_slice() == sources
    }

    /// The terminal, which was made with these, when all that was given is heard to its end.
    pub(crate) fn finished(
        self,
        settings: TerminalSettings,
        sources: &[u32],
    ) -> Result<Terminal, NoMemory>
        ensures heard { IfOk result (HearsOut self settings sources.now) }
        ensures finished { IfOk result IsFinished }
        ensures each { IfOk result (λ terminal. length (texts_of terminal) ≡ length sources.now) }
    {
        if !self.is_made_with(settings, sources) {
            return Err(NoMemory);
        }
        let Listener {
            mut terminal,
            settings: _,
            sources: _,
        } = self;
        terminal.finish()?;
        Ok(terminal)
    }
}

/// The terminal of a leg, to which nothing was given.
fn listener_of(alloc: Global, conference: &Conference, own: usize) -> Result<Listener, NoMemory>
    requires { own < length conference.now.legs }
    ensures { IfOk result (λ listener. HasHeard listener []) }
{
    let leg = &conference.legs.as_slice()[own];
    if leg.aware {
        let speakers = others(alloc, conference.legs.as_slice(), own)?;
        return Listener::new(alloc, settings_at(conference, leg), speakers.sources);
    }
    let mut sources = Vec::with_capacity(alloc, 1)?;
    sources.push(conference.mixer.ssrc)?;
    Listener::new(alloc, settings_at(conference, leg), sources)
}

/// The terminals of all legs, in leg order.
pub(crate) fn listeners_of(
    alloc: Global,
    conference: &Conference,
) -> Result<Vec<Listener>, NoMemory>
    ensures each { IfOk result (λ listeners. length listeners.items ≡ length conference.now.legs) }
    ensures none { IfOk result (λ listeners. NoneHeard listeners.items) }
{
    let mut listeners = Vec::with_capacity(alloc, conference.legs.len())?;
    for own in 0..conference.legs.len() {
        listeners.push(listener_of(alloc, conference, own)?)?;
    }
    Ok(listeners)
}
