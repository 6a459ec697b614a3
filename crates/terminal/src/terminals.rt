//! Hearing one to 64 sources in the packets of one stream, and counting the packets.
ghost use Rattle.std.specs.Prelude.{◌≡◌, ◌≢◌, ◌+◌, ◌≤◌, ◌<◌, ◌^◌, [], length, Bool, OnOk, OnErr, IfOk, IsTrue, All, AllPairs, vec_len};
ghost use Rattle.receiver.specs.Hears.{arrival_count, is_clear, is_quiet, is_finished};
ghost use Rattle.terminal.specs.Terminals.{texts_of, counts_of, is_spent, all_used, IsWhole, IsEmpty, IsHearingTexts, SameCounts, Listens, IsListening, IsOpen, IsFinished};
ghost use Rattle.terminal.specs.Told.{MayTake, TakesPacket, TakesUnread, ListensAlike, one_if_refused, one_if_foreign, GathersTexts, HearsToEnd};
ghost use Rattle.rtt_base.specs.declared.limits.TheConstants.{END_OF_MOMENTS, LONGEST_WAIT, MOST_ARRIVALS, MOST_SOURCES};

use crate::TerminalSettings;
use receiver::{Ear, EarSettings, SourceText, TextCut};
use rtt_base::NoMemory;
use std::alloc::Global;
use t140_text::Counts;
use wire_spec::TextFault;

/// Hears the sources of one stream, and counts the packets that come.
///
/// Where memory runs out in `arrive` or `finish` the terminal is spent: these two and the views answer `NoMemory` from
/// then on.
#[derive(Drop)]
pub struct Terminal {
    ear: Ear,
    /// What was heard of each source, in their order.
    heard: Vec<SourceText>,
    counts: Counts,
    /// There was no memory to hear on.
    spent: bool,
}

/// So many sources of whom nothing was heard.
fn nothing_heard(alloc: Global, number: usize) -> Result<Vec<SourceText>, NoMemory>
    ensures count { IfOk result (λ texts. vec_len texts ≡ number) }
    ensures empty { IfOk result (λ texts. All IsEmpty texts.items) }
{
    let mut texts = Vec::with_capacity(alloc, number)?;
    for _source in 0..number {
        texts.push(SourceText::new(alloc))?;
    }
    Ok(texts)
}

impl Terminal {
    /// A terminal to which nothing came yet, for the text of these sources: 1 to 64, all different.
    pub fn new(
        alloc: Global,
        settings: TerminalSettings,
        sources: &[u32],
    ) -> Result<Terminal, NoMemory>
        requires wait { settings.wait ≤ LONGEST_WAIT }
        requires some { 0 < length sources.now }
        requires few { length sources.now ≤ MOST_SOURCES }
        requires differ { AllPairs (λ a b. a ≢ b) sources.now }
        ensures listens { IfOk result (λ terminal. Listens terminal settings sources.now []) }
        ensures packets { IfOk result (λ terminal. (counts_of terminal).packets ≡ 0) }
        ensures whole { IfOk result IsWhole }
    {
        let asked = EarSettings {
            ssrc: settings.ssrc,
            payload_types: settings.payload_types,
            wait: settings.wait,
            long: false,
            cut: TextCut::Never,
        };
        let heard = nothing_heard(alloc, sources.len())?;
        Ok(Terminal {
            ear: Ear::new(alloc, asked, sources)?,
            heard,
            counts: Counts::default(),
            spent: false,
        })
    }

    /// A terminal that is told what there is to hear of these sources, in place of the packets, so many, each of which was
    /// used.
    pub fn told(
        alloc: Global,
        settings: TerminalSettings,
        sources: &[u32],
        heard: Vec<SourceText>,
        packets: u64,
    ) -> Result<Terminal, NoMemory>
        requires wait { settings.wait ≤ LONGEST_WAIT }
        requires some { 0 < length sources.now }
        requires few { length sources.now ≤ MOST_SOURCES }
        requires differ { AllPairs (λ a b. a ≢ b) sources.now }
        ensures texts { IfOk result (λ terminal. texts_of terminal ≡ heard.items) }
        ensures counts { IfOk result (λ terminal. counts_of terminal ≡ all_used packets) }
        ensures whole { IfOk result IsWhole }
    {
        let mut terminal = Terminal::new(alloc, settings, sources)?;
        terminal.heard = heard;
        terminal.counts = Counts {
            packets,
            used: packets,
            refused: 0,
            foreign: 0,
        };
        Ok(terminal)
    }

    /// Hears the packets that are settled.
    #[inline(always)]
    fn gather(&mut self) -> Result<(), NoMemory>
        requires stands { IsHearingTexts self.old }
        requires clear { is_clear self.old.ear ≡ Bool.true }
        requires few { arrival_count self.old.ear ≤ MOST_ARRIVALS }
        ensures gathers { OnOk result (GathersTexts self.old self.new) }
        ensures same { OnOk result (SameCounts self.old.counts self.new.counts) }
        ensures quiet { OnOk result (is_quiet self.new.ear ≡ Bool.true) }
        ensures arrivals { OnOk result (arrival_count self.new.ear ≡ arrival_count self.old.ear) }
        ensures finished { OnOk result (is_finished self.new.ear ≡ is_finished self.old.ear) }
        ensures spent { is_spent self.new ≡ is_spent self.old }
        ensures packets { self.new.counts.packets ≡ self.old.counts.packets }
    {
        let used = self.ear.gather_each(self.heard.as_mut_slice())?;
        self.counts.used += used;
        Ok(())
    }

    /// Counts a packet that was refused.
    fn count_refused(&mut self, fault: TextFault)
        requires few { (self.old.counts.refused < 2 ^ 41) × (self.old.counts.foreign < 2 ^ 41) }
        ensures ear { self.new.ear ≡ self.old.ear }
        ensures heard { self.new.heard ≡ self.old.heard }
        ensures packets { self.new.counts.packets ≡ self.old.counts.packets }
        ensures used { self.new.counts.used ≡ self.old.counts.used }
        ensures refused { self.new.counts.refused ≡ self.old.counts.refused + one_if_refused fault }
        ensures foreign { self.new.counts.foreign ≡ self.old.counts.foreign + one_if_foreign fault }
        ensures spent { is_spent self.new ≡ is_spent self.old }
    {
        match fault {
            TextFault::Foreign => self.counts.foreign += 1,
            _ => self.counts.refused += 1,
        }
    }

    /// Takes a packet that came at this moment where it lies, if it is next in order and nothing but its primary text is
    /// heard of it, as most are. Else it answers false, and nothing came.
    #[inline(always)]
    fn take_plain(&mut self, at: u64, octets: &[u8]) -> Result<bool, NoMemory>
        requires { MayTake self.old at }
        ensures listens { IfOk result (λ plain. IsTrue plain → TakesPacket self.old at octets.now self.new) }
        ensures same { IfOk result (λ plain. plain ≡ Bool.false → ListensAlike self.old self.new) }
        ensures uncounted { IfOk result (λ plain. plain ≡ Bool.false → self.new.counts ≡ self.old.counts) }
        ensures packets { (counts_of self.new).packets ≤ (counts_of self.old).packets + 1 }
    {
        if !self.ear.hear_plain(at, octets, self.heard.as_mut_slice())? {
            return Ok(false);
        }
        self.counts.packets += 1;
        self.counts.used += 1;
        Ok(true)
    }

    /// Takes a packet that came at this moment, whichever it is: it is read, and held where it is not next in order.
    #[inline(never)]
    fn take_any(&mut self, at: u64, octets: &[u8]) -> Result<(), NoMemory>
        requires { MayTake self.old at }
        ensures listens { OnOk result (TakesPacket self.old at octets.now self.new) }
        ensures packets { (counts_of self.new).packets ≡ (counts_of self.old).packets + 1 }
    {
        self.counts.packets += 1;
        match self.ear.hear(at, octets) {
            Ok(()) => self.gather(),
            Err(fault) => {
                self.count_refused(fault);
                Ok(())
            }
        }
    }

    /// Takes a packet that came at this moment.
    #[inline(always)]
    fn take(&mut self, at: u64, octets: &[u8]) -> Result<(), NoMemory>
        requires { MayTake self.old at }
        ensures listens { OnOk result (TakesPacket self.old at octets.now self.new) }
        ensures packets { (counts_of self.new).packets ≤ (counts_of self.old).packets + 1 }
    {
        if self.take_plain(at, octets)? {
            return Ok(());
        }
        self.take_any(at, octets)
    }

    /// Takes a packet that came at this moment, in milliseconds. One that is refused is counted, and hands in no time.
    #[inline(always)]
    pub fn arrive(&mut self, at: u64, octets: &[u8]) -> Result<(), NoMemory>
        requires at { at < END_OF_MOMENTS }
        requires open { IsOpen self.old }
        requires few { (counts_of self.old).packets < MOST_ARRIVALS }
        ensures listens { OnOk result (TakesPacket self.old at octets.now self.new) }
        ensures open { IsOpen self.new }
        ensures whole { OnOk result (IsWhole self.old) }
        ensures spent { OnErr result (is_spent self.new ≡ Bool.true) }
        ensures packets { (counts_of self.new).packets ≤ (counts_of self.old).packets + 1 }
    {
        if self.spent {
            return Err(NoMemory);
        }
        match self.take(at, octets) {
            Ok(()) => Ok(()),
            Err(fault) => {
                self.spent = true;
                Err(fault)
            }
        }
    }

    /// Counts a packet whose octets are not there as refused.
    pub fn refuse(&mut self)
        requires open { IsOpen self.old }
        requires few { (counts_of self.old).packets < MOST_ARRIVALS }
        ensures listens { TakesUnread self.old self.new }
        ensures open { IsOpen self.new }
        ensures spent { is_spent self.new ≡ is_spent self.old }
        ensures packets { (counts_of self.new).packets ≤ (counts_of self.old).packets + 1 }
    {
        if !self.spent {
            self.counts.packets += 1;
            self.counts.refused += 1;
        }
    }

    /// Hears what is left.
    fn end(&mut self) -> Result<(), NoMemory>
        requires stands { IsListening self.old }
        requires few { (counts_of self.old).packets < MOST_ARRIVALS }
        ensures heard { OnOk result (HearsToEnd self.old self.new) }
        ensures packets { (counts_of self.new).packets ≡ (counts_of self.old).packets }
    {
        self.ear.finish();
        self.gather()
    }

    /// Hears what is left: nothing comes any more.
    pub fn finish(&mut self) -> Result<(), NoMemory>
        requires open { IsOpen self.old }
        requires few { (counts_of self.old).packets < MOST_ARRIVALS }
        ensures heard { OnOk result (HearsToEnd self.old self.new) }
        ensures finished { IsFinished self.new }
        ensures whole { OnOk result (IsWhole self.old) }
        ensures spent { OnErr result (is_spent self.new ≡ Bool.true) }
        ensures packets { (counts_of self.new).packets ≡ (counts_of self.old).packets }
    {
        if self.spent {
            return Err(NoMemory);
        }
        match self.end() {
            Ok(()) => Ok(()),
            Err(fault) => {
                self.spent = true;
                Err(fault)
            }
        }
    }

    /// Whether there was no memory to hear on.
    pub fn is_spent(&self) -> bool
        ensures { result ≡ is_spent self.now }
    {
        self.spent
    }

    /// What was heard of each source, in their order.
    pub fn heard(&self) -> &[SourceText]
        ensures { result.now ≡ texts_of self.now }
    {
        self.heard.as_slice()
    }

    /// How many packets came, and what became of them.
    pub fn counts(&self) -> Counts
        ensures { result ≡ counts_of self.now }
    {
        self.counts
    }
}
