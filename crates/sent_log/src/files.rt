//! The recordings of a conference, ready to be written.
ghost use Rattle.std.specs.Prelude.{◌≡◌, ◌<◌, ◌≤◌, ◌++◌, length, IfOk, OnOk, OnErr};
ghost use Rattle.rtt_io.specs.Counts.{Rose};
ghost use Rattle.rtt_io.specs.Fronts.{TakesFront};
ghost use Rattle.sent_log.specs.States.{AreLawful};
ghost use Rattle.sent_log.specs.Files.{ArePensTo, recording_at};

use crate::pages::Page;
use crate::records::write_recording;
use crate::{Pen, SentLog};
use rtt_base::{Failed, NoMemory};
use rtt_io::Sink;
use std::alloc::Global;
use std::marker::Model;

/// What was sent to each terminal, ready to be written: from here on it takes no memory.
#[derive(Drop)]
pub struct SentFiles {
    log: SentLog,
    /// For each terminal a pen to it.
    pens: Vec<Pen>,
    page: Page,
}

impl Model for SentFiles {
    ghost use Rattle.sent_log.specs.States.{State, AreLawful};
    ghost use Rattle.sent_log.specs.Files.{ArePensTo};

    ghost Value = { State };

    ghost view = { λ f. f.log };

    ghost invariant = { λ f. AreLawful f.log × ArePensTo f.log f.pens.items };
}

/// For each terminal a pen to it.
fn pens_to(alloc: Global, log: &SentLog) -> Result<Vec<Pen>, NoMemory>
    ensures { IfOk result (λ pens. ArePensTo log.now pens.items) }
{
    let mut pens = Vec::new(alloc);
    for terminal in 0..log.terminals() {
        let pen = log.pen(alloc, terminal)?;
        pens.push(pen)?;
    }
    Ok(pens)
}

impl SentFiles {
    /// The recordings of what was sent, of which each packet could be sent after those before it. It takes all memory that it
    /// ever needs.
    pub fn new(alloc: Global, log: SentLog) -> Result<SentFiles, NoMemory>
        requires lawful { AreLawful log }
        ensures { IfOk result (λ files. files ≡ log) }
    {
        let pens = pens_to(alloc, &log)?;
        let page = Page::new(alloc)?;
        Ok(SentFiles { log, pens, page })
    }

    /// What was sent.
    pub fn log(&self) -> &SentLog
        ensures { result.now ≡ self.now }
    {
        &self.log
    }

    /// The number of terminals.
    pub fn terminals(&self) -> usize
        ensures { result ≡ length self.now }
    {
        self.log.terminals()
    }

    /// Writes the recording of what was sent to the terminal, in pieces, and stores it. After `Failed` the sink took some of
    /// its octets from the front, or none.
    pub fn write_to<K: Sink>(&mut self, terminal: usize, sink: &mut K) -> Result<(), Failed>
        requires { terminal < length self.old }
        ensures same { self.new ≡ self.old }
        ensures never_falls { K.faults sink.old ≤ K.faults sink.new }
        ensures failed { OnErr result (Rose (K.faults sink.old) (K.faults sink.new)) }
        ensures same_name { K.name sink.new ≡ K.name sink.old }
        ensures calm { OnOk result (K.faults sink.new ≡ K.faults sink.old) }
        ensures appended { K.tells →
            OnOk result (K.took sink.new ≡ K.took sink.old ++ recording_at self.old terminal) }
        ensures prefix { K.tells →
            OnErr result (TakesFront (K.took sink.old) (K.took sink.new) (recording_at self.old terminal)) }
        ensures stores { K.tells → OnOk result (K.stored sink.new ≡ K.took sink.new) }
        ensures partly { K.tells →
            OnErr result (TakesFront (K.took sink.old) (K.stored sink.new) (recording_at self.old terminal)) }
    {
        let pen = &mut self.pens[terminal];
        write_recording(&self.log, terminal, pen, &mut self.page, sink)
    }
}

/// Writes the recording of what was sent to the terminal, as `write_to` does, by a pen and a page of its own.
pub fn write_alone<K: Sink>(
    alloc: Global,
    log: &SentLog,
    terminal: usize,
    sink: &mut K,
) -> Result<(), Failed>
    requires terminal { terminal < length log.now }
    requires lawful { AreLawful log.now }
    ensures appended { K.tells →
        OnOk result (K.took sink.new ≡ K.took sink.old ++ recording_at log.now terminal) }
{
    let Ok(mut pen) = log.pen(alloc, terminal) else {
        return Err(Failed);
    };
    let Ok(mut page) = Page::new(alloc) else {
        return Err(Failed);
    };
    write_recording(log, terminal, &mut pen, &mut page, sink)
}
