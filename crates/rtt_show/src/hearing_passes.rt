//! A stream that is heard from its records.
ghost use Rattle.std.specs.Prelude.{◌≡◌, ◌≢◌, ◌≤◌, ◌<◌, length, AllPairs, IfOk, OnOk};
ghost use Rattle.terminal.specs.Terminals.{counts_of, IsOpen};
ghost use Rattle.rtpdump_io.specs.InMemory.{HasRecords};
ghost use Rattle.rtt_show.specs.Hearing.{HearsRecords, HasHeard};
ghost use Rattle.rtt_base.specs.declared.limits.TheConstants.{LONGEST_WAIT, MOST_ARRIVALS, MOST_SOURCES};

use rtpdump_io::next_record;
use rtt_base::NoMemory;
use std::alloc::Global;
use terminal::{Terminal, TerminalSettings};

/// Hears these records as they stand.
fn hear_records(terminal: &mut Terminal, records: &[u8]) -> Result<(), NoMemory>
    requires open { IsOpen terminal.old }
    requires none { (counts_of terminal.old).packets ≡ 0 }
    requires records { HasRecords records.now }
    ensures listens { OnOk result (HearsRecords terminal.old records.now terminal.new) }
    ensures open { IsOpen terminal.new }
    ensures few { (counts_of terminal.new).packets < MOST_ARRIVALS }
{
    let mut rest = records;
    while let Some((moment, packet, more)) = next_record(rest) {
        terminal.arrive(u64::from(moment), packet)?;
        rest = more;
    }
    Ok(())
}

/// A terminal that heard these records to their end, of 1 to 64 sources that differ.
pub(crate) fn hear_all(
    alloc: Global,
    settings: TerminalSettings,
    sources: &[u32],
    records: &[u8],
) -> Result<Terminal, NoMemory>
    requires wait { settings.wait ≤ LONGEST_WAIT }
    requires some { 0 < length sources.now }
    requires few { length sources.now ≤ MOST_SOURCES }
    requires differ { AllPairs (λ a b. a ≢ b) sources.now }
    requires records { HasRecords records.now }
    ensures { IfOk result (λ terminal. HasHeard settings sources.now records.now terminal) }
{
    let mut terminal = Terminal::new(alloc, settings, sources)?;
    hear_records(&mut terminal, records)?;
    terminal.finish()?;
    Ok(terminal)
}
