//! The work of `read`: a recording is heard to its end.
ghost use Rattle.std.specs.Prelude.{◌≡◌, ◌+◌, ◌≤◌, ◌<◌, [], ◌∷◌, Bool, OnOk, IfOk};
ghost use Rattle.rtpdump_io.specs.Reading.{to_come};
ghost use Rattle.rtpdump_io.specs.Answers.{record_of, is_end};
ghost use Rattle.rtpdump_io.specs.Calls.{ReadsToEnd};
ghost use Rattle.command_spec.specs.declared.requests.ReadRequest.{ReadRequest};
ghost use Rattle.terminal.specs.Terminals.{counts_of, IsOpen, Listens};
ghost use Rattle.terminal.specs.Told.{HearsToEnd, Takes};
ghost use Rattle.recording_views.specs.Recordings.{asked_of, HasHeardOne, HearsAll, HearsOne, HearsRecording};
ghost use Rattle.rtt_base.specs.declared.limits.TheConstants.{MOST_ARRIVALS};

use command_spec::ReadRequest;
use rtpdump_io::{DumpItem, DumpReader, RecordingFault};
use rtt_base::limits::USUAL_WAIT;
use rtt_base::{NoMemory as OutOfMemory, Packet};
use rtt_io::Source;
use std::alloc::Global;
use terminal::{Terminal, TerminalSettings};

/// A terminal that hears what is asked for, to which nothing came yet.
fn terminal_for(alloc: Global, request: ReadRequest) -> Result<Terminal, OutOfMemory>
    ensures listens { IfOk result (λ terminal. Listens terminal (asked_of request) (request.source ∷ []) []) }
    ensures packets { IfOk result (λ terminal. (counts_of terminal).packets ≡ 0) }
{
    let asked = TerminalSettings {
        ssrc: request.ssrc,
        payload_types: request.payload_types,
        wait: u64::from(USUAL_WAIT),
    };
    Terminal::new(alloc, asked, &[request.source])
}

/// Tells the terminal of a record, whose octets are these.
#[tactic(auto, using(crate::proofs::Hearing::hears_no_packet))]
fn hear_record(terminal: &mut Terminal, item: DumpItem, octets: &[u8]) -> Result<(), OutOfMemory>
    requires open { IsOpen terminal.old }
    requires few { (counts_of terminal.old).packets < MOST_ARRIVALS }
    requires more { is_end item ≡ Bool.false }
    ensures hears { OnOk result (Takes terminal.old (record_of item octets.now ∷ []) terminal.new) }
    ensures open { IsOpen terminal.new }
    ensures few { (counts_of terminal.new).packets ≤ (counts_of terminal.old).packets + 1 }
{
    match item {
        DumpItem::Packet { at } => terminal.arrive(u64::from(at), octets),
        DumpItem::Cut { .. } | DumpItem::Large { .. } => {
            terminal.refuse();
            Ok(())
        }
        DumpItem::Rtcp { .. } | DumpItem::End => Ok(()),
    }
}

/// Tells the terminal of all records that are still to come.
fn listen<S: Source>(
    reader: &mut DumpReader<S>,
    terminal: &mut Terminal,
) -> Result<(), RecordingFault>
    requires open { IsOpen terminal.old }
    requires few { (counts_of terminal.old).packets ≡ 0 }
    ensures hears { OnOk result (HearsAll S.tells (to_come S.left reader.old) terminal.old terminal.new) }
    ensures open { OnOk result (IsOpen terminal.new) }
    ensures few { OnOk result ((counts_of terminal.new).packets < MOST_ARRIVALS) }
    ensures reads { ReadsToEnd S.tells S.left S.faults S.name reader.old reader.new result }
{
    let mut packet = Packet::new();
    while let Some(item) = reader.next_record(&mut packet)? {
        hear_record(terminal, item, packet.as_slice())?;
    }
    Ok(())
}

/// A terminal that hears one source, when all that came to it is heard to its end.
fn finished(mut terminal: Terminal) -> Result<Terminal, OutOfMemory>
    requires one { HearsOne terminal }
    requires few { (counts_of terminal).packets < MOST_ARRIVALS }
    ensures { IfOk result (λ heard. HearsToEnd terminal heard) }
{
    terminal.finish()?;
    Ok(terminal)
}

/// Hears a recording to its end: what the terminal shows and counts then is what is asked for.
pub fn hear_recording<S: Source>(
    alloc: Global,
    reader: &mut DumpReader<S>,
    request: ReadRequest,
) -> Result<Terminal, RecordingFault>
    ensures heard { S.tells → IfOk result (HearsRecording request (to_come S.left reader.old)) }
    ensures one { IfOk result HasHeardOne }
    ensures reads { ReadsToEnd S.tells S.left S.faults S.name reader.old reader.new result }
{
    let mut terminal = terminal_for(alloc, request)?;
    listen(reader, &mut terminal)?;
    Ok(finished(terminal)?)
}
