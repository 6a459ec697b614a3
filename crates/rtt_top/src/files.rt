//! Whole files: read, refused, and written.
ghost use Rattle.std.specs.Prelude.{◌≡◌, ◌<◌, ◌≤◌, ◌++◌, length, OnOk, OnErr, IfOk, IfErr, IfSome};
ghost use Rattle.rtt_io.specs.Counts.{Rose};
ghost use Rattle.rtt_io.specs.Fronts.{TakesFront};
ghost use Rattle.rtt_io.specs.Names.{NoneFalls, Same as KeepsCounts, SameBut};
ghost use Rattle.rtpdump_io.specs.Faults.{IsSourceFault, FaultOf};
ghost use Rattle.sent_log.specs.Files.{recording_at};
ghost use Rattle.command_spec.specs.Outcomes.{Same};
ghost use Rattle.rtt_top.specs.Faults.{IsOfRecording, IsTrueFor, fault_of_dump};
ghost use Rattle.rtt_top.specs.Files.{IsReadOf};
ghost use Rattle.rtt_top.specs.Frames.{refused_frames};
ghost use Rattle.rtt_top.specs.Worlds.{IsUnreadIn, FailedIn, Saves, SavesPartly};

use command_spec::{Fault, Refusal};
use file_spec::{ConfKind, FrameRefusal};
use rtpdump_io::{DumpFault, RecordingFault};
use rtt_base::{Bytes, Failed};
use rtt_io::{ReadFault, Sink, World, read_whole};
use sent_log::SentFiles;
use std::alloc::Global;
use wire_spec::DumpKind;

/// Reads the first input to its end, or until it has given more than `most` octets.
pub fn read_input<W: World>(
    alloc: Global,
    name: &str,
    most: usize,
    world: &mut W,
) -> Result<Bytes, Fault>
    ensures unread { IfErr result (IsUnreadIn W.World world.old world.new name.now) }
    ensures given { W.tells → IfOk result (IsReadOf most (W.contents world.old name.now)) }
    ensures same_contents { W.tells → Same (W.contents world.old) (W.contents world.new) }
    ensures calm { OnOk result (KeepsCounts W.object_faults world.old world.new) }
    ensures opened { OnOk result (KeepsCounts W.own_faults world.old world.new) }
    ensures calls_never_fall { NoneFalls W.own_faults world.old world.new }
    ensures objects_never_fall { NoneFalls W.object_faults world.old world.new }
    ensures no_other { W.tells → SameBut name.now W.object_faults world.old world.new }
{
    let Ok(mut source) = world.open_source(name) else {
        return Err(Fault::CannotOpen { input: 0 });
    };
    let octets = read_whole(alloc, &mut source, most);
    world.done_src(source);
    match octets {
        Ok(octets) => Ok(octets),
        Err(ReadFault::Failed) => Err(Fault::CannotRead { input: 0 }),
        Err(ReadFault::NoMemory) => Err(Fault::NoMemory),
    }
}

/// The fault of a command whose first input is refused at a line.
pub(crate) fn refused_line(line: u32, kind: ConfKind) -> Fault
    ensures { result ≡ Fault.Refused 0 (Refusal.AtLine line kind) }
{
    Fault::Refused {
        input: 0,
        refusal: Refusal::AtLine { line, kind },
    }
}

/// The fault of a command whose first input has frames that are refused.
pub(crate) fn refused_frames(fault: FrameRefusal) -> Fault
    ensures { result ≡ refused_frames fault }
{
    Fault::Refused {
        input: 0,
        refusal: Refusal::AtFrame {
            byte: fault.offset,
            kind: fault.kind,
        },
    }
}

/// The fault of a command whose input of this number is a recording that has this fault.
pub(crate) fn fault_of_dump(input: u32, fault: DumpFault) -> Fault
    ensures { result ≡ fault_of_dump input fault }
{
    match fault {
        DumpFault {
            offset: _,
            kind: DumpKind::Read,
        } => Fault::CannotRead { input },
        DumpFault { offset, kind } => Fault::Refused {
            input,
            refusal: Refusal::AtByte { byte: offset, kind },
        },
    }
}

/// The fault of a command whose first input is a recording that was not read to its end.
pub(crate) fn fault_of_recording(fault: RecordingFault) -> Fault
    ensures of_recording { IsOfRecording (IsSourceFault fault) result }
    ensures refused { IsTrueFor FaultOf fault result }
{
    match fault {
        RecordingFault::Dump(fault) => fault_of_dump(0, fault),
        RecordingFault::NoMemory => Fault::NoMemory,
    }
}

/// A sink stores these octets behind what it took. After `Failed` some of them are stored, from the front, or none.
#[tactic(auto, using(crate::proofs::Saving::stores_all))]
fn store<K: Sink>(octets: &[u8], sink: &mut K) -> Result<(), Failed>
    ensures never_falls { K.faults sink.old ≤ K.faults sink.new }
    ensures failed { OnErr result (Rose (K.faults sink.old) (K.faults sink.new)) }
    ensures same_name { K.name sink.new ≡ K.name sink.old }
    ensures calm { OnOk result (K.faults sink.new ≡ K.faults sink.old) }
    ensures stored { K.tells → OnOk result (K.stored sink.new ≡ K.took sink.old ++ octets.now) }
    ensures partly { K.tells → OnErr result (TakesFront (K.took sink.old) (K.stored sink.new) octets.now) }
{
    sink.write_all(octets)
}

/// The same of the recording of what was sent to the terminal of this number.
#[tactic(auto, using(crate::proofs::Saving::stores_all))]
fn store_recording<K: Sink>(
    files: &mut SentFiles,
    terminal: usize,
    sink: &mut K,
) -> Result<(), Failed>
    requires { terminal < length files.old }
    ensures same { files.new ≡ files.old }
    ensures never_falls { K.faults sink.old ≤ K.faults sink.new }
    ensures failed { OnErr result (Rose (K.faults sink.old) (K.faults sink.new)) }
    ensures same_name { K.name sink.new ≡ K.name sink.old }
    ensures calm { OnOk result (K.faults sink.new ≡ K.faults sink.old) }
    ensures stored { K.tells → OnOk result (K.stored sink.new ≡ K.took sink.old ++ recording_at files.old terminal) }
    ensures partly { K.tells → OnErr result (TakesFront (K.took sink.old) (K.stored sink.new) (recording_at files.old terminal)) }
{
    files.write_to(terminal, sink)
}

/// Creates the output of this number anew, with these octets, and stores them.
pub fn save_output<W: World>(
    output: u32,
    name: &str,
    octets: &[u8],
    world: &mut W,
) -> Result<(), Fault>
    ensures fault { IfErr result (λ fault. fault ≡ Fault.CannotWrite output) }
    ensures saved { W.tells → OnOk result (Saves W.World world.old world.new name.now octets.now) }
    ensures cause { OnErr result (FailedIn W.World world.old world.new name.now) }
    ensures partly { W.tells → OnErr result (SavesPartly W.World world.old world.new name.now octets.now) }
    ensures calls_never_fall { NoneFalls W.own_faults world.old world.new }
    ensures objects_never_fall { NoneFalls W.object_faults world.old world.new }
{
    let Ok(mut sink) = world.create_sink(name) else {
        return Err(Fault::CannotWrite { output });
    };
    let written = store(octets, &mut sink);
    world.done_dst(sink);
    match written {
        Ok(()) => Ok(()),
        Err(Failed) => Err(Fault::CannotWrite { output }),
    }
}

/// Creates the output of this number anew, with the recording of what was sent to the terminal of that number, and stores it.
fn save_recording<W: World>(
    output: u32,
    name: &str,
    files: &mut SentFiles,
    world: &mut W,
) -> Result<(), Fault>
    requires output { output < length files.old }
    ensures same { files.new ≡ files.old }
    ensures fault { IfErr result (λ fault. fault ≡ Fault.CannotWrite output) }
    ensures saved { W.tells → OnOk result (Saves W.World world.old world.new name.now (recording_at files.old output)) }
    ensures cause { OnErr result (FailedIn W.World world.old world.new name.now) }
    ensures partly { W.tells → OnErr result (SavesPartly W.World world.old world.new name.now (recording_at files.old output)) }
    ensures calls_never_fall { NoneFalls W.own_faults world.old world.new }
    ensures objects_never_fall { NoneFalls W.object_faults world.old world.new }
{
    let Ok(mut sink) = world.create_sink(name) else {
        return Err(Fault::CannotWrite { output });
    };
    let written = store_recording(files, output as usize, &mut sink);
    world.done_dst(sink);
    match written {
        Ok(()) => Ok(()),
        Err(Failed) => Err(Fault::CannotWrite { output }),
    }
}

/// Creates the output of this number anew, with all that this part took, and stores it.
fn save_part<W: World>(output: u32, name: &str, part: W::Part, world: &mut W) -> Result<(), Fault>
    ensures fault { IfErr result (λ fault. fault ≡ Fault.CannotWrite output) }
    ensures saved { W.tells → OnOk result (Saves W.World world.old world.new name.now (W.Part.took part)) }
    ensures cause { OnErr result (FailedIn W.World world.old world.new name.now) }
    ensures partly { W.tells → OnErr result (SavesPartly W.World world.old world.new name.now (W.Part.took part)) }
    ensures calls_never_fall { NoneFalls W.own_faults world.old world.new }
    ensures objects_never_fall { NoneFalls W.object_faults world.old world.new }
{
    let Ok(mut sink) = world.create_sink(name) else {
        return Err(Fault::CannotWrite { output });
    };
    let given = world.give(part, &mut sink);
    world.done_dst(sink);
    match given {
        Ok(()) => Ok(()),
        Err(Failed) => Err(Fault::CannotWrite { output }),
    }
}

/// The same of the recording of what was sent to the terminal of that number, which this part took, where there is one.
pub(crate) fn save_leg<W: World>(
    output: u32,
    name: &str,
    part: Option<W::Part>,
    files: &mut SentFiles,
    world: &mut W,
) -> Result<(), Fault>
    requires output { output < length files.old }
    requires part { W.tells → IfSome part (λ part. W.Part.took part ≡ recording_at files.old output) }
    ensures same { files.new ≡ files.old }
    ensures fault { IfErr result (λ fault. fault ≡ Fault.CannotWrite output) }
    ensures saved { W.tells → OnOk result (Saves W.World world.old world.new name.now (recording_at files.old output)) }
    ensures cause { OnErr result (FailedIn W.World world.old world.new name.now) }
    ensures partly { W.tells → OnErr result (SavesPartly W.World world.old world.new name.now (recording_at files.old output)) }
    ensures calls_never_fall { NoneFalls W.own_faults world.old world.new }
    ensures objects_never_fall { NoneFalls W.object_faults world.old world.new }
{
    match part {
        Some(part) => save_part(output, name, part, world),
        None => save_recording(output, name, files, world),
    }
}
