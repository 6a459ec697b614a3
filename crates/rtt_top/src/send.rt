//! `send`: a script is read and sent, and a recording is made of what is sent.
ghost use Rattle.std.specs.Prelude.{◌≡◌, IfOk, IfErr};
ghost use Rattle.rtt_io.specs.Names.{NoneFalls};
ghost use Rattle.packetizer.specs.SenderSettings.{AreSettings};
ghost use Rattle.rtt_words.specs.Tasks.{sending_of};
ghost use Rattle.rtt_words.specs.Words.{Send};
ghost use Rattle.text_conversions.specs.Scripts as sender;
ghost use Rattle.rtt_words.specs.Commands.{sent};
ghost use Rattle.command_spec.specs.Outcomes.{Same};
ghost use Rattle.rtt_top.specs.Worlds.{StopsOver, ReadsScript, MakesRecording};

use crate::files::{read_input, refused_line};
use command_spec::Fault;
use file_spec::ConfKind;
use file_spec::limits::MOST_SCRIPT_OCTETS;
use packetizer::SenderSettings;
use rtt_base::Bytes;
use rtt_io::World;
use rtt_words::SendWords;
use script_text::{ConfFault, Script, read_script};
use std::alloc::Global;
use text_conversions::{SendFault, send_script, usual_settings};

/// The script that is sent.
fn script_of<W: World>(alloc: Global, words: &SendWords<'_>, world: &mut W) -> Result<Script, Fault>
    ensures stops { IfErr result (StopsOver W.World world.old world.new words.now.file.now (Send (sent words.now))) }
    ensures read { IfOk result (ReadsScript W.World world.old words.now.file.now) }
    ensures same_contents { W.tells → Same (W.contents world.old) (W.contents world.new) }
    ensures calls_never_fall { NoneFalls W.own_faults world.old world.new }
    ensures objects_never_fall { NoneFalls W.object_faults world.old world.new }
{
    let octets = match read_input(alloc, words.file, MOST_SCRIPT_OCTETS, world) {
        Ok(octets) => octets,
        Err(fault) => return Err(fault),
    };
    match read_script(alloc, octets.as_slice()) {
        Ok(script) => Ok(script),
        Err(ConfFault::Refused { line, kind }) => Err(refused_line(line, kind)),
        Err(ConfFault::NoMemory) => Err(Fault::NoMemory),
    }
}

/// What is sent with: two repeats, and a packet at most each 300 ms.
pub(crate) fn sender_settings(words: &SendWords<'_>) -> SenderSettings
    ensures settings { AreSettings result }
    ensures sending { sender.sending_of result ≡ sending_of (sent words.now) }
{
    usual_settings(words.ssrc, words.seq, words.timestamp)
}

/// The recording of what is sent for a script.
pub(crate) fn recording_of<W: World>(
    alloc: Global,
    words: &SendWords<'_>,
    world: &mut W,
) -> Result<Bytes, Fault>
    ensures stops { IfErr result (StopsOver W.World world.old world.new words.now.file.now (Send (sent words.now))) }
    ensures made { IfOk result (MakesRecording W.World world.old (sent words.now)) }
    ensures same_contents { W.tells → Same (W.contents world.old) (W.contents world.new) }
    ensures calls_never_fall { NoneFalls W.own_faults world.old world.new }
    ensures objects_never_fall { NoneFalls W.object_faults world.old world.new }
{
    let script = match script_of(alloc, words, world) {
        Ok(script) => script,
        Err(fault) => return Err(fault),
    };
    match send_script(alloc, &script, sender_settings(words)) {
        Ok(octets) => Ok(octets),
        Err(SendFault::Full { line }) => Err(refused_line(line, ConfKind::Full)),
        Err(SendFault::NoMemory) => Err(Fault::NoMemory),
    }
}
